// What the progress bank records of an upload, and its bytes.
ghost use Rattle.std.specs.Prelude.{◌≡◌, ◌↔◌, ◌+◌, ◌<◌, ◌≤◌, ◌%◌, ◌++◌, [], length, replicate, IsTrue, ℕ, List, Some, None};
ghost use Rattle.std.specs.Option.{ForSome};
ghost use Rattle.arrayvec.specs.ArrayVec.{array_vec_len};
ghost use Rattle.smp_flash.specs.Layout.{geometry_of, image_of};
ghost use Rattle.smp_progress.specs.declared.record.Record.{Record as Recorded};
ghost use Rattle.smp_progress.specs.declared.record.Record.TheVariants as records;
ghost use Rattle.smp_progress.specs.Record.{record_bytes, IsRecord, IsUpload, IsVersion, IsBody, kind_of, flag_of, digest_of, number_in, digest_in, record_in};

use arrayvec::ArrayVec;
use smp_flash::Layout;
use smp_model::Announcement;

/// What the progress bank records.
#[derive(Clone, Copy, Debug, PartialEq, Eq)]
pub enum Record {
    /// There is no upload.
    None,
    /// An upload.
    Upload {
        /// What it is to become: 32 bytes to the slot's length less one page.
        announcement: Announcement,
        /// How many bytes are accepted: a multiple of the write unit, or the whole length.
        offset: u32,
        /// The bytes of the offset's page that lie before it stand in the scratch page.
        rescue: bool,
    },
}

fn put_bytes(out: &mut ArrayVec<u8, 48>, bytes: &[u8])
    requires { array_vec_len out.old + length bytes.now ≤ 48 }
    ensures { out.new.items ≡ out.old.items ++ bytes.now }
{
    let _ = out.try_extend_from_slice(bytes);
}

fn put_digest(out: &mut ArrayVec<u8, 48>, digest: &Option<[u8; 32]>)
    requires { array_vec_len out.old ≤ 16 }
    ensures { out.new.items ≡ out.old.items ++ digest_of digest.now }
{
    match digest {
        None => put_bytes(out, &[0; 32]),
        Some(digest) => put_bytes(out, digest),
    }
}

/// The byte of an upload's kind: 02 with a rescue under way, else 01.
pub fn kind_byte(rescue: bool) -> u8
    ensures { result ≡ kind_of rescue }
{
    if rescue { 2 } else { 1 }
}

fn flag_byte(digest: &Option<[u8; 32]>) -> u8
    ensures { result ≡ flag_of digest.now }
{
    match digest {
        None => 0,
        Some(_) => 1,
    }
}

/// The number of the layout's image.
pub fn image_byte(layout: &Layout) -> u8
    ensures { result ≡ image_of layout.now }
{
    if layout.image() == 0 {
        return 0;
    }
    let _sizes = layout.geometry();
    1
}

fn put_upload(
    out: &mut ArrayVec<u8, 48>,
    version: u8,
    image: u8,
    announcement: &Announcement,
    offset: u32,
    rescue: bool,
)
    requires { out.old.items ≡ [] }
    ensures { out.new.items ≡ record_bytes version image (records.Upload announcement.now offset rescue) }
{
    let front = [
        version,
        kind_byte(rescue),
        flag_byte(&announcement.digest),
        image,
    ];
    put_bytes(out, &front);
    put_bytes(out, &announcement.length.to_be_bytes());
    put_bytes(out, &offset.to_be_bytes());
    put_bytes(out, &[0; 4]);
    put_digest(out, &announcement.digest);
}

/// Puts the bytes of a record of this version, in the bank of this image, into an empty vector.
pub fn put_record(out: &mut ArrayVec<u8, 48>, version: u8, image: u8, entry: &Record)
    requires { out.old.items ≡ [] }
    ensures { out.new.items ≡ record_bytes version image entry.now }
{
    match entry {
        Record::None => {
            put_bytes(out, &[version, 0, 0, image]);
            put_bytes(out, &[0; 44]);
        }
        Record::Upload {
            announcement,
            offset,
            rescue,
        } => put_upload(out, version, image, announcement, *offset, *rescue),
    }
}

/// The big-endian number of four bytes that stands at `at`.
pub fn number_at(bytes: &[u8], at: usize) -> u32
    requires { at + 4 ≤ length bytes.now }
    ensures { result ≡ number_in at bytes.now }
{
    u32::from_be_bytes([bytes[at], bytes[at + 1], bytes[at + 2], bytes[at + 3]])
}

fn digest_at(bytes: &[u8]) -> Option<[u8; 32]>
    requires { length bytes.now ≡ 48 }
    ensures { result ≡ digest_in bytes.now }
{
    if bytes[2] == 0 {
        return None;
    }
    let mut digest = [0; 32];
    digest.copy_from_slice(&bytes[16..]);
    Some(digest)
}

/// What the fields say.
fn fields_of(bytes: &[u8]) -> Record
    requires { length bytes.now ≡ 48 }
    ensures { result ≡ record_in bytes.now }
{
    if bytes[1] == 0 {
        return Record::None;
    }
    let announcement = Announcement {
        length: number_at(bytes, 4),
        digest: digest_at(bytes),
    };
    Record::Upload {
        announcement,
        offset: number_at(bytes, 8),
        rescue: bytes[1] == 2,
    }
}

/// Whether a rescue may be under way there.
fn is_moved(page: u32, length: u32, offset: u32) -> bool
    requires { 0 < page }
    ensures { IsTrue result ↔ ((offset < length) × (0 < offset % page)) }
{
    offset < length && offset % page != 0
}

/// Whether a record may say this of an upload, on a flash of these sizes.
pub fn may_stand(layout: &Layout, announcement: Announcement, offset: u32, rescue: bool) -> bool
    ensures { IsTrue result ↔ IsUpload (geometry_of layout.now) announcement offset rescue }
{
    let sizes = layout.geometry();
    let length = announcement.length;
    if length < 32 || layout.slot(0).length - sizes.page < length || length < offset {
        return false;
    }
    if offset % sizes.unit != 0 && offset != length {
        return false;
    }
    !rescue || is_moved(sizes.page, length, offset)
}

/// Whether the record may stand on a flash of these sizes.
pub fn is_record(layout: &Layout, entry: &Record) -> bool
    ensures { IsTrue result ↔ IsRecord (geometry_of layout.now) entry.now }
{
    match entry {
        Record::None => true,
        Record::Upload {
            announcement,
            offset,
            rescue,
        } => may_stand(layout, *announcement, *offset, *rescue),
    }
}

/// Whether the bytes are those of the record.
fn is_spelled(version: u8, image: u8, entry: &Record, body: &[u8]) -> bool
    ensures { IsTrue result ↔ (body.now ≡ record_bytes version image entry.now) }
{
    let mut bytes = ArrayVec::new();
    put_record(&mut bytes, version, image, entry);
    bytes.as_slice() == body
}

/// Whether a record of this version may stand in the bank of this image.
fn is_version(version: u8, image: u8) -> bool
    ensures { IsTrue result ↔ IsVersion version image }
{
    version == 2 || (version == 1 && image == 0)
}

/// The record that these bytes are, as the body of the bank of this image: `None` exactly where they are none.
pub fn read_record(layout: &Layout, body: &[u8]) -> Option<Record>
    ensures some { ForSome result (λ entry. IsBody (image_of layout.now) entry body.now × IsRecord (geometry_of layout.now) entry) }
    ensures none { result ≡ None → (entry : Recorded) → IsRecord (geometry_of layout.now) entry → IsBody (image_of layout.now) entry body.now → ⊥ }
{
    let image = image_byte(layout);
    if body.len() != 48 || !is_version(body[0], image) {
        return None;
    }
    let entry = fields_of(body);
    if !is_spelled(body[0], image, &entry, body) {
        return None;
    }
    if !is_record(layout, &entry) {
        return None;
    }
    Some(entry)
}
