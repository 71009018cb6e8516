// What no clause says: whole devices over flashes in memory, packet by packet. The bytes of packets and replies are written out from
// the formats, and the hashes were worked out by a program of its own.
ghost use Rattle.std.specs.Prelude.{◌≡◌, ◌≤◌, length, IfOk, IfSome, IsTrue};
ghost use Rattle.smp_flash.specs.Area.{blank};
ghost use Rattle.smp_flash.specs.Geometry.{is_lawful, size_of};
ghost use Rattle.smp_flash.specs.Layout.{geometry_of};
ghost use Rattle.smp_flash.specs.Memory.{mem_state};
ghost use Rattle.smp_device.specs.Handling.{DeviceSays};

use crate::answering::{Down, Handled};
use crate::device::{Device, OpenFault};
use crate::formatting::{FormatFault, format, format_two};
use crate::showing::Shown;
use arrayvec::ArrayVec;
use sha2::{Digest, Sha256};
use smp_flash::{Arm, ArmKind, Flash, Geometry, Layout, Left, MemFlash, Operation, Region};
use smp_gate::{Bank, banks_fit};
use smp_header::PacketBuffer;
use smp_model::{Announcement, ImageFault, Mark, Version, make_image};
use smp_upload::UploadFault;
use std::alloc::{AllocError, Global};
use std::process::Abort;
use std::test::Fail;

const ONE: Geometry = Geometry {
    page: 512,
    unit: 8,
    slot_pages: 16,
    images: 1,
};

const TWO: Geometry = Geometry {
    page: 512,
    unit: 8,
    slot_pages: 16,
    images: 2,
};

/// The hash that the image of the bytes 00 to 07, version 1.0.0, states of itself.
const ACTIVE_HASH: [u8; 32] = [
    0xe3, 0x10, 0x3e, 0x98, 0x58, 0x84, 0xe9, 0x87, 0xaa, 0xeb, 0x30, 0x91, 0xf1, 0x07, 0xd4, 0xad,
    0x2a, 0xe5, 0xff, 0x47, 0x20, 0xf4, 0xc4, 0x34, 0x59, 0xc3, 0xd0, 0xff, 0x3a, 0x12, 0x65, 0x0d,
];

/// The same of 928 bytes 02, version 2.0.0: an image of 1000 bytes.
const NEW_HASH: [u8; 32] = [
    0x1e, 0x31, 0x22, 0xd0, 0x54, 0xfc, 0xa9, 0xc2, 0x45, 0x01, 0xad, 0x51, 0xaa, 0x56, 0x6f, 0x3a,
    0xf2, 0xe5, 0x38, 0x24, 0xab, 0x5b, 0x41, 0x95, 0x40, 0xb0, 0xbd, 0x10, 0xaf, 0x35, 0x49, 0x2c,
];

/// The same of 128 bytes 03, version 3.0.0: an image of 200 bytes.
const OTHER_HASH: [u8; 32] = [
    0x5b, 0x9c, 0x4c, 0xad, 0x9b, 0x13, 0x0e, 0x0b, 0x86, 0x8c, 0xb6, 0xf6, 0x47, 0x1e, 0xba, 0xa4,
    0x42, 0x2c, 0x10, 0x3e, 0xe9, 0xff, 0x8c, 0xae, 0xdb, 0x83, 0x80, 0xed, 0xe1, 0x81, 0x8f, 0x68,
];

/// The SHA-256 of `abc`, as FIPS 180-4 gives it.
const ABC_HASH: [u8; 32] = [
    0xba, 0x78, 0x16, 0xbf, 0x8f, 0x01, 0xcf, 0xea, 0x41, 0x41, 0x40, 0xde, 0x5d, 0xae, 0x22, 0x23,
    0xb0, 0x03, 0x61, 0xa3, 0x96, 0x17, 0x7a, 0x9c, 0xb4, 0x10, 0xff, 0x61, 0xf2, 0x00, 0x15, 0xad,
];

/// The settings that are saved: none, or one, whose name is `a` and whose value is 01.
#[derive(Clone, Copy, Drop)]
enum Saved {
    Nothing,
    One,
}

/// Their stored form.
fn form_of(saved: Saved) -> &'static [u8] {
    match saved {
        Saved::Nothing => &[1, 0],
        Saved::One => &[1, 1, 1, b'a', 1, 1],
    }
}

type Bytes = Result<Vec<u8>, AllocError>;

fn version(major: u8) -> Version {
    Version {
        major,
        minor: 0,
        revision: 0,
        build: 0,
    }
}

/// An image of so many bytes that are all this one, at most 4000.
fn image_of(alloc: Global, byte: u8, size: usize) -> Bytes {
    let payload = vec![in alloc; byte; size.min(4000)]?;
    let image = make_image(alloc, payload.as_slice(), version(byte))?;
    let mut bytes = Vec::new(alloc);
    bytes.extend_from_slice(image.as_slice())?;
    Ok(bytes)
}

/// The default image.
fn default_image(alloc: Global) -> Bytes {
    let image = make_image(alloc, &[0, 1, 2, 3, 4, 5, 6, 7], version(1))?;
    let mut bytes = Vec::new(alloc);
    bytes.extend_from_slice(image.as_slice())?;
    Ok(bytes)
}

/// A file that begins with the magic of an image, and is none: so many bytes, which differ by the seed.
fn file_of(alloc: Global, size: usize, seed: u8) -> Bytes {
    let mut bytes = Vec::new(alloc);
    bytes.extend_from_slice(&[0x3d, 0xb8, 0xf3, 0x96])?;
    for i in 4..size {
        bytes.push((i % 251) as u8 ^ seed)?;
    }
    Ok(bytes)
}

/// The bytes from one place to another, where they are there.
fn piece(bytes: &[u8], from: usize, to: usize) -> &[u8]
    ensures { length result.now ≤ to }
{
    if from > to || to > bytes.len() {
        return &[];
    }
    &bytes[from..to]
}

/// A flash of these sizes that is all FF.
fn erased(alloc: Global, geometry: Geometry) -> Result<MemFlash, AllocError>
    requires { IsTrue (is_lawful geometry) }
    ensures sizes { IfOk result (λ flash. (mem_state flash).geometry ≡ geometry) }
    ensures erased { IfOk result (λ flash. IfSome (mem_state flash).bytes (λ held. held ≡ blank (size_of (mem_state flash).geometry))) }
{
    MemFlash::new(alloc, geometry)
}

/// A flash of one image, formatted with the default image.
fn one_image(alloc: Global) -> Result<MemFlash, AllocError> {
    let mut flash = erased(alloc, ONE)?;
    let image = default_image(alloc)?;
    let _ = format(&mut flash, piece(image.as_slice(), 0, 80));
    Ok(flash)
}

/// A flash of two images, both the default image.
fn two_images(alloc: Global) -> Result<MemFlash, AllocError> {
    let mut flash = erased(alloc, TWO)?;
    let image = default_image(alloc)?;
    let bytes = piece(image.as_slice(), 0, 80);
    let _ = format_two(&mut flash, bytes, bytes);
    Ok(flash)
}

// Packets.

/// A packet of this first byte, group and command, with sequence 7.
fn packet(alloc: Global, first: u8, group: u8, command: u8, data: &[u8]) -> Bytes {
    let mut bytes = Vec::new(alloc);
    let [high, low] = (data.len().min(2040) as u16).to_be_bytes();
    bytes.extend_from_slice(&[first, 0, high, low, 0, group, 7, command])?;
    bytes.extend_from_slice(data)?;
    Ok(bytes)
}

/// Appends the shortest head of a major type.
fn put_head(out: &mut Vec<u8>, major: u8, n: u32) -> Result<(), AllocError> {
    if n < 24 {
        out.push(major | n as u8)?;
        return Ok(());
    }
    if n < 256 {
        out.push(major | 24)?;
        out.push(n as u8)?;
        return Ok(());
    }
    if n < 65536 {
        out.push(major | 25)?;
        return out.extend_from_slice(&(n as u16).to_be_bytes());
    }
    out.push(major | 26)?;
    out.extend_from_slice(&n.to_be_bytes())
}

fn put_bytes(out: &mut Vec<u8>, bytes: &[u8]) -> Result<(), AllocError> {
    put_head(out, 0x40, bytes.len().min(2040) as u32)?;
    out.extend_from_slice(bytes)
}

/// A start of an upload: `len`, `off` 0, `sha` and `data`, with `image` 1 where it is for that.
fn start(alloc: Global, image: u8, length: u32, digest: &[u8], bytes: &[u8]) -> Bytes {
    let mut data = Vec::new(alloc);
    if image == 1 {
        data.extend_from_slice(b"\xa5\x65image\x01")?;
    } else {
        data.push(0xa4)?;
    }
    data.extend_from_slice(b"\x63len")?;
    put_head(&mut data, 0, length)?;
    data.extend_from_slice(b"\x63off\x00\x63sha")?;
    put_bytes(&mut data, digest)?;
    data.extend_from_slice(b"\x64data")?;
    put_bytes(&mut data, bytes)?;
    packet(alloc, 0x0a, 1, 1, data.as_slice())
}

/// A part of an upload at an offset, with a tag or none.
fn part(alloc: Global, image: u8, off: u32, tag: Option<&[u8]>, bytes: &[u8]) -> Bytes {
    let mut data = Vec::new(alloc);
    let keys = if image == 1 { 3 } else { 2 };
    data.push(0xa0 | if tag.is_some() { keys + 1 } else { keys })?;
    if image == 1 {
        data.extend_from_slice(b"\x65image\x01")?;
    }
    data.extend_from_slice(b"\x63off")?;
    put_head(&mut data, 0, off)?;
    if let Some(tag) = tag {
        data.extend_from_slice(b"\x63sha")?;
        put_bytes(&mut data, tag)?;
    }
    data.extend_from_slice(b"\x64data")?;
    put_bytes(&mut data, bytes)?;
    packet(alloc, 0x0a, 1, 1, data.as_slice())
}

/// A mark, or a confirmation, of the image with this hash.
fn set(alloc: Global, hash: &[u8], confirm: bool) -> Bytes {
    let mut data = Vec::new(alloc);
    data.push(if confirm { 0xa2 } else { 0xa1 })?;
    data.extend_from_slice(b"\x64hash")?;
    put_bytes(&mut data, hash)?;
    if confirm {
        data.extend_from_slice(b"\x67confirm\xf5")?;
    }
    packet(alloc, 0x0a, 1, 0, data.as_slice())
}

/// An erase of a slot.
fn erase(alloc: Global, slot: u8) -> Bytes {
    packet(
        alloc,
        0x0a,
        1,
        5,
        &[0xa1, 0x64, b's', b'l', b'o', b't', slot],
    )
}

/// A write of a setting.
fn write_setting(alloc: Global, name: &[u8], val: &[u8]) -> Bytes {
    let mut data = Vec::new(alloc);
    data.extend_from_slice(b"\xa2\x64name")?;
    put_head(&mut data, 0x60, name.len().min(100) as u32)?;
    data.extend_from_slice(name)?;
    data.extend_from_slice(b"\x63val")?;
    put_bytes(&mut data, val)?;
    packet(alloc, 0x0a, 3, 0, data.as_slice())
}

/// A write of three bytes to a file of this length whose name has one byte.
fn write_file(alloc: Global, name: u8, length: u32) -> Bytes {
    let mut data = Vec::new(alloc);
    data.extend_from_slice(b"\xa4\x63off\x00\x64data\x43abc\x63len")?;
    put_head(&mut data, 0, length)?;
    data.extend_from_slice(b"\x64name\x61")?;
    data.push(name)?;
    packet(alloc, 0x0a, 8, 0, data.as_slice())
}

/// The reply with a wanted offset, in the words of the image group's upload.
fn offset(alloc: Global, off: u32) -> Bytes {
    let mut data = Vec::new(alloc);
    data.extend_from_slice(b"\xa1\x63off")?;
    put_head(&mut data, 0, off)?;
    packet(alloc, 0x0b, 1, 1, data.as_slice())
}

/// The same with whether the digest is right.
fn matched(alloc: Global, off: u32, is: bool) -> Bytes {
    let mut data = Vec::new(alloc);
    data.extend_from_slice(b"\xa2\x63off")?;
    put_head(&mut data, 0, off)?;
    data.extend_from_slice(b"\x65match")?;
    data.push(if is { 0xf5 } else { 0xf4 })?;
    packet(alloc, 0x0b, 1, 1, data.as_slice())
}

/// An error of a group.
fn error(alloc: Global, group: u8, command: u8, number: u32) -> Bytes {
    let mut data = Vec::new(alloc);
    data.extend_from_slice(b"\xa1\x63err\xa2\x65group")?;
    data.push(group)?;
    data.extend_from_slice(b"\x62rc")?;
    put_head(&mut data, 0, number)?;
    packet(alloc, 0x0b, group, command, data.as_slice())
}

/// An entry of a list: whether it names its image, which is this, the slot, the version's first number, the hash, and whether it is
/// pending, confirmed, active and permanent.
#[derive(Clone, Copy, Drop)]
struct Entry<'a> {
    image: Option<u8>,
    slot: u8,
    major: u8,
    hash: &'a [u8],
    pending: bool,
    confirmed: bool,
    active: bool,
    permanent: bool,
}

fn put_truth(out: &mut Vec<u8>, is: bool) -> Result<(), AllocError> {
    out.push(if is { 0xf5 } else { 0xf4 })?;
    Ok(())
}

fn put_entry(out: &mut Vec<u8>, entry: &Entry) -> Result<(), AllocError> {
    match entry.image {
        Some(image) => {
            out.extend_from_slice(b"\xa9\x65image")?;
            out.push(image)?;
        }
        None => out.push(0xa8)?,
    }
    out.extend_from_slice(b"\x64slot")?;
    out.push(entry.slot)?;
    out.extend_from_slice(b"\x67version\x65")?;
    out.push(b'0' | entry.major)?;
    out.extend_from_slice(b".0.0\x64hash")?;
    put_bytes(out, entry.hash)?;
    out.extend_from_slice(b"\x68bootable\xf5\x67pending")?;
    put_truth(out, entry.pending)?;
    out.extend_from_slice(b"\x69confirmed")?;
    put_truth(out, entry.confirmed)?;
    out.extend_from_slice(b"\x66active")?;
    put_truth(out, entry.active)?;
    out.extend_from_slice(b"\x69permanent")?;
    put_truth(out, entry.permanent)
}

/// The list of these entries.
fn list(alloc: Global, entries: &[Entry]) -> Bytes {
    let mut data = Vec::new(alloc);
    data.extend_from_slice(b"\xa1\x66images")?;
    put_head(&mut data, 0x80, entries.len().min(4) as u32)?;
    for entry in entries {
        put_entry(&mut data, entry)?;
    }
    packet(alloc, 0x0b, 1, 0, data.as_slice())
}

/// The default image in a primary slot.
fn active(image: Option<u8>, confirmed: bool) -> Entry<'static> {
    Entry {
        image,
        slot: 0,
        major: 1,
        hash: &ACTIVE_HASH,
        pending: false,
        confirmed,
        active: true,
        permanent: false,
    }
}

/// Another image in a secondary slot that is pending.
fn pending<'a>(image: Option<u8>, major: u8, hash: &'a [u8]) -> Entry<'a> {
    Entry {
        image,
        slot: 1,
        major,
        hash,
        pending: true,
        confirmed: false,
        active: false,
        permanent: false,
    }
}

// Devices.

/// What happens to a device, and what is wanted of it.
#[derive(Clone, Copy, Drop)]
enum Event<'a> {
    /// A packet comes, and is answered by this one.
    Asks(&'a [u8], &'a [u8]),
    /// The same, and no write and no erase is made.
    Still(&'a [u8], &'a [u8]),
    /// A packet comes, and a cut falls.
    Cut(&'a [u8]),
    /// The flash is armed.
    Armed(Arm),
    /// The power comes, and the device is started: it shows this of image 0, and these settings are saved.
    Boot(Shown, Saved),
    /// The same of a start that fails.
    Fails(UploadFault),
}

/// What comes of a packet to a device that is up.
fn ask(
    geometry: Geometry,
    device: &mut Device,
    flash: &mut MemFlash,
    bytes: &[u8],
    out: &mut PacketBuffer,
) -> Option<Result<Handled, Down>>
    requires sizes { geometry_of device.old.places.first ≡ geometry }
    requires says { IfSome (mem_state flash.old).bytes (DeviceSays device.old) }
    ensures sizes { geometry_of device.new.places.first ≡ geometry }
    ensures says { IfSome (mem_state flash.new).bytes (DeviceSays device.new) }
{
    if flash.geometry() != geometry || !device.is_up() {
        return None;
    }
    Some(device.handle(flash, bytes, out))
}

/// The power comes, and the device is started.
fn boot(
    geometry: Geometry,
    device: &mut Device,
    flash: &mut MemFlash,
) -> Option<Result<(), UploadFault>>
    requires sizes { geometry_of device.old.places.first ≡ geometry }
    requires says { IfSome (mem_state flash.old).bytes (DeviceSays device.old) }
    ensures sizes { geometry_of device.new.places.first ≡ geometry }
    ensures says { IfSome (mem_state flash.new).bytes (DeviceSays device.new) }
{
    flash.power_on();
    if flash.geometry() != geometry {
        return None;
    }
    Some(device.restart(flash))
}

/// Lets one thing happen.
fn happens(
    rt: &impl Abort,
    geometry: Geometry,
    device: &mut Device,
    flash: &mut MemFlash,
    event: Event,
    i: usize,
)
    requires sizes { geometry_of device.old.places.first ≡ geometry }
    requires says { IfSome (mem_state flash.old).bytes (DeviceSays device.old) }
    ensures sizes { geometry_of device.new.places.first ≡ geometry }
    ensures says { IfSome (mem_state flash.new).bytes (DeviceSays device.new) }
{
    let mut out = ArrayVec::new();
    let changes = flash.changes();
    match event {
        Event::Asks(bytes, reply) => {
            let answer = ask(geometry, device, flash, bytes, &mut out);
            assert_eq!(rt; answer, Some(Ok(Handled::Reply)), "{i}");
            assert_eq!(rt; out.as_slice(), reply, "{i}");
        }
        Event::Still(bytes, reply) => {
            let answer = ask(geometry, device, flash, bytes, &mut out);
            assert_eq!(rt; answer, Some(Ok(Handled::Reply)), "{i}");
            assert_eq!(rt; out.as_slice(), reply, "{i}");
            assert_eq!(rt; flash.changes(), changes, "{i}");
        }
        Event::Cut(bytes) => {
            let answer = ask(geometry, device, flash, bytes, &mut out);
            assert_eq!(rt; answer, Some(Err(Down::Off)), "{i}");
            assert!(rt; !flash.is_on(), "{i}");
        }
        Event::Armed(arm) => {
            if arm.after >= 1 {
                flash.arm(arm);
            }
        }
        Event::Boot(shown, saved) => {
            assert_eq!(rt; boot(geometry, device, flash), Some(Ok(())), "{i}");
            assert_eq!(rt; device.shown(0), Some(shown), "{i}");
            assert_eq!(rt; device.saved_form(), form_of(saved), "{i}");
        }
        Event::Fails(fault) => {
            assert_eq!(rt; boot(geometry, device, flash), Some(Err(fault)), "{i}");
            assert!(rt; !device.is_up(), "{i}");
        }
    }
}

/// Opens a device on a flash of these sizes.
#[tactic(auto, using(crate::proofs::Opened::opened_sizes))]
fn opened(alloc: Global, geometry: Geometry, flash: &mut MemFlash) -> Result<Device, OpenFault>
    requires { (mem_state flash.old).geometry ≡ geometry }
    ensures sizes { IfOk result (λ device. geometry_of device.places.first ≡ geometry) }
    ensures says { IfOk result (λ device. IfSome (mem_state flash.new).bytes (DeviceSays device)) }
{
    Device::open(alloc, flash)
}

/// Opens a device, and lets one thing after another happen.
fn follow(
    rt: &impl Abort,
    alloc: Global,
    geometry: Geometry,
    flash: &mut MemFlash,
    events: &[Event],
) {
    if flash.geometry() != geometry {
        return;
    }
    let mut device = match opened(alloc, geometry, flash) {
        Ok(device) => device,
        Err(fault) => {
            assert!(rt; false, "{fault:?}");
            return;
        }
    };
    for (i, event) in events.iter().enumerate() {
        happens(rt, geometry, &mut device, flash, *event, i);
    }
}

/// Nothing was uploaded.
const NOTHING: Shown = Shown {
    upload: None,
    pending: None,
    confirmed: false,
};

/// An upload of so many bytes with this digest, of which so many were accepted.
fn received(length: u32, digest: [u8; 32], off: u32) -> Shown {
    Shown {
        upload: Some((
            Announcement {
                length,
                digest: Some(digest),
            },
            off,
        )),
        pending: None,
        confirmed: false,
    }
}

/// A write or an erase that is cut.
fn cut(region: Region, after: u32, left: Left) -> Arm {
    Arm {
        kind: ArmKind::Cut,
        region,
        after,
        left,
    }
}

// Formatting and opening.

#[test]
fn only_images_that_fit_are_formatted(rt: HostRuntime) -> Result<(), Fail> {
    let alloc = rt.alloc();
    let image = image_of(alloc, 1, 60)?;
    let mut wrong = image_of(alloc, 1, 60)?;
    let large = image_of(alloc, 1, 1465)?;
    let full = image_of(alloc, 1, 1464)?;
    if wrong.len() > 40 {
        wrong[40] = 7;
    }
    let small = Geometry {
        page: 512,
        unit: 8,
        slot_pages: 4,
        images: 2,
    };
    let good = piece(image.as_slice(), 0, 132);
    let bad = piece(wrong.as_slice(), 0, 132);
    let long = piece(large.as_slice(), 0, 1537);
    let most = piece(full.as_slice(), 0, 1536);
    let rows = [
        (good, piece(good, 0, 31), Err(ImageFault::Short)),
        (bad, long, Err(ImageFault::WrongHash)),
        (long, bad, Err(ImageFault::TooLarge)),
        (good, bad, Err(ImageFault::WrongHash)),
        (most, good, Ok(())),
        (good, most, Ok(())),
    ];
    for (first, second, result) in rows {
        let mut flash = erased(alloc, small)?;
        let wanted = match result {
            Ok(()) => Ok(()),
            Err(fault) => Err(FormatFault::BadImage(fault)),
        };
        if first.len() < 4000 && second.len() < 4000 {
            assert_eq!(rt; format_two(&mut flash, first, second), wanted);
        }
        assert_eq!(rt; flash.changes() == 0, result.is_err());
        assert_eq!(rt; flash.erases(), 0);
        assert_eq!(rt; Device::open(alloc, &mut flash).is_ok(), result.is_ok());
    }
    Ok(())
}

#[test]
fn an_erased_flash_is_unformatted(rt: HostRuntime) -> Result<(), Fail> {
    for geometry in [ONE, TWO] {
        let mut flash = MemFlash::new(rt.alloc(), if geometry.images == 1 { ONE } else { TWO })?;
        match Device::open(rt.alloc(), &mut flash) {
            Ok(_) => assert!(rt; false),
            Err(fault) => assert_eq!(rt; fault, OpenFault::Unformatted),
        }
    }
    Ok(())
}

// Uploads.

/// A start and a part are answered by what is held, whatever comes again.
#[test]
fn an_upload_is_answered_by_what_is_held(rt: HostRuntime) -> Result<(), Fail> {
    let alloc = rt.alloc();
    let file = file_of(alloc, 300, 0)?;
    let bytes = file.as_slice();
    let digest = Sha256::digest(bytes);
    let first = start(alloc, 0, 300, &digest, piece(bytes, 0, 100))?;
    let short = part(alloc, 0, 96, None, piece(bytes, 96, 99))?;
    let last = part(alloc, 0, 96, None, piece(bytes, 96, 300))?;
    let more = part(alloc, 0, 300, None, &[0])?;
    let begun = packet(alloc, 0x0b, 1, 1, b"\xa1\x63off\x18\x60")?;
    let done = packet(alloc, 0x0b, 1, 1, b"\xa2\x63off\x19\x01\x2c\x65match\xf5")?;
    let held = offset(alloc, 300)?;
    let past = error(alloc, 1, 1, 31)?;
    let mut flash = one_image(alloc)?;
    follow(
        &rt,
        alloc,
        ONE,
        &mut flash,
        &[
            Event::Asks(first.as_slice(), begun.as_slice()),
            Event::Still(short.as_slice(), begun.as_slice()),
            Event::Still(first.as_slice(), begun.as_slice()),
            Event::Asks(last.as_slice(), done.as_slice()),
            Event::Still(last.as_slice(), held.as_slice()),
            Event::Still(more.as_slice(), past.as_slice()),
        ],
    );
    Ok(())
}

/// A wrong digest gives the upload up.
#[test]
fn a_wrong_digest_gives_the_upload_up(rt: HostRuntime) -> Result<(), Fail> {
    let alloc = rt.alloc();
    let file = file_of(alloc, 300, 0)?;
    let bytes = file.as_slice();
    let last = part(alloc, 0, 96, None, piece(bytes, 96, 300))?;
    let begun = offset(alloc, 96)?;
    let zeros = start(alloc, 0, 300, &[0; 32], piece(bytes, 0, 100))?;
    let wrong = matched(alloc, 300, false)?;
    let none = offset(alloc, 0)?;
    let short = part(alloc, 0, 96, None, piece(bytes, 96, 99))?;
    let nothing = offset(alloc, 0)?;
    let mut flash = one_image(alloc)?;
    follow(
        &rt,
        alloc,
        ONE,
        &mut flash,
        &[
            Event::Asks(zeros.as_slice(), begun.as_slice()),
            Event::Asks(last.as_slice(), wrong.as_slice()),
            Event::Still(last.as_slice(), none.as_slice()),
            Event::Boot(NOTHING, Saved::Nothing),
            Event::Still(short.as_slice(), nothing.as_slice()),
        ],
    );
    Ok(())
}

/// Parts of two files: without tags they are taken for one another, and the digest refuses what comes of it. With tags they aren't.
#[test]
fn tags_tell_files_apart(rt: HostRuntime) -> Result<(), Fail> {
    let alloc = rt.alloc();
    let a = file_of(alloc, 1000, 0)?;
    let b = file_of(alloc, 800, 0x55)?;
    let (a, b) = (a.as_slice(), b.as_slice());
    let (of_a, of_b) = (Sha256::digest(a), Sha256::digest(b));
    let start_a = start(alloc, 0, 1000, &of_a, piece(a, 0, 480))?;
    let start_b = start(alloc, 0, 800, &of_b, piece(b, 0, 480))?;
    let tagged_b = part(alloc, 0, 480, Some(&of_b), piece(b, 480, 800))?;
    let part_b = part(alloc, 0, 480, None, piece(b, 480, 800))?;
    let last_a = part(alloc, 0, 800, None, piece(a, 800, 1000))?;
    let odd = part(alloc, 0, 480, Some(piece(&of_a, 0, 31)), piece(a, 480, 800))?;
    let at_480 = packet(alloc, 0x0b, 1, 1, b"\xa1\x63off\x19\x01\xe0")?;
    let at_800 = offset(alloc, 800)?;
    let wrong = matched(alloc, 1000, false)?;
    let none = offset(alloc, 0)?;
    let digest = error(alloc, 1, 1, 24)?;
    let mut flash = one_image(alloc)?;
    follow(
        &rt,
        alloc,
        ONE,
        &mut flash,
        &[
            Event::Still(tagged_b.as_slice(), none.as_slice()),
            Event::Asks(start_a.as_slice(), at_480.as_slice()),
            Event::Asks(start_b.as_slice(), at_480.as_slice()),
            Event::Asks(start_a.as_slice(), at_480.as_slice()),
            Event::Still(tagged_b.as_slice(), at_480.as_slice()),
            Event::Still(odd.as_slice(), digest.as_slice()),
            Event::Asks(part_b.as_slice(), at_800.as_slice()),
            Event::Asks(last_a.as_slice(), wrong.as_slice()),
        ],
    );
    Ok(())
}

/// The start and two parts of an upload of 2000 bytes, its digest, and the replies with offsets 480 and 960.
#[derive(Drop)]
struct Parts {
    first: Vec<u8>,
    next: Vec<u8>,
    third: Vec<u8>,
    digest: [u8; 32],
    at_480: Vec<u8>,
    at_960: Vec<u8>,
}

fn sent_parts(alloc: Global) -> Result<Parts, AllocError> {
    let file = image_of(alloc, 2, 1928)?;
    let bytes = file.as_slice();
    let digest = Sha256::digest(bytes);
    Ok(Parts {
        first: start(alloc, 0, 2000, &digest, piece(bytes, 0, 480))?,
        next: part(alloc, 0, 480, Some(&digest), piece(bytes, 480, 960))?,
        third: part(alloc, 0, 960, Some(&digest), piece(bytes, 960, 1440))?,
        digest,
        at_480: packet(alloc, 0x0b, 1, 1, b"\xa1\x63off\x19\x01\xe0")?,
        at_960: packet(alloc, 0x0b, 1, 1, b"\xa1\x63off\x19\x03\xc0")?,
    })
}

/// A part that is cut is stored when it comes again, unless it was stored whole.
#[test]
fn a_cut_part_is_sent_again(rt: HostRuntime) -> Result<(), Fail> {
    let alloc = rt.alloc();
    let sent = sent_parts(alloc)?;
    for (region, left, off) in [
        (Region::Slot1, Left::Whole, 480),
        (Region::ProgressGate, Left::Nothing, 480),
        (Region::ProgressGate, Left::Whole, 960),
    ] {
        let mut flash = one_image(alloc)?;
        follow(
            &rt,
            alloc,
            ONE,
            &mut flash,
            &[
                Event::Asks(sent.first.as_slice(), sent.at_480.as_slice()),
                Event::Armed(cut(region, 1, left)),
                Event::Cut(sent.next.as_slice()),
                Event::Boot(received(2000, sent.digest, off), Saved::Nothing),
                Event::Asks(sent.next.as_slice(), sent.at_960.as_slice()),
            ],
        );
    }
    Ok(())
}

/// Also where the start that rescues it is cut.
#[test]
fn a_cut_rescue_is_made_again(rt: HostRuntime) -> Result<(), Fail> {
    let alloc = rt.alloc();
    let sent = sent_parts(alloc)?;
    for region in [Region::Slot1, Region::Scratch] {
        let mut flash = one_image(alloc)?;
        follow(
            &rt,
            alloc,
            ONE,
            &mut flash,
            &[
                Event::Asks(sent.first.as_slice(), sent.at_480.as_slice()),
                Event::Armed(cut(Region::Slot1, 1, Left::Whole)),
                Event::Cut(sent.next.as_slice()),
                Event::Armed(cut(region, 1, Left::Seed(7))),
                Event::Fails(UploadFault::Off),
                Event::Boot(received(2000, sent.digest, 480), Saved::Nothing),
                Event::Asks(sent.next.as_slice(), sent.at_960.as_slice()),
            ],
        );
    }
    Ok(())
}

/// The second gate from then on is that of the part after the next one.
#[test]
fn the_second_gate_is_cut(rt: HostRuntime) -> Result<(), Fail> {
    let alloc = rt.alloc();
    let sent = sent_parts(alloc)?;
    let mut flash = one_image(alloc)?;
    follow(
        &rt,
        alloc,
        ONE,
        &mut flash,
        &[
            Event::Asks(sent.first.as_slice(), sent.at_480.as_slice()),
            Event::Armed(cut(Region::ProgressGate, 2, Left::Nothing)),
            Event::Asks(sent.next.as_slice(), sent.at_960.as_slice()),
            Event::Cut(sent.third.as_slice()),
            Event::Boot(received(2000, sent.digest, 960), Saved::Nothing),
        ],
    );
    Ok(())
}

/// A read that fails breaks a start off, and the next one goes through.
#[test]
fn a_start_is_tried_again(rt: HostRuntime) -> Result<(), Fail> {
    let mut flash = one_image(rt.alloc())?;
    follow(
        &rt,
        rt.alloc(),
        ONE,
        &mut flash,
        &[
            Event::Armed(Arm {
                kind: ArmKind::Read,
                region: Region::Any,
                after: 1,
                left: Left::Nothing,
            }),
            Event::Fails(UploadFault::Fault(Operation::Read)),
            Event::Boot(NOTHING, Saved::Nothing),
        ],
    );
    Ok(())
}

// Marks.

/// The start and the parts of the image of 1000 bytes, which is then whole.
fn new_image(alloc: Global) -> Result<[Vec<u8>; 3], AllocError> {
    let file = image_of(alloc, 2, 928)?;
    let bytes = file.as_slice();
    let digest = Sha256::digest(bytes);
    Ok([
        start(alloc, 0, 1000, &digest, piece(bytes, 0, 480))?,
        part(alloc, 0, 480, Some(&digest), piece(bytes, 480, 960))?,
        part(alloc, 0, 960, Some(&digest), piece(bytes, 960, 1000))?,
    ])
}

/// An image that is pending is marked once, and nothing changes it.
#[test]
fn a_pending_image_stays(rt: HostRuntime) -> Result<(), Fail> {
    let alloc = rt.alloc();
    let [first, next, last] = new_image(alloc)?;
    let at_480 = offset(alloc, 480)?;
    let at_960 = offset(alloc, 960)?;
    let whole = matched(alloc, 1000, true)?;
    let at_1000 = offset(alloc, 1000)?;
    let test = set(alloc, &NEW_HASH, false)?;
    let confirm = set(alloc, &NEW_HASH, true)?;
    let both = list(alloc, &[active(None, false), pending(None, 2, &NEW_HASH)])?;
    let already = error(alloc, 1, 0, 28)?;
    let file = file_of(alloc, 300, 0)?;
    let other = start(alloc, 0, 300, &[0; 32], piece(file.as_slice(), 0, 100))?;
    let busy = error(alloc, 1, 1, 9)?;
    let erase_1 = erase(alloc, 1)?;
    let erase_0 = erase(alloc, 0)?;
    let no_erase = error(alloc, 1, 5, 9)?;
    let no_slot = error(alloc, 1, 5, 14)?;
    let mut flash = one_image(alloc)?;
    follow(
        &rt,
        alloc,
        ONE,
        &mut flash,
        &[
            Event::Asks(first.as_slice(), at_480.as_slice()),
            Event::Asks(next.as_slice(), at_960.as_slice()),
            Event::Asks(last.as_slice(), whole.as_slice()),
            Event::Asks(test.as_slice(), both.as_slice()),
            Event::Still(test.as_slice(), both.as_slice()),
            Event::Still(confirm.as_slice(), already.as_slice()),
            Event::Still(other.as_slice(), busy.as_slice()),
            Event::Still(erase_1.as_slice(), no_erase.as_slice()),
            Event::Still(erase_0.as_slice(), no_slot.as_slice()),
            Event::Still(first.as_slice(), at_1000.as_slice()),
        ],
    );
    Ok(())
}

/// A mark that is cut is not set where its last write wasn't made.
#[test]
fn a_cut_mark_is_not_set(rt: HostRuntime) -> Result<(), Fail> {
    let alloc = rt.alloc();
    let [first, next, last] = new_image(alloc)?;
    let at_480 = offset(alloc, 480)?;
    let at_960 = offset(alloc, 960)?;
    let whole = matched(alloc, 1000, true)?;
    let test = set(alloc, &NEW_HASH, false)?;
    let confirm = set(alloc, &NEW_HASH, true)?;
    let both = list(alloc, &[active(None, false), pending(None, 2, &NEW_HASH)])?;
    let file = image_of(alloc, 2, 928)?;
    let unmarked = received(1000, Sha256::digest(file.as_slice()), 1000);
    let mut flash = one_image(alloc)?;
    follow(
        &rt,
        alloc,
        ONE,
        &mut flash,
        &[
            Event::Asks(first.as_slice(), at_480.as_slice()),
            Event::Asks(next.as_slice(), at_960.as_slice()),
            Event::Asks(last.as_slice(), whole.as_slice()),
            Event::Armed(cut(Region::Slot1, 2, Left::Nothing)),
            Event::Cut(confirm.as_slice()),
            Event::Boot(unmarked, Saved::Nothing),
            Event::Asks(test.as_slice(), both.as_slice()),
        ],
    );
    Ok(())
}

/// It is set where that was made.
#[test]
fn a_cut_mark_is_set(rt: HostRuntime) -> Result<(), Fail> {
    let alloc = rt.alloc();
    let [first, next, last] = new_image(alloc)?;
    let at_480 = offset(alloc, 480)?;
    let at_960 = offset(alloc, 960)?;
    let whole = matched(alloc, 1000, true)?;
    let confirm = set(alloc, &NEW_HASH, true)?;
    let file = image_of(alloc, 2, 928)?;
    let marked = Shown {
        pending: Some(Mark::Permanent),
        ..received(1000, Sha256::digest(file.as_slice()), 1000)
    };
    let test = set(alloc, &NEW_HASH, false)?;
    let already = error(alloc, 1, 0, 28)?;
    let mut flash = one_image(alloc)?;
    follow(
        &rt,
        alloc,
        ONE,
        &mut flash,
        &[
            Event::Asks(first.as_slice(), at_480.as_slice()),
            Event::Asks(next.as_slice(), at_960.as_slice()),
            Event::Asks(last.as_slice(), whole.as_slice()),
            Event::Armed(cut(Region::Slot1, 2, Left::Whole)),
            Event::Cut(confirm.as_slice()),
            Event::Boot(marked, Saved::Nothing),
            Event::Still(test.as_slice(), already.as_slice()),
        ],
    );
    Ok(())
}

/// A hash of no bytes, or null, means the image that runs.
#[test]
fn no_hash_confirms_the_active_image(rt: HostRuntime) -> Result<(), Fail> {
    let alloc = rt.alloc();
    let empty = set(alloc, &[], true)?;
    let null = packet(alloc, 0x0a, 1, 0, b"\xa2\x64hash\xf6\x67confirm\xf5")?;
    let alone = list(alloc, &[active(None, true)])?;
    let hash = set(alloc, &ACTIVE_HASH, true)?;
    let again = list(alloc, &[active(None, true)])?;
    let mut flash = one_image(alloc)?;
    follow(
        &rt,
        alloc,
        ONE,
        &mut flash,
        &[
            Event::Asks(empty.as_slice(), alone.as_slice()),
            Event::Still(null.as_slice(), alone.as_slice()),
            Event::Boot(
                Shown {
                    confirmed: true,
                    ..NOTHING
                },
                Saved::Nothing,
            ),
            Event::Still(hash.as_slice(), again.as_slice()),
        ],
    );
    Ok(())
}

// Two images.

/// Slot 3 is erased where there are two images.
#[test]
fn slot_3_of_two_images_is_erased(rt: HostRuntime) -> Result<(), Fail> {
    let erase: [u8; 15] = *b"\x0a\x00\x00\x07\x00\x01\x00\x05\xa1\x64slot\x03";
    let done: [u8; 9] = *b"\x0b\x00\x00\x01\x00\x01\x00\x05\xa0";
    let mut flash = two_images(rt.alloc())?;
    follow(
        &rt,
        rt.alloc(),
        TWO,
        &mut flash,
        &[Event::Still(&erase, &done)],
    );
    Ok(())
}

#[test]
fn one_image_has_no_slot_3(rt: HostRuntime) -> Result<(), Fail> {
    let erase: [u8; 15] = *b"\x0a\x00\x00\x07\x00\x01\x00\x05\xa1\x64slot\x03";
    let refused: [u8; 25] =
        *b"\x0b\x00\x00\x11\x00\x01\x00\x05\xa1\x63err\xa2\x65group\x01\x62rc\x0e";
    let mut flash = one_image(rt.alloc())?;
    follow(
        &rt,
        rt.alloc(),
        ONE,
        &mut flash,
        &[Event::Still(&erase, &refused)],
    );
    Ok(())
}

/// An upload to image 1 leaves what is pending of image 0.
#[test]
fn both_images_are_pending(rt: HostRuntime) -> Result<(), Fail> {
    let alloc = rt.alloc();
    let [first, next, last] = new_image(alloc)?;
    let at_480 = offset(alloc, 480)?;
    let at_960 = offset(alloc, 960)?;
    let whole = matched(alloc, 1000, true)?;
    let test = set(alloc, &NEW_HASH, false)?;
    let zero = [active(Some(0), false), pending(Some(0), 2, &NEW_HASH)];
    let [running, waiting] = zero;
    let one = list(alloc, &[running, waiting, active(Some(1), false)])?;
    let file = image_of(alloc, 3, 128)?;
    let bytes = file.as_slice();
    let digest = Sha256::digest(bytes);
    let second = start(alloc, 1, 200, &digest, piece(bytes, 0, 200))?;
    let stored = matched(alloc, 200, true)?;
    let other = set(alloc, &OTHER_HASH, false)?;
    let both = list(
        alloc,
        &[
            running,
            waiting,
            active(Some(1), false),
            pending(Some(1), 3, &OTHER_HASH),
        ],
    )?;
    let resumed = offset(alloc, 1000)?;
    let erase_3 = erase(alloc, 3)?;
    let no_erase = error(alloc, 1, 5, 9)?;
    let mut flash = two_images(alloc)?;
    follow(
        &rt,
        alloc,
        TWO,
        &mut flash,
        &[
            Event::Asks(first.as_slice(), at_480.as_slice()),
            Event::Asks(next.as_slice(), at_960.as_slice()),
            Event::Asks(last.as_slice(), whole.as_slice()),
            Event::Asks(test.as_slice(), one.as_slice()),
            Event::Asks(second.as_slice(), stored.as_slice()),
            Event::Asks(other.as_slice(), both.as_slice()),
            Event::Still(first.as_slice(), resumed.as_slice()),
            Event::Boot(
                Shown {
                    pending: Some(Mark::Test),
                    ..received(
                        1000,
                        Sha256::digest(image_of(alloc, 2, 928)?.as_slice()),
                        1000,
                    )
                },
                Saved::Nothing,
            ),
            Event::Still(erase_3.as_slice(), no_erase.as_slice()),
        ],
    );
    Ok(())
}

/// Puts a record of version 1 into the progress bank: of an upload of 2000 bytes without a digest, of which 480 were accepted.
fn put_old_record(flash: &mut MemFlash, layout: &Layout) -> bool
    requires { geometry_of layout.now ≡ (mem_state flash.old).geometry }
{
    banks_fit();
    let mut record = [0u8; 48];
    record[0] = 1;
    record[1] = 1;
    record[6] = 7;
    record[7] = 0xd0;
    record[10] = 1;
    record[11] = 0xe0;
    let mut body = ArrayVec::new();
    match Bank::open(flash, layout.progress(), 8, &mut body) {
        Ok(bank) => {
            let mut bank = bank;
            bank.replace(flash, &record).is_ok()
        }
        Err(_) => false,
    }
}

/// The first two bytes of the body of the progress bank.
fn body_of(flash: &mut MemFlash, layout: &Layout) -> Option<(u8, u8)>
    requires { geometry_of layout.now ≡ (mem_state flash.old).geometry }
{
    banks_fit();
    let mut body = ArrayVec::new();
    match Bank::open(flash, layout.progress(), 8, &mut body) {
        Ok(_) => {
            let bytes = body.as_slice();
            if bytes.len() < 2 {
                return None;
            }
            Some((bytes[0], bytes[1]))
        }
        Err(_) => None,
    }
}

/// A record of version 1 is read, and the next one is of version 2.
#[test]
fn an_old_record_is_read_and_replaced(rt: HostRuntime) -> Result<(), Fail> {
    let alloc = rt.alloc();
    let layout = Layout::of(ONE);
    let mut flash = one_image(alloc)?;
    if flash.geometry() != ONE {
        return Ok(());
    }
    assert!(rt; put_old_record(&mut flash, &layout));
    let file = file_of(alloc, 300, 0)?;
    let bytes = file.as_slice();
    let other = start(alloc, 0, 300, &Sha256::digest(bytes), piece(bytes, 0, 100))?;
    let begun = offset(alloc, 96)?;
    let old = Shown {
        upload: Some((
            Announcement {
                length: 2000,
                digest: None,
            },
            480,
        )),
        ..NOTHING
    };
    follow(
        &rt,
        alloc,
        ONE,
        &mut flash,
        &[
            Event::Boot(old, Saved::Nothing),
            Event::Asks(other.as_slice(), begun.as_slice()),
        ],
    );
    if flash.geometry() == ONE {
        assert_eq!(rt; body_of(&mut flash, &layout), Some((2, 1)));
    }
    Ok(())
}

// Settings and files.

/// A setting runs when it is written, and stays when it is saved.
#[test]
fn settings_stay_when_they_are_saved(rt: HostRuntime) -> Result<(), Fail> {
    let write: [u8; 22] = *b"\x0a\x00\x00\x0e\x00\x03\x08\x00\xa2\x64name\x61a\x63val\x41\x01";
    let written: [u8; 9] = *b"\x0b\x00\x00\x01\x00\x03\x08\x00\xa0";
    let read: [u8; 16] = *b"\x08\x00\x00\x08\x00\x03\x0a\x00\xa1\x64name\x61a";
    let missing: [u8; 25] =
        *b"\x09\x00\x00\x11\x00\x03\x0a\x00\xa1\x63err\xa2\x65group\x03\x62rc\x03";
    let save: [u8; 9] = *b"\x0a\x00\x00\x01\x00\x03\x09\x03\xa0";
    let saved: [u8; 9] = *b"\x0b\x00\x00\x01\x00\x03\x09\x03\xa0";
    let found: [u8; 15] = *b"\x09\x00\x00\x07\x00\x03\x0a\x00\xa1\x63val\x41\x01";
    let mut flash = one_image(rt.alloc())?;
    follow(
        &rt,
        rt.alloc(),
        ONE,
        &mut flash,
        &[
            Event::Still(&write, &written),
            Event::Boot(NOTHING, Saved::Nothing),
            Event::Still(&read, &missing),
            Event::Still(&write, &written),
            Event::Asks(&save, &saved),
            Event::Still(&save, &saved),
            Event::Boot(NOTHING, Saved::One),
            Event::Still(&read, &found),
        ],
    );
    Ok(())
}

/// A packet after another to one device, each answered by the same reply, and then one that is answered by another.
fn fills<'a>(
    rt: &impl Abort,
    alloc: Global,
    packets: &'a [Vec<u8>],
    reply: &'a [u8],
    last: &'a [u8],
    refused: &'a [u8],
) -> Result<(), Fail> {
    let mut events = Vec::new(alloc);
    for packet in packets {
        events.push(Event::Still(packet.as_slice(), reply))?;
    }
    events.push(Event::Still(last, refused))?;
    let mut flash = one_image(alloc)?;
    follow(rt, alloc, ONE, &mut flash, events.as_slice());
    Ok(())
}

/// Settings have limits.
#[test]
fn settings_are_refused_by_their_limits(rt: HostRuntime) -> Result<(), Fail> {
    let alloc = rt.alloc();
    let written = packet(alloc, 0x0b, 3, 0, &[0xa0])?;
    let full = error(alloc, 3, 0, 65)?;
    let mut short = Vec::new(alloc);
    let mut long = Vec::new(alloc);
    for n in 0..32u8 {
        short.push(write_setting(alloc, &[b'a', b'A' + n], &[])?)?;
    }
    for n in 0..18u8 {
        let mut name = [b'n'; 32];
        name[0] = b'A' + n;
        long.push(write_setting(alloc, &name, &[7; 128])?)?;
    }
    let next = write_setting(alloc, b"zz", &[])?;
    let large = write_setting(alloc, &[b'z'; 32], &[7; 128])?;
    let (written, full) = (written.as_slice(), full.as_slice());
    fills(&rt, alloc, short.as_slice(), written, next.as_slice(), full)?;
    fills(&rt, alloc, long.as_slice(), written, large.as_slice(), full)?;
    let value = error(alloc, 3, 0, 64)?;
    let name = error(alloc, 3, 0, 2)?;
    let long_value = write_setting(alloc, b"a", &[7; 129])?;
    let long_name = write_setting(alloc, &[b'z'; 33], &[7])?;
    let none = [];
    fills(
        &rt,
        alloc,
        &none,
        written,
        long_value.as_slice(),
        value.as_slice(),
    )?;
    fills(
        &rt,
        alloc,
        &none,
        written,
        long_name.as_slice(),
        name.as_slice(),
    )
}

/// A file is told until the device is started again. There are eight, of at most 16384 bytes.
#[test]
fn files_are_told(rt: HostRuntime) -> Result<(), Fail> {
    let alloc = rt.alloc();
    let write: [u8; 35] =
        *b"\x0a\x00\x00\x1b\x00\x08\x00\x00\xa4\x63off\x00\x64data\x43abc\x63len\x03\x64name\x61a";
    let stored: [u8; 14] = *b"\x0b\x00\x00\x06\x00\x08\x00\x00\xa1\x63off\x03";
    let ask = packet(alloc, 0x08, 8, 2, b"\xa1\x64name\x61a")?;
    let mut data = Vec::new(alloc);
    data.extend_from_slice(b"\xa3\x64type\x66sha256\x63len\x03\x66output")?;
    put_bytes(&mut data, &ABC_HASH)?;
    let hash = packet(alloc, 0x09, 8, 2, data.as_slice())?;
    let status = packet(alloc, 0x08, 8, 1, b"\xa1\x64name\x61a")?;
    let gone = packet(alloc, 0x09, 8, 1, b"\xa1\x63err\xa2\x65group\x08\x62rc\x03")?;
    let mut flash = one_image(alloc)?;
    follow(
        &rt,
        alloc,
        ONE,
        &mut flash,
        &[
            Event::Still(&write, &stored),
            Event::Still(ask.as_slice(), hash.as_slice()),
            Event::Boot(NOTHING, Saved::Nothing),
            Event::Still(status.as_slice(), gone.as_slice()),
        ],
    );
    let offset = packet(alloc, 0x0b, 8, 0, b"\xa1\x63off\x03")?;
    let mut eight = Vec::new(alloc);
    for n in 0..8u8 {
        eight.push(write_file(alloc, b'A' + n, 3)?)?;
    }
    let ninth = write_file(alloc, b'z', 3)?;
    let no_free = error(alloc, 8, 0, 64)?;
    let long = write_file(alloc, b'z', 16385)?;
    let too_long = error(alloc, 8, 0, 65)?;
    let offset = offset.as_slice();
    fills(
        &rt,
        alloc,
        eight.as_slice(),
        offset,
        ninth.as_slice(),
        no_free.as_slice(),
    )?;
    fills(
        &rt,
        alloc,
        &[],
        offset,
        long.as_slice(),
        too_long.as_slice(),
    )
}
