//! Writing a request.

ghost use Rattle.std.specs.Prelude.{◌≡◌, ◌+◌, ◌≤◌, ◌++◌, length, option_map};
ghost use Rattle.arrayvec.specs.ArrayVec.{array_vec_len};
ghost use Rattle.smp_model.specs.Table.{table, operation_of};
ghost use Rattle.smp_model.specs.Meant.{meant_of, name_of, image_set, upload, erase, stat_group, setting_read, setting_write, file_read, file_write, file_hash};
ghost use Rattle.smp_model.specs.Written.{request_bytes};
ghost use Rattle.smp_request.specs.Parts.{data_of};

use crate::pairs::{
    count_bytes, count_number, count_truth, count_words, if_set, put_bytes, put_number, put_truth,
    put_words,
};
use arrayvec::ArrayVec;
use smp_cbor::put_map;
use smp_header::{LARGEST_PACKET, PacketBuffer, write_header};
use smp_model::{Request, UploadPart, set_length};

/// Appends the whole packet of a request, in version 1 (version bits 0) or 2 (version bits 1), with the keys in the
/// order of the table of requests. Keys that have no value are not written, nor is a `confirm` that is false; the
/// slot, and the offset of a file's hash, are always written.
pub fn write_request(out: &mut PacketBuffer, version: u8, sequence: u8, request: &Request<'_>)
    requires version { version ≤ 1 }
    requires fits { array_vec_len out.old
        + length (request_bytes version sequence (meant_of request.now))
        ≤ LARGEST_PACKET }
    ensures { out.new.items ≡ out.old.items ++ request_bytes version sequence (meant_of request.now) }
{
    let start = out.len();
    let place = place_of(request);
    write_header(
        out,
        version,
        place.operation,
        place.group,
        sequence,
        place.command,
        0,
    );
    write_data(out, request);
    set_length(out, start);
}

/// The row of a request.
#[derive(Clone, Copy)]
struct Place {
    group: u16,
    command: u8,
    operation: u8,
}

fn at(group: u16, command: u8, operation: u8) -> Place
    ensures { result ≡ record { group = group; command = command; operation = operation } }
{
    Place {
        group,
        command,
        operation,
    }
}

fn place_of(request: &Request<'_>) -> Place
    ensures group { result.group ≡ (table (name_of (meant_of request.now))).group }
    ensures command { result.command ≡ (table (name_of (meant_of request.now))).command }
    ensures operation { result.operation
        ≡ operation_of (table (name_of (meant_of request.now))).operations }
{
    match request {
        Request::Echo(_) => at(0, 0, 2),
        Request::Reset => at(0, 5, 2),
        Request::Parameters => at(0, 6, 0),
        Request::ImageList => at(1, 0, 0),
        Request::ImageSet { .. } => at(1, 0, 2),
        Request::Upload(_) => at(1, 1, 2),
        Request::Erase { .. } => at(1, 5, 2),
        Request::StatGroup(_) => at(2, 0, 0),
        Request::StatList => at(2, 1, 0),
        Request::SettingRead { .. } => at(3, 0, 0),
        Request::SettingWrite { .. } => at(3, 0, 2),
        Request::SettingDelete { .. } => at(3, 1, 2),
        Request::Commit => at(3, 2, 2),
        Request::Load => at(3, 3, 0),
        Request::Save => at(3, 3, 2),
        Request::FileRead { .. } => at(8, 0, 0),
        Request::FileWrite { .. } => at(8, 0, 2),
        Request::FileStatus { .. } => at(8, 1, 0),
        Request::FileHash { .. } => at(8, 2, 0),
        Request::FileTypes => at(8, 3, 0),
        Request::FileClose => at(8, 4, 2),
    }
}

/// The data of a request.
fn write_data(out: &mut PacketBuffer, request: &Request<'_>)
    requires { array_vec_len out.old + length (data_of (meant_of request.now)) ≤ LARGEST_PACKET }
    ensures { out.new.items ≡ out.old.items ++ data_of (meant_of request.now) }
{
    match request {
        Request::Echo(text) => {
            put_map(out, 1);
            put_words(out, "d", Some(text));
        }
        Request::StatGroup(name) | Request::SettingDelete { name } | Request::FileStatus { name } =>
            {
                put_map(out, 1);
                put_words(out, "name", Some(name));
            }
        Request::ImageSet { hash, confirm } => write_image_set(out, *hash, *confirm),
        Request::Upload(part) => write_upload(out, part),
        Request::Erase { slot } => {
            put_map(out, 1);
            put_number(out, "slot", Some(*slot));
        }
        Request::SettingRead { name, max_size } => write_setting_read(out, name, *max_size),
        Request::SettingWrite { name, val } => write_setting_write(out, name, val),
        Request::FileRead { name, off } => {
            put_map(out, 2);
            put_number(out, "off", Some(*off));
            put_words(out, "name", Some(name));
        }
        Request::FileWrite {
            name,
            off,
            len,
            bytes,
        } => write_file_write(out, *off, bytes, *len, name),
        Request::FileHash {
            name,
            kind,
            off,
            len,
        } => write_file_hash(out, name, *kind, *off, *len),
        _ => put_map(out, 0),
    }
}

fn write_image_set(out: &mut PacketBuffer, hash: Option<&[u8]>, confirm: bool)
    requires { array_vec_len out.old
        + length (data_of (image_set (option_map (λ h. h.now) hash) confirm))
        ≤ LARGEST_PACKET }
    ensures { out.new.items
        ≡ out.old.items ++ data_of (image_set (option_map (λ h. h.now) hash.entry) confirm) }
{
    let confirm = if_set(confirm);
    put_map(out, count_bytes(hash) + count_truth(confirm));
    put_bytes(out, "hash", hash);
    put_truth(out, "confirm", confirm);
}

fn write_upload(out: &mut PacketBuffer, part: &UploadPart<'_>)
    requires { let p = part.now in array_vec_len out.old
        + length
        (data_of (upload p.image p.len p.off (option_map (λ s. s.now) p.sha) p.bytes.now))
        ≤ LARGEST_PACKET }
    ensures { let p = part.now in out.new.items
        ≡ out.old.items
        ++ data_of (upload p.image p.len p.off (option_map (λ s. s.now) p.sha) p.bytes.now) }
{
    let pairs = count_number(part.image) + count_number(part.len) + 1 + count_bytes(part.sha) + 1;
    put_map(out, pairs);
    put_number(out, "image", part.image);
    put_number(out, "len", part.len);
    put_number(out, "off", Some(part.off));
    put_bytes(out, "sha", part.sha);
    put_bytes(out, "data", Some(part.bytes));
}

fn write_setting_read(out: &mut PacketBuffer, name: &str, max_size: Option<u32>)
    requires { array_vec_len out.old + length (data_of (setting_read name.now max_size))
        ≤ LARGEST_PACKET }
    ensures { out.new.items ≡ out.old.items ++ data_of (setting_read name.now max_size) }
{
    put_map(out, 1 + count_number(max_size));
    put_words(out, "name", Some(name));
    put_number(out, "max_size", max_size);
}

fn write_setting_write(out: &mut PacketBuffer, name: &str, val: &[u8])
    requires { array_vec_len out.old + length (data_of (setting_write name.now val.now))
        ≤ LARGEST_PACKET }
    ensures { out.new.items ≡ out.old.items ++ data_of (setting_write name.now val.now) }
{
    put_map(out, 2);
    put_words(out, "name", Some(name));
    put_bytes(out, "val", Some(val));
}

fn write_file_write(out: &mut PacketBuffer, off: u32, bytes: &[u8], len: Option<u32>, name: &str)
    requires { array_vec_len out.old + length (data_of (file_write off bytes.now len name.now))
        ≤ LARGEST_PACKET }
    ensures { out.new.items ≡ out.old.items ++ data_of (file_write off bytes.now len name.now) }
{
    put_map(out, 3 + count_number(len));
    put_number(out, "off", Some(off));
    put_bytes(out, "data", Some(bytes));
    put_number(out, "len", len);
    put_words(out, "name", Some(name));
}

fn write_file_hash(
    out: &mut PacketBuffer,
    name: &str,
    kind: Option<&str>,
    off: u32,
    len: Option<u32>,
)
    requires { array_vec_len out.old
        + length (data_of (file_hash name.now (option_map (λ k. k.now) kind) off len))
        ≤ LARGEST_PACKET }
    ensures { out.new.items
        ≡ out.old.items ++ data_of (file_hash name.now (option_map (λ k. k.now) kind.entry) off len) }
{
    put_map(out, 2 + count_words(kind) + count_number(len));
    put_words(out, "name", Some(name));
    put_words(out, "type", kind);
    put_number(out, "off", Some(off));
    put_number(out, "len", len);
}
