//! Reading a request.

ghost use Rattle.std.specs.Prelude.{◌≡◌, ◌∷◌, [], Some, IfOk, length};
ghost use Rattle.smp_header.specs.Message.{message_of};
ghost use Rattle.smp_cbor.specs.Heads.{Gives};
ghost use Rattle.smp_cbor.specs.Values.{map_of, pairs};
ghost use Rattle.smp_cbor.specs.Spelling.{SpellsMap};
ghost use Rattle.smp_cbor.specs.Views.{entries};
ghost use Rattle.smp_model.specs.Table.{table, words, echo_row, image_set_row, upload_row, erase_row, stat_group_row, setting_read_row, setting_write_row, file_read_row, file_write_row, file_hash_row};
ghost use Rattle.smp_model.specs.Meant.{meant_of};
ghost use Rattle.smp_model.specs.Meaning.{bare, by_row, fields, filled, meaning, or_invalid};
ghost use Rattle.smp_request.specs.Room.{HasRoom};

use crate::fields::{bytes_of, number_of, text_of, truth_of};
use smp_cbor::{MapView, read_map, texts_take_their_bytes};
use smp_header::Packet;
use smp_model::error::{INVALID_VALUE, NOT_SUPPORTED, VERSION_TOO_NEW};
use smp_model::{Request, UploadPart};

/// The request that a packet is, or the number of the error that it is answered with. The first of these decides:
///
/// - 13, where the version bits are above 1;
/// - 8, where no row of the table of requests has the packet's group, command and operation;
/// - 3, where the data is no map of the subset of CBOR, a key that has to be there is missing, a key of the row holds
///   another kind of value, or a number is above 4294967295.
///
/// A key that may be left out and whose value is null counts as left out. Further keys have no effect. The texts and
/// bytes of the request are lent from the packet.
pub fn request_of<'a>(packet: &Packet<'a>) -> Result<Request<'a>, u32>
    ensures means { Gives meant_of result (meaning (message_of packet.now)) }
    // An echo has room in its own packet for the reply to it.
    ensures room { IfOk result (λ request. HasRoom (meant_of request) (length packet.now.bytes.now)) }
{
    if packet.version > 1 {
        return Err(VERSION_TOO_NEW);
    }
    let bytes = packet.bytes;
    match (packet.group, packet.command, packet.op) {
        (0, 0, 0) | (0, 0, 2) => echo(bytes),
        (0, 5, 2) => plain(bytes, Request::Reset),
        (0, 6, 0) => plain(bytes, Request::Parameters),
        (1, 0, 0) => plain(bytes, Request::ImageList),
        (1, 0, 2) => image_set(&data_of(bytes)?),
        (1, 1, 2) => upload(&data_of(bytes)?),
        (1, 5, 2) => erase(&data_of(bytes)?),
        (2, 0, 0) => Ok(Request::StatGroup(name(&data_of(bytes)?)?)),
        (2, 1, 0) => plain(bytes, Request::StatList),
        (3, 0, 0) => setting_read(&data_of(bytes)?),
        (3, 0, 2) => setting_write(&data_of(bytes)?),
        (3, 1, 2) => {
            let name = name(&data_of(bytes)?)?;
            Ok(Request::SettingDelete { name })
        }
        (3, 2, 2) => plain(bytes, Request::Commit),
        (3, 3, 0) => plain(bytes, Request::Load),
        (3, 3, 2) => plain(bytes, Request::Save),
        (8, 0, 0) => file_read(&data_of(bytes)?),
        (8, 0, 2) => file_write(&data_of(bytes)?),
        (8, 1, 0) => {
            let name = name(&data_of(bytes)?)?;
            Ok(Request::FileStatus { name })
        }
        (8, 2, 0) => file_hash(&data_of(bytes)?),
        (8, 3, 0) => plain(bytes, Request::FileTypes),
        (8, 4, 2) => plain(bytes, Request::FileClose),
        _ => Err(NOT_SUPPORTED),
    }
}

/// The map that is the data of a packet.
fn data_of(bytes: &[u8]) -> Result<MapView<'_>, u32>
    ensures pairs { Gives (λ m. entries m) result (or_invalid (map_of bytes.now)) }
    ensures spelled { IfOk result (λ m. SpellsMap bytes.now (pairs (entries m))) }
{
    match read_map(bytes) {
        Ok(map) => Ok(map),
        Err(_) => Err(INVALID_VALUE),
    }
}

/// A request without keys, where its data is a map.
fn plain<'a>(bytes: &'a [u8], request: Request<'a>) -> Result<Request<'a>, u32>
    ensures { Gives meant_of result (bare (meant_of request.entry) bytes.now) }
{
    let _map = data_of(bytes)?;
    Ok(request)
}

fn echo<'a>(bytes: &'a [u8]) -> Result<Request<'a>, u32>
    ensures means { Gives meant_of result (by_row (Some echo_row) bytes.now) }
    ensures room { IfOk result (λ request. HasRoom (meant_of request) (length bytes.now)) }
{
    texts_take_their_bytes(bytes);
    let map = data_of(bytes)?;
    match text_of(map.find("d"))? {
        Some(text) => Ok(Request::Echo(text)),
        None => Err(INVALID_VALUE),
    }
}

#[tactic(auto, using(crate::proofs::Again::fields_again))]
fn image_set<'a>(map: &MapView<'a>) -> Result<Request<'a>, u32>
    ensures { Gives meant_of result (filled image_set_row (entries map.now)) }
{
    let mut found = [None; 2];
    map.find_each(&["hash", "confirm"], &mut found);
    let [hash, confirm] = found;
    let hash = bytes_of(hash)?;
    let confirm = truth_of(confirm)?.unwrap_or(false);
    Ok(Request::ImageSet { hash, confirm })
}

#[tactic(auto, using(crate::proofs::Again::fields_again))]
fn upload<'a>(map: &MapView<'a>) -> Result<Request<'a>, u32>
    ensures { Gives meant_of result (filled upload_row (entries map.now)) }
{
    let mut found = [None; 6];
    map.find_each(
        &["image", "len", "off", "sha", "data", "upgrade"],
        &mut found,
    );
    let [image, len, off, sha, bytes, upgrade] = found;
    let image = number_of(image)?;
    let len = number_of(len)?;
    let off = number_of(off)?.ok_or(INVALID_VALUE)?;
    let sha = bytes_of(sha)?;
    let bytes = bytes_of(bytes)?.ok_or(INVALID_VALUE)?;
    let _ = truth_of(upgrade)?;
    Ok(Request::Upload(UploadPart {
        image,
        off,
        len,
        sha,
        bytes,
    }))
}

fn erase<'a>(map: &MapView<'a>) -> Result<Request<'a>, u32>
    ensures { Gives meant_of result (filled erase_row (entries map.now)) }
{
    let slot = number_of(map.find("slot"))?.unwrap_or(1);
    Ok(Request::Erase { slot })
}

/// The one key of the rows that have a name alone.
fn name<'a>(map: &MapView<'a>) -> Result<&'a str, u32>
    ensures { Gives (λ t. Some (words t.now) ∷ []) result
        (fields (table stat_group_row).keys (entries map.now)) }
{
    text_of(map.find("name"))?.ok_or(INVALID_VALUE)
}

#[tactic(auto, using(crate::proofs::Again::fields_again))]
fn setting_read<'a>(map: &MapView<'a>) -> Result<Request<'a>, u32>
    ensures { Gives meant_of result (filled setting_read_row (entries map.now)) }
{
    let mut found = [None; 2];
    map.find_each(&["name", "max_size"], &mut found);
    let [name, max_size] = found;
    let name = text_of(name)?.ok_or(INVALID_VALUE)?;
    let max_size = number_of(max_size)?;
    Ok(Request::SettingRead { name, max_size })
}

fn setting_write<'a>(map: &MapView<'a>) -> Result<Request<'a>, u32>
    ensures { Gives meant_of result (filled setting_write_row (entries map.now)) }
{
    let mut found = [None; 2];
    map.find_each(&["name", "val"], &mut found);
    let [name, val] = found;
    let name = text_of(name)?.ok_or(INVALID_VALUE)?;
    let val = bytes_of(val)?.ok_or(INVALID_VALUE)?;
    Ok(Request::SettingWrite { name, val })
}

fn file_read<'a>(map: &MapView<'a>) -> Result<Request<'a>, u32>
    ensures { Gives meant_of result (filled file_read_row (entries map.now)) }
{
    let mut found = [None; 2];
    map.find_each(&["off", "name"], &mut found);
    let [off, name] = found;
    let off = number_of(off)?.ok_or(INVALID_VALUE)?;
    let name = text_of(name)?.ok_or(INVALID_VALUE)?;
    Ok(Request::FileRead { name, off })
}

#[tactic(auto, using(crate::proofs::Again::fields_again))]
fn file_write<'a>(map: &MapView<'a>) -> Result<Request<'a>, u32>
    ensures { Gives meant_of result (filled file_write_row (entries map.now)) }
{
    let mut found = [None; 4];
    map.find_each(&["off", "data", "len", "name"], &mut found);
    let [off, bytes, len, name] = found;
    let off = number_of(off)?.ok_or(INVALID_VALUE)?;
    let bytes = bytes_of(bytes)?.ok_or(INVALID_VALUE)?;
    let len = number_of(len)?;
    let name = text_of(name)?.ok_or(INVALID_VALUE)?;
    Ok(Request::FileWrite {
        name,
        off,
        len,
        bytes,
    })
}

#[tactic(auto, using(crate::proofs::Again::fields_again))]
fn file_hash<'a>(map: &MapView<'a>) -> Result<Request<'a>, u32>
    ensures { Gives meant_of result (filled file_hash_row (entries map.now)) }
{
    let mut found = [None; 4];
    map.find_each(&["name", "type", "off", "len"], &mut found);
    let [name, kind, off, len] = found;
    let name = text_of(name)?.ok_or(INVALID_VALUE)?;
    let kind = text_of(kind)?;
    let off = number_of(off)?.unwrap_or(0);
    let len = number_of(len)?;
    Ok(Request::FileHash {
        name,
        kind,
        off,
        len,
    })
}
