//! Writing a reply.

ghost use Rattle.std.specs.Prelude.{◌≡◌, ◌+◌, ◌≤◌, ◌++◌, ◌⊎◌, length};
ghost use Rattle.arrayvec.specs.ArrayVec.{array_vec_len};
ghost use Rattle.smp_header.specs.Message.{message_of};
ghost use Rattle.smp_cbor.specs.Shortest.{shortest};
ghost use Rattle.smp_model.specs.Said as said;
ghost use Rattle.smp_model.specs.Said.{said_of, reply_value, reply_bytes};
ghost use Rattle.smp_reply.specs.Parts.{numbers_value, sha256_value};
ghost use Rattle.smp_reply.specs.Sendable.{IsSendable};

use crate::errors::version_1_number;
use crate::images::put_images;
use arrayvec::ArrayVec;
use smp_cbor::{put_list, put_map, put_text};
use smp_header::{LARGEST_PACKET, Packet, PacketBuffer, write_header};
use smp_model::pair::{put_bytes, put_number, put_truth, put_words};
use smp_model::{Reply, set_length};

/// Writes the whole packet that answers the request `to`, with the keys of the reply in their order. It repeats the
/// group, the sequence and the command of the request and has its operation plus one; version bits 2 and 3 are answered
/// with 1.
///
/// An error of a group has to be in the table of group errors, and a part of a file has its length exactly at offset 0.
pub fn write_reply(out: &mut PacketBuffer, to: &Packet<'_>, reply: &Reply<'_>)
    requires empty { array_vec_len out.old ≡ 0 }
    requires operation { (to.now.op ≡ 0) ⊎ (to.now.op ≡ 2) }
    requires version { to.now.version ≤ 3 }
    requires sendable { IsSendable (said_of reply.now) }
    requires fits { length (reply_bytes (message_of to.now) (said_of reply.now)) ≤ LARGEST_PACKET }
    ensures { out.new.items ≡ reply_bytes (message_of to.now) (said_of reply.now) }
{
    let version = to.version.min(1);
    write_header(
        out,
        version,
        to.op + 1,
        to.group,
        to.sequence,
        to.command,
        0,
    );
    write_data(out, version, reply);
    set_length(out, 0);
}

/// The data of a reply, by the version bits that it is written with.
#[tactic(auto, unfolding(smp_cbor::specs::Shortest::shortest, smp_cbor::specs::Shortest::shortest_pairs, smp_cbor::specs::Shortest::shortest_values))]
fn write_data(out: &mut PacketBuffer, version: u8, reply: &Reply<'_>)
    requires { array_vec_len out.old + length (shortest (reply_value version (said_of reply.now)))
        ≤ LARGEST_PACKET }
    ensures { out.new.items ≡ out.old.items ++ shortest (reply_value version (said_of reply.now)) }
{
    match reply {
        Reply::SmpError(number) => put_error(out, *number),
        Reply::GroupError { group, number } => put_group_error(out, version, *group, *number),
        Reply::Empty => put_map(out, 0),
        Reply::Echo(text) => {
            put_map(out, 1);
            put_words(out, "r", text);
        }
        Reply::Parameters => put_parameters(out),
        Reply::StatGroup {
            handled,
            dropped,
            errors,
        } => put_stat_group(out, *handled, *dropped, *errors),
        Reply::StatList => {
            put_map(out, 1);
            put_text(out, "stat_list");
            put_list(out, 1);
            put_text(out, "smp");
        }
        Reply::Images { zero, one } => put_images(out, zero, one),
        Reply::Offset { off, matched } => put_offset(out, *off, *matched),
        Reply::Setting(val) => {
            put_map(out, 1);
            put_bytes(out, "val", val);
        }
        Reply::FilePart { off, len, bytes } => put_file_part(out, *off, *len, bytes),
        Reply::FileLength(len) => {
            put_map(out, 1);
            put_number(out, "len", *len);
        }
        Reply::FileHash { off, len, output } => put_file_hash(out, *off, *len, output),
        Reply::FileTypes => put_file_types(out),
    }
}

/// `{"rc": number}`
#[tactic(auto, unfolding(smp_cbor::specs::Shortest::shortest, smp_cbor::specs::Shortest::shortest_pairs))]
fn put_error(out: &mut PacketBuffer, number: u32)
    requires { array_vec_len out.old + length (shortest (reply_value 1 (said.smp_error number)))
        ≤ LARGEST_PACKET }
    ensures { out.new.items ≡ out.old.items ++ shortest (reply_value 1 (said.smp_error number)) }
{
    put_map(out, 1);
    put_number(out, "rc", number);
}

/// `{"err": {"group": group, "rc": number}}`, and in version 1 the one number that stands for both.
#[tactic(auto, unfolding(smp_cbor::specs::Shortest::shortest, smp_cbor::specs::Shortest::shortest_pairs))]
fn put_group_error(out: &mut PacketBuffer, version: u8, group: u16, number: u32)
    requires { array_vec_len out.old
        + length (shortest (reply_value version (said.group_error group number)))
        ≤ LARGEST_PACKET }
    ensures { out.new.items
        ≡ out.old.items ++ shortest (reply_value version (said.group_error group number)) }
{
    if version == 0 {
        put_error(out, version_1_number(group, number));
    } else {
        put_map(out, 1);
        put_text(out, "err");
        put_map(out, 2);
        put_number(out, "group", u32::from(group));
        put_number(out, "rc", number);
    }
}

/// `{"buf_size": 2048, "buf_count": 1}`
#[tactic(auto, unfolding(smp_cbor::specs::Shortest::shortest, smp_cbor::specs::Shortest::shortest_pairs))]
fn put_parameters(out: &mut PacketBuffer)
    requires { array_vec_len out.old + length (shortest (reply_value 1 said.parameters))
        ≤ LARGEST_PACKET }
    ensures { out.new.items ≡ out.old.items ++ shortest (reply_value 1 said.parameters) }
{
    put_map(out, 2);
    put_number(out, "buf_size", LARGEST_PACKET as u32);
    put_number(out, "buf_count", 1);
}

/// `{"name": "smp", "fields": {"handled": n, "dropped": n, "errors": n}}`
#[tactic(auto, unfolding(smp_cbor::specs::Shortest::shortest, smp_cbor::specs::Shortest::shortest_pairs))]
fn put_stat_group(out: &mut PacketBuffer, handled: u32, dropped: u32, errors: u32)
    requires { array_vec_len out.old
        + length (shortest (reply_value 1 (said.stat_group handled dropped errors)))
        ≤ LARGEST_PACKET }
    ensures { out.new.items
        ≡ out.old.items ++ shortest (reply_value 1 (said.stat_group handled dropped errors)) }
{
    put_map(out, 2);
    put_words(out, "name", "smp");
    put_text(out, "fields");
    put_numbers(out, handled, dropped, errors);
}

/// `{"handled": n, "dropped": n, "errors": n}`
#[tactic(auto, unfolding(smp_cbor::specs::Shortest::shortest, smp_cbor::specs::Shortest::shortest_pairs))]
fn put_numbers(out: &mut PacketBuffer, handled: u32, dropped: u32, errors: u32)
    requires { array_vec_len out.old + length (shortest (numbers_value handled dropped errors))
        ≤ LARGEST_PACKET }
    ensures { out.new.items ≡ out.old.items ++ shortest (numbers_value handled dropped errors) }
{
    put_map(out, 3);
    put_number(out, "handled", handled);
    put_number(out, "dropped", dropped);
    put_number(out, "errors", errors);
}

/// `{"off": off}`, and `match` where it is there.
#[tactic(auto, unfolding(smp_cbor::specs::Shortest::shortest, smp_cbor::specs::Shortest::shortest_pairs))]
fn put_offset(out: &mut PacketBuffer, off: u32, matched: Option<bool>)
    requires { array_vec_len out.old + length (shortest (reply_value 1 (said.offset off matched)))
        ≤ LARGEST_PACKET }
    ensures { out.new.items ≡ out.old.items ++ shortest (reply_value 1 (said.offset off matched)) }
{
    match matched {
        None => {
            put_map(out, 1);
            put_number(out, "off", off);
        }
        Some(matched) => {
            put_map(out, 2);
            put_number(out, "off", off);
            put_truth(out, "match", matched);
        }
    }
}

/// `{"off": off, "data": bytes}`, and `len` where it is there.
#[tactic(auto, unfolding(smp_cbor::specs::Shortest::shortest, smp_cbor::specs::Shortest::shortest_pairs))]
fn put_file_part(out: &mut PacketBuffer, off: u32, len: Option<u32>, bytes: &[u8])
    requires { array_vec_len out.old
        + length (shortest (reply_value 1 (said.file_part off len bytes.now)))
        ≤ LARGEST_PACKET }
    ensures { out.new.items
        ≡ out.old.items ++ shortest (reply_value 1 (said.file_part off len bytes.now)) }
{
    put_map(out, if len.is_some() { 3 } else { 2 });
    put_number(out, "off", off);
    put_bytes(out, "data", bytes);
    if let Some(len) = len {
        put_number(out, "len", len);
    }
}

/// `{"type": "sha256", "off": off, "len": len, "output": hash}`, without an offset of 0.
#[tactic(auto, unfolding(smp_cbor::specs::Shortest::shortest, smp_cbor::specs::Shortest::shortest_pairs))]
fn put_file_hash(out: &mut PacketBuffer, off: u32, len: u32, output: &[u8; 32])
    requires { array_vec_len out.old
        + length (shortest (reply_value 1 (said.file_hash off len output.now)))
        ≤ LARGEST_PACKET }
    ensures { out.new.items
        ≡ out.old.items ++ shortest (reply_value 1 (said.file_hash off len output.now)) }
{
    put_map(out, if off == 0 { 3 } else { 4 });
    put_words(out, "type", "sha256");
    if off != 0 {
        put_number(out, "off", off);
    }
    put_number(out, "len", len);
    put_bytes(out, "output", output);
}

/// `{"types": {"sha256": {"format": 1, "size": 32}}}`
#[tactic(auto, unfolding(smp_cbor::specs::Shortest::shortest, smp_cbor::specs::Shortest::shortest_pairs))]
fn put_file_types(out: &mut PacketBuffer)
    requires { array_vec_len out.old + length (shortest (reply_value 1 said.file_types))
        ≤ LARGEST_PACKET }
    ensures { out.new.items ≡ out.old.items ++ shortest (reply_value 1 said.file_types) }
{
    put_map(out, 1);
    put_text(out, "types");
    put_map(out, 1);
    put_text(out, "sha256");
    put_sha256(out);
}

/// `{"format": 1, "size": 32}`
#[tactic(auto, unfolding(smp_cbor::specs::Shortest::shortest, smp_cbor::specs::Shortest::shortest_pairs))]
fn put_sha256(out: &mut PacketBuffer)
    requires { array_vec_len out.old + length (shortest sha256_value) ≤ LARGEST_PACKET }
    ensures { out.new.items ≡ out.old.items ++ shortest sha256_value }
{
    put_map(out, 2);
    put_number(out, "format", 1);
    put_number(out, "size", 32);
}
