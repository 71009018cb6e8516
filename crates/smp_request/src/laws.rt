//! What is written is read again.

ghost use Rattle.std.specs.Prelude.{◌≡◌, ℕ, ◌+◌, ◌^◌, ◌<◌, ◌≤◌, Some, Ok, length, option_map};
ghost use Rattle.smp_header.specs.Message.{packet};
ghost use Rattle.smp_model.specs.Table.{number as number_field, words, bytes as bytes_field};
ghost use Rattle.smp_model.specs.Meant.{meant_of, fields_of, upload, file_write, file_hash};
ghost use Rattle.smp_model.specs.Meaning.{meaning};
ghost use Rattle.smp_model.specs.Written.{request_message, request_bytes};
ghost use Rattle.smp_request.specs.Held.{CanHold, CanHoldEach};
ghost use Rattle.smp_request.specs.Laws.{RequestsAreMeant};
ghost use Rattle.smp_request.specs.Room.{strings_of};

use smp_cbor::shortest_is_read;
use smp_header::LARGEST_PACKET;
use smp_model::memory::{bytes_are_counted, texts_are_utf8};
use smp_model::{Request, UploadPart, keys_are_texts, packets_are_read_back};

/// What [`write_request`](crate::write_request) writes is a packet, and that packet means the request, whatever its
/// version, its sequence and the request are. The call does nothing: it stands for the law.
pub fn reads_back(version: u8, sequence: u8, request: &Request<'_>)
    requires version { version ≤ 1 }
    requires fits { length (request_bytes version sequence (meant_of request.now)) ≤ LARGEST_PACKET }
    ensures is_packet { packet (request_bytes version sequence (meant_of request.now))
        ≡ Some (request_message version sequence (meant_of request.now)) }
    ensures means { meaning (request_message version sequence (meant_of request.now))
        ≡ Ok (meant_of request.now) }
{
    held(request);
    shortest_is_read();
    keys_are_texts();
    packets_are_read_back();
}

/// A packet of any request whose fields can be written means that request, in versions 1 and 2 and with any sequence. The call
/// does nothing: it stands for the law.
pub fn requests_are_meant()
    ensures { RequestsAreMeant }
{
    shortest_is_read();
    keys_are_texts();
}

/// The packet of a request has at most 70 bytes beside those of its texts and byte strings, in any version and with any
/// sequence. The call does nothing: it stands for the law, by which a caller sees that a request fits.
pub fn fits_within(request: &Request<'_>)
    requires { strings_of (meant_of request.now) < 2 ^ 32 }
    ensures { (version sequence : ℕ)
        → length (request_bytes version sequence (meant_of request.now))
        ≤ 70 + strings_of (meant_of request.now) }
{
    held(request);
}

/// The fields of a request are as their types say.
fn held(request: &Request<'_>)
    ensures { CanHoldEach (fields_of (meant_of request.now)) }
{
    match request {
        Request::Echo(text)
        | Request::StatGroup(text)
        | Request::SettingDelete { name: text }
        | Request::FileStatus { name: text } => texts_are_utf8(text),
        Request::ImageSet { hash, .. } => held_bytes(*hash),
        Request::Upload(part) => held_upload(part),
        Request::Erase { slot } => {
            let _slot = *slot;
        }
        Request::SettingRead { name, max_size } => {
            texts_are_utf8(name);
            held_number(*max_size);
        }
        Request::SettingWrite { name, val } => {
            texts_are_utf8(name);
            bytes_are_counted(val);
        }
        Request::FileRead { name, off } => {
            texts_are_utf8(name);
            let _off = *off;
        }
        Request::FileWrite {
            name,
            off,
            len,
            bytes,
        } => held_file_part(name, *off, *len, bytes),
        Request::FileHash {
            name,
            kind,
            off,
            len,
        } => held_file_hash(name, *kind, *off, *len),
        _ => {}
    }
}

fn held_number(number: Option<u32>)
    ensures { CanHold (option_map number_field number) }
{
    if let Some(number) = number {
        let _number = number;
    }
}

fn held_text(text: Option<&str>)
    ensures { CanHold (option_map words (option_map (λ t. t.now) text.entry)) }
{
    if let Some(text) = text {
        texts_are_utf8(text);
    }
}

fn held_bytes(bytes: Option<&[u8]>)
    ensures { CanHold (option_map bytes_field (option_map (λ b. b.now) bytes.entry)) }
{
    if let Some(bytes) = bytes {
        bytes_are_counted(bytes);
    }
}

fn held_upload(part: &UploadPart<'_>)
    ensures { let p = part.now in CanHoldEach
        (fields_of (upload p.image p.len p.off (option_map (λ s. s.now) p.sha) p.bytes.now)) }
{
    held_number(part.image);
    held_number(part.len);
    let _off = part.off;
    held_bytes(part.sha);
    bytes_are_counted(part.bytes);
}

fn held_file_part(name: &str, off: u32, len: Option<u32>, bytes: &[u8])
    ensures { CanHoldEach (fields_of (file_write off bytes.now len name.now)) }
{
    texts_are_utf8(name);
    let _off = off;
    held_number(len);
    bytes_are_counted(bytes);
}

fn held_file_hash(name: &str, kind: Option<&str>, off: u32, len: Option<u32>)
    ensures { CanHoldEach
        (fields_of (file_hash name.now (option_map (λ k. k.now) kind.entry) off len)) }
{
    texts_are_utf8(name);
    held_text(kind);
    let _off = off;
    held_number(len);
}
