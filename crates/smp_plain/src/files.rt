//! The plain program at group 8, files.

ghost use Rattle.std.specs.Prelude.{◌≡◌, ◌≤◌, [], ◌∷◌, length, drop, option_map, IfSome};
ghost use Rattle.std.specs.List.{All};
ghost use Rattle.sha2.specs.Sha256.{sha256};
ghost use Rattle.smp_model.specs.Files.{file_of, is_file_name};
ghost use Rattle.smp_model.specs.FileGroup.{refuses_file, length_at, reads_held, reads_file, tells_length, bytes_from, is_sha256, hashes_held, hashes_file, is_no_free_file, begins_file, continues_file, writes_file};
ghost use Rattle.smp_model.specs.Said as said;
ghost use Rattle.smp_model.specs.Steps.{Run, begin_file};
ghost use Rattle.smp_model.specs.Response.{responds};
ghost use Rattle.smp_plain.specs.Plain.{response_of};

use crate::response::{PlainChange, PlainResponse, PlainStep, refused, reply_alone, responded};
use crate::settings::front;
use sha2::{Digest, Sha256};
use smp_model::error::{
    FILE_GROUP, FILE_NAME_LENGTH, FILE_TOO_LONG, INVALID_VALUE, NO_FREE_FILE, NO_SUCH_FILE,
    NO_SUCH_HASH, PAST_FILE_END,
};
use smp_model::{Reply, StoredFile};

/// The SHA-256 of the bytes.
pub(crate) fn sha256_of(bytes: &[u8]) -> [u8; 32]
    ensures { result ≡ sha256 bytes.now }
{
    Sha256::digest(bytes)
}

/// The file of a name.
pub(crate) fn file_of<'a>(files: &'a [StoredFile], name: &str) -> Option<&'a StoredFile>
    ensures value { option_map (λ f. f.now) result ≡ file_of name.now files.now }
    ensures sound { All (λ f. length f.held ≤ f.announced) files.now
        → IfSome result (λ f. length f.now.held ≤ f.now.announced) }
    ensures named { IfSome result (λ f. f.now.name ≡ name.now) }
{
    files.iter().find(|f| f.name.as_slice() == name.as_bytes())
}

fn is_name(name: &str) -> bool
    ensures { result ≡ is_file_name name.now }
{
    0 < name.len() && name.len() <= 64
}

fn refused_file<'a>(number: u32) -> PlainResponse<'a>
    ensures { response_of result ≡ refuses_file number }
{
    refused(FILE_GROUP, number)
}

/// The bytes from an offset on.
fn from(bytes: &[u8], off: u32) -> &[u8]
    ensures { result.now ≡ drop off bytes.now }
{
    if off as usize <= bytes.len() {
        &bytes[off as usize..]
    } else {
        b""
    }
}

fn length_at(off: u32, file: &StoredFile) -> Option<u32>
    requires { length file.now.held ≤ file.now.announced }
    ensures { result ≡ length_at off file.now }
{
    if off == 0 {
        Some(held_length(file))
    } else {
        None
    }
}

fn held_length(file: &StoredFile) -> u32
    requires { length file.now.held ≤ file.now.announced }
    ensures { result ≡ length file.now.held }
{
    let _announced = file.announced;
    file.held.as_slice().len() as u32
}

fn reads_held<'a>(off: u32, file: &'a StoredFile) -> PlainResponse<'a>
    requires { length file.now.held ≤ file.now.announced }
    ensures { response_of result ≡ reads_held off file.now }
{
    if held_length(file) < off {
        return refused_file(PAST_FILE_END);
    }
    reply_alone(Reply::FilePart {
        off,
        len: length_at(off, file),
        bytes: front(from(file.held.as_slice(), off), 1024),
    })
}

pub(crate) fn reads_file<'a>(files: &'a [StoredFile], off: u32, name: &str) -> PlainResponse<'a>
    requires { All (λ f. length f.held ≤ f.announced) files.now }
    ensures { response_of result ≡ reads_file files.now off name.now }
{
    if !is_name(name) {
        return refused_file(FILE_NAME_LENGTH);
    }
    match file_of(files, name) {
        None => refused_file(NO_SUCH_FILE),
        Some(file) => reads_held(off, file),
    }
}

pub(crate) fn tells_length<'a>(files: &[StoredFile], name: &str) -> PlainResponse<'a>
    requires { All (λ f. length f.held ≤ f.announced) files.now }
    ensures { response_of result ≡ tells_length files.now name.now }
{
    if !is_name(name) {
        return refused_file(FILE_NAME_LENGTH);
    }
    match file_of(files, name) {
        None => refused_file(NO_SUCH_FILE),
        Some(file) => reply_alone(Reply::FileLength(held_length(file))),
    }
}

/// The bytes from an offset on, so many at most.
fn bytes_from(off: u32, len: Option<u32>, held: &[u8]) -> &[u8]
    ensures value { result.now ≡ bytes_from off len held.now }
    ensures within { length result.now ≤ length held.now }
{
    match len {
        None => from(held, off),
        Some(len) => front(from(held, off), len as usize),
    }
}

fn is_sha256(kind: Option<&str>) -> bool
    ensures { result ≡ is_sha256 (option_map (λ k. k.now) kind.entry) }
{
    match kind {
        None => true,
        Some(kind) => kind == "sha256",
    }
}

fn hashes_held<'a>(
    kind: Option<&str>,
    off: u32,
    len: Option<u32>,
    file: &StoredFile,
) -> PlainResponse<'a>
    requires { length file.now.held ≤ file.now.announced }
    ensures { response_of result ≡ hashes_held (option_map (λ k. k.now) kind.entry) off len file.now }
{
    if !is_sha256(kind) {
        return refused_file(NO_SUCH_HASH);
    }
    if held_length(file) < off {
        return refused_file(PAST_FILE_END);
    }
    let _announced = file.announced;
    let bytes = bytes_from(off, len, file.held.as_slice());
    reply_alone(Reply::FileHash {
        off,
        len: bytes.len() as u32,
        output: sha256_of(bytes),
    })
}

pub(crate) fn hashes_file<'a>(
    files: &[StoredFile],
    name: &str,
    kind: Option<&str>,
    off: u32,
    len: Option<u32>,
) -> PlainResponse<'a>
    requires { All (λ f. length f.held ≤ f.announced) files.now }
    ensures { response_of result
        ≡ hashes_file files.now name.now (option_map (λ k. k.now) kind.entry) off len }
{
    if !is_name(name) {
        return refused_file(FILE_NAME_LENGTH);
    }
    match file_of(files, name) {
        None => refused_file(NO_SUCH_FILE),
        Some(file) => hashes_held(kind, off, len, file),
    }
}

fn is_no_free_file(files: &[StoredFile], name: &str) -> bool
    requires { All (λ f. length f.held ≤ f.announced) files.now }
    ensures { result ≡ is_no_free_file files.now name.now }
{
    file_of(files, name).is_none() && 8 <= files.len()
}

fn begins_file<'a>(
    files: &[StoredFile],
    name: &'a str,
    part: &'a [u8],
    len: Option<u32>,
) -> PlainResponse<'a>
    requires { All (λ f. length f.held ≤ f.announced) files.now }
    ensures { response_of result ≡ begins_file files.now name.now part.now len }
{
    let Some(len) = len else {
        return reply_alone(Reply::SmpError(INVALID_VALUE));
    };
    if 16384 < len {
        return refused_file(FILE_TOO_LONG);
    }
    if (len as usize) < part.len() {
        return refused_file(PAST_FILE_END);
    }
    if is_no_free_file(files, name) {
        return refused_file(NO_FREE_FILE);
    }
    begun(name, len, part)
}

/// The response where a file is begun.
fn begun<'a>(name: &'a str, len: u32, part: &'a [u8]) -> PlainResponse<'a>
    requires { length part.now ≤ len }
    ensures { response_of result
        ≡ responds (said.offset (length part.now) None)
        (Run (begin_file name.now len part.now) ∷ []) }
{
    let reply = Reply::Offset {
        off: part.len() as u32,
        matched: None,
    };
    let change = PlainChange::BeginFile {
        name,
        announced: len,
        part,
    };
    responded(reply, PlainStep::Run(change))
}

fn continues_file<'a>(
    off: u32,
    name: &'a str,
    part: &'a [u8],
    file: &StoredFile,
) -> PlainResponse<'a>
    requires sound { length file.now.held ≤ file.now.announced }
    requires named { file.now.name ≡ name.now }
    ensures { response_of result ≡ continues_file off part.now file.now }
{
    let held = held_length(file);
    if off != held {
        return reply_alone(Reply::Offset {
            off: held,
            matched: None,
        });
    }
    let all = held as usize + part.len();
    if (file.announced as usize) < all {
        return refused_file(PAST_FILE_END);
    }
    let reply = Reply::Offset {
        off: all as u32,
        matched: None,
    };
    responded(
        reply,
        PlainStep::Run(PlainChange::AppendFile { name, part }),
    )
}

pub(crate) fn writes_file<'a>(
    files: &[StoredFile],
    off: u32,
    part: &'a [u8],
    len: Option<u32>,
    name: &'a str,
) -> PlainResponse<'a>
    requires { All (λ f. length f.held ≤ f.announced) files.now }
    ensures { response_of result ≡ writes_file files.now off part.now len name.now }
{
    if !is_name(name) {
        return refused_file(FILE_NAME_LENGTH);
    }
    if off == 0 {
        return begins_file(files, name, part, len);
    }
    match file_of(files, name) {
        None => refused_file(NO_SUCH_FILE),
        Some(file) => continues_file(off, name, part, file),
    }
}
