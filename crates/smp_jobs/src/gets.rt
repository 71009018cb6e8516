// The requests of a job that reads a file of the device, and what it holds of the file.
ghost use Rattle.std.specs.Prelude.{◌≡◌, ◌≤◌, ◌==◌, ◌++◌, if◌then◌else◌, List, ◌∷◌, length, OnOk};
ghost use Rattle.std.specs.String.{string_bytes};
ghost use Rattle.smp_model.specs.Meant.{meant_of, file_read};
ghost use Rattle.smp_request.specs.Room.{strings_of};
ghost use Rattle.smp_reply.specs.Told.{Told, told_of};
ghost use Rattle.smp_jobs.specs.Jobs.{or_before, with_length, with_part, got_more, got, is_within, is_all, after_part, next_of_get};
ghost use Rattle.smp_jobs.specs.Tasks.{said, Fits, got_by};

use crate::step::Step;
use crate::task::Get;
use smp_model::Request;
use smp_reply::Answer;
use std::alloc::AllocError;

/// The read of what follows the bytes held.
pub fn read(get: &Get) -> Request<'_>
    ensures read { meant_of result ≡ file_read (length get.now.held.items) (string_bytes get.now.name) }
    ensures fits { strings_of (meant_of result) ≤ 1978 }
{
    Request::FileRead {
        name: get.name.as_str(),
        off: get.held.as_slice().len() as u32,
    }
}

/// Whether so many bytes do not pass the length, where it is known.
fn is_within(count: usize, len: Option<u32>) -> bool
    ensures { result ≡ is_within count len }
{
    match len {
        None => true,
        Some(len) => count <= len as usize,
    }
}

/// Whether the bytes held are all.
fn is_all(held: &[u8], len: Option<u32>) -> bool
    ensures { result ≡ is_all held.now len }
{
    match len {
        None => false,
        Some(len) => held.len() == len as usize,
    }
}

/// The length after an answer at this offset, which tells it at 0.
fn length_after(off: u32, told: Option<u32>, before: Option<u32>) -> Option<u32>
    ensures { result ≡ (if off == 0 then or_before told before else before) }
{
    match told {
        Some(len) if off == 0 => Some(len),
        _ => before,
    }
}

/// Takes bytes, for which there is memory and whose count a request can state.
fn hold(get: &mut Get, bytes: &[u8]) -> Result<(), AllocError>
    ensures ok { OnOk result (get.new.held.items ≡ get.old.held.items ++ bytes.now) }
    ensures len { get.new.len ≡ get.old.len }
    ensures name { get.new.name ≡ get.old.name }
{
    if get.held.as_slice().len() + bytes.len() > u32::MAX as usize {
        return Err(AllocError);
    }
    get.held.extend_from_slice(bytes)?;
    Ok(())
}

/// Takes a part of the file, where it begins behind the bytes held and does not pass the length.
fn take_part(get: &mut Get, off: u32, len: Option<u32>, bytes: &[u8]) -> Result<(), AllocError>
    ensures got { OnOk result (got_by get.new ≡ with_part off bytes.now (with_length off len (got_by get.old))) }
    ensures name { get.new.name ≡ get.old.name }
{
    get.len = length_after(off, len, get.len);
    let count = get.held.as_slice().len();
    if off as usize != count || !is_within(count + bytes.len(), get.len) {
        return Ok(());
    }
    hold(get, bytes)
}

/// Takes an answer.
pub fn take(get: &mut Get, answer: &Answer<'_>) -> Result<(), AllocError>
    ensures got { OnOk result (got_by get.new ≡ got_more (told_of answer.now) (got_by get.old)) }
    ensures name { get.new.name ≡ get.old.name }
{
    match answer {
        Answer::FilePart { off, len, bytes } => take_part(get, *off, *len, bytes),
        _ => Ok(()),
    }
}

/// What follows what is held.
fn after_part(get: &Get) -> Step<'_>
    ensures next { said result ≡ after_part (string_bytes get.now.name) (got_by get.now) }
    ensures fits { Fits result }
{
    if is_all(get.held.as_slice(), get.len) {
        return Step::Done;
    }
    Step::Ask(read(get))
}

/// What follows an answer, which is taken already.
pub fn next<'a>(get: &'a Get, answer: &Answer<'_>) -> Step<'a>
    ensures next { (earlier : List Told) → got_by get.now ≡ got (told_of answer.now ∷ earlier)
        → said result ≡ next_of_get (string_bytes get.now.name) (told_of answer.now ∷ earlier) }
    ensures fits { Fits result }
{
    match answer {
        Answer::Refused { group, number } => Step::Refused {
            group: *group,
            number: *number,
        },
        _ => after_part(get),
    }
}
