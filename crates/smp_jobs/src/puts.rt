// The requests of a job that writes a file on the device.
ghost use Rattle.std.specs.Prelude.{◌≡◌, ◌≤◌, List, ◌∷◌, length};
ghost use Rattle.std.specs.String.{string_bytes};
ghost use Rattle.smp_model.specs.Meant.{meant_of};
ghost use Rattle.smp_request.specs.Room.{strings_of};
ghost use Rattle.smp_reply.specs.Told.{Told, told_of};
ghost use Rattle.smp_jobs.specs.Jobs.{put_start, put_part, put_at_offset, next_of_put};
ghost use Rattle.smp_jobs.specs.Tasks.{said, Fits};

use crate::parts::{is_outside, part_at};
use crate::step::Step;
use crate::task::Put;
use smp_model::Request;
use smp_reply::Answer;

/// The bytes of one part.
const PART: usize = 512;

/// The start, which announces the length.
pub fn start(put: &Put) -> Request<'_>
    ensures start { meant_of result ≡ put_start (string_bytes put.now.name) put.now.file }
    ensures fits { strings_of (meant_of result) ≤ 1978 }
{
    let file = put.file.as_slice();
    Request::FileWrite {
        name: put.name.as_str(),
        off: 0,
        len: Some(file.len() as u32),
        bytes: part_at(file, 0, PART),
    }
}

/// The part from an offset on.
fn part(put: &Put, off: u32) -> Request<'_>
    requires { off ≤ length put.now.file }
    ensures part { meant_of result ≡ put_part (string_bytes put.now.name) put.now.file off }
    ensures fits { strings_of (meant_of result) ≤ 1978 }
{
    Request::FileWrite {
        name: put.name.as_str(),
        off,
        len: None,
        bytes: part_at(put.file.as_slice(), off as usize, PART),
    }
}

/// What follows an answered offset.
fn at_offset(put: &Put, off: u32) -> Step<'_>
    ensures next { said result ≡ put_at_offset (string_bytes put.now.name) put.now.file off }
    ensures fits { Fits result }
{
    let file = put.file.as_slice();
    if off as usize == file.len() {
        return Step::Done;
    }
    if is_outside(off, file) {
        return Step::Ask(start(put));
    }
    Step::Ask(part(put, off))
}

/// What follows an answer.
pub fn next<'a>(put: &'a Put, answer: &Answer<'_>) -> Step<'a>
    ensures next { (earlier : List Told)
        → said result ≡ next_of_put (string_bytes put.now.name) put.now.file (told_of answer.now ∷ earlier) }
    ensures fits { Fits result }
{
    match answer {
        Answer::Refused { group, number } => Step::Refused {
            group: *group,
            number: *number,
        },
        Answer::Offset { off, .. } => at_offset(put, *off),
        _ => Step::Ask(start(put)),
    }
}
