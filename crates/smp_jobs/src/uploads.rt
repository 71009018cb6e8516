// The requests of an upload.
ghost use Rattle.std.specs.Prelude.{◌≡◌, ◌≤◌, List, ◌∷◌, length};
ghost use Rattle.smp_model.specs.Meant.{meant_of};
ghost use Rattle.smp_request.specs.Room.{strings_of};
ghost use Rattle.smp_reply.specs.Told.{Told, told_of};
ghost use Rattle.smp_jobs.specs.Jobs.{image_key, confirms, start_of, part_of, mark_of, at_end, at_offset, next_of_upload};
ghost use Rattle.smp_jobs.specs.Tasks.{upload_of, said, Fits};

use crate::parts::{is_outside, part_at};
use crate::step::Step;
use crate::task::Upload;
use smp_model::{Ending, Request, UploadPart};
use smp_reply::Answer;

/// The key `image` of a request: image 0 is left out.
fn image_key(image: u32) -> Option<u32>
    ensures { result ≡ image_key image }
{
    if image == 0 { None } else { Some(image) }
}

/// Whether the mark is for all further starts.
fn confirms(ending: Ending) -> bool
    ensures { result ≡ confirms ending }
{
    match ending {
        Ending::Confirm => true,
        Ending::Only | Ending::Test => false,
    }
}

/// The start, which announces the file.
pub fn start(upload: &Upload) -> Request<'_>
    ensures start { meant_of result ≡ start_of (upload_of upload.now) }
    ensures fits { strings_of (meant_of result) ≤ 1978 }
{
    let file = upload.file.as_slice();
    Request::Upload(UploadPart {
        image: image_key(upload.image),
        off: 0,
        len: Some(file.len() as u32),
        sha: Some(upload.digest.as_slice()),
        bytes: part_at(file, 0, upload.chunk as usize),
    })
}

/// The part from an offset on, tagged with the digest of the file.
fn part(upload: &Upload, off: u32) -> Request<'_>
    requires { off ≤ length upload.now.file }
    ensures part { meant_of result ≡ part_of (upload_of upload.now) off }
    ensures fits { strings_of (meant_of result) ≤ 1978 }
{
    let file = upload.file.as_slice();
    let tag = upload.digest.as_slice();
    Request::Upload(UploadPart {
        image: image_key(upload.image),
        off,
        len: None,
        sha: Some(tag),
        bytes: part_at(file, off as usize, upload.chunk as usize),
    })
}

/// The mark of the image.
fn mark(upload: &Upload) -> Request<'_>
    ensures mark { meant_of result ≡ mark_of (upload_of upload.now) }
    ensures fits { strings_of (meant_of result) ≤ 1978 }
{
    Request::ImageSet {
        hash: Some(upload.hash.as_slice()),
        confirm: confirms(upload.ending),
    }
}

/// What follows the last byte.
fn at_end(upload: &Upload) -> Step<'_>
    ensures next { said result ≡ at_end (upload_of upload.now) upload.now.ending }
    ensures fits { Fits result }
{
    match upload.ending {
        Ending::Only => Step::Done,
        Ending::Test | Ending::Confirm => Step::Ask(mark(upload)),
    }
}

/// What follows an answered offset.
fn at_offset(upload: &Upload, off: u32) -> Step<'_>
    ensures next { said result ≡ at_offset (upload_of upload.now) off }
    ensures fits { Fits result }
{
    let file = upload.file.as_slice();
    if off as usize == file.len() {
        return at_end(upload);
    }
    if is_outside(off, file) {
        return Step::Ask(start(upload));
    }
    Step::Ask(part(upload, off))
}

/// What follows an answer. Another digest ends the job before its offset is looked at.
pub fn next<'a>(upload: &'a Upload, answer: &Answer<'_>) -> Step<'a>
    ensures next { (earlier : List Told) → said result ≡ next_of_upload (upload_of upload.now) (told_of answer.now ∷ earlier) }
    ensures fits { Fits result }
{
    match answer {
        Answer::Refused { group, number } => Step::Refused {
            group: *group,
            number: *number,
        },
        Answer::Offset { off, matched } => match matched {
            Some(false) => Step::Mismatch,
            Some(true) | None => at_offset(upload, *off),
        },
        Answer::Done => Step::Done,
        Answer::Echo(_) | Answer::Images(_) | Answer::FilePart { .. } => Step::Ask(start(upload)),
    }
}
