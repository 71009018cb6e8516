//! The plain program at uploads.

ghost use Rattle.std.specs.Prelude.{◌≡◌, ◌==◌, ◌+◌, ◌-◌, ◌≤◌, ◌<◌, ◌^◌, ◌++◌, length, not, ◌&&◌, option_map, is_some, ◌||◌, if◌then◌else◌, IfSome};
ghost use Rattle.std.specs.Str.{bytes_eq};
ghost use Rattle.sha2.specs.Sha256.{sha256};
ghost use Rattle.smp_model.specs.Said as said;
ghost use Rattle.smp_model.specs.Said.{said_of};
ghost use Rattle.smp_model.specs.Uploads.{differs, is_complete, is_resumed_by, is_spoiled, is_tagged_by, kept, same_digest};
ghost use Rattle.smp_model.specs.ImageGroup.{begins, begins_with_magic, completes, has_wrong_size, keeps, new_start, part_at, part_of, resumes, side_of, start_at, start_of, takes_part, uploads, uploads_to, wants};
ghost use Rattle.smp_plain.specs.Plain.{IsSound, IsSoundSide, response_of, side_response_of};

use crate::files::sha256_of;
use crate::response::{
    PlainResponse, PlainSideResponse, PlainSideStep, begins_on, goes_on, preceded, refused_image,
    refused_part, side_reply_alone, side_responded,
};
use crate::settings::front;
use crate::views::{settled_side, side_at};
use sha2::{Digest, Sha256};
use smp_model::error::{
    IMAGE_TOO_LARGE, INVALID_DIGEST, INVALID_HEADER, INVALID_SLOT, NO_FREE_SLOT, NO_LENGTH,
    PAST_UPLOAD_END, WRONG_MAGIC,
};
use smp_model::{AbstractDevice, Announcement, Mark, Reply, Side, Sizes, Upload, UploadPart};

fn offset<'a>(off: usize, matched: Option<bool>) -> Reply<'a>
    requires { off < 2 ^ 32 }
    ensures { said_of result ≡ said.offset off matched }
{
    Reply::Offset {
        off: off as u32,
        matched,
    }
}

fn wants<'a>(off: usize) -> PlainSideResponse<'a>
    requires { off < 2 ^ 32 }
    ensures value { side_response_of result ≡ wants off }
    ensures few { length result.steps.items ≡ 0 }
{
    side_reply_alone(offset(off, None))
}

fn sha256_of_both(first: &[u8], second: &[u8]) -> [u8; 32]
    ensures { result ≡ sha256 (first.now ++ second.now) }
{
    let mut hasher = Sha256::new();
    hasher.update(first);
    hasher.update(second);
    hasher.finalize()
}

fn completes<'a>(held: &[u8], bytes: &'a [u8], digest: Option<[u8; 32]>) -> PlainSideResponse<'a>
    requires { length held.now + length bytes.now < 2 ^ 32 }
    ensures value { side_response_of result ≡ completes held.now bytes.now digest }
    ensures few { length result.steps.items ≤ 2 }
{
    let all = held.len() + bytes.len();
    let Some(digest) = digest else {
        return side_responded(offset(all, None), PlainSideStep::Append(bytes));
    };
    if sha256_of_both(held, bytes) == digest {
        side_responded(offset(all, Some(true)), PlainSideStep::Append(bytes))
    } else {
        let given_up = side_responded(offset(all, Some(false)), PlainSideStep::Drop);
        preceded(PlainSideStep::Append(bytes), given_up)
    }
}

fn keeps<'a>(announcement: &Announcement, held: &[u8], bytes: &'a [u8]) -> PlainSideResponse<'a>
    requires { length held.now + length bytes.now < 2 ^ 32 }
    ensures value { side_response_of result ≡ keeps announcement.now held.now bytes.now }
    ensures few { length result.steps.items ≤ 2 }
{
    if bytes.is_empty() {
        return wants(held.len());
    }
    let all = held.len() + bytes.len();
    if all == announcement.length as usize {
        return completes(held, bytes, announcement.digest);
    }
    side_responded(offset(all, None), PlainSideStep::Append(bytes))
}

fn kept(unit: u32, size: u32, offset: usize, bytes: &[u8]) -> &[u8]
    requires unit { 0 < unit }
    requires fits { offset + length bytes.now < 2 ^ 64 }
    ensures value { result.now ≡ kept unit size offset bytes.now }
    ensures within { length result.now ≤ length bytes.now }
{
    if offset + bytes.len() == size as usize {
        return bytes;
    }
    let unit = unit as usize;
    front(bytes, unit * (bytes.len() / unit))
}

fn takes_part<'a>(
    unit: u32,
    announcement: &Announcement,
    held: &[u8],
    bytes: &'a [u8],
) -> PlainSideResponse<'a>
    requires { 0 < unit }
    ensures value { side_response_of result ≡ takes_part unit announcement.now held.now bytes.now }
    ensures few { length result.steps.items ≤ 2 }
{
    if (announcement.length as usize) < held.len() + bytes.len() {
        return refused_part(PAST_UPLOAD_END);
    }
    keeps(
        announcement,
        held,
        kept(unit, announcement.length, held.len(), bytes),
    )
}

/// A part's tag, where it has one, is the digest that was announced.
fn is_tagged_by(tag: Option<&[u8]>, digest: &Option<[u8; 32]>) -> bool
    ensures { result ≡ is_tagged_by (option_map (λ t. t.now) tag.entry) digest.now }
{
    let Some(tag) = tag else {
        return true;
    };
    match digest {
        None => false,
        Some(digest) => is_digest(tag, digest),
    }
}

fn is_digest(tag: &[u8], digest: &[u8; 32]) -> bool
    ensures { result ≡ bytes_eq tag.now digest.now }
{
    tag == digest.as_slice()
}

fn is_wanted(off: u32, tag: Option<&[u8]>, upload: &Upload) -> bool
    ensures { result
        ≡ ((off == length upload.now.accepted)
        && is_tagged_by (option_map (λ t. t.now) tag.entry) upload.now.announcement.digest) }
{
    let is_tagged = is_tagged_by(tag, &upload.announcement.digest);
    off as usize == upload.accepted.as_slice().len() && is_tagged
}

fn part_at<'a>(
    unit: u32,
    off: u32,
    tag: Option<&[u8]>,
    bytes: &'a [u8],
    upload: Option<&Upload>,
) -> PlainSideResponse<'a>
    requires unit { 0 < unit }
    requires sound { IfSome upload (λ u. length u.now.accepted ≤ u.now.announcement.length) }
    ensures value { side_response_of result
        ≡ part_at unit off (option_map (λ t. t.now) tag.entry) bytes.now
        (option_map (λ u. u.now) upload.entry) }
    ensures few { length result.steps.items ≤ 2 }
{
    let Some(upload) = upload else {
        return wants(0);
    };
    let _length = upload.announcement.length;
    let held = upload.accepted.as_slice();
    if is_wanted(off, tag, upload) {
        takes_part(unit, &upload.announcement, held, bytes)
    } else {
        wants(held.len())
    }
}

fn begins<'a>(unit: u32, announcement: Announcement, bytes: &'a [u8]) -> PlainSideResponse<'a>
    requires { 0 < unit }
    ensures value { side_response_of result ≡ begins unit announcement bytes.now }
    ensures few { length result.steps.items ≤ 3 }
{
    if (announcement.length as usize) < bytes.len() {
        return refused_part(PAST_UPLOAD_END);
    }
    preceded(
        PlainSideStep::Choose(announcement),
        takes_part(unit, &announcement, b"", bytes),
    )
}

fn new_start<'a>(
    unit: u32,
    announcement: Announcement,
    bytes: &'a [u8],
    pending: Option<Mark>,
) -> PlainSideResponse<'a>
    requires { 0 < unit }
    ensures value { side_response_of result ≡ new_start unit announcement bytes.now pending }
    ensures few { length result.steps.items ≤ 3 }
{
    match pending {
        Some(_) => refused_part(NO_FREE_SLOT),
        None => begins(unit, announcement, bytes),
    }
}

fn same_digest(first: &Option<[u8; 32]>, second: &Option<[u8; 32]>) -> bool
    ensures { result ≡ same_digest first.now second.now }
{
    match (first, second) {
        (Some(first), Some(second)) => *first == *second,
        _ => false,
    }
}

fn is_resumed_by(first: &Announcement, second: &Announcement) -> bool
    ensures { result ≡ is_resumed_by first.now second.now }
{
    first.length == second.length && same_digest(&first.digest, &second.digest)
}

fn resumes<'a>(
    unit: u32,
    announcement: &Announcement,
    held: &[u8],
    bytes: &'a [u8],
) -> PlainSideResponse<'a>
    requires unit { 0 < unit }
    requires sound { length held.now ≤ announcement.now.length }
    ensures value { side_response_of result ≡ resumes unit announcement.now held.now bytes.now }
    ensures few { length result.steps.items ≤ 2 }
{
    if held.is_empty() {
        return takes_part(unit, announcement, held, bytes);
    }
    let _length = announcement.length;
    wants(held.len())
}

fn start_at<'a>(
    unit: u32,
    announcement: Announcement,
    bytes: &'a [u8],
    pending: Option<Mark>,
    upload: Option<&Upload>,
) -> PlainSideResponse<'a>
    requires unit { 0 < unit }
    requires sound { IfSome upload (λ u. length u.now.accepted ≤ u.now.announcement.length) }
    ensures value { side_response_of result
        ≡ start_at unit announcement bytes.now pending (option_map (λ u. u.now) upload.entry) }
    ensures few { length result.steps.items ≤ 3 }
{
    let Some(upload) = upload else {
        return new_start(unit, announcement, bytes, pending);
    };
    if is_resumed_by(&upload.announcement, &announcement) {
        resumes(
            unit,
            &upload.announcement,
            upload.accepted.as_slice(),
            bytes,
        )
    } else {
        new_start(unit, announcement, bytes, pending)
    }
}

/// The announcement of a start; none where the digest has not 32 bytes.
fn announced(length: u32, sha: Option<&[u8]>) -> Option<Announcement>
    ensures there { is_some result ≡ not (has_wrong_size (option_map (λ s. s.now) sha.entry)) }
    ensures value { IfSome result
        (λ a. a ≡ record { length = length; digest = option_map (λ s. s.now) sha.entry }) }
{
    let Some(sha) = sha else {
        return Some(Announcement {
            length,
            digest: None,
        });
    };
    match <[u8; 32]>::try_from(sha) {
        Ok(digest) => Some(Announcement {
            length,
            digest: Some(digest),
        }),
        Err(_) => None,
    }
}

fn begins_with_magic(bytes: &[u8]) -> bool
    ensures { result ≡ begins_with_magic bytes.now }
{
    front(bytes, 4) == [0x3d, 0xb8, 0xf3, 0x96].as_slice()
}

fn differs(digest: &Option<[u8; 32]>, bytes: &[u8]) -> bool
    ensures { result ≡ differs digest.now bytes.now }
{
    match digest {
        None => false,
        Some(digest) => sha256_of(bytes) != *digest,
    }
}

fn is_complete(upload: &Upload) -> bool
    ensures { result ≡ is_complete upload.now }
{
    upload.accepted.as_slice().len() == upload.announcement.length as usize
}

/// The upload is complete, and its bytes have the digest that was announced, where one was.
pub(crate) fn is_whole(upload: &Upload) -> bool
    ensures { result
        ≡
        (is_complete upload.now
        && not (differs upload.now.announcement.digest upload.now.accepted)) }
{
    let has_digest = !differs(&upload.announcement.digest, upload.accepted.as_slice());
    is_complete(upload) && has_digest
}

pub(crate) fn is_spoiled(upload: &Option<Upload>) -> bool
    ensures { result ≡ is_spoiled upload.now }
{
    match upload {
        None => false,
        Some(upload) => {
            let is_other = differs(&upload.announcement.digest, upload.accepted.as_slice());
            is_complete(upload) && is_other
        }
    }
}

fn start_of<'a>(sizes: &Sizes, image: u32, side: &Side, part: &UploadPart<'a>) -> PlainResponse<'a>
    requires unit { 0 < sizes.now.unit }
    requires sound { IsSoundSide side.now }
    ensures { response_of result
        ≡ start_of sizes.now image side.now part.now.len (option_map (λ s. s.now) part.now.sha)
        part.now.bytes.now }
{
    let Some(len) = part.len else {
        return refused_image(NO_LENGTH);
    };
    let Some(announcement) = announced(len, part.sha) else {
        return refused_image(INVALID_DIGEST);
    };
    if sizes.slot.saturating_sub(sizes.page) < len {
        return refused_image(IMAGE_TOO_LARGE);
    }
    if part.bytes.len() < 32 {
        return refused_image(INVALID_HEADER);
    }
    if !begins_with_magic(part.bytes) {
        return refused_image(WRONG_MAGIC);
    }
    let upload = settled_side(side).upload;
    let pending = side.pending;
    begins_on(
        image,
        side,
        start_at(sizes.unit, announcement, part.bytes, pending, upload),
    )
}

fn has_wrong_size(sha: Option<&[u8]>) -> bool
    ensures { result ≡ has_wrong_size (option_map (λ s. s.now) sha.entry) }
{
    match sha {
        None => false,
        Some(sha) => sha.len() != 32,
    }
}

fn part_of<'a>(sizes: &Sizes, image: u32, side: &Side, part: &UploadPart<'a>) -> PlainResponse<'a>
    requires unit { 0 < sizes.now.unit }
    requires sound { IsSoundSide side.now }
    ensures { response_of result
        ≡ part_of sizes.now image side.now part.now.off (option_map (λ s. s.now) part.now.sha)
        part.now.bytes.now }
{
    if has_wrong_size(part.sha) {
        return refused_image(INVALID_DIGEST);
    }
    let upload = settled_side(side).upload;
    goes_on(
        image,
        side,
        part_at(sizes.unit, part.off, part.sha, part.bytes, upload),
    )
}

fn uploads_to<'a>(
    sizes: &Sizes,
    image: u32,
    side: Option<&Side>,
    part: &UploadPart<'a>,
) -> PlainResponse<'a>
    requires unit { 0 < sizes.now.unit }
    requires sound { IfSome side (λ s. IsSoundSide s.now) }
    ensures { response_of result
        ≡ uploads_to sizes.now image (option_map (λ s. s.now) side.entry) part.now.len
        part.now.off (option_map (λ s. s.now) part.now.sha) part.now.bytes.now }
{
    let Some(side) = side else {
        return refused_image(INVALID_SLOT);
    };
    if part.off == 0 {
        start_of(sizes, image, side, part)
    } else {
        part_of(sizes, image, side, part)
    }
}

/// The image of a start or a part, by the target of parts.
fn side_of(target: u32, part: &UploadPart<'_>) -> u32
    ensures { result
        ≡ side_of target part.now.image part.now.off (option_map (λ s. s.now) part.now.sha) }
{
    match part.image {
        Some(image) => image,
        None => unnamed(target, part.off, part.sha.is_some()),
    }
}

fn unnamed(target: u32, off: u32, is_tagged: bool) -> u32
    ensures { result ≡ (if (off == 0) || is_tagged then 0 else target) }
{
    if off == 0 || is_tagged { 0 } else { target }
}

pub(crate) fn uploads<'a>(
    sizes: &Sizes,
    device: &AbstractDevice,
    part: &UploadPart<'a>,
) -> PlainResponse<'a>
    requires unit { 0 < sizes.now.unit }
    requires sound { IsSound device.now }
    ensures { response_of result
        ≡ uploads sizes.now device.now part.now.image part.now.len part.now.off
        (option_map (λ s. s.now) part.now.sha) part.now.bytes.now }
{
    let image = side_of(device.target, part);
    uploads_to(sizes, image, side_at(device, image), part)
}
