//! Parts of an upload.

ghost use Rattle.std.specs.Prelude.{◌≡◌, ◌&&◌, ◌+◌, ◌<◌, ◌≤◌, ◌==◌, Ok, None, Some, true, false, length, option_map, IfOk, IfSome};
ghost use Rattle.smp_flash.specs.Calls.{ReadsAtMost};
ghost use Rattle.smp_flash.specs.Geometry.{slot_size};
ghost use Rattle.smp_flash.specs.Layout.{geometry_of};
ghost use Rattle.smp_model.specs.ImageGroup.{begins, start_at, part_at};
ghost use Rattle.smp_model.specs.Said.{said_of};
ghost use Rattle.smp_model.specs.Uploads.{is_resumed_by, is_tagged_by};
ghost use Rattle.smp_upload.specs.States.{Says, known_idle, known_receiving, known_whole, known_mounted, known_chunked, part_of, chunk_said};
ghost use Rattle.smp_side.specs.Held.{Answers, IsAnswer};
ghost use Rattle.smp_side.specs.declared.held.Held.TheVariants.{Mounted as holds};

use crate::held::{Handed, Held, lost};
use smp_flash::Flash;
use smp_gate::bank_says_what_stands;
use smp_model::error::{IMAGE_GROUP, NO_FREE_SLOT, PAST_UPLOAD_END};
use smp_model::{Announcement, Reply};
use smp_upload::{Chunked, Idle, Mounted, Receiving, Whole, sides_are_told_apart};

/// The reply over a side that stays as it is.
pub fn said(mounted: Mounted, reply: Reply<'static>) -> Handed
    ensures { result ≡ record { held = holds mounted; result = Ok reply.entry } }
{
    Handed {
        held: Held::Mounted(mounted),
        result: Ok(reply),
    }
}

/// The wanted offset.
fn wants(mounted: Mounted, off: u32) -> Handed
    ensures { result ≡ record { held = holds mounted; result = Ok (Reply.Offset off None) } }
{
    said(mounted, Reply::Offset { off, matched: None })
}

/// An error of the image group.
pub fn refuses(mounted: Mounted, number: u32) -> Handed
    ensures { result ≡ record { held = holds mounted; result = Ok (Reply.GroupError 1 number) } }
{
    said(
        mounted,
        Reply::GroupError {
            group: IMAGE_GROUP,
            number,
        },
    )
}

/// The reply to a part that was stored.
fn reply_of(length: u32, chunked: &Chunked) -> Reply<'static>
    ensures { said_of result ≡ chunk_said length chunked.now }
{
    match chunked {
        Chunked::Receiving(state) => Reply::Offset {
            off: state.offset,
            matched: None,
        },
        Chunked::Whole(state, matched) => Reply::Offset {
            off: state.announcement.length,
            matched: *matched,
        },
        Chunked::Dropped(_) => Reply::Offset {
            off: length,
            matched: Some(false),
        },
    }
}

/// The side after a part that was stored.
fn mounted_from(chunked: Chunked) -> Mounted
    ensures { known_mounted result ≡ known_chunked chunked }
{
    match chunked {
        Chunked::Receiving(state) => Mounted::Receiving(state),
        Chunked::Whole(state, _) => Mounted::Whole(state),
        Chunked::Dropped(state) => Mounted::Idle(state),
    }
}

/// A part at the wanted offset.
fn part<F: Flash>(state: Receiving, flash: &mut F, bytes: &[u8]) -> Handed
    requires layout { geometry_of state.layout ≡ (F.state flash.old).geometry }
    requires says { IfSome (F.state flash.old).bytes (Says (known_receiving state)) }
    ensures answers { Answers state.layout 2 (λ side. part_of (geometry_of state.layout).unit bytes.now side.upload) result (F.state flash.old) (F.state flash.new) }
    ensures answer { IfOk result.result (λ reply. IsAnswer (said_of reply)) }
    ensures reads { length bytes.now ≤ 2048 → ReadsAtMost 200000 (F.state flash.old).bytes_read (F.state flash.new).bytes_read }
{
    sides_are_told_apart();
    bank_says_what_stands();
    let length = state.announcement.length;
    if bytes.len() > (length - state.offset) as usize {
        return refuses(Mounted::Receiving(state), PAST_UPLOAD_END);
    }
    match state.chunk(flash, bytes) {
        Ok(chunked) => {
            let reply = reply_of(length, &chunked);
            said(mounted_from(chunked), reply)
        }
        Err(fault) => lost(fault),
    }
}

/// A new upload where there is none.
fn begin_idle<F: Flash>(
    state: Idle,
    flash: &mut F,
    announcement: &Announcement,
    bytes: &[u8],
) -> Handed
    requires layout { geometry_of state.layout ≡ (F.state flash.old).geometry }
    requires long { 32 ≤ length bytes.now }
    requires most { announcement.now.length + (geometry_of state.layout).page ≤ slot_size (geometry_of state.layout) }
    requires says { IfSome (F.state flash.old).bytes (Says (known_idle state)) }
    ensures answers { Answers state.layout 3 (λ _. begins (geometry_of state.layout).unit announcement.now bytes.now) result (F.state flash.old) (F.state flash.new) }
    ensures answer { IfOk result.result (λ reply. IsAnswer (said_of reply)) }
    ensures reads { length bytes.now ≤ 2048 → ReadsAtMost 204096 (F.state flash.old).bytes_read (F.state flash.new).bytes_read }
{
    sides_are_told_apart();
    bank_says_what_stands();
    if bytes.len() > announcement.length as usize {
        return refuses(Mounted::Idle(state), PAST_UPLOAD_END);
    }
    match state.choose(flash, announcement) {
        Ok(receiving) => part(receiving, flash, bytes),
        Err(fault) => lost(fault),
    }
}

/// A new upload in place of one that is under way.
fn begin_receiving<F: Flash>(
    state: Receiving,
    flash: &mut F,
    announcement: &Announcement,
    bytes: &[u8],
) -> Handed
    requires layout { geometry_of state.layout ≡ (F.state flash.old).geometry }
    requires long { 32 ≤ length bytes.now }
    requires most { announcement.now.length + (geometry_of state.layout).page ≤ slot_size (geometry_of state.layout) }
    requires says { IfSome (F.state flash.old).bytes (Says (known_receiving state)) }
    ensures answers { Answers state.layout 3 (λ _. begins (geometry_of state.layout).unit announcement.now bytes.now) result (F.state flash.old) (F.state flash.new) }
    ensures answer { IfOk result.result (λ reply. IsAnswer (said_of reply)) }
    ensures reads { length bytes.now ≤ 2048 → ReadsAtMost 204096 (F.state flash.old).bytes_read (F.state flash.new).bytes_read }
{
    sides_are_told_apart();
    bank_says_what_stands();
    if bytes.len() > announcement.length as usize {
        return refuses(Mounted::Receiving(state), PAST_UPLOAD_END);
    }
    match state.choose(flash, announcement) {
        Ok(receiving) => part(receiving, flash, bytes),
        Err(fault) => lost(fault),
    }
}

/// A new upload in place of one that is complete.
fn begin_whole<F: Flash>(
    state: Whole,
    flash: &mut F,
    announcement: &Announcement,
    bytes: &[u8],
) -> Handed
    requires layout { geometry_of state.layout ≡ (F.state flash.old).geometry }
    requires long { 32 ≤ length bytes.now }
    requires most { announcement.now.length + (geometry_of state.layout).page ≤ slot_size (geometry_of state.layout) }
    requires says { IfSome (F.state flash.old).bytes (Says (known_whole state)) }
    ensures answers { Answers state.layout 3 (λ _. begins (geometry_of state.layout).unit announcement.now bytes.now) result (F.state flash.old) (F.state flash.new) }
    ensures answer { IfOk result.result (λ reply. IsAnswer (said_of reply)) }
    ensures reads { length bytes.now ≤ 2048 → ReadsAtMost 204096 (F.state flash.old).bytes_read (F.state flash.new).bytes_read }
{
    sides_are_told_apart();
    bank_says_what_stands();
    if bytes.len() > announcement.length as usize {
        return refuses(Mounted::Whole(state), PAST_UPLOAD_END);
    }
    match state.choose(flash, announcement) {
        Ok(receiving) => part(receiving, flash, bytes),
        Err(fault) => lost(fault),
    }
}

/// Both have a digest, the same one, and the same length.
fn resumes(old: &Announcement, new: &Announcement) -> bool
    ensures { result ≡ is_resumed_by old.now new.now }
{
    if old.length != new.length {
        return false;
    }
    match (old.digest, new.digest) {
        (Some(one), Some(other)) => one == other,
        _ => false,
    }
}

/// The first part of an upload, of 32 bytes at least, with what it announces: 32 bytes to the slot's length less one page.
///
/// An upload of the same length and digest goes on where it stands. Another one is given up, unless slot 1 is pending.
pub fn start<F: Flash>(
    mounted: Mounted,
    flash: &mut F,
    announcement: &Announcement,
    bytes: &[u8],
) -> Handed
    requires layout { geometry_of (known_mounted mounted).layout ≡ (F.state flash.old).geometry }
    requires long { 32 ≤ length bytes.now }
    requires most { announcement.now.length + (geometry_of (known_mounted mounted).layout).page ≤ slot_size (geometry_of (known_mounted mounted).layout) }
    requires says { IfSome (F.state flash.old).bytes (Says (known_mounted mounted)) }
    ensures answers { Answers (known_mounted mounted).layout 3 (λ side. start_at (geometry_of (known_mounted mounted).layout).unit announcement.now bytes.now side.pending side.upload) result (F.state flash.old) (F.state flash.new) }
    ensures answer { IfOk result.result (λ reply. IsAnswer (said_of reply)) }
    ensures reads { length bytes.now ≤ 2048 → ReadsAtMost 204096 (F.state flash.old).bytes_read (F.state flash.new).bytes_read }
{
    sides_are_told_apart();
    match mounted {
        Mounted::Idle(state) => begin_idle(state, flash, announcement, bytes),
        Mounted::Receiving(state) => {
            if !resumes(&state.announcement, announcement) {
                return begin_receiving(state, flash, announcement, bytes);
            }
            if state.offset == 0 {
                return part(state, flash, bytes);
            }
            let off = state.offset;
            wants(Mounted::Receiving(state), off)
        }
        Mounted::Whole(state) => {
            if !resumes(&state.announcement, announcement) {
                return begin_whole(state, flash, announcement, bytes);
            }
            let off = state.announcement.length;
            wants(Mounted::Whole(state), off)
        }
        Mounted::Pending(state) => {
            if !resumes(&state.announcement, announcement) {
                return refuses(Mounted::Pending(state), NO_FREE_SLOT);
            }
            let off = state.announcement.length;
            wants(Mounted::Pending(state), off)
        }
    }
}

/// A part's tag, where it has one, is the digest that was announced.
fn is_tagged(tag: Option<&[u8]>, digest: &Option<[u8; 32]>) -> bool
    ensures { result ≡ is_tagged_by (option_map (λ t. t.now) tag.entry) digest.now }
{
    match tag {
        None => true,
        Some(tag) => match digest {
            Some(digest) => &digest[..] == tag,
            None => false,
        },
    }
}

/// The part is for this upload, and at the wanted offset.
fn fits(off: u32, tag: Option<&[u8]>, wanted: u32, announcement: &Announcement) -> bool
    ensures { result ≡ ((off == wanted) && is_tagged_by (option_map (λ t. t.now) tag.entry) announcement.now.digest) }
{
    let tagged = is_tagged(tag, &announcement.digest);
    off == wanted && tagged
}

/// There is more at the end of a complete upload.
fn goes_on(
    off: u32,
    tag: Option<&[u8]>,
    size: u32,
    announcement: &Announcement,
    bytes: &[u8],
) -> bool
    ensures yes { result ≡ true → (((off == size) && is_tagged_by (option_map (λ t. t.now) tag.entry) announcement.now.digest) ≡ true) × (0 < length bytes.now) }
    ensures not { result ≡ false → ((off == size) && is_tagged_by (option_map (λ t. t.now) tag.entry) announcement.now.digest) ≡ true → length bytes.now ≡ 0 }
{
    let here = fits(off, tag, size, announcement);
    here && !bytes.is_empty()
}

/// A part at an offset above 0, with the upload's digest as its tag or with none.
pub fn part_at<F: Flash>(
    mounted: Mounted,
    flash: &mut F,
    off: u32,
    tag: Option<&[u8]>,
    bytes: &[u8],
) -> Handed
    requires layout { geometry_of (known_mounted mounted).layout ≡ (F.state flash.old).geometry }
    requires says { IfSome (F.state flash.old).bytes (Says (known_mounted mounted)) }
    ensures answers { Answers (known_mounted mounted).layout 2 (λ side. part_at (geometry_of (known_mounted mounted).layout).unit off (option_map (λ t. t.now) tag.entry) bytes.now side.upload) result (F.state flash.old) (F.state flash.new) }
    ensures answer { IfOk result.result (λ reply. IsAnswer (said_of reply)) }
    ensures reads { length bytes.now ≤ 2048 → ReadsAtMost 200000 (F.state flash.old).bytes_read (F.state flash.new).bytes_read }
{
    sides_are_told_apart();
    match mounted {
        Mounted::Idle(state) => wants(Mounted::Idle(state), 0),
        Mounted::Receiving(state) => {
            if fits(off, tag, state.offset, &state.announcement) {
                return part(state, flash, bytes);
            }
            let wanted = state.offset;
            wants(Mounted::Receiving(state), wanted)
        }
        Mounted::Whole(state) => {
            let length = state.announcement.length;
            if goes_on(off, tag, length, &state.announcement, bytes) {
                return refuses(Mounted::Whole(state), PAST_UPLOAD_END);
            }
            wants(Mounted::Whole(state), length)
        }
        Mounted::Pending(state) => {
            let length = state.announcement.length;
            if goes_on(off, tag, length, &state.announcement, bytes) {
                return refuses(Mounted::Pending(state), PAST_UPLOAD_END);
            }
            wants(Mounted::Pending(state), length)
        }
    }
}
