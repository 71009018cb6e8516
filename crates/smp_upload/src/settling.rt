// A complete upload is settled: it is whole, or it is given up where its bytes do not have the announced digest.
ghost use Rattle.std.specs.Prelude.{◌≡◌, ◌+◌, ◌≤◌, true, false, IsTrue, IsSome, OnOk, IfOk, IfErr, IfSome, option_map};
ghost use Rattle.smp_flash.specs.Area.{Told};
ghost use Rattle.smp_flash.specs.Calls.{Smaller, ReadsAtMost};
ghost use Rattle.smp_flash.specs.Geometry.{slot_size};
ghost use Rattle.smp_flash.specs.Layout.{geometry_of, upload_spots};
ghost use Rattle.smp_model.specs.Sides.{side_settle_steps};
ghost use Rattle.smp_progress.specs.State.{CanTake, AimsAtRecord};
ghost use Rattle.smp_upload.specs.Faults.{upload_end};
ghost use Rattle.smp_upload.specs.Moves.{Moved, Done};
ghost use Rattle.smp_upload.specs.Rescuing.{HeldAs};
ghost use Rattle.smp_upload.specs.States.{Says, known_chunked, known_idle};
ghost use Rattle.smp_upload.specs.Storing.{Filled, Spoils, Settled, SaysMatched, misses};

use crate::below::put_record;
use crate::laws::sides_are_told_apart;
use crate::reading::finish;
use crate::states::{Chunked, Idle, Lost, UploadFault, Whole};
use smp_flash::{Flash, Layout};
use smp_model::Announcement;
use smp_progress::{Progress, Record};
use smp_tlv::Carried;

/// Whether another digest was announced than this one.
pub fn is_wrong(announced: Option<[u8; 32]>, digest: [u8; 32]) -> bool
    ensures { result ≡ misses announced digest }
{
    match announced {
        None => false,
        Some(wanted) => digest != wanted,
    }
}

/// What is said of a right digest: that it is right, where one was announced.
fn matched(announced: Option<[u8; 32]>) -> Option<bool>
    ensures { result ≡ option_map (λ digest. true) announced }
{
    match announced {
        None => None,
        Some(_) => Some(true),
    }
}

/// Gives up a complete upload that has not what was announced.
pub fn drop_upload<F: Flash>(
    layout: Layout,
    progress: Progress,
    flash: &mut F,
    announcement: Announcement,
) -> Result<Idle, Lost>
    requires layout { geometry_of layout ≡ (F.state flash.old).geometry }
    requires place { progress.layout ≡ layout }
    requires sure { IsTrue progress.bank.sure }
    requires held { IfSome (F.state flash.old).bytes (HeldAs layout false progress announcement announcement.length) }
    requires wrong { IfSome (F.state flash.old).bytes (Spoils layout true) }
    requires room { CanTake progress.bank.generation 1 }
    ensures moved { Moved layout (upload_spots layout) 1 side_settle_steps (upload_end result) (F.state flash.old) (F.state flash.new) }
    ensures done { OnOk result (Done layout (upload_spots layout) 1 side_settle_steps (F.state flash.old) (F.state flash.new)) }
    ensures reads { ReadsAtMost 4096 (F.state flash.old).bytes_read (F.state flash.new).bytes_read }
    ensures settled { Told (Settled layout) (F.state flash.old).bytes (F.state flash.new).bytes }
    ensures says { IfOk result (λ idle. IfSome (F.state flash.new).bytes (Says (known_idle idle))) }
    ensures layout { IfOk result (λ idle. idle.layout ≡ layout) }
    ensures pays { OnOk result (AimsAtRecord layout (F.state flash.old).aim → Smaller (F.state flash.old).patience (F.state flash.new).patience) }
    ensures lost { IfErr result (λ lost. lost.state.layout ≡ layout) }
    ensures formatted { IfErr result (λ lost. lost.fault ≡ UploadFault.Unformatted → ⊥) }
    ensures worn { IfErr result (λ lost. lost.fault ≡ UploadFault.Worn → ⊥) }
{
    sides_are_told_apart();
    match put_record(layout, progress, flash, &Record::None) {
        Ok(next) => Ok(Idle {
            layout,
            progress: next,
        }),
        Err(lost) => Err(lost),
    }
}

/// The same, as what a part leaves.
fn give_up<F: Flash>(
    layout: Layout,
    progress: Progress,
    flash: &mut F,
    announcement: Announcement,
) -> Result<Chunked, Lost>
    requires layout { geometry_of layout ≡ (F.state flash.old).geometry }
    requires place { progress.layout ≡ layout }
    requires sure { IsTrue progress.bank.sure }
    requires held { IfSome (F.state flash.old).bytes (HeldAs layout false progress announcement announcement.length) }
    requires wrong { IfSome (F.state flash.old).bytes (Spoils layout true) }
    requires digest { IsSome announcement.digest }
    requires room { CanTake progress.bank.generation 1 }
    ensures moved { Moved layout (upload_spots layout) 1 side_settle_steps (upload_end result) (F.state flash.old) (F.state flash.new) }
    ensures done { OnOk result (Done layout (upload_spots layout) 1 side_settle_steps (F.state flash.old) (F.state flash.new)) }
    ensures reads { ReadsAtMost 4096 (F.state flash.old).bytes_read (F.state flash.new).bytes_read }
    ensures settled { Told (Settled layout) (F.state flash.old).bytes (F.state flash.new).bytes }
    ensures says { IfOk result (λ chunked. IfSome (F.state flash.new).bytes (Says (known_chunked chunked))) }
    ensures layout { IfOk result (λ chunked. (known_chunked chunked).layout ≡ layout) }
    ensures said { IfOk result (λ chunked. IfSome (F.state flash.old).bytes (SaysMatched layout announcement.length chunked)) }
    ensures lost { IfErr result (λ lost. lost.state.layout ≡ layout) }
    ensures formatted { IfErr result (λ lost. lost.fault ≡ UploadFault.Unformatted → ⊥) }
    ensures worn { IfErr result (λ lost. lost.fault ≡ UploadFault.Worn → ⊥) }
{
    sides_are_told_apart();
    match drop_upload(layout, progress, flash, announcement) {
        Ok(idle) => Ok(Chunked::Dropped(idle)),
        Err(lost) => Err(lost),
    }
}

/// Settles a complete upload, of which the digest and the image come from the sums of its bytes.
pub fn settle<F: Flash>(
    layout: Layout,
    progress: Progress,
    flash: &mut F,
    announcement: Announcement,
    sums: Carried,
) -> Result<Chunked, Lost>
    requires layout { geometry_of layout ≡ (F.state flash.old).geometry }
    requires place { progress.layout ≡ layout }
    requires sure { IsTrue progress.bank.sure }
    requires filled { IfSome (F.state flash.old).bytes (Filled layout progress announcement announcement.length sums) }
    requires least { 32 ≤ announcement.length }
    requires most { announcement.length + (geometry_of layout).page ≤ slot_size (geometry_of layout) }
    requires room { IsSome announcement.digest → CanTake progress.bank.generation 1 }
    ensures moved { Moved layout (upload_spots layout) 1 side_settle_steps (upload_end result) (F.state flash.old) (F.state flash.new) }
    ensures done { OnOk result (Done layout (upload_spots layout) 1 side_settle_steps (F.state flash.old) (F.state flash.new)) }
    ensures reads { ReadsAtMost (131102 + 4096) (F.state flash.old).bytes_read (F.state flash.new).bytes_read }
    ensures settled { Told (Settled layout) (F.state flash.old).bytes (F.state flash.new).bytes }
    ensures says { IfOk result (λ chunked. IfSome (F.state flash.new).bytes (Says (known_chunked chunked))) }
    ensures layout { IfOk result (λ chunked. (known_chunked chunked).layout ≡ layout) }
    ensures said { IfOk result (λ chunked. IfSome (F.state flash.old).bytes (SaysMatched layout announcement.length chunked)) }
    ensures lost { IfErr result (λ lost. lost.state.layout ≡ layout) }
    ensures formatted { IfErr result (λ lost. lost.fault ≡ UploadFault.Unformatted → ⊥) }
    ensures worn { IfErr result (λ lost. lost.fault ≡ UploadFault.Worn → ⊥) }
{
    sides_are_told_apart();
    let finished = match finish(layout, flash, announcement.length, sums) {
        Ok(finished) => finished,
        Err(lost) => return Err(lost),
    };
    if is_wrong(announcement.digest, finished.digest) {
        return give_up(layout, progress, flash, announcement);
    }
    Ok(Chunked::Whole(
        Whole {
            layout,
            progress,
            announcement,
            image: finished.image,
        },
        matched(announcement.digest),
    ))
}
