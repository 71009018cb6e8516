// A page that is not clean behind the accepted bytes is rescued: its front is moved to the scratch page and brought back.
ghost use Rattle.std.specs.Prelude.{◌≡◌, ◌+◌, ◌<◌, ◌≤◌, ◌%◌, true, false, IsTrue, OnOk, IfOk, IfErr, IfSome};
ghost use Rattle.smp_flash.specs.Area.{Told};
ghost use Rattle.smp_flash.specs.Calls.{Calls, Smaller};
ghost use Rattle.smp_flash.specs.Geometry.{slot_size};
ghost use Rattle.smp_flash.specs.Layout.{geometry_of, progress_of, upload_spots};
ghost use Rattle.smp_gate.specs.Newest.{AgesAtMost};
ghost use Rattle.smp_progress.specs.State.{ProgressSays, CanTake, AimsAtRecord};
ghost use Rattle.smp_upload.specs.Bytes.{CleanFrom};
ghost use Rattle.smp_upload.specs.Faults.{upload_end};
ghost use Rattle.smp_upload.specs.Moves.{Moves, no_steps};
ghost use Rattle.smp_upload.specs.Rescuing.{HeldAs, Reflags};

use crate::below::{move_from_scratch, move_to_scratch, put_record};
use crate::laws::sides_are_told_apart;
use crate::records::{record_at, rescue_record};
use crate::states::{Lost, UploadFault};
use smp_flash::{Flash, Layout};
use smp_model::Announcement;
use smp_progress::{Progress, progress_outlasts_other_changes};

/// Copies the front of the page to the scratch page, and puts the record of the rescue.
pub fn move_out<F: Flash>(
    layout: Layout,
    progress: Progress,
    flash: &mut F,
    announcement: Announcement,
    offset: u32,
) -> Result<Progress, Lost>
    requires layout { geometry_of layout ≡ (F.state flash.old).geometry }
    requires place { progress.layout ≡ layout }
    requires sure { IsTrue progress.bank.sure }
    requires held { IfSome (F.state flash.old).bytes (HeldAs layout false progress announcement offset) }
    requires least { 32 ≤ announcement.length }
    requires most { announcement.length + (geometry_of layout).page ≤ slot_size (geometry_of layout) }
    requires below { offset < announcement.length }
    requires whole { offset % (geometry_of layout).unit ≡ 0 }
    requires inner { 0 < offset % (geometry_of layout).page }
    requires room { CanTake progress.bank.generation 1 }
    ensures calls { Calls (upload_spots layout) (upload_end result) (F.state flash.old) (F.state flash.new) }
    ensures moves { Told (Moves layout no_steps) (F.state flash.old).bytes (F.state flash.new).bytes }
    ensures ages { Told (AgesAtMost 1 (progress_of layout)) (F.state flash.old).bytes (F.state flash.new).bytes }
    ensures flags { OnOk result (Told (Reflags layout true) (F.state flash.old).bytes (F.state flash.new).bytes) }
    ensures says { IfOk result (λ next. IfSome (F.state flash.new).bytes (ProgressSays next)) }
    ensures next { IfOk result (λ next. (next.layout ≡ layout) × IsTrue next.bank.sure) }
    ensures older { IfOk result (λ next. next.bank.generation ≤ progress.bank.generation + 1) }
    ensures pays { OnOk result (AimsAtRecord layout (F.state flash.old).aim → Smaller (F.state flash.old).patience (F.state flash.new).patience) }
    ensures lost { IfErr result (λ lost. lost.state.layout ≡ layout) }
    ensures worn { IfErr result (λ lost. lost.fault ≡ UploadFault.Worn → ⊥) }
    ensures formatted { IfErr result (λ lost. lost.fault ≡ UploadFault.Unformatted → ⊥) }
{
    sides_are_told_apart();
    progress_outlasts_other_changes();
    if let Err(lost) = move_to_scratch(layout, flash, offset) {
        return Err(lost);
    }
    let entry = rescue_record(&layout, announcement, offset);
    match put_record(layout, progress, flash, &entry) {
        Ok(next) => Ok(next),
        Err(lost) => Err(lost),
    }
}

/// Erases the page, writes its front back, and puts the record without the rescue.
pub fn bring_back<F: Flash>(
    layout: Layout,
    progress: Progress,
    flash: &mut F,
    announcement: Announcement,
    offset: u32,
) -> Result<Progress, Lost>
    requires layout { geometry_of layout ≡ (F.state flash.old).geometry }
    requires place { progress.layout ≡ layout }
    requires sure { IsTrue progress.bank.sure }
    requires held { IfSome (F.state flash.old).bytes (HeldAs layout true progress announcement offset) }
    requires least { 32 ≤ announcement.length }
    requires most { announcement.length + (geometry_of layout).page ≤ slot_size (geometry_of layout) }
    requires below { offset < announcement.length }
    requires whole { offset % (geometry_of layout).unit ≡ 0 }
    requires inner { 0 < offset % (geometry_of layout).page }
    requires room { CanTake progress.bank.generation 1 }
    ensures calls { Calls (upload_spots layout) (upload_end result) (F.state flash.old) (F.state flash.new) }
    ensures moves { Told (Moves layout no_steps) (F.state flash.old).bytes (F.state flash.new).bytes }
    ensures ages { Told (AgesAtMost 1 (progress_of layout)) (F.state flash.old).bytes (F.state flash.new).bytes }
    ensures flags { OnOk result (Told (Reflags layout false) (F.state flash.old).bytes (F.state flash.new).bytes) }
    ensures clean { OnOk result (IfSome (F.state flash.new).bytes (CleanFrom layout offset announcement.length)) }
    ensures says { IfOk result (λ next. IfSome (F.state flash.new).bytes (ProgressSays next)) }
    ensures next { IfOk result (λ next. (next.layout ≡ layout) × IsTrue next.bank.sure) }
    ensures pays { OnOk result (AimsAtRecord layout (F.state flash.old).aim → Smaller (F.state flash.old).patience (F.state flash.new).patience) }
    ensures lost { IfErr result (λ lost. lost.state.layout ≡ layout) }
    ensures worn { IfErr result (λ lost. lost.fault ≡ UploadFault.Worn → ⊥) }
    ensures formatted { IfErr result (λ lost. lost.fault ≡ UploadFault.Unformatted → ⊥) }
{
    sides_are_told_apart();
    progress_outlasts_other_changes();
    if let Err(lost) = move_from_scratch(layout, flash, offset) {
        return Err(lost);
    }
    let entry = record_at(&layout, announcement, offset);
    match put_record(layout, progress, flash, &entry) {
        Ok(next) => Ok(next),
        Err(lost) => Err(lost),
    }
}
