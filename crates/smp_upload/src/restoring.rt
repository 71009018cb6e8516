// An upload whose page is not clean goes on clean.
ghost use Rattle.std.specs.Prelude.{◌≡◌, ◌+◌, ◌<◌, ◌≤◌, ◌%◌, true, false, IsTrue, OnOk, IfOk, IfErr, IfSome};
ghost use Rattle.smp_flash.specs.Calls.{Smaller};
ghost use Rattle.smp_flash.specs.Geometry.{slot_size};
ghost use Rattle.smp_flash.specs.Layout.{geometry_of, upload_spots};
ghost use Rattle.smp_model.specs.Sides.{side_settle_steps};
ghost use Rattle.smp_progress.specs.State.{CanTake, AimsAtRecord};
ghost use Rattle.smp_upload.specs.Faults.{upload_end};
ghost use Rattle.smp_upload.specs.Moves.{Moved, Done};
ghost use Rattle.smp_upload.specs.Rescuing.{HeldAs, SumsHeld};
ghost use Rattle.smp_upload.specs.States.{Says, known_receiving};

use crate::laws::sides_are_told_apart;
use crate::rescue::{bring_back, move_out};
use crate::states::{Lost, Receiving, UploadFault};
use smp_flash::{Flash, Layout};
use smp_model::Announcement;
use smp_progress::Progress;
use smp_tlv::Carried;

/// Ends a rescue that is under way.
pub fn end_rescue<F: Flash>(
    layout: Layout,
    progress: Progress,
    flash: &mut F,
    announcement: Announcement,
    offset: u32,
    sums: Carried,
) -> Result<Receiving, Lost>
    requires layout { geometry_of layout ≡ (F.state flash.old).geometry }
    requires place { progress.layout ≡ layout }
    requires sure { IsTrue progress.bank.sure }
    requires held { IfSome (F.state flash.old).bytes (HeldAs layout true progress announcement offset) }
    requires sums { IfSome (F.state flash.old).bytes (SumsHeld layout sums) }
    requires least { 32 ≤ announcement.length }
    requires most { announcement.length + (geometry_of layout).page ≤ slot_size (geometry_of layout) }
    requires below { offset < announcement.length }
    requires whole { offset % (geometry_of layout).unit ≡ 0 }
    requires inner { 0 < offset % (geometry_of layout).page }
    requires room { CanTake progress.bank.generation 1 }
    ensures moved { Moved layout (upload_spots layout) 1 side_settle_steps (upload_end result) (F.state flash.old) (F.state flash.new) }
    ensures done { OnOk result (Done layout (upload_spots layout) 1 side_settle_steps (F.state flash.old) (F.state flash.new)) }
    ensures says { IfOk result (λ receiving. IfSome (F.state flash.new).bytes (Says (known_receiving receiving))) }
    ensures layout { IfOk result (λ receiving. receiving.layout ≡ layout) }
    ensures spends { OnOk result (AimsAtRecord layout (F.state flash.old).aim → Smaller (F.state flash.old).patience (F.state flash.new).patience) }
    ensures lost { IfErr result (λ lost. lost.state.layout ≡ layout) }
    ensures worn { IfErr result (λ lost. lost.fault ≡ UploadFault.Worn → ⊥) }
    ensures formatted { IfErr result (λ lost. lost.fault ≡ UploadFault.Unformatted → ⊥) }
{
    sides_are_told_apart();
    match bring_back(layout, progress, flash, announcement, offset) {
        Err(lost) => Err(lost),
        Ok(next) => Ok(Receiving {
            layout,
            progress: next,
            announcement,
            offset,
            sums,
        }),
    }
}

/// Rescues a page that is not clean.
pub fn restore<F: Flash>(
    layout: Layout,
    progress: Progress,
    flash: &mut F,
    announcement: Announcement,
    offset: u32,
    sums: Carried,
) -> Result<Receiving, Lost>
    requires layout { geometry_of layout ≡ (F.state flash.old).geometry }
    requires place { progress.layout ≡ layout }
    requires sure { IsTrue progress.bank.sure }
    requires held { IfSome (F.state flash.old).bytes (HeldAs layout false progress announcement offset) }
    requires sums { IfSome (F.state flash.old).bytes (SumsHeld layout sums) }
    requires least { 32 ≤ announcement.length }
    requires most { announcement.length + (geometry_of layout).page ≤ slot_size (geometry_of layout) }
    requires below { offset < announcement.length }
    requires whole { offset % (geometry_of layout).unit ≡ 0 }
    requires inner { 0 < offset % (geometry_of layout).page }
    requires room { CanTake progress.bank.generation 2 }
    ensures moved { Moved layout (upload_spots layout) 2 side_settle_steps (upload_end result) (F.state flash.old) (F.state flash.new) }
    ensures done { OnOk result (Done layout (upload_spots layout) 2 side_settle_steps (F.state flash.old) (F.state flash.new)) }
    ensures says { IfOk result (λ receiving. IfSome (F.state flash.new).bytes (Says (known_receiving receiving))) }
    ensures layout { IfOk result (λ receiving. receiving.layout ≡ layout) }
    ensures spends { OnOk result (AimsAtRecord layout (F.state flash.old).aim → Smaller (F.state flash.old).patience (F.state flash.new).patience) }
    ensures lost { IfErr result (λ lost. lost.state.layout ≡ layout) }
    ensures worn { IfErr result (λ lost. lost.fault ≡ UploadFault.Worn → ⊥) }
    ensures formatted { IfErr result (λ lost. lost.fault ≡ UploadFault.Unformatted → ⊥) }
{
    sides_are_told_apart();
    match move_out(layout, progress, flash, announcement, offset) {
        Err(lost) => Err(lost),
        Ok(next) => end_rescue(layout, next, flash, announcement, offset, sums),
    }
}
