// The bytes of a part, and then their record.
ghost use Rattle.std.specs.Prelude.{◌≡◌, ◌+◌, ◌*◌, ◌<◌, ◌≤◌, ◌%◌, length, IsTrue, OnOk, IfOk, IfErr, IfSome};
ghost use Rattle.smp_flash.specs.Area.{Told};
ghost use Rattle.smp_flash.specs.Calls.{Calls, Smaller, ReadsAtMost, ChangesAtMost};
ghost use Rattle.smp_flash.specs.Geometry.{slot_size};
ghost use Rattle.smp_flash.specs.Layout.{geometry_of, progress_of, upload_spots};
ghost use Rattle.smp_gate.specs.Newest.{AgesAtMost};
ghost use Rattle.smp_model.specs.Sides.{Append};
ghost use Rattle.smp_progress.specs.State.{CanTake, AimsAtRecord};
ghost use Rattle.smp_slot.specs.Costs.{entered, begun};
ghost use Rattle.smp_upload.specs.Counting.{AimsAtSlot};
ghost use Rattle.smp_upload.specs.Faults.{upload_end};
ghost use Rattle.smp_upload.specs.Moves.{Moves, KeepsPending, one_step};
ghost use Rattle.smp_upload.specs.States.{Says};
ghost use Rattle.smp_upload.specs.Storing.{known_at, Lays, Filled};

use crate::below::{put_bytes, put_record};
use crate::laws::sides_are_told_apart;
use crate::records::record_at;
use crate::states::{Lost, UploadFault};
use smp_flash::{Flash, Layout};
use smp_model::Announcement;
use smp_progress::{Progress, progress_outlasts_other_changes};
use smp_tlv::Carried;

/// What stands after bytes were stored: the record, and the sums with these bytes.
#[derive(Drop)]
pub struct Stored {
    pub progress: Progress,
    pub sums: Carried,
}

/// Puts bytes into the secondary slot behind the accepted ones, and then the record that they are accepted.
pub fn store<F: Flash>(
    layout: Layout,
    progress: Progress,
    flash: &mut F,
    announcement: Announcement,
    offset: u32,
    sums: Carried,
    bytes: &[u8],
) -> Result<Stored, Lost>
    requires layout { geometry_of layout ≡ (F.state flash.old).geometry }
    requires place { progress.layout ≡ layout }
    requires sure { IsTrue progress.bank.sure }
    requires says { IfSome (F.state flash.old).bytes (Says (known_at layout progress announcement offset sums)) }
    requires least { 32 ≤ announcement.length }
    requires most { announcement.length + (geometry_of layout).page ≤ slot_size (geometry_of layout) }
    requires begins { offset % (geometry_of layout).unit ≡ 0 }
    requires fits { offset + length bytes.now ≤ announcement.length }
    requires some { 0 < length bytes.now }
    requires whole { offset + length bytes.now < announcement.length → (offset + length bytes.now) % (geometry_of layout).unit ≡ 0 }
    requires room { CanTake progress.bank.generation 1 }
    ensures calls { Calls (upload_spots layout) (upload_end result) (F.state flash.old) (F.state flash.new) }
    ensures reads { ReadsAtMost (begun (geometry_of layout).page offset (length bytes.now) * (geometry_of layout).page + 4096) (F.state flash.old).bytes_read (F.state flash.new).bytes_read }
    ensures changes { ChangesAtMost (entered (geometry_of layout).page offset (length bytes.now) + 2) (begun (geometry_of layout).page offset (length bytes.now) + 8) (F.state flash.old).changes (F.state flash.new).changes }
    ensures moves { Told (Moves layout (one_step (Append bytes.now))) (F.state flash.old).bytes (F.state flash.new).bytes }
    ensures ages { Told (AgesAtMost 1 (progress_of layout)) (F.state flash.old).bytes (F.state flash.new).bytes }
    ensures pending { Told (KeepsPending layout) (F.state flash.old).bytes (F.state flash.new).bytes }
    ensures lays { OnOk result (Told (Lays layout bytes.now) (F.state flash.old).bytes (F.state flash.new).bytes) }
    ensures filled { IfOk result (λ stored. IfSome (F.state flash.new).bytes (Filled layout stored.progress announcement (offset + length bytes.now) stored.sums)) }
    ensures next { IfOk result (λ stored. (stored.progress.layout ≡ layout) × IsTrue stored.progress.bank.sure) }
    ensures older { IfOk result (λ stored. stored.progress.bank.generation ≤ progress.bank.generation + 1) }
    ensures pays { OnOk result (AimsAtRecord layout (F.state flash.old).aim → Smaller (F.state flash.old).patience (F.state flash.new).patience) }
    ensures pays_slot { OnOk result (AimsAtSlot layout 1 (F.state flash.old).aim → Smaller (F.state flash.old).patience (F.state flash.new).patience) }
    ensures lost { IfErr result (λ lost. lost.state.layout ≡ layout) }
    ensures worn { IfErr result (λ lost. lost.fault ≡ UploadFault.Worn → ⊥) }
    ensures formatted { IfErr result (λ lost. lost.fault ≡ UploadFault.Unformatted → ⊥) }
{
    sides_are_told_apart();
    progress_outlasts_other_changes();
    if let Err(lost) = put_bytes(layout, flash, offset, bytes) {
        return Err(lost);
    }
    let entry = record_at(&layout, announcement, offset + bytes.len() as u32);
    match put_record(layout, progress, flash, &entry) {
        Ok(next) => {
            let mut sums = sums;
            sums.add(bytes);
            Ok(Stored {
                progress: next,
                sums,
            })
        }
        Err(lost) => Err(lost),
    }
}
