// Calls below on the regions of an image, with their faults as a call on an upload's state passes them on.
ghost use Rattle.std.specs.Prelude.{◌≡◌, ◌↔◌, ◌+◌, ◌*◌, ◌≤◌, ◌<◌, ◌%◌, ◌∷◌, [], true, IsTrue, OnOk, IfOk, IfErr, IfSome, length};
ghost use Rattle.smp_flash.specs.Area.{area, blank, spot, Keeps, Told};
ghost use Rattle.smp_flash.specs.Calls.{Calls, Smaller, ReadsAtMost, ChangesAtMost};
ghost use Rattle.smp_flash.specs.Geometry.{slot_size, tail};
ghost use Rattle.smp_flash.specs.Layout.{geometry_of, progress_of, slot_of, scratch_of, area_spot};
ghost use Rattle.smp_flash.specs.Region.{counts};
ghost use Rattle.smp_gate.specs.Newest.{sides, AgesAtMost};
ghost use Rattle.smp_progress.specs.Cells.{HasRecord, OldOrThis};
ghost use Rattle.smp_progress.specs.Record.{IsRecord};
ghost use Rattle.smp_progress.specs.State.{ProgressSays, AimsAtRecord, CanTake};
ghost use Rattle.smp_slot.specs.Costs.{entered, begun};
ghost use Rattle.smp_slot.specs.Laid.{Laid};
ghost use Rattle.smp_slot.specs.Moved as slots;
ghost use Rattle.smp_slot.specs.Slots.{page_begin, moved_spots};
ghost use Rattle.smp_upload.specs.Counting.{AimsAtSlot};
ghost use Rattle.smp_upload.specs.Faults.{upload_end};

use crate::faults::{from_bank, from_call, lost};
use crate::states::{Lost, UploadFault};
use smp_flash::{Flash, Layout, regions_count_what_begins_there};
use smp_progress::{Progress, Record};
use smp_slot::{from_scratch, put, slots_fit, tail_is_clean, to_scratch};

/// Puts a record in place of the one that stands.
pub fn put_record<F: Flash>(
    layout: Layout,
    progress: Progress,
    flash: &mut F,
    entry: &Record,
) -> Result<Progress, Lost>
    requires layout { geometry_of layout ≡ (F.state flash.old).geometry }
    requires place { progress.layout ≡ layout }
    requires sure { IsTrue progress.bank.sure }
    requires lawful { IsRecord (geometry_of layout) entry.now }
    requires says { IfSome (F.state flash.old).bytes (ProgressSays progress) }
    requires room { CanTake progress.bank.generation 1 }
    ensures calls { Calls (sides (progress_of layout)) (upload_end result) (F.state flash.old) (F.state flash.new) }
    ensures reads { ReadsAtMost 4096 (F.state flash.old).bytes_read (F.state flash.new).bytes_read }
    ensures changes { ChangesAtMost 2 8 (F.state flash.old).changes (F.state flash.new).changes }
    ensures either { Told (OldOrThis layout entry.now) (F.state flash.old).bytes (F.state flash.new).bytes }
    ensures ages { Told (AgesAtMost 1 (progress_of layout)) (F.state flash.old).bytes (F.state flash.new).bytes }
    ensures holds { OnOk result (IfSome (F.state flash.new).bytes (HasRecord layout entry.now)) }
    ensures says { IfOk result (λ next. IfSome (F.state flash.new).bytes (ProgressSays next)) }
    ensures next { IfOk result (λ next. (next.layout ≡ layout) × IsTrue next.bank.sure) }
    ensures older { IfOk result (λ next. next.bank.generation ≤ progress.bank.generation + 1) }
    ensures pays { OnOk result (AimsAtRecord layout (F.state flash.old).aim → Smaller (F.state flash.old).patience (F.state flash.new).patience) }
    ensures lost { IfErr result (λ lost. lost.state.layout ≡ layout) }
    ensures worn { IfErr result (λ lost. lost.fault ≡ UploadFault.Worn → ⊥) }
    ensures formatted { IfErr result (λ lost. lost.fault ≡ UploadFault.Unformatted → ⊥) }
{
    let mut progress = progress;
    match progress.put(flash, entry) {
        Ok(()) => Ok(progress),
        Err(fault) => Err(lost(layout, from_bank(fault))),
    }
}

/// Puts bytes into the secondary slot from an offset on.
pub fn put_bytes<F: Flash>(
    layout: Layout,
    flash: &mut F,
    offset: u32,
    bytes: &[u8],
) -> Result<(), Lost>
    requires layout { geometry_of layout ≡ (F.state flash.old).geometry }
    requires place { offset % (geometry_of layout).unit ≡ 0 }
    requires inside { offset + length bytes.now + (geometry_of layout).page ≤ slot_size (geometry_of layout) }
    requires clean { IfSome (F.state flash.old).bytes (λ held. area ((slot_of layout 1).at + offset) (tail (geometry_of layout).page offset) held ≡ blank (tail (geometry_of layout).page offset)) }
    ensures calls { Calls (spot ((slot_of layout 1).at + offset) (length bytes.now + tail (geometry_of layout).page (offset + length bytes.now))) (upload_end result) (F.state flash.old) (F.state flash.new) }
    ensures reads { ReadsAtMost (begun (geometry_of layout).page offset (length bytes.now) * (geometry_of layout).page) (F.state flash.old).bytes_read (F.state flash.new).bytes_read }
    ensures changes { ChangesAtMost (entered (geometry_of layout).page offset (length bytes.now)) (begun (geometry_of layout).page offset (length bytes.now)) (F.state flash.old).changes (F.state flash.new).changes }
    ensures laid { OnOk result (Told (Laid ((slot_of layout 1).at + offset) (tail (geometry_of layout).page (offset + length bytes.now)) bytes.now) (F.state flash.old).bytes (F.state flash.new).bytes) }
    ensures pays { OnOk result (0 < length bytes.now → AimsAtSlot layout 1 (F.state flash.old).aim → Smaller (F.state flash.old).patience (F.state flash.new).patience) }
    ensures lost { IfErr result (λ lost. lost.state.layout ≡ layout) }
    ensures worn { IfErr result (λ lost. lost.fault ≡ UploadFault.Worn → ⊥) }
    ensures formatted { IfErr result (λ lost. lost.fault ≡ UploadFault.Unformatted → ⊥) }
{
    slots_fit();
    regions_count_what_begins_there();
    match put(flash, layout.slot(1), offset, bytes) {
        Ok(()) => Ok(()),
        Err(fault) => Err(lost(layout, from_call(fault))),
    }
}

/// Copies the front of the secondary slot's page in which the offset lies to the scratch page.
pub fn move_to_scratch<F: Flash>(layout: Layout, flash: &mut F, offset: u32) -> Result<(), Lost>
    requires layout { geometry_of layout ≡ (F.state flash.old).geometry }
    requires inner { 0 < offset % (geometry_of layout).page }
    requires place { offset % (geometry_of layout).unit ≡ 0 }
    requires inside { offset + (geometry_of layout).page ≤ slot_size (geometry_of layout) }
    ensures calls { Calls (moved_spots layout (slot_of layout 1) offset) (upload_end result) (F.state flash.old) (F.state flash.new) }
    ensures keeps { Told (Keeps (area_spot (scratch_of layout) ∷ [])) (F.state flash.old).bytes (F.state flash.new).bytes }
    ensures ok { OnOk result (Told (slots.Moved (page_begin layout (slot_of layout 1) offset) (scratch_of layout).at (offset % (geometry_of layout).page) (tail (geometry_of layout).page offset)) (F.state flash.old).bytes (F.state flash.new).bytes) }
    ensures lost { IfErr result (λ lost. lost.state.layout ≡ layout) }
    ensures worn { IfErr result (λ lost. lost.fault ≡ UploadFault.Worn → ⊥) }
    ensures formatted { IfErr result (λ lost. lost.fault ≡ UploadFault.Unformatted → ⊥) }
{
    match to_scratch(flash, &layout, layout.slot(1), offset) {
        Ok(()) => Ok(()),
        Err(fault) => Err(lost(layout, from_call(fault))),
    }
}

/// Erases the secondary slot's page in which the offset lies, and copies its front back from the scratch page.
pub fn move_from_scratch<F: Flash>(layout: Layout, flash: &mut F, offset: u32) -> Result<(), Lost>
    requires layout { geometry_of layout ≡ (F.state flash.old).geometry }
    requires inner { 0 < offset % (geometry_of layout).page }
    requires place { offset % (geometry_of layout).unit ≡ 0 }
    requires inside { offset + (geometry_of layout).page ≤ slot_size (geometry_of layout) }
    ensures calls { Calls (area_spot (scratch_of layout) ∷ (page_begin layout (slot_of layout 1) offset, (geometry_of layout).page) ∷ []) (upload_end result) (F.state flash.old) (F.state flash.new) }
    ensures keeps { Told (Keeps (spot (page_begin layout (slot_of layout 1) offset) (geometry_of layout).page)) (F.state flash.old).bytes (F.state flash.new).bytes }
    ensures ok { OnOk result (Told (slots.Moved (scratch_of layout).at (page_begin layout (slot_of layout 1) offset) (offset % (geometry_of layout).page) (tail (geometry_of layout).page offset)) (F.state flash.old).bytes (F.state flash.new).bytes) }
    ensures lost { IfErr result (λ lost. lost.state.layout ≡ layout) }
    ensures worn { IfErr result (λ lost. lost.fault ≡ UploadFault.Worn → ⊥) }
    ensures formatted { IfErr result (λ lost. lost.fault ≡ UploadFault.Unformatted → ⊥) }
{
    match from_scratch(flash, &layout, layout.slot(1), offset) {
        Ok(()) => Ok(()),
        Err(fault) => Err(lost(layout, from_call(fault))),
    }
}

/// Whether the bytes of the secondary slot from an offset to its page's end are FF: true at a page's start.
pub fn is_clean_behind<F: Flash>(layout: Layout, flash: &mut F, offset: u32) -> Result<bool, Lost>
    requires layout { geometry_of layout ≡ (F.state flash.old).geometry }
    requires inside { offset < slot_size (geometry_of layout) }
    ensures calls { Calls (spot ((slot_of layout 1).at + offset) (tail (geometry_of layout).page offset)) (upload_end result) (F.state flash.old) (F.state flash.new) }
    ensures kept { (F.state flash.new).bytes ≡ (F.state flash.old).bytes }
    ensures reads { ReadsAtMost (tail (geometry_of layout).page offset) (F.state flash.old).bytes_read (F.state flash.new).bytes_read }
    ensures clean { IfOk result (λ clean. IfSome (F.state flash.old).bytes (λ held. IsTrue clean ↔ (area ((slot_of layout 1).at + offset) (tail (geometry_of layout).page offset) held ≡ blank (tail (geometry_of layout).page offset)))) }
    ensures begins { IfOk result (λ clean. offset % (geometry_of layout).page ≡ 0 → IsTrue clean) }
    ensures lost { IfErr result (λ lost. lost.state.layout ≡ layout) }
    ensures worn { IfErr result (λ lost. lost.fault ≡ UploadFault.Worn → ⊥) }
    ensures formatted { IfErr result (λ lost. lost.fault ≡ UploadFault.Unformatted → ⊥) }
{
    slots_fit();
    match tail_is_clean(flash, layout.slot(1), offset) {
        Ok(clean) => Ok(clean),
        Err(fault) => Err(lost(layout, from_call(fault))),
    }
}
