// The secondary slot is marked for the next start.
ghost use Rattle.std.specs.Prelude.{◌≡◌, Some, None, IsSome, OnOk, IfOk, IfErr, IfSome};
ghost use Rattle.smp_flash.specs.Area.{area, dirty, spot, Keeps, Told};
ghost use Rattle.smp_flash.specs.Calls.{Calls, Smaller, ReadsAtMost, ChangesAtMost};
ghost use Rattle.smp_flash.specs.Layout.{geometry_of, slot_of, upload_spots};
ghost use Rattle.smp_model.specs.Sides.{MarkPending};
ghost use Rattle.smp_slot.specs.Marks.{writes_of, marked_page, MarkOrNone};
ghost use Rattle.smp_slot.specs.Slots.{last_page};
ghost use Rattle.smp_upload.specs.Bytes.{pending_in};
ghost use Rattle.smp_upload.specs.Counting.{AimsAtSlot};
ghost use Rattle.smp_upload.specs.Faults.{upload_end, IsIdle};
ghost use Rattle.smp_upload.specs.Moves.{Moved, Done, one_step};
ghost use Rattle.smp_upload.specs.States.{Says, known_whole, known_pending};

use crate::faults::{from_call, lost};
use crate::laws::sides_are_told_apart;
use crate::states::{Lost, Pending, UploadFault, Whole};
use smp_flash::{Flash, Layout, regions_count_what_begins_there};
use smp_model::{Mark, good_uploads_have_images};
use smp_progress::progress_outlasts_other_changes;
use smp_slot::{mark as write_mark, slots_fit};

/// Marks the secondary slot, which is not pending.
fn put_mark<F: Flash>(layout: Layout, flash: &mut F, mark: Mark) -> Result<(), Lost>
    requires layout { geometry_of layout ≡ (F.state flash.old).geometry }
    requires free { IfSome (F.state flash.old).bytes (λ held. pending_in layout held ≡ None) }
    ensures calls { Calls (spot (last_page (slot_of layout 1) (geometry_of layout)) (geometry_of layout).page) (upload_end result) (F.state flash.old) (F.state flash.new) }
    ensures reads { ReadsAtMost (geometry_of layout).page (F.state flash.old).bytes_read (F.state flash.new).bytes_read }
    ensures changes { ChangesAtMost (writes_of mark) 1 (F.state flash.old).changes (F.state flash.new).changes }
    ensures erases { IfSome (F.state flash.old).bytes (λ held. ChangesAtMost (writes_of mark) (dirty (geometry_of layout).page (area (last_page (slot_of layout 1) (geometry_of layout)) (geometry_of layout).page held)) (F.state flash.old).changes (F.state flash.new).changes) }
    ensures either { IfSome (F.state flash.new).bytes (MarkOrNone (slot_of layout 1) mark) }
    ensures ok { OnOk result (IfSome (F.state flash.new).bytes (λ held. pending_in layout held ≡ Some mark)) }
    ensures whole { OnOk result (IfSome (F.state flash.new).bytes (λ held. area (last_page (slot_of layout 1) (geometry_of layout)) (geometry_of layout).page held ≡ marked_page (geometry_of layout).page mark)) }
    ensures pays { OnOk result (AimsAtSlot layout 1 (F.state flash.old).aim → Smaller (F.state flash.old).patience (F.state flash.new).patience) }
    ensures lost { IfErr result (λ lost. lost.state.layout ≡ layout) }
    ensures worn { IfErr result (λ lost. lost.fault ≡ UploadFault.Worn → ⊥) }
    ensures formatted { IfErr result (λ lost. lost.fault ≡ UploadFault.Unformatted → ⊥) }
{
    slots_fit();
    regions_count_what_begins_there();
    match write_mark(flash, layout.slot(1), mark) {
        Ok(()) => Ok(()),
        Err(fault) => Err(lost(layout, from_call(fault))),
    }
}

impl Whole {
    /// Marks the secondary slot for the next start. Its upload is a good image.
    ///
    /// It needs no record. Only the slot's last page changes: it is erased where it is not all FF, and then the mark is written.
    /// After a fault the slot has this mark or none.
    pub fn set_pending<F: Flash>(self, flash: &mut F, mark: Mark) -> Result<Pending, Lost>
        requires layout { geometry_of self.layout ≡ (F.state flash.old).geometry }
        requires says { IfSome (F.state flash.old).bytes (Says (known_whole self)) }
        requires good { IsSome self.image }
        ensures moved { Moved self.layout (upload_spots self.layout) 0 (one_step (MarkPending mark)) (upload_end result) (F.state flash.old) (F.state flash.new) }
        ensures done { OnOk result (Done self.layout (upload_spots self.layout) 0 (one_step (MarkPending mark)) (F.state flash.old) (F.state flash.new)) }
        ensures page { Told (Keeps (spot (last_page (slot_of self.layout 1) (geometry_of self.layout)) (geometry_of self.layout).page)) (F.state flash.old).bytes (F.state flash.new).bytes }
        ensures reads { ReadsAtMost (geometry_of self.layout).page (F.state flash.old).bytes_read (F.state flash.new).bytes_read }
        ensures changes { ChangesAtMost (writes_of mark) 1 (F.state flash.old).changes (F.state flash.new).changes }

        // A last page that is FF is not erased again.
        ensures erases { IfSome (F.state flash.old).bytes (λ held. ChangesAtMost (writes_of mark) (dirty (geometry_of self.layout).page (area (last_page (slot_of self.layout 1) (geometry_of self.layout)) (geometry_of self.layout).page held)) (F.state flash.old).changes (F.state flash.new).changes) }
        ensures whole { OnOk result (IfSome (F.state flash.new).bytes (λ held. area (last_page (slot_of self.layout 1) (geometry_of self.layout)) (geometry_of self.layout).page held ≡ marked_page (geometry_of self.layout).page mark)) }
        ensures lost { IfErr result (λ lost. lost.state.layout ≡ self.layout) }
        ensures idle { IfErr result (λ lost. IsIdle lost.fault → (F.state flash.new).bytes ≡ (F.state flash.old).bytes) }
        ensures formatted { IfErr result (λ lost. lost.fault ≡ UploadFault.Unformatted → ⊥) }
        ensures worn { IfErr result (λ lost. lost.fault ≡ UploadFault.Worn → ⊥) }
        ensures says { IfOk result (λ pending. IfSome (F.state flash.new).bytes (Says (known_pending pending))) }
        ensures spends { OnOk result (AimsAtSlot self.layout 1 (F.state flash.old).aim → Smaller (F.state flash.old).patience (F.state flash.new).patience) }
        ensures pending { IfOk result (λ pending. (pending.layout ≡ self.layout) × (pending.announcement ≡ self.announcement) × (Some pending.image ≡ self.image) × (pending.mark ≡ mark)) }
    {
        sides_are_told_apart();
        progress_outlasts_other_changes();
        good_uploads_have_images();
        let Whole {
            layout,
            progress,
            announcement,
            image,
            ..
        } = self;
        let image = image.unwrap();
        match put_mark(layout, flash, mark) {
            Ok(()) => Ok(Pending {
                layout,
                progress,
                announcement,
                image,
                mark,
            }),
            Err(lost) => Err(lost),
        }
    }
}
