// The primary slot: the image that runs, and whether it is confirmed.
ghost use Rattle.std.specs.Prelude.{◌≡◌, ◌∷◌, [], true, false, Some, Ok, OnOk, IfOk, IfSome};
ghost use Rattle.smp_flash.specs.Area.{area, dirty, spot, Keeps, Told};
ghost use Rattle.smp_flash.specs.Calls.{Calls, Smaller, ReadsAtMost, ChangesAtMost};
ghost use Rattle.smp_flash.specs.Layout.{geometry_of, slot_of, area_spot};
ghost use Rattle.smp_flash.specs.State.{ended};
ghost use Rattle.smp_model.specs.Image.{good_image};
ghost use Rattle.smp_model.specs.Sides.{Confirm};
ghost use Rattle.smp_slot.specs.Marks.{confirmed_page};
ghost use Rattle.smp_slot.specs.Slots.{last_page};
ghost use Rattle.smp_tlv.specs.State.{image_end};
ghost use Rattle.smp_upload.specs.Bytes.{active_in, confirmed_in, SideReadable};
ghost use Rattle.smp_upload.specs.Counting.{AimsAtSlot, Pays};
ghost use Rattle.smp_upload.specs.Moves.{Moved, one_step};
ghost use Rattle.smp_upload.specs.Primary.{Confirms, SaysOn};

use crate::laws::sides_are_told_apart;
use crate::reading::image_at;
use smp_flash::{
    CallFault, Flash, Layout, Operation, regions_count_what_begins_there, regions_lie_apart,
};
use smp_model::{ImageFault, ImageInfo, Version, good_images_are_right};
use smp_progress::progress_outlasts_other_changes;
use smp_slot::{confirm as write_flag, confirmed, slots_fit};

/// An image of version 0.0.0, of no bytes, with a hash of zeros.
const NO_IMAGE: ImageInfo = ImageInfo {
    version: Version {
        major: 0,
        minor: 0,
        revision: 0,
        build: 0,
    },
    flags: 0,
    covered: 0,
    end: 0,
    hash: [0; 32],
};

/// What is answered by what was found: only the holder's faults are faults of the call.
fn answer(found: Result<ImageInfo, ImageFault>) -> Result<ImageInfo, CallFault>
    ensures ends { ended result ≡ image_end found }
    ensures image { IfOk found (λ image. result ≡ Ok image) }
{
    match found {
        Ok(image) => Ok(image),
        Err(ImageFault::Fault) => Err(CallFault::Fault(Operation::Read)),
        Err(ImageFault::Off) => Err(CallFault::Off),
        Err(_) => Ok(NO_IMAGE),
    }
}

/// The image that runs, of a flash that stands for some state: the one that the primary slot begins with. No byte changes.
///
/// A flash that does not tell its bytes may hold no image there, where something other than this crate's calls changed it. Then
/// the answer is an image of version 0.0.0, of no bytes, with a hash of zeros; no read has failed.
pub fn active_image<F: Flash>(layout: &Layout, flash: &mut F) -> Result<ImageInfo, CallFault>
    requires layout { geometry_of layout.now ≡ (F.state flash.old).geometry }
    requires readable { IfSome (F.state flash.old).bytes (SideReadable layout.now) }
    ensures calls { Calls (area_spot (slot_of layout.now 0) ∷ []) (ended result) (F.state flash.old) (F.state flash.new) }
    ensures kept { (F.state flash.new).bytes ≡ (F.state flash.old).bytes }
    ensures reads { ReadsAtMost 131102 (F.state flash.old).bytes_read (F.state flash.new).bytes_read }
    ensures image { IfOk result (λ image. IfSome (F.state flash.old).bytes (λ held. good_image (active_in layout.now held) ≡ Some image)) }
{
    regions_lie_apart();
    good_images_are_right();
    let slot = layout.slot(0);
    answer(image_at(flash, slot.at, slot.length - layout.geometry().page))
}

/// Whether the image that runs is confirmed. No byte changes.
pub fn is_confirmed<F: Flash>(layout: &Layout, flash: &mut F) -> Result<bool, CallFault>
    requires layout { geometry_of layout.now ≡ (F.state flash.old).geometry }
    ensures calls { Calls (area_spot (slot_of layout.now 0) ∷ []) (ended result) (F.state flash.old) (F.state flash.new) }
    ensures kept { (F.state flash.new).bytes ≡ (F.state flash.old).bytes }
    ensures reads { ReadsAtMost 1 (F.state flash.old).bytes_read (F.state flash.new).bytes_read }
    ensures changes { ChangesAtMost 0 0 (F.state flash.old).changes (F.state flash.new).changes }
    ensures confirmed { IfOk result (λ confirmed. IfSome (F.state flash.old).bytes (λ held. confirmed ≡ confirmed_in layout.now held)) }
{
    slots_fit();
    confirmed(flash, layout.slot(0))
}

/// Writes the flag of the primary slot, which is not confirmed.
fn put_flag<F: Flash>(layout: &Layout, flash: &mut F) -> Result<(), CallFault>
    requires layout { geometry_of layout.now ≡ (F.state flash.old).geometry }
    requires unconfirmed { IfSome (F.state flash.old).bytes (λ held. confirmed_in layout.now held ≡ false) }
    ensures calls { Calls (spot (last_page (slot_of layout.now 0) (geometry_of layout.now)) (geometry_of layout.now).page) (ended result) (F.state flash.old) (F.state flash.new) }
    ensures reads { ReadsAtMost (geometry_of layout.now).page (F.state flash.old).bytes_read (F.state flash.new).bytes_read }
    ensures changes { ChangesAtMost 1 1 (F.state flash.old).changes (F.state flash.new).changes }
    ensures erases { IfSome (F.state flash.old).bytes (λ held. ChangesAtMost 1 (dirty (geometry_of layout.now).page (area (last_page (slot_of layout.now 0) (geometry_of layout.now)) (geometry_of layout.now).page held)) (F.state flash.old).changes (F.state flash.new).changes) }
    ensures ok { OnOk result (IfSome (F.state flash.new).bytes (λ held. confirmed_in layout.now held ≡ true)) }
    ensures whole { OnOk result (IfSome (F.state flash.new).bytes (λ held. area (last_page (slot_of layout.now 0) (geometry_of layout.now)) (geometry_of layout.now).page held ≡ confirmed_page (geometry_of layout.now).page)) }
    ensures pays { OnOk result (AimsAtSlot layout.now 0 (F.state flash.old).aim → Smaller (F.state flash.old).patience (F.state flash.new).patience) }
{
    slots_fit();
    regions_count_what_begins_there();
    write_flag(flash, layout.slot(0))
}

/// Confirms the image that runs, which is not confirmed.
///
/// It needs no record. Only the primary slot's last page changes: it is erased where it is not all FF, and then the flag is
/// written. What a state says of an upload holds on, whatever the answer.
pub fn confirm<F: Flash>(layout: &Layout, flash: &mut F) -> Result<(), CallFault>
    requires layout { geometry_of layout.now ≡ (F.state flash.old).geometry }
    requires unconfirmed { IfSome (F.state flash.old).bytes (λ held. confirmed_in layout.now held ≡ false) }
    ensures moved { Moved layout.now (area_spot (slot_of layout.now 0) ∷ []) 0 (one_step Confirm) (ended result) (F.state flash.old) (F.state flash.new) }
    ensures page { Told (Keeps (spot (last_page (slot_of layout.now 0) (geometry_of layout.now)) (geometry_of layout.now).page)) (F.state flash.old).bytes (F.state flash.new).bytes }
    ensures reads { ReadsAtMost (geometry_of layout.now).page (F.state flash.old).bytes_read (F.state flash.new).bytes_read }
    ensures changes { ChangesAtMost 1 1 (F.state flash.old).changes (F.state flash.new).changes }

    // A last page that is FF is not erased again.
    ensures erases { IfSome (F.state flash.old).bytes (λ held. ChangesAtMost 1 (dirty (geometry_of layout.now).page (area (last_page (slot_of layout.now 0) (geometry_of layout.now)) (geometry_of layout.now).page held)) (F.state flash.old).changes (F.state flash.new).changes) }
    ensures whole { OnOk result (IfSome (F.state flash.new).bytes (λ held. area (last_page (slot_of layout.now 0) (geometry_of layout.now)) (geometry_of layout.now).page held ≡ confirmed_page (geometry_of layout.now).page)) }
    ensures does { OnOk result (Told (Confirms layout.now) (F.state flash.old).bytes (F.state flash.new).bytes) }
    ensures pays { OnOk result (Pays layout.now (one_step Confirm) (F.state flash.old) (F.state flash.new)) }
    ensures spends { OnOk result (AimsAtSlot layout.now 0 (F.state flash.old).aim → Smaller (F.state flash.old).patience (F.state flash.new).patience) }
    ensures says { Told (SaysOn layout.now) (F.state flash.old).bytes (F.state flash.new).bytes }
{
    sides_are_told_apart();
    progress_outlasts_other_changes();
    put_flag(layout, flash)
}
