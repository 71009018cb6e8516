//! What a list says of one image.

ghost use Rattle.std.specs.Prelude.{◌≡◌, ◌∷◌, [], option_map, IfOk, IfSome};
ghost use Rattle.smp_flash.specs.Calls.{Calls, ReadsAtMost};
ghost use Rattle.smp_flash.specs.Layout.{area_spot, geometry_of, slot_of};
ghost use Rattle.smp_flash.specs.State.{ended};
ghost use Rattle.smp_model.specs.ImageGroup.{active_entry, is_bootable, is_pending, is_permanent, second_entry};
ghost use Rattle.smp_upload.specs.States.{Says, known_mounted};
ghost use Rattle.smp_side.specs.Listing.{IsPair};

use crate::held::layout_of;
use smp_flash::{CallFault, Flash};
use smp_model::{ImageInfo, Mark, SidePair, SlotEntry};
use smp_upload::{Mounted, active_image, is_confirmed, sides_are_told_apart};

/// MCUboot's flag of an image that is not to run.
const NON_BOOTABLE: u32 = 16;

fn is_bootable(image: &ImageInfo) -> bool
    ensures { result ≡ is_bootable image.now }
{
    image.flags & NON_BOOTABLE == 0
}

/// The entry of slot 0.
fn active_entry(image: &ImageInfo, confirmed: bool) -> SlotEntry
    ensures { result ≡ active_entry image.now confirmed }
{
    SlotEntry {
        slot: 0,
        version: image.version,
        hash: image.hash,
        bootable: is_bootable(image),
        pending: false,
        confirmed,
        active: true,
        permanent: false,
    }
}

fn is_pending(pending: Option<Mark>) -> bool
    ensures { result ≡ is_pending pending }
{
    match pending {
        Some(_) => true,
        None => false,
    }
}

fn is_permanent(pending: Option<Mark>) -> bool
    ensures { result ≡ is_permanent pending }
{
    match pending {
        Some(Mark::Permanent) => true,
        Some(Mark::Test) => false,
        None => false,
    }
}

/// The entry of slot 1.
fn second_entry(image: &ImageInfo, pending: Option<Mark>) -> SlotEntry
    ensures { result ≡ second_entry pending image.now }
{
    SlotEntry {
        slot: 1,
        version: image.version,
        hash: image.hash,
        bootable: is_bootable(image),
        pending: is_pending(pending),
        confirmed: false,
        active: false,
        permanent: is_permanent(pending),
    }
}

/// The entry of slot 1, where it holds a good image.
fn second_of(mounted: &Mounted) -> Option<SlotEntry>
    ensures { result ≡ option_map (second_entry (known_mounted mounted.now).pending) (known_mounted mounted.now).image }
{
    match mounted {
        Mounted::Idle(_) | Mounted::Receiving(_) => None,
        Mounted::Whole(state) => match state.image {
            None => None,
            Some(image) => Some(second_entry(&image, None)),
        },
        Mounted::Pending(state) => Some(second_entry(&state.image, Some(state.mark))),
    }
}

/// What a list says of the image: the one that runs, and the good one that was uploaded.
///
/// Slot 0 is read, and no byte of slot 1: the image of a whole upload is kept.
pub fn pair<F: Flash>(mounted: &Mounted, flash: &mut F) -> Result<SidePair, CallFault>
    requires layout { geometry_of (known_mounted mounted.now).layout ≡ (F.state flash.old).geometry }
    requires says { IfSome (F.state flash.old).bytes (Says (known_mounted mounted.now)) }
    ensures calls { Calls (area_spot (slot_of (known_mounted mounted.now).layout 0) ∷ []) (ended result) (F.state flash.old) (F.state flash.new) }
    ensures kept { (F.state flash.new).bytes ≡ (F.state flash.old).bytes }
    ensures reads { ReadsAtMost 131103 (F.state flash.old).bytes_read (F.state flash.new).bytes_read }
    ensures pair { IfOk result (λ pair. IfSome (F.state flash.old).bytes (IsPair (known_mounted mounted.now).layout pair)) }
{
    sides_are_told_apart();
    let layout = layout_of(mounted);
    let image = active_image(&layout, flash)?;
    let confirmed = is_confirmed(&layout, flash)?;
    Ok(SidePair {
        first: active_entry(&image, confirmed),
        second: second_of(mounted),
    })
}
