//! The upload of an image is given up.

ghost use Rattle.std.specs.Prelude.{◌≡◌, ◌+◌, ◌/◌, IfOk, IfSome};
ghost use Rattle.smp_flash.specs.Area.{area, blank};
ghost use Rattle.smp_flash.specs.Calls.{ReadsAtMost, ChangesAtMost};
ghost use Rattle.smp_flash.specs.Layout.{geometry_of, slot_of};
ghost use Rattle.smp_model.specs.ImageGroup.{erase_of};
ghost use Rattle.smp_upload.specs.States.{Says, known_mounted};
ghost use Rattle.smp_model.specs.Said.{said_of};
ghost use Rattle.smp_side.specs.Held.{Answers, IsAnswer};

use crate::held::{Handed, lost};
use crate::uploading::{refuses, said};
use smp_flash::Flash;
use smp_gate::bank_says_what_stands;
use smp_model::Reply;
use smp_model::error::NO_FREE_SLOT;
use smp_upload::{Mounted, sides_are_told_apart};

/// Gives up the upload, and erases slot 1. A slot that is pending is refused.
pub fn erase<F: Flash>(mounted: Mounted, flash: &mut F) -> Handed
    requires layout { geometry_of (known_mounted mounted).layout ≡ (F.state flash.old).geometry }
    requires says { IfSome (F.state flash.old).bytes (Says (known_mounted mounted)) }
    ensures answers { Answers (known_mounted mounted).layout 1 (λ side. erase_of side.pending) result (F.state flash.old) (F.state flash.new) }
    ensures answer { IfOk result.result (λ reply. IsAnswer (said_of reply)) }
    ensures erased { IfOk result.result (λ reply. reply ≡ Reply.Empty → IfSome (F.state flash.new).bytes (λ held. area (slot_of (known_mounted mounted).layout 1).at (slot_of (known_mounted mounted).layout 1).length held ≡ blank (slot_of (known_mounted mounted).layout 1).length)) }
    ensures reads { ReadsAtMost (4096 + (slot_of (known_mounted mounted).layout 1).length) (F.state flash.old).bytes_read (F.state flash.new).bytes_read }
    ensures changes { ChangesAtMost 2 (8 + (slot_of (known_mounted mounted).layout 1).length / (geometry_of (known_mounted mounted).layout).page) (F.state flash.old).changes (F.state flash.new).changes }
{
    sides_are_told_apart();
    bank_says_what_stands();
    match mounted {
        Mounted::Idle(state) => match state.erase(flash) {
            Ok(idle) => said(Mounted::Idle(idle), Reply::Empty),
            Err(fault) => lost(fault),
        },
        Mounted::Receiving(state) => match state.erase(flash) {
            Ok(idle) => said(Mounted::Idle(idle), Reply::Empty),
            Err(fault) => lost(fault),
        },
        Mounted::Whole(state) => match state.erase(flash) {
            Ok(idle) => said(Mounted::Idle(idle), Reply::Empty),
            Err(fault) => lost(fault),
        },
        Mounted::Pending(state) => refuses(Mounted::Pending(state), NO_FREE_SLOT),
    }
}
