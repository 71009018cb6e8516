//! What is to run at the next start.

ghost use Rattle.std.specs.Prelude.{◌≡◌, ◌+◌, Ok, IfOk, IfSome, IsSome};
ghost use Rattle.smp_flash.specs.Calls.{ReadsAtMost, ChangesAtMost};
ghost use Rattle.smp_flash.specs.Layout.{geometry_of};
ghost use Rattle.smp_model.specs.ImageGroup.{confirms, marks, same_mark};
ghost use Rattle.smp_slot.specs.Marks.{writes_of};
ghost use Rattle.smp_upload.specs.States.{Says, known_mounted};
ghost use Rattle.smp_model.specs.Said.{said_of};
ghost use Rattle.smp_side.specs.Held.{Answers, IsAnswer, response_of};

use crate::held::{Handed, broken, layout_of, lost};
use crate::uploading::{refuses, said};
use smp_flash::Flash;
use smp_gate::bank_says_what_stands;
use smp_model::error::{ALREADY_PENDING, TEST_OF_ACTIVE};
use smp_model::{Mark, Reply};
use smp_upload::{Mounted, confirm as write_flag, is_confirmed, sides_are_told_apart};

fn same_mark(first: Mark, second: Mark) -> bool
    ensures { result ≡ same_mark first second }
{
    match (first, second) {
        (Mark::Test, Mark::Test) => true,
        (Mark::Test, Mark::Permanent) => false,
        (Mark::Permanent, Mark::Test) => false,
        (Mark::Permanent, Mark::Permanent) => true,
    }
}

/// Marks slot 1, which holds a good image. A slot with the other mark is refused.
pub fn mark<F: Flash>(mounted: Mounted, flash: &mut F, mark: Mark) -> Handed
    requires layout { geometry_of (known_mounted mounted).layout ≡ (F.state flash.old).geometry }
    requires says { IfSome (F.state flash.old).bytes (Says (known_mounted mounted)) }
    requires good { IsSome (known_mounted mounted).image }
    ensures answers { Answers (known_mounted mounted).layout 0 (λ side. response_of (marks mark side.pending)) result (F.state flash.old) (F.state flash.new) }
    ensures answer { IfOk result.result (λ reply. IsAnswer (said_of reply)) }
    ensures reads { ReadsAtMost (geometry_of (known_mounted mounted).layout).page (F.state flash.old).bytes_read (F.state flash.new).bytes_read }
    ensures changes { ChangesAtMost (writes_of mark) 1 (F.state flash.old).changes (F.state flash.new).changes }
{
    sides_are_told_apart();
    bank_says_what_stands();
    match mounted {
        Mounted::Idle(state) => said(Mounted::Idle(state), Reply::Empty),
        Mounted::Receiving(state) => said(Mounted::Receiving(state), Reply::Empty),
        Mounted::Whole(state) => match state.set_pending(flash, mark) {
            Ok(pending) => said(Mounted::Pending(pending), Reply::Empty),
            Err(fault) => lost(fault),
        },
        Mounted::Pending(state) => {
            if same_mark(state.mark, mark) {
                return said(Mounted::Pending(state), Reply::Empty);
            }
            refuses(Mounted::Pending(state), ALREADY_PENDING)
        }
    }
}

/// The image that runs is to stay. It can't be marked for a test.
pub fn confirm<F: Flash>(mounted: Mounted, flash: &mut F, confirm: bool) -> Handed
    requires layout { geometry_of (known_mounted mounted).layout ≡ (F.state flash.old).geometry }
    requires says { IfSome (F.state flash.old).bytes (Says (known_mounted mounted)) }
    ensures answers { Answers (known_mounted mounted).layout 0 (λ side. response_of (confirms confirm side.confirmed)) result (F.state flash.old) (F.state flash.new) }
    ensures answer { IfOk result.result (λ reply. IsAnswer (said_of reply)) }
    ensures reads { ReadsAtMost (1 + (geometry_of (known_mounted mounted).layout).page) (F.state flash.old).bytes_read (F.state flash.new).bytes_read }
    ensures changes { ChangesAtMost 1 1 (F.state flash.old).changes (F.state flash.new).changes }
{
    sides_are_told_apart();
    bank_says_what_stands();
    if !confirm {
        return refuses(mounted, TEST_OF_ACTIVE);
    }
    let layout = layout_of(&mounted);
    let confirmed = match is_confirmed(&layout, flash) {
        Ok(confirmed) => confirmed,
        Err(fault) => return broken(layout, fault),
    };
    if confirmed {
        return said(mounted, Reply::Empty);
    }
    match write_flag(&layout, flash) {
        Ok(()) => said(mounted, Reply::Empty),
        Err(fault) => broken(layout, fault),
    }
}
