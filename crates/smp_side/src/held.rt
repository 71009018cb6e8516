//! What is held of the slots of one image.

ghost use Rattle.std.specs.Prelude.{◌≡◌, true, OnOk, IfOk, IfErr, IfSome, Err};
ghost use Rattle.smp_flash.specs.Layout.{geometry_of};
ghost use Rattle.smp_model.specs.Sides.{side_settle_steps};
ghost use Rattle.smp_upload.specs.Faults.{IsIdle, of_call, upload_end};
ghost use Rattle.smp_upload.specs.Moves.{Done, Moved, mount_spots};
ghost use Rattle.smp_upload.specs.States.{Says, known_mounted};
ghost use Rattle.smp_side.specs.Held.{Broken, Caused, HeldSays, held_layout, is_mounted};

use smp_flash::{CallFault, Flash, Layout};
use smp_gate::bank_says_what_stands;
use smp_model::Reply;
use smp_upload::{Lost, Mounted, Unmounted, UploadFault, sides_are_told_apart};

/// The side of an image: mounted, or not known.
#[derive(Drop)]
pub enum Held {
    Unmounted(Unmounted),
    Mounted(Mounted),
}

/// What a request hands back: the side, and the reply or the fault that broke the request off.
#[derive(Drop)]
pub struct Handed {
    pub held: Held,
    pub result: Result<Reply<'static>, UploadFault>,
}

/// Where a mounted side lies.
pub fn layout_of(mounted: &Mounted) -> Layout
    ensures { result ≡ (known_mounted mounted.now).layout }
{
    match mounted {
        Mounted::Idle(state) => state.layout,
        Mounted::Receiving(state) => state.layout,
        Mounted::Whole(state) => state.layout,
        Mounted::Pending(state) => state.layout,
    }
}

/// Mounts the side where it is not mounted. Where it is, the flash is not touched.
pub fn mounted<F: Flash>(held: Held, flash: &mut F) -> Result<Mounted, Lost>
    requires layout { geometry_of (held_layout held) ≡ (F.state flash.old).geometry }
    requires says { IfSome (F.state flash.old).bytes (HeldSays held) }
    ensures moved { Moved (held_layout held) (mount_spots (held_layout held)) 2 side_settle_steps (upload_end result) (F.state flash.old) (F.state flash.new) }
    ensures done { OnOk result (Done (held_layout held) (mount_spots (held_layout held)) 2 side_settle_steps (F.state flash.old) (F.state flash.new)) }
    ensures says { IfOk result (λ mounted. IfSome (F.state flash.new).bytes (Says (known_mounted mounted))) }
    ensures layout { IfOk result (λ mounted. (known_mounted mounted).layout ≡ held_layout held) }
    ensures lost { IfErr result (λ lost. lost.state.layout ≡ held_layout held) }
    ensures caused { IfErr result (λ lost. Caused (held_layout held) 2 lost.fault (F.state flash.old).bytes) }
    ensures idle { IfErr result (λ lost. IsIdle lost.fault → (F.state flash.new).bytes ≡ (F.state flash.old).bytes) }
    ensures once { is_mounted held ≡ true → OnOk result (F.state flash.new ≡ F.state flash.old) }
    ensures kept { is_mounted held ≡ true → IfErr result (λ lost. ⊥) }
{
    sides_are_told_apart();
    match held {
        Held::Unmounted(state) => state.mount(flash),
        Held::Mounted(mounted) => Ok(mounted),
    }
}

/// The fault of a call on a slot, as a request hands it back.
pub fn passed_on(fault: CallFault) -> UploadFault
    ensures { result ≡ of_call fault }
{
    match fault {
        CallFault::Fault(operation) => UploadFault::Fault(operation),
        CallFault::Off => UploadFault::Off,
    }
}

/// A side is not known any more after a fault of a call on a slot.
pub fn broken(layout: Layout, fault: CallFault) -> Handed
    ensures { Broken layout (of_call fault) result }
{
    Handed {
        held: Held::Unmounted(Unmounted { layout }),
        result: Err(passed_on(fault)),
    }
}

/// Nor is it after a call that was lost.
pub fn lost(lost: Lost) -> Handed
    ensures { Broken lost.state.layout lost.fault result }
{
    Handed {
        held: Held::Unmounted(lost.state),
        result: Err(lost.fault),
    }
}
