//! What comes of packets and starts by what is armed in the flash: laws, each the contract of a function that does nothing.

ghost use Rattle.std.specs.Prelude.{◌≡◌, List, ℕ, Option, Result, option_map};
ghost use Rattle.smp_flash.specs.Memory.{Memory, told_by};
ghost use Rattle.smp_flash.specs.State.{FlashState};
ghost use Rattle.smp_header.specs.Message.{packet};
ghost use Rattle.smp_model.specs.declared.device.AbstractDevice.{AbstractDevice};
ghost use Rattle.smp_upload.specs.declared.states.UploadFault.{UploadFault};
ghost use Rattle.smp_device.specs.Arming.{BootComes, IsReady, IsTelling, PacketComes, TellsArmed, armed_in};
ghost use Rattle.smp_device.specs.Goings.{Armed, armed_by};
ghost use Rattle.smp_device.specs.Handling.{DeviceState, Handles};
ghost use Rattle.smp_device.specs.Starting.{Restarts};
ghost use Rattle.smp_device.specs.declared.answering.Down.{Down};
ghost use Rattle.smp_device.specs.declared.answering.Handled.{Handled};

use crate::laws::device_laws;

/// What a flash tells to be armed is what is armed in it. A flash in memory tells that.
pub fn arms_are_told()
    ensures told { (armed : Option Armed) (a : FlashState) → TellsArmed armed a → armed_in a ≡ armed }
    ensures telling { (armed : Option Armed) (a : FlashState) → TellsArmed armed a → IsTelling a }
    ensures memory { (m : Memory) → TellsArmed (option_map armed_by m.arm) (told_by m) }
{}

/// Of a packet comes what may come of it: it goes plainly, or what is armed strikes it. The reply is sent, value and bytes stand
/// for the device after it, and the flash tells what is armed then.
pub fn packets_go()
    ensures { (bytes : List ℕ) (old new : DeviceState) (d : AbstractDevice) (held out : List ℕ) (result : Result Handled Down) (a b : FlashState)
        → IsReady old d held a → new.places ≡ old.places → Handles bytes old new out result a b
        → PacketComes (packet bytes) d held old new out result a b }
{
    device_laws();
}

/// And so of a start.
pub fn boots_go()
    ensures { (old new : DeviceState) (result : Result (Unit {0}) UploadFault) (d : AbstractDevice) (held : List ℕ) (a b : FlashState)
        → IsReady old d held a → new.places ≡ old.places → Restarts result old.places new a b
        → BootComes d held new result a b }
{}
