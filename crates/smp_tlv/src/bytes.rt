// Bytes that an image is read from.
ghost use Rattle.std.specs.Prelude.{◌≡◌, ◌+◌, ◌<◌, ◌≤◌, length, false, OnOk, IfSome};
ghost use Rattle.smp_flash.specs.Area.{AreBytes, area};
ghost use Rattle.smp_flash.specs.State.{end_of};
ghost use Rattle.smp_flash.specs.State.End.{WentOff};
ghost use Rattle.smp_flash.specs.declared.flash.Operation.TheVariants.{Read};
ghost use Rattle.smp_tlv.specs.State.{BytesState, Looks};

use smp_flash::FlashFault;

/// Bytes that can be read, a part at a time. They may lie in a flash, which may fail or be off.
pub trait Bytes {
    ghost state: { Self → BytesState };

    /// How many bytes there are.
    fn length(&self) -> u32
        ensures { result ≡ (state self.now).size };

    /// Reads the bytes from `at` on. Neither the bytes nor what stands beside them change, whatever it answers. `Fault`
    /// comes only where the count of failing reads rose, `Off` only where the holder of the bytes is off; a holder that was
    /// off answers `Off` to each read of a byte or more.
    fn read(&mut self, at: u32, into: &mut [u8]) -> Result<(), FlashFault>
        requires { at + length into.old ≤ (state self.old).size }
        ensures looks { Looks (length into.old) (end_of Read result) (state self.old) (state self.new) }
        ensures bytes { OnOk result (IfSome (state self.old).bytes (λ held. into.new ≡ area at (length into.old) held)) }
        ensures off { (state self.old).holder.on ≡ false → 0 < length into.old → end_of Read result ≡ WentOff };

    ghost sized: { (b : Self) → IfSome (state b).bytes (λ held. length held ≡ (state b).size) };

    ghost bytes: { (b : Self) → IfSome (state b).bytes AreBytes };
}
