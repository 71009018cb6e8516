// Bytes that are lent.
ghost use Rattle.std.specs.Prelude.{◌≡◌, ◌+◌, ◌<◌, ◌≤◌, length, false, OnOk, IfSome};
ghost use Rattle.smp_flash.specs.Area.{AreBytes, area};
ghost use Rattle.smp_flash.specs.State.{end_of};
ghost use Rattle.smp_flash.specs.State.End.{Went, WentOff};
ghost use Rattle.smp_flash.specs.declared.flash.Operation.TheVariants.{Read};
ghost use Rattle.smp_tlv.specs.State.{Looks};

use crate::bytes::Bytes;
use smp_flash::FlashFault;

/// Bytes in memory that are lent. They are always there: no read of them fails.
#[derive(Clone, Copy, Debug)]
pub struct Lent<'a> {
    bytes: &'a [u8],
    ghost fits: { length bytes.now ≤ 4294967295 },
    ghost are_bytes: { AreBytes bytes.now },
}

impl<'a> Lent<'a> {
    ghost use Rattle.smp_tlv.specs.Lent.{lent_bytes};

    /// The bytes, at most 4294967295 of them.
    pub fn new(bytes: &'a [u8]) -> Lent<'a>
        requires { length bytes.now ≤ 4294967295 }
        ensures { lent_bytes result ≡ bytes.now }
    {
        Lent { bytes }
    }
}

impl Bytes for Lent<'_> {
    ghost use Rattle.std.specs.Prelude.{refl};
    ghost use Rattle.smp_tlv.specs.Lent.{lent_state};

    ghost state = { lent_state };

    fn length(&self) -> u32 {
        self.bytes.len() as u32
    }

    fn read(&mut self, at: u32, into: &mut [u8]) -> Result<(), FlashFault>
        requires { at + length into.old ≤ (lent_state self.old).size }
        ensures looks { Looks (length into.old) (end_of Read result) (lent_state self.old) (lent_state self.new) }
        ensures bytes { OnOk result (IfSome (lent_state self.old).bytes (λ held. into.new ≡ area at (length into.old) held)) }
        ensures off { (lent_state self.old).holder.on ≡ false → 0 < length into.old → end_of Read result ≡ WentOff }
        ensures end { end_of Read result ≡ Went }
        ensures same { self.new ≡ self.old }
    {
        let start = at as usize;
        into.copy_from_slice(&self.bytes[start..start + into.len()]);
        Ok(())
    }

    ghost sized = { λ b. refl };

    ghost bytes = { λ b. b.are_bytes };
}
