// A flash as its callers see it.
ghost use Rattle.std.specs.Prelude.{◌≡◌, ◌≢◌, ◌+◌, ◌*◌, ◌%◌, ◌≤◌, IsTrue, List, ℕ, length, true, false, None, OnOk, OnErr, IfSome};
ghost use Rattle.smp_flash.specs.declared.flash.Operation.TheVariants.{Read, Write, Erase};
ghost use Rattle.smp_flash.specs.Area.{AreBytes, area, blank, spot, Keeps, Holds, Faded, Fades, Erased, Told};
ghost use Rattle.smp_flash.specs.Geometry.{is_lawful, size_of};
ghost use Rattle.smp_flash.specs.State.{FlashState, end_of};
ghost use Rattle.smp_flash.specs.State.End.{WentOff};
ghost use Rattle.smp_flash.specs.Calls.{Reads, Writes, Erases, Prepares};

use crate::geometry::Geometry;

/// Why a call of a flash didn't go through.
#[derive(Clone, Copy, Debug, PartialEq, Eq)]
pub enum FlashFault {
    /// The flash is on, and the operation failed: its count of failures rose.
    Fault,
    /// The flash is off, since before the call or by a cut within it.
    Off,
}

/// What a flash does.
#[derive(Clone, Copy, Debug, PartialEq, Eq)]
pub enum Operation {
    /// Gives bytes, and changes none.
    Read,
    /// Stores bytes in an erased part.
    Write,
    /// Makes a page FF.
    Erase,
}

/// Why a call of a layer above a flash didn't go through. It made no further operation after the one that failed.
#[derive(Clone, Copy, Debug, PartialEq, Eq)]
pub enum CallFault {
    /// This operation failed.
    Fault(Operation),
    /// The flash is off.
    Off,
}

/// A flash of erase pages and write units, in which any write or erase may be cut or fail.
///
/// An off flash changes nothing and answers `Off` to every call but `geometry`. `Fault` comes only where the count of
/// that operation rose, and no count rises otherwise.
pub trait Flash {
    ghost state: { Self → FlashState };

    /// Takes up the flash of this name, with what it holds. A failure counts as a read that failed.
    fn attach(&mut self, name: &str) -> Result<(), FlashFault>
        ensures prepares { Prepares (end_of Read result) (state self.old) (state self.new) }
        ensures held { (state self.new).bytes ≡ (state self.old).bytes }
        ensures err { OnErr result ((state self.new).geometry ≡ (state self.old).geometry) };

    /// Makes the flash of this name anew, all FF and of these sizes. A failure counts as a write that failed.
    fn create(&mut self, name: &str, geometry: Geometry) -> Result<(), FlashFault>
        requires { IsTrue (is_lawful geometry) }
        ensures prepares { Prepares (end_of Write result) (state self.old) (state self.new) }
        ensures sizes { OnOk result ((state self.new).geometry ≡ geometry) }
        ensures ok { OnOk result (Told (λ old new. new ≡ blank (size_of geometry)) (state self.old).bytes (state self.new).bytes) }
        ensures kept { OnErr result ((state self.new).geometry ≡ (state self.old).geometry) }
        ensures err { OnErr result (Told Faded (state self.old).bytes (state self.new).bytes) };

    /// The sizes of the flash.
    fn geometry(&self) -> Geometry
        ensures { result ≡ (state self.now).geometry };

    /// Reads the bytes from `at` on. No byte of the flash changes, whatever it answers.
    fn read(&mut self, at: u32, into: &mut [u8]) -> Result<(), FlashFault>
        requires { at + length into.old ≤ size_of (state self.old).geometry }
        ensures acts { Reads at (length into.old) (end_of Read result) (state self.old) (state self.new) }
        ensures kept { (state self.new).bytes ≡ (state self.old).bytes }
        ensures bytes { OnOk result (IfSome (state self.old).bytes (λ held. into.new ≡ area at (length into.old) held)) }

        // A read counts in no region that cuts are armed for, so none falls in it.
        ensures uncut { (state self.old).on ≡ true → (state self.old).aim ≢ None → end_of Read result ≢ WentOff };

    /// Writes the bytes from `at` on, which must be erased there. A write that is cut or fails leaves any bytes in its
    /// range.
    fn write(&mut self, at: u32, bytes: &[u8]) -> Result<(), FlashFault>
        requires inside { at + length bytes.now ≤ size_of (state self.old).geometry }
        requires place { at % (state self.old).geometry.unit ≡ 0 }
        requires whole { length bytes.now % (state self.old).geometry.unit ≡ 0 }
        requires erased { IfSome (state self.old).bytes (λ held. area at (length bytes.now) held ≡ blank (length bytes.now)) }
        ensures acts { Writes at bytes.now (end_of Write result) (state self.old) (state self.new) }
        ensures ok { OnOk result (Told (Holds at bytes.now) (state self.old).bytes (state self.new).bytes) }
        ensures err { OnErr result (Told (Keeps (spot at (length bytes.now))) (state self.old).bytes (state self.new).bytes) };

    /// Makes the page of this number FF. An erase that is cut or fails leaves each byte of it as it was or FF.
    fn erase(&mut self, page: u32) -> Result<(), FlashFault>
        requires { (page + 1) * (state self.old).geometry.page ≤ size_of (state self.old).geometry }
        ensures acts { Erases (page * (state self.old).geometry.page) (end_of Erase result) (state self.old) (state self.new) }
        ensures ok { OnOk result (Told (Erased (page * (state self.old).geometry.page) (state self.old).geometry.page) (state self.old).bytes (state self.new).bytes) }
        ensures err { OnErr result (Told (Fades (page * (state self.old).geometry.page) (state self.old).geometry.page) (state self.old).bytes (state self.new).bytes) };

    ghost lawful: { (flash : Self) → IsTrue (is_lawful (state flash).geometry) };

    ghost sized: { (flash : Self) → IfSome (state flash).bytes (λ held. length held ≡ size_of (state flash).geometry) };

    ghost bytes: { (flash : Self) → IfSome (state flash).bytes AreBytes };
}
