// Where the bytes of a flash file lie.
ghost use Rattle.std.specs.Prelude.{◌≡◌, ◌+◌, ◌≤◌, Option, List, ℕ, IfOk, OnOk, OnErr, IfSome, length};
ghost use Rattle.smp_flash.specs.Area.{AreBytes, area, Holds, Told};
ghost use Rattle.smp_flash.specs.Medium.{HasCause, PutsFront};

/// A medium failed, and its count of failures rose.
#[derive(Clone, Copy, Debug, PartialEq, Eq)]
pub struct MediumFailed;

/// Bytes that have a name and are read and written in place, as those of a file.
///
/// A medium that tells its bytes has a fixed length.
pub trait Medium: Drop {
    /// Its bytes, where it tells them.
    ghost held: { Self → Option (List ℕ) };

    /// How often a call has failed.
    ghost faults: { Self → ℕ };

    /// Takes up the bytes of this name, with what they are. Those of another name are let go of.
    fn open(&mut self, name: &str) -> Result<(), MediumFailed>
        ensures kept { held self.new ≡ held self.old }
        ensures cause { HasCause (faults self.old) (faults self.new) result };

    /// Takes up the bytes of this name, of which there are so many from now on. What a medium holds that
    /// tells no bytes is lost.
    fn create(&mut self, name: &str, size: u64) -> Result<(), MediumFailed>
        ensures kept { held self.new ≡ held self.old }
        ensures fits { OnOk result (IfSome (held self.old) (λ h. length h ≡ size)) }
        ensures cause { HasCause (faults self.old) (faults self.new) result };

    /// Lets go of the bytes, so that each call fails until others are taken up.
    fn close(&mut self)
        ensures kept { held self.new ≡ held self.old }
        ensures faults { faults self.new ≡ faults self.old };

    /// How many bytes there are.
    fn size(&mut self) -> Result<u64, MediumFailed>
        ensures kept { held self.new ≡ held self.old }
        ensures size { IfOk result (λ n. IfSome (held self.old) (λ h. n ≡ length h)) }
        ensures cause { HasCause (faults self.old) (faults self.new) result };

    /// Reads the bytes from `place` on.
    fn get(&mut self, place: u64, into: &mut [u8]) -> Result<(), MediumFailed>
        requires { IfSome (held self.old) (λ h. place + length into.old ≤ length h) }
        ensures kept { held self.new ≡ held self.old }
        ensures bytes { OnOk result (IfSome (held self.old) (λ h. into.new ≡ area place (length into.old) h)) }
        ensures cause { HasCause (faults self.old) (faults self.new) result };

    /// Writes the bytes from `place` on, in their order.
    fn put(&mut self, place: u64, bytes: &[u8]) -> Result<(), MediumFailed>
        requires { IfSome (held self.old) (λ h. place + length bytes.now ≤ length h) }
        ensures ok { OnOk result (Told (Holds place bytes.now) (held self.old) (held self.new)) }
        ensures err { OnErr result (Told (PutsFront place bytes.now) (held self.old) (held self.new)) }
        ensures cause { HasCause (faults self.old) (faults self.new) result };

    /// Waits until all that was put has reached what outlasts the machine's power.
    fn sync(&mut self) -> Result<(), MediumFailed>
        ensures kept { held self.new ≡ held self.old }
        ensures cause { HasCause (faults self.old) (faults self.new) result };

    ghost bytes: { (medium : Self) → IfSome (held medium) AreBytes };
}
