// What is armed in a flash in memory, and which operation it strikes.
ghost use Rattle.std.specs.Prelude.{◌≡◌, ◌≤◌, length};
ghost use Rattle.std.specs.Option.{ForSome};
ghost use Rattle.smp_flash.specs.Arm.{struck_by, rest_of};

use crate::region::Region;

/// What befalls the operation that is struck.
#[derive(Clone, Copy, Debug, PartialEq, Eq)]
pub enum ArmKind {
    /// A write or an erase is cut: the flash is off afterwards.
    Cut,
    /// A write or an erase fails.
    Fail,
    /// A read fails.
    Read,
}

/// What a write or an erase that is struck leaves in its range.
#[derive(Clone, Copy, Debug, PartialEq, Eq)]
pub enum Left {
    /// The bytes as they were.
    Nothing,
    /// The bytes as if it had gone through.
    Whole,
    /// Bytes that a number gives. For each byte of the range in ascending order the number becomes its product with
    /// 1664525 plus 1013904223, modulo 2^32. A written byte is then its top eight bits; a byte to be erased becomes FF
    /// where its top bit is 1, and else stays.
    Seed(u32),
}

/// One trouble to come: the operation of this kind, in this region, whose count reaches `after`, is struck.
///
/// A cut or a failure counts writes and erases, a failing read counts reads.
#[derive(Clone, Copy, Debug, PartialEq, Eq)]
pub struct Arm {
    /// What befalls it.
    pub kind: ArmKind,
    /// Where an operation counts.
    pub region: Region,
    /// Which of the operations that count is struck: 1 is the next one.
    pub after: u32,
    /// What it leaves. A read leaves every byte, whatever this says.
    pub left: Left,
}

/// Counts an operation, and takes the arm off where it strikes.
pub fn strike(armed: &mut Option<Arm>, counted: bool, reading: bool) -> Option<Arm>
    requires { ForSome armed.old (λ arm. 1 ≤ arm.after) }
    ensures struck { result ≡ struck_by counted reading armed.old }
    ensures rest { armed.new ≡ rest_of counted reading armed.old }
    ensures armed { ForSome armed.new (λ arm. 1 ≤ arm.after) }
{
    let Some(arm) = *armed else { return None };
    let for_reads = matches!(arm.kind, ArmKind::Read);
    if !counted || reading != for_reads {
        return None;
    }
    if arm.after == 1 {
        *armed = None;
        return Some(arm);
    }
    *armed = Some(Arm {
        kind: arm.kind,
        region: arm.region,
        after: arm.after - 1,
        left: arm.left,
    });
    None
}
