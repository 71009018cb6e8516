//! Why a session of a device ended.

ghost use Rattle.std.specs.Prelude.{◌≡◌};
ghost use Rattle.smp_serve.specs.Sessions.{down_fault, start_fault};

use smp_device::{Down, StartFault};

/// Why a session ended before its input or its turns did.
#[derive(Clone, Copy, Debug, PartialEq, Eq)]
pub enum ServeFault {
    /// The source failed.
    Read,

    /// The sink failed. Some front of the last reply's text was put, maybe none or all.
    Write,

    /// The link failed.
    Link,

    /// An operation of the flash failed in a start after a reset. In a request it is answered.
    FlashFault,

    /// The flash went off.
    FlashOff,

    /// The flash stands for no device any more: another hand wrote it.
    Unformatted,

    /// A start after a reset needs more records than can be put.
    Worn,

    /// So many pieces were read as can be counted, 2^32 - 1, and a further one came.
    Spent,
}

/// The fault of a device that went down.
pub fn down_fault(down: Down) -> ServeFault
    ensures { result ≡ down_fault down }
{
    match down {
        Down::Off => ServeFault::FlashOff,
        Down::Unformatted => ServeFault::Unformatted,
    }
}

/// The fault of a start that did not go through.
pub fn start_fault(fault: StartFault) -> ServeFault
    ensures { result ≡ start_fault fault }
{
    match fault {
        StartFault::Unformatted => ServeFault::Unformatted,
        StartFault::Fault(_) => ServeFault::FlashFault,
        StartFault::Off => ServeFault::FlashOff,
        StartFault::Worn => ServeFault::Worn,
    }
}
