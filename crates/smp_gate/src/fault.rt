// Why a call of a bank didn't go through.
ghost use Rattle.std.specs.Prelude.{◌≡◌};
ghost use Rattle.smp_gate.specs.Fault.{bank_fault};

use smp_flash::{CallFault, Operation};

/// Why a call of a bank didn't go through.
#[derive(Clone, Copy, Debug, PartialEq, Eq)]
pub enum BankFault {
    /// Neither side is valid. From `open` alone.
    Unformatted,
    /// This operation of the flash failed. After it a bank that was being replaced or appended to isn't sure.
    Fault(Operation),
    /// The flash is off. After it a bank that was being replaced or appended to isn't sure.
    Off,
    /// The newest side has no cell that is free, and nothing changed. From `append` alone.
    Full,
    /// The generation is 4294967295, and nothing changed. From `replace` alone.
    Worn,
}

/// The fault of a call of the flash, as a bank passes it on.
pub fn passed_on(fault: CallFault) -> BankFault
    ensures { result ≡ bank_fault fault }
{
    match fault {
        CallFault::Fault(operation) => BankFault::Fault(operation),
        CallFault::Off => BankFault::Off,
    }
}
