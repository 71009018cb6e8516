// The faults of the calls below, as a call on an upload's state passes them on.
ghost use Rattle.std.specs.Prelude.{◌≡◌};
ghost use Rattle.smp_upload.specs.Faults.{of_bank, of_call, of_read};

use crate::states::{Lost, Unmounted, UploadFault};
use smp_flash::{CallFault, FlashFault, Layout, Operation};
use smp_gate::BankFault;

/// The fault of a bank's call.
pub fn from_bank(fault: BankFault) -> UploadFault
    ensures { result ≡ of_bank fault }
{
    match fault {
        BankFault::Unformatted | BankFault::Full => UploadFault::Unformatted,
        BankFault::Fault(operation) => UploadFault::Fault(operation),
        BankFault::Off => UploadFault::Off,
        BankFault::Worn => UploadFault::Worn,
    }
}

/// The fault of a slot's call.
pub fn from_call(fault: CallFault) -> UploadFault
    ensures { result ≡ of_call fault }
{
    match fault {
        CallFault::Fault(operation) => UploadFault::Fault(operation),
        CallFault::Off => UploadFault::Off,
    }
}

/// The fault of a read.
pub fn from_read(fault: FlashFault) -> UploadFault
    ensures { result ≡ of_read fault }
{
    match fault {
        FlashFault::Fault => UploadFault::Fault(Operation::Read),
        FlashFault::Off => UploadFault::Off,
    }
}

/// A call that did not go through.
pub fn lost(layout: Layout, fault: UploadFault) -> Lost
    ensures fault { result.fault ≡ fault }
    ensures layout { result.state.layout ≡ layout }
{
    Lost {
        state: Unmounted { layout },
        fault,
    }
}
