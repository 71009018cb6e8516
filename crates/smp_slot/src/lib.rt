//! Calls on the bytes of a slot: bytes are put into it page by page, a page is moved to the scratch page and back, the slot is
//! marked, confirmed, or erased.
//!
//! ```text
//!          0  bytes of an upload
//!   end - 24  01 and seven FF: in the secondary slot the mark is permanent, in the primary one the image is confirmed
//!   end - 16  77 c2 95 f3 60 d2 ef 7f 35 52 50 0f 2c b6 79 80 where the slot is pending
//! ```
//!
//! The last two are MCUboot's trailer. They lie in the slot's last page, which no upload enters.
#![tactic(auto)]

mod erasing;
mod laws;
mod marks;
mod page;
mod scratch;
mod slot;
#[cfg(test)]
mod tests;

pub use erasing::wipe;
pub use laws::slots_fit;
pub use marks::{confirm, confirmed, mark, marked};
pub use scratch::{from_scratch, to_scratch};
pub use slot::{put, tail_is_clean};

/// Why a call on a slot didn't go through: an operation of the flash failed, or the flash is off.
pub use smp_flash::CallFault as SlotFault;
