//! An upload into the secondary slot of an image: its states, each a value of its own, and the calls that lead from one to the
//! next.
//!
//! ```text
//! Unmounted --mount--> Idle, Receiving, Whole, Pending     what stands on the flash
//! Idle      --choose-> Receiving   --erase-> Idle
//! Receiving --chunk--> Receiving, Whole, Idle              Idle where the announced digest is not the bytes'
//!           --choose-> Receiving   --erase-> Idle
//! Whole     --set_pending-> Pending
//!           --choose-> Receiving   --erase-> Idle
//! ```
//!
//! No state owns the flash: each call takes it, and a state says what its bytes are, as far as the two slots, the progress bank
//! and the scratch page of the image go. Changes elsewhere keep that (`sides_outlast_other_changes`). Each call's steps are those
//! of `Side` in `smp_model`: at every exit, whatever was cut or failed, the bytes stand for the side after some first ones of
//! them, and after Ok they show it after all. A call that does not go through hands back `Unmounted` alone.
//!
//! An upload that is under way carries the sums of its bytes, so that nothing is read again when it is complete.
#![tactic(auto)]

mod below;
mod choosing;
mod chunking;
mod erasing;
mod faults;
mod laws;
mod looking;
mod marking;
mod mounting;
mod needing;
mod primary;
mod reading;
mod records;
mod rescue;
mod restoring;
mod settling;
mod states;
mod storing;
mod summing;
#[cfg(test)]
mod tests;

pub use laws::{sides_are_told_apart, sides_outlast_other_changes};
pub use primary::{active_image, confirm, is_confirmed};
pub use states::{Chunked, Idle, Lost, Mounted, Pending, Receiving, Unmounted, UploadFault, Whole};
