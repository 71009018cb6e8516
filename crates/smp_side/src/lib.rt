//! The requests about the two slots of one image, over a flash that may be cut or fail.
//!
//! A side is mounted or not. Each request takes it, and hands it back with the reply, or with the fault of the flash that broke the
//! request off: then it is not mounted any more, and the next request mounts it anew. What each does is the side's response in
//! `smp_model`: after a reply the flash shows the side after all its steps, and after a fault, or a cut, it stands for the side
//! after some first ones of them (`Answers` in `specs/Held.antt`).
//!
//! ```text
//! mounted      the side of a request, mounted where it is not
//! start        the first part of an upload        part_at    a further one
//! erase        the upload is given up             pair       what a list says of the image
//! mark         slot 1 is to run                   confirm    the image that runs is to stay
//! ```
#![tactic(auto)]

mod erasing;
mod held;
mod listing;
mod marking;
#[cfg(test)]
mod tests;
mod uploading;

pub use erasing::erase;
pub use held::{Handed, Held, layout_of, lost, mounted, passed_on};
pub use listing::pair;
pub use marking::{confirm, mark};
pub use uploading::{part_at, start};
