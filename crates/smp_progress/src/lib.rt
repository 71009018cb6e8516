//! The record of an upload, in the progress bank of an image: one record, old or new, whatever a torn write or erase leaves.
//!
//! The body of the bank, 48 bytes, numbers big-endian:
//!
//! ```text
//!   0  version   02; in the bank of image 0 also 01, which is read and never written
//!   1  kind      00 no upload, 01 one that is received, 02 one with a rescue under way
//!   2  digest    01 where one was announced, else 00
//!   3  image     00 or 01
//!   4  length    u32, of the whole upload: 32 to the slot's length less one page
//!   8  offset    u32, how many bytes are accepted: a multiple of the write unit, or the length
//!  12  00        4
//!  16  digest    32 bytes, or 00
//! ```
//!
//! Without an upload all bytes but those of version and image are 00. In kind 02 the offset is below the length and inside a
//! page, and the bytes of that page before it stand in the scratch page.
//!
//! A cell behind the body, 8 bytes: the kind, 01 or 02, three 00, and the offset. The record has the kind and the offset of the
//! last cell. A record with the announcement of the one that stands goes into a cell while one of the 252 is free, and else
//! replaces the side.
#![tactic(auto)]

mod cells;
mod laws;
mod progress;
mod record;
#[cfg(test)]
mod tests;

pub use laws::{progress_outlasts_other_changes, records_are_lawful, records_are_told_apart};
pub use progress::Progress;
pub use record::Record;
