//! A flash: its sizes, its regions, what each of its calls does to its bytes, two flashes in memory, and one in a file.
//!
//! ```text
//! S = page size * pages of a slot
//!
//!        0  slot 0                      S bytes
//!        S  slot 1                      S bytes
//!       2S  progress bank, first side   4096 bytes
//!  +  4096  progress bank, second side  4096 bytes
//!  +  4096  scratch page                one page
//!  +  page  settings bank, first side   4096 bytes
//!  +  4096  settings bank, second side  4096 bytes
//!
//!           all                         2S + 16384 + page bytes
//! ```
//!
//! A byte is erased where it is FF. A write needs an erased part, begins at a multiple of the write unit and has whole
//! units; an erase makes a whole page FF. A write that is cut or fails leaves any bytes in its part; an erase that is cut
//! or fails leaves each byte of its page as it was or FF. After a cut the flash is off until power comes.
//!
//! The layers above call a flash through `read_part`, `write_part`, `erase_page` and `clear_page` alone.
#![tactic(auto)]

mod arm;
mod calls;
mod file_flash;
mod file_medium;
#[cfg(test)]
mod file_tests;
mod flash;
mod geometry;
mod head;
mod laws;
mod layout;
mod medium;
mod memory;
mod memory_medium;
mod parts;
mod region;
mod steady;
#[cfg(test)]
mod tests;

pub use arm::{Arm, ArmKind, Left};
pub use calls::{clear_page, erase_page, is_erased, read_part, reads_erased, sizes_of, write_part};
pub use file_flash::{FileFlash, Keeping};
pub use file_medium::FileMedium;
pub use flash::{CallFault, Flash, FlashFault, Operation};
pub use geometry::Geometry;
pub use laws::{
    calls_compose, calls_pass_faults_on, calls_then_nothing_more, images_lie_apart,
    pages_are_whole, regions_count_what_begins_there, regions_lie_apart, regions_spare_each_other,
    spots_spare_what_lies_apart, told_bytes_have_the_size,
};
pub use layout::{Area, BankPlace, Layout, SIDE};
pub use medium::{Medium, MediumFailed};
pub use memory::MemFlash;
pub use memory_medium::MemMedium;
pub use region::{GATE, Region};
pub use steady::SteadyFlash;
