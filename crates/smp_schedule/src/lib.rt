//! Schedules: what happens to a device and its clients, one event a line.
//!
//! ```text
//! flash 512 8 16 base.img              only as the first line that is not skipped; a second image may follow
//! # a comment, which is skipped, as an empty line is
//! client 1 upload app.img 480 test     clients are numbered in their order, 1 to 8
//! up new                               the newest packet of a client comes to the device
//! arm cut slot1 1 7                    the next write or erase in slot 1 is cut
//! up 2
//! boot
//! quiet 1
//! raw 0000000100000606a0               a packet of nobody's
//! ```
//!
//! Lines end with a newline, which the last may lack; fields are parted by one space. A number has no sign and no leading
//! zeros, and hex may have either case. [`read_schedule`] reads a text by its grammar (`specs/Schedules.antt`) and names the
//! first line outside it; [`read_job`] reads the words of a job, which a command line may have too. [`write_schedule`] puts the
//! one text of a schedule, with hex in lower case and no lines that are skipped (`specs/Written.antt`); whatever is read, and
//! whatever is lawful (`specs/Lawful.antt`), is read again from its text ([`written_is_read`], [`read_is_lawful`]).
#![tactic(auto)]

mod event;
mod fault;
mod fields;
mod flash_line;
mod generating;
mod generator;
mod job;
mod job_reading;
mod job_writing;
mod laws;
mod putting;
mod reading;
mod schedule;
mod words;
mod writing;

pub use event::{Event, Which};
pub use fault::ScheduleFault;
pub use flash_line::FlashLine;
pub use generating::{generate, generated_payload};
pub use job::JobWords;
pub use job_reading::read_job;
pub use laws::{generated_is_lawful, read_is_lawful, written_is_read};
pub use schedule::{Schedule, read_schedule};
pub use words::read_number;
pub use writing::write_schedule;

#[cfg(test)]
mod tests;
