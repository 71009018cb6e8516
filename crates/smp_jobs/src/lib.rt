//! The jobs of a client of the Simple Management Protocol: what it asks a device for, one request after another, over a link
//! that may lose, repeat and delay packets.
//!
//! | Job | Requests | Ends done after |
//! |---|---|---|
//! | upload | the start of an image, its parts from the answered offset on, and mostly a mark | the last byte, or the answer to the mark |
//! | list | the list of images | its answer |
//! | set | a write for each setting, then a save | the answer to the save |
//! | put | the start of a file, and its parts from the answered offset on | the last byte |
//! | get | reads of a file from the count of bytes held on | the last byte |
//! | echo | one echo | its answer |
//!
//! A job is driven by its owner: it lends the packet to send, hears the packets that come, and is told where a wait was quiet.
//! [`Job::hear`] and [`Job::quiet`] answer what is to be done then. The requests are those of Zephyr's groups of SMP (image,
//! settings, file system, OS); when a job goes on, begins anew or gives up is chosen here (`specs/Jobs.antt`).
#![tactic(auto)]

mod ask;
mod ending;
mod gets;
mod images;
mod job;
mod laws;
mod list_text;
mod moves;
mod parts;
mod puts;
mod running;
mod sets;
mod step;
mod task;
mod tasks;
mod uploads;

pub use job::Job;
pub use laws::{
    files_are_whole, marks_are_answered, saves_are_answered, the_first_request_is_next,
    uploads_are_tagged,
};
pub use moves::{JobEnd, JobFault, JobMove};

#[cfg(test)]
mod tests;
