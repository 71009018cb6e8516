//! The program's top call: [`run`] takes the words of the command line, a place to write and the files
//! that it may load, and answers how it ended.
//!
//! | Words | What is done |
//! |---|---|
//! | `replay SCHEDULE` | the events of a schedule happen to a device and its clients, and their transcript is printed |
//!
//! The schedule and the files that it names are loaded first, and every line and image is tested before anything happens.
#![tactic(auto)]

mod clients;
mod command;
mod flash;
mod loading;
mod playing;
mod preparing;
mod replay;
mod status;
mod transcript;
mod words;

pub use command::run;
pub use status::Status;

#[cfg(test)]
mod tests;
