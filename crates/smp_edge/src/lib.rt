//! What the program meets outside: where it reads and writes, the files that it loads, and the link by
//! which packets come and go.
//!
//! Each outside object is a trait with a written meaning. An object may tell its content (what is left,
//! what was put, which files there are, what will be heard), and it always tells how often it has
//! failed. Code that is generic over the trait cannot raise that count, so a caller's clause "this
//! fault only where the count rose" refuses a body that gives up for no reason.
//!
//! | Trait | In memory, failing at chosen calls | In memory, never failing | Real |
//! |---|---|---|---|
//! | [`Source`] | [`MemSource`] | [`SteadySource`] | [`ReaderSource`], as standard input |
//! | [`Sink`] | [`MemSink`] | [`SteadySink`], [`Block`] | [`WriterSink`], as standard output |
//! | [`Files`] | [`MemFiles`] | [`SteadyFiles`] | [`FolderFiles`] |
//! | [`Link`] | [`MemLink`] | [`SteadyLink`] | [`UdpLink`] |
//!
//! A call on a real object that is interrupted by a signal is made again; every other failure is
//! counted, and answered as one.
#![tactic(auto)]

mod address;
mod block;
mod calls;
mod copies;
mod files;
mod folder_files;
mod link;
mod memory_files;
mod memory_link;
mod memory_sink;
mod memory_source;
mod octets;
mod reader_source;
mod scripts;
mod sink;
mod source;
mod steady_files;
mod steady_link;
mod steady_sink;
mod steady_source;
mod udp_link;
mod writer_sink;

pub use block::Block;
pub use calls::Calls;
pub use files::{Files, LoadFault};
pub use folder_files::FolderFiles;
pub use link::{Heard, Link, Peer, Role};
pub use memory_files::MemFiles;
pub use memory_link::MemLink;
pub use memory_sink::MemSink;
pub use memory_source::MemSource;
pub use octets::Octets;
pub use reader_source::ReaderSource;
pub use scripts::{Named, Scripted, Sent};
pub use sink::{Failed, Sink};
pub use source::Source;
pub use steady_files::SteadyFiles;
pub use steady_link::SteadyLink;
pub use steady_sink::SteadySink;
pub use steady_source::SteadySource;
pub use udp_link::UdpLink;
pub use writer_sink::WriterSink;

#[cfg(test)]
mod tests;
