//! The files of a device, in memory: at most 8, each of at most 16384 bytes. They are lost at a start.
//!
//! A file comes in parts. The part at offset 0 announces the file's length and begins it anew; each further part goes on where
//! the bytes held end, and one at another offset is answered with that wanted offset.
//!
//! All memory is taken once, by [`FileTable::reserve`]: a buffer for each file that there may be. A file has its buffer for
//! as long as it is there, so its bytes stay where they are whatever becomes of other files.
#![tactic(auto)]

mod buffer;
mod fault;
mod file;
mod table;
#[cfg(test)]
mod tests;

pub use fault::FileFault;
pub use table::FileTable;
