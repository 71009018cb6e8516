//! MCUboot images, read from any bytes.
//!
//! ```text
//!  0  magic 0x96f3b83d u32          16  flags u32
//!  4  load address u32              20  version: major u8, minor u8, revision u16, build u32
//!  8  header size u16               28  padding u32
//! 10  protected size u16            32  the rest of the header
//! 12  image size u32
//!
//! at header size                    payload, image size bytes
//! behind it                         protected TLVs: magic 0x6908 u16, protected size u16, TLVs; where that size is not 0
//! at the covered bytes' end         TLVs: magic 0x6907 u16, their size with these four bytes u16, TLVs
//!
//! a TLV                             type u16, length u16, so many bytes
//! ```
//!
//! Numbers are little-endian. The TLV of type 0x10 holds the SHA-256 of all bytes before the TLVs. The layout is that of
//! MCUboot's design document, section "Image format".
#![tactic(auto)]

mod area;
mod bytes;
mod carried;
mod covered;
mod hash;
mod header;
mod image;
mod laws;
mod lent;
mod tlv;

pub use bytes::Bytes;
pub use carried::{Carried, Finished};
pub use hash::check_hash;
pub use image::read_image;
pub use laws::{lent_bytes_are_read, looks_compose, looks_pass_faults_on};
pub use lent::Lent;
pub use smp_model::{ImageFault, ImageInfo};

#[cfg(test)]
mod part;
#[cfg(test)]
mod tests;
