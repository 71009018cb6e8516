//! Packets of the Simple Management Protocol (SMP), as Zephyr's "SMP protocol specification" frames
//! them: a header of eight bytes, and data.
//!
//! ```text
//!  byte 0            1        2  3          4  5         6          7         8 ..
//! +-----+-----+----+--------+-----------+-----------+----------+---------+------------+
//! | 000 | ver | op | flags  | length    | group     | sequence | command | data       |
//! +-----+-----+----+--------+-----------+-----------+----------+---------+------------+
//!   3     2     3 bits        big-endian  big-endian                       length bytes
//! ```
//!
//! Operations are 0 read, 1 read response, 2 write and 3 write response. Version bits 0 stand for
//! version 1 of the protocol, bits 1 for version 2. Reading looks at neither the reserved bits nor the
//! flags; both are written as 0.
#![tactic(auto)]

mod reading;
mod writing;

use arrayvec::ArrayVec;
pub use reading::read_packet;
pub use writing::write_header;

/// The bytes of a header.
pub const HEADER: usize = 8;

/// The most bytes of a packet, with its header.
pub const LARGEST_PACKET: usize = 2048;

/// A packet that is being built: it has room for the largest.
pub type PacketBuffer = ArrayVec<u8, LARGEST_PACKET>;

/// A packet whose data is lent from the bytes that it was read from.
#[derive(Clone, Copy, Debug)]
pub struct Packet<'a> {
    /// The version bits, 0 to 3.
    pub version: u8,

    /// The operation, 0 to 7.
    pub op: u8,

    /// The management group.
    pub group: u16,

    /// The number by which a client tells replies apart.
    pub sequence: u8,

    /// The command within the group.
    pub command: u8,

    /// The data, at most 2040 bytes.
    pub bytes: &'a [u8],
}

#[cfg(test)]
mod tests;
