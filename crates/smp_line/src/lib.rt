//! One line of the SMP console transport ("SMP transport specification", console), and its CRC.
//!
//! ```text
//! +---------+--------------------------------+----+
//! | 06 09   | base64 of up to 93 bytes       | 0a |   the first line of a packet
//! | 04 14   | base64 of up to 93 bytes       | 0a |   a line that continues it
//! +---------+--------------------------------+----+
//!   marker    RFC 4648, padded, at most 124
//! ```
//!
//! Reading takes up to 512 characters of base64, and one carriage return behind them. Base64 is strict:
//! padded, with the unused bits 0. A line without a marker is foreign: it is no part of the transport.
//!
//! The CRC has the polynomial 0x1021, starts with 0, and has no reflection and no final xor (it is known
//! as CRC-16/XMODEM, with the check value 31c3).
#![tactic(auto)]

mod crc;
mod decoding;
mod laws;
mod reading;
mod writing;

pub use crc::crc16;
pub use laws::{
    crc_is_unique, crc_is_worked_out, first_line_is_its_text, front_tells_content,
    next_line_is_its_text, text_has_no_newline, written_lines_are_read,
};
pub use reading::{Line, LineReader, is_next, read_line};
pub use writing::write_line;

#[cfg(test)]
mod tests;
