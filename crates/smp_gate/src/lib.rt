//! A bank: a body and a list of cells of one length, kept on two sides. The body is replaced as a whole, which leaves no
//! cell, and a cell is appended at the end. Whatever a torn write or erase leaves, the bank holds the old content or the
//! new one.
//!
//! A side, 4096 bytes:
//!
//! ```text
//!   0  gate        8   47 41 54 45 47 41 54 45, GATEGATE: without it the side is not valid
//!   8  generation  5   1 to 4294967295, seven bits a byte, the most significant first
//!  13  length      2   of the body, 0 to 4080, seven bits a byte, the most significant first
//!  15  01          1
//!  16  body        0 to 4080 bytes, filled with 00 to a multiple of 8
//!      cells       as many as fit: each its bytes, filled with 00 to a multiple of 8, and a gate of 8 bytes
//! ```
//!
//! A replacement erases the pages of the older side that aren't all FF, writes head and body in one write, and then the
//! gate in a write of its own. A cell is written likewise, behind the last one that isn't all FF; one without its gate
//! doesn't count. The newest side is the valid one with the greater generation, the first one where they are equal.
#![tactic(auto)]

mod bank;
mod cells;
mod fault;
mod head;
mod laws;
mod opening;
mod steps;
#[cfg(test)]
mod tests;

pub use bank::Bank;
pub use fault::BankFault;
pub use laws::{ages_add_up, bank_outlasts_other_changes, bank_says_what_stands, banks_fit};
