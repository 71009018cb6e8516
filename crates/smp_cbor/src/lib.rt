//! CBOR (RFC 8949), as far as the device manager's packets need it: maps that are read in place, and items that are
//! written in their shortest form. No call takes memory.
//!
//! # An item on the wire
//!
//! An item is a head and what the head announces (RFC 8949, section 3):
//!
//! ```text
//! +-------------------------+---------------------------+----------------------------------+
//! |  first byte             |  argument                 |  content                         |
//! |  major: 3 | low: 5 bits |  0, 1, 2, 4 or 8 bytes,   |  the bytes of a string, or the   |
//! |  type     |             |  most significant first   |  items of a list, a map, a tag   |
//! +-------------------------+---------------------------+----------------------------------+
//! |<---------------------- head ----------------------->|
//!
//! low 0 to 23    the argument is `low`, and no byte follows
//! low 24 to 27   the argument is in the next 1, 2, 4 or 8 bytes
//! low 28 to 30   refused
//! low 31         a list or a map that goes on to a break, the byte ff; refused with any other major type
//!
//! major 0   `Unsigned(n)`: the argument n
//! major 1   `Negative(n)`: the number -1 - n
//! major 2   `Octets`: n bytes
//! major 3   `Text`: n bytes of UTF-8
//! major 4   `List`: n items
//! major 5   `Map`: n keys, each with its value behind it
//! major 6   a tag: one item, read as `Other`
//! major 7   f4 and f5 `Bool`, f6 `Null`; other simple values and floats `Other`; f8 with a byte below 32 is refused
//! ```
//!
//! Any width of the argument is read, the least one is written. The outer map stands at level 1, and what a list, a map
//! or a tag holds stands one level deeper; a list, map or tag at level 9 is refused. Each key of the outer map is a text,
//! and no two are the same text. An inner map with such keys is read as `Map`, any other inner map as `Other`.
//!
//! # Reading and writing
//!
//! [`read_map`] tests all of the bytes once, and answers a [`MapView`] that lends from them, or the first
//! [`CborFault`]. [`MapView::find`] and [`ListView::next`] read one value each. The `put_` calls append one head or
//! string to a packet that is being built.
//!
//! # Laws
//!
//! The functions with empty bodies, from [`spellings_end`] to [`texts_take_their_bytes`], state laws of the format in their
//! clauses: no spelling is a proper front of another, the first fault is the only one, stands in no map, comes as early
//! as it can and stays whatever follows, and the shortest form of a whole value is read as that value.
#![tactic(auto)]

mod fault;
mod heads;
mod keys;
mod laws;
mod reading;
mod skipping;
mod views;
mod writing;

pub use fault::{CborFault, CborKind};
pub use laws::{
    fault_is_unique, fault_lasts, front_is_sound, head_is_least, heads_are_short, map_has_no_fault,
    shortest_is_read, shortest_spells, spellings_end, texts_take_their_bytes,
};
pub use reading::read_map;
pub use views::{Item, ListView, MapView};
pub use writing::{put_bool, put_list, put_map, put_octets, put_text, put_unsigned};

#[cfg(test)]
mod tests;
