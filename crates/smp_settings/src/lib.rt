//! The settings of a device: the running ones, which requests read and change, and the saved ones, which a bank of two sides
//! keeps on flash.
//!
//! The bank's body is the stored form of a map, and each of its cells, of 168 bytes, is one change behind it:
//!
//! ```text
//!   body   01, the count, and for each name in ascending order of bytes:
//!          the length of the name, the name, the length of the value, the value    (at most 3072 bytes)
//!   cell   01, the length of the name, the name, the length of the value, the value, 00 to the end    a setting was written
//!          02, the length of the name, the name, 00 to the end                                        a setting was deleted
//! ```
//!
//! A save in which one name differs appends one cell, one in which nothing differs does nothing, and every other one, and one
//! for which no cell is free, replaces the side by the stored form of the running map.
#![tactic(auto)]

mod cell;
mod difference;
mod entry;
mod fault;
mod form;
mod laws;
mod saved;
mod settings;
mod table;
#[cfg(test)]
mod tests;

pub use fault::SettingFault;
pub use laws::{
    saved_settings_are_told_apart, saved_settings_are_within_the_limits,
    settings_outlast_other_changes,
};
pub use settings::Settings;
