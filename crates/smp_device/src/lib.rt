//! The device that is managed, over a flash that may be cut or fail within any operation.
//!
//! ```text
//! format, format_two   give a flash of FF its first content: one image or two, and no settings
//! Device::open         takes the memory, and starts: the settings are read, and each image is found
//! Device::handle       answers one packet
//! Device::restart      starts again
//! ```
//!
//! `handle` is what the definition of the device says (`smp_model`), whatever the flash does (`specs/Handling.antt`). What runs of
//! a device cite is in `specs/Goings.antt`: what may come of a packet and of a boot, by what is armed in the flash; `packets_go` and
//! `boots_go` bring `handle` and `restart` there.
//!
//! Below it, within the crate, are the requests about images (`uploads.rt`, `lists.rt`, `hashes.rt`): `Images` holds the side of each
//! image, mounted or not, and the target of parts. Each request takes it and hands it back with the reply, or with the fault that broke
//! it off.
#![tactic(auto)]

mod answering;
mod arming;
mod device;
mod formatting;
mod hashes;
mod images;
mod laws;
mod lists;
mod serving;
mod sets;
mod settled;
mod showing;
mod side_requests;
mod starting;
mod telling;
#[cfg(test)]
mod tests;
mod uploads;

pub use answering::{Down, Handled};
pub use arming::{arms_are_told, boots_go, packets_go};
pub use device::{Device, OpenFault};
pub use formatting::{FormatFault, format, format_two};
pub use showing::Shown;
pub use smp_upload::UploadFault as StartFault;
