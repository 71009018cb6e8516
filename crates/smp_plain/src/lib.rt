//! The abstract device as a plain program, for tests: it computes in memory what the definitions of smp_model say, slowly
//! and with copies. [`response_to`] is the response to a request, [`device_after`] the device after it, [`started`] the
//! device after a start, and [`handle`] goes from the bytes of a packet to those of its reply.
#![tactic(auto)]

mod devices;
mod files;
mod good_image;
mod handling;
mod images;
mod laws;
mod requests;
mod response;
mod settings;
mod uploads;
mod views;

pub use devices::{device_after, started};
pub use handling::{PlainHandled, handle};
pub use laws::consistent_devices_are_sound;
pub use requests::{is_sound, response_to};
pub use response::{PlainChange, PlainResponse, PlainSideStep, PlainStep};
pub use settings::{are_storable, stored_form};
