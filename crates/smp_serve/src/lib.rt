//! The loops over the outside: a device that is served over a console or a link, and a client that is driven over a link.
//!
//! | Call | Takes in | Gives out | Ends |
//! |---|---|---|---|
//! | [`serve_console`] | text, in pieces of up to 512 bytes | the text of the reply to each packet of it | with the input |
//! | [`serve_link`] | datagrams from anybody | each reply, to the peer that asked | after a count of turns |
//! | [`drive_client`] | datagrams and quiet waits | the packets of a job; then its text | with the job |
//!
//! A device answers each packet before the next is heard, and after the reply to a reset it is started again. A fault of what is
//! outside, or of the flash at a start, ends the loop; what was given out then is a front of what it would have been.
#![tactic(auto)]

mod console_serving;
mod driving;
mod fault;
mod link_serving;

pub use console_serving::serve_console;
pub use driving::{ClientFault, drive_client};
pub use fault::ServeFault;
pub use link_serving::{Served, serve_link};

#[cfg(test)]
mod tests;
