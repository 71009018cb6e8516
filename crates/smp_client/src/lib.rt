//! A client's session of the Simple Management Protocol: one request at a time, over a link that may lose, repeat and delay
//! packets.
//!
//! ```text
//!        send                    hear: the answer
//! idle ─────────▶ open ────────────────────────────────▶ idle
//!                  │ ▲  hear: anything else     Wait
//!                  │ │  a wait ends, 1 to 8     Send, the same packet again
//!                  │ └─ the ninth wait ends     NoAnswer, and idle
//! ```
//!
//! A wait ends where its owner says that it was quiet, and where 64 packets were heard in it that are no answer. A packet is
//! the answer where it is a reply to the open request ("SMP protocol specification": the sequence number, group and command of
//! the request, and its operation plus one), of version 1 or 2, and its data is an answer of the kind that was asked for.
//!
//! A session takes no memory beyond its own size, about 2 KiB, and copies no packet that it hears.
#![tactic(auto)]

mod laws;
mod session;
mod waiting;

pub use laws::{answers_are_replies, nine_waits_end_a_request, strangers_end_a_wait};
pub use session::{Move, Session};

#[cfg(test)]
mod tests;
