//! Packets of clients, and the replies to them.

use smp_edge::Octets;

/// A packet that a client sent, or a reply to one.
#[derive(Drop)]
pub struct Mail {
    /// The number of the client, from 1.
    pub client: usize,
    pub packet: Octets,
}
