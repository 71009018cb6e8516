// What the links in memory hold.
ghost use Rattle.std.specs.Prelude.{◌≡◌, find, nat_eq};
ghost use Rattle.std.specs.Option.{option_copied};
ghost use Rattle.std.specs.Cmp.Lexicographic.{pointwise};
ghost use Rattle.smp_edge.specs.Link.{Hears, Names, peer_of};

use crate::memory_source::copy_front;
use crate::{Heard, Octets, Peer};

/// What a link in memory will hear.
#[derive(Debug, Drop)]
pub enum Scripted {
    /// A packet.
    Packet { from: Peer, held: Octets },

    /// Nothing for as long as the link waits.
    Quiet,
}

/// A packet that was sent.
#[derive(Debug, Drop)]
pub struct Sent {
    pub to: Peer,
    pub held: Octets,
}

/// A peer with its name.
#[derive(Debug, Drop)]
pub struct Named {
    pub name: Octets,
    pub peer: Peer,
}

/// The first entry of that name.
fn first_named<'a>(named: &'a [Named], name: &str) -> Option<&'a Named>
    ensures { option_copied result ≡ find (λ n. pointwise nat_eq n.name name.now) named.now }
{
    named
        .iter()
        .find(|entry| entry.name.as_slice() == name.as_bytes())
}

/// The peer of that name, or the own address.
pub(crate) fn find_peer(own: Peer, named: &[Named], name: &str) -> Peer
    ensures { result ≡ peer_of (record { own = own; named = named.now }) name.now }
{
    match first_named(named, name) {
        Some(entry) => entry.peer,
        None => own,
    }
}

/// What is heard of an item.
pub(crate) fn hear_item(item: &Scripted, into: &mut [u8]) -> Heard
    ensures { Hears item.now into.new result }
{
    match item {
        Scripted::Quiet => Heard::Quiet,
        Scripted::Packet { from, held } => {
            let length = copy_front(held.as_slice(), into);
            Heard::Packet {
                from: *from,
                length,
            }
        }
    }
}
