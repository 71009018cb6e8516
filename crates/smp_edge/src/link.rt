// Where packets are sent and heard.
ghost use Rattle.std.specs.Prelude.{◌≡◌, ◌⊎◌, Option, List, ℕ, IfOk, IfSome, OnOk, OnErr, length};
ghost use Rattle.smp_edge.specs.Faults.{HasCause};
ghost use Rattle.smp_edge.specs.Link.{Names, attached_peer, next_item, FitsIn, Hears, without_next, with_sent};
ghost use Rattle.smp_edge.specs.declared.scripts.Scripted.{Scripted};
ghost use Rattle.smp_edge.specs.declared.scripts.Sent.{Sent};

use crate::Failed;

/// What a link is attached for.
#[derive(Clone, Copy, Debug, PartialEq, Eq)]
pub enum Role {
    /// To be reached under a name.
    Serve,

    /// To reach whom a name names.
    Reach,
}

/// An address with a port. `address` is an IPv6 address as a number, or an IPv4 address as the IPv6
/// address that stands for it, `::ffff:a.b.c.d`.
#[derive(Clone, Copy, Debug, PartialEq, Eq)]
pub struct Peer {
    pub address: u128,
    pub port: u16,
}

/// What was heard.
#[derive(Clone, Copy, Debug, PartialEq, Eq)]
pub enum Heard {
    /// A packet, whose first `length` bytes are in the buffer.
    Packet { from: Peer, length: usize },

    /// Nothing for as long as the link waits.
    Quiet,
}

/// A way by which packets come and go.
pub trait Link {
    /// Whom names name, where the link tells it. No call changes it.
    ghost names: { Self → Option Names };

    /// What will be heard, where the link tells it.
    ghost script: { Self → Option (List Scripted) };

    /// What was sent, where the link tells it.
    ghost sent: { Self → Option (List Sent) };

    /// How often the link has failed.
    ghost faults: { Self → ℕ };

    /// Takes up a name, and answers the own address to serve, or the peer to reach.
    fn attach(&mut self, role: Role, name: &str) -> Result<Peer, Failed>
        ensures peer { IfOk result (λ peer.
            IfSome (names self.old) (λ names. peer ≡ attached_peer names role name.now)) }
        ensures names { names self.new ≡ names self.old }
        ensures script { script self.new ≡ script self.old }
        ensures sent { sent self.new ≡ sent self.old }
        ensures cause { HasCause (faults self.old) (faults self.new) result };

    /// Sends one packet. A failure sends it or nothing.
    fn send(&mut self, to: Peer, packet: &[u8]) -> Result<(), Failed>
        ensures ok { OnOk result (sent self.new ≡ with_sent (sent self.old) to packet.now) }
        ensures err { OnErr result ((sent self.new ≡ sent self.old)
            ⊎ (sent self.new ≡ with_sent (sent self.old) to packet.now)) }
        ensures names { names self.new ≡ names self.old }
        ensures script { script self.new ≡ script self.old }
        ensures cause { HasCause (faults self.old) (faults self.new) result };

    /// Waits for one packet, and puts as much of it into `into` as there is room for. A failure takes
    /// what would have been heard, or nothing.
    fn hear(&mut self, into: &mut [u8]) -> Result<Heard, Failed>
        ensures fits { IfOk result (FitsIn (length into.new)) }
        ensures heard { IfOk result (λ heard.
            IfSome (script self.old) (λ items. Hears (next_item items) into.new heard)) }
        ensures ok { OnOk result (script self.new ≡ without_next (script self.old)) }
        ensures err { OnErr result ((script self.new ≡ script self.old)
            ⊎ (script self.new ≡ without_next (script self.old))) }
        ensures names { names self.new ≡ names self.old }
        ensures sent { sent self.new ≡ sent self.old }
        ensures cause { HasCause (faults self.old) (faults self.new) result };
}
