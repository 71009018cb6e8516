// A link in memory that never fails.
ghost use Rattle.std.specs.Prelude.{◌≡◌, Some, None, OnOk, OnErr, [], ◌∷◌, ◌++◌};

use crate::scripts::{find_peer, hear_item};
use crate::{Failed, Heard, Link, Named, Octets, Peer, Role, Scripted};
use std::alloc::{AllocError, Global};
use std::collections::VecDeque;

/// A link that hears a script, keeps nothing of what is sent, and never fails. After the script's last
/// item it is quiet. The calls of the trait take no memory.
#[derive(Drop)]
pub struct SteadyLink {
    own: Peer,
    /// The last one given is the first here.
    named: Vec<Named>,
    script: VecDeque<Scripted>,
}

impl SteadyLink {
    /// A link of this address with no names and no script.
    pub fn new(alloc: Global, own: Peer) -> SteadyLink
        ensures own { result.own ≡ own }
        ensures named { result.named.items ≡ [] }
        ensures script { result.script.items ≡ [] }
    {
        SteadyLink {
            own,
            named: Vec::new(alloc),
            script: VecDeque::new(alloc),
        }
    }

    /// Gives a name to a peer, which hides an earlier one of that name. It fails only for want of
    /// memory.
    pub fn name(&mut self, name: Octets, peer: Peer) -> Result<(), AllocError>
        ensures ok { OnOk result
            (self.new.named.items ≡ record { name = name; peer = peer } ∷ self.old.named.items) }
        ensures err { OnErr result (self.new.named.items ≡ self.old.named.items) }
        ensures own { self.new.own ≡ self.old.own }
        ensures script { self.new.script ≡ self.old.script }
    {
        self.named.insert(0, Named { name, peer })?;
        Ok(())
    }

    /// Adds to the end of what will be heard. It fails only for want of memory.
    pub fn push(&mut self, item: Scripted) -> Result<(), AllocError>
        ensures ok { OnOk result (self.new.script.items ≡ self.old.script.items ++ item ∷ []) }
        ensures err { OnErr result (self.new.script.items ≡ self.old.script.items) }
        ensures own { self.new.own ≡ self.old.own }
        ensures named { self.new.named ≡ self.old.named }
    {
        self.script.push_back(item)?;
        Ok(())
    }
}

impl Link for SteadyLink {
    ghost names = { λ link. Some (record { own = link.own; named = link.named.items }) };

    ghost script = { λ link. Some link.script.items };

    ghost sent = { λ _. None };

    ghost faults = { λ _. 0 };

    fn attach(&mut self, role: Role, name: &str) -> Result<Peer, Failed> {
        match role {
            Role::Serve => Ok(self.own),
            Role::Reach => Ok(find_peer(self.own, self.named.as_slice(), name)),
        }
    }

    fn send(&mut self, _to: Peer, _packet: &[u8]) -> Result<(), Failed> {
        Ok(())
    }

    fn hear(&mut self, into: &mut [u8]) -> Result<Heard, Failed> {
        match self.script.pop_front() {
            Some(item) => Ok(hear_item(&item, into)),
            None => Ok(Heard::Quiet),
        }
    }
}
