// A link in memory that fails at chosen calls.
ghost use Rattle.std.specs.Prelude.{◌≡◌, ◌⊎◌, Some, IfOk, IfSome, OnOk, OnErr, IsErr, Contains, length, drop};
ghost use Rattle.smp_edge.specs.Faults.{HasCause, next_call};
ghost use Rattle.smp_edge.specs.Link.{attached_peer, next_item, FitsIn, Hears, without_next, with_sent};
ghost use Rattle.smp_edge.specs.Link.{new_link, with_name, with_item, with_packet, after_call, after_failed_call, after_hearing};

use crate::scripts::{find_peer, hear_item};
use crate::{Calls, Failed, Heard, Link, Named, Octets, Peer, Role, Scripted, Sent};
use std::alloc::{AllocError, Global};
use std::collections::VecDeque;
use std::marker::Model;

/// A link that hears a script and keeps what was sent, and fails at chosen calls. After the script's
/// last item it is quiet.
#[derive(Drop)]
pub struct MemLink {
    alloc: Global,
    own: Peer,
    /// The last one given is the first here.
    named: Vec<Named>,
    script: VecDeque<Scripted>,
    sent: Vec<Sent>,
    fails: Calls,
    calls: u32,
    faults: u64,
}

impl Model for MemLink {
    ghost use Rattle.smp_edge.specs.Link.{KeptLink};

    ghost Value = { KeptLink };

    ghost view = { λ link. record {
      names = record { own = link.own; named = link.named.items };
      script = link.script.items;
      sent = link.sent.items;
      fails = link.fails;
      calls = link.calls;
      faults = link.faults;
    } };
}

impl MemLink {
    /// A link of this address with no names and no script, which fails at these calls.
    pub fn new(alloc: Global, own: Peer, fails: Calls) -> MemLink
        ensures { result ≡ new_link own fails }
    {
        MemLink {
            alloc,
            own,
            named: Vec::new(alloc),
            script: VecDeque::new(alloc),
            sent: Vec::new(alloc),
            fails,
            calls: 0,
            faults: 0,
        }
    }

    /// Gives a name to a peer, which hides an earlier one of that name. It fails only for want of
    /// memory.
    pub fn name(&mut self, name: Octets, peer: Peer) -> Result<(), AllocError>
        ensures ok { OnOk result (self.new ≡ with_name self.old name peer) }
        ensures err { OnErr result (self.new ≡ self.old) }
    {
        self.named.insert(0, Named { name, peer })?;
        Ok(())
    }

    /// Adds to the end of what will be heard. It fails only for want of memory.
    pub fn push(&mut self, item: Scripted) -> Result<(), AllocError>
        ensures ok { OnOk result (self.new ≡ with_item self.old item) }
        ensures err { OnErr result (self.new ≡ self.old) }
    {
        self.script.push_back(item)?;
        Ok(())
    }

    /// What was sent.
    pub fn sent(&self) -> &[Sent]
        ensures { result.now ≡ self.now.sent }
    {
        self.sent.as_slice()
    }

    /// Counts a call, which fails exactly where it is listed.
    fn count(&mut self) -> Result<(), Failed>
        ensures ok { OnOk result (self.new ≡ after_call self.old) }
        ensures err { OnErr result (self.new ≡ after_failed_call self.old) }
        ensures listed { Contains self.old.fails (next_call self.old.calls) → IsErr result }
        ensures unlisted { OnErr result (Contains self.old.fails (next_call self.old.calls)) }
        ensures cause { HasCause self.old.faults self.new.faults result }
    {
        self.calls = self.calls.saturating_add(1);
        if self.fails.has(self.calls) {
            self.faults = self.faults.saturating_add(1);
            return Err(Failed);
        }
        Ok(())
    }

    /// Keeps a packet, where there is memory for it.
    fn keep(&mut self, to: Peer, packet: &[u8]) -> Result<(), AllocError>
        ensures ok { OnOk result (self.new ≡ with_packet self.old to packet.now) }
        ensures err { OnErr result (self.new ≡ self.old) }
    {
        let held = Octets::from_slice(self.alloc, packet)?;
        self.sent.push(Sent { to, held })?;
        Ok(())
    }
}

impl Link for MemLink {
    ghost names = { λ link. Some link.names };

    ghost script = { λ link. Some link.script };

    ghost sent = { λ link. Some link.sent };

    ghost faults = { λ link. link.faults };

    /// Fails exactly at the listed calls.
    fn attach(&mut self, role: Role, name: &str) -> Result<Peer, Failed>
        ensures peer { IfOk result (λ peer.
            IfSome (Some self.old.names) (λ names. peer ≡ attached_peer names role name.now)) }
        ensures names { Some self.new.names ≡ Some self.old.names }
        ensures script { Some self.new.script ≡ Some self.old.script }
        ensures sent { Some self.new.sent ≡ Some self.old.sent }
        ensures cause { HasCause self.old.faults self.new.faults result }
        ensures listed { Contains self.old.fails (next_call self.old.calls) → IsErr result }
        ensures unlisted { OnErr result (Contains self.old.fails (next_call self.old.calls)) }
        ensures ok { OnOk result (self.new ≡ after_call self.old) }
        ensures err { OnErr result (self.new ≡ after_failed_call self.old) }
    {
        if self.count().is_err() {
            return Err(Failed);
        }
        match role {
            Role::Serve => Ok(self.own),
            Role::Reach => Ok(find_peer(self.own, self.named.as_slice(), name)),
        }
    }

    /// Fails at the listed calls and for want of memory, with nothing sent.
    fn send(&mut self, to: Peer, packet: &[u8]) -> Result<(), Failed>
        ensures ok { OnOk result
            (Some self.new.sent ≡ with_sent (Some self.old.sent) to packet.now) }
        ensures err { OnErr result ((Some self.new.sent ≡ Some self.old.sent)
            ⊎ (Some self.new.sent ≡ with_sent (Some self.old.sent) to packet.now)) }
        ensures names { Some self.new.names ≡ Some self.old.names }
        ensures script { Some self.new.script ≡ Some self.old.script }
        ensures cause { HasCause self.old.faults self.new.faults result }
        ensures listed { Contains self.old.fails (next_call self.old.calls) → IsErr result }
        ensures kept { OnOk result (self.new ≡ with_packet (after_call self.old) to packet.now) }
        ensures failed { OnErr result (self.new ≡ after_failed_call self.old) }
    {
        if self.count().is_err() {
            return Err(Failed);
        }
        if self.keep(to, packet).is_err() {
            self.faults = self.faults.saturating_add(1);
            return Err(Failed);
        }
        Ok(())
    }

    /// Fails exactly at the listed calls, with nothing taken from the script.
    fn hear(&mut self, into: &mut [u8]) -> Result<Heard, Failed>
        ensures fits { IfOk result (FitsIn (length into.new)) }
        ensures heard { IfOk result (λ heard.
            IfSome (Some self.old.script) (λ items. Hears (next_item items) into.new heard)) }
        ensures ok { OnOk result (Some self.new.script ≡ without_next (Some self.old.script)) }
        ensures err { OnErr result ((Some self.new.script ≡ Some self.old.script)
            ⊎ (Some self.new.script ≡ without_next (Some self.old.script))) }
        ensures names { Some self.new.names ≡ Some self.old.names }
        ensures sent { Some self.new.sent ≡ Some self.old.sent }
        ensures cause { HasCause self.old.faults self.new.faults result }
        ensures listed { Contains self.old.fails (next_call self.old.calls) → IsErr result }
        ensures unlisted { OnErr result (Contains self.old.fails (next_call self.old.calls)) }
        ensures taken { OnOk result (self.new ≡ after_hearing self.old) }
        ensures failed { OnErr result (self.new ≡ after_failed_call self.old) }
    {
        if self.count().is_err() {
            return Err(Failed);
        }
        match self.script.pop_front() {
            Some(item) => Ok(hear_item(&item, into)),
            None => Ok(Heard::Quiet),
        }
    }
}
