// A source in memory that fails at chosen calls.
ghost use Rattle.std.specs.Prelude.{◌≡◌, ◌+◌, [], ◌<◌, ◌≤◌, Some, IfOk, OnErr, OnOk, IsErr, Contains, length, take, drop, min};
ghost use Rattle.std.specs.Io.KnownBytes.{prepend_known, IsAtEnd};
ghost use Rattle.smp_edge.specs.Faults.{HasCause, next_call};
ghost use Rattle.smp_edge.specs.Source.{after_take, after_failed_take};

use crate::{Calls, Failed, Octets, Source};
use std::marker::Model;

/// A source of bytes in memory, and the calls of `take` that are to fail.
#[derive(Drop)]
pub struct MemSource {
    held: Octets,
    taken: usize,
    fails: Calls,
    calls: u32,
    faults: u64,
    ghost inside: { taken ≤ length held },
}

impl Model for MemSource {
    ghost use Rattle.std.specs.Prelude.{drop};
    ghost use Rattle.smp_edge.specs.Source.{KeptInput};

    ghost Value = { KeptInput };

    ghost view = { λ source. record {
      left = drop source.taken source.held;
      fails = source.fails;
      calls = source.calls;
      faults = source.faults;
    } };
}

impl MemSource {
    /// A source of these bytes that fails at these calls.
    pub fn new(held: Octets, fails: Calls) -> MemSource
        ensures { result ≡ record { left = held; fails = fails; calls = 0; faults = 0 } }
    {
        MemSource {
            held,
            taken: 0,
            fails,
            calls: 0,
            faults: 0,
        }
    }
}

/// Copies as much as there is room for, and answers how many bytes.
pub(crate) fn copy_front(from: &[u8], into: &mut [u8]) -> usize
    ensures count { result ≡ min (length from.now) (length into.new) }
    ensures bytes { take result into.new ≡ take result from.now }
{
    let count = from.len().min(into.len());
    into[..count].copy_from_slice(&from[..count]);
    count
}

/// Copies the bytes from place `taken` on, as far as there is room, and answers how many.
#[tactic(auto, using(crate::proofs::Takings::front_taken))]
pub(crate) fn copy_from_place(held: &[u8], taken: usize, into: &mut [u8]) -> usize
    requires room { 0 < length into.old }
    requires inside { taken ≤ length held.now }
    ensures fits { result ≤ length into.new }
    ensures inside { taken + result ≤ length held.now }
    ensures count { result ≡ min (length (drop taken held.now)) (length into.new) }
    ensures taken { Some (drop taken held.now)
        ≡ prepend_known (take result into.new) (Some (drop (taken + result) held.now)) }
    ensures end { result ≡ 0 → drop taken held.now ≡ [] }
{
    let (_, rest) = held.split_at(taken);
    copy_front(rest, into)
}

impl Source for MemSource {
    ghost left = { λ source. Some source.left };

    ghost faults = { λ source. source.faults };

    /// Gives as much as there is room for, or fails, exactly at the listed calls, with nothing taken.
    fn take(&mut self, into: &mut [u8]) -> Result<usize, Failed>
        requires { 0 < length into.old }
        ensures fits { IfOk result (λ n. n ≤ length into.new) }
        ensures taken { IfOk result (λ n.
            Some self.old.left ≡ prepend_known (take n into.new) (Some self.new.left)) }
        ensures end { IfOk result (λ n. n ≡ 0 → IsAtEnd (Some self.old.left)) }
        ensures err { OnErr result (Some self.new.left ≡ Some self.old.left) }
        ensures cause { HasCause self.old.faults self.new.faults result }
        ensures count { IfOk result (λ n. n ≡ min (length self.old.left) (length into.new)) }
        ensures listed { Contains self.old.fails (next_call self.old.calls) → IsErr result }
        ensures unlisted { OnErr result (Contains self.old.fails (next_call self.old.calls)) }
        ensures next { OnOk result (self.new ≡ after_take self.old self.new.left) }
        ensures failed { OnErr result (self.new ≡ after_failed_take self.old) }
    {
        self.calls = self.calls.saturating_add(1);
        if self.fails.has(self.calls) {
            self.faults = self.faults.saturating_add(1);
            return Err(Failed);
        }
        let count = copy_from_place(self.held.as_slice(), self.taken, into);
        self.taken += count;
        Ok(count)
    }
}
