// A source in memory that never fails.
ghost use Rattle.std.specs.Prelude.{◌≡◌, ◌<◌, ◌≤◌, Some, IfOk, OnErr, length, take, drop, min};
ghost use Rattle.std.specs.Io.KnownBytes.{prepend_known, IsAtEnd};
ghost use Rattle.smp_edge.specs.Faults.{HasCause};

use crate::memory_source::copy_from_place;
use crate::{Failed, Octets, Source};
use std::marker::Model;

/// A source of bytes in memory that never fails. Its calls take no memory. Contracts see it as the
/// bytes that are left.
#[derive(Drop)]
pub struct SteadySource {
    held: Octets,
    taken: usize,
    ghost inside: { taken ≤ length held },
}

impl Model for SteadySource {
    ghost use Rattle.std.specs.Prelude.{List, ℕ, drop};

    ghost Value = { List ℕ };

    ghost view = { λ source. drop source.taken source.held };
}

impl SteadySource {
    /// A source of these bytes.
    pub fn new(held: Octets) -> SteadySource
        ensures { result ≡ held }
    {
        SteadySource { held, taken: 0 }
    }
}

impl Source for SteadySource {
    ghost left = { λ source. Some source };

    ghost faults = { λ _. 0 };

    /// Gives as much as there is room for.
    fn take(&mut self, into: &mut [u8]) -> Result<usize, Failed>
        requires { 0 < length into.old }
        ensures fits { IfOk result (λ n. n ≤ length into.new) }
        ensures taken { IfOk result (λ n.
            Some self.old ≡ prepend_known (take n into.new) (Some self.new)) }
        ensures end { IfOk result (λ n. n ≡ 0 → IsAtEnd (Some self.old)) }
        ensures err { OnErr result (Some self.new ≡ Some self.old) }
        ensures cause { HasCause 0 0 result }
        ensures count { IfOk result (λ n. n ≡ min (length self.old) (length into.new)) }
    {
        let count = copy_from_place(self.held.as_slice(), self.taken, into);
        self.taken += count;
        Ok(count)
    }
}
