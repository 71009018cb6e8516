// Bytes in an array of a fixed size.
ghost use Rattle.std.specs.Prelude.{◌≡◌, ◌≤◌, ◌+◌, ◌↔◌, ◌++◌, [], length, IsTrue, IsFalse};

use std::marker::Model;

/// Up to 2052 bytes, which contracts see as a list. `ArrayVec` has the same calls, but clears what it
/// held byte by byte.
#[derive(Drop)]
pub(crate) struct Bytes {
    held: [u8; 2052],
    length: usize,
    ghost inside: { length ≤ 2052 },
}

impl Model for Bytes {
    ghost use Rattle.std.specs.Prelude.{List, ℕ, take};

    ghost Value = { List ℕ };

    ghost view = { λ bytes. take bytes.length bytes.held };
}

impl Bytes {
    /// No bytes.
    pub(crate) fn new() -> Bytes
        ensures { result ≡ [] }
    {
        Bytes {
            held: [0; 2052],
            length: 0,
        }
    }

    /// The bytes.
    pub(crate) fn as_slice(&self) -> &[u8]
        ensures bytes { result.now ≡ self.now }
        ensures fits { length result.now ≤ 2052 }
    {
        &self.held[..self.length]
    }

    /// Holds these bytes instead.
    pub(crate) fn set(&mut self, bytes: &[u8])
        requires { length bytes.now ≤ 2052 }
        ensures { self.new ≡ bytes.now }
    {
        self.length = 0;
        let _ = self.add(bytes);
    }

    /// Adds bytes behind the others. It answers whether there was room for them.
    pub(crate) fn add(&mut self, bytes: &[u8]) -> bool
        ensures room { IsTrue result ↔ (length self.old + length bytes.now ≤ 2052) }
        ensures added { IsTrue result → self.new ≡ self.old ++ bytes.now }
        ensures kept { IsFalse result → self.new ≡ self.old }
    {
        if self.held.len() - self.length < bytes.len() {
            return false;
        }
        let end = self.length + bytes.len();
        self.held[self.length..end].copy_from_slice(bytes);
        self.length = end;
        true
    }
}
