// The memory of one file.
ghost use Rattle.std.specs.Prelude.{◌≡◌, ◌+◌, ◌≤◌, [], ◌++◌, length, IfOk};

use std::alloc::{AllocError, Global};
use std::marker::Model;

/// The most bytes of a file.
pub const LONGEST: usize = 16384;

/// The bytes of one file, at most 16384, in memory that was taken for as many at once. No more is taken for it.
#[derive(Drop)]
pub struct Buffer {
    bytes: Vec<u8>,
}

impl Model for Buffer {
    ghost use Rattle.std.specs.Prelude.{◌≤◌, List, ℕ, length};
    ghost use Rattle.std.specs.Vec.{vec_capacity};

    ghost Value = { List ℕ };

    ghost view = { λ buffer. buffer.bytes.items };

    ghost invariant = { λ buffer. (16384 ≤ vec_capacity buffer.bytes) × (length buffer.bytes.items ≤ 16384) };
}

impl Buffer {
    /// Takes memory for 16384 bytes, of which none is held.
    pub fn reserve(alloc: Global) -> Result<Buffer, AllocError>
        ensures { IfOk result (λ buffer. buffer ≡ []) }
    {
        let bytes = Vec::with_capacity(alloc, LONGEST)?;
        Ok(Buffer { bytes })
    }

    /// The bytes held.
    pub fn as_slice(&self) -> &[u8]
        ensures value { result.now ≡ self.now }
        ensures most { length result.now ≤ 16384 }
    {
        self.bytes.as_slice()
    }

    /// The same memory, with no bytes held.
    pub fn cleared(mut self) -> Buffer
        ensures { result ≡ [] }
    {
        self.bytes.clear();
        self
    }

    /// Appends bytes, for which there is room.
    pub fn append(&mut self, part: &[u8])
        requires { length self.old + length part.now ≤ 16384 }
        ensures { self.new ≡ self.old ++ part.now }
    {
        let stored = self.bytes.extend_from_slice(part).is_ok();
        prove!(stored);
    }
}
