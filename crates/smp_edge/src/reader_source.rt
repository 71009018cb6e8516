// The source over a reader, as standard input.
ghost use Rattle.std.specs.Prelude.{◌≡◌, ◌<◌, ◌≤◌, None, IfOk, OnErr, length, take};
ghost use Rattle.std.specs.Io.KnownBytes.{Consumes, IsAtEnd, Keeps};
ghost use Rattle.smp_edge.specs.Faults.{HasCause};

use crate::{Failed, Source};
use std::io::{ErrorKind, Read};

/// One read, made again where it is interrupted.
fn read_some<I: Read>(reader: &mut I, into: &mut [u8]) -> Result<usize, Failed>
    requires { 0 < length into.old }
    ensures fits { IfOk result (λ n. n ≤ length into.new) }
    ensures taken { IfOk result (λ n.
        Consumes (I.remaining reader.old) (I.remaining reader.new) (take n into.new)) }
    ensures end { IfOk result (λ n. n ≡ 0 → IsAtEnd (I.remaining reader.new)) }
    ensures err { OnErr result (Keeps (I.remaining reader.old) (I.remaining reader.new)) }
{
    'reads: for _ in 0..u64::MAX {
        match reader.read(into) {
            Ok(count) => return Ok(count),
            Err(error) if error.kind() == ErrorKind::Interrupted => {}
            Err(_) => return Err(Failed),
        }
    }
    Err(Failed)
}

/// A source over a reader. It tells nothing of what is left, since no clause can say what the reader
/// will give; over a reader that tells, `take` says what that gave.
#[derive(Drop)]
pub struct ReaderSource<I: Read> {
    reader: I,
    faults: u64,
}

impl<I: Read> ReaderSource<I> {
    /// A source over this reader, which has not failed yet.
    pub fn new(reader: I) -> ReaderSource<I>
        ensures reader { result.reader ≡ reader }
        ensures faults { result.faults ≡ 0 }
    {
        ReaderSource { reader, faults: 0 }
    }
}

impl<I: Read> Source for ReaderSource<I> {
    ghost left = { λ _. None };

    ghost faults = { λ source. source.faults };

    /// A read that is interrupted is made again.
    fn take(&mut self, into: &mut [u8]) -> Result<usize, Failed>
        requires { 0 < length into.old }
        ensures fits { IfOk result (λ n. n ≤ length into.new) }
        ensures cause { HasCause self.old.faults self.new.faults result }
        ensures read { IfOk result (λ n.
            Consumes (I.remaining self.old.reader) (I.remaining self.new.reader) (take n into.new)) }
        ensures read_end { IfOk result (λ n. n ≡ 0 → IsAtEnd (I.remaining self.new.reader)) }
        ensures kept { OnErr result
            (Keeps (I.remaining self.old.reader) (I.remaining self.new.reader)) }
    {
        match read_some(&mut self.reader, into) {
            Ok(count) => Ok(count),
            Err(Failed) => {
                self.faults = self.faults.saturating_add(1);
                Err(Failed)
            }
        }
    }
}
