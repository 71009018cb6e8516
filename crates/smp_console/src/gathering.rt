// The packet that lines give.
ghost use Rattle.std.specs.Prelude.{◌≡◌, ◌≤◌, ◌+◌, ◌++◌, length, true, [], None, IsFalse};
ghost use Rattle.smp_console.specs.Frames.{collection, outcome_of, outcome_of_first, outcome_of_next};
ghost use Rattle.smp_console.specs.Receiving.{TakesLine, Leaves, Waits, some_if, Sees};

use crate::bytes::Bytes;
use smp_line::{Line, LineReader, crc16, is_next};
use std::marker::Model;

/// What collected bytes are.
enum Collected<'a> {
    /// Too few bytes yet.
    More,

    /// No packet.
    Lost,

    /// All the bytes of this packet.
    Whole(&'a [u8]),
}

/// What the collected bytes are.
fn look_at(bytes: &[u8]) -> Collected<'_>
    requires { 2 ≤ length bytes.now }
    ensures { Sees result (collection bytes.now) }
{
    let number = usize::from(u16::from_be_bytes([bytes[0], bytes[1]]));
    if number < 2 || number > 2050 || bytes.len() > number + 2 {
        return Collected::Lost;
    }
    if bytes.len() < number + 2 {
        return Collected::More;
    }
    let packet = &bytes[2..number];
    if crc16(packet) == u16::from_be_bytes([bytes[number], bytes[number + 1]]) {
        Collected::Whole(packet)
    } else {
        Collected::Lost
    }
}

/// Looks at what was collected, which may be all bytes of a packet.
fn settle(collected: &Bytes, is_begun: &mut bool, packet: &mut Bytes) -> bool
    requires { 2 ≤ length collected.now }
    ensures { Leaves (outcome_of collected.now) is_begun.new collected.now packet.old packet.new result }
{
    *is_begun = false;
    match look_at(collected.as_slice()) {
        Collected::More => {
            *is_begun = true;
            false
        }
        Collected::Lost => false,
        Collected::Whole(whole) => {
            packet.set(whole);
            true
        }
    }
}

/// Begins a packet with the bytes of a first line, where there are at least two.
fn begin(collected: &mut Bytes, is_begun: &mut bool, packet: &mut Bytes, bytes: &[u8]) -> bool
    requires { length bytes.now ≤ 384 }
    ensures { Leaves (outcome_of_first bytes.now) is_begun.new collected.new packet.old packet.new result }
{
    if bytes.len() < 2 {
        *is_begun = false;
        return false;
    }
    collected.set(bytes);
    settle(collected, is_begun, packet)
}

/// Adds bytes to those that were collected.
fn collect(collected: &mut Bytes, is_begun: &mut bool, packet: &mut Bytes, bytes: &[u8]) -> bool
    requires { 2 ≤ length collected.old }
    ensures { Leaves (outcome_of (collected.old ++ bytes.now)) is_begun.new collected.new packet.old packet.new result }
{
    if !collected.add(bytes) {
        *is_begun = false;
        return false;
    }
    settle(collected, is_begun, packet)
}

/// Goes on with a packet that was begun, where there is one.
fn go_on(collected: &mut Bytes, is_begun: &mut bool, packet: &mut Bytes, bytes: &[u8]) -> bool
    requires { Waits is_begun.old collected.old }
    ensures { Leaves (outcome_of_next (some_if is_begun.old collected.old) bytes.now) is_begun.new collected.new packet.old packet.new result }
{
    if !*is_begun {
        return false;
    }
    if bytes.is_empty() {
        return false;
    }
    collect(collected, is_begun, packet, bytes)
}

/// The bytes that were collected of a packet, and the last packet that was found.
#[derive(Drop)]
pub(crate) struct Gathering {
    reader: LineReader,
    bytes: [u8; 384],
    collected: Bytes,
    is_begun: bool,
    packet: Bytes,
}

impl Model for Gathering {
    ghost use Rattle.std.specs.Prelude.{◌≤◌, length};
    ghost use Rattle.smp_console.specs.Receiving.{Gathered, Waits, some_if};

    ghost Value = { Gathered };

    ghost view = { λ g. record { collected = some_if g.is_begun g.collected; packet = g.packet } };

    ghost invariant = { λ g. Waits g.is_begun g.collected × (length g.packet ≤ 2048) };
}

impl Gathering {
    /// Nothing collected, and no packet found.
    pub(crate) fn new() -> Gathering
        ensures { result ≡ record { collected = None; packet = [] } }
    {
        Gathering {
            reader: LineReader::new(),
            bytes: [0; 384],
            collected: Bytes::new(),
            is_begun: false,
            packet: Bytes::new(),
        }
    }

    /// The last packet that was found.
    pub(crate) fn packet(&self) -> &[u8]
        ensures packet { result.now ≡ self.now.packet }
        ensures fits { length result.now ≤ 2048 }
    {
        self.packet.as_slice()
    }

    /// Reads a line, which may complete a packet.
    pub(crate) fn take_line(&mut self, line: &[u8]) -> bool
        ensures { TakesLine self.old self.new line.now result }
    {
        // Where nothing was begun, it doesn't matter what would continue it.
        if !self.is_begun && is_next(line) {
            return false;
        }
        match self.reader.read(line, &mut self.bytes) {
            Line::First(count) => begin(
                &mut self.collected,
                &mut self.is_begun,
                &mut self.packet,
                &self.bytes[..count],
            ),
            Line::Next(count) => go_on(
                &mut self.collected,
                &mut self.is_begun,
                &mut self.packet,
                &self.bytes[..count],
            ),
            Line::Bad => {
                self.is_begun = false;
                false
            }
            Line::Foreign => false,
        }
    }
}
