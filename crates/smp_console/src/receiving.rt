// Text that comes in pieces.
ghost use Rattle.std.specs.Prelude.{◌≡◌, ◌≢◌, ◌≤◌, ◌<◌, ◌+◌, ◌∷◌, ◌++◌, ℕ, List, Contains, length, slice_index, take, [], None, IsSome, IfSome, IfNone, MatchOption};
ghost use Rattle.smp_console.specs.Receiving.{Received, HasText, Feeds, EndsLine, HasRead};
ghost use Rattle.smp_console.specs.Frames.{frames};
ghost use Rattle.smp_console.specs.Lines.{lines};
ghost use Rattle.smp_console.specs.Runs.{IsSent};
ghost use Rattle.smp_line.specs.Line.{HasNoNewline};

use crate::gathering::Gathering;
use arrayvec::ArrayVec;
use memchr::memchr;
use smp_line::front_tells_content;
use std::marker::Model;

/// How far a piece was read.
#[derive(Clone, Copy, Debug, PartialEq, Eq)]
pub struct Fed {
    /// So many bytes of the piece were read.
    pub used: usize,

    /// Whether a packet ends there.
    pub packet: bool,
}

/// The place of the first newline.
fn newline_at(text: &[u8]) -> Option<usize>
    ensures found { IfSome result (λ i. (i < length text.now) × (slice_index text.now i ≡ 10)) }
    ensures first { IfSome result (λ i. (k : ℕ) → k < i → slice_index text.now k ≢ 10) }
    ensures none { IfNone result ((k : ℕ) → k < length text.now → slice_index text.now k ≢ 10) }
{
    // A search by vectors costs more than a line that is empty.
    match text {
        [b'\n', ..] => Some(0),
        _ => memchr(b'\n', text),
    }
}

/// The text up to the first newline, and the text behind it.
fn cut_line(text: &[u8]) -> Option<(&[u8], &[u8])>
    ensures { MatchOption result (HasNoNewline text.now) (λ x. (text.now ≡ x.0.now ++ 10 ∷ x.1.now) × HasNoNewline x.0.now) }
{
    match newline_at(text) {
        Some(i) => {
            let (_, after) = text.split_at(i + 1);
            Some((&text[..i], after))
        }
        None => None,
    }
}

/// Finds packets in text that comes in pieces, which may be cut anywhere. A line of any length is read to
/// its end; it takes no memory beyond its own size, which is about 5.5 KiB.
#[derive(Drop)]
pub struct Receiver {
    line: ArrayVec<u8, 516>,
    gathering: Gathering,
}

impl Model for Receiver {
    ghost use Rattle.smp_console.specs.Receiving.{Received};

    ghost Value = { Received };

    ghost view = { λ r. record { line = r.line.items; collected = r.gathering.collected; packet = r.gathering.packet } };
}

/// Adds text to the line that has not ended, as far as there is room.
fn keep(line: &mut ArrayVec<u8, 516>, text: &[u8])
    ensures { line.new.items ≡ take 516 (line.old.items ++ text.now) }
{
    let room = line.remaining_capacity().min(text.len());
    let _ = line.try_extend_from_slice(&text[..room]);
}

impl Receiver {
    /// A receiver that has read nothing.
    pub fn new() -> Receiver
        ensures value { result ≡ record { line = []; collected = None; packet = [] } }
        ensures holds { HasText result [] }
    {
        Receiver {
            line: ArrayVec::new(),
            gathering: Gathering::new(),
        }
    }

    /// The packet that [`feed`](Receiver::feed) found last. It stays until the next one is found, and
    /// before any there are no bytes.
    pub fn packet(&self) -> &[u8]
        ensures packet { result.now ≡ self.now.packet }
        ensures fits { length result.now ≤ 2048 }
    {
        self.gathering.packet()
    }

    /// Ends the line with this text, which may complete a packet.
    fn end_line(&mut self, text: &[u8]) -> bool
        ensures { EndsLine self.old self.new text.now result }
    {
        if self.line.is_empty() {
            return self.gathering.take_line(text);
        }
        front_tells_content();
        keep(&mut self.line, text);
        let found = self.gathering.take_line(self.line.as_slice());
        self.line.clear();
        found
    }

    /// Reads to the end of the first line that completes a packet, or to the piece's end. What is behind
    /// a packet is for the next call.
    pub fn feed(&mut self, piece: &[u8]) -> Fed
        ensures { Feeds self.old self.new piece.now result }
    {
        front_tells_content();
        let mut rest = piece;
        'lines: while let Some((text, after)) = cut_line(rest) {
            rest = after;
            if self.end_line(text) {
                return Fed {
                    used: piece.len() - rest.len(),
                    packet: true,
                };
            }
        }
        keep(&mut self.line, rest);
        Fed {
            used: piece.len(),
            packet: false,
        }
    }
}

/// After any pieces the packets that were found are the frames of the text that was read, however it was
/// cut. The call does nothing: it stands for the law.
pub fn pieces_give_frames()
    ensures packets { (text : List ℕ) (packets : List (List ℕ)) (r : Received)
        → HasRead text packets r → packets ≡ frames text }
    ensures holds { (text : List ℕ) (packets : List (List ℕ)) (r : Received)
        → HasRead text packets r → HasText r text }
{}

/// A text gives a packet exactly where lines of it send it: a first line, and further ones behind it with
/// at most foreign lines between them, whose bytes are all those of the packet. The call does nothing: it
/// stands for the law.
pub fn given_packets_are_sent()
    ensures sent { (text : List ℕ) (packet : List ℕ)
        → Contains (frames text) packet → IsSent (lines text) packet }
    ensures given { (text : List ℕ) (packet : List ℕ)
        → IsSent (lines text) packet → Contains (frames text) packet }
{}
