// A line of the console.
ghost use Rattle.std.specs.Prelude.{◌≡◌, ◌≤◌, nat_eq, length, take, drop, Some, None, IsTrue, MatchOption};
ghost use Rattle.std.specs.List.{starts_with};
ghost use Rattle.std.specs.Io.BufRead.{strip_last};
ghost use Rattle.smp_line.specs.Line.{content, next, next_marker, spelled, with_bytes, Reads};

use crate::decoding::Decoder;

/// What a line holds.
#[derive(Clone, Copy, Debug, PartialEq, Eq)]
pub enum Line {
    /// The first line of a packet, with so many bytes.
    First(usize),

    /// A line that continues a packet, with so many bytes.
    Next(usize),

    /// A marker, and behind it, but for one carriage return at the end, text that is no strict base64 or
    /// longer than 512 characters.
    Bad,

    /// No marker.
    Foreign,
}

/// The most characters of base64 in a line.
const LONGEST: usize = 512;

/// The text without one carriage return at its end.
fn without_return(text: &[u8]) -> &[u8]
    ensures { result.now ≡ strip_last 13 text.now }
{
    match text {
        [front @ .., 13] => front,
        _ => text,
    }
}

/// The bytes that the text after a marker spells, at the front of `into`.
fn read_text(decoder: &Decoder, text: &[u8], into: &mut [u8; 384]) -> Option<usize>
    ensures { MatchOption result (spelled text.now ≡ None)
        (λ n. (spelled text.now ≡ Some (take n into.new)) × (n ≤ 384)) }
{
    let symbols = without_return(text);
    // Short texts that hostile lines are full of are told by their length.
    if symbols.len() > LONGEST {
        return None;
    }
    if symbols.len() % 4 != 0 {
        return None;
    }
    if symbols.len() == 0 {
        return Some(0);
    }
    decoder.decode(symbols, into)
}

/// Whether a line has the marker of one that continues a packet. It is a `Next` or `Bad` then, and who has no packet to continue
/// need not read it.
pub fn is_next(line: &[u8]) -> bool
    ensures marker { result ≡ starts_with nat_eq line.now next_marker }
    ensures held { IsTrue result → content line.now ≡ with_bytes next (spelled (drop 2 line.now)) }
{
    match line {
        [4, 20, ..] => true,
        _ => false,
    }
}

/// A reader of lines. It keeps the tables of base64, some 330 bytes; all readers read alike.
#[derive(Drop)]
pub struct LineReader {
    decoder: Decoder,
}

impl LineReader {
    /// A reader, which has read nothing: it never keeps anything of a line.
    pub fn new() -> LineReader {
        LineReader {
            decoder: Decoder::new(),
        }
    }

    /// What a line holds, which is given without its newline. The bytes of a `First` or `Next`, 384 at most,
    /// are put at the front of `into`; what stands there after a `Bad` or `Foreign` means nothing.
    pub fn read(&self, line: &[u8], into: &mut [u8; 384]) -> Line
        ensures { Reads result into.new (content line.now) }
    {
        match line {
            [6, 9, text @ ..] => match read_text(&self.decoder, text, into) {
                Some(count) => Line::First(count),
                None => Line::Bad,
            },
            [4, 20, text @ ..] => match read_text(&self.decoder, text, into) {
                Some(count) => Line::Next(count),
                None => Line::Bad,
            },
            _ => Line::Foreign,
        }
    }
}

/// What a line holds, as by a reader of its own ([`LineReader::read`]). Who reads many lines keeps a reader.
pub fn read_line(line: &[u8], into: &mut [u8; 384]) -> Line
    ensures { Reads result into.new (content line.now) }
{
    LineReader::new().read(line, into)
}
