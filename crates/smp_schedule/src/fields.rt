// The lines of a text, and the fields of a line.
ghost use Rattle.std.specs.Prelude.{◌≡◌, ◌≢◌, ◌+◌, ◌<◌, ◌∷◌, [], ℕ, length, slice_index, option_map, IfSome, IfNone, MatchOption};
ghost use Rattle.smp_schedule.specs.Fields.{lines_of, fields_of, fields_left, is_skipped, only};

use memchr::memchr;
use std::marker::Model;

/// The place of the first byte of this value.
fn place_of(byte: u8, text: &[u8]) -> Option<usize>
    ensures found { IfSome result (λ i. (i < length text.now) × (slice_index text.now i ≡ byte)) }
    ensures first { IfSome result (λ i. (k : ℕ) → k < i → slice_index text.now k ≢ byte) }
    ensures none { IfNone result ((k : ℕ) → k < length text.now → slice_index text.now k ≢ byte) }
{
    memchr(byte, text)
}

/// The first line, and the text after it.
pub fn next_line(text: &[u8]) -> Option<(&[u8], &[u8])>
    ensures { MatchOption result (text.now ≡ []) (λ x. (lines_of text.now ≡ x.0.now ∷ lines_of x.1.now) × (length x.1.now < length text.now)) }
{
    if text.is_empty() {
        return None;
    }
    match place_of(b'\n', text) {
        Some(i) => {
            let (_, after) = text.split_at(i + 1);
            Some((&text[..i], after))
        }
        None => Some((text, &[])),
    }
}

/// Whether a line is skipped.
pub fn is_skipped(line: &[u8]) -> bool
    ensures { result ≡ is_skipped line.now }
{
    match line {
        [] => true,
        [first, ..] => *first == b'#',
    }
}

/// The first field of a line, and what is behind the space after it.
fn cut_field(line: &[u8]) -> (&[u8], Option<&[u8]>)
    ensures { fields_of line.now ≡ result.0.now ∷ fields_left (option_map (λ r. r.now) result.1) }
{
    match place_of(b' ', line) {
        Some(i) => {
            let (_, after) = line.split_at(i + 1);
            (&line[..i], Some(after))
        }
        None => (line, None),
    }
}

/// The fields of a line that were not read yet.
#[derive(Drop)]
pub struct Fields<'a> {
    rest: Option<&'a [u8]>,
}

impl<'a> Model for Fields<'a> {
    ghost use Rattle.std.specs.Prelude.{List, ℕ, option_map};
    ghost use Rattle.smp_schedule.specs.Fields.{fields_left};

    ghost Value = { List (List ℕ) };

    ghost view = { λ f. fields_left (option_map (λ r. r.now) f.rest) };
}

impl<'a> Fields<'a> {
    /// The fields of a line.
    pub fn of(line: &'a [u8]) -> Fields<'a>
        ensures { result ≡ fields_of line.now }
    {
        Fields { rest: Some(line) }
    }

    /// The next field.
    pub fn next(&mut self) -> Option<&'a [u8]>
        ensures { MatchOption result ((self.old ≡ []) × (self.new ≡ [])) (λ field. self.old ≡ field.now ∷ self.new) }
    {
        let line = self.rest?;
        let (field, rest) = cut_field(line);
        self.rest = rest;
        Some(field)
    }

    /// The one field that is left, where there is no other.
    pub fn only(&mut self) -> Option<&'a [u8]>
        ensures { option_map (λ field. field.now) result ≡ only self.old }
    {
        let field = self.next()?;
        match self.next() {
            Some(_) => None,
            None => Some(field),
        }
    }
}
