//! The bytes after an item, found without building its value, in time linear in the item's length.

ghost use Rattle.std.specs.Prelude.{◌≡◌, ◌&&◌, ◌∷◌, ℕ, List, Ok, IsTrue, false, true, is_none, drop, IfNone, IfSome};
ghost use Rattle.std.specs.Str.{IsAscii, is_utf8};
ghost use Rattle.smp_cbor.specs.Heads.{Gives, head_at as head_from};
ghost use Rattle.smp_cbor.specs.Skipping.{placed, stop_at, octets_at, text_at, begins_break, turns as turns_at, skip_entries_at, skip_at, entry};

use crate::fault::{CborKind, Stop};
use crate::heads::{Head, head_of};
use std::str;

/// A fault at the head that the bytes begin with.
#[inline(always)]
pub fn stop(bytes: &[u8], kind: CborKind) -> Stop
    ensures { result ≡ stop_at bytes.now kind }
{
    Stop {
        left: bytes.len(),
        kind,
    }
}

/// The head at the front and the bytes after it, or the fault there.
#[inline(always)]
pub fn head_at(bytes: &[u8]) -> Result<(Head, &[u8]), Stop>
    ensures { Gives (λ x. (x.0, x.1.now)) result (placed bytes.now (head_from bytes.now)) }
{
    match head_of(bytes) {
        Ok(found) => Ok(found),
        Err(kind) => Err(stop(bytes, kind)),
    }
}

/// The bytes of a string and those after it, behind the head that stands at `start`.
#[tactic(auto, unfolding(crate::specs::Skipping::octets_at))]
pub fn octets_of<'a>(
    start: &'a [u8],
    length: u64,
    rest: &'a [u8],
) -> Result<(&'a [u8], &'a [u8]), Stop>
    ensures { Gives (λ x. (x.0.now, x.1.now)) result (octets_at start.now length rest.now) }
{
    if (rest.len() as u64) < length {
        return Err(stop(start, CborKind::Short));
    }
    Ok(rest.split_at(length as usize))
}

/// The bytes as text, where they are UTF-8.
#[tactic(auto, using(crate::proofs::Texts::texts))]
fn utf8_of(bytes: &[u8]) -> Option<&str>
    ensures no { IfNone result (is_utf8 bytes.now ≡ false) }
    ensures yes { IfSome result (λ s. (is_utf8 bytes.now ≡ true) × (s.now ≡ bytes.now)) }
{
    match str::from_utf8(bytes) {
        Ok(text) => Some(text),
        Err(_) => None,
    }
}

/// Whether each byte is ASCII. This is the short way for a few bytes.
fn is_ascii(bytes: &[u8]) -> bool
    ensures { IsTrue result → IsAscii bytes.now }
{
    for byte in bytes {
        if *byte >= 0x80 {
            return false;
        }
    }
    true
}

/// Whether the bytes are UTF-8.
#[tactic(auto, using(crate::proofs::Texts::texts))]
fn is_text(bytes: &[u8]) -> bool
    ensures { result ≡ is_utf8 bytes.now }
{
    if bytes.len() <= 16 && is_ascii(bytes) {
        return true;
    }
    utf8_of(bytes).is_some()
}

/// The bytes of a text and those after it, behind the head that stands at `start`.
#[tactic(auto, unfolding(crate::specs::Skipping::text_at))]
pub fn text_octets_of<'a>(
    start: &'a [u8],
    length: u64,
    rest: &'a [u8],
) -> Result<(&'a [u8], &'a [u8]), Stop>
    ensures { Gives (λ x. (x.0.now, x.1.now)) result (text_at start.now length rest.now) }
{
    let (text, after) = octets_of(start, length, rest)?;
    if is_text(text) {
        Ok((text, after))
    } else {
        Err(stop(start, CborKind::NotUtf8))
    }
}

/// A text and the bytes after it, behind the head that stands at `start`.
#[tactic(auto, unfolding(crate::specs::Skipping::text_at))]
pub fn text_of<'a>(
    start: &'a [u8],
    length: u64,
    rest: &'a [u8],
) -> Result<(&'a str, &'a [u8]), Stop>
    ensures { Gives (λ x. (x.0.now, x.1.now)) result (text_at start.now length rest.now) }
{
    let (text, after) = octets_of(start, length, rest)?;
    match utf8_of(text) {
        Some(text) => Ok((text, after)),
        None => Err(stop(start, CborKind::NotUtf8)),
    }
}

/// The bytes after the break, where entries go on to a break and it stands here.
pub fn after_break(until_break: bool, bytes: &[u8]) -> Option<&[u8]>
    ensures goes_on { IfNone result ((until_break && begins_break bytes.now) ≡ false) }
    ensures ends { let here = (until_break && begins_break bytes.now) ≡ true in
        IfSome result (λ r. here × (r.now ≡ drop 1 bytes.now)) }
{
    match (until_break, bytes) {
        (true, [255, rest @ ..]) => Some(rest),
        _ => None,
    }
}

/// How many entries to try: the count, or one for each byte that is left, since no entry is empty.
pub fn turns_of(count: Option<u64>, bytes: &[u8]) -> u64
    ensures { result ≡ turns_at count bytes.now }
{
    match count {
        Some(count) => count,
        None => bytes.len() as u64,
    }
}

/// Whether a first byte is an item by itself, at any level: a number or a simple value in its low bits, or
/// an empty string.
#[inline(always)]
fn is_whole(first: u8) -> bool
    ensures { IsTrue result → (depth : ℕ) (rest : List ℕ) → skip_at depth (first ∷ rest) ≡ Ok rest }
{
    match first {
        0x00..=0x17 => true,
        0x20..=0x37 => true,
        0x40 => true,
        0x60 => true,
        0xe0..=0xf7 => true,
        _ => false,
    }
}

/// The bytes after the item, in which lists, maps and tags may stand `depth` deep.
#[cycle(skip)]
pub fn skip_item(depth: u8, bytes: &[u8]) -> Result<&[u8], Stop>
    ensures { Gives (λ x. x.now) result (skip_at depth bytes.now) }
{
    match bytes {
        [first, rest @ ..] if is_whole(*first) => Ok(rest),
        _ => skip_parts(depth, bytes),
    }
}

/// As `skip_item`, by the head and what it announces.
#[cycle(skip)]
#[tactic(auto, unfolding(crate::specs::Skipping::skip_at, crate::specs::Skipping::skips))]
fn skip_parts(depth: u8, bytes: &[u8]) -> Result<&[u8], Stop>
    ensures { Gives (λ x. x.now) result (skip_at depth bytes.now) }
{
    let (head, rest) = head_at(bytes)?;
    match head {
        Head::Unsigned(_) | Head::Negative(_) | Head::Bool(_) | Head::Null | Head::Other => {
            Ok(rest)
        }
        Head::Octets(length) => {
            let (_, after) = octets_of(bytes, length, rest)?;
            Ok(after)
        }
        Head::Text(length) => {
            let (_, after) = text_octets_of(bytes, length, rest)?;
            Ok(after)
        }
        Head::List(_) | Head::Map(_) | Head::Tag if depth == 0 => {
            Err(stop(bytes, CborKind::Deep))
        }
        Head::List(Some(0)) | Head::Map(Some(0)) => Ok(rest),
        Head::List(count) => skip_entries(depth - 1, false, count, rest),
        Head::Map(count) => skip_entries(depth - 1, true, count, rest),
        Head::Tag => skip_item(depth - 1, rest),
    }
}

/// The bytes after one entry: an item of a list, or a key and its value.
#[cycle(skip)]
fn skip_entry(depth: u8, pairs: bool, bytes: &[u8]) -> Result<&[u8], Stop>
    ensures { Gives (λ x. x.now) result (entry pairs (skip_at depth) bytes.now) }
{
    let rest = skip_item(depth, bytes)?;
    if pairs {
        skip_item(depth, rest)
    } else {
        Ok(rest)
    }
}

/// The bytes after the entries of a list or a map, and after the break that ends them where there is no count.
#[cycle(skip)]
#[tactic(auto, using(crate::proofs::Steps::steps), unfolding(crate::specs::Skipping::skips))]
fn skip_entries(depth: u8, pairs: bool, count: Option<u64>, bytes: &[u8]) -> Result<&[u8], Stop>
    ensures { Gives (λ x. x.now) result (skip_entries_at (skip_at depth) pairs count bytes.now) }
{
    let turns = turns_of(count, bytes);
    let mut rest = bytes;
    for _ in 0..turns {
        if let Some(after) = after_break(count.is_none(), rest) {
            return Ok(after);
        }
        rest = skip_entry(depth, pairs, rest)?;
    }
    if count.is_none() {
        return Err(stop(rest, CborKind::Short));
    }
    Ok(rest)
}
