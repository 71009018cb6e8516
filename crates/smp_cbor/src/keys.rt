//! The pairs of a map whose keys are texts, no two of them the same (RFC 8949, section 5.6).

ghost use Rattle.std.specs.Prelude.{◌≡◌, ◌≤◌, ◌∷◌, ◌++◌, ℕ, List, Ok, length, take, IfSome};
ghost use Rattle.smp_cbor.specs.Heads.{Gives, head_at as head_from};
ghost use Rattle.smp_cbor.specs.Skipping.{skip_at};
ghost use Rattle.smp_cbor.specs.Values.{key_at as key_from, first_keys, is_among, distinct_pairs, map_pairs};
ghost use Rattle.smp_cbor.specs.Walks.{texts_of, after_walk};

use crate::fault::{CborKind, Stop};
use crate::heads::Head;
use crate::skipping::{after_break, head_at, skip_item, stop, text_octets_of, turns_of};

/// The length of a text, where its first byte is its whole head.
#[inline(always)]
fn short_text(first: u8) -> Option<u64>
    ensures { IfSome result (λ length. (rest : List ℕ) → head_from (first ∷ rest) ≡ Ok (Head.Text length, rest)) }
{
    match first {
        0x60..=0x77 => Some(u64::from(first - 0x60)),
        _ => None,
    }
}

/// The bytes of a key, and those after it.
#[inline(always)]
pub fn key_at(bytes: &[u8]) -> Result<(&[u8], &[u8]), Stop>
    ensures { Gives (λ x. (x.0.now, x.1.now)) result (key_from bytes.now) }
{
    if let [first, rest @ ..] = bytes {
        if let Some(length) = short_text(*first) {
            return text_octets_of(bytes, length, rest);
        }
    }
    wide_key_at(bytes)
}

/// As `key_at`, for a head of any width.
#[tactic(auto, unfolding(crate::specs::Values::key_at))]
fn wide_key_at(bytes: &[u8]) -> Result<(&[u8], &[u8]), Stop>
    ensures { Gives (λ x. (x.0.now, x.1.now)) result (key_from bytes.now) }
{
    let (head, rest) = head_at(bytes)?;
    match head {
        Head::Text(length) => text_octets_of(bytes, length, rest),
        _ => Err(stop(bytes, CborKind::Key)),
    }
}

/// How a walk over pairs went.
enum Walk<'a> {
    /// The pairs end before these bytes.
    Ended(&'a [u8]),
    /// No further key could be kept: so many turns are left, from these bytes on.
    Full(u64, &'a [u8]),
}

/// How many keys of a map are kept at first: most maps have no more.
const FEW: usize = 8;

/// How many keys of a map are kept at most, on the stack. They take 5.4 KiB.
const MANY: usize = 344;

/// The bytes after the pairs, or the first fault. Each key is sought among those before it.
pub fn pairs_of(depth: u8, count: Option<u64>, bytes: &[u8]) -> Result<&[u8], Stop>
    ensures { Gives (λ x. x.now) result (map_pairs depth count bytes.now) }
{
    let mut kept: [&[u8]; FEW] = [b""; FEW];
    let until_break = count.is_none();
    match keep_keys(
        &mut kept,
        0,
        depth,
        until_break,
        turns_of(count, bytes),
        bytes,
    )? {
        Walk::Ended(rest) => Ok(rest),
        Walk::Full(turns, rest) => many_pairs(depth, until_break, &kept, turns, rest),
    }
}

/// The bytes after the pairs that follow some with the keys `seen`, or the first fault.
#[inline(never)]
fn many_pairs<'a>(
    depth: u8,
    until_break: bool,
    seen: &[&'a [u8]],
    turns: u64,
    bytes: &'a [u8],
) -> Result<&'a [u8], Stop>
    requires { length seen.now ≤ MANY }
    ensures { let pairs = distinct_pairs until_break (skip_at depth) (texts_of seen.now) turns bytes.now in
        Gives (λ x. x.now) result pairs }
{
    let mut kept: [&[u8]; MANY] = [b""; MANY];
    pairs_with(&mut kept, depth, until_break, seen, turns, bytes)
}

/// As `many_pairs`, with the place where keys are kept.
fn pairs_with<'a>(
    kept: &mut [&'a [u8]],
    depth: u8,
    until_break: bool,
    seen: &[&'a [u8]],
    turns: u64,
    bytes: &'a [u8],
) -> Result<&'a [u8], Stop>
    requires { length seen.now ≤ length kept.old }
    ensures { let pairs = distinct_pairs until_break (skip_at depth) (texts_of seen.now) turns bytes.now in
        Gives (λ x. x.now) result pairs }
{
    copy_front(kept, seen);
    match keep_keys(kept, seen.len(), depth, until_break, turns, bytes)? {
        Walk::Ended(rest) => Ok(rest),
        Walk::Full(turns, rest) => walked_pairs(depth, until_break, kept, turns, rest),
    }
}

/// Writes the keys in the first places.
fn copy_front<'a>(kept: &mut [&'a [u8]], keys: &[&'a [u8]])
    requires { length keys.now ≤ length kept.old }
    ensures { take (length keys.now) (texts_of kept.new) ≡ texts_of keys.now }
{
    for (i, key) in keys.iter().enumerate() {
        kept[i] = key;
    }
}

/// Walks over pairs and keeps their keys, behind the first `held` of `kept`. Each is sought among those
/// that are kept.
#[tactic(auto, using(crate::proofs::Steps::steps), unfolding(crate::specs::Values::distinct_pairs))]
fn keep_keys<'a>(
    kept: &mut [&'a [u8]],
    held: usize,
    depth: u8,
    until_break: bool,
    turns: u64,
    bytes: &'a [u8],
) -> Result<Walk<'a>, Stop>
    requires { held ≤ length kept.old }
    ensures { let seen = take held (texts_of kept.old) in
        after_walk until_break (skip_at depth) (texts_of kept.new) result
        ≡ distinct_pairs until_break (skip_at depth) seen turns bytes.now }
{
    let mut held = held;
    let mut rest = bytes;
    for turn in 0..turns {
        if let Some(after) = after_break(until_break, rest) {
            return Ok(Walk::Ended(after));
        }
        if held == kept.len() {
            return Ok(Walk::Full(turns - turn, rest));
        }
        let (key, after) = key_at(rest)?;
        if is_held(kept, held, key) {
            return Err(stop(rest, CborKind::Repeated));
        }
        rest = skip_item(depth, after)?;
        kept[held] = key;
        held += 1;
    }
    if until_break {
        return Err(stop(rest, CborKind::Short));
    }
    Ok(Walk::Ended(rest))
}

/// Whether the key is one of the first `held` that are kept.
#[tactic(auto, using(crate::proofs::Steps::kept))]
fn is_held(kept: &[&[u8]], held: usize, key: &[u8]) -> bool
    requires { held ≤ length kept.now }
    ensures { result ≡ is_among key.now (take held (texts_of kept.now)) }
{
    is_kept(&kept[..held], key)
}

/// Whether the key is one of those that are kept.
fn is_kept(kept: &[&[u8]], key: &[u8]) -> bool
    ensures { result ≡ is_among key.now (texts_of kept.now) }
{
    for other in kept {
        if *other == key {
            return true;
        }
    }
    false
}

/// As `many_pairs`, where no more keys can be kept: each is sought among those seen and in the bytes.
#[tactic(auto, using(crate::proofs::Steps::steps), unfolding(crate::specs::Values::distinct_pairs))]
fn walked_pairs<'a>(
    depth: u8,
    until_break: bool,
    seen: &[&'a [u8]],
    turns: u64,
    bytes: &'a [u8],
) -> Result<&'a [u8], Stop>
    ensures { let pairs = distinct_pairs until_break (skip_at depth) (texts_of seen.now) turns bytes.now in
        Gives (λ x. x.now) result pairs }
{
    let mut rest = bytes;
    for turn in 0..turns {
        if let Some(after) = after_break(until_break, rest) {
            return Ok(after);
        }
        let (key, after) = key_at(rest)?;
        if came_before(seen, depth, turn, bytes, key) {
            return Err(stop(rest, CborKind::Repeated));
        }
        rest = skip_item(depth, after)?;
    }
    if until_break {
        return Err(stop(rest, CborKind::Short));
    }
    Ok(rest)
}

/// Whether the key is one of those that are kept, or that of one of the first pairs.
#[tactic(auto, using(crate::proofs::Steps::among))]
fn came_before(kept: &[&[u8]], depth: u8, pairs: u64, bytes: &[u8], key: &[u8]) -> bool
    ensures { let before = first_keys (skip_at depth) pairs bytes.now in
        result ≡ is_among key.now (texts_of kept.now ++ before) }
{
    is_kept(kept, key) || has_key(depth, pairs, bytes, key)
}

/// Whether one of the first pairs has the key.
#[tactic(auto, using(crate::proofs::Steps::steps), unfolding(crate::specs::Values::first_keys))]
fn has_key(depth: u8, pairs: u64, bytes: &[u8], key: &[u8]) -> bool
    ensures { result ≡ is_among key.now (first_keys (skip_at depth) pairs bytes.now) }
{
    let mut rest = bytes;
    for _ in 0..pairs {
        let Ok((other, after)) = key_at(rest) else {
            return false;
        };
        if other == key {
            return true;
        }
        let Ok(next) = skip_item(depth, after) else {
            return false;
        };
        rest = next;
    }
    false
}
