//! Heads: the first byte of an item and its argument (RFC 8949, section 3).

ghost use Rattle.std.specs.Prelude.{◌≡◌, ◌<◌};
ghost use Rattle.std.specs.Int.{w16, w32, w64};
ghost use Rattle.smp_cbor.specs.Heads.{Gives, byte_at, number_at, argument_at, simple_at, head_at, named as named_head};

use crate::fault::CborKind;

/// What a head says. A list or map without a count goes on to a break; a tag's number is not kept.
#[derive(Clone, Copy, Debug, PartialEq, Eq)]
pub enum Head {
    Unsigned(u64),
    Negative(u64),
    Octets(u64),
    Text(u64),
    List(Option<u64>),
    Map(Option<u64>),
    Tag,
    Bool(bool),
    Null,
    Other,
}

/// The number in the next byte, and the bytes after it.
#[inline(always)]
fn u8_at(bytes: &[u8]) -> Result<(u64, &[u8]), CborKind>
    ensures { Gives (λ x. (x.0, x.1.now)) result (byte_at bytes.now) }
{
    match bytes {
        [] => Err(CborKind::Short),
        [first, rest @ ..] => Ok((u64::from(*first), rest)),
    }
}

/// The number in the next 2 bytes.
#[inline(always)]
fn u16_at(bytes: &[u8]) -> Result<(u64, &[u8]), CborKind>
    ensures { Gives (λ x. (x.0, x.1.now)) result (number_at w16 bytes.now) }
{
    if bytes.len() < 2 {
        return Err(CborKind::Short);
    }
    let (front, rest) = bytes.split_at(2);
    Ok((u64::from(u16::from_be_bytes([front[0], front[1]])), rest))
}

/// The number in the next 4 bytes.
#[inline(always)]
fn u32_at(bytes: &[u8]) -> Result<(u64, &[u8]), CborKind>
    ensures { Gives (λ x. (x.0, x.1.now)) result (number_at w32 bytes.now) }
{
    if bytes.len() < 4 {
        return Err(CborKind::Short);
    }
    let (front, rest) = bytes.split_at(4);
    let number = u32::from_be_bytes([front[0], front[1], front[2], front[3]]);
    Ok((u64::from(number), rest))
}

/// The number in the next 8 bytes.
#[inline(always)]
fn u64_at(bytes: &[u8]) -> Result<(u64, &[u8]), CborKind>
    ensures { Gives (λ x. (x.0, x.1.now)) result (number_at w64 bytes.now) }
{
    if bytes.len() < 8 {
        return Err(CborKind::Short);
    }
    let (front, rest) = bytes.split_at(8);
    let number = u64::from_be_bytes([
        front[0], front[1], front[2], front[3], front[4], front[5], front[6], front[7],
    ]);
    Ok((number, rest))
}

/// The argument: what the low five bits of a first byte, with the bytes after it, give.
#[inline(always)]
#[tactic(auto, unfolding(crate::specs::Heads::argument_at))]
fn number_of(low: u8, bytes: &[u8]) -> Result<(u64, &[u8]), CborKind>
    ensures { Gives (λ x. (x.0, x.1.now)) result (argument_at low bytes.now) }
{
    match low {
        0..=23 => Ok((u64::from(low), bytes)),
        24 => u8_at(bytes),
        25 => u16_at(bytes),
        26 => u32_at(bytes),
        27 => u64_at(bytes),
        _ => Err(CborKind::Head),
    }
}

/// A head of major type 7 (RFC 8949, section 3.3).
#[inline(always)]
#[tactic(auto, unfolding(crate::specs::Heads::simple_at))]
fn simple_of(low: u8, bytes: &[u8]) -> Result<(Head, &[u8]), CborKind>
    ensures { Gives (λ x. (x.0, x.1.now)) result (simple_at low bytes.now) }
{
    match low {
        20 => Ok((Head::Bool(false), bytes)),
        21 => Ok((Head::Bool(true), bytes)),
        22 => Ok((Head::Null, bytes)),
        _ => {
            let (number, rest) = number_of(low, bytes)?;
            if low == 24 && number < 32 {
                return Err(CborKind::Head);
            }
            Ok((Head::Other, rest))
        }
    }
}

/// The head at the front, and the bytes after it.
#[inline(always)]
#[tactic(auto, unfolding(crate::specs::Heads::head_at))]
pub fn head_of(bytes: &[u8]) -> Result<(Head, &[u8]), CborKind>
    ensures { Gives (λ x. (x.0, x.1.now)) result (head_at bytes.now) }
{
    match bytes {
        [] => Err(CborKind::Short),
        [first, rest @ ..] => {
            let low = *first % 32;
            let major = *first / 32;
            if major == 7 {
                return simple_of(low, rest);
            }
            if low == 31 && major == 4 {
                return Ok((Head::List(None), rest));
            }
            if low == 31 && major == 5 {
                return Ok((Head::Map(None), rest));
            }
            let (number, after) = number_of(low, rest)?;
            Ok((named(major, number), after))
        }
    }
}

/// The head of a major type below 7, with its argument.
#[inline(always)]
fn named(major: u8, number: u64) -> Head
    ensures { result ≡ named_head major number }
{
    match major {
        0 => Head::Unsigned(number),
        1 => Head::Negative(number),
        2 => Head::Octets(number),
        3 => Head::Text(number),
        4 => Head::List(Some(number)),
        5 => Head::Map(Some(number)),
        _ => Head::Tag,
    }
}
