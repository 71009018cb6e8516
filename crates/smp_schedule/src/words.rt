// The words of a schedule.
ghost use Rattle.std.specs.Prelude.{◌≡◌, ◌<◌, ◌≤◌, ◌^◌, ℕ, Some, IfOk, IfSome};
ghost use Rattle.std.specs.Str.{is_utf8, bytes_eq};
ghost use Rattle.std.specs.List.{list_all};
ghost use Rattle.std.specs.Fmt.{decimal};
ghost use Rattle.smp_schedule.specs.Words.{is_plain, is_word, name_in, word_in, number_in, hex_in, is_number, region_in, region_among, first_regions, second_regions, region_word, kind_in, left_in, ending_in};

use hex::FromHexError;
use itoa::Buffer;
use smp_edge::Octets;
use smp_flash::{ArmKind, Left, Region};
use smp_model::Ending;
use std::alloc::{AllocError, Global};
use std::str;

/// Whether the byte is no control character.
fn is_plain(byte: u8) -> bool
    ensures { result ≡ is_plain byte }
{
    byte >= 0x20 && byte != 0x7f
}

/// Whether no byte is a control character.
fn is_all_plain(bytes: &[u8]) -> bool
    ensures { result ≡ list_all is_plain bytes.now }
{
    bytes.iter().all(|byte| is_plain(*byte))
}

/// Whether the bytes are text.
#[tactic(auto, using(crate::proofs::Texts::is_text, crate::proofs::Texts::is_no_text))]
fn is_text(bytes: &[u8]) -> bool
    ensures { result ≡ is_utf8 bytes.now }
{
    str::from_utf8(bytes).is_ok()
}

/// Whether the bytes are a word: at least one byte, text, and no control characters.
pub fn is_word(bytes: &[u8]) -> bool
    ensures { result ≡ is_word bytes.now }
{
    !bytes.is_empty() && is_text(bytes) && is_all_plain(bytes)
}

/// A copy of a word of at most so many bytes.
pub fn read_name(alloc: Global, most: usize, bytes: &[u8]) -> Result<Option<Octets>, AllocError>
    ensures { IfOk result (λ name. name ≡ name_in most bytes.now) }
{
    if bytes.len() > most || !is_word(bytes) {
        return Ok(None);
    }
    Ok(Some(Octets::from_slice(alloc, bytes)?))
}

/// A copy of a word.
pub fn read_word(alloc: Global, bytes: &[u8]) -> Result<Option<Octets>, AllocError>
    ensures { IfOk result (λ word. word ≡ word_in bytes.now) }
{
    if !is_word(bytes) {
        return Ok(None);
    }
    Ok(Some(Octets::from_slice(alloc, bytes)?))
}

/// The number that digits spell, where it has 32 bits. A sign and leading zeros are let through.
#[tactic(auto, using(crate::proofs::Numbers::decimal_is_text, crate::proofs::Numbers::decimal_is_read))]
fn parse_number(bytes: &[u8]) -> Option<u32>
    ensures { (n : ℕ) → n < 2 ^ 32 → bytes.now ≡ decimal n → result ≡ Some n }
{
    let Ok(text) = str::from_utf8(bytes) else {
        return None;
    };
    match text.parse::<u32>() {
        Ok(number) => Some(number),
        Err(_) => None,
    }
}

/// Whether the bytes are the decimal of this number.
fn is_decimal(number: u32, bytes: &[u8]) -> bool
    ensures { result ≡ bytes_eq (decimal number) bytes.now }
{
    let mut buffer = Buffer::new();
    buffer.format(number).as_bytes() == bytes
}

/// Whether the bytes are the decimal of this number, and it lies from `low` to `high`.
fn is_number(low: u32, high: u32, number: u32, bytes: &[u8]) -> bool
    ensures { result ≡ is_number low high number bytes.now }
{
    is_decimal(number, bytes) && low <= number && number <= high
}

/// The number from `low` to `high` that a word spells.
pub fn read_number(low: u32, high: u32, bytes: &[u8]) -> Option<u32>
    ensures number { result ≡ number_in low high bytes.now }
    ensures bounds { IfSome result (λ n. (low ≤ n) × (n ≤ high)) }
{
    let number = parse_number(bytes)?;
    if is_number(low, high, number, bytes) {
        Some(number)
    } else {
        None
    }
}

/// The same of small numbers.
pub fn read_small(low: u8, high: u8, bytes: &[u8]) -> Option<u8>
    ensures { result ≡ number_in low high bytes.now }
{
    match read_number(u32::from(low), u32::from(high), bytes) {
        Some(number) => Some(number as u8),
        None => None,
    }
}

/// The bytes that hex digits in either case spell, of this count.
pub fn read_hex(
    alloc: Global,
    low: usize,
    high: usize,
    digits: &[u8],
) -> Result<Option<Octets>, AllocError>
    ensures { IfOk result (λ bytes. bytes ≡ hex_in low high digits.now) }
{
    match hex::decode(alloc, digits) {
        Ok(bytes) if low <= bytes.len() && bytes.len() <= high => Ok(Some(Octets::from_vec(bytes))),
        Err(FromHexError::OutOfMemory) => Err(AllocError),
        _ => Ok(None),
    }
}

/// The word of a region.
pub fn region_word(region: Region) -> &'static str
    ensures { result.now ≡ region_word region }
{
    match region {
        Region::Any => "any",
        Region::Slot0 => "slot0",
        Region::Slot1 => "slot1",
        Region::Progress => "progress",
        Region::Scratch => "scratch",
        Region::Settings => "settings",
        Region::ProgressGate => "progress-gate",
        Region::SettingsGate => "settings-gate",
        Region::Slot2 => "slot2",
        Region::Slot3 => "slot3",
        Region::Progress2 => "progress2",
        Region::Progress2Gate => "progress2-gate",
        Region::Scratch2 => "scratch2",
    }
}

/// Whether the bytes are the word of the region.
fn is_region(bytes: &[u8], region: Region) -> bool
    ensures { result ≡ bytes_eq bytes.now (region_word region) }
{
    bytes == region_word(region).as_bytes()
}

/// The region of a word, of those of image 0 and of both.
fn read_first_region(bytes: &[u8]) -> Option<Region>
    ensures { result ≡ region_among first_regions bytes.now }
{
    if is_region(bytes, Region::Any) {
        return Some(Region::Any);
    }
    if is_region(bytes, Region::Slot0) {
        return Some(Region::Slot0);
    }
    if is_region(bytes, Region::Slot1) {
        return Some(Region::Slot1);
    }
    if is_region(bytes, Region::Progress) {
        return Some(Region::Progress);
    }
    if is_region(bytes, Region::Scratch) {
        return Some(Region::Scratch);
    }
    if is_region(bytes, Region::Settings) {
        return Some(Region::Settings);
    }
    if is_region(bytes, Region::ProgressGate) {
        return Some(Region::ProgressGate);
    }
    if is_region(bytes, Region::SettingsGate) {
        return Some(Region::SettingsGate);
    }
    None
}

/// The region of a word, of those of image 1.
fn read_second_region(bytes: &[u8]) -> Option<Region>
    ensures { result ≡ region_among second_regions bytes.now }
{
    if is_region(bytes, Region::Slot2) {
        return Some(Region::Slot2);
    }
    if is_region(bytes, Region::Slot3) {
        return Some(Region::Slot3);
    }
    if is_region(bytes, Region::Progress2) {
        return Some(Region::Progress2);
    }
    if is_region(bytes, Region::Progress2Gate) {
        return Some(Region::Progress2Gate);
    }
    if is_region(bytes, Region::Scratch2) {
        return Some(Region::Scratch2);
    }
    None
}

/// The region of a word.
pub fn read_region(bytes: &[u8]) -> Option<Region>
    ensures { result ≡ region_in bytes.now }
{
    match read_first_region(bytes) {
        Some(region) => Some(region),
        None => read_second_region(bytes),
    }
}

/// The kind of trouble of a word.
pub fn read_kind(bytes: &[u8]) -> Option<ArmKind>
    ensures { result ≡ kind_in bytes.now }
{
    if bytes == b"cut".as_slice() {
        return Some(ArmKind::Cut);
    }
    if bytes == b"fail".as_slice() {
        return Some(ArmKind::Fail);
    }
    if bytes == b"read".as_slice() {
        return Some(ArmKind::Read);
    }
    None
}

/// What a struck operation leaves, by its word.
pub fn read_left(bytes: &[u8]) -> Option<Left>
    ensures { result ≡ left_in bytes.now }
{
    if bytes == b"none".as_slice() {
        return Some(Left::Nothing);
    }
    if bytes == b"all".as_slice() {
        return Some(Left::Whole);
    }
    match read_number(0, u32::MAX, bytes) {
        Some(seed) => Some(Left::Seed(seed)),
        None => None,
    }
}

/// The ending of a word.
pub fn read_ending(bytes: &[u8]) -> Option<Ending>
    ensures { result ≡ ending_in bytes.now }
{
    if bytes == b"only".as_slice() {
        return Some(Ending::Only);
    }
    if bytes == b"test".as_slice() {
        return Some(Ending::Test);
    }
    if bytes == b"confirm".as_slice() {
        return Some(Ending::Confirm);
    }
    None
}
