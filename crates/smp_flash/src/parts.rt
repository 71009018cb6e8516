// What an operation leaves in a part of the bytes.
ghost use Rattle.std.specs.Prelude.{◌≡◌, ◌+◌, ◌≤◌, ◌^◌, length, nat_le, if◌then◌else◌};
ghost use Rattle.smp_flash.specs.Area.{AreBytes, area, blank, spot, Keeps, Holds, Fades, Erased};
ghost use Rattle.smp_flash.specs.Arm.{left_written, left_erased};
ghost use Rattle.smp_flash.specs.Remains.{next, noise, faded_by};

use crate::arm::Left;

/// The next number.
fn next_of(x: u32) -> u32
    ensures { result ≡ next x }
{
    x.wrapping_mul(1664525).wrapping_add(1013904223)
}

/// The byte, or an erased one where the top bit of the number is 1.
fn faded_byte(x: u32, byte: u8) -> u8
    ensures { result ≡ (if nat_le (2 ^ 31) x then 255 else byte) }
{
    if x >= 0x8000_0000 { 0xff } else { byte }
}

/// Writes a number's bytes into the part.
pub fn scramble(part: &mut [u8], seed: u32)
    ensures { part.new ≡ noise seed (length part.old) }
{
    let mut x = seed;
    for byte in part.iter_mut() {
        x = next_of(x);
        *byte = (x / 0x0100_0000) as u8;
    }
}

/// Erases the bytes that a number names.
pub fn fade(part: &mut [u8], seed: u32)
    ensures { part.new ≡ faded_by seed part.old }
{
    let mut x = seed;
    for byte in part.iter_mut() {
        x = next_of(x);
        *byte = faded_byte(x, *byte);
    }
}

/// Erases the part.
pub fn clear(part: &mut [u8])
    ensures { part.new ≡ blank (length part.old) }
{
    part.fill(0xff);
}

/// Writes the bytes at this place.
pub fn put(held: &mut [u8], at: usize, bytes: &[u8])
    requires { at + length bytes.now ≤ length held.old }
    ensures holds { Holds at bytes.now held.old held.new }
    ensures bytes { AreBytes held.new }
{
    held[at..at + bytes.len()].copy_from_slice(bytes);
}

/// What a write that is struck leaves.
pub fn put_in_part(held: &mut [u8], at: usize, bytes: &[u8], left: Left)
    requires { at + length bytes.now ≤ length held.old }
    ensures keeps { Keeps (spot at (length bytes.now)) held.old held.new }
    ensures bytes { AreBytes held.new }
    ensures left { area at (length bytes.now) held.new ≡ left_written left (area at (length bytes.now) held.old) bytes.now }
{
    match left {
        Left::Nothing => (),
        Left::Whole => held[at..at + bytes.len()].copy_from_slice(bytes),
        Left::Seed(seed) => scramble(&mut held[at..at + bytes.len()], seed),
    }
}

/// Erases the bytes of a page.
pub fn wipe(held: &mut [u8], at: usize, size: usize)
    requires { at + size ≤ length held.old }
    ensures erased { Erased at size held.old held.new }
    ensures bytes { AreBytes held.new }
{
    clear(&mut held[at..at + size]);
}

/// What an erase that is struck leaves.
pub fn wipe_in_part(held: &mut [u8], at: usize, size: usize, left: Left)
    requires { at + size ≤ length held.old }
    ensures fades { Fades at size held.old held.new }
    ensures bytes { AreBytes held.new }
    ensures left { area at size held.new ≡ left_erased left (area at size held.old) }
{
    match left {
        Left::Nothing => {}
        Left::Whole => clear(&mut held[at..at + size]),
        Left::Seed(seed) => fade(&mut held[at..at + size], seed),
    }
}
