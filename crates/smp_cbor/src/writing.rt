//! Writing: each call appends one head or one string, with a definite head of least width (RFC 8949, section 4.1).
//! The caller sees to the room, at most nine bytes for a head.

ghost use Rattle.std.specs.Prelude.{◌≡◌, ◌+◌, ◌<◌, ◌≤◌, ◌++◌, length};
ghost use Rattle.arrayvec.specs.ArrayVec.{array_vec_len};
ghost use Rattle.smp_cbor.specs.Shortest.{short_head, short_text, short_octets, short_bool};

use smp_header::{LARGEST_PACKET, PacketBuffer};

/// The head of a major type with its argument, in the least width.
#[tactic(auto, unfolding(crate::specs::Shortest::short_head))]
fn put_head(out: &mut PacketBuffer, major: u8, number: u64)
    requires major { major < 8 }
    requires room { array_vec_len out.old + length (short_head major number) ≤ LARGEST_PACKET }
    ensures { out.new.items ≡ out.old.items ++ short_head major number }
{
    let top = major * 32;
    if number < 24 {
        out.push(top + number as u8);
    } else if number < 256 {
        out.push(top + 24);
        out.push(number as u8);
    } else if number < 65536 {
        out.push(top + 25);
        put_bytes(out, &(number as u16).to_be_bytes());
    } else if number < 4294967296 {
        out.push(top + 26);
        put_bytes(out, &(number as u32).to_be_bytes());
    } else {
        out.push(top + 27);
        put_bytes(out, &number.to_be_bytes());
    }
}

/// The bytes as they are.
fn put_bytes(out: &mut PacketBuffer, bytes: &[u8])
    requires { array_vec_len out.old + length bytes.now ≤ LARGEST_PACKET }
    ensures { out.new.items ≡ out.old.items ++ bytes.now }
{
    let _ = out.try_extend_from_slice(bytes);
}

/// The head of a map of so many pairs: each key and its value are to be put after it.
pub fn put_map(out: &mut PacketBuffer, pairs: u16)
    requires { array_vec_len out.old + length (short_head 5 pairs) ≤ LARGEST_PACKET }
    ensures { out.new.items ≡ out.old.items ++ short_head 5 pairs }
{
    put_head(out, 5, u64::from(pairs));
}

/// The head of a list of so many items: they are to be put after it.
pub fn put_list(out: &mut PacketBuffer, items: u16)
    requires { array_vec_len out.old + length (short_head 4 items) ≤ LARGEST_PACKET }
    ensures { out.new.items ≡ out.old.items ++ short_head 4 items }
{
    put_head(out, 4, u64::from(items));
}

/// A text, with its head.
pub fn put_text(out: &mut PacketBuffer, text: &str)
    requires { array_vec_len out.old + length (short_text text.now) ≤ LARGEST_PACKET }
    ensures { out.new.items ≡ out.old.items ++ short_text text.now }
{
    put_head(out, 3, text.len() as u64);
    put_bytes(out, text.as_bytes());
}

/// A string of bytes, with its head.
pub fn put_octets(out: &mut PacketBuffer, bytes: &[u8])
    requires { array_vec_len out.old + length (short_octets bytes.now) ≤ LARGEST_PACKET }
    ensures { out.new.items ≡ out.old.items ++ short_octets bytes.now }
{
    put_head(out, 2, bytes.len() as u64);
    put_bytes(out, bytes);
}

/// A number from 0 on.
pub fn put_unsigned(out: &mut PacketBuffer, value: u64)
    requires { array_vec_len out.old + length (short_head 0 value) ≤ LARGEST_PACKET }
    ensures { out.new.items ≡ out.old.items ++ short_head 0 value }
{
    put_head(out, 0, value);
}

/// A truth value, in one byte.
pub fn put_bool(out: &mut PacketBuffer, value: bool)
    requires { array_vec_len out.old + 1 ≤ LARGEST_PACKET }
    ensures { out.new.items ≡ out.old.items ++ short_bool value }
{
    out.push(if value { 245 } else { 244 });
}
