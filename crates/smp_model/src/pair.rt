//! Pairs of a key and a value, as they are written into a map.

ghost use Rattle.std.specs.Prelude.{◌≡◌, ◌+◌, ◌≤◌, ◌++◌, length};
ghost use Rattle.arrayvec.specs.ArrayVec.{array_vec_len};
ghost use Rattle.smp_cbor.specs.Shortest.{short_head, short_text, short_octets, short_bool};

use arrayvec::ArrayVec;
use smp_cbor::{put_bool, put_octets, put_text, put_unsigned};
use smp_header::{LARGEST_PACKET, PacketBuffer};

/// A key and a whole number.
pub fn put_number(out: &mut PacketBuffer, key: &str, value: u32)
    requires { array_vec_len out.old + length (short_text key.now ++ short_head 0 value)
        ≤ LARGEST_PACKET }
    ensures { out.new.items ≡ out.old.items ++ (short_text key.now ++ short_head 0 value) }
{
    put_text(out, key);
    put_unsigned(out, u64::from(value));
}

/// A key and a string of bytes.
pub fn put_bytes(out: &mut PacketBuffer, key: &str, value: &[u8])
    requires { array_vec_len out.old + length (short_text key.now ++ short_octets value.now)
        ≤ LARGEST_PACKET }
    ensures { out.new.items ≡ out.old.items ++ (short_text key.now ++ short_octets value.now) }
{
    put_text(out, key);
    put_octets(out, value);
}

/// A key and a text.
pub fn put_words(out: &mut PacketBuffer, key: &str, value: &str)
    requires { array_vec_len out.old + length (short_text key.now ++ short_text value.now)
        ≤ LARGEST_PACKET }
    ensures { out.new.items ≡ out.old.items ++ (short_text key.now ++ short_text value.now) }
{
    put_text(out, key);
    put_text(out, value);
}

/// A key and a truth value.
pub fn put_truth(out: &mut PacketBuffer, key: &str, value: bool)
    requires { array_vec_len out.old + length (short_text key.now ++ short_bool value)
        ≤ LARGEST_PACKET }
    ensures { out.new.items ≡ out.old.items ++ (short_text key.now ++ short_bool value) }
{
    put_text(out, key);
    put_bool(out, value);
}
