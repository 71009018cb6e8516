//! Pairs of a key and a value, where there is a value.

ghost use Rattle.std.specs.Prelude.{◌≡◌, ◌+◌, ◌≤◌, ◌++◌, false, length, option_map};
ghost use Rattle.arrayvec.specs.ArrayVec.{array_vec_len};
ghost use Rattle.smp_model.specs.Table.{number as number_field, words, bytes as bytes_field, truth};
ghost use Rattle.smp_model.specs.Written.{unless_truth};
ghost use Rattle.smp_request.specs.Parts.{pair_bytes, one_if};

use arrayvec::ArrayVec;
use smp_header::{LARGEST_PACKET, PacketBuffer};
use smp_model::pair;

/// A key and a whole number, where there is one.
pub fn put_number(out: &mut PacketBuffer, key: &str, value: Option<u32>)
    requires { array_vec_len out.old + length (pair_bytes key.now (option_map number_field value))
        ≤ LARGEST_PACKET }
    ensures { out.new.items ≡ out.old.items ++ pair_bytes key.now (option_map number_field value) }
{
    if let Some(value) = value {
        pair::put_number(out, key, value);
    }
}

/// A key and a string of bytes, where there is one.
pub fn put_bytes(out: &mut PacketBuffer, key: &str, value: Option<&[u8]>)
    requires { array_vec_len out.old
        + length (pair_bytes key.now (option_map bytes_field (option_map (λ b. b.now) value)))
        ≤ LARGEST_PACKET }
    ensures { out.new.items
        ≡ out.old.items
        ++ pair_bytes key.now (option_map bytes_field (option_map (λ b. b.now) value.entry)) }
{
    if let Some(value) = value {
        pair::put_bytes(out, key, value);
    }
}

/// A key and a text, where there is one.
pub fn put_words(out: &mut PacketBuffer, key: &str, value: Option<&str>)
    requires { array_vec_len out.old
        + length (pair_bytes key.now (option_map words (option_map (λ t. t.now) value)))
        ≤ LARGEST_PACKET }
    ensures { out.new.items
        ≡ out.old.items
        ++ pair_bytes key.now (option_map words (option_map (λ t. t.now) value.entry)) }
{
    if let Some(value) = value {
        pair::put_words(out, key, value);
    }
}

/// A key and a truth value, where there is one.
pub fn put_truth(out: &mut PacketBuffer, key: &str, value: Option<bool>)
    requires { array_vec_len out.old + length (pair_bytes key.now (option_map truth value))
        ≤ LARGEST_PACKET }
    ensures { out.new.items ≡ out.old.items ++ pair_bytes key.now (option_map truth value) }
{
    if let Some(value) = value {
        pair::put_truth(out, key, value);
    }
}

/// The truth value, where it is true.
pub fn if_set(value: bool) -> Option<bool>
    ensures { option_map truth result ≡ unless_truth false value }
{
    if value { Some(true) } else { None }
}

/// How many pairs the value makes, 0 or 1.
pub fn count_number(value: Option<u32>) -> u16
    ensures { result ≡ one_if (option_map number_field value) }
{
    match value {
        None => 0,
        Some(_) => 1,
    }
}

/// How many pairs that is: one or none.
pub fn count_bytes(value: Option<&[u8]>) -> u16
    ensures { result ≡ one_if (option_map bytes_field (option_map (λ b. b.now) value.entry)) }
{
    match value {
        None => 0,
        Some(_) => 1,
    }
}

/// How many pairs that is: one or none.
pub fn count_words(value: Option<&str>) -> u16
    ensures { result ≡ one_if (option_map words (option_map (λ t. t.now) value.entry)) }
{
    match value {
        None => 0,
        Some(_) => 1,
    }
}

/// How many pairs that is: one or none.
pub fn count_truth(value: Option<bool>) -> u16
    ensures { result ≡ one_if (option_map truth value) }
{
    match value {
        None => 0,
        Some(_) => 1,
    }
}
