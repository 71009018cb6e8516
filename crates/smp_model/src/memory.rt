//! What is so of whatever lies in memory. The calls do nothing: each stands for a law that holds by the type of its argument.

ghost use Rattle.std.specs.Prelude.{◌≡◌, ◌<◌, ◌^◌, length};
ghost use Rattle.smp_cbor.specs.Shortest.{IsText};

/// A text is UTF-8, and its length fits the head of a string.
pub fn texts_are_utf8(_text: &str)
    ensures { IsText _text.now }
{}

/// The length of bytes fits the head of a string.
pub fn bytes_are_counted(_bytes: &[u8])
    ensures { length _bytes.now < 2 ^ 64 }
{}

/// A hash has 32 bytes.
pub fn hashes_have_32_bytes(_hash: &[u8; 32])
    ensures { length _hash.now ≡ 32 }
{}
