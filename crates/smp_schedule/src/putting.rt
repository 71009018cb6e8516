// Bytes, fields and lines put into a sink.
ghost use Rattle.std.specs.Prelude.{◌≡◌, ◌≤◌, ◌∷◌, length, map};
ghost use Rattle.hex.specs.Hex.{encode_lower};
ghost use Rattle.smp_schedule.specs.Puts.{Puts};
ghost use Rattle.smp_schedule.specs.Written.{ended, line_of};

use smp_edge::{Failed, Sink};

/// The bytes whose hex is put at once.
const PIECE: usize = 64;

/// Puts some bytes.
pub fn put_bytes<O: Sink>(out: &mut O, bytes: &[u8]) -> Result<(), Failed>
    ensures { Puts (O.written out.old) (O.written out.new) (O.faults out.old) (O.faults out.new) result bytes.now }
{
    out.put(bytes)
}

/// Puts a field, with a space in front of it.
pub fn put_field<O: Sink>(out: &mut O, field: &[u8]) -> Result<(), Failed>
    ensures { Puts (O.written out.old) (O.written out.new) (O.faults out.old) (O.faults out.new) result (32 ∷ field.now) }
{
    put_bytes(out, b" ")?;
    put_bytes(out, field)
}

/// Puts the fields behind the first of a line, and ends it.
pub fn put_rest<O: Sink>(out: &mut O, fields: &[&[u8]]) -> Result<(), Failed>
    ensures { Puts (O.written out.old) (O.written out.new) (O.faults out.old) (O.faults out.new) result (ended (map (λ f. f.now) fields.now)) }
{
    for field in fields {
        put_field(out, field)?;
    }
    put_bytes(out, b"\n")
}

/// Puts a line of some fields.
pub fn put_line<O: Sink>(out: &mut O, first: &[u8], fields: &[&[u8]]) -> Result<(), Failed>
    ensures { Puts (O.written out.old) (O.written out.new) (O.faults out.old) (O.faults out.new) result (line_of (first.now ∷ map (λ f. f.now) fields.now)) }
{
    put_bytes(out, first)?;
    put_rest(out, fields)
}

/// Puts the hex of at most 64 bytes.
fn put_piece<O: Sink>(out: &mut O, digits: &mut [u8; 128], piece: &[u8]) -> Result<(), Failed>
    requires { length piece.now ≤ 64 }
    ensures { Puts (O.written out.old) (O.written out.new) (O.faults out.old) (O.faults out.new) result (encode_lower piece.now) }
{
    let (text, _) = digits.split_at_mut(2 * piece.len());
    let _ = hex::encode_to_slice(piece, text);
    put_bytes(out, text)
}

/// Puts bytes in hex.
pub fn put_hex<O: Sink>(out: &mut O, bytes: &[u8]) -> Result<(), Failed>
    ensures { Puts (O.written out.old) (O.written out.new) (O.faults out.old) (O.faults out.new) result (encode_lower bytes.now) }
{
    let mut digits = [0; 128];
    let mut rest = bytes;
    'pieces: while rest.len() > PIECE {
        let (piece, more) = rest.split_at(PIECE);
        put_piece(out, &mut digits, piece)?;
        rest = more;
    }
    put_piece(out, &mut digits, rest)
}
