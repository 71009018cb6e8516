// A line of the console, from its bytes.
ghost use Rattle.std.specs.Prelude.{◌≡◌, ◌≤◌, length, []};
ghost use Rattle.smp_line.specs.Line.{text_line};

use arrayvec::ArrayVec;
use base64::engine::general_purpose::STANDARD;

/// Writes the line for at most 93 bytes, with its newline: the first line of a packet, or one that
/// continues it. `out` is empty before.
pub fn write_line(out: &mut ArrayVec<u8, 127>, first: bool, bytes: &[u8])
    requires empty { out.old.items ≡ [] }
    requires fits { length bytes.now ≤ 93 }
    ensures { out.new.items ≡ text_line first bytes.now }
{
    let mut text = [0u8; 124];
    let marker = if first { [6, 9] } else { [4, 20] };
    let Ok(count) = STANDARD.encode_slice(bytes, &mut text) else {
        unreachable!();
    };
    let _ = out.try_extend_from_slice(&marker);
    let _ = out.try_extend_from_slice(&text[..count]);
    out.push(b'\n');
}
