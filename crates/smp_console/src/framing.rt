// The text of a packet.
ghost use Rattle.std.specs.Prelude.{◌≡◌, ◌↔◌, ◌≤◌, ◌<◌, ◌*◌, ◌++◌, ◌==◌, ◌∷◌, [], List, ℕ, length, take, drop, OnOk};
ghost use Rattle.std.specs.Io.KnownBytes.{append_known};
ghost use Rattle.smp_edge.specs.Faults.{HasCause};
ghost use Rattle.smp_edge.specs.Sink.{AppendsFront};
ghost use Rattle.smp_line.specs.Line.{text_line, AreBytes};
ghost use Rattle.smp_console.specs.Lines.{unended};
ghost use Rattle.smp_console.specs.Frames.{frames, collection, whole};
ghost use Rattle.smp_console.specs.Framing.{frame, sent_bytes};

use arrayvec::ArrayVec;
use smp_edge::{Failed, Sink};
use smp_line::{crc_is_worked_out, crc16, text_has_no_newline, write_line, written_lines_are_read};

/// The bytes of a line that is written.
const PIECE: usize = 93;

/// Adds the bytes from a place on, as far as there is room.
fn add(piece: &mut ArrayVec<u8, 93>, bytes: &[u8], from: usize)
    ensures { piece.new.items ≡ take 93 (piece.old.items ++ drop from bytes.now) }
{
    let room = piece.remaining_capacity();
    if from < bytes.len() {
        let (_, left) = bytes.split_at(from);
        let _ = piece.try_extend_from_slice(&left[..room.min(left.len())]);
    }
}

/// The piece from a place on, of a number, a packet and its CRC.
fn fill(piece: &mut ArrayVec<u8, 93>, number: &[u8; 2], packet: &[u8], crc: &[u8; 2], from: usize)
    requires { length packet.now ≤ 2048 }
    ensures { piece.new.items ≡ take 93 (drop from (number.now ++ packet.now ++ crc.now)) }
{
    piece.clear();
    add(piece, number, from);
    add(piece, packet, from.saturating_sub(2));
    add(piece, crc, from.saturating_sub(2 + packet.len()));
}

/// Puts the line of a piece.
fn put_line<O: Sink>(out: &mut O, is_first: bool, piece: &[u8]) -> Result<(), Failed>
    requires { length piece.now ≤ 93 }
    ensures all { OnOk result
        (O.written out.new ≡ append_known (O.written out.old) (text_line is_first piece.now)) }
    ensures front { AppendsFront (O.written out.old) (O.written out.new) (text_line is_first piece.now) }
    ensures cause { HasCause (O.faults out.old) (O.faults out.new) result }
{
    let mut line = ArrayVec::new();
    write_line(&mut line, is_first, piece);
    out.put(line.as_slice())
}

/// Puts the text of a packet of at most 2048 bytes, line by line. It fails only where the sink does; some
/// front of the text was put then.
pub fn frame_packet<O: Sink>(out: &mut O, packet: &[u8]) -> Result<(), Failed>
    requires { length packet.now ≤ 2048 }
    ensures all { OnOk result
        (O.written out.new ≡ append_known (O.written out.old) (frame packet.now)) }
    ensures front { AppendsFront (O.written out.old) (O.written out.new) (frame packet.now) }
    ensures cause { HasCause (O.faults out.old) (O.faults out.new) result }
{
    let number = (packet.len() as u16 + 2).to_be_bytes();
    let crc = crc16(packet).to_be_bytes();
    let mut piece = ArrayVec::new();
    for i in 0..(packet.len() + 96) / PIECE {
        fill(&mut piece, &number, packet, &crc, PIECE * i);
        put_line(out, i == 0, piece.as_slice())?;
    }
    Ok(())
}

/// The text of a packet gives that packet alone, so what [`frame_packet`] writes is read back. The call
/// does nothing: it stands for the law.
pub fn frame_gives_its_packet()
    ensures { (packet : List ℕ) → length packet ≤ 2048 → AreBytes packet
        → frames (frame packet) ≡ packet ∷ [] }
{
    written_lines_are_read();
    text_has_no_newline();
    crc_is_worked_out();
}

/// Behind a text whose last line has ended, the text of a packet gives that packet as one more, and its
/// last line has ended. The call does nothing: it stands for the law.
pub fn frame_gives_one_more()
    ensures more { (text : List ℕ) (packet : List ℕ) → length packet ≤ 2048 → AreBytes packet
        → unended text ≡ [] → frames (text ++ frame packet) ≡ frames text ++ packet ∷ [] }
    ensures ended { (text : List ℕ) (packet : List ℕ) → length packet ≤ 2048 → AreBytes packet
        → unended text ≡ [] → unended (text ++ frame packet) ≡ [] }
{
    written_lines_are_read();
    text_has_no_newline();
    crc_is_worked_out();
}

/// Collected bytes are all those of a packet exactly where they are what it is sent as, and it has at
/// most 2048 bytes. The call does nothing: it stands for the law.
pub fn whole_is_what_is_sent()
    ensures exact { (bytes : List ℕ) (packet : List ℕ) → AreBytes bytes → AreBytes packet
        → length packet ≤ 2048 → (collection bytes ≡ whole packet) ↔ (bytes ≡ sent_bytes packet) }
    ensures fits { (bytes : List ℕ) (packet : List ℕ) → AreBytes bytes
        → collection bytes ≡ whole packet → length packet ≤ 2048 }
{
    written_lines_are_read();
    text_has_no_newline();
    crc_is_worked_out();
}
