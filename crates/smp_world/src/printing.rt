//! The lines of a transcript.

ghost use Rattle.std.specs.Prelude.{◌≡◌, ◌*◌, ◌≤◌, ◌++◌, if◌then◌else◌, codes, length, OnOk};
ghost use Rattle.std.specs.Fmt.{decimal};
ghost use Rattle.hex.specs.Hex.{encode_lower};
ghost use Rattle.smp_world.specs.Lines as lines;
ghost use Rattle.smp_world.specs.Lines.{digest_text, fate_text, last_text, pending_text, refused_text};
ghost use Rattle.smp_world.specs.Spelling.{announced_text, booted_text, first_shown, second_shown, shown_text};
ghost use Rattle.smp_world.specs.Worlds.{PutsDid, PutsEnd, PutsLine, PutsMove, did_of, end_of, move_told, raw_told, up_told};

use crate::machine::Fate;
use itoa::Buffer;
use smp_device::Shown;
use smp_edge::{Block, Failed, Sink};
use smp_jobs::{JobEnd, JobMove};
use smp_model::{Announcement, Mark};

/// So many bytes are spelled at once.
const PIECE: usize = 64;

/// Puts a number in decimal.
fn put_number(text: &mut Block, number: usize) -> Result<(), Failed>
    ensures { OnOk result (text.new.held ≡ text.old.held ++ decimal number) }
{
    let mut buffer = Buffer::new();
    text.put(buffer.format(number).as_bytes())
}

/// Puts a few bytes in hex.
fn put_piece(text: &mut Block, bytes: &[u8]) -> Result<(), Failed>
    requires { length bytes.now ≤ 64 }
    ensures { OnOk result (text.new.held ≡ text.old.held ++ encode_lower bytes.now) }
{
    let mut digits = [0; 128];
    let (spelled, _) = digits.split_at_mut(2 * bytes.len());
    let _ = hex::encode_to_slice(bytes, spelled);
    text.put(spelled)
}

/// Puts bytes in hex.
#[tactic(auto, using(crate::proofs::HexPieces::goes_on))]
fn put_hex(text: &mut Block, bytes: &[u8]) -> Result<(), Failed>
    ensures { OnOk result (text.new.held ≡ text.old.held ++ encode_lower bytes.now) }
{
    let mut rest = bytes;
    'pieces: while !rest.is_empty() {
        let size = if rest.len() < PIECE {
            rest.len()
        } else {
            PIECE
        };
        let (piece, after) = rest.split_at(size);
        put_piece(text, piece)?;
        rest = after;
    }
    Ok(())
}

/// Puts a word and a number.
fn put_named(text: &mut Block, word: &[u8], number: usize) -> Result<(), Failed>
    ensures { OnOk result (text.new.held ≡ text.old.held ++ word.now ++ decimal number) }
{
    text.put(word)?;
    put_number(text, number)
}

/// Puts a word and a number: the beginning of a line.
fn put_start(text: &mut Block, word: &[u8], number: usize) -> Result<(), Failed>
    ensures { OnOk result (text.new.held ≡ text.old.held ++ word.now ++ decimal number ++ codes " ") }
{
    text.put(word)?;
    put_number(text, number)?;
    text.put(b" ")
}

/// Puts why a job was refused: by an error of the protocol.
fn put_protocol_error(text: &mut Block, number: u32) -> Result<(), Failed>
    ensures { OnOk result (text.new.held ≡ text.old.held ++ (codes "refused smp " ++ decimal number)) }
{
    put_named(text, b"refused smp ", number as usize)
}

/// Puts why a job was refused: by an error of a group.
fn put_group_error(text: &mut Block, group: u16, number: u32) -> Result<(), Failed>
    ensures { OnOk result (text.new.held ≡ text.old.held ++ (codes "refused " ++ decimal group ++ codes " " ++ decimal number)) }
{
    put_start(text, b"refused ", usize::from(group))?;
    put_number(text, number as usize)
}

/// Puts why a job was refused.
fn put_reason(text: &mut Block, group: Option<u16>, number: u32) -> Result<(), Failed>
    ensures { OnOk result (text.new.held ≡ text.old.held ++ refused_text group number) }
{
    match group {
        Some(group) => put_group_error(text, group, number),
        None => put_protocol_error(text, number),
    }
}

/// Puts that a job was refused.
fn put_refused(text: &mut Block, group: Option<u16>, number: u32) -> Result<(), Failed>
    ensures { OnOk result (text.new.held ≡ text.old.held ++ codes "failed " ++ refused_text group number) }
{
    text.put(b"failed ")?;
    put_reason(text, group, number)
}

/// Puts how a job ended that is not done: of one that had no memory nothing, since it fails then.
fn put_end(text: &mut Block, end: JobEnd) -> Result<(), Failed>
    ensures { OnOk result (PutsEnd (end_of end) text.old.held text.new.held) }
{
    match end {
        JobEnd::NoAnswer => text.put(b"failed no-answer"),
        JobEnd::Mismatch => text.put(b"failed mismatch"),
        JobEnd::Stalled => text.put(b"failed stalled"),
        JobEnd::Refused { group, number } => put_refused(text, group, number),
        JobEnd::OutOfMemory => Err(Failed),
    }
}

/// Puts a move of a client, which may have sent the packet of this number.
fn put_did(text: &mut Block, made: JobMove, number: usize) -> Result<(), Failed>
    ensures { OnOk result (PutsDid (did_of made number) text.old.held text.new.held) }
{
    match made {
        JobMove::Send => put_named(text, b"send ", number),
        JobMove::Wait => text.put(b"wait"),
        JobMove::Over => text.put(b"over"),
        JobMove::Done => text.put(b"done"),
        JobMove::Failed(end) => put_end(text, end),
    }
}

/// Puts a client's move, or that there is none.
fn put_move(text: &mut Block, made: Option<JobMove>, number: usize) -> Result<(), Failed>
    ensures { OnOk result (PutsDid (move_told made number) text.old.held text.new.held) }
{
    match made {
        None => text.put(b"none"),
        Some(made) => put_did(text, made, number),
    }
}

/// Puts the line of a reply that came to its client.
pub fn put_down(
    text: &mut Block,
    reply: usize,
    made: Option<JobMove>,
    number: usize,
) -> Result<(), Failed>
    ensures { OnOk result (PutsMove (lines.down reply) (move_told made number) text.old.held text.new.held) }
{
    put_start(text, b"down ", reply)?;
    put_move(text, made, number)?;
    text.put(b"\n")
}

/// Puts the line of a wait of a client that ended.
pub fn put_quiet(
    text: &mut Block,
    client: usize,
    made: Option<JobMove>,
    number: usize,
) -> Result<(), Failed>
    ensures { OnOk result (PutsMove (lines.quiet client) (move_told made number) text.old.held text.new.held) }
{
    put_start(text, b"quiet ", client)?;
    put_move(text, made, number)?;
    text.put(b"\n")
}

/// Puts the line of a client that began.
pub fn put_begun(text: &mut Block, client: usize, number: usize) -> Result<(), Failed>
    ensures { OnOk result (PutsLine (lines.client_sends client number) text.old.held text.new.held) }
{
    put_start(text, b"client ", client)?;
    put_named(text, b"send ", number)?;
    text.put(b"\n")
}

/// Puts what came of raw bytes, which may have been answered by these.
fn put_raw_fate(text: &mut Block, fate: Fate, reply: &[u8]) -> Result<(), Failed>
    ensures { OnOk result (text.new.held ≡ text.old.held ++ fate_text (raw_told fate reply.now)) }
{
    match fate {
        Fate::Replied | Fate::Reset => put_hex(text, reply),
        Fate::Dropped => text.put(b"dropped"),
        Fate::Down => text.put(b"down"),
        Fate::Cut => text.put(b"cut"),
    }
}

/// Puts the line of raw bytes.
pub fn put_raw(text: &mut Block, fate: Fate, reply: &[u8]) -> Result<(), Failed>
    ensures { OnOk result (PutsLine (lines.raw (raw_told fate reply.now)) text.old.held text.new.held) }
{
    text.put(b"raw ")?;
    put_raw_fate(text, fate, reply)?;
    text.put(b"\n")
}

/// Puts a reply with its number.
fn put_reply(text: &mut Block, number: usize, reply: &[u8]) -> Result<(), Failed>
    ensures { OnOk result (text.new.held ≡ text.old.held ++ codes "reply " ++ decimal number ++ codes " " ++ encode_lower reply.now) }
{
    put_start(text, b"reply ", number)?;
    put_hex(text, reply)
}

/// Puts what came of a client's packet.
fn put_up_fate(text: &mut Block, fate: Fate, number: usize, reply: &[u8]) -> Result<(), Failed>
    ensures { OnOk result (text.new.held ≡ text.old.held ++ fate_text (up_told fate number reply.now)) }
{
    match fate {
        Fate::Replied | Fate::Reset => put_reply(text, number, reply),
        Fate::Dropped => text.put(b"dropped"),
        Fate::Down => text.put(b"down"),
        Fate::Cut => text.put(b"cut"),
    }
}

/// Puts the line of a client's packet.
pub fn put_up(
    text: &mut Block,
    packet: usize,
    fate: Fate,
    number: usize,
    reply: &[u8],
) -> Result<(), Failed>
    ensures { OnOk result (PutsLine (lines.up packet (up_told fate number reply.now)) text.old.held text.new.held) }
{
    put_start(text, b"up ", packet)?;
    put_up_fate(text, fate, number, reply)?;
    text.put(b"\n")
}

/// Puts the line of a packet that there is not.
pub fn put_up_missing(text: &mut Block, packet: usize) -> Result<(), Failed>
    ensures { OnOk result (PutsLine (lines.up packet lines.missing) text.old.held text.new.held) }
{
    put_start(text, b"up ", packet)?;
    text.put(b"none\n")
}

/// Puts the line of an arm.
pub fn put_armed(text: &mut Block) -> Result<(), Failed>
    ensures { OnOk result (PutsLine lines.armed text.old.held text.new.held) }
{
    text.put(b"arm\n")
}

/// Puts the last line.
pub fn put_last(text: &mut Block, packets: usize, replies: usize, jobs: usize) -> Result<(), Failed>
    ensures { OnOk result (text.new.held ≡ text.old.held ++ last_text packets replies jobs) }
{
    put_named(text, b"end sent ", packets)?;
    put_named(text, b" answered ", replies)?;
    put_named(text, b" done ", jobs)?;
    text.put(b"\n")
}

/// Puts how many bytes there are of so many.
fn put_part(text: &mut Block, part: u32, whole: u32) -> Result<(), Failed>
    ensures { OnOk result (text.new.held ≡ text.old.held ++ decimal part ++ codes "/" ++ decimal whole) }
{
    put_number(text, part as usize)?;
    text.put(b"/")?;
    put_number(text, whole as usize)
}

/// Puts a digest, or `-`.
fn put_digest(text: &mut Block, digest: &Option<[u8; 32]>) -> Result<(), Failed>
    ensures { OnOk result (text.new.held ≡ text.old.held ++ codes "/" ++ digest_text digest.now) }
{
    text.put(b"/")?;
    match digest {
        Some(digest) => put_hex(text, digest),
        None => text.put(b"-"),
    }
}

/// Puts an upload: what was accepted, the length, and the digest or `-`.
fn put_upload(text: &mut Block, upload: &Option<(Announcement, u32)>) -> Result<(), Failed>
    ensures { OnOk result (text.new.held ≡ text.old.held ++ codes "upload " ++ announced_text upload.now) }
{
    text.put(b"upload ")?;
    match upload {
        None => text.put(b"none"),
        Some((announcement, offset)) => {
            put_part(text, *offset, announcement.length)?;
            put_digest(text, &announcement.digest)
        }
    }
}

/// The word for what is pending.
fn pending_word(pending: Option<Mark>) -> &'static [u8]
    ensures { result.now ≡ pending_text pending }
{
    match pending {
        None => b"none",
        Some(Mark::Test) => b"test",
        Some(Mark::Permanent) => b"permanent",
    }
}

/// Puts what is pending.
fn put_pending(text: &mut Block, pending: Option<Mark>) -> Result<(), Failed>
    ensures { OnOk result (text.new.held ≡ text.old.held ++ codes " pending " ++ pending_text pending) }
{
    text.put(b" pending ")?;
    text.put(pending_word(pending))
}

/// Puts whether an image is confirmed.
fn put_confirmed(text: &mut Block, confirmed: bool) -> Result<(), Failed>
    ensures { OnOk result (text.new.held ≡ text.old.held ++ codes " confirmed " ++ (if confirmed then codes "yes" else codes "no")) }
{
    if confirmed {
        return text.put(b" confirmed yes");
    }
    text.put(b" confirmed no")
}

/// Puts what a device shows of an image.
fn put_shown(text: &mut Block, shown: &Shown) -> Result<(), Failed>
    ensures { OnOk result (text.new.held ≡ text.old.held ++ shown_text shown.now) }
{
    put_upload(text, &shown.upload)?;
    put_pending(text, shown.pending)?;
    put_confirmed(text, shown.confirmed)
}

/// Puts the first image, where it is shown.
fn put_first(text: &mut Block, shown: &Option<Shown>) -> Result<(), Failed>
    ensures { OnOk result (text.new.held ≡ text.old.held ++ first_shown shown.now) }
{
    match shown {
        Some(shown) => put_shown(text, shown),
        None => Ok(()),
    }
}

/// Puts a further image, where there is one.
fn put_second(text: &mut Block, shown: &Option<Shown>) -> Result<(), Failed>
    ensures { OnOk result (text.new.held ≡ text.old.held ++ second_shown shown.now) }
{
    match shown {
        Some(shown) => {
            text.put(b" ")?;
            put_shown(text, shown)
        }
        None => Ok(()),
    }
}

/// Puts what was saved, and ends the line.
fn put_saved(text: &mut Block, form: &[u8]) -> Result<(), Failed>
    ensures { OnOk result (text.new.held ≡ text.old.held ++ codes " saved " ++ encode_lower form.now ++ codes "\n") }
{
    text.put(b" saved ")?;
    put_hex(text, form)?;
    text.put(b"\n")
}

/// Puts the line of a boot after which the device is up.
pub fn put_booted(
    text: &mut Block,
    first: &Option<Shown>,
    second: &Option<Shown>,
    form: &[u8],
) -> Result<(), Failed>
    ensures { OnOk result (text.new.held ≡ text.old.held ++ booted_text first.now second.now form.now) }
{
    text.put(b"boot ")?;
    put_first(text, first)?;
    put_second(text, second)?;
    put_saved(text, form)
}

/// Puts the line of a boot that was cut.
pub fn put_boot_cut(text: &mut Block) -> Result<(), Failed>
    ensures { OnOk result (PutsLine lines.boot_cut text.old.held text.new.held) }
{
    text.put(b"boot cut\n")
}

/// Puts the line of a boot in which the flash failed.
pub fn put_boot_fault(text: &mut Block) -> Result<(), Failed>
    ensures { OnOk result (PutsLine lines.boot_fault text.old.held text.new.held) }
{
    text.put(b"boot fault\n")
}
