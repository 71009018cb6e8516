// The lines of a schedule, put into a sink.
ghost use Rattle.std.specs.Prelude.{◌≡◌, ◌∷◌, [], OnOk};
ghost use Rattle.std.specs.Io.KnownBytes.{append_known};
ghost use Rattle.smp_edge.specs.Faults.{HasCause};
ghost use Rattle.smp_edge.specs.Sink.{AppendsFront};
ghost use Rattle.smp_schedule.specs.declared.event.Event.TheVariants as events;
ghost use Rattle.smp_schedule.specs.Puts.{Puts};
ghost use Rattle.smp_schedule.specs.Words.{kind_word};
ghost use Rattle.smp_schedule.specs.Written.{line_of, which_word, left_word, event_words, flash_words, event_lines, flash_text, schedule_text};

use crate::event::{Event, Which};
use crate::flash_line::FlashLine;
use crate::job_writing::put_client;
use crate::putting::{put_bytes, put_hex, put_line};
use crate::schedule::Schedule;
use crate::words::region_word;
use itoa::Buffer;
use smp_edge::{Failed, Sink};
use smp_flash::{Arm, ArmKind, Left};

fn put_raw<O: Sink>(out: &mut O, bytes: &[u8]) -> Result<(), Failed>
    ensures { Puts (O.written out.old) (O.written out.new) (O.faults out.old) (O.faults out.new) result (line_of (event_words (events.Raw bytes.now))) }
{
    put_bytes(out, b"raw ")?;
    put_hex(out, bytes)?;
    put_bytes(out, b"\n")
}

/// Puts the line of a packet or reply.
fn put_which<O: Sink>(out: &mut O, first: &[u8], which: Which) -> Result<(), Failed>
    ensures { Puts (O.written out.old) (O.written out.new) (O.faults out.old) (O.faults out.new) result (line_of (first.now ∷ which_word which ∷ [])) }
{
    match which {
        Which::New => put_line(out, first, &[b"new"]),
        Which::Number(number) => {
            let mut buffer = Buffer::new();
            put_line(out, first, &[buffer.format(number).as_bytes()])
        }
    }
}

fn put_quiet<O: Sink>(out: &mut O, number: u8) -> Result<(), Failed>
    ensures { Puts (O.written out.old) (O.written out.new) (O.faults out.old) (O.faults out.new) result (line_of (event_words (events.Quiet number))) }
{
    let mut buffer = Buffer::new();
    put_line(out, b"quiet", &[buffer.format(number).as_bytes()])
}

fn kind_word(kind: ArmKind) -> &'static str
    ensures { result.now ≡ kind_word kind }
{
    match kind {
        ArmKind::Cut => "cut",
        ArmKind::Fail => "fail",
        ArmKind::Read => "read",
    }
}

/// The word of what a struck operation leaves; a number is laid into the buffer.
fn left_word(buffer: &mut Buffer, left: Left) -> &str
    ensures { result.now ≡ left_word left }
{
    match left {
        Left::Nothing => "none",
        Left::Whole => "all",
        Left::Seed(seed) => buffer.format(seed),
    }
}

fn put_armed<O: Sink>(out: &mut O, arm: &Arm) -> Result<(), Failed>
    ensures { Puts (O.written out.old) (O.written out.new) (O.faults out.old) (O.faults out.new) result (line_of (event_words (events.Armed arm.now))) }
{
    let kind = kind_word(arm.kind).as_bytes();
    let region = region_word(arm.region).as_bytes();
    let mut number = Buffer::new();
    let after = number.format(arm.after).as_bytes();
    if arm.kind == ArmKind::Read {
        return put_line(out, b"arm", &[kind, region, after]);
    }
    let mut seed = Buffer::new();
    let left = left_word(&mut seed, arm.left).as_bytes();
    put_line(out, b"arm", &[kind, region, after, left])
}

fn put_event<O: Sink>(out: &mut O, event: &Event) -> Result<(), Failed>
    ensures { Puts (O.written out.old) (O.written out.new) (O.faults out.old) (O.faults out.new) result (line_of (event_words event.now)) }
{
    match event {
        Event::Client { number, job } => put_client(out, *number, job),
        Event::Raw(bytes) => put_raw(out, bytes.as_slice()),
        Event::Up(which) => put_which(out, b"up", *which),
        Event::Down(which) => put_which(out, b"down", *which),
        Event::Quiet(number) => put_quiet(out, *number),
        Event::Armed(arm) => put_armed(out, arm),
        Event::Boot => put_line(out, b"boot", &[]),
    }
}

/// Puts the lines of these events.
fn put_events<O: Sink>(out: &mut O, events: &[Event]) -> Result<(), Failed>
    ensures { Puts (O.written out.old) (O.written out.new) (O.faults out.old) (O.faults out.new) result (event_lines events.now) }
{
    for event in events {
        put_event(out, event)?;
    }
    Ok(())
}

fn put_flash<O: Sink>(out: &mut O, flash: &FlashLine) -> Result<(), Failed>
    ensures { Puts (O.written out.old) (O.written out.new) (O.faults out.old) (O.faults out.new) result (line_of (flash_words flash.now)) }
{
    let (mut first, mut second, mut third) = (Buffer::new(), Buffer::new(), Buffer::new());
    let page = first.format(flash.geometry.page).as_bytes();
    let unit = second.format(flash.geometry.unit).as_bytes();
    let pages = third.format(flash.geometry.slot_pages).as_bytes();
    let image = flash.image.as_slice();
    match &flash.second {
        None => put_line(out, b"flash", &[page, unit, pages, image]),
        Some(second) => {
            let second = second.as_slice();
            put_line(out, b"flash", &[page, unit, pages, image, second])
        }
    }
}

/// Puts the flash line, where there is one.
fn put_flash_line<O: Sink>(out: &mut O, schedule: &Schedule) -> Result<(), Failed>
    ensures { Puts (O.written out.old) (O.written out.new) (O.faults out.old) (O.faults out.new) result (flash_text schedule.now.flash) }
{
    match schedule.flash() {
        Some(flash) => put_flash(out, flash),
        None => Ok(()),
    }
}

/// Writes a schedule as text: a line for each event, with hex in lower case and no lines that are skipped. It puts each field
/// by itself, so a sink that gathers them serves best. It fails only where the sink does; some front of the text was put
/// then. A lawful schedule is read back from its text ([`written_is_read`](crate::written_is_read)).
pub fn write_schedule<O: Sink>(out: &mut O, schedule: &Schedule) -> Result<(), Failed>
    ensures all { OnOk result (O.written out.new ≡ append_known (O.written out.old) (schedule_text schedule.now)) }
    ensures front { AppendsFront (O.written out.old) (O.written out.new) (schedule_text schedule.now) }
    ensures cause { HasCause (O.faults out.old) (O.faults out.new) result }
{
    put_flash_line(out, schedule)?;
    put_events(out, schedule.events())
}
