// A client's line, put into a sink.
ghost use Rattle.std.specs.Prelude.{◌≡◌, ◌∷◌, ◌++◌, [], codes, map};
ghost use Rattle.std.specs.Fmt.{decimal};
ghost use Rattle.smp_schedule.specs.declared.event.Event.TheVariants as events;
ghost use Rattle.smp_schedule.specs.declared.job.JobWords.TheVariants as jobs;
ghost use Rattle.smp_schedule.specs.Puts.{Puts};
ghost use Rattle.smp_schedule.specs.Words.{ending_word};
ghost use Rattle.smp_schedule.specs.Written.{client_start, ended, image_words, line_of, value_word, pair_words, event_words};

use crate::job::JobWords;
use crate::putting::{put_bytes, put_field, put_hex, put_rest};
use itoa::Buffer;
use smp_edge::{Failed, Sink};
use smp_model::{Ending, Setting};

fn ending_word(ending: Ending) -> &'static str
    ensures { result.now ≡ ending_word ending }
{
    match ending {
        Ending::Only => "only",
        Ending::Test => "test",
        Ending::Confirm => "confirm",
    }
}

/// Puts a number, with a space in front of it.
fn put_number<O: Sink>(out: &mut O, number: u8) -> Result<(), Failed>
    ensures { Puts (O.written out.old) (O.written out.new) (O.faults out.old) (O.faults out.new) result (32 ∷ decimal number) }
{
    let mut buffer = Buffer::new();
    put_field(out, buffer.format(number).as_bytes())
}

/// Puts the front of a client's line, as far as the first word of its job.
fn put_start<O: Sink>(out: &mut O, number: u8, job: &[u8]) -> Result<(), Failed>
    ensures { Puts (O.written out.old) (O.written out.new) (O.faults out.old) (O.faults out.new) result (client_start number job.now) }
{
    put_bytes(out, b"client")?;
    put_number(out, number)?;
    put_field(out, job)
}

/// Puts the line of a client with this number, whose job has these words.
fn put_job<O: Sink>(out: &mut O, number: u8, job: &[u8], words: &[&[u8]]) -> Result<(), Failed>
    ensures { Puts (O.written out.old) (O.written out.new) (O.faults out.old) (O.faults out.new) result
        (line_of (codes "client" ∷ decimal number ∷ job.now ∷ map (λ w. w.now) words.now)) }
{
    put_start(out, number, job)?;
    put_rest(out, words)
}

/// Puts the words of an upload behind its file, and ends the line.
fn put_parts<O: Sink>(out: &mut O, chunk: u32, ending: Ending, image: u32) -> Result<(), Failed>
    ensures { Puts (O.written out.old) (O.written out.new) (O.faults out.old) (O.faults out.new) result (ended (decimal chunk ∷ ending_word ending ∷ image_words image)) }
{
    let (mut first, mut second) = (Buffer::new(), Buffer::new());
    let chunk = first.format(chunk).as_bytes();
    let ending = ending_word(ending).as_bytes();
    if image == 0 {
        return put_rest(out, &[chunk, ending]);
    }
    put_rest(out, &[chunk, ending, second.format(image).as_bytes()])
}

fn put_upload<O: Sink>(
    out: &mut O,
    number: u8,
    image: u32,
    file: &[u8],
    chunk: u32,
    ending: Ending,
) -> Result<(), Failed>
    ensures { Puts (O.written out.old) (O.written out.new) (O.faults out.old) (O.faults out.new) result
        (line_of (event_words (events.Client number (jobs.Upload image file.now chunk ending)))) }
{
    put_start(out, number, b"upload")?;
    put_field(out, file)?;
    put_parts(out, chunk, ending, image)
}

/// Puts a value in hex, with a space in front of it.
fn put_value<O: Sink>(out: &mut O, val: &[u8]) -> Result<(), Failed>
    ensures { Puts (O.written out.old) (O.written out.new) (O.faults out.old) (O.faults out.new) result (32 ∷ value_word val.now) }
{
    if val.is_empty() {
        return put_bytes(out, b" -");
    }
    put_bytes(out, b" ")?;
    put_hex(out, val)
}

/// Puts a name and a value, each with a space in front of it.
fn put_setting<O: Sink>(out: &mut O, name: &[u8], val: &[u8]) -> Result<(), Failed>
    ensures { Puts (O.written out.old) (O.written out.new) (O.faults out.old) (O.faults out.new) result ((32 ∷ name.now) ++ (32 ∷ value_word val.now)) }
{
    put_field(out, name)?;
    put_value(out, val)
}

fn put_pair<O: Sink>(out: &mut O, pair: &Setting) -> Result<(), Failed>
    ensures { Puts (O.written out.old) (O.written out.new) (O.faults out.old) (O.faults out.new) result ((32 ∷ pair.now.name) ++ (32 ∷ value_word pair.now.val)) }
{
    put_setting(out, pair.name.as_slice(), pair.val.as_slice())
}

/// Puts settings, and ends the line.
fn put_pairs<O: Sink>(out: &mut O, pairs: &[Setting]) -> Result<(), Failed>
    ensures { Puts (O.written out.old) (O.written out.new) (O.faults out.old) (O.faults out.new) result (ended (pair_words pairs.now)) }
{
    for pair in pairs {
        put_pair(out, pair)?;
    }
    put_bytes(out, b"\n")
}

fn put_set<O: Sink>(out: &mut O, number: u8, pairs: &[Setting]) -> Result<(), Failed>
    ensures { Puts (O.written out.old) (O.written out.new) (O.faults out.old) (O.faults out.new) result
        (line_of (event_words (events.Client number (jobs.Set pairs.now)))) }
{
    put_start(out, number, b"set")?;
    put_pairs(out, pairs)
}

/// Puts the line of a client with this number and job.
pub fn put_client<O: Sink>(out: &mut O, number: u8, job: &JobWords) -> Result<(), Failed>
    ensures { Puts (O.written out.old) (O.written out.new) (O.faults out.old) (O.faults out.new) result (line_of (event_words (events.Client number job.now))) }
{
    match job {
        JobWords::Upload {
            image,
            file,
            chunk,
            ending,
        } => put_upload(out, number, *image, file.as_slice(), *chunk, *ending),
        JobWords::List => put_job(out, number, b"list", &[]),
        JobWords::Set(pairs) => put_set(out, number, pairs.as_slice()),
        JobWords::Put { file, name } => {
            put_job(out, number, b"put", &[file.as_slice(), name.as_slice()])
        }
        JobWords::Get { name } => put_job(out, number, b"get", &[name.as_slice()]),
        JobWords::Echo { text } => put_job(out, number, b"echo", &[text.as_slice()]),
    }
}
