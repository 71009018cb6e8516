// A job from its words.
ghost use Rattle.std.specs.Prelude.{◌≡◌, ◌<◌, ◌∷◌, length, IfOk, MatchOption};
ghost use Rattle.smp_schedule.specs.Words.{word_in, ending_in, name_in};
ghost use Rattle.smp_schedule.specs.Jobs.{chunk_in, upload_with, upload_in, list_in, value_in, pair_in, pairs_in, set_with, set_in, put_with, put_in, get_in, echo_in, job_by, job_in};

use crate::job::JobWords;
use crate::words::{read_ending, read_hex, read_name, read_number, read_word};
use smp_edge::Octets;
use smp_model::{Pairs, Setting};
use std::alloc::{AllocError, Global};

/// The most settings of a job.
const MOST_PAIRS: usize = 254;

fn upload_of(
    alloc: Global,
    file: &[u8],
    chunk: &[u8],
    ending: &[u8],
    image: Option<u32>,
) -> Result<Option<JobWords>, AllocError>
    ensures { IfOk result (λ job. job ≡ upload_with image (chunk_in chunk.now) (ending_in ending.now) (word_in file.now)) }
{
    let Some(image) = image else {
        return Ok(None);
    };
    let Some(chunk) = read_number(32, 1900, chunk) else {
        return Ok(None);
    };
    let Some(ending) = read_ending(ending) else {
        return Ok(None);
    };
    match read_word(alloc, file)? {
        Some(file) => Ok(Some(JobWords::Upload {
            image,
            file,
            chunk,
            ending,
        })),
        None => Ok(None),
    }
}

fn read_upload(alloc: Global, fields: &[Octets]) -> Result<Option<JobWords>, AllocError>
    ensures { IfOk result (λ job. job ≡ upload_in fields.now) }
{
    match fields {
        [file, chunk, ending] => upload_of(
            alloc,
            file.as_slice(),
            chunk.as_slice(),
            ending.as_slice(),
            Some(0),
        ),
        [file, chunk, ending, image] => upload_of(
            alloc,
            file.as_slice(),
            chunk.as_slice(),
            ending.as_slice(),
            read_number(1, 1, image.as_slice()),
        ),
        _ => Ok(None),
    }
}

fn read_value(alloc: Global, bytes: &[u8]) -> Result<Option<Octets>, AllocError>
    ensures { IfOk result (λ val. val ≡ value_in bytes.now) }
{
    if bytes == b"-".as_slice() {
        return Ok(Some(Octets::from_slice(alloc, &[])?));
    }
    read_hex(alloc, 1, 128, bytes)
}

fn read_pair(alloc: Global, name: &[u8], val: &[u8]) -> Result<Option<Setting>, AllocError>
    ensures { IfOk result (λ pair. pair ≡ pair_in (name_in 32 name.now) (value_in val.now)) }
{
    let Some(name) = read_name(alloc, 32, name)? else {
        return Ok(None);
    };
    match read_value(alloc, val)? {
        Some(val) => Ok(Some(Setting { name, val })),
        None => Ok(None),
    }
}

/// The first two words, and those behind them.
fn next_two(words: &[Octets]) -> Option<(&Octets, &Octets, &[Octets])>
    ensures { MatchOption result (length words.now < 2) (λ x. words.now ≡ x.0.now ∷ x.1.now ∷ x.2.now) }
{
    let (name, rest) = words.split_first()?;
    let (val, more) = rest.split_first()?;
    Some((name, val, more))
}

fn read_pairs(alloc: Global, fields: &[Octets]) -> Result<Option<Pairs>, AllocError>
    ensures { IfOk result (λ pairs. pairs ≡ pairs_in fields.now) }
{
    let mut pairs = Pairs::new(alloc);
    let mut rest = fields;
    'pairs: while let Some((name, val, more)) = next_two(rest) {
        let Some(pair) = read_pair(alloc, name.as_slice(), val.as_slice())? else {
            return Ok(None);
        };
        pairs.push(pair)?;
        rest = more;
    }
    if rest.is_empty() {
        Ok(Some(pairs))
    } else {
        Ok(None)
    }
}

fn set_of(pairs: Pairs) -> Option<JobWords>
    ensures { result ≡ set_with pairs }
{
    let count = pairs.as_slice().len();
    if count == 0 || count > MOST_PAIRS {
        return None;
    }
    Some(JobWords::Set(pairs))
}

fn read_set(alloc: Global, fields: &[Octets]) -> Result<Option<JobWords>, AllocError>
    ensures { IfOk result (λ job. job ≡ set_in fields.now) }
{
    match read_pairs(alloc, fields)? {
        Some(pairs) => Ok(set_of(pairs)),
        None => Ok(None),
    }
}

fn put_of(alloc: Global, file: &[u8], name: &[u8]) -> Result<Option<JobWords>, AllocError>
    ensures { IfOk result (λ job. job ≡ put_with (word_in file.now) (name_in 64 name.now)) }
{
    let Some(file) = read_word(alloc, file)? else {
        return Ok(None);
    };
    match read_name(alloc, 64, name)? {
        Some(name) => Ok(Some(JobWords::Put { file, name })),
        None => Ok(None),
    }
}

fn read_put(alloc: Global, fields: &[Octets]) -> Result<Option<JobWords>, AllocError>
    ensures { IfOk result (λ job. job ≡ put_in fields.now) }
{
    match fields {
        [file, name] => put_of(alloc, file.as_slice(), name.as_slice()),
        _ => Ok(None),
    }
}

fn read_get(alloc: Global, fields: &[Octets]) -> Result<Option<JobWords>, AllocError>
    ensures { IfOk result (λ job. job ≡ get_in fields.now) }
{
    match fields {
        [name] => match read_name(alloc, 64, name.as_slice())? {
            Some(name) => Ok(Some(JobWords::Get { name })),
            None => Ok(None),
        },
        _ => Ok(None),
    }
}

fn read_echo(alloc: Global, fields: &[Octets]) -> Result<Option<JobWords>, AllocError>
    ensures { IfOk result (λ job. job ≡ echo_in fields.now) }
{
    match fields {
        [text] => match read_name(alloc, 1024, text.as_slice())? {
            Some(text) => Ok(Some(JobWords::Echo { text })),
            None => Ok(None),
        },
        _ => Ok(None),
    }
}

fn read_list(fields: &[Octets]) -> Option<JobWords>
    ensures { result ≡ list_in fields.now }
{
    match fields {
        [] => Some(JobWords::List),
        _ => None,
    }
}

/// A job by its first word.
fn job_of(alloc: Global, word: &[u8], fields: &[Octets]) -> Result<Option<JobWords>, AllocError>
    ensures { IfOk result (λ job. job ≡ job_by word.now fields.now) }
{
    if word == b"upload".as_slice() {
        return read_upload(alloc, fields);
    }
    if word == b"list".as_slice() {
        return Ok(read_list(fields));
    }
    if word == b"set".as_slice() {
        return read_set(alloc, fields);
    }
    if word == b"put".as_slice() {
        return read_put(alloc, fields);
    }
    if word == b"get".as_slice() {
        return read_get(alloc, fields);
    }
    if word == b"echo".as_slice() {
        return read_echo(alloc, fields);
    }
    Ok(None)
}

/// The job that some words spell, as a schedule and a command line give them: None where they spell none. Within a command
/// line a word may have spaces.
pub fn read_job(alloc: Global, words: &[Octets]) -> Result<Option<JobWords>, AllocError>
    ensures { IfOk result (λ job. job ≡ job_in words.now) }
{
    match words {
        [] => Ok(None),
        [word, fields @ ..] => job_of(alloc, word.as_slice(), fields),
    }
}
