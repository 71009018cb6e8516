// What a job asks for, and what it prints.
ghost use Rattle.std.specs.Prelude.{◌≡◌, ◌≤◌, ◌+◌, ◌++◌, None, List, [], ◌∷◌, codes, OnOk, OnErr};
ghost use Rattle.std.specs.Fmt.{decimal};
ghost use Rattle.smp_model.specs.Meant.{Meant, meant_of};
ghost use Rattle.smp_request.specs.Room.{strings_of};
ghost use Rattle.smp_reply.specs.Told.{Told, told_of};
ghost use Rattle.smp_jobs.specs.Jobs.{first_of, next, next_of_one, most_packets};
ghost use Rattle.smp_jobs.specs.Results.{result as result_of, listed, echoed};
ghost use Rattle.smp_jobs.specs.Tasks.{job_of, progress_in, progress_of, said, Fits, OnAsk, AsksAgain, CanTake, IsGet, requests_left};

use crate::list_text::write_images;
use crate::step::Step;
use crate::task::Task;
use crate::{gets, puts, sets, uploads};
use itoa::Buffer;
use smp_model::Request;
use smp_reply::Answer;
use std::alloc::{AllocError, Global};
use std::mem;

/// What a job that asks once does after an answer.
fn after_one<'a>(answer: &Answer<'_>) -> Step<'a>
    ensures next { (asked : Meant) (earlier : List Told) → said result ≡ next_of_one asked (told_of answer.now ∷ earlier) }
    ensures fits { Fits result }
    ensures last { OnAsk result ⊥ }
{
    match answer {
        Answer::Refused { group, number } => Step::Refused {
            group: *group,
            number: *number,
        },
        _ => Step::Done,
    }
}

/// What a job asks for first.
pub fn first(task: &Task) -> Request<'_>
    requires { progress_in task.now ≡ progress_of (job_of task.now) [] }
    ensures first { meant_of result ≡ first_of (job_of task.now) }
    ensures fits { strings_of (meant_of result) ≤ 1978 }
{
    match task {
        Task::Upload(upload) => uploads::start(upload),
        Task::List => Request::ImageList,
        Task::Set(set) => sets::first(set),
        Task::Put(put) => puts::start(put),
        Task::Get(get) => gets::read(get),
        Task::Echo(echo) => Request::Echo(echo.text.as_str()),
    }
}

/// Takes an answer: it counts, or its part is held.
pub fn take(task: &mut Task, answer: &Answer<'_>) -> Result<(), AllocError>
    requires { CanTake task.old }
    ensures job { job_of task.new ≡ job_of task.old }
    ensures progress { OnOk result ((earlier : List Told) → progress_in task.old ≡ progress_of (job_of task.old) earlier
        → progress_in task.new ≡ progress_of (job_of task.old) (told_of answer.now ∷ earlier)) }
    ensures memory { OnErr result (IsGet (job_of task.old)) }
    ensures requests { AsksAgain task.new → most_packets (job_of task.old) ≡ None → requests_left task.new + 1 ≤ requests_left task.old }
{
    match task {
        Task::Set(set) => {
            sets::count(set);
            Ok(())
        }
        Task::Get(get) => gets::take(get, answer),
        _ => Ok(()),
    }
}

/// What a job does next, after an answer that is taken already.
pub fn next<'a>(task: &'a Task, answer: &Answer<'_>) -> Step<'a>
    ensures next { (earlier : List Told) → progress_in task.now ≡ progress_of (job_of task.now) (told_of answer.now ∷ earlier)
        → said result ≡ next (job_of task.now) (told_of answer.now ∷ earlier) }
    ensures fits { Fits result }
    ensures more { OnAsk result (AsksAgain task.now) }
{
    match task {
        Task::Upload(upload) => uploads::next(upload, answer),
        Task::Set(set) => sets::next(set, answer),
        Task::Put(put) => puts::next(put, answer),
        Task::Get(get) => gets::next(get, answer),
        Task::List => after_one(answer),
        Task::Echo(_) => after_one(answer),
    }
}

/// A text and a number, on a line.
fn write_count(out: &mut Vec<u8>, word: &[u8], count: usize) -> Result<(), AllocError>
    ensures { OnOk result (out.new.items ≡ out.old.items ++ (word.now ++ codes " " ++ decimal count ++ codes "\n")) }
{
    let mut buffer = Buffer::new();
    out.extend_from_slice(word)?;
    out.extend_from_slice(b" ")?;
    out.extend_from_slice(buffer.format(count).as_bytes())?;
    out.extend_from_slice(b"\n")?;
    Ok(())
}

/// The text that was echoed, on a line.
fn write_echo(out: &mut Vec<u8>, answer: &Answer<'_>) -> Result<(), AllocError>
    requires { out.old.items ≡ [] }
    ensures { OnOk result ((earlier : List Told) → out.new.items ≡ echoed (told_of answer.now ∷ earlier)) }
{
    match answer {
        Answer::Echo(text) => {
            out.extend_from_slice(text.as_bytes())?;
            out.extend_from_slice(b"\n")?;
            Ok(())
        }
        _ => Ok(()),
    }
}

/// The images that were listed.
fn write_list(alloc: Global, out: &mut Vec<u8>, answer: &Answer<'_>) -> Result<(), AllocError>
    requires { out.old.items ≡ [] }
    ensures { OnOk result ((earlier : List Told) → out.new.items ≡ listed (told_of answer.now ∷ earlier)) }
{
    match answer {
        Answer::Images(list) => write_images(alloc, out, *list),
        _ => Ok(()),
    }
}

/// What a job that is done prints, by its last answer, which is taken already. What it got is moved there.
pub fn print(
    alloc: Global,
    task: &mut Task,
    answer: &Answer<'_>,
    out: &mut Vec<u8>,
) -> Result<(), AllocError>
    requires { out.old.items ≡ [] }
    ensures job { job_of task.new ≡ job_of task.old }
    ensures printed { OnOk result ((earlier : List Told) → progress_in task.old ≡ progress_of (job_of task.old) (told_of answer.now ∷ earlier)
        → out.new.items ≡ result_of (job_of task.old) (told_of answer.now ∷ earlier)) }
{
    match task {
        Task::Upload(upload) => write_count(out, b"done", upload.file.as_slice().len()),
        Task::List => write_list(alloc, out, answer),
        Task::Set(_) => {
            out.extend_from_slice(b"saved\n")?;
            Ok(())
        }
        Task::Put(put) => write_count(out, b"stored", put.file.as_slice().len()),
        Task::Get(get) => {
            mem::swap(&mut get.held, out);
            Ok(())
        }
        Task::Echo(_) => write_echo(out, answer),
    }
}
