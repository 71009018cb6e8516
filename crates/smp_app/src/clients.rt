// The jobs of the clients.
ghost use Rattle.std.specs.Prelude.{◌≡◌, ◌≤◌, ◌∷◌, ◌++◌, [], true, length, IfOk, IfErr, OnOk, MatchOption};
ghost use Rattle.smp_jobs.specs.Tasks.{can_set};
ghost use Rattle.smp_schedule.specs.Lawful.{IsJob};
ghost use Rattle.smp_app.specs.Loading.{most_loaded};
ghost use Rattle.smp_app.specs.Making.{BeginJobs, BeginsJob, CanMake, JobRefused, OnlyBadImage, Tests, bad_file, bad_files};

use crate::Status;
use crate::loading::{Client, text_of};
use smp_edge::Octets;
use smp_jobs::{Job, JobFault};
use smp_model::{Pairs, Setting};
use smp_schedule::JobWords;
use std::alloc::{AllocError, Global};

/// A copy of a setting.
fn copy_setting(alloc: Global, setting: &Setting) -> Result<Setting, AllocError>
    ensures { IfOk result (λ copy. copy ≡ setting.now) }
{
    let name = Octets::from_slice(alloc, setting.name.as_slice())?;
    let val = Octets::from_slice(alloc, setting.val.as_slice())?;
    Ok(Setting { name, val })
}

/// The first setting, and those behind it.
fn next_setting(settings: &[Setting]) -> Option<(&Setting, &[Setting])>
    ensures { MatchOption result (settings.now ≡ []) (λ x. settings.now ≡ x.0.now ∷ x.1.now) }
{
    settings.split_first()
}

/// A copy of settings.
fn copy_of(alloc: Global, pairs: &Pairs) -> Result<Pairs, AllocError>
    ensures { IfOk result (λ copy. copy ≡ pairs.now) }
{
    let mut copy = Pairs::new(alloc);
    let mut rest = pairs.as_slice();
    'pairs: while let Some((pair, later)) = next_setting(rest) {
        copy.push(copy_setting(alloc, pair)?)?;
        rest = later;
    }
    Ok(copy)
}

/// The job that writes these settings.
#[tactic(auto, using(crate::proofs::Jobs::can))]
fn set_job(alloc: Global, pairs: &Pairs) -> Result<Job, JobFault>
    requires { IsJob (JobWords.Set pairs.now) }
    ensures ok { IfOk result (BeginsJob (JobWords.Set pairs.now) []) }
    ensures refused { IfErr result (JobRefused (JobWords.Set pairs.now) []) }
{
    match copy_of(alloc, pairs) {
        Ok(pairs) => Job::set(alloc, pairs),
        Err(_) => Err(JobFault::OutOfMemory),
    }
}

/// The job that some words spell, with the file that they name.
#[tactic(auto, using(crate::proofs::Images::is_bad))]
fn job_of(alloc: Global, words: &JobWords, file: Octets) -> Result<Job, JobFault>
    requires words { IsJob words.now }
    requires file { length file ≤ most_loaded }
    ensures ok { IfOk result (BeginsJob words.now file) }
    ensures refused { IfErr result (JobRefused words.now file) }
{
    match words {
        JobWords::Upload {
            image,
            chunk,
            ending,
            ..
        } => Job::upload_to(alloc, *image, file, *chunk, *ending),
        JobWords::List => Job::list(alloc),
        JobWords::Set(pairs) => set_job(alloc, pairs),
        JobWords::Put { name, .. } => Job::put(alloc, text_of(name), file),
        JobWords::Get { name } => Job::get(alloc, text_of(name)),
        JobWords::Echo { text } => Job::echo(alloc, text_of(text)),
    }
}

/// The job of a client.
#[tactic(auto, using(crate::proofs::Jobs::not_bad))]
fn make_job(alloc: Global, client: Client<'_>) -> Result<Job, Status>
    requires words { IsJob client.words.now }
    requires file { length client.file ≤ most_loaded }
    ensures ok { IfOk result (BeginsJob client.entry.words.now client.entry.file) }
    ensures tests { Tests (bad_file client.entry.words.now client.entry.file) result }
{
    match job_of(alloc, client.words, client.file) {
        Ok(job) => Ok(job),
        Err(JobFault::BadImage(fault)) => Err(Status::BadImage(fault)),
        Err(JobFault::OutOfMemory) => Err(Status::NoMemory),
    }
}

/// The jobs of the clients, in their order.
#[tactic(auto, using(crate::proofs::Jobs::first_bad, crate::proofs::Jobs::later_bad, crate::proofs::Jobs::begin_more, crate::proofs::Jobs::all_begin))]
pub fn make_jobs(alloc: Global, clients: Vec<Client<'_>>) -> Result<Vec<Job>, Status>
    requires { CanMake clients.items }
    ensures ok { IfOk result (λ jobs. BeginJobs clients.entry.items jobs.items) }
    ensures tests { Tests (bad_files clients.entry.items) result }
{
    let mut jobs = Vec::new(alloc);
    let mut waiting = clients.into_iter();
    'clients: while let Some(client) = waiting.next() {
        let job = match make_job(alloc, client) {
            Ok(job) => job,
            Err(status) => return Err(status),
        };
        match jobs.push(job) {
            Ok(()) => {}
            Err(_) => return Err(Status::NoMemory),
        }
    }
    Ok(jobs)
}
