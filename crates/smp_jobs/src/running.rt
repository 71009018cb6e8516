// A job that has not ended.
ghost use Rattle.std.specs.Prelude.{◌≡◌, ◌≤◌, ◌<◌, List, [], ◌∷◌, None};
ghost use Rattle.smp_model.specs.Meant.{meant_of};
ghost use Rattle.smp_request.specs.Room.{strings_of};
ghost use Rattle.smp_reply.specs.Told.{Told, told_of};
ghost use Rattle.smp_jobs.specs.Clients.{Client, takes, with_answer, client_hears_bytes, client_waited};
ghost use Rattle.smp_jobs.specs.Tasks.{CanTake, job_of, progress_in, progress_of};
ghost use Rattle.smp_jobs.specs.States.{After, Asks, Goes, Finishes, MayRunOut, HearsWant, asking, Counts, Holds, Runs, Sends, SendsAgain, Sound, OnGoing, left_of};

use crate::ask::ask;
use crate::moves::{JobEnd, JobMove};
use crate::step::Step;
use crate::task::Task;
use crate::tasks;
use smp_client::{Move, Session};
use smp_model::Request;
use smp_reply::Answer;
use std::alloc::Global;

/// A job that has not ended: its session, how many more packets it may send, where there is a bound, and what is printed once
/// it is done.
#[derive(Drop)]
pub struct Running {
    pub task: Task,
    pub session: Session,
    pub room: Option<u32>,
    pub printed: Vec<u8>,
    pub alloc: Global,
}

/// Counts a packet. False where no more may be sent.
fn count_packet(room: &mut Option<u32>) -> bool
    ensures { Counts result room.old room.new }
{
    match *room {
        None => true,
        Some(0) => false,
        Some(left) => {
            *room = Some(left - 1);
            true
        }
    }
}

/// Begins a request where one more packet may be sent.
fn send(session: &mut Session, room: &mut Option<u32>, request: &Request<'_>) -> JobMove
    requires fits { strings_of (meant_of request.now) ≤ 1978 }
    requires idle { session.old.request ≡ None }
    ensures { Sends result session.old session.new room.old room.new (meant_of request.now) }
{
    if !count_packet(room) {
        return JobMove::Failed(JobEnd::Stalled);
    }
    ask(session, request);
    JobMove::Send
}

/// Sends the packet again, where one more may be sent.
fn send_again(room: &mut Option<u32>) -> JobMove
    ensures { SendsAgain result room.old room.new }
{
    if count_packet(room) {
        JobMove::Send
    } else {
        JobMove::Failed(JobEnd::Stalled)
    }
}

impl Running {
    /// Ends with what is printed.
    fn finish(&mut self, answer: &Answer<'_>) -> JobMove
        requires { self.old.printed.items ≡ [] }
        ensures ends { OnGoing result ⊥ }
        ensures done { (earlier : List Told) → progress_in self.old.task ≡ progress_of (job_of self.old.task) (told_of answer.now ∷ earlier)
            → Finishes result self.new (job_of self.old.task) (told_of answer.now ∷ earlier) }
    {
        match tasks::print(self.alloc, &mut self.task, answer, &mut self.printed) {
            Ok(()) => JobMove::Done,
            Err(_) => {
                self.printed.clear();
                JobMove::Failed(JobEnd::OutOfMemory)
            }
        }
    }

    /// Goes on after an answer that is taken already.
    fn go_on(&mut self, answer: &Answer<'_>) -> JobMove
        requires idle { self.old.session.request ≡ None }
        requires printed { self.old.printed.items ≡ [] }
        ensures took { (c : Client) → Holds self.old (with_answer c (told_of answer.now))
            → After (MayRunOut (takes c (told_of answer.now))) self.new result (takes c (told_of answer.now)) }
        ensures goes { OnGoing result (Asks self.old self.new) }
    {
        match tasks::next(&self.task, answer) {
            Step::Ask(request) => send(&mut self.session, &mut self.room, &request),
            Step::Done => self.finish(answer),
            Step::Refused { group, number } => JobMove::Failed(JobEnd::Refused { group, number }),
            Step::Mismatch => JobMove::Failed(JobEnd::Mismatch),
        }
    }

    /// Takes an answer.
    fn take(&mut self, answer: &Answer<'_>) -> JobMove
        requires take { CanTake self.old.task }
        requires idle { self.old.session.request ≡ None }
        requires printed { self.old.printed.items ≡ [] }
        ensures took { (c : Client) → Holds self.old c → After (MayRunOut (takes c (told_of answer.now))) self.new result (takes c (told_of answer.now)) }
        ensures goes { OnGoing result (Goes self.old self.new) }
    {
        match tasks::take(&mut self.task, answer) {
            Ok(()) => self.go_on(answer),
            Err(_) => JobMove::Failed(JobEnd::OutOfMemory),
        }
    }

    /// Hears a packet.
    pub fn hear(&mut self, packet: &[u8]) -> JobMove
        requires { Sound self.old }
        ensures heard { (c : Client) → Runs self.old c → After (HearsWant c packet.now) self.new result (client_hears_bytes c packet.now) }
        ensures sound { OnGoing result (Sound self.new) }
        ensures falls { OnGoing result (left_of self.new < left_of self.old) }
    {
        match self.session.hear(packet) {
            Move::Send => send_again(&mut self.room),
            Move::Wait => JobMove::Wait,
            Move::Answer(answer) => self.take(&answer),
            Move::NoAnswer => JobMove::Failed(JobEnd::NoAnswer),
        }
    }

    /// Ends a wait.
    pub fn quiet(&mut self) -> JobMove
        requires { Sound self.old }
        ensures waited { (c : Client) → Runs self.old c → After ⊥ self.new result (client_waited c) }
        ensures sound { OnGoing result (Sound self.new) }
        ensures falls { OnGoing result (left_of self.new < left_of self.old) }
    {
        match self.session.quiet() {
            Move::Send => send_again(&mut self.room),
            Move::NoAnswer => JobMove::Failed(JobEnd::NoAnswer),
            Move::Wait | Move::Answer(_) => unreachable!(),
        }
    }
}
