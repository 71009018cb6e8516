//! The clients of a world, each with its job.

ghost use Rattle.std.specs.Prelude.{not, ◌&&◌, ◌≡◌, ◌≤◌, ◌<◌, ◌+◌, ◌-◌, ◌^◌, ◌++◌, if◌then◌else◌, ◌∷◌, [], suc, length, drop, count_by, slice_index_or, false, None, OnOk, IfSome, ◌⊎◌, ◌||◌};
ghost use Rattle.smp_jobs.specs.Clients.{client_hears_bytes, client_waited};
ghost use Rattle.smp_jobs.specs.States.{JobState};
ghost use Rattle.smp_world.specs.Clients.{MovesClient, MovesSeat, is_done_by};
ghost use Rattle.smp_world.specs.Worlds.{IsPacketOf};

use smp_edge::Failed;
use smp_jobs::{Job, JobMove};
use std::alloc::Global;
use std::marker::Model;

/// A client that began.
#[derive(Drop)]
struct Seat {
    job: Job,
    is_done: bool,
}

/// Whether a job is done, which may have been so before this move.
fn marked(was: bool, made: JobMove) -> bool
    ensures { result ≡ (was || is_done_by made) }
{
    was || matches!(made, JobMove::Done)
}

/// One more, where it is so.
fn one_more_if(count: usize, is: bool) -> usize
    requires { count < 2 ^ 63 }
    ensures { result ≡ count + (if is then 1 else 0) }
{
    if is { count + 1 } else { count }
}

/// How many are done.
fn count_done(seats: &[Seat]) -> usize
    ensures { result ≡ count_by (λ seat. seat.is_done) seats.now }
{
    let mut count = 0;
    for seat in seats {
        count = one_more_if(count, seat.is_done);
    }
    count
}

/// How many ended otherwise.
fn count_failed(seats: &[Seat]) -> usize
    ensures { result ≡ count_by (λ seat. seat.job.is_over && not seat.is_done) seats.now }
{
    let mut count = 0;
    for seat in seats {
        count = one_more_if(count, seat.has_failed());
    }
    count
}

impl Seat {
    fn has_failed(&self) -> bool
        ensures { result ≡ (self.now.job.is_over && not self.now.is_done) }
    {
        self.job.is_over() && !self.is_done
    }

    /// Hears a packet.
    fn hear(&mut self, packet: &[u8]) -> JobMove
        ensures { MovesSeat (λ c. client_hears_bytes c packet.now) result self.old self.new }
    {
        let made = self.job.hear(packet);
        self.is_done = marked(self.is_done, made);
        made
    }

    /// A wait ends.
    fn quiet(&mut self) -> JobMove
        ensures { MovesSeat client_waited result self.old self.new }
    {
        let made = self.job.quiet();
        self.is_done = marked(self.is_done, made);
        made
    }
}

/// The clients of a world, numbered from 1 in the order in which they begin.
#[derive(Drop)]
pub struct Clients {
    begun: Vec<Seat>,
    waiting: Vec<Job>,
}

impl Model for Clients {
    ghost use Rattle.smp_world.specs.Clients.{ClientsState};

    ghost Value = { ClientsState };

    ghost view = { λ clients. record { begun = clients.begun.items; waiting = clients.waiting.items } };
}

impl Clients {
    /// Clients with these jobs. None has begun.
    pub fn new(alloc: Global, jobs: Vec<Job>) -> Clients
        ensures { result ≡ record { begun = []; waiting = jobs.items } }
    {
        Clients {
            begun: Vec::new(alloc),
            waiting: jobs,
        }
    }

    /// How many have begun.
    pub fn count(&self) -> usize
        ensures { result ≡ length self.now.begun }
    {
        self.begun.len()
    }

    /// How many are to begin.
    pub fn waiting(&self) -> usize
        ensures { result ≡ length self.now.waiting }
    {
        self.waiting.len()
    }

    /// How many are done.
    pub fn done(&self) -> usize
        ensures { result ≡ count_by (λ seat. seat.is_done) self.now.begun }
    {
        count_done(self.begun.as_slice())
    }

    /// The next one begins. It fails only for want of memory.
    pub fn begin(&mut self) -> Result<(), Failed>
        requires { 1 ≤ length self.old.waiting }
        ensures some { OnOk result (1 ≤ length self.new.begun) }
        ensures one { OnOk result ((length self.new.begun ≡ length self.old.begun + 1) × (length self.new.waiting + 1 ≡ length self.old.waiting)) }
        ensures waiting { OnOk result (self.new.waiting ≡ drop 1 self.old.waiting) }
        ensures begun { OnOk result ((d : JobState) → self.new.begun ≡ self.old.begun ++ (record { job = slice_index_or self.old.waiting 0 d; is_done = false } ∷ [])) }
    {
        let job = self.waiting.remove(0);
        if self
            .begun
            .push(Seat {
                job,
                is_done: false,
            })
            .is_err()
        {
            return Err(Failed);
        }
        Ok(())
    }

    /// How many ended otherwise.
    pub fn failed(&self) -> usize
        ensures { result ≡ count_by (λ seat. seat.job.is_over && not seat.is_done) self.now.begun }
    {
        count_failed(self.begun.as_slice())
    }

    /// The packet that this client sends.
    pub fn packet(&self, number: usize) -> &[u8]
        requires some { 1 ≤ number }
        requires begun { number ≤ length self.now.begun }
        ensures { IsPacketOf number self.now result.now }
    {
        self.begun[number - 1].job.packet()
    }

    /// The seat of a client, where it began.
    fn seat(&self, number: usize) -> Option<usize>
        ensures place { IfSome result (λ place. (suc place ≡ number) × (place < length self.now.begun)) }
        ensures none { result ≡ None → (number ≡ 0) ⊎ (length self.now.begun < number) }
    {
        if number == 0 || number > self.begun.len() {
            return None;
        }
        Some(number - 1)
    }

    /// A client hears a packet. None where there is no such client.
    pub fn hear(&mut self, number: usize, packet: &[u8]) -> Option<JobMove>
        ensures moves { MovesClient number (λ c. client_hears_bytes c packet.now) result self.old self.new }
        ensures number { IfSome result (λ made. (1 ≤ number) × (number ≤ length self.new.begun)) }
        ensures begun { length self.new.begun ≡ length self.old.begun }
        ensures waiting { self.new.waiting ≡ self.old.waiting }
    {
        let Some(place) = self.seat(number) else {
            return None;
        };
        Some(self.begun[place].hear(packet))
    }

    /// A wait of a client ends. None where there is no such client.
    pub fn quiet(&mut self, number: usize) -> Option<JobMove>
        ensures moves { MovesClient number client_waited result self.old self.new }
        ensures number { IfSome result (λ made. (1 ≤ number) × (number ≤ length self.new.begun)) }
        ensures begun { length self.new.begun ≡ length self.old.begun }
        ensures waiting { self.new.waiting ≡ self.old.waiting }
    {
        let Some(place) = self.seat(number) else {
            return None;
        };
        Some(self.begun[place].quiet())
    }
}
