// A schedule from its text.
ghost use Rattle.std.specs.Prelude.{◌≡◌, ◌+◌, ◌-◌, ◌<◌, ◌≤◌, ◌^◌, ◌∷◌, ◌++◌, [], ℕ, OnOk, List, None, Ok, length, option_map, MatchOption};
ghost use Rattle.smp_schedule.specs.Fields.{lines_of};
ghost use Rattle.smp_schedule.specs.Schedules.{Reads, ReadsLine, ReadsEvents, TakesLine, clients_after, event_at, events_from, events_left, schedule, IsFirst};

use crate::event::Event;
use crate::fault::ScheduleFault;
use crate::fields::{is_skipped, next_line};
use crate::flash_line::FlashLine;
use crate::reading::{read_event, read_flash};
use std::alloc::{AllocError, Global};
use std::marker::Model;

/// The most events of a schedule.
const MOST_EVENTS: usize = 100_000;

/// What a schedule says: maybe a flash, and events.
#[derive(Debug, Drop)]
pub struct Schedule {
    flash: Option<FlashLine>,
    events: Vec<Event>,
}

impl Model for Schedule {
    ghost use Rattle.smp_schedule.specs.Schedules.{Schedule};

    ghost Value = { Schedule };

    ghost view = { λ s. record { flash = s.flash; events = s.events.items } };
}

impl Schedule {
    /// The schedule of these events, with no flash line.
    pub(crate) fn new(events: Vec<Event>) -> Schedule
        ensures { result ≡ record { flash = None; events = events.items } }
    {
        Schedule {
            flash: None,
            events,
        }
    }

    /// The flash line, None exactly where there is none.
    pub fn flash(&self) -> Option<&FlashLine>
        ensures { option_map (λ f. f.now) result ≡ self.now.flash }
    {
        self.flash.as_ref()
    }

    /// The events, in their order.
    pub fn events(&self) -> &[Event]
        ensures { result.now ≡ self.now.events }
    {
        self.events.as_slice()
    }
}

/// The clients after an event.
fn clients_after(event: &Event, clients: u8) -> u8
    ensures { result ≡ clients_after event.now clients }
{
    match event {
        Event::Client { number, .. } => *number,
        _ => clients,
    }
}

/// The event of a line, after so many clients and events.
fn read_line(
    alloc: Global,
    number: u32,
    clients: u8,
    count: usize,
    line: &[u8],
) -> Result<Event, ScheduleFault>
    ensures { ReadsLine result number (event_at clients count line.now) }
{
    if count >= MOST_EVENTS {
        return Err(ScheduleFault::BadLine(number));
    }
    match read_event(alloc, clients, line) {
        Ok(Some(event)) => Ok(event),
        Ok(None) => Err(ScheduleFault::BadLine(number)),
        Err(_) => Err(ScheduleFault::OutOfMemory),
    }
}

/// The events that were read, the clients among them, and the number of the next line.
#[derive(Drop)]
struct Reading {
    events: Vec<Event>,
    clients: u8,
    number: u32,
}

/// How many events there are.
fn count_of(events: &Vec<Event>) -> usize
    ensures { result ≡ length events.now.items }
{
    events.as_slice().len()
}

/// Adds an event at the end.
fn add_event(events: &mut Vec<Event>, event: Event) -> Result<(), AllocError>
    ensures { OnOk result (events.new.items ≡ events.old.items ++ event ∷ []) }
{
    events.push(event)?;
    Ok(())
}

/// Reads one line, which may be one that is skipped.
fn take_line(alloc: Global, reading: &mut Reading, line: &[u8]) -> Result<(), ScheduleFault>
    requires { reading.old.number + 1 < 2 ^ 32 }
    ensures number { reading.new.number ≤ reading.old.number + 1 }
    ensures events { let old = reading.old in let new = reading.new in (lines : List (List ℕ))
        → TakesLine result (events_left old.events.items old.clients old.number (line.now ∷ lines)) (events_left new.events.items new.clients new.number lines) }
{
    let number = reading.number;
    if is_skipped(line) {
        reading.number = number + 1;
        return Ok(());
    }
    let count = count_of(&reading.events);
    let event = read_line(alloc, number, reading.clients, count, line)?;
    let clients = clients_after(&event, reading.clients);
    let Ok(()) = add_event(&mut reading.events, event) else {
        return Err(ScheduleFault::OutOfMemory);
    };
    reading.clients = clients;
    reading.number = number + 1;
    Ok(())
}

/// The events of lines, of which the first has this number.
fn read_events(alloc: Global, text: &[u8], number: u32) -> Result<Vec<Event>, ScheduleFault>
    requires { number + length text.now < 2 ^ 32 }
    ensures { ReadsEvents (λ v. v.items) result (events_from number 0 0 (lines_of text.now)) }
{
    let mut reading = Reading {
        events: Vec::new(alloc),
        clients: 0,
        number,
    };
    let mut rest = text;
    'lines: while let Some((line, after)) = next_line(rest) {
        take_line(alloc, &mut reading, line)?;
        rest = after;
    }
    Ok(reading.events)
}

/// The first line that is not skipped, with its number and the text behind it and from it on.
#[derive(Drop)]
struct First<'a> {
    number: u32,
    line: &'a [u8],
    after: &'a [u8],
    from: &'a [u8],
}

fn first_line(text: &[u8]) -> Option<First<'_>>
    requires { length text.now < 2 ^ 32 - 1 }
    ensures { MatchOption result (schedule text.now ≡ Ok record { flash = None; events = [] }) (λ f. IsFirst text.now f.number f.line.now f.after.now f.from.now) }
{
    let mut number = 1;
    let mut rest = text;
    'lines: while let Some((line, after)) = next_line(rest) {
        if !is_skipped(line) {
            return Some(First {
                number,
                line,
                after,
                from: rest,
            });
        }
        rest = after;
        number += 1;
    }
    None
}

/// The schedule that a text of fewer than 4294967295 bytes spells, or the first line outside the grammar. It fails too where
/// there is no memory for the events.
pub fn read_schedule(alloc: Global, text: &[u8]) -> Result<Schedule, ScheduleFault>
    requires { length text.now < 2 ^ 32 - 1 }
    ensures { Reads result (schedule text.now) }
{
    let Some(first) = first_line(text) else {
        return Ok(Schedule {
            flash: None,
            events: Vec::new(alloc),
        });
    };
    match read_flash(alloc, first.line) {
        Ok(Some(flash)) => {
            let events = read_events(alloc, first.after, first.number + 1)?;
            Ok(Schedule {
                flash: Some(flash),
                events,
            })
        }
        Ok(None) => {
            let events = read_events(alloc, first.from, first.number)?;
            Ok(Schedule {
                flash: None,
                events,
            })
        }
        Err(_) => Err(ScheduleFault::OutOfMemory),
    }
}
