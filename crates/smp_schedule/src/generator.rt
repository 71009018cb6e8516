// Events that are drawn.
ghost use Rattle.std.specs.Prelude.{◌≡◌, ◌≤◌, ◌<◌, ◌%◌, if◌then◌else◌, false, not};
ghost use Rattle.smp_schedule.specs.declared.event.Event.TheVariants as events;
ghost use Rattle.smp_schedule.specs.declared.event.Which.TheVariants as which;
ghost use Rattle.smp_schedule.specs.Generated.{next_number, drawn, small_draw, generator, generated_arm, event_of, after_event, generated_event, generated_after};

use crate::event::{Event, Which};
use smp_flash::{Arm, ArmKind, Left, Region};
use std::marker::Model;

/// The number behind a number.
fn next_number(number: u32) -> u32
    ensures { result ≡ next_number number }
{
    ((u64::from(number) * 1_664_525 + 1_013_904_223) % 4_294_967_296) as u32
}

/// A generator of events: its number, and whether a reply is due.
#[derive(Drop)]
pub struct Generator {
    number: u32,
    replies: bool,
}

impl Model for Generator {
    ghost use Rattle.smp_schedule.specs.Generated.{Generator, generator};

    ghost Value = { Generator };

    ghost view = { λ g. generator g.number g.replies };
}

impl Generator {
    /// A generator at the beginning of a seed.
    pub fn new(seed: u32) -> Generator
        ensures { result ≡ generator seed false }
    {
        Generator {
            number: seed,
            replies: false,
        }
    }

    /// A draw, of 16 bits.
    fn draw(&mut self) -> u32
        ensures drawn { result ≡ drawn (next_number self.old.number) }
        ensures small { result < 65536 }
        ensures after { self.new ≡ generator (next_number self.old.number) self.old.replies }
    {
        self.number = next_number(self.number);
        self.number / 65536
    }

    /// A byte of the payload.
    pub fn byte(&mut self) -> u8
        ensures drawn { result ≡ drawn (next_number self.old.number) % 256 }
        ensures after { self.new ≡ generator (next_number self.old.number) self.old.replies }
    {
        (self.draw() % 256) as u8
    }

    /// A number from 1 to `most`.
    fn small(&mut self, most: u32) -> u32
        requires some { 1 ≤ most }
        requires few { most ≤ 65536 }
        ensures drawn { result ≡ small_draw most (next_number self.old.number) }
        ensures after { self.new ≡ generator (next_number self.old.number) self.old.replies }
    {
        1 + self.draw() % most
    }

    /// A cut that is armed.
    fn arm(&mut self) -> Arm
        ensures arm { result ≡ generated_arm (small_draw 8 (next_number self.old.number)) (drawn (next_number (next_number self.old.number))) }
        ensures after { self.new ≡ generator (next_number (next_number self.old.number)) self.old.replies }
    {
        let after = self.small(8);
        let seed = self.draw();
        Arm {
            kind: ArmKind::Cut,
            region: Region::Any,
            after,
            left: Left::Seed(seed),
        }
    }

    /// The newest packet or the newest reply, by turns.
    fn turn(&mut self) -> Event
        ensures event { result ≡ (if self.old.replies then events.Down which.New else events.Up which.New) }
        ensures after { self.new ≡ generator self.old.number (not self.old.replies) }
    {
        let replies = self.replies;
        self.replies = !replies;
        if replies {
            Event::Down(Which::New)
        } else {
            Event::Up(Which::New)
        }
    }

    /// The event of a draw.
    fn event_of(&mut self, kind: u32) -> Event
        ensures event { result ≡ event_of kind self.old }
        ensures after { self.new ≡ after_event kind self.old }
    {
        match kind {
            0 => Event::Quiet(1),
            1 => Event::Up(Which::Number(self.small(64))),
            2 => Event::Down(Which::Number(self.small(64))),
            3 => Event::Armed(self.arm()),
            4 => Event::Boot,
            _ => self.turn(),
        }
    }

    /// The next event.
    pub fn event(&mut self) -> Event
        ensures event { result ≡ generated_event self.old }
        ensures after { self.new ≡ generated_after self.old }
    {
        let kind = self.draw() % 16;
        self.event_of(kind)
    }
}
