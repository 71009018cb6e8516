// Events that happen, and what is written of them.
ghost use Rattle.std.specs.Prelude.{◌≡◌, ◌+◌, ◌<◌, [], length, IfErr, OnOk, OnErr};
ghost use Rattle.smp_edge.specs.Faults.{HasCause};
ghost use Rattle.smp_edge.specs.Sink.{AppendsFront};
ghost use Rattle.smp_world.specs.Worlds.{CanStep, CountsClients};
ghost use Rattle.smp_app.specs.Causes.{WriteEnds};
ghost use Rattle.smp_app.specs.Gathering.{PutOn};
ghost use Rattle.smp_app.specs.Playing.{BreaksAll, BreaksOne, CanPlay, IsBreak, PlaysAll, PlaysOne};

use crate::Status;
use crate::loading::next_event;
use smp_edge::{Block, Failed, Sink};
use smp_schedule::Event;
use smp_world::{World, every_schedule_runs};

/// What is printed is put out in pieces of at least so many bytes.
const PIECE: usize = 65536;

/// Room for a piece and the lines that end it.
pub const ROOM: usize = PIECE + 8192;

/// Puts out what is gathered where that is a piece.
#[tactic(auto, using(crate::proofs::Putting::all_held, crate::proofs::Putting::all_put, crate::proofs::Putting::none_put))]
fn put_piece<O: Sink>(text: &mut Block, out: &mut O) -> Result<(), Failed>
    ensures ok { OnOk result (PutOn (O.written out.old) (O.written out.new) text.old.held text.new.held) }
    ensures front { AppendsFront (O.written out.old) (O.written out.new) text.old.held }
    ensures cause { HasCause (O.faults out.old) (O.faults out.new) result }
{
    if text.len() < PIECE {
        return Ok(());
    }
    text.put_into(out)
}

/// One event happens.
#[tactic(auto, using(crate::proofs::Plays::one_plays, crate::proofs::Plays::one_breaks, crate::proofs::Plays::one_is_lost))]
fn play_one<O: Sink>(
    world: &mut World,
    event: &Event,
    text: &mut Block,
    out: &mut O,
) -> Result<(), Status>
    requires few { world.old.steps < 500000000 }
    requires can { CanStep world.old event.now }
    ensures count { world.new.steps ≡ world.old.steps + 1 }
    ensures clients { OnOk result (CountsClients event.now world.old world.new) }
    ensures plays { OnOk result (PlaysOne event.now world.old world.new (O.written out.old) (O.written out.new) text.old.held text.new.held) }
    ensures breaks { OnErr result (BreaksOne event.now world.old (O.written out.old) (O.written out.new) text.old.held) }
    ensures ends { IfErr result IsBreak }
    ensures cause { WriteEnds result (O.faults out.old) (O.faults out.new) }
{
    every_schedule_runs();
    let Ok(()) = world.step(event, text) else {
        return Err(Status::NoMemory);
    };
    match put_piece(text, out) {
        Ok(()) => Ok(()),
        Err(Failed) => Err(Status::WriteFault),
    }
}

/// The events happen, one after another. Their lines are gathered, and put out in pieces.
#[tactic(auto, using(crate::proofs::Plays::begins, crate::proofs::Plays::goes_on, crate::proofs::Plays::has_played, crate::proofs::Plays::is_broken, crate::proofs::Plays::can_step, crate::proofs::Plays::can_go_on))]
pub fn play<O: Sink>(
    world: &mut World,
    events: &[Event],
    text: &mut Block,
    out: &mut O,
) -> Result<(), Status>
    requires can { CanPlay world.old events.now }
    requires empty { text.old.held ≡ [] }
    ensures plays { OnOk result (PlaysAll events.now world.old world.new (O.written out.old) (O.written out.new) text.new.held) }
    ensures breaks { OnErr result (BreaksAll events.now world.old (O.written out.old) (O.written out.new)) }
    ensures ends { IfErr result IsBreak }
    ensures cause { WriteEnds result (O.faults out.old) (O.faults out.new) }
{
    every_schedule_runs();
    let mut rest = events;
    'events: while let Some((event, later)) = next_event(rest) {
        match play_one(world, event, text, out) {
            Ok(()) => {}
            Err(status) => return Err(status),
        }
        rest = later;
    }
    Ok(())
}
