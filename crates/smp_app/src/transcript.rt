// The transcript of events.
ghost use Rattle.std.specs.Prelude.{IfErr, OnOk, OnErr};
ghost use Rattle.smp_app.specs.Causes.{WriteEnds};
ghost use Rattle.smp_app.specs.Playing.{CanPlay, Finishes, FinishesInPart, IsBreak, WritesFrontOf, WritesTranscript};

use crate::Status;
use crate::playing::{ROOM, play};
use smp_edge::{Block, Failed, Sink};
use smp_schedule::Event;
use smp_world::{World, every_schedule_runs};
use std::alloc::Global;

/// Puts the last line on a world behind what is held, and puts all that out.
#[tactic(auto, using(crate::proofs::Written::whole, crate::proofs::Written::last_lost, crate::proofs::Written::last_broken))]
fn finish<O: Sink>(world: &World, text: &mut Block, out: &mut O) -> Result<(), Status>
    ensures done { OnOk result (Finishes world.now text.old.held (O.written out.old) (O.written out.new)) }
    ensures front { OnErr result (FinishesInPart world.now text.old.held (O.written out.old) (O.written out.new)) }
    ensures ends { IfErr result IsBreak }
    ensures cause { WriteEnds result (O.faults out.old) (O.faults out.new) }
{
    let Ok(()) = world.finish(text) else {
        return Err(Status::NoMemory);
    };
    match text.put_into(out) {
        Ok(()) => Ok(()),
        Err(Failed) => Err(Status::WriteFault),
    }
}

/// The events happen, and their transcript is written.
#[tactic(auto, using(crate::proofs::Written::all_written, crate::proofs::Written::part_written, crate::proofs::Written::break_written, crate::proofs::Written::nothing_written))]
pub fn write_transcript<O: Sink>(
    alloc: Global,
    world: &mut World,
    events: &[Event],
    out: &mut O,
) -> Result<(), Status>
    requires { CanPlay world.old events.now }
    ensures done { OnOk result (WritesTranscript events.now world.old (O.written out.old) (O.written out.new)) }
    ensures front { OnErr result (WritesFrontOf events.now world.old (O.written out.old) (O.written out.new)) }
    ensures ends { IfErr result IsBreak }
    ensures cause { WriteEnds result (O.faults out.old) (O.faults out.new) }
{
    every_schedule_runs();
    let Ok(mut text) = Block::with_capacity(alloc, ROOM) else {
        return Err(Status::NoMemory);
    };
    match play(world, events, &mut text, out) {
        Ok(()) => finish(world, &mut text, out),
        Err(status) => Err(status),
    }
}
