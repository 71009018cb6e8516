// The replay of a schedule.
ghost use Rattle.std.specs.Prelude.{◌≡◌, ◌≢◌, length, IfErr, IfSome, OnOk};
ghost use Rattle.smp_schedule.specs.Lawful.{IsLawful};
ghost use Rattle.smp_world.specs.Schedules.{IsReplay};
ghost use Rattle.smp_app.specs.Causes.{FileCause, WriteCause};
ghost use Rattle.smp_app.specs.Loading.{calls_after, names_of};
ghost use Rattle.smp_app.specs.Preparing.{EndsDue, IsFailure, status_of};
ghost use Rattle.smp_app.specs.Replays.{IsDueUnlessPrevented, IsReplayOf, LoadsReplay, Prints, due_of_replay, due_of_schedule};

use crate::Status;
use crate::loading::load_schedule;
use crate::preparing::prepare;
use crate::transcript::write_transcript;
use smp_edge::{Files, Sink};
use smp_schedule::{Schedule, read_is_lawful};
use smp_world::schedules_have_events;
use std::alloc::Global;

/// Replays a schedule that was loaded.
#[tactic(auto, using(crate::proofs::Replayed::refused_prints, crate::proofs::Replayed::refused_quiet, crate::proofs::Replayed::refused_fails, crate::proofs::Replayed::write_fails, crate::proofs::Replayed::break_file_cause))]
fn replay_loaded<O: Sink, D: Files>(
    alloc: Global,
    schedule: &Schedule,
    out: &mut O,
    files: &mut D,
) -> Result<(), Status>
    requires { IsLawful schedule.now }
    ensures due { IfSome (D.folder files.old) (λ file. EndsDue (due_of_schedule file schedule.now) result) }
    ensures printed { Prints (IsReplay (D.folder files.old) schedule.now) (status_of result) (O.written out.old) (O.written out.new) }
    ensures calls { OnOk result (D.answered files.new ≡ calls_after (length (names_of schedule.now)) (D.answered files.old)) }
    ensures told { IfErr result IsFailure }
    ensures file_fault { FileCause (status_of result) (D.faults files.old) (D.faults files.new) }
    ensures write_fault { WriteCause (status_of result) (O.faults out.old) (O.faults out.new) }
{
    schedules_have_events();
    let mut world = match prepare(alloc, schedule, files) {
        Ok(world) => world,
        Err(status) => return Err(status),
    };
    write_transcript(alloc, &mut world, schedule.events(), out)
}

/// Replays the schedule with this name.
#[tactic(auto, using(crate::proofs::Replayed::schedule_due, crate::proofs::Replayed::later_due, crate::proofs::Replayed::prints_of, crate::proofs::Replayed::unloaded_prints, crate::proofs::Replayed::unloaded_quiet, crate::proofs::Replayed::unloaded_fails))]
fn try_replay<O: Sink, D: Files>(
    alloc: Global,
    name: &str,
    out: &mut O,
    files: &mut D,
) -> Result<(), Status>
    ensures due { IfSome (due_of_replay (D.folder files.old) name.now) (λ due. EndsDue due result) }
    ensures printed { Prints (IsReplayOf (D.folder files.old) name.now) (status_of result) (O.written out.old) (O.written out.new) }
    ensures calls { OnOk result (LoadsReplay (D.folder files.old) name.now (D.answered files.old) (D.answered files.new)) }
    ensures told { IfErr result IsFailure }
    ensures file_fault { FileCause (status_of result) (D.faults files.old) (D.faults files.new) }
    ensures write_fault { WriteCause (status_of result) (O.faults out.old) (O.faults out.new) }
{
    read_is_lawful();
    let schedule = match load_schedule(alloc, name, files) {
        Ok(schedule) => schedule,
        Err(status) => return Err(status),
    };
    replay_loaded(alloc, &schedule, out, files)
}

/// Replays the schedule with this name.
pub fn replay<O: Sink, D: Files>(alloc: Global, name: &str, out: &mut O, files: &mut D) -> Status
    ensures due { IfSome (due_of_replay (D.folder files.old) name.now) (IsDueUnlessPrevented result) }
    ensures printed { Prints (IsReplayOf (D.folder files.old) name.now) result (O.written out.old) (O.written out.new) }
    ensures not_usage { result ≢ Status.Usage }
    ensures calls { result ≡ Status.Done → LoadsReplay (D.folder files.old) name.now (D.answered files.old) (D.answered files.new) }
    ensures file_fault { FileCause result (D.faults files.old) (D.faults files.new) }
    ensures write_fault { WriteCause result (O.faults out.old) (O.faults out.new) }
{
    match try_replay(alloc, name, out, files) {
        Ok(()) => Status::Done,
        Err(status) => status,
    }
}
