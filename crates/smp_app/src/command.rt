// The top call.
ghost use Rattle.std.specs.Prelude.{◌≡◌, ◌↔◌, ◌⊎◌, Some, None, IfSome};
ghost use Rattle.smp_edge.specs.Faults.{Rose};
ghost use Rattle.smp_app.specs.Causes.{FileCause, WriteCause};
ghost use Rattle.smp_app.specs.Replays.{IsDueUnlessPrevented, IsTextOf, LoadsAsked, Prints, due};
ghost use Rattle.smp_app.specs.Words.{asked_in};

use crate::Status;
use crate::replay::replay;
use crate::words::{Command, read_command};
use smp_edge::{Files, Octets, Sink};
use std::alloc::Global;

/// Does what the words of the command line say: `replay SCHEDULE` loads the schedule and the files that it names, makes the
/// flash, the device and its clients, has all events happen, and writes their transcript to `out`. Nothing is written before
/// every line and every image was tested.
///
/// Clauses on content hold where the object tells it. Want of memory may be answered at any time.
#[tactic(auto, using(crate::proofs::Asked::usage_quiet, crate::proofs::Asked::completes))]
pub fn run<O: Sink, D: Files>(alloc: Global, words: &[Octets], out: &mut O, files: &mut D) -> Status
    ensures usage { (result ≡ Status.Usage) ↔ (asked_in words.now ≡ None) }

    // The status is the one that the words and the told files ask for, unless memory, the files or the sink prevented it; the
    // next two clauses tie those two faults to the object's count.
    ensures due { IfSome (due (D.folder files.old) words.now) (IsDueUnlessPrevented result) }
    ensures file_fault { FileCause result (D.faults files.old) (D.faults files.new) }
    ensures write_fault { WriteCause result (O.faults out.old) (O.faults out.new) }

    // Right words, told files that can be loaded, a schedule by the grammar, good images that fit, and no fault: then all is done.
    ensures complete { due (D.folder files.old) words.now ≡ Some Status.Done → ¬ Rose (D.faults files.old) (D.faults files.new)
        → ¬ Rose (O.faults out.old) (O.faults out.new) → (result ≡ Status.Done) ⊎ (result ≡ Status.NoMemory) }

    // The schedule is loaded once, and each file as often as it is named.
    ensures loaded { result ≡ Status.Done → LoadsAsked (D.folder files.old) (asked_in words.now) (D.answered files.old) (D.answered files.new) }

    // What is written is the transcript of a run of the schedule: all of it where it is done, a front of it at a fault of the sink
    // or for want of memory, and else nothing.
    ensures printed { Prints (IsTextOf (D.folder files.old) words.now) result (O.written out.old) (O.written out.new) }
{
    match read_command(words) {
        None => Status::Usage,
        Some(Command::Replay(name)) => replay(alloc, name, out, files),
    }
}
