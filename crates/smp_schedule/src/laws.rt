//! What is so of every schedule. The calls do nothing: each stands for a law.
ghost use Rattle.std.specs.Prelude.{◌≡◌, ◌<◌, ℕ, List, Ok};
ghost use Rattle.smp_schedule.specs.Schedules.{Schedule, schedule};
ghost use Rattle.smp_schedule.specs.Written.{schedule_text};
ghost use Rattle.smp_schedule.specs.Lawful.{IsLawful};
ghost use Rattle.smp_schedule.specs.Generated.{generated};

/// Reading what a lawful schedule is written as gives that schedule.
pub fn written_is_read()
    ensures { (s : Schedule) → IsLawful s → schedule (schedule_text s) ≡ Ok s }
{}

/// Whatever is read is lawful. So it is read again from what it is written as.
pub fn read_is_lawful()
    ensures lawful { (text : List ℕ) (s : Schedule) → schedule text ≡ Ok s → IsLawful s }
    ensures again { (text : List ℕ) (s : Schedule) → schedule text ≡ Ok s → schedule (schedule_text s) ≡ Ok s }
{}

/// A generated schedule is lawful where it has no more events than a text may have: its client's line is one of them.
pub fn generated_is_lawful()
    ensures { (seed count : ℕ) → count < 100000 → IsLawful (generated seed count) }
{}
