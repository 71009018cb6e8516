// Whether a job has ended.
ghost use Rattle.std.specs.Prelude.{◌≡◌};
ghost use Rattle.smp_jobs.specs.States.{is_end};

use crate::moves::JobMove;

/// Whether the job has ended with this move.
pub fn is_end(made: JobMove) -> bool
    ensures { result ≡ is_end made }
{
    match made {
        JobMove::Send | JobMove::Wait => false,
        JobMove::Done | JobMove::Failed(_) | JobMove::Over => true,
    }
}
