// Why a text is no schedule.

use thiserror::Error;

/// Why a text is no schedule.
#[derive(Clone, Copy, Debug, PartialEq, Eq, Error)]
pub enum ScheduleFault {
    /// This line, counted from 1, is the first outside the grammar.
    #[error("BadLine {0}")]
    BadLine(u32),

    /// There was no memory for the events.
    #[error("OutOfMemory")]
    OutOfMemory,
}
