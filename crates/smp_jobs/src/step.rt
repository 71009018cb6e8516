// What a job does next.

use smp_model::Request;

/// What a job does next. Texts and bytes of a request are lent from the job.
#[derive(Clone, Copy)]
pub enum Step<'a> {
    /// It asks for this.
    Ask(Request<'a>),
    /// It is done.
    Done,
    /// The device refused: an error of a group, or of the protocol where there is none.
    Refused { group: Option<u16>, number: u32 },
    /// The device has other bytes than the file's.
    Mismatch,
}
