// What a job is to do, and how it ends.
use smp_model::ImageFault;

/// Why there is no job.
#[derive(Clone, Copy, Debug, PartialEq, Eq)]
pub enum JobFault {
    /// There was no memory.
    OutOfMemory,
    /// The file is no image, or its hash is not that of its bytes.
    BadImage(ImageFault),
}

/// How a job ends that is not done.
#[derive(Clone, Copy, Debug, PartialEq, Eq)]
pub enum JobEnd {
    /// The ninth wait of one request ended without an answer.
    NoAnswer,
    /// The device refused: an error of a group, or of the protocol where there is none.
    Refused { group: Option<u16>, number: u32 },
    /// The device found another digest than the file's.
    Mismatch,
    /// As many packets were sent as the job may send, and one more was needed.
    Stalled,
    /// There was no memory for what was answered.
    OutOfMemory,
}

/// What a job does after something was heard, or a wait ended.
#[derive(Clone, Copy, Debug, PartialEq, Eq)]
pub enum JobMove {
    /// It sends [`Job::packet`](crate::Job::packet).
    Send,
    /// It goes on waiting.
    Wait,
    /// It is done, and [`Job::result`](crate::Job::result) is what it prints.
    Done,
    /// It ended otherwise.
    Failed(JobEnd),
    /// It had ended before.
    Over,
}
