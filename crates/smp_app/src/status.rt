// How a run ends.
ghost use Rattle.std.specs.Prelude.{◌≡◌};

use smp_model::ImageFault;
use std::fmt;

/// How a run ends. Its text is what the program prints on standard error.
#[derive(Clone, Copy, Debug, PartialEq, Eq)]
pub enum Status {
    /// The whole command was done.
    Done,

    /// The words are no command.
    Usage,

    /// This line of the schedule, counted from 1, is the first outside the grammar.
    BadSchedule(u32),

    /// An image that was loaded is not good, or is longer than its slot less one page.
    BadImage(ImageFault),

    /// The file is longer than 8388608 bytes.
    TooLong,

    /// The file could not be loaded.
    FileFault,

    /// The transcript could not be written.
    WriteFault,

    /// There was no memory.
    NoMemory,
}

impl Status {
    ghost use Rattle.smp_app.specs.Status.{code_of};

    /// The exit status of the program.
    pub fn code(&self) -> u8
        ensures { result ≡ code_of self.now }
    {
        match self {
            Status::Done => 0,
            Status::Usage => 2,
            Status::BadSchedule(_) | Status::BadImage(_) | Status::TooLong => 3,
            Status::FileFault => 4,
            Status::WriteFault => 5,
            Status::NoMemory => 10,
        }
    }
}

impl fmt::Display for Status {
    ghost use Rattle.std.specs.Prelude.{Some};
    ghost use Rattle.smp_app.specs.Status.{text_of};

    ghost output = { λ status. Some (text_of status) };

    fn fmt<W: fmt::Write>(&self, f: &mut fmt::Formatter<W>) -> fmt::Result {
        match self {
            Status::Done => write!(f, "done"),
            Status::Usage => write!(f, "usage"),
            Status::BadSchedule(line) => write!(f, "bad schedule line {line}"),
            Status::BadImage(_) => write!(f, "bad image"),
            Status::TooLong => write!(f, "file too long"),
            Status::FileFault => write!(f, "file fault"),
            Status::WriteFault => write!(f, "write fault"),
            Status::NoMemory => write!(f, "no memory"),
        }
    }
}
