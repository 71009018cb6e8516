// The words of a client's job.

use smp_edge::Octets;
use smp_model::{Ending, Pairs};

/// A job of a client, as its words give it: files by their names.
#[derive(Debug, Drop)]
pub enum JobWords {
    /// `upload FILE CHUNK ENDING`, with `1` behind it for image 1: a file is sent as an image, in parts of at most so many
    /// bytes.
    Upload {
        /// Which image of the device it is for: 0 or 1.
        image: u32,
        file: Octets,
        /// 32 to 1900 bytes.
        chunk: u32,
        ending: Ending,
    },
    /// `list`: the images of the device.
    List,
    /// `set NAME HEX`, with further pairs behind it: 1 to 254 settings.
    Set(Pairs),
    /// `put FILE NAME`: a file is written on the device under a name of at most 64 bytes.
    Put {
        file: Octets,
        name: Octets,
    },
    /// `get NAME`: a file of the device is read.
    Get {
        name: Octets,
    },
    /// `echo TEXT`: a text of at most 1024 bytes.
    Echo {
        text: Octets,
    },
}
