// An open request, as a session keeps it beside the bytes of its packet.
ghost use Rattle.std.specs.Prelude.{◌≡◌, ◌≤◌};

use smp_reply::Asked;

/// What a reply has to fit: the header of a request, and the kind of answer that it asks for.
#[derive(Clone, Copy)]
pub struct Header {
    pub version: u8,
    pub op: u8,
    pub group: u16,
    pub sequence: u8,
    pub command: u8,
    pub asked: Asked,
}

/// An open request, but for the bytes of its packet.
#[derive(Clone, Copy)]
pub struct Waiting {
    pub header: Header,
    pub waits: u8,
    pub strangers: u8,
    ghost counted: { (waits ≤ 8) × (strangers ≤ 63) },
}

impl Header {
    /// The request in its first wait.
    pub fn opened(self) -> Waiting
        ensures header { result.header ≡ self }
        ensures waits { result.waits ≡ 0 }
        ensures strangers { result.strangers ≡ 0 }
    {
        Waiting {
            header: self,
            waits: 0,
            strangers: 0,
        }
    }
}
