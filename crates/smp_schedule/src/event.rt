// The events of a schedule.

use crate::job::JobWords;
use smp_edge::Octets;
use smp_flash::Arm;

/// A packet that clients sent, or a reply to one, by its number from 1.
#[derive(Clone, Copy, Debug, PartialEq, Eq)]
pub enum Which {
    /// The newest.
    New,
    Number(u32),
}

/// One event.
#[derive(Debug, Drop)]
pub enum Event {
    /// `client K JOB`: a client begins. Clients are numbered from 1 to 8 in the order of their lines.
    Client { number: u8, job: JobWords },
    /// `raw HEX`: bytes come to the device, 1 to 4096.
    Raw(Octets),
    /// `up N`, `up new`: a packet that a client sent comes to the device.
    Up(Which),
    /// `down N`, `down new`: a reply comes to its client.
    Down(Which),
    /// `quiet K`: a wait of the client with this number ends.
    Quiet(u8),
    /// `arm KIND REGION N LEFT`: the flash is armed. An armed read leaves `Nothing`, and its line says no more.
    Armed(Arm),
    /// `boot`: power goes off and on.
    Boot,
}
