// Beginning a request.
ghost use Rattle.std.specs.Prelude.{◌≡◌, ◌≤◌, ◌-◌, ℕ, None, Some};
ghost use Rattle.smp_header.specs.Message.{packet};
ghost use Rattle.smp_model.specs.Meant.{meant_of};
ghost use Rattle.smp_model.specs.Written.{request_message};
ghost use Rattle.smp_request.specs.Room.{strings_of};
ghost use Rattle.smp_jobs.specs.Jobs.{asked_of};
ghost use Rattle.smp_jobs.specs.States.{asking};

use arrayvec::ArrayVec;
use smp_client::Session;
use smp_header::PacketBuffer;
use smp_model::Request;
use smp_reply::Asked;
use smp_request::{fits_within, reads_back, write_request};

/// The version bits of the client's packets: version 2 of the protocol.
pub const VERSION: u8 = 1;

/// The kind of answer that a request asks for.
pub fn asked_of(request: &Request<'_>) -> Asked
    ensures { result ≡ asked_of (meant_of request.now) }
{
    match request {
        Request::Upload(_) | Request::FileWrite { .. } => Asked::Offset,
        Request::FileRead { .. } => Asked::FilePart,
        Request::ImageList => Asked::Images,
        Request::Echo(_) => Asked::Echo,
        _ => Asked::Done,
    }
}

/// Begins a request that fits a packet, in a session that has none open.
pub fn ask(session: &mut Session, request: &Request<'_>)
    requires fits { strings_of (meant_of request.now) ≤ 1978 }
    requires idle { session.old.request ≡ None }
    ensures asked { session.new ≡ asking session.old (meant_of request.now) }
    ensures packet { packet session.new.packet ≡ Some (request_message 1 session.old.next (meant_of request.now)) }
{
    fits_within(request);
    reads_back(VERSION, session.next_sequence(), request);
    let mut packet: PacketBuffer = ArrayVec::new();
    write_request(&mut packet, VERSION, session.next_sequence(), request);
    session.send(packet.as_slice(), asked_of(request));
}
