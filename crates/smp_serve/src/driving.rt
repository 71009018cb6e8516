//! A client is driven over a link.

ghost use Rattle.std.specs.Prelude.{◌≡◌, ◌≢◌, ◌<◌, true, None, Err, length, IfOk, OnErr, OnOk};
ghost use Rattle.smp_edge.specs.Faults.{HasCause};
ghost use Rattle.smp_jobs.specs.Clients.{Client};
ghost use Rattle.smp_jobs.specs.States.{Stands, left, printed_in};
ghost use Rattle.smp_jobs.specs.declared.moves.JobMove.TheVariants as moves;
ghost use Rattle.smp_serve.specs.Driving.{DrivesTo, HearsAt, IsRunning, LinkCause, Prints, SinkCause, TurnUnheard, TurnsTo};
ghost use Rattle.smp_serve.specs.Hearing.{link_state};
ghost use Rattle.smp_serve.specs.declared.driving.ClientFault.TheVariants as faults;

use smp_edge::{Failed, Heard, Link, Peer, Sink};
use smp_jobs::{Job, JobEnd, JobMove};

/// Why a client's drive did not end with its job done and its text written.
#[derive(Clone, Copy, Debug, PartialEq, Eq)]
pub enum ClientFault {
    /// The link failed.
    Link,

    /// The sink failed.
    Write,

    /// The job ended otherwise than done.
    End(JobEnd),
}

/// Hears once, and tells the job. The move is what the job does then.
fn hear<L: Link>(job: &mut Job, link: &mut L, into: &mut [u8]) -> Result<JobMove, Failed>
    requires room { length into.old ≡ 2049 }
    requires runs { IsRunning job.old }
    ensures heard { IfOk result (λ move. (c : Client) → c.ended ≡ None → Stands job.old c → HearsAt c job.new move (L.script link.old) (L.script link.new)) }
    ensures unheard { OnErr result ((c : Client) → c.ended ≡ None → Stands job.old c → TurnUnheard c job.new (link_state (L.script link.old) (L.sent link.old)) (link_state (L.script link.new) (L.sent link.new))) }
    ensures moves { IfOk result (λ move. move ≢ moves.Over) }
    ensures falls { OnOk result (left job.new < left job.old) }
    ensures sent { L.sent link.new ≡ L.sent link.old }
    ensures names { L.names link.new ≡ L.names link.old }
    ensures cause { HasCause (L.faults link.old) (L.faults link.new) result }
{
    match link.hear(into) {
        Ok(Heard::Packet { from: _, length }) => Ok(job.hear(&into[..length])),
        Ok(Heard::Quiet) => Ok(job.quiet()),
        Err(Failed) => Err(Failed),
    }
}

/// Does one turn: whether the client goes on then, or is done.
fn turn<L: Link>(
    job: &mut Job,
    link: &mut L,
    peer: Peer,
    into: &mut [u8],
) -> Result<bool, ClientFault>
    requires room { length into.old ≡ 2049 }
    requires runs { IsRunning job.old }
    ensures turns { (c : Client) → c.ended ≡ None → Stands job.old c → TurnsTo result c peer job.new (link_state (L.script link.old) (L.sent link.old)) (link_state (L.script link.new) (L.sent link.new)) }
    ensures falls { IfOk result (λ goes. goes ≡ true → left job.new < left job.old) }
    ensures runs { IfOk result (λ goes. goes ≡ true → IsRunning job.new) }
    ensures names { L.names link.new ≡ L.names link.old }
    ensures cause { LinkCause result (L.faults link.old) (L.faults link.new) }
{
    match hear(job, link, into) {
        Ok(JobMove::Send) => match link.send(peer, job.packet()) {
            Ok(()) => Ok(true),
            Err(Failed) => Err(ClientFault::Link),
        },
        Ok(JobMove::Wait) => Ok(true),
        Ok(JobMove::Done) => Ok(false),
        Ok(JobMove::Failed(end)) => Err(ClientFault::End(end)),
        Ok(JobMove::Over) => unreachable!(),
        Err(Failed) => Err(ClientFault::Link),
    }
}

/// Sends the job's packet, and does turns until the job has ended.
fn converse<L: Link>(
    job: &mut Job,
    link: &mut L,
    peer: Peer,
    into: &mut [u8],
) -> Result<(), ClientFault>
    requires room { length into.old ≡ 2049 }
    requires runs { IsRunning job.old }
    ensures drives { (c : Client) → c.ended ≡ None → Stands job.old c → DrivesTo result c peer job.new (link_state (L.script link.old) (L.sent link.old)) (link_state (L.script link.new) (L.sent link.new)) }
    ensures names { L.names link.new ≡ L.names link.old }
    ensures cause { LinkCause result (L.faults link.old) (L.faults link.new) }
    ensures unwritten { result ≢ Err faults.Write }
{
    match link.send(peer, job.packet()) {
        Ok(()) => {}
        Err(Failed) => return Err(ClientFault::Link),
    }
    'turns: loop {
        match turn(job, link, peer, into) {
            Ok(true) => {}
            Ok(false) => return Ok(()),
            Err(fault) => return Err(fault),
        }
    }
}

/// Drives a client's job over a link until it ends, and puts the text of a job that is done.
///
/// The packet of the job's open request is sent to the peer first. Then packets are heard, whoever sent them, and waits that are quiet,
/// and what the job asks for at each is sent to the peer. A datagram of more than 2,048 bytes is no packet, so it is no answer.
/// The job is one that has not ended.
///
/// `Link` and `Write` come where the link or the sink failed: then what was sent, or written, is a front. `End` says how a job ended
/// that is not done; nothing is written then.
pub fn drive_client<L: Link, O: Sink>(
    job: &mut Job,
    link: &mut L,
    peer: Peer,
    out: &mut O,
) -> Result<(), ClientFault>
    requires runs { IsRunning job.old }
    ensures drives { (c : Client) → c.ended ≡ None → Stands job.old c → DrivesTo result c peer job.new (link_state (L.script link.old) (L.sent link.old)) (link_state (L.script link.new) (L.sent link.new)) }
    ensures prints { Prints result (printed_in job.new) (O.written out.old) (O.written out.new) }
    ensures names { L.names link.new ≡ L.names link.old }
    ensures link { LinkCause result (L.faults link.old) (L.faults link.new) }
    ensures sink { SinkCause result (O.faults out.old) (O.faults out.new) }
{
    let mut into = [0u8; 2049];
    match converse(job, link, peer, &mut into) {
        Ok(()) => {}
        Err(fault) => return Err(fault),
    }
    match out.put(job.result()) {
        Ok(()) => Ok(()),
        Err(Failed) => Err(ClientFault::Write),
    }
}
