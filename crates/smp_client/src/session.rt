// One request at a time.
ghost use Rattle.std.specs.Prelude.{◌≡◌, ◌≤◌, ℕ, List, length, IsSome, None, option_map};
ghost use Rattle.std.specs.Option.{is_some};
ghost use Rattle.smp_header.specs.Message.{message_of, packet};
ghost use Rattle.smp_header.specs.declared.TheConstants.{LARGEST_PACKET};
ghost use Rattle.smp_reply.specs.Told.{told_of};
ghost use Rattle.smp_client.specs.Requests.{is_reply_to, is_strange, wait_ends, answer_by, answer_of_bytes};
ghost use Rattle.smp_client.specs.Sessions.{CanSend, Does, Hears, Waited, new_session, with_request};
ghost use Rattle.smp_client.specs.Waits.{message_at, open_of, request_of, EndsWait};

use crate::waiting::{Header, Waiting};
use arrayvec::ArrayVec;
use smp_header::{Packet, PacketBuffer, read_packet};
use smp_reply::{Answer, Asked, answer_of};
use std::marker::Model;

/// The waits of a request: after each but the last its packet is sent again.
const WAITS: u8 = 9;

/// So many packets that are no answer end a wait.
const STRANGERS: u8 = 64;

/// What a session does next. The data of an answer is lent from the packet that was heard.
#[derive(Clone, Copy, Debug, PartialEq, Eq)]
pub enum Move<'p> {
    /// Send [`Session::packet`] again.
    Send,
    /// Go on waiting.
    Wait,
    /// The request is answered, and no longer open.
    Answer(Answer<'p>),
    /// The last wait ended without an answer. The request is no longer open.
    NoAnswer,
}

/// A session of a client with one device.
#[derive(Drop)]
pub struct Session {
    version: u8,
    next: u8,
    packet: PacketBuffer,
    waiting: Option<Waiting>,
}

impl Model for Session {
    ghost use Rattle.smp_client.specs.Sessions.{Session};
    ghost use Rattle.smp_client.specs.Waits.{request_of};

    ghost Value = { Session };

    ghost view = { λ s. record {
      version = s.version;
      next = s.next;
      packet = s.packet.items;
      request = request_of s.packet.items s.waiting;
    } };
}

/// Whether a packet is a reply to the request.
fn is_reply(header: &Header, packet: &Packet<'_>) -> bool
    ensures { (bytes : List ℕ) → result ≡ is_reply_to (message_at bytes header.now) (message_of packet.now) }
{
    packet.sequence == header.sequence
        && packet.group == header.group
        && packet.command == header.command
        && u16::from(packet.op) == u16::from(header.op) + 1
        && packet.version < 2
}

/// The answer that a packet brings to the request.
fn answer_in<'p>(header: &Header, packet: &Packet<'p>) -> Option<Answer<'p>>
    ensures { (own : List ℕ) → option_map told_of result ≡ answer_by (message_at own header.now) header.now.asked (message_of packet.now) }
{
    if is_reply(header, packet) {
        answer_of(packet, header.asked)
    } else {
        None
    }
}

/// The answer that bytes bring to the request.
fn answer_to<'p>(header: &Header, bytes: &'p [u8]) -> Option<Answer<'p>>
    ensures { (own : List ℕ) → option_map told_of result ≡ answer_of_bytes (message_at own header.now) header.now.asked bytes.now }
{
    match read_packet(bytes) {
        Some(packet) => answer_in(header, &packet),
        None => None,
    }
}

/// The request after a wait ended without an answer, where there is one more.
fn next_wait(waiting: Waiting) -> Option<Waiting>
    ensures { (own : List ℕ) → EndsWait (wait_ends (open_of own waiting)) (request_of own result) }
{
    if waiting.waits + 1 == WAITS {
        return None;
    }
    Some(Waiting {
        header: waiting.header,
        waits: waiting.waits + 1,
        strangers: 0,
    })
}

impl Session {
    /// A session whose packets have these version bits: 0 for version 1 of the protocol, 1 for version 2. Its first request
    /// has the sequence number 0.
    pub fn new(version: u8) -> Session
        ensures { result ≡ new_session version }
    {
        Session {
            version,
            next: 0,
            packet: ArrayVec::new(),
            waiting: None,
        }
    }

    /// The version bits of the session's packets.
    pub fn version(&self) -> u8
        ensures { result ≡ self.now.version }
    {
        self.version
    }

    /// The sequence number of the next request.
    pub fn next_sequence(&self) -> u8
        ensures { result ≡ self.now.next }
    {
        self.next
    }

    /// Whether a request waits for its answer.
    pub fn is_open(&self) -> bool
        ensures { result ≡ is_some self.now.request }
    {
        self.waiting.is_some()
    }

    /// The packet that was sent last, which [`Move::Send`] sends again. Before the first there are no bytes.
    pub fn packet(&self) -> &[u8]
        ensures packet { result.now ≡ self.now.packet }
        ensures fits { length result.now ≤ LARGEST_PACKET }
    {
        self.packet.as_slice()
    }

    /// Ends the wait of this request, which is the open one.
    fn end_wait(&mut self, waiting: Waiting) -> Move<'static>
        ensures { Does self.old self.new result (wait_ends (open_of self.old.packet waiting)) }
    {
        match next_wait(waiting) {
            Some(next) => {
                self.waiting = Some(next);
                Move::Send
            }
            None => {
                self.waiting = None;
                Move::NoAnswer
            }
        }
    }

    /// Hears a packet that is no answer to this request, which is the open one.
    fn hear_stranger(&mut self, waiting: Waiting) -> Move<'static>
        ensures { Does self.old self.new result (is_strange (open_of self.old.packet waiting)) }
    {
        if waiting.strangers + 1 == STRANGERS {
            return self.end_wait(waiting);
        }
        self.waiting = Some(Waiting {
            header: waiting.header,
            waits: waiting.waits,
            strangers: waiting.strangers + 1,
        });
        Move::Wait
    }

    /// Begins a request: its packet is the one to send, and an answer of that kind is waited for. No request may be open, and
    /// the packet is a read or a write with the session's next sequence number, which goes up by one, and to 0 after 255.
    pub fn send(&mut self, packet: &[u8], asked: Asked)
        requires { CanSend self.old packet.now }
        ensures { self.new ≡ with_request self.old packet.now asked }
    {
        let Some(message) = read_packet(packet) else {
            return;
        };
        self.next = self.next.wrapping_add(1);
        self.packet.clear();
        let _ = self.packet.try_extend_from_slice(packet);
        let header = Header {
            version: message.version,
            op: message.op,
            group: message.group,
            sequence: message.sequence,
            command: message.command,
            asked,
        };
        self.waiting = Some(header.opened());
    }

    /// Hears a packet while a request is open. A packet that is no answer ends the wait where it is the 64th of them since the
    /// wait began.
    pub fn hear<'p>(&mut self, packet: &'p [u8]) -> Move<'p>
        requires { IsSome self.old.request }
        ensures { Hears self.old.request self.old self.new packet.now result }
    {
        let Some(waiting) = self.waiting else {
            return Move::NoAnswer;
        };
        match answer_to(&waiting.header, packet) {
            Some(answer) => {
                self.waiting = None;
                Move::Answer(answer)
            }
            None => self.hear_stranger(waiting),
        }
    }

    /// Ends the wait of the open request.
    pub fn quiet(&mut self) -> Move<'static>
        requires { IsSome self.old.request }
        ensures { Waited self.old.request self.old self.new result }
    {
        let Some(waiting) = self.waiting else {
            return Move::NoAnswer;
        };
        self.end_wait(waiting)
    }
}
