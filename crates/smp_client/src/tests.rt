// Conversations worked out by hand from the rules of a session.

use crate::{Move, Session};
use smp_header::read_packet;
use smp_reply::{Answer, Asked};

/// Begins a request where these bytes may begin one.
fn ask(session: &mut Session, packet: &[u8], asked: Asked) -> bool {
    match read_packet(packet) {
        Some(message)
            if (message.op == 0 || message.op == 2)
                && message.sequence == session.next_sequence()
                && !session.is_open() => {
            session.send(packet, asked);
            true
        }
        _ => false,
    }
}

/// What is heard while a request is open, and nothing where none is.
fn hear<'p>(session: &mut Session, packet: &'p [u8]) -> Option<Move<'p>> {
    if session.is_open() {
        return Some(session.hear(packet));
    }
    None
}

/// Ends the wait while a request is open.
fn quiet(session: &mut Session) -> Option<Move<'static>> {
    if session.is_open() {
        return Some(session.quiet());
    }
    None
}

/// An echo of `hi`, in version 2, and its reply with this first byte.
fn echo(sequence: u8) -> [u8; 14] {
    [
        0x0a, 0, 0, 6, 0, 0, sequence, 0, 0xa1, 0x61, b'd', 0x62, b'h', b'i',
    ]
}

fn reply(first: u8, group: u8, sequence: u8, command: u8, key: u8) -> [u8; 14] {
    [
        first, 0, 0, 6, 0, group, sequence, command, 0xa1, 0x61, key, 0x62, b'h', b'i',
    ]
}

#[test]
fn hears_its_answer_alone(rt: HostRuntime) {
    let mut session = Session::new(1);
    assert!(rt; ask(&mut session, &echo(0), Asked::Echo));
    for (packet, why) in [
        (reply(0x0b, 0, 1, 0, b'r'), "another sequence"),
        (reply(0x0b, 1, 0, 0, b'r'), "another group"),
        (reply(0x0b, 0, 0, 1, b'r'), "another command"),
        (reply(0x09, 0, 0, 0, b'r'), "another operation"),
        (reply(0x0a, 0, 0, 0, b'r'), "a request"),
        (reply(0x13, 0, 0, 0, b'r'), "version bits 2"),
        (reply(0x0b, 0, 0, 0, b'd'), "no answer of the kind"),
    ] {
        assert_eq!(rt; hear(&mut session, &packet), Some(Move::Wait), "{why}");
    }
    assert_eq!(rt; hear(&mut session, &[0x0b]), Some(Move::Wait));
    let answer = reply(0x03, 0, 0, 0, b'r');
    assert_eq!(rt;
        hear(&mut session, &answer),
        Some(Move::Answer(Answer::Echo("hi")))
    );
    assert!(rt; !session.is_open());
    assert_eq!(rt; session.packet(), echo(0).as_slice());
}

#[test]
fn ends_a_request_at_the_ninth_wait(rt: HostRuntime) {
    let mut session = Session::new(1);
    assert!(rt; ask(&mut session, &echo(0), Asked::Echo));
    // A wait ends by the 64th stranger, and the count of strangers begins anew with each.
    for _ in 0..8u32 {
        for _ in 0..63u32 {
            assert_eq!(rt; hear(&mut session, &[]), Some(Move::Wait));
        }
        assert_eq!(rt; quiet(&mut session), Some(Move::Send));
    }
    for _ in 0..63u32 {
        assert_eq!(rt; hear(&mut session, &[]), Some(Move::Wait));
    }
    assert_eq!(rt; hear(&mut session, &[]), Some(Move::NoAnswer));
    assert!(rt; !session.is_open());
}

#[test]
fn numbers_go_round(rt: HostRuntime) {
    let mut session = Session::new(1);
    for sequence in 0..=255u8 {
        assert!(rt; ask(&mut session, &echo(sequence), Asked::Echo));
        let answer = reply(0x0b, 0, sequence, 0, b'r');
        assert!(rt; hear(&mut session, &answer).is_some());
    }
    assert_eq!(rt; session.next_sequence(), 0);
    assert!(rt; !ask(&mut session, &echo(1), Asked::Echo));
    assert_eq!(rt; session.version(), 1);
}
