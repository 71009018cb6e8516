// Conversations of a job that has the text `hi` echoed.

use crate::JobMove::{Done, Failed, Over, Send, Wait};
use crate::tests::rows::Row::{Hears, Quiet, Sends};
use crate::tests::rows::{Digits, Row, first_wrong};
use crate::{Job, JobEnd};
use std::test::Fail;

/// The write of 6 bytes of data to group 0, number 0, command 0.
const WRITE: &str = "0a 00 0006 0000 00 00";

/// {"d": "hi"}
const ECHO: Digits = &["a1 61 64 62 6869"];

/// The response of 6 bytes to it.
const RESPONSE: &str = "0b 00 0006 0000 00 00";

/// {"r": "hi"}
const HI: Digits = &["a1 61 72 62 6869"];

const UNDISTURBED: [Row; 2] = [Sends(WRITE, ECHO), Hears(RESPONSE, HI, Done)];

const DISTURBED: [Row; 12] = [
    Sends(WRITE, ECHO),
    // The request is lost, and then its answer.
    Quiet(Send),
    Sends(WRITE, ECHO),
    Quiet(Send),
    Sends(WRITE, ECHO),
    // The request itself comes back: a write is no response.
    Hears(WRITE, ECHO, Wait),
    // An answer to an older session's request 255.
    Hears("0b 00 0006 0000 ff 00", HI, Wait),
    // Of group 1; of command 6; the response to a read.
    Hears("0b 00 0006 0001 00 00", HI, Wait),
    Hears("0b 00 0006 0000 00 06", HI, Wait),
    Hears("09 00 0006 0000 00 00", HI, Wait),
    Hears(RESPONSE, HI, Done),
    // The answer to the packet that was sent again.
    Hears(RESPONSE, HI, Over),
];

const NO_ANSWERS: [Row; 11] = [
    Sends(WRITE, ECHO),
    // Version bits 2: neither version 1 nor 2.
    Hears("13 00 0006 0000 00 00", HI, Wait),
    // A length of 7 before 6 bytes; no packet at all.
    Hears("0b 00 0007 0000 00 00", HI, Wait),
    Hears("6e6f", &[], Wait),
    // {"d": "hi"}; {"r": 1}; {}; {"rc": 0}, which is no error and has no text.
    Hears("0b 00 0006 0000 00 00", &["a1 61 64 62 6869"], Wait),
    Hears("0b 00 0004 0000 00 00", &["a1 61 72 01"], Wait),
    Hears("0b 00 0001 0000 00 00", &["a0"], Wait),
    Hears("0b 00 0005 0000 00 00", &["a1 62 7263 00"], Wait),
    // {"err": {"rc": 4}}: an error of no group.
    Hears(
        "0b 00 000a 0000 00 00",
        &["a1 63 657272 a1 62 7263 04"],
        Wait,
    ),
    // A byte behind the map.
    Hears("0b 00 0007 0000 00 00", &["a1 61 72 62 6869 00"], Wait),
    // {"rc": 0, "r": "ho"}: the text that was answered is printed.
    Hears(
        "0b 00 000a 0000 00 00",
        &["a2 62 7263 00 61 72 62 686f"],
        Done,
    ),
];

/// Reserved bits and flags are ignored, and so is another key; the map may be indefinite: {"x": 0, "r": "hi"}.
const LENIENT: [Row; 2] = [
    Sends(WRITE, ECHO),
    Hears(
        "eb ff 000a 0000 00 00",
        &["bf 61 78 00 61 72 62 6869 ff"],
        Done,
    ),
];

/// {"r": "hi"} in version 1.
const IN_VERSION_1: [Row; 2] = [Sends(WRITE, ECHO), Hears("03 00 0006 0000 00 00", HI, Done)];

const REFUSED: [Row; 4] = [
    Sends(WRITE, ECHO),
    // {"rc": 8}
    Hears(
        "0b 00 0005 0000 00 00",
        &["a1 62 7263 08"],
        Failed(JobEnd::Refused {
            group: None,
            number: 8,
        }),
    ),
    Hears(RESPONSE, HI, Over),
    Quiet(Over),
];

const REFUSED_BY_A_GROUP: [Row; 2] = [
    Sends(WRITE, ECHO),
    // {"err": {"group": 0, "rc": 4}}
    Hears(
        "0b 00 0011 0000 00 00",
        &["a1 63 657272 a2 65 67726f7570 00 62 7263 04"],
        Failed(JobEnd::Refused {
            group: Some(0),
            number: 4,
        }),
    ),
];

const UNANSWERED: [Row; 19] = [
    Sends(WRITE, ECHO),
    Quiet(Send),
    Sends(WRITE, ECHO),
    Quiet(Send),
    Sends(WRITE, ECHO),
    Quiet(Send),
    Sends(WRITE, ECHO),
    Quiet(Send),
    Sends(WRITE, ECHO),
    Quiet(Send),
    Sends(WRITE, ECHO),
    Quiet(Send),
    Sends(WRITE, ECHO),
    Quiet(Send),
    Sends(WRITE, ECHO),
    Quiet(Send),
    Sends(WRITE, ECHO),
    Quiet(Failed(JobEnd::NoAnswer)),
    Hears(RESPONSE, HI, Over),
];

#[test]
fn has_a_text_echoed(rt: HostRuntime) -> Result<(), Fail> {
    let alloc = rt.alloc();
    for (name, rows, printed) in [
        ("undisturbed", UNDISTURBED.as_slice(), b"hi\n".as_slice()),
        ("disturbed", &DISTURBED, b"hi\n"),
        ("no answers", &NO_ANSWERS, b"ho\n"),
        ("lenient", &LENIENT, b"hi\n"),
        ("in version 1", &IN_VERSION_1, b"hi\n"),
        ("refused", &REFUSED, b""),
        ("refused by a group", &REFUSED_BY_A_GROUP, b""),
        ("unanswered", &UNANSWERED, b""),
    ] {
        let job = Job::echo(alloc, "hi")?;
        assert_eq!(rt; first_wrong(alloc, job, rows, printed)?, None, "{name}");
    }
    Ok(())
}
