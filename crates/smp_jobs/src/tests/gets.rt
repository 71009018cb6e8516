// Conversations of a job that reads a file of the device.

use crate::JobMove::{Done, Failed, Over, Send, Wait};
use crate::tests::rows::Row::{Hears, Quiet, Sends};
use crate::tests::rows::{Digits, Row, first_wrong};
use crate::{Job, JobEnd};
use std::test::Fail;

/// {"off": 0, "name": "a"}, 13 bytes, and the same from 2, 3 and 4 on. Each is a read from group 8, command 0.
const FROM_0: Digits = &["a2 63 6f6666 00  64 6e616d65 61 61"];

const FROM_2: Digits = &["a2 63 6f6666 02  64 6e616d65 61 61"];

const FROM_3: Digits = &["a2 63 6f6666 03  64 6e616d65 61 61"];

const FROM_4: Digits = &["a2 63 6f6666 04  64 6e616d65 61 61"];

/// {"off": 0, "data": h'616263', "len": 5}, 20 bytes.
const ABC_OF_5: Digits = &["a3 63 6f6666 00  64 64617461 43 616263  63 6c656e 05"];

/// {"off": 3, "data": h'6465'}, 14 bytes.
const DE: Digits = &["a2 63 6f6666 03  64 64617461 42 6465"];

/// {"off": 0, "data": h'616263', "len": 3}
const UNDISTURBED: [Row; 2] = [
    Sends("08 00 000d 0008 00 00", FROM_0),
    Hears(
        "09 00 0014 0008 00 00",
        &["a3 63 6f6666 00  64 64617461 43 616263  63 6c656e 03"],
        Done,
    ),
];

const TWO_PARTS: [Row; 4] = [
    Sends("08 00 000d 0008 00 00", FROM_0),
    Hears("09 00 0014 0008 00 00", ABC_OF_5, Send),
    Sends("08 00 000d 0008 01 00", FROM_3),
    Hears("09 00 000e 0008 01 00", DE, Done),
];

const DISTURBED: [Row; 19] = [
    Sends("08 00 000d 0008 00 00", FROM_0),
    // The request is lost.
    Quiet(Send),
    Sends("08 00 000d 0008 00 00", FROM_0),
    Hears("09 00 0014 0008 00 00", ABC_OF_5, Send),
    Sends("08 00 000d 0008 01 00", FROM_3),
    // The answer to the packet that was sent again; a stale one; the response to a write; the length of a file, command 1.
    Hears("09 00 0014 0008 00 00", ABC_OF_5, Wait),
    Hears("09 00 000e 0008 fe 00", DE, Wait),
    Hears("0b 00 0006 0008 01 00", &["a1 63 6f6666 03"], Wait),
    Hears("09 00 0006 0008 01 01", &["a1 63 6c656e 05"], Wait),
    // No data; data that is a text; a length that is a text.
    Hears("09 00 0006 0008 01 00", &["a1 63 6f6666 03"], Wait),
    Hears(
        "09 00 000e 0008 01 00",
        &["a2 63 6f6666 03  64 64617461 62 6465"],
        Wait,
    ),
    Hears(
        "09 00 0014 0008 01 00",
        &["a3 63 6f6666 03  64 64617461 42 6465  63 6c656e 61 35"],
        Wait,
    ),
    // The answer is lost twice.
    Quiet(Send),
    Sends("08 00 000d 0008 01 00", FROM_3),
    Quiet(Send),
    Sends("08 00 000d 0008 01 00", FROM_3),
    Hears("09 00 000e 0008 01 00", DE, Done),
    Hears("09 00 000e 0008 01 00", DE, Over),
    Quiet(Over),
];

/// Answers that help nothing: each is asked for again, with the next number.
const DROPPED: [Row; 16] = [
    Sends("08 00 000d 0008 00 00", FROM_0),
    // {"off": 3, "data": h'6465'}: another offset.
    Hears("09 00 000e 0008 00 00", DE, Send),
    Sends("08 00 000d 0008 01 00", FROM_0),
    // {"off": 0, "data": h'616263', "len": 2}: past the length.
    Hears(
        "09 00 0014 0008 01 00",
        &["a3 63 6f6666 00  64 64617461 43 616263  63 6c656e 02"],
        Send,
    ),
    Sends("08 00 000d 0008 02 00", FROM_0),
    Hears("09 00 0014 0008 02 00", ABC_OF_5, Send),
    Sends("08 00 000d 0008 03 00", FROM_3),
    // {"off": 3, "data": h''}: no progress.
    Hears(
        "09 00 000c 0008 03 00",
        &["a2 63 6f6666 03  64 64617461 40"],
        Send,
    ),
    Sends("08 00 000d 0008 04 00", FROM_3),
    // {"off": 3, "data": h'646566'}: past the length.
    Hears(
        "09 00 000f 0008 04 00",
        &["a2 63 6f6666 03  64 64617461 43 646566"],
        Send,
    ),
    Sends("08 00 000d 0008 05 00", FROM_3),
    // {"off": 3, "data": h'64', "len": 9}: a length that comes elsewhere than at 0 is no length.
    Hears(
        "09 00 0012 0008 05 00",
        &["a3 63 6f6666 03  64 64617461 41 64  63 6c656e 09"],
        Send,
    ),
    Sends("08 00 000d 0008 06 00", FROM_4),
    // {"off": 2, "data": h'6364'}: another offset.
    Hears(
        "09 00 000e 0008 06 00",
        &["a2 63 6f6666 02  64 64617461 42 6364"],
        Send,
    ),
    Sends("08 00 000d 0008 07 00", FROM_4),
    // {"off": 4, "data": h'65'}
    Hears(
        "09 00 000d 0008 07 00",
        &["a2 63 6f6666 04  64 64617461 41 65"],
        Done,
    ),
];

/// The length comes again, and is another: {"off": 0, "data": h'7778797a', "len": 4}. Its data is not taken, since 3 bytes are held.
const LENGTH_COMES_AGAIN: [Row; 6] = [
    Sends("08 00 000d 0008 00 00", FROM_0),
    Hears("09 00 0014 0008 00 00", ABC_OF_5, Send),
    Sends("08 00 000d 0008 01 00", FROM_3),
    Hears(
        "09 00 0015 0008 01 00",
        &["a3 63 6f6666 00  64 64617461 44 7778797a  63 6c656e 04"],
        Send,
    ),
    Sends("08 00 000d 0008 02 00", FROM_3),
    // {"off": 3, "data": h'64'}
    Hears(
        "09 00 000d 0008 02 00",
        &["a2 63 6f6666 03  64 64617461 41 64"],
        Done,
    ),
];

/// The length comes with a later answer, and is what is held already.
const LENGTH_COMES_LATER: [Row; 4] = [
    Sends("08 00 000d 0008 00 00", FROM_0),
    // {"off": 0, "data": h'6162'}
    Hears(
        "09 00 000e 0008 00 00",
        &["a2 63 6f6666 00  64 64617461 42 6162"],
        Send,
    ),
    Sends("08 00 000d 0008 01 00", FROM_2),
    // {"off": 0, "data": h'7879', "len": 2}
    Hears(
        "09 00 0013 0008 01 00",
        &["a3 63 6f6666 00  64 64617461 42 7879  63 6c656e 02"],
        Done,
    ),
];

/// {"off": 0, "data": h'', "len": 0}
const EMPTY: [Row; 2] = [
    Sends("08 00 000d 0008 00 00", FROM_0),
    Hears(
        "09 00 0011 0008 00 00",
        &["a3 63 6f6666 00  64 64617461 40  63 6c656e 00"],
        Done,
    ),
];

const REFUSED: [Row; 3] = [
    Sends("08 00 000d 0008 00 00", FROM_0),
    // {"err": {"group": 8, "rc": 3}}: there is no such file.
    Hears(
        "09 00 0011 0008 00 00",
        &["a1 63 657272 a2 65 67726f7570 08 62 7263 03"],
        Failed(JobEnd::Refused {
            group: Some(8),
            number: 3,
        }),
    ),
    Hears("09 00 0014 0008 00 00", ABC_OF_5, Over),
];

/// What is held of a file that is refused then is not printed.
const REFUSED_WITHIN: [Row; 4] = [
    Sends("08 00 000d 0008 00 00", FROM_0),
    Hears("09 00 0014 0008 00 00", ABC_OF_5, Send),
    Sends("08 00 000d 0008 01 00", FROM_3),
    // {"rc": 5} in version 1.
    Hears(
        "01 00 0005 0008 01 00",
        &["a1 62 7263 05"],
        Failed(JobEnd::Refused {
            group: None,
            number: 5,
        }),
    ),
];

#[test]
fn reads_a_file(rt: HostRuntime) -> Result<(), Fail> {
    let alloc = rt.alloc();
    for (name, rows, printed) in [
        ("undisturbed", UNDISTURBED.as_slice(), b"abc".as_slice()),
        ("two parts", &TWO_PARTS, b"abcde"),
        ("disturbed", &DISTURBED, b"abcde"),
        ("dropped", &DROPPED, b"abcde"),
        ("length comes again", &LENGTH_COMES_AGAIN, b"abcd"),
        ("length comes later", &LENGTH_COMES_LATER, b"ab"),
        ("empty", &EMPTY, b""),
        ("refused", &REFUSED, b""),
        ("refused within", &REFUSED_WITHIN, b""),
    ] {
        let job = Job::get(alloc, "a")?;
        assert_eq!(rt; first_wrong(alloc, job, rows, printed)?, None, "{name}");
    }
    Ok(())
}
