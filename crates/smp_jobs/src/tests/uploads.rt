// Conversations of a job that uploads an image.

use crate::JobEnd;
use crate::JobMove::{Done, Failed, Over, Send, Wait};
use crate::tests::image::{
    AT_32, AT_64, AT_80, BYTES_0, BYTES_32, BYTES_64, DIGEST, IMAGES, MATCHES, PART_AT_32,
    PART_AT_64, START, upload,
};
use crate::tests::rows::Row::{Hears, Quiet, Sends};
use crate::tests::rows::{Digits, Row, first_wrong};
use smp_model::Ending;
use std::test::Fail;

/// Parts are writes to group 1, command 1, and an answered offset is a response of 7 bytes.
const ONLY: [Row; 6] = [
    Sends("0a 00 0059 0001 00 01", START),
    Hears("0b 00 0007 0001 00 01", AT_32, Send),
    Sends("0a 00 0054 0001 01 01", PART_AT_32),
    Hears("0b 00 0007 0001 01 01", AT_64, Send),
    Sends("0a 00 0043 0001 02 01", PART_AT_64),
    Hears("0b 00 000e 0001 02 01", MATCHES, Done),
];

const ONLY_DISTURBED: [Row; 21] = [
    Sends("0a 00 0059 0001 00 01", START),
    // The start is lost.
    Quiet(Send),
    Sends("0a 00 0059 0001 00 01", START),
    // An answer to a later number; of group 8; of the list, command 0.
    Hears("0b 00 0007 0001 01 01", AT_32, Wait),
    Hears("0b 00 0007 0008 00 01", AT_32, Wait),
    Hears("0b 00 0009 0001 00 00", IMAGES, Wait),
    Hears("0b 00 0007 0001 00 01", AT_32, Send),
    Sends("0a 00 0054 0001 01 01", PART_AT_32),
    // The answer to the start that was sent again.
    Hears("0b 00 0007 0001 00 01", AT_32, Wait),
    // The answer is lost, and the device stores the part once.
    Quiet(Send),
    Sends("0a 00 0054 0001 01 01", PART_AT_32),
    Hears("0b 00 0007 0001 01 01", AT_64, Send),
    Sends("0a 00 0043 0001 02 01", PART_AT_64),
    // {}; {"off": 80, "match": 1}; {"off": "80"}.
    Hears("0b 00 0001 0001 02 01", &["a0"], Wait),
    Hears(
        "0b 00 000e 0001 02 01",
        &["a2 63 6f6666 18 50  65 6d61746368 01"],
        Wait,
    ),
    Hears("0b 00 0008 0001 02 01", &["a1 63 6f6666 62 3830"], Wait),
    Quiet(Send),
    Sends("0a 00 0043 0001 02 01", PART_AT_64),
    // The part that completed the upload is there already: nothing is said of a match.
    Hears("0b 00 0007 0001 02 01", AT_80, Done),
    Hears("0b 00 0007 0001 02 01", AT_80, Over),
    Quiet(Over),
];

const ONLY_REFUSED: [Row; 4] = [
    Sends("0a 00 0059 0001 00 01", START),
    // {"err": {"group": 1, "rc": 9}}: there is no free slot.
    Hears(
        "0b 00 0011 0001 00 01",
        &["a1 63 657272 a2 65 67726f7570 01 62 7263 09"],
        Failed(JobEnd::Refused {
            group: Some(1),
            number: 9,
        }),
    ),
    Hears("0b 00 0007 0001 00 01", AT_32, Over),
    Quiet(Over),
];

const ONLY_REFUSED_WITHIN: [Row; 4] = [
    Sends("0a 00 0059 0001 00 01", START),
    Hears("0b 00 0007 0001 00 01", AT_32, Send),
    Sends("0a 00 0054 0001 01 01", PART_AT_32),
    // {"rc": 1} in version 1: the flash failed.
    Hears(
        "03 00 0005 0001 01 01",
        &["a1 62 7263 01"],
        Failed(JobEnd::Refused {
            group: None,
            number: 1,
        }),
    ),
];

/// The device has the first 64 bytes from before.
const RESUMED: [Row; 4] = [
    Sends("0a 00 0059 0001 00 01", START),
    Hears("0b 00 0007 0001 00 01", AT_64, Send),
    Sends("0a 00 0043 0001 01 01", PART_AT_64),
    Hears("0b 00 000e 0001 01 01", MATCHES, Done),
];

/// The device goes back within the upload, to 33, which is no end of a part: {"off": 33, "sha": DIGEST, "data": 32 bytes}.
const BACK: [Row; 8] = [
    Sends("0a 00 0059 0001 00 01", START),
    Hears("0b 00 0007 0001 00 01", AT_64, Send),
    Sends("0a 00 0043 0001 01 01", PART_AT_64),
    // {"off": 33}
    Hears("0b 00 0007 0001 01 01", &["a1 63 6f6666 18 21"], Send),
    Sends(
        "0a 00 0054 0001 02 01",
        &[
            "a3 63 6f6666 18 21  63 736861 58 20",
            DIGEST,
            "64 64617461 58 20",
            "01020304050607 0769 2800 1000 2000 e3103e985884e987aaeb3091f107d4ad 2a",
        ],
    ),
    // {"off": 79}
    Hears("0b 00 0007 0001 02 01", &["a1 63 6f6666 18 4f"], Send),
    // {"off": 79, "sha": DIGEST, "data": h'0d'}, 52 bytes.
    Sends(
        "0a 00 0034 0001 03 01",
        &[
            "a3 63 6f6666 18 4f  63 736861 58 20",
            DIGEST,
            "64 64617461 41 0d",
        ],
    ),
    Hears("0b 00 000e 0001 03 01", MATCHES, Done),
];

/// Parts of 36 bytes, of which the device keeps 32, since it writes 8 bytes at a time.
const KEPT_IN_UNITS: [Row; 6] = [
    Sends(
        "0a 00 005d 0001 00 01",
        &[
            "a4 63 6c656e 18 50  63 6f6666 00  63 736861 58 20",
            DIGEST,
            "64 64617461 58 24",
            BYTES_0,
            "00010203",
        ],
    ),
    Hears("0b 00 0007 0001 00 01", AT_32, Send),
    Sends(
        "0a 00 0058 0001 01 01",
        &[
            "a3 63 6f6666 18 20  63 736861 58 20",
            DIGEST,
            "64 64617461 58 24",
            BYTES_32,
            "2ae5ff47",
        ],
    ),
    Hears("0b 00 0007 0001 01 01", AT_64, Send),
    Sends("0a 00 0043 0001 02 01", PART_AT_64),
    Hears("0b 00 000e 0001 02 01", MATCHES, Done),
];

/// The whole file in its start: {"len": 80, "off": 0, "sha": DIGEST, "data": 80 bytes}, 137 bytes.
const WHOLE: Digits = &[
    "a4 63 6c656e 18 50  63 6f6666 00  63 736861 58 20",
    DIGEST,
    "64 64617461 58 50",
    BYTES_0,
    BYTES_32,
    BYTES_64,
];

const AT_ONCE: [Row; 2] = [
    Sends("0a 00 0089 0001 00 01", WHOLE),
    Hears("0b 00 000e 0001 00 01", MATCHES, Done),
];

/// {"off": 80, "match": false}
const MISMATCH_AT_ONCE: [Row; 2] = [
    Sends("0a 00 0089 0001 00 01", WHOLE),
    Hears(
        "0b 00 000e 0001 00 01",
        &["a2 63 6f6666 18 50  65 6d61746368 f4"],
        Failed(JobEnd::Mismatch),
    ),
];

/// An answer past the end, and one at 0, have the start sent anew.
const BEGUN_ANEW: [Row; 10] = [
    Sends("0a 00 0059 0001 00 01", START),
    // {"off": 81}
    Hears("0b 00 0007 0001 00 01", &["a1 63 6f6666 18 51"], Send),
    Sends("0a 00 0059 0001 01 01", START),
    Hears("0b 00 0007 0001 01 01", AT_32, Send),
    Sends("0a 00 0054 0001 02 01", PART_AT_32),
    // {"off": 0}: the upload was erased.
    Hears("0b 00 0006 0001 02 01", &["a1 63 6f6666 00"], Send),
    Sends("0a 00 0059 0001 03 01", START),
    // {"off": 0, "match": true}
    Hears(
        "0b 00 000d 0001 03 01",
        &["a2 63 6f6666 00  65 6d61746368 f5"],
        Send,
    ),
    Sends("0a 00 0059 0001 04 01", START),
    Hears("0b 00 000e 0001 04 01", MATCHES, Done),
];

/// {"off": 80, "match": false}, and then what the device would answer.
const MISMATCH: [Row; 7] = [
    Sends("0a 00 0059 0001 00 01", START),
    Hears("0b 00 0007 0001 00 01", AT_64, Send),
    Sends("0a 00 0043 0001 01 01", PART_AT_64),
    Hears(
        "0b 00 000e 0001 01 01",
        &["a2 63 6f6666 18 50  65 6d61746368 f4"],
        Failed(JobEnd::Mismatch),
    ),
    Hears("0b 00 0006 0001 01 01", &["a1 63 6f6666 00"], Over),
    Hears("0b 00 000e 0001 01 01", MATCHES, Over),
    Quiet(Over),
];

/// {"off": 48, "match": false}: at an offset that is not the end.
const MISMATCH_WITHIN: [Row; 2] = [
    Sends("0a 00 0059 0001 00 01", START),
    Hears(
        "0b 00 000e 0001 00 01",
        &["a2 63 6f6666 18 30  65 6d61746368 f4"],
        Failed(JobEnd::Mismatch),
    ),
];

/// {"off": 0, "match": false}: where the start would be sent anew.
const MISMATCH_AT_0: [Row; 2] = [
    Sends("0a 00 0059 0001 00 01", START),
    Hears(
        "0b 00 000d 0001 00 01",
        &["a2 63 6f6666 00  65 6d61746368 f4"],
        Failed(JobEnd::Mismatch),
    ),
];

/// {"off": 81, "match": false}: past the end.
const MISMATCH_PAST_THE_END: [Row; 2] = [
    Sends("0a 00 0059 0001 00 01", START),
    Hears(
        "0b 00 000e 0001 00 01",
        &["a2 63 6f6666 18 51  65 6d61746368 f4"],
        Failed(JobEnd::Mismatch),
    ),
];

#[test]
fn uploads_an_image(rt: HostRuntime) -> Result<(), Fail> {
    let alloc = rt.alloc();
    for (name, rows, printed) in [
        ("undisturbed", ONLY.as_slice(), b"done 80\n".as_slice()),
        ("disturbed", &ONLY_DISTURBED, b"done 80\n"),
        ("refused", &ONLY_REFUSED, b""),
        ("refused within", &ONLY_REFUSED_WITHIN, b""),
        ("resumed", &RESUMED, b"done 80\n"),
        ("back", &BACK, b"done 80\n"),
        ("begun anew", &BEGUN_ANEW, b"done 80\n"),
        ("mismatch", &MISMATCH, b""),
        ("mismatch within", &MISMATCH_WITHIN, b""),
        ("mismatch at 0", &MISMATCH_AT_0, b""),
        ("mismatch past the end", &MISMATCH_PAST_THE_END, b""),
    ] {
        let job = upload(alloc, 0, 32, Ending::Only)?;
        assert_eq!(rt; first_wrong(alloc, job, rows, printed)?, None, "{name}");
    }
    for (name, chunk, rows, printed) in [
        (
            "kept in units",
            36,
            KEPT_IN_UNITS.as_slice(),
            b"done 80\n".as_slice(),
        ),
        ("at once", 80, &AT_ONCE, b"done 80\n"),
        (
            "at once, chunks longer than the file",
            1900,
            &AT_ONCE,
            b"done 80\n",
        ),
        ("mismatch at once", 80, &MISMATCH_AT_ONCE, b""),
    ] {
        let job = upload(alloc, 0, chunk, Ending::Only)?;
        assert_eq!(rt; first_wrong(alloc, job, rows, printed)?, None, "{name}");
    }
    Ok(())
}
