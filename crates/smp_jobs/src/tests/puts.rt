// Conversations of a job that writes a file on the device.

use crate::JobMove::{Done, Failed, Over, Send, Wait};
use crate::tests::rows::Row::{Hears, Quiet, Sends};
use crate::tests::rows::{Digits, Row, bytes_of, first_wrong};
use crate::{Job, JobEnd};
use smp_edge::Octets;
use std::alloc::Global;
use std::test::Fail;

/// 32 bytes 61.
const A: &str = "61616161616161616161616161616161 61616161616161616161616161616161";

/// The 32 bytes 00 to 1f, which stand at 480 in the file.
const LATER: &str = "000102030405060708090a0b0c0d0e0f 101112131415161718191a1b1c1d1e1f";

/// The 8 bytes at 512.
const LAST: &str = "20 21 22 23 24 25 26 27";

/// A file of 520 bytes: 480 bytes 61, then 00 to 27.
pub const FILE: Digits = &[A, A, A, A, A, A, A, A, A, A, A, A, A, A, A, LATER, LAST];

/// {"off": 0, "data": 512 bytes, "len": 520, "name": "f"}, 540 bytes.
const START: Digits = &[
    "a4 63 6f6666 00  64 64617461 59 0200",
    A,
    A,
    A,
    A,
    A,
    A,
    A,
    A,
    A,
    A,
    A,
    A,
    A,
    A,
    A,
    LATER,
    "63 6c656e 19 0208  64 6e616d65 61 66",
];

/// {"off": 512, "data": 8 bytes, "name": "f"}, 29 bytes.
const PART_AT_512: Digits = &[
    "a3 63 6f6666 19 0200  64 64617461 48",
    LAST,
    "64 6e616d65 61 66",
];

/// {"off": 496, "data": 24 bytes, "name": "f"}, 46 bytes.
const PART_AT_496: Digits = &[
    "a3 63 6f6666 19 01f0  64 64617461 58 18",
    "10 11 12 13 14 15 16 17 18 19 1a 1b 1c 1d 1e 1f",
    LAST,
    "64 6e616d65 61 66",
];

/// {"off": 512}; {"off": 496}; {"off": 520}.
const AT_512: Digits = &["a1 63 6f6666 19 0200"];

const AT_496: Digits = &["a1 63 6f6666 19 01f0"];

const AT_520: Digits = &["a1 63 6f6666 19 0208"];

/// The start is a write of 540 bytes to group 8, number 0, command 0, and each answer is a response of 8 bytes.
const UNDISTURBED: [Row; 4] = [
    Sends("0a 00 021c 0008 00 00", START),
    Hears("0b 00 0008 0008 00 00", AT_512, Send),
    Sends("0a 00 001d 0008 01 00", PART_AT_512),
    Hears("0b 00 0008 0008 01 00", AT_520, Done),
];

const DISTURBED: [Row; 20] = [
    Sends("0a 00 021c 0008 00 00", START),
    Quiet(Send),
    Sends("0a 00 021c 0008 00 00", START),
    Hears("0b 00 0008 0008 00 00", AT_512, Send),
    Sends("0a 00 001d 0008 01 00", PART_AT_512),
    // The answer to the start that was sent again; a stale one to a part that was number 9; an answer to a read.
    Hears("0b 00 0008 0008 00 00", AT_512, Wait),
    Hears("0b 00 0008 0008 09 00", AT_520, Wait),
    Hears("09 00 0008 0008 01 00", AT_520, Wait),
    // {}; {"off": -1}.
    Hears("0b 00 0001 0008 01 00", &["a0"], Wait),
    Hears("0b 00 0006 0008 01 00", &["a1 63 6f6666 20"], Wait),
    // The answer is lost, and the part is sent again.
    Quiet(Send),
    Sends("0a 00 001d 0008 01 00", PART_AT_512),
    // The device holds less than was sent: it goes on from there.
    Hears("0b 00 0008 0008 01 00", AT_496, Send),
    Sends("0a 00 002e 0008 02 00", PART_AT_496),
    Quiet(Send),
    Sends("0a 00 002e 0008 02 00", PART_AT_496),
    Hears("0b 00 0008 0008 01 00", AT_496, Wait),
    Hears("0b 00 0008 0008 02 00", AT_520, Done),
    Hears("0b 00 0008 0008 02 00", AT_520, Over),
    Quiet(Over),
];

const BEGUN_ANEW: [Row; 10] = [
    Sends("0a 00 021c 0008 00 00", START),
    Hears("0b 00 0008 0008 00 00", AT_512, Send),
    Sends("0a 00 001d 0008 01 00", PART_AT_512),
    // {"off": 0}: the device holds nothing.
    Hears("0b 00 0006 0008 01 00", &["a1 63 6f6666 00"], Send),
    Sends("0a 00 021c 0008 02 00", START),
    // {"off": 521}: it holds more than the file.
    Hears("0b 00 0008 0008 02 00", &["a1 63 6f6666 19 0209"], Send),
    Sends("0a 00 021c 0008 03 00", START),
    // {"off": 4294967295}, the greatest number that is read.
    Hears("0b 00 000a 0008 03 00", &["a1 63 6f6666 1a ffffffff"], Send),
    Sends("0a 00 021c 0008 04 00", START),
    // {"off": 520, "match": false}: only an upload asks for this.
    Hears(
        "0b 00 000f 0008 04 00",
        &["a2 63 6f6666 19 0208  65 6d61746368 f4"],
        Done,
    ),
];

const REFUSED: [Row; 3] = [
    Sends("0a 00 021c 0008 00 00", START),
    // {"err": {"group": 8, "rc": 64}}: there is no free file.
    Hears(
        "0b 00 0012 0008 00 00",
        &["a1 63 657272 a2 65 67726f7570 08 62 7263 18 40"],
        Failed(JobEnd::Refused {
            group: Some(8),
            number: 64,
        }),
    ),
    Hears("0b 00 0008 0008 00 00", AT_512, Over),
];

const PART_REFUSED: [Row; 4] = [
    Sends("0a 00 021c 0008 00 00", START),
    Hears("0b 00 0008 0008 00 00", AT_512, Send),
    Sends("0a 00 001d 0008 01 00", PART_AT_512),
    // {"err": {"group": 8, "rc": 3}}: the device was started and has no such file.
    Hears(
        "0b 00 0011 0008 01 00",
        &["a1 63 657272 a2 65 67726f7570 08 62 7263 03"],
        Failed(JobEnd::Refused {
            group: Some(8),
            number: 3,
        }),
    ),
];

/// {"off": 0, "data": h'616263', "len": 3, "name": "a"}, 27 bytes, and {"off": 3}.
const ABC: [Row; 2] = [
    Sends(
        "0a 00 001b 0008 00 00",
        &["a4 63 6f6666 00  64 64617461 43 616263  63 6c656e 03  64 6e616d65 61 61"],
    ),
    Hears("0b 00 0006 0008 00 00", &["a1 63 6f6666 03"], Done),
];

/// {"off": 0, "data": h'', "len": 0, "name": "e"}, 24 bytes, and {"off": 0}: an empty file is stored by its start.
const EMPTY: [Row; 2] = [
    Sends(
        "0a 00 0018 0008 00 00",
        &["a4 63 6f6666 00  64 64617461 40  63 6c656e 00  64 6e616d65 61 65"],
    ),
    Hears("0b 00 0006 0008 00 00", &["a1 63 6f6666 00"], Done),
];

/// The writing of a file of at most 1000 bytes under a name.
pub fn put(alloc: Global, name: &str, file: Digits) -> Result<Job, Fail> {
    let bytes = bytes_of(alloc, "", file)?;
    if name.is_empty() || name.len() > 64 || bytes.as_slice().len() > 1000 {
        return Err("a file that no job writes".into());
    }
    Ok(Job::put(alloc, name, Octets::from_slice(alloc, bytes.as_slice())?)?)
}

#[test]
fn writes_a_file(rt: HostRuntime) -> Result<(), Fail> {
    let alloc = rt.alloc();
    for (name, rows, printed) in [
        (
            "undisturbed",
            UNDISTURBED.as_slice(),
            b"stored 520\n".as_slice(),
        ),
        ("disturbed", &DISTURBED, b"stored 520\n"),
        ("begun anew", &BEGUN_ANEW, b"stored 520\n"),
        ("refused", &REFUSED, b""),
        ("part refused", &PART_REFUSED, b""),
    ] {
        let job = put(alloc, "f", FILE)?;
        assert_eq!(rt; first_wrong(alloc, job, rows, printed)?, None, "{name}");
    }
    let job = put(alloc, "a", &["616263"])?;
    assert_eq!(rt; first_wrong(alloc, job, &ABC, b"stored 3\n")?, None);
    let job = put(alloc, "e", &[])?;
    assert_eq!(rt; first_wrong(alloc, job, &EMPTY, b"stored 0\n")?, None);
    Ok(())
}
