// Conversations of a job that uploads an image and has it marked, and of uploads to image 1.

use crate::JobEnd;
use crate::JobMove::{Done, Failed, Over, Send, Wait};
use crate::tests::image::{
    AT_32, AT_64, AT_80, CONFIRM, IMAGES, MATCHES, PART_AT_32, PART_AT_32_1, PART_AT_64,
    PART_AT_64_1, START, START_1, TEST, upload,
};
use crate::tests::rows::Row::{Hears, Quiet, Sends};
use crate::tests::rows::{Row, first_wrong};
use smp_model::Ending;
use std::test::Fail;

/// A mark is a write to group 1, command 0.
const TEST_UNDISTURBED: [Row; 8] = [
    Sends("0a 00 0059 0001 00 01", START),
    Hears("0b 00 0007 0001 00 01", AT_32, Send),
    Sends("0a 00 0054 0001 01 01", PART_AT_32),
    Hears("0b 00 0007 0001 01 01", AT_64, Send),
    Sends("0a 00 0043 0001 02 01", PART_AT_64),
    Hears("0b 00 000e 0001 02 01", MATCHES, Send),
    Sends("0a 00 0028 0001 03 00", TEST),
    Hears("0b 00 0009 0001 03 00", IMAGES, Done),
];

const TEST_DISTURBED: [Row; 16] = [
    Sends("0a 00 0059 0001 00 01", START),
    // The answer is lost. The device has the whole file from before.
    Quiet(Send),
    Sends("0a 00 0059 0001 00 01", START),
    Hears("0b 00 0007 0001 00 01", AT_80, Send),
    Sends("0a 00 0028 0001 01 00", TEST),
    // The answer to the start that was sent again; to an older part 1; to a list 1, which is a read; to an older mark 9.
    Hears("0b 00 0007 0001 00 01", AT_80, Wait),
    Hears("0b 00 0007 0001 01 01", AT_80, Wait),
    Hears("09 00 0009 0001 01 00", IMAGES, Wait),
    Hears("0b 00 0009 0001 09 00", IMAGES, Wait),
    // The answer is lost twice.
    Quiet(Send),
    Sends("0a 00 0028 0001 01 00", TEST),
    Quiet(Send),
    Sends("0a 00 0028 0001 01 00", TEST),
    Hears("0b 00 0009 0001 01 00", IMAGES, Done),
    Hears("0b 00 0009 0001 01 00", IMAGES, Over),
    Quiet(Over),
];

const TEST_REFUSED: [Row; 7] = [
    Sends("0a 00 0059 0001 00 01", START),
    Hears("0b 00 0007 0001 00 01", AT_64, Send),
    Sends("0a 00 0043 0001 01 01", PART_AT_64),
    Hears("0b 00 000e 0001 01 01", MATCHES, Send),
    Sends("0a 00 0028 0001 02 00", TEST),
    // {"err": {"group": 1, "rc": 8}}: no slot has an image with this hash.
    Hears(
        "0b 00 0011 0001 02 00",
        &["a1 63 657272 a2 65 67726f7570 01 62 7263 08"],
        Failed(JobEnd::Refused {
            group: Some(1),
            number: 8,
        }),
    ),
    Hears("0b 00 0009 0001 02 00", IMAGES, Over),
];

const CONFIRM_UNDISTURBED: [Row; 8] = [
    Sends("0a 00 0059 0001 00 01", START),
    Hears("0b 00 0007 0001 00 01", AT_32, Send),
    Sends("0a 00 0054 0001 01 01", PART_AT_32),
    Hears("0b 00 0007 0001 01 01", AT_64, Send),
    Sends("0a 00 0043 0001 02 01", PART_AT_64),
    Hears("0b 00 000e 0001 02 01", MATCHES, Send),
    Sends("0a 00 0031 0001 03 00", CONFIRM),
    // {}: any answer without an error will do.
    Hears("0b 00 0001 0001 03 00", &["a0"], Done),
];

const CONFIRM_DISTURBED: [Row; 15] = [
    Sends("0a 00 0059 0001 00 01", START),
    Hears("0b 00 0007 0001 00 01", AT_64, Send),
    Sends("0a 00 0043 0001 01 01", PART_AT_64),
    Hears("0b 00 0007 0001 00 01", AT_64, Wait),
    Quiet(Send),
    Sends("0a 00 0043 0001 01 01", PART_AT_64),
    Hears("0b 00 0007 0001 01 01", AT_80, Send),
    Sends("0a 00 0031 0001 02 00", CONFIRM),
    // The answer to the part that was sent again; an answer of an older session to request 2, a part.
    Hears("0b 00 0007 0001 01 01", AT_80, Wait),
    Hears("0b 00 0007 0001 02 01", AT_32, Wait),
    Quiet(Send),
    Sends("0a 00 0031 0001 02 00", CONFIRM),
    Hears("0b 00 0009 0001 02 00", IMAGES, Done),
    Hears("0b 00 0009 0001 02 00", IMAGES, Over),
    Quiet(Over),
];

const CONFIRM_REFUSED: [Row; 4] = [
    Sends("0a 00 0059 0001 00 01", START),
    Hears("0b 00 0007 0001 00 01", AT_80, Send),
    Sends("0a 00 0031 0001 01 00", CONFIRM),
    // {"err": {"group": 1, "rc": 28}}: it is marked for a test already.
    Hears(
        "0b 00 0012 0001 01 00",
        &["a1 63 657272 a2 65 67726f7570 01 62 7263 18 1c"],
        Failed(JobEnd::Refused {
            group: Some(1),
            number: 28,
        }),
    ),
];

/// Other bytes than the file's are not marked: {"off": 80, "match": false}.
const NOT_MARKED: [Row; 5] = [
    Sends("0a 00 0059 0001 00 01", START),
    Hears("0b 00 0007 0001 00 01", AT_64, Send),
    Sends("0a 00 0043 0001 01 01", PART_AT_64),
    Hears(
        "0b 00 000e 0001 01 01",
        &["a2 63 6f6666 18 50  65 6d61746368 f4"],
        Failed(JobEnd::Mismatch),
    ),
    Hears("0b 00 000e 0001 01 01", MATCHES, Over),
];

/// A start and parts for image 1 say so, and a mark does not: the hash tells.
const IMAGE_1_UNDISTURBED: [Row; 8] = [
    Sends("0a 00 0060 0001 00 01", START_1),
    Hears("0b 00 0007 0001 00 01", AT_32, Send),
    Sends("0a 00 005b 0001 01 01", PART_AT_32_1),
    Hears("0b 00 0007 0001 01 01", AT_64, Send),
    Sends("0a 00 004a 0001 02 01", PART_AT_64_1),
    Hears("0b 00 000e 0001 02 01", MATCHES, Send),
    Sends("0a 00 0031 0001 03 00", CONFIRM),
    Hears("0b 00 0009 0001 03 00", IMAGES, Done),
];

const IMAGE_1_DISTURBED: [Row; 18] = [
    Sends("0a 00 0060 0001 00 01", START_1),
    Quiet(Send),
    Sends("0a 00 0060 0001 00 01", START_1),
    // {"off": 81}: past the end.
    Hears("0b 00 0007 0001 00 01", &["a1 63 6f6666 18 51"], Send),
    Sends("0a 00 0060 0001 01 01", START_1),
    Hears("0b 00 0007 0001 00 01", AT_32, Wait),
    Hears("0b 00 0007 0001 01 01", AT_64, Send),
    Sends("0a 00 004a 0001 02 01", PART_AT_64_1),
    Quiet(Send),
    Sends("0a 00 004a 0001 02 01", PART_AT_64_1),
    Hears("0b 00 000e 0001 02 01", MATCHES, Send),
    Sends("0a 00 0031 0001 03 00", CONFIRM),
    Hears("0b 00 000e 0001 02 01", MATCHES, Wait),
    Quiet(Send),
    Sends("0a 00 0031 0001 03 00", CONFIRM),
    Hears("0b 00 0009 0001 03 00", IMAGES, Done),
    Hears("0b 00 0009 0001 03 00", IMAGES, Over),
    Quiet(Over),
];

const IMAGE_1_REFUSED: [Row; 3] = [
    Sends("0a 00 0060 0001 00 01", START_1),
    // {"err": {"group": 1, "rc": 14}}: the device has one image.
    Hears(
        "0b 00 0011 0001 00 01",
        &["a1 63 657272 a2 65 67726f7570 01 62 7263 0e"],
        Failed(JobEnd::Refused {
            group: Some(1),
            number: 14,
        }),
    ),
    Hears("0b 00 0007 0001 00 01", AT_32, Over),
];

/// Without a mark, resumed at 64.
const IMAGE_1_ONLY: [Row; 4] = [
    Sends("0a 00 0060 0001 00 01", START_1),
    Hears("0b 00 0007 0001 00 01", AT_64, Send),
    Sends("0a 00 004a 0001 01 01", PART_AT_64_1),
    Hears("0b 00 000e 0001 01 01", MATCHES, Done),
];

/// With a test, of a file that the device has.
const IMAGE_1_TEST: [Row; 4] = [
    Sends("0a 00 0060 0001 00 01", START_1),
    Hears("0b 00 0007 0001 00 01", AT_80, Send),
    Sends("0a 00 0028 0001 01 00", TEST),
    Hears("0b 00 0009 0001 01 00", IMAGES, Done),
];

#[test]
fn has_an_image_marked(rt: HostRuntime) -> Result<(), Fail> {
    let alloc = rt.alloc();
    for (name, ending, rows, printed) in [
        (
            "test",
            Ending::Test,
            TEST_UNDISTURBED.as_slice(),
            b"done 80\n".as_slice(),
        ),
        (
            "test, disturbed",
            Ending::Test,
            &TEST_DISTURBED,
            b"done 80\n",
        ),
        ("test, refused", Ending::Test, &TEST_REFUSED, b""),
        (
            "confirm",
            Ending::Confirm,
            &CONFIRM_UNDISTURBED,
            b"done 80\n",
        ),
        (
            "confirm, disturbed",
            Ending::Confirm,
            &CONFIRM_DISTURBED,
            b"done 80\n",
        ),
        ("confirm, refused", Ending::Confirm, &CONFIRM_REFUSED, b""),
        ("not marked", Ending::Test, &NOT_MARKED, b""),
    ] {
        let job = upload(alloc, 0, 32, ending)?;
        assert_eq!(rt; first_wrong(alloc, job, rows, printed)?, None, "{name}");
    }
    Ok(())
}

#[test]
fn uploads_to_image_1(rt: HostRuntime) -> Result<(), Fail> {
    let alloc = rt.alloc();
    for (name, ending, rows, printed) in [
        (
            "undisturbed",
            Ending::Confirm,
            IMAGE_1_UNDISTURBED.as_slice(),
            b"done 80\n".as_slice(),
        ),
        (
            "disturbed",
            Ending::Confirm,
            &IMAGE_1_DISTURBED,
            b"done 80\n",
        ),
        ("refused", Ending::Only, &IMAGE_1_REFUSED, b""),
        ("only", Ending::Only, &IMAGE_1_ONLY, b"done 80\n"),
        ("test", Ending::Test, &IMAGE_1_TEST, b"done 80\n"),
    ] {
        let job = upload(alloc, 1, 32, ending)?;
        assert_eq!(rt; first_wrong(alloc, job, rows, printed)?, None, "{name}");
    }
    Ok(())
}
