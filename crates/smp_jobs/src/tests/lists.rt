// Conversations of a job that lists images.

use crate::JobMove::{Done, Failed, Over, Send, Wait};
use crate::tests::rows::Row::{Hears, Quiet, Sends};
use crate::tests::rows::{Digits, Row, first_wrong};
use crate::{Job, JobEnd};
use std::test::Fail;

/// The read of one byte of data from group 1, number 0, command 0.
const READ: &str = "08 00 0001 0001 00 00";

/// {}
const EMPTY: Digits = &["a0"];

/// An image of the device.
const HASH: &str = "e3103e985884e987aaeb3091f107d4ad2ae5ff4720f4c43459c3d0ff3a12650d";

/// {"images": [{"slot": 0, "version": "1.0.0", "hash": HASH, "bootable": true, "pending": false, "confirmed": false,
/// "active": true, "permanent": false}]}: 9 bytes and 109 of the entry, 118.
const ONE_IMAGE: Digits = &[
    "a1 66 696d61676573 81 a8",
    "64 736c6f74 00  67 76657273696f6e 65 312e302e30",
    "64 68617368 58 20",
    HASH,
    "68 626f6f7461626c65 f5  67 70656e64696e67 f4  69 636f6e6669726d6564 f4",
    "66 616374697665 f5  69 7065726d616e656e74 f4",
];

/// {"images": []}
const NONE: Digits = &["a1 66 696d61676573 80"];

const UNDISTURBED: [Row; 2] = [
    Sends(READ, EMPTY),
    Hears("09 00 0076 0001 00 00", ONE_IMAGE, Done),
];

const DISTURBED: [Row; 12] = [
    Sends(READ, EMPTY),
    // The answer is lost.
    Quiet(Send),
    Sends(READ, EMPTY),
    // The answer to an older request 0 for a mark, which is a write; to an echo; to a list that was number 1.
    Hears("0b 00 0009 0001 00 00", NONE, Wait),
    Hears("0b 00 0006 0000 00 00", &["a1 61 72 62 6869"], Wait),
    Hears("09 00 0009 0001 01 00", NONE, Wait),
    // {}; {"images": {}}; {"images": "no list"}.
    Hears("09 00 0001 0001 00 00", EMPTY, Wait),
    Hears("09 00 0009 0001 00 00", &["a1 66 696d61676573 a0"], Wait),
    Hears(
        "09 00 0010 0001 00 00",
        &["a1 66 696d61676573 67 6e6f206c697374"],
        Wait,
    ),
    Hears("09 00 0076 0001 00 00", ONE_IMAGE, Done),
    Hears("09 00 0076 0001 00 00", ONE_IMAGE, Over),
    Quiet(Over),
];

/// Two slots: as before but confirmed, and {"slot": 1, "version": "2.1.3.4", "hash": 32 bytes 5a, "bootable": true, "pending": true,
/// "confirmed": false, "active": false, "permanent": true}, an entry of 111 bytes.
const TWO_IMAGES: [Row; 2] = [
    Sends(READ, EMPTY),
    Hears(
        "09 00 00e5 0001 00 00",
        &[
            "a1 66 696d61676573 82",
            "a8 64 736c6f74 00  67 76657273696f6e 65 312e302e30",
            "64 68617368 58 20",
            HASH,
            "68 626f6f7461626c65 f5  67 70656e64696e67 f4  69 636f6e6669726d6564 f5",
            "66 616374697665 f5  69 7065726d616e656e74 f4",
            "a8 64 736c6f74 01  67 76657273696f6e 67 322e312e332e34",
            "64 68617368 58 20",
            "5a5a5a5a5a5a5a5a5a5a5a5a5a5a5a5a 5a5a5a5a5a5a5a5a5a5a5a5a5a5a5a5a",
            "68 626f6f7461626c65 f5  67 70656e64696e67 f5  69 636f6e6669726d6564 f4",
            "66 616374697665 f4  69 7065726d616e656e74 f5",
        ],
        Done,
    ),
];

const NO_IMAGES: [Row; 2] = [
    Sends(READ, EMPTY),
    Hears("09 00 0009 0001 00 00", NONE, Done),
];

/// Of another device, in version 1, to a break: {"images": [{"active": true, "hash": h'abcd', "version": "3", "slot": 2,
/// "bootable": 1}, {"slot": 1, "version": "4"}, {"slot": 1, "hash": h''}, 7], "splitStatus": 0}.
const OTHER_IMAGES: [Row; 2] = [
    Sends(READ, EMPTY),
    Hears(
        "01 00 0062 0001 00 00",
        &[
            "bf 66 696d61676573 9f",
            "a5 66 616374697665 f5  64 68617368 42 abcd  67 76657273696f6e 61 33",
            "64 736c6f74 02  68 626f6f7461626c65 01",
            "a2 64 736c6f74 01  67 76657273696f6e 61 34",
            "a2 64 736c6f74 01  64 68617368 40",
            "07 ff",
            "6b 73706c6974537461747573 00 ff",
        ],
        Done,
    ),
];

const REFUSED: [Row; 3] = [
    Sends(READ, EMPTY),
    // {"err": {"group": 1, "rc": 11}}: the flash cannot be read.
    Hears(
        "09 00 0011 0001 00 00",
        &["a1 63 657272 a2 65 67726f7570 01 62 7263 0b"],
        Failed(JobEnd::Refused {
            group: Some(1),
            number: 11,
        }),
    ),
    Hears("09 00 0076 0001 00 00", ONE_IMAGE, Over),
];

const REFUSED_BY_THE_PROTOCOL: [Row; 2] = [
    Sends(READ, EMPTY),
    // {"rc": 13}: the version is too new.
    Hears(
        "09 00 0005 0001 00 00",
        &["a1 62 7263 0d"],
        Failed(JobEnd::Refused {
            group: None,
            number: 13,
        }),
    ),
];

#[test]
fn lists_images(rt: HostRuntime) -> Result<(), Fail> {
    let alloc = rt.alloc();
    let one = format!(in alloc; "0 1.0.0 {HASH} bootable active\n")?;
    let two = format!(in alloc;
        "0 1.0.0 {HASH} bootable confirmed active\n1 2.1.3.4 5a5a5a5a5a5a5a5a5a5a5a5a5a5a5a5a5a5a5a5a5a5a5a5a5a5a5a5a5a5a5a5a bootable pending permanent\n"
    )?;
    for (name, rows, printed) in [
        ("undisturbed", UNDISTURBED.as_slice(), one.as_bytes()),
        ("disturbed", &DISTURBED, one.as_bytes()),
        ("two images", &TWO_IMAGES, two.as_bytes()),
        ("no images", &NO_IMAGES, b""),
        ("other images", &OTHER_IMAGES, b"2 3 abcd active\n"),
        ("refused", &REFUSED, b""),
        ("refused by the protocol", &REFUSED_BY_THE_PROTOCOL, b""),
    ] {
        let job = Job::list(alloc)?;
        assert_eq!(rt; first_wrong(alloc, job, rows, printed)?, None, "{name}");
    }
    Ok(())
}
