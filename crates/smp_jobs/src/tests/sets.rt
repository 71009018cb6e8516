// Conversations of a job that writes settings and saves them.

use crate::JobMove::{Done, Failed, Over, Send, Wait};
use crate::tests::rows::Row::{Hears, Quiet, Sends};
use crate::tests::rows::{Digits, Row, first_wrong};
use crate::{Job, JobEnd};
use smp_edge::Octets;
use smp_model::{Pairs, Setting};
use std::alloc::Global;
use std::test::Fail;

/// {"name": "a", "val": h'01'}
const A: Digits = &["a2 64 6e616d65 61 61  63 76616c 41 01"];

/// {"name": "net/mtu", "val": h'05dc'}
const MTU: Digits = &["a2 64 6e616d65 67 6e65742f6d7475  63 76616c 42 05dc"];

/// {}, which is the data of a save and of all answers.
const EMPTY: Digits = &["a0"];

/// The writes to group 3: of 14 bytes with number 0, and of 21 bytes with number 1, to command 0; of one byte with number 2 to
/// command 3, which saves.
const WRITE_A: &str = "0a 00 000e 0003 00 00";

const WRITE_MTU: &str = "0a 00 0015 0003 01 00";

const SAVE: &str = "0a 00 0001 0003 02 03";

/// The responses of one byte to them.
const WROTE_A: &str = "0b 00 0001 0003 00 00";

const WROTE_MTU: &str = "0b 00 0001 0003 01 00";

const SAVED: &str = "0b 00 0001 0003 02 03";

const UNDISTURBED: [Row; 6] = [
    Sends(WRITE_A, A),
    Hears(WROTE_A, EMPTY, Send),
    Sends(WRITE_MTU, MTU),
    Hears(WROTE_MTU, EMPTY, Send),
    Sends(SAVE, EMPTY),
    Hears(SAVED, EMPTY, Done),
];

const DISTURBED: [Row; 18] = [
    Sends(WRITE_A, A),
    // The answer is lost.
    Quiet(Send),
    Sends(WRITE_A, A),
    Hears(WROTE_A, EMPTY, Send),
    Sends(WRITE_MTU, MTU),
    // The answer to the packet that was sent again.
    Hears(WROTE_A, EMPTY, Wait),
    Quiet(Send),
    Sends(WRITE_MTU, MTU),
    Quiet(Send),
    Sends(WRITE_MTU, MTU),
    Hears(WROTE_MTU, EMPTY, Send),
    Sends(SAVE, EMPTY),
    // An older answer to a write with number 2; to a save with number 1; to a load.
    Hears("0b 00 0001 0003 02 00", EMPTY, Wait),
    Hears("0b 00 0001 0003 01 03", EMPTY, Wait),
    Hears("09 00 0001 0003 02 03", EMPTY, Wait),
    Hears(SAVED, EMPTY, Done),
    Hears(SAVED, EMPTY, Over),
    Quiet(Over),
];

/// A response without data is the empty map; {"rc": 0} is no error; and another key is skipped, here {"x": null}.
const LENIENT: [Row; 6] = [
    Sends(WRITE_A, A),
    Hears("0b 00 0000 0003 00 00", &[], Send),
    Sends(WRITE_MTU, MTU),
    Hears("0b 00 0005 0003 01 00", &["a1 62 7263 00"], Send),
    Sends(SAVE, EMPTY),
    Hears("03 00 0004 0003 02 03", &["a1 61 78 f6"], Done),
];

const REFUSED_AT_THE_SECOND: [Row; 5] = [
    Sends(WRITE_A, A),
    Hears(WROTE_A, EMPTY, Send),
    Sends(WRITE_MTU, MTU),
    // {"err": {"group": 3, "rc": 65}}: the settings are full.
    Hears(
        "0b 00 0012 0003 01 00",
        &["a1 63 657272 a2 65 67726f7570 03 62 7263 18 41"],
        Failed(JobEnd::Refused {
            group: Some(3),
            number: 65,
        }),
    ),
    Hears(WROTE_MTU, EMPTY, Over),
];

const SAVE_REFUSED: [Row; 6] = [
    Sends(WRITE_A, A),
    Hears(WROTE_A, EMPTY, Send),
    Sends(WRITE_MTU, MTU),
    Hears(WROTE_MTU, EMPTY, Send),
    Sends(SAVE, EMPTY),
    // {"rc": 1}, which is in version 1 that the flash failed.
    Hears(
        "03 00 0005 0003 02 03",
        &["a1 62 7263 01"],
        Failed(JobEnd::Refused {
            group: None,
            number: 1,
        }),
    ),
];

/// {"name": "b", "val": h''}, then a save with number 1.
const AN_EMPTY_VALUE: [Row; 4] = [
    Sends(
        "0a 00 000d 0003 00 00",
        &["a2 64 6e616d65 61 62  63 76616c 40"],
    ),
    Hears("0b 00 0001 0003 00 00", EMPTY, Send),
    Sends("0a 00 0001 0003 01 03", EMPTY),
    Hears("0b 00 0001 0003 01 03", EMPTY, Done),
];

/// The writing of these settings.
fn set(alloc: Global, settings: &[(&str, &[u8])]) -> Result<Job, Fail> {
    let mut pairs = Pairs::new(alloc);
    for (name, val) in settings {
        pairs.push(Setting {
            name: Octets::from_slice(alloc, name.as_bytes())?,
            val: Octets::from_slice(alloc, val)?,
        })?;
    }
    if !Job::can_set(&pairs) {
        return Err("settings that no job writes".into());
    }
    Ok(Job::set(alloc, pairs)?)
}

#[test]
fn writes_settings(rt: HostRuntime) -> Result<(), Fail> {
    let alloc = rt.alloc();
    for (name, rows, printed) in [
        ("undisturbed", UNDISTURBED.as_slice(), b"saved\n".as_slice()),
        ("disturbed", &DISTURBED, b"saved\n"),
        ("lenient", &LENIENT, b"saved\n"),
        ("refused at the second", &REFUSED_AT_THE_SECOND, b""),
        ("save refused", &SAVE_REFUSED, b""),
    ] {
        let job = set(
            alloc,
            &[("a", b"\x01".as_slice()), ("net/mtu", b"\x05\xdc")],
        )?;
        assert_eq!(rt; first_wrong(alloc, job, rows, printed)?, None, "{name}");
    }
    let job = set(alloc, &[("b", b"")])?;
    assert_eq!(rt; first_wrong(alloc, job, &AN_EMPTY_VALUE, b"saved\n")?, None);
    Ok(())
}
