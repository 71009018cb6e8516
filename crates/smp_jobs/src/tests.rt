// Whole conversations of each job, which stand in tables of a file each; and here the limits of jobs, and how they give up.

mod echoes;
mod gets;
mod image;
mod lists;
mod marks;
mod puts;
mod rows;
mod sets;
mod uploads;

use crate::{Job, JobEnd, JobFault, JobMove};
use image::upload;
use puts::{FILE, put};
use smp_edge::Octets;
use smp_model::{Ending, ImageFault, Pairs, Setting};
use std::alloc::{AllocError, Global};
use std::test::Fail;

/// The image of the bytes 00 to 07, of version 1.0.0.
const IMAGE: [u8; 80] = [
    0x3d, 0xb8, 0xf3, 0x96, 0x00, 0x00, 0x00, 0x00, 0x20, 0x00, 0x00, 0x00, 0x08, 0x00, 0x00, 0x00,
    0x00, 0x00, 0x00, 0x00, 0x01, 0x00, 0x00, 0x00, 0x00, 0x00, 0x00, 0x00, 0x00, 0x00, 0x00, 0x00,
    0x00, 0x01, 0x02, 0x03, 0x04, 0x05, 0x06, 0x07, 0x07, 0x69, 0x28, 0x00, 0x10, 0x00, 0x20, 0x00,
    0xe3, 0x10, 0x3e, 0x98, 0x58, 0x84, 0xe9, 0x87, 0xaa, 0xeb, 0x30, 0x91, 0xf1, 0x07, 0xd4, 0xad,
    0x2a, 0xe5, 0xff, 0x47, 0x20, 0xf4, 0xc4, 0x34, 0x59, 0xc3, 0xd0, 0xff, 0x3a, 0x12, 0x65, 0x0d,
];

/// A setting.
fn setting(alloc: Global, name: &[u8], val: &[u8]) -> Result<Setting, AllocError> {
    Ok(Setting {
        name: Octets::from_slice(alloc, name)?,
        val: Octets::from_slice(alloc, val)?,
    })
}

#[test]
fn writes_no_settings_outside_the_limits(rt: HostRuntime) -> Result<(), Fail> {
    let alloc = rt.alloc();
    for (name, size, may) in [
        (b"a".as_slice(), 128, true),
        (b"a".as_slice(), 129, false),
        (b"".as_slice(), 0, false),
        (b"0123456789abcdef0123456789abcdef".as_slice(), 0, true),
        (b"0123456789abcdef0123456789abcdefg".as_slice(), 0, false),
        (b"\xff".as_slice(), 0, false),
    ] {
        let mut pairs = Pairs::new(alloc);
        assert!(rt; !Job::can_set(&pairs));
        let val = [7u8; 129];
        pairs.push(setting(alloc, name, &val[..size])?)?;
        assert_eq!(rt; Job::can_set(&pairs), may);
    }
    let mut pairs = Pairs::new(alloc);
    for _ in 0..254u32 {
        pairs.push(setting(alloc, b"a", &[])?)?;
    }
    assert!(rt; Job::can_set(&pairs));
    pairs.push(setting(alloc, b"a", &[])?)?;
    assert!(rt; !Job::can_set(&pairs));
    Ok(())
}

/// A reply of these bytes to the packet that a job sends.
fn reply(alloc: Global, job: &Job, data: &[u8]) -> Result<Vec<u8>, Fail> {
    let mut packet = Vec::new(alloc);
    if let [first, flags, _, _, group, next, sequence, command, ..] = job.packet() {
        let length = data.len().min(255) as u8;
        let head = [
            first.saturating_add(1),
            *flags,
            0,
            length,
            *group,
            *next,
            *sequence,
            *command,
        ];
        packet.extend_from_slice(&head)?;
        packet.extend_from_slice(data)?;
    }
    Ok(packet)
}

/// Answers each packet by the same data, and counts the packets that are sent until the job ends.
fn packets_until_the_end(
    alloc: Global,
    job: &mut Job,
    data: &[u8],
) -> Result<(u32, JobMove), Fail> {
    for sent in 1..1000u32 {
        let packet = reply(alloc, job, data)?;
        match job.hear(packet.as_slice()) {
            JobMove::Send => {}
            moved => return Ok((sent, moved)),
        }
    }
    Ok((0, JobMove::Wait))
}

/// Whether a job stalls after so many packets, where each is answered by the same data.
fn stalls_after(alloc: Global, mut job: Job, data: &[u8], most: u32) -> Result<bool, Fail> {
    let (sent, moved) = packets_until_the_end(alloc, &mut job, data)?;
    Ok(sent == most && moved == JobMove::Failed(JobEnd::Stalled) && job.result().is_empty())
}

/// {"off": 0}, after which an upload and a put begin anew.
const BEGIN: [u8; 6] = [0xa1, 0x63, b'o', b'f', b'f', 0];

/// {"off": 9, "data": h''}, a part from elsewhere.
const ELSEWHERE: [u8; 12] = [
    0xa2, 0x63, b'o', b'f', b'f', 9, 0x64, b'd', b'a', b't', b'a', 0x40,
];

#[test]
fn stalls_in_an_upload(rt: HostRuntime) -> Result<(), Fail> {
    let alloc = rt.alloc();
    let job = upload(alloc, 0, 80, Ending::Only)?;
    assert!(rt; stalls_after(alloc, job, &BEGIN, 80)?);
    let job = upload(alloc, 0, 32, Ending::Only)?;
    assert!(rt; stalls_after(alloc, job, &BEGIN, 96)?);
    Ok(())
}

#[test]
fn stalls_with_a_file(rt: HostRuntime) -> Result<(), Fail> {
    let alloc = rt.alloc();
    let job = put(alloc, "f", FILE)?;
    assert!(rt; stalls_after(alloc, job, &BEGIN, 512)?);
    assert!(rt; stalls_after(alloc, Job::get(alloc, "n")?, &ELSEWHERE, 512)?);
    Ok(())
}

// The numbers go round after 255. Each answer is {"off": 1, "data": h''}, a part from elsewhere, and the 512th packet is the last.
#[test]
fn numbers_its_requests(rt: HostRuntime) -> Result<(), Fail> {
    let alloc = rt.alloc();
    let mut job = Job::get(alloc, "a")?;
    for request in 0..512u32 {
        let number = (request % 256) as u8;
        // {"off": 0, "name": "a"}
        let sent = [
            8, 0, 0, 13, 0, 8, number, 0, 0xa2, 0x63, b'o', b'f', b'f', 0, 0x64, b'n', b'a', b'm',
            b'e', 0x61, b'a',
        ];
        let heard = [
            9, 0, 0, 12, 0, 8, number, 0, 0xa2, 0x63, b'o', b'f', b'f', 1, 0x64, b'd', b'a', b't',
            b'a', 0x40,
        ];
        let due = if request < 511 {
            JobMove::Send
        } else {
            JobMove::Failed(JobEnd::Stalled)
        };
        assert_eq!(rt; job.packet(), sent.as_slice(), "{request}");
        assert_eq!(rt; job.hear(&heard), due, "{request}");
    }
    Ok(())
}

#[test]
fn stalls_at_a_packet_sent_again(rt: HostRuntime) -> Result<(), Fail> {
    let alloc = rt.alloc();
    let mut job = upload(alloc, 0, 80, Ending::Only)?;
    for _ in 0..79u32 {
        let packet = reply(alloc, &job, &BEGIN)?;
        assert_eq!(rt; job.hear(packet.as_slice()), JobMove::Send);
    }
    assert_eq!(rt; job.quiet(), JobMove::Failed(JobEnd::Stalled));
    assert_eq!(rt; job.quiet(), JobMove::Over);
    Ok(())
}

#[test]
fn gives_up_after_nine_waits(rt: HostRuntime) -> Result<(), Fail> {
    let alloc = rt.alloc();
    let mut job = upload(alloc, 0, 80, Ending::Only)?;
    for wait in 0..9u32 {
        for _ in 0..63u32 {
            assert_eq!(rt; job.hear(b"no packet"), JobMove::Wait);
        }
        let due = if wait < 8 {
            JobMove::Send
        } else {
            JobMove::Failed(JobEnd::NoAnswer)
        };
        assert_eq!(rt; job.hear(b"no packet"), due);
    }
    Ok(())
}

#[test]
fn writes_254_settings(rt: HostRuntime) -> Result<(), Fail> {
    let alloc = rt.alloc();
    let mut pairs = Pairs::new(alloc);
    for _ in 0..254u32 {
        pairs.push(setting(alloc, b"a", &[1])?)?;
    }
    assert!(rt; Job::can_set(&pairs));
    let mut job = Job::set(alloc, pairs)?;
    assert_eq!(rt;
        packets_until_the_end(alloc, &mut job, &[])?,
        (255, JobMove::Done)
    );
    Ok(())
}

#[test]
fn takes_no_bad_image(rt: HostRuntime) -> Result<(), Fail> {
    let alloc = rt.alloc();
    let mut wrong = IMAGE;
    wrong[32] = 9;
    for (bytes, fault) in [
        (IMAGE.as_slice(), None),
        (&IMAGE[..31], Some(ImageFault::Short)),
        (&IMAGE[..79], Some(ImageFault::Tlvs)),
        (&IMAGE[1..], Some(ImageFault::Magic)),
        (wrong.as_slice(), Some(ImageFault::WrongHash)),
    ] {
        let file = Octets::from_slice(alloc, bytes)?;
        let due = match fault {
            None => None,
            Some(fault) => Some(JobFault::BadImage(fault)),
        };
        assert!(rt; file.as_slice().len() <= 80);
        assert_eq!(rt; Job::upload(alloc, file, 480, Ending::Test).err(), due);
    }
    Ok(())
}
