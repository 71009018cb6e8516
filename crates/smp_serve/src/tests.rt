// Whole sessions over objects in memory. The texts and packets were worked out by hand from the formats.
ghost use Rattle.std.specs.Prelude.{◌≡◌, ◌≤◌, length, IfOk, IfSome, IsSome, IsTrue};
ghost use Rattle.smp_serve.specs.Driving.{IsRunning};
ghost use Rattle.smp_flash.specs.Area.{blank};
ghost use Rattle.smp_flash.specs.Geometry.{is_lawful, size_of};
ghost use Rattle.smp_flash.specs.Layout.{geometry_of};
ghost use Rattle.smp_flash.specs.Memory.{mem_state};
ghost use Rattle.smp_device.specs.Handling.{DeviceSays};

use crate::{ClientFault, ServeFault, Served, drive_client, serve_console, serve_link};
use smp_device::{Device, OpenFault, format};
use smp_edge::{Calls, MemLink, MemSink, MemSource, Octets, Peer, Scripted};
use smp_flash::{Arm, ArmKind, Geometry, Left, MemFlash, Region};
use smp_jobs::{Job, JobEnd, JobFault};
use std::alloc::{AllocError, Global};
use std::process::Abort;
use std::test::Fail;

const SIZES: Geometry = Geometry {
    page: 512,
    unit: 8,
    slot_pages: 16,
    images: 1,
};

/// The image of the bytes 00 to 07, of version 1.0.0.
const IMAGE: [u8; 80] = [
    0x3d, 0xb8, 0xf3, 0x96, 0x00, 0x00, 0x00, 0x00, 0x20, 0x00, 0x00, 0x00, 0x08, 0x00, 0x00, 0x00,
    0x00, 0x00, 0x00, 0x00, 0x01, 0x00, 0x00, 0x00, 0x00, 0x00, 0x00, 0x00, 0x00, 0x00, 0x00, 0x00,
    0x00, 0x01, 0x02, 0x03, 0x04, 0x05, 0x06, 0x07, 0x07, 0x69, 0x28, 0x00, 0x10, 0x00, 0x20, 0x00,
    0xe3, 0x10, 0x3e, 0x98, 0x58, 0x84, 0xe9, 0x87, 0xaa, 0xeb, 0x30, 0x91, 0xf1, 0x07, 0xd4, 0xad,
    0x2a, 0xe5, 0xff, 0x47, 0x20, 0xf4, 0xc4, 0x34, 0x59, 0xc3, 0xd0, 0xff, 0x3a, 0x12, 0x65, 0x0d,
];

/// An echo of `hi`, its reply, and both as lines of a console.
const ECHO: [u8; 14] = [2, 0, 0, 6, 0, 0, 1, 0, 0xa1, 0x61, 0x64, 0x62, 0x68, 0x69];

const ECHOED: [u8; 14] = [3, 0, 0, 6, 0, 0, 1, 0, 0xa1, 0x61, 0x72, 0x62, 0x68, 0x69];

const ECHO_LINE: &[u8; 27] = b"\x06\x09ABACAAAGAAABAKFhZGJoaU7E\n";

const ECHOED_LINE: &[u8; 27] = b"\x06\x09ABADAAAGAAABAKFhcmJoaQmb\n";

const SPOILED_LINE: &[u8; 27] = b"\x06\x09ABACAAAGAAABAKFhZGJoaU7F\n";

/// A reset with the sequence number 2, and its reply.
const RESET: [u8; 8] = [0x0a, 0, 0, 0, 0, 0, 2, 5];

const RESET_DONE: [u8; 9] = [0x0b, 0, 0, 1, 0, 0, 2, 5, 0xa0];

/// A client's echo of `hi`, and the reply to it.
const ASKED: [u8; 14] = [
    0x0a, 0, 0, 6, 0, 0, 0, 0, 0xa1, 0x61, 0x64, 0x62, 0x68, 0x69,
];

const ANSWERED: [u8; 14] = [
    0x0b, 0, 0, 6, 0, 0, 0, 0, 0xa1, 0x61, 0x72, 0x62, 0x68, 0x69,
];

const ONE: Peer = Peer {
    address: 1,
    port: 1337,
};

const OTHER: Peer = Peer {
    address: 2,
    port: 7,
};

/// A flash of these sizes that is all FF.
fn erased(alloc: Global, geometry: Geometry) -> Result<MemFlash, AllocError>
    requires { IsTrue (is_lawful geometry) }
    ensures sizes { IfOk result (λ flash. (mem_state flash).geometry ≡ geometry) }
    ensures erased { IfOk result (λ flash. IfSome (mem_state flash).bytes (λ held. held ≡ blank (size_of (mem_state flash).geometry))) }
{
    MemFlash::new(alloc, geometry)
}

/// A flash that was formatted with the image.
fn formatted(alloc: Global) -> Result<MemFlash, AllocError> {
    let mut flash = erased(alloc, SIZES)?;
    let _ = format(&mut flash, &IMAGE);
    Ok(flash)
}

/// Opens a device.
#[tactic(auto, using(crate::proofs::Opened::opened_up, crate::proofs::Opened::opened_sizes))]
fn opened(alloc: Global, flash: &mut MemFlash) -> Result<Device, OpenFault>
    ensures up { IfOk result (λ device. IsSome device.up) }
    ensures sizes { IfOk result (λ device. geometry_of device.places.first ≡ (mem_state flash.new).geometry) }
    ensures says { IfOk result (λ device. IfSome (mem_state flash.new).bytes (DeviceSays device)) }
{
    Device::open(alloc, flash)
}

/// Serves a text over a console, of which these reads and puts fail, and in which the flash is armed so.
fn serves_text(
    rt: &impl Abort,
    alloc: Global,
    text: &[u8],
    fails: (&[u32], &[u32]),
    arm: Option<Arm>,
    outcome: Result<(), ServeFault>,
    written: &[u8],
) -> Result<(), AllocError> {
    let mut flash = formatted(alloc)?;
    let Ok(mut device) = opened(alloc, &mut flash) else {
        assert!(rt; false);
        return Ok(());
    };
    let held = Octets::from_slice(alloc, text)?;
    let mut source = MemSource::new(held, Calls::from_slice(alloc, fails.0)?);
    let mut sink = MemSink::new(alloc, Calls::from_slice(alloc, fails.1)?);
    if let Some(arm) = arm
        && arm.after >= 1
    {
        flash.arm(arm);
    }
    assert_eq!(rt;
        serve_console(&mut device, &mut flash, &mut source, &mut sink),
        outcome
    );
    assert_eq!(rt; sink.written(), written);
    Ok(())
}

#[test]
fn serves_the_packets_of_a_console(rt: HostRuntime) -> Result<(), Fail> {
    let alloc = rt.alloc();
    let mut text = Vec::from_slice(alloc, SPOILED_LINE)?;
    text.extend_from_slice(b"a line of a log\n")?;
    text.extend_from_slice(ECHO_LINE)?;
    serves_text(
        &rt,
        alloc,
        text.as_slice(),
        (&[], &[]),
        None,
        Ok(()),
        ECHOED_LINE,
    )?;
    // Longer than a piece, with a packet across two of them.
    let mut long = vec![in alloc; b'x'; 500]?;
    long.push(b'\n')?;
    long.extend_from_slice(ECHO_LINE)?;
    long.extend_from_slice(ECHO_LINE)?;
    let mut both = Vec::from_slice(alloc, ECHOED_LINE)?;
    both.extend_from_slice(ECHOED_LINE)?;
    serves_text(
        &rt,
        alloc,
        long.as_slice(),
        (&[], &[]),
        None,
        Ok(()),
        both.as_slice(),
    )?;
    serves_text(
        &rt,
        alloc,
        long.as_slice(),
        (&[2], &[]),
        None,
        Err(ServeFault::Read),
        &[],
    )?;
    serves_text(
        &rt,
        alloc,
        long.as_slice(),
        (&[3], &[]),
        None,
        Err(ServeFault::Read),
        both.as_slice(),
    )?;
    serves_text(
        &rt,
        alloc,
        long.as_slice(),
        (&[], &[2]),
        None,
        Err(ServeFault::Write),
        ECHOED_LINE,
    )?;
    Ok(())
}

/// A reset with the sequence number 2 as a line, and its reply.
const RESET_LINE: &[u8; 19] = b"\x06\x09AAoKAAAAAAACBae7\n";

const RESET_DONE_LINE: &[u8; 23] = b"\x06\x09AAsLAAABAAACBaBlZA==\n";

#[test]
fn tells_why_a_start_after_a_reset_failed(rt: HostRuntime) -> Result<(), Fail> {
    let alloc = rt.alloc();
    let mut text = Vec::from_slice(alloc, RESET_LINE)?;
    text.extend_from_slice(ECHO_LINE)?;
    let mut both = Vec::from_slice(alloc, RESET_DONE_LINE)?;
    both.extend_from_slice(ECHOED_LINE)?;
    serves_text(
        &rt,
        alloc,
        text.as_slice(),
        (&[], &[]),
        None,
        Ok(()),
        both.as_slice(),
    )?;
    let read = Arm {
        kind: ArmKind::Read,
        region: Region::Any,
        after: 1,
        left: Left::Nothing,
    };
    serves_text(
        &rt,
        alloc,
        text.as_slice(),
        (&[], &[]),
        Some(read),
        Err(ServeFault::FlashFault),
        RESET_DONE_LINE,
    )?;
    Ok(())
}

/// What is heard, and what is sent.
#[derive(Clone, Copy)]
enum Mail {
    Echo,
    Echoed,
    Reset,
    ResetDone,
    Answer,
    Refusal,
    Empty,
    Long,
}

/// A reply to the client's echo: not supported.
const REFUSED: [u8; 14] = [
    0x0b, 0, 0, 6, 0, 0, 0, 0, 0xbf, 0x62, 0x72, 0x63, 0x08, 0xff,
];

/// One byte more than a packet may have.
static LONG: [u8; 2049] = [0; 2049];

fn bytes_of(mail: Mail) -> &'static [u8] {
    match mail {
        Mail::Echo => &ECHO,
        Mail::Echoed => &ECHOED,
        Mail::Reset => &RESET,
        Mail::ResetDone => &RESET_DONE,
        Mail::Answer => &ANSWERED,
        Mail::Refusal => &REFUSED,
        Mail::Empty => &[],
        Mail::Long => &LONG,
    }
}

/// Serves what these datagrams ask over a link, behind each of which there is a quiet wait, where these calls fail.
fn serves_packets(
    rt: &impl Abort,
    alloc: Global,
    asked: &[(Peer, Mail)],
    fails: &[u32],
    turns: u32,
    outcome: Result<Served, ServeFault>,
    replies: &[(Peer, Mail)],
) -> Result<(), AllocError> {
    let mut flash = formatted(alloc)?;
    let Ok(mut device) = opened(alloc, &mut flash) else {
        assert!(rt; false);
        return Ok(());
    };
    let mut link = MemLink::new(alloc, ONE, Calls::from_slice(alloc, fails)?);
    for (from, mail) in asked {
        let held = Octets::from_slice(alloc, bytes_of(*mail))?;
        link.push(Scripted::Packet { from: *from, held })?;
        link.push(Scripted::Quiet)?;
    }
    assert_eq!(rt;
        serve_link(&mut device, &mut flash, &mut link, turns),
        outcome
    );
    assert_eq!(rt; link.sent().len(), replies.len());
    for (sent, (to, mail)) in link.sent().iter().zip(replies) {
        assert_eq!(rt; sent.to, *to);
        assert_eq!(rt; sent.held.as_slice(), bytes_of(*mail));
    }
    Ok(())
}

#[test]
fn replies_to_the_peer_that_asked(rt: HostRuntime) -> Result<(), Fail> {
    let alloc = rt.alloc();
    let asked = [
        (ONE, Mail::Echo),
        (OTHER, Mail::Long),
        (OTHER, Mail::Reset),
        (OTHER, Mail::Echo),
    ];
    let replied = [
        (ONE, Mail::Echoed),
        (OTHER, Mail::ResetDone),
        (OTHER, Mail::Echoed),
    ];
    for (turns, answered, dropped) in [(0, 0, 0), (3, 1, 1), (20, 3, 1)] {
        let served = Ok(Served { answered, dropped });
        let sent = answered as usize;
        serves_packets(
            &rt,
            alloc,
            &asked,
            &[],
            turns,
            served,
            &replied[..sent.min(3)],
        )?;
    }
    // The calls are a hearing, a sending, and then hearings but for the sendings 7 and 10.
    for call in [3, 7] {
        let failed = Err(ServeFault::Link);
        serves_packets(&rt, alloc, &asked, &[call], 20, failed, &replied[..1])?;
    }
    Ok(())
}

/// A job that has a text echoed.
fn echo_job(alloc: Global, text: &str) -> Result<Job, JobFault>
    requires some { 1 ≤ length text.now }
    requires most { length text.now ≤ 1024 }
    ensures { IfOk result IsRunning }
{
    Job::echo(alloc, text)
}

/// Drives an echo of `hi` over a link that hears these packets, where this call of the link, or this put, fails.
fn drives_echo(
    rt: &impl Abort,
    alloc: Global,
    heard: &[Mail],
    call: u32,
    put: u32,
    outcome: Result<(), ClientFault>,
    sent: usize,
    text: &[u8],
) -> Result<(), AllocError> {
    let Ok(mut job) = echo_job(alloc, "hi") else {
        assert!(rt; false);
        return Ok(());
    };
    let mut link = MemLink::new(alloc, ONE, Calls::from_slice(alloc, &[call])?);
    for mail in heard {
        let held = Octets::from_slice(alloc, bytes_of(*mail))?;
        link.push(Scripted::Packet { from: OTHER, held })?;
    }
    let mut sink = MemSink::new(alloc, Calls::from_slice(alloc, &[put])?);
    assert_eq!(rt;
        drive_client(&mut job, &mut link, OTHER, &mut sink),
        outcome
    );
    assert_eq!(rt; link.sent().len(), sent);
    for packet in link.sent() {
        assert_eq!(rt; packet.to, OTHER);
        assert_eq!(rt; packet.held.as_slice(), ASKED.as_slice());
    }
    assert_eq!(rt; sink.written(), text);
    Ok(())
}

#[test]
fn drives_a_client(rt: HostRuntime) -> Result<(), Fail> {
    let alloc = rt.alloc();
    let strangers = [Mail::Long, Mail::Empty, Mail::Answer];
    drives_echo(&rt, alloc, &strangers, 0, 0, Ok(()), 1, b"hi\n")?;
    let refused = JobEnd::Refused {
        group: None,
        number: 8,
    };
    let ended = Err(ClientFault::End(refused));
    drives_echo(&rt, alloc, &[Mail::Refusal], 0, 0, ended, 1, b"")?;
    let unanswered = Err(ClientFault::End(JobEnd::NoAnswer));
    drives_echo(&rt, alloc, &[], 0, 0, unanswered, 9, b"")?;
    let cut_off = Err(ClientFault::Link);
    drives_echo(&rt, alloc, &[Mail::Answer], 1, 0, cut_off, 0, b"")?;
    drives_echo(&rt, alloc, &[Mail::Answer], 2, 0, cut_off, 1, b"")?;
    let unwritten = Err(ClientFault::Write);
    drives_echo(&rt, alloc, &[Mail::Answer], 0, 1, unwritten, 1, b"")?;
    Ok(())
}
