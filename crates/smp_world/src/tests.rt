// Transcripts of whole schedules, which were worked out apart from this program.
ghost use Rattle.std.specs.Prelude.{◌≡◌, IfOk, IfSome, IsTrue};
ghost use Rattle.smp_flash.specs.Area.{blank};
ghost use Rattle.smp_flash.specs.Geometry.{is_lawful, size_of};
ghost use Rattle.smp_flash.specs.Memory.{mem_state};

use crate::World;
use smp_device::format;
use smp_edge::{Block, Calls, MemSink, Octets};
use smp_flash::{Geometry, MemFlash};
use smp_jobs::Job;
use smp_model::{Version, make_image};
use smp_schedule::read_schedule;
use std::alloc::{AllocError, Global};
use std::test::Fail;

const SIZES: Geometry = Geometry {
    page: 512,
    unit: 8,
    slot_pages: 16,
    images: 1,
};

/// Packets, most of them damaged, and two boots, in the first of which a read fails.
const PACKETS: &str = "\
    raw 1200002800012e00a164686173685820e3103e985884e987aaeb3091f107d4ad2ae5ff4720f4c43459c3d0ff3a12650d\n\
    raw 0a00000000033001\n\
    raw 080000140003c800bf686d61785f73697a6500646e616d65626b32ff\n\
    raw e200006100019201a565696d61676507636f666600646461746158203db8f39600800000200000006b1d000000000000010202000700000000000000636c656e191db36373686158200000000000000000000000000000000000000000000000000000000000000000\n\
    raw 080000160008da00ba00000002646e616d65616978036f66661a00000400\n\
    raw 000000010003d403a0\n\
    raw 0000002600087402a4646e616d656161636f6666017a000000036c656e1903e87804747970657806736861323536\n\
    raw 000000010002b801a0\n\
    raw 080000010003df03a0\n\
    raw 2800000800025600a1646e616d656178\n\
    raw 080000120008ae00a2646e616d65616178036f66661a00000000\n\
    raw 008f00010002b101a0\n\
    raw 1a00000100038503a0\n\
    raw 2a0000010003ad02a0\n\
    raw 0a00000a0000c900a161647a000000026869\n\
    raw e20000080008cc04a1656578747261f5\n\
    arm cut progress-gate 6 none\n\
    arm read any 1\n\
    boot\n\
    boot\n\
";

/// What is printed of them.
const ANSWERS: &str = "\
    raw 0b00000500012e00a16272630d\n\
    raw 0b00000500033001a162726303\n\
    raw 090000110003c800a163657272a26567726f75700362726303\n\
    raw 0300000500019201a162726303\n\
    raw 090000110008da00a163657272a26567726f75700862726303\n\
    raw 010000010003d403a0\n\
    raw 0100000500087402a162726305\n\
    raw 010000100002b801a169737461745f6c6973748163736d70\n\
    raw 090000010003df03a0\n\
    raw 0900001100025600a163657272a26567726f75700262726302\n\
    raw 090000110008ae00a163657272a26567726f75700862726303\n\
    raw 010000100002b101a169737461745f6c6973748163736d70\n\
    raw 0b00000500038503a16272630d\n\
    raw 0b0000010003ad02a0\n\
    raw 0b0000060000c900a16172626869\n\
    raw 030000010008cc04a0\n\
    arm\n\
    arm\n\
    boot fault\n\
    boot upload none pending none confirmed no saved 0100\n\
    end sent 0 answered 0 done 0\n\
";

/// A flash of these sizes that is all FF.
fn erased(alloc: Global, geometry: Geometry) -> Result<MemFlash, AllocError>
    requires { IsTrue (is_lawful geometry) }
    ensures sizes { IfOk result (λ flash. (mem_state flash).geometry ≡ geometry) }
    ensures erased { IfOk result (λ flash. IfSome (mem_state flash).bytes (λ held. held ≡ blank (size_of (mem_state flash).geometry))) }
{
    MemFlash::new(alloc, geometry)
}

/// A world over a flash that was formatted with eight bytes, version 1.0.0.
fn world(alloc: Global, jobs: Vec<Job>) -> Option<World> {
    let version = Version {
        major: 1,
        minor: 0,
        revision: 0,
        build: 0,
    };
    let Ok(image) = make_image(alloc, &[0, 1, 2, 3, 4, 5, 6, 7], version) else {
        return None;
    };
    let Ok(mut flash) = erased(alloc, SIZES) else {
        return None;
    };
    match format(&mut flash, image.as_slice()) {
        Ok(()) => World::new(alloc, flash, jobs).ok(),
        Err(_) => None,
    }
}

/// The transcript of a schedule whose clients have these jobs.
fn transcript(alloc: Global, schedule: &str, jobs: Vec<Job>) -> Option<Vec<u8>> {
    let Some(mut world) = world(alloc, jobs) else {
        return None;
    };
    if schedule.len() > 4096 {
        return None;
    }
    let Ok(schedule) = read_schedule(alloc, schedule.as_bytes()) else {
        return None;
    };
    let Ok(mut text) = Block::with_capacity(alloc, 4096) else {
        return None;
    };
    for event in schedule.events() {
        if !world.can_step(event) || world.step(event, &mut text).is_err() {
            return None;
        }
    }
    if world.finish(&mut text).is_err() {
        return None;
    }
    let Ok(calls) = Calls::from_slice(alloc, &[]) else {
        return None;
    };
    let mut sink = MemSink::new(alloc, calls);
    if text.put_into(&mut sink).is_err() {
        return None;
    }
    Vec::from_slice(alloc, sink.written()).ok()
}

#[test]
fn answers_packets(rt: HostRuntime) -> Result<(), Fail> {
    let alloc = rt.alloc();
    let Some(text) = transcript(alloc, PACKETS, Vec::new(alloc)) else {
        assert!(rt; false, "nothing was made");
        return Ok(());
    };
    assert!(rt; text.as_slice() == ANSWERS.as_bytes());
    Ok(())
}

/// Two clients that echo `hi`: lost and repeated packets and replies, what is not there, and a boot.
const ECHOES: &str = "\
    client 1 echo hi\n\
    up new\n\
    up 1\n\
    down 2\n\
    down 1\n\
    quiet 1\n\
    up 9\n\
    boot\n\
    client 2 echo hi\n\
    quiet 2\n\
    up 3\n\
    down new\n";

/// What is printed of them.
const ECHOED: &str = "\
    client 1 send 1\n\
    up 1 reply 1 0b00000600000000a16172626869\n\
    up 1 reply 2 0b00000600000000a16172626869\n\
    down 2 done\n\
    down 1 over\n\
    quiet 1 over\n\
    up 9 none\n\
    boot upload none pending none confirmed no saved 0100\n\
    client 2 send 2\n\
    quiet 2 send 3\n\
    up 3 reply 3 0b00000600000000a16172626869\n\
    down 3 done\n\
    end sent 3 answered 3 done 2\n";

#[test]
fn hands_packets_and_replies_on(rt: HostRuntime) -> Result<(), Fail> {
    let alloc = rt.alloc();
    let mut jobs = Vec::new(alloc);
    for _ in 0..2 {
        let Ok(job) = Job::echo(alloc, "hi") else {
            assert!(rt; false, "nothing was made");
            return Ok(());
        };
        jobs.push(job)?;
    }
    let Some(text) = transcript(alloc, ECHOES, jobs) else {
        assert!(rt; false, "nothing was made");
        return Ok(());
    };
    assert!(rt; text.as_slice() == ECHOED.as_bytes());
    Ok(())
}
