// Runs whose expected texts were worked out by hand from the tables of packets and replies.

use crate::{Status, run};
use smp_edge::{Calls, MemFiles, MemSink, Octets, SteadyFiles, SteadySink};
use smp_model::ImageFault;
use std::alloc::{AllocError, Global};
use std::test::Fail;

const END: &str = "end sent 0 answered 0 done 0\n";

/// Words of the command line.
fn words(alloc: Global, texts: &[&str]) -> Result<Vec<Octets>, AllocError> {
    let mut words = Vec::new(alloc);
    for text in texts {
        words.push(Octets::from_slice(alloc, text.as_bytes())?)?;
    }
    Ok(words)
}

/// How the replay of a schedule ends, and what it writes, where these puts and loads fail.
fn replayed(
    alloc: Global,
    schedule: &[u8],
    puts: &[u32],
    loads: &[u32],
) -> Result<(Status, Vec<u8>), AllocError> {
    let mut files = MemFiles::new(alloc, Calls::from_slice(alloc, loads)?);
    let name = Octets::from_slice(alloc, b"a schedule")?;
    files.add(name, Octets::from_slice(alloc, schedule)?)?;
    let mut out = MemSink::new(alloc, Calls::from_slice(alloc, puts)?);
    let words = words(alloc, &["replay", "a schedule"])?;
    let status = run(alloc, words.as_slice(), &mut out, &mut files);
    Ok((status, Vec::from_slice(alloc, out.written())?))
}

/// So many copies of a line.
fn copies(alloc: Global, line: &str, count: u32) -> Result<Vec<u8>, AllocError> {
    let mut text = Vec::new(alloc);
    for _ in 0..count {
        text.extend_from_slice(line.as_bytes())?;
    }
    Ok(text)
}

#[test]
fn replays_packets(rt: HostRuntime) -> Result<(), Fail> {
    for (schedule, lines) in [
        ("", ""),
        // Echo in version 1 and version 2, for a read and a write, with and without a last newline.
        (
            "raw 0200000600000100a16164626869\n",
            "raw 0300000600000100a16172626869\n",
        ),
        (
            "raw 0a00000600000200A16164626869",
            "raw 0b00000600000200a16172626869\n",
        ),
        (
            "raw e07f000400000900a1616460\n",
            "raw 0100000400000900a1617260\n",
        ),
        // Data of an indefinite map, and of a text with a wider head.
        (
            "raw 0a00000700000200bf6164626869ff\nraw 0200000700000100a1616478026869\n",
            "raw 0b00000600000200a16172626869\nraw 0300000600000100a16172626869\n",
        ),
        // Another group, another command, and data that is refused.
        (
            "raw 0000000100630300a0\nraw 02000006000001\n",
            "raw 0100000500630300a162726308\nraw dropped\n",
        ),
        (
            "raw 0200000600000101a16164626869\nraw 0200000600000100a161646268ff\n",
            "raw 0300000500000101a162726308\nraw 0300000500000100a162726303\n",
        ),
        (
            "raw 0a00000b00010501a2636f666600636f666600\n",
            "raw 0b00000500010501a162726303\n",
        ),
        // Seven lists in the value of another key are level 8, and eight are level 9.
        (
            "raw 0a00000f00000600a26164616161788181818181818100\nraw 0a00001000000600a2616461616178818181818181818100\n",
            "raw 0b00000500000600a161726161\nraw 0b00000500000600a162726303\n",
        ),
        // Version bits 2 and 3 are refused before anything else, in version 2.
        (
            "raw 1200000600000100a16164626869\nraw 1a00000100000400a0\nraw 1a00000100630400ff\n",
            "raw 0b00000500000100a16272630d\nraw 0b00000500000400a16272630d\nraw 0b00000500630400a16272630d\n",
        ),
        // Parameters, and the list of statistics.
        (
            "raw 0000000100000606a0\nraw 0000000100020701a0\n",
            "raw 0100001800000606a2686275665f73697a65190800696275665f636f756e7401\nraw 0100001000020701a169737461745f6c6973748163736d70\n",
        ),
        // A dropped packet, an echo and an error; then the statistics `smp`, which count them and not themselves.
        (
            "raw 00\nraw 0200000600000100a16164626869\nraw 0000000100630300a0\nraw 0800000a00020800a1646e616d6563736d70\n",
            "raw dropped\nraw 0300000600000100a16172626869\nraw 0100000500630300a162726308\nraw 0900002c00020800a2646e616d6563736d70666669656c6473a36768616e646c6564026764726f7070656401666572726f727301\n",
        ),
        // A length that is not its own, a reply, and no operation at all.
        (
            "raw 0200000700000100a16164626869\nraw 0100000600000100a16164626869\n",
            "raw dropped\nraw dropped\n",
        ),
        (
            "raw 0300000600000100a16164626869\nraw 0700000600000100a16164626869\nraw 00\n",
            "raw dropped\nraw dropped\nraw dropped\n",
        ),
    ] {
        let (status, written) = replayed(rt.alloc(), schedule.as_bytes(), &[], &[])?;
        assert_eq!(rt; status, Status::Done, "{schedule}");
        let text = format!(in rt.alloc(); "{lines}{END}")?;
        assert_eq!(rt; written.as_slice(), text.as_bytes(), "{schedule}");
    }
    Ok(())
}

#[test]
fn names_the_first_bad_line(rt: HostRuntime) -> Result<(), Fail> {
    for (schedule, line) in [
        ("raw 0g", 1),
        ("raw 00\nboot\nraw 0\n", 3),
        ("# a comment\n\nraw 0\n", 3),
        ("quiet 1", 1),
        ("client 2 list", 1),
        ("raw 00\nflash 512 8 16 base.img", 2),
        ("raw", 1),
        ("raw ", 1),
        ("raw 0", 1),
        ("raw  00", 1),
        ("raw 00 ", 1),
        ("raw 00\r\n", 1),
        ("RAW 00", 1),
        (" raw 00", 1),
        ("raw \u{e9}\u{e9}", 1),
    ] {
        let (status, written) = replayed(rt.alloc(), schedule.as_bytes(), &[], &[])?;
        assert_eq!(rt; status, Status::BadSchedule(line), "{schedule}");
        assert!(rt; written.is_empty(), "{schedule}");
    }
    Ok(())
}

#[test]
fn keeps_the_limits(rt: HostRuntime) -> Result<(), Fail> {
    let alloc = rt.alloc();
    // 4096 bytes are one event, which is no packet; 4097 are outside the grammar.
    let mut text = Vec::from_slice(alloc, b"raw ")?;
    text.extend_from_slice(copies(alloc, "00", 4096)?.as_slice())?;
    let (status, written) = replayed(alloc, text.as_slice(), &[], &[])?;
    assert_eq!(rt; status, Status::Done);
    let dropped = format!(in alloc; "raw dropped\n{END}")?;
    assert_eq!(rt; written.as_slice(), dropped.as_bytes());
    text.extend_from_slice(b"00")?;
    assert_eq!(rt;
        replayed(alloc, text.as_slice(), &[], &[])?.0,
        Status::BadSchedule(1)
    );
    // 100000 lines are a schedule, and the next one is outside it.
    let mut lines = copies(alloc, "raw 00\n", 100_000)?;
    let (status, written) = replayed(alloc, lines.as_slice(), &[], &[])?;
    assert_eq!(rt; status, Status::Done);
    assert_eq!(rt; written.len(), 12 * 100_000 + 29);
    lines.extend_from_slice(b"raw 00")?;
    assert_eq!(rt;
        replayed(alloc, lines.as_slice(), &[], &[])?.0,
        Status::BadSchedule(100_001)
    );
    // A file of 8388608 bytes is read, and one byte more is too long.
    let mut long = copies(alloc, "12345678", 1_048_576)?;
    assert_eq!(rt;
        replayed(alloc, long.as_slice(), &[], &[])?.0,
        Status::BadSchedule(1)
    );
    long.push(b'9')?;
    assert_eq!(rt;
        replayed(alloc, long.as_slice(), &[], &[])?.0,
        Status::TooLong
    );
    Ok(())
}

#[test]
fn stops_at_faults(rt: HostRuntime) -> Result<(), Fail> {
    let alloc = rt.alloc();
    let (status, written) = replayed(alloc, b"raw 00\n", &[1], &[])?;
    assert_eq!(rt; status, Status::WriteFault);
    assert!(rt; written.is_empty());
    // The second piece fails: the first one, of whole lines, is written.
    let lines = copies(alloc, "raw 00\n", 10_000)?;
    let (status, written) = replayed(alloc, lines.as_slice(), &[2], &[])?;
    assert_eq!(rt; status, Status::WriteFault);
    let piece = copies(alloc, "raw dropped\n", 5_462)?;
    assert_eq!(rt; written.as_slice(), piece.as_slice());
    let (status, written) = replayed(alloc, b"raw 00\n", &[], &[1])?;
    assert_eq!(rt; status, Status::FileFault);
    assert!(rt; written.is_empty());
    Ok(())
}

#[test]
fn knows_its_words(rt: HostRuntime) -> Result<(), Fail> {
    let alloc = rt.alloc();
    for (texts, want) in [
        ([].as_slice(), Status::Usage),
        (["replay"].as_slice(), Status::Usage),
        (["replay", "a", "b"].as_slice(), Status::Usage),
        (["Replay", "a"].as_slice(), Status::Usage),
        (["replay", ""].as_slice(), Status::Usage),
        (["replay", "a\tb"].as_slice(), Status::Usage),
        (["replay", "a\u{7f}"].as_slice(), Status::Usage),
        (["replay", "a b"].as_slice(), Status::Done),
        (["replay", "\u{e9}"].as_slice(), Status::Done),
    ] {
        let words = words(alloc, texts)?;
        let mut files = SteadyFiles::new(alloc);
        let status = run(alloc, words.as_slice(), &mut SteadySink, &mut files);
        assert_eq!(rt; status, want, "{texts:?}");
    }
    let no_text = [
        Octets::from_slice(alloc, b"replay")?,
        Octets::from_slice(alloc, b"\xff")?,
    ];
    let mut files = SteadyFiles::new(alloc);
    assert_eq!(rt;
        run(alloc, &no_text, &mut SteadySink, &mut files),
        Status::Usage
    );
    Ok(())
}

#[test]
fn prints_its_status(rt: HostRuntime) -> Result<(), Fail> {
    for (status, code, text) in [
        (Status::Done, 0, "done"),
        (Status::Usage, 2, "usage"),
        (Status::BadSchedule(100_001), 3, "bad schedule line 100001"),
        (Status::BadImage(ImageFault::WrongHash), 3, "bad image"),
        (Status::TooLong, 3, "file too long"),
        (Status::FileFault, 4, "file fault"),
        (Status::WriteFault, 5, "write fault"),
        (Status::NoMemory, 10, "no memory"),
    ] {
        assert_eq!(rt; status.code(), code);
        assert_eq!(rt; format!(in rt.alloc(); "{status}")?.as_str(), text);
    }
    Ok(())
}

/// Two clients over the image that is chosen: an echo, and settings that are saved; a boot shows them.
const CLIENTS: &str = "\
    client 1 echo hi\n\
    up new\n\
    down new\n\
    client 2 set a 01\n\
    up new\n\
    down new\n\
    up new\n\
    down new\n\
    boot\n";

/// What is printed of them.
const ANSWERED: &str = "\
    client 1 send 1\n\
    up 1 reply 1 0b00000600000000a16172626869\n\
    down 1 done\n\
    client 2 send 2\n\
    up 2 reply 2 0b00000100030000a0\n\
    down 2 send 3\n\
    up 3 reply 3 0b00000100030103a0\n\
    down 3 done\n\
    boot upload none pending none confirmed no saved 010101610101\n\
    end sent 3 answered 3 done 2\n";

#[test]
fn replays_clients(rt: HostRuntime) -> Result<(), Fail> {
    let (status, written) = replayed(rt.alloc(), CLIENTS.as_bytes(), &[], &[])?;
    assert_eq!(rt; status, Status::Done);
    assert_eq!(rt; written.as_slice(), ANSWERED.as_bytes());
    Ok(())
}

/// How a schedule ends that names files, of which one is there: `app.img`, with these bytes.
fn ended(alloc: Global, schedule: &str, image: &[u8], loads: &[u32]) -> Result<Status, AllocError> {
    let mut files = MemFiles::new(alloc, Calls::from_slice(alloc, loads)?);
    let name = Octets::from_slice(alloc, b"schedule")?;
    files.add(name, Octets::from_slice(alloc, schedule.as_bytes())?)?;
    let name = Octets::from_slice(alloc, b"app.img")?;
    files.add(name, Octets::from_slice(alloc, image)?)?;
    let words = words(alloc, &["replay", "schedule"])?;
    Ok(run(alloc, words.as_slice(), &mut SteadySink, &mut files))
}

#[test]
fn tests_files_in_their_order(rt: HostRuntime) -> Result<(), Fail> {
    let alloc = rt.alloc();
    for (schedule, loads, want) in [
        // A file that is missing comes before an image that is bad, and a line before both.
        (
            "client 1 upload app.img 480 test\nclient 2 put nothing a\n",
            [].as_slice(),
            Status::FileFault,
        ),
        (
            "client 1 put nothing a\nclient 2 nothing\n",
            [].as_slice(),
            Status::BadSchedule(2),
        ),
        (
            "client 1 upload app.img 480 test\n",
            [].as_slice(),
            Status::BadImage(ImageFault::Short),
        ),
        (
            "flash 512 8 16 app.img\nclient 1 list\n",
            [].as_slice(),
            Status::BadImage(ImageFault::Short),
        ),
        ("client 1 put app.img a\n", [].as_slice(), Status::Done),
        // The second load fails.
        (
            "client 1 put app.img a\n",
            [2].as_slice(),
            Status::FileFault,
        ),
    ] {
        let status = ended(alloc, schedule, b"abc", loads)?;
        assert_eq!(rt; status, want, "{schedule}");
    }
    Ok(())
}
