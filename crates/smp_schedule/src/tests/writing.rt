// The text of a schedule, as the grammar's tables spell it.

use super::repeated;
use crate::{generate, read_schedule, write_schedule};
use smp_edge::{Calls, MemSink};
use std::alloc::Global;
use std::test::Fail;

/// What a text is written as that was read, with the puts of these numbers failing: the bytes that were put, and whether all
/// were.
fn rewritten(alloc: Global, text: &str, fails: &[u32]) -> Result<(MemSink, bool), Fail> {
    let mut out = MemSink::new(alloc, Calls::from_slice(alloc, fails)?);
    if text.len() > 1_000_000 {
        return Ok((out, false));
    }
    let Ok(schedule) = read_schedule(alloc, text.as_bytes()) else {
        return Ok((out, false));
    };
    let done = write_schedule(&mut out, &schedule).is_ok();
    Ok((out, done))
}

#[test]
fn writes_each_kind_of_line_as_it_was(rt: HostRuntime) -> Result<(), Fail> {
    for text in [
        "",
        "boot\n",
        "flash 512 8 16 base.img\n",
        "flash 4096 1 1024 base0.img base1.img\nboot\n",
        "up new\nup 4294967295\ndown 1\ndown new\n",
        "raw 0a\nraw 0001fe\n",
        "client 1 list\nclient 2 echo \u{e9}\nquiet 1\nquiet 2\n",
        "client 1 upload app.img 32 only\nclient 2 upload app.img 480 test\nclient 3 upload app1.img 1900 confirm 1\n",
        "client 1 set a - k1 0aff\nclient 2 put data.bin f\nclient 3 get f\n",
        "arm cut any 1 none\narm fail slot0 2 all\narm read slot1 1\n",
        "arm cut progress 1 0\narm fail scratch 2 7\narm read settings 3\n",
        "arm cut progress-gate 1 none\narm fail settings-gate 2 all\narm read slot2 3\n",
        "arm cut slot3 1 none\narm fail progress2 2 all\narm read progress2-gate 3\n",
        "arm cut scratch2 1000000 4294967295\n",
        "client 1 list\nclient 2 list\nclient 3 list\nclient 4 list\nclient 5 list\nclient 6 list\nclient 7 list\nclient 8 list\nquiet 8\n",
    ] {
        let (out, done) = rewritten(rt.alloc(), text, &[])?;
        assert!(rt; done, "{text}");
        assert_eq!(rt; out.written(), text.as_bytes(), "{text}");
    }
    Ok(())
}

#[test]
fn writes_one_text_for_each_schedule(rt: HostRuntime) -> Result<(), Fail> {
    for (text, want) in [
        ("# nothing\n\n", ""),
        ("#\n\nflash 512 8 16 a\n#\nboot", "flash 512 8 16 a\nboot\n"),
        (
            "raw 0AbC\nclient 1 set A FF",
            "raw 0abc\nclient 1 set A ff\n",
        ),
    ] {
        let (out, done) = rewritten(rt.alloc(), text, &[])?;
        assert!(rt; done, "{text}");
        assert_eq!(rt; out.written(), want.as_bytes(), "{text}");
    }
    Ok(())
}

#[test]
fn writes_packets_of_each_size(rt: HostRuntime) -> Result<(), Fail> {
    for size in [1, 63, 64, 65, 127, 128, 129, 4095, 4096] {
        let digits = repeated(rt.alloc(), "a7", size)?;
        let text = format!(in rt.alloc(); "raw {digits}\n")?;
        let (out, done) = rewritten(rt.alloc(), text.as_str(), &[])?;
        assert!(rt; done, "{size} bytes");
        assert_eq!(rt; out.written(), text.as_bytes(), "{size} bytes");
    }
    Ok(())
}

#[test]
fn writes_as_many_settings_as_there_may_be(rt: HostRuntime) -> Result<(), Fail> {
    let pairs = repeated(rt.alloc(), " name 01 b -", 127)?;
    let text = format!(in rt.alloc(); "client 1 set{pairs}\n")?;
    let (out, done) = rewritten(rt.alloc(), text.as_str(), &[])?;
    assert!(rt; done);
    assert_eq!(rt; out.written(), text.as_bytes());
    Ok(())
}

/// What a program that shares nothing with this one draws of the seed 4.
const DRAWN: &str = "client 1 upload sample.img 240 test
quiet 1
up new
up 30
arm cut any 4 29122
boot
down new
up new
down new
up new
down new
up new
boot
up 54
boot
down new
quiet 1
up new
down new
boot
down 39
down 22
quiet 1
arm cut any 3 7569
up new
";

#[test]
fn writes_a_generated_schedule(rt: HostRuntime) -> Result<(), Fail> {
    let schedule = generate(rt.alloc(), 4, 24)?;
    let mut out = MemSink::new(rt.alloc(), Calls::from_slice(rt.alloc(), &[])?);
    assert!(rt; write_schedule(&mut out, &schedule).is_ok());
    assert_eq!(rt; out.written(), DRAWN.as_bytes());
    Ok(())
}

#[test]
fn stops_where_the_sink_fails(rt: HostRuntime) -> Result<(), Fail> {
    let text = "flash 512 8 16 a\nclient 1 set a - b 01\nraw 02\n";
    let mut whole = false;
    for call in 1..60 {
        let (out, done) = rewritten(rt.alloc(), text, &[call])?;
        assert!(rt; text.as_bytes().starts_with(out.written()), "call {call}");
        assert_eq!(rt; done, out.written().len() == text.len(), "call {call}");
        whole = whole || done;
    }
    assert!(rt; whole);
    Ok(())
}
