// Lines inside and outside the grammar, worked out by hand from its tables.

use crate::{Event, ScheduleFault, Which, generate, generated_payload, read_job, read_schedule};
use smp_edge::Octets;
use std::alloc::{AllocError, Global};
use std::test::Fail;

mod writing;

/// How many events a text has, or why it is no schedule.
fn count_of(alloc: Global, text: &str) -> Result<usize, ScheduleFault> {
    if text.len() > 1_000_000 {
        return Err(ScheduleFault::OutOfMemory);
    }
    match read_schedule(alloc, text.as_bytes()) {
        Ok(schedule) => Ok(schedule.events().len()),
        Err(fault) => Err(fault),
    }
}

#[test]
fn reads_each_kind_of_line(rt: HostRuntime) {
    for (text, count) in [
        ("", 0),
        ("# nothing\n\n", 0),
        ("#\nflash 512 8 16 a\nboot", 1),
        ("flash 4096 1 1024 a b\n", 0),
        ("up new\nup 4294967295\ndown 1\ndown new\n", 4),
        ("raw 0aB1\n", 1),
        ("client 1 list\nclient 2 echo \u{e9}\nquiet 1\nquiet 2\n", 4),
        (
            "client 1 upload f 32 only\nclient 2 upload f 1900 confirm 1\n",
            2,
        ),
        (
            "client 1 set a - b 0aFF\nclient 2 put f g\nclient 3 get g\n",
            3,
        ),
        ("arm cut any 1 none\narm fail slot3 2 all\n", 2),
        (
            "arm cut progress2-gate 1000000 4294967295\narm read scratch2 1\n",
            2,
        ),
    ] {
        assert_eq!(rt; count_of(rt.alloc(), text), Ok(count), "{text}");
    }
}

#[test]
fn names_the_first_line_outside(rt: HostRuntime) {
    for (text, line) in [
        ("up 01", 1),
        ("up 0", 1),
        ("up +1", 1),
        ("up 4294967296", 1),
        ("boot\n\nup  new", 3),
        ("boot\nup new ", 2),
        (" boot", 1),
        ("boot\r\n", 1),
        ("boot 1", 1),
        ("boo", 1),
        ("Boot", 1),
        ("raw ", 1),
        ("raw 0", 1),
        ("raw 0G", 1),
        ("quiet 1", 1),
        ("client 2 list", 1),
        ("client 1 list\nclient 1 list", 2),
        ("boot\nflash 512 8 16 a", 2),
        ("flash 500 8 16 a", 1),
        ("flash 512 8 16", 1),
    ] {
        let want = Err(ScheduleFault::BadLine(line));
        assert_eq!(rt; count_of(rt.alloc(), text), want, "{text}");
    }
}

#[test]
fn refuses_other_words(rt: HostRuntime) {
    for text in [
        "client 1 upload a 32 Only",
        "client 1 upload a 31 only",
        "client 1 upload a 1901 only",
        "client 1 upload a 32 only 0",
        "client 1 upload a 32 only 2",
        "client 1 echo ",
        "client 1 set a",
        "client 1 set",
        "client 1 set a 0",
        "client 1 list a",
        "client 1 get 12345678901234567890123456789012345678901234567890123456789012345",
        "arm cut slot4 1 all",
        "arm cut any 0 all",
        "arm cut any 1000001 all",
        "arm cut any 1 All",
        "arm cut any 1",
        "arm read any 1 none",
        "raw 00\u{e9}",
    ] {
        let want = Err(ScheduleFault::BadLine(1));
        assert_eq!(rt; count_of(rt.alloc(), text), want, "{text}");
    }
}

/// Whether words spell a job, which are parted by `|` here.
fn is_job(alloc: Global, text: &str) -> Result<bool, AllocError> {
    let mut words = Vec::new(alloc);
    for word in text.split('|') {
        words.push(Octets::from_slice(alloc, word.as_bytes())?)?;
    }
    Ok(read_job(alloc, words.as_slice())?.is_some())
}

#[test]
fn reads_the_words_of_a_job(rt: HostRuntime) -> Result<(), Fail> {
    for (text, is) in [
        ("upload|my app.img|32|only", true),
        ("upload|app.img|1900|confirm|1", true),
        ("upload|app.img|480", false),
        ("upload|app.img|480|test|0", false),
        ("list", true),
        ("list|all", false),
        ("set|a|01|b c|-", true),
        ("set|a", false),
        ("set", false),
        ("put|data.bin|my file", true),
        ("put|data.bin", false),
        ("get|my file", true),
        ("echo|hi there", true),
        ("echo|hi|there", false),
        ("echo|", false),
        ("echo|\t", false),
        ("Echo|hi", false),
        ("", false),
    ] {
        assert_eq!(rt; is_job(rt.alloc(), text)?, is, "{text}");
    }
    assert!(rt; read_job(rt.alloc(), &[])?.is_none());
    Ok(())
}

/// The first lines outside the grammar of schedules that were made to be refused.
#[test]
fn refuses_worked_lines(rt: HostRuntime) {
    for (text, line) in [
        (
            "client 1 list\nclient 2 list\nclient 1 upload a 32 Only\n",
            3,
        ),
        ("raw 00\nboot 1\n", 2),
        (
            "client 1 upload app1.img 240 only\nup new\ndown new\nraw 0200000100010e05a0\ndown new\r\n",
            5,
        ),
        ("client 1 upload a 31 only\n", 1),
        ("client 1 list\nraw 0G\n", 2),
        ("\n\nboo\n", 3),
        (
            "client 1 list\nraw 0A00001A0008CC00A4636F666600636C656E1907D0646E616D6561616464617461400\n",
            2,
        ),
        (
            "raw 0200002200080800a364646174615a0000000390a266646e616d6561617b00000000000000036f6666000\n",
            1,
        ),
        ("client 1 list\nclient 1 echo \u{7f}\n", 2),
    ] {
        let want = Err(ScheduleFault::BadLine(line));
        assert_eq!(rt; count_of(rt.alloc(), text), want, "{text}");
    }
}

/// Lines outside the grammar that were made to be refused, each at a line of this number.
#[test]
fn names_worked_lines(rt: HostRuntime) -> Result<(), Fail> {
    for (number, line) in [
        (5, "down new\r"),
        (7, "client 1 echo \u{7f}"),
        (8, "client 1 upload a 32 Only"),
        (
            12,
            "raw 0200002200080800a364646174615a0000000390a266646e616d6561617b00000000000000036f6666000",
        ),
        (17, "boot 1"),
        (93, "boo"),
        (165, "client 1 upload a 31 only"),
        (653, "raw 0G"),
        (
            731,
            "raw 0A00001A0008CC00A4636F666600636C656E1907D0646E616D6561616464617461400",
        ),
    ] {
        let front = repeated(rt.alloc(), "boot\n", number - 1)?;
        let text = format!(in rt.alloc(); "{front}{line}\nboot\n")?;
        let want = Err(ScheduleFault::BadLine(number));
        assert_eq!(rt; count_of(rt.alloc(), text.as_str()), want, "{line}");
    }
    Ok(())
}

/// So many copies of a text.
fn repeated(alloc: Global, text: &str, count: u32) -> Result<String, AllocError> {
    let mut all = String::new(alloc);
    for _ in 0..count {
        all.push_str(text)?;
    }
    Ok(all)
}

#[test]
fn reads_as_many_events_as_there_may_be(rt: HostRuntime) -> Result<(), Fail> {
    let mut text = repeated(rt.alloc(), "up new\n", 100_000)?;
    assert_eq!(rt; count_of(rt.alloc(), text.as_str()), Ok(100_000));
    text.push_str("#\nboot")?;
    assert_eq!(rt;
        count_of(rt.alloc(), text.as_str()),
        Err(ScheduleFault::BadLine(100_002))
    );
    Ok(())
}

#[test]
fn reads_as_many_settings_as_there_may_be(rt: HostRuntime) -> Result<(), Fail> {
    let alloc = rt.alloc();
    let pairs = repeated(alloc, " a 01", 254)?;
    let text = format!(in alloc; "client 1 set{pairs}\nup new")?;
    assert_eq!(rt; count_of(alloc, text.as_str()), Ok(2));
    let text = format!(in alloc; "client 1 set{pairs} b -")?;
    assert_eq!(rt;
        count_of(alloc, text.as_str()),
        Err(ScheduleFault::BadLine(1))
    );
    let text = repeated(alloc, "client 1 ", 100_000)?;
    assert_eq!(rt;
        count_of(alloc, text.as_str()),
        Err(ScheduleFault::BadLine(1))
    );
    Ok(())
}

#[test]
fn says_why_a_text_is_no_schedule(rt: HostRuntime) -> Result<(), Fail> {
    let alloc = rt.alloc();
    let bad = ScheduleFault::BadLine(12);
    assert_eq!(rt; format!(in alloc; "{bad}")?.as_str(), "BadLine 12");
    let none = ScheduleFault::OutOfMemory;
    assert_eq!(rt; format!(in alloc; "{none}")?.as_str(), "OutOfMemory");
    Ok(())
}

/// The letter and the number of an event: 0 stands for the newest.
fn code_of(event: &Event) -> (char, u32) {
    match event {
        Event::Client { number, .. } => ('c', u32::from(*number)),
        Event::Raw(_) => ('r', 0),
        Event::Up(Which::New) => ('u', 0),
        Event::Up(Which::Number(number)) => ('u', *number),
        Event::Down(Which::New) => ('d', 0),
        Event::Down(Which::Number(number)) => ('d', *number),
        Event::Quiet(number) => ('q', u32::from(*number)),
        Event::Armed(arm) => ('a', arm.after),
        Event::Boot => ('b', 0),
    }
}

/// The events that a program which shares nothing with this one draws of the seed 1.
const DRAWN: [(char, u32); 25] = [
    ('c', 1),
    ('u', 0),
    ('d', 0),
    ('u', 0),
    ('d', 0),
    ('q', 1),
    ('q', 1),
    ('u', 0),
    ('d', 0),
    ('u', 0),
    ('d', 0),
    ('u', 1),
    ('b', 0),
    ('u', 0),
    ('b', 0),
    ('u', 58),
    ('d', 0),
    ('q', 1),
    ('u', 0),
    ('d', 0),
    ('u', 53),
    ('u', 0),
    ('u', 18),
    ('d', 0),
    ('b', 0),
];

/// How many events are those that were drawn.
fn drawn_alike(events: &[Event]) -> usize {
    for (i, event) in events.iter().enumerate() {
        let (letter, number) = code_of(event);
        if i >= DRAWN.len() || letter != DRAWN[i].0 || number != DRAWN[i].1 {
            return i;
        }
    }
    events.len()
}

#[test]
fn generates_events(rt: HostRuntime) -> Result<(), Fail> {
    let schedule = generate(rt.alloc(), 1, 24)?;
    assert_eq!(rt; drawn_alike(schedule.events()), 25);
    assert_eq!(rt; schedule.events().len(), 25);
    Ok(())
}

#[test]
fn generates_a_payload(rt: HostRuntime) -> Result<(), Fail> {
    let payload = generated_payload(rt.alloc(), 1)?;
    assert_eq!(rt; payload.as_slice().len(), 4000);
    let begin = [0x88, 0x88, 0x16, 0x73, 0xf0, 0x98, 0x56, 0x62];
    assert!(rt; payload.as_slice().starts_with(&begin));
    Ok(())
}
