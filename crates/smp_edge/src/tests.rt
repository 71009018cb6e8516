// Each object once, with values worked out by hand.
use crate::{
    Block, Calls, Files, Heard, Link, LoadFault, MemFiles, MemLink, MemSink, MemSource, Octets,
    Peer, Role, Scripted, Sink, Source, SteadyFiles, SteadyLink, SteadySink, SteadySource,
};
use std::alloc::{AllocError, Global};
use std::test::Fail;

mod real;

const OWN: Peer = Peer {
    address: 1,
    port: 2,
};

const OTHER: Peer = Peer {
    address: 3,
    port: 4,
};

#[test]
fn sinks_keep_what_was_put(rt: HostRuntime) -> Result<(), Fail> {
    let alloc = rt.alloc();
    let mut out = MemSink::new(alloc, Calls::from_slice(alloc, &[2])?);
    let mut block = Block::with_capacity(alloc, 4)?;
    assert!(rt; SteadySink.put(b"gone").is_ok());
    assert!(rt; block.put(b"ab").is_ok() && block.put(b"cdef").is_ok());
    assert_eq!(rt; block.len(), 6);
    assert!(rt; block.put_into(&mut out).is_ok());
    assert!(rt; block.is_empty());
    assert!(rt; out.put(b"x").is_err());
    assert!(rt; out.put(b"y").is_ok());
    assert_eq!(rt; out.written(), b"abcdefy".as_slice());
    Ok(())
}

#[test]
fn files_are_loaded_whole(rt: HostRuntime) -> Result<(), Fail> {
    let alloc = rt.alloc();
    let mut files = MemFiles::new(alloc, Calls::from_slice(alloc, &[3])?);
    let mut steady = SteadyFiles::new(alloc);
    for held in [b"old".as_slice(), b"new!".as_slice()] {
        files.add(
            Octets::from_slice(alloc, b"a")?,
            Octets::from_slice(alloc, held)?,
        )?;
        steady.add(
            Octets::from_slice(alloc, b"a")?,
            Octets::from_slice(alloc, held)?,
        )?;
    }
    for (name, limit, want) in [
        ("a", 4, Ok(b"new!".as_slice())),
        ("a", 3, Err(LoadFault::TooLong)),
        ("a", 4, Err(LoadFault::Failed)),
        ("b", 4, Err(LoadFault::Failed)),
    ] {
        match files.load(alloc, name, limit) {
            Ok(held) => assert_eq!(rt; Ok(held.as_slice()), want),
            Err(fault) => assert_eq!(rt; Err(fault), want),
        }
    }
    match steady.load(alloc, "b", 0) {
        Ok(held) => assert!(rt; held.as_slice().is_empty()),
        Err(_) => assert!(rt; false),
    }
    Ok(())
}

#[test]
fn sources_give_pieces_to_the_end(rt: HostRuntime) -> Result<(), Fail> {
    let alloc = rt.alloc();
    let held = || Octets::from_slice(alloc, b"abcde");
    let mut source = MemSource::new(held()?, Calls::from_slice(alloc, &[2])?);
    let mut steady = SteadySource::new(held()?);
    let mut into = [0u8; 3];
    assert_eq!(rt; source.take(&mut into), Ok(3));
    assert!(rt; source.take(&mut into).is_err());
    assert_eq!(rt; source.take(&mut into), Ok(2));
    assert_eq!(rt; into, *b"dec");
    assert_eq!(rt; source.take(&mut into), Ok(0));
    for want in [3, 2, 0] {
        assert_eq!(rt; steady.take(&mut into), Ok(want));
    }
    Ok(())
}

fn abc(alloc: Global) -> Result<Scripted, AllocError> {
    Ok(Scripted::Packet {
        from: OTHER,
        held: Octets::from_slice(alloc, b"abc")?,
    })
}

const CUT: Heard = Heard::Packet {
    from: OTHER,
    length: 2,
};

#[test]
fn links_hear_their_script(rt: HostRuntime) -> Result<(), Fail> {
    let alloc = rt.alloc();
    let mut link = MemLink::new(alloc, OWN, Calls::from_slice(alloc, &[3])?);
    let mut into = [0u8; 2];
    link.name(Octets::from_slice(alloc, b"x")?, OTHER)?;
    link.push(Scripted::Quiet)?;
    link.push(abc(alloc)?)?;
    assert_eq!(rt; link.attach(Role::Reach, "x"), Ok(OTHER));
    assert_eq!(rt; link.hear(&mut into), Ok(Heard::Quiet));
    assert!(rt; link.hear(&mut into).is_err());
    assert_eq!(rt; link.hear(&mut into), Ok(CUT));
    assert_eq!(rt; into, *b"ab");
    assert_eq!(rt; link.hear(&mut into), Ok(Heard::Quiet));
    assert!(rt; link.send(OTHER, b"hi").is_ok());
    assert_eq!(rt; link.sent().len(), 1);
    assert_eq!(rt; link.sent()[0].to, OTHER);
    assert_eq!(rt; link.sent()[0].held.as_slice(), b"hi".as_slice());
    Ok(())
}

#[test]
fn steady_links_hear_their_script(rt: HostRuntime) -> Result<(), Fail> {
    let alloc = rt.alloc();
    let mut link = SteadyLink::new(alloc, OWN);
    let mut into = [0u8; 2];
    link.name(Octets::from_slice(alloc, b"x")?, OTHER)?;
    link.push(abc(alloc)?)?;
    assert_eq!(rt; link.attach(Role::Reach, "y"), Ok(OWN));
    assert_eq!(rt; link.attach(Role::Serve, "x"), Ok(OWN));
    assert!(rt; link.send(OTHER, b"hi").is_ok());
    assert_eq!(rt; link.hear(&mut into), Ok(CUT));
    assert_eq!(rt; link.hear(&mut into), Ok(Heard::Quiet));
    Ok(())
}
