// The adapters over the real things: files, readers and writers that are interrupted or fail, standard
// input, and sockets on the loopback.
use crate::address::{address_at, address_named, peer_at};
use crate::folder_files::{read_opened, read_whole};
use crate::{
    Files, FolderFiles, Heard, Link, LoadFault, Octets, Peer, ReaderSource, Role, Sink, Source,
    UdpLink, WriterSink,
};
use std::io::{ErrorKind, Read, Write};
use std::test::Fail;
use std::time::Duration;
use std::{fs, io};

/// What a loaded file holds, by its length, or why it was not loaded.
fn length_of(loaded: Result<Octets, LoadFault>) -> Result<usize, LoadFault> {
    Ok(loaded?.as_slice().len())
}

// Gives one byte a call, each after a call that was interrupted, and fails at the end where it is to.
#[derive(Drop)]
struct Halting<'a> {
    left: &'a [u8],
    is_interrupted: bool,
    fails: bool,
}

impl Read for Halting<'_> {
    fn read(&mut self, into: &mut [u8]) -> io::Result<usize> {
        self.is_interrupted = !self.is_interrupted;
        if self.is_interrupted {
            return Err(io::Error::from(ErrorKind::Interrupted));
        }
        match (self.left.split_first(), into.first_mut()) {
            (Some((byte, left)), Some(place)) => {
                *place = *byte;
                self.left = left;
                Ok(1)
            }
            _ if self.fails => Err(io::Error::from(ErrorKind::BrokenPipe)),
            _ => Ok(0),
        }
    }
}

fn make_halting(left: &[u8], fails: bool) -> Halting<'_> {
    Halting {
        left,
        is_interrupted: false,
        fails,
    }
}

// What a writer was asked for: bytes that it took, and flushes.
#[derive(Clone, Copy, Debug, PartialEq, Eq)]
struct Asked {
    bytes: u32,
    flushes: u32,
}

// Takes at most two bytes a call, each call and each flush after one that was interrupted. A flush
// fails where it is to.
#[derive(Drop)]
struct Hesitant<'a> {
    asked: &'a mut Asked,
    is_interrupted: bool,
    fails: bool,
}

impl Hesitant<'_> {
    fn interrupt(&mut self) -> io::Result<()> {
        self.is_interrupted = !self.is_interrupted;
        if self.is_interrupted {
            return Err(io::Error::from(ErrorKind::Interrupted));
        }
        Ok(())
    }
}

impl Write for Hesitant<'_> {
    fn write(&mut self, bytes: &[u8]) -> io::Result<usize> {
        self.interrupt()?;
        let count = bytes.len().min(2);
        self.asked.bytes = self.asked.bytes.saturating_add(count as u32);
        Ok(count)
    }

    fn flush(&mut self) -> io::Result<()> {
        self.interrupt()?;
        if self.fails {
            return Err(io::Error::from(ErrorKind::BrokenPipe));
        }
        self.asked.flushes = self.asked.flushes.saturating_add(1);
        Ok(())
    }
}

// What a writer was asked for when these pieces were put, and whether each put went through.
fn asked_for(pieces: &[&[u8]], fails: bool) -> (Asked, bool) {
    let mut asked = Asked {
        bytes: 0,
        flushes: 0,
    };
    let mut sink = WriterSink::new(Hesitant {
        asked: &mut asked,
        is_interrupted: false,
        fails,
    });
    let mut all = true;
    for piece in pieces {
        all = sink.put(piece).is_ok() && all;
    }
    (asked, all)
}

#[test]
fn readers_are_read_whole(rt: HostRuntime) {
    let long = [7u8; 40_000];
    for (size, limit, want) in [
        (0, 0, Ok(0)),
        (40_000, 40_000, Ok(40_000)),
        (40_000, 39_999, Err(LoadFault::TooLong)),
    ] {
        let mut reader = &long[..size];
        assert_eq!(rt; length_of(read_whole(rt.alloc(), &mut reader, limit)), want);
    }
    for (fails, limit, want) in [
        (false, 5, Ok(5)),
        (false, 4, Err(LoadFault::TooLong)),
        (true, 5, Err(LoadFault::Failed)),
    ] {
        let opened = Ok(make_halting(b"abcde", fails));
        assert_eq!(rt; length_of(read_opened(rt.alloc(), opened, limit)), want);
    }
    let missing: io::Result<Halting<'_>> = Err(io::Error::from(ErrorKind::NotFound));
    assert_eq!(rt;
        length_of(read_opened(rt.alloc(), missing, 5)),
        Err(LoadFault::Failed)
    );
}

#[test]
fn the_folders_files_are_loaded(rt: HostRuntime) -> Result<(), Fail> {
    let mut files = FolderFiles::new(&rt);
    fs::write(&rt, "loaded", "abcde")?;
    fs::write(&rt, "empty", "")?;
    for (name, limit, want) in [
        ("loaded", 5, Ok(5)),
        ("loaded", 4, Err(LoadFault::TooLong)),
        ("empty", 0, Ok(0)),
        ("loaded ", 5, Err(LoadFault::Failed)),
        (" loaded", 5, Err(LoadFault::Failed)),
        ("missing", 5, Err(LoadFault::Failed)),
        ("", 5, Err(LoadFault::Failed)),
        (".", 5, Err(LoadFault::Failed)),
    ] {
        assert_eq!(rt;
            length_of(files.load(rt.alloc(), name, limit)),
            want,
            "{name:?}"
        );
    }
    fs::remove_file(&rt, "loaded")?;
    fs::remove_file(&rt, "empty")?;
    Ok(())
}

#[test]
fn readers_are_taken_from_to_the_end(rt: HostRuntime) {
    let mut real = ReaderSource::new(b"abcde".as_slice());
    let mut into = [0u8; 3];
    for want in [3, 2, 0] {
        assert_eq!(rt; real.take(&mut into), Ok(want));
    }
    let mut real = ReaderSource::new(make_halting(b"ab", true));
    for want in [Ok(1), Ok(1)] {
        assert_eq!(rt; real.take(&mut into), want);
    }
    assert!(rt; real.take(&mut into).is_err());
    assert!(rt; real.take(&mut into).is_err());
    assert_eq!(rt; into, *b"bec");
    let mut input = ReaderSource::new(rt.stdin());
    assert_eq!(rt; input.take(&mut into), Ok(0));
}

#[test]
fn writers_take_all_and_are_flushed(rt: HostRuntime) {
    let mut room = [0u8; 3];
    let mut real = WriterSink::new(room.as_mut_slice());
    assert!(rt; real.put(b"ab").is_ok());
    assert!(rt; real.put(b"cd").is_err());
    for (fails, flushes) in [(false, 2), (true, 0)] {
        let pieces = [b"abcde".as_slice(), b"".as_slice()];
        let want = Asked { bytes: 5, flushes };
        assert_eq!(rt; asked_for(&pieces, fails), (want, !fails));
    }
    let mut output = WriterSink::new(io::writer(&rt));
    assert!(rt; output.put(b"").is_ok());
}

#[test]
fn names_give_addresses(rt: HostRuntime) {
    let mapped = 0xffff_0000_0000u128;
    for (name, address, port, is_ipv4) in [
        ("127.0.0.1", mapped + 0x7f00_0001, 1337, true),
        ("1.2.3.4:20", mapped + 0x0102_0304, 20, true),
        ("::1", 1, 1337, false),
        ("[::1]", 1, 1337, false),
        (
            "[2001:db8::7]:9",
            0x2001_0db8_0000_0000_0000_0000_0000_0007,
            9,
            false,
        ),
    ] {
        let Some(found) = address_named(&rt, name) else {
            assert!(rt; false, "{name}");
            continue;
        };
        let peer = peer_at(found);
        assert_eq!(rt; peer, Peer { address, port });
        assert!(rt; address_at(peer, is_ipv4) == Some(found));
    }
    for name in ["", ":", "1.2.3.4:65536", "[::1", "[1.2.3.4]", "[::1]x"] {
        assert!(rt; address_named(&rt, name).is_none(), "{name}");
    }
    let unmapped = Peer {
        address: 1,
        port: 1,
    };
    assert!(rt; address_at(unmapped, true).is_none());
}

#[test]
fn packets_pass_over_udp(rt: HostRuntime) -> Result<(), Fail> {
    let mut device = UdpLink::new(&rt);
    let mut client = UdpLink::new(&rt);
    let mut into = [0u8; 3];
    assert!(rt; device.hear(&mut into).is_err());
    assert!(rt;
        device
            .send(
                Peer {
                    address: 1,
                    port: 1
                },
                b""
            )
            .is_err()
    );
    assert!(rt; client.attach(Role::Reach, "1.2.3.4:65536").is_err());
    let Ok(own) = device.attach(Role::Serve, "127.0.0.1:0") else {
        assert!(rt; false);
        return Ok(());
    };
    let name = format!(in rt.alloc(); "127.0.0.1:{}", own.port)?;
    let mut second = UdpLink::with_wait(&rt, Duration::from_millis(9));
    assert!(rt; second.attach(Role::Serve, name.as_str()).is_err());
    assert_eq!(rt; client.attach(Role::Reach, name.as_str()), Ok(own));
    assert_eq!(rt; client.hear(&mut into), Ok(Heard::Quiet));
    assert!(rt; client.send(own, b"long").is_ok());
    match device.hear(&mut into) {
        Ok(Heard::Packet { from, length: 3 }) => assert!(rt; device.send(from, b"").is_ok()),
        _ => assert!(rt; false),
    }
    assert_eq!(rt; into, *b"lon");
    let answered = Heard::Packet {
        from: own,
        length: 0,
    };
    assert_eq!(rt; client.hear(&mut into), Ok(answered));
    Ok(())
}
