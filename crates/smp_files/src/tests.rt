// What no clause says: worked answers, at each limit, and that ample memory is enough.
use crate::{FileFault, FileTable};
use std::test::Fail;

/// The names of as many files as there may be, and one more.
const NAMES: [&str; 9] = ["b", "a", "é", "d", "c", "f", "e", "h", "g"];

/// A file in parts: out of order, twice, past the end, and begun anew.
#[test]
fn parts_go_on_where_the_bytes_end(rt: HostRuntime) -> Result<(), Fail> {
    let mut files = FileTable::reserve(rt.alloc())?;
    assert_eq!(rt; files.write("a", 1, None, b"b"), Err(FileFault::NoFile));
    assert_eq!(rt; files.write("a", 0, None, b"a"), Err(FileFault::NoLength));
    assert_eq!(rt; files.write("a", 0, Some(0), b"a"), Err(FileFault::PastEnd));
    assert_eq!(rt; files.write("a", 0, Some(3), b"a"), Ok(1));
    assert_eq!(rt; files.write("a", 2, None, b"c"), Ok(1));
    assert_eq!(rt; files.write("a", 1, None, b"bcd"), Err(FileFault::PastEnd));
    assert_eq!(rt; files.write("a", 1, None, b"bc"), Ok(3));
    assert_eq!(rt; files.write("a", 1, None, b"bc"), Ok(3));
    assert_eq!(rt; files.write("a", 3, None, b"d"), Err(FileFault::PastEnd));
    assert_eq!(rt; files.read("a"), Some(b"abc".as_slice()));
    assert_eq!(rt; files.write("a", 0, Some(1), b""), Ok(0));
    assert_eq!(rt; files.write("a", 0, None, b""), Err(FileFault::NoLength));
    assert!(rt; files.read("a").is_some() && files.read("b").is_none());
    Ok(())
}

/// As many files as there may be, each to its end, and none after that.
#[test]
fn eight_files_are_held_to_their_ends(rt: HostRuntime) -> Result<(), Fail> {
    let mut files = FileTable::reserve(rt.alloc())?;
    let part = [7u8; 4096];
    for turn in 0..2 {
        for name in &NAMES[..8] {
            assert_eq!(rt;
                files.write(name, 0, Some(16384), &part),
                Ok(4096),
                "{turn}"
            );
            for off in [4096u32, 8192, 12288] {
                assert_eq!(rt; files.write(name, off, None, &part), Ok(off + 4096));
            }
        }
        assert_eq!(rt; files.write("g", 0, Some(1), b"x"), Err(FileFault::NoFree));
        assert_eq!(rt; files.write("g", 0, Some(0), b"x"), Err(FileFault::PastEnd));
        assert_eq!(rt;
            files.write("a", 16384, None, b"x"),
            Err(FileFault::PastEnd)
        );
        files.clear();
        assert_eq!(rt; files.read("a"), None);
    }
    Ok(())
}

/// The lengths of names and of files at their limits, and which of two faults comes first.
#[test]
fn limits_are_met(rt: HostRuntime) -> Result<(), Fail> {
    let mut files = FileTable::reserve(rt.alloc())?;
    let name = "0123456789abcdef0123456789abcdef0123456789abcdef0123456789abcdef0";
    let long = [7u8; 16386];
    let rows = [
        ("", 0, Some(1), b"".as_slice(), Err(FileFault::NameLength)),
        ("", 1, None, b"", Err(FileFault::NameLength)),
        (name, 0, None, b"", Err(FileFault::NameLength)),
        (&name[1..], 0, Some(16384), b"", Ok(0)),
        (&name[2..], 0, Some(16383), b"", Ok(0)),
        ("a", 0, None, &long, Err(FileFault::NoLength)),
        ("a", 0, Some(16385), &long, Err(FileFault::TooLong)),
        ("a", 0, Some(16384), &long[1..], Err(FileFault::PastEnd)),
        ("a", 0, Some(16384), &long[2..], Ok(16384)),
        ("a", 16384, None, b"", Ok(16384)),
        ("a", 0, Some(3), b"abc", Ok(3)),
    ];
    for (name, off, len, part, want) in rows {
        assert_eq!(rt; files.write(name, off, len, part), want, "{name} {off}");
    }
    assert_eq!(rt; files.read("a"), Some(b"abc".as_slice()));
    Ok(())
}
