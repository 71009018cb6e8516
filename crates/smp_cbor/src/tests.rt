//! Vectors of RFC 8949, appendix A, each as the value of the key "a" of a map; refusals, by place and kind; hostile data
//! of a whole packet; and what is written. Expected values were worked out by hand from the layout of an item.

use super::*;
use arrayvec::ArrayVec;

#[test]
fn reads(rt: HostRuntime) {
    let numbers: [(&[u8], Item<'_>); 19] = [
        (b"\xa1\x61a\x00", Item::Unsigned(0)),
        (b"\xa1\x61a\x17", Item::Unsigned(23)),
        (b"\xa1\x61a\x18\x18", Item::Unsigned(24)),
        (b"\xa1\x61a\x18\x64", Item::Unsigned(100)),
        (b"\xa1\x61a\x18\x05", Item::Unsigned(5)),
        (b"\xa1\x61a\x19\x03\xe8", Item::Unsigned(1000)),
        (b"\xa1\x61a\x1a\x00\x0f\x42\x40", Item::Unsigned(1000000)),
        (
            b"\xa1\x61a\x1b\x00\x00\x00\xe8\xd4\xa5\x10\x00",
            Item::Unsigned(1000000000000),
        ),
        (
            b"\xa1\x61a\x1b\xff\xff\xff\xff\xff\xff\xff\xff",
            Item::Unsigned(18446744073709551615),
        ),
        (
            b"\xa1\x61a\x3b\xff\xff\xff\xff\xff\xff\xff\xff",
            Item::Negative(18446744073709551615),
        ),
        (b"\xa1\x61a\x20", Item::Negative(0)),
        (b"\xa1\x61a\x38\x63", Item::Negative(99)),
        (b"\xa1\x61a\x39\x03\xe7", Item::Negative(999)),
        (b"\xa1\x61a\xf4", Item::Bool(false)),
        (b"\xa1\x61a\xf5", Item::Bool(true)),
        (b"\xa1\x61a\xf6", Item::Null),
        (b"\xa1\x61a\xf7", Item::Other),
        (b"\xa1\x61a\xf0", Item::Other),
        (b"\xa1\x61a\xf8\xff", Item::Other),
    ];
    for (bytes, item) in numbers {
        match read_map(bytes) {
            Ok(map) => assert_eq!(rt; map.find("a"), Some(item), "{bytes:?}"),
            Err(fault) => assert!(rt; false, "{bytes:?} is refused: {fault:?}"),
        }
    }
    let others: [(&[u8], Item<'_>); 21] = [
        (b"\xa1\x61a\xf9\x3c\x00", Item::Other),
        (b"\xa1\x61a\xfa\x47\xc3\x50\x00", Item::Other),
        (
            b"\xa1\x61a\xfb\x3f\xf1\x99\x99\x99\x99\x99\x9a",
            Item::Other,
        ),
        (
            b"\xa1\x61a\xc2\x49\x01\x00\x00\x00\x00\x00\x00\x00\x00",
            Item::Other,
        ),
        (b"\xa1\x61a\xc1\x1a\x51\x4b\x67\xb0", Item::Other),
        (b"\xa1\x61a\xd8\x18\x45\x64\x49\x45\x54\x46", Item::Other),
        (b"\xa1\x61a\x40", Item::Octets(b"")),
        (
            b"\xa1\x61a\x44\x01\x02\x03\x04",
            Item::Octets(b"\x01\x02\x03\x04"),
        ),
        (b"\xa1\x61a\x60", Item::Text("")),
        (b"\xa1\x61a\x64IETF", Item::Text("IETF")),
        (b"\xa1\x61a\x62\x22\x5c", Item::Text("\"\\")),
        (b"\xa1\x61a\x62\xc3\xbc", Item::Text("ü")),
        (b"\xa1\x61a\x63\xe6\xb0\xb4", Item::Text("水")),
        (b"\xa1\x61a\x64\xf0\x90\x85\x91", Item::Text("𐅑")),
        (b"\xa1\x78\x01a\x78\x01b", Item::Text("b")),
        (b"\xbf\x61a\x01\xff", Item::Unsigned(1)),
        (b"\xb9\x00\x02\x61b\x01\x61a\x02", Item::Unsigned(2)),
        (b"\xa2\x61a\x01\x60\x02", Item::Unsigned(1)),
        (b"\xa1\x61a\xa2\x01\x02\x03\x04", Item::Other),
        (b"\xa1\x61a\xa2\x61b\x01\x61b\x02", Item::Other),
        (b"\xa1\x61a\xbf\x61b\x01\x41c\x02\xff", Item::Other),
    ];
    for (bytes, item) in others {
        match read_map(bytes) {
            Ok(map) => assert_eq!(rt; map.find("a"), Some(item), "{bytes:?}"),
            Err(fault) => assert!(rt; false, "{bytes:?} is refused: {fault:?}"),
        }
    }
}

#[test]
fn walks(rt: HostRuntime) {
    // [1, {"k": true}, {1: 2}, [], [_ 4, 5]], and a map that goes on to a break
    let data: &[u8] =
        b"\xbf\x61a\x85\x01\xa1\x61k\xf5\xa1\x01\x02\x80\x9f\x04\x05\xff\x63Fun\xf5\x63Amt\x21\x61b\xa0\xff";
    let (Ok(map), Ok(empty)) = (read_map(data), read_map(b"")) else {
        return assert!(rt; false, "refused");
    };
    assert_eq!(rt; (map.len(), empty.len()), (4, 0));
    assert_eq!(rt;
        (map.find("Amt"), map.find("Fun")),
        (Some(Item::Negative(1)), Some(Item::Bool(true)))
    );
    assert_eq!(rt;
        (map.find("c"), map.find("Amt2"), empty.find("a")),
        (None, None, None)
    );
    let mut found = [None; 4];
    map.find_each(&["Amt", "c", "Fun", "Amt"], &mut found);
    assert_eq!(rt; (found[0], found[1]), (Some(Item::Negative(1)), None));
    assert_eq!(rt;
        (found[2], found[3]),
        (Some(Item::Bool(true)), Some(Item::Negative(1)))
    );
    let (Some(Item::List(list)), Some(Item::Map(inner))) = (map.find("a"), map.find("b")) else {
        return assert!(rt; false, "a is no list, or b no map");
    };
    assert_eq!(rt; (inner.len(), inner.find("a")), (0, None));
    let mut list = list;
    assert_eq!(rt; list.next(), Some(Item::Unsigned(1)));
    match list.next() {
        Some(Item::Map(inner)) => assert_eq!(rt; inner.find("k"), Some(Item::Bool(true))),
        _ => assert!(rt; false, "the second item is no map"),
    }
    assert_eq!(rt; list.next(), Some(Item::Other));
    match list.next() {
        Some(Item::List(inner)) => {
            let mut inner = inner;
            assert_eq!(rt; inner.next(), None);
        }
        _ => assert!(rt; false, "the fourth item is no list"),
    }
    match list.next() {
        Some(Item::List(inner)) => {
            let mut inner = inner;
            assert_eq!(rt; inner.next(), Some(Item::Unsigned(4)));
            assert_eq!(rt; inner.next(), Some(Item::Unsigned(5)));
            assert_eq!(rt; inner.next(), None);
        }
        _ => assert!(rt; false, "the fifth item is no list"),
    }
    assert_eq!(rt; list.next(), None);
}

#[test]
fn refuses(rt: HostRuntime) {
    let cases: [(&[u8], usize, CborKind); 34] = [
        (b"\x80", 0, CborKind::NotAMap),
        (b"\xf6\x00", 0, CborKind::NotAMap),
        (b"\xbc", 0, CborKind::Head),
        (b"\xb8", 0, CborKind::Short),
        (b"\xa1", 1, CborKind::Short),
        (b"\xa1\x61", 1, CborKind::Short),
        (b"\xa1\x78", 1, CborKind::Short),
        (b"\xa1\x61d", 3, CborKind::Short),
        (b"\xa1\x61d\x19\x01", 3, CborKind::Short),
        (b"\xa1\x61d\x1b\x00\x00\x00", 3, CborKind::Short),
        (
            b"\xa1\x61d\x5b\xff\xff\xff\xff\xff\xff\xff\xff",
            3,
            CborKind::Short,
        ),
        (
            b"\xa1\x61d\x9b\xff\xff\xff\xff\xff\xff\xff\xff",
            12,
            CborKind::Short,
        ),
        (b"\xbb\xff\xff\xff\xff\xff\xff\xff\xff", 9, CborKind::Short),
        (b"\xbf\x61d\x01", 4, CborKind::Short),
        (b"\xa1\x61d\x9f\x01", 5, CborKind::Short),
        (b"\xa1\x61d\x1c", 3, CborKind::Head),
        (b"\xa1\x61d\x7f", 3, CborKind::Head),
        (b"\xa1\x61d\x5f\x42\x01\x02\xff", 3, CborKind::Head),
        (b"\xa1\x61d\xf8\x1f", 3, CborKind::Head),
        (b"\xa1\x61d\xff", 3, CborKind::Head),
        (b"\xa1\xff", 1, CborKind::Head),
        (b"\xbf\x61d\xff", 3, CborKind::Head),
        (b"\xa1\x61d\xbf\x01\xff", 5, CborKind::Head),
        (b"\xa1\x1c", 1, CborKind::Head),
        (b"\xa1\x01\x02", 1, CborKind::Key),
        (b"\xa1\x81\x01\x02", 1, CborKind::Key),
        (b"\xa2\x61d\x01\x78\x01d\x02", 4, CborKind::Repeated),
        (b"\xa2\x61d\x01\x61d\x1c", 4, CborKind::Repeated),
        (b"\xa1\x61\xff\x01", 1, CborKind::NotUtf8),
        (b"\xa1\x61d\x61\xff", 3, CborKind::NotUtf8),
        (b"\xa1\x61d\x81\x62\xc3\x28", 4, CborKind::NotUtf8),
        (b"\xa1\x61d\x01\x00", 4, CborKind::Trailing),
        (b"\xa0\xa0", 1, CborKind::Trailing),
        (b"\xbf\xff\xff", 2, CborKind::Trailing),
    ];
    for (bytes, at, kind) in cases {
        assert_eq!(rt; read_map(bytes), Err(CborFault { at, kind }), "{bytes:?}");
    }
}

/// A packet's data: the front, and then the unit as often as it fits.
fn data_of(front: &[u8], unit: &[u8]) -> ArrayVec<u8, 2048> {
    let mut out = ArrayVec::new();
    let _ = out.try_extend_from_slice(front);
    for _ in 0..2048 {
        if out.try_extend_from_slice(unit).is_err() {
            break;
        }
    }
    out
}

#[test]
fn hostile(rt: HostRuntime) {
    let cases: [(&[u8], &[u8], usize, CborKind); 9] = [
        (b"\xa1\x61a", b"\x81", 10, CborKind::Deep),
        (b"\xa1\x61a", b"\x9f", 10, CborKind::Deep),
        (b"\xa1\x61a", b"\xc1", 10, CborKind::Deep),
        (b"", b"\xa1\x61a", 24, CborKind::Deep),
        (b"", b"\xbf\x61a", 24, CborKind::Deep),
        (b"\xa1\x61a\x9f", b"\x80", 2048, CborKind::Short),
        (
            b"\xa1\x61a\x9f\x9f\x9f\x9f\x9f\x9f",
            b"\xa0",
            2048,
            CborKind::Short,
        ),
        (b"\xbf", b"\x60\x00", 3, CborKind::Repeated),
        (
            b"\xbb\xff\xff\xff\xff\xff\xff\xff\xff",
            b"\x61a\x00",
            12,
            CborKind::Repeated,
        ),
    ];
    for (front, unit, at, kind) in cases {
        let data = data_of(front, unit);
        assert_eq!(rt;
            read_map(data.as_slice()),
            Err(CborFault { at, kind }),
            "{front:?}, {unit:?}"
        );
    }
    // as many different keys as fit
    let mut data = data_of(b"\xbf", b"\x00");
    data.truncate(1);
    for high in b'A'..=b'Z' {
        for low in b'a'..=b't' {
            let _ = data.try_extend_from_slice(&[0x62, high, low, 0]);
        }
    }
    let _ = data.try_push(0xff);
    match read_map(data.as_slice()) {
        Ok(map) => {
            assert_eq!(rt;
                (map.len(), map.find("Zk"), map.find("Zl")),
                (511, Some(Item::Unsigned(0)), None)
            );
        }
        Err(fault) => assert!(rt; false, "{fault:?}"),
    }
}

/// A map without a count of 494 keys, but for its break.
fn many_keys() -> ArrayVec<u8, 2048> {
    let mut data = ArrayVec::new();
    let _ = data.try_push(0xbf);
    for high in b'A'..=b'Z' {
        for low in b'a'..=b's' {
            let _ = data.try_extend_from_slice(&[0x62, high, low, 0]);
        }
    }
    data
}

#[test]
fn repeats_late(rt: HostRuntime) {
    // The first key, those on either side of the last that is kept, and the last.
    for key in [b"Aa", b"Sb", b"Sc", b"Zs"] {
        let mut data = many_keys();
        let _ = data.try_extend_from_slice(&[0x62, key[0], key[1], 0, 0xff]);
        let fault = CborFault {
            at: 1977,
            kind: CborKind::Repeated,
        };
        assert_eq!(rt; read_map(data.as_slice()), Err(fault), "{key:?}");
    }
}

#[test]
#[tactic(auto, using(crate::proofs::Lengths::lengths))]
fn writes(rt: HostRuntime) {
    let numbers: [(u64, &[u8]); 11] = [
        (0, b"\x00"),
        (23, b"\x17"),
        (24, b"\x18\x18"),
        (255, b"\x18\xff"),
        (256, b"\x19\x01\x00"),
        (1000, b"\x19\x03\xe8"),
        (65535, b"\x19\xff\xff"),
        (65536, b"\x1a\x00\x01\x00\x00"),
        (4294967295, b"\x1a\xff\xff\xff\xff"),
        (1000000000000, b"\x1b\x00\x00\x00\xe8\xd4\xa5\x10\x00"),
        (
            18446744073709551615,
            b"\x1b\xff\xff\xff\xff\xff\xff\xff\xff",
        ),
    ];
    for (number, bytes) in numbers {
        let mut out = ArrayVec::<u8, 2048>::new();
        put_unsigned(&mut out, number);
        assert_eq!(rt; out.as_slice(), bytes);
    }
    let mut out = ArrayVec::<u8, 2048>::new();
    put_map(&mut out, 3);
    put_text(&mut out, "ü");
    put_octets(&mut out, b"\x01\x02\x03\x04");
    put_bool(&mut out, true);
    assert_eq!(rt;
        out.as_slice(),
        b"\xa3\x62\xc3\xbc\x44\x01\x02\x03\x04\xf5".as_slice()
    );
    let mut out = ArrayVec::<u8, 2048>::new();
    put_list(&mut out, 25);
    put_text(&mut out, "");
    put_map(&mut out, 65535);
    put_bool(&mut out, false);
    assert_eq!(rt; out.as_slice(), b"\x98\x19\x60\xb9\xff\xff\xf4".as_slice());
}
