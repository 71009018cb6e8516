//! Images of the table of single changes, further images by their parts, and failing reads. Expected values were worked out
//! by a reader of its own, from the layout of an image.

ghost use Rattle.std.specs.Prelude.{◌≤◌, length, [], Some, None, refl};
ghost use Rattle.smp_flash.specs.Area.{AreBytes};
ghost use Rattle.smp_tlv.specs.Carried.{Carries};

use super::*;
use sha2::{Digest, Sha256};
use smp_flash::FlashFault;
use smp_model::{Version, make_image};
use std::alloc::{AllocError, Global};
use std::process::Abort;
use std::test::Fail;

/// Bytes in memory that count what is read, and of which one read may fail or find the power cut.
#[derive(Drop)]
struct Counted<'a> {
    bytes: &'a [u8],
    on: bool,
    /// How many reads there were.
    reads: u32,
    /// How many bytes were asked for.
    asked: u64,
    failed: u64,
    /// The read that does not go through, counted from 1; 0 for none.
    strikes: u32,
    ends: FlashFault,
    ghost fits: { length bytes.now ≤ 4294967295 },
    ghost are_bytes: { AreBytes bytes.now },
}

impl<'a> Counted<'a> {
    /// The first 100000 of these bytes.
    fn new(bytes: &'a [u8], strikes: u32, ends: FlashFault) -> Counted<'a> {
        let size = bytes.len().min(100000);
        Counted {
            bytes: &bytes[..size],
            on: true,
            reads: 0,
            asked: 0,
            failed: 0,
            strikes,
            ends,
        }
    }
}

impl Bytes for Counted<'_> {
    ghost state = { λ c. record {
      bytes = Some c.bytes.now;
      size = length c.bytes.now;
      holder = record {
        bytes = None;
        on = c.on;
        geometry = record { page = 512; unit = 1; slot_pages = 4; images = 1 };
        faults = record { reads = c.failed; writes = 0; erases = 0 };
        troubles = None;
        aim = None;
        patience = None;
        bytes_read = Some c.asked;
        changes = None;
      };
      start = 0;
      beside = [];
    } };

    fn length(&self) -> u32 {
        self.bytes.len() as u32
    }

    fn read(&mut self, at: u32, into: &mut [u8]) -> Result<(), FlashFault> {
        if !self.on {
            return Err(FlashFault::Off);
        }
        self.reads = self.reads.saturating_add(1);
        self.asked = self.asked.saturating_add(into.len() as u64);
        if self.reads == self.strikes {
            if self.ends == FlashFault::Off {
                self.on = false;
            } else {
                self.failed = self.failed.saturating_add(1);
            }
            return Err(self.ends);
        }
        let start = at as usize;
        into.copy_from_slice(&self.bytes[start..start + into.len()]);
        Ok(())
    }

    ghost sized = { λ c. refl };

    ghost bytes = { λ c. c.are_bytes };
}

/// What is known of the image, if it is a good one.
fn read_good_image<B: Bytes>(b: &mut B) -> Result<ImageInfo, ImageFault> {
    let info = match read_image(b) {
        Ok(info) => info,
        Err(fault) => return Err(fault),
    };
    match check_hash(b, &info) {
        Ok(()) => Ok(info),
        Err(fault) => Err(fault),
    }
}

/// What a table says of an image: the bytes that are covered and where it ends, or its fault.
type Found = Result<(u32, u32), ImageFault>;

fn found(answer: Result<ImageInfo, ImageFault>) -> Found {
    match answer {
        Ok(info) => Ok((info.covered, info.end)),
        Err(fault) => Err(fault),
    }
}

const VERSION: Version = Version {
    major: 1,
    minor: 0,
    revision: 0,
    build: 0,
};

/// The SHA-256 of the first 40 bytes of the default image.
const HASH: [u8; 32] = [
    0xe3, 0x10, 0x3e, 0x98, 0x58, 0x84, 0xe9, 0x87, 0xaa, 0xeb, 0x30, 0x91, 0xf1, 0x07, 0xd4, 0xad,
    0x2a, 0xe5, 0xff, 0x47, 0x20, 0xf4, 0xc4, 0x34, 0x59, 0xc3, 0xd0, 0xff, 0x3a, 0x12, 0x65, 0x0d,
];

/// The image of the bytes 00 to 07, of version 1.0.0.
fn default_image(alloc: Global) -> Result<Vec<u8>, AllocError> {
    let image = make_image(alloc, &[0, 1, 2, 3, 4, 5, 6, 7], VERSION)?;
    Vec::from_slice(alloc, image.as_slice())
}

#[derive(Clone, Copy, Debug)]
enum Change {
    Nothing,
    /// Only so many bytes are left.
    Cut(usize),
    /// The byte there becomes another.
    Byte(usize, u8),
}

fn apply(bytes: &mut Vec<u8>, change: Change) {
    match change {
        Change::Nothing => (),
        Change::Cut(size) => bytes.truncate(size),
        Change::Byte(at, byte) => {
            if at < bytes.len() {
                bytes[at] = byte;
            }
        }
    }
}

/// With how many bytes are read in all, so that nothing is read after what shows the fault.
#[test]
fn a_single_change_has_its_fault(rt: HostRuntime) -> Result<(), Fail> {
    let rows: [(Change, u64, Found); 10] = [
        (Change::Nothing, 112, Ok((40, 80))),
        (Change::Cut(31), 0, Err(ImageFault::Short)),
        (Change::Byte(0, 0x3c), 32, Err(ImageFault::Magic)),
        (Change::Byte(8, 31), 32, Err(ImageFault::HeaderSize)),
        (Change::Byte(16, 4), 32, Err(ImageFault::Encrypted)),
        (Change::Byte(12, 45), 32, Err(ImageFault::Bounds)),
        (Change::Byte(10, 4), 36, Err(ImageFault::Protected)),
        (Change::Cut(79), 36, Err(ImageFault::Tlvs)),
        (Change::Byte(44, 0x11), 40, Err(ImageFault::NoHash)),
        (Change::Byte(32, 0xff), 112, Err(ImageFault::WrongHash)),
    ];
    for (row, asked, wanted) in rows {
        let mut bytes = default_image(rt.alloc())?;
        apply(&mut bytes, row);
        let mut b = Counted::new(bytes.as_slice(), 0, FlashFault::Off);
        assert_eq!(rt; found(read_good_image(&mut b)), wanted, "{row:?}");
        assert_eq!(rt; b.asked, asked, "{row:?}");
    }
    Ok(())
}

#[test]
fn the_default_image_is_good(rt: HostRuntime) -> Result<(), Fail> {
    let bytes = default_image(rt.alloc())?;
    assert_eq!(rt; bytes.len(), 80);
    let mut b = Lent::new(&bytes.as_slice()[..bytes.len().min(80)]);
    let info = read_good_image(&mut b);
    let wanted = ImageInfo {
        version: VERSION,
        flags: 0,
        covered: 40,
        end: 80,
        hash: HASH,
    };
    assert_eq!(rt; info, Ok(wanted));
    Ok(())
}

/// A header size, the protected TLVs if there is an area of them, the TLVs, bytes that become others, how many bytes follow
/// or are cut off, and what is found. A TLV is its type and its length.
type Row = (
    u16,
    Option<&'static [u8]>,
    &'static [u8],
    &'static [(usize, u8)],
    i32,
    Found,
);

/// The type and the length of a hash.
const H: &[u8] = b"\x10\x20";

static ROWS: [Row; 72] = [
    // The hash alone.
    (32, None, H, &[], 0, Ok((40, 80))),
    // A byte after the end.
    (32, None, H, &[], 1, Ok((40, 80))),
    // Many bytes after the end.
    (32, None, H, &[], 300, Ok((40, 80))),
    // A header of 31 bytes.
    (32, None, H, &[(8, 31)], 0, Err(ImageFault::HeaderSize)),
    // A header of 0 bytes.
    (32, None, H, &[(8, 0)], 0, Err(ImageFault::HeaderSize)),
    // A header of 33 bytes.
    (33, None, H, &[], 0, Ok((41, 81))),
    // A header of 512 bytes.
    (512, None, H, &[], 0, Ok((520, 560))),
    // Flag 0x01.
    (32, None, H, &[(16, 1)], 0, Ok((40, 80))),
    // Flag 0x04.
    (32, None, H, &[(16, 4)], 0, Err(ImageFault::Encrypted)),
    // Flag 0x08.
    (32, None, H, &[(16, 8)], 0, Err(ImageFault::Encrypted)),
    // Both flags of encryption.
    (32, None, H, &[(16, 12)], 0, Err(ImageFault::Encrypted)),
    // Flag 0x10.
    (32, None, H, &[(16, 16)], 0, Ok((40, 80))),
    // All other flags.
    (
        32,
        None,
        H,
        &[(16, 243), (17, 255), (18, 255), (19, 255)],
        0,
        Ok((40, 80)),
    ),
    // No protected TLV.
    (32, Some(b""), H, &[], 0, Ok((44, 84))),
    // A protected TLV of no bytes.
    (32, Some(b"\x50\x00"), H, &[], 0, Ok((48, 88))),
    // A protected TLV of 1 byte.
    (32, Some(b"\x50\x01"), H, &[], 0, Ok((49, 89))),
    // A protected TLV of 3 bytes.
    (32, Some(b"\x50\x03"), H, &[], 0, Ok((51, 91))),
    // A protected TLV of 4 bytes.
    (32, Some(b"\x50\x04"), H, &[], 0, Ok((52, 92))),
    // A protected TLV of 8 bytes.
    (32, Some(b"\x50\x08"), H, &[], 0, Ok((56, 96))),
    // A protected TLV of 255 bytes.
    (32, Some(b"\x50\xff"), H, &[], 0, Ok((303, 343))),
    // Three protected TLVs.
    (
        32,
        Some(b"\x50\x04\x40\x0c\x40\x0c"),
        H,
        &[],
        0,
        Ok((84, 124)),
    ),
    // A hash among the protected TLVs too.
    (32, Some(H), H, &[], 0, Ok((80, 120))),
    // A hash among the protected TLVs alone.
    (32, Some(H), b"\x01\x20", &[], 0, Err(ImageFault::NoHash)),
    // Two hashes among the protected TLVs.
    (32, Some(b"\x10\x20\x10\x20"), H, &[], 0, Ok((116, 156))),
    // No TLVs.
    (32, None, b"", &[], 0, Err(ImageFault::NoHash)),
    // No hash.
    (32, None, b"\x22\x46", &[], 0, Err(ImageFault::NoHash)),
    // Two hashes.
    (
        32,
        None,
        b"\x10\x20\x10\x20",
        &[],
        0,
        Err(ImageFault::NoHash),
    ),
    // A hash of 31 bytes.
    (32, None, b"\x10\x1f", &[], 0, Err(ImageFault::NoHash)),
    // A hash of 33 bytes.
    (32, None, b"\x10\x21", &[], 0, Err(ImageFault::NoHash)),
    // A hash of no bytes.
    (32, None, b"\x10\x00", &[], 0, Err(ImageFault::NoHash)),
    // A hash of 32 bytes and one of none.
    (
        32,
        None,
        b"\x10\x20\x10\x00",
        &[],
        0,
        Err(ImageFault::NoHash),
    ),
    // A hash of none and one of 32 bytes.
    (
        32,
        None,
        b"\x10\x00\x10\x20",
        &[],
        0,
        Err(ImageFault::NoHash),
    ),
    // Unknown types before the hash.
    (32, None, b"\x77\x05\xfe\x00\x10\x20", &[], 0, Ok((40, 93))),
    // Unknown types after the hash.
    (32, None, b"\x10\x20\x77\x05\xfe\x00", &[], 0, Ok((40, 93))),
    // Hash, key hash and signature.
    (32, None, b"\x10\x20\x01\x20\x22\x47", &[], 0, Ok((40, 191))),
    // Key hash and signature before the hash.
    (32, None, b"\x01\x20\x22\x47\x10\x20", &[], 0, Ok((40, 191))),
    // As signed: padded header, a dependency, hash, key hash, signature.
    (
        512,
        Some(b"\x40\x0c"),
        b"\x10\x20\x01\x20\x22\x48",
        &[],
        0,
        Ok((540, 692)),
    ),
    // As signed: security counter, two dependencies.
    (
        512,
        Some(b"\x50\x04\x40\x0c\x40\x0c"),
        b"\x10\x20\x01\x20\x20\xff",
        &[],
        0,
        Ok((564, 899)),
    ),
    // Type 0x1010 is no hash.
    (32, None, H, &[(45, 16)], 0, Err(ImageFault::NoHash)),
    // A total of 3.
    (32, None, H, &[(42, 3)], 0, Err(ImageFault::Tlvs)),
    // A total of 4.
    (32, None, H, &[(42, 4)], 0, Err(ImageFault::NoHash)),
    // A total of 0.
    (32, None, H, &[(42, 0)], 0, Err(ImageFault::Tlvs)),
    // A total that is one less.
    (32, None, H, &[(42, 39)], 0, Err(ImageFault::Tlvs)),
    // A total that is one more.
    (32, None, H, &[(42, 41)], 0, Err(ImageFault::Tlvs)),
    // A total that is one more, and a byte after it.
    (32, None, H, &[(42, 41)], 1, Err(ImageFault::Tlvs)),
    // A total that is four more, and four bytes of 0 after it: an empty TLV.
    (32, None, H, &[(42, 44)], 4, Ok((40, 84))),
    // A total of 65535.
    (
        32,
        None,
        H,
        &[(42, 255), (43, 255)],
        0,
        Err(ImageFault::Tlvs),
    ),
    // A TLV that ends past the area.
    (32, None, H, &[(46, 33)], 0, Err(ImageFault::Tlvs)),
    // A TLV that ends past the area, inside the bytes.
    (32, None, H, &[(46, 33)], 1, Err(ImageFault::Tlvs)),
    // A TLV that ends before the area's end.
    (32, None, H, &[(46, 31)], 0, Err(ImageFault::Tlvs)),
    // The protected magic before the TLVs.
    (32, None, H, &[(40, 8)], 0, Err(ImageFault::Tlvs)),
    // A protected size of 1.
    (32, None, H, &[(10, 1)], 0, Err(ImageFault::Protected)),
    // A protected size of 2.
    (32, None, H, &[(10, 2)], 0, Err(ImageFault::Protected)),
    // A protected size of 3.
    (32, None, H, &[(10, 3)], 0, Err(ImageFault::Protected)),
    // A protected size one less than the area's.
    (
        32,
        Some(b"\x50\x04"),
        H,
        &[(10, 11)],
        0,
        Err(ImageFault::Protected),
    ),
    // A protected size one more than the area's.
    (
        32,
        Some(b"\x50\x04"),
        H,
        &[(10, 13)],
        0,
        Err(ImageFault::Protected),
    ),
    // A protected area whose total is another.
    (
        32,
        Some(b"\x50\x04"),
        H,
        &[(42, 11)],
        0,
        Err(ImageFault::Protected),
    ),
    // A protected TLV that ends past its area.
    (
        32,
        Some(b"\x50\x04"),
        H,
        &[(46, 5)],
        0,
        Err(ImageFault::Protected),
    ),
    // A protected TLV that ends before its area's end.
    (
        32,
        Some(b"\x50\x04"),
        H,
        &[(46, 3)],
        0,
        Err(ImageFault::Protected),
    ),
    // The plain magic before the protected TLVs.
    (
        32,
        Some(b"\x50\x04"),
        H,
        &[(40, 7)],
        0,
        Err(ImageFault::Protected),
    ),
    // Protected TLVs that no size states.
    (
        32,
        Some(b"\x50\x04"),
        H,
        &[(10, 0)],
        0,
        Err(ImageFault::Tlvs),
    ),
    // An image size of 4294967295.
    (
        32,
        None,
        H,
        &[(12, 255), (13, 255), (14, 255), (15, 255)],
        0,
        Err(ImageFault::Bounds),
    ),
    // Sizes whose sum passes 32 bits and comes to 40.
    (
        512,
        None,
        H,
        &[(12, 40), (13, 254), (14, 255), (15, 255)],
        0,
        Err(ImageFault::Bounds),
    ),
    // An image size one more.
    (32, None, H, &[(12, 9)], 0, Err(ImageFault::Tlvs)),
    // An image size one less.
    (32, None, H, &[(12, 7)], 0, Err(ImageFault::Tlvs)),
    // No payload: the TLVs are not behind the header.
    (32, None, H, &[(12, 0)], 0, Err(ImageFault::Tlvs)),
    // Cut behind the header.
    (32, None, H, &[], -48, Err(ImageFault::Bounds)),
    // Cut within the head of the TLVs.
    (32, None, H, &[], -37, Err(ImageFault::Bounds)),
    // Cut behind the head of the TLVs.
    (32, None, H, &[], -36, Err(ImageFault::Tlvs)),
    // Cut by the last byte.
    (32, None, H, &[], -1, Err(ImageFault::Tlvs)),
    // Cut to 31 bytes.
    (32, None, H, &[], -49, Err(ImageFault::Short)),
    // Another magic.
    (32, None, H, &[(3, 151)], 0, Err(ImageFault::Magic)),
];

/// Appends a TLV of this type and length.
fn put_tlv(bytes: &mut Vec<u8>, kind: u8, length: u8) -> Result<(), AllocError> {
    bytes.extend_from_slice(&[kind, 0, length, 0])?;
    for _ in 0..length {
        bytes.push(0xab)?;
    }
    Ok(())
}

/// Appends an area of these TLVs.
fn put_area(bytes: &mut Vec<u8>, magic: u16, tlvs: &[u8]) -> Result<(), AllocError> {
    bytes.extend_from_slice(&magic.to_le_bytes())?;
    let start = bytes.len();
    bytes.extend_from_slice(&[0, 0])?;
    for tlv in tlvs.chunks_exact(2) {
        put_tlv(bytes, tlv[0], tlv[1])?;
    }
    let total = bytes.len().saturating_sub(start).saturating_add(2);
    apply(bytes, Change::Byte(start, (total % 256) as u8));
    apply(
        bytes,
        Change::Byte(start.saturating_add(1), (total / 256 % 256) as u8),
    );
    Ok(())
}

/// Appends so many bytes.
fn put_bytes(bytes: &mut Vec<u8>, count: u32, byte: u8) -> Result<(), AllocError> {
    for _ in 0..count {
        bytes.push(byte)?;
    }
    Ok(())
}

/// The image of a row, with a payload of eight bytes.
fn built(alloc: Global, row: &Row) -> Result<Vec<u8>, AllocError> {
    let (header_size, protected, tlvs, changes, after, _) = *row;
    let mut bytes = Vec::new(alloc);
    bytes.extend_from_slice(&[0x3d, 0xb8, 0xf3, 0x96, 0, 0, 0, 0])?;
    bytes.extend_from_slice(&header_size.to_le_bytes())?;
    bytes.extend_from_slice(&[0, 0, 8, 0, 0, 0, 0, 0, 0, 0])?;
    bytes.extend_from_slice(&[1, 2, 3, 0, 4, 0, 0, 0, 0, 0, 0, 0])?;
    put_bytes(&mut bytes, u32::from(header_size).saturating_sub(32), 0xee)?;
    bytes.extend_from_slice(&[0, 1, 2, 3, 4, 5, 6, 7])?;
    let before = bytes.len();
    if let Some(tlvs) = protected {
        put_area(&mut bytes, 0x6908, tlvs)?;
    }
    let size = bytes.len().saturating_sub(before);
    apply(&mut bytes, Change::Byte(10, (size % 256) as u8));
    apply(&mut bytes, Change::Byte(11, (size / 256 % 256) as u8));
    put_area(&mut bytes, 0x6907, tlvs)?;
    for (at, byte) in changes {
        apply(&mut bytes, Change::Byte(*at, *byte));
    }
    if after < 0 {
        let size = bytes.len();
        bytes.truncate(size.saturating_sub(after.unsigned_abs() as usize));
    } else {
        put_bytes(&mut bytes, after.unsigned_abs(), 0)?;
    }
    Ok(bytes)
}

#[test]
fn images_are_found_by_their_parts(rt: HostRuntime) -> Result<(), Fail> {
    for (number, row) in ROWS.iter().enumerate() {
        let bytes = built(rt.alloc(), row)?;
        let mut b = Lent::new(&bytes.as_slice()[..bytes.len().min(100000)]);
        assert_eq!(rt; found(read_image(&mut b)), row.5, "row {number}: {row:?}");
    }
    Ok(())
}

/// Whichever read does not go through, nothing is read after it, and the answer is that.
fn strike_each_read(rt: &impl Abort, bytes: &[u8], reads: u32) {
    for ends in [FlashFault::Fault, FlashFault::Off] {
        for strikes in 1..=reads {
            let mut b = Counted::new(bytes, strikes, ends);
            let wanted = match ends {
                FlashFault::Fault => ImageFault::Fault,
                FlashFault::Off => ImageFault::Off,
            };
            assert_eq!(rt; read_good_image(&mut b), Err(wanted), "{strikes}");
            assert_eq!(rt; b.reads, strikes);
            assert_eq!(rt;
                (b.failed, b.on),
                if ends == FlashFault::Fault {
                    (1, true)
                } else {
                    (0, false)
                }
            );
        }
    }
    let mut b = Counted::new(bytes, reads.saturating_add(1), FlashFault::Off);
    assert!(rt; read_good_image(&mut b).is_ok());
    assert_eq!(rt; b.reads, reads);
}

#[test]
fn failing_reads_are_passed_on(rt: HostRuntime) -> Result<(), Fail> {
    // Header, head of the TLVs, head and value of the hash, and the covered bytes in blocks of 256.
    strike_each_read(&rt, default_image(rt.alloc())?.as_slice(), 5);
    let payload = vec![in rt.alloc(); 0x5a; 600]?;
    let image = make_image(rt.alloc(), payload.as_slice(), VERSION)?;
    strike_each_read(&rt, image.as_slice(), 7);
    Ok(())
}

#[test]
fn an_off_holder_answers_off(rt: HostRuntime) -> Result<(), Fail> {
    let bytes = default_image(rt.alloc())?;
    let mut b = Counted::new(bytes.as_slice(), 0, FlashFault::Off);
    b.on = false;
    assert_eq!(rt; read_image(&mut b), Err(ImageFault::Off));
    assert_eq!(rt; (b.reads, b.asked), (0, 0));
    Ok(())
}

/// The file of these bytes: first so many of them, then pieces of that size.
fn carry(bytes: &[u8], first: usize, size: usize) -> Carried
    ensures { Carries result bytes.now }
{
    let mut carried = Carried::new();
    let mut at = first.min(bytes.len());
    carried.add(&bytes[..at]);
    while at < bytes.len() {
        let end = at + size.max(1).min(bytes.len() - at);
        carried.add(&bytes[at..end]);
        at = end;
    }
    carried
}

/// What is known of the first 300000 of these bytes, however they came.
fn finished(bytes: &[u8], first: usize, size: usize) -> Result<Finished, FlashFault> {
    let bytes = &bytes[..bytes.len().min(300000)];
    let carried = carry(bytes, first, size);
    let mut b = Lent::new(bytes);
    carried.finish(&mut b)
}

/// The SHA-256 of the default image.
const FILE: [u8; 32] = [
    0x02, 0x3d, 0xbd, 0x00, 0x74, 0x7b, 0xe6, 0x90, 0x46, 0x5d, 0x69, 0x7b, 0xba, 0xa8, 0x58, 0x4b,
    0x5c, 0x16, 0x0e, 0x74, 0xb3, 0xea, 0x53, 0xeb, 0x19, 0x5e, 0x3b, 0xed, 0x40, 0x3c, 0x19, 0x9c,
];

#[test]
fn the_default_image_is_carried_however_it_is_cut(rt: HostRuntime) -> Result<(), Fail> {
    let bytes = default_image(rt.alloc())?;
    let image = ImageInfo {
        version: VERSION,
        flags: 0,
        covered: 40,
        end: 80,
        hash: HASH,
    };
    let wanted = Finished {
        digest: FILE,
        image: Some(image),
    };
    for first in 0..81 {
        assert_eq!(rt;
            finished(bytes.as_slice(), first, 80),
            Ok(wanted),
            "cut at {first}"
        );
        assert_eq!(rt;
            finished(bytes.as_slice(), 0, first),
            Ok(wanted),
            "pieces of {first}"
        );
    }
    Ok(())
}

/// An image of a header of 40 bytes, a payload of 100, a protected TLV, three TLVs, and nine bytes behind its end.
fn image_of_all_parts(alloc: Global) -> Result<Vec<u8>, AllocError> {
    let mut bytes = Vec::new(alloc);
    bytes.extend_from_slice(&[
        0x3d, 0xb8, 0xf3, 0x96, 0, 0, 0, 0, 40, 0, 12, 0, 100, 0, 0, 0,
    ])?;
    bytes.extend_from_slice(&[0, 0, 0, 0, 1, 0, 0, 0, 0, 0, 0, 0, 0, 0, 0, 0])?;
    put_bytes(&mut bytes, 8, 0xee)?;
    put_bytes(&mut bytes, 100, 0x5a)?;
    bytes.extend_from_slice(&[8, 0x69, 12, 0, 0x50, 0, 4, 0, 1, 2, 3, 4])?;
    bytes.extend_from_slice(&[7, 0x69, 56, 0])?;
    put_tlv(&mut bytes, 1, 3)?;
    bytes.extend_from_slice(&[0x10, 0, 32, 0])?;
    bytes.extend_from_slice(&ALL_PARTS_HASH)?;
    put_tlv(&mut bytes, 0x22, 5)?;
    put_bytes(&mut bytes, 9, 0xff)?;
    Ok(bytes)
}

/// The SHA-256 of its first 152 bytes.
const ALL_PARTS_HASH: [u8; 32] = [
    0xb4, 0xbb, 0xc4, 0x25, 0xb7, 0x39, 0x77, 0xd0, 0x42, 0x8d, 0x92, 0x02, 0x6b, 0x1b, 0x0d, 0xd5,
    0x3c, 0x81, 0xdf, 0x1a, 0xa6, 0xee, 0x80, 0x20, 0x36, 0xa2, 0xd1, 0x91, 0xe3, 0x7c, 0x21, 0x13,
];

/// The SHA-256 of all its 217 bytes.
const ALL_PARTS_FILE: [u8; 32] = [
    0x90, 0xa9, 0xb5, 0xf9, 0xf4, 0xc8, 0x8e, 0x89, 0x88, 0x01, 0x93, 0x1e, 0x8f, 0x66, 0xe3, 0x4f,
    0xb4, 0x2c, 0x12, 0x0a, 0x8c, 0xb0, 0x02, 0xa6, 0xab, 0x05, 0xa0, 0x51, 0x52, 0x8d, 0x01, 0xb2,
];

#[test]
fn an_image_of_all_parts_is_carried_in_odd_pieces(rt: HostRuntime) -> Result<(), Fail> {
    let bytes = image_of_all_parts(rt.alloc())?;
    assert_eq!(rt; bytes.len(), 217);
    let image = ImageInfo {
        version: VERSION,
        flags: 0,
        covered: 152,
        end: 208,
        hash: ALL_PARTS_HASH,
    };
    let wanted = Finished {
        digest: ALL_PARTS_FILE,
        image: Some(image),
    };
    for size in [1, 3, 7, 31, 33, 63, 65, 151, 153, 216, 1000] {
        for first in [0, 1, 29, 32, 47] {
            assert_eq!(rt;
                finished(bytes.as_slice(), first, size),
                Ok(wanted),
                "{first}, {size}"
            );
        }
    }
    Ok(())
}

/// A file that is no good image is carried as any other, and has no image.
#[test]
fn no_image_is_carried_of_changed_bytes(rt: HostRuntime) -> Result<(), Fail> {
    let changes = [
        Change::Cut(0),
        Change::Cut(31),
        Change::Cut(32),
        Change::Cut(40),
        Change::Cut(79),
        Change::Byte(0, 0x3c),
        Change::Byte(8, 31),
        Change::Byte(16, 4),
        Change::Byte(12, 45),
        Change::Byte(12, 7),
        Change::Byte(10, 4),
        Change::Byte(44, 0x11),
        Change::Byte(32, 0xff),
        Change::Byte(79, 0x0c),
    ];
    for change in changes {
        let mut bytes = default_image(rt.alloc())?;
        apply(&mut bytes, change);
        let digest = Sha256::digest(bytes.as_slice());
        let wanted = Finished {
            digest,
            image: None,
        };
        for size in [1, 32, 39, 41, 80] {
            assert_eq!(rt;
                finished(bytes.as_slice(), 0, size),
                Ok(wanted),
                "{change:?}, {size}"
            );
        }
    }
    Ok(())
}

/// Of a carried file the heads and the hash alone are read. A read that does not go through is passed on.
#[test]
fn a_carried_file_is_not_read_again(rt: HostRuntime) -> Result<(), Fail> {
    let payload = vec![in rt.alloc(); 0x5a; 600]?;
    let image = make_image(rt.alloc(), payload.as_slice(), VERSION)?;
    let bytes = image.as_slice();
    let bytes = &bytes[..bytes.len().min(100000)];
    for (strikes, reads, asked, wanted) in [
        (0, 4, 72, Ok(true)),
        (4, 4, 72, Err(FlashFault::Fault)),
    ] {
        let mut b = Counted::new(bytes, strikes, FlashFault::Fault);
        let carried = carry(b.bytes, 0, 77);
        let found = carried.finish(&mut b);
        match found {
            Ok(finished) => assert_eq!(rt; Ok(finished.image.is_some()), wanted),
            Err(fault) => assert_eq!(rt; Err(fault), wanted),
        }
        assert_eq!(rt; (b.reads, b.asked), (reads, asked));
    }
    Ok(())
}

/// So many bytes.
fn long_payload(alloc: Global) -> Result<Vec<u8>, AllocError> {
    let mut payload = Vec::new(alloc);
    for i in 0..240_000u32 {
        payload.push((i % 251) as u8)?;
    }
    Ok(payload)
}

#[test]
fn a_long_file_is_carried_in_pieces_of_480(rt: HostRuntime) -> Result<(), Fail> {
    let payload = long_payload(rt.alloc())?;
    let version = Version {
        major: 1,
        minor: 0,
        revision: 0,
        build: 0,
    };
    let bytes = payload.as_slice();
    let image = make_image(rt.alloc(), &bytes[..bytes.len().min(240_000)], version)?;
    assert_eq!(rt; image.as_slice().len(), 240_072);
    match finished(image.as_slice(), 0, 480) {
        Ok(finished) => {
            assert!(rt; finished.digest == Sha256::digest(image.as_slice()));
            assert!(rt; finished.image.is_some());
        }
        Err(fault) => assert!(rt; false, "{fault:?}"),
    }
    Ok(())
}
