// What no clause says: whole uploads over flashes in memory, to the byte and to the write. The hashes were worked out by a reader of
// its own, from the layout of an image.
ghost use Rattle.std.specs.Prelude.{◌≡◌, is_some, IfOk, IfSome};
ghost use Rattle.smp_flash.specs.Layout.{geometry_of};
ghost use Rattle.smp_flash.specs.Memory.{mem_state};
ghost use Rattle.smp_upload.specs.States.{Says, known_mounted};
ghost use Rattle.smp_side.specs.Held.{HeldSays, held_layout};

use crate::erasing::erase;
use crate::held::{Handed, Held, layout_of, lost, mounted};
use crate::listing::pair;
use crate::marking::{confirm, mark};
use crate::uploading::{part_at, refuses, start};
use smp_flash::{Arm, ArmKind, CallFault, Geometry, Layout, Left, MemFlash, Region};
use smp_gate::banks_fit;
use smp_model::{Announcement, Mark, Reply, SidePair, SlotEntry, Version, make_image};
use smp_progress::Progress;
use smp_slot::{put, slots_fit, tail_is_clean};
use smp_upload::{Mounted, Unmounted, UploadFault};
use std::alloc::{AllocError, Global};
use std::process::Abort;
use std::test::Fail;

/// The hash that the image of 104 bytes 01, version 1.0.0, states of itself.
const ACTIVE_HASH: [u8; 32] = [
    0xbb, 0x9b, 0x61, 0x83, 0x54, 0x24, 0x09, 0x32, 0x8e, 0xf2, 0xe5, 0x9c, 0x1f, 0x01, 0x2d, 0x8e,
    0xee, 0xaf, 0x39, 0x08, 0x93, 0x5c, 0xb4, 0xce, 0xd4, 0x67, 0x91, 0x35, 0x98, 0x27, 0x88, 0xe8,
];

/// The same of 928 bytes 02, version 2.0.0: an image of 1000 bytes.
const NEW_HASH: [u8; 32] = [
    0x1e, 0x31, 0x22, 0xd0, 0x54, 0xfc, 0xa9, 0xc2, 0x45, 0x01, 0xad, 0x51, 0xaa, 0x56, 0x6f, 0x3a,
    0xf2, 0xe5, 0x38, 0x24, 0xab, 0x5b, 0x41, 0x95, 0x40, 0xb0, 0xbd, 0x10, 0xaf, 0x35, 0x49, 0x2c,
];

/// The SHA-256 of that image.
const NEW_DIGEST: [u8; 32] = [
    0x95, 0x94, 0x8b, 0x08, 0x5b, 0x05, 0x6a, 0x4a, 0x4e, 0x71, 0x8e, 0xa0, 0x2d, 0x67, 0x89, 0x16,
    0x1e, 0x6e, 0x73, 0x9d, 0xb3, 0x28, 0x70, 0x8f, 0xc8, 0x6c, 0x0d, 0x05, 0x3a, 0x1b, 0x3d, 0x35,
];

const SIZES: Geometry = Geometry {
    page: 512,
    unit: 8,
    slot_pages: 4,
    images: 2,
};

fn version(major: u8) -> Version {
    Version {
        major,
        minor: 0,
        revision: 0,
        build: 0,
    }
}

/// The regions of an image.
fn regions(image: u32) -> Layout
    ensures { geometry_of result ≡ record { page = 512; unit = 8; slot_pages = 4; images = 2 } }
{
    let first = Layout::of(SIZES);
    if image == 0 {
        return first;
    }
    match Layout::second(SIZES) {
        Some(layout) => layout,
        None => first,
    }
}

/// A flash on which nothing but an empty record stands.
fn fresh(alloc: Global, layout: &Layout) -> Result<MemFlash, Fail>
    requires sizes { geometry_of layout.now ≡ record { page = 512; unit = 8; slot_pages = 4; images = 2 } }
    ensures sizes { IfOk result (λ made. geometry_of layout.now ≡ (mem_state made).geometry) }
{
    banks_fit();
    let mut flash = MemFlash::new(alloc, SIZES)?;
    let _ = Progress::make(&mut flash, layout)?;
    Ok(flash)
}

/// Puts an image into slot 0, where there is room.
fn put_active(flash: &mut MemFlash, layout: &Layout, bytes: &[u8]) -> Result<bool, CallFault>
    requires sizes { geometry_of layout.now ≡ (mem_state flash.old).geometry }
    ensures sizes { geometry_of layout.now ≡ (mem_state flash.new).geometry }
{
    slots_fit();
    let slot = layout.slot(0);
    if bytes.len() + layout.geometry().page as usize > slot.length as usize {
        return Ok(false);
    }
    if !tail_is_clean(flash, slot, 0)? {
        return Ok(false);
    }
    put(flash, slot, 0, bytes)?;
    Ok(true)
}

/// A flash whose slot 0 holds version 1.0.0, and its side.
fn made(alloc: Global, image: u32) -> Result<(MemFlash, Held), Fail>
    ensures sizes { IfOk result (λ made. geometry_of (held_layout made.1) ≡ (mem_state made.0).geometry) }
    ensures says { IfOk result (λ made. IfSome (mem_state made.0).bytes (HeldSays made.1)) }
{
    let layout = regions(image);
    let mut flash = fresh(alloc, &layout)?;
    let bytes = make_image(alloc, &[1; 104], version(1))?;
    let _ = put_active(&mut flash, &layout, bytes.as_slice())?;
    match Unmounted::new(layout).mount(&mut flash) {
        Ok(mounted) => Ok((flash, Held::Mounted(mounted))),
        Err(lost) => Err(Fail::from(lost.fault)),
    }
}

/// The image that is uploaded.
fn uploaded(alloc: Global) -> Result<Vec<u8>, AllocError> {
    let payload = vec![in alloc; 2; 928]?;
    let image = make_image(alloc, payload.as_slice(), version(2))?;
    let mut bytes = Vec::new(alloc);
    bytes.extend_from_slice(image.as_slice())?;
    Ok(bytes)
}

/// The bytes from one place to another, where they are there.
fn piece(bytes: &[u8], from: usize, to: usize) -> &[u8] {
    if from > to || to > bytes.len() {
        return &[];
    }
    &bytes[from..to]
}

fn announced(digest: Option<[u8; 32]>) -> Announcement {
    Announcement {
        length: 1000,
        digest,
    }
}

/// What is asked about a side.
#[derive(Clone, Copy, Drop)]
enum Ask<'a> {
    Start(Option<[u8; 32]>, &'a [u8]),
    Part(u32, Option<&'a [u8]>, &'a [u8]),
    Erase,
    Mark(Mark),
    Confirm(bool),
}

/// A request that may be asked is answered, and another one is refused with the number 0.
fn asked(held: Held, flash: &mut MemFlash, ask: Ask) -> Handed
    requires sizes { geometry_of (held_layout held) ≡ (mem_state flash.old).geometry }
    requires says { IfSome (mem_state flash.old).bytes (HeldSays held) }
    ensures sizes { geometry_of (held_layout result.held) ≡ (mem_state flash.new).geometry }
    ensures says { IfSome (mem_state flash.new).bytes (HeldSays result.held) }
{
    let mounted = match mounted(held, flash) {
        Ok(mounted) => mounted,
        Err(fault) => return lost(fault),
    };
    match ask {
        Ask::Start(digest, bytes) => started(mounted, flash, &announced(digest), bytes),
        Ask::Part(off, tag, bytes) => part_at(mounted, flash, off, tag, bytes),
        Ask::Erase => erase(mounted, flash),
        Ask::Mark(kind) => marked(mounted, flash, kind),
        Ask::Confirm(yes) => confirm(mounted, flash, yes),
    }
}

/// A start, where it may be asked.
fn started(
    mounted: Mounted,
    flash: &mut MemFlash,
    announcement: &Announcement,
    bytes: &[u8],
) -> Handed
    requires sizes { geometry_of (known_mounted mounted).layout ≡ (mem_state flash.old).geometry }
    requires says { IfSome (mem_state flash.old).bytes (Says (known_mounted mounted)) }
    ensures sizes { geometry_of (held_layout result.held) ≡ (mem_state flash.new).geometry }
    ensures says { IfSome (mem_state flash.new).bytes (HeldSays result.held) }
{
    let layout = layout_of(&mounted);
    let needed = u64::from(announcement.length) + u64::from(layout.geometry().page);
    if bytes.len() < 32 || needed > u64::from(layout.slot(1).length) {
        return refuses(mounted, 0);
    }
    start(mounted, flash, announcement, bytes)
}

/// Whether slot 1 holds a good image.
fn is_good(mounted: &Mounted) -> bool
    ensures { result ≡ is_some (known_mounted mounted.now).image }
{
    match mounted {
        Mounted::Idle(_) | Mounted::Receiving(_) => false,
        Mounted::Whole(state) => state.image.is_some(),
        Mounted::Pending(_) => true,
    }
}

/// A mark, where it may be asked.
fn marked(mounted: Mounted, flash: &mut MemFlash, kind: Mark) -> Handed
    requires sizes { geometry_of (known_mounted mounted).layout ≡ (mem_state flash.old).geometry }
    requires says { IfSome (mem_state flash.old).bytes (Says (known_mounted mounted)) }
    ensures sizes { geometry_of (held_layout result.held) ≡ (mem_state flash.new).geometry }
    ensures says { IfSome (mem_state flash.new).bytes (HeldSays result.held) }
{
    if !is_good(&mounted) {
        return refuses(mounted, 0);
    }
    mark(mounted, flash, kind)
}

/// What a list says of a mounted side.
fn listed(held: &Held, flash: &mut MemFlash) -> Option<SidePair>
    requires sizes { geometry_of (held_layout held.now) ≡ (mem_state flash.old).geometry }
    requires says { IfSome (mem_state flash.old).bytes (HeldSays held.now) }
    ensures sizes { geometry_of (held_layout held.now) ≡ (mem_state flash.new).geometry }
    ensures says { IfSome (mem_state flash.new).bytes (HeldSays held.now) }
{
    match held {
        Held::Unmounted(_) => None,
        Held::Mounted(mounted) => match pair(mounted, flash) {
            Ok(pair) => Some(pair),
            Err(_) => None,
        },
    }
}

/// The list: slot 0 with version 1.0.0, and slot 1 with this, where it holds a good image.
fn list_of(confirmed: bool, second: Option<(bool, bool)>) -> Option<SidePair> {
    let second = match second {
        None => None,
        Some((pending, permanent)) => Some(SlotEntry {
            slot: 1,
            version: version(2),
            hash: NEW_HASH,
            bootable: true,
            pending,
            confirmed: false,
            active: false,
            permanent,
        }),
    };
    Some(SidePair {
        first: SlotEntry {
            slot: 0,
            version: version(1),
            hash: ACTIVE_HASH,
            bootable: true,
            pending: false,
            confirmed,
            active: true,
            permanent: false,
        },
        second,
    })
}

type Answer = Result<Reply<'static>, UploadFault>;

/// The wanted offset, and whether the digest is right.
fn wanted(off: u32, matched: Option<bool>) -> Answer {
    Ok(Reply::Offset { off, matched })
}

/// An error of the image group.
fn refused(number: u32) -> Answer {
    Ok(Reply::GroupError { group: 1, number })
}

/// What is asked, and what comes of it: the answer, whether the list then has slot 0 confirmed, whether it has slot 1 pending and
/// permanent, and the writes and erases that were made.
type Row<'a> = (Ask<'a>, Answer, bool, Option<(bool, bool)>, (u64, u64));

/// Asks one thing after another about a side on which nothing was uploaded.
fn follows(rt: &impl Abort, alloc: Global, image: u32, rows: &[Row]) -> Result<(), Fail> {
    let (mut flash, mut held) = made(alloc, image)?;
    assert_eq!(rt; listed(&held, &mut flash), list_of(false, None));
    for (i, row) in rows.iter().enumerate() {
        let (ask, result, confirmed, second, (writes, erases)) = *row;
        let changed = flash
            .changes()
            .saturating_add(writes)
            .saturating_add(erases);
        let erased = flash.erases().saturating_add(erases);
        let handed = asked(held, &mut flash, ask);
        assert_eq!(rt; handed.result, result, "{image} {i}");
        assert_eq!(rt;
            (flash.changes(), flash.erases()),
            (changed, erased),
            "{image} {i}"
        );
        held = handed.held;
        assert_eq!(rt;
            listed(&held, &mut flash),
            list_of(confirmed, second),
            "{image} {i}"
        );
    }
    Ok(())
}

/// Over either image: a part at another offset or with another tag is answered with the wanted one, and the first start of the same
/// upload again. The last part makes the image known, which is then marked once and not again.
#[test]
fn an_upload_goes_through(rt: HostRuntime) -> Result<(), Fail> {
    let bytes = uploaded(rt.alloc())?;
    let bytes = bytes.as_slice();
    let digest = Some(NEW_DIGEST);
    let right = Some(&NEW_DIGEST[..]);
    let wrong = Some(&NEW_HASH[..]);
    let empty = Ok(Reply::Empty);
    let good = Some((false, false));
    let test = Some((true, false));
    let rows = [
        (
            Ask::Start(digest, piece(bytes, 0, 500)),
            wanted(496, None),
            false,
            None,
            (5, 0),
        ),
        (
            Ask::Start(digest, piece(bytes, 0, 500)),
            wanted(496, None),
            false,
            None,
            (0, 0),
        ),
        (
            Ask::Part(500, None, piece(bytes, 500, 700)),
            wanted(496, None),
            false,
            None,
            (0, 0),
        ),
        (
            Ask::Part(496, wrong, piece(bytes, 496, 800)),
            wanted(496, None),
            false,
            None,
            (0, 0),
        ),
        (
            Ask::Part(496, right, piece(bytes, 496, 800)),
            wanted(800, None),
            false,
            None,
            (4, 0),
        ),
        (
            Ask::Part(800, None, piece(bytes, 799, 1000)),
            refused(31),
            false,
            None,
            (0, 0),
        ),
        (Ask::Mark(Mark::Test), refused(0), false, None, (0, 0)),
        (
            Ask::Part(800, None, piece(bytes, 800, 1000)),
            wanted(1000, Some(true)),
            false,
            good,
            (3, 0),
        ),
        (
            Ask::Part(1000, None, &[]),
            wanted(1000, None),
            false,
            good,
            (0, 0),
        ),
        (
            Ask::Part(1000, None, &[1]),
            refused(31),
            false,
            good,
            (0, 0),
        ),
        (Ask::Mark(Mark::Test), empty, false, test, (1, 0)),
        (Ask::Mark(Mark::Test), empty, false, test, (0, 0)),
        (Ask::Mark(Mark::Permanent), refused(28), false, test, (0, 0)),
        (Ask::Erase, refused(9), false, test, (0, 0)),
        (
            Ask::Start(None, piece(bytes, 0, 500)),
            refused(9),
            false,
            test,
            (0, 0),
        ),
        (
            Ask::Start(digest, piece(bytes, 0, 500)),
            wanted(1000, None),
            false,
            test,
            (0, 0),
        ),
    ];
    follows(&rt, rt.alloc(), 0, &rows)?;
    follows(&rt, rt.alloc(), 1, &rows)
}

/// What was asked already costs nothing.
#[test]
fn marks_and_confirmations_are_written_once(rt: HostRuntime) -> Result<(), Fail> {
    let bytes = uploaded(rt.alloc())?;
    let empty = Ok(Reply::Empty);
    let good = Some((false, false));
    let permanent = Some((true, true));
    let rows = [
        (Ask::Confirm(false), refused(33), false, None, (0, 0)),
        (
            Ask::Start(None, bytes.as_slice()),
            wanted(1000, None),
            false,
            good,
            (6, 0),
        ),
        (Ask::Mark(Mark::Permanent), empty, false, permanent, (2, 0)),
        (Ask::Mark(Mark::Permanent), empty, false, permanent, (0, 0)),
        (Ask::Mark(Mark::Test), refused(28), false, permanent, (0, 0)),
        (Ask::Confirm(true), empty, true, permanent, (1, 0)),
        (Ask::Confirm(true), empty, true, permanent, (0, 0)),
        (Ask::Confirm(false), refused(33), true, permanent, (0, 0)),
    ];
    follows(&rt, rt.alloc(), 0, &rows)
}

/// An upload is given up by an erase, by another announcement, and where it is complete without its digest. Each of the two pages of
/// slot 1 that it wrote is erased once, and for each record that replaces a side a page of the record's bank.
#[test]
fn an_upload_is_given_up(rt: HostRuntime) -> Result<(), Fail> {
    let bytes = uploaded(rt.alloc())?;
    let bytes = bytes.as_slice();
    let digest = Some(NEW_DIGEST);
    let other = Some(NEW_HASH);
    let empty = Ok(Reply::Empty);
    let good = Some((false, false));
    let rows = [
        (Ask::Erase, empty, false, None, (0, 0)),
        (
            Ask::Start(digest, piece(bytes, 0, 600)),
            wanted(600, None),
            false,
            None,
            (6, 0),
        ),
        (Ask::Erase, empty, false, None, (2, 3)),
        (
            Ask::Part(600, None, piece(bytes, 600, 1000)),
            wanted(0, None),
            false,
            None,
            (0, 0),
        ),
        (
            Ask::Start(digest, piece(bytes, 0, 600)),
            wanted(600, None),
            false,
            None,
            (6, 1),
        ),
        (
            Ask::Start(other, bytes),
            wanted(1000, Some(false)),
            false,
            None,
            (8, 4),
        ),
        (
            Ask::Part(1000, None, &[]),
            wanted(0, None),
            false,
            None,
            (0, 0),
        ),
        (
            Ask::Start(None, bytes),
            wanted(1000, None),
            false,
            good,
            (6, 3),
        ),
        (Ask::Erase, empty, false, None, (2, 3)),
    ];
    follows(&rt, rt.alloc(), 1, &rows)
}

/// A cut breaks a part off, and the next request mounts the side where it stands.
#[test]
fn a_cut_side_is_mounted_by_the_next_request(rt: HostRuntime) -> Result<(), Fail> {
    let bytes = uploaded(rt.alloc())?;
    let bytes = bytes.as_slice();
    let first = Ask::Start(Some(NEW_DIGEST), piece(bytes, 0, 500));
    let part = Ask::Part(496, None, piece(bytes, 496, 1000));
    let (mut flash, held) = made(rt.alloc(), 0)?;
    let begun = asked(held, &mut flash, first);
    assert_eq!(rt; begun.result, wanted(496, None));
    flash.arm(Arm {
        kind: ArmKind::Cut,
        region: Region::Slot1,
        after: 1,
        left: Left::Nothing,
    });
    let cut = asked(begun.held, &mut flash, part);
    assert_eq!(rt; cut.result, Err(UploadFault::Off));
    assert_eq!(rt; listed(&cut.held, &mut flash), None);
    let off = asked(cut.held, &mut flash, part);
    assert_eq!(rt; off.result, Err(UploadFault::Off));
    flash.power_on();
    let handed = asked(off.held, &mut flash, part);
    assert_eq!(rt; handed.result, wanted(1000, Some(true)));
    assert_eq!(rt;
        listed(&handed.held, &mut flash),
        list_of(false, Some((false, false)))
    );
    Ok(())
}
