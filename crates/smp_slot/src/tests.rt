// What no clause says: worked bytes, exact counts of operations, and what each cut and each failure leaves, with real flashes in
// memory.
ghost use Rattle.std.specs.Prelude.{◌≡◌, ◌+◌, ◌<◌, ◌≤◌, ◌%◌, IsTrue, IfOk};
ghost use Rattle.smp_flash.specs.Geometry.{is_lawful};
ghost use Rattle.smp_flash.specs.Layout.{geometry_of};
ghost use Rattle.smp_flash.specs.Memory.{mem_state};

use crate::erasing::wipe;
use crate::laws::slots_fit;
use crate::marks::{confirm, confirmed, mark, marked};
use crate::scratch::{from_scratch, to_scratch};
use crate::slot::{put, tail_is_clean};
use smp_flash::{
    Area, Arm, ArmKind, CallFault, Flash, Geometry, Layout, Left, MemFlash, Region, sizes_of,
};
use smp_model::Mark;
use std::alloc::{AllocError, Global};
use std::process::Abort;
use std::test::Fail;

/// The end of a slot with a permanent mark, as the format has it.
const PERMANENT: [u8; 24] = [
    0x01, 0xff, 0xff, 0xff, 0xff, 0xff, 0xff, 0xff, 0x77, 0xc2, 0x95, 0xf3, 0x60, 0xd2, 0xef, 0x7f,
    0x35, 0x52, 0x50, 0x0f, 0x2c, 0xb6, 0x79, 0x80,
];

/// The end of a slot with a mark for a test.
const TESTED: [u8; 24] = [
    0xff, 0xff, 0xff, 0xff, 0xff, 0xff, 0xff, 0xff, 0x77, 0xc2, 0x95, 0xf3, 0x60, 0xd2, 0xef, 0x7f,
    0x35, 0x52, 0x50, 0x0f, 0x2c, 0xb6, 0x79, 0x80,
];

/// The end of a slot that is confirmed.
const CONFIRMED: [u8; 24] = [
    0x01, 0xff, 0xff, 0xff, 0xff, 0xff, 0xff, 0xff, 0xff, 0xff, 0xff, 0xff, 0xff, 0xff, 0xff, 0xff,
    0xff, 0xff, 0xff, 0xff, 0xff, 0xff, 0xff, 0xff,
];

fn sizes(page: u32, unit: u32) -> Geometry
    ensures { result ≡ record { page = page; unit = unit; slot_pages = 4; images = 1 } }
{
    Geometry {
        page,
        unit,
        slot_pages: 4,
        images: 1,
    }
}

/// A new flash, and the regions of its image.
fn fresh(alloc: Global, sizes: Geometry) -> Result<(MemFlash, Layout), AllocError>
    requires { IsTrue (is_lawful sizes) }
    ensures { IfOk result (λ made. geometry_of made.1 ≡ (mem_state made.0).geometry) }
{
    let flash = MemFlash::new(alloc, sizes)?;
    Ok((flash, Layout::of(sizes)))
}

/// So many bytes that are told apart by their place, none of them FF.
fn text(alloc: Global, count: usize, first: u8) -> Result<Vec<u8>, AllocError> {
    let mut bytes = Vec::new(alloc);
    for i in 0..count {
        bytes.push((first & 0x3f) + (i % 97) as u8)?;
    }
    Ok(bytes)
}

/// The bytes of the secondary slot.
fn held(alloc: Global, flash: &mut MemFlash, layout: &Layout) -> Result<Vec<u8>, Fail>
    requires sizes { geometry_of layout.now ≡ (mem_state flash.old).geometry }
    ensures sizes { geometry_of layout.now ≡ (mem_state flash.new).geometry }
{
    slots_fit();
    let slot = layout.slot(1);
    let mut bytes = vec![in alloc; 0; slot.length as usize]?;
    flash.read(slot.at, &mut bytes)?;
    Ok(bytes)
}

/// The bytes of the scratch page.
fn scratch(alloc: Global, flash: &mut MemFlash, layout: &Layout) -> Result<Vec<u8>, Fail>
    requires sizes { geometry_of layout.now ≡ (mem_state flash.old).geometry }
    ensures sizes { geometry_of layout.now ≡ (mem_state flash.new).geometry }
{
    let area = layout.scratch();
    let size = sizes_of(flash).size();
    if area.length > size || area.at > size - area.length {
        return Ok(Vec::new(alloc));
    }
    let mut bytes = vec![in alloc; 0; area.length as usize]?;
    flash.read(area.at, &mut bytes)?;
    Ok(bytes)
}

/// Whether the two have these bytes, and the same.
fn agree(one: &[u8], other: &[u8], from: usize, to: usize) -> bool {
    if from > to || to > one.len() || to > other.len() {
        return false;
    }
    one[from..to] == other[from..to]
}

/// Whether the bytes from one place to another are there and FF.
fn is_clean(bytes: &[u8], from: usize, to: usize) -> bool {
    if from > to || to > bytes.len() {
        return false;
    }
    bytes[from..to].iter().all(|byte| *byte == 0xff)
}

/// Puts bytes where that is allowed, and says whether it is.
fn put_at(flash: &mut MemFlash, layout: &Layout, at: usize, bytes: &[u8]) -> Result<bool, CallFault>
    requires sizes { geometry_of layout.now ≡ (mem_state flash.old).geometry }
    ensures sizes { geometry_of layout.now ≡ (mem_state flash.new).geometry }
{
    slots_fit();
    let slot = layout.slot(1);
    let sizes = sizes_of(flash);
    if at > 65536 || bytes.len() > 65536 {
        return Ok(false);
    }
    let place = at as u32;
    if place % sizes.unit != 0 || at + bytes.len() + sizes.page as usize > slot.length as usize {
        return Ok(false);
    }
    if !tail_is_clean(flash, slot, place)? {
        return Ok(false);
    }
    put(flash, slot, place, bytes)?;
    Ok(true)
}

/// Puts bytes into a new flash, and looks at them, at what is around them, and at how many writes that took.
fn put_fresh(
    rt: &impl Abort,
    alloc: Global,
    sizes: Geometry,
    at: usize,
    count: usize,
    writes: u64,
) -> Result<(), Fail>
    requires { IsTrue (is_lawful sizes) }
{
    let (mut flash, layout) = fresh(alloc, sizes)?;
    let bytes = text(alloc, count, 1)?;
    assert!(rt; put_at(&mut flash, &layout, at, &bytes)?, "{at} {count}");
    assert_eq!(rt;
        (flash.changes(), flash.erases()),
        (writes, 0),
        "{at} {count}"
    );
    let after = held(alloc, &mut flash, &layout)?;
    let end = at.saturating_add(count);
    assert!(rt; is_clean(&after, 0, at), "{at} {count}");
    assert!(rt;
        agree(after.get(at..).unwrap_or(&[]), &bytes, 0, count),
        "{at} {count}"
    );
    assert!(rt; is_clean(&after, end, after.len()), "{at} {count}");
    Ok(())
}

/// Bytes within a page, up to its end, and over pages; of odd lengths; with write units of 1 and 8.
#[test]
fn put_writes_each_page_once(rt: HostRuntime) -> Result<(), Fail> {
    let rows = [
        (sizes(512, 8), 0, 0, 0),
        (sizes(512, 8), 0, 100, 1),
        (sizes(512, 8), 104, 13, 1),
        (sizes(512, 8), 504, 8, 1),
        (sizes(512, 8), 504, 9, 2),
        (sizes(512, 8), 512, 512, 1),
        (sizes(512, 8), 8, 1201, 3),
        (sizes(512, 1), 13, 37, 1),
        (sizes(512, 1), 511, 514, 3),
        (sizes(4096, 8), 4088, 9, 2),
        (sizes(4096, 8), 0, 12288, 3),
        (sizes(4096, 1), 4095, 2, 2),
    ];
    for (sizes, at, count, writes) in rows {
        if sizes.is_lawful() {
            put_fresh(&rt, rt.alloc(), sizes, at, count, writes)?;
        }
    }
    Ok(())
}

/// Three pages are filled. Bytes that begin the second and the third one erase both, and no other.
fn put_over(rt: &impl Abort, alloc: Global, sizes: Geometry) -> Result<(), Fail>
    requires lawful { IsTrue (is_lawful sizes) }
    requires most { sizes.page ≤ 4096 }
{
    let page = sizes.page as usize;
    let (mut flash, layout) = fresh(alloc, sizes)?;
    let old = text(alloc, 3 * page, 2)?;
    let new = text(alloc, page + 9, 5)?;
    assert!(rt; put_at(&mut flash, &layout, 0, &old)?);
    let read = flash.read_bytes();
    assert!(rt; !put_at(&mut flash, &layout, 8, &new)?);
    assert!(rt; put_at(&mut flash, &layout, page, &new)?);
    assert_eq!(rt; (flash.changes(), flash.erases()), (3 + 4, 2));
    assert_eq!(rt; read, 3 * u64::from(sizes.page));
    let after = held(alloc, &mut flash, &layout)?;
    assert!(rt; agree(&after, &old, 0, page));
    assert!(rt; agree(after.get(page..).unwrap_or(&[]), &new, 0, page + 9));
    assert!(rt; is_clean(&after, 2 * page + 9, 4 * page));
    Ok(())
}

#[test]
fn put_erases_the_pages_that_it_begins(rt: HostRuntime) -> Result<(), Fail> {
    put_over(&rt, rt.alloc(), sizes(512, 1))?;
    put_over(&rt, rt.alloc(), sizes(512, 8))?;
    put_over(&rt, rt.alloc(), sizes(4096, 1))?;
    put_over(&rt, rt.alloc(), sizes(4096, 8))?;
    Ok(())
}

/// What is left by an operation that is struck: nothing of it, all of it, or what some seeds give.
const REMAINS: [Left; 6] = [
    Left::Nothing,
    Left::Whole,
    Left::Seed(1),
    Left::Seed(2),
    Left::Seed(7),
    Left::Seed(9),
];

/// The write or erase of this number is struck.
fn strike(kind: ArmKind, after: u32, left: Left) -> Arm
    ensures { result.after ≡ after }
{
    Arm {
        kind,
        region: Region::Any,
        after,
        left,
    }
}

/// The power is on again, and no operation of a slot will be struck.
fn recover(flash: &mut MemFlash)
    ensures { (mem_state flash.new).geometry ≡ (mem_state flash.old).geometry }
{
    flash.power_on();
    flash.arm(Arm {
        kind: ArmKind::Cut,
        region: Region::Settings,
        after: 1,
        left: Left::Nothing,
    });
}

/// How many of so many operations are done behind this arm.
fn done_of(arm: Arm, all: u32) -> u32 {
    let before = arm.after.saturating_sub(1);
    let done = if arm.left == Left::Whole {
        before.saturating_add(1)
    } else {
        before
    };
    done.min(all)
}

/// Whether the call ended as the arm and so many operations want it.
fn ends_so<T>(outcome: &Result<T, CallFault>, arm: Arm, all: u32) -> bool {
    if arm.after > all {
        return outcome.is_ok();
    }
    match outcome {
        Ok(_) => false,
        Err(CallFault::Off) => arm.kind == ArmKind::Cut,
        Err(CallFault::Fault(_)) => arm.kind == ArmKind::Fail,
    }
}

/// Marks the slot, where it is not pending.
fn mark_once(flash: &mut MemFlash, layout: &Layout, kind: Mark) -> Result<(), CallFault>
    requires sizes { geometry_of layout.now ≡ (mem_state flash.old).geometry }
    ensures sizes { geometry_of layout.now ≡ (mem_state flash.new).geometry }
{
    slots_fit();
    let slot = layout.slot(1);
    match marked(flash, slot)? {
        None => mark(flash, slot, kind),
        Some(_) => Ok(()),
    }
}

/// The first bytes of a page stand, and the rest of it is FF; the second and the third page are full; the slot is pending.
fn laid(alloc: Global, flash: &mut MemFlash, layout: &Layout, first: usize) -> Result<Vec<u8>, Fail>
    requires sizes { geometry_of layout.now ≡ (mem_state flash.old).geometry }
    ensures sizes { geometry_of layout.now ≡ (mem_state flash.new).geometry }
{
    let page = layout.geometry().page as usize;
    let front = text(alloc, first, 3)?;
    let pages = text(alloc, 2 * page, 4)?;
    put_at(flash, layout, 0, &front)?;
    put_at(flash, layout, page, &pages)?;
    mark_once(flash, layout, Mark::Test)?;
    held(alloc, flash, layout)
}

/// How many bytes stand that are put from a place in the first page on, after so many of the five operations: a write, and for
/// two further pages an erase and a write.
fn stand_after(done: u32, rest: usize, page: usize, all: usize) -> usize {
    match done {
        0 => 0,
        1 | 2 => rest,
        3 | 4 => rest.saturating_add(page),
        _ => all,
    }
}

/// Bytes are put into the rest of one page and over two more, and struck so. Those that stand are a front, whole pages of it;
/// what lies before them and behind the page that was struck is as before; and the rest can be put from there on.
fn struck_put(rt: &impl Abort, alloc: Global, sizes: Geometry, arm: Arm) -> Result<(), Fail>
    requires lawful { IsTrue (is_lawful sizes) }
    requires least { 512 ≤ sizes.page }
    requires most { sizes.page ≤ 4096 }
    requires after { 1 ≤ arm.after }
{
    let page = sizes.page as usize;
    let at = if sizes.unit == 1 { 101 } else { 104 };
    let (mut flash, layout) = fresh(alloc, sizes)?;
    let before = laid(alloc, &mut flash, &layout, at)?;
    let new = text(alloc, 2 * page - 57, 6)?;
    flash.arm(arm);
    let outcome = put_at(&mut flash, &layout, at, &new);
    recover(&mut flash);
    assert!(rt; ends_so(&outcome, arm, 5), "{sizes:?} {arm:?}");
    let done = stand_after(done_of(arm, 5), page - at, page, new.len());
    let after = held(alloc, &mut flash, &layout)?;
    let next = (at.saturating_add(done) / page)
        .saturating_add(1)
        .saturating_mul(page);
    assert!(rt; agree(&after, &before, 0, at), "{sizes:?} {arm:?}");
    assert!(rt;
        agree(after.get(at..).unwrap_or(&[]), &new, 0, done),
        "{sizes:?} {arm:?}"
    );
    assert!(rt; agree(&after, &before, next, 4 * page), "{sizes:?} {arm:?}");
    if done == new.len() {
        return Ok(());
    }
    let rest = new.get(done..).unwrap_or(&[]);
    let goes_on = put_at(&mut flash, &layout, at.saturating_add(done), rest)?;
    assert_eq!(rt;
        goes_on,
        0 < done || arm.left == Left::Nothing,
        "{sizes:?} {arm:?}"
    );
    if goes_on {
        let after = held(alloc, &mut flash, &layout)?;
        assert!(rt;
            agree(after.get(at..).unwrap_or(&[]), &new, 0, new.len()),
            "{sizes:?} {arm:?}"
        );
        assert!(rt;
            is_clean(&after, at.saturating_add(new.len()), 3 * page),
            "{sizes:?} {arm:?}"
        );
        assert!(rt;
            agree(&after, &before, 3 * page, 4 * page),
            "{sizes:?} {arm:?}"
        );
    }
    Ok(())
}

/// Each of its operations, and one past the last, is cut and fails.
fn struck_puts(rt: &impl Abort, alloc: Global, sizes: Geometry) -> Result<(), Fail>
    requires lawful { IsTrue (is_lawful sizes) }
    requires least { 512 ≤ sizes.page }
    requires most { sizes.page ≤ 4096 }
{
    for left in REMAINS {
        for after in 1..7 {
            struck_put(rt, alloc, sizes, strike(ArmKind::Cut, after, left))?;
            struck_put(rt, alloc, sizes, strike(ArmKind::Fail, after, left))?;
        }
    }
    Ok(())
}

#[test]
fn a_struck_put_leaves_a_front(rt: HostRuntime) -> Result<(), Fail> {
    struck_puts(&rt, rt.alloc(), sizes(512, 1))?;
    struck_puts(&rt, rt.alloc(), sizes(512, 8))?;
    struck_puts(&rt, rt.alloc(), sizes(4096, 1))?;
    struck_puts(&rt, rt.alloc(), sizes(4096, 8))?;
    Ok(())
}

/// Erases the slot.
fn wipe_all(flash: &mut MemFlash, layout: &Layout) -> Result<(), CallFault>
    requires sizes { geometry_of layout.now ≡ (mem_state flash.old).geometry }
    ensures sizes { geometry_of layout.now ≡ (mem_state flash.new).geometry }
{
    slots_fit();
    wipe(flash, layout.slot(1))
}

/// Three of four pages are not FF: the first, the third and the last.
fn gapped(alloc: Global, flash: &mut MemFlash, layout: &Layout) -> Result<Vec<u8>, Fail>
    requires sizes { geometry_of layout.now ≡ (mem_state flash.old).geometry }
    ensures sizes { geometry_of layout.now ≡ (mem_state flash.new).geometry }
{
    let page = layout.geometry().page as usize;
    let bytes = text(alloc, page - 3, 7)?;
    put_at(flash, layout, 0, &bytes)?;
    put_at(flash, layout, 2 * page, &bytes)?;
    mark_once(flash, layout, Mark::Permanent)?;
    held(alloc, flash, layout)
}

/// Where the first page lies that so many erases of `gapped` leave as it is.
fn kept_from(done: u32, page: usize) -> usize {
    match done {
        0 => 0,
        1 => page.saturating_mul(2),
        2 => page.saturating_mul(3),
        _ => page.saturating_mul(4),
    }
}

/// The slot is erased, and struck so: the pages before the one that was struck are FF, and those behind it are as before. Once
/// more, and all is FF; a page that is FF is not erased.
fn struck_wipe(rt: &impl Abort, alloc: Global, sizes: Geometry, arm: Arm) -> Result<(), Fail>
    requires lawful { IsTrue (is_lawful sizes) }
    requires least { 512 ≤ sizes.page }
    requires most { sizes.page ≤ 4096 }
    requires after { 1 ≤ arm.after }
{
    let page = sizes.page as usize;
    let (mut flash, layout) = fresh(alloc, sizes)?;
    let before = gapped(alloc, &mut flash, &layout)?;
    let read = flash.read_bytes();
    flash.arm(arm);
    let outcome = wipe_all(&mut flash, &layout);
    recover(&mut flash);
    assert!(rt; ends_so(&outcome, arm, 3), "{sizes:?} {arm:?}");
    assert!(rt;
        flash.read_bytes() <= read.saturating_add(4 * u64::from(sizes.page)),
        "{sizes:?} {arm:?}"
    );
    let begun = u64::from(arm.after.min(3));
    assert_eq!(rt; flash.erases(), begun, "{sizes:?} {arm:?}");
    let done = done_of(arm, 3);
    let clean = kept_from(done, page);
    let next = if arm.after > 3 {
        clean
    } else {
        clean.saturating_add(page)
    };
    let after = held(alloc, &mut flash, &layout)?;
    assert!(rt; is_clean(&after, 0, clean), "{sizes:?} {arm:?}");
    assert!(rt;
        agree(&after, &before, next.min(4 * page), 4 * page),
        "{sizes:?} {arm:?}"
    );
    wipe_all(&mut flash, &layout)?;
    let after = held(alloc, &mut flash, &layout)?;
    assert!(rt; is_clean(&after, 0, 4 * page), "{sizes:?} {arm:?}");
    let again = u64::from(3u32.saturating_sub(done));
    assert_eq!(rt;
        flash.erases(),
        begun.saturating_add(again),
        "{sizes:?} {arm:?}"
    );
    assert_eq!(rt;
        flash.changes(),
        flash.erases().saturating_add(4),
        "{sizes:?} {arm:?}"
    );
    Ok(())
}

fn struck_wipes(rt: &impl Abort, alloc: Global, sizes: Geometry) -> Result<(), Fail>
    requires lawful { IsTrue (is_lawful sizes) }
    requires least { 512 ≤ sizes.page }
    requires most { sizes.page ≤ 4096 }
{
    for left in REMAINS {
        for after in 1..5 {
            struck_wipe(rt, alloc, sizes, strike(ArmKind::Cut, after, left))?;
            struck_wipe(rt, alloc, sizes, strike(ArmKind::Fail, after, left))?;
        }
    }
    Ok(())
}

#[test]
fn a_struck_wipe_goes_page_by_page(rt: HostRuntime) -> Result<(), Fail> {
    struck_wipes(&rt, rt.alloc(), sizes(512, 1))?;
    struck_wipes(&rt, rt.alloc(), sizes(512, 8))?;
    struck_wipes(&rt, rt.alloc(), sizes(4096, 1))?;
    struck_wipes(&rt, rt.alloc(), sizes(4096, 8))?;
    Ok(())
}

/// Whether the place lies inside a page before the last one, and begins a write unit.
fn is_inside(sizes: Geometry, slot: Area, at: u32) -> bool
    requires { IsTrue (is_lawful sizes) }
    ensures inner { IsTrue result → 0 < at % sizes.page }
    ensures place { IsTrue result → at % sizes.unit ≡ 0 }
    ensures inside { IsTrue result → at + sizes.page ≤ slot.length }
{
    if at > slot.length {
        return false;
    }
    at % sizes.page > 0 && at % sizes.unit == 0 && sizes.page <= slot.length - at
}

/// Moves what lies before a place in its page to the scratch page.
fn move_out(flash: &mut MemFlash, layout: &Layout, at: u32) -> Result<bool, CallFault>
    requires sizes { geometry_of layout.now ≡ (mem_state flash.old).geometry }
    ensures sizes { geometry_of layout.now ≡ (mem_state flash.new).geometry }
{
    let slot = layout.slot(1);
    if !is_inside(layout.geometry(), slot, at) {
        return Ok(false);
    }
    to_scratch(flash, layout, slot, at)?;
    Ok(true)
}

/// Moves it back.
fn move_back(flash: &mut MemFlash, layout: &Layout, at: u32) -> Result<bool, CallFault>
    requires sizes { geometry_of layout.now ≡ (mem_state flash.old).geometry }
    ensures sizes { geometry_of layout.now ≡ (mem_state flash.new).geometry }
{
    let slot = layout.slot(1);
    if !is_inside(layout.geometry(), slot, at) {
        return Ok(false);
    }
    from_scratch(flash, layout, slot, at)?;
    Ok(true)
}

/// The scratch page holds other bytes, and the first ones of a page are moved to it, struck so: an erase and a write. The slot is as
/// before. Once more, and they stand there, and FF behind them.
fn struck_out(rt: &impl Abort, alloc: Global, sizes: Geometry, arm: Arm) -> Result<(), Fail>
    requires lawful { IsTrue (is_lawful sizes) }
    requires least { 512 ≤ sizes.page }
    requires most { sizes.page ≤ 4096 }
    requires after { 1 ≤ arm.after }
{
    let page = sizes.page as usize;
    let (mut flash, layout) = fresh(alloc, sizes)?;
    let before = laid(alloc, &mut flash, &layout, 104)?;
    assert!(rt; move_out(&mut flash, &layout, 2 * sizes.page - 8)?);
    let read = flash.read_bytes();
    flash.arm(arm);
    let outcome = move_out(&mut flash, &layout, 104);
    recover(&mut flash);
    assert!(rt; ends_so(&outcome, arm, 2), "{sizes:?} {arm:?}");
    assert!(rt;
        flash.read_bytes() <= read.saturating_add(u64::from(sizes.page) + 104),
        "{sizes:?} {arm:?}"
    );
    assert!(rt;
        agree(&held(alloc, &mut flash, &layout)?, &before, 0, 4 * page),
        "{sizes:?} {arm:?}"
    );
    assert!(rt; move_out(&mut flash, &layout, 104)?);
    let moved = scratch(alloc, &mut flash, &layout)?;
    assert!(rt; agree(&moved, &before, 0, 104), "{sizes:?} {arm:?}");
    assert!(rt; is_clean(&moved, 104, page), "{sizes:?} {arm:?}");
    Ok(())
}

/// The first bytes of a page stand in the scratch page, and are moved back over it, struck so: an erase and a write. The scratch
/// page and all other pages are as before. Once more, and they stand there, and FF behind them.
fn struck_back(rt: &impl Abort, alloc: Global, sizes: Geometry, arm: Arm) -> Result<(), Fail>
    requires lawful { IsTrue (is_lawful sizes) }
    requires least { 512 ≤ sizes.page }
    requires most { sizes.page ≤ 4096 }
    requires after { 1 ≤ arm.after }
{
    let page = sizes.page as usize;
    let at = sizes.page + 104;
    let (mut flash, layout) = fresh(alloc, sizes)?;
    let before = laid(alloc, &mut flash, &layout, 104)?;
    assert!(rt; move_out(&mut flash, &layout, at)?);
    let moved = scratch(alloc, &mut flash, &layout)?;
    let read = flash.read_bytes();
    flash.arm(arm);
    let outcome = move_back(&mut flash, &layout, at);
    recover(&mut flash);
    assert!(rt; ends_so(&outcome, arm, 2), "{sizes:?} {arm:?}");
    assert!(rt;
        flash.read_bytes() <= read.saturating_add(104),
        "{sizes:?} {arm:?}"
    );
    assert!(rt;
        agree(&scratch(alloc, &mut flash, &layout)?, &moved, 0, page),
        "{sizes:?} {arm:?}"
    );
    assert!(rt; move_back(&mut flash, &layout, at)?);
    let after = held(alloc, &mut flash, &layout)?;
    assert!(rt; agree(&after, &before, 0, page + 104), "{sizes:?} {arm:?}");
    assert!(rt; is_clean(&after, page + 104, 2 * page), "{sizes:?} {arm:?}");
    assert!(rt;
        agree(&after, &before, 2 * page, 4 * page),
        "{sizes:?} {arm:?}"
    );
    Ok(())
}

fn struck_copies(rt: &impl Abort, alloc: Global, sizes: Geometry) -> Result<(), Fail>
    requires lawful { IsTrue (is_lawful sizes) }
    requires least { 512 ≤ sizes.page }
    requires most { sizes.page ≤ 4096 }
{
    for left in REMAINS {
        for after in 1..4 {
            struck_out(rt, alloc, sizes, strike(ArmKind::Cut, after, left))?;
            struck_out(rt, alloc, sizes, strike(ArmKind::Fail, after, left))?;
            struck_back(rt, alloc, sizes, strike(ArmKind::Cut, after, left))?;
            struck_back(rt, alloc, sizes, strike(ArmKind::Fail, after, left))?;
        }
    }
    Ok(())
}

#[test]
fn a_struck_copy_can_be_made_again(rt: HostRuntime) -> Result<(), Fail> {
    struck_copies(&rt, rt.alloc(), sizes(512, 1))?;
    struck_copies(&rt, rt.alloc(), sizes(512, 8))?;
    struck_copies(&rt, rt.alloc(), sizes(4096, 1))?;
    struck_copies(&rt, rt.alloc(), sizes(4096, 8))?;
    Ok(())
}

/// Confirms the slot, where it is not confirmed, and says whether it was not.
fn confirm_once(flash: &mut MemFlash, layout: &Layout) -> Result<bool, CallFault>
    requires sizes { geometry_of layout.now ≡ (mem_state flash.old).geometry }
    ensures sizes { geometry_of layout.now ≡ (mem_state flash.new).geometry }
{
    slots_fit();
    let slot = layout.slot(1);
    if confirmed(flash, slot)? {
        return Ok(false);
    }
    confirm(flash, slot)?;
    Ok(true)
}

/// The mark of the slot.
fn mark_of(flash: &mut MemFlash, layout: &Layout) -> Result<Option<Mark>, CallFault>
    requires sizes { geometry_of layout.now ≡ (mem_state flash.old).geometry }
    ensures sizes { geometry_of layout.now ≡ (mem_state flash.new).geometry }
{
    slots_fit();
    marked(flash, layout.slot(1))
}

/// A slot whose last page holds a mark is confirmed, struck so: an erase and a write. It is confirmed once both are done, and else
/// it can be confirmed once more. Then its last page holds the flag alone.
fn struck_confirm(rt: &impl Abort, alloc: Global, sizes: Geometry, arm: Arm) -> Result<(), Fail>
    requires lawful { IsTrue (is_lawful sizes) }
    requires least { 512 ≤ sizes.page }
    requires most { sizes.page ≤ 4096 }
    requires after { 1 ≤ arm.after }
{
    let page = sizes.page as usize;
    let (mut flash, layout) = fresh(alloc, sizes)?;
    let before = laid(alloc, &mut flash, &layout, 104)?;
    flash.arm(arm);
    let outcome = confirm_once(&mut flash, &layout);
    recover(&mut flash);
    assert!(rt; ends_so(&outcome, arm, 2), "{sizes:?} {arm:?}");
    assert_eq!(rt;
        confirm_once(&mut flash, &layout)?,
        done_of(arm, 2) < 2,
        "{sizes:?} {arm:?}"
    );
    let after = held(alloc, &mut flash, &layout)?;
    assert!(rt; agree(&after, &before, 0, 3 * page), "{sizes:?} {arm:?}");
    assert!(rt;
        is_clean(&after, 3 * page, 4 * page - 24),
        "{sizes:?} {arm:?}"
    );
    assert!(rt; after.ends_with(&CONFIRMED), "{sizes:?} {arm:?}");
    Ok(())
}

/// A slot whose last page holds a flag is marked, struck so: an erase, and one write or two. It has the mark once all are done, and
/// else none, and can be marked once more.
fn struck_mark(
    rt: &impl Abort,
    alloc: Global,
    sizes: Geometry,
    arm: Arm,
    kind: Mark,
) -> Result<(), Fail>
    requires lawful { IsTrue (is_lawful sizes) }
    requires least { 512 ≤ sizes.page }
    requires most { sizes.page ≤ 4096 }
    requires after { 1 ≤ arm.after }
{
    let page = sizes.page as usize;
    let all = if kind == Mark::Permanent { 3 } else { 2 };
    let (mut flash, layout) = fresh(alloc, sizes)?;
    let before = laid(alloc, &mut flash, &layout, 104)?;
    assert!(rt; confirm_once(&mut flash, &layout)?);
    flash.arm(arm);
    let outcome = mark_once(&mut flash, &layout, kind);
    recover(&mut flash);
    assert!(rt; ends_so(&outcome, arm, all), "{sizes:?} {arm:?}");
    let stands = mark_of(&mut flash, &layout)?;
    let wanted = if done_of(arm, all) == all {
        Some(kind)
    } else {
        None
    };
    assert_eq!(rt; stands, wanted, "{sizes:?} {arm:?}");
    mark_once(&mut flash, &layout, kind)?;
    let after = held(alloc, &mut flash, &layout)?;
    assert!(rt; agree(&after, &before, 0, 3 * page), "{sizes:?} {arm:?}");
    assert!(rt;
        is_clean(&after, 3 * page, 4 * page - 24),
        "{sizes:?} {arm:?}"
    );
    assert!(rt;
        after.ends_with(if kind == Mark::Permanent {
            &PERMANENT
        } else {
            &TESTED
        }),
        "{sizes:?} {arm:?}"
    );
    Ok(())
}

fn struck_ends(rt: &impl Abort, alloc: Global, sizes: Geometry, kind: ArmKind) -> Result<(), Fail>
    requires lawful { IsTrue (is_lawful sizes) }
    requires least { 512 ≤ sizes.page }
    requires most { sizes.page ≤ 4096 }
{
    for left in REMAINS {
        for after in 1..5 {
            struck_confirm(rt, alloc, sizes, strike(kind, after, left))?;
            struck_mark(rt, alloc, sizes, strike(kind, after, left), Mark::Test)?;
            struck_mark(rt, alloc, sizes, strike(kind, after, left), Mark::Permanent)?;
        }
    }
    Ok(())
}

#[test]
fn a_struck_mark_is_there_or_not(rt: HostRuntime) -> Result<(), Fail> {
    for kind in [ArmKind::Cut, ArmKind::Fail] {
        struck_ends(&rt, rt.alloc(), sizes(512, 1), kind)?;
        struck_ends(&rt, rt.alloc(), sizes(512, 8), kind)?;
        struck_ends(&rt, rt.alloc(), sizes(4096, 1), kind)?;
        struck_ends(&rt, rt.alloc(), sizes(4096, 8), kind)?;
    }
    Ok(())
}

/// A permanent mark on an erased page is two writes, and a page that is FF is not erased for it.
#[test]
fn a_mark_on_a_clean_page_is_its_writes(rt: HostRuntime) -> Result<(), Fail> {
    let (mut flash, layout) = fresh(rt.alloc(), sizes(512, 8))?;
    mark_once(&mut flash, &layout, Mark::Permanent)?;
    assert_eq!(rt; (flash.changes(), flash.erases()), (2, 0));
    assert_eq!(rt; mark_of(&mut flash, &layout)?, Some(Mark::Permanent));
    let (mut flash, layout) = fresh(rt.alloc(), sizes(512, 8))?;
    mark_once(&mut flash, &layout, Mark::Test)?;
    assert_eq!(rt; (flash.changes(), flash.erases()), (1, 0));
    assert_eq!(rt; mark_of(&mut flash, &layout)?, Some(Mark::Test));
    Ok(())
}
