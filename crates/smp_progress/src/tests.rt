// What no clause says: worked bytes of records, and cuts with a real flash in memory.
ghost use Rattle.std.specs.Prelude.{◌≡◌, ◌≤◌, IsTrue, OnOk, IfOk, IfSome};
ghost use Rattle.smp_flash.specs.Layout.{geometry_of, progress_of};
ghost use Rattle.smp_flash.specs.Memory.{mem_state};
ghost use Rattle.smp_gate.specs.Newest.{Fits, Fresh};
ghost use Rattle.smp_progress.specs.State.{ProgressSays};

use crate::progress::Progress;
use crate::record::{Record, is_record};
use arrayvec::ArrayVec;
use smp_flash::{Arm, ArmKind, Geometry, Layout, Left, MemFlash, Region};
use smp_gate::{Bank, BankFault, banks_fit};
use smp_model::Announcement;
use std::alloc::{AllocError, Global};
use std::test::Fail;

/// A record of version 1: 480 of 2000 bytes are accepted, and no digest was announced.
const VERSION_ONE: [u8; 48] = [
    0x01, 0x01, 0, 0, 0, 0, 0x07, 0xd0, 0, 0, 0x01, 0xe0, 0, 0, 0, 0, 0, 0, 0, 0, 0, 0, 0, 0, 0, 0,
    0, 0, 0, 0, 0, 0, 0, 0, 0, 0, 0, 0, 0, 0, 0, 0, 0, 0, 0, 0, 0, 0,
];

/// How a record of version 2 begins: none of 1000 bytes is accepted.
const VERSION_TWO: [u8; 12] = [0x02, 0x01, 0, 0, 0, 0, 0x03, 0xe8, 0, 0, 0, 0];

fn upload(length: u32, offset: u32) -> Record {
    Record::Upload {
        announcement: Announcement {
            length,
            digest: None,
        },
        offset,
        rescue: false,
    }
}

/// A new flash, and the regions of its image.
fn fresh(alloc: Global) -> Result<(MemFlash, Layout), AllocError>
    ensures sizes { IfOk result (λ made. geometry_of made.1 ≡ (mem_state made.0).geometry) }
    ensures place { IfOk result (λ made. Fits (progress_of made.1) (mem_state made.0).geometry) }
    ensures erased { IfOk result (λ made. IfSome (mem_state made.0).bytes (Fresh (progress_of made.1))) }
{
    let sizes = Geometry {
        page: 512,
        unit: 8,
        slot_pages: 16,
        images: 1,
    };
    banks_fit();
    let flash = MemFlash::new(alloc, sizes)?;
    Ok((flash, Layout::of(sizes)))
}

/// Puts a record. `Unformatted` says that it may not stand there.
fn put(
    flash: &mut MemFlash,
    layout: &Layout,
    progress: &mut Progress,
    entry: &Record,
) -> Result<(), BankFault>
    requires layout { progress.old.layout ≡ layout.now }
    requires sizes { geometry_of layout.now ≡ (mem_state flash.old).geometry }
    requires sure { IsTrue progress.old.bank.sure }
    requires says { IfSome (mem_state flash.old).bytes (ProgressSays progress.old) }
    ensures layout { progress.new.layout ≡ layout.now }
    ensures sizes { geometry_of layout.now ≡ (mem_state flash.new).geometry }
    ensures sure { OnOk result (IsTrue progress.new.bank.sure) }
    ensures says { OnOk result (IfSome (mem_state flash.new).bytes (ProgressSays progress.new)) }
{
    if !is_record(layout, entry) {
        return Err(BankFault::Unformatted);
    }
    progress.put(flash, entry)
}

/// The body of the bank.
fn body_of(flash: &mut MemFlash, layout: &Layout) -> Result<ArrayVec<u8, 4096>, BankFault>
    requires { geometry_of layout.now ≡ (mem_state flash.old).geometry }
{
    banks_fit();
    let mut body = ArrayVec::new();
    let _ = Bank::open(flash, layout.progress(), 8, &mut body)?;
    Ok(body)
}

#[test]
fn a_record_of_version_one_goes_on_as_version_two(rt: HostRuntime) -> Result<(), Fail> {
    let (mut flash, layout) = fresh(rt.alloc())?;
    let _ = Bank::make(&mut flash, layout.progress(), 8, &VERSION_ONE)?;
    let (mut progress, found) = Progress::open(&mut flash, &layout)?;
    assert_eq!(rt; found, upload(2000, 480));
    put(&mut flash, &layout, &mut progress, &upload(2000, 488))?;
    assert_eq!(rt; flash.changes(), 4);
    let (_, found) = Progress::open(&mut flash, &layout)?;
    assert_eq!(rt; found, upload(2000, 488));
    put(&mut flash, &layout, &mut progress, &upload(1000, 0))?;
    assert_eq!(rt; flash.changes(), 6);
    let body = body_of(&mut flash, &layout)?;
    assert!(rt; body.as_slice().starts_with(&VERSION_TWO));
    Ok(())
}

/// A cell that is cut before its gate doesn't count, and the next one stands behind it.
#[test]
fn a_torn_cell_keeps_the_record(rt: HostRuntime) -> Result<(), Fail> {
    let (mut flash, layout) = fresh(rt.alloc())?;
    let mut progress = Progress::make(&mut flash, &layout)?;
    put(&mut flash, &layout, &mut progress, &upload(2000, 0))?;
    flash.arm(Arm {
        kind: ArmKind::Cut,
        region: Region::ProgressGate,
        after: 1,
        left: Left::Nothing,
    });
    assert_eq!(rt;
        put(&mut flash, &layout, &mut progress, &upload(2000, 8)),
        Err(BankFault::Off)
    );
    assert!(rt; !progress.is_sure());
    flash.power_on();
    let (mut progress, found) = Progress::open(&mut flash, &layout)?;
    assert_eq!(rt; found, upload(2000, 0));
    put(&mut flash, &layout, &mut progress, &upload(2000, 8))?;
    let (_, found) = Progress::open(&mut flash, &layout)?;
    assert_eq!(rt; found, upload(2000, 8));
    Ok(())
}

/// Puts records of one announcement, whose offsets are 32, 40, 48 and so on, as many as so.
fn put_offsets(
    flash: &mut MemFlash,
    layout: &Layout,
    progress: &mut Progress,
    count: u32,
) -> Result<(), BankFault>
    requires layout { progress.old.layout ≡ layout.now }
    requires sizes { geometry_of layout.now ≡ (mem_state flash.old).geometry }
    requires sure { IsTrue progress.old.bank.sure }
    requires says { IfSome (mem_state flash.old).bytes (ProgressSays progress.old) }
    requires few { count ≤ 252 }
    ensures layout { progress.new.layout ≡ layout.now }
    ensures sizes { geometry_of layout.now ≡ (mem_state flash.new).geometry }
    ensures sure { OnOk result (IsTrue progress.new.bank.sure) }
    ensures says { OnOk result (IfSome (mem_state flash.new).bytes (ProgressSays progress.new)) }
{
    for i in 0..count {
        put(flash, layout, progress, &upload(2400, 32 + 8 * i))?;
    }
    Ok(())
}

/// An upload of 2400 bytes, a start with 32 of them and 251 parts of 8: each takes a cell, which is two writes. The next part's record
/// replaces the side, of which one page is not FF.
#[test]
fn a_full_side_is_replaced(rt: HostRuntime) -> Result<(), Fail> {
    let (mut flash, layout) = fresh(rt.alloc())?;
    let mut progress = Progress::make(&mut flash, &layout)?;
    put(&mut flash, &layout, &mut progress, &upload(2400, 0))?;
    assert_eq!(rt; (flash.changes(), flash.erases()), (4, 0));
    put_offsets(&mut flash, &layout, &mut progress, 252)?;
    assert_eq!(rt; (flash.changes(), flash.erases()), (4 + 2 * 252, 0));
    let (_, found) = Progress::open(&mut flash, &layout)?;
    assert_eq!(rt; found, upload(2400, 2040));
    put(&mut flash, &layout, &mut progress, &upload(2400, 2048))?;
    assert_eq!(rt; (flash.changes(), flash.erases()), (4 + 2 * 252 + 3, 1));
    let read = flash.read_bytes();
    let (mut progress, found) = Progress::open(&mut flash, &layout)?;
    assert_eq!(rt; found, upload(2400, 2048));
    assert!(rt; flash.read_bytes() <= read.saturating_add(4112));
    put(&mut flash, &layout, &mut progress, &upload(2400, 2056))?;
    assert_eq!(rt; (flash.changes(), flash.erases()), (4 + 2 * 252 + 3 + 2, 1));
    Ok(())
}
