// What no clause says: that the seeds give the bytes of the table, and that each call goes through on good input.
ghost use Rattle.std.specs.Prelude.{◌≡◌, ◌+◌, ◌≤◌, IsTrue, IfSome, Some};
ghost use Rattle.smp_flash.specs.Area.{area, blank};
ghost use Rattle.smp_flash.specs.Geometry.{is_lawful, size_of};

use crate::arm::{Arm, ArmKind, Left};
use crate::calls::{clear_page, erase_page, read_part, reads_erased, sizes_of, write_part};
use crate::flash::{CallFault, Flash, FlashFault};
use crate::geometry::Geometry;
use crate::layout::{Area, Layout};
use crate::memory::MemFlash;
use crate::region::{GATE, Region};
use crate::steady::SteadyFlash;
use std::alloc::{AllocError, Global};
use std::test::Fail;

const SIZES: Geometry = Geometry {
    page: 512,
    unit: 8,
    slot_pages: 16,
    images: 1,
};

/// The same sizes for two images.
const TWO: Geometry = Geometry {
    page: 512,
    unit: 8,
    slot_pages: 16,
    images: 2,
};

const BYTES: [u8; 8] = [1, 2, 3, 4, 5, 6, 7, 8];

const ERASED: [u8; 8] = [0xff; 8];

/// What the seed 7 gives.
const SEVEN: [u8; 8] = [61, 233, 156, 237, 12, 219, 92, 13];

/// The bytes of which the seed 9 has erased the third and the last.
const NINE: [u8; 8] = [1, 2, 0xff, 4, 5, 6, 7, 0xff];

const WENT: Result<(), FlashFault> = Ok(());

const FAULT: Result<(), FlashFault> = Err(FlashFault::Fault);

const OFF: Result<(), FlashFault> = Err(FlashFault::Off);

fn armed(kind: ArmKind, region: Region, after: u32, left: Left) -> Arm
    ensures { result ≡ record { kind = kind; region = region; after = after; left = left } }
{
    Arm {
        kind,
        region,
        after,
        left,
    }
}

fn cut(region: Region, after: u32, left: Left) -> Arm {
    armed(ArmKind::Cut, region, after, left)
}

fn fail(region: Region, after: u32, left: Left) -> Arm {
    armed(ArmKind::Fail, region, after, left)
}

/// The eight bytes that stand there, once the power is on.
fn bytes_at(flash: &mut MemFlash, at: u32) -> Result<[u8; 8], FlashFault>
    requires { at + 8 ≤ 16384 }
{
    let mut into = [0u8; 8];
    flash.power_on();
    if flash.geometry() == SIZES {
        flash.read(at, &mut into)?;
    }
    Ok(into)
}

/// Writes eight bytes at place 512 of a new flash that is armed so.
fn written(alloc: Global, arm: Arm) -> Result<(Result<(), FlashFault>, MemFlash), AllocError>
    requires { 1 ≤ arm.after }
{
    let mut flash = MemFlash::new(alloc, SIZES)?;
    flash.arm(arm);
    let result = flash.write(512, &BYTES);
    Ok((result, flash))
}

#[test]
fn a_struck_write_leaves_what_the_arm_says(rt: HostRuntime) -> Result<(), Fail> {
    let rows = [
        (cut(Region::Any, 1, Left::Nothing), OFF, ERASED),
        (cut(Region::Any, 1, Left::Whole), OFF, BYTES),
        (cut(Region::Slot0, 1, Left::Seed(7)), OFF, SEVEN),
        (fail(Region::Slot0, 1, Left::Seed(7)), FAULT, SEVEN),
        (fail(Region::Slot1, 1, Left::Nothing), WENT, BYTES),
        (fail(Region::ProgressGate, 1, Left::Nothing), WENT, BYTES),
        (cut(Region::Any, 2, Left::Nothing), WENT, BYTES),
    ];
    for (arm, ends, stands) in rows {
        if 1 <= arm.after {
            let (result, mut flash) = written(rt.alloc(), arm)?;
            assert_eq!(rt; result, ends, "{arm:?}");
            assert_eq!(rt; flash.is_on(), ends != OFF, "{arm:?}");
            assert_eq!(rt; flash.changes(), 1, "{arm:?}");
            let found = bytes_at(&mut flash, 512);
            assert_eq!(rt; found, Ok(stands), "{arm:?}");
            assert_eq!(rt; flash.read_bytes(), 8, "{arm:?}");
        }
    }
    Ok(())
}

#[test]
fn a_struck_erase_leaves_old_or_erased_bytes(rt: HostRuntime) -> Result<(), Fail> {
    let rows = [
        (cut(Region::Any, 2, Left::Nothing), OFF, BYTES),
        (fail(Region::Slot0, 2, Left::Whole), FAULT, ERASED),
        (cut(Region::Any, 2, Left::Seed(9)), OFF, NINE),
        (cut(Region::Scratch, 1, Left::Nothing), WENT, ERASED),
    ];
    for (arm, ends, stands) in rows {
        if 1 <= arm.after {
            let (_, mut flash) = written(rt.alloc(), arm)?;
            if flash.geometry() == SIZES {
                let result = flash.erase(1);
                assert_eq!(rt; result, ends, "{arm:?}");
                let found = bytes_at(&mut flash, 512);
                assert_eq!(rt; found, Ok(stands), "{arm:?}");
            }
        }
    }
    Ok(())
}

#[test]
fn a_struck_read_gives_nothing(rt: HostRuntime) -> Result<(), Fail> {
    let (result, mut flash) = written(
        rt.alloc(),
        armed(ArmKind::Read, Region::Slot0, 2, Left::Whole),
    )?;
    assert_eq!(rt; result, Ok(()));
    for ends in [Ok(BYTES), Err(FlashFault::Fault), Ok(BYTES)] {
        let found = bytes_at(&mut flash, 512);
        assert_eq!(rt; found, ends);
    }
    assert_eq!(rt; flash.read_bytes(), 24);
    Ok(())
}

/// Makes the flash anew and calls it in each way. It ends with page 1 erased.
fn goes_round<F: Flash>(flash: &mut F) -> Result<[u8; 8], CallFault> {
    let mut page = [0u8; 512];
    let mut into = [0u8; 8];
    if flash.create("anew", SIZES).is_err() {
        return Err(CallFault::Off);
    }
    write_part(flash, 512, &BYTES)?;
    read_part(flash, 512, &mut into)?;
    clear_page(flash, 512, 512, &mut page)?;
    if !reads_erased(flash, 512, 512, &mut page)? {
        into = ERASED;
    }
    erase_page(flash, 512, 512)?;
    Ok(into)
}

#[test]
fn both_flashes_in_memory_go_round(rt: HostRuntime) -> Result<(), Fail> {
    let mut memory = MemFlash::new(rt.alloc(), SIZES)?;
    let mut steady = SteadyFlash::new(rt.alloc(), SIZES)?;
    assert_eq!(rt; memory.attach("held"), Ok(()));
    assert_eq!(rt; steady.attach("held"), Ok(()));
    let found = goes_round(&mut memory);
    assert_eq!(rt; found, Ok(BYTES));
    let found = goes_round(&mut steady);
    assert_eq!(rt; found, Ok(BYTES));
    steady.power_on();
    assert!(rt; memory.is_on() && steady.is_on());
    assert_eq!(rt; (memory.changes(), memory.read_bytes()), (3, 1032));
    assert_eq!(rt; (steady.changes(), steady.read_bytes()), (3, 1032));
    assert_eq!(rt; (memory.erases(), steady.erases()), (2, 2));

    let other = Geometry {
        page: 1024,
        unit: 1,
        slot_pages: 4,
        images: 1,
    };
    assert_eq!(rt; memory.create("other", other), Err(FlashFault::Fault));
    assert_eq!(rt; steady.create("other", other), Err(FlashFault::Fault));
    Ok(())
}

/// The regions of a layout, in the order of the table.
fn regions(layout: &Layout) -> [Area; 7] {
    [
        layout.slot(0),
        layout.slot(1),
        layout.progress().first,
        layout.progress().second,
        layout.scratch(),
        layout.settings().first,
        layout.settings().second,
    ]
}

#[test]
fn layouts_have_the_places_of_the_table(rt: HostRuntime) {
    let lengths = [8192, 8192, 4096, 4096, 512, 4096, 4096];
    let first = [0, 8192, 16384, 20480, 24576, 25088, 29184];
    let second = [33280, 41472, 49664, 53760, 57856, 25088, 29184];
    let layout = Layout::of(TWO);
    let other = Layout::second(TWO).unwrap_or(layout);
    for (layout, places) in [(layout, first), (other, second)] {
        for (area, (at, length)) in regions(&layout)
            .into_iter()
            .zip(places.into_iter().zip(lengths))
        {
            assert_eq!(rt; area, Area { at, length });
        }
        assert_eq!(rt; layout.size(), 58368);
        assert_eq!(rt; layout.geometry(), TWO);
    }
    assert_eq!(rt; (layout.image(), other.image()), (0, 1));
    assert_eq!(rt; Layout::of(SIZES).size(), 33280);
    assert!(rt; Layout::second(SIZES).is_none());
    assert_eq!(rt; GATE.as_slice(), b"GATEGATE".as_slice());
}

#[test]
fn lawful_sizes_are_those_of_the_table(rt: HostRuntime) {
    let rows = [
        (512, 8, 4, 1, true),
        (4096, 1, 1024, 2, true),
        (1024, 2, 16, 1, true),
        (2048, 4, 16, 2, true),
        (256, 8, 4, 1, false),
        (512, 3, 4, 1, false),
        (512, 8, 3, 1, false),
        (512, 8, 1025, 1, false),
        (512, 8, 4, 0, false),
        (512, 8, 4, 3, false),
    ];
    for (page, unit, slot_pages, images, lawful) in rows {
        let sizes = Geometry {
            page,
            unit,
            slot_pages,
            images,
        };
        assert_eq!(rt; sizes.is_lawful(), lawful, "{sizes:?}");
    }
}
