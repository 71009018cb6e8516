// How many operations and bytes read each call takes.
ghost use Rattle.std.specs.Prelude.{IfOk, IfSome};
ghost use Rattle.smp_flash.specs.Memory.{mem_state};
ghost use Rattle.smp_upload.specs.States.{Says, known_mounted};

use crate::tests::{
    Bench, Cost, DEFAULT, Plan, Seen, choose, counted, erase, look_at, mount, part, plain, planned,
    run, run_to, set_pending, since, started, unmount, went,
};
use smp_flash::Geometry;
use smp_model::Mark;
use std::alloc::Global;
use std::process::Abort;
use std::test::Fail;

/// So many writes and erases, of these erases, and at most so many bytes read.
fn is_cost(cost: Cost, changes: u64, erases: u64, reads: u64) -> bool {
    cost.changes == changes && cost.erases == erases && cost.reads <= reads
}

/// Stores a part of the file, which has this size, and takes so many operations.
fn part_costs(
    rt: &impl Abort,
    bench: Bench,
    plan: &Plan,
    row: (u32, usize, u64, u64, u64),
) -> Result<Bench, Fail>
    requires says { IfSome (mem_state bench.flash).bytes (Says (known_mounted bench.state)) }
    ensures says { IfOk result (λ bench. IfSome (mem_state bench.flash).bytes (Says (known_mounted bench.state))) }
{
    let (offset, size, changes, erases, reads) = row;
    let before = counted(&bench.flash);
    let bench = went(part(bench, plan.part(offset, size)))?;
    let cost = since(before, &bench.flash);
    assert!(rt; is_cost(cost, changes, erases, reads), "{row:?} {cost:?}");
    Ok(bench)
}

/// Stores parts of the file, each with its cost.
fn parts_cost(
    rt: &impl Abort,
    bench: Bench,
    plan: &Plan,
    rows: &[(u32, usize, u64, u64, u64)],
) -> Result<Bench, Fail>
    requires says { IfSome (mem_state bench.flash).bytes (Says (known_mounted bench.state)) }
    ensures says { IfOk result (λ bench. IfSome (mem_state bench.flash).bytes (Says (known_mounted bench.state))) }
{
    let mut bench = bench;
    for row in rows {
        bench = part_costs(rt, bench, plan, *row)?;
    }
    Ok(bench)
}

/// A slot that is not FF: a part within a page is its write, its cell and the cell's gate; a page is read and erased when it is
/// begun; and a part of which nothing is kept makes no operation.
#[test]
fn parts_take_few_operations(rt: HostRuntime) -> Result<(), Fail> {
    let old = planned(rt.alloc(), 1500, 5, [2048; 7], None)?;
    let new = planned(rt.alloc(), 2928, 1, [480; 7], None)?;
    let bench = went(run(started(rt.alloc(), DEFAULT, false)?, &old))?;
    let bench = went(choose(bench, new.announcement))?;
    let bench = parts_cost(
        &rt,
        bench,
        &new,
        &[
            (0, 96, 4, 1, 512),
            (96, 3, 0, 0, 0),
            (96, 97, 3, 0, 0),
            (192, 320, 3, 0, 0),
            (512, 0, 0, 0, 0),
            (512, 7, 0, 0, 0),
            (512, 8, 4, 1, 512),
            (520, 504, 3, 0, 0),
            (1024, 480, 4, 1, 512),
            (1504, 1056, 6, 1, 1024),
            (2560, 440, 3, 0, 512 + 72),
        ],
    )?;
    assert_eq!(rt; look_at(&bench.state), Seen::Whole(new.announcement, true));
    assert_eq!(rt; bench.matched, Some(true));
    Ok(())
}

/// A page that is begun again is erased again, and no other one. Each new upload erases a side of the record too.
#[test]
fn a_page_is_erased_when_it_is_begun(rt: HostRuntime) -> Result<(), Fail> {
    let old = planned(rt.alloc(), 1500, 5, [96; 7], None)?;
    let new = planned(rt.alloc(), 1700, 1, [101; 7], Some(Mark::Test))?;
    let bench = started(rt.alloc(), DEFAULT, false)?;
    let before = counted(&bench.flash);
    let bench = went(run(bench, &old))?;
    assert_eq!(rt; since(before, &bench.flash).erases, 0);
    let bench = went(run_to(bench, &new, 1100))?;
    assert_eq!(rt; since(before, &bench.flash).erases, 3 + 1);
    let bench = went(run(bench, &old))?;
    assert_eq!(rt; since(before, &bench.flash).erases, 4 + 4 + 1);
    let bench = went(run(bench, &new))?;
    assert_eq!(rt; since(before, &bench.flash).erases, 9 + 4 + 1);
    assert_eq!(rt;
        look_at(&bench.state),
        Seen::Pending(new.announcement, Mark::Test)
    );
    Ok(())
}

/// What a mount reads whatever is accepted: the heads of the record's sides, the newest body and its cells; the image of 80 bytes in the
/// primary slot, its header and its TLVs, of which the hash is read twice; and the end of the secondary slot.
const MOUNT: u64 = 32 + 48 + 252 * 16 + 400;

/// A mount at this offset reads the accepted bytes once, and the rest of their page, and changes nothing.
fn mount_costs(rt: &impl Abort, alloc: Global, plan: &Plan, until: u32) -> Result<(), Fail> {
    let bench = went(mount(unmount(started(alloc, DEFAULT, false)?)))?;
    let bench = went(run_to(bench, plan, until))?;
    let seen = look_at(&bench.state);
    let offset = match seen {
        Seen::Receiving(offset, _) => offset,
        _ => plan.announcement.length,
    };
    let before = counted(&bench.flash);
    let bench = went(mount(unmount(bench)))?;
    let cost = since(before, &bench.flash);
    let most = u64::from(offset).saturating_add(MOUNT + 512);
    assert_eq!(rt; look_at(&bench.state), seen);
    assert!(rt; is_cost(cost, 0, 0, most), "{offset} {cost:?}");
    assert!(rt; u64::from(offset) <= cost.reads, "{offset} {cost:?}");
    Ok(())
}

#[test]
fn a_mount_reads_the_accepted_bytes_once(rt: HostRuntime) -> Result<(), Fail> {
    let plan = planned(rt.alloc(), 6000, 1, [480; 7], Some(Mark::Test))?;
    for until in [0, 480, 2400, 5760] {
        mount_costs(&rt, rt.alloc(), &plan, until)?;
    }
    let whole = planned(rt.alloc(), 6000, 1, [480; 7], None)?;
    mount_costs(&rt, rt.alloc(), &whole, u32::MAX)?;
    Ok(())
}

/// The file of 240072 bytes: pages of 4096 bytes, parts of 480.
const LONG: Geometry = Geometry {
    page: 4096,
    unit: 8,
    slot_pages: 64,
    images: 1,
};

/// The last part of a long file. Its digest is right, and it reads little.
fn completes(rt: &impl Abort, bench: Bench, plan: &Plan) -> Result<(), Fail>
    requires says { IfSome (mem_state bench.flash).bytes (Says (known_mounted bench.state)) }
{
    let before = counted(&bench.flash);
    let bench = went(part(bench, plan.part(240_000, 480)))?;
    let cost = since(before, &bench.flash);
    assert!(rt; is_cost(cost, 3, 0, 200), "{cost:?}");
    assert_eq!(rt; bench.matched, Some(true));
    assert_eq!(rt; look_at(&bench.state), Seen::Whole(plan.announcement, true));
    Ok(())
}

#[test]
fn a_long_file_is_not_read_again(rt: HostRuntime) -> Result<(), Fail> {
    let plan = planned(rt.alloc(), 240_000, 1, [480; 7], None)?;
    assert_eq!(rt; plan.announcement.length, 240_072);
    let bench = went(run_to(started(rt.alloc(), LONG, false)?, &plan, 240_000))?;
    completes(&rt, bench, &plan)?;
    let bench = went(run_to(started(rt.alloc(), LONG, false)?, &plan, 240_000))?;
    let before = counted(&bench.flash);
    let bench = went(mount(unmount(bench)))?;
    let cost = since(before, &bench.flash);
    assert!(rt; is_cost(cost, 0, 0, MOUNT + 4096 + 240_000), "{cost:?}");
    completes(&rt, bench, &plan)
}

/// A new upload is one record, which replaces the side; an erase is one record and the pages that are not FF; and a mark is its
/// writes, and an erase where the last page is not FF.
#[test]
fn other_calls_take_what_they_need(rt: HostRuntime) -> Result<(), Fail> {
    let plan = planned(rt.alloc(), 1500, 1, [480; 7], None)?;
    let bench = started(rt.alloc(), DEFAULT, false)?;
    let before = counted(&bench.flash);
    let bench = went(choose(bench, plan.announcement))?;
    assert!(rt; is_cost(since(before, &bench.flash), 2, 0, 4096));
    let bench = went(run(bench, &plan))?;
    let before = counted(&bench.flash);
    let bench = went(erase(bench))?;
    let cost = since(before, &bench.flash);
    assert!(rt; is_cost(cost, 3 + 4, 1 + 4, 4096 + 8192), "{cost:?}");
    let before = counted(&bench.flash);
    let bench = went(erase(bench))?;
    let cost = since(before, &bench.flash);
    assert!(rt; is_cost(cost, 0, 0, 8192), "{cost:?}");
    let bench = went(run(bench, &plan))?;
    let before = counted(&bench.flash);
    let bench = went(set_pending(bench, Mark::Permanent))?;
    let cost = since(before, &bench.flash);
    assert!(rt; is_cost(cost, 2, 0, 512), "{cost:?}");
    Ok(())
}

/// A file of 2400 bytes in parts of 8 behind one of 32: each is three writes, until the side is full of cells; the next one
/// replaces it.
#[test]
fn a_part_is_one_cell(rt: HostRuntime) -> Result<(), Fail> {
    let plan = plain(rt.alloc(), 2400, 1, 8)?;
    let bench = went(choose(started(rt.alloc(), DEFAULT, false)?, plan.announcement))?;
    let bench = parts_cost(&rt, bench, &plan, &[(0, 32, 3, 0, 512), (32, 8, 3, 0, 0)])?;
    let before = counted(&bench.flash);
    let bench = went(run_to(bench, &plan, 2040))?;
    let cost = since(before, &bench.flash);
    assert!(rt; is_cost(cost, 250 * 3, 0, 3 * 512), "{cost:?}");
    let bench = parts_cost(&rt, bench, &plan, &[(2040, 8, 1 + 3, 1, 4096)])?;
    assert_eq!(rt;
        look_at(&bench.state),
        Seen::Receiving(2048, plan.announcement)
    );
    let bench = went(mount(unmount(bench)))?;
    assert_eq!(rt;
        look_at(&bench.state),
        Seen::Receiving(2048, plan.announcement)
    );
    Ok(())
}
