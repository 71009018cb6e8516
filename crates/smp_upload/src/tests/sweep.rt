// An upload that is struck at each of its operations, found again, struck in the recovery too, and then brought to its end.
ghost use Rattle.std.specs.Prelude.{◌≡◌, ◌≤◌, IsTrue, IfOk, IfSome};
ghost use Rattle.smp_flash.specs.Geometry.{is_lawful};
ghost use Rattle.smp_flash.specs.Memory.{mem_state};
ghost use Rattle.smp_upload.specs.States.{Says, known_mounted};

use crate::tests::{
    Bench, Board, Plan, Seen, Stopped, arm, arm_state, calm, look_at, mount, planned, run, sizes,
    slot_bytes, started, unmount, went,
};
use smp_flash::{Arm, ArmKind, Geometry, Left, Region};
use smp_model::Mark;
use std::alloc::Global;
use std::process::Abort;
use std::test::Fail;

/// What is left by an operation that is struck: nothing of it, all of it, or what some seeds give.
const REMAINS: [Left; 6] = [
    Left::Nothing,
    Left::Whole,
    Left::Seed(1),
    Left::Seed(2),
    Left::Seed(7),
    Left::Seed(9),
];

/// The write or erase of this number is struck.
fn strike(kind: ArmKind, after: u32, left: Left) -> Arm
    ensures { result.after ≡ after }
{
    Arm {
        kind,
        region: Region::Any,
        after,
        left,
    }
}

/// Two uploads, of which the first is complete when the second begins.
#[derive(Drop)]
struct Case {
    sizes: Geometry,
    second: bool,
    old: Plan,
    new: Plan,
    ghost lawful: { IsTrue (is_lawful sizes) },
}

/// Whether the flash holds the first bytes of a file in the slot.
fn holds(alloc: Global, board: &mut Board, plan: &Plan, count: u32) -> Result<bool, Fail> {
    let held = slot_bytes(alloc, board, count)?;
    Ok(held.as_slice() == plan.part(0, count as usize))
}

/// Whether the rest of the page behind an offset is FF.
fn is_clean(alloc: Global, board: &mut Board, offset: u32, page: u32) -> Result<bool, Fail> {
    let end = (offset / page.max(1))
        .saturating_add(1)
        .saturating_mul(page);
    let end = if offset % page.max(1) == 0 {
        offset
    } else {
        end
    };
    let held = slot_bytes(alloc, board, end)?;
    let rest = held.get(offset as usize..).unwrap_or(&[]);
    Ok(held.len() == end as usize && rest.iter().all(|byte| *byte == 0xff))
}

/// Whether a state is one that may be found where this was answered last: of the new upload as many bytes at least, and no more than the
/// next part would add; of the old one all.
fn is_found(case: &Case, seen: Seen, answered: Option<u32>) -> bool {
    let least = answered.unwrap_or(0);
    match seen {
        Seen::Idle => false,
        Seen::Receiving(offset, announcement) => {
            announcement == case.new.announcement
                && least <= offset
                && (answered.is_some() || offset == 0)
                && offset <= least.saturating_add(2048)
        }
        Seen::Whole(announcement, good) if announcement == case.old.announcement => {
            good && answered.is_none()
        }
        Seen::Whole(announcement, good) => {
            good && announcement == case.new.announcement && answered.is_some()
        }
        Seen::Pending(announcement, mark) => {
            announcement == case.new.announcement
                && answered == Some(announcement.length)
                && case.new.mark == Some(mark)
        }
    }
}

/// Looks at what was found, behind this answer: the accepted bytes are those of the file, and the next part can be stored.
fn check_found(
    rt: &impl Abort,
    alloc: Global,
    case: &Case,
    bench: Bench,
    answered: Option<u32>,
) -> Result<Board, Fail> {
    let seen = look_at(&bench.state);
    let mut board = unmount(bench);
    assert!(rt; is_found(case, seen, answered), "{seen:?} {answered:?}");
    match seen {
        Seen::Idle => {}
        Seen::Receiving(offset, _) => {
            assert!(rt; holds(alloc, &mut board, &case.new, offset)?, "{seen:?}");
            assert!(rt;
                is_clean(alloc, &mut board, offset, case.sizes.page)?,
                "{seen:?}"
            );
        }
        Seen::Whole(announcement, _) | Seen::Pending(announcement, _) => {
            let plan = if announcement == case.new.announcement {
                &case.new
            } else {
                &case.old
            };
            assert!(rt;
                holds(alloc, &mut board, plan, announcement.length)?,
                "{seen:?}"
            );
        }
    }
    Ok(board)
}

/// Brings the upload to its end, and looks at it: it is marked, also for a later start, and its bytes are the file's.
fn check_end(rt: &impl Abort, alloc: Global, case: &Case, board: Board) -> Result<(), Fail> {
    let bench = went(mount(board))?;
    let bench = went(run(bench, &case.new))?;
    let bench = went(mount(unmount(bench)))?;
    let seen = look_at(&bench.state);
    assert!(rt; case.new.is_done(&bench.state), "{seen:?}");
    let mut board = unmount(bench);
    assert!(rt; holds(alloc, &mut board, &case.new, case.new.announcement.length)?);
    Ok(())
}

/// The old upload is complete.
fn prepared(alloc: Global, case: &Case) -> Result<Bench, Fail>
    ensures says { IfOk result (λ bench. IfSome (mem_state bench.flash).bytes (Says (known_mounted bench.state))) }
{
    let bench = started(alloc, case.sizes, case.second)?;
    went(run(bench, &case.old))
}

/// How a call ended that may have been struck: with what it left, and the last answer.
fn after_strike(case: &Case, call: Result<Bench, Stopped>) -> (Board, Option<u32>, bool) {
    match call {
        Ok(bench) => (unmount(bench), Some(case.new.announcement.length), false),
        Err(stopped) => (stopped.board, stopped.answered, stopped.fault.is_some()),
    }
}

/// The new upload is struck, and so is the mount behind it. Whether each was struck is told.
fn struck_twice(
    rt: &impl Abort,
    alloc: Global,
    case: &Case,
    first: Arm,
    again: Arm,
) -> Result<(bool, bool), Fail>
    requires first { 1 ≤ first.after }
    requires again { 1 ≤ again.after }
{
    let bench = arm_state(prepared(alloc, case)?, first);
    let (board, answered, first_struck) = after_strike(case, run(bench, &case.new));
    let (board, _, again_struck) = after_strike(case, mount(arm(board, again)));
    let bench = went(mount(calm(board)))?;
    let board = check_found(rt, alloc, case, bench, answered)?;
    check_end(rt, alloc, case, board)?;
    Ok((first_struck, again_struck))
}

/// The new upload is struck so, and each operation of the recovery in turn, until there is none. Whether the first one was
/// struck is told.
fn struck_on(
    rt: &impl Abort,
    alloc: Global,
    case: &Case,
    first: Arm,
    kind: ArmKind,
    left: Left,
) -> Result<bool, Fail>
    requires { 1 ≤ first.after }
{
    for after in 1..20 {
        let again = strike(kind, after, left);
        let (first_struck, again_struck) = struck_twice(rt, alloc, case, first, again)?;
        if !again_struck {
            return Ok(first_struck);
        }
    }
    Err(Fail::from(first))
}

/// The new upload is struck so, and the recovery in the same way, by a cut that leaves noise, and by a failure that leaves nothing.
fn struck_in_turn(rt: &impl Abort, alloc: Global, case: &Case, first: Arm) -> Result<bool, Fail>
    requires { 1 ≤ first.after }
{
    struck_on(rt, alloc, case, first, ArmKind::Cut, Left::Seed(11))?;
    struck_on(rt, alloc, case, first, ArmKind::Fail, Left::Nothing)?;
    struck_on(rt, alloc, case, first, first.kind, first.left)
}

/// Each operation of the new upload is struck in turn, until there is none: so many.
fn struck_at_each(
    rt: &impl Abort,
    alloc: Global,
    case: &Case,
    kind: ArmKind,
    left: Left,
) -> Result<u32, Fail> {
    for after in 1..200 {
        if !struck_in_turn(rt, alloc, case, strike(kind, after, left))? {
            return Ok(after);
        }
    }
    Err(Fail::from(left))
}

fn struck_by_all(rt: &impl Abort, alloc: Global, case: &Case) -> Result<(), Fail> {
    for left in REMAINS {
        for kind in [ArmKind::Cut, ArmKind::Fail] {
            let count = struck_at_each(rt, alloc, case, kind, left)?;
            assert!(rt; count > 20, "{count}");
        }
    }
    Ok(())
}

/// The sizes of the parts: for pages of 512 bytes, and of 4096.
const SHORT: [usize; 7] = [101, 37, 3, 211, 517, 8, 299];

const LONG: [usize; 7] = [1011, 337, 3, 2011, 1517, 8, 299];

fn swept(rt: &impl Abort, alloc: Global, page: u32, unit: u32, second: bool) -> Result<(), Fail> {
    let sizes = sizes(page, unit);
    if sizes.is_lawful() {
        let parts = if page == 512 { SHORT } else { LONG };
        let least = page as usize;
        let case = Case {
            sizes,
            second,
            old: planned(alloc, least + 300, 5, [2048; 7], None)?,
            new: planned(alloc, least + 591, 1, parts, Some(Mark::Permanent))?,
        };
        struck_by_all(rt, alloc, &case)?;
    }
    Ok(())
}

#[test]
fn no_strike_loses_short_pages(rt: HostRuntime) -> Result<(), Fail> {
    swept(&rt, rt.alloc(), 512, 1, false)?;
    swept(&rt, rt.alloc(), 512, 1, true)?;
    swept(&rt, rt.alloc(), 512, 8, false)?;
    swept(&rt, rt.alloc(), 512, 8, true)?;
    Ok(())
}

#[test]
fn no_strike_loses_long_pages(rt: HostRuntime) -> Result<(), Fail> {
    swept(&rt, rt.alloc(), 4096, 1, false)?;
    swept(&rt, rt.alloc(), 4096, 1, true)?;
    swept(&rt, rt.alloc(), 4096, 8, false)?;
    swept(&rt, rt.alloc(), 4096, 8, true)?;
    Ok(())
}
