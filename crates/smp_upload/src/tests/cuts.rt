// Worked cuts of one part, of its record and of its rescue, and what the next start finds.
ghost use Rattle.std.specs.Prelude.{◌≡◌, IfOk, IfSome};
ghost use Rattle.smp_flash.specs.Memory.{mem_state};
ghost use Rattle.smp_upload.specs.States.{Says, known_mounted};

use crate::states::UploadFault;
use crate::tests::{
    Bench, Board, DEFAULT, Plan, Seen, arm, arm_state, calm, choose, look_at, mount, part, plain,
    planned, run, slot_bytes, started, unmount, went,
};
use smp_flash::{Arm, ArmKind, Left, Operation, Region};
use smp_model::Mark;
use std::alloc::Global;
use std::process::Abort;
use std::test::Fail;

/// The operation of this number that begins there is struck so.
fn strike(kind: ArmKind, region: Region, after: u32, left: Left) -> Arm
    ensures { result.after ≡ after }
{
    Arm {
        kind,
        region,
        after,
        left,
    }
}

/// Two cuts: of the part, and of the start behind it.
type Cuts = ((Region, u32, Left), Option<(Region, Left)>);

/// A file is chosen, and its first part stored.
fn first_stored(alloc: Global, plan: &Plan, size: usize) -> Result<Bench, Fail>
    ensures says { IfOk result (λ bench. IfSome (mem_state bench.flash).bytes (Says (known_mounted bench.state))) }
{
    let bench = went(choose(started(alloc, DEFAULT, false)?, plan.announcement))?;
    went(part(bench, plan.part(0, size)))
}

/// A part is stored that is cut so.
fn part_cut(
    rt: &impl Abort,
    bench: Bench,
    bytes: &[u8],
    cut: (Region, u32, Left),
) -> Result<Board, Fail>
    requires says { IfSome (mem_state bench.flash).bytes (Says (known_mounted bench.state)) }
{
    let (region, after, left) = cut;
    if after < 1 {
        return Err(Fail::from(after));
    }
    let bench = arm_state(bench, strike(ArmKind::Cut, region, after, left));
    match part(bench, bytes) {
        Ok(_) => Err(Fail::from(cut)),
        Err(stopped) => {
            assert_eq!(rt; stopped.fault, Some(UploadFault::Off), "{cut:?}");
            Ok(stopped.board)
        }
    }
}

/// A start that is cut at its first operation there.
fn start_cut(rt: &impl Abort, board: Board, region: Region, left: Left) -> Result<Board, Fail> {
    match mount(arm(board, strike(ArmKind::Cut, region, 1, left))) {
        Ok(_) => Err(Fail::from(region)),
        Err(stopped) => {
            assert_eq!(rt; stopped.fault, Some(UploadFault::Off), "{region:?}");
            Ok(stopped.board)
        }
    }
}

/// The start behind these cuts finds so many bytes. Then the part that is wanted is stored, and the file goes to its end.
fn found_after(
    rt: &impl Abort,
    alloc: Global,
    plan: &Plan,
    cuts: Cuts,
    offset: u32,
) -> Result<(), Fail> {
    let bench = first_stored(alloc, plan, 480)?;
    let mut board = part_cut(rt, bench, plan.part(480, 480), cuts.0)?;
    if let Some((region, left)) = cuts.1 {
        board = start_cut(rt, board, region, left)?;
    }
    let bench = went(mount(calm(board)))?;
    let seen = look_at(&bench.state);
    assert_eq!(rt;
        seen,
        Seen::Receiving(offset, plan.announcement),
        "{cuts:?}"
    );
    let bench = went(part(bench, plan.part(480, (960 - offset.min(960)) as usize)))?;
    let seen = look_at(&bench.state);
    assert_eq!(rt; seen, Seen::Receiving(960, plan.announcement), "{cuts:?}");
    let bench = went(run(bench, plan))?;
    assert!(rt; plan.is_done(&bench.state), "{cuts:?}");
    let mut board = unmount(bench);
    let held = slot_bytes(alloc, &mut board, plan.announcement.length)?;
    assert!(rt; held.as_slice() == plan.bytes.as_slice(), "{cuts:?}");
    Ok(())
}

/// A good image of 2000 bytes, in parts of 480. The second part is cut in the slot, and so is the rescue of its page, in the slot and in
/// the scratch page; or at the gate of its cell.
#[test]
fn a_cut_part_goes_on_where_it_was(rt: HostRuntime) -> Result<(), Fail> {
    let plan = planned(rt.alloc(), 1928, 1, [480; 7], Some(Mark::Test))?;
    assert_eq!(rt; plan.announcement.length, 2000);
    let slot = (Region::Slot1, 1, Left::Whole);
    let rows = [
        ((slot, None), 480),
        ((slot, Some((Region::Slot1, Left::Seed(7)))), 480),
        ((slot, Some((Region::Scratch, Left::Seed(7)))), 480),
        ((slot, Some((Region::ProgressGate, Left::Nothing))), 480),
        ((slot, Some((Region::ProgressGate, Left::Whole))), 480),
        (((Region::ProgressGate, 1, Left::Nothing), None), 480),
        (((Region::ProgressGate, 1, Left::Whole), None), 960),
    ];
    for (cuts, offset) in rows {
        found_after(&rt, rt.alloc(), &plan, cuts, offset)?;
    }
    Ok(())
}

/// The second gate from here on is that of the third part.
#[test]
fn a_later_cut_keeps_the_part_before(rt: HostRuntime) -> Result<(), Fail> {
    let plan = planned(rt.alloc(), 1928, 1, [480; 7], None)?;
    let bench = first_stored(rt.alloc(), &plan, 480)?;
    let gate = strike(ArmKind::Cut, Region::ProgressGate, 2, Left::Nothing);
    let bench = went(part(arm_state(bench, gate), plan.part(480, 480)))?;
    assert_eq!(rt;
        look_at(&bench.state),
        Seen::Receiving(960, plan.announcement)
    );
    let board = match part(bench, plan.part(960, 480)) {
        Ok(bench) => unmount(bench),
        Err(stopped) => {
            assert_eq!(rt; stopped.fault, Some(UploadFault::Off));
            stopped.board
        }
    };
    let bench = went(mount(calm(board)))?;
    assert_eq!(rt;
        look_at(&bench.state),
        Seen::Receiving(960, plan.announcement)
    );
    Ok(())
}

/// A start whose first read fails says so, and the next one finds what stands.
#[test]
fn a_failed_read_is_told(rt: HostRuntime) -> Result<(), Fail> {
    let board = unmount(started(rt.alloc(), DEFAULT, false)?);
    let read = strike(ArmKind::Read, Region::Any, 1, Left::Nothing);
    let board = match mount(arm(board, read)) {
        Ok(bench) => unmount(bench),
        Err(stopped) => {
            assert_eq!(rt; stopped.fault, Some(UploadFault::Fault(Operation::Read)));
            stopped.board
        }
    };
    let bench = went(mount(board))?;
    assert_eq!(rt; look_at(&bench.state), Seen::Idle);
    Ok(())
}

/// A part of 8 bytes is cut at the gate of its cell: it is not accepted, and can be stored again.
#[test]
fn a_cut_cell_is_stored_again(rt: HostRuntime) -> Result<(), Fail> {
    let plan = plain(rt.alloc(), 2400, 1, 8)?;
    let bench = first_stored(rt.alloc(), &plan, 32)?;
    let bench = went(part(bench, plan.part(32, 8)))?;
    let gate = (Region::ProgressGate, 1, Left::Nothing);
    let board = part_cut(&rt, bench, plan.part(40, 8), gate)?;
    let bench = went(mount(calm(board)))?;
    assert_eq!(rt;
        look_at(&bench.state),
        Seen::Receiving(40, plan.announcement)
    );
    let bench = went(part(bench, plan.part(40, 8)))?;
    assert_eq!(rt;
        look_at(&bench.state),
        Seen::Receiving(48, plan.announcement)
    );
    Ok(())
}
