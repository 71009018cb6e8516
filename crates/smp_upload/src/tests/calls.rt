// Marks, confirmation, erasing, other uploads, and files that are not what was announced.
ghost use Rattle.std.specs.Prelude.{◌≡◌, ◌≤◌, IfOk, IfSome, OnOk};
ghost use Rattle.smp_flash.specs.Layout.{geometry_of};
ghost use Rattle.smp_flash.specs.Memory.{mem_state};
ghost use Rattle.smp_upload.specs.States.{Says, known_mounted};

use crate::primary::{active_image, confirm, is_confirmed};
use crate::tests::{
    Bench, Board, DEFAULT, Plan, Seen, Stopped, VERSION, arm, arm_state, calm, choose, erase,
    fresh, layout_of, look_at, mount, part, plain, planned, put_image, run, run_to, set_pending,
    slot_bytes, started, unmount, went,
};
use smp_flash::{Arm, ArmKind, CallFault, Flash, FlashFault, Layout, Left, MemFlash, Region};
use smp_gate::{Bank, banks_fit};
use smp_model::{Announcement, ImageInfo, Mark, make_image};
use std::alloc::Global;
use std::process::Abort;
use std::test::Fail;

/// What is left by an operation that is struck.
const REMAINS: [Left; 4] = [Left::Nothing, Left::Whole, Left::Seed(1), Left::Seed(7)];

/// The write or erase of this number is struck.
fn strike(kind: ArmKind, after: u32, left: Left) -> Arm
    ensures { result.after ≡ after }
{
    Arm {
        kind,
        region: Region::Any,
        after,
        left,
    }
}

/// Whether the last of so many operations is done behind this arm.
fn is_through(arm: Arm, all: u32) -> bool {
    all < arm.after || (all == arm.after && arm.left == Left::Whole)
}

/// What a call left that may have been struck.
fn board_of(call: Result<Bench, Stopped>) -> Board {
    match call {
        Ok(bench) => unmount(bench),
        Err(stopped) => stopped.board,
    }
}

/// A complete upload, with noise in the last page of its slot, or FF.
fn complete(alloc: Global, plan: &Plan, noisy: bool) -> Result<Bench, Fail>
    ensures says { IfOk result (λ bench. IfSome (mem_state bench.flash).bytes (Says (known_mounted bench.state))) }
{
    let bench = went(run(started(alloc, DEFAULT, false)?, plan))?;
    if !noisy {
        return Ok(bench);
    }
    let noise = strike(ArmKind::Cut, 1, Left::Seed(5));
    let board = board_of(set_pending(arm_state(bench, noise), Mark::Test));
    went(mount(calm(board)))
}

/// How many operations a mark takes.
fn marking(mark: Mark, noisy: bool) -> u32 {
    match (mark, noisy) {
        (Mark::Test, false) => 1,
        (Mark::Test, true) | (Mark::Permanent, false) => 2,
        (Mark::Permanent, true) => 3,
    }
}

/// A complete upload is marked, struck so: it has the mark once all is done, and else none, and can be marked once more.
fn struck_mark(
    rt: &impl Abort,
    alloc: Global,
    plan: &Plan,
    arm: Arm,
    mark: Mark,
    noisy: bool,
) -> Result<(), Fail>
    requires { 1 ≤ arm.after }
{
    let bench = complete(alloc, plan, noisy)?;
    let board = board_of(set_pending(arm_state(bench, arm), mark));
    let bench = went(mount(calm(board)))?;
    let seen = look_at(&bench.state);
    if is_through(arm, marking(mark, noisy)) {
        assert_eq!(rt; seen, Seen::Pending(plan.announcement, mark), "{arm:?}");
        return Ok(());
    }
    assert_eq!(rt; seen, Seen::Whole(plan.announcement, true), "{arm:?}");
    let bench = went(set_pending(bench, Mark::Test))?;
    let bench = went(mount(unmount(bench)))?;
    let seen = look_at(&bench.state);
    assert_eq!(rt;
        seen,
        Seen::Pending(plan.announcement, Mark::Test),
        "{arm:?}"
    );
    Ok(())
}

#[test]
fn a_struck_mark_is_there_or_not(rt: HostRuntime) -> Result<(), Fail> {
    let plan = planned(rt.alloc(), 1000, 1, [480; 7], None)?;
    for left in REMAINS {
        for kind in [ArmKind::Cut, ArmKind::Fail] {
            for after in 1..5 {
                for mark in [Mark::Test, Mark::Permanent] {
                    let arm = strike(kind, after, left);
                    struck_mark(&rt, rt.alloc(), &plan, arm, mark, false)?;
                    struck_mark(&rt, rt.alloc(), &plan, arm, mark, true)?;
                }
            }
        }
    }
    Ok(())
}

/// The image that runs, where a state is known.
fn active(bench: Bench) -> Result<(Board, ImageInfo), CallFault>
    requires says { IfSome (mem_state bench.flash).bytes (Says (known_mounted bench.state)) }
{
    let layout = layout_of(&bench.state);
    let Bench { mut flash, .. } = bench;
    let image = active_image(&layout, &mut flash)?;
    Ok((Board { flash, layout }, image))
}

/// Whether the image that runs is confirmed.
fn confirmed(flash: &mut MemFlash, layout: Layout) -> Result<bool, CallFault>
    requires sizes { geometry_of layout ≡ (mem_state flash.old).geometry }
    ensures sizes { OnOk result (geometry_of layout ≡ (mem_state flash.new).geometry) }
{
    is_confirmed(&layout, flash)
}

/// Confirms the image that runs, where it is not confirmed, and says whether it was not.
fn confirm_once(flash: &mut MemFlash, layout: Layout) -> Result<bool, CallFault>
    requires sizes { geometry_of layout ≡ (mem_state flash.old).geometry }
    ensures sizes { geometry_of layout ≡ (mem_state flash.new).geometry }
{
    if is_confirmed(&layout, flash)? {
        return Ok(false);
    }
    confirm(&layout, flash)?;
    Ok(true)
}

/// Confirms the image that runs, struck so, and starts again.
fn confirm_struck(board: Board, arming: Arm) -> Board
    requires { 1 ≤ arming.after }
{
    let Board {
        mut flash,
        layout,
        ..
    } = arm(board, arming);
    let _ = confirm_once(&mut flash, layout).is_ok();
    calm(Board { flash, layout })
}

/// Whether the image that runs is confirmed, and what state is found.
fn found(board: Board) -> Result<(Board, bool, Seen), Fail> {
    let Board {
        mut flash,
        layout,
        ..
    } = board;
    let is = confirmed(&mut flash, layout)?;
    let bench = went(mount(Board { flash, layout }))?;
    let seen = look_at(&bench.state);
    Ok((unmount(bench), is, seen))
}

/// An image is confirmed, struck so, and once more: it is confirmed once all is done. The upload goes on as it was, and the same image
/// runs.
fn struck_confirm(rt: &impl Abort, alloc: Global, plan: &Plan, arm: Arm) -> Result<(), Fail>
    requires { 1 ≤ arm.after }
{
    let bench = went(run_to(started(alloc, DEFAULT, false)?, plan, 480))?;
    let under_way = look_at(&bench.state);
    let (board, before) = active(bench)?;
    let (board, is, seen) = found(confirm_struck(board, arm))?;
    assert_eq!(rt; (is, seen), (is_through(arm, 1), under_way), "{arm:?}");
    let all = if arm.left == Left::Nothing { 1 } else { 2 };
    let (board, again, seen) = found(confirm_struck(board, arm))?;
    assert_eq!(rt;
        (again, seen),
        (is || is_through(arm, all), under_way),
        "{arm:?}"
    );
    let (board, _, _) = found(confirm_struck(board, strike(ArmKind::Cut, 9, Left::Nothing)))?;
    let (board, is, seen) = found(board)?;
    assert_eq!(rt; (is, seen), (true, under_way), "{arm:?}");
    let (_, image) = active(went(mount(board))?)?;
    assert_eq!(rt; image, before, "{arm:?}");
    assert_eq!(rt;
        (image.version, image.covered, image.end),
        (VERSION, 40, 80)
    );
    Ok(())
}

#[test]
fn a_struck_confirmation_stands_or_not(rt: HostRuntime) -> Result<(), Fail> {
    let plan = planned(rt.alloc(), 1000, 1, [480; 7], None)?;
    for left in REMAINS {
        for kind in [ArmKind::Cut, ArmKind::Fail] {
            for after in 1..4 {
                struck_confirm(&rt, rt.alloc(), &plan, strike(kind, after, left))?;
            }
        }
    }
    Ok(())
}

/// A complete upload is erased, struck so: it stands whole, or is gone. Erased once more, the slot is FF.
fn struck_erase(rt: &impl Abort, alloc: Global, plan: &Plan, arm: Arm) -> Result<(), Fail>
    requires { 1 ≤ arm.after }
{
    let bench = went(run(started(alloc, DEFAULT, false)?, plan))?;
    let board = board_of(erase(arm_state(bench, arm)));
    let bench = went(mount(calm(board)))?;
    let seen = look_at(&bench.state);
    let wanted = if is_through(arm, 3) {
        Seen::Idle
    } else {
        Seen::Whole(plan.announcement, true)
    };
    assert_eq!(rt; seen, wanted, "{arm:?}");
    let mut board = unmount(bench);
    let held = slot_bytes(alloc, &mut board, plan.announcement.length)?;
    assert!(rt;
        seen == Seen::Idle || held.as_slice() == plan.bytes.as_slice(),
        "{arm:?}"
    );
    let bench = went(erase(went(mount(board))?))?;
    assert_eq!(rt; look_at(&bench.state), Seen::Idle);
    let bench = went(mount(unmount(bench)))?;
    assert_eq!(rt; look_at(&bench.state), Seen::Idle);
    let mut board = unmount(bench);
    let held = slot_bytes(alloc, &mut board, 8192)?;
    assert_eq!(rt; held.len(), 8192);
    assert!(rt; held.iter().all(|byte| *byte == 0xff), "{arm:?}");
    Ok(())
}

/// Its record is an erase and two writes, and then three pages of the slot are erased.
#[test]
fn a_struck_erase_leaves_all_or_no_upload(rt: HostRuntime) -> Result<(), Fail> {
    let plan = planned(rt.alloc(), 1400, 1, [480; 7], None)?;
    for left in REMAINS {
        for kind in [ArmKind::Cut, ArmKind::Fail] {
            for after in 1..8 {
                struck_erase(&rt, rt.alloc(), &plan, strike(kind, after, left))?;
            }
        }
    }
    Ok(())
}

/// The last part of a file whose announced digest is another is struck so, which is two writes, a cell and its gate: the upload is as it was before, or gone; it is never
/// whole.
fn struck_end(rt: &impl Abort, alloc: Global, plan: &Plan, arm: Arm) -> Result<(), Fail>
    requires { 1 ≤ arm.after }
{
    let bench = went(run_to(started(alloc, DEFAULT, false)?, plan, 960))?;
    let before = look_at(&bench.state);
    assert_eq!(rt; before, Seen::Receiving(960, plan.announcement));
    let board = board_of(part(arm_state(bench, arm), plan.part(960, 480)));
    let bench = went(mount(calm(board)))?;
    let seen = look_at(&bench.state);
    let wanted = if is_through(arm, 4) {
        Seen::Idle
    } else {
        before
    };
    assert_eq!(rt; seen, wanted, "{arm:?}");
    if seen == before {
        let bench = went(part(bench, plan.part(960, 480)))?;
        assert_eq!(rt;
            (look_at(&bench.state), bench.matched),
            (Seen::Idle, Some(false))
        );
        let bench = went(mount(unmount(bench)))?;
        assert_eq!(rt; look_at(&bench.state), Seen::Idle);
    }
    Ok(())
}

#[test]
fn a_wrong_digest_is_given_up(rt: HostRuntime) -> Result<(), Fail> {
    let mut plan = planned(rt.alloc(), 1000, 1, [480; 7], None)?;
    plan.announcement.digest = Some([0; 32]);
    for left in REMAINS {
        for kind in [ArmKind::Cut, ArmKind::Fail] {
            for after in 1..8 {
                struck_end(&rt, rt.alloc(), &plan, strike(kind, after, left))?;
            }
        }
    }
    Ok(())
}

/// Two files of which each is chosen while the other is under way: what was accepted of it is then gone, and what is stored of both is
/// neither.
#[test]
fn another_upload_begins_anew(rt: HostRuntime) -> Result<(), Fail> {
    let first = planned(rt.alloc(), 928, 1, [480; 7], None)?;
    let other = planned(rt.alloc(), 728, 9, [480; 7], None)?;
    let bench = went(run_to(started(rt.alloc(), DEFAULT, false)?, &first, 480))?;
    let bench = went(run_to(bench, &other, 480))?;
    assert_eq!(rt;
        look_at(&bench.state),
        Seen::Receiving(480, other.announcement)
    );
    let bench = went(choose(bench, first.announcement))?;
    assert_eq!(rt;
        look_at(&bench.state),
        Seen::Receiving(0, first.announcement)
    );
    let bench = went(mount(unmount(bench)))?;
    assert_eq!(rt;
        look_at(&bench.state),
        Seen::Receiving(0, first.announcement)
    );
    let bench = went(part(bench, first.part(0, 480)))?;
    let bench = went(part(bench, other.part(480, 320)))?;
    assert_eq!(rt;
        look_at(&bench.state),
        Seen::Receiving(800, first.announcement)
    );
    let bench = went(part(bench, first.part(800, 200)))?;
    assert_eq!(rt;
        (look_at(&bench.state), bench.matched),
        (Seen::Idle, Some(false))
    );
    Ok(())
}

/// A complete file that is no image can't be marked; one without a digest can, where it is an image; and a slot that is pending takes no
/// other upload and is not erased.
#[test]
fn only_good_images_are_marked(rt: HostRuntime) -> Result<(), Fail> {
    let no_image = plain(rt.alloc(), 1001, 1, 300)?;
    let bench = went(run(started(rt.alloc(), DEFAULT, false)?, &no_image))?;
    assert_eq!(rt; bench.matched, None);
    assert_eq!(rt;
        look_at(&bench.state),
        Seen::Whole(no_image.announcement, false)
    );
    let board = board_of(set_pending(bench, Mark::Test));
    let bench = went(mount(board))?;
    assert_eq!(rt;
        look_at(&bench.state),
        Seen::Whole(no_image.announcement, false)
    );
    let mut plan = planned(rt.alloc(), 930, 1, [300; 7], Some(Mark::Test))?;
    plan.announcement.digest = None;
    let bench = went(run(bench, &plan))?;
    let pending = Seen::Pending(plan.announcement, Mark::Test);
    assert_eq!(rt; look_at(&bench.state), pending);
    let bench = went(mount(board_of(choose(bench, no_image.announcement))))?;
    assert_eq!(rt; look_at(&bench.state), pending);
    let bench = went(mount(board_of(erase(bench))))?;
    assert_eq!(rt; look_at(&bench.state), pending);
    Ok(())
}

/// A record of version 1: 480 of 2000 bytes are accepted, and no digest was announced.
const VERSION_ONE: [u8; 48] = [
    0x01, 0x01, 0, 0, 0, 0, 0x07, 0xd0, 0, 0, 0x01, 0xe0, 0, 0, 0, 0, 0, 0, 0, 0, 0, 0, 0, 0, 0, 0,
    0, 0, 0, 0, 0, 0, 0, 0, 0, 0, 0, 0, 0, 0, 0, 0, 0, 0, 0, 0, 0, 0,
];

/// A flash whose record is of version 1.
fn with_old_record(alloc: Global) -> Result<Board, Fail> {
    banks_fit();
    let image = make_image(alloc, &[0, 1, 2, 3, 4, 5, 6, 7], VERSION)?;
    let (mut flash, layout) = fresh(alloc, DEFAULT, false)?;
    let _ = Bank::make(&mut flash, layout.progress(), 8, &VERSION_ONE)?;
    put_image(&mut flash, &layout, image.as_slice())?;
    Ok(Board { flash, layout })
}

/// How the body begins of the record's second side.
fn second_body(board: &mut Board) -> Result<[u8; 12], FlashFault> {
    banks_fit();
    let place = board.layout.progress();
    let mut bytes = [0u8; 12];
    board.flash.read(place.second.at + 16, &mut bytes)?;
    Ok(bytes)
}

#[test]
fn an_old_record_is_found(rt: HostRuntime) -> Result<(), Fail> {
    let old = Announcement {
        length: 2000,
        digest: None,
    };
    let bench = went(mount(with_old_record(rt.alloc())?))?;
    assert_eq!(rt; look_at(&bench.state), Seen::Receiving(480, old));
    let plan = planned(rt.alloc(), 928, 1, [480; 7], None)?;
    let bench = went(choose(bench, plan.announcement))?;
    let mut board = unmount(bench);
    assert_eq!(rt;
        second_body(&mut board)?,
        [2, 1, 1, 0, 0, 0, 0x03, 0xe8, 0, 0, 0, 0]
    );
    let bench = went(mount(board))?;
    assert_eq!(rt;
        look_at(&bench.state),
        Seen::Receiving(0, plan.announcement)
    );
    Ok(())
}
