// What no clause says: worked bytes, counts of operations, and sweeps over cuts with real flashes in memory.
ghost use Rattle.std.specs.Prelude.{◌≡◌, ◌+◌, ◌≤◌, ◌*◌, length, IsTrue, OnOk, IfOk, IfSome, true};
ghost use Rattle.std.specs.Option.{ForSome};
ghost use Rattle.smp_flash.specs.Geometry.{is_lawful};
ghost use Rattle.smp_flash.specs.Layout.{progress_of, geometry_of};
ghost use Rattle.smp_flash.specs.Memory.{mem_state};
ghost use Rattle.smp_gate.specs.Bank.{BankState, BankSays};
ghost use Rattle.smp_gate.specs.Newest.{Fits, Fresh};

use crate::bank::Bank;
use crate::fault::BankFault;
use arrayvec::ArrayVec;
use smp_flash::{
    Arm, ArmKind, BankPlace, Flash, Geometry, Layout, Left, MemFlash, Operation, Region,
};
use std::alloc::{AllocError, Global};
use std::process::Abort;
use std::test::Fail;

type Body = ArrayVec<u8, 4096>;

/// A body of which two pages of 512 bytes are filled.
const FIRST: [u8; 600] = [0x11; 600];

const X: [u8; 48] = [0x58; 48];

const Y: [u8; 48] = [0x59; 48];

const Z: [u8; 3] = [0x5a; 3];

fn sizes(page: u32, unit: u32) -> Geometry
    ensures { result ≡ record { page = page; unit = unit; slot_pages = 16; images = 1 } }
{
    Geometry {
        page,
        unit,
        slot_pages: 16,
        images: 1,
    }
}

/// A new flash of these sizes, and where its progress bank lies.
fn fresh(alloc: Global, sizes: Geometry) -> Result<(MemFlash, BankPlace), AllocError>
    requires { IsTrue (is_lawful sizes) }
    ensures sizes { IfOk result (λ made. (mem_state made.0).geometry ≡ sizes) }
    ensures place { IfOk result (λ made. Fits made.1 (mem_state made.0).geometry) }
    ensures erased { IfOk result (λ made. IfSome (mem_state made.0).bytes (Fresh made.1)) }
{
    let flash = MemFlash::new(alloc, sizes)?;
    let place = Layout::of(sizes).progress();
    Ok((flash, place))
}

/// Replaces the body with this arm, and switches the power on again.
fn struck(flash: &mut MemFlash, bank: &mut Bank, arm: Arm, body: &[u8]) -> Result<(), BankFault>
    requires after { 1 ≤ arm.after }
    requires body { length body.now ≤ 4080 }
    requires sure { IsTrue bank.old.sure }
    requires place { Fits bank.old.place (mem_state flash.old).geometry }
    requires says { IfSome (mem_state flash.old).bytes (BankSays bank.old) }
    ensures place { bank.new.place ≡ bank.old.place }
    ensures fits { Fits bank.old.place (mem_state flash.new).geometry }
{
    flash.arm(arm);
    let result = bank.replace(flash, body);
    flash.power_on();
    result
}

/// Replaces the body.
fn replaced(
    flash: &mut MemFlash,
    bank: &mut Bank,
    place: BankPlace,
    body: &[u8],
) -> Result<(), BankFault>
    requires body { length body.now ≤ 4080 }
    requires same { bank.old.place ≡ place }
    requires sure { IsTrue bank.old.sure }
    requires fits { Fits place (mem_state flash.old).geometry }
    requires says { IfSome (mem_state flash.old).bytes (BankSays bank.old) }
    ensures same { bank.new.place ≡ place }
    ensures fits { Fits place (mem_state flash.new).geometry }
    ensures sure { OnOk result (IsTrue bank.new.sure) }
    ensures says { OnOk result (IfSome (mem_state flash.new).bytes (BankSays bank.new)) }
{
    bank.replace(flash, body)
}

/// What `open` gives: the generation and the body.
fn opened(flash: &mut MemFlash, place: BankPlace) -> Result<(u32, Body), BankFault>
    requires { Fits place (mem_state flash.old).geometry }
{
    let mut body = Body::new();
    let bank = Bank::open(flash, place, 8, &mut body)?;
    Ok((bank.generation(), body))
}

fn cut(region: Region, after: u32, left: Left) -> Arm
    ensures { result.after ≡ after }
{
    Arm {
        kind: ArmKind::Cut,
        region,
        after,
        left,
    }
}

/// The rows of the table: what is cut in the replacement of X by Y, and what `open` then gives.
#[test]
fn a_torn_replacement_leaves_the_old_or_the_new(rt: HostRuntime) -> Result<(), Fail> {
    let rows = [
        (cut(Region::Any, 1, Left::Seed(7)), 1, X),
        (cut(Region::Any, 2, Left::Nothing), 1, X),
        (cut(Region::Any, 2, Left::Whole), 2, Y),
        (cut(Region::Any, 3, Left::Nothing), 2, Y),
    ];
    for (arm, generation, body) in rows {
        if 1 <= arm.after {
            let (mut flash, place) = fresh(rt.alloc(), sizes(512, 8))?;
            let mut bank = Bank::make(&mut flash, place, 8, &X)?;
            let went = struck(&mut flash, &mut bank, arm, &Y).is_ok();
            assert_eq!(rt; bank.is_sure(), went, "{arm:?}");
            let (found, held) = opened(&mut flash, place)?;
            assert_eq!(rt; found, generation, "{arm:?}");
            assert_eq!(rt; held.as_slice(), body.as_slice(), "{arm:?}");
        }
    }
    Ok(())
}

/// A further replacement is cut in the erase that begins it: the side that was replaced stays.
#[test]
fn a_torn_erase_keeps_the_newest_side(rt: HostRuntime) -> Result<(), Fail> {
    let (mut flash, place) = fresh(rt.alloc(), sizes(512, 8))?;
    let mut bank = Bank::make(&mut flash, place, 8, &X)?;
    bank.replace(&mut flash, &Y)?;
    let result = struck(
        &mut flash,
        &mut bank,
        cut(Region::Any, 1, Left::Seed(9)),
        &Z,
    );
    assert_eq!(rt; result, Err(BankFault::Off));
    let (found, held) = opened(&mut flash, place)?;
    assert_eq!(rt; found, 2);
    assert_eq!(rt; held.as_slice(), Y.as_slice());
    Ok(())
}

/// A replacement of a clean side is two writes; of one with two filled pages, two erases more. `open` reads each head, the
/// newest body and its 252 free cells, once. A cell is two writes, and is opened by its gate.
#[test]
fn operations_are_those_that_are_needed(rt: HostRuntime) -> Result<(), Fail> {
    let (mut flash, place) = fresh(rt.alloc(), sizes(512, 8))?;
    let mut bank = Bank::make(&mut flash, place, 8, &FIRST)?;
    assert_eq!(rt; (flash.changes(), flash.read_bytes()), (2, 0));
    replaced(&mut flash, &mut bank, place, &X)?;
    assert_eq!(rt; (flash.changes(), flash.read_bytes()), (4, 4096));
    replaced(&mut flash, &mut bank, place, &Y)?;
    assert_eq!(rt; (flash.changes(), flash.read_bytes()), (8, 8192));
    let (generation, held) = opened(&mut flash, place)?;
    assert_eq!(rt; (generation, held.as_slice()), (3, Y.as_slice()));
    assert_eq!(rt;
        (flash.changes(), flash.read_bytes()),
        (8, 8192 + 32 + 48 + 252 * 16)
    );
    Ok(())
}

/// Opens the bank, and asserts what it holds.
fn checked(
    rt: &impl Abort,
    flash: &mut MemFlash,
    place: BankPlace,
    holds: (u32, &[u8]),
) -> Result<Bank, Fail>
    requires { Fits place (mem_state flash.old).geometry }
    ensures fits { Fits place (mem_state flash.new).geometry }
    ensures place { IfOk result (λ bank. bank.place ≡ place) }
    ensures cell { IfOk result (λ bank. bank.cell ≡ 8) }
    ensures sure { IfOk result (λ bank. IsTrue bank.sure) }
    ensures says { IfOk result (λ bank. IfSome (mem_state flash.new).bytes (BankSays bank)) }
{
    let mut held = Body::new();
    match Bank::open(flash, place, 8, &mut held) {
        Ok(bank) => {
            assert_eq!(rt; bank.generation(), holds.0);
            assert_eq!(rt; held.as_slice(), holds.1);
            Ok(bank)
        }
        Err(fault) => Err(Fail::from(fault)),
    }
}

/// A replacement with this arm, after which the bank holds this.
fn cut_and_checked(
    rt: &impl Abort,
    flash: &mut MemFlash,
    place: BankPlace,
    arm: Arm,
    body: &[u8],
    holds: (u32, &[u8]),
    bank: &mut Bank,
) -> Result<Bank, Fail>
    requires after { 1 ≤ arm.after }
    requires body { length body.now ≤ 4080 }
    requires same { bank.old.place ≡ place }
    requires sure { IsTrue bank.old.sure }
    requires fits { Fits place (mem_state flash.old).geometry }
    requires says { IfSome (mem_state flash.old).bytes (BankSays bank.old) }
    ensures fits { Fits place (mem_state flash.new).geometry }
    ensures place { IfOk result (λ bank. bank.place ≡ place) }
    ensures sure { IfOk result (λ bank. IsTrue bank.sure) }
    ensures says { IfOk result (λ bank. IfSome (mem_state flash.new).bytes (BankSays bank)) }
{
    let _ = struck(flash, bank, arm, body);
    checked(rt, flash, place, holds)
}

/// Whether the replacement of X by Y reached its end, by the operation that was cut: with pages of 512 bytes it is two
/// erases, the body and the gate; with one page a side, one erase less.
fn is_renewed(page: u32, after: u32, left: Left) -> bool {
    let gate = if page == 512 { 4 } else { 3 };
    gate < after || (gate == after && left == Left::Whole)
}

/// X stands with generation 2 over a side of which 600 bytes are filled, and its replacement by Y is cut at the
/// operation of this number. What stands then is replaced by Z, which is cut at its first operation, and then at its
/// gate.
fn cut_and_cut_again(
    rt: &impl Abort,
    alloc: Global,
    sizes: Geometry,
    after: u32,
    left: Left,
) -> Result<(), Fail>
    requires lawful { IsTrue (is_lawful sizes) }
    requires after { 1 ≤ after }
{
    let (mut flash, place) = fresh(alloc, sizes)?;
    let mut bank = Bank::make(&mut flash, place, 8, &FIRST)?;
    bank.replace(&mut flash, &X)?;
    let holds = if is_renewed(sizes.page, after, left) {
        (3, Y.as_slice())
    } else {
        (2, X.as_slice())
    };
    let first = cut(Region::Any, after, left);
    let mut bank = cut_and_checked(rt, &mut flash, place, first, &Y, holds, &mut bank)?;
    let again = cut(Region::Any, 1, left);
    let mut bank = cut_and_checked(rt, &mut flash, place, again, &Z, holds, &mut bank)?;
    let last = if left == Left::Whole {
        (holds.0.saturating_add(1), Z.as_slice())
    } else {
        holds
    };
    let gate = cut(Region::ProgressGate, 1, left);
    let _ = cut_and_checked(rt, &mut flash, place, gate, &Z, last, &mut bank)?;
    Ok(())
}

/// Each operation of the replacement, and one past its last.
fn cut_at_each_operation(
    rt: &impl Abort,
    alloc: Global,
    sizes: Geometry,
    left: Left,
) -> Result<(), Fail>
    requires { IsTrue (is_lawful sizes) }
{
    for after in 1..6 {
        cut_and_cut_again(rt, alloc, sizes, after, left)?;
    }
    Ok(())
}

/// Nothing, the whole, and what eight seeds give.
fn cut_with_each_rest(rt: &impl Abort, alloc: Global, sizes: Geometry) -> Result<(), Fail>
    requires { IsTrue (is_lawful sizes) }
{
    cut_at_each_operation(rt, alloc, sizes, Left::Nothing)?;
    cut_at_each_operation(rt, alloc, sizes, Left::Whole)?;
    for seed in 1..9 {
        cut_at_each_operation(rt, alloc, sizes, Left::Seed(seed))?;
    }
    Ok(())
}

#[test]
fn every_cut_leaves_the_old_or_the_new(rt: HostRuntime) -> Result<(), Fail> {
    cut_with_each_rest(&rt, rt.alloc(), sizes(512, 1))?;
    cut_with_each_rest(&rt, rt.alloc(), sizes(512, 8))?;
    cut_with_each_rest(&rt, rt.alloc(), sizes(4096, 1))?;
    cut_with_each_rest(&rt, rt.alloc(), sizes(4096, 8))?;
    Ok(())
}

const CELLS: [[u8; 8]; 3] = [[0xa1; 8], [0xff; 8], [0xc3; 8]];

/// Arms the flash, where there is an arm.
fn arm_with(flash: &mut MemFlash, arm: Option<Arm>)
    requires { ForSome arm (λ arm. 1 ≤ arm.after) }
    ensures bytes { (mem_state flash.new).bytes ≡ (mem_state flash.old).bytes }
    ensures geometry { (mem_state flash.new).geometry ≡ (mem_state flash.old).geometry }
{
    if let Some(arm) = arm {
        flash.arm(arm);
    }
}

/// Appends a cell with this arm, and opens the bank once the power is on. It has so many cells then, and this was the answer.
fn append_and_check(
    rt: &impl Abort,
    flash: &mut MemFlash,
    place: BankPlace,
    bank: &mut Bank,
    step: (Option<Arm>, [u8; 8], u32, Result<(), BankFault>),
) -> Result<Bank, Fail>
    requires after { ForSome step.0 (λ arm. 1 ≤ arm.after) }
    requires same { bank.old.place ≡ place }
    requires cell { bank.old.cell ≡ 8 }
    requires sure { IsTrue bank.old.sure }
    requires fits { Fits place (mem_state flash.old).geometry }
    requires says { IfSome (mem_state flash.old).bytes (BankSays bank.old) }
    ensures fits { Fits place (mem_state flash.new).geometry }
    ensures place { IfOk result (λ bank. bank.place ≡ place) }
    ensures cell { IfOk result (λ bank. bank.cell ≡ 8) }
    ensures sure { IfOk result (λ bank. IsTrue bank.sure) }
    ensures says { IfOk result (λ bank. IfSome (mem_state flash.new).bytes (BankSays bank)) }
{
    let (arm, cell, cells, answer) = step;
    arm_with(flash, arm);
    let went = bank.append(flash, &cell);
    flash.power_on();
    let bank = checked(rt, flash, place, (1, X.as_slice()))?;
    assert_eq!(rt; bank.cells(), cells, "{arm:?}");
    assert_eq!(rt; went, answer, "{arm:?}");
    Ok(bank)
}

/// Whether the bank holds this cell of this number.
fn has_cell(flash: &mut MemFlash, bank: &Bank, n: u32, cell: [u8; 8]) -> Result<bool, BankFault>
    requires cell { bank.now.cell ≡ 8 }
    requires sure { IsTrue bank.now.sure }
    requires fits { Fits bank.now.place (mem_state flash.old).geometry }
    requires says { IfSome (mem_state flash.old).bytes (BankSays bank.now) }
    ensures fits { Fits bank.now.place (mem_state flash.new).geometry }
    ensures says { IfSome (mem_state flash.new).bytes (BankSays bank.now) }
{
    if n >= bank.cells() {
        return Ok(false);
    }
    let mut held = [0u8; 8];
    bank.read_cell(flash, n, &mut held)?;
    Ok(held == cell)
}

/// What `append` answers with this arm, where a cell is free: it is two writes.
fn answer_of(arm: Arm) -> Result<(), BankFault> {
    if arm.after > 2 {
        return Ok(());
    }
    match arm.kind {
        ArmKind::Cut => Err(BankFault::Off),
        ArmKind::Fail => Err(BankFault::Fault(Operation::Write)),
        ArmKind::Read => Ok(()),
    }
}

/// A cell, one that is cut, and one more, which stands behind the first, and behind the second where its gate was written.
fn cut_in_a_cell(
    rt: &impl Abort,
    alloc: Global,
    after: u32,
    left: Left,
    stands: bool,
) -> Result<(), Fail>
    requires { 1 ≤ after }
{
    let [first, second, third] = CELLS;
    let (two, all) = if stands { (2, 3) } else { (1, 2) };
    let (mut flash, place) = fresh(alloc, sizes(512, 8))?;
    let mut bank = Bank::make(&mut flash, place, 8, &X)?;
    let mut bank = append_and_check(rt, &mut flash, place, &mut bank, (None, first, 1, Ok(())))?;
    let arm = cut(Region::Progress, after, left);
    let step = (Some(arm), second, two, answer_of(arm));
    let mut bank = append_and_check(rt, &mut flash, place, &mut bank, step)?;
    let elsewhere = Some(cut(Region::Scratch, 1, Left::Nothing));
    let step = (elsewhere, third, all, Ok(()));
    let bank = append_and_check(rt, &mut flash, place, &mut bank, step)?;
    let has_last = has_cell(&mut flash, &bank, two, third)?;
    assert!(rt; has_last, "{arm:?}");
    Ok(())
}

#[test]
fn a_torn_cell_is_skipped_or_stands(rt: HostRuntime) -> Result<(), Fail> {
    let rows = [
        (1, Left::Nothing, false),
        (1, Left::Whole, false),
        (1, Left::Seed(7), false),
        (2, Left::Nothing, false),
        (2, Left::Whole, true),
        (2, Left::Seed(9), false),
        (3, Left::Nothing, true),
    ];
    for (after, left, stands) in rows {
        if 1 <= after {
            cut_in_a_cell(&rt, rt.alloc(), after, left, stands)?;
        }
    }
    Ok(())
}

/// How many cells of 8 bytes a side has behind a body of 48.
const PLACES: u32 = 252;

/// Cells that were begun on a side: how many count, and how many places are used.
#[derive(Clone, Copy, Debug, PartialEq, Eq)]
struct Begun {
    cells: u32,
    used: u32,
}

/// What becomes of the places where the operation of this number is struck, the cell's or its gate's: with a gate the cell
/// counts; a place that holds nothing but FF is still free; and any other is used and doesn't count.
fn begun_after(begun: Begun, arm: Arm) -> Begun {
    if arm.after > 2 || arm.after == 2 && arm.left == Left::Whole {
        return Begun {
            cells: begun.cells.saturating_add(1),
            used: begun.used.saturating_add(1),
        };
    }
    if arm.after == 1 && arm.left == Left::Nothing {
        return begun;
    }
    Begun {
        cells: begun.cells,
        used: begun.used.saturating_add(1),
    }
}

/// What one cell more makes of it, and what is answered.
fn one_more(begun: Begun) -> (Begun, Result<(), BankFault>) {
    if begun.used >= PLACES {
        return (begun, Err(BankFault::Full));
    }
    let more = Begun {
        cells: begun.cells.saturating_add(1),
        used: begun.used.saturating_add(1),
    };
    (more, Ok(()))
}

/// The bytes of the next cell: its number.
fn numbered(begun: Begun) -> [u8; 8] {
    [(begun.cells & 0xff) as u8; 8]
}

/// Whether each cell of the bank holds its number.
fn are_numbered(flash: &mut MemFlash, bank: &Bank) -> Result<bool, BankFault>
    requires cell { bank.now.cell ≡ 8 }
    requires sure { IsTrue bank.now.sure }
    requires fits { Fits bank.now.place (mem_state flash.old).geometry }
    requires says { IfSome (mem_state flash.old).bytes (BankSays bank.now) }
    ensures fits { Fits bank.now.place (mem_state flash.new).geometry }
    ensures says { IfSome (mem_state flash.new).bytes (BankSays bank.now) }
{
    for n in 0..bank.cells() {
        if !has_cell(flash, bank, n, [(n & 0xff) as u8; 8])? {
            return Ok(false);
        }
    }
    Ok(true)
}

/// Appends a cell with this arm, and one more without, which is refused where no place is free any more.
fn append_struck(
    rt: &impl Abort,
    flash: &mut MemFlash,
    place: BankPlace,
    bank: &mut Bank,
    arm: Arm,
    begun: Begun,
) -> Result<(Bank, Begun), Fail>
    requires after { 1 ≤ arm.after }
    requires same { bank.old.place ≡ place }
    requires cell { bank.old.cell ≡ 8 }
    requires sure { IsTrue bank.old.sure }
    requires fits { Fits place (mem_state flash.old).geometry }
    requires says { IfSome (mem_state flash.old).bytes (BankSays bank.old) }
    ensures fits { Fits place (mem_state flash.new).geometry }
    ensures place { IfOk result (λ made. made.0.place ≡ place) }
    ensures cell { IfOk result (λ made. made.0.cell ≡ 8) }
    ensures sure { IfOk result (λ made. IsTrue made.0.sure) }
    ensures says { IfOk result (λ made. IfSome (mem_state flash.new).bytes (BankSays made.0)) }
{
    let struck = begun_after(begun, arm);
    let step = (Some(arm), numbered(begun), struck.cells, answer_of(arm));
    let mut bank = append_and_check(rt, flash, place, bank, step)?;
    let (whole, answer) = one_more(struck);
    let step = (None, numbered(struck), whole.cells, answer);
    let bank = append_and_check(rt, flash, place, &mut bank, step)?;
    Ok((bank, whole))
}

/// Fills a side with cells: one that is struck so, and one that is not, in so many turns. Then no place is free, so many cells
/// count, and each of these holds its number.
fn fill_struck(
    rt: &impl Abort,
    alloc: Global,
    sizes: Geometry,
    arm: Arm,
    turns: u32,
    cells: u32,
) -> Result<(), Fail>
    requires lawful { IsTrue (is_lawful sizes) }
    requires after { 1 ≤ arm.after }
{
    let (mut flash, place) = fresh(alloc, sizes)?;
    let mut bank = Bank::make(&mut flash, place, 8, &X)?;
    let mut begun = Begun { cells: 0, used: 0 };
    for _ in 0..turns {
        let (next, counts) = append_struck(rt, &mut flash, place, &mut bank, arm, begun)?;
        bank = next;
        begun = counts;
    }
    assert_eq!(rt; (begun.used, begun.cells), (PLACES, cells), "{arm:?}");
    assert!(rt; are_numbered(&mut flash, &bank)?, "{arm:?}");
    assert_eq!(rt;
        bank.append(&mut flash, &[0; 8]),
        Err(BankFault::Full),
        "{arm:?}"
    );
    Ok(())
}

/// Each operation of `append` is cut and fails, behind each number of cells, up to a side with 252.
#[test]
fn a_struck_cell_takes_at_most_its_place(rt: HostRuntime) -> Result<(), Fail> {
    let rows = [
        (1, Left::Nothing, 252, 252),
        (1, Left::Whole, 126, 126),
        (1, Left::Seed(7), 126, 126),
        (2, Left::Nothing, 126, 126),
        (2, Left::Whole, 126, 252),
        (2, Left::Seed(9), 126, 126),
    ];
    for (after, left, turns, cells) in rows {
        for kind in [ArmKind::Cut, ArmKind::Fail] {
            if 1 <= after {
                let arm = Arm {
                    kind,
                    region: Region::Progress,
                    after,
                    left,
                };
                fill_struck(&rt, rt.alloc(), sizes(512, 8), arm, turns, cells)?;
                fill_struck(&rt, rt.alloc(), sizes(4096, 1), arm, turns, cells)?;
            }
        }
    }
    Ok(())
}

/// A body with room for one cell: the second is refused, before any operation.
#[test]
fn a_full_side_takes_no_cell(rt: HostRuntime) -> Result<(), Fail> {
    let large = [0x33u8; 4056];
    let (mut flash, place) = fresh(rt.alloc(), sizes(4096, 8))?;
    let mut bank = Bank::make(&mut flash, place, 5, &large)?;
    bank.append(&mut flash, b"first")?;
    let before = (flash.changes(), flash.read_bytes());
    assert_eq!(rt; bank.append(&mut flash, b"other"), Err(BankFault::Full));
    assert_eq!(rt; (flash.changes(), flash.read_bytes()), before);
    assert_eq!(rt; (before, bank.cells(), bank.is_sure()), ((4, 0), 1, true));
    Ok(())
}

const ERASED: [u8; 19] = [0xff; 19];

/// A gate, a head of these bytes, and a body of three times this letter.
fn side(generation: [u8; 5], length: [u8; 2], last: u8, letter: u8) -> [u8; 19] {
    let [a, b, c, d, e] = generation;
    let [m, n] = length;
    let x = letter;
    [
        0x47, 0x41, 0x54, 0x45, 0x47, 0x41, 0x54, 0x45, a, b, c, d, e, m, n, last, x, x, x,
    ]
}

/// A side of this generation, at most 127.
fn plain(generation: u8, letter: u8) -> [u8; 19] {
    side([0, 0, 0, 0, generation], [0, 3], 1, letter)
}

/// A flash of write unit 1 whose sides begin with these bytes.
fn laid(alloc: Global, first: &[u8], second: &[u8]) -> Result<(MemFlash, BankPlace), Fail>
    requires first { length first.now ≤ 4096 }
    requires second { length second.now ≤ 4096 }
    ensures place { IfOk result (λ made. Fits made.1 (mem_state made.0).geometry) }
{
    let (mut flash, place) = fresh(alloc, sizes(512, 1))?;
    flash.write(place.first.at, first)?;
    flash.write(place.second.at, second)?;
    Ok((flash, place))
}

/// The generation, the body's length and its first byte that `open` gives.
fn found(flash: &mut MemFlash, place: BankPlace) -> Option<(u32, usize, u8)>
    requires { Fits place (mem_state flash.old).geometry }
{
    match opened(flash, place) {
        Ok((generation, body)) => Some((
            generation,
            body.len(),
            body.first().copied().unwrap_or(0),
        )),
        Err(_) => None,
    }
}

#[test]
fn a_side_is_valid_by_the_table(rt: HostRuntime) -> Result<(), Fail> {
    let rows = [
        (ERASED, ERASED, None),
        (plain(5, 0x61), plain(5, 0x78), Some((5, 3, 0x61))),
        (plain(5, 0x61), plain(6, 0x78), Some((6, 3, 0x78))),
        (plain(6, 0x61), plain(5, 0x78), Some((6, 3, 0x61))),
        (ERASED, plain(1, 0x78), Some((1, 3, 0x78))),
        (plain(0, 0x61), ERASED, None),
        (side([0x80, 0, 0, 0, 5], [0, 3], 1, 0x61), ERASED, None),
        (side([0x10, 0, 0, 0, 0], [0, 3], 1, 0x61), ERASED, None),
        (
            side([0x0f, 0x7f, 0x7f, 0x7f, 0x7f], [0, 3], 1, 0x61),
            ERASED,
            Some((u32::MAX, 3, 0x61)),
        ),
        (
            side([0, 0, 0, 0, 5], [0, 3], 2, 0x61),
            plain(4, 0x78),
            Some((4, 3, 0x78)),
        ),
        (side([0, 0, 0, 0, 5], [0x1f, 0x71], 1, 0x61), ERASED, None),
        (
            side([0, 0, 0, 0, 5], [0x1f, 0x70], 1, 0x61),
            ERASED,
            Some((5, 4080, 0x61)),
        ),
        (
            side([0, 0, 0, 0, 5], [0, 0], 1, 0x61),
            ERASED,
            Some((5, 0, 0)),
        ),
    ];
    for (first, second, holds) in rows {
        let (mut flash, place) = laid(rt.alloc(), &first, &second)?;
        assert_eq!(rt; found(&mut flash, place), holds, "{first:?} {second:?}");
    }
    Ok(())
}

#[test]
fn sides_of_zeros_are_not_valid(rt: HostRuntime) -> Result<(), Fail> {
    let zeros = [0u8; 4096];
    let (mut flash, place) = laid(rt.alloc(), &zeros, &zeros)?;
    assert_eq!(rt; found(&mut flash, place), None);
    Ok(())
}

#[test]
fn a_worn_bank_stays_as_it_is(rt: HostRuntime) -> Result<(), Fail> {
    let last = side([0x0f, 0x7f, 0x7f, 0x7f, 0x7f], [0, 3], 1, 0x61);
    let (mut flash, place) = laid(rt.alloc(), &last, &ERASED)?;
    let mut bank = checked(&rt, &mut flash, place, (u32::MAX, b"aaa".as_slice()))?;
    let changes = flash.changes();
    assert_eq!(rt; bank.replace(&mut flash, &X), Err(BankFault::Worn));
    assert!(rt; bank.is_sure());
    assert_eq!(rt; flash.changes(), changes);
    let _ = checked(&rt, &mut flash, place, (u32::MAX, b"aaa".as_slice()))?;
    Ok(())
}

/// A failing operation is passed on as what it is: the erase, the two writes, and a read.
#[test]
fn faults_are_passed_on(rt: HostRuntime) -> Result<(), Fail> {
    let rows = [
        (ArmKind::Fail, 1, Operation::Erase),
        (ArmKind::Fail, 2, Operation::Write),
        (ArmKind::Fail, 3, Operation::Write),
        (ArmKind::Read, 8, Operation::Read),
    ];
    for (kind, after, operation) in rows {
        let (mut flash, place) = fresh(rt.alloc(), sizes(512, 8))?;
        let mut bank = Bank::make(&mut flash, place, 8, &X)?;
        bank.replace(&mut flash, &Y)?;
        let arm = Arm {
            kind,
            region: Region::Progress,
            after,
            left: Left::Nothing,
        };
        if 1 <= arm.after {
            let result = struck(&mut flash, &mut bank, arm, &Z);
            assert_eq!(rt; result, Err(BankFault::Fault(operation)));
            assert!(rt; !bank.is_sure());
            let _ = checked(&rt, &mut flash, place, (2, Y.as_slice()))?;
        }
    }
    Ok(())
}
