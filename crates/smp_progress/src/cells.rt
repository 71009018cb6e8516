// The cells behind a record: their bytes, and what each makes of the record.
ghost use Rattle.std.specs.Prelude.{◌≡◌, ◌↔◌, ◌⊎◌, ◌+◌, ◌*◌, ◌<◌, ◌≤◌, ◌∷◌, [], length, true, false, IsTrue, IsErrOf, OnOk, IfOk, IfSome, ℕ, List, None};
ghost use Rattle.std.specs.Option.{ForSome};
ghost use Rattle.smp_flash.specs.Calls.{Calls, ReadsAtMost, ChangesAtMost};
ghost use Rattle.smp_flash.specs.Layout.{geometry_of, progress_of};
ghost use Rattle.smp_gate.specs.Bank.{BankSays};
ghost use Rattle.smp_gate.specs.Cells.{standing};
ghost use Rattle.smp_gate.specs.Fault.{bank_end};
ghost use Rattle.smp_gate.specs.Newest.{sides};
ghost use Rattle.smp_progress.specs.Cells.{cell_bytes, entry_cell, After, IsCell, CellMakes, CellHeld, NoCellHeld, CellsGive, NoCellsGive, equal_digests, same_announcement, continues};
ghost use Rattle.smp_progress.specs.Record.{IsRecord};
ghost use Rattle.smp_progress.specs.declared.record.Record.{Record as Recorded};

use crate::record::{Record, kind_byte, may_stand, number_at};
use smp_flash::{Flash, Layout};
use smp_gate::{Bank, BankFault, bank_says_what_stands, banks_fit};
use smp_model::Announcement;

/// The bytes of a cell.
fn cell_of(offset: u32, rescue: bool) -> [u8; 8]
    ensures { result ≡ cell_bytes rescue offset }
{
    let [a, b, c, d] = offset.to_be_bytes();
    [kind_byte(rescue), 0, 0, 0, a, b, c, d]
}

fn is_same_digest(one: &Option<[u8; 32]>, other: &Option<[u8; 32]>) -> bool
    ensures { result ≡ equal_digests one.now other.now }
{
    match (one, other) {
        (None, None) => true,
        (Some(first), Some(second)) => *first == *second,
        _ => false,
    }
}

fn is_same(one: &Announcement, other: &Announcement) -> bool
    ensures { result ≡ same_announcement one.now other.now }
{
    one.length == other.length && is_same_digest(&one.digest, &other.digest)
}

/// Whether both are uploads with one announcement.
fn is_continued(old: &Record, new: &Record) -> bool
    ensures { result ≡ continues old.now new.now }
{
    match old {
        Record::None => false,
        Record::Upload {
            announcement: first,
            ..
        } => match new {
            Record::None => false,
            Record::Upload {
                announcement: second,
                ..
            } => is_same(first, second),
        },
    }
}

/// The cell that gives the new record behind the old one: `None` exactly where these aren't uploads with one announcement.
pub fn cell_for(old: &Record, new: &Record) -> Option<[u8; 8]>
    ensures some { ForSome result (λ cell. (continues old.now new.now ≡ true) × (cell ≡ entry_cell new.now)) }
    ensures none { result ≡ None → continues old.now new.now ≡ false }
{
    if !is_continued(old, new) {
        return None;
    }
    match new {
        Record::None => None,
        Record::Upload { offset, rescue, .. } => Some(cell_of(*offset, *rescue)),
    }
}

/// Whether these are the bytes of a cell with this offset and kind.
fn is_cell(cell: &[u8], offset: u32, rescue: bool) -> bool
    ensures { IsTrue result ↔ (cell.now ≡ cell_bytes rescue offset) }
{
    let bytes = cell_of(offset, rescue);
    cell == bytes.as_slice()
}

/// The record that a cell makes of an upload with this announcement: `None` exactly where it may not stand there.
fn upload_after(layout: &Layout, announcement: Announcement, cell: &[u8]) -> Option<Record>
    requires { length cell.now ≡ 8 }
    ensures some { ForSome result (CellMakes (geometry_of layout.now) announcement cell.now) }
    ensures lawful { ForSome result (IsRecord (geometry_of layout.now)) }
    ensures none { result ≡ None → IsCell (geometry_of layout.now) announcement cell.now → ⊥ }
{
    let offset = number_at(cell, 4);
    let rescue = cell[0] == 2;
    if !is_cell(cell, offset, rescue) {
        return None;
    }
    if !may_stand(layout, announcement, offset, rescue) {
        return None;
    }
    Some(Record::Upload {
        announcement,
        offset,
        rescue,
    })
}

/// The record that a cell makes of the one before it: `None` exactly where it may not stand there.
fn record_after(layout: &Layout, last: &Record, cell: &[u8]) -> Option<Record>
    requires { length cell.now ≡ 8 }
    ensures some { ForSome result (After (geometry_of layout.now) last.now (cell.now ∷ [])) }
    ensures lawful { ForSome result (IsRecord (geometry_of layout.now)) }
    ensures none { result ≡ None → (next : Recorded) → After (geometry_of layout.now) last.now (cell.now ∷ []) next → ⊥ }
{
    match last {
        Record::None => None,
        Record::Upload { announcement, .. } => upload_after(layout, *announcement, cell),
    }
}

/// Reads the cell of number `n`, and finds the record that it makes of the one before it.
fn next_record<F: Flash>(
    bank: &Bank,
    flash: &mut F,
    layout: &Layout,
    n: u32,
    last: &Record,
) -> Result<Record, BankFault>
    requires sizes { geometry_of layout.now ≡ (F.state flash.old).geometry }
    requires place { bank.now.place ≡ progress_of layout.now }
    requires cell { bank.now.cell ≡ 8 }
    requires sure { IsTrue bank.now.sure }
    requires some { n < standing bank.now.gates }
    requires says { IfSome (F.state flash.old).bytes (BankSays bank.now) }
    ensures calls { Calls (sides (progress_of layout.now)) (bank_end result) (F.state flash.old) (F.state flash.new) }
    ensures kept { (F.state flash.new).bytes ≡ (F.state flash.old).bytes }
    ensures reads { ReadsAtMost 8 (F.state flash.old).bytes_read (F.state flash.new).bytes_read }
    ensures changes { ChangesAtMost 0 0 (F.state flash.old).changes (F.state flash.new).changes }
    ensures lawful { IfOk result (IsRecord (geometry_of layout.now)) }
    ensures gives { IfOk result (λ next. IfSome (F.state flash.old).bytes (CellHeld layout.now last.now n next)) }
    ensures unformatted { IsErrOf result BankFault.Unformatted → IfSome (F.state flash.old).bytes (NoCellHeld layout.now last.now n) }
    ensures full { IsErrOf result BankFault.Full → ⊥ }
    ensures worn { IsErrOf result BankFault.Worn → ⊥ }
{
    banks_fit();
    let mut cell = [0u8; 8];
    match bank.read_cell(flash, n, &mut cell) {
        Err(fault) => Err(fault),
        Ok(()) => match record_after(layout, last, &cell) {
            None => Err(BankFault::Unformatted),
            Some(next) => Ok(next),
        },
    }
}

/// Reads the cells behind a record's body, and finds the record that they make of it. A cell that may not stand there is
/// answered by `Unformatted`.
pub fn after_cells<F: Flash>(
    bank: &Bank,
    flash: &mut F,
    layout: &Layout,
    first: &Record,
) -> Result<Record, BankFault>
    requires sizes { geometry_of layout.now ≡ (F.state flash.old).geometry }
    requires place { bank.now.place ≡ progress_of layout.now }
    requires cell { bank.now.cell ≡ 8 }
    requires sure { IsTrue bank.now.sure }
    requires lawful { IsRecord (geometry_of layout.now) first.now }
    requires says { IfSome (F.state flash.old).bytes (BankSays bank.now) }
    ensures calls { Calls (sides (progress_of layout.now)) (bank_end result) (F.state flash.old) (F.state flash.new) }
    ensures kept { (F.state flash.new).bytes ≡ (F.state flash.old).bytes }
    ensures reads { ReadsAtMost (8 * standing bank.now.gates) (F.state flash.old).bytes_read (F.state flash.new).bytes_read }
    ensures changes { ChangesAtMost 0 0 (F.state flash.old).changes (F.state flash.new).changes }
    ensures lawful { IfOk result (IsRecord (geometry_of layout.now)) }
    ensures gives { IfOk result (λ last. IfSome (F.state flash.old).bytes (CellsGive layout.now first.now last)) }
    ensures unformatted { IsErrOf result BankFault.Unformatted → IfSome (F.state flash.old).bytes (NoCellsGive layout.now first.now) }
    ensures full { IsErrOf result BankFault.Full → ⊥ }
    ensures worn { IsErrOf result BankFault.Worn → ⊥ }
{
    bank_says_what_stands();
    let mut last = *first;
    let count = bank.cells();
    for n in 0..count {
        match next_record(bank, flash, layout, n, &last) {
            Ok(next) => last = next,
            Err(fault) => return Err(fault),
        }
    }
    Ok(last)
}
