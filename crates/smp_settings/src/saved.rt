// What the bank of the saved settings holds: its body and cells, read as a map.
ghost use Rattle.std.specs.Prelude.{◌≡◌, ◌*◌, IsTrue, IsErrOf, IfOk, IfSome, true};
ghost use Rattle.smp_flash.specs.Calls.{Calls, ReadsAtMost, ChangesAtMost};
ghost use Rattle.smp_flash.specs.Layout.{geometry_of, settings_of, bank_spots};
ghost use Rattle.smp_gate.specs.Bank.{BankSays};
ghost use Rattle.smp_gate.specs.Cells.{standing};
ghost use Rattle.smp_gate.specs.Fault.{bank_end};
ghost use Rattle.smp_gate.specs.Newest.{Fits, sides};
ghost use Rattle.smp_model.specs.Settings.{is_within_limits};
ghost use Rattle.smp_settings.specs.Found.{CellsGive, HoldsBank};
ghost use Rattle.smp_settings.specs.Saved.{SavedStand, SavedReadable, opening_reads};

use crate::cell::{CELL, apply_cell};
use crate::form::read_form;
use crate::table::Table;
use arrayvec::ArrayVec;
use smp_flash::{Flash, Layout};
use smp_gate::{Bank, BankFault, bank_says_what_stands};

/// The bank of the saved settings, and the map that it gives.
#[derive(Drop)]
pub struct Found {
    pub bank: Bank,
    pub saved: Table,
}

/// Makes the changes of the first cells, one after the other. Answers whether each is lawful.
fn read_cells<F: Flash>(flash: &mut F, bank: &Bank, table: &mut Table) -> Result<bool, BankFault>
    requires place { Fits bank.now.place (F.state flash.old).geometry }
    requires sure { IsTrue bank.now.sure }
    requires long { bank.now.cell ≡ 168 }
    requires says { IfSome (F.state flash.old).bytes (BankSays bank.now) }
    requires within { is_within_limits table.old ≡ true }
    ensures calls { Calls (sides bank.now.place) (bank_end result) (F.state flash.old) (F.state flash.new) }
    ensures kept { (F.state flash.new).bytes ≡ (F.state flash.old).bytes }
    ensures reads { ReadsAtMost (168 * standing bank.now.gates) (F.state flash.old).bytes_read (F.state flash.new).bytes_read }
    ensures changes { ChangesAtMost 0 0 (F.state flash.old).changes (F.state flash.new).changes }
    ensures read { IfOk result (λ lawful. IfSome (F.state flash.new).bytes (CellsGive bank.now lawful table.old table.new)) }
    ensures within { is_within_limits table.new ≡ true }
    ensures formatted { IsErrOf result BankFault.Unformatted → ⊥ }
    ensures full { IsErrOf result BankFault.Full → ⊥ }
    ensures worn { IsErrOf result BankFault.Worn → ⊥ }
{
    let mut cell = [0u8; CELL as usize];
    for n in 0..bank.cells() {
        if let Err(fault) = bank.read_cell(flash, n, &mut cell) {
            return Err(fault);
        }
        if !apply_cell(&cell, table) {
            return Ok(false);
        }
    }
    bank_says_what_stands();
    Ok(true)
}

/// Opens the bank and reads what it gives: body and cells are read once. No byte of the flash changes.
pub fn find_saved<F: Flash>(flash: &mut F, layout: &Layout) -> Result<Found, BankFault>
    requires layout { geometry_of layout.now ≡ (F.state flash.old).geometry }
    ensures calls { Calls (bank_spots (settings_of layout.now)) (bank_end result) (F.state flash.old) (F.state flash.new) }
    ensures kept { (F.state flash.new).bytes ≡ (F.state flash.old).bytes }
    ensures reads { IfOk result (λ found. ReadsAtMost (opening_reads found.bank) (F.state flash.old).bytes_read (F.state flash.new).bytes_read) }
    ensures most_read { IfSome (F.state flash.old).bytes (λ held. ReadsAtMost 8208 (F.state flash.old).bytes_read (F.state flash.new).bytes_read) }
    ensures changes { ChangesAtMost 0 0 (F.state flash.old).changes (F.state flash.new).changes }
    ensures bank { IfOk result (λ found. HoldsBank found.bank layout.now) }
    ensures says { IfOk result (λ found. IfSome (F.state flash.new).bytes (BankSays found.bank)) }
    ensures saved { IfOk result (λ found. IfSome (F.state flash.new).bytes (SavedStand layout.now found.saved)) }
    ensures within { IfOk result (λ found. is_within_limits found.saved ≡ true) }
    ensures unformatted { IsErrOf result BankFault.Unformatted → IfSome (F.state flash.new).bytes (λ held. SavedReadable layout.now held → ⊥) }
    ensures full { IsErrOf result BankFault.Full → ⊥ }
    ensures worn { IsErrOf result BankFault.Worn → ⊥ }
{
    let mut body = ArrayVec::new();
    let bank = match Bank::open(flash, layout.settings(), CELL, &mut body) {
        Ok(bank) => bank,
        Err(fault) => return Err(fault),
    };
    let mut saved = Table::new();
    if !read_form(body.as_slice(), &mut saved) {
        return Err(BankFault::Unformatted);
    }
    match read_cells(flash, &bank, &mut saved) {
        Ok(true) => Ok(Found { bank, saved }),
        Ok(false) => Err(BankFault::Unformatted),
        Err(fault) => Err(fault),
    }
}
