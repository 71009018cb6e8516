// A bank of two sides.
ghost use Rattle.std.specs.Prelude.{◌≡◌, ◌⊎◌, ◌↔◌, ◌+◌, ◌-◌, ◌*◌, ◌/◌, ◌^◌, ◌<◌, ◌≤◌, ◌%◌, length, true, false, [], Some, None, IsTrue, IsErrOf, OnOk, OnErr, IfOk, IfSome};
ghost use Rattle.smp_flash.specs.Area.{area, dirty_pages, spot, Keeps, Told};
ghost use Rattle.smp_flash.specs.Calls.{Calls, ReadsAtMost, ChangesAtMost, Smaller};
ghost use Rattle.smp_flash.specs.Geometry.{size_of};
ghost use Rattle.smp_flash.specs.Layout.{CountsInBank};
ghost use Rattle.smp_flash.specs.State.{ended};
ghost use Rattle.smp_gate.specs.Bank.{BankState, BankSays, current, other, next_cell};
ghost use Rattle.smp_gate.specs.Cells.{filled, filled_cell, span, places, standing, place_of, gate_reads};
ghost use Rattle.smp_gate.specs.Fault.{bank_end, after_replace, after_append};
ghost use Rattle.smp_gate.specs.Newest.{Fits, Fresh, sides, newest_side, content_of, just, HasBody, HasCell, newest_generation, AgesAtMost, OldOrNew, SameOrThis, Added, SameOrAdded, SameNewest, IsFull, SameSide};
ghost use Rattle.smp_gate.specs.Side.{whole_side};

use crate::cells::{Gates, add_cell, cell_at, places};
use crate::fault::{BankFault, passed_on};
use crate::opening::{choose_side, find_cells, read_body};
use crate::steps::{fill, renew};
use arrayvec::ArrayVec;
use smp_flash::{BankPlace, Flash, SIDE, read_part, sizes_of};
use std::marker::Model;

/// Where the newest side begins, by whether it is the second.
fn current_side(place: &BankPlace, second: bool) -> u32
    ensures { result ≡ current place.now second }
{
    if second {
        place.second.at
    } else {
        place.first.at
    }
}

/// Where the other side begins.
fn other_side(place: &BankPlace, second: bool) -> u32
    ensures { result ≡ other place.now second }
{
    if second {
        place.first.at
    } else {
        place.second.at
    }
}

/// How many gates stand.
fn count_standing(gates: &[bool]) -> u32
    requires { length gates.now ≤ 255 }
    ensures { result ≡ standing gates.now }
{
    let mut count = 0u32;
    for i in 0..gates.len() {
        if gates[i] {
            count += 1;
        }
    }
    count
}

/// Which of the gates is the one of number `n` among those that stand.
fn index_of(gates: &[bool], n: u32) -> u32
    requires few { length gates.now ≤ 255 }
    requires there { n < standing gates.now }
    ensures place { result ≡ place_of n gates.now }
    ensures low { result < length gates.now }
{
    let mut before = 0u32;
    for i in 0..gates.len() {
        if gates[i] {
            if before == n {
                return i as u32;
            }
            before += 1;
        }
    }
    0
}

/// A bank: where its sides lie, the length of its cells, which side is the newest, of which generation, the length of its
/// body, and for each cell that was begun whether its gate stands.
///
/// The value speaks of one flash. Between its calls, other calls may change that flash outside the two sides.
#[derive(Drop)]
pub struct Bank {
    place: BankPlace,
    cell: u32,
    second: bool,
    generation: u32,
    size: u32,
    gates: Gates,
    sure: bool,
}

impl Model for Bank {
    ghost use Rattle.std.specs.Prelude.{◌≤◌, length};
    ghost use Rattle.smp_gate.specs.Bank.{BankState};
    ghost use Rattle.smp_gate.specs.Cells.{places};

    ghost Value = { BankState };

    ghost view = { λ bank. record { place = bank.place; cell = bank.cell; second = bank.second; generation = bank.generation; size = bank.size; gates = bank.gates.items; sure = bank.sure } };

    ghost invariant = { λ bank. (1 ≤ bank.cell) × (bank.cell ≤ 4080) × (bank.size ≤ 4080) × (length bank.gates.items ≤ places bank.cell bank.size) };
}

impl Bank {
    /// Makes a bank of generation 1 on the first of two erased sides, with this body and no cells.
    ///
    /// `cell` is the length of a cell, 1 to 4080. The body has at most 4080 bytes.
    pub fn make<F: Flash>(
        flash: &mut F,
        place: BankPlace,
        cell: u32,
        body: &[u8],
    ) -> Result<Bank, BankFault>
        requires place { Fits place (F.state flash.old).geometry }
        requires some { 1 ≤ cell }
        requires cell { cell ≤ 4080 }
        requires fits { length body.now ≤ 4080 }
        requires erased { IfSome (F.state flash.old).bytes (Fresh place) }
        ensures calls { Calls (sides place) (bank_end result) (F.state flash.old) (F.state flash.new) }
        ensures reads { ReadsAtMost 0 (F.state flash.old).bytes_read (F.state flash.new).bytes_read }
        ensures changes { ChangesAtMost 2 0 (F.state flash.old).changes (F.state flash.new).changes }
        ensures old_or_new { Told (OldOrNew place (record { generation = 1; body = body.now })) (F.state flash.old).bytes (F.state flash.new).bytes }
        ensures ages { Told (AgesAtMost 1 place) (F.state flash.old).bytes (F.state flash.new).bytes }
        ensures bank { IfOk result (λ bank. bank ≡ record { place = place; cell = cell; second = false; generation = 1; size = length body.now; gates = []; sure = true }) }
        ensures says { IfOk result (λ bank. IfSome (F.state flash.new).bytes (BankSays bank)) }
        ensures content { OnOk result (IfSome (F.state flash.new).bytes (λ held. content_of place cell held ≡ Some (just body.now))) }
        ensures side { OnOk result (IfSome (F.state flash.new).bytes (λ held. area place.first.at 4096 held ≡ whole_side 1 body.now)) }
        ensures second_kept { Told (SameSide place.second.at) (F.state flash.old).bytes (F.state flash.new).bytes }
        ensures pays { OnOk result (CountsInBank (F.state flash.old).geometry (F.state flash.old).aim place → Smaller (F.state flash.old).patience (F.state flash.new).patience) }
        ensures formatted { IsErrOf result BankFault.Unformatted → ⊥ }
        ensures full { IsErrOf result BankFault.Full → ⊥ }
        ensures worn { IsErrOf result BankFault.Worn → ⊥ }
    {
        let mut buffer = [0u8; 512];
        match fill(flash, place.first.at, 1, body, &mut buffer) {
            Ok(()) => Ok(Bank {
                place,
                cell,
                second: false,
                generation: 1,
                size: body.len() as u32,
                gates: Gates::new(),
                sure: true,
            }),
            Err(fault) => Err(passed_on(fault)),
        }
    }

    /// Opens the bank that lies there, and gives its body, which has at most 4080 bytes. No byte of the flash changes.
    ///
    /// `cell` is the length of a cell, 1 to 4080. `body` is cleared first; it stays empty where the answer is not Ok. Of each
    /// cell that was begun the gate is read, the bytes of those that are free and of the last of the others, and nothing twice.
    pub fn open<F: Flash>(
        flash: &mut F,
        place: BankPlace,
        cell: u32,
        body: &mut ArrayVec<u8, 4096>,
    ) -> Result<Bank, BankFault>
        requires place { Fits place (F.state flash.old).geometry }
        requires some { 1 ≤ cell }
        requires cell { cell ≤ 4080 }
        ensures calls { Calls (sides place) (bank_end result) (F.state flash.old) (F.state flash.new) }
        ensures kept { (F.state flash.new).bytes ≡ (F.state flash.old).bytes }
        ensures reads { ReadsAtMost 4112 (F.state flash.old).bytes_read (F.state flash.new).bytes_read }
        ensures reads_once { IfOk result (λ bank. ReadsAtMost (32 + length body.new.items + gate_reads cell (places cell (length body.new.items)) (length bank.gates)) (F.state flash.old).bytes_read (F.state flash.new).bytes_read) }
        ensures changes { ChangesAtMost 0 0 (F.state flash.old).changes (F.state flash.new).changes }
        ensures bank { IfOk result (λ bank. bank ≡ record { place = place; cell = cell; second = bank.second; generation = bank.generation; size = length body.new.items; gates = bank.gates; sure = true }) }
        ensures positive { IfOk result (λ bank. 1 ≤ bank.generation) }
        ensures says { IfOk result (λ bank. IfSome (F.state flash.new).bytes (BankSays bank)) }
        ensures newest { IfOk result (λ bank. IfSome (F.state flash.new).bytes (λ held. newest_side place held ≡ Some (record { generation = bank.generation; body = body.new.items }))) }
        ensures content { OnOk result (IfSome (F.state flash.new).bytes (HasBody place cell body.new.items)) }
        ensures fits { OnOk result (length body.new.items ≤ 4080) }
        ensures empty { OnErr result (body.new.items ≡ []) }

        // Exactly where no side is valid: on Ok one is, by `content`.
        ensures unformatted { IsErrOf result BankFault.Unformatted → IfSome (F.state flash.new).bytes (λ held. content_of place cell held ≡ None) }
        ensures full { IsErrOf result BankFault.Full → ⊥ }
        ensures worn { IsErrOf result BankFault.Worn → ⊥ }
    {
        body.clear();
        let choice = match choose_side(flash, &place) {
            Ok(choice) => choice,
            Err(fault) => return Err(passed_on(fault)),
        };
        let Some(choice) = choice else {
            return Err(BankFault::Unformatted)
        };
        let at = current_side(&place, choice.second);
        let mut buffer = [0u8; SIDE as usize];
        let mut gates = Gates::new();
        if let Err(fault) = find_cells(flash, at, cell, choice.head.size, &mut gates, &mut buffer) {
            return Err(passed_on(fault));
        }
        if let Err(fault) = read_body(flash, at, choice.head.size, &mut buffer, body) {
            return Err(passed_on(fault));
        }
        Ok(Bank {
            place,
            cell,
            second: choice.second,
            generation: choice.head.generation,
            size: choice.head.size,
            gates,
            sure: true,
        })
    }

    /// The generation of the newest side, 1 to 4294967295. A bank of the last one can't be replaced.
    pub fn generation(&self) -> u32
        ensures { result ≡ self.now.generation }
    {
        self.generation
    }

    /// Whether the bank may be replaced and appended to. It is not sure after a `Fault` or `Off` of these, and is then opened
    /// again.
    pub fn is_sure(&self) -> bool
        ensures { result ≡ self.now.sure }
    {
        self.sure
    }

    /// How many cells count: those whose gate stands.
    pub fn cells(&self) -> u32
        ensures { result ≡ standing self.now.gates }
    {
        count_standing(self.gates.as_slice())
    }

    /// Reads the cell of number `n`, counted from 0, into `into`, which has the cell length.
    pub fn read_cell<F: Flash>(
        &self,
        flash: &mut F,
        n: u32,
        into: &mut [u8],
    ) -> Result<(), BankFault>
        requires sure { IsTrue self.now.sure }
        requires place { Fits self.now.place (F.state flash.old).geometry }
        requires some { n < standing self.now.gates }
        requires room { length into.old ≡ self.now.cell }
        requires says { IfSome (F.state flash.old).bytes (BankSays self.now) }
        ensures calls { Calls (sides self.now.place) (bank_end result) (F.state flash.old) (F.state flash.new) }
        ensures kept { (F.state flash.new).bytes ≡ (F.state flash.old).bytes }
        ensures reads { ReadsAtMost self.now.cell (F.state flash.old).bytes_read (F.state flash.new).bytes_read }
        ensures changes { ChangesAtMost 0 0 (F.state flash.old).changes (F.state flash.new).changes }
        ensures cell { OnOk result (IfSome (F.state flash.new).bytes (HasCell self.now.place self.now.cell n into.new)) }
        ensures formatted { IsErrOf result BankFault.Unformatted → ⊥ }
        ensures full { IsErrOf result BankFault.Full → ⊥ }
        ensures worn { IsErrOf result BankFault.Worn → ⊥ }
    {
        let index = index_of(self.gates.as_slice(), n);
        let side = current_side(&self.place, self.second);
        let at = cell_at(side, self.cell, self.size, index);
        match read_part(flash, at, into) {
            Ok(()) => Ok(()),
            Err(fault) => Err(passed_on(fault)),
        }
    }

    /// Appends a cell, which has the cell length, behind those of the newest side: its bytes in one write, then its gate.
    ///
    /// At every exit the bank holds what it held, or that and the cell. Only bytes of the first cell that was never begun
    /// change. `Full` comes before any operation on the flash.
    pub fn append<F: Flash>(&mut self, flash: &mut F, cell: &[u8]) -> Result<(), BankFault>
        requires sure { IsTrue self.old.sure }
        requires place { Fits self.old.place (F.state flash.old).geometry }
        requires long { length cell.now ≡ self.old.cell }
        requires says { IfSome (F.state flash.old).bytes (BankSays self.old) }
        ensures calls { Calls (sides self.old.place) (bank_end result) (F.state flash.old) (F.state flash.new) }
        ensures reads { ReadsAtMost 0 (F.state flash.old).bytes_read (F.state flash.new).bytes_read }
        ensures changes { ChangesAtMost 2 0 (F.state flash.old).changes (F.state flash.new).changes }
        ensures here { Told (Keeps (spot (next_cell self.old) (span self.old.cell))) (F.state flash.old).bytes (F.state flash.new).bytes }
        ensures same_or_added { Told (SameOrAdded self.old.place self.old.cell cell.now) (F.state flash.old).bytes (F.state flash.new).bytes }
        ensures newest { Told (SameNewest self.old.place) (F.state flash.old).bytes (F.state flash.new).bytes }
        ensures ages { Told (AgesAtMost 0 self.old.place) (F.state flash.old).bytes (F.state flash.new).bytes }
        ensures bank { self.new ≡ after_append result self.old }
        ensures says { OnOk result (IfSome (F.state flash.new).bytes (BankSays self.new)) }
        ensures laid { OnOk result (IfSome (F.state flash.new).bytes (λ held. area (next_cell self.old) (filled self.old.cell) held ≡ filled_cell cell.now)) }
        ensures added { OnOk result (Told (Added self.old.place self.old.cell cell.now) (F.state flash.old).bytes (F.state flash.new).bytes) }

        // Exactly where no cell of the newest side is free.
        ensures full { IsErrOf result BankFault.Full ↔ (length self.old.gates ≡ places self.old.cell self.old.size) }
        ensures full_side { IfSome (F.state flash.old).bytes (λ held. IsErrOf result BankFault.Full ↔ IsFull self.old.place self.old.cell held) }
        ensures idle { IsErrOf result BankFault.Full → F.state flash.new ≡ F.state flash.old }
        ensures formatted { IsErrOf result BankFault.Unformatted → ⊥ }
        ensures worn { IsErrOf result BankFault.Worn → ⊥ }
        ensures pays { OnOk result (CountsInBank (F.state flash.old).geometry (F.state flash.old).aim self.old.place → Smaller (F.state flash.old).patience (F.state flash.new).patience) }
    {
        let used = self.gates.len() as u32;
        if used >= places(self.cell, self.size) {
            return Err(BankFault::Full);
        }
        let side = current_side(&self.place, self.second);
        let at = cell_at(side, self.cell, self.size, used);
        match add_cell(flash, at, cell) {
            Ok(()) => {
                self.gates.push(true);
                Ok(())
            }
            Err(fault) => {
                self.sure = false;
                Err(passed_on(fault))
            }
        }
    }

    /// Replaces what the bank holds by this body of at most 4080 bytes and no cells.
    ///
    /// At every exit the bank holds the old content or the new one, and nothing outside its sides changed. `Worn` comes
    /// before any operation on the flash.
    pub fn replace<F: Flash>(&mut self, flash: &mut F, body: &[u8]) -> Result<(), BankFault>
        requires sure { IsTrue self.old.sure }
        requires place { Fits self.old.place (F.state flash.old).geometry }
        requires fits { length body.now ≤ 4080 }
        requires says { IfSome (F.state flash.old).bytes (BankSays self.old) }
        ensures calls { Calls (sides self.old.place) (bank_end result) (F.state flash.old) (F.state flash.new) }
        ensures reads { ReadsAtMost 4096 (F.state flash.old).bytes_read (F.state flash.new).bytes_read }
        ensures changes { ChangesAtMost 2 8 (F.state flash.old).changes (F.state flash.new).changes }
        ensures erases { IfSome (F.state flash.old).bytes (λ held. ChangesAtMost 2 (dirty_pages (F.state flash.old).geometry.page (other self.old.place self.old.second) (4096 / (F.state flash.old).geometry.page) held) (F.state flash.old).changes (F.state flash.new).changes) }
        ensures old_or_new { Told (OldOrNew self.old.place (record { generation = self.old.generation + 1; body = body.now })) (F.state flash.old).bytes (F.state flash.new).bytes }
        ensures ages { Told (AgesAtMost 1 self.old.place) (F.state flash.old).bytes (F.state flash.new).bytes }
        ensures same_or_this { Told (SameOrThis self.old.place self.old.cell (just body.now)) (F.state flash.old).bytes (F.state flash.new).bytes }
        ensures bank { self.new ≡ after_replace (length body.now) result self.old }
        ensures says { OnOk result (IfSome (F.state flash.new).bytes (BankSays self.new)) }
        ensures newest { OnOk result (IfSome (F.state flash.new).bytes (λ held. newest_side self.old.place held ≡ Some (record { generation = self.old.generation + 1; body = body.now }))) }
        ensures content { OnOk result (IfSome (F.state flash.new).bytes (λ held. content_of self.old.place self.old.cell held ≡ Some (just body.now))) }
        ensures side { OnOk result (IfSome (F.state flash.new).bytes (λ held. area (other self.old.place self.old.second) 4096 held ≡ whole_side (self.old.generation + 1) body.now)) }
        ensures newest_kept { Told (SameSide (current self.old.place self.old.second)) (F.state flash.old).bytes (F.state flash.new).bytes }
        ensures worn { IsErrOf result BankFault.Worn ↔ (self.old.generation ≡ 2 ^ 32 - 1) }
        ensures idle { self.old.generation ≡ 2 ^ 32 - 1 → F.state flash.new ≡ F.state flash.old }
        ensures formatted { IsErrOf result BankFault.Unformatted → ⊥ }
        ensures full { IsErrOf result BankFault.Full → ⊥ }
        ensures pays { OnOk result (CountsInBank (F.state flash.old).geometry (F.state flash.old).aim self.old.place → Smaller (F.state flash.old).patience (F.state flash.new).patience) }
    {
        if self.generation == u32::MAX {
            return Err(BankFault::Worn);
        }
        let page = sizes_of(flash).page;
        let at = other_side(&self.place, self.second);
        let mut buffer = [0u8; 512];
        match renew(flash, at, page, self.generation + 1, body, &mut buffer) {
            Ok(()) => {
                self.second = !self.second;
                self.generation += 1;
                self.size = body.len() as u32;
                self.gates.clear();
                Ok(())
            }
            Err(fault) => {
                self.sure = false;
                Err(passed_on(fault))
            }
        }
    }
}
