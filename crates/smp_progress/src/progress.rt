// The record on its bank.
ghost use Rattle.std.specs.Prelude.{◌≡◌, ◌↔◌, ◌+◌, ◌*◌, ◌-◌, ◌^◌, ◌≤◌, true, false, not, length, IsTrue, IsErr, IsErrOf, OnOk, IfOk, IfSome};
ghost use Rattle.smp_flash.specs.Area.{Told};
ghost use Rattle.smp_flash.specs.Calls.{Calls, ReadsAtMost, ChangesAtMost, Smaller};
ghost use Rattle.smp_flash.specs.Layout.{geometry_of, image_of, progress_of};
ghost use Rattle.smp_gate.specs.Cells.{standing};
ghost use Rattle.smp_gate.specs.Fault.{bank_end};
ghost use Rattle.smp_gate.specs.Newest.{sides, Fresh, AgesAtMost, OldOrNew, SameNewest};
ghost use Rattle.smp_progress.specs.Cells.{HasRecord, OldOrThis, continues, entry_cell};
ghost use Rattle.smp_progress.specs.Record.{IsRecord, record_bytes};
ghost use Rattle.smp_progress.specs.State.{ProgressState, ProgressSays, AimsAtRecord, CanTake, first_bank, appends, after_put, after_add, after_renew, is_full};
ghost use Rattle.smp_progress.specs.declared.record.Record.{Record as Recorded};
ghost use Rattle.smp_progress.specs.declared.record.Record.TheVariants as records;

use crate::cells::{after_cells, cell_for};
use crate::record::{Record, image_byte, put_record, read_record};
use arrayvec::ArrayVec;
use smp_flash::{Flash, Layout, regions_count_what_begins_there};
use smp_gate::{Bank, BankFault, bank_says_what_stands, banks_fit};
use std::marker::Model;

/// The record of an upload on its bank: the regions of its image, the bank, and the record that stands.
///
/// The value speaks of one flash. Between its calls, other calls may change that flash outside the bank.
#[derive(Drop)]
pub struct Progress {
    layout: Layout,
    bank: Bank,
    entry: Record,
}

impl Model for Progress {
    ghost use Rattle.std.specs.Prelude.{◌≡◌};
    ghost use Rattle.smp_flash.specs.Layout.{progress_of};
    ghost use Rattle.smp_progress.specs.State.{ProgressState};

    ghost Value = { ProgressState };

    ghost view = { λ p. record { layout = p.layout; bank = p.bank; entry = p.entry } };

    ghost invariant = { λ p. (p.bank.place ≡ progress_of p.layout) × (p.bank.cell ≡ 8) };
}

impl Progress {
    /// Makes the bank with the record `None`, of generation 1, on two erased sides.
    pub fn make<F: Flash>(flash: &mut F, layout: &Layout) -> Result<Progress, BankFault>
        requires sizes { geometry_of layout.now ≡ (F.state flash.old).geometry }
        requires erased { IfSome (F.state flash.old).bytes (Fresh (progress_of layout.now)) }
        ensures calls { Calls (sides (progress_of layout.now)) (bank_end result) (F.state flash.old) (F.state flash.new) }
        ensures reads { ReadsAtMost 0 (F.state flash.old).bytes_read (F.state flash.new).bytes_read }
        ensures changes { ChangesAtMost 2 0 (F.state flash.old).changes (F.state flash.new).changes }
        ensures old_or_new { Told (OldOrNew (progress_of layout.now) (record { generation = 1; body = record_bytes 2 (image_of layout.now) records.None })) (F.state flash.old).bytes (F.state flash.new).bytes }
        ensures ages { Told (AgesAtMost 1 (progress_of layout.now)) (F.state flash.old).bytes (F.state flash.new).bytes }
        ensures made { IfOk result (λ p. p ≡ record { layout = layout.now; bank = first_bank layout.now; entry = records.None }) }
        ensures says { IfOk result (λ p. IfSome (F.state flash.new).bytes (ProgressSays p)) }
        ensures pays { OnOk result (AimsAtRecord layout.now (F.state flash.old).aim → Smaller (F.state flash.old).patience (F.state flash.new).patience) }
        ensures formatted { IsErrOf result BankFault.Unformatted → ⊥ }
        ensures full { IsErrOf result BankFault.Full → ⊥ }
        ensures worn { IsErrOf result BankFault.Worn → ⊥ }
    {
        banks_fit();
        regions_count_what_begins_there();
        let entry = Record::None;
        let mut bytes = ArrayVec::new();
        put_record(&mut bytes, 2, image_byte(layout), &entry);
        match Bank::make(flash, layout.progress(), 8, bytes.as_slice()) {
            Ok(bank) => Ok(Progress {
                layout: *layout,
                bank,
                entry,
            }),
            Err(fault) => Err(fault),
        }
    }

    /// Finds the record that stands, and the value for it. No byte of the flash changes.
    ///
    /// `Unformatted` comes exactly where no side is valid or the content gives no record.
    pub fn open<F: Flash>(flash: &mut F, layout: &Layout) -> Result<(Progress, Record), BankFault>
        requires sizes { geometry_of layout.now ≡ (F.state flash.old).geometry }
        ensures calls { Calls (sides (progress_of layout.now)) (bank_end result) (F.state flash.old) (F.state flash.new) }
        ensures kept { (F.state flash.new).bytes ≡ (F.state flash.old).bytes }
        ensures reads { IfOk result (λ opened. ReadsAtMost (4112 + 8 * standing opened.0.bank.gates) (F.state flash.old).bytes_read (F.state flash.new).bytes_read) }

        // Whatever it answers: the heads of both sides, and the bytes of one side once, but for the last cell.
        ensures reads_most { IfSome (F.state flash.old).bytes (λ held. ReadsAtMost 4120 (F.state flash.old).bytes_read (F.state flash.new).bytes_read) }
        ensures changes { ChangesAtMost 0 0 (F.state flash.old).changes (F.state flash.new).changes }
        ensures layout { IfOk result (λ opened. opened.0.layout ≡ layout.now) }
        ensures entry { IfOk result (λ opened. opened.0.entry ≡ opened.1) }
        ensures sure { IfOk result (λ opened. IsTrue opened.0.bank.sure) }
        ensures lawful { IfOk result (λ opened. IsRecord (geometry_of layout.now) opened.1) }
        ensures says { IfOk result (λ opened. IfSome (F.state flash.new).bytes (ProgressSays opened.0)) }

        // Exactly where the bank holds no record: on Ok it holds one, by `says`.
        ensures unformatted { IsErrOf result BankFault.Unformatted → IfSome (F.state flash.new).bytes (λ held. (entry : Recorded) → HasRecord layout.now entry held → ⊥) }
        ensures full { IsErrOf result BankFault.Full → ⊥ }
        ensures worn { IsErrOf result BankFault.Worn → ⊥ }
    {
        let mut body = ArrayVec::new();
        banks_fit();
        let bank = match Bank::open(flash, layout.progress(), 8, &mut body) {
            Ok(bank) => bank,
            Err(fault) => return Err(fault),
        };
        let Some(first) = read_record(layout, body.as_slice()) else {
            return Err(BankFault::Unformatted)
        };
        match after_cells(&bank, flash, layout, &first) {
            Ok(entry) => Ok((
                Progress {
                    layout: *layout,
                    bank,
                    entry,
                },
                entry,
            )),
            Err(fault) => Err(fault),
        }
    }

    /// Whether a record may be put. It may not after a `Fault` or `Off` of `put`: it is then opened again.
    pub fn is_sure(&self) -> bool
        ensures { result ≡ self.now.bank.sure }
    {
        self.bank.is_sure()
    }

    /// Whether so many further records can be put without `Worn`: exactly where the generation and they come to at most
    /// 4294967295.
    pub fn can_take(&self, records: u32) -> bool
        ensures { IsTrue result ↔ CanTake self.now.bank.generation records }
    {
        self.bank.generation() <= u32::MAX - records
    }

    /// Puts a record, which may stand on a flash of these sizes, in place of the one that stands: as a cell where both are
    /// uploads with one announcement and a cell is free, and else on the other side.
    ///
    /// At every exit the bank holds the old record or the new one. `Worn` comes before any operation on the flash.
    pub fn put<F: Flash>(&mut self, flash: &mut F, entry: &Record) -> Result<(), BankFault>
        requires sizes { geometry_of self.old.layout ≡ (F.state flash.old).geometry }
        requires sure { IsTrue self.old.bank.sure }
        requires lawful { IsRecord (geometry_of self.old.layout) entry.now }
        requires says { IfSome (F.state flash.old).bytes (ProgressSays self.old) }
        ensures calls { Calls (sides (progress_of self.old.layout)) (bank_end result) (F.state flash.old) (F.state flash.new) }
        ensures reads { ReadsAtMost 4096 (F.state flash.old).bytes_read (F.state flash.new).bytes_read }
        ensures changes { ChangesAtMost 2 8 (F.state flash.old).changes (F.state flash.new).changes }
        ensures either { Told (OldOrThis self.old.layout entry.now) (F.state flash.old).bytes (F.state flash.new).bytes }
        ensures ages { Told (AgesAtMost 1 (progress_of self.old.layout)) (F.state flash.old).bytes (F.state flash.new).bytes }

        // A cell is two writes, and the newest side and its generation stay, whatever it answers.
        ensures cell_changes { appends self.old entry.now ≡ true → ChangesAtMost 2 0 (F.state flash.old).changes (F.state flash.new).changes }
        ensures cell_reads { appends self.old entry.now ≡ true → ReadsAtMost 0 (F.state flash.old).bytes_read (F.state flash.new).bytes_read }
        ensures newest { appends self.old entry.now ≡ true → Told (SameNewest (progress_of self.old.layout)) (F.state flash.old).bytes (F.state flash.new).bytes }

        // A side that is replaced has the record as its body, of version 2.
        ensures written { appends self.old entry.now ≡ false → Told (OldOrNew (progress_of self.old.layout) (record { generation = self.old.bank.generation + 1; body = record_bytes 2 (image_of self.old.layout) entry.now })) (F.state flash.old).bytes (F.state flash.new).bytes }
        ensures state { self.new ≡ after_put result entry.now self.old }
        ensures says { OnOk result (IfSome (F.state flash.new).bytes (ProgressSays self.new)) }
        ensures worn { IsErrOf result BankFault.Worn ↔ ((appends self.old entry.now ≡ false) × (self.old.bank.generation ≡ 2 ^ 32 - 1)) }
        ensures idle { IsErrOf result BankFault.Worn → F.state flash.new ≡ F.state flash.old }
        ensures formatted { IsErrOf result BankFault.Unformatted → ⊥ }
        ensures full { IsErrOf result BankFault.Full → ⊥ }
        ensures pays { OnOk result (AimsAtRecord self.old.layout (F.state flash.old).aim → Smaller (F.state flash.old).patience (F.state flash.new).patience) }
    {
        let Some(cell) = cell_for(&self.entry, entry) else {
            return self.renew(flash, entry)
        };
        match self.add(flash, entry, &cell) {
            Err(fault) => Err(fault),
            Ok(added) => {
                if added {
                    return Ok(());
                }
                self.renew(flash, entry)
            }
        }
    }

    /// Appends the cell of a record, and says whether one was free: else nothing changed.
    fn add<F: Flash>(
        &mut self,
        flash: &mut F,
        entry: &Record,
        cell: &[u8],
    ) -> Result<bool, BankFault>
        requires sizes { geometry_of self.old.layout ≡ (F.state flash.old).geometry }
        requires sure { IsTrue self.old.bank.sure }
        requires lawful { IsRecord (geometry_of self.old.layout) entry.now }
        requires says { IfSome (F.state flash.old).bytes (ProgressSays self.old) }
        requires continues { continues self.old.entry entry.now ≡ true }
        requires cell { cell.now ≡ entry_cell entry.now }
        requires long { length cell.now ≡ 8 }
        ensures calls { Calls (sides (progress_of self.old.layout)) (bank_end result) (F.state flash.old) (F.state flash.new) }
        ensures reads { ReadsAtMost 0 (F.state flash.old).bytes_read (F.state flash.new).bytes_read }
        ensures changes { ChangesAtMost 2 0 (F.state flash.old).changes (F.state flash.new).changes }
        ensures either { Told (OldOrThis self.old.layout entry.now) (F.state flash.old).bytes (F.state flash.new).bytes }
        ensures newest { Told (SameNewest (progress_of self.old.layout)) (F.state flash.old).bytes (F.state flash.new).bytes }
        ensures ages { Told (AgesAtMost 0 (progress_of self.old.layout)) (F.state flash.old).bytes (F.state flash.new).bytes }
        ensures state { self.new ≡ after_add result entry.now self.old }
        ensures says { IfOk result (λ added. IfSome (F.state flash.new).bytes (ProgressSays self.new)) }
        ensures free { IfOk result (λ added. added ≡ not (is_full self.old.bank)) }
        ensures not_free { IsErr result → is_full self.old.bank ≡ false }
        ensures idle { IfOk result (λ added. added ≡ false → F.state flash.new ≡ F.state flash.old) }
        ensures formatted { IsErrOf result BankFault.Unformatted → ⊥ }
        ensures full { IsErrOf result BankFault.Full → ⊥ }
        ensures worn { IsErrOf result BankFault.Worn → ⊥ }
        ensures pays { IfOk result (λ added. added ≡ true → AimsAtRecord self.old.layout (F.state flash.old).aim → Smaller (F.state flash.old).patience (F.state flash.new).patience) }
    {
        banks_fit();
        bank_says_what_stands();
        regions_count_what_begins_there();
        match self.bank.append(flash, cell) {
            Ok(()) => {
                self.entry = *entry;
                Ok(true)
            }
            Err(fault) => match fault {
                BankFault::Full => Ok(false),
                other => Err(other),
            },
        }
    }

    /// Replaces the side by one that has the record as its body.
    fn renew<F: Flash>(&mut self, flash: &mut F, entry: &Record) -> Result<(), BankFault>
        requires sizes { geometry_of self.old.layout ≡ (F.state flash.old).geometry }
        requires sure { IsTrue self.old.bank.sure }
        requires lawful { IsRecord (geometry_of self.old.layout) entry.now }
        requires says { IfSome (F.state flash.old).bytes (ProgressSays self.old) }
        ensures calls { Calls (sides (progress_of self.old.layout)) (bank_end result) (F.state flash.old) (F.state flash.new) }
        ensures reads { ReadsAtMost 4096 (F.state flash.old).bytes_read (F.state flash.new).bytes_read }
        ensures changes { ChangesAtMost 2 8 (F.state flash.old).changes (F.state flash.new).changes }
        ensures either { Told (OldOrThis self.old.layout entry.now) (F.state flash.old).bytes (F.state flash.new).bytes }
        ensures ages { Told (AgesAtMost 1 (progress_of self.old.layout)) (F.state flash.old).bytes (F.state flash.new).bytes }
        ensures written { Told (OldOrNew (progress_of self.old.layout) (record { generation = self.old.bank.generation + 1; body = record_bytes 2 (image_of self.old.layout) entry.now })) (F.state flash.old).bytes (F.state flash.new).bytes }
        ensures state { self.new ≡ after_renew result entry.now self.old }
        ensures says { OnOk result (IfSome (F.state flash.new).bytes (ProgressSays self.new)) }
        ensures worn { IsErrOf result BankFault.Worn ↔ (self.old.bank.generation ≡ 2 ^ 32 - 1) }
        ensures idle { IsErrOf result BankFault.Worn → F.state flash.new ≡ F.state flash.old }
        ensures formatted { IsErrOf result BankFault.Unformatted → ⊥ }
        ensures full { IsErrOf result BankFault.Full → ⊥ }
        ensures pays { OnOk result (AimsAtRecord self.old.layout (F.state flash.old).aim → Smaller (F.state flash.old).patience (F.state flash.new).patience) }
    {
        banks_fit();
        regions_count_what_begins_there();
        let mut bytes = ArrayVec::new();
        put_record(&mut bytes, 2, image_byte(&self.layout), entry);
        match self.bank.replace(flash, bytes.as_slice()) {
            Ok(()) => {
                self.entry = *entry;
                Ok(())
            }
            Err(fault) => Err(fault),
        }
    }
}
