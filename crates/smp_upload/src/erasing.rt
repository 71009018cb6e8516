// An upload is given up, and the secondary slot is erased.
ghost use Rattle.std.specs.Prelude.{◌≡◌, ◌+◌, ◌/◌, ◌<◌, ℕ, true, false, IsTrue, OnOk, IfOk, IfErr, IfSome};
ghost use Rattle.smp_flash.specs.Area.{area, blank, dirty_pages, spot, Fades, Keeps, Told};
ghost use Rattle.smp_flash.specs.Calls.{Calls, Smaller, ReadsAtMost, ChangesAtMost};
ghost use Rattle.smp_flash.specs.Layout.{geometry_of, slot_of, progress_of, upload_spots};
ghost use Rattle.smp_gate.specs.Newest.{sides};
ghost use Rattle.smp_model.specs.Sides.{Drop};
ghost use Rattle.smp_progress.specs.State.{CanTake, AimsAtRecord};
ghost use Rattle.smp_upload.specs.Erasing.{FreeWith, known_gone, records_if, reads_if, writes_if, erases_if};
ghost use Rattle.smp_upload.specs.Faults.{upload_end, IsIdle};
ghost use Rattle.smp_upload.specs.Moves.{Moved, Done, no_steps, one_step};
ghost use Rattle.smp_upload.specs.Needs.{erase_records};
ghost use Rattle.smp_upload.specs.States.{Says, known_idle, known_receiving, known_whole};

use crate::below::put_record;
use crate::faults::{from_call, lost};
use crate::laws::sides_are_told_apart;
use crate::states::{Idle, Lost, Receiving, UploadFault, Whole};
use smp_flash::{Flash, Layout};
use smp_progress::{Progress, Record, progress_outlasts_other_changes};
use smp_slot::{slots_fit, wipe};

/// The records that it takes to give up an upload.
fn records_for(there: bool) -> u32
    ensures { result ≡ records_if there }
{
    if there { 1 } else { 0 }
}

/// Gives up the upload, where one is there.
fn drop_upload<F: Flash>(
    layout: Layout,
    progress: Progress,
    flash: &mut F,
    there: bool,
) -> Result<Progress, Lost>
    requires layout { geometry_of layout ≡ (F.state flash.old).geometry }
    requires place { progress.layout ≡ layout }
    requires sure { IsTrue progress.bank.sure }
    requires free { IfSome (F.state flash.old).bytes (FreeWith layout progress there) }
    requires room { CanTake progress.bank.generation (records_if there) }
    ensures moved { Moved layout (upload_spots layout) (records_if there) (one_step Drop) (upload_end result) (F.state flash.old) (F.state flash.new) }
    ensures done { OnOk result (Done layout (upload_spots layout) (records_if there) (one_step Drop) (F.state flash.old) (F.state flash.new)) }
    ensures keeps { Told (Keeps (sides (progress_of layout))) (F.state flash.old).bytes (F.state flash.new).bytes }
    ensures reads { ReadsAtMost (reads_if there 0) (F.state flash.old).bytes_read (F.state flash.new).bytes_read }
    ensures changes { ChangesAtMost (writes_if there) (erases_if there 0) (F.state flash.old).changes (F.state flash.new).changes }
    ensures gone { IfOk result (λ next. IfSome (F.state flash.new).bytes (Says (known_gone layout next))) }
    ensures next { IfOk result (λ next. (next.layout ≡ layout) × IsTrue next.bank.sure) }
    ensures pays { OnOk result (0 < records_if there → AimsAtRecord layout (F.state flash.old).aim → Smaller (F.state flash.old).patience (F.state flash.new).patience) }
    ensures lost { IfErr result (λ lost. lost.state.layout ≡ layout) }
    ensures worn { IfErr result (λ lost. lost.fault ≡ UploadFault.Worn → ⊥) }
    ensures formatted { IfErr result (λ lost. lost.fault ≡ UploadFault.Unformatted → ⊥) }
{
    sides_are_told_apart();
    if !there {
        return Ok(progress);
    }
    match put_record(layout, progress, flash, &Record::None) {
        Ok(next) => Ok(next),
        Err(lost) => Err(lost),
    }
}

/// Erases the bytes of the secondary slot.
fn wipe_bytes<F: Flash>(layout: Layout, flash: &mut F) -> Result<(), Lost>
    requires layout { geometry_of layout ≡ (F.state flash.old).geometry }
    ensures calls { Calls (spot (slot_of layout 1).at (slot_of layout 1).length) (upload_end result) (F.state flash.old) (F.state flash.new) }
    ensures reads { ReadsAtMost (slot_of layout 1).length (F.state flash.old).bytes_read (F.state flash.new).bytes_read }
    ensures changes { ChangesAtMost 0 ((slot_of layout 1).length / (geometry_of layout).page) (F.state flash.old).changes (F.state flash.new).changes }
    ensures erases { IfSome (F.state flash.old).bytes (λ held. ChangesAtMost 0 (dirty_pages (geometry_of layout).page (slot_of layout 1).at ((slot_of layout 1).length / (geometry_of layout).page) held) (F.state flash.old).changes (F.state flash.new).changes) }
    ensures fades { Told (Fades (slot_of layout 1).at (slot_of layout 1).length) (F.state flash.old).bytes (F.state flash.new).bytes }
    ensures erased { OnOk result (IfSome (F.state flash.new).bytes (λ held. area (slot_of layout 1).at (slot_of layout 1).length held ≡ blank (slot_of layout 1).length)) }
    ensures lost { IfErr result (λ lost. lost.state.layout ≡ layout) }
    ensures worn { IfErr result (λ lost. lost.fault ≡ UploadFault.Worn → ⊥) }
    ensures formatted { IfErr result (λ lost. lost.fault ≡ UploadFault.Unformatted → ⊥) }
{
    slots_fit();
    match wipe(flash, layout.slot(1)) {
        Ok(()) => Ok(()),
        Err(fault) => Err(lost(layout, from_call(fault))),
    }
}

/// Erases the secondary slot, in which no upload is.
fn wipe_slot<F: Flash>(layout: Layout, progress: Progress, flash: &mut F) -> Result<Idle, Lost>
    requires layout { geometry_of layout ≡ (F.state flash.old).geometry }
    requires place { progress.layout ≡ layout }
    requires sure { IsTrue progress.bank.sure }
    requires says { IfSome (F.state flash.old).bytes (Says (known_gone layout progress)) }
    ensures moved { Moved layout (upload_spots layout) 0 no_steps (upload_end result) (F.state flash.old) (F.state flash.new) }
    ensures done { OnOk result (Done layout (upload_spots layout) 0 no_steps (F.state flash.old) (F.state flash.new)) }
    ensures reads { ReadsAtMost (slot_of layout 1).length (F.state flash.old).bytes_read (F.state flash.new).bytes_read }
    ensures changes { ChangesAtMost 0 ((slot_of layout 1).length / (geometry_of layout).page) (F.state flash.old).changes (F.state flash.new).changes }
    ensures erases { IfSome (F.state flash.old).bytes (λ held. ChangesAtMost 0 (dirty_pages (geometry_of layout).page (slot_of layout 1).at ((slot_of layout 1).length / (geometry_of layout).page) held) (F.state flash.old).changes (F.state flash.new).changes) }
    ensures erased { OnOk result (IfSome (F.state flash.new).bytes (λ held. area (slot_of layout 1).at (slot_of layout 1).length held ≡ blank (slot_of layout 1).length)) }
    ensures says { IfOk result (λ idle. IfSome (F.state flash.new).bytes (Says (known_idle idle))) }
    ensures layout { IfOk result (λ idle. idle.layout ≡ layout) }
    ensures lost { IfErr result (λ lost. lost.state.layout ≡ layout) }
    ensures worn { IfErr result (λ lost. lost.fault ≡ UploadFault.Worn → ⊥) }
    ensures formatted { IfErr result (λ lost. lost.fault ≡ UploadFault.Unformatted → ⊥) }
{
    sides_are_told_apart();
    progress_outlasts_other_changes();
    match wipe_bytes(layout, flash) {
        Ok(()) => Ok(Idle { layout, progress }),
        Err(lost) => Err(lost),
    }
}

/// Gives up the upload, where one is there, and then erases the secondary slot.
fn erase_all<F: Flash>(
    layout: Layout,
    progress: Progress,
    flash: &mut F,
    there: bool,
) -> Result<Idle, Lost>
    requires layout { geometry_of layout ≡ (F.state flash.old).geometry }
    requires place { progress.layout ≡ layout }
    requires sure { IsTrue progress.bank.sure }
    requires free { IfSome (F.state flash.old).bytes (FreeWith layout progress there) }
    ensures moved { Moved layout (upload_spots layout) (records_if there) (one_step Drop) (upload_end result) (F.state flash.old) (F.state flash.new) }
    ensures done { OnOk result (Done layout (upload_spots layout) (records_if there) (one_step Drop) (F.state flash.old) (F.state flash.new)) }
    ensures reads { ReadsAtMost (reads_if there (slot_of layout 1).length) (F.state flash.old).bytes_read (F.state flash.new).bytes_read }
    ensures changes { ChangesAtMost (writes_if there) (erases_if there ((slot_of layout 1).length / (geometry_of layout).page)) (F.state flash.old).changes (F.state flash.new).changes }
    ensures erases { IfSome (F.state flash.old).bytes (λ held. ChangesAtMost (writes_if there) (erases_if there (dirty_pages (geometry_of layout).page (slot_of layout 1).at ((slot_of layout 1).length / (geometry_of layout).page) held)) (F.state flash.old).changes (F.state flash.new).changes) }
    ensures erased { OnOk result (IfSome (F.state flash.new).bytes (λ held. area (slot_of layout 1).at (slot_of layout 1).length held ≡ blank (slot_of layout 1).length)) }
    ensures says { IfOk result (λ idle. IfSome (F.state flash.new).bytes (Says (known_idle idle))) }
    ensures layout { IfOk result (λ idle. idle.layout ≡ layout) }
    ensures lost { IfErr result (λ lost. lost.state.layout ≡ layout) }
    ensures idle { IfErr result (λ lost. IsIdle lost.fault → (F.state flash.new).bytes ≡ (F.state flash.old).bytes) }
    ensures formatted { IfErr result (λ lost. lost.fault ≡ UploadFault.Unformatted → ⊥) }
    ensures worn { IfErr result (λ lost. lost.fault ≡ UploadFault.Worn → CanTake progress.bank.generation (records_if there) → ⊥) }
    ensures fresh { OnOk result (CanTake progress.bank.generation (records_if there)) }
    ensures spends { OnOk result (0 < records_if there → AimsAtRecord layout (F.state flash.old).aim → Smaller (F.state flash.old).patience (F.state flash.new).patience) }
{
    if !progress.can_take(records_for(there)) {
        return Err(lost(layout, UploadFault::Worn));
    }
    match drop_upload(layout, progress, flash, there) {
        Ok(next) => wipe_slot(layout, next, flash),
        Err(lost) => Err(lost),
    }
}

impl Idle {
    /// Erases the secondary slot, page by page, where it is not all FF.
    ///
    /// It needs no record.
    #[tactic(auto, using(crate::proofs::Erased::gone_free))]
    pub fn erase<F: Flash>(self, flash: &mut F) -> Result<Idle, Lost>
        requires layout { geometry_of self.layout ≡ (F.state flash.old).geometry }
        requires says { IfSome (F.state flash.old).bytes (Says (known_idle self)) }
        ensures moved { Moved self.layout (upload_spots self.layout) (erase_records (known_idle self).upload) (one_step Drop) (upload_end result) (F.state flash.old) (F.state flash.new) }
        ensures done { OnOk result (Done self.layout (upload_spots self.layout) (erase_records (known_idle self).upload) (one_step Drop) (F.state flash.old) (F.state flash.new)) }
        ensures reads { ReadsAtMost (slot_of self.layout 1).length (F.state flash.old).bytes_read (F.state flash.new).bytes_read }
        ensures changes { ChangesAtMost 0 ((slot_of self.layout 1).length / (geometry_of self.layout).page) (F.state flash.old).changes (F.state flash.new).changes }

        // A page of the slot that is FF is not erased again, and each other one once.
        ensures erases { IfSome (F.state flash.old).bytes (λ held. ChangesAtMost 0 (dirty_pages (geometry_of self.layout).page (slot_of self.layout 1).at ((slot_of self.layout 1).length / (geometry_of self.layout).page) held) (F.state flash.old).changes (F.state flash.new).changes) }
        ensures lost { IfErr result (λ lost. lost.state.layout ≡ self.layout) }
        ensures idle { IfErr result (λ lost. IsIdle lost.fault → (F.state flash.new).bytes ≡ (F.state flash.old).bytes) }
        ensures formatted { IfErr result (λ lost. lost.fault ≡ UploadFault.Unformatted → ⊥) }
        ensures says { IfOk result (λ idle. IfSome (F.state flash.new).bytes (Says (known_idle idle))) }
        ensures layout { IfOk result (λ idle. idle.layout ≡ self.layout) }
        ensures erased { OnOk result (IfSome (F.state flash.new).bytes (λ held. area (slot_of self.layout 1).at (slot_of self.layout 1).length held ≡ blank (slot_of self.layout 1).length)) }
        ensures worn { IfErr result (λ lost. lost.fault ≡ UploadFault.Worn → CanTake self.progress.bank.generation (erase_records (known_idle self).upload) → ⊥) }
        ensures fresh { OnOk result (CanTake self.progress.bank.generation (erase_records (known_idle self).upload)) }
        ensures spends { OnOk result (0 < erase_records (known_idle self).upload → AimsAtRecord self.layout (F.state flash.old).aim → Smaller (F.state flash.old).patience (F.state flash.new).patience) }
    {
        let Idle {
            layout,
            progress,
            ..
        } = self;
        erase_all(layout, progress, flash, false)
    }
}

impl Receiving {
    /// Gives up the upload, and then erases the secondary slot, page by page, where it is not all FF.
    ///
    /// It needs one record, and that is put first: while a byte of the slot changes, no upload is there any more.
    #[tactic(auto, using(crate::proofs::Erased::at_free))]
    pub fn erase<F: Flash>(self, flash: &mut F) -> Result<Idle, Lost>
        requires layout { geometry_of self.layout ≡ (F.state flash.old).geometry }
        requires says { IfSome (F.state flash.old).bytes (Says (known_receiving self)) }
        ensures moved { Moved self.layout (upload_spots self.layout) (erase_records (known_receiving self).upload) (one_step Drop) (upload_end result) (F.state flash.old) (F.state flash.new) }
        ensures done { OnOk result (Done self.layout (upload_spots self.layout) (erase_records (known_receiving self).upload) (one_step Drop) (F.state flash.old) (F.state flash.new)) }
        ensures reads { ReadsAtMost (4096 + (slot_of self.layout 1).length) (F.state flash.old).bytes_read (F.state flash.new).bytes_read }
        ensures changes { ChangesAtMost 2 (8 + ((slot_of self.layout 1).length / (geometry_of self.layout).page)) (F.state flash.old).changes (F.state flash.new).changes }

        // A page of the slot that is FF is not erased again, and each other one once.
        ensures erases { IfSome (F.state flash.old).bytes (λ held. ChangesAtMost 2 (8 + (dirty_pages (geometry_of self.layout).page (slot_of self.layout 1).at ((slot_of self.layout 1).length / (geometry_of self.layout).page) held)) (F.state flash.old).changes (F.state flash.new).changes) }
        ensures lost { IfErr result (λ lost. lost.state.layout ≡ self.layout) }
        ensures idle { IfErr result (λ lost. IsIdle lost.fault → (F.state flash.new).bytes ≡ (F.state flash.old).bytes) }
        ensures formatted { IfErr result (λ lost. lost.fault ≡ UploadFault.Unformatted → ⊥) }
        ensures says { IfOk result (λ idle. IfSome (F.state flash.new).bytes (Says (known_idle idle))) }
        ensures layout { IfOk result (λ idle. idle.layout ≡ self.layout) }
        ensures erased { OnOk result (IfSome (F.state flash.new).bytes (λ held. area (slot_of self.layout 1).at (slot_of self.layout 1).length held ≡ blank (slot_of self.layout 1).length)) }
        ensures worn { IfErr result (λ lost. lost.fault ≡ UploadFault.Worn → CanTake self.progress.bank.generation (erase_records (known_receiving self).upload) → ⊥) }
        ensures fresh { OnOk result (CanTake self.progress.bank.generation (erase_records (known_receiving self).upload)) }
        ensures spends { OnOk result (0 < erase_records (known_receiving self).upload → AimsAtRecord self.layout (F.state flash.old).aim → Smaller (F.state flash.old).patience (F.state flash.new).patience) }
    {
        let Receiving {
            layout,
            progress,
            ..
        } = self;
        erase_all(layout, progress, flash, true)
    }
}

impl Whole {
    /// Gives up the upload, and then erases the secondary slot, page by page, where it is not all FF.
    ///
    /// It needs one record, and that is put first: while a byte of the slot changes, no upload is there any more.
    #[tactic(auto, using(crate::proofs::Erased::full_given))]
    pub fn erase<F: Flash>(self, flash: &mut F) -> Result<Idle, Lost>
        requires layout { geometry_of self.layout ≡ (F.state flash.old).geometry }
        requires says { IfSome (F.state flash.old).bytes (Says (known_whole self)) }
        ensures moved { Moved self.layout (upload_spots self.layout) (erase_records (known_whole self).upload) (one_step Drop) (upload_end result) (F.state flash.old) (F.state flash.new) }
        ensures done { OnOk result (Done self.layout (upload_spots self.layout) (erase_records (known_whole self).upload) (one_step Drop) (F.state flash.old) (F.state flash.new)) }
        ensures reads { ReadsAtMost (4096 + (slot_of self.layout 1).length) (F.state flash.old).bytes_read (F.state flash.new).bytes_read }
        ensures changes { ChangesAtMost 2 (8 + ((slot_of self.layout 1).length / (geometry_of self.layout).page)) (F.state flash.old).changes (F.state flash.new).changes }

        // A page of the slot that is FF is not erased again, and each other one once.
        ensures erases { IfSome (F.state flash.old).bytes (λ held. ChangesAtMost 2 (8 + (dirty_pages (geometry_of self.layout).page (slot_of self.layout 1).at ((slot_of self.layout 1).length / (geometry_of self.layout).page) held)) (F.state flash.old).changes (F.state flash.new).changes) }
        ensures lost { IfErr result (λ lost. lost.state.layout ≡ self.layout) }
        ensures idle { IfErr result (λ lost. IsIdle lost.fault → (F.state flash.new).bytes ≡ (F.state flash.old).bytes) }
        ensures formatted { IfErr result (λ lost. lost.fault ≡ UploadFault.Unformatted → ⊥) }
        ensures says { IfOk result (λ idle. IfSome (F.state flash.new).bytes (Says (known_idle idle))) }
        ensures layout { IfOk result (λ idle. idle.layout ≡ self.layout) }
        ensures erased { OnOk result (IfSome (F.state flash.new).bytes (λ held. area (slot_of self.layout 1).at (slot_of self.layout 1).length held ≡ blank (slot_of self.layout 1).length)) }
        ensures worn { IfErr result (λ lost. lost.fault ≡ UploadFault.Worn → CanTake self.progress.bank.generation (erase_records (known_whole self).upload) → ⊥) }
        ensures fresh { OnOk result (CanTake self.progress.bank.generation (erase_records (known_whole self).upload)) }
        ensures spends { OnOk result (0 < erase_records (known_whole self).upload → AimsAtRecord self.layout (F.state flash.old).aim → Smaller (F.state flash.old).patience (F.state flash.new).patience) }
    {
        let Whole {
            layout,
            progress,
            ..
        } = self;
        erase_all(layout, progress, flash, true)
    }
}
