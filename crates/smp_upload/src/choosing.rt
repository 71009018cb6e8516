// An upload is chosen.
ghost use Rattle.std.specs.Prelude.{◌≡◌, ◌+◌, ◌≤◌, IsTrue, OnOk, IfOk, IfErr, IfSome};
ghost use Rattle.smp_flash.specs.Calls.{Smaller, ReadsAtMost, ChangesAtMost};
ghost use Rattle.smp_flash.specs.Geometry.{slot_size};
ghost use Rattle.smp_flash.specs.Layout.{geometry_of, upload_spots};
ghost use Rattle.smp_model.specs.Sides.{Choose};
ghost use Rattle.smp_progress.specs.State.{CanTake, AimsAtRecord};
ghost use Rattle.smp_upload.specs.Faults.{upload_end, IsIdle};
ghost use Rattle.smp_upload.specs.Free.{Free};
ghost use Rattle.smp_upload.specs.Moves.{Moved, Done, one_step};
ghost use Rattle.smp_upload.specs.States.{Says, known_idle, known_receiving, known_whole};

use crate::below::put_record;
use crate::faults::lost;
use crate::laws::sides_are_told_apart;
use crate::records::record_at;
use crate::states::{Idle, Lost, Receiving, UploadFault, Whole};
use smp_flash::{Flash, Layout};
use smp_model::Announcement;
use smp_progress::Progress;
use smp_tlv::Carried;

/// Chooses an upload, from any state in which nothing is pending. Nothing in the slot is touched.
fn begin<F: Flash>(
    layout: Layout,
    progress: Progress,
    flash: &mut F,
    announcement: &Announcement,
) -> Result<Receiving, Lost>
    requires layout { geometry_of layout ≡ (F.state flash.old).geometry }
    requires place { progress.layout ≡ layout }
    requires sure { IsTrue progress.bank.sure }
    requires free { IfSome (F.state flash.old).bytes (Free layout progress) }
    requires least { 32 ≤ announcement.now.length }
    requires most { announcement.now.length + (geometry_of layout).page ≤ slot_size (geometry_of layout) }
    ensures moved { Moved layout (upload_spots layout) 1 (one_step (Choose announcement.now)) (upload_end result) (F.state flash.old) (F.state flash.new) }
    ensures done { OnOk result (Done layout (upload_spots layout) 1 (one_step (Choose announcement.now)) (F.state flash.old) (F.state flash.new)) }
    ensures reads { ReadsAtMost 4096 (F.state flash.old).bytes_read (F.state flash.new).bytes_read }
    ensures changes { ChangesAtMost 2 8 (F.state flash.old).changes (F.state flash.new).changes }
    ensures lost { IfErr result (λ lost. lost.state.layout ≡ layout) }
    ensures idle { IfErr result (λ lost. IsIdle lost.fault → (F.state flash.new).bytes ≡ (F.state flash.old).bytes) }
    ensures formatted { IfErr result (λ lost. lost.fault ≡ UploadFault.Unformatted → ⊥) }
    ensures says { IfOk result (λ receiving. IfSome (F.state flash.new).bytes (Says (known_receiving receiving))) }
    ensures chosen { IfOk result (λ receiving. (receiving.layout ≡ layout) × (receiving.announcement ≡ announcement.now) × (receiving.offset ≡ 0)) }
    ensures worn { IfErr result (λ lost. lost.fault ≡ UploadFault.Worn → CanTake progress.bank.generation 1 → ⊥) }
    ensures fresh { OnOk result (CanTake progress.bank.generation 1) }
    ensures spends { OnOk result (AimsAtRecord layout (F.state flash.old).aim → Smaller (F.state flash.old).patience (F.state flash.new).patience) }
{
    sides_are_told_apart();
    if !progress.can_take(1) {
        return Err(lost(layout, UploadFault::Worn));
    }
    let entry = record_at(&layout, *announcement, 0);
    match put_record(layout, progress, flash, &entry) {
        Ok(next) => Ok(Receiving {
            layout,
            progress: next,
            announcement: *announcement,
            offset: 0,
            sums: Carried::new(),
        }),
        Err(lost) => Err(lost),
    }
}

impl Idle {
    /// Chooses an upload of 32 bytes to the slot's length less one page. Nothing in the slot is touched.
    ///
    /// It needs one record.
    pub fn choose<F: Flash>(
        self,
        flash: &mut F,
        announcement: &Announcement,
    ) -> Result<Receiving, Lost>
        requires layout { geometry_of self.layout ≡ (F.state flash.old).geometry }
        requires says { IfSome (F.state flash.old).bytes (Says (known_idle self)) }
        requires least { 32 ≤ announcement.now.length }
        requires most { announcement.now.length + (geometry_of self.layout).page ≤ slot_size (geometry_of self.layout) }
        ensures moved { Moved self.layout (upload_spots self.layout) 1 (one_step (Choose announcement.now)) (upload_end result) (F.state flash.old) (F.state flash.new) }
        ensures done { OnOk result (Done self.layout (upload_spots self.layout) 1 (one_step (Choose announcement.now)) (F.state flash.old) (F.state flash.new)) }
        ensures reads { ReadsAtMost 4096 (F.state flash.old).bytes_read (F.state flash.new).bytes_read }
        ensures changes { ChangesAtMost 2 8 (F.state flash.old).changes (F.state flash.new).changes }
        ensures lost { IfErr result (λ lost. lost.state.layout ≡ self.layout) }
        ensures idle { IfErr result (λ lost. IsIdle lost.fault → (F.state flash.new).bytes ≡ (F.state flash.old).bytes) }
        ensures formatted { IfErr result (λ lost. lost.fault ≡ UploadFault.Unformatted → ⊥) }
        ensures says { IfOk result (λ receiving. IfSome (F.state flash.new).bytes (Says (known_receiving receiving))) }
        ensures chosen { IfOk result (λ receiving. (receiving.layout ≡ self.layout) × (receiving.announcement ≡ announcement.now) × (receiving.offset ≡ 0)) }
        ensures worn { IfErr result (λ lost. lost.fault ≡ UploadFault.Worn → CanTake self.progress.bank.generation 1 → ⊥) }
        ensures fresh { OnOk result (CanTake self.progress.bank.generation 1) }
        ensures spends { OnOk result (AimsAtRecord self.layout (F.state flash.old).aim → Smaller (F.state flash.old).patience (F.state flash.new).patience) }
    {
        let Idle {
            layout,
            progress,
            ..
        } = self;
        begin(layout, progress, flash, announcement)
    }
}

impl Receiving {
    /// Chooses another upload, of 32 bytes to the slot's length less one page. Nothing in the slot is touched.
    ///
    /// It needs one record.
    pub fn choose<F: Flash>(
        self,
        flash: &mut F,
        announcement: &Announcement,
    ) -> Result<Receiving, Lost>
        requires layout { geometry_of self.layout ≡ (F.state flash.old).geometry }
        requires says { IfSome (F.state flash.old).bytes (Says (known_receiving self)) }
        requires least { 32 ≤ announcement.now.length }
        requires most { announcement.now.length + (geometry_of self.layout).page ≤ slot_size (geometry_of self.layout) }
        ensures moved { Moved self.layout (upload_spots self.layout) 1 (one_step (Choose announcement.now)) (upload_end result) (F.state flash.old) (F.state flash.new) }
        ensures done { OnOk result (Done self.layout (upload_spots self.layout) 1 (one_step (Choose announcement.now)) (F.state flash.old) (F.state flash.new)) }
        ensures reads { ReadsAtMost 4096 (F.state flash.old).bytes_read (F.state flash.new).bytes_read }
        ensures changes { ChangesAtMost 2 8 (F.state flash.old).changes (F.state flash.new).changes }
        ensures lost { IfErr result (λ lost. lost.state.layout ≡ self.layout) }
        ensures idle { IfErr result (λ lost. IsIdle lost.fault → (F.state flash.new).bytes ≡ (F.state flash.old).bytes) }
        ensures formatted { IfErr result (λ lost. lost.fault ≡ UploadFault.Unformatted → ⊥) }
        ensures says { IfOk result (λ receiving. IfSome (F.state flash.new).bytes (Says (known_receiving receiving))) }
        ensures chosen { IfOk result (λ receiving. (receiving.layout ≡ self.layout) × (receiving.announcement ≡ announcement.now) × (receiving.offset ≡ 0)) }
        ensures worn { IfErr result (λ lost. lost.fault ≡ UploadFault.Worn → CanTake self.progress.bank.generation 1 → ⊥) }
        ensures fresh { OnOk result (CanTake self.progress.bank.generation 1) }
        ensures spends { OnOk result (AimsAtRecord self.layout (F.state flash.old).aim → Smaller (F.state flash.old).patience (F.state flash.new).patience) }
    {
        let Receiving {
            layout,
            progress,
            ..
        } = self;
        begin(layout, progress, flash, announcement)
    }
}

impl Whole {
    /// Chooses another upload, of 32 bytes to the slot's length less one page. Nothing in the slot is touched.
    ///
    /// It needs one record.
    pub fn choose<F: Flash>(
        self,
        flash: &mut F,
        announcement: &Announcement,
    ) -> Result<Receiving, Lost>
        requires layout { geometry_of self.layout ≡ (F.state flash.old).geometry }
        requires says { IfSome (F.state flash.old).bytes (Says (known_whole self)) }
        requires least { 32 ≤ announcement.now.length }
        requires most { announcement.now.length + (geometry_of self.layout).page ≤ slot_size (geometry_of self.layout) }
        ensures moved { Moved self.layout (upload_spots self.layout) 1 (one_step (Choose announcement.now)) (upload_end result) (F.state flash.old) (F.state flash.new) }
        ensures done { OnOk result (Done self.layout (upload_spots self.layout) 1 (one_step (Choose announcement.now)) (F.state flash.old) (F.state flash.new)) }
        ensures reads { ReadsAtMost 4096 (F.state flash.old).bytes_read (F.state flash.new).bytes_read }
        ensures changes { ChangesAtMost 2 8 (F.state flash.old).changes (F.state flash.new).changes }
        ensures lost { IfErr result (λ lost. lost.state.layout ≡ self.layout) }
        ensures idle { IfErr result (λ lost. IsIdle lost.fault → (F.state flash.new).bytes ≡ (F.state flash.old).bytes) }
        ensures formatted { IfErr result (λ lost. lost.fault ≡ UploadFault.Unformatted → ⊥) }
        ensures says { IfOk result (λ receiving. IfSome (F.state flash.new).bytes (Says (known_receiving receiving))) }
        ensures chosen { IfOk result (λ receiving. (receiving.layout ≡ self.layout) × (receiving.announcement ≡ announcement.now) × (receiving.offset ≡ 0)) }
        ensures worn { IfErr result (λ lost. lost.fault ≡ UploadFault.Worn → CanTake self.progress.bank.generation 1 → ⊥) }
        ensures fresh { OnOk result (CanTake self.progress.bank.generation 1) }
        ensures spends { OnOk result (AimsAtRecord self.layout (F.state flash.old).aim → Smaller (F.state flash.old).patience (F.state flash.new).patience) }
    {
        let Whole {
            layout,
            progress,
            ..
        } = self;
        begin(layout, progress, flash, announcement)
    }
}
