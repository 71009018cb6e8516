// A part of an upload is stored.
ghost use Rattle.std.specs.Prelude.{◌≡◌, ◌+◌, ◌*◌, ◌<◌, ◌≤◌, ◌%◌, length, IsTrue, IsSome, OnOk, IfOk, IfErr, IfSome};
ghost use Rattle.smp_flash.specs.Area.{Told};
ghost use Rattle.smp_flash.specs.Calls.{Smaller, ReadsAtMost};
ghost use Rattle.smp_flash.specs.Geometry.{slot_size};
ghost use Rattle.smp_flash.specs.Layout.{geometry_of, progress_of, upload_spots};
ghost use Rattle.smp_gate.specs.Newest.{AgesAtMost};
ghost use Rattle.smp_model.specs.declared.device.Side.{Side as Slots};
ghost use Rattle.smp_model.specs.Sides.{side_settle_steps};
ghost use Rattle.smp_model.specs.Uploads.{kept};
ghost use Rattle.smp_progress.specs.State.{CanTake, AimsAtRecord};
ghost use Rattle.smp_slot.specs.Costs.{begun};
ghost use Rattle.smp_upload.specs.Bytes.{SideStands};
ghost use Rattle.smp_upload.specs.Faults.{upload_end, IsIdle};
ghost use Rattle.smp_upload.specs.Moves.{Moved, Done};
ghost use Rattle.smp_upload.specs.Needs.{chunk_records};
ghost use Rattle.smp_upload.specs.States.{Says, known_chunked, known_receiving, part_of, part_steps, chunk_said};
ghost use Rattle.smp_upload.specs.Storing.{Filled, Settled, SaysAt};

use crate::faults::lost;
use crate::laws::sides_are_told_apart;
use crate::settling::settle;
use crate::states::{Chunked, Lost, Receiving, UploadFault};
use crate::storing::{Stored, store};
use smp_flash::{Flash, Layout};
use smp_model::Announcement;
use smp_progress::Progress;
use smp_tlv::Carried;

/// The part of the data that is kept: all of it where it ends the upload, and else its whole write units.
fn keep<'a>(layout: &Layout, size: u32, offset: u32, bytes: &'a [u8]) -> &'a [u8]
    requires fits { offset + length bytes.now ≤ size }
    requires begins { offset % (geometry_of layout.now).unit ≡ 0 }
    ensures kept { result.now ≡ kept (geometry_of layout.now).unit size offset bytes.now }
    ensures most { length result.now ≤ length bytes.now }
    ensures whole { offset + length result.now < size → (offset + length result.now) % (geometry_of layout.now).unit ≡ 0 }
{
    let unit = layout.geometry().unit;
    if offset as usize + bytes.len() == size as usize {
        return bytes;
    }
    &bytes[..unit as usize * (bytes.len() / unit as usize)]
}

/// The records that a part needs.
fn records_of(
    layout: &Layout,
    announcement: Announcement,
    offset: u32,
    bytes: &[u8],
    part: &[u8],
) -> u32
    requires fits { offset + length bytes.now ≤ announcement.length }
    requires part { part.now ≡ kept (geometry_of layout.now).unit announcement.length offset bytes.now }
    requires most { length part.now ≤ length bytes.now }
    ensures records { result ≡ chunk_records (geometry_of layout.now).unit (record { announcement = announcement; offset = offset }) bytes.now }
    ensures none { length part.now ≡ 0 → result ≡ 0 }
    ensures one { 0 < length part.now → 1 ≤ result }
    ensures two { 0 < length part.now → offset + length part.now ≡ announcement.length → IsSome announcement.digest → result ≡ 2 }
{
    if part.is_empty() {
        0
    } else if offset as usize + bytes.len() == announcement.length as usize
        && announcement.digest.is_some()
    {
        2
    } else {
        1
    }
}

/// What a stored part leaves: a complete upload is settled.
fn go_on<F: Flash>(
    layout: Layout,
    stored: Stored,
    flash: &mut F,
    announcement: Announcement,
    offset: u32,
) -> Result<Chunked, Lost>
    requires layout { geometry_of layout ≡ (F.state flash.old).geometry }
    requires place { stored.progress.layout ≡ layout }
    requires sure { IsTrue stored.progress.bank.sure }
    requires filled { IfSome (F.state flash.old).bytes (Filled layout stored.progress announcement offset stored.sums) }
    requires least { 32 ≤ announcement.length }
    requires most { announcement.length + (geometry_of layout).page ≤ slot_size (geometry_of layout) }
    requires within { offset ≤ announcement.length }
    requires whole { offset < announcement.length → offset % (geometry_of layout).unit ≡ 0 }
    requires room { offset ≡ announcement.length → IsSome announcement.digest → CanTake stored.progress.bank.generation 1 }
    ensures moved { Moved layout (upload_spots layout) 1 side_settle_steps (upload_end result) (F.state flash.old) (F.state flash.new) }
    ensures done { OnOk result (Done layout (upload_spots layout) 1 side_settle_steps (F.state flash.old) (F.state flash.new)) }
    ensures reads { ReadsAtMost 135198 (F.state flash.old).bytes_read (F.state flash.new).bytes_read }
    ensures settled { Told (Settled layout) (F.state flash.old).bytes (F.state flash.new).bytes }
    ensures says { IfOk result (λ chunked. IfSome (F.state flash.new).bytes (Says (known_chunked chunked))) }
    ensures layout { IfOk result (λ chunked. (known_chunked chunked).layout ≡ layout) }
    ensures said { IfOk result (λ chunked. IfSome (F.state flash.old).bytes (SaysAt layout announcement.length offset chunked)) }
    ensures lost { IfErr result (λ lost. lost.state.layout ≡ layout) }
    ensures formatted { IfErr result (λ lost. lost.fault ≡ UploadFault.Unformatted → ⊥) }
    ensures worn { IfErr result (λ lost. lost.fault ≡ UploadFault.Worn → ⊥) }
{
    sides_are_told_apart();
    let Stored { progress, sums, .. } = stored;
    if offset < announcement.length {
        return Ok(Chunked::Receiving(Receiving {
            layout,
            progress,
            announcement,
            offset,
            sums,
        }));
    }
    settle(layout, progress, flash, announcement, sums)
}

impl Receiving {
    /// Stores the kept part of the data: all of it where it ends the upload, and else its whole write units.
    ///
    /// A part that keeps something needs one record, and one that completes an upload with a digest two.
    pub fn chunk<F: Flash>(self, flash: &mut F, bytes: &[u8]) -> Result<Chunked, Lost>
        requires layout { geometry_of self.layout ≡ (F.state flash.old).geometry }
        requires says { IfSome (F.state flash.old).bytes (Says (known_receiving self)) }
        requires fits { self.offset + length bytes.now ≤ self.announcement.length }
        ensures moved { Moved self.layout (upload_spots self.layout) 2 (part_steps (geometry_of self.layout).unit bytes.now) (upload_end result) (F.state flash.old) (F.state flash.new) }
        ensures done { OnOk result (Done self.layout (upload_spots self.layout) 2 (part_steps (geometry_of self.layout).unit bytes.now) (F.state flash.old) (F.state flash.new)) }
        ensures lost { IfErr result (λ lost. lost.state.layout ≡ self.layout) }
        ensures idle { IfErr result (λ lost. IsIdle lost.fault → (F.state flash.new).bytes ≡ (F.state flash.old).bytes) }
        ensures formatted { IfErr result (λ lost. lost.fault ≡ UploadFault.Unformatted → ⊥) }
        ensures says { IfOk result (λ chunked. IfSome (F.state flash.new).bytes (Says (known_chunked chunked))) }
        ensures layout { IfOk result (λ chunked. (known_chunked chunked).layout ≡ self.layout) }

        // The reply that the answer stands for is the one to the part.
        ensures said { IfOk result (λ chunked. IfSome (F.state flash.old).bytes (λ held. (side : Slots) → SideStands self.layout side held → chunk_said self.announcement.length chunked ≡ (part_of (geometry_of self.layout).unit bytes.now side.upload).reply)) }
        ensures ages { let n = chunk_records (geometry_of self.layout).unit (record { announcement = self.announcement; offset = self.offset }) bytes.now in Told (AgesAtMost n (progress_of self.layout)) (F.state flash.old).bytes (F.state flash.new).bytes }
        ensures worn { let n = chunk_records (geometry_of self.layout).unit (record { announcement = self.announcement; offset = self.offset }) bytes.now in IfErr result (λ lost. lost.fault ≡ UploadFault.Worn → CanTake self.progress.bank.generation n → ⊥) }
        ensures fresh { let n = chunk_records (geometry_of self.layout).unit (record { announcement = self.announcement; offset = self.offset }) bytes.now in OnOk result (CanTake self.progress.bank.generation n) }
        ensures spends { let n = chunk_records (geometry_of self.layout).unit (record { announcement = self.announcement; offset = self.offset }) bytes.now in OnOk result (0 < n → AimsAtRecord self.layout (F.state flash.old).aim → Smaller (F.state flash.old).patience (F.state flash.new).patience) }

        // The bytes of a long upload are not read again.
        ensures reads { length bytes.now ≤ 2048 → ReadsAtMost 200000 (F.state flash.old).bytes_read (F.state flash.new).bytes_read }
    {
        sides_are_told_apart();
        let Receiving {
            layout,
            progress,
            announcement,
            offset,
            sums,
            ..
        } = self;
        let part = keep(&layout, announcement.length, offset, bytes);
        if !progress.can_take(records_of(&layout, announcement, offset, bytes, part)) {
            return Err(lost(layout, UploadFault::Worn));
        }
        if part.is_empty() {
            return Ok(Chunked::Receiving(Receiving {
                layout,
                progress,
                announcement,
                offset,
                sums,
            }));
        }
        match store(layout, progress, flash, announcement, offset, sums, part) {
            Err(lost) => Err(lost),
            Ok(stored) => go_on(
                layout,
                stored,
                flash,
                announcement,
                offset + part.len() as u32,
            ),
        }
    }
}
