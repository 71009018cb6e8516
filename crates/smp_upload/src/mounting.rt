// The state of an upload is found, and the flash is made to show it.
ghost use Rattle.std.specs.Prelude.{◌≡◌, ◌+◌, ◌<◌, ◌≤◌, ◌%◌, true, false, ℕ, None, Some, IsTrue, OnOk, IfOk, IfErr, IfSome};
ghost use Rattle.smp_flash.specs.Area.{Told};
ghost use Rattle.smp_flash.specs.Calls.{Smaller};
ghost use Rattle.smp_flash.specs.Geometry.{slot_size};
ghost use Rattle.smp_flash.specs.Layout.{geometry_of, progress_of};
ghost use Rattle.smp_gate.specs.Newest.{newest_generation, AgesAtMost};
ghost use Rattle.smp_model.specs.Sides.{side_settle_steps};
ghost use Rattle.smp_progress.specs.Record.{IsRecord, IsUpload};
ghost use Rattle.smp_progress.specs.State.{CanTake, AimsAtRecord};
ghost use Rattle.smp_progress.specs.declared.record.Record.TheVariants as records;
ghost use Rattle.smp_upload.specs.Bytes.{SideReadable, CleanFrom};
ghost use Rattle.smp_upload.specs.Faults.{upload_end, IsIdle};
ghost use Rattle.smp_upload.specs.Mounting.{Looked, Mounts, IsWorn};
ghost use Rattle.smp_upload.specs.Moves.{Moved, Done, mount_spots};
ghost use Rattle.smp_upload.specs.Needs.{MountNeeds};
ghost use Rattle.smp_upload.specs.Rescuing.{HeldAs, SumsHeld, NeedsJust};
ghost use Rattle.smp_upload.specs.States.{Says, known_mounted};
ghost use Rattle.smp_upload.specs.Storing.{Spoils};

use crate::faults::lost;
use crate::laws::sides_are_told_apart;
use crate::looking::{Sight, look};
use crate::needing::records_needed;
use crate::reading::finish;
use crate::restoring::{end_rescue, restore};
use crate::settling::{drop_upload, is_wrong};
use crate::states::{Idle, Lost, Mounted, Pending, Receiving, Unmounted, UploadFault, Whole};
use crate::summing::sums_of;
use smp_flash::{Flash, Layout};
use smp_gate::bank_says_what_stands;
use smp_model::{Announcement, Mark};
use smp_progress::{Progress, Record, records_are_told_apart};
use smp_tlv::Carried;

/// There is no upload: a mark is then on no image.
fn find_none<F: Flash>(
    layout: Layout,
    progress: Progress,
    flash: &F,
    mark: Option<Mark>,
) -> Result<Mounted, Lost>
    requires place { progress.layout ≡ layout }
    requires sure { IsTrue progress.bank.sure }
    requires looked { IfSome (F.state flash.now).bytes (Looked layout progress mark) }
    requires entry { progress.entry ≡ records.None }
    ensures { Mounts layout result (F.state flash.now) (F.state flash.now) }
{
    records_are_told_apart();
    sides_are_told_apart();
    bank_says_what_stands();
    match mark {
        None => Ok(Mounted::Idle(Idle { layout, progress })),
        Some(_) => Err(lost(layout, UploadFault::Unformatted)),
    }
}

/// Makes the page of an upload clean that is under way, by so many records.
fn make_clean<F: Flash>(
    layout: Layout,
    progress: Progress,
    flash: &mut F,
    announcement: Announcement,
    offset: u32,
    sums: Carried,
    rescue: bool,
    needed: u32,
) -> Result<Mounted, Lost>
    requires layout { geometry_of layout ≡ (F.state flash.old).geometry }
    requires place { progress.layout ≡ layout }
    requires sure { IsTrue progress.bank.sure }
    requires held { IfSome (F.state flash.old).bytes (HeldAs layout rescue progress announcement offset) }
    requires sums { IfSome (F.state flash.old).bytes (SumsHeld layout sums) }
    requires needs { IfSome (F.state flash.old).bytes (NeedsJust layout needed) }
    requires least { 32 ≤ announcement.length }
    requires most { announcement.length + (geometry_of layout).page ≤ slot_size (geometry_of layout) }
    requires below { offset < announcement.length }
    requires whole { offset % (geometry_of layout).unit ≡ 0 }
    requires clean { needed ≡ 0 → IfSome (F.state flash.old).bytes (CleanFrom layout offset announcement.length) }
    requires inner { 0 < needed → 0 < offset % (geometry_of layout).page }
    requires under_way { needed ≡ 1 → rescue ≡ true }
    requires plain { (needed ≡ 1 → ⊥) → rescue ≡ false }
    requires few { needed ≤ 2 }
    requires room { CanTake progress.bank.generation needed }
    ensures { Mounts layout result (F.state flash.old) (F.state flash.new) }
{
    records_are_told_apart();
    sides_are_told_apart();
    bank_says_what_stands();
    if needed == 0 {
        return Ok(Mounted::Receiving(Receiving {
            layout,
            progress,
            announcement,
            offset,
            sums,
        }));
    }
    if needed == 1 {
        return match end_rescue(layout, progress, flash, announcement, offset, sums) {
            Ok(receiving) => Ok(Mounted::Receiving(receiving)),
            Err(lost) => Err(lost),
        };
    }
    match restore(layout, progress, flash, announcement, offset, sums) {
        Ok(receiving) => Ok(Mounted::Receiving(receiving)),
        Err(lost) => Err(lost),
    }
}

/// An upload that is under way: its page is made clean.
fn receive<F: Flash>(
    layout: Layout,
    progress: Progress,
    flash: &mut F,
    announcement: Announcement,
    offset: u32,
    rescue: bool,
) -> Result<Mounted, Lost>
    requires layout { geometry_of layout ≡ (F.state flash.old).geometry }
    requires place { progress.layout ≡ layout }
    requires sure { IsTrue progress.bank.sure }
    requires held { IfSome (F.state flash.old).bytes (HeldAs layout rescue progress announcement offset) }
    requires least { 32 ≤ announcement.length }
    requires most { announcement.length + (geometry_of layout).page ≤ slot_size (geometry_of layout) }
    requires below { offset < announcement.length }
    requires whole { offset % (geometry_of layout).unit ≡ 0 }
    requires inner { rescue ≡ true → 0 < offset % (geometry_of layout).page }
    ensures { Mounts layout result (F.state flash.old) (F.state flash.new) }
{
    records_are_told_apart();
    sides_are_told_apart();
    bank_says_what_stands();
    let needed = match records_needed(layout, &progress, flash, announcement, offset, rescue) {
        Ok(needed) => needed,
        Err(lost) => return Err(lost),
    };
    if !progress.can_take(needed) {
        return Err(lost(layout, UploadFault::Worn));
    }
    match sums_of(layout, flash, offset, rescue) {
        Ok(sums) => make_clean(
            layout,
            progress,
            flash,
            announcement,
            offset,
            sums,
            rescue,
            needed,
        ),
        Err(lost) => Err(lost),
    }
}

/// A complete upload without its announced digest is given up.
fn give_up<F: Flash>(
    layout: Layout,
    progress: Progress,
    flash: &mut F,
    announcement: Announcement,
) -> Result<Mounted, Lost>
    requires layout { geometry_of layout ≡ (F.state flash.old).geometry }
    requires place { progress.layout ≡ layout }
    requires sure { IsTrue progress.bank.sure }
    requires held { IfSome (F.state flash.old).bytes (HeldAs layout false progress announcement announcement.length) }
    requires wrong { IfSome (F.state flash.old).bytes (Spoils layout true) }
    ensures { Mounts layout result (F.state flash.old) (F.state flash.new) }
{
    records_are_told_apart();
    bank_says_what_stands();
    if !progress.can_take(1) {
        return Err(lost(layout, UploadFault::Worn));
    }
    match drop_upload(layout, progress, flash, announcement) {
        Ok(idle) => Ok(Mounted::Idle(idle)),
        Err(lost) => Err(lost),
    }
}

/// A complete upload, of which nothing is pending: it is whole, or it is given up.
fn resolve<F: Flash>(
    layout: Layout,
    progress: Progress,
    flash: &mut F,
    announcement: Announcement,
) -> Result<Mounted, Lost>
    requires layout { geometry_of layout ≡ (F.state flash.old).geometry }
    requires place { progress.layout ≡ layout }
    requires sure { IsTrue progress.bank.sure }
    requires looked { IfSome (F.state flash.old).bytes (Looked layout progress None) }
    requires entry { progress.entry ≡ records.Upload announcement announcement.length false }
    requires least { 32 ≤ announcement.length }
    requires most { announcement.length + (geometry_of layout).page ≤ slot_size (geometry_of layout) }
    ensures { Mounts layout result (F.state flash.old) (F.state flash.new) }
{
    records_are_told_apart();
    sides_are_told_apart();
    bank_says_what_stands();
    let sums = match sums_of(layout, flash, announcement.length, false) {
        Ok(sums) => sums,
        Err(lost) => return Err(lost),
    };
    let finished = match finish(layout, flash, announcement.length, sums) {
        Ok(finished) => finished,
        Err(lost) => return Err(lost),
    };
    if is_wrong(announcement.digest, finished.digest) {
        return give_up(layout, progress, flash, announcement);
    }
    Ok(Mounted::Whole(Whole {
        layout,
        progress,
        announcement,
        image: finished.image,
    }))
}

/// A marked upload: it is whole, and a good image with its announced digest, where the bytes stand for a state at all.
fn find_pending<F: Flash>(
    layout: Layout,
    progress: Progress,
    flash: &mut F,
    announcement: Announcement,
    mark: Mark,
) -> Result<Mounted, Lost>
    requires layout { geometry_of layout ≡ (F.state flash.old).geometry }
    requires place { progress.layout ≡ layout }
    requires sure { IsTrue progress.bank.sure }
    requires looked { IfSome (F.state flash.old).bytes (Looked layout progress (Some mark)) }
    requires entry { progress.entry ≡ records.Upload announcement announcement.length false }
    requires least { 32 ≤ announcement.length }
    requires most { announcement.length + (geometry_of layout).page ≤ slot_size (geometry_of layout) }
    ensures { Mounts layout result (F.state flash.old) (F.state flash.new) }
{
    records_are_told_apart();
    sides_are_told_apart();
    bank_says_what_stands();
    let sums = match sums_of(layout, flash, announcement.length, false) {
        Ok(sums) => sums,
        Err(lost) => return Err(lost),
    };
    let finished = match finish(layout, flash, announcement.length, sums) {
        Ok(finished) => finished,
        Err(lost) => return Err(lost),
    };
    if is_wrong(announcement.digest, finished.digest) {
        return Err(lost(layout, UploadFault::Unformatted));
    }
    match finished.image {
        None => Err(lost(layout, UploadFault::Unformatted)),
        Some(image) => Ok(Mounted::Pending(Pending {
            layout,
            progress,
            announcement,
            image,
            mark,
        })),
    }
}

/// An upload, and nothing is pending.
fn find_upload<F: Flash>(
    layout: Layout,
    progress: Progress,
    flash: &mut F,
    announcement: Announcement,
    offset: u32,
    rescue: bool,
) -> Result<Mounted, Lost>
    requires layout { geometry_of layout ≡ (F.state flash.old).geometry }
    requires place { progress.layout ≡ layout }
    requires sure { IsTrue progress.bank.sure }
    requires looked { IfSome (F.state flash.old).bytes (Looked layout progress None) }
    requires entry { progress.entry ≡ records.Upload announcement offset rescue }
    requires lawful { IsUpload (geometry_of layout) announcement offset rescue }
    ensures { Mounts layout result (F.state flash.old) (F.state flash.new) }
{
    if offset < announcement.length {
        return receive(layout, progress, flash, announcement, offset, rescue);
    }
    resolve(layout, progress, flash, announcement)
}

/// An upload with this mark.
fn find_marked<F: Flash>(
    layout: Layout,
    progress: Progress,
    flash: &mut F,
    announcement: Announcement,
    offset: u32,
    rescue: bool,
    mark: Mark,
) -> Result<Mounted, Lost>
    requires layout { geometry_of layout ≡ (F.state flash.old).geometry }
    requires place { progress.layout ≡ layout }
    requires sure { IsTrue progress.bank.sure }
    requires looked { IfSome (F.state flash.old).bytes (Looked layout progress (Some mark)) }
    requires entry { progress.entry ≡ records.Upload announcement offset rescue }
    requires lawful { IsUpload (geometry_of layout) announcement offset rescue }
    ensures { Mounts layout result (F.state flash.old) (F.state flash.new) }
{
    records_are_told_apart();
    if offset < announcement.length {
        return Err(lost(layout, UploadFault::Unformatted));
    }
    find_pending(layout, progress, flash, announcement, mark)
}

/// Finds the state of what was seen.
fn find<F: Flash>(layout: Layout, sight: Sight, flash: &mut F) -> Result<Mounted, Lost>
    requires layout { geometry_of layout ≡ (F.state flash.old).geometry }
    requires place { sight.progress.layout ≡ layout }
    requires entry { sight.progress.entry ≡ sight.entry }
    requires sure { IsTrue sight.progress.bank.sure }
    requires lawful { IsRecord (geometry_of layout) sight.entry }
    requires looked { IfSome (F.state flash.old).bytes (Looked layout sight.progress sight.mark) }
    ensures { Mounts layout result (F.state flash.old) (F.state flash.new) }
{
    let Sight {
        progress,
        entry,
        mark,
        ..
    } = sight;
    match entry {
        Record::None => find_none(layout, progress, flash, mark),
        Record::Upload {
            announcement,
            offset,
            rescue,
        } => match mark {
            None => find_upload(layout, progress, flash, announcement, offset, rescue),
            Some(mark) => find_marked(layout, progress, flash, announcement, offset, rescue, mark),
        },
    }
}

impl Unmounted {
    /// The regions of an image of a flash, of which nothing is known.
    pub fn new(layout: Layout) -> Unmounted
        ensures { result.layout ≡ layout }
    {
        Unmounted { layout }
    }

    /// Finds the state, and makes the flash show it: a complete upload without its announced digest is given up, a rescue is
    /// ended, and a page that is not clean behind the accepted bytes is rescued. The accepted bytes are read once.
    ///
    /// `Unformatted` comes exactly where the bytes stand for no state: the primary slot does not begin with a good image, no record
    /// stands, or the secondary slot has a mark without a good upload.
    pub fn mount<F: Flash>(self, flash: &mut F) -> Result<Mounted, Lost>
        requires { geometry_of self.layout ≡ (F.state flash.old).geometry }
        ensures moved { Moved self.layout (mount_spots self.layout) 2 side_settle_steps (upload_end result) (F.state flash.old) (F.state flash.new) }
        ensures done { OnOk result (Done self.layout (mount_spots self.layout) 2 side_settle_steps (F.state flash.old) (F.state flash.new)) }
        ensures says { IfOk result (λ mounted. IfSome (F.state flash.new).bytes (Says (known_mounted mounted))) }
        ensures layout { IfOk result (λ mounted. (known_mounted mounted).layout ≡ self.layout) }
        ensures lost { IfErr result (λ lost. lost.state.layout ≡ self.layout) }
        ensures idle { IfErr result (λ lost. IsIdle lost.fault → (F.state flash.new).bytes ≡ (F.state flash.old).bytes) }

        // Exactly where the bytes stand for no side.
        ensures unformatted { IfErr result (λ lost. lost.fault ≡ UploadFault.Unformatted → IfSome (F.state flash.old).bytes (λ held. SideReadable self.layout held → ⊥)) }
        ensures readable { OnOk result (IfSome (F.state flash.old).bytes (SideReadable self.layout)) }

        // It ages the record's bank by the records that it needs at most, is worn exactly where these can't be put, and takes patience
        // where it needs one.
        ensures ages { Told (λ old new. (n : ℕ) → MountNeeds self.layout n old → AgesAtMost n (progress_of self.layout) old new) (F.state flash.old).bytes (F.state flash.new).bytes }
        ensures worn { IfErr result (λ lost. lost.fault ≡ UploadFault.Worn → IfSome (F.state flash.old).bytes (IsWorn self.layout)) }
        ensures fresh { OnOk result (IfSome (F.state flash.old).bytes (λ held. (n : ℕ) → MountNeeds self.layout n held → CanTake (newest_generation (progress_of self.layout) held) n)) }
        ensures spends { OnOk result (IfSome (F.state flash.old).bytes (λ held. (n : ℕ) → MountNeeds self.layout n held → 0 < n → AimsAtRecord self.layout (F.state flash.old).aim → Smaller (F.state flash.old).patience (F.state flash.new).patience)) }
    {
        mount_at(self.layout, flash)
    }
}

/// Finds the state at these regions.
fn mount_at<F: Flash>(layout: Layout, flash: &mut F) -> Result<Mounted, Lost>
    requires { geometry_of layout ≡ (F.state flash.old).geometry }
    ensures { Mounts layout result (F.state flash.old) (F.state flash.new) }
{
    match look(layout, flash) {
        Ok(sight) => find(layout, sight, flash),
        Err(lost) => Err(lost),
    }
}
