// The states of an upload.
ghost use Rattle.std.specs.Prelude.{◌≡◌, ◌<◌, ◌+◌, ◌≤◌, ◌%◌, IsTrue};
ghost use Rattle.smp_flash.specs.Geometry.{slot_size};
ghost use Rattle.smp_flash.specs.Layout.{geometry_of};

use smp_flash::{Layout, Operation};
use smp_model::{Announcement, ImageInfo, Mark};
use smp_progress::Progress;
use smp_tlv::Carried;

/// Why a call on the state of an upload did not go through.
#[derive(Clone, Copy, Debug, PartialEq, Eq)]
pub enum UploadFault {
    /// The flash stands for no state: from `mount` alone.
    Unformatted,
    /// This operation of the flash failed.
    Fault(Operation),
    /// The flash is off.
    Off,
    /// The record's bank can't take the records that the call needs, and nothing changed.
    Worn,
}

/// Nothing is known of the flash.
#[derive(Drop)]
pub struct Unmounted {
    pub layout: Layout,
}

/// There is no upload.
#[derive(Drop)]
pub struct Idle {
    pub layout: Layout,
    pub progress: Progress,
    ghost place: { progress.layout ≡ layout },
    ghost sure: { IsTrue progress.bank.sure },
}

/// An upload is under way.
#[derive(Drop)]
pub struct Receiving {
    pub layout: Layout,
    pub progress: Progress,
    ghost place: { progress.layout ≡ layout },
    ghost sure: { IsTrue progress.bank.sure },
    pub announcement: Announcement,
    /// How many bytes are accepted: a multiple of the write unit, less than was announced.
    pub offset: u32,
    /// The sums of the accepted bytes.
    pub sums: Carried,
    ghost least: { 32 ≤ announcement.length },
    ghost most: { announcement.length + (geometry_of layout).page ≤ slot_size (geometry_of layout) },
    ghost whole: { offset % (geometry_of layout).unit ≡ 0 },
    ghost below: { offset < announcement.length },
}

/// An upload is complete, and its bytes have the announced digest.
#[derive(Drop)]
pub struct Whole {
    pub layout: Layout,
    pub progress: Progress,
    ghost place: { progress.layout ≡ layout },
    ghost sure: { IsTrue progress.bank.sure },
    pub announcement: Announcement,
    /// The image that the bytes begin with, exactly where it is a good one.
    pub image: Option<ImageInfo>,
    ghost least: { 32 ≤ announcement.length },
    ghost most: { announcement.length + (geometry_of layout).page ≤ slot_size (geometry_of layout) },
}

/// The secondary slot is pending.
#[derive(Drop)]
pub struct Pending {
    pub layout: Layout,
    pub progress: Progress,
    ghost place: { progress.layout ≡ layout },
    ghost sure: { IsTrue progress.bank.sure },
    pub announcement: Announcement,
    pub image: ImageInfo,
    pub mark: Mark,
    ghost least: { 32 ≤ announcement.length },
}

/// What a mount finds.
#[derive(Drop)]
pub enum Mounted {
    Idle(Idle),
    Receiving(Receiving),
    Whole(Whole),
    Pending(Pending),
}

/// What a part of an upload leaves.
#[derive(Drop)]
pub enum Chunked {
    /// Bytes are still missing.
    Receiving(Receiving),
    /// The upload is complete: with `Some(true)` where a digest was announced, which is then right.
    Whole(Whole, Option<bool>),
    /// The upload was complete, without its announced digest, and is given up.
    Dropped(Idle),
}

/// What a call that did not go through hands back: the state without what it knew.
#[derive(Drop)]
pub struct Lost {
    pub state: Unmounted,
    pub fault: UploadFault,
}
