// The records of an upload.
ghost use Rattle.std.specs.Prelude.{◌≡◌, ◌+◌, ◌≤◌, ◌<◌, ◌%◌, false, true};
ghost use Rattle.smp_flash.specs.Geometry.{slot_size};
ghost use Rattle.smp_flash.specs.Layout.{geometry_of};
ghost use Rattle.smp_progress.specs.Record.{IsRecord};
ghost use Rattle.smp_progress.specs.declared.record.Record.TheVariants as records;

use smp_flash::Layout;
use smp_model::Announcement;
use smp_progress::Record;

/// The record of an upload of which so many bytes are accepted.
pub fn record_at(layout: &Layout, announcement: Announcement, offset: u32) -> Record
    requires least { 32 ≤ announcement.length }
    requires most { announcement.length + (geometry_of layout.now).page ≤ slot_size (geometry_of layout.now) }
    requires within { offset ≤ announcement.length }
    requires whole { offset < announcement.length → offset % (geometry_of layout.now).unit ≡ 0 }
    ensures entry { result ≡ records.Upload announcement offset false }
    ensures lawful { IsRecord (geometry_of layout.now) result }
{
    let _sizes = layout.geometry();
    Record::Upload {
        announcement,
        offset,
        rescue: false,
    }
}

/// The record of a rescue of the page in which the offset lies.
pub fn rescue_record(layout: &Layout, announcement: Announcement, offset: u32) -> Record
    requires least { 32 ≤ announcement.length }
    requires most { announcement.length + (geometry_of layout.now).page ≤ slot_size (geometry_of layout.now) }
    requires below { offset < announcement.length }
    requires whole { offset % (geometry_of layout.now).unit ≡ 0 }
    requires inner { 0 < offset % (geometry_of layout.now).page }
    ensures entry { result ≡ records.Upload announcement offset true }
    ensures lawful { IsRecord (geometry_of layout.now) result }
{
    let _sizes = layout.geometry();
    Record::Upload {
        announcement,
        offset,
        rescue: true,
    }
}
