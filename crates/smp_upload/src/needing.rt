// The records that a mount needs for an unfinished upload.
ghost use Rattle.std.specs.Prelude.{◌≡◌, ◌+◌, ◌<◌, ◌≤◌, ◌%◌, true, false, IfOk, IfErr, IfSome};
ghost use Rattle.smp_flash.specs.Calls.{Calls, ReadsAtMost};
ghost use Rattle.smp_flash.specs.Geometry.{slot_size};
ghost use Rattle.smp_flash.specs.Layout.{geometry_of, upload_spots};
ghost use Rattle.smp_upload.specs.Bytes.{CleanFrom};
ghost use Rattle.smp_upload.specs.Faults.{upload_end};
ghost use Rattle.smp_upload.specs.Rescuing.{HeldAs, NeedsJust};

use crate::below::is_clean_behind;
use crate::states::{Lost, UploadFault};
use smp_flash::{Flash, Layout};
use smp_model::Announcement;
use smp_progress::{Progress, records_are_told_apart};

/// How many records a mount needs: one to end a rescue, two for a page that is not clean, none else.
pub fn records_needed<F: Flash>(
    layout: Layout,
    progress: &Progress,
    flash: &mut F,
    announcement: Announcement,
    offset: u32,
    rescue: bool,
) -> Result<u32, Lost>
    requires layout { geometry_of layout ≡ (F.state flash.old).geometry }
    requires held { IfSome (F.state flash.old).bytes (HeldAs layout rescue progress.now announcement offset) }
    requires most { announcement.length + (geometry_of layout).page ≤ slot_size (geometry_of layout) }
    requires below { offset < announcement.length }
    ensures calls { Calls (upload_spots layout) (upload_end result) (F.state flash.old) (F.state flash.new) }
    ensures kept { (F.state flash.new).bytes ≡ (F.state flash.old).bytes }
    ensures reads { ReadsAtMost 4096 (F.state flash.old).bytes_read (F.state flash.new).bytes_read }
    ensures needs { IfOk result (λ n. IfSome (F.state flash.old).bytes (NeedsJust layout n)) }
    ensures clean { IfOk result (λ n. n ≡ 0 → IfSome (F.state flash.old).bytes (CleanFrom layout offset announcement.length)) }
    ensures inner { IfOk result (λ n. n ≡ 2 → 0 < offset % (geometry_of layout).page) }
    ensures rescue { IfOk result (λ n. n ≡ 1 → rescue ≡ true) }
    ensures plain { IfOk result (λ n. (n ≡ 1 → ⊥) → rescue ≡ false) }
    ensures most { IfOk result (λ n. n ≤ 2) }
    ensures lost { IfErr result (λ lost. lost.state.layout ≡ layout) }
    ensures worn { IfErr result (λ lost. lost.fault ≡ UploadFault.Worn → ⊥) }
    ensures formatted { IfErr result (λ lost. lost.fault ≡ UploadFault.Unformatted → ⊥) }
{
    records_are_told_apart();
    if rescue {
        return Ok(1);
    }
    match is_clean_behind(layout, flash, offset) {
        Ok(true) => Ok(0),
        Ok(false) => Ok(2),
        Err(lost) => Err(lost),
    }
}
