// What stands on a flash, as far as an upload goes.
ghost use Rattle.std.specs.Prelude.{◌≡◌, ◌+◌, ◌≤◌, ◌∷◌, [], is_some, IsTrue, IfOk, IfErr, IfSome, None, Some};
ghost use Rattle.std.specs.Option.{ForSome};
ghost use Rattle.smp_flash.specs.Calls.{Calls};
ghost use Rattle.smp_flash.specs.Layout.{geometry_of, slot_of, progress_of, area_spot};
ghost use Rattle.smp_gate.specs.Newest.{sides};
ghost use Rattle.smp_model.specs.Image.{good_image};
ghost use Rattle.smp_progress.specs.Cells.{HasRecord};
ghost use Rattle.smp_progress.specs.Record.{IsRecord};
ghost use Rattle.smp_progress.specs.State.{ProgressSays};
ghost use Rattle.smp_progress.specs.declared.record.Record.{Record as Recorded};
ghost use Rattle.smp_upload.specs.Bytes.{SideReadable, active_in, pending_in};
ghost use Rattle.smp_upload.specs.Faults.{upload_end};
ghost use Rattle.smp_upload.specs.Mounting.{Looked};
ghost use Rattle.smp_upload.specs.Moves.{mount_spots};

use crate::faults::{from_bank, from_call, lost};
use crate::reading::is_good;
use crate::states::{Lost, UploadFault};
use smp_flash::{Flash, Layout, told_bytes_have_the_size};
use smp_model::Mark;
use smp_progress::{Progress, Record};
use smp_slot::{marked, slots_fit};

/// A record that stands, with its value.
#[derive(Drop)]
pub struct Opened {
    pub progress: Progress,
    pub entry: Record,
}

/// Finds the record that stands.
fn find_record<F: Flash>(layout: Layout, flash: &mut F) -> Result<Opened, Lost>
    requires { geometry_of layout ≡ (F.state flash.old).geometry }
    ensures calls { Calls (sides (progress_of layout)) (upload_end result) (F.state flash.old) (F.state flash.new) }
    ensures kept { (F.state flash.new).bytes ≡ (F.state flash.old).bytes }
    ensures place { IfOk result (λ opened. (opened.progress.layout ≡ layout) × (opened.progress.entry ≡ opened.entry) × IsTrue opened.progress.bank.sure) }
    ensures lawful { IfOk result (λ opened. IsRecord (geometry_of layout) opened.entry) }
    ensures says { IfOk result (λ opened. IfSome (F.state flash.old).bytes (ProgressSays opened.progress)) }
    ensures unformatted { IfErr result (λ lost. lost.fault ≡ UploadFault.Unformatted → IfSome (F.state flash.old).bytes (λ held. (entry : Recorded) → HasRecord layout entry held → ⊥)) }
    ensures worn { IfErr result (λ lost. lost.fault ≡ UploadFault.Worn → ⊥) }
    ensures lost { IfErr result (λ lost. lost.state.layout ≡ layout) }
{
    match Progress::open(flash, &layout) {
        Ok((progress, entry)) => Ok(Opened { progress, entry }),
        Err(fault) => Err(lost(layout, from_bank(fault))),
    }
}

/// The mark of the secondary slot.
fn find_mark<F: Flash>(layout: Layout, flash: &mut F) -> Result<Option<Mark>, Lost>
    requires { geometry_of layout ≡ (F.state flash.old).geometry }
    ensures calls { Calls (area_spot (slot_of layout 1) ∷ []) (upload_end result) (F.state flash.old) (F.state flash.new) }
    ensures kept { (F.state flash.new).bytes ≡ (F.state flash.old).bytes }
    ensures mark { IfOk result (λ mark. IfSome (F.state flash.old).bytes (λ held. mark ≡ pending_in layout held)) }
    ensures unformatted { IfErr result (λ lost. lost.fault ≡ UploadFault.Unformatted → ⊥) }
    ensures worn { IfErr result (λ lost. lost.fault ≡ UploadFault.Worn → ⊥) }
    ensures lost { IfErr result (λ lost. lost.state.layout ≡ layout) }
{
    slots_fit();
    match marked(flash, layout.slot(1)) {
        Ok(mark) => Ok(mark),
        Err(fault) => Err(lost(layout, from_call(fault))),
    }
}

/// What stands on a flash: the record, and the mark of the secondary slot.
#[derive(Drop)]
pub struct Sight {
    pub progress: Progress,
    pub entry: Record,
    pub mark: Option<Mark>,
}

/// Reads what stands on a flash, and whether its primary slot begins with a good image: `Unformatted` where it doesn't, and
/// where no record stands.
pub fn look<F: Flash>(layout: Layout, flash: &mut F) -> Result<Sight, Lost>
    requires { geometry_of layout ≡ (F.state flash.old).geometry }
    ensures calls { Calls (mount_spots layout) (upload_end result) (F.state flash.old) (F.state flash.new) }
    ensures kept { (F.state flash.new).bytes ≡ (F.state flash.old).bytes }
    ensures place { IfOk result (λ sight. (sight.progress.layout ≡ layout) × (sight.progress.entry ≡ sight.entry) × IsTrue sight.progress.bank.sure) }
    ensures lawful { IfOk result (λ sight. IsRecord (geometry_of layout) sight.entry) }
    ensures looked { IfOk result (λ sight. IfSome (F.state flash.old).bytes (Looked layout sight.progress sight.mark)) }
    ensures unformatted { IfErr result (λ lost. lost.fault ≡ UploadFault.Unformatted → IfSome (F.state flash.old).bytes (λ held. SideReadable layout held → ⊥)) }
    ensures worn { IfErr result (λ lost. lost.fault ≡ UploadFault.Worn → ⊥) }
    ensures lost { IfErr result (λ lost. lost.state.layout ≡ layout) }
{
    told_bytes_have_the_size(flash);
    let opened = match find_record(layout, flash) {
        Ok(opened) => opened,
        Err(lost) => return Err(lost),
    };
    match is_good(layout, flash) {
        Ok(true) => {}
        Ok(false) => return Err(lost(layout, UploadFault::Unformatted)),
        Err(lost) => return Err(lost),
    }
    match find_mark(layout, flash) {
        Ok(mark) => Ok(Sight {
            progress: opened.progress,
            entry: opened.entry,
            mark,
        }),
        Err(lost) => Err(lost),
    }
}
