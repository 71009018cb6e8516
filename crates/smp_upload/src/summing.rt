// The sums of accepted bytes, read once.
ghost use Rattle.std.specs.Prelude.{◌≡◌, ◌+◌, ◌-◌, ◌<◌, ◌≤◌, ◌%◌, length, true, false, IfOk, IfErr, IfSome, OnOk};
ghost use Rattle.smp_flash.specs.Area.{spot};
ghost use Rattle.smp_flash.specs.Calls.{Calls, ReadsAtMost};
ghost use Rattle.smp_flash.specs.Geometry.{size_of, slot_size};
ghost use Rattle.smp_flash.specs.Layout.{geometry_of, upload_spots};
ghost use Rattle.smp_flash.specs.State.{ended};
ghost use Rattle.smp_tlv.specs.Carried.{Carries};
ghost use Rattle.smp_upload.specs.Bytes.{accepted_in};
ghost use Rattle.smp_upload.specs.Faults.{upload_end};
ghost use Rattle.smp_upload.specs.Summing.{Adds};

use crate::faults::{from_call, lost};
use crate::states::{Lost, UploadFault};
use smp_flash::{CallFault, Flash, Layout, read_part, regions_lie_apart};
use smp_tlv::Carried;

/// How many bytes are read at a time.
const BLOCK: usize = 512;

/// Adds so many bytes of a flash from `at` on to the sums, by way of `into`.
fn add_block<F: Flash>(
    flash: &mut F,
    at: u32,
    size: usize,
    into: &mut [u8],
    sums: &mut Carried,
) -> Result<(), CallFault>
    requires size { length into.old ≡ size }
    requires inside { at + size ≤ size_of (F.state flash.old).geometry }
    requires some { 0 < size }
    ensures calls { Calls (spot at size) (ended result) (F.state flash.old) (F.state flash.new) }
    ensures kept { (F.state flash.new).bytes ≡ (F.state flash.old).bytes }
    ensures reads { ReadsAtMost size (F.state flash.old).bytes_read (F.state flash.new).bytes_read }
    ensures length { length into.new ≡ size }
    ensures sums { OnOk result (IfSome (F.state flash.old).bytes (Adds at size sums.old sums.new)) }
{
    match read_part(flash, at, into) {
        Ok(()) => {
            sums.add(&*into);
            Ok(())
        }
        Err(fault) => Err(fault),
    }
}

/// Adds so many bytes of a flash from `at` on to the sums, by way of `block`.
fn add_part<F: Flash>(
    flash: &mut F,
    at: u32,
    size: u32,
    block: &mut [u8],
    sums: &mut Carried,
) -> Result<(), CallFault>
    requires inside { at + size ≤ size_of (F.state flash.old).geometry }
    requires some { 0 < length block.old }
    ensures calls { Calls (spot at size) (ended result) (F.state flash.old) (F.state flash.new) }
    ensures kept { (F.state flash.new).bytes ≡ (F.state flash.old).bytes }
    ensures reads { ReadsAtMost size (F.state flash.old).bytes_read (F.state flash.new).bytes_read }
    ensures sums { OnOk result (IfSome (F.state flash.old).bytes (Adds at size sums.old sums.new)) }
{
    let mut done = 0;
    while done < size {
        let length = block.len().min((size - done) as usize);
        match add_block(flash, at + done, length, &mut block[..length], sums) {
            Ok(()) => done += length as u32,
            Err(fault) => return Err(fault),
        }
    }
    Ok(())
}

/// How many of the accepted bytes stand in the secondary slot: in a rescue those of the page in which the offset lies don't.
fn front_size(layout: &Layout, offset: u32, rescue: bool) -> u32
    ensures plain { rescue ≡ false → result ≡ offset }
    ensures moved { rescue ≡ true → result ≡ offset - offset % (geometry_of layout.now).page }
    ensures most { result ≤ offset }
    ensures few { offset - result ≤ (geometry_of layout.now).page }
{
    if rescue {
        offset - offset % layout.geometry().page
    } else {
        offset
    }
}

/// The sums of the accepted bytes, of which each is read once.
pub fn sums_of<F: Flash>(
    layout: Layout,
    flash: &mut F,
    offset: u32,
    rescue: bool,
) -> Result<Carried, Lost>
    requires layout { geometry_of layout ≡ (F.state flash.old).geometry }
    requires inside { offset ≤ slot_size (geometry_of layout) }
    ensures calls { Calls (upload_spots layout) (upload_end result) (F.state flash.old) (F.state flash.new) }
    ensures kept { (F.state flash.new).bytes ≡ (F.state flash.old).bytes }
    ensures reads { ReadsAtMost offset (F.state flash.old).bytes_read (F.state flash.new).bytes_read }
    ensures sums { IfOk result (λ sums. IfSome (F.state flash.old).bytes (λ held. Carries sums (accepted_in layout rescue offset held))) }
    ensures lost { IfErr result (λ lost. lost.state.layout ≡ layout) }
    ensures worn { IfErr result (λ lost. lost.fault ≡ UploadFault.Worn → ⊥) }
    ensures formatted { IfErr result (λ lost. lost.fault ≡ UploadFault.Unformatted → ⊥) }
{
    regions_lie_apart();
    let mut block = [0; BLOCK];
    let mut sums = Carried::new();
    let front = front_size(&layout, offset, rescue);
    if let Err(fault) = add_part(flash, layout.slot(1).at, front, &mut block, &mut sums) {
        return Err(lost(layout, from_call(fault)));
    }
    if let Err(fault) = add_part(
        flash,
        layout.scratch().at,
        offset - front,
        &mut block,
        &mut sums,
    ) {
        return Err(lost(layout, from_call(fault)));
    }
    Ok(sums)
}
