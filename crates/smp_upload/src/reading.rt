// A part of a flash, as bytes that an image is read from.
ghost use Rattle.std.specs.Prelude.{◌≡◌, ◌+◌, ◌≤◌, ◌∷◌, [], length, false, is_some, Some, None, IfOk, IfErr, IfSome};
ghost use Rattle.std.proofs.Props.{props};
ghost use Rattle.std.specs.Option.{option_map};
ghost use Rattle.sha2.specs.Sha256.{sha256};
ghost use Rattle.smp_flash.specs.Area.{AreBytes, area, spot};
ghost use Rattle.smp_flash.specs.Calls.{Calls, ReadsAtMost};
ghost use Rattle.smp_flash.specs.Geometry.{size_of, slot_size};
ghost use Rattle.smp_flash.specs.Layout.{geometry_of, slot_of, area_spot};
ghost use Rattle.smp_flash.specs.State.End.{Went};
ghost use Rattle.smp_model.specs.Image.{good_image, image_of};
ghost use Rattle.smp_tlv.specs.Carried.{Carries};
ghost use Rattle.smp_tlv.specs.State.{image_end};
ghost use Rattle.smp_upload.specs.Bytes.{active_in};
ghost use Rattle.smp_upload.specs.Faults.{upload_end};
ghost use Rattle.smp_upload.specs.Mounting.{of_image};
ghost use Rattle.smp_upload.specs.Reading.{part_state};

use crate::faults::{from_read, lost};
use crate::states::{Lost, UploadFault};
use smp_flash::{
    Flash, FlashFault, Layout, Operation, regions_lie_apart, told_bytes_have_the_size,
};
use smp_model::{ImageFault, ImageInfo};
use smp_tlv::{Bytes, Carried, Finished, check_hash, read_image};

/// So many bytes of a flash from a place on.
#[derive(Drop)]
pub struct Front<'a, F: Flash> {
    flash: &'a mut F,
    at: u32,
    size: u32,
    ghost inside: { at + size ≤ size_of (F.state flash.now).geometry },
    ghost sized: { IfSome (option_map (area at size) (F.state flash.now).bytes) (λ held. length held ≡ size) } by { Prim.hlevel props },
    ghost are_bytes: { IfSome (option_map (area at size) (F.state flash.now).bytes) AreBytes } by { Prim.hlevel props },
}

impl<F: Flash> Bytes for Front<'_, F> {
    ghost state = { λ p. part_state p.at p.size p.flash.ghost_name (F.state p.flash.now) };

    fn length(&self) -> u32 {
        self.size
    }

    fn read(&mut self, at: u32, into: &mut [u8]) -> Result<(), FlashFault> {
        if into.is_empty() {
            return Ok(());
        }
        self.flash.read(self.at + at, into)
    }

    ghost sized = { λ p. p.sized };

    ghost bytes = { λ p. p.are_bytes };
}

/// So many bytes of a flash from a place on.
fn front_of<F: Flash>(flash: &mut F, at: u32, size: u32) -> Front<'_, F>
    requires { at + size ≤ size_of (F.state flash.old).geometry }
    ensures same_reference { result.flash.ghost_name ≡ flash.entry.ghost_name }
    ensures now { result.flash.now ≡ flash.old }
    ensures place { (result.at ≡ at) × (result.size ≡ size) }
{
    told_bytes_have_the_size(flash);
    Front { flash, at, size }
}

/// What is known of bytes that were all added to the sums.
fn finish_in<F: Flash>(
    front: &mut Front<'_, F>,
    layout: Layout,
    sums: Carried,
) -> Result<Finished, Lost>
    requires place { front.old.at ≡ (slot_of layout 1).at }
    requires fits { front.old.size ≤ slot_size (geometry_of layout) }
    requires carries { IfSome (option_map (area front.old.at front.old.size) (F.state front.old.flash.now).bytes) (Carries sums) }
    ensures same_reference { front.new.flash.ghost_name ≡ front.old.flash.ghost_name }
    ensures calls { Calls (area_spot (slot_of layout 1) ∷ []) (upload_end result) (F.state front.old.flash.now) (F.state front.new.flash.now) }
    ensures kept { (F.state front.new.flash.now).bytes ≡ (F.state front.old.flash.now).bytes }
    ensures reads { ReadsAtMost 131102 (F.state front.old.flash.now).bytes_read (F.state front.new.flash.now).bytes_read }
    ensures digest { IfOk result (λ finished. IfSome (option_map (area front.old.at front.old.size) (F.state front.old.flash.now).bytes) (λ held. finished.digest ≡ sha256 held)) }
    ensures image { IfOk result (λ finished. IfSome (option_map (area front.old.at front.old.size) (F.state front.old.flash.now).bytes) (λ held. finished.image ≡ good_image held)) }
    ensures lost { IfErr result (λ lost. lost.state.layout ≡ layout) }
    ensures worn { IfErr result (λ lost. lost.fault ≡ UploadFault.Worn → ⊥) }
    ensures formatted { IfErr result (λ lost. lost.fault ≡ UploadFault.Unformatted → ⊥) }
{
    match sums.finish(front) {
        Ok(finished) => Ok(finished),
        Err(fault) => Err(lost(layout, from_read(fault))),
    }
}

/// What is known of an upload whose bytes were all added to the sums: its digest, and the good image that it begins with.
pub fn finish<F: Flash>(
    layout: Layout,
    flash: &mut F,
    size: u32,
    sums: Carried,
) -> Result<Finished, Lost>
    requires layout { geometry_of layout ≡ (F.state flash.old).geometry }
    requires fits { size ≤ slot_size (geometry_of layout) }
    requires carries { IfSome (F.state flash.old).bytes (λ held. Carries sums (area (slot_of layout 1).at size held)) }
    ensures calls { Calls (area_spot (slot_of layout 1) ∷ []) (upload_end result) (F.state flash.old) (F.state flash.new) }
    ensures kept { (F.state flash.new).bytes ≡ (F.state flash.old).bytes }
    ensures reads { ReadsAtMost 131102 (F.state flash.old).bytes_read (F.state flash.new).bytes_read }
    ensures digest { IfOk result (λ finished. IfSome (F.state flash.old).bytes (λ held. finished.digest ≡ sha256 (area (slot_of layout 1).at size held))) }
    ensures image { IfOk result (λ finished. IfSome (F.state flash.old).bytes (λ held. finished.image ≡ good_image (area (slot_of layout 1).at size held))) }
    ensures lost { IfErr result (λ lost. lost.state.layout ≡ layout) }
    ensures worn { IfErr result (λ lost. lost.fault ≡ UploadFault.Worn → ⊥) }
    ensures formatted { IfErr result (λ lost. lost.fault ≡ UploadFault.Unformatted → ⊥) }
{
    regions_lie_apart();
    let mut front = front_of(flash, layout.slot(1).at, size);
    match finish_in(&mut front, layout, sums) {
        Ok(finished) => Ok(finished),
        Err(lost) => Err(lost),
    }
}

/// The image that the bytes of a part begin with, or why they are none.
fn image_in<F: Flash>(front: &mut Front<'_, F>) -> Result<ImageInfo, ImageFault>
    ensures same_reference { front.new.flash.ghost_name ≡ front.old.flash.ghost_name }
    ensures calls { Calls (spot front.old.at front.old.size) (image_end result) (F.state front.old.flash.now) (F.state front.new.flash.now) }
    ensures kept { (F.state front.new.flash.now).bytes ≡ (F.state front.old.flash.now).bytes }
    ensures reads { ReadsAtMost 131102 (F.state front.old.flash.now).bytes_read (F.state front.new.flash.now).bytes_read }
    ensures image { image_end result ≡ Went → IfSome (option_map (area front.old.at front.old.size) (F.state front.old.flash.now).bytes) (λ held. result ≡ image_of held) }
{
    read_image(front)
}

/// The image that so many bytes of a flash from a place on begin with, or why they are none.
pub fn image_at<F: Flash>(flash: &mut F, at: u32, size: u32) -> Result<ImageInfo, ImageFault>
    requires { at + size ≤ size_of (F.state flash.old).geometry }
    ensures calls { Calls (spot at size) (image_end result) (F.state flash.old) (F.state flash.new) }
    ensures kept { (F.state flash.new).bytes ≡ (F.state flash.old).bytes }
    ensures reads { ReadsAtMost 131102 (F.state flash.old).bytes_read (F.state flash.new).bytes_read }
    ensures image { image_end result ≡ Went → IfSome (F.state flash.old).bytes (λ held. result ≡ image_of (area at size held)) }
{
    let mut front = front_of(flash, at, size);
    match image_in(&mut front) {
        Ok(image) => Ok(image),
        Err(fault) => Err(fault),
    }
}

/// The fault of reading an image that the flash has to answer for: none where the bytes are no image.
fn from_image(fault: ImageFault) -> Option<UploadFault>
    ensures { result ≡ of_image fault }
{
    match fault {
        ImageFault::Fault => Some(UploadFault::Fault(Operation::Read)),
        ImageFault::Off => Some(UploadFault::Off),
        _ => None,
    }
}

/// What a fault of reading an image says of the bytes: that they are no good image, or nothing, where the flash has to answer
/// for it.
fn not_good(layout: Layout, fault: ImageFault) -> Result<bool, Lost>
    ensures bad { IfOk result (λ good. (good ≡ false) × (of_image fault ≡ None)) }
    ensures lost { IfErr result (λ lost. (lost.state.layout ≡ layout) × (of_image fault ≡ Some lost.fault)) }
{
    match from_image(fault) {
        None => Ok(false),
        Some(fault) => Err(lost(layout, fault)),
    }
}

/// Whether the bytes begin with a good image.
fn is_good_in<F: Flash>(front: &mut Front<'_, F>, layout: Layout) -> Result<bool, Lost>
    ensures same_reference { front.new.flash.ghost_name ≡ front.old.flash.ghost_name }
    ensures calls { Calls (spot front.old.at front.old.size) (upload_end result) (F.state front.old.flash.now) (F.state front.new.flash.now) }
    ensures kept { (F.state front.new.flash.now).bytes ≡ (F.state front.old.flash.now).bytes }
    ensures good { IfOk result (λ good. IfSome (option_map (area front.old.at front.old.size) (F.state front.old.flash.now).bytes) (λ held. good ≡ is_some (good_image held))) }
    ensures lost { IfErr result (λ lost. lost.state.layout ≡ layout) }
    ensures worn { IfErr result (λ lost. lost.fault ≡ UploadFault.Worn → ⊥) }
    ensures formatted { IfErr result (λ lost. lost.fault ≡ UploadFault.Unformatted → ⊥) }
{
    let info = match read_image(front) {
        Ok(info) => info,
        Err(fault) => return not_good(layout, fault),
    };
    match check_hash(front, &info) {
        Ok(()) => Ok(true),
        Err(fault) => not_good(layout, fault),
    }
}

/// Whether a front of the primary slot begins with a good image.
fn is_good_at<F: Flash>(front: &mut Front<'_, F>, layout: Layout) -> Result<bool, Lost>
    requires place { front.old.at ≡ (slot_of layout 0).at }
    requires fits { front.old.size ≤ slot_size (geometry_of layout) }
    ensures same_reference { front.new.flash.ghost_name ≡ front.old.flash.ghost_name }
    ensures calls { Calls (area_spot (slot_of layout 0) ∷ []) (upload_end result) (F.state front.old.flash.now) (F.state front.new.flash.now) }
    ensures kept { (F.state front.new.flash.now).bytes ≡ (F.state front.old.flash.now).bytes }
    ensures good { IfOk result (λ good. IfSome (option_map (area front.old.at front.old.size) (F.state front.old.flash.now).bytes) (λ held. good ≡ is_some (good_image held))) }
    ensures lost { IfErr result (λ lost. lost.state.layout ≡ layout) }
    ensures worn { IfErr result (λ lost. lost.fault ≡ UploadFault.Worn → ⊥) }
    ensures formatted { IfErr result (λ lost. lost.fault ≡ UploadFault.Unformatted → ⊥) }
{
    is_good_in(front, layout)
}

/// Whether the primary slot begins with a good image, before its last page.
pub fn is_good<F: Flash>(layout: Layout, flash: &mut F) -> Result<bool, Lost>
    requires { geometry_of layout ≡ (F.state flash.old).geometry }
    ensures calls { Calls (area_spot (slot_of layout 0) ∷ []) (upload_end result) (F.state flash.old) (F.state flash.new) }
    ensures kept { (F.state flash.new).bytes ≡ (F.state flash.old).bytes }
    ensures good { IfOk result (λ good. IfSome (F.state flash.old).bytes (λ held. good ≡ is_some (good_image (active_in layout held)))) }
    ensures lost { IfErr result (λ lost. lost.state.layout ≡ layout) }
    ensures worn { IfErr result (λ lost. lost.fault ≡ UploadFault.Worn → ⊥) }
    ensures formatted { IfErr result (λ lost. lost.fault ≡ UploadFault.Unformatted → ⊥) }
{
    regions_lie_apart();
    let slot = layout.slot(0);
    let mut front = front_of(flash, slot.at, slot.length - layout.geometry().page);
    match is_good_at(&mut front, layout) {
        Ok(good) => Ok(good),
        Err(lost) => Err(lost),
    }
}
