//! Requests for an upload and for an erase: what is refused before the flash is looked at, and the rest.

ghost use Rattle.std.specs.Prelude.{◌≡◌, ◌-◌, ◌≤◌, Ok, None, true, false, IfErr, IfOk, IfSome, IsSome, OnOk, length, option_map};
ghost use Rattle.smp_flash.specs.Geometry.{slot_size, Regular, is_lawful};
ghost use Rattle.std.specs.Prelude.{IsTrue};
ghost use Rattle.smp_flash.specs.Layout.{geometry_of};
ghost use Rattle.smp_model.specs.Does.{does};
ghost use Rattle.smp_model.specs.Errors.{IsGroupError};
ghost use Rattle.smp_model.specs.Due.{image_for};
ghost use Rattle.smp_model.specs.FlashUse.{is_start_taken};
ghost use Rattle.smp_model.specs.ImageGroup.{begins_with_magic, has_wrong_size, side_of};
ghost use Rattle.smp_model.specs.Meant as meant;
ghost use Rattle.smp_side.specs.Held.{held_layout};
ghost use Rattle.smp_model.specs.Said.{said_of};
ghost use Rattle.smp_device.specs.Answers.{ImagesAnswer, IsImageReply};
ghost use Rattle.smp_device.specs.Mounts.{MountsItsOwn, MountsOne, Untouched, Untouches};
ghost use Rattle.smp_device.specs.Places.{ArePlaces, ImagesSay, place_at, places_of};
ghost use Rattle.smp_device.specs.Requests.{ErasesFor};
ghost use Rattle.smp_device.specs.Uploads.{Announces, sizes_of};

use crate::images::{Images, Replied, SideRequest};
use crate::laws::side_laws;
use crate::side_requests::ask_image;
use smp_flash::{Flash, Geometry, Layout};
use smp_model::error::{
    IMAGE_GROUP, IMAGE_TOO_LARGE, INVALID_DIGEST, INVALID_HEADER, INVALID_SLOT, NO_LENGTH,
    WRONG_MAGIC,
};
use smp_model::{Announcement, Reply, UploadPart};
use smp_side::{Held, layout_of};

/// Where the side lies.
fn layout_of_held(held: &Held) -> Layout
    ensures { result ≡ held_layout held.now }
{
    match held {
        Held::Unmounted(state) => state.layout,
        Held::Mounted(state) => layout_of(state),
    }
}

/// The sizes of the flash.
fn sizes(images: &Images) -> Geometry
    ensures same { result ≡ geometry_of (held_layout images.now.zero) }
    ensures lawful { IsTrue (is_lawful result) }
    ensures regular { Regular result }
{
    layout_of_held(&images.zero).geometry()
}

/// The device has this image.
fn has_image(images: &Images, image: u32) -> bool
    ensures not { result ≡ false → place_at image (places_of images.now) ≡ None }
    ensures yes { result ≡ true → IsSome (place_at image (places_of images.now)) }
{
    if image == 0 {
        return true;
    }
    image == 1 && images.one.is_some()
}

/// The image that a part is for.
fn image_of(target: u32, part: &UploadPart<'_>) -> u32
    ensures { result ≡ side_of target part.now.image part.now.off (option_map (λ s. s.now) part.now.sha) }
{
    match part.image {
        Some(image) => image,
        None => {
            if part.off == 0 || part.sha.is_some() {
                0
            } else {
                target
            }
        }
    }
}

/// The digest of these bytes, where they are as many as a digest has.
fn digest_of(sha: Option<&[u8]>) -> Result<Option<[u8; 32]>, u32>
    ensures ok { IfOk result (λ digest. (has_wrong_size (option_map (λ s. s.now) sha.entry) ≡ false) × (option_map (λ s. s.now) sha.entry ≡ digest)) }
    ensures err { IfErr result (λ number. (has_wrong_size (option_map (λ s. s.now) sha.entry) ≡ true) × (number ≡ 24)) }
{
    let Some(bytes) = sha else { return Ok(None) };
    match <[u8; 32]>::try_from(bytes) {
        Ok(digest) => Ok(Some(digest)),
        Err(_) => Err(INVALID_DIGEST),
    }
}

/// The bytes begin with the magic of an image.
fn begins_with_magic(bytes: &[u8]) -> bool
    ensures { result ≡ begins_with_magic bytes.now }
{
    bytes.starts_with(&[0x3d, 0xb8, 0xf3, 0x96])
}

/// What a start announces, or the first fault of its fields, where so many bytes have room.
fn announced(
    room: u32,
    len: Option<u32>,
    sha: Option<&[u8]>,
    bytes: &[u8],
) -> Result<Announcement, u32>
    ensures announces { Announces room len (option_map (λ s. s.now) sha.entry) bytes.now result }
    ensures known { IfErr result (IsGroupError IMAGE_GROUP) }
    ensures long { OnOk result (32 ≤ length bytes.now) }
    ensures fits { IfOk result (λ a. a.length ≤ room) }
{
    let Some(length) = len else {
        return Err(NO_LENGTH);
    };
    let digest = digest_of(sha)?;
    if length > room {
        return Err(IMAGE_TOO_LARGE);
    }
    if bytes.len() < 32 {
        return Err(INVALID_HEADER);
    }
    if !begins_with_magic(bytes) {
        return Err(WRONG_MAGIC);
    }
    Ok(Announcement { length, digest })
}

/// An error of the image group.
pub fn refused(images: Images, number: u32) -> Replied
    ensures { result ≡ record { images = images; result = Ok (Reply.GroupError 1 number) } }
{
    Replied {
        images,
        result: Ok(Reply::GroupError {
            group: IMAGE_GROUP,
            number,
        }),
    }
}

/// The first part of an upload.
fn upload_start<F: Flash>(
    images: Images,
    flash: &mut F,
    image: u32,
    part: &UploadPart<'_>,
) -> Replied
    requires places { ArePlaces (F.state flash.old).geometry (places_of images) }
    requires says { IfSome (F.state flash.old).bytes (ImagesSay images) }
    requires there { IsSome (place_at image (places_of images)) }
    requires meant { image ≡ side_of images.target part.now.image part.now.off (option_map (λ s. s.now) part.now.sha) }
    requires first { part.now.off ≡ 0 }
    ensures answers { ImagesAnswer (places_of images) 5 images.target (λ d. does (sizes_of (F.state flash.old).geometry) d (meant.upload part.now.image part.now.len part.now.off (option_map (λ s. s.now) part.now.sha) part.now.bytes.now)) result.images result.result (F.state flash.old) (F.state flash.new) }
    ensures answer { IfOk result.result (λ reply. IsImageReply (said_of reply)) }
    ensures untouched { is_start_taken (sizes_of (F.state flash.old).geometry) part.now.len (option_map (λ s. s.now) part.now.sha) part.now.bytes.now ≡ false → Untouched images result (F.state flash.old) (F.state flash.new) }
    ensures mounts { is_start_taken (sizes_of (F.state flash.old).geometry) part.now.len (option_map (λ s. s.now) part.now.sha) part.now.bytes.now ≡ true → MountsOne (places_of images) image images result (F.state flash.old) (F.state flash.new) }
{
    side_laws();
    let geometry = sizes(&images);
    let room = geometry.slot_size() - geometry.page;
    match announced(room, part.len, part.sha, part.bytes) {
        Ok(announcement) => {
            let request = SideRequest::Start {
                announcement,
                bytes: part.bytes,
            };
            ask_image(images, flash, image, &request)
        }
        Err(number) => refused(images, number),
    }
}

/// A further part.
fn upload_part<F: Flash>(
    images: Images,
    flash: &mut F,
    image: u32,
    part: &UploadPart<'_>,
) -> Replied
    requires places { ArePlaces (F.state flash.old).geometry (places_of images) }
    requires says { IfSome (F.state flash.old).bytes (ImagesSay images) }
    requires there { IsSome (place_at image (places_of images)) }
    requires meant { image ≡ side_of images.target part.now.image part.now.off (option_map (λ s. s.now) part.now.sha) }
    requires further { part.now.off ≡ 0 → ⊥ }
    ensures answers { ImagesAnswer (places_of images) 5 images.target (λ d. does (sizes_of (F.state flash.old).geometry) d (meant.upload part.now.image part.now.len part.now.off (option_map (λ s. s.now) part.now.sha) part.now.bytes.now)) result.images result.result (F.state flash.old) (F.state flash.new) }
    ensures answer { IfOk result.result (λ reply. IsImageReply (said_of reply)) }
    ensures untouched { has_wrong_size (option_map (λ s. s.now) part.now.sha) ≡ true → Untouched images result (F.state flash.old) (F.state flash.new) }
    ensures mounts { has_wrong_size (option_map (λ s. s.now) part.now.sha) ≡ false → MountsOne (places_of images) image images result (F.state flash.old) (F.state flash.new) }
{
    side_laws();
    match digest_of(part.sha) {
        Ok(_) => {
            let request = SideRequest::Part {
                off: part.off,
                tag: part.sha,
                bytes: part.bytes,
            };
            ask_image(images, flash, image, &request)
        }
        Err(number) => refused(images, number),
    }
}

/// A part of an upload, for the image that it names or that is meant where it names none.
pub fn upload<F: Flash>(images: Images, flash: &mut F, part: &UploadPart<'_>) -> Replied
    requires places { ArePlaces (F.state flash.old).geometry (places_of images) }
    requires says { IfSome (F.state flash.old).bytes (ImagesSay images) }
    ensures answers { ImagesAnswer (places_of images) 5 images.target (λ d. does (sizes_of (F.state flash.old).geometry) d (meant.upload part.now.image part.now.len part.now.off (option_map (λ s. s.now) part.now.sha) part.now.bytes.now)) result.images result.result (F.state flash.old) (F.state flash.new) }
    ensures answer { IfOk result.result (λ reply. IsImageReply (said_of reply)) }
    ensures untouched { Untouches (sizes_of (F.state flash.old).geometry) (meant.upload part.now.image part.now.len part.now.off (option_map (λ s. s.now) part.now.sha) part.now.bytes.now) images result (F.state flash.old) (F.state flash.new) }
    ensures mounts { MountsItsOwn (sizes_of (F.state flash.old).geometry) (meant.upload part.now.image part.now.len part.now.off (option_map (λ s. s.now) part.now.sha) part.now.bytes.now) images result (F.state flash.old) (F.state flash.new) }
{
    let image = image_of(images.target, part);
    if !has_image(&images, image) {
        return refused(images, INVALID_SLOT);
    }
    if part.off == 0 {
        return upload_start(images, flash, image, part);
    }
    upload_part(images, flash, image, part)
}

/// Gives up the upload of an image, by its secondary slot: 1 of image 0, and 3 of image 1.
pub fn erase<F: Flash>(images: Images, flash: &mut F, slot: u32) -> Replied
    requires places { ArePlaces (F.state flash.old).geometry (places_of images) }
    requires says { IfSome (F.state flash.old).bytes (ImagesSay images) }
    ensures answers { ImagesAnswer (places_of images) 5 images.target (λ d. does (sizes_of (F.state flash.old).geometry) d (meant.erase slot)) result.images result.result (F.state flash.old) (F.state flash.new) }
    ensures answer { IfOk result.result (λ reply. IsImageReply (said_of reply)) }
    ensures untouched { Untouches (sizes_of (F.state flash.old).geometry) (meant.erase slot) images result (F.state flash.old) (F.state flash.new) }
    ensures mounts { MountsItsOwn (sizes_of (F.state flash.old).geometry) (meant.erase slot) images result (F.state flash.old) (F.state flash.new) }
    ensures erased { ErasesFor (places_of images) (image_for images.target (meant.erase slot)) result.result (F.state flash.new).bytes }
{
    side_laws();
    if slot == 1 {
        return ask_image(images, flash, 0, &SideRequest::Erase);
    }
    if slot == 3 {
        return ask_image(images, flash, 1, &SideRequest::Erase);
    }
    refused(images, INVALID_SLOT)
}
