//! A request about one image, over the device's images.

ghost use Rattle.std.specs.Prelude.{◌≡◌, Err, None, IfErr, IfOk, IfSome};
ghost use Rattle.smp_flash.specs.Layout.{geometry_of};
ghost use Rattle.smp_upload.specs.States.{Says, known_mounted};
ghost use Rattle.smp_side.specs.Held.{Answers, IsAnswer, HeldSays, held_layout};
ghost use Rattle.smp_model.specs.Said.{said_of};
ghost use Rattle.smp_device.specs.Answers.{ImagesAnswer, IsImageReply};
ghost use Rattle.smp_device.specs.Asked.{AskedAt};
ghost use Rattle.smp_device.specs.Mounts.{FellIn, Untouched};
ghost use Rattle.smp_device.specs.Places.{ArePlaces, ImagesSay, place_at, places_of};
ghost use Rattle.smp_device.specs.Requests.{Erases, ErasesAt, IsStart, MountsOf, moved_target, responds_on, side_response};

use crate::images::{Asked, Images, Replied, SideRequest};
use crate::laws::side_laws;
use smp_flash::Flash;
use smp_model::Reply;
use smp_model::error::{IMAGE_GROUP, INVALID_SLOT};
use smp_side::{Handed, Held, erase, lost, mounted, part_at, start};
use smp_upload::{Mounted, UploadFault, sides_are_told_apart};

/// What a mounted side does.
fn ask_side<F: Flash>(mounted: Mounted, flash: &mut F, request: &SideRequest<'_>) -> Handed
    requires layout { geometry_of (known_mounted mounted).layout ≡ (F.state flash.old).geometry }
    requires says { IfSome (F.state flash.old).bytes (Says (known_mounted mounted)) }
    requires start { IsStart (geometry_of (known_mounted mounted).layout) request.now }
    ensures answers { Answers (known_mounted mounted).layout 3 (side_response (geometry_of (known_mounted mounted).layout).unit request.now) result (F.state flash.old) (F.state flash.new) }
    ensures answer { IfOk result.result (λ reply. IsAnswer (said_of reply)) }
    ensures erased { Erases (known_mounted mounted).layout request.now result.result (F.state flash.new).bytes }
{
    match *request {
        SideRequest::Start {
            announcement,
            bytes,
        } => start(mounted, flash, &announcement, bytes),
        SideRequest::Part { off, tag, bytes } => part_at(mounted, flash, off, tag, bytes),
        SideRequest::Erase => erase(mounted, flash),
    }
}

/// The target after a request that came to a mounted side: a start that was not refused moves it.
fn target_after(
    target: u32,
    image: u32,
    request: &SideRequest<'_>,
    answer: &Result<Reply<'static>, UploadFault>,
) -> u32
    ensures { result ≡ moved_target target image request.now answer.now }
{
    match request {
        SideRequest::Start { .. } => match answer {
            Ok(Reply::GroupError { .. }) => target,
            _ => image,
        },
        _ => target,
    }
}

/// A request about the image that is held so: its side is mounted where it is not, and then asked.
fn ask_held<F: Flash>(
    held: Held,
    image: u32,
    target: u32,
    flash: &mut F,
    request: &SideRequest<'_>,
) -> Asked
    requires layout { geometry_of (held_layout held) ≡ (F.state flash.old).geometry }
    requires says { IfSome (F.state flash.old).bytes (HeldSays held) }
    requires start { IsStart (F.state flash.old).geometry request.now }
    ensures asked { AskedAt (held_layout held) image target request.now result (F.state flash.old) (F.state flash.new) }
    ensures answer { IfOk result.result (λ reply. IsAnswer (said_of reply)) }
{
    side_laws();
    sides_are_told_apart();
    match mounted(held, flash) {
        Err(fault) => {
            let handed = lost(fault);
            Asked {
                held: handed.held,
                target,
                result: handed.result,
            }
        }
        Ok(side) => {
            let handed = ask_side(side, flash, request);
            let target = target_after(target, image, request, &handed.result);
            Asked {
                held: handed.held,
                target,
                result: handed.result,
            }
        }
    }
}

/// A request about image 0.
fn ask_zero<F: Flash>(images: Images, flash: &mut F, request: &SideRequest<'_>) -> Replied
    requires places { ArePlaces (F.state flash.old).geometry (places_of images) }
    requires says { IfSome (F.state flash.old).bytes (ImagesSay images) }
    requires start { IsStart (F.state flash.old).geometry request.now }
    ensures answers { ImagesAnswer (places_of images) 5 images.target (responds_on (F.state flash.old).geometry.unit request.now 0) result.images result.result (F.state flash.old) (F.state flash.new) }
    ensures answer { IfOk result.result (λ reply. IsImageReply (said_of reply)) }
    ensures mounts { MountsOf 0 images result }
    ensures fell { IfErr result.result (λ fault. FellIn (places_of images) 5 0 fault (F.state flash.old) (F.state flash.new)) }
    ensures erased { ErasesAt (places_of images) 0 request.now result.result (F.state flash.new).bytes }
{
    side_laws();
    let Images { zero, one, target } = images;
    let asked = ask_held(zero, 0, target, flash, request);
    Replied {
        images: Images {
            zero: asked.held,
            one,
            target: asked.target,
        },
        result: asked.result,
    }
}

/// A request about image 1, or the refusal where there is none.
fn ask_one<F: Flash>(images: Images, flash: &mut F, request: &SideRequest<'_>) -> Replied
    requires places { ArePlaces (F.state flash.old).geometry (places_of images) }
    requires says { IfSome (F.state flash.old).bytes (ImagesSay images) }
    requires start { IsStart (F.state flash.old).geometry request.now }
    ensures answers { ImagesAnswer (places_of images) 5 images.target (responds_on (F.state flash.old).geometry.unit request.now 1) result.images result.result (F.state flash.old) (F.state flash.new) }
    ensures answer { IfOk result.result (λ reply. IsImageReply (said_of reply)) }
    ensures mounts { MountsOf 1 images result }
    ensures fell { IfErr result.result (λ fault. FellIn (places_of images) 5 1 fault (F.state flash.old) (F.state flash.new)) }
    ensures erased { ErasesAt (places_of images) 1 request.now result.result (F.state flash.new).bytes }
    ensures absent { place_at 1 (places_of images) ≡ None → Untouched images result (F.state flash.old) (F.state flash.new) }
{
    side_laws();
    let Images { zero, one, target } = images;
    match one {
        None => no_image(Images {
            zero,
            one: None,
            target,
        }),
        Some(held) => {
            let asked = ask_held(held, 1, target, flash, request);
            Replied {
                images: Images {
                    zero,
                    one: Some(asked.held),
                    target: asked.target,
                },
                result: asked.result,
            }
        }
    }
}

/// There is no such image.
fn no_image(images: Images) -> Replied
    ensures { result ≡ record { images = images; result = Ok (Reply.GroupError 1 14) } }
{
    Replied {
        images,
        result: Ok(Reply::GroupError {
            group: IMAGE_GROUP,
            number: INVALID_SLOT,
        }),
    }
}

/// A request about one image: its side is mounted where it is not, and then asked. An image that the device does not have is
/// refused.
pub fn ask_image<F: Flash>(
    images: Images,
    flash: &mut F,
    image: u32,
    request: &SideRequest<'_>,
) -> Replied
    requires places { ArePlaces (F.state flash.old).geometry (places_of images) }
    requires says { IfSome (F.state flash.old).bytes (ImagesSay images) }
    requires start { IsStart (F.state flash.old).geometry request.now }
    ensures answers { ImagesAnswer (places_of images) 5 images.target (responds_on (F.state flash.old).geometry.unit request.now image) result.images result.result (F.state flash.old) (F.state flash.new) }
    ensures answer { IfOk result.result (λ reply. IsImageReply (said_of reply)) }
    ensures mounts { MountsOf image images result }
    ensures fell { IfErr result.result (λ fault. FellIn (places_of images) 5 image fault (F.state flash.old) (F.state flash.new)) }
    ensures erased { ErasesAt (places_of images) image request.now result.result (F.state flash.new).bytes }
    ensures absent { place_at image (places_of images) ≡ None → Untouched images result (F.state flash.old) (F.state flash.new) }
{
    if image == 0 {
        return ask_zero(images, flash, request);
    }
    if image == 1 {
        return ask_one(images, flash, request);
    }
    no_image(images)
}
