//! The list of images.

ghost use Rattle.std.specs.Prelude.{◌≡◌, [], IfOk, IfSome};
ghost use Rattle.smp_model.specs.Does.{does};
ghost use Rattle.smp_model.specs.ImageGroup.{lists_after};
ghost use Rattle.smp_model.specs.Meant as meant;
ghost use Rattle.smp_model.specs.Said.{said_of};
ghost use Rattle.smp_device.specs.Answers.{ImagesAnswer, IsImageReply};
ghost use Rattle.smp_side.specs.Held.{is_ok};
ghost use Rattle.smp_device.specs.Mounts.{MountsResult, MountsSettled};
ghost use Rattle.smp_device.specs.Places.{ArePlaces, ImagesSay, places_of};
ghost use Rattle.smp_device.specs.Settling.{SettledSay, alone_places, alone_settled, both_places, both_settled, settled_places, unknown_at};
ghost use Rattle.smp_device.specs.Uploads.{sizes_of};

use crate::images::{Images, Replied};
use crate::laws::side_laws;
use crate::settled::{Settled, settle_all};
use smp_flash::{Flash, Layout};
use smp_model::Reply;
use smp_side::{Held, layout_of, pair, passed_on};
use smp_upload::{Mounted, Unmounted};

/// An image of which nothing is known any more.
pub fn unknown(layout: Layout) -> Held
    ensures { result ≡ unknown_at layout }
{
    Held::Unmounted(Unmounted { layout })
}

/// The list of a device of one image.
fn list_alone<F: Flash>(zero: Mounted, target: u32, flash: &mut F) -> Replied
    requires places { ArePlaces (F.state flash.old).geometry (alone_places zero) }
    requires says { IfSome (F.state flash.old).bytes (SettledSay (alone_settled zero target)) }
    ensures answers { ImagesAnswer (alone_places zero) 0 target (lists_after []) result.images result.result (F.state flash.old) (F.state flash.new) }
    ensures answer { IfOk result.result (λ reply. IsImageReply (said_of reply)) }
    ensures mounts { MountsSettled result.images.zero result.images.one (is_ok result.result) }
{
    side_laws();
    match pair(&zero, flash) {
        Ok(first) => Replied {
            images: Images {
                zero: Held::Mounted(zero),
                one: None,
                target,
            },
            result: Ok(Reply::Images {
                zero: first,
                one: None,
            }),
        },
        Err(fault) => Replied {
            images: Images {
                zero: unknown(layout_of(&zero)),
                one: None,
                target,
            },
            result: Err(passed_on(fault)),
        },
    }
}

/// The list of a device of two.
fn list_both<F: Flash>(zero: Mounted, one: Mounted, target: u32, flash: &mut F) -> Replied
    requires places { ArePlaces (F.state flash.old).geometry (both_places zero one) }
    requires says { IfSome (F.state flash.old).bytes (SettledSay (both_settled zero one target)) }
    ensures answers { ImagesAnswer (both_places zero one) 0 target (lists_after []) result.images result.result (F.state flash.old) (F.state flash.new) }
    ensures answer { IfOk result.result (λ reply. IsImageReply (said_of reply)) }
    ensures mounts { MountsSettled result.images.zero result.images.one (is_ok result.result) }
{
    side_laws();
    let first = match pair(&zero, flash) {
        Ok(first) => first,
        Err(fault) => {
            return Replied {
                images: Images {
                    zero: unknown(layout_of(&zero)),
                    one: Some(Held::Mounted(one)),
                    target,
                },
                result: Err(passed_on(fault)),
            };
        }
    };
    match pair(&one, flash) {
        Ok(second) => Replied {
            images: Images {
                zero: Held::Mounted(zero),
                one: Some(Held::Mounted(one)),
                target,
            },
            result: Ok(Reply::Images {
                zero: first,
                one: Some(second),
            }),
        },
        Err(fault) => Replied {
            images: Images {
                zero: Held::Mounted(zero),
                one: Some(unknown(layout_of(&one))),
                target,
            },
            result: Err(passed_on(fault)),
        },
    }
}

/// The list of the images, of which all are mounted. No byte changes. An image whose slot can't be read is not known any more, and
/// the other stays mounted.
pub fn list_settled<F: Flash>(settled: Settled, flash: &mut F) -> Replied
    requires places { ArePlaces (F.state flash.old).geometry (settled_places settled) }
    requires says { IfSome (F.state flash.old).bytes (SettledSay settled) }
    ensures answers { ImagesAnswer (settled_places settled) 0 settled.target (lists_after []) result.images result.result (F.state flash.old) (F.state flash.new) }
    ensures answer { IfOk result.result (λ reply. IsImageReply (said_of reply)) }
    ensures mounts { MountsSettled result.images.zero result.images.one (is_ok result.result) }
{
    let Settled { zero, one, target } = settled;
    match one {
        None => list_alone(zero, target, flash),
        Some(one) => list_both(zero, one, target, flash),
    }
}

/// Lists the images.
pub fn list<F: Flash>(images: Images, flash: &mut F) -> Replied
    requires places { ArePlaces (F.state flash.old).geometry (places_of images) }
    requires says { IfSome (F.state flash.old).bytes (ImagesSay images) }
    ensures answers { ImagesAnswer (places_of images) 5 images.target (λ d. does (sizes_of (F.state flash.old).geometry) d meant.image_list) result.images result.result (F.state flash.old) (F.state flash.new) }
    ensures answer { IfOk result.result (λ reply. IsImageReply (said_of reply)) }
    ensures mounts { MountsResult (places_of images) images result.images result.result (F.state flash.old) (F.state flash.new) }
{
    side_laws();
    match settle_all(images, flash) {
        Ok(settled) => list_settled(settled, flash),
        Err(replied) => replied,
    }
}
