//! All images of a device, mounted.

ghost use Rattle.std.specs.Prelude.{◌≡◌, false, IfErr, IfOk, IfSome, OnOk, option_map};
ghost use Rattle.smp_side.specs.Held.{is_ok};
ghost use Rattle.smp_side.specs.declared.held.Held.TheVariants as helds;
ghost use Rattle.smp_device.specs.Mounts.{KeepsOthers};
ghost use Rattle.smp_device.specs.Places.{ArePlaces, ImagesSay, places_of};
ghost use Rattle.smp_device.specs.Settling.{SettledSay, Settles, Unsettled, alone_settled, both_settled, settled_places};

use crate::images::{Images, Replied};
use crate::laws::side_laws;
use smp_flash::Flash;
use smp_side::{Held, lost, mounted};
use smp_upload::{Mounted, sides_are_told_apart};

/// The images of a device, of which all are mounted.
#[derive(Drop)]
pub struct Settled {
    pub zero: Mounted,
    pub one: Option<Mounted>,
    pub target: u32,
}

/// The image of a device of one.
pub fn alone(zero: Mounted, target: u32) -> Settled
    ensures { result ≡ alone_settled zero target }
{
    Settled {
        zero,
        one: None,
        target,
    }
}

/// The images of a device of two.
pub fn both(zero: Mounted, one: Mounted, target: u32) -> Settled
    ensures { result ≡ both_settled zero one target }
{
    Settled {
        zero,
        one: Some(one),
        target,
    }
}

/// The image beside image 0, as it is held.
pub fn held_of(one: Option<Mounted>) -> Option<Held>
    ensures { result ≡ option_map helds.Mounted one }
{
    match one {
        None => None,
        Some(one) => Some(Held::Mounted(one)),
    }
}

/// Mounts each image that is not mounted: image 0 first. One whose mount is broken off is not mounted, and the other is as it was
/// then.
pub fn settle_all<F: Flash>(images: Images, flash: &mut F) -> Result<Settled, Replied>
    requires places { ArePlaces (F.state flash.old).geometry (places_of images) }
    requires says { IfSome (F.state flash.old).bytes (ImagesSay images) }
    ensures settles { OnOk result (Settles (places_of images) images.target (F.state flash.old) (F.state flash.new)) }
    ensures says { IfOk result (λ s. IfSome (F.state flash.new).bytes (SettledSay s)) }
    ensures places { IfOk result (λ s. settled_places s ≡ places_of images) }
    ensures target { IfOk result (λ s. s.target ≡ images.target) }
    ensures failed { IfErr result (λ r. is_ok r.result ≡ false) }
    ensures kept { IfErr result (λ r. KeepsOthers images r.images) }
    ensures unsettled { IfErr result (λ r. Unsettled (places_of images) images.target r (F.state flash.old) (F.state flash.new)) }
{
    side_laws();
    sides_are_told_apart();
    let Images { zero, one, target } = images;
    let zero = match mounted(zero, flash) {
        Ok(zero) => zero,
        Err(fault) => {
            let handed = lost(fault);
            return Err(Replied {
                images: Images {
                    zero: handed.held,
                    one,
                    target,
                },
                result: handed.result,
            });
        }
    };
    match one {
        None => Ok(alone(zero, target)),
        Some(held) => match mounted(held, flash) {
            Ok(side) => Ok(Settled {
                zero,
                one: Some(side),
                target,
            }),
            Err(fault) => {
                let handed = lost(fault);
                Err(Replied {
                    images: Images {
                        zero: Held::Mounted(zero),
                        one: Some(handed.held),
                        target,
                    },
                    result: handed.result,
                })
            }
        },
    }
}
