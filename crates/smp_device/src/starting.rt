//! A device is started.

ghost use Rattle.std.specs.Prelude.{◌≡◌, IfOk, IfSome};
ghost use Rattle.smp_flash.specs.Calls.{Calls};
ghost use Rattle.smp_flash.specs.Layout.{geometry_of};
ghost use Rattle.smp_flash.specs.State.{ended};
ghost use Rattle.smp_device.specs.Places.{places_of, spots_of};
ghost use Rattle.smp_device.specs.Starting.{AreConfirmed, StartsImages, MountsBehind, Starts};
ghost use Rattle.smp_device.specs.Up.{AllPlaces, UpSays};

use crate::images::Images;
use crate::laws::{device_laws, side_laws};
use crate::serving::of_bank;
use crate::showing::Confirmed;
use smp_flash::{CallFault, Flash, Layout};
use smp_settings::Settings;
use smp_side::{Held, passed_on};
use smp_upload::{Mounted, Unmounted, UploadFault, is_confirmed};

/// What a start brings: the images, all mounted, the settings, of which the saved ones run, and which images are confirmed.
#[derive(Drop)]
pub struct Begun {
    pub images: Images,
    pub settings: Settings,
    pub confirmed: Confirmed,
}

/// Mounts image 1, where there is one, behind image 0.
fn mount_second<F: Flash>(
    zero: Mounted,
    second: &Option<Layout>,
    flash: &mut F,
) -> Result<Images, UploadFault>
    requires second { IfSome second.now (λ l. geometry_of l ≡ (F.state flash.old).geometry) }
    ensures { MountsBehind second.now zero result (F.state flash.old) (F.state flash.new) }
{
    match second {
        None => Ok(Images {
            zero: Held::Mounted(zero),
            one: None,
            target: 0,
        }),
        Some(layout) => match (Unmounted { layout: *layout }).mount(flash) {
            Ok(one) => Ok(Images {
                zero: Held::Mounted(zero),
                one: Some(Held::Mounted(one)),
                target: 0,
            }),
            Err(lost) => Err(lost.fault),
        },
    }
}

/// Mounts each image, image 0 first.
fn mount_images<F: Flash>(
    first: &Layout,
    second: &Option<Layout>,
    flash: &mut F,
) -> Result<Images, UploadFault>
    requires all { AllPlaces (F.state flash.old).geometry (record { first = first.now; second = second.now }) }
    ensures mounts { StartsImages (record { first = first.now; second = second.now }) result (F.state flash.old) (F.state flash.new) }
    ensures places { IfOk result (λ images. places_of images ≡ record { first = first.now; second = second.now }) }
    ensures target { IfOk result (λ images. images.target ≡ 0) }
{
    side_laws();
    match (Unmounted { layout: *first }).mount(flash) {
        Ok(zero) => mount_second(zero, second, flash),
        Err(lost) => Err(lost.fault),
    }
}

/// Whether each image that runs is confirmed.
fn confirmed_of<F: Flash>(
    first: &Layout,
    second: &Option<Layout>,
    flash: &mut F,
) -> Result<Confirmed, CallFault>
    requires all { AllPlaces (F.state flash.old).geometry (record { first = first.now; second = second.now }) }
    ensures calls { Calls (spots_of (record { first = first.now; second = second.now })) (ended result) (F.state flash.old) (F.state flash.new) }
    ensures kept { (F.state flash.new).bytes ≡ (F.state flash.old).bytes }
    ensures confirmed { IfOk result (λ c. IfSome (F.state flash.old).bytes (AreConfirmed (record { first = first.now; second = second.now }) c)) }
{
    let zero = is_confirmed(first, flash)?;
    let one = match second {
        Some(layout) => is_confirmed(layout, flash)?,
        None => false,
    };
    Ok(Confirmed { zero, one })
}

/// Reads the settings, mounts each image, and reads which of them are confirmed. The first fault ends it.
pub fn begin<F: Flash>(
    first: &Layout,
    second: &Option<Layout>,
    flash: &mut F,
) -> Result<Begun, UploadFault>
    requires all { AllPlaces (F.state flash.old).geometry (record { first = first.now; second = second.now }) }
    ensures starts { Starts (record { first = first.now; second = second.now }) result (F.state flash.old) (F.state flash.new) }
    ensures says { IfOk result (λ begun. IfSome (F.state flash.new).bytes (UpSays begun.images begun.settings)) }
    ensures places { IfOk result (λ begun. places_of begun.images ≡ record { first = first.now; second = second.now }) }
    ensures layout { IfOk result (λ begun. begun.settings.layout ≡ first.now) }
    ensures target { IfOk result (λ begun. begun.images.target ≡ 0) }
{
    side_laws();
    device_laws();
    let settings = match Settings::open(flash, first) {
        Ok(settings) => settings,
        Err(fault) => return Err(of_bank(fault)),
    };
    let images = match mount_images(first, second, flash) {
        Ok(images) => images,
        Err(fault) => return Err(fault),
    };
    match confirmed_of(first, second, flash) {
        Ok(confirmed) => Ok(Begun {
            images,
            settings,
            confirmed,
        }),
        Err(fault) => Err(passed_on(fault)),
    }
}
