//! Marks and confirmations, by the hash of an image.

ghost use Rattle.std.specs.Prelude.{◌≡◌, ◌∷◌, [], Err, Some, true, false, IfOk, IfSome, option_map};
ghost use Rattle.smp_flash.specs.Calls.{Calls};
ghost use Rattle.smp_flash.specs.Layout.{area_spot, geometry_of, slot_of};
ghost use Rattle.smp_flash.specs.State.{ended};
ghost use Rattle.smp_model.specs.Does.{does};
ghost use Rattle.smp_model.specs.FlashUse.{is_hash_taken};
ghost use Rattle.smp_model.specs.ImageGroup.{has_hash, mark_of, sets_hash, sets_image, sets_no_hash};
ghost use Rattle.smp_model.specs.Meant as meant;
ghost use Rattle.smp_upload.specs.Faults.{of_call};
ghost use Rattle.smp_upload.specs.States.{Says, known_mounted};
ghost use Rattle.smp_model.specs.Said.{said_of};
ghost use Rattle.smp_device.specs.Answers.{ImagesAnswer, IsImageReply};
ghost use Rattle.smp_side.specs.Held.{is_ok};
ghost use Rattle.smp_device.specs.Mounts.{MountsAll, MountsResult, MountsSettled, Untouched, Untouches};
ghost use Rattle.smp_device.specs.Places.{ArePlaces, ImagesSay, places_of};
ghost use Rattle.smp_device.specs.Setting.{RunsIs, acts_on};
ghost use Rattle.smp_device.specs.Settling.{SettledSay, alone_places, alone_settled, both_places, both_settled, settled_places};
ghost use Rattle.smp_device.specs.Uploads.{sizes_of};
ghost use Rattle.smp_device.specs.declared.sets.Act.TheVariants as acts;

use crate::images::{Images, Replied};
use crate::laws::side_laws;
use crate::lists::unknown;
use crate::sets::{Act, act_first, act_second, with_second};
use crate::settled::{Settled, alone, both, settle_all};
use crate::uploads::refused;
use smp_flash::{CallFault, Flash};
use smp_model::error::{HASH_NOT_FOUND, INVALID_DIGEST, INVALID_VALUE};
use smp_model::{Mark, Reply};
use smp_side::{Held, layout_of, passed_on};
use smp_upload::{Mounted, active_image, sides_are_told_apart};

/// The image that runs has this hash. No byte changes.
fn runs_at<F: Flash>(mounted: &Mounted, flash: &mut F, hash: &[u8]) -> Result<bool, CallFault>
    requires layout { geometry_of (known_mounted mounted.now).layout ≡ (F.state flash.old).geometry }
    requires says { IfSome (F.state flash.old).bytes (Says (known_mounted mounted.now)) }
    ensures calls { Calls (area_spot (slot_of (known_mounted mounted.now).layout 0) ∷ []) (ended result) (F.state flash.old) (F.state flash.new) }
    ensures kept { (F.state flash.new).bytes ≡ (F.state flash.old).bytes }
    ensures runs { IfOk result (λ b. IfSome (F.state flash.old).bytes (RunsIs (known_mounted mounted.now).layout hash.now b)) }
{
    let layout = layout_of(mounted);
    let image = active_image(&layout, flash)?;
    Ok(&image.hash[..] == hash)
}

/// The good image that was uploaded has this hash.
fn holds_at(mounted: &Mounted, hash: &[u8]) -> bool
    ensures { result ≡ has_hash hash.now (known_mounted mounted.now).image }
{
    match mounted {
        Mounted::Idle(_) | Mounted::Receiving(_) => false,
        Mounted::Whole(state) => match state.image {
            None => false,
            Some(image) => &image.hash[..] == hash,
        },
        Mounted::Pending(state) => &state.image.hash[..] == hash,
    }
}

/// The mark that is asked for.
fn mark_of(confirm: bool) -> Mark
    ensures { result ≡ mark_of confirm }
{
    if confirm { Mark::Permanent } else { Mark::Test }
}

/// A read of a slot failed.
fn failed(images: Images, fault: CallFault) -> Replied
    ensures { result ≡ record { images = images; result = Err (of_call fault) } }
{
    Replied {
        images,
        result: Err(passed_on(fault)),
    }
}

/// The image of a device of one that has this hash is set.
fn set_alone<F: Flash>(
    zero: Mounted,
    target: u32,
    flash: &mut F,
    hash: &[u8],
    confirm: bool,
) -> Replied
    requires places { ArePlaces (F.state flash.old).geometry (alone_places zero) }
    requires says { IfSome (F.state flash.old).bytes (SettledSay (alone_settled zero target)) }
    ensures answers { ImagesAnswer (alone_places zero) 0 target (sets_hash hash.now confirm) result.images result.result (F.state flash.old) (F.state flash.new) }
    ensures answer { IfOk result.result (λ reply. IsImageReply (said_of reply)) }
    ensures mounts { MountsSettled result.images.zero result.images.one (is_ok result.result) }
{
    side_laws();
    sides_are_told_apart();
    let runs = match runs_at(&zero, flash, hash) {
        Ok(runs) => runs,
        Err(fault) => {
            return Replied {
                images: Images {
                    zero: unknown(layout_of(&zero)),
                    one: None,
                    target,
                },
                result: Err(passed_on(fault)),
            };
        }
    };
    if runs {
        let settled = alone(zero, target);
        return act_first(settled, flash, Act::Confirm(confirm));
    }
    if holds_at(&zero, hash) {
        let settled = alone(zero, target);
        return act_first(settled, flash, Act::Mark(mark_of(confirm)));
    }
    let images = Images {
        zero: Held::Mounted(zero),
        one: None,
        target,
    };
    refused(images, HASH_NOT_FOUND)
}

/// The first image of two that has this hash is set: image 0 or 1 that runs, or image 0 or 1 that was uploaded.
fn set_both<F: Flash>(
    settled: Settled,
    one: Mounted,
    flash: &mut F,
    hash: &[u8],
    confirm: bool,
) -> Replied
    requires places { ArePlaces (F.state flash.old).geometry (both_places settled.zero one) }
    requires says { IfSome (F.state flash.old).bytes (SettledSay (both_settled settled.zero one settled.target)) }
    ensures answers { ImagesAnswer (both_places settled.zero one) 0 settled.target (sets_hash hash.now confirm) result.images result.result (F.state flash.old) (F.state flash.new) }
    ensures answer { IfOk result.result (λ reply. IsImageReply (said_of reply)) }
    ensures mounts { MountsSettled result.images.zero result.images.one (is_ok result.result) }
{
    side_laws();
    sides_are_told_apart();
    let Settled { zero, target, .. } = settled;
    let first = match runs_at(&zero, flash, hash) {
        Ok(runs) => runs,
        Err(fault) => {
            let lost = unknown(layout_of(&zero));
            return failed(with_second(lost, Held::Mounted(one), target), fault);
        }
    };
    if first {
        let settled = both(zero, one, target);
        return act_first(settled, flash, Act::Confirm(confirm));
    }
    let second = match runs_at(&one, flash, hash) {
        Ok(runs) => runs,
        Err(fault) => {
            let lost = unknown(layout_of(&one));
            return failed(with_second(Held::Mounted(zero), lost, target), fault);
        }
    };
    if second {
        return act_second(zero, one, target, flash, Act::Confirm(confirm));
    }
    if holds_at(&zero, hash) {
        let settled = both(zero, one, target);
        return act_first(settled, flash, Act::Mark(mark_of(confirm)));
    }
    if holds_at(&one, hash) {
        return act_second(zero, one, target, flash, Act::Mark(mark_of(confirm)));
    }
    let images = with_second(Held::Mounted(zero), Held::Mounted(one), target);
    refused(images, HASH_NOT_FOUND)
}

/// The image that has this hash is set, where all images are mounted.
fn set_settled<F: Flash>(settled: Settled, flash: &mut F, hash: &[u8], confirm: bool) -> Replied
    requires places { ArePlaces (F.state flash.old).geometry (settled_places settled) }
    requires says { IfSome (F.state flash.old).bytes (SettledSay settled) }
    ensures answers { ImagesAnswer (settled_places settled) 0 settled.target (sets_hash hash.now confirm) result.images result.result (F.state flash.old) (F.state flash.new) }
    ensures answer { IfOk result.result (λ reply. IsImageReply (said_of reply)) }
    ensures mounts { MountsSettled result.images.zero result.images.one (is_ok result.result) }
{
    let Settled { zero, one, target } = settled;
    match one {
        None => set_alone(zero, target, flash, hash, confirm),
        Some(one) => {
            let first = alone(zero, target);
            set_both(first, one, flash, hash, confirm)
        }
    }
}

/// No hash: the image that runs as image 0 is meant, and it can only be confirmed.
fn set_running<F: Flash>(images: Images, flash: &mut F, confirm: bool) -> Replied
    requires places { ArePlaces (F.state flash.old).geometry (places_of images) }
    requires says { IfSome (F.state flash.old).bytes (ImagesSay images) }
    ensures answers { ImagesAnswer (places_of images) 5 images.target (λ d. sets_no_hash d confirm) result.images result.result (F.state flash.old) (F.state flash.new) }
    ensures answer { IfOk result.result (λ reply. IsImageReply (said_of reply)) }
    ensures untouched { confirm ≡ false → Untouched images result (F.state flash.old) (F.state flash.new) }
    ensures mounts { confirm ≡ true → MountsResult (places_of images) images result.images result.result (F.state flash.old) (F.state flash.new) }
{
    side_laws();
    if !confirm {
        return Replied {
            images,
            result: Ok(Reply::SmpError(INVALID_VALUE)),
        };
    }
    match settle_all(images, flash) {
        Ok(settled) => act_first(settled, flash, Act::Confirm(true)),
        Err(replied) => replied,
    }
}

/// The image of this hash is marked or confirmed; an empty hash is none.
fn set_hash<F: Flash>(images: Images, flash: &mut F, hash: &[u8], confirm: bool) -> Replied
    requires places { ArePlaces (F.state flash.old).geometry (places_of images) }
    requires says { IfSome (F.state flash.old).bytes (ImagesSay images) }
    ensures answers { ImagesAnswer (places_of images) 5 images.target (λ d. sets_image d (Some hash.now) confirm) result.images result.result (F.state flash.old) (F.state flash.new) }
    ensures answer { IfOk result.result (λ reply. IsImageReply (said_of reply)) }
    ensures untouched { is_hash_taken (Some hash.now) confirm ≡ false → Untouched images result (F.state flash.old) (F.state flash.new) }
    ensures mounts { is_hash_taken (Some hash.now) confirm ≡ true → MountsResult (places_of images) images result.images result.result (F.state flash.old) (F.state flash.new) }
{
    side_laws();
    if hash.len() == 0 {
        return set_running(images, flash, confirm);
    }
    if hash.len() != 32 {
        return refused(images, INVALID_DIGEST);
    }
    match settle_all(images, flash) {
        Ok(settled) => set_settled(settled, flash, hash, confirm),
        Err(replied) => replied,
    }
}

/// Marks an image to run, or confirms the one that runs, and lists the images.
///
/// A hash means the first image that has it: image 0 or 1 that runs, or image 0 or 1 that was uploaded.
pub fn set<F: Flash>(images: Images, flash: &mut F, hash: Option<&[u8]>, confirm: bool) -> Replied
    requires places { ArePlaces (F.state flash.old).geometry (places_of images) }
    requires says { IfSome (F.state flash.old).bytes (ImagesSay images) }
    ensures answers { ImagesAnswer (places_of images) 5 images.target (λ d. does (sizes_of (F.state flash.old).geometry) d (meant.image_set (option_map (λ h. h.now) hash.entry) confirm)) result.images result.result (F.state flash.old) (F.state flash.new) }
    ensures answer { IfOk result.result (λ reply. IsImageReply (said_of reply)) }
    ensures untouched { Untouches (sizes_of (F.state flash.old).geometry) (meant.image_set (option_map (λ h. h.now) hash.entry) confirm) images result (F.state flash.old) (F.state flash.new) }
    ensures mounts { MountsAll (sizes_of (F.state flash.old).geometry) (meant.image_set (option_map (λ h. h.now) hash.entry) confirm) images result (F.state flash.old) (F.state flash.new) }
{
    match hash {
        None => set_running(images, flash, confirm),
        Some(hash) => set_hash(images, flash, hash, confirm),
    }
}
