//! The plain program at lists of images, marks and erases.

ghost use Rattle.std.specs.Prelude.{◌≡◌, ◌≤◌, ◌<◌, ◌^◌, [], ◌∷◌, length, option_map, unwrap_or, IfSome, Some};
ghost use Rattle.smp_model.specs.Image.{good_image};
ghost use Rattle.smp_model.specs.Said.{said_of};
ghost use Rattle.smp_model.specs.Sides.{Confirm, MarkPending, SideStep};
ghost use Rattle.smp_model.specs.Steps.{OnSide, apply, side_at};
ghost use Rattle.smp_model.specs.Uploads.{uploaded_image};
ghost use Rattle.smp_model.specs.ImageGroup.{active_entry, confirms_on, erase_of, erases, erases_on, has_hash, holds, images_of, is_bootable, is_pending, is_permanent, lists, lists_after, mark_of, marks_on, no_image, pair_of, runs, same_mark, second_entry, sets_hash, sets_image, sets_no_hash};
ghost use Rattle.smp_plain.specs.Plain.{IsSound, IsSoundSide, device_seen, response_of, side_response_of, side_seen, side_step_of};

use crate::good_image::good_image;
use crate::response::{
    PlainResponse, PlainSideResponse, PlainSideStep, PlainStep, behind_settling, goes_on,
    refused_image, refused_part, reply_alone, responded, side_responded,
};
use crate::uploads::is_whole;
use crate::views::{
    DeviceView, SideView, confirmed_first, confirmed_second, marked_first, marked_second, settled,
};
use smp_model::error::{
    ALREADY_PENDING, HASH_NOT_FOUND, INVALID_DIGEST, INVALID_SLOT, INVALID_VALUE, NO_FREE_SLOT,
    TEST_OF_ACTIVE,
};
use smp_model::{
    AbstractDevice, ImageInfo, Mark, Reply, Side, SidePair, SlotEntry, Upload, Version,
};

fn no_image() -> ImageInfo
    ensures { result ≡ no_image }
{
    ImageInfo {
        version: Version {
            major: 0,
            minor: 0,
            revision: 0,
            build: 0,
        },
        flags: 0,
        covered: 0,
        end: 0,
        hash: [0; 32],
    }
}

fn is_bootable(info: &ImageInfo) -> bool
    ensures { result ≡ is_bootable info.now }
{
    info.flags & 0x10 == 0
}

fn active_entry(info: &ImageInfo, confirmed: bool) -> SlotEntry
    ensures { result ≡ active_entry info.now confirmed }
{
    SlotEntry {
        slot: 0,
        version: info.version,
        hash: info.hash,
        bootable: is_bootable(info),
        pending: false,
        confirmed,
        active: true,
        permanent: false,
    }
}

fn is_permanent(pending: Option<Mark>) -> bool
    ensures { result ≡ is_permanent pending }
{
    match pending {
        Some(Mark::Permanent) => true,
        Some(Mark::Test) => false,
        None => false,
    }
}

fn is_pending(pending: Option<Mark>) -> bool
    ensures { result ≡ is_pending pending }
{
    match pending {
        Some(_) => true,
        None => false,
    }
}

fn second_entry(pending: Option<Mark>, info: &ImageInfo) -> SlotEntry
    ensures { result ≡ second_entry pending info.now }
{
    SlotEntry {
        slot: 1,
        version: info.version,
        hash: info.hash,
        bootable: is_bootable(info),
        pending: is_pending(pending),
        confirmed: false,
        active: false,
        permanent: is_permanent(pending),
    }
}

/// The image of an upload that is complete and good.
fn uploaded_image(upload: Option<&Upload>) -> Option<ImageInfo>
    requires { IfSome upload (λ u. length u.now.accepted ≤ u.now.announcement.length) }
    ensures { result ≡ uploaded_image (option_map (λ u. u.now) upload.entry) }
{
    let Some(upload) = upload else {
        return None;
    };
    let _length = upload.announcement.length;
    if is_whole(upload) {
        good_image(upload.accepted.as_slice())
    } else {
        None
    }
}

/// What a list says of slot 0.
fn first_entry(active: &[u8], confirmed: bool) -> SlotEntry
    requires { length active.now < 2 ^ 32 }
    ensures { result ≡ active_entry (unwrap_or (good_image active.now) no_image) confirmed }
{
    match good_image(active) {
        Some(info) => active_entry(&info, confirmed),
        None => active_entry(&no_image(), confirmed),
    }
}

/// What a list says of slot 1.
fn entry_of_upload(upload: Option<&Upload>, pending: Option<Mark>) -> Option<SlotEntry>
    requires { IfSome upload (λ u. length u.now.accepted ≤ u.now.announcement.length) }
    ensures { result
        ≡ option_map (second_entry pending) (uploaded_image (option_map (λ u. u.now) upload.entry)) }
{
    match uploaded_image(upload) {
        Some(info) => Some(second_entry(pending, &info)),
        None => None,
    }
}

/// What a list says of an image.
fn pair_of(seen: &SideView<'_>) -> SidePair
    requires { IsSoundSide (side_seen seen.now) }
    ensures { result ≡ pair_of (side_seen seen.now) }
{
    SidePair {
        first: first_entry(seen.active, seen.confirmed),
        second: entry_of_upload(seen.upload, seen.pending),
    }
}

fn second_pair(seen: &Option<SideView<'_>>) -> Option<SidePair>
    requires { IfSome seen.now (λ v. IsSoundSide (side_seen v)) }
    ensures { result ≡ option_map pair_of (option_map side_seen seen.now) }
{
    match seen {
        None => None,
        Some(seen) => Some(pair_of(seen)),
    }
}

fn images_of<'a>(seen: &DeviceView<'_>) -> Reply<'a>
    requires { IsSound (device_seen seen.now) }
    ensures { said_of result ≡ images_of (device_seen seen.now) }
{
    Reply::Images {
        zero: pair_of(&seen.first),
        one: second_pair(&seen.second),
    }
}

/// The list as it is.
fn lists_now<'a>(seen: &DeviceView<'_>) -> PlainResponse<'a>
    requires { IsSound (device_seen seen.now) }
    ensures value { response_of result ≡ lists_after [] (device_seen seen.now) }
    ensures few { length result.steps.items ≤ 3 }
{
    reply_alone(images_of(seen))
}

/// The list after a step, which makes of the device what is seen then.
fn lists_stepped<'a>(
    seen: &DeviceView<'_>,
    image: u32,
    step: PlainSideStep<'a>,
    then: &DeviceView<'_>,
) -> PlainResponse<'a>
    requires sound { IsSound (device_seen then.now) }
    requires step { device_seen then.now
        ≡ apply (OnSide image (side_step_of step)) (device_seen seen.now) }
    ensures value { response_of result
        ≡ lists_after (OnSide image (side_step_of step.entry) ∷ []) (device_seen seen.now) }
    ensures few { length result.steps.items ≤ 3 }
{
    let _seen = seen;
    responded(images_of(then), PlainStep::OnSide { image, step })
}

fn mark_of(confirm: bool) -> Mark
    ensures { result ≡ mark_of confirm }
{
    if confirm { Mark::Permanent } else { Mark::Test }
}

fn same_mark(first: Mark, second: Mark) -> bool
    ensures { result ≡ same_mark first second }
{
    match (first, second) {
        (Mark::Test, Mark::Test) => true,
        (Mark::Test, Mark::Permanent) => false,
        (Mark::Permanent, Mark::Test) => false,
        (Mark::Permanent, Mark::Permanent) => true,
    }
}

/// The image in slot 1 of a side is meant; `then` is what is seen with the mark.
fn marks_on<'a>(
    seen: &DeviceView<'_>,
    image: u32,
    side: &SideView<'_>,
    confirm: bool,
    then: &DeviceView<'_>,
) -> PlainResponse<'a>
    requires side { side_at image (device_seen seen.now) ≡ Some (side_seen side.now) }
    requires sound { IsSound (device_seen seen.now) }
    requires sound_then { IsSound (device_seen then.now) }
    requires step { device_seen then.now
        ≡ apply (OnSide image (MarkPending (mark_of confirm))) (device_seen seen.now) }
    ensures value { response_of result
        ≡ marks_on image confirm (side_at image (device_seen seen.now)) (device_seen seen.now) }
    ensures few { length result.steps.items ≤ 3 }
{
    let mark = mark_of(confirm);
    let Some(marked) = side.pending else {
        return lists_stepped(seen, image, PlainSideStep::MarkPending(mark), then);
    };
    if same_mark(marked, mark) {
        lists_now(seen)
    } else {
        refused_image(ALREADY_PENDING)
    }
}

/// The image that runs on a side is meant; `then` is what is seen where it is confirmed.
fn confirms_on<'a>(
    seen: &DeviceView<'_>,
    image: u32,
    side: &SideView<'_>,
    confirm: bool,
    then: &DeviceView<'_>,
) -> PlainResponse<'a>
    requires side { side_at image (device_seen seen.now) ≡ Some (side_seen side.now) }
    requires sound { IsSound (device_seen seen.now) }
    requires sound_then { IsSound (device_seen then.now) }
    requires step { device_seen then.now ≡ apply (OnSide image Confirm) (device_seen seen.now) }
    ensures value { response_of result
        ≡ confirms_on image confirm (side_at image (device_seen seen.now)) (device_seen seen.now) }
    ensures few { length result.steps.items ≤ 3 }
{
    if !confirm {
        return refused_image(TEST_OF_ACTIVE);
    }
    if side.confirmed {
        return lists_now(seen);
    }
    lists_stepped(seen, image, PlainSideStep::Confirm, then)
}

fn has_hash(hash: &[u8], info: &Option<ImageInfo>) -> bool
    ensures { result ≡ has_hash hash.now info.now }
{
    match info {
        None => false,
        Some(info) => info.hash.as_slice() == hash,
    }
}

/// The hash is that of the image that runs.
fn runs(hash: &[u8], side: &SideView<'_>) -> bool
    requires { IsSoundSide (side_seen side.now) }
    ensures { result ≡ runs hash.now (Some (side_seen side.now)) }
{
    has_hash(hash, &good_image(side.active))
}

/// The hash is that of the good image that was uploaded.
fn holds(hash: &[u8], side: &SideView<'_>) -> bool
    requires { IsSoundSide (side_seen side.now) }
    ensures { result ≡ holds hash.now (Some (side_seen side.now)) }
{
    has_hash(hash, &uploaded_image(side.upload))
}

/// The first slot of one image with this hash, in the order 0, 1.
fn sets_hash_of_one<'a>(seen: &DeviceView<'_>, hash: &[u8], confirm: bool) -> PlainResponse<'a>
    requires one { seen.now.second ≡ None }
    requires sound { IsSound (device_seen seen.now) }
    ensures value { response_of result ≡ sets_hash hash.now confirm (device_seen seen.now) }
    ensures few { length result.steps.items ≤ 3 }
{
    if runs(hash, &seen.first) {
        return confirms_on(seen, 0, &seen.first, confirm, &confirmed_first(seen));
    }
    if holds(hash, &seen.first) {
        let then = marked_first(seen, mark_of(confirm));
        return marks_on(seen, 0, &seen.first, confirm, &then);
    }
    refused_image(HASH_NOT_FOUND)
}

/// The first slot of two images with this hash, in the order 0, 2, 1, 3.
fn sets_hash_of_two<'a>(
    seen: &DeviceView<'_>,
    second: &SideView<'_>,
    hash: &[u8],
    confirm: bool,
) -> PlainResponse<'a>
    requires two { seen.now.second ≡ Some second.now }
    requires sound { IsSound (device_seen seen.now) }
    ensures value { response_of result ≡ sets_hash hash.now confirm (device_seen seen.now) }
    ensures few { length result.steps.items ≤ 3 }
{
    if runs(hash, &seen.first) {
        return confirms_on(seen, 0, &seen.first, confirm, &confirmed_first(seen));
    }
    if runs(hash, second) {
        return confirms_on(seen, 1, second, confirm, &confirmed_second(seen));
    }
    if holds(hash, &seen.first) {
        let then = marked_first(seen, mark_of(confirm));
        return marks_on(seen, 0, &seen.first, confirm, &then);
    }
    if holds(hash, second) {
        let then = marked_second(seen, mark_of(confirm));
        return marks_on(seen, 1, second, confirm, &then);
    }
    refused_image(HASH_NOT_FOUND)
}

fn sets_hash<'a>(seen: &DeviceView<'_>, hash: &[u8], confirm: bool) -> PlainResponse<'a>
    requires { IsSound (device_seen seen.now) }
    ensures value { response_of result ≡ sets_hash hash.now confirm (device_seen seen.now) }
    ensures few { length result.steps.items ≤ 3 }
{
    match &seen.second {
        None => sets_hash_of_one(seen, hash, confirm),
        Some(second) => sets_hash_of_two(seen, second, hash, confirm),
    }
}

fn sets_no_hash<'a>(device: &AbstractDevice, confirm: bool) -> PlainResponse<'a>
    requires { IsSound device.now }
    ensures { response_of result ≡ sets_no_hash device.now confirm }
{
    if !confirm {
        return reply_alone(Reply::SmpError(INVALID_VALUE));
    }
    let seen = settled(device);
    let then = confirmed_first(&seen);
    behind_settling(device, confirms_on(&seen, 0, &seen.first, true, &then))
}

pub(crate) fn sets_image<'a>(
    device: &AbstractDevice,
    hash: Option<&[u8]>,
    confirm: bool,
) -> PlainResponse<'a>
    requires { IsSound device.now }
    ensures { response_of result
        ≡ sets_image device.now (option_map (λ h. h.now) hash.entry) confirm }
{
    let Some(hash) = hash else {
        return sets_no_hash(device, confirm);
    };
    if hash.is_empty() {
        return sets_no_hash(device, confirm);
    }
    if hash.len() != 32 {
        return refused_image(INVALID_DIGEST);
    }
    behind_settling(device, sets_hash(&settled(device), hash, confirm))
}

pub(crate) fn lists<'a>(device: &AbstractDevice) -> PlainResponse<'a>
    requires { IsSound device.now }
    ensures { response_of result ≡ lists device.now }
{
    behind_settling(device, lists_now(&settled(device)))
}

fn erase_of<'a>(pending: Option<Mark>) -> PlainSideResponse<'a>
    ensures value { side_response_of result ≡ erase_of pending }
    ensures few { length result.steps.items ≤ 1 }
{
    match pending {
        Some(_) => refused_part(NO_FREE_SLOT),
        None => side_responded(Reply::Empty, PlainSideStep::Drop),
    }
}

fn erases_on<'a>(image: u32, side: Option<&Side>) -> PlainResponse<'a>
    ensures { response_of result ≡ erases_on image (option_map (λ s. s.now) side.entry) }
{
    match side {
        None => refused_image(INVALID_SLOT),
        Some(side) => goes_on(image, side, erase_of(side.pending)),
    }
}

pub(crate) fn erases<'a>(device: &AbstractDevice, slot: u32) -> PlainResponse<'a>
    ensures { response_of result ≡ erases device.now slot }
{
    match slot {
        1 => erases_on(0, Some(&device.first)),
        3 => erases_on(1, device.second.as_ref()),
        _ => refused_image(INVALID_SLOT),
    }
}
