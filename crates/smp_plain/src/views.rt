//! What is seen of a device once it has settled, lent from the device as it was.

ghost use Rattle.std.specs.Prelude.{◌≡◌, option_map, if◌then◌else◌, IfSome};
ghost use Rattle.smp_model.specs.Uploads.{is_spoiled};
ghost use Rattle.smp_model.specs.Sides.{Confirm, MarkPending, side_settle};
ghost use Rattle.smp_model.specs.Steps.{OnSide, apply, settle, side_at};
ghost use Rattle.smp_plain.specs.Plain.{IsSound, IsSoundSide, device_seen, side_seen};

use crate::uploads::is_spoiled;
use smp_model::{AbstractDevice, Mark, Side, Upload, settling_is_done_once};

/// What is seen of the slots of an image.
#[derive(Clone, Copy, Debug)]
pub(crate) struct SideView<'a> {
    pub(crate) active: &'a [u8],
    pub(crate) confirmed: bool,
    pub(crate) upload: Option<&'a Upload>,
    pub(crate) pending: Option<Mark>,
}

/// What is seen of a device: its sides, and beside them what it was before.
#[derive(Clone, Copy, Debug)]
pub(crate) struct DeviceView<'a> {
    pub(crate) device: &'a AbstractDevice,
    pub(crate) first: SideView<'a>,
    pub(crate) second: Option<SideView<'a>>,
}

/// The side of an image, where the device has such an image.
pub(crate) fn side_at(device: &AbstractDevice, image: u32) -> Option<&Side>
    requires { IsSound device.now }
    ensures value { option_map (λ s. s.now) result ≡ side_at image device.now }
    ensures sound { IfSome result (λ s. IsSoundSide s.now) }
{
    match image {
        0 => Some(&device.first),
        1 => device.second.as_ref(),
        _ => None,
    }
}

/// The upload that settling leaves.
fn settled_upload(upload: &Option<Upload>) -> Option<&Upload>
    ensures { option_map (λ u. u.now) result ≡ (if is_spoiled upload.now then None else upload.now) }
{
    if is_spoiled(upload) {
        None
    } else {
        upload.as_ref()
    }
}

/// A side once it has settled.
pub(crate) fn settled_side(side: &Side) -> SideView<'_>
    requires { IsSoundSide side.now }
    ensures value { side_seen result ≡ side_settle side.now }
    ensures sound { IsSoundSide (side_seen result) }
{
    SideView {
        active: side.active.as_slice(),
        confirmed: side.confirmed,
        upload: settled_upload(&side.upload),
        pending: side.pending,
    }
}

fn settled_second(side: &Option<Side>) -> Option<SideView<'_>>
    requires { IfSome side.now IsSoundSide }
    ensures value { option_map side_seen result ≡ option_map side_settle side.now }
    ensures sound { IfSome result (λ v. IsSoundSide (side_seen v)) }
{
    match side {
        None => None,
        Some(side) => Some(settled_side(side)),
    }
}

/// A device once it has settled.
pub(crate) fn settled(device: &AbstractDevice) -> DeviceView<'_>
    requires { IsSound device.now }
    ensures value { device_seen result ≡ settle device.now }
    ensures sound { IsSound (device_seen result) }
{
    settling_is_done_once();
    DeviceView {
        device,
        first: settled_side(&device.first),
        second: settled_second(&device.second),
    }
}

/// Image 0 with a mark.
pub(crate) fn marked_first<'a>(seen: &DeviceView<'a>, mark: Mark) -> DeviceView<'a>
    requires { IsSound (device_seen seen.now) }
    ensures value { device_seen result ≡ apply (OnSide 0 (MarkPending mark)) (device_seen seen.now) }
    ensures sound { IsSound (device_seen result) }
{
    let first = SideView {
        pending: Some(mark),
        ..seen.first
    };
    DeviceView { first, ..*seen }
}

/// Image 0 confirmed.
pub(crate) fn confirmed_first<'a>(seen: &DeviceView<'a>) -> DeviceView<'a>
    requires { IsSound (device_seen seen.now) }
    ensures value { device_seen result ≡ apply (OnSide 0 Confirm) (device_seen seen.now) }
    ensures sound { IsSound (device_seen result) }
{
    let first = SideView {
        confirmed: true,
        ..seen.first
    };
    DeviceView { first, ..*seen }
}

/// Image 1 with a mark.
pub(crate) fn marked_second<'a>(seen: &DeviceView<'a>, mark: Mark) -> DeviceView<'a>
    requires { IsSound (device_seen seen.now) }
    ensures value { device_seen result ≡ apply (OnSide 1 (MarkPending mark)) (device_seen seen.now) }
    ensures sound { IsSound (device_seen result) }
{
    let Some(second) = seen.second else {
        return *seen;
    };
    let second = SideView {
        pending: Some(mark),
        ..second
    };
    DeviceView {
        second: Some(second),
        ..*seen
    }
}

/// Image 1 confirmed.
pub(crate) fn confirmed_second<'a>(seen: &DeviceView<'a>) -> DeviceView<'a>
    requires { IsSound (device_seen seen.now) }
    ensures value { device_seen result ≡ apply (OnSide 1 Confirm) (device_seen seen.now) }
    ensures sound { IsSound (device_seen result) }
{
    let Some(second) = seen.second else {
        return *seen;
    };
    let second = SideView {
        confirmed: true,
        ..second
    };
    DeviceView {
        second: Some(second),
        ..*seen
    }
}
