//! The response of the plain program to each request.

ghost use Rattle.std.specs.Prelude.{◌≡◌, ◌≤◌, ◌<◌, ◌↔◌, ◌^◌, length, IfSome, IsTrue};
ghost use Rattle.std.specs.List.{All};
ghost use Rattle.smp_model.specs.Counters.{stat_group_reply};
ghost use Rattle.smp_model.specs.Does.{does};
ghost use Rattle.smp_model.specs.Meant.{meant_of};
ghost use Rattle.smp_model.specs.Said.{said_of};
ghost use Rattle.smp_plain.specs.Plain.{IsSound, IsSoundSide, response_of};

use crate::files::{hashes_file, reads_file, tells_length, writes_file};
use crate::images::{erases, lists, sets_image};
use crate::response::{PlainResponse, reply_alone};
use crate::settings::{
    deletes_setting, loads_settings, reads_setting, saves_settings, writes_setting,
};
use crate::uploads::uploads;
use smp_model::error::{NO_SUCH_STATISTICS, STATISTICS_GROUP};
use smp_model::{
    AbstractDevice, Counters, Reply, Request, Setting, Side, Sizes, StoredFile, Upload,
};

/// The statistics of the device, by the one name that they have.
fn statistics<'a>(counters: &Counters, name: &str) -> Reply<'a>
    ensures { said_of result ≡ stat_group_reply counters.now name.now }
{
    if name != "smp" {
        return Reply::GroupError {
            group: STATISTICS_GROUP,
            number: NO_SUCH_STATISTICS,
        };
    }
    Reply::StatGroup {
        handled: counters.handled,
        dropped: counters.dropped,
        errors: counters.errors,
    }
}

/// What the device does at a request: the response of the definition, worked out in memory.
pub fn response_to<'a>(
    sizes: &Sizes,
    device: &'a AbstractDevice,
    request: &Request<'a>,
) -> PlainResponse<'a>
    requires unit { 0 < sizes.now.unit }
    requires sound { IsSound device.now }
    ensures { response_of result ≡ does sizes.now device.now (meant_of request.now) }
{
    let running = device.running.as_slice();
    let files = device.files.as_slice();
    match request {
        Request::Echo(text) => reply_alone(Reply::Echo(text)),
        Request::Reset => reply_alone(Reply::Empty),
        Request::Parameters => reply_alone(Reply::Parameters),
        Request::StatGroup(name) => reply_alone(statistics(&device.counters, name)),
        Request::StatList => reply_alone(Reply::StatList),
        Request::ImageList => lists(device),
        Request::ImageSet { hash, confirm } => sets_image(device, *hash, *confirm),
        Request::Upload(part) => uploads(sizes, device, part),
        Request::Erase { slot } => erases(device, *slot),
        Request::SettingRead { name, max_size } => reads_setting(running, name, *max_size),
        Request::SettingWrite { name, val } => writes_setting(running, name, val),
        Request::SettingDelete { name } => deletes_setting(running, name),
        Request::Commit => reply_alone(Reply::Empty),
        Request::Load => loads_settings(),
        Request::Save => saves_settings(),
        Request::FileRead { name, off } => reads_file(files, *off, name),
        Request::FileWrite {
            name,
            off,
            len,
            bytes,
        } => writes_file(files, *off, bytes, *len, name),
        Request::FileStatus { name } => tells_length(files, name),
        Request::FileHash {
            name,
            kind,
            off,
            len,
        } => hashes_file(files, name, *kind, *off, *len),
        Request::FileTypes => reply_alone(Reply::FileTypes),
        Request::FileClose => reply_alone(Reply::Empty),
    }
}

fn fits_upload(upload: &Option<Upload>) -> bool
    ensures { IsTrue result ↔ IfSome upload.now (λ u. length u.accepted ≤ u.announcement.length) }
{
    match upload {
        None => true,
        Some(upload) => upload.accepted.as_slice().len() <= upload.announcement.length as usize,
    }
}

fn is_sound_side(side: &Side) -> bool
    ensures { IsTrue result ↔ IsSoundSide side.now }
{
    let active = side.active.as_slice().len() <= 0xffff_ffff;
    let upload = fits_upload(&side.upload);
    active && upload
}

fn is_sound_second(side: &Option<Side>) -> bool
    ensures { IsTrue result ↔ IfSome side.now IsSoundSide }
{
    match side {
        None => true,
        Some(side) => is_sound_side(side),
    }
}

fn fits_file(file: &StoredFile) -> bool
    ensures { IsTrue result ↔ (length file.now.held ≤ file.now.announced) }
{
    file.held.as_slice().len() <= file.announced as usize
}

fn fit_files(files: &[StoredFile]) -> bool
    ensures { IsTrue result ↔ All (λ f. length f.held ≤ f.announced) files.now }
{
    files.iter().all(|f| fits_file(f))
}

fn is_short(setting: &Setting) -> bool
    ensures { IsTrue result ↔ (length setting.now.val ≤ 128) }
{
    setting.val.as_slice().len() <= 128
}

fn are_short(settings: &[Setting]) -> bool
    ensures { IsTrue result ↔ All (λ s. length s.val ≤ 128) settings.now }
{
    settings.iter().all(|s| is_short(s))
}

/// The numbers that the device has to answer fit their types, and its running values fit a packet, which [`response_to`]
/// and [`handle`](crate::handle) ask for.
pub fn is_sound(device: &AbstractDevice) -> bool
    ensures { IsTrue result ↔ IsSound device.now }
{
    let first = is_sound_side(&device.first);
    let second = is_sound_second(&device.second);
    let files = fit_files(device.files.as_slice());
    let running = are_short(device.running.as_slice());
    first && second && files && running
}
