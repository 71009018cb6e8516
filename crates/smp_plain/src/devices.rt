//! The plain program's devices: what steps make of one, and a start. Each is a copy, and what it was made of stays as it
//! was.

ghost use Rattle.std.specs.Prelude.{◌≡◌, [], ◌∷◌, ◌++◌, filter, map as each, option_map, if◌then◌else◌, IfOk, OnOk};
ghost use Rattle.smp_model.specs.Said.{said_of, is_error};
ghost use Rattle.smp_model.specs.Settings.{setting, written_setting, deleted_setting};
ghost use Rattle.smp_model.specs.Files.{stored_file, lengthened, file_of};
ghost use Rattle.smp_model.specs.Counters.{after_drop};
ghost use Rattle.smp_model.specs.Sides.{appended, chosen, side_apply, side_settle};
ghost use Rattle.smp_model.specs.Steps.{apply, applied, changed, counted, settle, start, with_side};
ghost use Rattle.smp_model.specs.Response.{after};
ghost use Rattle.smp_plain.specs.Plain.{change_of, is_kept, response_of, side_step_of, step_of};

use crate::files::file_of;
use crate::response::{PlainChange, PlainResponse, PlainSideStep, PlainStep};
use crate::settings::precedes;
use crate::uploads::is_spoiled;
use smp_edge::Octets;
use smp_model::{
    AbstractDevice, Announcement, Counters, Pairs, Reply, Setting, Side, StoredFile, StoredFiles,
    Upload, settling_is_done_once,
};
use std::alloc::{AllocError, Global};

/// Which things are kept, by their names.
#[derive(Clone, Copy, Debug, PartialEq, Eq)]
pub(crate) enum Kept<'a> {
    All,
    /// Those whose names come before this one.
    Before(&'a [u8]),
    Behind(&'a [u8]),
    /// All but that of this name.
    Others(&'a [u8]),
}

fn is_kept(kept: &Kept<'_>, own: &[u8]) -> bool
    ensures { result ≡ is_kept kept.now own.now }
{
    match kept {
        Kept::All => true,
        Kept::Before(name) => precedes(own, name),
        Kept::Behind(name) => precedes(name, own),
        Kept::Others(name) => own != *name,
    }
}

fn copied(alloc: Global, octets: &Octets) -> Result<Octets, AllocError>
    ensures { IfOk result (λ copy. copy ≡ octets.now) }
{
    Octets::from_slice(alloc, octets.as_slice())
}

/// Bytes with others behind them.
fn joined(alloc: Global, front: &[u8], rest: &[u8]) -> Result<Octets, AllocError>
    ensures { IfOk result (λ all. all ≡ front.now ++ rest.now) }
{
    let mut all = Vec::from_slice(alloc, front)?;
    all.extend_from_slice(rest)?;
    Ok(Octets::from_vec(all))
}

/// Adds a copy of the setting where it is kept.
fn add_setting(
    alloc: Global,
    into: &mut Pairs,
    setting: &Setting,
    kept: &Kept<'_>,
) -> Result<(), AllocError>
    ensures { OnOk result
        (into.new ≡ into.old ++ (if is_kept kept.now setting.now.name then setting.now ∷ [] else [])) }
{
    if !is_kept(kept, setting.name.as_slice()) {
        return Ok(());
    }
    let name = copied(alloc, &setting.name)?;
    let val = copied(alloc, &setting.val)?;
    into.push(Setting { name, val })
}

/// Adds copies of the settings that are kept.
fn add_settings(
    alloc: Global,
    into: &mut Pairs,
    settings: &[Setting],
    kept: &Kept<'_>,
) -> Result<(), AllocError>
    ensures { OnOk result
        (into.new ≡ into.old ++ filter (λ s. is_kept kept.now s.name) settings.now) }
{
    for setting in settings {
        add_setting(alloc, into, setting, kept)?;
    }
    Ok(())
}

/// Adds a copy of the file where it is kept.
fn add_file(
    alloc: Global,
    into: &mut StoredFiles,
    file: &StoredFile,
    kept: &Kept<'_>,
) -> Result<(), AllocError>
    ensures { OnOk result
        (into.new ≡ into.old ++ (if is_kept kept.now file.now.name then file.now ∷ [] else [])) }
{
    if !is_kept(kept, file.name.as_slice()) {
        return Ok(());
    }
    let name = copied(alloc, &file.name)?;
    let held = copied(alloc, &file.held)?;
    into.push(StoredFile {
        name,
        announced: file.announced,
        held,
    })
}

/// Adds copies of the files that are kept.
fn add_files(
    alloc: Global,
    into: &mut StoredFiles,
    files: &[StoredFile],
    kept: &Kept<'_>,
) -> Result<(), AllocError>
    ensures { OnOk result (into.new ≡ into.old ++ filter (λ f. is_kept kept.now f.name) files.now) }
{
    for file in files {
        add_file(alloc, into, file, kept)?;
    }
    Ok(())
}

fn copied_settings(alloc: Global, settings: &[Setting]) -> Result<Pairs, AllocError>
    ensures { IfOk result (λ copy. copy ≡ settings.now) }
{
    let mut copy = Pairs::new(alloc);
    add_settings(alloc, &mut copy, settings, &Kept::All)?;
    Ok(copy)
}

fn copied_files(alloc: Global, files: &[StoredFile]) -> Result<StoredFiles, AllocError>
    ensures { IfOk result (λ copy. copy ≡ files.now) }
{
    let mut copy = StoredFiles::new(alloc);
    add_files(alloc, &mut copy, files, &Kept::All)?;
    Ok(copy)
}

fn made_setting(alloc: Global, name: &[u8], val: &[u8]) -> Result<Setting, AllocError>
    ensures { IfOk result (λ s. s ≡ setting name.now val.now) }
{
    Ok(Setting {
        name: Octets::from_slice(alloc, name)?,
        val: Octets::from_slice(alloc, val)?,
    })
}

fn written_setting(
    alloc: Global,
    settings: &[Setting],
    name: &[u8],
    val: &[u8],
) -> Result<Pairs, AllocError>
    ensures { IfOk result (λ all. all ≡ written_setting name.now val.now settings.now) }
{
    let mut all = Pairs::new(alloc);
    add_settings(alloc, &mut all, settings, &Kept::Before(name))?;
    all.push(made_setting(alloc, name, val)?)?;
    add_settings(alloc, &mut all, settings, &Kept::Behind(name))?;
    Ok(all)
}

fn deleted_setting(alloc: Global, settings: &[Setting], name: &[u8]) -> Result<Pairs, AllocError>
    ensures { IfOk result (λ all. all ≡ deleted_setting name.now settings.now) }
{
    let mut all = Pairs::new(alloc);
    add_settings(alloc, &mut all, settings, &Kept::Others(name))?;
    Ok(all)
}

fn stored_file(
    alloc: Global,
    files: &[StoredFile],
    name: &[u8],
    announced: u32,
    held: Octets,
) -> Result<StoredFiles, AllocError>
    ensures { IfOk result (λ all. all ≡ stored_file name.now announced held files.now) }
{
    let mut all = StoredFiles::new(alloc);
    add_files(alloc, &mut all, files, &Kept::Before(name))?;
    let own = StoredFile {
        name: Octets::from_slice(alloc, name)?,
        announced,
        held,
    };
    all.push(own)?;
    add_files(alloc, &mut all, files, &Kept::Behind(name))?;
    Ok(all)
}

fn lengthened(
    alloc: Global,
    files: &[StoredFile],
    name: &str,
    part: &[u8],
) -> Result<StoredFiles, AllocError>
    ensures { IfOk result (λ all. all ≡ lengthened part.now (file_of name.now files.now) files.now) }
{
    match file_of(files, name) {
        None => copied_files(alloc, files),
        Some(file) => {
            let held = joined(alloc, file.held.as_slice(), part)?;
            stored_file(alloc, files, file.name.as_slice(), file.announced, held)
        }
    }
}

fn with_running(device: AbstractDevice, running: Pairs) -> AbstractDevice
    ensures { result ≡ record device { running = running } }
{
    AbstractDevice { running, ..device }
}

fn with_files(device: AbstractDevice, files: StoredFiles) -> AbstractDevice
    ensures { result ≡ record device { files = files } }
{
    AbstractDevice { files, ..device }
}

fn aimed(device: AbstractDevice, image: u32) -> AbstractDevice
    ensures { result ≡ record device { target = image } }
{
    AbstractDevice {
        target: image,
        ..device
    }
}

fn changed(
    alloc: Global,
    device: AbstractDevice,
    change: &PlainChange<'_>,
) -> Result<AbstractDevice, AllocError>
    ensures { IfOk result (λ e. e ≡ changed (change_of change.now) device) }
{
    let running = device.running.as_slice();
    let files = device.files.as_slice();
    match change {
        PlainChange::WriteSetting { name, val } => {
            let all = written_setting(alloc, running, name.as_bytes(), val)?;
            Ok(with_running(device, all))
        }
        PlainChange::DeleteSetting { name } => {
            let all = deleted_setting(alloc, running, name.as_bytes())?;
            Ok(with_running(device, all))
        }
        PlainChange::LoadSettings => {
            let all = copied_settings(alloc, device.saved.as_slice())?;
            Ok(with_running(device, all))
        }
        PlainChange::BeginFile {
            name,
            announced,
            part,
        } => {
            let held = Octets::from_slice(alloc, part)?;
            let all = stored_file(alloc, files, name.as_bytes(), *announced, held)?;
            Ok(with_files(device, all))
        }
        PlainChange::AppendFile { name, part } => {
            let all = lengthened(alloc, files, name, part)?;
            Ok(with_files(device, all))
        }
        PlainChange::AimAt { image } => Ok(aimed(device, *image)),
    }
}

fn with_saved(device: AbstractDevice, saved: Pairs) -> AbstractDevice
    ensures { result ≡ record device { saved = saved } }
{
    AbstractDevice { saved, ..device }
}

fn chosen(alloc: Global, announcement: Announcement) -> Result<Upload, AllocError>
    ensures { IfOk result (λ u. u ≡ chosen announcement) }
{
    let accepted = Octets::from_slice(alloc, b"")?;
    Ok(Upload {
        announcement,
        accepted,
    })
}

fn appended(
    alloc: Global,
    upload: &Option<Upload>,
    bytes: &[u8],
) -> Result<Option<Upload>, AllocError>
    ensures { IfOk result (λ u. u ≡ appended upload.now bytes.now) }
{
    let Some(upload) = upload else {
        return Ok(None);
    };
    let accepted = joined(alloc, upload.accepted.as_slice(), bytes)?;
    Ok(Some(Upload {
        announcement: upload.announcement,
        accepted,
    }))
}

/// The side after a step.
fn side_apply(alloc: Global, side: Side, step: &PlainSideStep<'_>) -> Result<Side, AllocError>
    ensures { IfOk result (λ s. s ≡ side_apply (side_step_of step.now) side) }
{
    match step {
        PlainSideStep::Choose(announcement) => {
            let upload = Some(chosen(alloc, *announcement)?);
            Ok(Side { upload, ..side })
        }
        PlainSideStep::Append(bytes) => {
            let upload = appended(alloc, &side.upload, bytes)?;
            Ok(Side { upload, ..side })
        }
        PlainSideStep::Drop => Ok(Side {
            upload: None,
            ..side
        }),
        PlainSideStep::MarkPending(mark) => Ok(Side {
            pending: Some(*mark),
            ..side
        }),
        PlainSideStep::Confirm => Ok(Side {
            confirmed: true,
            ..side
        }),
    }
}

fn second_apply(
    alloc: Global,
    side: Option<Side>,
    step: &PlainSideStep<'_>,
) -> Result<Option<Side>, AllocError>
    ensures { IfOk result (λ s. s ≡ option_map (side_apply (side_step_of step.now)) side) }
{
    match side {
        None => Ok(None),
        Some(side) => Ok(Some(side_apply(alloc, side, step)?)),
    }
}

/// The device after a step of the side of an image.
fn on_side(
    alloc: Global,
    device: AbstractDevice,
    image: u32,
    step: &PlainSideStep<'_>,
) -> Result<AbstractDevice, AllocError>
    ensures { IfOk result (λ e. e ≡ with_side image (side_apply (side_step_of step.now)) device) }
{
    match image {
        0 => {
            let first = side_apply(alloc, device.first, step)?;
            Ok(AbstractDevice { first, ..device })
        }
        1 => {
            let second = second_apply(alloc, device.second, step)?;
            Ok(AbstractDevice { second, ..device })
        }
        _ => Ok(device),
    }
}

fn apply(
    alloc: Global,
    device: AbstractDevice,
    step: &PlainStep<'_>,
) -> Result<AbstractDevice, AllocError>
    ensures { IfOk result (λ e. e ≡ apply (step_of step.now) device) }
{
    match step {
        PlainStep::OnSide { image, step } => on_side(alloc, device, *image, step),
        PlainStep::Save => {
            let saved = copied_settings(alloc, device.running.as_slice())?;
            Ok(with_saved(device, saved))
        }
        PlainStep::Run(change) => changed(alloc, device, change),
    }
}

/// The device after these steps, from the first on.
fn applied(
    alloc: Global,
    device: AbstractDevice,
    steps: &[PlainStep<'_>],
) -> Result<AbstractDevice, AllocError>
    ensures { IfOk result (λ e. e ≡ applied (each step_of steps.now) device) }
{
    match steps.split_first() {
        None => Ok(device),
        Some((step, rest)) => {
            let next = apply(alloc, device, step)?;
            applied(alloc, next, rest)
        }
    }
}

fn is_error(reply: &Reply<'_>) -> bool
    ensures { result ≡ is_error (said_of reply.now) }
{
    match reply {
        Reply::SmpError(_) => true,
        Reply::GroupError { .. } => true,
        _ => false,
    }
}

fn counted(device: AbstractDevice, reply: &Reply<'_>) -> AbstractDevice
    ensures { result ≡ counted (said_of reply.now) device }
{
    let Counters {
        handled,
        dropped,
        errors,
    } = device.counters;
    let errors = if is_error(reply) {
        errors.saturating_add(1)
    } else {
        errors
    };
    let counters = Counters {
        handled: handled.saturating_add(1),
        dropped,
        errors,
    };
    AbstractDevice { counters, ..device }
}

fn copied_upload(alloc: Global, upload: &Option<Upload>) -> Result<Option<Upload>, AllocError>
    ensures { IfOk result (λ u. u ≡ upload.now) }
{
    let Some(upload) = upload else {
        return Ok(None);
    };
    let accepted = copied(alloc, &upload.accepted)?;
    Ok(Some(Upload {
        announcement: upload.announcement,
        accepted,
    }))
}

fn copied_side(alloc: Global, side: &Side) -> Result<Side, AllocError>
    ensures { IfOk result (λ s. s ≡ side.now) }
{
    let active = copied(alloc, &side.active)?;
    let upload = copied_upload(alloc, &side.upload)?;
    Ok(Side {
        active,
        confirmed: side.confirmed,
        upload,
        pending: side.pending,
    })
}

fn copied_second(alloc: Global, side: &Option<Side>) -> Result<Option<Side>, AllocError>
    ensures { IfOk result (λ s. s ≡ side.now) }
{
    match side {
        None => Ok(None),
        Some(side) => Ok(Some(copied_side(alloc, side)?)),
    }
}

fn copied_device(alloc: Global, device: &AbstractDevice) -> Result<AbstractDevice, AllocError>
    ensures { IfOk result (λ d. d ≡ device.now) }
{
    let first = copied_side(alloc, &device.first)?;
    let second = copied_second(alloc, &device.second)?;
    let saved = copied_settings(alloc, device.saved.as_slice())?;
    let running = copied_settings(alloc, device.running.as_slice())?;
    let files = copied_files(alloc, device.files.as_slice())?;
    Ok(AbstractDevice {
        first,
        second,
        saved,
        running,
        files,
        counters: device.counters,
        target: device.target,
    })
}

/// The device after a request that was answered so: its steps are done, and its reply is counted. It fails only for want
/// of memory.
pub fn device_after(
    alloc: Global,
    device: &AbstractDevice,
    response: &PlainResponse<'_>,
) -> Result<AbstractDevice, AllocError>
    ensures { IfOk result (λ e. e ≡ after (response_of response.now) device.now) }
{
    let copy = copied_device(alloc, device)?;
    let done = applied(alloc, copy, response.steps.as_slice())?;
    Ok(counted(done, &response.reply))
}

fn settled_side(side: Side) -> Side
    ensures { result ≡ side_settle side }
{
    if is_spoiled(&side.upload) {
        Side {
            upload: None,
            ..side
        }
    } else {
        side
    }
}

fn settled_second(side: Option<Side>) -> Option<Side>
    ensures { result ≡ option_map side_settle side }
{
    match side {
        None => None,
        Some(side) => Some(settled_side(side)),
    }
}

/// The device after a start: settled, with the saved settings running, no files, the counters at 0, and image 0 as the
/// target of parts. It fails only for want of memory.
pub fn started(alloc: Global, device: &AbstractDevice) -> Result<AbstractDevice, AllocError>
    ensures { IfOk result (λ e. e ≡ start device.now) }
{
    let AbstractDevice {
        first,
        second,
        saved,
        ..
    } = copied_device(alloc, device)?;
    let running = copied_settings(alloc, saved.as_slice())?;
    settling_is_done_once();
    Ok(AbstractDevice {
        first: settled_side(first),
        second: settled_second(second),
        saved,
        running,
        files: StoredFiles::new(alloc),
        counters: Counters::default(),
        target: 0,
    })
}

/// The device once a packet was dropped.
pub(crate) fn dropped(alloc: Global, device: &AbstractDevice) -> Result<AbstractDevice, AllocError>
    ensures { IfOk result (λ e. e ≡ record device.now { counters = after_drop device.now.counters }) }
{
    let copy = copied_device(alloc, device)?;
    let counters = Counters {
        dropped: copy.counters.dropped.saturating_add(1),
        ..copy.counters
    };
    Ok(AbstractDevice { counters, ..copy })
}
