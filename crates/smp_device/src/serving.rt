//! Requests that may change the device: its images, its settings, or a file.

ghost use Rattle.std.specs.Prelude.{◌≡◌, List, Ok, true, IfOk, IfSome, option_map};
ghost use Rattle.smp_flash.specs.State.{FlashState};
ghost use Rattle.smp_flash.specs.declared.geometry.Geometry.{Geometry as Sizes};
ghost use Rattle.smp_files.specs.Writing.{written_reply};
ghost use Rattle.smp_model.specs.declared.device.Counters.{Counters};
ghost use Rattle.smp_model.specs.declared.device.StoredFile.{StoredFile as Stored};
ghost use Rattle.smp_model.specs.Meant as meant;
ghost use Rattle.smp_model.specs.Meant.{meant_of};
ghost use Rattle.smp_model.specs.Said.{said_of};
ghost use Rattle.smp_settings.specs.Saved.{SettingsState};
ghost use Rattle.smp_device.specs.Places.{ArePlaces, ImagesSay, places_of};
ghost use Rattle.smp_device.specs.Serving.{Serves, bank_reply, changes, of_bank, setting_reply};
ghost use Rattle.smp_device.specs.Telling.{Fitting};
ghost use Rattle.smp_device.specs.Up.{IsFor, UpSays, up_of};

use crate::hashes::set;
use crate::images::{Images, Replied};
use crate::laws::device_laws;
use crate::lists::list;
use crate::telling::{file_error, is_setting_name, setting_error};
use crate::uploads::{erase, upload};
use smp_files::{FileFault, FileTable};
use smp_flash::Flash;
use smp_gate::BankFault;
use smp_model::error::{
    FILE_NAME_LENGTH, FILE_TOO_LONG, INVALID_VALUE, NO_FREE_FILE, NO_SUCH_FILE, NO_SUCH_SETTING,
    PAST_FILE_END, SETTING_NAME_LENGTH, SETTING_VALUE_LENGTH, SETTINGS_FULL,
};
use smp_model::{Reply, Request, UploadPart};
use smp_settings::{SettingFault, Settings};
use smp_upload::UploadFault;

/// The fault of a call on the settings.
pub fn of_bank(fault: BankFault) -> UploadFault
    ensures { result ≡ of_bank fault }
{
    match fault {
        BankFault::Unformatted => UploadFault::Unformatted,
        BankFault::Fault(operation) => UploadFault::Fault(operation),
        BankFault::Off => UploadFault::Off,
        BankFault::Worn | BankFault::Full => UploadFault::Worn,
    }
}

/// The answer of a call on the settings that has nothing to tell.
fn bank_reply(answer: Result<(), BankFault>) -> Result<Reply<'static>, UploadFault>
    ensures { result ≡ bank_reply answer }
{
    match answer {
        Ok(()) => Ok(Reply::Empty),
        Err(fault) => Err(of_bank(fault)),
    }
}

/// The saved settings become the running ones.
fn load<F: Flash>(images: Images, settings: &mut Settings, flash: &mut F) -> Replied
    requires regions { IsFor (F.state flash.old).geometry images settings.old }
    requires says { IfSome (F.state flash.old).bytes (UpSays images settings.old) }
    ensures serves { (files : List Stored) (counters : Counters) → Serves (F.state flash.old).geometry (Ok meant.load) (up_of images settings.old files counters) (up_of result.images settings.new files counters) result.result (F.state flash.old) (F.state flash.new) }
    ensures fits { IfOk result.result (λ reply. Fitting (said_of reply)) }
{
    device_laws();
    let answer = settings.load(flash);
    Replied {
        images,
        result: bank_reply(answer),
    }
}

/// The running settings are saved.
fn save<F: Flash>(images: Images, settings: &mut Settings, flash: &mut F) -> Replied
    requires regions { IsFor (F.state flash.old).geometry images settings.old }
    requires says { IfSome (F.state flash.old).bytes (UpSays images settings.old) }
    ensures serves { (files : List Stored) (counters : Counters) → Serves (F.state flash.old).geometry (Ok meant.save) (up_of images settings.old files counters) (up_of result.images settings.new files counters) result.result (F.state flash.old) (F.state flash.new) }
    ensures fits { IfOk result.result (λ reply. Fitting (said_of reply)) }
{
    device_laws();
    let answer = settings.save(flash);
    Replied {
        images,
        result: bank_reply(answer),
    }
}

/// The answer to a write that ended so.
fn setting_reply(answer: Result<(), SettingFault>) -> Reply<'static>
    ensures reply { result ≡ setting_reply answer }
    ensures fits { Fitting (said_of result) }
{
    match answer {
        Ok(()) => Reply::Empty,
        Err(SettingFault::NameLength) => setting_error(SETTING_NAME_LENGTH),
        Err(SettingFault::ValueLength) => setting_error(SETTING_VALUE_LENGTH),
        Err(SettingFault::Full) => setting_error(SETTINGS_FULL),
    }
}

/// A running setting is written.
fn write_setting(images: Images, settings: &mut Settings, name: &str, val: &[u8]) -> Replied
    ensures serves { (g : Sizes) (files : List Stored) (counters : Counters) (a : FlashState) → IfSome a.bytes (UpSays images settings.old)
        → Serves g (Ok (meant.setting_write name.now val.now)) (up_of images settings.old files counters) (up_of result.images settings.new files counters) result.result a a }
    ensures fits { IfOk result.result (λ reply. Fitting (said_of reply)) }
{
    let answer = settings.write(name, val);
    Replied {
        images,
        result: Ok(setting_reply(answer)),
    }
}

/// A running setting is deleted.
fn delete_setting(images: Images, settings: &mut Settings, name: &str) -> Replied
    ensures serves { (g : Sizes) (files : List Stored) (counters : Counters) (a : FlashState) → IfSome a.bytes (UpSays images settings.old)
        → Serves g (Ok (meant.setting_delete name.now)) (up_of images settings.old files counters) (up_of result.images settings.new files counters) result.result a a }
    ensures fits { IfOk result.result (λ reply. Fitting (said_of reply)) }
{
    if !is_setting_name(name) {
        return Replied {
            images,
            result: Ok(setting_error(SETTING_NAME_LENGTH)),
        };
    }
    if settings.delete(name) {
        return Replied {
            images,
            result: Ok(Reply::Empty),
        };
    }
    Replied {
        images,
        result: Ok(setting_error(NO_SUCH_SETTING)),
    }
}

/// The answer to a part of a file that ended so.
fn file_reply(answer: Result<u32, FileFault>) -> Reply<'static>
    ensures reply { said_of result ≡ written_reply answer }
    ensures fits { Fitting (said_of result) }
{
    match answer {
        Ok(off) => Reply::Offset { off, matched: None },
        Err(FileFault::NameLength) => file_error(FILE_NAME_LENGTH),
        Err(FileFault::NoLength) => Reply::SmpError(INVALID_VALUE),
        Err(FileFault::TooLong) => file_error(FILE_TOO_LONG),
        Err(FileFault::PastEnd) => file_error(PAST_FILE_END),
        Err(FileFault::NoFree) => file_error(NO_FREE_FILE),
        Err(FileFault::NoFile) => file_error(NO_SUCH_FILE),
    }
}

/// A part of a file is stored.
fn write_file(
    images: Images,
    files: &mut FileTable,
    name: &str,
    off: u32,
    len: Option<u32>,
    bytes: &[u8],
) -> Replied
    ensures serves { (g : Sizes) (settings : SettingsState) (counters : Counters) (a : FlashState) → IfSome a.bytes (UpSays images settings)
        → Serves g (Ok (meant.file_write off bytes.now len name.now)) (up_of images settings files.old counters) (up_of result.images settings files.new counters) result.result a a }
    ensures fits { IfOk result.result (λ reply. Fitting (said_of reply)) }
{
    let answer = files.write(name, off, len, bytes);
    Replied {
        images,
        result: Ok(file_reply(answer)),
    }
}

/// Lists the images.
fn serve_list<F: Flash>(images: Images, flash: &mut F) -> Replied
    requires places { ArePlaces (F.state flash.old).geometry (places_of images) }
    requires says { IfSome (F.state flash.old).bytes (ImagesSay images) }
    ensures serves { (settings : SettingsState) (files : List Stored) (counters : Counters) → IsFor (F.state flash.old).geometry images settings → IfSome (F.state flash.old).bytes (UpSays images settings)
        → Serves (F.state flash.old).geometry (Ok meant.image_list) (up_of images settings files counters) (up_of result.images settings files counters) result.result (F.state flash.old) (F.state flash.new) }
    ensures fits { IfOk result.result (λ reply. Fitting (said_of reply)) }
{
    device_laws();
    list(images, flash)
}

/// Marks or confirms an image.
fn serve_set<F: Flash>(images: Images, flash: &mut F, hash: Option<&[u8]>, confirm: bool) -> Replied
    requires places { ArePlaces (F.state flash.old).geometry (places_of images) }
    requires says { IfSome (F.state flash.old).bytes (ImagesSay images) }
    ensures serves { (settings : SettingsState) (files : List Stored) (counters : Counters) → IsFor (F.state flash.old).geometry images settings → IfSome (F.state flash.old).bytes (UpSays images settings)
        → Serves (F.state flash.old).geometry (Ok (meant.image_set (option_map (λ h. h.now) hash.entry) confirm)) (up_of images settings files counters) (up_of result.images settings files counters) result.result (F.state flash.old) (F.state flash.new) }
    ensures fits { IfOk result.result (λ reply. Fitting (said_of reply)) }
{
    device_laws();
    set(images, flash, hash, confirm)
}

/// Takes a part of an upload.
fn serve_upload<F: Flash>(images: Images, flash: &mut F, part: &UploadPart<'_>) -> Replied
    requires places { ArePlaces (F.state flash.old).geometry (places_of images) }
    requires says { IfSome (F.state flash.old).bytes (ImagesSay images) }
    ensures serves { (settings : SettingsState) (files : List Stored) (counters : Counters) → IsFor (F.state flash.old).geometry images settings → IfSome (F.state flash.old).bytes (UpSays images settings)
        → Serves (F.state flash.old).geometry (Ok (meant.upload part.now.image part.now.len part.now.off (option_map (λ s. s.now) part.now.sha) part.now.bytes.now)) (up_of images settings files counters) (up_of result.images settings files counters) result.result (F.state flash.old) (F.state flash.new) }
    ensures fits { IfOk result.result (λ reply. Fitting (said_of reply)) }
{
    device_laws();
    upload(images, flash, part)
}

/// Gives an upload up.
fn serve_erase<F: Flash>(images: Images, flash: &mut F, slot: u32) -> Replied
    requires places { ArePlaces (F.state flash.old).geometry (places_of images) }
    requires says { IfSome (F.state flash.old).bytes (ImagesSay images) }
    ensures serves { (settings : SettingsState) (files : List Stored) (counters : Counters) → IsFor (F.state flash.old).geometry images settings → IfSome (F.state flash.old).bytes (UpSays images settings)
        → Serves (F.state flash.old).geometry (Ok (meant.erase slot)) (up_of images settings files counters) (up_of result.images settings files counters) result.result (F.state flash.old) (F.state flash.new) }
    ensures fits { IfOk result.result (λ reply. Fitting (said_of reply)) }
{
    device_laws();
    erase(images, flash, slot)
}

/// Serves a request that may change something: one about images, one that writes or deletes a setting, loads or saves them, or
/// a part of a file.
pub fn serve<F: Flash>(
    images: Images,
    settings: &mut Settings,
    files: &mut FileTable,
    flash: &mut F,
    request: &Request<'_>,
) -> Replied
    requires regions { IsFor (F.state flash.old).geometry images settings.old }
    requires says { IfSome (F.state flash.old).bytes (UpSays images settings.old) }
    requires changes { changes (meant_of request.now) ≡ true }
    ensures serves { (counters : Counters) → Serves (F.state flash.old).geometry (Ok (meant_of request.now)) (up_of images settings.old files.old counters) (up_of result.images settings.new files.new counters) result.result (F.state flash.old) (F.state flash.new) }
    ensures fits { IfOk result.result (λ reply. Fitting (said_of reply)) }
{
    match request {
        Request::ImageList => serve_list(images, flash),
        Request::ImageSet { hash, confirm } => serve_set(images, flash, *hash, *confirm),
        Request::Upload(part) => serve_upload(images, flash, part),
        Request::Erase { slot } => serve_erase(images, flash, *slot),
        Request::SettingWrite { name, val } => write_setting(images, settings, name, val),
        Request::SettingDelete { name } => delete_setting(images, settings, name),
        Request::Load => load(images, settings, flash),
        Request::Save => save(images, settings, flash),
        Request::FileWrite {
            name,
            off,
            len,
            bytes,
        } => write_file(images, files, name, *off, *len, bytes),
        _ => unreachable!(),
    }
}
