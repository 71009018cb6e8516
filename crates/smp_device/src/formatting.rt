//! A flash is formatted: it is made to hold a device.

ghost use Rattle.std.specs.Prelude.{◌≡◌, ◌≢◌, ◌⊎◌, ◌≤◌, [], length, Err, Some, None, IfErr, IfSome, OnOk};
ghost use Rattle.smp_flash.specs.Area.{blank};
ghost use Rattle.smp_flash.specs.Calls.{Calls};
ghost use Rattle.smp_flash.specs.Geometry.{size_of};
ghost use Rattle.smp_flash.specs.Layout.{geometry_of, image_of, progress_of, settings_of, bank_spots};
ghost use Rattle.smp_flash.specs.State.{fault_end};
ghost use Rattle.smp_gate.specs.Fault.{bank_fault_end};
ghost use Rattle.smp_gate.specs.Newest.{Fresh};
ghost use Rattle.smp_settings.specs.Saved.{SavedStand};
ghost use Rattle.smp_upload.specs.Bytes.{SideStands};
ghost use Rattle.smp_device.specs.Formatting.{BanksFormatted, Fits, Formats, IsErased, IsOfFirstGeneration, IsOfFlash, Misfits, SecondMisfits, StandsFormatted, format_end, format_spots, formatted_side, primary_spots, room_of};
ghost use Rattle.smp_device.specs.Uploads.{sizes_of};

use crate::laws::device_laws;
use smp_flash::{CallFault, Flash, Layout, Operation};
use smp_gate::{BankFault, bank_says_what_stands, banks_fit};
use smp_model::{ImageFault, images_end};
use smp_progress::Progress;
use smp_settings::Settings;
use smp_slot::{put, slots_fit};
use smp_tlv::{Lent, check_hash, lent_bytes_are_read, read_image};

/// Why a flash could not be formatted.
#[derive(Clone, Copy, Debug, PartialEq, Eq)]
pub enum FormatFault {
    /// An image is not good, or is longer than a slot less one page. Nothing changed.
    BadImage(ImageFault),

    /// This operation of the flash failed.
    Fault(Operation),

    /// The flash is off.
    Off,
}

/// The fault of a call on a slot.
fn of_call(fault: CallFault) -> FormatFault
    ensures ends { format_end (Err result) ≡ fault_end fault }
    ensures flash { IsOfFlash result }
{
    match fault {
        CallFault::Fault(operation) => FormatFault::Fault(operation),
        CallFault::Off => FormatFault::Off,
    }
}

/// The fault of a call that makes a bank.
fn of_making(fault: BankFault) -> FormatFault
    requires formatted { fault ≢ BankFault.Unformatted }
    requires full { fault ≢ BankFault.Full }
    requires worn { fault ≢ BankFault.Worn }
    ensures ends { format_end (Err result) ≡ bank_fault_end fault }
    ensures flash { IsOfFlash result }
{
    match fault {
        BankFault::Fault(operation) => FormatFault::Fault(operation),
        BankFault::Off => FormatFault::Off,
        BankFault::Unformatted | BankFault::Full | BankFault::Worn => unreachable!(),
    }
}

/// Tests whether an image is good, and then whether it has room.
fn check_image(image: &[u8], room: u32) -> Result<(), ImageFault>
    requires { length image.now ≤ 4294967295 }
    ensures fits { OnOk result (Fits room image.now) }
    ensures misfits { IfErr result (Misfits room image.now) }
{
    lent_bytes_are_read();
    let mut lent = Lent::new(image);
    let info = read_image(&mut lent)?;
    check_hash(&mut lent, &info)?;
    if image.len() > room as usize {
        return Err(ImageFault::TooLarge);
    }
    Ok(())
}

/// How many bytes of an image have room in a slot.
fn room_of(layout: &Layout) -> u32
    ensures { result ≡ room_of (geometry_of layout.now) }
{
    layout.slot(0).length - layout.geometry().page
}

/// Puts an image that fits into its primary slot, and makes the record of no upload.
fn write_image<F: Flash>(layout: &Layout, flash: &mut F, image: &[u8]) -> Result<(), FormatFault>
    requires sizes { geometry_of layout.now ≡ (F.state flash.old).geometry }
    requires fits { Fits (room_of (geometry_of layout.now)) image.now }
    requires erased { IfSome (F.state flash.old).bytes (IsErased layout.now) }
    ensures calls { Calls (primary_spots (geometry_of layout.now) (image_of layout.now)) (format_end result) (F.state flash.old) (F.state flash.new) }
    ensures flash { IfErr result IsOfFlash }
    ensures stands { OnOk result (IfSome (F.state flash.new).bytes (SideStands layout.now (formatted_side (sizes_of (geometry_of layout.now)) image.now))) }
    ensures generation { OnOk result (IfSome (F.state flash.new).bytes (IsOfFirstGeneration (progress_of layout.now))) }
{
    bank_says_what_stands();
    banks_fit();
    slots_fit();
    images_end();
    match put(flash, layout.slot(0), 0, image) {
        Ok(()) => {}
        Err(fault) => return Err(of_call(fault)),
    }
    match Progress::make(flash, layout) {
        Ok(_) => Ok(()),
        Err(fault) => Err(of_making(fault)),
    }
}

/// Makes the settings bank, with none.
fn write_settings<F: Flash>(layout: &Layout, flash: &mut F) -> Result<(), FormatFault>
    requires sizes { geometry_of layout.now ≡ (F.state flash.old).geometry }
    requires erased { IfSome (F.state flash.old).bytes (Fresh (settings_of layout.now)) }
    ensures calls { Calls (bank_spots (settings_of layout.now)) (format_end result) (F.state flash.old) (F.state flash.new) }
    ensures flash { IfErr result IsOfFlash }
    ensures stands { OnOk result (IfSome (F.state flash.new).bytes (SavedStand layout.now [])) }
    ensures generation { OnOk result (IfSome (F.state flash.new).bytes (IsOfFirstGeneration (settings_of layout.now))) }
{
    bank_says_what_stands();
    banks_fit();
    match Settings::make(flash, layout) {
        Ok(_) => Ok(()),
        Err(fault) => Err(of_making(fault)),
    }
}

/// Writes an image that fits, and the settings.
fn write_one<F: Flash>(layout: &Layout, flash: &mut F, image: &[u8]) -> Result<(), FormatFault>
    requires sizes { geometry_of layout.now ≡ (F.state flash.old).geometry }
    requires zero { image_of layout.now ≡ 0 }
    requires one { (geometry_of layout.now).images ≡ 1 }
    requires fits { Fits (room_of (geometry_of layout.now)) image.now }
    requires erased { IfSome (F.state flash.old).bytes (λ held. held ≡ blank (size_of (geometry_of layout.now))) }
    ensures calls { Calls (format_spots (geometry_of layout.now) None) (format_end result) (F.state flash.old) (F.state flash.new) }
    ensures flash { IfErr result IsOfFlash }
    ensures stands { OnOk result (IfSome (F.state flash.new).bytes (StandsFormatted (geometry_of layout.now) image.now None)) }
    ensures generations { OnOk result (IfSome (F.state flash.new).bytes (BanksFormatted (geometry_of layout.now))) }
{
    device_laws();
    write_image(layout, flash, image)?;
    write_settings(layout, flash)
}

/// Writes two images that fit, and the settings.
fn write_two<F: Flash>(
    first: &Layout,
    second: &Layout,
    flash: &mut F,
    zero: &[u8],
    one: &[u8],
) -> Result<(), FormatFault>
    requires sizes { geometry_of first.now ≡ (F.state flash.old).geometry }
    requires same { geometry_of second.now ≡ geometry_of first.now }
    requires zero { image_of first.now ≡ 0 }
    requires one { image_of second.now ≡ 1 }
    requires fits_zero { Fits (room_of (geometry_of first.now)) zero.now }
    requires fits_one { Fits (room_of (geometry_of first.now)) one.now }
    requires erased { IfSome (F.state flash.old).bytes (λ held. held ≡ blank (size_of (geometry_of first.now))) }
    ensures calls { Calls (format_spots (geometry_of first.now) (Some one.now)) (format_end result) (F.state flash.old) (F.state flash.new) }
    ensures flash { IfErr result IsOfFlash }
    ensures stands { OnOk result (IfSome (F.state flash.new).bytes (StandsFormatted (geometry_of first.now) zero.now (Some one.now))) }
    ensures generations { OnOk result (IfSome (F.state flash.new).bytes (BanksFormatted (geometry_of first.now))) }
{
    device_laws();
    write_image(first, flash, zero)?;
    write_image(second, flash, one)?;
    write_settings(first, flash)
}

/// Formats a flash of FF for one image: the image is put into its primary slot, and then the record of no upload and the empty
/// settings are made. No memory is taken.
///
/// The image is tested first: it is good, as `read_image` and `check_hash` tell, and then not longer than a slot less one page.
pub fn format<F: Flash>(flash: &mut F, image: &[u8]) -> Result<(), FormatFault>
    requires one { (F.state flash.old).geometry.images ≡ 1 }
    requires image { length image.now ≤ 4294967295 }
    requires erased { IfSome (F.state flash.old).bytes (λ held. held ≡ blank (size_of (F.state flash.old).geometry)) }
    ensures formats { Formats image.now None result (F.state flash.old) (F.state flash.new) }
{
    let layout = Layout::of(flash.geometry());
    match check_image(image, room_of(&layout)) {
        Ok(()) => write_one(&layout, flash, image),
        Err(fault) => Err(FormatFault::BadImage(fault)),
    }
}

/// Formats a flash of FF for two images, as `format` does for one: both images are tested before anything is written, image 0
/// first. Then image 0 is written, with its record, then image 1, and the settings last.
pub fn format_two<F: Flash>(flash: &mut F, first: &[u8], second: &[u8]) -> Result<(), FormatFault>
    requires two { (F.state flash.old).geometry.images ≡ 2 }
    requires first { length first.now ≤ 4294967295 }
    requires second { length second.now ≤ 4294967295 }
    requires erased { IfSome (F.state flash.old).bytes (λ held. held ≡ blank (size_of (F.state flash.old).geometry)) }
    ensures formats { Formats first.now (Some second.now) result (F.state flash.old) (F.state flash.new) }
{
    let geometry = flash.geometry();
    let zero = Layout::of(geometry);
    let Some(one) = Layout::second(geometry) else {
        unreachable!()
    };
    match check_both(first, second, room_of(&zero)) {
        Ok(()) => write_two(&zero, &one, flash, first, second),
        Err(fault) => Err(FormatFault::BadImage(fault)),
    }
}

/// Tests two images, the first one first.
fn check_both(first: &[u8], second: &[u8], room: u32) -> Result<(), ImageFault>
    requires first { length first.now ≤ 4294967295 }
    requires second { length second.now ≤ 4294967295 }
    ensures fits { OnOk result (Fits room first.now × Fits room second.now) }
    ensures misfits { IfErr result (λ fault. Misfits room first.now fault ⊎ SecondMisfits room first.now (Some second.now) fault) }
{
    check_image(first, room)?;
    check_image(second, room)
}
