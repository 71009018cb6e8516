//! The device.

ghost use Rattle.std.specs.Prelude.{◌≡◌, IfOk, IfSome, IsSome, Some, None, true, false};
ghost use Rattle.smp_flash.specs.Layout.{geometry_of};
ghost use Rattle.smp_model.specs.Settings.{stored_form};
ghost use Rattle.smp_device.specs.Handling.{DeviceSays, Handles};
ghost use Rattle.smp_device.specs.Showing.{shown_of};
ghost use Rattle.smp_device.specs.Starting.{Opens, Restarts, start_fault};
ghost use Rattle.smp_device.specs.Up.{IsWhole};

use crate::answering::{Down, Finished, Handled, answer_packet};
use crate::images::Images;
use crate::showing::{Confirmed, Shown, show};
use crate::starting::{Begun, begin};
use smp_files::FileTable;
use smp_flash::{Flash, Layout, Operation};
use smp_groups::Counts;
use smp_header::{PacketBuffer, read_packet};
use smp_settings::Settings;
use smp_upload::UploadFault;
use std::alloc::Global;
use std::marker::Model;

/// Why a device could not be opened.
#[derive(Clone, Copy, Debug, PartialEq, Eq)]
pub enum OpenFault {
    /// There is no memory for the files.
    OutOfMemory,

    /// The flash stands for no device.
    Unformatted,

    /// This operation of the flash failed.
    Fault(Operation),

    /// The flash is off.
    Off,

    /// A mount needs more records than can be put. Nothing changed there.
    Worn,
}

/// Why it could not be opened, where it could not be started.
fn open_fault(fault: UploadFault) -> OpenFault
    ensures { start_fault result ≡ Some fault }
{
    match fault {
        UploadFault::Unformatted => OpenFault::Unformatted,
        UploadFault::Fault(operation) => OpenFault::Fault(operation),
        UploadFault::Off => OpenFault::Off,
        UploadFault::Worn => OpenFault::Worn,
    }
}

/// A device: the images of its flash, its settings, its files, and what it counted.
///
/// The value is for one flash, which nobody else writes. Its memory was taken when it was opened.
#[derive(Drop)]
pub struct Device {
    first: Layout,
    second: Option<Layout>,
    images: Option<Images>,
    settings: Settings,
    files: FileTable,
    counts: Counts,
    confirmed: Confirmed,
}

impl Model for Device {
    ghost use Rattle.smp_groups.specs.Counters.{counters_of};
    ghost use Rattle.smp_device.specs.Handling.{DeviceState};
    ghost use Rattle.smp_device.specs.Up.{IsWhole};

    ghost Value = { DeviceState };

    ghost view = { λ d. record { places = record { first = d.first; second = d.second }; up = d.images; settings = d.settings; files = d.files; counters = counters_of d.counts; confirmed = d.confirmed } };

    ghost invariant = { λ d. IsWhole (record { first = d.first; second = d.second }) d.images d.settings };
}

impl Device {
    /// Takes the device's memory, and starts it: the settings are read, and then each image is mounted. The first fault of these
    /// ends it. No other call takes memory.
    ///
    /// A flash is `Unformatted` exactly where its bytes stand for no device.
    pub fn open<F: Flash>(alloc: Global, flash: &mut F) -> Result<Device, OpenFault>
        ensures opens { Opens result (F.state flash.old) (F.state flash.new) }
        ensures whole { IfOk result (λ device. IsWhole device.places device.up device.settings) }
        ensures says { IfOk result (λ device. IfSome (F.state flash.new).bytes (DeviceSays device)) }
    {
        let Ok(files) = FileTable::reserve(alloc) else {
            return Err(OpenFault::OutOfMemory);
        };
        let geometry = flash.geometry();
        let first = Layout::of(geometry);
        let second = Layout::second(geometry);
        match begin(&first, &second, flash) {
            Ok(begun) => {
                let Begun {
                    images,
                    settings,
                    confirmed,
                } = begun;
                Ok(Device {
                    first,
                    second,
                    images: Some(images),
                    settings,
                    files,
                    counts: Counts::default(),
                    confirmed,
                })
            }
            Err(fault) => Err(open_fault(fault)),
        }
    }

    /// Forgets what is not durable, and starts the device anew, as `open` does. It is down where this does not go through.
    pub fn restart<F: Flash>(&mut self, flash: &mut F) -> Result<(), UploadFault>
        requires sizes { geometry_of self.old.places.first ≡ (F.state flash.old).geometry }
        ensures restarts { Restarts result self.old.places self.new (F.state flash.old) (F.state flash.new) }
        ensures places { self.new.places ≡ self.old.places }
        ensures whole { IsWhole self.new.places self.new.up self.new.settings }
        ensures says { IfSome (F.state flash.new).bytes (DeviceSays self.new) }
    {
        self.images = None;
        self.files.clear();
        self.counts = Counts::default();
        match begin(&self.first, &self.second, flash) {
            Ok(begun) => {
                let Begun {
                    images,
                    settings,
                    confirmed,
                } = begun;
                self.images = Some(images);
                self.settings = settings;
                self.confirmed = confirmed;
                Ok(())
            }
            Err(fault) => Err(fault),
        }
    }

    /// Handles a packet that came in, while the device is up. The reply, if there is one, is put into `out` in place of what
    /// that held.
    ///
    /// A packet is dropped exactly where it is no packet, or no request. After `Down` and `ReplyThenReset` the device is down,
    /// and is to be started again; else it is up. A flash that fails in a request is answered 11, 12 or 13 in the request's group,
    /// by the operation that failed, and a record that is worn 64, or 66 where it is that of the settings: some first steps of the
    /// request were taken then, and a side of an image is mounted again at the next request that comes to it.
    pub fn handle<F: Flash>(
        &mut self,
        flash: &mut F,
        bytes: &[u8],
        out: &mut PacketBuffer,
    ) -> Result<Handled, Down>
        requires up { IsSome self.old.up }
        requires sizes { geometry_of self.old.places.first ≡ (F.state flash.old).geometry }
        requires says { IfSome (F.state flash.old).bytes (DeviceSays self.old) }
        ensures handles { Handles bytes.now self.old self.new out.new.items result (F.state flash.old) (F.state flash.new) }
        ensures places { self.new.places ≡ self.old.places }
        ensures whole { IsWhole self.new.places self.new.up self.new.settings }
        ensures confirmed { self.new.confirmed ≡ self.old.confirmed }
        ensures says { IfSome (F.state flash.new).bytes (DeviceSays self.new) }
    {
        out.clear();
        match read_packet(bytes) {
            Some(packet) if packet.op == 0 || packet.op == 2 => match self.images.take() {
                Some(images) => {
                    let Finished { images, result } = answer_packet(
                        images,
                        &mut self.settings,
                        &mut self.files,
                        &mut self.counts,
                        flash,
                        &packet,
                        out,
                    );
                    self.images = images;
                    result
                }
                None => unreachable!(),
            },
            _ => {
                self.counts.drop_one();
                Ok(Handled::Dropped)
            }
        }
    }

    /// The device is up.
    pub fn is_up(&self) -> bool
        ensures yes { result ≡ true → IsSome self.now.up }
        ensures not { result ≡ false → self.now.up ≡ None }
    {
        self.images.is_some()
    }

    /// What is known of the image of this number: none exactly where the device is down, has no such image, or its side is not
    /// mounted.
    pub fn shown(&self, image: u32) -> Option<Shown>
        ensures { result ≡ shown_of image self.now.up self.now.confirmed }
    {
        match &self.images {
            Some(images) => show(images, image, self.confirmed),
            None => None,
        }
    }

    /// The stored form of the saved settings that were found or written last.
    pub fn saved_form(&self) -> &[u8]
        ensures form { result.now ≡ self.now.settings.form }
        ensures saved { result.now ≡ stored_form self.now.settings.saved }
    {
        self.settings.saved_form()
    }
}
