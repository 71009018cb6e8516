//! A device over a flash in memory.

ghost use Rattle.std.specs.Prelude.{◌≡◌, ◌≤◌, Some, length};
ghost use Rattle.smp_flash.specs.Memory.{memory_of};
ghost use Rattle.smp_device.specs.Showing.{shown_of};
ghost use Rattle.smp_world.specs.Machines.{BootsIf, BootsMachine, Delivers, OpensFormatted, OpensMachine, StartsAgain, TakesBytes, boot_end, fate_of};

use crate::laws::device_goes;
use arrayvec::ArrayVec;
use smp_device::{Device, Down, Handled, OpenFault, Shown};
use smp_flash::{Arm, MemFlash};
use smp_header::{LARGEST_PACKET, PacketBuffer};
use smp_upload::UploadFault;
use std::alloc::Global;
use std::marker::Model;

/// What came of a packet that came to the device.
#[derive(Clone, Copy, Debug, PartialEq, Eq)]
pub enum Fate {
    /// It was answered.
    Replied,

    /// It was answered, and the device is to be started.
    Reset,

    /// It is no packet, or no request.
    Dropped,

    /// The device is down.
    Down,

    /// Power was cut.
    Cut,
}

/// How a boot ended.
#[derive(Clone, Copy, Debug, PartialEq, Eq)]
pub enum BootEnd {
    /// The device is up.
    Up,

    /// Power was cut.
    Cut,

    /// The flash failed, or stands for no device that can start.
    Fault,
}

/// What came of a packet, and how the boot ended that followed it, where it was a reset.
#[derive(Clone, Copy, Debug, PartialEq, Eq)]
pub struct Taken {
    pub fate: Fate,
    pub boot: Option<BootEnd>,
}

/// What came of a packet, by how it was handled. Nobody else writes the flash, so it is as it was where the device goes down.
fn fate_of(handled: Result<Handled, Down>) -> Fate
    ensures { result ≡ fate_of handled }
{
    match handled {
        Ok(Handled::Reply) => Fate::Replied,
        Ok(Handled::ReplyThenReset) => Fate::Reset,
        Ok(Handled::Dropped) => Fate::Dropped,
        Err(_) => Fate::Cut,
    }
}

/// How a boot ended, by how the start went.
fn boot_end(started: Result<(), UploadFault>) -> BootEnd
    ensures { result ≡ boot_end started }
{
    match started {
        Ok(()) => BootEnd::Up,
        Err(UploadFault::Off) => BootEnd::Cut,
        Err(_) => BootEnd::Fault,
    }
}

/// A device and its flash, and the reply that was sent last.
#[derive(Drop)]
pub struct Machine {
    device: Device,
    flash: MemFlash,
    reply: PacketBuffer,
}

impl Model for Machine {
    ghost use Rattle.smp_flash.specs.Memory.{memory_of};
    ghost use Rattle.smp_world.specs.Machines.{IsOfItsFlash, MachineState};

    ghost Value = { MachineState };

    ghost view = { λ m. record { device = m.device; flash = memory_of m.flash; reply = m.reply.items } };

    ghost invariant = { λ m. IsOfItsFlash m.device (memory_of m.flash) };
}

impl Machine {
    /// Starts a device on this flash. On one that was formatted it fails only for want of memory.
    pub fn open(alloc: Global, flash: MemFlash) -> Result<Machine, OpenFault>
        ensures opens { OpensMachine result (memory_of flash) }
        ensures formatted { OpensFormatted result (memory_of flash) }
    {
        device_goes();
        Machine::start(alloc, flash)
    }

    fn start(alloc: Global, flash: MemFlash) -> Result<Machine, OpenFault>
        ensures { OpensMachine result (memory_of flash) }
    {
        let mut flash = flash;
        match Device::open(alloc, &mut flash) {
            Ok(device) => Ok(Machine {
                device,
                flash,
                reply: ArrayVec::new(),
            }),
            Err(fault) => Err(fault),
        }
    }

    /// The reply that was sent last.
    pub fn reply(&self) -> &[u8]
        ensures value { result.now ≡ self.now.reply }
        ensures fits { length result.now ≤ LARGEST_PACKET }
    {
        self.reply.as_slice()
    }

    /// Bytes come to the device.
    fn deliver(&mut self, bytes: &[u8]) -> Fate
        ensures { Delivers bytes.now result self.old self.new }
    {
        if !self.device.is_up() {
            return Fate::Down;
        }
        fate_of(self.device.handle(&mut self.flash, bytes, &mut self.reply))
    }

    /// Starts the device anew where a reset was answered.
    fn boot_after(&mut self, fate: Fate) -> Option<BootEnd>
        ensures { BootsIf fate result self.old self.new }
    {
        match fate {
            Fate::Reset => Some(self.restart()),
            Fate::Replied | Fate::Dropped | Fate::Down | Fate::Cut => None,
        }
    }

    /// Bytes come to the device, which starts anew after it answered a reset.
    pub fn take(&mut self, bytes: &[u8]) -> Taken
        ensures { TakesBytes bytes.now result.fate result.boot self.old self.new }
    {
        device_goes();
        let fate = self.deliver(bytes);
        let boot = self.boot_after(fate);
        Taken { fate, boot }
    }

    /// Arms the flash.
    pub fn arm(&mut self, arm: Arm)
        requires { 1 ≤ arm.after }
        ensures { self.new ≡ record self.old { flash = record self.old.flash { arm = Some arm } } }
    {
        self.flash.arm(arm);
    }

    /// Power goes off and on, and the device starts.
    fn restart(&mut self) -> BootEnd
        ensures { StartsAgain result self.old self.new }
    {
        self.flash.power_on();
        boot_end(self.device.restart(&mut self.flash))
    }

    /// Power goes off and on, and the device starts.
    pub fn boot(&mut self) -> BootEnd
        ensures { BootsMachine result self.old self.new }
    {
        device_goes();
        self.restart()
    }

    /// What the device shows of an image.
    pub fn shown(&self, image: u32) -> Option<Shown>
        ensures { result ≡ shown_of image self.now.device.up self.now.device.confirmed }
    {
        self.device.shown(image)
    }

    /// The stored form of the saved settings.
    pub fn saved_form(&self) -> &[u8]
        ensures { result.now ≡ self.now.device.settings.form }
    {
        self.device.saved_form()
    }
}
