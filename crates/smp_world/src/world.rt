//! A device with its clients, over a flash in memory.

ghost use Rattle.std.specs.Prelude.{◌↔◌, IsTrue, true, false, not, ◌&&◌, ◌≡◌, ◌≤◌, ◌<◌, ◌*◌, ◌⊎◌, ◌++◌, ◌+◌, [], length, count_by, suc, Some, None, IfOk, IfSome, OnOk};
ghost use Rattle.smp_flash.specs.Memory.{memory_of};
ghost use Rattle.smp_world.specs.Lines.{last_text};
ghost use Rattle.smp_world.specs.Machines.{named};
ghost use Rattle.smp_world.specs.Runs.{arms, boot, down, quiet, raw, up};
ghost use Rattle.smp_world.specs.Schedules.{which_of};
ghost use Rattle.smp_world.specs.Worlds.{CanStep, CountsClients, boot_cuts, boot_ups, fate_cuts, EndsWorld, NoneBegan, OneBegan, DoesBegin, DoesEvent, DoesSaid, KeepsPacket, KeepsReply, KeepsSent, OpensWorld, PutsBoot, Steps};

use crate::clients::Clients;
use crate::machine::{BootEnd, Fate, Machine};
use crate::mail::Mail;
use crate::printing::{
    put_armed, put_begun, put_boot_cut, put_boot_fault, put_booted, put_down, put_last, put_quiet,
    put_raw, put_up, put_up_missing,
};
use smp_device::OpenFault;
use smp_edge::{Block, Failed, Octets};
use smp_flash::{Arm, MemFlash};
use smp_jobs::{Job, JobMove};
use smp_model::packets_are_read_back;
use smp_schedule::{Event, Which};
use std::alloc::Global;
use std::marker::Model;

/// A device and its clients.
#[derive(Drop)]
pub struct World {
    alloc: Global,
    machine: Machine,
    clients: Clients,
    packets: Vec<Mail>,
    replies: Vec<Mail>,
    steps: u32,
    cuts: u32,
    boots: u32,
}

impl Model for World {
    ghost use Rattle.std.specs.Prelude.{◌≤◌, ◌*◌};
    ghost use Rattle.smp_world.specs.Worlds.{WorldState};

    ghost Value = { WorldState };

    ghost view = { λ w. record { machine = w.machine; clients = w.clients; packets = w.packets.items; replies = w.replies.items; steps = w.steps; cuts = w.cuts; boots = w.boots } };

    ghost invariant = { λ w. (w.cuts ≤ 2 * w.steps) × (w.boots ≤ w.steps) };
}

/// Fewer steps than this are made, so that no record of the flash is ever worn.
const MOST_STEPS: u32 = 500_000_000;

/// The cuts that fell in a packet, and in the boot that followed it.
fn cuts_of(fate: Fate, boot: Option<BootEnd>) -> u32
    ensures cuts { result ≡ fate_cuts fate + boot_cuts boot }
    ensures most { result ≤ 2 }
{
    u32::from(fate == Fate::Cut) + u32::from(boot == Some(BootEnd::Cut))
}

/// The boots that ended with the device up.
fn boots_of(boot: Option<BootEnd>) -> u32
    ensures boots { result ≡ boot_ups boot }
    ensures most { result ≤ 1 }
{
    u32::from(boot == Some(BootEnd::Up))
}

/// The number that is meant: that of the newest is the count of them.
fn number_of(which: Which, count: usize) -> usize
    ensures { result ≡ named which count }
{
    match which {
        Which::New => count,
        Which::Number(number) => number as usize,
    }
}

/// The place of a number, which is from 1, where there is one.
fn place_of(number: usize, count: usize) -> Option<usize>
    ensures place { IfSome result (λ place. (suc place ≡ number) × (place < count)) }
    ensures none { result ≡ None → (number ≡ 0) ⊎ (count < number) }
{
    if number == 0 || number > count {
        return None;
    }
    Some(number - 1)
}

impl World {
    /// A world over a flash that was formatted, whose clients have these jobs, of which none has begun. It fails only for want of
    /// memory.
    pub fn new(alloc: Global, flash: MemFlash, jobs: Vec<Job>) -> Result<World, OpenFault>
        ensures opens { OpensWorld result (memory_of flash) jobs.items }
        ensures steps { IfOk result (λ world. world.steps ≡ 0) }
        ensures counts { IfOk result (λ world. (world.cuts ≡ 0) × (world.boots ≡ 0)) }
    {
        match Machine::open(alloc, flash) {
            Ok(machine) => Ok(World::over(alloc, machine, jobs)),
            Err(fault) => Err(fault),
        }
    }

    fn over(alloc: Global, machine: Machine, jobs: Vec<Job>) -> World
        ensures { result ≡ record { machine = machine; clients = record { begun = []; waiting = jobs.items }; packets = []; replies = []; steps = 0; cuts = 0; boots = 0 } }
    {
        World {
            alloc,
            machine,
            clients: Clients::new(alloc, jobs),
            packets: Vec::new(alloc),
            replies: Vec::new(alloc),
            steps: 0,
            cuts: 0,
            boots: 0,
        }
    }

    /// Packets that clients sent.
    pub fn sent(&self) -> usize
        ensures { result ≡ length self.now.packets }
    {
        self.packets.len()
    }

    /// Replies to them.
    pub fn answered(&self) -> usize
        ensures { result ≡ length self.now.replies }
    {
        self.replies.len()
    }

    /// Jobs that are done.
    pub fn done(&self) -> usize
        ensures { result ≡ count_by (λ seat. seat.is_done) self.now.clients.begun }
    {
        self.clients.done()
    }

    /// Jobs that ended otherwise.
    pub fn failed(&self) -> usize
        ensures { result ≡ count_by (λ seat. seat.job.is_over && not seat.is_done) self.now.clients.begun }
    {
        self.clients.failed()
    }

    /// Cuts that fell.
    pub fn cuts(&self) -> u32
        ensures { result ≡ self.now.cuts }
    {
        self.cuts
    }

    /// Boots after the start that ended with the device up.
    pub fn boots(&self) -> u32
        ensures { result ≡ self.now.boots }
    {
        self.boots
    }

    /// Whether this event can be done now: a client begins in its turn, an arm waits for one operation at least, and fewer than
    /// 500,000,000 steps were made.
    pub fn can_step(&self, event: &Event) -> bool
        ensures few { result ≡ true → self.now.steps < 500000000 }
        ensures can { result ≡ true → CanStep self.now event.now }
        ensures not { result ≡ false → (500000000 ≤ self.now.steps) ⊎ (CanStep self.now event.now → ⊥) }
    {
        self.steps < MOST_STEPS && self.is_in_turn(event)
    }

    fn is_in_turn(&self, event: &Event) -> bool
        ensures { IsTrue result ↔ CanStep self.now event.now }
    {
        match event {
            Event::Client { number, .. } => self.is_next(usize::from(*number)),
            Event::Armed(arm) => arm.after >= 1,
            _ => true,
        }
    }

    /// The client of this number is the next one that begins.
    fn is_next(&self, number: usize) -> bool
        ensures { IsTrue result ↔ ((number ≡ length self.now.clients.begun + 1) × (1 ≤ length self.now.clients.waiting)) }
    {
        number >= 1 && self.clients.count() == number - 1 && self.clients.waiting() >= 1
    }

    /// Does one event, and puts its lines.
    ///
    /// The clients begin in the order of their jobs, and no more than 500,000,000 steps are made. It fails only for want of memory; the
    /// world is of no use then.
    pub fn step(&mut self, event: &Event, text: &mut Block) -> Result<(), Failed>
        requires few { self.old.steps < 500000000 }
        requires can { CanStep self.old event.now }
        ensures steps { OnOk result (Steps event.now self.old self.new text.old.held text.new.held) }
        ensures clients { OnOk result (CountsClients event.now self.old self.new) }
        ensures count { self.new.steps ≡ self.old.steps + 1 }
    {
        self.steps += 1;
        self.does(event, text)
    }

    fn does(&mut self, event: &Event, text: &mut Block) -> Result<(), Failed>
        requires cuts { self.old.cuts + 2 ≤ 2 * self.old.steps }
        requires boots { self.old.boots + 1 ≤ self.old.steps }
        requires steps { self.old.steps ≤ 500000000 }
        requires can { CanStep self.old event.now }
        ensures does { OnOk result (DoesSaid event.now self.old self.new text.old.held text.new.held) }
        ensures clients { OnOk result (CountsClients event.now self.old self.new) }
        ensures count { self.new.steps ≡ self.old.steps }
    {
        match event {
            Event::Client { .. } => self.begin(text),
            Event::Raw(bytes) => self.raw(bytes.as_slice(), text),
            Event::Up(which) => self.up(*which, text),
            Event::Down(which) => self.down(*which, text),
            Event::Quiet(client) => self.quiet(usize::from(*client), text),
            Event::Armed(arm) => self.arm(*arm, text),
            Event::Boot => self.boot(text),
        }
    }

    /// Puts the last line.
    pub fn finish(&self, text: &mut Block) -> Result<(), Failed>
        ensures text { OnOk result (text.new.held ≡ text.old.held ++ last_text (length self.now.packets) (length self.now.replies) (count_by (λ seat. seat.is_done) self.now.clients.begun)) }
        ensures ends { OnOk result (EndsWorld self.now text.old.held text.new.held) }
    {
        put_last(text, self.sent(), self.answered(), self.done())
    }

    /// Keeps the packet that a client sends.
    fn keep_packet(&mut self, client: usize) -> Result<(), Failed>
        requires some { 1 ≤ client }
        requires begun { client ≤ length self.old.clients.begun }
        ensures kept { OnOk result (KeepsPacket client self.old self.new) }
        ensures clients { self.new.clients ≡ self.old.clients }
        ensures count { self.new.steps ≡ self.old.steps }
        ensures tally { (self.new.cuts ≡ self.old.cuts) × (self.new.boots ≡ self.old.boots) }
    {
        let Ok(packet) = Octets::from_slice(self.alloc, self.clients.packet(client)) else {
            return Err(Failed);
        };
        if self.packets.push(Mail { client, packet }).is_err() {
            return Err(Failed);
        }
        Ok(())
    }

    /// Keeps the packet of a client that sends one.
    fn keep_sent(&mut self, client: usize, made: Option<JobMove>) -> Result<(), Failed>
        requires { IfSome made (λ m. (1 ≤ client) × (client ≤ length self.old.clients.begun)) }
        ensures kept { OnOk result (KeepsSent made client self.old self.new) }
        ensures clients { self.new.clients ≡ self.old.clients }
        ensures count { self.new.steps ≡ self.old.steps }
        ensures tally { (self.new.cuts ≡ self.old.cuts) × (self.new.boots ≡ self.old.boots) }
    {
        match made {
            Some(JobMove::Send) => self.keep_packet(client),
            _ => Ok(()),
        }
    }

    /// Keeps the reply to a client's packet, where it was answered.
    fn keep_reply(&mut self, client: usize, fate: Fate) -> Result<(), Failed>
        ensures kept { OnOk result (KeepsReply fate client self.old self.new) }
        ensures clients { self.new.clients ≡ self.old.clients }
        ensures count { self.new.steps ≡ self.old.steps }
        ensures tally { (self.new.cuts ≡ self.old.cuts) × (self.new.boots ≡ self.old.boots) }
    {
        match fate {
            Fate::Replied | Fate::Reset => {
                let Ok(packet) = Octets::from_slice(self.alloc, self.machine.reply()) else {
                    return Err(Failed);
                };
                if self.replies.push(Mail { client, packet }).is_err() {
                    return Err(Failed);
                }
                Ok(())
            }
            Fate::Dropped | Fate::Down | Fate::Cut => Ok(()),
        }
    }

    /// The next client begins.
    fn begin(&mut self, text: &mut Block) -> Result<(), Failed>
        requires { 1 ≤ length self.old.clients.waiting }
        ensures does { OnOk result (DoesBegin self.old self.new text.old.held text.new.held) }
        ensures clients { OnOk result (OneBegan self.old self.new) }
        ensures count { self.new.steps ≡ self.old.steps }
    {
        self.clients.begin()?;
        let client = self.clients.count();
        self.keep_packet(client)?;
        put_begun(text, client, self.sent())
    }

    /// Bytes come to the device from nobody.
    fn raw(&mut self, bytes: &[u8], text: &mut Block) -> Result<(), Failed>
        requires cuts { self.old.cuts + 2 ≤ 2 * self.old.steps }
        requires boots { self.old.boots + 1 ≤ self.old.steps }
        requires steps { self.old.steps ≤ 500000000 }
        ensures does { OnOk result (DoesEvent (raw bytes.now) self.old self.new text.old.held text.new.held) }
        ensures clients { OnOk result (NoneBegan self.old self.new) }
        ensures count { self.new.steps ≡ self.old.steps }
    {
        let taken = self.machine.take(bytes);
        put_raw(text, taken.fate, self.machine.reply())?;
        self.put_boot(taken.boot, text)?;
        self.count(taken.fate, taken.boot);
        Ok(())
    }

    /// A packet that a client sent comes to the device.
    fn up(&mut self, which: Which, text: &mut Block) -> Result<(), Failed>
        requires cuts { self.old.cuts + 2 ≤ 2 * self.old.steps }
        requires boots { self.old.boots + 1 ≤ self.old.steps }
        requires steps { self.old.steps ≤ 500000000 }
        ensures does { OnOk result (DoesEvent (up (which_of which)) self.old self.new text.old.held text.new.held) }
        ensures clients { OnOk result (NoneBegan self.old self.new) }
        ensures count { self.new.steps ≡ self.old.steps }
    {
        packets_are_read_back();
        let number = number_of(which, self.sent());
        let Some(place) = place_of(number, self.sent()) else {
            return put_up_missing(text, number);
        };
        let mail = &self.packets[place];
        let client = mail.client;
        let taken = self.machine.take(mail.packet.as_slice());
        self.keep_reply(client, taken.fate)?;
        put_up(
            text,
            number,
            taken.fate,
            self.answered(),
            self.machine.reply(),
        )?;
        self.put_boot(taken.boot, text)?;
        self.count(taken.fate, taken.boot);
        Ok(())
    }

    /// A reply comes to its client.
    fn down(&mut self, which: Which, text: &mut Block) -> Result<(), Failed>
        ensures does { OnOk result (DoesEvent (down (which_of which)) self.old self.new text.old.held text.new.held) }
        ensures clients { OnOk result (NoneBegan self.old self.new) }
        ensures count { self.new.steps ≡ self.old.steps }
    {
        let number = number_of(which, self.answered());
        let Some(place) = place_of(number, self.answered()) else {
            return put_down(text, number, None, 0);
        };
        let mail = &self.replies[place];
        let client = mail.client;
        let made = self.clients.hear(client, mail.packet.as_slice());
        self.keep_sent(client, made)?;
        put_down(text, number, made, self.sent())
    }

    /// A wait of a client ends.
    fn quiet(&mut self, client: usize, text: &mut Block) -> Result<(), Failed>
        ensures does { OnOk result (DoesEvent (quiet client) self.old self.new text.old.held text.new.held) }
        ensures clients { OnOk result (NoneBegan self.old self.new) }
        ensures count { self.new.steps ≡ self.old.steps }
    {
        let made = self.clients.quiet(client);
        self.keep_sent(client, made)?;
        put_quiet(text, client, made, self.sent())
    }

    /// The flash is armed.
    fn arm(&mut self, arm: Arm, text: &mut Block) -> Result<(), Failed>
        requires { 1 ≤ arm.after }
        ensures does { OnOk result (DoesEvent (arms arm) self.old self.new text.old.held text.new.held) }
        ensures clients { OnOk result (NoneBegan self.old self.new) }
        ensures count { self.new.steps ≡ self.old.steps }
    {
        self.machine.arm(arm);
        put_armed(text)
    }

    /// Power goes off and on, and the device starts.
    fn boot(&mut self, text: &mut Block) -> Result<(), Failed>
        requires cuts { self.old.cuts + 2 ≤ 2 * self.old.steps }
        requires boots { self.old.boots + 1 ≤ self.old.steps }
        requires steps { self.old.steps ≤ 500000000 }
        ensures does { OnOk result (DoesEvent boot self.old self.new text.old.held text.new.held) }
        ensures clients { OnOk result (NoneBegan self.old self.new) }
        ensures count { self.new.steps ≡ self.old.steps }
    {
        let ended = Some(self.machine.boot());
        self.put_boot(ended, text)?;
        self.count(Fate::Replied, ended);
        Ok(())
    }

    /// Counts the cuts and the boot of a packet, or of a boot alone.
    fn count(&mut self, fate: Fate, boot: Option<BootEnd>)
        requires cuts { self.old.cuts + 2 ≤ 2 * self.old.steps }
        requires boots { self.old.boots + 1 ≤ self.old.steps }
        requires steps { self.old.steps ≤ 500000000 }
        ensures { self.new ≡ record self.old { cuts = self.old.cuts + (fate_cuts fate + boot_cuts boot); boots = self.old.boots + boot_ups boot } }
    {
        self.cuts += cuts_of(fate, boot);
        self.boots += boots_of(boot);
    }

    /// Puts the line of a boot after which the device is up.
    fn put_up_again(&self, text: &mut Block) -> Result<(), Failed>
        ensures { OnOk result (PutsBoot (Some BootEnd.Up) self.now.machine text.old.held text.new.held) }
    {
        let first = self.machine.shown(0);
        let second = self.machine.shown(1);
        put_booted(text, &first, &second, self.machine.saved_form())
    }

    /// Puts the line of a boot, where there was one.
    fn put_boot(&self, boot: Option<BootEnd>, text: &mut Block) -> Result<(), Failed>
        ensures { OnOk result (PutsBoot boot self.now.machine text.old.held text.new.held) }
    {
        match boot {
            None => Ok(()),
            Some(BootEnd::Up) => self.put_up_again(text),
            Some(BootEnd::Cut) => put_boot_cut(text),
            Some(BootEnd::Fault) => put_boot_fault(text),
        }
    }
}
