//! A device serves over a link.

ghost use Rattle.std.specs.Prelude.{◌≡◌, length, IsSome, IfSome, OnOk};
ghost use Rattle.smp_flash.specs.Layout.{geometry_of};
ghost use Rattle.smp_device.specs.Handling.{DeviceSays};
ghost use Rattle.smp_device.specs.Up.{IsWhole};
ghost use Rattle.smp_serve.specs.Hearing.{link_state};
ghost use Rattle.smp_serve.specs.Links.{AnswersTo, LinkCaused, LinkEnds, LinkEndsOf, TurnEnds};
ghost use Rattle.smp_serve.specs.Sessions.{FlashCaused, PendingStays, point};

use crate::fault::{ServeFault, down_fault, start_fault};
use arrayvec::ArrayVec;
use smp_device::{Device, Handled};
use smp_edge::{Failed, Heard, Link, Peer};
use smp_flash::Flash;
use smp_header::PacketBuffer;

/// What a session over a link counted.
#[derive(Clone, Copy, Debug, PartialEq, Eq)]
pub struct Served {
    /// Replies that were sent.
    pub answered: u32,

    /// Datagrams that were dropped.
    pub dropped: u32,
}

/// Gives a datagram to the device, and sends the reply to the peer that asked: whether there was one. After the reply to a reset
/// the device is started again.
fn answer<F: Flash, L: Link>(
    device: &mut Device,
    flash: &mut F,
    link: &mut L,
    from: Peer,
    bytes: &[u8],
    reply: &mut PacketBuffer,
) -> Result<bool, ServeFault>
    requires up { IsSome device.old.up }
    requires sizes { geometry_of device.old.places.first ≡ (F.state flash.old).geometry }
    requires says { IfSome (F.state flash.old).bytes (DeviceSays device.old) }
    ensures answers { AnswersTo from bytes.now result (point device.old (F.state flash.old)) (point device.new (F.state flash.new)) (L.sent link.old) (L.sent link.new) }
    ensures up { OnOk result (IsSome device.new.up) }
    ensures places { device.new.places ≡ device.old.places }
    ensures sizes { (F.state flash.new).geometry ≡ (F.state flash.old).geometry }
    ensures whole { IsWhole device.new.places device.new.up device.new.settings }
    ensures says { IfSome (F.state flash.new).bytes (DeviceSays device.new) }
    ensures script { L.script link.new ≡ L.script link.old }
    ensures names { L.names link.new ≡ L.names link.old }
    ensures cause { LinkCaused result (L.faults link.old) (L.faults link.new) }
{
    match device.handle(flash, bytes, reply) {
        Ok(Handled::Dropped) => Ok(false),
        Ok(Handled::Reply) => match link.send(from, reply.as_slice()) {
            Ok(()) => Ok(true),
            Err(Failed) => Err(ServeFault::Link),
        },
        Ok(Handled::ReplyThenReset) => {
            match link.send(from, reply.as_slice()) {
                Ok(()) => {}
                Err(Failed) => return Err(ServeFault::Link),
            }
            match device.restart(flash) {
                Ok(()) => Ok(true),
                Err(fault) => Err(start_fault(fault)),
            }
        }
        Err(down) => Err(down_fault(down)),
    }
}

/// Hears once, and has the device answer what is heard.
fn turn<F: Flash, L: Link>(
    device: &mut Device,
    flash: &mut F,
    link: &mut L,
    into: &mut [u8],
    reply: &mut PacketBuffer,
) -> Result<Served, ServeFault>
    requires room { length into.old ≡ 2049 }
    requires up { IsSome device.old.up }
    requires sizes { geometry_of device.old.places.first ≡ (F.state flash.old).geometry }
    requires says { IfSome (F.state flash.old).bytes (DeviceSays device.old) }
    ensures turns { TurnEnds result (point device.old (F.state flash.old)) (point device.new (F.state flash.new)) (link_state (L.script link.old) (L.sent link.old)) (link_state (L.script link.new) (L.sent link.new)) }
    ensures up { OnOk result (IsSome device.new.up) }
    ensures places { device.new.places ≡ device.old.places }
    ensures sizes { (F.state flash.new).geometry ≡ (F.state flash.old).geometry }
    ensures says { IfSome (F.state flash.new).bytes (DeviceSays device.new) }
    ensures names { L.names link.new ≡ L.names link.old }
    ensures cause { LinkCaused result (L.faults link.old) (L.faults link.new) }
{
    match link.hear(into) {
        Ok(Heard::Packet { from, length }) => {
            match answer(device, flash, link, from, &into[..length], reply) {
                Ok(true) => Ok(Served {
                    answered: 1,
                    dropped: 0,
                }),
                Ok(false) => Ok(Served {
                    answered: 0,
                    dropped: 1,
                }),
                Err(fault) => Err(fault),
            }
        }
        Ok(Heard::Quiet) => Ok(Served {
            answered: 0,
            dropped: 0,
        }),
        Err(Failed) => Err(ServeFault::Link),
    }
}

/// Does so many turns.
fn serve_turns<F: Flash, L: Link>(
    device: &mut Device,
    flash: &mut F,
    link: &mut L,
    turns: u32,
    into: &mut [u8],
    reply: &mut PacketBuffer,
) -> Result<Served, ServeFault>
    requires room { length into.old ≡ 2049 }
    requires up { IsSome device.old.up }
    requires sizes { geometry_of device.old.places.first ≡ (F.state flash.old).geometry }
    requires says { IfSome (F.state flash.old).bytes (DeviceSays device.old) }
    ensures serves { LinkEnds turns result (point device.old (F.state flash.old)) (point device.new (F.state flash.new)) (link_state (L.script link.old) (L.sent link.old)) (link_state (L.script link.new) (L.sent link.new)) }
    ensures up { OnOk result (IsSome device.new.up) }
    ensures places { device.new.places ≡ device.old.places }
    ensures sizes { (F.state flash.new).geometry ≡ (F.state flash.old).geometry }
    ensures says { IfSome (F.state flash.new).bytes (DeviceSays device.new) }
    ensures names { L.names link.new ≡ L.names link.old }
    ensures cause { LinkCaused result (L.faults link.old) (L.faults link.new) }
{
    let mut answered = 0;
    let mut dropped = 0;
    'turns: for _done in 0..turns {
        match turn(device, flash, link, into, reply) {
            Ok(served) => {
                answered += served.answered;
                dropped += served.dropped;
            }
            Err(fault) => return Err(fault),
        }
    }
    Ok(Served { answered, dropped })
}

/// Serves a device over a link for so many turns, in each of which one datagram is heard, or a quiet wait.
///
/// Each datagram is given to the device; one of more than 2,048 bytes is no packet, and is dropped. The reply goes to the peer that
/// asked. After the reply to a reset the device is started again. The device is up when the session begins.
///
/// On `Ok` so many items were heard, and what was counted is told. `Link` comes where the link failed, in a hearing or a sending;
/// `FlashOff` where the flash went off; `FlashFault`, `Unformatted` and `Worn` where a start after a reset did not go through. What
/// was sent before is then what it would have been. `Read`, `Write` and `Spent` never come.
pub fn serve_link<F: Flash, L: Link>(
    device: &mut Device,
    flash: &mut F,
    link: &mut L,
    turns: u32,
) -> Result<Served, ServeFault>
    requires up { IsSome device.old.up }
    requires sizes { geometry_of device.old.places.first ≡ (F.state flash.old).geometry }
    requires says { IfSome (F.state flash.old).bytes (DeviceSays device.old) }
    ensures serves { LinkEndsOf turns result (point device.old (F.state flash.old)) (point device.new (F.state flash.new)) (link_state (L.script link.old) (L.sent link.old)) (link_state (L.script link.new) (L.sent link.new)) }
    ensures flash { FlashCaused result (F.state flash.old) (F.state flash.new) }
    ensures pending { PendingStays (point device.old (F.state flash.old)) (point device.new (F.state flash.new)) }
    ensures up { OnOk result (IsSome device.new.up) }
    ensures places { device.new.places ≡ device.old.places }
    ensures sizes { (F.state flash.new).geometry ≡ (F.state flash.old).geometry }
    ensures says { IfSome (F.state flash.new).bytes (DeviceSays device.new) }
    ensures names { L.names link.new ≡ L.names link.old }
    ensures cause { LinkCaused result (L.faults link.old) (L.faults link.new) }
{
    let mut into = [0u8; 2049];
    let mut reply = ArrayVec::new();
    serve_turns(device, flash, link, turns, &mut into, &mut reply)
}
