//! The plain program from the bytes of a packet to those of its reply.

ghost use Rattle.std.specs.Prelude.{◌≡◌, ◌<◌, ◌+◌, ◌≤◌, ◌⊎◌, length, IfOk, Ok, Err, Some};
ghost use Rattle.smp_header.specs.Message.{message_of};
ghost use Rattle.smp_model.specs.Does.{does};
ghost use Rattle.smp_model.specs.Handled.{answered, handled, is_reset, restarted};
ghost use Rattle.smp_model.specs.Meant.{meant_of};
ghost use Rattle.smp_model.specs.Response.{after, reply_alone as response_alone};
ghost use Rattle.smp_model.specs.Said.{reply_bytes, said_of, smp_error};
ghost use Rattle.smp_plain.specs.Plain.{IsSound, handled_of};
ghost use Rattle.smp_reply.specs.Room.{EchoFits, room_of};
ghost use Rattle.smp_reply.specs.Sendable.{IsSendable};

use crate::devices::{device_after, dropped, started};
use crate::requests::response_to;
use crate::response::reply_alone;
use arrayvec::ArrayVec;
use smp_header::{HEADER, LARGEST_PACKET, Packet, PacketBuffer, read_packet};
use smp_model::{AbstractDevice, Reply, Request, Sizes};
use smp_reply::{device_replies_are_sendable, device_replies_fit, fits_within, write_reply};
use smp_request::request_of;
use std::alloc::{AllocError, Global};

/// What came of a packet: the packet of the reply, or none where it was dropped, and the device then.
#[derive(Debug, Drop)]
pub struct PlainHandled {
    pub reply: Option<PacketBuffer>,
    pub device: AbstractDevice,
}

/// The packet of a reply.
fn written(to: &Packet<'_>, reply: &Reply<'_>) -> PacketBuffer
    requires operation { (to.now.op ≡ 0) ⊎ (to.now.op ≡ 2) }
    requires version { to.now.version ≤ 3 }
    requires sendable { IsSendable (said_of reply.now) }
    requires room { room_of (said_of reply.now) ≤ LARGEST_PACKET }
    ensures { result.items ≡ reply_bytes (message_of to.now) (said_of reply.now) }
{
    fits_within(reply);
    let mut out = ArrayVec::new();
    write_reply(&mut out, to, reply);
    out
}

/// What comes of a packet that means nothing.
fn refused(
    alloc: Global,
    device: &AbstractDevice,
    packet: &Packet<'_>,
    number: u32,
) -> Result<PlainHandled, AllocError>
    requires operation { (packet.now.op ≡ 0) ⊎ (packet.now.op ≡ 2) }
    requires version { packet.now.version ≤ 3 }
    ensures { IfOk result
        (λ h. handled_of h
        ≡ record {
          reply = Some (reply_bytes (message_of packet.now) (smp_error number));
          device = after (response_alone (smp_error number)) device.now;
        }) }
{
    let response = reply_alone(Reply::SmpError(number));
    let reply = written(packet, &response.reply);
    let device = device_after(alloc, device, &response)?;
    Ok(PlainHandled {
        reply: Some(reply),
        device,
    })
}

fn is_reset(request: &Request<'_>) -> bool
    ensures { result ≡ is_reset (Ok (meant_of request.now)) }
{
    match request {
        Request::Reset => true,
        _ => false,
    }
}

/// The device behind a reply: a reset that was answered starts it anew.
fn restarted(
    alloc: Global,
    device: AbstractDevice,
    request: &Request<'_>,
) -> Result<AbstractDevice, AllocError>
    ensures { IfOk result (λ d. d ≡ restarted (Ok (meant_of request.now)) device) }
{
    if is_reset(request) {
        started(alloc, &device)
    } else {
        Ok(device)
    }
}

/// What comes of a request.
fn served(
    alloc: Global,
    sizes: &Sizes,
    device: &AbstractDevice,
    packet: &Packet<'_>,
    request: &Request<'_>,
) -> Result<PlainHandled, AllocError>
    requires unit { 0 < sizes.now.unit }
    requires sound { IsSound device.now }
    requires operation { (packet.now.op ≡ 0) ⊎ (packet.now.op ≡ 2) }
    requires version { packet.now.version ≤ 3 }
    requires echo { EchoFits (meant_of request.now) }
    ensures { let response = does sizes.now device.now (meant_of request.now) in
        IfOk result
        (λ h. handled_of h
        ≡ record {
          reply = Some (reply_bytes (message_of packet.now) response.reply);
          device = restarted (Ok (meant_of request.now)) (after response device.now);
        }) }
{
    device_replies_are_sendable();
    device_replies_fit();
    let response = response_to(sizes, device, request);
    let reply = written(packet, &response.reply);
    let then = device_after(alloc, device, &response)?;
    let device = restarted(alloc, then, request)?;
    Ok(PlainHandled {
        reply: Some(reply),
        device,
    })
}

/// What comes of a packet that is a request.
#[tactic(auto, using(crate::proofs::Echoes::echo_fits))]
fn answered(
    alloc: Global,
    sizes: &Sizes,
    device: &AbstractDevice,
    packet: &Packet<'_>,
) -> Result<PlainHandled, AllocError>
    requires unit { 0 < sizes.now.unit }
    requires sound { IsSound device.now }
    requires operation { (packet.now.op ≡ 0) ⊎ (packet.now.op ≡ 2) }
    requires version { packet.now.version ≤ 3 }
    requires fits { length packet.now.bytes.now + HEADER ≤ LARGEST_PACKET }
    ensures { IfOk result
        (λ h. handled_of h ≡ answered sizes.now device.now (message_of packet.now)) }
{
    match request_of(packet) {
        Err(number) => refused(alloc, device, packet, number),
        Ok(request) => served(alloc, sizes, device, packet, &request),
    }
}

/// What comes of the bytes of a packet, as `handled` defines it: the packet of the reply, byte by byte, and the device
/// then. It fails only for want of memory.
pub fn handle(
    alloc: Global,
    sizes: &Sizes,
    device: &AbstractDevice,
    bytes: &[u8],
) -> Result<PlainHandled, AllocError>
    requires unit { 0 < sizes.now.unit }
    requires sound { IsSound device.now }
    ensures { IfOk result (λ h. handled_of h ≡ handled sizes.now device.now bytes.now) }
{
    match read_packet(bytes) {
        Some(packet) if packet.op == 0 || packet.op == 2 => {
            answered(alloc, sizes, device, &packet)
        }
        _ => {
            let device = dropped(alloc, device)?;
            Ok(PlainHandled {
                reply: None,
                device,
            })
        }
    }
}
