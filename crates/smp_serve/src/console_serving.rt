//! A device serves over a console.

ghost use Rattle.std.specs.Prelude.{◌≡◌, ℕ, List, [], length, IsSome, IfOk, IfSome, OnErr, OnOk};
ghost use Rattle.smp_edge.specs.Faults.{HasCause};
ghost use Rattle.smp_flash.specs.Layout.{geometry_of};
ghost use Rattle.smp_console.specs.Receiving.{HasText};
ghost use Rattle.smp_device.specs.Handling.{DeviceSays};
ghost use Rattle.smp_serve.specs.Consoles.{ConsoleEnds, ConsoleEndsOf, IsAtPacket, PieceEnds, ReadCaused, RepliesTo, TakesPiece, WriteCaused};
ghost use Rattle.smp_serve.specs.Sessions.{FlashCaused, PendingStays, point};

use crate::fault::{ServeFault, down_fault, start_fault};
use arrayvec::ArrayVec;
use smp_console::{Receiver, frame_packet};
use smp_device::{Device, Handled};
use smp_edge::{Failed, Sink, Source};
use smp_flash::Flash;
use smp_header::PacketBuffer;

/// Gives a packet to the device, and puts the text of the reply. After the reply to a reset the device is started again.
fn answer<F: Flash, O: Sink>(
    device: &mut Device,
    flash: &mut F,
    packet: &[u8],
    out: &mut O,
    buffer: &mut PacketBuffer,
) -> Result<(), ServeFault>
    requires up { IsSome device.old.up }
    requires sizes { geometry_of device.old.places.first ≡ (F.state flash.old).geometry }
    requires says { IfSome (F.state flash.old).bytes (DeviceSays device.old) }
    ensures replies { RepliesTo packet.now result (point device.old (F.state flash.old)) (point device.new (F.state flash.new)) (O.written out.old) (O.written out.new) }
    ensures up { OnOk result (IsSome device.new.up) }
    ensures places { device.new.places ≡ device.old.places }
    ensures sizes { (F.state flash.new).geometry ≡ (F.state flash.old).geometry }
    ensures says { IfSome (F.state flash.new).bytes (DeviceSays device.new) }
    ensures cause { WriteCaused result (O.faults out.old) (O.faults out.new) }
    ensures stopped { IsAtPacket result }
{
    match device.handle(flash, packet, buffer) {
        Ok(Handled::Dropped) => Ok(()),
        Ok(Handled::Reply) => match frame_packet(out, buffer.as_slice()) {
            Ok(()) => Ok(()),
            Err(Failed) => Err(ServeFault::Write),
        },
        Ok(Handled::ReplyThenReset) => {
            match frame_packet(out, buffer.as_slice()) {
                Ok(()) => {}
                Err(Failed) => return Err(ServeFault::Write),
            }
            match device.restart(flash) {
                Ok(()) => Ok(()),
                Err(fault) => Err(start_fault(fault)),
            }
        }
        Err(down) => Err(down_fault(down)),
    }
}

/// Serves the packets that end in a piece of text.
fn serve_piece<F: Flash, O: Sink>(
    device: &mut Device,
    flash: &mut F,
    receiver: &mut Receiver,
    piece: &[u8],
    out: &mut O,
    buffer: &mut PacketBuffer,
) -> Result<(), ServeFault>
    requires up { IsSome device.old.up }
    requires sizes { geometry_of device.old.places.first ≡ (F.state flash.old).geometry }
    requires says { IfSome (F.state flash.old).bytes (DeviceSays device.old) }
    ensures serves { (text : List ℕ) → HasText receiver.old text → PieceEnds text piece.now result receiver.new (point device.old (F.state flash.old)) (point device.new (F.state flash.new)) (O.written out.old) (O.written out.new) }
    ensures up { OnOk result (IsSome device.new.up) }
    ensures places { device.new.places ≡ device.old.places }
    ensures sizes { (F.state flash.new).geometry ≡ (F.state flash.old).geometry }
    ensures says { IfSome (F.state flash.new).bytes (DeviceSays device.new) }
    ensures cause { WriteCaused result (O.faults out.old) (O.faults out.new) }
    ensures stopped { IsAtPacket result }
{
    let mut rest = piece;
    'packets: loop {
        let fed = receiver.feed(rest);
        if !fed.packet {
            return Ok(());
        }
        let (_, after) = rest.split_at(fed.used);
        match answer(device, flash, receiver.packet(), out, buffer) {
            Ok(()) => {}
            Err(fault) => return Err(fault),
        }
        rest = after;
    }
}

/// Reads the next piece of an input: so many bytes, or none at its end.
fn take_piece<I: Source>(input: &mut I, piece: &mut [u8]) -> Result<Option<usize>, Failed>
    requires room { length piece.old ≡ 512 }
    ensures taken { IfOk result (TakesPiece piece.new (I.left input.old) (I.left input.new)) }
    ensures err { OnErr result (I.left input.new ≡ I.left input.old) }
    ensures cause { HasCause (I.faults input.old) (I.faults input.new) result }
{
    match input.take(piece) {
        Ok(0) => Ok(None),
        Ok(n) => Ok(Some(n)),
        Err(Failed) => Err(Failed),
    }
}

/// Serves the pieces of an input, as many as can be counted.
fn serve_pieces<F: Flash, I: Source, O: Sink>(
    device: &mut Device,
    flash: &mut F,
    input: &mut I,
    out: &mut O,
    receiver: &mut Receiver,
    piece: &mut [u8],
    buffer: &mut PacketBuffer,
) -> Result<(), ServeFault>
    requires room { length piece.old ≡ 512 }
    requires fresh { HasText receiver.old [] }
    requires up { IsSome device.old.up }
    requires sizes { geometry_of device.old.places.first ≡ (F.state flash.old).geometry }
    requires says { IfSome (F.state flash.old).bytes (DeviceSays device.old) }
    ensures serves { ConsoleEnds result (point device.old (F.state flash.old)) (point device.new (F.state flash.new)) (I.left input.old) (I.left input.new) (O.written out.old) (O.written out.new) }
    ensures up { OnOk result (IsSome device.new.up) }
    ensures places { device.new.places ≡ device.old.places }
    ensures sizes { (F.state flash.new).geometry ≡ (F.state flash.old).geometry }
    ensures says { IfSome (F.state flash.new).bytes (DeviceSays device.new) }
    ensures read { ReadCaused result (I.faults input.old) (I.faults input.new) }
    ensures write { WriteCaused result (O.faults out.old) (O.faults out.new) }
{
    'pieces: for _count in 0..u32::MAX {
        match take_piece(input, piece) {
            Ok(None) => return Ok(()),
            Ok(Some(n)) => match serve_piece(device, flash, receiver, &piece[..n], out, buffer) {
                Ok(()) => {}
                Err(fault) => return Err(fault),
            },
            Err(Failed) => return Err(ServeFault::Read),
        }
    }
    match take_piece(input, piece) {
        Ok(None) => Ok(()),
        Ok(Some(_)) => Err(ServeFault::Spent),
        Err(Failed) => Err(ServeFault::Read),
    }
}

/// Serves a device over a console until its input ends.
///
/// The input is read in pieces of up to 512 bytes. Each packet that its lines give is given to the device, and the text of the reply
/// is put, one after the other. After the reply to a reset the device is started again. The device is up when the session begins.
///
/// `Read` and `Write` come where the source or the sink failed; `FlashOff` where the flash went off; `FlashFault`, `Unformatted` and
/// `Worn` where a start after a reset did not go through; `Spent` where 2^32 - 1 pieces were read and a further one came. What was
/// put before is then what it would have been, and of the text of the last reply a front. `Link` never comes.
pub fn serve_console<F: Flash, I: Source, O: Sink>(
    device: &mut Device,
    flash: &mut F,
    input: &mut I,
    out: &mut O,
) -> Result<(), ServeFault>
    requires up { IsSome device.old.up }
    requires sizes { geometry_of device.old.places.first ≡ (F.state flash.old).geometry }
    requires says { IfSome (F.state flash.old).bytes (DeviceSays device.old) }
    ensures serves { ConsoleEndsOf result (point device.old (F.state flash.old)) (point device.new (F.state flash.new)) (I.left input.old) (I.left input.new) (O.written out.old) (O.written out.new) }
    ensures flash { FlashCaused result (F.state flash.old) (F.state flash.new) }
    ensures pending { PendingStays (point device.old (F.state flash.old)) (point device.new (F.state flash.new)) }
    ensures up { OnOk result (IsSome device.new.up) }
    ensures places { device.new.places ≡ device.old.places }
    ensures sizes { (F.state flash.new).geometry ≡ (F.state flash.old).geometry }
    ensures says { IfSome (F.state flash.new).bytes (DeviceSays device.new) }
    ensures read { ReadCaused result (I.faults input.old) (I.faults input.new) }
    ensures write { WriteCaused result (O.faults out.old) (O.faults out.new) }
{
    let mut receiver = Receiver::new();
    let mut piece = [0u8; 512];
    let mut buffer = ArrayVec::new();
    serve_pieces(
        device,
        flash,
        input,
        out,
        &mut receiver,
        &mut piece,
        &mut buffer,
    )
}
