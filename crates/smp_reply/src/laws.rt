//! What is written is read again.

ghost use Rattle.std.specs.Prelude.{◌≡◌, ◌^◌, ◌<◌, ◌≤◌, ◌⊎◌, ℕ, Option, Some, length, min};
ghost use Rattle.std.specs.List.{All};
ghost use Rattle.smp_header.specs.Message.{Message, packet, message_of};
ghost use Rattle.smp_model.specs.declared.device.AbstractDevice.{AbstractDevice as Device};
ghost use Rattle.smp_model.specs.declared.device.Sizes.{Sizes as FlashSizes};
ghost use Rattle.smp_model.specs.Does.{does};
ghost use Rattle.smp_model.specs.Meant.{Meant};
ghost use Rattle.smp_model.specs.Said.{listed, said_of, slots_of, reply_message, reply_bytes};
ghost use Rattle.smp_reply.specs.Held.{CanSay, CanSayEach, CanSayEntry, CanSayNumber};
ghost use Rattle.smp_reply.specs.Laws.{RepliesAreTold};
ghost use Rattle.smp_reply.specs.Room.{room_of, EchoFits};
ghost use Rattle.smp_reply.specs.Sendable.{IsSendable};
ghost use Rattle.smp_reply.specs.StandsFor.{stands_for};
ghost use Rattle.smp_reply.specs.Told.{told};

use crate::answer::Asked;
use smp_cbor::{heads_are_short, shortest_is_read};
use smp_header::{LARGEST_PACKET, Packet};
use smp_model::memory::{bytes_are_counted, hashes_have_32_bytes, texts_are_utf8};
use smp_model::{Reply, SidePair, SlotEntry, Version, keys_are_texts, plain_maps_are_written};

/// What [`write_reply`](crate::write_reply) writes is a packet, and reading its data gives the answer that the reply
/// stands for, whatever kind of answer is asked for. The call does nothing: it stands for the law.
pub fn reads_back(to: &Packet<'_>, reply: &Reply<'_>, asked: Asked)
    requires operation { (to.now.op ≡ 0) ⊎ (to.now.op ≡ 2) }
    requires version { to.now.version ≤ 3 }
    requires sendable { IsSendable (said_of reply.now) }
    requires fits { length (reply_bytes (message_of to.now) (said_of reply.now)) ≤ LARGEST_PACKET }
    ensures is_packet { packet (reply_bytes (message_of to.now) (said_of reply.now))
        ≡ Some (reply_message (message_of to.now) (said_of reply.now)) }
    ensures answer { told asked (reply_message (message_of to.now) (said_of reply.now)).bytes
        ≡ stands_for (min to.now.version 1) asked (said_of reply.now) }
{
    let _group = to.group;
    held(reply);
    keys_are_texts();
    plain_maps_are_written();
    shortest_is_read();
}

/// The data of any reply that can be sent, in either version, tells the answer that the reply stands for, whatever kind of
/// answer is asked for. The call does nothing: it stands for the law.
pub fn replies_are_told()
    ensures { RepliesAreTold }
{
    keys_are_texts();
    plain_maps_are_written();
    shortest_is_read();
}

/// The packet of a reply has no more bytes than `room_of` says, whatever packet it answers: 11 with the text of an echo
/// and the head of that text, 200 beside the bytes of a setting or of a file, 60 with 260 for each entry of a list of
/// images, and 200 for all else. The call does nothing: it stands for the law, by which a caller sees that a reply fits.
pub fn fits_within(reply: &Reply<'_>)
    ensures { (to : Message)
        → length (reply_bytes to (said_of reply.now)) ≤ room_of (said_of reply.now) }
{
    heads_are_short();
    held(reply);
}

/// What the abstract device answers can be sent: an error of a group is in the table of group errors, and the length of a
/// file stands with its first part alone. The call does nothing: it stands for the law.
pub fn device_replies_are_sendable()
    ensures { (sizes : FlashSizes) (device : Device) (request : Meant)
        → IsSendable (does sizes device request).reply }
{}

/// What the abstract device answers fits a packet, where its running settings have values of at most 128 bytes, and a request
/// that is an echo came in a packet. The call does nothing: it stands for the law.
pub fn device_replies_fit()
    ensures { (sizes : FlashSizes) (device : Device) (request : Meant)
        → All (λ s. length s.val ≤ 128) device.running → EchoFits request
        → room_of (does sizes device request).reply ≤ LARGEST_PACKET }
{}

/// The parts of a reply are as their types say.
fn held(reply: &Reply<'_>)
    ensures { CanSay (said_of reply.now) }
{
    match reply {
        Reply::SmpError(number) => {
            let _number = *number;
        }
        Reply::GroupError { group, number } => {
            let _numbers = (*group, *number);
        }
        Reply::Echo(text) => texts_are_utf8(text),
        Reply::StatGroup {
            handled,
            dropped,
            errors,
        } => {
            let _numbers = (*handled, *dropped, *errors);
        }
        Reply::Images { zero, one } => held_pairs(zero, one),
        Reply::Offset { off, .. } => {
            let _off = *off;
        }
        Reply::Setting(val) => bytes_are_counted(val),
        Reply::FilePart { off, len, bytes } => {
            let _off = *off;
            held_number(*len);
            bytes_are_counted(bytes);
        }
        Reply::FileLength(len) => {
            let _len = *len;
        }
        Reply::FileHash { off, len, output } => {
            let _numbers = (*off, *len);
            hashes_have_32_bytes(output);
        }
        Reply::Empty | Reply::Parameters | Reply::StatList | Reply::FileTypes => {}
    }
}

fn held_number(number: Option<u32>)
    ensures { CanSayNumber number }
{
    if let Some(number) = number {
        let _number = number;
    }
}

fn held_pairs(pair: &SidePair, other: &Option<SidePair>)
    ensures few { length (listed pair.now other.now) ≤ 8 }
    ensures each { CanSayEach (listed pair.now other.now) }
{
    held_pair(pair);
    if let Some(other) = other {
        held_pair(other);
    }
}

fn held_pair(pair: &SidePair)
    ensures { (image : Option ℕ) → CanSayNumber image → CanSayEach (slots_of image pair.now) }
{
    held_entry(&pair.first);
    if let Some(second) = &pair.second {
        held_entry(second);
    }
}

fn held_entry(entry: &SlotEntry)
    ensures { CanSayEntry entry.now }
{
    let _slot = entry.slot;
    let Version {
        major: _major,
        minor: _minor,
        revision: _revision,
        build: _build,
    } = entry.version;
}
