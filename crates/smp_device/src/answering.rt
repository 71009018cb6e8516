//! Packets are answered.

ghost use Rattle.std.specs.Prelude.{◌≡◌, ◌+◌, ◌≤◌, [], true, length, Ok, IfOk, IfSome};
ghost use Rattle.smp_groups.specs.Counters.{counters_of};
ghost use Rattle.smp_header.specs.Message.{message_of};
ghost use Rattle.smp_model.specs.Counters.{after_reply};
ghost use Rattle.smp_model.specs.Handled.{is_request, is_reset};
ghost use Rattle.smp_model.specs.FlashUse.{uses_saved};
ghost use Rattle.smp_model.specs.Meaning.{meaning};
ghost use Rattle.smp_model.specs.Meant.{meant_of};
ghost use Rattle.smp_model.specs.Said.{is_error, reply_bytes, said_of};
ghost use Rattle.smp_reply.specs.Room.{EchoFits};
ghost use Rattle.smp_device.specs.Handling.{AnswersMeaning, AnswersRequest, Finishes, failed_said, handled_by, left_by, operation_number, worn_said};
ghost use Rattle.smp_device.specs.Serving.{changes};
ghost use Rattle.smp_device.specs.Telling.{Fitting, Tells, tells};
ghost use Rattle.smp_device.specs.Up.{IsFor, UpSays, up_of};

use crate::images::{Images, Replied};
use crate::serving::serve;
use crate::telling::{file_hash, file_length, read_file, read_setting};
use smp_files::FileTable;
use smp_flash::{Flash, Operation};
use smp_groups::Counts;
use smp_header::{HEADER, LARGEST_PACKET, Packet, PacketBuffer};
use smp_model::error::{
    ERASE_FAILED, IMAGE_GROUP, READ_FAILED, RECORD_WORN, SETTINGS_GROUP, SETTINGS_WORN,
    WRITE_FAILED,
};
use smp_model::{Reply, Request, counters_are_answered};
use smp_reply::{fits_within, write_reply};
use smp_request::request_of;
use smp_settings::Settings;
use smp_upload::UploadFault;

/// What came of a packet.
#[derive(Clone, Copy, Debug, PartialEq, Eq)]
pub enum Handled {
    /// It was answered.
    Reply,

    /// A reset was answered, and the device is down: it is to be started again.
    ReplyThenReset,

    /// It is no packet, or no request: nothing is answered.
    Dropped,
}

/// Why the device went down without a reply.
#[derive(Clone, Copy, Debug, PartialEq, Eq)]
pub enum Down {
    /// The flash is off.
    Off,

    /// The flash is not what it was: another hand wrote it.
    Unformatted,
}

/// What answering leaves: the images where the device is still up, and what came of the packet.
#[derive(Drop)]
pub struct Finished {
    pub images: Option<Images>,
    pub result: Result<Handled, Down>,
}

/// Whether a reply is an error, which is counted.
fn is_error(reply: &Reply<'_>) -> bool
    ensures { result ≡ is_error (said_of reply.now) }
{
    matches!(reply, Reply::SmpError(_) | Reply::GroupError { .. })
}

/// Writes a reply, and counts it.
fn send(counts: &mut Counts, out: &mut PacketBuffer, packet: &Packet<'_>, reply: &Reply<'_>)
    requires empty { out.old.items ≡ [] }
    requires request { is_request (message_of packet.now) ≡ true }
    requires version { packet.now.version ≤ 3 }
    requires fits { Fitting (said_of reply.now) }
    ensures written { out.new.items ≡ reply_bytes (message_of packet.now) (said_of reply.now) }
    ensures counted { counters_of counts.new ≡ after_reply (is_error (said_of reply.now)) (counters_of counts.old) }
{
    fits_within(reply);
    write_reply(out, packet, reply);
    counts.reply(is_error(reply));
}

/// The request resets the device.
fn is_reset(request: &Request<'_>) -> bool
    ensures { result ≡ is_reset (Ok (meant_of request.now)) }
{
    matches!(request, Request::Reset)
}

/// The request is one about the saved settings.
fn uses_saved(request: &Request<'_>) -> bool
    ensures { result ≡ uses_saved (meant_of request.now) }
{
    matches!(request, Request::Load | Request::Save)
}

/// The number of an operation that failed.
fn operation_number(operation: Operation) -> u32
    ensures { result ≡ operation_number operation }
{
    match operation {
        Operation::Read => READ_FAILED,
        Operation::Write => WRITE_FAILED,
        Operation::Erase => ERASE_FAILED,
    }
}

/// The error of a request in which an operation of the flash failed.
fn failed(request: &Request<'_>, operation: Operation) -> Reply<'static>
    ensures reply { said_of result ≡ failed_said (meant_of request.now) operation }
    ensures fits { Fitting (said_of result) }
{
    let group = if uses_saved(request) {
        SETTINGS_GROUP
    } else {
        IMAGE_GROUP
    };
    Reply::GroupError {
        group,
        number: operation_number(operation),
    }
}

/// The error of a request that a worn bank can't take.
fn worn(request: &Request<'_>) -> Reply<'static>
    ensures reply { said_of result ≡ worn_said (meant_of request.now) }
    ensures fits { Fitting (said_of result) }
{
    if uses_saved(request) {
        return Reply::GroupError {
            group: SETTINGS_GROUP,
            number: SETTINGS_WORN,
        };
    }
    Reply::GroupError {
        group: IMAGE_GROUP,
        number: RECORD_WORN,
    }
}

/// Sends what came of a request.
fn finish(
    replied: Replied,
    counts: &mut Counts,
    out: &mut PacketBuffer,
    packet: &Packet<'_>,
    request: &Request<'_>,
) -> Finished
    requires empty { out.old.items ≡ [] }
    requires request { is_request (message_of packet.now) ≡ true }
    requires version { packet.now.version ≤ 3 }
    requires changes { changes (meant_of request.now) ≡ true }
    requires fits { IfOk replied.result (λ reply. Fitting (said_of reply)) }
    ensures { Finishes (message_of packet.now) (meant_of request.now) (counters_of counts.old) (counters_of counts.new) replied.images replied.result out.new.items result.images result.result }
{
    let Replied { images, result } = replied;
    let reply = match result {
        Ok(reply) => reply,
        Err(UploadFault::Fault(operation)) => failed(request, operation),
        Err(UploadFault::Worn) => worn(request),
        Err(UploadFault::Off) => {
            return Finished {
                images: None,
                result: Err(Down::Off),
            };
        }
        Err(UploadFault::Unformatted) => {
            return Finished {
                images: None,
                result: Err(Down::Unformatted),
            };
        }
    };
    send(counts, out, packet, &reply);
    Finished {
        images: Some(images),
        result: Ok(Handled::Reply),
    }
}

/// Answers a request that changes nothing: false exactly for one that may change something. An echo has room in a packet.
fn tell(
    settings: &Settings,
    files: &FileTable,
    counts: &mut Counts,
    out: &mut PacketBuffer,
    packet: &Packet<'_>,
    request: &Request<'_>,
) -> bool
    requires empty { out.old.items ≡ [] }
    requires request { is_request (message_of packet.now) ≡ true }
    requires version { packet.now.version ≤ 3 }
    requires room { EchoFits (meant_of request.now) }
    ensures { Tells result (tells settings.now.running files.now (counters_of counts.old) (meant_of request.now)) (message_of packet.now) (counters_of counts.old) (counters_of counts.new) out.old.items out.new.items }
{
    match request {
        Request::SettingRead { name, max_size } => {
            let reply = read_setting(settings, name, *max_size);
            send(counts, out, packet, &reply);
        }
        Request::FileRead { name, off } => {
            let reply = read_file(files, name, *off);
            send(counts, out, packet, &reply);
        }
        Request::FileStatus { name } => {
            let reply = file_length(files, name);
            send(counts, out, packet, &reply);
        }
        Request::FileHash {
            name,
            kind,
            off,
            len,
        } => {
            let reply = file_hash(files, name, *kind, *off, *len);
            send(counts, out, packet, &reply);
        }
        Request::FileTypes => send(counts, out, packet, &Reply::FileTypes),
        Request::Commit => send(counts, out, packet, &Reply::Empty),
        Request::FileClose => send(counts, out, packet, &Reply::Empty),
        _ => match counts.answer(request) {
            Some(reply) => send(counts, out, packet, &reply),
            None => return false,
        },
    }
    true
}

/// After a reply from memory: the device is down where it was to a reset.
fn told(images: Images, resets: bool) -> Finished
    ensures images { result.images ≡ left_by resets images }
    ensures result { result.result ≡ Ok (handled_by resets) }
{
    if resets {
        return Finished {
            images: None,
            result: Ok(Handled::ReplyThenReset),
        };
    }
    Finished {
        images: Some(images),
        result: Ok(Handled::Reply),
    }
}

/// Answers a request.
fn answer_request<F: Flash>(
    images: Images,
    settings: &mut Settings,
    files: &mut FileTable,
    counts: &mut Counts,
    flash: &mut F,
    packet: &Packet<'_>,
    request: &Request<'_>,
    out: &mut PacketBuffer,
) -> Finished
    requires regions { IsFor (F.state flash.old).geometry images settings.old }
    requires says { IfSome (F.state flash.old).bytes (UpSays images settings.old) }
    requires empty { out.old.items ≡ [] }
    requires request { is_request (message_of packet.now) ≡ true }
    requires version { packet.now.version ≤ 3 }
    requires room { EchoFits (meant_of request.now) }
    ensures { AnswersRequest (F.state flash.old).geometry (message_of packet.now) (meant_of request.now) (up_of images settings.old files.old (counters_of counts.old)) settings.new files.new (counters_of counts.new) out.new.items result.images result.result (F.state flash.old) (F.state flash.new) }
{
    counters_are_answered();
    if tell(settings, files, counts, out, packet, request) {
        return told(images, is_reset(request));
    }
    let replied = serve(images, settings, files, flash, request);
    finish(replied, counts, out, packet, request)
}

/// Answers a packet that is a request.
pub fn answer_packet<F: Flash>(
    images: Images,
    settings: &mut Settings,
    files: &mut FileTable,
    counts: &mut Counts,
    flash: &mut F,
    packet: &Packet<'_>,
    out: &mut PacketBuffer,
) -> Finished
    requires regions { IsFor (F.state flash.old).geometry images settings.old }
    requires says { IfSome (F.state flash.old).bytes (UpSays images settings.old) }
    requires empty { out.old.items ≡ [] }
    requires request { is_request (message_of packet.now) ≡ true }
    requires version { packet.now.version ≤ 3 }
    requires fits { length packet.now.bytes.now + HEADER ≤ LARGEST_PACKET }
    ensures { AnswersMeaning (F.state flash.old).geometry (message_of packet.now) (meaning (message_of packet.now)) (up_of images settings.old files.old (counters_of counts.old)) settings.new files.new (counters_of counts.new) out.new.items result.images result.result (F.state flash.old) (F.state flash.new) }
{
    match request_of(packet) {
        Ok(request) => {
            answer_request(
                images, settings, files, counts, flash, packet, &request, out,
            )
        }
        Err(number) => {
            send(counts, out, packet, &Reply::SmpError(number));
            told(images, false)
        }
    }
}
