// What comes of the lines.

use crate::lines::{Line, read_line};
use itoa::Buffer;
use memchr::memchr;
use smp_edge::Octets;
use smp_header::read_packet;
use smp_model::{
    AbstractDevice, Counters, Mark, Pairs, Request, Side, Sizes, StoredFiles, Upload, Version,
    make_image,
};
use smp_plain::{PlainHandled, are_storable, handle, is_sound, started, stored_form};
use smp_request::request_of;
use std::alloc::{AllocError, Global};

/// Why there is no transcript.
pub(crate) enum Fault {
    /// The file has no name in UTF-8, or could not be loaded.
    File,
    /// This line, counted from 1, asks for nothing that is known.
    BadLine(u32),
    OutOfMemory,
}

/// A device and the sizes of its flash.
#[derive(Drop)]
struct Conversation {
    sizes: Sizes,
    device: AbstractDevice,
}

/// The slots of an image as they are formatted: slot 0 holds an image of eight bytes, of version 1.0.0.
fn formatted_side(alloc: Global) -> Result<Side, AllocError> {
    let version = Version {
        major: 1,
        minor: 0,
        revision: 0,
        build: 0,
    };
    Ok(Side {
        active: make_image(alloc, &[0, 1, 2, 3, 4, 5, 6, 7], version)?,
        confirmed: false,
        upload: None,
        pending: None,
    })
}

impl Conversation {
    fn new(alloc: Global, sizes: Sizes, two: bool) -> Result<Conversation, AllocError> {
        let second = if two {
            Some(formatted_side(alloc)?)
        } else {
            None
        };
        Ok(Conversation {
            sizes,
            device: AbstractDevice {
                first: formatted_side(alloc)?,
                second,
                saved: Pairs::new(alloc),
                running: Pairs::new(alloc),
                files: StoredFiles::new(alloc),
                counters: Counters::default(),
                target: 0,
            },
        })
    }
}

/// Adds bytes in hex.
fn add_hex(alloc: Global, out: &mut Vec<u8>, bytes: &[u8]) -> Result<(), AllocError> {
    let digits = hex::encode(alloc, bytes)?;
    out.extend_from_slice(digits.as_bytes())?;
    Ok(())
}

fn add_number(out: &mut Vec<u8>, number: u64) -> Result<(), AllocError> {
    let mut buffer = Buffer::new();
    out.extend_from_slice(buffer.format(number).as_bytes())?;
    Ok(())
}

/// Adds an upload as `OFFSET/LENGTH/DIGEST`.
fn add_upload(alloc: Global, out: &mut Vec<u8>, upload: &Upload) -> Result<(), AllocError> {
    add_number(out, upload.accepted.as_slice().len() as u64)?;
    out.push(b'/')?;
    add_number(out, u64::from(upload.announcement.length))?;
    out.push(b'/')?;
    match &upload.announcement.digest {
        Some(digest) => add_hex(alloc, out, digest),
        None => {
            out.push(b'-')?;
            Ok(())
        }
    }
}

fn name_of(mark: Option<Mark>) -> &'static [u8] {
    match mark {
        None => b"none",
        Some(Mark::Test) => b"test",
        Some(Mark::Permanent) => b"permanent",
    }
}

/// Adds what a start finds of the slots of an image.
fn add_side(alloc: Global, out: &mut Vec<u8>, side: &Side) -> Result<(), AllocError> {
    out.extend_from_slice(b" upload ")?;
    match &side.upload {
        Some(upload) => add_upload(alloc, out, upload)?,
        None => out.extend_from_slice(b"none")?,
    }
    out.extend_from_slice(b" pending ")?;
    out.extend_from_slice(name_of(side.pending))?;
    out.extend_from_slice(b" confirmed ")?;
    let confirmed: &[u8] = if side.confirmed { b"yes" } else { b"no" };
    out.extend_from_slice(confirmed)?;
    Ok(())
}

/// Adds the line of a start.
fn add_boot(alloc: Global, out: &mut Vec<u8>, device: &AbstractDevice) -> Result<(), AllocError> {
    out.extend_from_slice(b"boot")?;
    add_side(alloc, out, &device.first)?;
    if let Some(side) = &device.second {
        add_side(alloc, out, side)?;
    }
    out.extend_from_slice(b" saved ")?;
    let saved = device.saved.as_slice();
    if are_storable(saved) {
        add_hex(alloc, out, stored_form(alloc, saved)?.as_slice())?;
    }
    out.push(b'\n')?;
    Ok(())
}

/// The packet is a request to start anew.
fn is_reset(bytes: &[u8]) -> bool {
    match read_packet(bytes) {
        Some(packet) => packet.op == 2 && matches!(request_of(&packet), Ok(Request::Reset)),
        None => false,
    }
}

impl Conversation {
    /// Has the device handle a packet, and adds what comes of it.
    fn add_packet(
        &mut self,
        alloc: Global,
        out: &mut Vec<u8>,
        bytes: &[u8],
    ) -> Result<(), AllocError> {
        if !is_sound(&self.device) || self.sizes.unit == 0 {
            out.extend_from_slice(b"not sound\n")?;
            return Ok(());
        }
        let PlainHandled { reply, device } = handle(alloc, &self.sizes, &self.device, bytes)?;
        self.device = device;
        out.extend_from_slice(b"raw ")?;
        match reply {
            Some(reply) => add_hex(alloc, out, reply.as_slice())?,
            None => out.extend_from_slice(b"dropped")?,
        }
        out.push(b'\n')?;
        if is_reset(bytes) {
            add_boot(alloc, out, &self.device)?;
        }
        Ok(())
    }

    /// Adds what comes of a line.
    fn add_line(
        &mut self,
        alloc: Global,
        out: &mut Vec<u8>,
        text: &[u8],
        number: u32,
    ) -> Result<(), Fault> {
        let Some(line) = read_line(text) else {
            return Err(Fault::BadLine(number));
        };
        let done = match line {
            Line::Skipped => Ok(()),
            Line::Device(sizes, two) => self.begin(alloc, sizes, two),
            Line::Boot => self.boot(alloc, out),
            Line::Active(image, digits) => match hex::decode(alloc, digits) {
                Ok(bytes) => self.hold(image, Octets::from_vec(bytes)),
                Err(_) => return Err(Fault::BadLine(number)),
            },
            Line::Packet(digits) => match hex::decode(alloc, digits) {
                Ok(bytes) => self.add_packet(alloc, out, bytes.as_slice()),
                Err(_) => return Err(Fault::BadLine(number)),
            },
        };
        done.map_err(|_| Fault::OutOfMemory)
    }

    fn begin(&mut self, alloc: Global, sizes: Sizes, two: bool) -> Result<(), AllocError> {
        *self = Conversation::new(alloc, sizes, two)?;
        Ok(())
    }

    /// Has slot 0 of an image hold these bytes.
    fn hold(&mut self, image: u32, bytes: Octets) -> Result<(), AllocError> {
        match (&mut self.device.second, image) {
            (_, 0) => self.device.first.active = bytes,
            (Some(side), 1) => side.active = bytes,
            _ => {}
        }
        Ok(())
    }

    fn boot(&mut self, alloc: Global, out: &mut Vec<u8>) -> Result<(), AllocError> {
        self.device = started(alloc, &self.device)?;
        add_boot(alloc, out, &self.device)
    }
}

/// The text up to the first newline, and the text behind it.
fn next_line(text: &[u8]) -> (&[u8], &[u8]) {
    match memchr(b'\n', text) {
        Some(at) => {
            let (_, after) = text.split_at(at + 1);
            (&text[..at], after)
        }
        None => (text, &[]),
    }
}

/// The transcript of these lines. The device of the first lines has pages of 512 bytes, a unit of 8, slots of 16 pages,
/// and one image.
pub(crate) fn write_transcript(alloc: Global, text: &[u8]) -> Result<Vec<u8>, Fault> {
    let sizes = Sizes {
        unit: 8,
        page: 512,
        slot: 8192,
    };
    let Ok(mut conversation) = Conversation::new(alloc, sizes, false) else {
        return Err(Fault::OutOfMemory);
    };
    let mut out = Vec::new(alloc);
    let mut rest = text;
    for number in 1..1_000_000 {
        if rest.is_empty() {
            break;
        }
        let (line, after) = next_line(rest);
        conversation.add_line(alloc, &mut out, line, number)?;
        rest = after;
    }
    Ok(out)
}
