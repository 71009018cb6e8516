// The lines of a file of conversations.

use smp_model::Sizes;
use std::str;

/// What a line asks for.
#[derive(Clone, Copy, Debug)]
pub(crate) enum Line<'a> {
    /// An empty line, or a remark behind `#`.
    Skipped,
    /// A device as it is formatted on a flash of these sizes, with one image or two.
    Device(Sizes, bool),
    /// What slot 0 of an image holds, in hex.
    Active(u32, &'a [u8]),
    /// A packet, in hex.
    Packet(&'a [u8]),
    /// A start.
    Boot,
}

fn number(word: &[u8]) -> Option<u32> {
    str::from_utf8(word).ok()?.parse::<u32>().ok()
}

/// The text before the first space, and the text behind it.
fn parted(text: &[u8]) -> Option<(&[u8], &[u8])> {
    let at = text.iter().position(|byte| *byte == b' ')?;
    let (front, rest) = text.split_at(at);
    Some((front, rest.get(1..)?))
}

/// The device of `PAGE UNIT PAGES IMAGES`.
fn device(words: &[u8]) -> Option<Line<'_>> {
    let (page, words) = parted(words)?;
    let (unit, words) = parted(words)?;
    let (pages, images) = parted(words)?;
    let sizes = Sizes {
        unit: number(unit)?,
        page: number(page)?,
        slot: number(page)?.checked_mul(number(pages)?)?,
    };
    match number(images)? {
        1 if sizes.unit > 0 => Some(Line::Device(sizes, false)),
        2 if sizes.unit > 0 => Some(Line::Device(sizes, true)),
        _ => None,
    }
}

/// What a line asks for, where it is one of these.
pub(crate) fn read_line(text: &[u8]) -> Option<Line<'_>> {
    if text.is_empty() || text.first() == Some(&b'#') {
        return Some(Line::Skipped);
    }
    if text == b"boot".as_slice() {
        return Some(Line::Boot);
    }
    if let Some(digits) = text.strip_prefix(b"raw ") {
        return Some(Line::Packet(digits));
    }
    if let Some(words) = text.strip_prefix(b"active ") {
        let (image, digits) = parted(words)?;
        return Some(Line::Active(number(image)?, digits));
    }
    device(text.strip_prefix(b"device ")?)
}
