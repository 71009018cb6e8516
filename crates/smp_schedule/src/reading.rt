// The events of lines.
ghost use Rattle.std.specs.Prelude.{◌≡◌, ◌+◌, ◌<◌, length, Some, IfOk, MatchOption, option_map};
ghost use Rattle.std.specs.Option.{option_and_then};
ghost use Rattle.smp_schedule.specs.declared.event.Event.TheVariants as events;
ghost use Rattle.smp_schedule.specs.Fields.{fields_of, only};
ghost use Rattle.smp_schedule.specs.Words.{hex_in, number_in, word_in, kind_in, region_in};
ghost use Rattle.smp_schedule.specs.Jobs.{job_in};
ghost use Rattle.smp_schedule.specs.Events.{which_in, which_of, client_of, client_with, left_of, arm_with, arm_of, boot_of, event_by, event_in, flash_of, flash_in, geometry, flash_one, flash_two, flash_with};

use crate::event::{Event, Which};
use crate::fields::Fields;
use crate::flash_line::FlashLine;
use crate::job_reading::read_job;
use crate::words::{
    read_hex, read_kind, read_left, read_number, read_region, read_small, read_word,
};
use smp_edge::Octets;
use smp_flash::{Arm, ArmKind, Geometry, Left};
use std::alloc::{AllocError, Global};

/// The most clients of a schedule.
const MOST_CLIENTS: u8 = 8;

fn which(bytes: &[u8]) -> Option<Which>
    ensures { result ≡ which_in bytes.now }
{
    if bytes == b"new".as_slice() {
        return Some(Which::New);
    }
    match read_number(1, u32::MAX, bytes) {
        Some(number) => Some(Which::Number(number)),
        None => None,
    }
}

fn read_which(fields: &mut Fields<'_>) -> Option<Which>
    ensures { result ≡ which_of fields.old }
{
    match fields.only() {
        Some(field) => which(field),
        None => None,
    }
}

fn read_up(fields: &mut Fields<'_>) -> Option<Event>
    ensures { result ≡ option_map events.Up (which_of fields.old) }
{
    match read_which(fields) {
        Some(which) => Some(Event::Up(which)),
        None => None,
    }
}

fn read_down(fields: &mut Fields<'_>) -> Option<Event>
    ensures { result ≡ option_map events.Down (which_of fields.old) }
{
    match read_which(fields) {
        Some(which) => Some(Event::Down(which)),
        None => None,
    }
}

fn read_raw(alloc: Global, fields: &mut Fields<'_>) -> Result<Option<Event>, AllocError>
    ensures { IfOk result (λ event. event ≡ option_map events.Raw (option_and_then (hex_in 1 4096) (only fields.old))) }
{
    let Some(digits) = fields.only() else {
        return Ok(None);
    };
    match read_hex(alloc, 1, 4096, digits)? {
        Some(bytes) => Ok(Some(Event::Raw(bytes))),
        None => Ok(None),
    }
}

fn read_quiet(clients: u8, fields: &mut Fields<'_>) -> Option<Event>
    ensures { result ≡ option_map events.Quiet (option_and_then (number_in 1 clients) (only fields.old)) }
{
    let field = fields.only()?;
    match read_small(1, clients, field) {
        Some(number) => Some(Event::Quiet(number)),
        None => None,
    }
}

fn read_left_of(kind: ArmKind, fields: &mut Fields<'_>) -> Option<Left>
    ensures { result ≡ left_of kind fields.old }
{
    if kind == ArmKind::Read {
        return match fields.next() {
            Some(_) => None,
            None => Some(Left::Nothing),
        };
    }
    match fields.only() {
        Some(field) => read_left(field),
        None => None,
    }
}

fn arm_by(kind: &[u8], region: &[u8], after: &[u8], fields: &mut Fields<'_>) -> Option<Arm>
    ensures { result ≡ arm_with (kind_in kind.now) (region_in region.now) (number_in 1 1000000 after.now) fields.old }
{
    let kind = read_kind(kind)?;
    let region = read_region(region)?;
    let after = read_number(1, 1_000_000, after)?;
    match read_left_of(kind, fields) {
        Some(left) => Some(Arm {
            kind,
            region,
            after,
            left,
        }),
        None => None,
    }
}

fn read_arm(fields: &mut Fields<'_>) -> Option<Arm>
    ensures { result ≡ arm_of fields.old }
{
    let kind = fields.next()?;
    let region = fields.next()?;
    let after = fields.next()?;
    arm_by(kind, region, after, fields)
}

fn read_armed(fields: &mut Fields<'_>) -> Option<Event>
    ensures { result ≡ option_map events.Armed (arm_of fields.old) }
{
    match read_arm(fields) {
        Some(arm) => Some(Event::Armed(arm)),
        None => None,
    }
}

fn read_boot(fields: &mut Fields<'_>) -> Option<Event>
    ensures { result ≡ boot_of fields.old }
{
    match fields.next() {
        Some(_) => None,
        None => Some(Event::Boot),
    }
}

/// The most words of a job: `set`, and 254 names and values.
const MOST_WORDS: usize = 509;

/// Copies of the fields that are left, where they are no more than a job can have.
fn collect(alloc: Global, fields: &mut Fields<'_>) -> Result<Option<Vec<Octets>>, AllocError>
    ensures { IfOk result (λ words. MatchOption words (509 < length fields.old) (λ words. words.items ≡ fields.old)) }
{
    let mut words = Vec::new(alloc);
    'fields: while let Some(field) = fields.next() {
        if words.len() == MOST_WORDS {
            return Ok(None);
        }
        words.push(Octets::from_slice(alloc, field)?)?;
    }
    Ok(Some(words))
}

fn client_job(
    alloc: Global,
    clients: u8,
    number: &[u8],
    words: &[Octets],
) -> Result<Option<Event>, AllocError>
    requires { clients < 8 }
    ensures { IfOk result (λ event. event ≡ client_with (number_in (clients + 1) (clients + 1) number.now) (job_in words.now)) }
{
    let Some(number) = read_small(clients + 1, clients + 1, number) else {
        return Ok(None);
    };
    match read_job(alloc, words)? {
        Some(job) => Ok(Some(Event::Client { number, job })),
        None => Ok(None),
    }
}

fn read_client(
    alloc: Global,
    clients: u8,
    fields: &mut Fields<'_>,
) -> Result<Option<Event>, AllocError>
    ensures { IfOk result (λ event. event ≡ client_of clients fields.old) }
{
    let Some(number) = fields.next() else {
        return Ok(None);
    };
    if clients >= MOST_CLIENTS {
        return Ok(None);
    }
    match collect(alloc, fields)? {
        Some(words) => client_job(alloc, clients, number, words.as_slice()),
        None => Ok(None),
    }
}

/// The event of a line by its first word.
fn event_of(
    alloc: Global,
    clients: u8,
    word: &[u8],
    fields: &mut Fields<'_>,
) -> Result<Option<Event>, AllocError>
    ensures { IfOk result (λ event. event ≡ event_by clients word.now fields.old) }
{
    if word == b"up".as_slice() {
        return Ok(read_up(fields));
    }
    if word == b"down".as_slice() {
        return Ok(read_down(fields));
    }
    if word == b"raw".as_slice() {
        return read_raw(alloc, fields);
    }
    if word == b"quiet".as_slice() {
        return Ok(read_quiet(clients, fields));
    }
    if word == b"arm".as_slice() {
        return Ok(read_armed(fields));
    }
    if word == b"boot".as_slice() {
        return Ok(read_boot(fields));
    }
    if word == b"client".as_slice() {
        return read_client(alloc, clients, fields);
    }
    Ok(None)
}

/// The event of a line, after so many clients.
pub fn read_event(alloc: Global, clients: u8, line: &[u8]) -> Result<Option<Event>, AllocError>
    ensures { IfOk result (λ event. event ≡ event_in clients (fields_of line.now)) }
{
    let mut fields = Fields::of(line);
    let Some(word) = fields.next() else {
        return Ok(None);
    };
    event_of(alloc, clients, word, &mut fields)
}

fn one_image(
    alloc: Global,
    geometry: Geometry,
    image: &[u8],
) -> Result<Option<FlashLine>, AllocError>
    ensures { IfOk result (λ flash. flash ≡ flash_one geometry (word_in image.now)) }
{
    match read_word(alloc, image)? {
        Some(image) if geometry.is_lawful() => Ok(Some(FlashLine {
            geometry,
            image,
            second: None,
        })),
        _ => Ok(None),
    }
}

fn two_images(
    alloc: Global,
    geometry: Geometry,
    image: &[u8],
    second: &[u8],
) -> Result<Option<FlashLine>, AllocError>
    ensures { IfOk result (λ flash. flash ≡ flash_two geometry (word_in image.now) (word_in second.now)) }
{
    let Some(image) = read_word(alloc, image)? else {
        return Ok(None);
    };
    match read_word(alloc, second)? {
        Some(second) if geometry.is_lawful() => Ok(Some(FlashLine {
            geometry,
            image,
            second: Some(second),
        })),
        _ => Ok(None),
    }
}

fn geometry(page: u32, unit: u32, slot_pages: u32, images: u32) -> Geometry
    ensures { result ≡ geometry page unit slot_pages images }
{
    Geometry {
        page,
        unit,
        slot_pages,
        images,
    }
}

/// A flash of these sizes, whose images are named by the fields that are left.
fn read_images(
    alloc: Global,
    page: u32,
    unit: u32,
    pages: u32,
    fields: &mut Fields<'_>,
) -> Result<Option<FlashLine>, AllocError>
    ensures { IfOk result (λ flash. flash ≡ flash_with (Some page) (Some unit) (Some pages) fields.old) }
{
    let Some(image) = fields.next() else {
        return Ok(None);
    };
    let Some(second) = fields.next() else {
        return one_image(alloc, geometry(page, unit, pages, 1), image);
    };
    if fields.next().is_some() {
        return Ok(None);
    }
    two_images(alloc, geometry(page, unit, pages, 2), image, second)
}

fn flash_of(
    alloc: Global,
    page: &[u8],
    unit: &[u8],
    pages: &[u8],
    fields: &mut Fields<'_>,
) -> Result<Option<FlashLine>, AllocError>
    ensures { IfOk result (λ flash. flash ≡ flash_with (number_in 1 4096 page.now) (number_in 1 8 unit.now) (number_in 1 1024 pages.now) fields.old) }
{
    let Some(page) = read_number(1, 4096, page) else {
        return Ok(None);
    };
    let Some(unit) = read_number(1, 8, unit) else {
        return Ok(None);
    };
    let Some(pages) = read_number(1, 1024, pages) else {
        return Ok(None);
    };
    read_images(alloc, page, unit, pages, fields)
}

fn read_sizes(alloc: Global, fields: &mut Fields<'_>) -> Result<Option<FlashLine>, AllocError>
    ensures { IfOk result (λ flash. flash ≡ flash_of fields.old) }
{
    let Some(page) = fields.next() else {
        return Ok(None);
    };
    let Some(unit) = fields.next() else {
        return Ok(None);
    };
    let Some(pages) = fields.next() else {
        return Ok(None);
    };
    flash_of(alloc, page, unit, pages, fields)
}

/// The flash that a line gives.
pub fn read_flash(alloc: Global, line: &[u8]) -> Result<Option<FlashLine>, AllocError>
    ensures { IfOk result (λ flash. flash ≡ flash_in (fields_of line.now)) }
{
    let mut fields = Fields::of(line);
    match fields.next() {
        Some(word) if word == b"flash".as_slice() => read_sizes(alloc, &mut fields),
        _ => Ok(None),
    }
}
