// The flash that a device runs on.
ghost use Rattle.std.specs.Prelude.{◌≡◌, ◌≤◌, IsTrue, IfOk, length};
ghost use Rattle.smp_device.specs.Formatting.{Formats};
ghost use Rattle.smp_flash.specs.Geometry.{is_lawful};
ghost use Rattle.smp_flash.specs.Memory.{fresh, mem_state, memory_of};
ghost use Rattle.smp_world.specs.Machines.{IsFormatted};
ghost use Rattle.smp_app.specs.Loading.{most_loaded};
ghost use Rattle.smp_app.specs.Making.{AreDefault, CanFormat, Tests, misfits_of};

use crate::Status;
use crate::loading::Images;
use smp_device::{FormatFault, format, format_two};
use smp_flash::{Geometry, MemFlash};
use smp_model::{Version, make_image};
use std::alloc::{AllocError, Global};

/// The sizes of a flash where a schedule gives none.
const DEFAULT_GEOMETRY: Geometry = Geometry {
    page: 512,
    unit: 8,
    slot_pages: 16,
    images: 1,
};

/// The payload of the image that runs where a schedule gives none.
const DEFAULT_PAYLOAD: [u8; 8] = [0, 1, 2, 3, 4, 5, 6, 7];

/// Its version.
const DEFAULT_VERSION: Version = Version {
    major: 1,
    minor: 0,
    revision: 0,
    build: 0,
};

/// A flash that is all FF.
fn erased(alloc: Global, geometry: Geometry) -> Result<MemFlash, AllocError>
    requires { IsTrue (is_lawful geometry) }
    ensures { IfOk result (λ flash. memory_of flash ≡ fresh geometry) }
{
    MemFlash::new(alloc, geometry)
}

/// Formats a flash that is all FF with one image or two.
fn format_with(flash: &mut MemFlash, images: &Images) -> Result<(), FormatFault>
    requires fresh { memory_of flash.old ≡ fresh images.now.geometry }
    requires can { CanFormat images.now }
    ensures { Formats images.now.first images.now.second result (mem_state flash.old) (mem_state flash.new) }
{
    match &images.second {
        None => format(flash, images.first.as_slice()),
        Some(second) => format_two(flash, images.first.as_slice(), second.as_slice()),
    }
}

/// A flash that is formatted with these images.
#[tactic(auto, using(crate::proofs::Flashes::is_formatted, crate::proofs::Flashes::never_fails, crate::proofs::Flashes::never_off))]
pub fn make_flash(alloc: Global, images: &Images) -> Result<MemFlash, Status>
    requires { CanFormat images.now }
    ensures ok { IfOk result (λ flash. IsFormatted images.now.geometry images.now.first images.now.second (memory_of flash)) }
    ensures tests { Tests (misfits_of images.now) result }
{
    let Ok(mut flash) = erased(alloc, images.geometry) else {
        return Err(Status::NoMemory);
    };
    match format_with(&mut flash, images) {
        Ok(()) => Ok(flash),
        Err(FormatFault::BadImage(fault)) => Err(Status::BadImage(fault)),
        Err(FormatFault::Fault(_) | FormatFault::Off) => unreachable!(),
    }
}

/// The sizes and the image where a schedule gives none.
#[tactic(auto, using(crate::proofs::Flashes::default_fits))]
pub fn default_images(alloc: Global) -> Result<Images, AllocError>
    ensures images { IfOk result AreDefault }
    ensures size { IfOk result (λ images. length images.first ≤ most_loaded) }
{
    let first = make_image(alloc, &DEFAULT_PAYLOAD, DEFAULT_VERSION)?;
    Ok(Images {
        geometry: DEFAULT_GEOMETRY,
        first,
        second: None,
    })
}
