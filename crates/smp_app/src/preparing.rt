// A schedule's world before its first event.
ghost use Rattle.std.specs.Prelude.{◌≡◌, ◌≤◌, length, option_map, IfOk, IfErr, IfSome, OnOk};
ghost use Rattle.std.specs.Option.{ForSome};
ghost use Rattle.smp_schedule.specs.Lawful.{IsFlash, IsLawful};
ghost use Rattle.smp_app.specs.Causes.{LoadEnds};
ghost use Rattle.smp_app.specs.Loading.{AreClients, LoadsAll, calls_after, first_of, names_of, names_of_flash};
ghost use Rattle.smp_app.specs.Making.{AreImagesOf, CanFormat, CanMake, Tests, bad_files, misfits_of};
ghost use Rattle.smp_app.specs.Preparing.{Builds, EndsDue, IsPrepared, IsRefusal};
ghost use Rattle.smp_app.specs.Replays.{due_of_schedule};

use crate::Status;
use crate::clients::make_jobs;
use crate::flash::{default_images, make_flash};
use crate::loading::{Client, Images, load_clients, load_images};
use smp_edge::Files;
use smp_schedule::{FlashLine, Schedule};
use smp_world::World;
use std::alloc::Global;

/// Loads the images of the flash line, or makes those that are chosen where there is none.
#[tactic(auto, using(crate::proofs::Prepared::can_format_line, crate::proofs::Prepared::can_format_default))]
fn load_flash<D: Files>(
    alloc: Global,
    line: Option<&FlashLine>,
    files: &mut D,
) -> Result<Images, Status>
    requires { ForSome (option_map (λ l. l.now) line) IsFlash }
    ensures loads { LoadsAll (D.folder files.old) (names_of_flash (option_map (λ l. l.now) line.entry)) result }
    ensures held { IfOk result (AreImagesOf (D.folder files.old) (option_map (λ l. l.now) line.entry)) }
    ensures can { IfOk result CanFormat }
    ensures same { D.folder files.new ≡ D.folder files.old }
    ensures calls { OnOk result (D.answered files.new ≡ calls_after (length (names_of_flash (option_map (λ l. l.now) line.entry))) (D.answered files.old)) }
    ensures cause { LoadEnds result (D.faults files.old) (D.faults files.new) }
{
    match line {
        Some(line) => load_images(alloc, line, files),
        None => match default_images(alloc) {
            Ok(images) => Ok(images),
            Err(_) => Err(Status::NoMemory),
        },
    }
}

/// What a schedule names, loaded.
#[derive(Drop)]
struct Loaded<'a> {
    images: Images,
    clients: Vec<Client<'a>>,
}

/// Loads all that a schedule names, in the order of its lines.
#[tactic(auto, using(crate::proofs::Loads::goes_on, crate::proofs::Loads::breaks_off, crate::proofs::Loads::calls_more, crate::proofs::Prepared::can_make))]
fn load_all<'a, D: Files>(
    alloc: Global,
    schedule: &'a Schedule,
    files: &mut D,
) -> Result<Loaded<'a>, Status>
    requires { IsLawful schedule.now }
    ensures loads { LoadsAll (D.folder files.old) (names_of schedule.now) result }
    ensures images { IfOk result (λ loaded. AreImagesOf (D.folder files.old) schedule.now.flash loaded.images) }
    ensures clients { IfOk result (λ loaded. AreClients (D.folder files.old) schedule.now.events loaded.clients.items) }
    ensures can { IfOk result (λ loaded. CanFormat loaded.images × CanMake loaded.clients.items) }
    ensures same { D.folder files.new ≡ D.folder files.old }
    ensures calls { OnOk result (D.answered files.new ≡ calls_after (length (names_of schedule.now)) (D.answered files.old)) }
    ensures cause { LoadEnds result (D.faults files.old) (D.faults files.new) }
{
    let images = match load_flash(alloc, schedule.flash(), files) {
        Ok(images) => images,
        Err(status) => return Err(status),
    };
    match load_clients(alloc, schedule.events(), files) {
        Ok(clients) => Ok(Loaded { images, clients }),
        Err(status) => Err(status),
    }
}

/// The world of what was loaded. The images of the flash are tested first, and then those of uploads.
#[tactic(auto, using(crate::proofs::Prepared::first_tested, crate::proofs::Prepared::later_tested, crate::proofs::Prepared::all_tested, crate::proofs::Prepared::is_built))]
fn build(alloc: Global, images: &Images, clients: Vec<Client<'_>>) -> Result<World, Status>
    requires images { CanFormat images.now }
    requires clients { CanMake clients.items }
    ensures ok { IfOk result (Builds images.now clients.entry.items) }
    ensures tests { Tests (first_of (misfits_of images.now) (bad_files clients.entry.items)) result }
{
    let flash = match make_flash(alloc, images) {
        Ok(flash) => flash,
        Err(status) => return Err(status),
    };
    let jobs = match make_jobs(alloc, clients) {
        Ok(jobs) => jobs,
        Err(status) => return Err(status),
    };
    match World::new(alloc, flash, jobs) {
        Ok(world) => Ok(world),
        Err(_) => Err(Status::NoMemory),
    }
}

/// The world of a schedule before its first event. All files are loaded before any is tested.
#[tactic(auto, using(crate::proofs::Prepared::due_of_loads, crate::proofs::Prepared::due_of_tests, crate::proofs::Prepared::prepared, crate::proofs::Prepared::loads_refused, crate::proofs::Prepared::tests_refused, crate::proofs::Prepared::tests_quiet))]
pub fn prepare<D: Files>(alloc: Global, schedule: &Schedule, files: &mut D) -> Result<World, Status>
    requires { IsLawful schedule.now }
    ensures due { IfSome (D.folder files.old) (λ file. EndsDue (due_of_schedule file schedule.now) result) }
    ensures ok { IfOk result (IsPrepared (D.folder files.old) schedule.now) }
    ensures refused { IfErr result IsRefusal }
    ensures same { D.folder files.new ≡ D.folder files.old }
    ensures calls { OnOk result (D.answered files.new ≡ calls_after (length (names_of schedule.now)) (D.answered files.old)) }
    ensures cause { LoadEnds result (D.faults files.old) (D.faults files.new) }
{
    let loaded = match load_all(alloc, schedule, files) {
        Ok(loaded) => loaded,
        Err(status) => return Err(status),
    };
    let Loaded { images, clients } = loaded;
    build(alloc, &images, clients)
}
