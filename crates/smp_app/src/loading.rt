// What a schedule names, loaded from files.
ghost use Rattle.std.specs.Prelude.{◌≡◌, ◌∷◌, ◌++◌, [], ℕ, List, true, length, IfOk, OnOk, MatchOption};
ghost use Rattle.std.specs.Option.{ForSome};
ghost use Rattle.smp_edge.specs.Faults.{next_call};
ghost use Rattle.smp_schedule.specs.declared.event.Event.{Event as EventSpec};
ghost use Rattle.smp_schedule.specs.Lawful.{AreEvents, IsEvent, IsFlash, IsJob};
ghost use Rattle.smp_schedule.specs.Words.{is_word};
ghost use Rattle.smp_app.specs.Causes.{LoadEnds};
ghost use Rattle.smp_app.specs.Loading.{AreClients, AreImages, IsFileOf, IsLoaded, IsSecondLoaded, LoadsAll, LoadsSchedule, calls_after, names_in, names_of_event, names_of_job, names_of_line, second_names};
ghost use Rattle.smp_app.specs.declared.loading.Client.{Client as ClientSpec};

use crate::Status;
use smp_edge::{Files, LoadFault, Octets};
use smp_flash::Geometry;
use smp_schedule::{Event, FlashLine, JobWords, Schedule, ScheduleFault, read_schedule};
use std::alloc::Global;
use std::str;

/// The most bytes of a file that is loaded.
const MOST_LOADED: u32 = 8_388_608;

/// A client's job by its words, with the bytes of the file that they name. Where they name none there are no bytes.
#[derive(Drop)]
pub struct Client<'a> {
    pub words: &'a JobWords,
    pub file: Octets,
}

/// The sizes of a flash, and the images of its primary slots.
#[derive(Drop)]
pub struct Images {
    pub geometry: Geometry,
    pub first: Octets,
    pub second: Option<Octets>,
}

/// Loads the file of that name.
fn load<D: Files>(alloc: Global, name: &str, files: &mut D) -> Result<Octets, Status>
    ensures loads { LoadsAll (D.folder files.old) (name.now ∷ []) result }
    ensures held { IfOk result (IsLoaded (D.folder files.old) name.now) }
    ensures same { D.folder files.new ≡ D.folder files.old }
    ensures calls { OnOk result (D.answered files.new ≡ next_call (D.answered files.old)) }
    ensures cause { LoadEnds result (D.faults files.old) (D.faults files.new) }
{
    match files.load(alloc, name, MOST_LOADED) {
        Ok(bytes) => Ok(bytes),
        Err(LoadFault::Failed) => Err(Status::FileFault),
        Err(LoadFault::TooLong) => Err(Status::TooLong),
        Err(LoadFault::OutOfMemory) => Err(Status::NoMemory),
    }
}

/// The text of a word.
#[tactic(auto, using(crate::proofs::Texts::word_is_text))]
pub fn text_of(word: &Octets) -> &str
    requires { is_word word.now ≡ true }
    ensures { result.now ≡ word.now }
{
    match str::from_utf8(word.as_slice()) {
        Ok(text) => text,
        Err(_) => unreachable!(),
    }
}

/// Loads the file that a schedule names.
fn load_named<D: Files>(alloc: Global, name: &Octets, files: &mut D) -> Result<Octets, Status>
    requires { is_word name.now ≡ true }
    ensures loads { LoadsAll (D.folder files.old) (name.now ∷ []) result }
    ensures held { IfOk result (IsLoaded (D.folder files.old) name.now) }
    ensures same { D.folder files.new ≡ D.folder files.old }
    ensures calls { OnOk result (D.answered files.new ≡ next_call (D.answered files.old)) }
    ensures cause { LoadEnds result (D.faults files.old) (D.faults files.new) }
{
    load(alloc, text_of(name), files)
}

/// Loads the schedule of that name, and checks all its lines.
pub fn load_schedule<D: Files>(alloc: Global, name: &str, files: &mut D) -> Result<Schedule, Status>
    ensures loads { LoadsSchedule (D.folder files.old) name.now result }
    ensures same { D.folder files.new ≡ D.folder files.old }
    ensures calls { OnOk result (D.answered files.new ≡ next_call (D.answered files.old)) }
    ensures cause { LoadEnds result (D.faults files.old) (D.faults files.new) }
{
    let text = match load(alloc, name, files) {
        Ok(text) => text,
        Err(status) => return Err(status),
    };
    match read_schedule(alloc, text.as_slice()) {
        Ok(schedule) => Ok(schedule),
        Err(ScheduleFault::BadLine(line)) => Err(Status::BadSchedule(line)),
        Err(ScheduleFault::OutOfMemory) => Err(Status::NoMemory),
    }
}

/// Loads the second image, where the line names one.
fn load_second<D: Files>(
    alloc: Global,
    name: &Option<Octets>,
    files: &mut D,
) -> Result<Option<Octets>, Status>
    requires { ForSome name.now (λ name. is_word name ≡ true) }
    ensures loads { LoadsAll (D.folder files.old) (second_names name.now) result }
    ensures held { IfOk result (IsSecondLoaded (D.folder files.old) name.now) }
    ensures same { D.folder files.new ≡ D.folder files.old }
    ensures calls { OnOk result (D.answered files.new ≡ calls_after (length (second_names name.now)) (D.answered files.old)) }
    ensures cause { LoadEnds result (D.faults files.old) (D.faults files.new) }
{
    match name {
        Some(name) => match load_named(alloc, name, files) {
            Ok(bytes) => Ok(Some(bytes)),
            Err(status) => Err(status),
        },
        None => Ok(None),
    }
}

/// Loads the images of a flash line, the first one first.
pub fn load_images<D: Files>(
    alloc: Global,
    line: &FlashLine,
    files: &mut D,
) -> Result<Images, Status>
    requires { IsFlash line.now }
    ensures loads { LoadsAll (D.folder files.old) (names_of_line line.now) result }
    ensures held { IfOk result (AreImages (D.folder files.old) line.now) }
    ensures same { D.folder files.new ≡ D.folder files.old }
    ensures calls { OnOk result (D.answered files.new ≡ calls_after (length (names_of_line line.now)) (D.answered files.old)) }
    ensures cause { LoadEnds result (D.faults files.old) (D.faults files.new) }
{
    let first = match load_named(alloc, &line.image, files) {
        Ok(first) => first,
        Err(status) => return Err(status),
    };
    match load_second(alloc, &line.second, files) {
        Ok(second) => Ok(Images {
            geometry: line.geometry,
            first,
            second,
        }),
        Err(status) => Err(status),
    }
}

/// Loads the file that a job's words name.
fn load_file<D: Files>(alloc: Global, words: &JobWords, files: &mut D) -> Result<Octets, Status>
    requires { IsJob words.now }
    ensures loads { LoadsAll (D.folder files.old) (names_of_job words.now) result }
    ensures held { IfOk result (IsFileOf (D.folder files.old) words.now) }
    ensures same { D.folder files.new ≡ D.folder files.old }
    ensures calls { OnOk result (D.answered files.new ≡ calls_after (length (names_of_job words.now)) (D.answered files.old)) }
    ensures cause { LoadEnds result (D.faults files.old) (D.faults files.new) }
{
    match words {
        JobWords::Upload { file, .. } => load_named(alloc, file, files),
        JobWords::Put { file, .. } => load_named(alloc, file, files),
        JobWords::List | JobWords::Set(_) | JobWords::Get { .. } | JobWords::Echo { .. } => {
            Ok(Octets::from_vec(Vec::new(alloc)))
        }
    }
}

/// Adds a client with its file.
fn add_client<'a, D: Files>(
    alloc: Global,
    clients: &mut Vec<Client<'a>>,
    words: &'a JobWords,
    files: &mut D,
) -> Result<(), Status>
    requires { IsJob words.now }
    ensures loads { LoadsAll (D.folder files.old) (names_of_job words.now) result }
    ensures added { OnOk result ((client : ClientSpec) × (clients.new.items ≡ clients.old.items ++ client ∷ [])
        × (client.words.now ≡ words.now) × IsFileOf (D.folder files.old) words.now client.file) }
    ensures same { D.folder files.new ≡ D.folder files.old }
    ensures calls { OnOk result (D.answered files.new ≡ calls_after (length (names_of_job words.now)) (D.answered files.old)) }
    ensures cause { LoadEnds result (D.faults files.old) (D.faults files.new) }
{
    let file = match load_file(alloc, words, files) {
        Ok(file) => file,
        Err(status) => return Err(status),
    };
    match clients.push(Client { words, file }) {
        Ok(()) => Ok(()),
        Err(_) => Err(Status::NoMemory),
    }
}

/// Adds the client of an event, where a client begins.
fn add_event<'a, D: Files>(
    alloc: Global,
    clients: &mut Vec<Client<'a>>,
    event: &'a Event,
    files: &mut D,
) -> Result<(), Status>
    requires { (k : ℕ) × IsEvent k event.now }
    ensures loads { LoadsAll (D.folder files.old) (names_of_event event.now) result }
    ensures added { OnOk result ((added : List ClientSpec) × (clients.new.items ≡ clients.old.items ++ added)
        × ((later : List EventSpec) (others : List ClientSpec) → AreClients (D.folder files.old) later others → AreClients (D.folder files.old) (event.now ∷ later) (added ++ others))) }
    ensures same { D.folder files.new ≡ D.folder files.old }
    ensures calls { OnOk result (D.answered files.new ≡ calls_after (length (names_of_event event.now)) (D.answered files.old)) }
    ensures cause { LoadEnds result (D.faults files.old) (D.faults files.new) }
{
    match event {
        Event::Client { job, .. } => add_client(alloc, clients, job, files),
        _ => Ok(()),
    }
}

/// The first event, and those behind it.
pub fn next_event(events: &[Event]) -> Option<(&Event, &[Event])>
    ensures { MatchOption result (events.now ≡ []) (λ x. events.now ≡ x.0.now ∷ x.1.now) }
{
    events.split_first()
}

/// Loads the files that the jobs of the clients name, in the order of their lines.
#[tactic(auto, using(crate::proofs::Loads::breaks_off, crate::proofs::Loads::all_held))]
pub fn load_clients<'a, D: Files>(
    alloc: Global,
    events: &'a [Event],
    files: &mut D,
) -> Result<Vec<Client<'a>>, Status>
    requires { AreEvents 0 events.now }
    ensures loads { LoadsAll (D.folder files.old) (names_in events.now) result }
    ensures held { IfOk result (λ clients. AreClients (D.folder files.old) events.now clients.items) }
    ensures same { D.folder files.new ≡ D.folder files.old }
    ensures calls { OnOk result (D.answered files.new ≡ calls_after (length (names_in events.now)) (D.answered files.old)) }
    ensures cause { LoadEnds result (D.faults files.old) (D.faults files.new) }
{
    let mut clients = Vec::new(alloc);
    let mut rest = events;
    'events: while let Some((event, later)) = next_event(rest) {
        match add_event(alloc, &mut clients, event, files) {
            Ok(()) => {}
            Err(status) => return Err(status),
        }
        rest = later;
    }
    Ok(clients)
}
