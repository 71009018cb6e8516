// The medium that is a file.
ghost use Rattle.std.specs.Prelude.{◌≡◌, None};
ghost use Rattle.smp_flash.specs.Calls.{Rose};
ghost use Rattle.smp_flash.specs.Medium.{HasCause};

use crate::medium::{Medium, MediumFailed};
use std::fs::{File, OpenOptions};
use std::os::unix::fs::FileExt;
use std::rt;

/// A file, which is locked while it is taken up, so that no second program takes it up too. It tells no
/// bytes.
#[derive(Drop)]
pub struct FileMedium<'a, R: rt::Files<File = File>> {
    runtime: &'a R,
    file: Option<File>,
    faults: u64,
}

/// The file of that name, locked. One that is a folder, or that another program has locked, fails.
fn open_locked<R: rt::Files<File = File>>(runtime: &R, name: &str, is_new: bool) -> Option<File> {
    let mut options = OpenOptions::new();
    options.read(true).write(true).create(is_new);
    let file = options.open(runtime, name).ok()?;
    match file.try_lock() {
        Ok(()) => Some(file),
        Err(_) => None,
    }
}

/// An emptied file of that name, which is then so long.
fn make_file<R: rt::Files<File = File>>(runtime: &R, name: &str, size: u64) -> Option<File> {
    let file = open_locked(runtime, name, true)?;
    if file.set_len(0).is_err() || file.set_len(size).is_err() {
        return None;
    }
    Some(file)
}

fn size_of(file: &Option<File>) -> Option<u64> {
    Some(file.as_ref()?.metadata().ok()?.len())
}

fn has_read(file: &Option<File>, place: u64, into: &mut [u8]) -> bool {
    match file {
        Some(file) => file.read_exact_at(into, place).is_ok(),
        None => false,
    }
}

fn has_written(file: &Option<File>, place: u64, bytes: &[u8]) -> bool {
    match file {
        Some(file) => file.write_all_at(bytes, place).is_ok(),
        None => false,
    }
}

fn has_synced(file: &Option<File>) -> bool {
    match file {
        Some(file) => file.sync_all().is_ok(),
        None => false,
    }
}

impl<'a, R: rt::Files<File = File>> FileMedium<'a, R> {
    /// No file yet, of those that this runtime opens.
    pub fn new(runtime: &'a R) -> FileMedium<'a, R>
        ensures { result.faults ≡ 0 }
    {
        FileMedium {
            runtime,
            file: None,
            faults: 0,
        }
    }

    /// Counts a call that failed.
    fn count(&mut self) -> MediumFailed
        ensures { Rose self.old.faults self.new.faults }
    {
        self.faults = self.faults.saturating_add(1);
        MediumFailed
    }

    /// Takes up a file, where there is one.
    fn take_up(&mut self, opened: Option<File>) -> Result<(), MediumFailed>
        ensures { HasCause self.old.faults self.new.faults result }
    {
        let Some(file) = opened else {
            return Err(self.count());
        };
        self.file = Some(file);
        Ok(())
    }
}

impl<R: rt::Files<File = File>> Medium for FileMedium<'_, R> {
    ghost held = { λ _. None };

    ghost faults = { λ medium. medium.faults };

    ghost bytes = { λ _. tt };

    /// The file that was taken up before is unlocked first, so that the same one can be taken up again.
    fn open(&mut self, name: &str) -> Result<(), MediumFailed> {
        self.file = None;
        let opened = open_locked(self.runtime, name, false);
        self.take_up(opened)
    }

    fn create(&mut self, name: &str, size: u64) -> Result<(), MediumFailed> {
        self.file = None;
        let made = make_file(self.runtime, name, size);
        self.take_up(made)
    }

    fn close(&mut self) {
        self.file = None;
    }

    fn size(&mut self) -> Result<u64, MediumFailed> {
        match size_of(&self.file) {
            Some(size) => Ok(size),
            None => Err(self.count()),
        }
    }

    fn get(&mut self, place: u64, into: &mut [u8]) -> Result<(), MediumFailed> {
        if has_read(&self.file, place, into) {
            return Ok(());
        }
        Err(self.count())
    }

    fn put(&mut self, place: u64, bytes: &[u8]) -> Result<(), MediumFailed> {
        if has_written(&self.file, place, bytes) {
            return Ok(());
        }
        Err(self.count())
    }

    fn sync(&mut self) -> Result<(), MediumFailed> {
        if has_synced(&self.file) {
            return Ok(());
        }
        Err(self.count())
    }
}
