// A flash that lies in a file.
ghost use Rattle.std.specs.Prelude.{◌≡◌, ◌≢◌, ◌+◌, ◌*◌, ◌%◌, ◌≤◌, ◌⊎◌, true, false, None, IsTrue, IfOk, IfSome, IfNone, OnOk, OnErr, length, take, drop};
ghost use Rattle.std.specs.Option.{ForSome};
ghost use Rattle.smp_flash.specs.Area.{AreBytes, area, blank, spot, Keeps, Holds, Fades, Erased, Faded, Told};
ghost use Rattle.smp_flash.specs.Calls.{Reads, Writes, Erases, Prepares, Rose};
ghost use Rattle.smp_flash.specs.Geometry.{is_lawful, size_of};
ghost use Rattle.smp_flash.specs.Head.{behind, IsFile, IsNoFile};
ghost use Rattle.smp_flash.specs.Medium.{HasCause, SameSize, Blanked, FadedBehind, SameBehind, file_state};
ghost use Rattle.smp_flash.specs.State.{end_of};
ghost use Rattle.smp_flash.specs.State.End.{WentOff};
ghost use Rattle.smp_flash.specs.declared.flash.Operation.TheVariants.{Read, Write, Erase};

use crate::flash::{Flash, FlashFault};
use crate::geometry::Geometry;
use crate::head::{HEAD, head_of, place, sizes_of_file};
use crate::medium::{Medium, MediumFailed};

/// What a write or an erase waits for.
#[derive(Clone, Copy, Debug, PartialEq, Eq)]
pub enum Keeping {
    /// That the system has the bytes, which then outlast the process, and not the machine's power.
    System,

    /// That the bytes outlast the machine's power.
    Disk,
}

/// A flash in a file: a head of 32 bytes that says its sizes, and then its bytes. It is always on.
///
/// Over a medium that tells its bytes it tells all behind the head; a file tells none.
#[derive(Drop)]
pub struct FileFlash<M: Medium> {
    medium: M,
    keeping: Keeping,
    geometry: Geometry,
    failed_reads: u64,
    failed_writes: u64,
    failed_erases: u64,
    ghost lawful: { IsTrue (is_lawful geometry) },
    ghost sized: { ForSome (behind (M.held medium)) (λ held. length held ≡ size_of geometry) },
}

/// Waits for what a write or an erase is to wait for.
fn keep<M: Medium>(medium: &mut M, keeping: Keeping) -> Result<(), MediumFailed>
    ensures kept { M.held medium.new ≡ M.held medium.old }
    ensures cause { HasCause (M.faults medium.old) (M.faults medium.new) result }
{
    match keeping {
        Keeping::System => Ok(()),
        Keeping::Disk => medium.sync(),
    }
}

/// Writes bytes of the flash.
fn write_behind<M: Medium>(
    medium: &mut M,
    keeping: Keeping,
    at: u32,
    bytes: &[u8],
) -> Result<(), MediumFailed>
    requires { IfSome (M.held medium.old) (λ h. 32 + at + length bytes.now ≤ length h) }
    ensures ok { OnOk result
        (Told (Holds at bytes.now) (behind (M.held medium.old)) (behind (M.held medium.new))) }
    ensures err { OnErr result (Told (Keeps (spot at (length bytes.now)))
        (behind (M.held medium.old)) (behind (M.held medium.new))) }
    ensures size { Told SameSize (M.held medium.old) (M.held medium.new) }
    ensures cause { HasCause (M.faults medium.old) (M.faults medium.new) result }
{
    match medium.put(place(at), bytes) {
        Ok(()) => keep(medium, keeping),
        Err(MediumFailed) => Err(MediumFailed),
    }
}

/// A page of FF, as long as the longest.
fn blank_page() -> [u8; 4096]
    ensures { result ≡ blank 4096 }
{
    [0xff; 4096]
}

/// Makes bytes of the flash FF, at most 4096.
fn clear_behind<M: Medium>(
    medium: &mut M,
    keeping: Keeping,
    at: u32,
    size: u32,
) -> Result<(), MediumFailed>
    requires most { size ≤ 4096 }
    requires inside { IfSome (M.held medium.old) (λ h. 32 + at + size ≤ length h) }
    ensures ok { OnOk result
        (Told (Erased at size) (behind (M.held medium.old)) (behind (M.held medium.new))) }
    ensures err { OnErr result
        (Told (Fades at size) (behind (M.held medium.old)) (behind (M.held medium.new))) }
    ensures size { Told SameSize (M.held medium.old) (M.held medium.new) }
    ensures cause { HasCause (M.faults medium.old) (M.faults medium.new) result }
{
    let blank = blank_page();
    match medium.put(place(at), &blank[..size as usize]) {
        Ok(()) => keep(medium, keeping),
        Err(MediumFailed) => Err(MediumFailed),
    }
}

/// Makes all bytes of the flash FF, in ascending order.
fn clear_all<M: Medium>(medium: &mut M, geometry: Geometry) -> Result<(), MediumFailed>
    requires lawful { IsTrue (is_lawful geometry) }
    requires size { IfSome (M.held medium.old) (λ h. length h ≡ 32 + size_of geometry) }
    ensures ok { OnOk result
        (Told (Blanked (size_of geometry)) (M.held medium.old) (M.held medium.new)) }
    ensures err { OnErr result (Told FadedBehind (M.held medium.old) (M.held medium.new)) }
    ensures cause { HasCause (M.faults medium.old) (M.faults medium.new) result }
{
    let page = geometry.page;
    'pages: for n in 0..geometry.size() / page {
        match clear_behind(medium, Keeping::System, n * page, page) {
            Ok(()) => {}
            Err(MediumFailed) => return Err(MediumFailed),
        }
    }
    Ok(())
}

/// Writes the head, when all that lies behind it has outlasted a loss of power.
fn put_head<M: Medium>(medium: &mut M, geometry: Geometry) -> Result<(), MediumFailed>
    requires size { IfSome (M.held medium.old) (λ h. 32 ≤ length h) }
    ensures kept { Told SameBehind (M.held medium.old) (M.held medium.new) }
    ensures cause { HasCause (M.faults medium.old) (M.faults medium.new) result }
{
    if medium.sync().is_err() {
        return Err(MediumFailed);
    }
    match medium.put(0, &head_of(geometry)) {
        Ok(()) => medium.sync(),
        Err(MediumFailed) => Err(MediumFailed),
    }
}

/// Makes the flash of this name anew. Its head is written last: before, the file is no flash.
fn make_flash<M: Medium>(medium: &mut M, name: &str, geometry: Geometry) -> Result<(), MediumFailed>
    requires { IsTrue (is_lawful geometry) }
    ensures fits { OnOk result
        (IfSome (M.held medium.old) (λ h. length h ≡ 32 + size_of geometry)) }
    ensures ok { OnOk result
        (Told (Blanked (size_of geometry)) (M.held medium.old) (M.held medium.new)) }
    ensures err { OnErr result (Told FadedBehind (M.held medium.old) (M.held medium.new)) }
    ensures cause { HasCause (M.faults medium.old) (M.faults medium.new) result }
{
    if medium
        .create(name, u64::from(HEAD + geometry.size()))
        .is_err()
    {
        return Err(MediumFailed);
    }
    match clear_all(medium, geometry) {
        Ok(()) => put_head(medium, geometry),
        Err(MediumFailed) => Err(MediumFailed),
    }
}

/// The sizes that stand in the head of what was taken up, where it is as long as they say.
fn sizes_in_medium<M: Medium>(medium: &mut M) -> Option<Geometry>
    requires { IfSome (M.held medium.old) (λ h. 32 ≤ length h) }
    ensures kept { M.held medium.new ≡ M.held medium.old }
    ensures lawful { IfSome result (λ g. IsTrue (is_lawful g)) }
    ensures file { IfSome result (λ g. IfSome (M.held medium.old) (λ h. IsFile g (take 32 h) (length h))) }
    ensures none { IfNone result (Rose (M.faults medium.old) (M.faults medium.new)
        ⊎ IfSome (M.held medium.old) (λ h. IsNoFile (take 32 h) (length h))) }
{
    let mut head = [0u8; 32];
    if medium.get(0, &mut head).is_err() {
        return None;
    }
    match medium.size() {
        Ok(size) => sizes_of_file(&head, size),
        Err(MediumFailed) => None,
    }
}

/// The sizes of the flash of this name, which is taken up where it is one.
fn open_flash<M: Medium>(medium: &mut M, name: &str) -> Option<Geometry>
    requires { IfSome (M.held medium.old) (λ h. 32 ≤ length h) }
    ensures kept { M.held medium.new ≡ M.held medium.old }
    ensures lawful { IfSome result (λ g. IsTrue (is_lawful g)) }
    ensures file { IfSome result (λ g. IfSome (M.held medium.old) (λ h. IsFile g (take 32 h) (length h))) }
    ensures none { IfNone result (Rose (M.faults medium.old) (M.faults medium.new)
        ⊎ IfSome (M.held medium.old) (λ h. IsNoFile (take 32 h) (length h))) }
{
    if medium.open(name).is_err() {
        return None;
    }
    let found = sizes_in_medium(medium);
    if found.is_none() {
        medium.close();
    }
    found
}

/// The sizes of a flash that has taken up no file yet.
const NO_SIZES: Geometry = Geometry {
    page: 512,
    unit: 8,
    slot_pages: 4,
    images: 1,
};

impl<M: Medium> FileFlash<M> {
    /// A flash over a medium that tells nothing, as a file, which has taken up none yet: each read,
    /// write and erase fails until it has.
    pub fn new(medium: M, keeping: Keeping) -> FileFlash<M>
        requires { M.held medium ≡ None }
        ensures medium { result.medium ≡ medium }
        ensures keeping { result.keeping ≡ keeping }
    {
        FileFlash {
            medium,
            keeping,
            geometry: NO_SIZES,
            failed_reads: 0,
            failed_writes: 0,
            failed_erases: 0,
        }
    }
}

impl<M: Medium> FileFlash<M> {
    /// A flash over a medium that holds one already, by its head and its size.
    pub fn over(medium: M, keeping: Keeping) -> Option<FileFlash<M>>
        requires { IfSome (M.held medium) (λ h. 32 ≤ length h) }
        ensures held { IfSome result (λ flash. M.held flash.medium ≡ M.held medium) }
        ensures file { IfSome result (λ flash.
            IfSome (M.held medium) (λ h. IsFile flash.geometry (take 32 h) (length h))) }
    {
        let mut medium = medium;
        let geometry = sizes_in_medium(&mut medium)?;
        Some(FileFlash {
            medium,
            keeping,
            geometry,
            failed_reads: 0,
            failed_writes: 0,
            failed_erases: 0,
        })
    }
}

impl<M: Medium> Flash for FileFlash<M> {
    ghost use Rattle.smp_flash.specs.Medium.{file_state, if_some, bytes_behind};

    ghost state = { λ flash. file_state (M.held flash.medium) flash.geometry flash.failed_reads flash.failed_writes flash.failed_erases };

    ghost lawful = { λ flash. flash.lawful };

    ghost sized = { λ flash. if_some (behind (M.held flash.medium)) (λ held. length held ≡ size_of flash.geometry) flash.sized };

    ghost bytes = { λ flash. bytes_behind (M.held flash.medium) (M.bytes flash.medium) };

    /// A file that is no flash of some lawful sizes, by its head and its length, fails, and none is
    /// taken up then.
    fn attach(&mut self, name: &str) -> Result<(), FlashFault> {
        match open_flash(&mut self.medium, name) {
            Some(geometry) => {
                self.geometry = geometry;
                Ok(())
            }
            None => {
                self.failed_reads = self.failed_reads.saturating_add(1);
                Err(FlashFault::Fault)
            }
        }
    }

    /// A file of that name is made or emptied. Where that fails, none is taken up.
    fn create(&mut self, name: &str, geometry: Geometry) -> Result<(), FlashFault> {
        match make_flash(&mut self.medium, name, geometry) {
            Ok(()) => {
                self.geometry = geometry;
                Ok(())
            }
            Err(MediumFailed) => {
                self.medium.close();
                self.failed_writes = self.failed_writes.saturating_add(1);
                Err(FlashFault::Fault)
            }
        }
    }

    fn geometry(&self) -> Geometry {
        self.geometry
    }

    /// It fails only where the medium did.
    fn read(&mut self, at: u32, into: &mut [u8]) -> Result<(), FlashFault>
        requires { at + length into.old ≤ size_of self.old.geometry }
        ensures acts { Reads at (length into.old) (end_of Read result)
            (file_state (M.held self.old.medium) self.old.geometry
            self.old.failed_reads self.old.failed_writes self.old.failed_erases)
            (file_state (M.held self.new.medium) self.new.geometry
            self.new.failed_reads self.new.failed_writes self.new.failed_erases) }
        ensures kept { behind (M.held self.new.medium) ≡ behind (M.held self.old.medium) }
        ensures bytes { OnOk result (IfSome (behind (M.held self.old.medium))
            (λ held. into.new ≡ area at (length into.old) held)) }
        ensures uncut { (file_state (M.held self.old.medium) self.old.geometry
            self.old.failed_reads self.old.failed_writes self.old.failed_erases).on ≡ true
            → (file_state (M.held self.old.medium) self.old.geometry
            self.old.failed_reads self.old.failed_writes self.old.failed_erases).aim ≢ None
            → end_of Read result ≢ WentOff }
        ensures cause { HasCause (M.faults self.old.medium) (M.faults self.new.medium) result }
    {
        match self.medium.get(place(at), into) {
            Ok(()) => Ok(()),
            Err(MediumFailed) => {
                self.failed_reads = self.failed_reads.saturating_add(1);
                Err(FlashFault::Fault)
            }
        }
    }

    /// It fails only where the medium did.
    fn write(&mut self, at: u32, bytes: &[u8]) -> Result<(), FlashFault>
        requires inside { at + length bytes.now ≤ size_of self.old.geometry }
        requires place { at % self.old.geometry.unit ≡ 0 }
        requires whole { length bytes.now % self.old.geometry.unit ≡ 0 }
        requires erased { IfSome (behind (M.held self.old.medium))
            (λ held. area at (length bytes.now) held ≡ blank (length bytes.now)) }
        ensures acts { Writes at bytes.now (end_of Write result)
            (file_state (M.held self.old.medium) self.old.geometry
            self.old.failed_reads self.old.failed_writes self.old.failed_erases)
            (file_state (M.held self.new.medium) self.new.geometry
            self.new.failed_reads self.new.failed_writes self.new.failed_erases) }
        ensures ok { OnOk result (Told (Holds at bytes.now)
            (behind (M.held self.old.medium)) (behind (M.held self.new.medium))) }
        ensures err { OnErr result (Told (Keeps (spot at (length bytes.now)))
            (behind (M.held self.old.medium)) (behind (M.held self.new.medium))) }
        ensures cause { HasCause (M.faults self.old.medium) (M.faults self.new.medium) result }
    {
        match write_behind(&mut self.medium, self.keeping, at, bytes) {
            Ok(()) => Ok(()),
            Err(MediumFailed) => {
                self.failed_writes = self.failed_writes.saturating_add(1);
                Err(FlashFault::Fault)
            }
        }
    }

    /// It fails only where the medium did.
    fn erase(&mut self, page: u32) -> Result<(), FlashFault>
        requires { (page + 1) * self.old.geometry.page ≤ size_of self.old.geometry }
        ensures acts { Erases (page * self.old.geometry.page) (end_of Erase result)
            (file_state (M.held self.old.medium) self.old.geometry
            self.old.failed_reads self.old.failed_writes self.old.failed_erases)
            (file_state (M.held self.new.medium) self.new.geometry
            self.new.failed_reads self.new.failed_writes self.new.failed_erases) }
        ensures ok { OnOk result (Told (Erased (page * self.old.geometry.page) self.old.geometry.page)
            (behind (M.held self.old.medium)) (behind (M.held self.new.medium))) }
        ensures err { OnErr result (Told (Fades (page * self.old.geometry.page) self.old.geometry.page)
            (behind (M.held self.old.medium)) (behind (M.held self.new.medium))) }
        ensures cause { HasCause (M.faults self.old.medium) (M.faults self.new.medium) result }
    {
        let size = self.geometry.page;
        match clear_behind(&mut self.medium, self.keeping, page * size, size) {
            Ok(()) => Ok(()),
            Err(MediumFailed) => {
                self.failed_erases = self.failed_erases.saturating_add(1);
                Err(FlashFault::Fault)
            }
        }
    }
}
