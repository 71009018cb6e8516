// A flash in memory, which acts as the model and can be armed.
ghost use Rattle.std.specs.Prelude.{◌≡◌, ◌≢◌, ◌+◌, ◌*◌, ◌%◌, ◌≤◌, ◌^◌, IsTrue, IfOk, OnOk, OnErr, IfSome, IfNone, Some, None, true, false, length};
ghost use Rattle.std.specs.Option.{ForSome};
ghost use Rattle.smp_flash.specs.Area.{AreBytes, area, blank, spot, Keeps, Holds, Fades, Erased, Faded, Told};
ghost use Rattle.smp_flash.specs.Arm.{aim_of, struck_by, rest_of, end_by, left_written, left_erased};
ghost use Rattle.smp_flash.specs.Calls.{Reads, Writes, Erases, Prepares};
ghost use Rattle.smp_flash.specs.Geometry.{is_lawful, size_of};
ghost use Rattle.smp_flash.specs.Region.{counts, counts_write};
ghost use Rattle.smp_flash.specs.State.{end_of};
ghost use Rattle.smp_flash.specs.State.End.{WentOff};
ghost use Rattle.smp_flash.specs.declared.flash.Operation.TheVariants.{Read, Write, Erase};

use crate::arm::{Arm, ArmKind, strike};
use crate::flash::{Flash, FlashFault};
use crate::geometry::Geometry;
use crate::parts::{put, put_in_part, wipe, wipe_in_part};
use crate::region::GATE;
use std::alloc::{AllocError, Global};

/// A flash whose bytes lie in memory.
///
/// It tells its bytes, its troubles, which are one of the armed kind, and the bytes read; and where something is armed,
/// the armed region, and for a cut or a failure how many writes and erases that count there can still go through.
#[derive(Drop)]
pub struct MemFlash {
    geometry: Geometry,
    held: Vec<u8>,
    on: bool,
    failed_reads: u64,
    failed_writes: u64,
    failed_erases: u64,
    writes: u64,
    erases: u64,
    bytes_read: u64,
    arm: Option<Arm>,
    ghost lawful: { IsTrue (is_lawful geometry) },
    ghost sized: { length held.items ≡ size_of geometry },
    ghost bytes: { AreBytes held.items },
    ghost armed: { ForSome arm (λ arm. 1 ≤ arm.after) },
}

/// A read or an erase there counts in the armed region.
fn is_counted(geometry: Geometry, armed: &Option<Arm>, at: u32) -> bool
    requires { IsTrue (is_lawful geometry) }
    ensures { result ≡ counts geometry (aim_of armed.now) at }
{
    match armed {
        None => false,
        Some(arm) => arm.region.begins(geometry, at) && !arm.region.is_gate(),
    }
}

/// A write of these bytes there counts in the armed region.
fn is_write_counted(geometry: Geometry, armed: &Option<Arm>, at: u32, bytes: &[u8]) -> bool
    requires { IsTrue (is_lawful geometry) }
    ensures { result ≡ counts_write geometry (aim_of armed.now) at bytes.now }
{
    match armed {
        None => false,
        Some(arm) => {
            arm.region.begins(geometry, at) && (!arm.region.is_gate() || bytes == GATE.as_slice())
        }
    }
}

impl MemFlash {
    ghost use Rattle.smp_flash.specs.Memory.{memory_of, fresh, changes_of};

    /// A flash that is all FF and on, with nothing counted and nothing armed.
    pub fn new(alloc: Global, geometry: Geometry) -> Result<MemFlash, AllocError>
        requires { IsTrue (is_lawful geometry) }
        ensures { IfOk result (λ flash. memory_of flash ≡ fresh geometry) }
    {
        let held = vec![in alloc; 0xff; geometry.size() as usize]?;
        Ok(MemFlash {
            geometry,
            held,
            on: true,
            failed_reads: 0,
            failed_writes: 0,
            failed_erases: 0,
            writes: 0,
            erases: 0,
            bytes_read: 0,
            arm: None,
        })
    }

    /// Arms the flash. What was armed before is replaced.
    pub fn arm(&mut self, arm: Arm)
        requires { 1 ≤ arm.after }
        ensures { memory_of self.new ≡ record (memory_of self.old) { arm = Some arm } }
    {
        self.arm = Some(arm);
    }

    /// The power is on again. The bytes and what is armed are kept.
    pub fn power_on(&mut self)
        ensures { memory_of self.new ≡ record (memory_of self.old) { on = true } }
    {
        self.on = true;
    }

    /// Whether it is on: it goes off by a cut alone.
    pub fn is_on(&self) -> bool
        ensures { result ≡ (memory_of self.now).on }
    {
        self.on
    }

    /// How many writes and erases were begun while it was on. The number stays at the greatest u64.
    pub fn changes(&self) -> u64
        ensures { result ≡ changes_of (memory_of self.now) }
    {
        self.writes.saturating_add(self.erases)
    }

    /// How many of these were erases. The number stays at the greatest u64.
    pub fn erases(&self) -> u64
        ensures { result ≡ (memory_of self.now).erases }
    {
        self.erases
    }

    /// How many bytes were asked for by reads while it was on. The number stays at the greatest u64.
    pub fn read_bytes(&self) -> u64
        ensures { result ≡ (memory_of self.now).bytes_read }
    {
        self.bytes_read
    }
}

impl Flash for MemFlash {
    ghost use Rattle.smp_flash.specs.Memory.{memory_of, mem_state, raised, faults_after, read_counts, write_counts, erase_counts};

    ghost state = { mem_state };

    ghost lawful = { λ m. m.lawful };

    ghost sized = { λ m. m.sized };

    ghost bytes = { λ m. m.bytes };

    fn attach(&mut self, _name: &str) -> Result<(), FlashFault>
        ensures prepares { Prepares (end_of Read result) (mem_state self.old) (mem_state self.new) }
        ensures held { (mem_state self.new).bytes ≡ (mem_state self.old).bytes }
        ensures err { OnErr result ((mem_state self.new).geometry ≡ (mem_state self.old).geometry) }
        ensures end { end_of Read result ≡ end_by Read (memory_of self.old).on None }
        ensures same { memory_of self.new ≡ memory_of self.old }
    {
        if self.on {
            Ok(())
        } else {
            Err(FlashFault::Off)
        }
    }

    fn create(&mut self, _name: &str, geometry: Geometry) -> Result<(), FlashFault>
        requires { IsTrue (is_lawful geometry) }
        ensures prepares { Prepares (end_of Write result) (mem_state self.old) (mem_state self.new) }
        ensures sizes { OnOk result ((mem_state self.new).geometry ≡ geometry) }
        ensures ok { OnOk result (Told (λ old new. new ≡ blank (size_of geometry)) (mem_state self.old).bytes (mem_state self.new).bytes) }
        ensures kept { OnErr result ((mem_state self.new).geometry ≡ (mem_state self.old).geometry) }
        ensures err { OnErr result (Told Faded (mem_state self.old).bytes (mem_state self.new).bytes) }
        ensures off { (memory_of self.old).on ≡ false → end_of Write result ≡ WentOff }
        ensures own { OnOk result (memory_of self.new ≡ record (memory_of self.old) { bytes = blank (size_of geometry) }) }
        ensures other { OnErr result (memory_of self.new ≡ record (memory_of self.old) { faults = faults_after (end_of Write result) (memory_of self.old).faults }) }
        ensures takes { (memory_of self.old).on ≡ true → geometry ≡ (memory_of self.old).geometry → end_of Write result ≡ end_by Write true None }
    {
        if !self.on {
            return Err(FlashFault::Off);
        }
        if geometry != self.geometry {
            self.failed_writes = self.failed_writes.saturating_add(1);
            return Err(FlashFault::Fault);
        }
        self.held.fill(0xff);
        Ok(())
    }

    fn geometry(&self) -> Geometry {
        self.geometry
    }

    fn read(&mut self, at: u32, into: &mut [u8]) -> Result<(), FlashFault>
        requires { at + length into.old ≤ size_of (mem_state self.old).geometry }
        ensures acts { Reads at (length into.old) (end_of Read result) (mem_state self.old) (mem_state self.new) }
        ensures kept { (mem_state self.new).bytes ≡ (mem_state self.old).bytes }
        ensures bytes { OnOk result (IfSome (mem_state self.old).bytes (λ held. into.new ≡ area at (length into.old) held)) }
        ensures uncut { (mem_state self.old).on ≡ true → (mem_state self.old).aim ≢ None → end_of Read result ≢ WentOff }

        // An off flash changes nothing; else the arm says how the operation ends, what it leaves and what stays armed.
        ensures off { (memory_of self.old).on ≡ false → memory_of self.new ≡ memory_of self.old }
        ensures end { end_of Read result ≡ end_by Read (memory_of self.old).on (struck_by (read_counts (memory_of self.old) at) true (memory_of self.old).arm) }
        ensures rest { (memory_of self.old).on ≡ true → (memory_of self.new).arm ≡ rest_of (read_counts (memory_of self.old) at) true (memory_of self.old).arm }
        ensures faults { (memory_of self.new).faults ≡ faults_after (end_of Read result) (memory_of self.old).faults }
        ensures counted { (memory_of self.old).on ≡ true → (memory_of self.new).bytes_read ≡ raised (length into.old) (memory_of self.old).bytes_read }
        ensures changes { ((memory_of self.new).writes ≡ (memory_of self.old).writes) × ((memory_of self.new).erases ≡ (memory_of self.old).erases) }
        ensures nothing { OnErr result (into.new ≡ into.old) }
    {
        if !self.on {
            return Err(FlashFault::Off);
        }
        self.bytes_read = self.bytes_read.saturating_add(into.len() as u64);
        let counted = is_counted(self.geometry, &self.arm, at);
        match strike(&mut self.arm, counted, true) {
            None => {
                let start = at as usize;
                into.copy_from_slice(&self.held[start..start + into.len()]);
                Ok(())
            }
            Some(_) => {
                self.failed_reads = self.failed_reads.saturating_add(1);
                Err(FlashFault::Fault)
            }
        }
    }

    fn write(&mut self, at: u32, bytes: &[u8]) -> Result<(), FlashFault>
        requires inside { at + length bytes.now ≤ size_of (mem_state self.old).geometry }
        requires place { at % (mem_state self.old).geometry.unit ≡ 0 }
        requires whole { length bytes.now % (mem_state self.old).geometry.unit ≡ 0 }
        requires erased { IfSome (mem_state self.old).bytes (λ held. area at (length bytes.now) held ≡ blank (length bytes.now)) }
        ensures acts { Writes at bytes.now (end_of Write result) (mem_state self.old) (mem_state self.new) }
        ensures ok { OnOk result (Told (Holds at bytes.now) (mem_state self.old).bytes (mem_state self.new).bytes) }
        ensures err { OnErr result (Told (Keeps (spot at (length bytes.now))) (mem_state self.old).bytes (mem_state self.new).bytes) }

        // An off flash changes nothing; else the arm says how the operation ends, what it leaves and what stays armed.
        ensures off { (memory_of self.old).on ≡ false → memory_of self.new ≡ memory_of self.old }
        ensures end { end_of Write result ≡ end_by Write (memory_of self.old).on (struck_by (write_counts (memory_of self.old) at bytes.now) false (memory_of self.old).arm) }
        ensures rest { (memory_of self.old).on ≡ true → (memory_of self.new).arm ≡ rest_of (write_counts (memory_of self.old) at bytes.now) false (memory_of self.old).arm }
        ensures left { (memory_of self.old).on ≡ true → IfSome (struck_by (write_counts (memory_of self.old) at bytes.now) false (memory_of self.old).arm)
            (λ arm. area at (length bytes.now) (memory_of self.new).bytes ≡ left_written arm.left (area at (length bytes.now) (memory_of self.old).bytes) bytes.now) }
        ensures faults { (memory_of self.new).faults ≡ faults_after (end_of Write result) (memory_of self.old).faults }
        ensures writes { (memory_of self.old).on ≡ true → (memory_of self.new).writes ≡ raised 1 (memory_of self.old).writes }
        ensures erases { (memory_of self.new).erases ≡ (memory_of self.old).erases }
    {
        if !self.on {
            return Err(FlashFault::Off);
        }
        self.writes = self.writes.saturating_add(1);
        let counted = is_write_counted(self.geometry, &self.arm, at, bytes);
        match strike(&mut self.arm, counted, false) {
            None => {
                put(&mut self.held, at as usize, bytes);
                Ok(())
            }
            Some(arm) => {
                put_in_part(&mut self.held, at as usize, bytes, arm.left);
                if matches!(arm.kind, ArmKind::Cut) {
                    self.on = false;
                    return Err(FlashFault::Off);
                }
                self.failed_writes = self.failed_writes.saturating_add(1);
                Err(FlashFault::Fault)
            }
        }
    }

    fn erase(&mut self, page: u32) -> Result<(), FlashFault>
        requires { (page + 1) * (mem_state self.old).geometry.page ≤ size_of (mem_state self.old).geometry }
        ensures acts { Erases (page * (mem_state self.old).geometry.page) (end_of Erase result) (mem_state self.old) (mem_state self.new) }
        ensures ok { OnOk result (Told (Erased (page * (mem_state self.old).geometry.page) (mem_state self.old).geometry.page) (mem_state self.old).bytes (mem_state self.new).bytes) }
        ensures err { OnErr result (Told (Fades (page * (mem_state self.old).geometry.page) (mem_state self.old).geometry.page) (mem_state self.old).bytes (mem_state self.new).bytes) }

        // An off flash changes nothing; else the arm says how the operation ends, what it leaves and what stays armed.
        ensures off { (memory_of self.old).on ≡ false → memory_of self.new ≡ memory_of self.old }
        ensures end { end_of Erase result ≡ end_by Erase (memory_of self.old).on (struck_by (erase_counts (memory_of self.old) page) false (memory_of self.old).arm) }
        ensures rest { (memory_of self.old).on ≡ true → (memory_of self.new).arm ≡ rest_of (erase_counts (memory_of self.old) page) false (memory_of self.old).arm }
        ensures left { (memory_of self.old).on ≡ true → IfSome (struck_by (erase_counts (memory_of self.old) page) false (memory_of self.old).arm)
            (λ arm. area (page * (memory_of self.old).geometry.page) (memory_of self.old).geometry.page (memory_of self.new).bytes ≡ left_erased arm.left (area (page * (memory_of self.old).geometry.page) (memory_of self.old).geometry.page (memory_of self.old).bytes)) }
        ensures faults { (memory_of self.new).faults ≡ faults_after (end_of Erase result) (memory_of self.old).faults }
        ensures erases { (memory_of self.old).on ≡ true → (memory_of self.new).erases ≡ raised 1 (memory_of self.old).erases }
        ensures writes { (memory_of self.new).writes ≡ (memory_of self.old).writes }
    {
        if !self.on {
            return Err(FlashFault::Off);
        }
        self.erases = self.erases.saturating_add(1);
        let at = page * self.geometry.page;
        let counted = is_counted(self.geometry, &self.arm, at);
        let size = self.geometry.page as usize;
        match strike(&mut self.arm, counted, false) {
            None => {
                wipe(&mut self.held, at as usize, size);
                Ok(())
            }
            Some(arm) => {
                wipe_in_part(&mut self.held, at as usize, size, arm.left);
                if matches!(arm.kind, ArmKind::Cut) {
                    self.on = false;
                    return Err(FlashFault::Off);
                }
                self.failed_erases = self.failed_erases.saturating_add(1);
                Err(FlashFault::Fault)
            }
        }
    }
}
