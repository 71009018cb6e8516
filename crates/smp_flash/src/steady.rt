// A flash in memory that never fails and is always on.
ghost use Rattle.std.specs.Prelude.{◌≡◌, ◌≢◌, ◌+◌, ◌*◌, ◌%◌, ◌≤◌, IsTrue, IfOk, OnOk, OnErr, IfSome, None, true, false, length};
ghost use Rattle.smp_flash.specs.Area.{AreBytes, area, blank, spot, Keeps, Holds, Fades, Erased, Faded, Told};
ghost use Rattle.smp_flash.specs.Calls.{Reads, Writes, Erases, Prepares};
ghost use Rattle.smp_flash.specs.Geometry.{is_lawful, size_of};
ghost use Rattle.smp_flash.specs.State.{end_of};
ghost use Rattle.smp_flash.specs.State.End.{Went, WentOff};
ghost use Rattle.smp_flash.specs.declared.flash.Operation.TheVariants.{Read, Write, Erase};

use crate::flash::{Flash, FlashFault};
use crate::geometry::Geometry;
use crate::parts::{put, wipe};
use std::alloc::{AllocError, Global};

/// A flash whose bytes lie in memory and that meets no trouble. Only a `create` of other sizes than its own fails.
#[derive(Drop)]
pub struct SteadyFlash {
    geometry: Geometry,
    held: Vec<u8>,
    failed_creates: u64,
    writes: u64,
    erases: u64,
    bytes_read: u64,
    ghost lawful: { IsTrue (is_lawful geometry) },
    ghost sized: { length held.items ≡ size_of geometry },
    ghost bytes: { AreBytes held.items },
}

impl SteadyFlash {
    ghost use Rattle.smp_flash.specs.Memory.{steady_memory, fresh, changes_of};

    /// A flash that is all FF, with nothing counted.
    pub fn new(alloc: Global, geometry: Geometry) -> Result<SteadyFlash, AllocError>
        requires { IsTrue (is_lawful geometry) }
        ensures { IfOk result (λ flash. steady_memory flash ≡ fresh geometry) }
    {
        let held = vec![in alloc; 0xff; geometry.size() as usize]?;
        Ok(SteadyFlash {
            geometry,
            held,
            failed_creates: 0,
            writes: 0,
            erases: 0,
            bytes_read: 0,
        })
    }

    /// The power is on, as ever.
    pub fn power_on(&mut self)
        ensures { self.new ≡ self.old }
    {}

    /// Whether it is on: always.
    pub fn is_on(&self) -> bool
        ensures { IsTrue result }
    {
        true
    }

    /// How many writes and erases there were. The number stays at the greatest u64.
    pub fn changes(&self) -> u64
        ensures { result ≡ changes_of (steady_memory self.now) }
    {
        self.writes.saturating_add(self.erases)
    }

    /// How many of these were erases. The number stays at the greatest u64.
    pub fn erases(&self) -> u64
        ensures { result ≡ (steady_memory self.now).erases }
    {
        self.erases
    }

    /// How many bytes were asked for by reads. The number stays at the greatest u64.
    pub fn read_bytes(&self) -> u64
        ensures { result ≡ (steady_memory self.now).bytes_read }
    {
        self.bytes_read
    }
}

impl Flash for SteadyFlash {
    ghost use Rattle.smp_flash.specs.Memory.{steady_memory, steady_state, raised, faults_after};

    ghost state = { steady_state };

    ghost lawful = { λ s. s.lawful };

    ghost sized = { λ s. s.sized };

    ghost bytes = { λ s. s.bytes };

    fn attach(&mut self, _name: &str) -> Result<(), FlashFault>
        ensures prepares { Prepares (end_of Read result) (steady_state self.old) (steady_state self.new) }
        ensures held { (steady_state self.new).bytes ≡ (steady_state self.old).bytes }
        ensures err { OnErr result ((steady_state self.new).geometry ≡ (steady_state self.old).geometry) }
        ensures end { end_of Read result ≡ Went }
        ensures same { self.new ≡ self.old }
    {
        Ok(())
    }

    fn create(&mut self, _name: &str, geometry: Geometry) -> Result<(), FlashFault>
        requires { IsTrue (is_lawful geometry) }
        ensures prepares { Prepares (end_of Write result) (steady_state self.old) (steady_state self.new) }
        ensures sizes { OnOk result ((steady_state self.new).geometry ≡ geometry) }
        ensures ok { OnOk result (Told (λ old new. new ≡ blank (size_of geometry)) (steady_state self.old).bytes (steady_state self.new).bytes) }
        ensures kept { OnErr result ((steady_state self.new).geometry ≡ (steady_state self.old).geometry) }
        ensures err { OnErr result (Told Faded (steady_state self.old).bytes (steady_state self.new).bytes) }
        ensures own { OnOk result (steady_memory self.new ≡ record (steady_memory self.old) { bytes = blank (size_of geometry) }) }
        ensures other { OnErr result (steady_memory self.new ≡ record (steady_memory self.old) { faults = faults_after (end_of Write result) (steady_memory self.old).faults }) }
        ensures takes { geometry ≡ (steady_memory self.old).geometry → end_of Write result ≡ Went }
    {
        if geometry != self.geometry {
            self.failed_creates = self.failed_creates.saturating_add(1);
            return Err(FlashFault::Fault);
        }
        self.held.fill(0xff);
        Ok(())
    }

    fn geometry(&self) -> Geometry {
        self.geometry
    }

    fn read(&mut self, at: u32, into: &mut [u8]) -> Result<(), FlashFault>
        requires { at + length into.old ≤ size_of (steady_state self.old).geometry }
        ensures acts { Reads at (length into.old) (end_of Read result) (steady_state self.old) (steady_state self.new) }
        ensures kept { (steady_state self.new).bytes ≡ (steady_state self.old).bytes }
        ensures bytes { OnOk result (IfSome (steady_state self.old).bytes (λ held. into.new ≡ area at (length into.old) held)) }
        ensures uncut { (steady_state self.old).on ≡ true → (steady_state self.old).aim ≢ None → end_of Read result ≢ WentOff }
        ensures end { end_of Read result ≡ Went }
        ensures counted { steady_memory self.new ≡ record (steady_memory self.old) { bytes_read = raised (length into.old) (steady_memory self.old).bytes_read } }
    {
        self.bytes_read = self.bytes_read.saturating_add(into.len() as u64);
        let start = at as usize;
        into.copy_from_slice(&self.held[start..start + into.len()]);
        Ok(())
    }

    fn write(&mut self, at: u32, bytes: &[u8]) -> Result<(), FlashFault>
        requires inside { at + length bytes.now ≤ size_of (steady_state self.old).geometry }
        requires place { at % (steady_state self.old).geometry.unit ≡ 0 }
        requires whole { length bytes.now % (steady_state self.old).geometry.unit ≡ 0 }
        requires erased { IfSome (steady_state self.old).bytes (λ held. area at (length bytes.now) held ≡ blank (length bytes.now)) }
        ensures acts { Writes at bytes.now (end_of Write result) (steady_state self.old) (steady_state self.new) }
        ensures ok { OnOk result (Told (Holds at bytes.now) (steady_state self.old).bytes (steady_state self.new).bytes) }
        ensures err { OnErr result (Told (Keeps (spot at (length bytes.now))) (steady_state self.old).bytes (steady_state self.new).bytes) }
        ensures end { end_of Write result ≡ Went }
        ensures writes { (steady_memory self.new).writes ≡ raised 1 (steady_memory self.old).writes }
        ensures erases { (steady_memory self.new).erases ≡ (steady_memory self.old).erases }
    {
        self.writes = self.writes.saturating_add(1);
        put(&mut self.held, at as usize, bytes);
        Ok(())
    }

    fn erase(&mut self, page: u32) -> Result<(), FlashFault>
        requires { (page + 1) * (steady_state self.old).geometry.page ≤ size_of (steady_state self.old).geometry }
        ensures acts { Erases (page * (steady_state self.old).geometry.page) (end_of Erase result) (steady_state self.old) (steady_state self.new) }
        ensures ok { OnOk result (Told (Erased (page * (steady_state self.old).geometry.page) (steady_state self.old).geometry.page) (steady_state self.old).bytes (steady_state self.new).bytes) }
        ensures err { OnErr result (Told (Fades (page * (steady_state self.old).geometry.page) (steady_state self.old).geometry.page) (steady_state self.old).bytes (steady_state self.new).bytes) }
        ensures end { end_of Erase result ≡ Went }
        ensures erases { (steady_memory self.new).erases ≡ raised 1 (steady_memory self.old).erases }
        ensures writes { (steady_memory self.new).writes ≡ (steady_memory self.old).writes }
    {
        self.erases = self.erases.saturating_add(1);
        let at = page * self.geometry.page;
        wipe(&mut self.held, at as usize, self.geometry.page as usize);
        Ok(())
    }
}
