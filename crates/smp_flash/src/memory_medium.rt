// A medium in memory.
ghost use Rattle.std.specs.Prelude.{◌≡◌, ◌+◌, ◌≤◌, Some, IfOk, IfSome, IsTrue, OnOk, OnErr, length, take};
ghost use Rattle.smp_flash.specs.Area.{AreBytes, area, blank, Holds, Told};
ghost use Rattle.smp_flash.specs.Geometry.{is_lawful};
ghost use Rattle.smp_flash.specs.Head.{IsFile};
ghost use Rattle.smp_flash.specs.Medium.{HasCause, PutsFront};

use crate::geometry::Geometry;
use crate::head::{HEAD, head_of};
use crate::medium::{Medium, MediumFailed};
use crate::parts::put;
use std::alloc::{AllocError, Global};

/// Bytes in memory, all of one name, and of a fixed length. It fails at a `create` of another length
/// alone.
#[derive(Drop)]
pub struct MemMedium {
    held: Vec<u8>,
    faults: u64,
    ghost bytes: { AreBytes held.items },
}

impl MemMedium {
    /// The file of a flash of these sizes: its head, and FF. It fails only for want of memory.
    pub fn new(alloc: Global, geometry: Geometry) -> Result<MemMedium, AllocError>
        requires { IsTrue (is_lawful geometry) }
        ensures file { IfOk result (λ medium.
            IsFile geometry (take 32 medium.held.items) (length medium.held.items)) }
        ensures faults { IfOk result (λ medium. medium.faults ≡ 0) }
    {
        let mut held = vec![in alloc; 0xff; (HEAD + geometry.size()) as usize]?;
        put(&mut held, 0, &head_of(geometry));
        Ok(MemMedium { held, faults: 0 })
    }

    /// The bytes.
    pub fn as_slice(&self) -> &[u8]
        ensures { result.now ≡ self.now.held.items }
    {
        self.held.as_slice()
    }
}

impl Medium for MemMedium {
    ghost held = { λ medium. Some medium.held.items };

    ghost faults = { λ medium. medium.faults };

    ghost bytes = { λ medium. medium.bytes };

    fn open(&mut self, _name: &str) -> Result<(), MediumFailed> {
        Ok(())
    }

    fn create(&mut self, _name: &str, size: u64) -> Result<(), MediumFailed> {
        if self.held.len() as u64 != size {
            self.faults = self.faults.saturating_add(1);
            return Err(MediumFailed);
        }
        Ok(())
    }

    fn close(&mut self) {}

    fn size(&mut self) -> Result<u64, MediumFailed> {
        Ok(self.held.len() as u64)
    }

    fn get(&mut self, place: u64, into: &mut [u8]) -> Result<(), MediumFailed> {
        let start = place as usize;
        into.copy_from_slice(&self.held[start..start + into.len()]);
        Ok(())
    }

    fn put(&mut self, place: u64, bytes: &[u8]) -> Result<(), MediumFailed> {
        put(&mut self.held, place as usize, bytes);
        Ok(())
    }

    fn sync(&mut self) -> Result<(), MediumFailed> {
        Ok(())
    }
}
