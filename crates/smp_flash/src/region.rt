// The regions of a flash, as a flash in memory is armed by them.
ghost use Rattle.std.specs.Prelude.{◌≡◌, ◌≤◌, ◌<◌, ◌+◌, ◌^◌, IsTrue};
ghost use Rattle.smp_flash.specs.Geometry.{is_lawful};
ghost use Rattle.smp_flash.specs.Region.{begins_in, is_gate, within, region_at, region_size};

use crate::geometry::Geometry;
use crate::layout::Area;

/// The gate of a bank's side and of a cell: `GATEGATE`. A side counts where these eight bytes begin it, and a cell where
/// they end it.
pub const GATE: [u8; 8] = *b"GATEGATE";

/// Where an operation has to begin so that it counts.
///
/// `ProgressGate`, `Progress2Gate` and `SettingsGate` count no operation but a write of exactly the eight bytes of a gate in
/// that bank. On a flash of one image nothing begins in the regions of image 1.
#[derive(Clone, Copy, Debug, PartialEq, Eq)]
pub enum Region {
    /// Anywhere.
    Any,
    /// Slot 0: the primary slot of image 0.
    Slot0,
    /// Slot 1: the secondary slot of image 0.
    Slot1,
    /// Either side of the progress bank of image 0.
    Progress,
    /// The scratch page of image 0.
    Scratch,
    /// Either side of the settings bank.
    Settings,
    /// A gate of the progress bank of image 0.
    ProgressGate,
    /// A gate of the settings bank.
    SettingsGate,
    /// Slot 2: the primary slot of image 1.
    Slot2,
    /// Slot 3: the secondary slot of image 1.
    Slot3,
    /// Either side of the progress bank of image 1.
    Progress2,
    /// A gate of the progress bank of image 1.
    Progress2Gate,
    /// The scratch page of image 1.
    Scratch2,
}

fn is_within(at: u32, size: u32, place: u32) -> bool
    requires { at + size < 2 ^ 32 }
    ensures { result ≡ within at size place }
{
    at <= place && place < at + size
}

impl Region {
    /// Whether it counts writes of a gate alone.
    pub fn is_gate(self) -> bool
        ensures { result ≡ is_gate self }
    {
        matches!(
            self,
            Region::ProgressGate | Region::SettingsGate | Region::Progress2Gate
        )
    }

    /// Where it lies. `Any`, and on a flash of one image each region of image 1, has no bytes.
    fn area(self, geometry: Geometry) -> Area
        requires { IsTrue (is_lawful geometry) }
        ensures at { result.at ≡ region_at geometry self }
        ensures length { result.length ≡ region_size geometry self }
        ensures small { result.at + result.length < 2 ^ 32 }
    {
        let slot = geometry.slot_size();
        let first = geometry.first_size();
        let second = if geometry.images == 2 { 1 } else { 0 };
        let (at, length) = match self {
            Region::Any => (0, 0),
            Region::Slot0 => (0, slot),
            Region::Slot1 => (slot, slot),
            Region::Progress | Region::ProgressGate => (2 * slot, 8192),
            Region::Scratch => (2 * slot + 8192, geometry.page),
            Region::Settings | Region::SettingsGate => (2 * slot + 8192 + geometry.page, 8192),
            Region::Slot2 => (first, second * slot),
            Region::Slot3 => (first + slot, second * slot),
            Region::Progress2 | Region::Progress2Gate => (first + 2 * slot, second * 8192),
            Region::Scratch2 => (first + 2 * slot + 8192, second * geometry.page),
        };
        Area { at, length }
    }

    /// Whether the place lies in the region.
    pub fn begins(self, geometry: Geometry, at: u32) -> bool
        requires { IsTrue (is_lawful geometry) }
        ensures { result ≡ begins_in geometry self at }
    {
        if self == Region::Any {
            return true;
        }
        let area = self.area(geometry);
        is_within(area.at, area.length, at)
    }
}
