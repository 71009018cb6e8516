// The regions of an image of a flash, each by its place and length.
ghost use Rattle.std.specs.Prelude.{◌≡◌, ◌≢◌, ◌<◌, ◌≤◌, ◌^◌, IsTrue, IfOk, IfSome, None};
ghost use Rattle.std.specs.Option.{ForSome};
ghost use Rattle.smp_flash.specs.Geometry.{is_lawful, size_of, Regular};

use crate::geometry::Geometry;

/// The bytes of one side of a bank.
pub const SIDE: u32 = 4096;

/// A part of a flash: the place of its first byte, and how many bytes it has.
#[derive(Clone, Copy, Debug, PartialEq, Eq)]
pub struct Area {
    /// The place of its first byte.
    pub at: u32,
    /// How many bytes it has.
    pub length: u32,
}

/// The two sides of a bank.
#[derive(Clone, Copy, Debug, PartialEq, Eq)]
pub struct BankPlace {
    /// The side that is read first, and wins where both have one generation.
    pub first: Area,
    /// The other side.
    pub second: Area,
}

/// The regions of one image of a flash of these sizes, and the settings bank, which all images share.
///
/// They lie apart and inside the flash, also from those of the other image, and each has whole pages.
#[derive(Clone, Copy)]
pub struct Layout {
    geometry: Geometry,
    image: u32,
    ghost lawful: { IsTrue (is_lawful geometry) },
    ghost there: { image < geometry.images },
}

impl Layout {
    ghost use Rattle.smp_flash.specs.Region.{start_of};
    ghost use Rattle.smp_flash.specs.Layout.{geometry_of, image_of, slot_of, progress_of, scratch_of, settings_of, bank_at, Arranged};

    /// The two sides that lie one behind the other from there on.
    fn bank_from(at: u32) -> BankPlace
        requires { at ≤ 2 ^ 25 }
        ensures { result ≡ bank_at at }
    {
        BankPlace {
            first: Area { at, length: SIDE },
            second: Area {
                at: at + SIDE,
                length: SIDE,
            },
        }
    }

    /// The regions of image 0 of a flash of these sizes.
    pub fn of(geometry: Geometry) -> Layout
        requires { IsTrue (is_lawful geometry) }
        ensures geometry { geometry_of result ≡ geometry }
        ensures image { image_of result ≡ 0 }
    {
        Layout { geometry, image: 0 }
    }

    /// The regions of image 1 of a flash of these sizes: none exactly where it holds one image.
    pub fn second(geometry: Geometry) -> Option<Layout>
        requires { IsTrue (is_lawful geometry) }
        ensures none { (result ≡ None → geometry.images ≡ 1) × (geometry.images ≡ 1 → result ≡ None) }
        ensures geometry { ForSome result (λ layout. geometry_of layout ≡ geometry) }
        ensures image { ForSome result (λ layout. image_of layout ≡ 1) }
    {
        if geometry.images == 1 {
            return None;
        }
        Some(Layout { geometry, image: 1 })
    }

    /// Which image it is: 0 or 1.
    pub fn image(&self) -> u32
        ensures { result ≡ image_of self.now }
    {
        self.image
    }

    /// The sizes of the flash.
    pub fn geometry(&self) -> Geometry
        ensures same { result ≡ geometry_of self.now }
        ensures lawful { IsTrue (is_lawful result) }
        ensures regular { Regular result }
        ensures arranged { Arranged self.now }
    {
        self.geometry
    }

    /// Where the regions of the image begin.
    fn start(&self) -> u32
        ensures at { result ≡ start_of (geometry_of self.now) (image_of self.now) }
        ensures small { result ≤ 2 ^ 24 }
    {
        if self.image == 0 {
            return 0;
        }
        self.geometry.first_size()
    }

    /// A slot of the image: 0 the primary one, 1 the secondary one.
    pub fn slot(&self, n: u32) -> Area
        requires { n ≤ 1 }
        ensures { result ≡ slot_of self.now n }
    {
        let length = self.geometry.slot_size();
        Area {
            at: self.start() + n * length,
            length,
        }
    }

    /// The bank of the upload's record.
    pub fn progress(&self) -> BankPlace
        ensures { result ≡ progress_of self.now }
    {
        Layout::bank_from(self.start() + 2 * self.geometry.slot_size())
    }

    /// The page that holds what a rescue moves.
    pub fn scratch(&self) -> Area
        ensures { result ≡ scratch_of self.now }
    {
        Area {
            at: self.start() + 2 * self.geometry.slot_size() + 2 * SIDE,
            length: self.geometry.page,
        }
    }

    /// The bank of the saved settings: the same for both images.
    pub fn settings(&self) -> BankPlace
        ensures { result ≡ settings_of self.now }
    {
        Layout::bank_from(2 * self.geometry.slot_size() + 2 * SIDE + self.geometry.page)
    }

    /// The bytes of the whole flash.
    pub fn size(&self) -> u32
        ensures { result ≡ size_of (geometry_of self.now) }
    {
        self.geometry.size()
    }
}
