// The sizes of a flash.
ghost use Rattle.std.specs.Prelude.{◌≡◌, ◌≤◌, ◌*◌, ◌^◌, IsTrue};
ghost use Rattle.smp_flash.specs.Geometry.{is_page, is_unit, are_slot_pages, are_images, is_lawful, slot_size, first_size, size_of};

/// The sizes of a flash, in bytes but for the last two.
#[derive(Clone, Copy, Debug, PartialEq, Eq)]
pub struct Geometry {
    /// What is erased at once: 512, 1024, 2048 or 4096 bytes.
    pub page: u32,
    /// What is written at once: 1, 2, 4 or 8 bytes.
    pub unit: u32,
    /// The pages of each slot: 4 to 1024.
    pub slot_pages: u32,
    /// How many images the flash holds, each with two slots, a progress bank and a scratch page of its own: 1 or 2.
    pub images: u32,
}

fn is_page(size: u32) -> bool
    ensures { result ≡ is_page size }
{
    size == 512 || size == 1024 || size == 2048 || size == 4096
}

fn is_unit(size: u32) -> bool
    ensures { result ≡ is_unit size }
{
    size == 1 || size == 2 || size == 4 || size == 8
}

fn are_slot_pages(count: u32) -> bool
    ensures { result ≡ are_slot_pages count }
{
    4 <= count && count <= 1024
}

fn are_images(count: u32) -> bool
    ensures { result ≡ are_images count }
{
    count == 1 || count == 2
}

impl Geometry {
    /// Whether the sizes are some that a flash may have.
    pub fn is_lawful(self) -> bool
        ensures { result ≡ is_lawful self }
    {
        is_page(self.page)
            && is_unit(self.unit)
            && are_slot_pages(self.slot_pages)
            && are_images(self.images)
    }

    /// The bytes of a slot: at most 4194304.
    pub fn slot_size(self) -> u32
        requires { IsTrue (is_lawful self) }
        ensures size { result ≡ slot_size self }
        ensures small { result ≤ 2 ^ 22 }
        ensures page { self.page ≤ 4096 }
    {
        self.page * self.slot_pages
    }

    /// The bytes of a flash of one image of these sizes.
    pub fn first_size(self) -> u32
        requires { IsTrue (is_lawful self) }
        ensures size { result ≡ first_size self }
        ensures small { result ≤ 2 ^ 24 }
    {
        2 * self.slot_size() + 16384 + self.page
    }

    /// The bytes of the whole flash.
    pub fn size(self) -> u32
        requires { IsTrue (is_lawful self) }
        ensures size { result ≡ size_of self }
        ensures small { result ≤ 2 ^ 25 }
    {
        if self.images == 2 {
            return self.first_size() + 2 * self.slot_size() + 8192 + self.page;
        }
        self.first_size()
    }
}
