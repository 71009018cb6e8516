// What is kept of the bytes that an image's hash is of, while a file's bytes are added.
ghost use Rattle.std.specs.Prelude.{◌<◌};

/// The first bytes of a header, until all 32 are there.
#[derive(Clone, Copy, Debug)]
pub struct Front {
    pub bytes: [u8; 32],
    pub count: usize,
    ghost few: { count < 32 },
}

/// How many bytes an image's hash is of, by its header, and how many of them are missing.
#[derive(Clone, Copy, Debug)]
pub struct Awaited {
    pub covered: u64,
    pub left: u64,
    ghost some: { 0 < left },
}

/// How many bytes an image's hash is of, by its header, and their SHA-256.
#[derive(Clone, Copy, Debug)]
pub struct Kept {
    pub covered: u64,
    pub digest: [u8; 32],
}

/// How far the bytes have come that an image's hash is of.
#[derive(Clone, Copy, Debug)]
pub enum Covered {
    /// The header is not whole.
    Header(Front),
    /// The header is whole, and covered bytes are missing.
    Awaited(Awaited),
    /// All covered bytes were added.
    Kept(Kept),
    /// The header is not an image's.
    Nothing,
}
