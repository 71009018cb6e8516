// Why a part of a file is not stored.

/// Why a part of a file is not stored. The files are then as before.
#[derive(Clone, Copy, Debug, PartialEq, Eq)]
pub enum FileFault {
    /// The name has no byte or more than 64.
    NameLength,
    /// The first part doesn't announce the file's length.
    NoLength,
    /// A length of more than 16384 bytes is announced.
    TooLong,
    /// The part would end behind the announced length.
    PastEnd,
    /// The name is new, and 8 files are there.
    NoFree,
    /// There is no file of this name to go on with.
    NoFile,
}
