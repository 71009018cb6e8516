//! Why bytes spell no map, and where the first head is that is refused.

/// What is wrong at a head. Of several causes at one head, the first of this order counts: `NotAMap`; `Short` and
/// `Head` of the head itself; `Key` or `Deep`; `Short` of a string's content; `NotUtf8`; `Repeated`.
#[derive(Clone, Copy, Debug, PartialEq, Eq)]
pub enum CborKind {
    /// The data ends inside an item, or before one that is due.
    Short,
    /// The first byte begins an item of another major type than a map.
    NotAMap,
    /// Low bits 28 to 30; low bits 31 where neither a list or map begins nor a break is due; a simple value below 32
    /// in two bytes (RFC 8949, sections 3 and 3.3).
    Head,
    /// A key of the outer map that is no text.
    Key,
    /// A key of the outer map that came before.
    Repeated,
    /// A list, map or tag at level 9.
    Deep,
    /// A text that is not UTF-8.
    NotUtf8,
    /// Bytes after the map.
    Trailing,
}

/// The first fault of bytes that spell no map.
#[derive(Clone, Copy, Debug, PartialEq, Eq)]
pub struct CborFault {
    /// How many bytes stand before the head that is refused: all of them, where the data ends before a head that is
    /// due. For `Trailing`, how many bytes the map has.
    pub at: usize,
    pub kind: CborKind,
}

/// A fault, by the number of bytes from its head to the end: the same seen from each item around it.
#[derive(Clone, Copy, Debug, PartialEq, Eq)]
pub struct Stop {
    pub left: usize,
    pub kind: CborKind,
}
