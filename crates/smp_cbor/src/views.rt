//! Maps, lists and items that lend the bytes that they were read from.

ghost use Rattle.std.specs.Prelude.{◌≡◌, ◌∷◌, [], length, Ok, Some, None, option_map, if◌then◌else◌, IfSome, IfNone, MatchOption};
ghost use Rattle.std.specs.Str.{bytes_eq};
ghost use Rattle.smp_cbor.specs.Values.{value_at, list_values, map_entries};
ghost use Rattle.smp_cbor.specs.Walks.{texts_of};
ghost use Rattle.smp_cbor.specs.Views.{IsPart, entries, rest_of, value_of, values_of, look_up, look_up_each, or_else, or_else_each, noted, after_first, map_bytes, list_bytes, item_bytes};

use crate::heads::Head;
use crate::keys::{key_at, pairs_of};
use crate::skipping::{after_break, head_at, octets_of, skip_item, text_of, turns_of};

/// A value. Strings, lists and maps lend the bytes that they were read from.
#[derive(Clone, Copy, Debug, PartialEq, Eq)]
pub enum Item<'a> {
    /// The number itself.
    Unsigned(u64),
    /// The number -1 - n, by its n.
    Negative(u64),
    Octets(&'a [u8]),
    Text(&'a str),
    List(ListView<'a>),
    /// A map whose keys are texts, no two of them the same.
    Map(MapView<'a>),
    Bool(bool),
    Null,
    /// A tag, a float, a simple value that has no variant here, or a map with other keys.
    Other,
}

/// The items of a list that were not taken yet. Two are equal where their bytes are, to the end of the data.
#[derive(Clone, Copy, Debug, PartialEq, Eq)]
pub struct ListView<'a> {
    depth: u8,
    until_break: bool,
    turns: u64,
    bytes: &'a [u8],
}

/// The pairs of a map. Each key is a text, and no two are the same text. Two are equal where their bytes are, to the end
/// of the data.
#[derive(Clone, Copy, Debug, PartialEq, Eq)]
pub struct MapView<'a> {
    depth: u8,
    until_break: bool,
    turns: u64,
    bytes: &'a [u8],
}

/// The value of the item at the front, in which lists, maps and tags may stand `depth` deep.
#[tactic(auto, unfolding(crate::specs::Values::value_at))]
fn item_of(depth: u8, bytes: &[u8]) -> Item<'_>
    ensures value { value_of result ≡ value_at depth bytes.now }
    ensures lent { IsPart (item_bytes result) bytes.now }
{
    let Ok((head, rest)) = head_at(bytes) else {
        return Item::Other;
    };
    match head {
        Head::Unsigned(number) => Item::Unsigned(number),
        Head::Negative(number) => Item::Negative(number),
        Head::Bool(value) => Item::Bool(value),
        Head::Null => Item::Null,
        Head::Other | Head::Tag => Item::Other,
        Head::Octets(length) => match octets_of(bytes, length, rest) {
            Ok((octets, _)) => Item::Octets(octets),
            Err(_) => Item::Other,
        },
        Head::Text(length) => match text_of(bytes, length, rest) {
            Ok((text, _)) => Item::Text(text),
            Err(_) => Item::Other,
        },
        Head::List(_) | Head::Map(_) if depth == 0 => Item::Other,
        Head::List(count) => Item::List(ListView::behind_head(depth - 1, count, rest)),
        Head::Map(count) => match pairs_of(depth - 1, count, rest) {
            Ok(_) => Item::Map(MapView::behind_head(depth - 1, count, rest)),
            Err(_) => Item::Other,
        },
    }
}

/// Notes the item at the front in the place of its key, where nothing was noted before.
fn note<'a>(found: &mut [Option<Item<'a>>], keys: &[&str], key: &[u8], depth: u8, bytes: &'a [u8])
    requires { length found.old ≡ length keys.now }
    ensures { let value = value_at depth bytes.now in
        values_of found.new ≡ noted key.now value (texts_of keys.now) (values_of found.old) }
{
    for (i, wanted) in keys.iter().enumerate() {
        note_in(&mut found[i], wanted, key, depth, bytes);
    }
}

/// Notes the item at the front in one place.
fn note_in<'a>(place: &mut Option<Item<'a>>, wanted: &str, key: &[u8], depth: u8, bytes: &'a [u8])
    ensures { let value = (if bytes_eq key.now wanted.now then Some (value_at depth bytes.now) else None) in
        option_map value_of place.new ≡ or_else (option_map value_of place.old) value }
{
    if place.is_none() && key == wanted.as_bytes() {
        *place = Some(item_of(depth, bytes));
    }
}

impl<'a> MapView<'a> {
    /// The pairs behind a map's head, in which lists, maps and tags may stand `depth` deep.
    pub(crate) fn behind_head(depth: u8, count: Option<u64>, content: &'a [u8]) -> Self
        ensures pairs { entries result ≡ map_entries depth (value_at depth) count content.now }
        ensures lent { map_bytes result ≡ content.now }
    {
        MapView {
            depth,
            until_break: count.is_none(),
            turns: turns_of(count, content),
            bytes: content,
        }
    }

    /// The value of a key, or `None` where the map has no such key.
    #[tactic(auto, using(crate::proofs::Steps::steps), unfolding(crate::specs::Values::pairs_from))]
    pub fn find(&self, key: &str) -> Option<Item<'a>>
        ensures value { option_map value_of result ≡ look_up key.now (entries self.now) }
        ensures lent { IfSome result (λ item. IsPart (item_bytes item) (map_bytes self.now)) }
    {
        let mut rest = self.bytes;
        for _ in 0..self.turns {
            if after_break(self.until_break, rest).is_some() {
                return None;
            }
            let Ok((other, after)) = key_at(rest) else {
                return None;
            };
            if other == key.as_bytes() {
                return Some(item_of(self.depth, after));
            }
            let Ok(next) = skip_item(self.depth, after) else {
                return None;
            };
            rest = next;
        }
        None
    }

    /// Finds the value of each key, all in one walk over the pairs. Each place of `found` that is `None` gets
    /// the value of the key in the same place of `keys`, where the map has that key. A place that holds a
    /// value keeps it.
    pub fn find_each(&self, keys: &[&str], found: &mut [Option<Item<'a>>])
        requires { length found.old ≡ length keys.now }
        ensures { let values = look_up_each (texts_of keys.now) (entries self.now) in
            values_of found.new ≡ or_else_each (values_of found.old) values }
    {
        let mut rest = self.bytes;
        for _ in 0..self.turns {
            if after_break(self.until_break, rest).is_some() {
                return;
            }
            let Ok((key, after)) = key_at(rest) else {
                return;
            };
            note(found, keys, key, self.depth, after);
            let Ok(next) = skip_item(self.depth, after) else {
                return;
            };
            rest = next;
        }
    }

    /// How many pairs there are.
    #[tactic(auto, using(crate::proofs::Steps::steps), unfolding(crate::specs::Values::pairs_from))]
    pub fn len(&self) -> usize
        ensures { result ≡ length (entries self.now) }
    {
        let mut rest = self.bytes;
        for pair in 0..self.turns {
            if after_break(self.until_break, rest).is_some() {
                return pair as usize;
            }
            let Ok((_, after)) = key_at(rest) else {
                return pair as usize;
            };
            let Ok(next) = skip_item(self.depth, after) else {
                return pair as usize + 1;
            };
            rest = next;
        }
        self.turns as usize
    }
}

impl<'a> ListView<'a> {
    /// The items behind a list's head, in which lists, maps and tags may stand `depth` deep.
    fn behind_head(depth: u8, count: Option<u64>, content: &'a [u8]) -> Self
        ensures items { rest_of result ≡ list_values depth (value_at depth) count content.now }
        ensures lent { list_bytes result ≡ content.now }
    {
        ListView {
            depth,
            until_break: count.is_none(),
            turns: turns_of(count, content),
            bytes: content,
        }
    }

    /// Takes the next value, or answers `None` at the end.
    #[tactic(auto, unfolding(crate::specs::Values::values_from))]
    pub fn next(&mut self) -> Option<Item<'a>>
        ensures value { MatchOption result (rest_of self.old ≡ [])
            (λ item. rest_of self.old ≡ value_of item ∷ rest_of self.new) }
        ensures end { IfNone result (self.new ≡ self.old) }
        ensures lent { IfSome result (λ item. IsPart (item_bytes item) (list_bytes self.old)) }
        ensures left { IfSome result (λ item. after_first self.old ≡ Ok (list_bytes self.new)) }
        ensures part { IsPart (list_bytes self.new) (list_bytes self.old) }
    {
        if self.turns == 0 {
            return None;
        }
        if after_break(self.until_break, self.bytes).is_some() {
            return None;
        }
        let Ok(rest) = skip_item(self.depth, self.bytes) else {
            return None;
        };
        let item = item_of(self.depth, self.bytes);
        self.bytes = rest;
        self.turns -= 1;
        Some(item)
    }
}
