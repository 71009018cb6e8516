// A map of settings, in ascending order of their names.
ghost use Rattle.std.specs.Prelude.{◌≡◌, ◌↔◌, ◌+◌, ◌<◌, ◌≤◌, [], ◌∷◌, ◌++◌, length, filter, flat_map, option_map, nat_le, is_none, ◌&&◌, Some, None, IsSome, IfSome, IsTrue, true};
ghost use Rattle.std.specs.Option.{IfNone};
ghost use Rattle.smp_model.specs.Named.{comes_before, named, is_ascending};
ghost use Rattle.smp_model.specs.Settings.{setting, value_of, written_setting, deleted_setting, is_full, stored_form};
ghost use Rattle.smp_settings.specs.Places.{StandsAt, PartedAt};

use crate::entry::{Entry, comes_before};
use arrayvec::ArrayVec;
use std::marker::Model;

/// How many settings there may be.
pub const MOST: usize = 32;

/// How many bytes their stored form may have.
pub const LONGEST_FORM: usize = 3072;

/// At most 32 settings in ascending order of their names, which contracts see as a list.
#[derive(Drop)]
pub struct Table {
    entries: ArrayVec<Entry, 32>,
}

impl Model for Table {
    ghost use Rattle.std.specs.Prelude.{List};
    ghost use Rattle.smp_model.specs.declared.setting.Setting.{Setting};

    ghost Value = { List Setting };

    ghost view = { λ table. table.entries.items };
}

impl Table {
    /// No settings.
    pub fn new() -> Table
        ensures { result ≡ [] }
    {
        Table {
            entries: ArrayVec::new(),
        }
    }

    /// How many settings there are.
    pub fn count(&self) -> usize
        ensures count { result ≡ length self.now }
        ensures most { result ≤ 32 }
    {
        self.entries.len()
    }

    /// The settings, in their order.
    pub fn as_slice(&self) -> &[Entry]
        ensures value { result.now ≡ self.now }
        ensures most { length result.now ≤ 32 }
    {
        self.entries.as_slice()
    }

    /// The same settings once more.
    pub fn copy(&self) -> Table
        ensures { result ≡ self.now }
    {
        let mut entries = ArrayVec::new();
        for entry in self.as_slice() {
            entries.push(entry.copy());
        }
        Table { entries }
    }

    /// Where the setting of this name stands.
    fn find(&self, name: &str) -> Option<usize>
        ensures found { IfSome result (λ at. StandsAt at name.now self.now) }
        ensures none { IfNone result (named (λ s. s.name) name.now self.now ≡ None) }
    {
        let entries = self.as_slice();
        for i in 0..entries.len() {
            if entries[i].is_named(name) {
                return Some(i);
            }
        }
        None
    }

    /// The value of a name.
    pub fn value(&self, name: &str) -> Option<&[u8]>
        ensures val { option_map (λ val. val.now) result ≡ value_of name.now self.now }
        ensures most { IfSome result (λ val. length val.now ≤ 128) }
    {
        match self.find(name) {
            Some(at) => Some(self.entries[at].val()),
            None => None,
        }
    }

    /// How many of the first names come before this one.
    fn rank(&self, name: &str) -> usize
        requires sorted { is_ascending (λ s. s.name) self.now ≡ true }
        requires new { named (λ s. s.name) name.now self.now ≡ None }
        ensures { PartedAt result (filter (λ s. comes_before s.name name.now) self.now) (filter (λ s. comes_before name.now s.name) self.now) self.now }
    {
        let entries = self.as_slice();
        for i in 0..entries.len() {
            if !comes_before(entries[i].name(), name) {
                return i;
            }
        }
        entries.len()
    }

    /// Takes out the setting of a name, where there is one. Answers whether there was.
    pub fn remove(&mut self, name: &str) -> bool
        requires sorted { is_ascending (λ s. s.name) self.old ≡ true }
        ensures there { IsTrue result ↔ IsSome (value_of name.now self.old) }
        ensures removed { self.new ≡ deleted_setting name.now self.old }
    {
        match self.find(name) {
            Some(at) => {
                self.entries.remove(at);
                true
            }
            None => false,
        }
    }

    /// Gives a name a value, where there is room for it.
    pub fn put(&mut self, name: &str, val: &[u8])
        requires name { length name.now ≤ 32 }
        requires val { length val.now ≤ 128 }
        requires sorted { is_ascending (λ s. s.name) self.old ≡ true }
        requires room { length (written_setting name.now val.now self.old) ≤ 32 }
        ensures { self.new ≡ written_setting name.now val.now self.old }
    {
        self.remove(name);
        let at = self.rank(name);
        self.entries.insert(at, Entry::new(name, val));
    }

    /// Adds a setting at the end.
    pub fn push(&mut self, entry: Entry)
        requires { length self.old < 32 }
        ensures { self.new ≡ self.old ++ entry ∷ [] }
    {
        self.entries.push(entry);
    }

    /// The length of the stored form.
    pub fn form_length(&self) -> usize
        ensures length { result ≡ length (stored_form self.now) }
        ensures most { result ≤ 5186 }
    {
        let mut sum = 2;
        for entry in self.as_slice() {
            sum += 2 + entry.name().len() + entry.val().len();
        }
        sum
    }

    /// The length of the stored form without the setting of this name.
    fn length_without(&self, name: &str) -> usize
        ensures length { result ≡ length (stored_form (deleted_setting name.now self.now)) }
        ensures most { result ≤ 5186 }
    {
        let mut sum = 2;
        for entry in self.as_slice() {
            if !entry.is_named(name) {
                sum += 2 + entry.name().len() + entry.val().len();
            }
        }
        sum
    }

    /// Whether a name is new and 32 settings are there.
    fn lacks_place(&self, name: &str) -> bool
        ensures { result ≡ (is_none (value_of name.now self.now) && nat_le 32 (length self.now)) }
    {
        self.value(name).is_none() && self.count() >= MOST
    }

    /// Whether there is no room for this name with this value: it is new and 32 settings are there, or the stored form would
    /// have more than 3072 bytes.
    pub fn is_full(&self, name: &str, val: &[u8]) -> bool
        requires name { length name.now ≤ 32 }
        requires val { length val.now ≤ 128 }
        requires sorted { is_ascending (λ s. s.name) self.now ≡ true }
        ensures { result ≡ is_full name.now val.now self.now }
    {
        if self.lacks_place(name) {
            return true;
        }
        self.length_without(name) + 2 + name.len() + val.len() > LONGEST_FORM
    }
}
