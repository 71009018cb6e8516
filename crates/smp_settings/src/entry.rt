// One setting, which lies in the value itself.
ghost use Rattle.std.specs.Prelude.{◌≡◌, ◌+◌, ◌≤◌, ◌&&◌, [], length};
ghost use Rattle.std.specs.Str.{bytes_eq};
ghost use Rattle.smp_model.specs.Named.{comes_before};
ghost use Rattle.smp_model.specs.Settings.{setting};

use arrayvec::{ArrayString, ArrayVec};
use std::cmp::Ordering;
use std::marker::Model;

/// One setting: a name of at most 32 bytes and a value of at most 128.
#[derive(Drop)]
pub struct Entry {
    name: ArrayString<32>,
    val: ArrayVec<u8, 128>,
}

impl Model for Entry {
    ghost use Rattle.smp_model.specs.declared.setting.Setting.{Setting};
    ghost use Rattle.smp_model.specs.Settings.{setting};

    ghost Value = { Setting };

    ghost view = { λ entry. setting entry.name.bytes entry.val.items };
}

impl Default for Entry {
    ghost is_default = { λ entry. entry ≡ setting [] [] };

    fn default() -> Self {
        Entry {
            name: ArrayString::new(),
            val: ArrayVec::new(),
        }
    }
}

impl Entry {
    /// A setting of this name, of at most 32 bytes, and this value, of at most 128 bytes.
    pub fn new(name: &str, val: &[u8]) -> Entry
        requires name { length name.now ≤ 32 }
        requires val { length val.now ≤ 128 }
        ensures { result ≡ setting name.now val.now }
    {
        let mut own_name = ArrayString::new();
        own_name.push_str(name);
        let mut own_val = ArrayVec::new();
        let room = own_val.try_extend_from_slice(val).is_ok();
        prove!(room);
        Entry {
            name: own_name,
            val: own_val,
        }
    }

    /// Its name.
    pub fn name(&self) -> &str
        ensures value { result.now ≡ self.now.name }
        ensures fits { length result.now ≤ 32 }
    {
        self.name.as_str()
    }

    /// Its value.
    pub fn val(&self) -> &[u8]
        ensures value { result.now ≡ self.now.val }
        ensures fits { length result.now ≤ 128 }
    {
        self.val.as_slice()
    }

    /// The same setting once more.
    pub fn copy(&self) -> Entry
        ensures { result ≡ self.now }
    {
        Entry::new(self.name(), self.val())
    }

    /// Whether it has this name.
    pub fn is_named(&self, name: &str) -> bool
        ensures { result ≡ bytes_eq self.now.name name.now }
    {
        self.name() == name
    }

    /// Whether the other one has the same name and the same value.
    pub fn is_same(&self, other: &Entry) -> bool
        ensures { result ≡ bytes_eq self.now.name other.now.name && bytes_eq self.now.val other.now.val }
    {
        self.name() == other.name() && self.val() == other.val()
    }
}

/// Whether the first name comes before the second: byte by byte, and a name before the longer ones that it begins.
pub fn comes_before(a: &str, b: &str) -> bool
    ensures { result ≡ comes_before a.now b.now }
{
    a.cmp(b) == Ordering::Less
}
