// The stored form of a map of settings: 01, the count, and for each in order of names the length of its name, the name, the
// length of its value and the value.
ghost use Rattle.std.specs.Prelude.{◌≡◌, ◌+◌, ◌≤◌, [], ◌++◌, length, option_map, Some, None, true, ◌&&◌, if◌then◌else◌};
ghost use Rattle.std.specs.List.{list_all};
ghost use Rattle.std.specs.Str.{is_utf8};
ghost use Rattle.arrayvec.specs.ArrayVec.{array_vec_len};
ghost use Rattle.smp_model.specs.Named.{is_ascending, comes_before};
ghost use Rattle.smp_model.specs.Settings.{setting, is_setting_name, stored_setting, stored_form, counted_in, next_setting, settings_in};
ghost use Rattle.smp_settings.specs.Reading.{counted_read, next_read, LawfulSoFar, Takes, Reads};

use crate::entry::{Entry, comes_before};
use crate::table::{LONGEST_FORM, MOST, Table};
use arrayvec::ArrayVec;
use std::str;

/// A length in a byte and so many bytes, and what is behind them.
#[derive(Clone, Copy)]
pub struct Counted<'a> {
    /// The bytes.
    pub bytes: &'a [u8],
    /// What is behind them.
    pub rest: &'a [u8],
}

/// A setting as it was read, and what is behind it.
#[derive(Clone, Copy)]
pub struct NextSetting<'a> {
    /// The bytes of its name.
    pub name: &'a [u8],
    /// Its value.
    pub val: &'a [u8],
    /// What is behind it.
    pub rest: &'a [u8],
}

/// Reads a length in a byte and so many bytes. None exactly where the bytes end before.
pub fn read_counted<'a>(bytes: &'a [u8]) -> Option<Counted<'a>>
    ensures { option_map counted_read result ≡ counted_in bytes.now }
{
    if bytes.is_empty() {
        return None;
    }
    let size = bytes[0] as usize;
    let rest = &bytes[1..];
    if rest.len() < size {
        return None;
    }
    Some(Counted {
        bytes: &rest[..size],
        rest: &rest[size..],
    })
}

/// Reads a setting. None exactly where the bytes end before.
pub fn read_next<'a>(bytes: &'a [u8]) -> Option<NextSetting<'a>>
    ensures { option_map next_read result ≡ next_setting bytes.now }
{
    match read_counted(bytes) {
        Some(name) => match read_counted(name.rest) {
            Some(val) => Some(NextSetting {
                name: name.bytes,
                val: val.bytes,
                rest: val.rest,
            }),
            None => None,
        },
        None => None,
    }
}

/// The text of a name of 1 to 32 bytes.
pub fn name_text<'a>(name: &'a [u8]) -> Option<&'a str>
    ensures { option_map (λ text. text.now) result ≡ (if is_setting_name name.now && is_utf8 name.now then Some name.now else None) }
{
    if name.is_empty() || name.len() > 32 {
        return None;
    }
    match str::from_utf8(name) {
        Ok(text) => Some(text),
        Err(_) => None,
    }
}

/// Whether a name comes behind all names of the table.
fn comes_last(table: &Table, name: &str) -> bool
    requires sorted { is_ascending (λ s. s.name) table.now ≡ true }
    ensures { result ≡ list_all (λ s. comes_before s.name name.now) table.now }
{
    let entries = table.as_slice();
    if entries.is_empty() {
        return true;
    }
    comes_before(entries[entries.len() - 1].name(), name)
}

/// Adds a setting that was read behind the others, where it may stand there. Answers whether it may.
fn take_setting(table: &mut Table, name: &[u8], val: &[u8]) -> bool
    requires { LawfulSoFar table.old }
    ensures { Takes result (setting name.now val.now) table.old table.new }
{
    let Some(text) = name_text(name) else {
        return false
    };
    if val.len() > 128 || table.count() >= MOST || !comes_last(table, text) {
        return false;
    }
    table.push(Entry::new(text, val));
    true
}

/// Reads so many settings, which are the whole of the bytes.
fn read_settings(bytes: &[u8], count: u8, table: &mut Table) -> bool
    requires { table.old ≡ [] }
    ensures { Reads result count bytes.now table.new }
{
    let mut rest = bytes;
    for _ in 0..count {
        let Some(next) = read_next(rest) else {
            return false
        };
        if !take_setting(table, next.name, next.val) {
            return false;
        }
        rest = next.rest;
    }
    rest.is_empty()
}

/// Reads the settings of a stored form. Answers whether it is one.
pub fn read_form(bytes: &[u8], table: &mut Table) -> bool
    requires { table.old ≡ [] }
    ensures { settings_in bytes.now ≡ (if result then Some table.new else None) }
{
    if bytes.len() < 2 || bytes[0] != 1 {
        return false;
    }
    read_settings(&bytes[2..], bytes[1], table) && table.form_length() <= LONGEST_FORM
}

/// Writes the stored form of the settings.
pub fn write_form(table: &Table, out: &mut ArrayVec<u8, 3072>)
    requires { length (stored_form table.now) ≤ 3072 }
    ensures { out.new.items ≡ stored_form table.now }
{
    out.clear();
    out.push(1);
    out.push(table.count() as u8);
    for entry in table.as_slice() {
        put_setting(entry, out);
    }
}

/// Appends one setting as it is stored: its name and its value, each behind its length in a byte.
fn put_setting(entry: &Entry, out: &mut ArrayVec<u8, 3072>)
    requires { array_vec_len out.old + length (stored_setting entry.now) ≤ 3072 }
    ensures { out.new.items ≡ out.old.items ++ stored_setting entry.now }
{
    out.push(entry.name().len() as u8);
    let named = out.try_extend_from_slice(entry.name().as_bytes()).is_ok();
    prove!(named);
    out.push(entry.val().len() as u8);
    let valued = out.try_extend_from_slice(entry.val()).is_ok();
    prove!(valued);
}
