// How the running settings differ from the saved ones: by the change of one name, or by more.
ghost use Rattle.std.specs.Prelude.{◌≡◌, ◌≢◌, true, false, None, IsTrue, IfSome};
ghost use Rattle.smp_model.specs.Settings.{is_within_limits};
ghost use Rattle.smp_settings.specs.Cells.{CellChange, is_change};
ghost use Rattle.smp_settings.specs.Changes.{change_said};
ghost use Rattle.smp_settings.specs.Places.{CellSaves, CommonFront, Differs, FirstGiven, FirstsSame, HeadsDiffer, IsOneChange, OneAhead, Renewed};

use crate::cell::{Change, write_cell};
use crate::entry::Entry;
use crate::table::Table;
use arrayvec::ArrayVec;

/// Whether both are the same settings, in the same order.
pub fn is_same(one: &[Entry], other: &[Entry]) -> bool
    ensures same { IsTrue result → one.now ≡ other.now }
    ensures differ { result ≡ false → one.now ≢ other.now }
{
    if one.len() != other.len() {
        return false;
    }
    for i in 0..one.len() {
        if !one[i].is_same(&other[i]) {
            return false;
        }
    }
    true
}

/// Whether both have a first setting, and it is the same.
fn are_firsts_same(one: &[Entry], other: &[Entry]) -> bool
    ensures same { IsTrue result → FirstsSame one.now other.now }
    ensures differ { result ≡ false → HeadsDiffer one.now other.now }
{
    if one.is_empty() || other.is_empty() {
        return false;
    }
    one[0].is_same(&other[0])
}

/// How many settings at the front of both are the same.
fn common_front(one: &[Entry], other: &[Entry]) -> usize
    ensures { CommonFront result one.now other.now }
{
    for i in 0..one.len() {
        if !are_firsts_same(&one[i..], &other[i..]) {
            return i;
        }
    }
    one.len()
}

/// Whether the longer one is the shorter one with a setting before it.
fn is_one_ahead(longer: &[Entry], shorter: &[Entry]) -> bool
    ensures ahead { IsTrue result → OneAhead longer.now shorter.now }
    ensures not_ahead { result ≡ false → OneAhead longer.now shorter.now → ⊥ }
{
    if longer.is_empty() {
        return false;
    }
    is_same(&longer[1..], shorter)
}

/// Whether the first settings have the same name, and all others are the same.
fn is_first_renewed(one: &[Entry], other: &[Entry]) -> bool
    ensures renewed { IsTrue result → Renewed one.now other.now }
    ensures not_renewed { result ≡ false → Renewed one.now other.now → ⊥ }
{
    if one.is_empty() || other.is_empty() {
        return false;
    }
    if !one[0].is_named(other[0].name()) {
        return false;
    }
    is_same(&one[1..], &other[1..])
}

/// Whether the running settings have a first one that was given: a new one, or one with another value.
fn is_first_given(saved: &[Entry], running: &[Entry]) -> bool
    ensures given { IsTrue result → FirstGiven saved.now running.now }
    ensures not_given { result ≡ false → FirstGiven saved.now running.now → ⊥ }
{
    if is_one_ahead(running, saved) {
        return true;
    }
    is_first_renewed(saved, running)
}

/// The change between settings whose first ones differ.
fn first_change<'a>(saved: &'a [Entry], running: &'a [Entry]) -> Option<Change<'a>>
    ensures found { IfSome result (λ change. Differs (change_said change) saved.now running.now) }
    ensures none { result ≡ None → (change : CellChange) → Differs change saved.now running.now → ⊥ }
{
    if is_first_given(saved, running) {
        return Some(Change::Given {
            name: running[0].name(),
            val: running[0].val(),
        });
    }
    if is_one_ahead(saved, running) {
        return Some(Change::Removed {
            name: saved[0].name(),
        });
    }
    None
}

/// The change of one name that leads from the saved settings to the running ones, which differ from them. `None` exactly where
/// it takes more.
fn find_change<'a>(saved: &'a Table, running: &'a Table) -> Option<Change<'a>>
    requires saved { is_within_limits saved.now ≡ true }
    requires running { is_within_limits running.now ≡ true }
    requires differ { running.now ≢ saved.now }
    ensures found { IfSome result (λ change. IsOneChange (change_said change) saved.now running.now) }
    ensures lawful { IfSome result (λ change. is_change (change_said change) ≡ true) }
    ensures none { result ≡ None → (change : CellChange) → IsOneChange change saved.now running.now → ⊥ }
{
    let one = saved.as_slice();
    let other = running.as_slice();
    let at = common_front(one, other);
    first_change(&one[at..], &other[at..])
}

/// Writes the cell of the change that leads from the saved settings to the running ones, which differ from them. Answers
/// whether one change of a name does; else nothing is written.
pub fn write_change(saved: &Table, running: &Table, out: &mut ArrayVec<u8, 168>) -> bool
    requires saved { is_within_limits saved.now ≡ true }
    requires running { is_within_limits running.now ≡ true }
    requires differ { running.now ≢ saved.now }
    ensures one { IsTrue result → CellSaves saved.now running.now out.new.items }
    ensures more { result ≡ false → (change : CellChange) → IsOneChange change saved.now running.now → ⊥ }
    ensures untouched { result ≡ false → out.new.items ≡ out.old.items }
{
    match find_change(saved, running) {
        Some(change) => {
            write_cell(&change, out);
            true
        }
        None => false,
    }
}
