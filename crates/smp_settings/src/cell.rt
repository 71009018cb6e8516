// A cell of the settings bank: one change, as it is read, made and written.
ghost use Rattle.std.specs.Prelude.{◌≡◌, ◌+◌, ◌-◌, ◌≤◌, [], ◌∷◌, ◌++◌, length, replicate, option_map, Some, None, IfSome, true, if◌then◌else◌};
ghost use Rattle.arrayvec.specs.ArrayVec.{array_vec_len};
ghost use Rattle.smp_model.specs.Settings.{setting, is_within_limits, counted_in, next_setting};
ghost use Rattle.smp_settings.specs.Cells.{are_zeros, gives_by, removes_by, lawful_only, is_change, change_in, changed_by, after_cell, change_bytes, cell_of};
ghost use Rattle.smp_settings.specs.Changes.{change_said};

use crate::form::{name_text, read_counted, read_next};
use crate::table::Table;
use arrayvec::ArrayVec;

/// The bytes of a cell.
pub const CELL: u32 = 168;

/// The kind of a cell whose setting was written.
const GIVEN: u8 = 1;

/// The kind of a cell whose setting was deleted.
const REMOVED: u8 = 2;

/// A change of one name.
#[derive(Clone, Copy)]
pub enum Change<'a> {
    /// The name has this value now.
    Given {
        /// The name.
        name: &'a str,
        /// Its value.
        val: &'a [u8],
    },
    /// The name is gone.
    Removed {
        /// The name.
        name: &'a str,
    },
}

/// Whether all bytes are 00.
fn all_zeros(bytes: &[u8]) -> bool
    ensures { result ≡ are_zeros bytes.now }
{
    for byte in bytes {
        if *byte != 0 {
            return false;
        }
    }
    true
}

/// The change of a cell of a setting that was written, behind its kind.
fn read_given<'a>(bytes: &'a [u8]) -> Option<Change<'a>>
    ensures { option_map change_said result ≡ lawful_only (gives_by (next_setting bytes.now)) }
{
    let Some(next) = read_next(bytes) else {
        return None
    };
    if !all_zeros(next.rest) || next.val.len() > 128 {
        return None;
    }
    match name_text(next.name) {
        Some(name) => Some(Change::Given {
            name,
            val: next.val,
        }),
        None => None,
    }
}

/// The change of a cell of a setting that was deleted, behind its kind.
fn read_removed<'a>(bytes: &'a [u8]) -> Option<Change<'a>>
    ensures { option_map change_said result ≡ lawful_only (removes_by (counted_in bytes.now)) }
{
    let Some(counted) = read_counted(bytes) else {
        return None
    };
    if !all_zeros(counted.rest) {
        return None;
    }
    match name_text(counted.bytes) {
        Some(name) => Some(Change::Removed { name }),
        None => None,
    }
}

/// The change that a cell says. None exactly where it isn't lawful.
fn read_change<'a>(cell: &'a [u8]) -> Option<Change<'a>>
    ensures said { option_map change_said result ≡ change_in cell.now }
    ensures lawful { IfSome result (λ change. is_change (change_said change) ≡ true) }
{
    if cell.is_empty() {
        return None;
    }
    if cell[0] == GIVEN {
        return read_given(&cell[1..]);
    }
    if cell[0] == REMOVED {
        return read_removed(&cell[1..]);
    }
    None
}

/// Makes the change, where there is room for it. Answers whether there is.
fn make_change(change: Change<'_>, table: &mut Table) -> bool
    requires lawful { is_change (change_said change) ≡ true }
    requires within { is_within_limits table.old ≡ true }
    ensures changed { changed_by table.old (Some (change_said change.entry)) ≡ (if result then Some table.new else None) }
    ensures within { is_within_limits table.new ≡ true }
{
    match change {
        Change::Given { name, val } => {
            if table.is_full(name, val) {
                return false;
            }
            table.put(name, val);
            true
        }
        Change::Removed { name } => {
            table.remove(name);
            true
        }
    }
}

/// Makes the change that a cell says. Answers whether the cell is lawful there. If not, nothing changes.
pub fn apply_cell(cell: &[u8], table: &mut Table) -> bool
    requires within { is_within_limits table.old ≡ true }
    ensures changed { after_cell cell.now (Some table.old) ≡ (if result then Some table.new else None) }
    ensures within { is_within_limits table.new ≡ true }
{
    match read_change(cell) {
        Some(change) => make_change(change, table),
        None => false,
    }
}

/// Appends a text behind its length in a byte.
fn put_counted(bytes: &[u8], out: &mut ArrayVec<u8, 168>)
    requires few { length bytes.now ≤ 128 }
    requires room { array_vec_len out.old + 1 + length bytes.now ≤ 168 }
    ensures { out.new.items ≡ out.old.items ++ length bytes.now ∷ bytes.now }
{
    out.push(bytes.len() as u8);
    let fits = out.try_extend_from_slice(bytes).is_ok();
    prove!(fits);
}

/// Fills a cell with 00 to its end.
fn fill(out: &mut ArrayVec<u8, 168>)
    ensures { out.new.items ≡ out.old.items ++ replicate (168 - length out.old.items) 0 }
{
    for _ in out.len()..CELL as usize {
        out.push(0);
    }
}

/// Writes the cell of a change.
pub fn write_cell(change: &Change<'_>, out: &mut ArrayVec<u8, 168>)
    requires { is_change (change_said change.now) ≡ true }
    ensures { out.new.items ≡ cell_of (change_said change.now) }
{
    out.clear();
    match change {
        Change::Given { name, val } => {
            out.push(GIVEN);
            put_counted(name.as_bytes(), out);
            put_counted(val, out);
        }
        Change::Removed { name } => {
            out.push(REMOVED);
            put_counted(name.as_bytes(), out);
        }
    }
    fill(out);
}
