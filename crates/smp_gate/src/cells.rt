// The cells of a side: where they stand, how one is written, and which of them count.
ghost use Rattle.std.specs.Prelude.{◌≡◌, ◌≢◌, ◌+◌, ◌-◌, ◌*◌, ◌/◌, ◌%◌, ◌<◌, ◌≤◌, ◌^◌, ◌++◌, length, replicate, [], ℕ, IfOk, OnOk, IfSome, IsTrue, true};
ghost use Rattle.smp_flash.specs.Area.{area, blank, spot, Keeps, Holds, Told};
ghost use Rattle.smp_flash.specs.Calls.{Calls, ReadsAtMost, ChangesAtMost, Smaller};
ghost use Rattle.smp_flash.specs.Geometry.{size_of, Regular};
ghost use Rattle.smp_flash.specs.Region.{gate, counts_write};
ghost use Rattle.smp_flash.specs.State.{ended};
ghost use Rattle.smp_gate.specs.Cells.{filled, filled_cell, span, cells_at, places, gates_from, gate_reads, Used};

use arrayvec::ArrayVec;
use smp_flash::{CallFault, Flash, GATE, read_part, reads_erased, write_part};

/// Whether the gate of each cell that was begun stands. A side has at most 255 cells.
pub type Gates = ArrayVec<bool, 255>;

/// So many bytes, filled to a multiple of 8.
pub fn filled(size: u32) -> u32
    requires { size ≤ 4080 }
    ensures { result ≡ filled size }
{
    size + (8 - size % 8) % 8
}

/// The bytes that a cell takes.
pub fn span(cell: u32) -> u32
    requires { cell ≤ 4080 }
    ensures { result ≡ span cell }
{
    filled(cell) + 8
}

/// Where the cells of a side begin, behind a body of this length.
pub fn cells_at(size: u32) -> u32
    requires { size ≤ 4080 }
    ensures at { result ≡ cells_at size }
    ensures most { result ≤ 4096 }
{
    16 + filled(size)
}

/// How many cells fit behind a body of this length.
pub fn places(cell: u32, size: u32) -> u32
    requires cell { cell ≤ 4080 }
    requires size { size ≤ 4080 }
    ensures { result ≡ places cell size }
{
    (4096 - cells_at(size)) / span(cell)
}

/// Where the cell of this number begins.
pub fn cell_at(side: u32, cell: u32, size: u32, index: u32) -> u32
    requires side { side ≤ 2 ^ 25 }
    requires cell { cell ≤ 4080 }
    requires size { size ≤ 4080 }
    requires low { index < places cell size }
    ensures at { result ≡ side + (cells_at size + index * span cell) }
    ensures inside { result + span cell ≤ side + 4096 }
    ensures eights { side % 8 ≡ 0 → result % 8 ≡ 0 }
{
    side + (cells_at(size) + index * span(cell))
}

/// Zeros that fill a cell to a multiple of 8, behind its bytes.
fn fill_up(into: &mut [u8], cell: &[u8], size: usize)
    requires fits { length cell.now ≤ size }
    requires room { length into.old ≡ size }
    ensures { into.new ≡ cell.now ++ replicate (size - length cell.now) 0 }
{
    into[..cell.len()].copy_from_slice(cell);
    into[cell.len()..].fill(0);
}

/// Writes a cell's bytes with zeros behind them, in one write.
fn write_with_zeros<F: Flash>(flash: &mut F, at: u32, cell: &[u8]) -> Result<(), CallFault>
    requires some { 0 < length cell.now }
    requires fits { length cell.now ≤ 4080 }
    requires begins { at % 8 ≡ 0 }
    requires regular { Regular (F.state flash.old).geometry }
    requires inside { at + filled (length cell.now) ≤ size_of (F.state flash.old).geometry }
    requires free { IfSome (F.state flash.old).bytes (λ held. area at (filled (length cell.now)) held ≡ blank (filled (length cell.now))) }
    ensures calls { Calls (spot at (filled (length cell.now))) (ended result) (F.state flash.old) (F.state flash.new) }
    ensures reads { ReadsAtMost 0 (F.state flash.old).bytes_read (F.state flash.new).bytes_read }
    ensures changes { ChangesAtMost 1 0 (F.state flash.old).changes (F.state flash.new).changes }
    ensures stands { OnOk result (IfSome (F.state flash.new).bytes (λ held. area at (length cell.now) held ≡ cell.now)) }
    ensures laid { OnOk result (IfSome (F.state flash.new).bytes (λ held. area at (filled (length cell.now)) held ≡ filled_cell cell.now)) }
{
    let mut buffer = [0u8; 4080];
    let size = filled(cell.len() as u32) as usize;
    let part = &mut buffer[..size];
    fill_up(part, cell, size);
    write_part(flash, at, part)
}

/// Writes a cell's bytes, filled to a multiple of 8, in one write.
fn write_cell<F: Flash>(flash: &mut F, at: u32, cell: &[u8]) -> Result<(), CallFault>
    requires some { 0 < length cell.now }
    requires fits { length cell.now ≤ 4080 }
    requires begins { at % 8 ≡ 0 }
    requires regular { Regular (F.state flash.old).geometry }
    requires inside { at + filled (length cell.now) ≤ size_of (F.state flash.old).geometry }
    requires free { IfSome (F.state flash.old).bytes (λ held. area at (filled (length cell.now)) held ≡ blank (filled (length cell.now))) }
    ensures calls { Calls (spot at (filled (length cell.now))) (ended result) (F.state flash.old) (F.state flash.new) }
    ensures reads { ReadsAtMost 0 (F.state flash.old).bytes_read (F.state flash.new).bytes_read }
    ensures changes { ChangesAtMost 1 0 (F.state flash.old).changes (F.state flash.new).changes }
    ensures stands { OnOk result (IfSome (F.state flash.new).bytes (λ held. area at (length cell.now) held ≡ cell.now)) }
    ensures laid { OnOk result (IfSome (F.state flash.new).bytes (λ held. area at (filled (length cell.now)) held ≡ filled_cell cell.now)) }
{
    if cell.len() % 8 != 0 {
        return write_with_zeros(flash, at, cell);
    }
    write_part(flash, at, cell)
}

/// Writes a cell on erased bytes: first its own, and when they stand its gate. It counts once the gate stands.
pub fn add_cell<F: Flash>(flash: &mut F, at: u32, cell: &[u8]) -> Result<(), CallFault>
    requires some { 0 < length cell.now }
    requires fits { length cell.now ≤ 4080 }
    requires begins { at % 8 ≡ 0 }
    requires regular { Regular (F.state flash.old).geometry }
    requires inside { at + span (length cell.now) ≤ size_of (F.state flash.old).geometry }
    requires free { IfSome (F.state flash.old).bytes (λ held. area at (span (length cell.now)) held ≡ blank (span (length cell.now))) }
    ensures calls { Calls (spot at (span (length cell.now))) (ended result) (F.state flash.old) (F.state flash.new) }
    ensures reads { ReadsAtMost 0 (F.state flash.old).bytes_read (F.state flash.new).bytes_read }
    ensures changes { ChangesAtMost 2 0 (F.state flash.old).changes (F.state flash.new).changes }
    ensures whole { IfSome (F.state flash.new).bytes (λ held. area (at + filled (length cell.now)) 8 held ≡ gate → area at (length cell.now) held ≡ cell.now) }
    ensures stands { OnOk result (IfSome (F.state flash.new).bytes (λ held. area (at + filled (length cell.now)) 8 held ≡ gate)) }
    ensures laid { OnOk result (IfSome (F.state flash.new).bytes (λ held. area at (filled (length cell.now)) held ≡ filled_cell cell.now)) }
    ensures pays { OnOk result (counts_write (F.state flash.old).geometry (F.state flash.old).aim (at + filled (length cell.now)) gate ≡ true
        → Smaller (F.state flash.old).patience (F.state flash.new).patience) }
{
    let size = filled(cell.len() as u32);
    write_cell(flash, at, cell)?;
    write_part(flash, at + size, &GATE)
}
