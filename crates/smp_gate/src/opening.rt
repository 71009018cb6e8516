// A bank is opened: its newest side, that side's body, and which of its cells count.
ghost use Rattle.std.specs.Prelude.{◌≡◌, ◌≢◌, ◌+◌, ◌-◌, ◌*◌, ◌^◌, ◌≤◌, ◌<◌, length, drop, [], Some, None, ℕ, List, IfOk, OnOk, OnErr, IfSome, IsTrue};
ghost use Rattle.std.specs.Option.{ForSome};
ghost use Rattle.std.specs.Str.{bytes_eq};
ghost use Rattle.smp_flash.specs.Area.{area, blank, spot};
ghost use Rattle.smp_flash.specs.Calls.{Calls, ReadsAtMost, ChangesAtMost};
ghost use Rattle.smp_flash.specs.Geometry.{size_of};
ghost use Rattle.smp_flash.specs.Region.{gate};
ghost use Rattle.smp_flash.specs.State.{ended};
ghost use Rattle.smp_gate.specs.Cells.{filled, span, cells_at, places, gates_from, gate_reads, Used};
ghost use Rattle.smp_gate.specs.Head.{head_in, chosen};
ghost use Rattle.smp_gate.specs.Newest.{sides};
ghost use Rattle.smp_gate.specs.Opening.{PlaceIs, LastIs};

use crate::cells::{Gates, cell_at, filled, places, span};
use crate::head::{Choice, choose, look};
use arrayvec::ArrayVec;
use smp_flash::{BankPlace, CallFault, Flash, GATE, is_erased, read_part};

/// Finds the newest side.
pub fn choose_side<F: Flash>(flash: &mut F, place: &BankPlace) -> Result<Option<Choice>, CallFault>
    requires first { place.now.first.at + 4096 ≤ size_of (F.state flash.old).geometry }
    requires second { place.now.second.at + 4096 ≤ size_of (F.state flash.old).geometry }
    ensures calls { Calls (sides place.now) (ended result) (F.state flash.old) (F.state flash.new) }
    ensures kept { (F.state flash.new).bytes ≡ (F.state flash.old).bytes }
    ensures changes { ChangesAtMost 0 0 (F.state flash.old).changes (F.state flash.new).changes }
    ensures reads { ReadsAtMost 32 (F.state flash.old).bytes_read (F.state flash.new).bytes_read }
    ensures chosen { IfOk result (λ choice. IfSome (F.state flash.old).bytes (λ held. choice ≡ chosen (head_in (area place.now.first.at 16 held)) (head_in (area place.now.second.at 16 held)))) }
    ensures small { IfOk result (λ choice. ForSome choice (λ c. c.head.size ≤ 4080)) }
    ensures positive { IfOk result (λ choice. ForSome choice (λ c. 1 ≤ c.head.generation)) }
{
    let first = look(flash, place.first.at)?;
    let second = look(flash, place.second.at)?;
    Ok(choose(first, second))
}

/// Reads the body of a side.
pub fn read_body<F: Flash>(
    flash: &mut F,
    at: u32,
    size: u32,
    buffer: &mut [u8],
    body: &mut ArrayVec<u8, 4096>,
) -> Result<(), CallFault>
    requires room { length buffer.old ≡ 4096 }
    requires fits { size ≤ 4080 }
    requires empty { body.old.items ≡ [] }
    requires inside { at + 4096 ≤ size_of (F.state flash.old).geometry }
    ensures calls { Calls (spot at 4096) (ended result) (F.state flash.old) (F.state flash.new) }
    ensures kept { (F.state flash.new).bytes ≡ (F.state flash.old).bytes }
    ensures changes { ChangesAtMost 0 0 (F.state flash.old).changes (F.state flash.new).changes }
    ensures reads { ReadsAtMost size (F.state flash.old).bytes_read (F.state flash.new).bytes_read }
    ensures long { OnOk result (length body.new.items ≡ size) }
    ensures body { OnOk result (IfSome (F.state flash.old).bytes (λ held. body.new.items ≡ area (at + 16) size held)) }
    ensures none { OnErr result (body.new.items ≡ []) }
{
    if size == 0 {
        return Ok(());
    }
    let part = &mut buffer[..size as usize];
    read_part(flash, at + 16, part)?;
    extend(body, part);
    Ok(())
}

/// Puts bytes into an empty vector that has room for them.
fn extend(body: &mut ArrayVec<u8, 4096>, bytes: &[u8])
    requires room { length bytes.now ≤ 4096 }
    requires empty { body.old.items ≡ [] }
    ensures { body.new.items ≡ bytes.now }
{
    for byte in bytes {
        body.push(*byte);
    }
}

/// The place of a cell.
#[derive(Clone, Copy, Debug, PartialEq, Eq)]
pub enum Place {
    /// All its bytes are FF.
    Free,
    /// Some byte is not, and the gate stands or doesn't.
    Begun(bool),
}

/// Whether a gate stands behind so many bytes.
fn ends_in_gate(bytes: &[u8], size: usize) -> bool
    requires { length bytes.now ≡ size + 8 }
    ensures { result ≡ bytes_eq (drop size bytes.now) gate }
{
    &bytes[size..] == GATE.as_slice()
}

/// Reads the place of a cell.
fn look_at<F: Flash>(
    flash: &mut F,
    at: u32,
    cell: u32,
    buffer: &mut [u8],
) -> Result<Place, CallFault>
    requires room { length buffer.old ≡ 4096 }
    requires cell { cell ≤ 4080 }
    requires inside { at + span cell ≤ size_of (F.state flash.old).geometry }
    ensures calls { Calls (spot at (span cell)) (ended result) (F.state flash.old) (F.state flash.new) }
    ensures kept { (F.state flash.new).bytes ≡ (F.state flash.old).bytes }
    ensures reads { ReadsAtMost (span cell) (F.state flash.old).bytes_read (F.state flash.new).bytes_read }
    ensures changes { ChangesAtMost 0 0 (F.state flash.old).changes (F.state flash.new).changes }
    ensures place { IfOk result (λ place. IfSome (F.state flash.old).bytes (PlaceIs cell at place)) }
{
    let part = &mut buffer[..span(cell) as usize];
    read_part(flash, at, part)?;
    if is_erased(part) {
        return Ok(Place::Free);
    }
    Ok(Place::Begun(ends_in_gate(part, filled(cell) as usize)))
}

/// The last of the cells that was begun: its number, and whether its gate stands.
#[derive(Clone, Copy, Debug, PartialEq, Eq)]
pub struct Last {
    pub index: u32,
    pub stands: bool,
}

/// Finds the last cell of a side that was begun, from the end on; each is read once.
fn find_last<F: Flash>(
    flash: &mut F,
    side: u32,
    cell: u32,
    size: u32,
    buffer: &mut [u8],
) -> Result<Option<Last>, CallFault>
    requires room { length buffer.old ≡ 4096 }
    requires small { side ≤ 2 ^ 25 }
    requires cell { cell ≤ 4080 }
    requires size { size ≤ 4080 }
    requires inside { side + 4096 ≤ size_of (F.state flash.old).geometry }
    ensures calls { Calls (spot side 4096) (ended result) (F.state flash.old) (F.state flash.new) }
    ensures kept { (F.state flash.new).bytes ≡ (F.state flash.old).bytes }
    ensures all { ReadsAtMost (places cell size * span cell) (F.state flash.old).bytes_read (F.state flash.new).bytes_read }
    ensures reads { IfOk result (λ last. ForSome last (λ l. ReadsAtMost ((places cell size - l.index) * span cell) (F.state flash.old).bytes_read (F.state flash.new).bytes_read)) }
    ensures changes { ChangesAtMost 0 0 (F.state flash.old).changes (F.state flash.new).changes }
    ensures index { IfOk result (λ last. ForSome last (λ l. l.index < places cell size)) }
    ensures last { IfOk result (λ last. IfSome (F.state flash.old).bytes (LastIs cell (side + cells_at size) (places cell size) last)) }
{
    let count = places(cell, size);
    for i in 0..count {
        let index = count - 1 - i;
        let at = cell_at(side, cell, size, index);
        match look_at(flash, at, cell, buffer)? {
            Place::Free => {}
            Place::Begun(stands) => return Ok(Some(Last { index, stands })),
        }
    }
    Ok(None)
}

/// Whether the gate that would stand there does.
fn gate_stands<F: Flash>(flash: &mut F, at: u32) -> Result<bool, CallFault>
    requires { at + 8 ≤ size_of (F.state flash.old).geometry }
    ensures calls { Calls (spot at 8) (ended result) (F.state flash.old) (F.state flash.new) }
    ensures kept { (F.state flash.new).bytes ≡ (F.state flash.old).bytes }
    ensures reads { ReadsAtMost 8 (F.state flash.old).bytes_read (F.state flash.new).bytes_read }
    ensures changes { ChangesAtMost 0 0 (F.state flash.old).changes (F.state flash.new).changes }
    ensures stands { IfOk result (λ stands. IfSome (F.state flash.old).bytes (λ held. stands ≡ bytes_eq (area at 8 held) gate)) }
{
    let mut found = [0u8; 8];
    read_part(flash, at, &mut found)?;
    Ok(found == GATE)
}

/// Reads the gates of the first cells of a side, and nothing else of them.
fn read_gates<F: Flash>(
    flash: &mut F,
    side: u32,
    cell: u32,
    size: u32,
    count: u32,
    gates: &mut Gates,
) -> Result<(), CallFault>
    requires none { gates.old.items ≡ [] }
    requires small { side ≤ 2 ^ 25 }
    requires cell { cell ≤ 4080 }
    requires size { size ≤ 4080 }
    requires few { count ≤ 254 }
    requires low { count < places cell size }
    requires inside { side + 4096 ≤ size_of (F.state flash.old).geometry }
    ensures calls { Calls (spot side 4096) (ended result) (F.state flash.old) (F.state flash.new) }
    ensures kept { (F.state flash.new).bytes ≡ (F.state flash.old).bytes }
    ensures reads { ReadsAtMost (count * 8) (F.state flash.old).bytes_read (F.state flash.new).bytes_read }
    ensures changes { ChangesAtMost 0 0 (F.state flash.old).changes (F.state flash.new).changes }
    ensures long { OnOk result (length gates.new.items ≡ count) }
    ensures gates { OnOk result (IfSome (F.state flash.old).bytes (λ held. gates.new.items ≡ gates_from cell (side + cells_at size) count held)) }
{
    let behind = filled(cell);
    for i in 0..count {
        let at = cell_at(side, cell, size, i);
        let stands = gate_stands(flash, at + behind)?;
        gates.push(stands);
    }
    Ok(())
}

/// Learns which of a side's cells were begun, and which of these count.
pub fn find_cells<F: Flash>(
    flash: &mut F,
    side: u32,
    cell: u32,
    size: u32,
    gates: &mut Gates,
    buffer: &mut [u8],
) -> Result<(), CallFault>
    requires room { length buffer.old ≡ 4096 }
    requires none { gates.old.items ≡ [] }
    requires small { side ≤ 2 ^ 25 }
    requires some { 1 ≤ cell }
    requires cell { cell ≤ 4080 }
    requires size { size ≤ 4080 }
    requires inside { side + 4096 ≤ size_of (F.state flash.old).geometry }
    ensures calls { Calls (spot side 4096) (ended result) (F.state flash.old) (F.state flash.new) }
    ensures kept { (F.state flash.new).bytes ≡ (F.state flash.old).bytes }
    ensures all { ReadsAtMost (places cell size * span cell) (F.state flash.old).bytes_read (F.state flash.new).bytes_read }
    ensures reads { OnOk result (ReadsAtMost (gate_reads cell (places cell size) (length gates.new.items)) (F.state flash.old).bytes_read (F.state flash.new).bytes_read) }
    ensures changes { ChangesAtMost 0 0 (F.state flash.old).changes (F.state flash.new).changes }
    ensures most { OnOk result (length gates.new.items ≤ places cell size) }
    ensures used { OnOk result (IfSome (F.state flash.old).bytes (λ held. Used cell size gates.new.items (area side 4096 held))) }
{
    let Some(last) = find_last(flash, side, cell, size, buffer)? else {
        return Ok(())
    };
    read_gates(flash, side, cell, size, last.index, gates)?;
    gates.push(last.stands);
    Ok(())
}
