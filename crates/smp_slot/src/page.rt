// A write within one page.
ghost use Rattle.std.specs.Prelude.{◌≡◌, ◌+◌, ◌-◌, ◌<◌, ◌≤◌, ◌%◌, ◌++◌, length, take, true, OnOk, IfSome};
ghost use Rattle.smp_flash.specs.Area.{area, blank, dirty, spot, Told};
ghost use Rattle.smp_flash.specs.Calls.{Calls, ReadsAtMost, ChangesAtMost, Smaller};
ghost use Rattle.smp_flash.specs.Geometry.{size_of, IsPage, IsUnit};
ghost use Rattle.smp_flash.specs.Region.{counts};
ghost use Rattle.smp_flash.specs.State.{ended};
ghost use Rattle.smp_slot.specs.Laid.{Laid};

use smp_flash::{CallFault, Flash, clear_page, write_part};

/// Makes all of a part erased bytes.
fn blank_part(part: &mut [u8], count: usize)
    requires { length part.old ≡ count }
    ensures { part.new ≡ blank count }
{
    part.fill(0xff);
}

/// Puts the bytes at the front, filled up to whole units with FF, and says how many bytes these are.
fn fill_up(into: &mut [u8], bytes: &[u8], unit: u32) -> usize
    requires room { length into.old ≡ 4096 }
    requires unit { IsUnit unit }
    requires fits { length bytes.now ≤ 4096 }
    ensures bytes { take result into.new ≡ bytes.now ++ blank (result - length bytes.now) }
    ensures least { length bytes.now ≤ result }
    ensures most { result < length bytes.now + unit }
    ensures whole { result % unit ≡ 0 }
    ensures within { result ≤ 4096 }
{
    let size = bytes.len();
    let unit = unit as usize;
    let more = (unit - size % unit) % unit;
    into[..size].copy_from_slice(bytes);
    blank_part(&mut into[size..size + more], more);
    size + more
}

/// Makes what is left of a page ready for a write: a page from its start on is erased where it is not.
fn ready_page<F: Flash>(flash: &mut F, at: u32, room: u32, page: u32) -> Result<(), CallFault>
    requires page { page ≡ (F.state flash.old).geometry.page }
    requires is_page { IsPage page }
    requires within { room ≤ page }
    requires begins { room ≡ page → at % page ≡ 0 }
    requires inside { at + room ≤ size_of (F.state flash.old).geometry }
    requires clean { room < page → IfSome (F.state flash.old).bytes (λ held. area at room held ≡ blank room) }
    ensures calls { Calls (spot at room) (ended result) (F.state flash.old) (F.state flash.new) }
    ensures reads { ReadsAtMost page (F.state flash.old).bytes_read (F.state flash.new).bytes_read }
    ensures inner_reads { room < page → ReadsAtMost 0 (F.state flash.old).bytes_read (F.state flash.new).bytes_read }
    ensures changes { ChangesAtMost 0 1 (F.state flash.old).changes (F.state flash.new).changes }
    ensures inner { room < page → ChangesAtMost 0 0 (F.state flash.old).changes (F.state flash.new).changes }
    ensures erases { IfSome (F.state flash.old).bytes (λ held. ChangesAtMost 0 (dirty room (area at room held)) (F.state flash.old).changes (F.state flash.new).changes) }
    ensures ready { OnOk result (IfSome (F.state flash.new).bytes (λ held. area at room held ≡ blank room)) }
{
    if room < page {
        return Ok(());
    }
    let mut buffer = [0u8; 512];
    clear_page(flash, at, room, &mut buffer)
}

/// Writes bytes into an erased part, filled up to whole units in `buffer`.
fn write_padded<F: Flash>(
    flash: &mut F,
    at: u32,
    room: u32,
    unit: u32,
    bytes: &[u8],
    buffer: &mut [u8],
) -> Result<(), CallFault>
    requires buffer { length buffer.old ≡ 4096 }
    requires unit { unit ≡ (F.state flash.old).geometry.unit }
    requires is_unit { IsUnit unit }
    requires place { at % unit ≡ 0 }
    requires whole { room % unit ≡ 0 }
    requires most { room ≤ 4096 }
    requires some { 0 < length bytes.now }
    requires fits { length bytes.now ≤ room }
    requires inside { at + room ≤ size_of (F.state flash.old).geometry }
    requires clean { IfSome (F.state flash.old).bytes (λ held. area at room held ≡ blank room) }
    ensures calls { Calls (spot at room) (ended result) (F.state flash.old) (F.state flash.new) }
    ensures reads { ReadsAtMost 0 (F.state flash.old).bytes_read (F.state flash.new).bytes_read }
    ensures changes { ChangesAtMost 1 0 (F.state flash.old).changes (F.state flash.new).changes }
    ensures ok { OnOk result (Told (Laid at (room - length bytes.now) bytes.now) (F.state flash.old).bytes (F.state flash.new).bytes) }
    ensures pays { OnOk result (counts (F.state flash.old).geometry (F.state flash.old).aim at ≡ true → Smaller (F.state flash.old).patience (F.state flash.new).patience) }
{
    let count = fill_up(buffer, bytes, unit);
    write_part(flash, at, &buffer[..count])
}

/// Writes whole units into an erased part.
fn write_units<F: Flash>(flash: &mut F, at: u32, room: u32, bytes: &[u8]) -> Result<(), CallFault>
    requires place { at % (F.state flash.old).geometry.unit ≡ 0 }
    requires whole { length bytes.now % (F.state flash.old).geometry.unit ≡ 0 }
    requires some { 0 < length bytes.now }
    requires fits { length bytes.now ≤ room }
    requires inside { at + room ≤ size_of (F.state flash.old).geometry }
    requires clean { IfSome (F.state flash.old).bytes (λ held. area at room held ≡ blank room) }
    ensures calls { Calls (spot at room) (ended result) (F.state flash.old) (F.state flash.new) }
    ensures reads { ReadsAtMost 0 (F.state flash.old).bytes_read (F.state flash.new).bytes_read }
    ensures changes { ChangesAtMost 1 0 (F.state flash.old).changes (F.state flash.new).changes }
    ensures ok { OnOk result (Told (Laid at (room - length bytes.now) bytes.now) (F.state flash.old).bytes (F.state flash.new).bytes) }
    ensures pays { OnOk result (counts (F.state flash.old).geometry (F.state flash.old).aim at ≡ true → Smaller (F.state flash.old).patience (F.state flash.new).patience) }
{
    write_part(flash, at, bytes)
}

/// Writes bytes into an erased part: as they are where they are whole units, and else filled up with FF.
fn write_bytes<F: Flash>(
    flash: &mut F,
    at: u32,
    room: u32,
    unit: u32,
    bytes: &[u8],
) -> Result<(), CallFault>
    requires unit { unit ≡ (F.state flash.old).geometry.unit }
    requires is_unit { IsUnit unit }
    requires place { at % unit ≡ 0 }
    requires whole { room % unit ≡ 0 }
    requires most { room ≤ 4096 }
    requires some { 0 < length bytes.now }
    requires fits { length bytes.now ≤ room }
    requires inside { at + room ≤ size_of (F.state flash.old).geometry }
    requires clean { IfSome (F.state flash.old).bytes (λ held. area at room held ≡ blank room) }
    ensures calls { Calls (spot at room) (ended result) (F.state flash.old) (F.state flash.new) }
    ensures reads { ReadsAtMost 0 (F.state flash.old).bytes_read (F.state flash.new).bytes_read }
    ensures changes { ChangesAtMost 1 0 (F.state flash.old).changes (F.state flash.new).changes }
    ensures ok { OnOk result (Told (Laid at (room - length bytes.now) bytes.now) (F.state flash.old).bytes (F.state flash.new).bytes) }
    ensures pays { OnOk result (counts (F.state flash.old).geometry (F.state flash.old).aim at ≡ true → Smaller (F.state flash.old).patience (F.state flash.new).patience) }
{
    if bytes.len() % unit as usize == 0 {
        return write_units(flash, at, room, bytes);
    }
    let mut buffer = [0u8; 4096];
    write_padded(flash, at, room, unit, bytes, &mut buffer)
}

/// Writes bytes into what is left of a page, in one write. A page from its start on is erased before, where it is not.
pub fn put_in_page<F: Flash>(
    flash: &mut F,
    at: u32,
    room: u32,
    page: u32,
    unit: u32,
    bytes: &[u8],
) -> Result<(), CallFault>
    requires page { page ≡ (F.state flash.old).geometry.page }
    requires is_page { IsPage page }
    requires page_most { page ≤ 4096 }
    requires unit { unit ≡ (F.state flash.old).geometry.unit }
    requires is_unit { IsUnit unit }
    requires place { at % unit ≡ 0 }
    requires whole { room % unit ≡ 0 }
    requires within { room ≤ page }
    requires begins { room ≡ page → at % page ≡ 0 }
    requires some { 0 < length bytes.now }
    requires fits { length bytes.now ≤ room }
    requires inside { at + room ≤ size_of (F.state flash.old).geometry }
    requires clean { room < page → IfSome (F.state flash.old).bytes (λ held. area at room held ≡ blank room) }
    ensures calls { Calls (spot at room) (ended result) (F.state flash.old) (F.state flash.new) }
    ensures reads { ReadsAtMost page (F.state flash.old).bytes_read (F.state flash.new).bytes_read }
    ensures inner_reads { room < page → ReadsAtMost 0 (F.state flash.old).bytes_read (F.state flash.new).bytes_read }
    ensures changes { ChangesAtMost 1 1 (F.state flash.old).changes (F.state flash.new).changes }
    ensures inner { room < page → ChangesAtMost 1 0 (F.state flash.old).changes (F.state flash.new).changes }
    ensures erases { IfSome (F.state flash.old).bytes (λ held. ChangesAtMost 1 (dirty room (area at room held)) (F.state flash.old).changes (F.state flash.new).changes) }
    ensures ok { OnOk result (Told (Laid at (room - length bytes.now) bytes.now) (F.state flash.old).bytes (F.state flash.new).bytes) }
    ensures pays { OnOk result (counts (F.state flash.old).geometry (F.state flash.old).aim at ≡ true → Smaller (F.state flash.old).patience (F.state flash.new).patience) }
{
    ready_page(flash, at, room, page)?;
    write_bytes(flash, at, room, unit, bytes)
}
