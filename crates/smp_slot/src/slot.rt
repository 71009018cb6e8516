// Bytes are put into a slot, and what follows them is looked at.
ghost use Rattle.std.specs.Prelude.{◌≡◌, ◌⊎◌, ◌+◌, ◌-◌, ◌*◌, ◌<◌, ◌≤◌, ◌%◌, ◌^◌, length, true, OnOk, IfOk, IfSome, ◌↔◌, IsTrue};
ghost use Rattle.smp_flash.specs.Area.{area, blank, spot, Told};
ghost use Rattle.smp_flash.specs.Calls.{Calls, Smaller, ReadsAtMost, ChangesAtMost};
ghost use Rattle.smp_flash.specs.Geometry.{size_of, IsPage, IsUnit, tail, room};
ghost use Rattle.smp_flash.specs.Region.{counts};
ghost use Rattle.smp_flash.specs.State.{ended};
ghost use Rattle.smp_slot.specs.Costs.{entered, begun, dirty_begun};
ghost use Rattle.smp_slot.specs.Laid.{Laid};
ghost use Rattle.smp_slot.specs.Order.{PutInOrder};
ghost use Rattle.smp_slot.specs.Slots.{IsSlot};

use crate::page::put_in_page;
use smp_flash::{Area, CallFault, Flash, reads_erased, sizes_of};

/// The bytes from a place to its page's end.
fn room_of(page: u32, at: u32) -> u32
    requires { IsPage page }
    ensures room { result ≡ room page at }
    ensures some { 0 < result }
    ensures most { result ≤ page }
    ensures begins { result ≡ page → at % page ≡ 0 }
{
    page - at % page
}

/// The smaller of two counts.
fn least(room: u32, left: usize) -> usize
    ensures room { result ≤ room }
    ensures left { result ≤ left }
    ensures some { 0 < room → 0 < left → 0 < result }
    ensures either { (result ≡ left) ⊎ (result ≡ room) }
{
    if left < room as usize {
        left
    } else {
        room as usize
    }
}

/// Puts bytes into a slot from the place `at` of it on: page by page in ascending order, one write a page, the last write unit
/// filled up with FF. A page is erased before its first byte is written, where it is not all FF.
///
/// The place begins a write unit, the bytes end before the slot's last page, and what follows the place in its page is FF.
/// After a fault some first bytes stand, to a page's end or none, and every byte before the place and behind the page that follows
/// them is as before. A page that the bytes begin is read once, to see whether it is FF.
pub fn put<F: Flash>(flash: &mut F, slot: Area, at: u32, bytes: &[u8]) -> Result<(), CallFault>
    requires slot { IsSlot slot (F.state flash.old).geometry }
    requires place { at % (F.state flash.old).geometry.unit ≡ 0 }
    requires inside { at + length bytes.now + (F.state flash.old).geometry.page ≤ slot.length }
    requires clean { IfSome (F.state flash.old).bytes (λ held. area (slot.at + at) (tail (F.state flash.old).geometry.page at) held ≡ blank (tail (F.state flash.old).geometry.page at)) }
    ensures calls { Calls (spot (slot.at + at) (length bytes.now + tail (F.state flash.old).geometry.page (at + length bytes.now))) (ended result) (F.state flash.old) (F.state flash.new) }
    ensures reads { ReadsAtMost (begun (F.state flash.old).geometry.page at (length bytes.now) * (F.state flash.old).geometry.page) (F.state flash.old).bytes_read (F.state flash.new).bytes_read }

    // One write for each page that the bytes enter, and at most one erase for each that they begin.
    ensures changes { ChangesAtMost (entered (F.state flash.old).geometry.page at (length bytes.now)) (begun (F.state flash.old).geometry.page at (length bytes.now)) (F.state flash.old).changes (F.state flash.new).changes }

    // A page that is FF is not erased again.
    ensures erases { IfSome (F.state flash.old).bytes (λ held. ChangesAtMost (entered (F.state flash.old).geometry.page at (length bytes.now)) (dirty_begun (F.state flash.old).geometry.page (slot.at + at) (length bytes.now) held) (F.state flash.old).changes (F.state flash.new).changes) }
    ensures order { Told (PutInOrder (F.state flash.old).geometry.page (slot.at + at) bytes.now) (F.state flash.old).bytes (F.state flash.new).bytes }
    ensures ok { OnOk result (Told (Laid (slot.at + at) (tail (F.state flash.old).geometry.page (at + length bytes.now)) bytes.now) (F.state flash.old).bytes (F.state flash.new).bytes) }
    ensures pays { OnOk result (0 < length bytes.now → counts (F.state flash.old).geometry (F.state flash.old).aim (slot.at + at) ≡ true → Smaller (F.state flash.old).patience (F.state flash.new).patience) }
{
    let sizes = sizes_of(flash);
    put_pages(flash, slot.at + at, sizes.page, sizes.unit, bytes)
}

/// The same from a place of the flash on, with the flash's sizes.
fn put_pages<F: Flash>(
    flash: &mut F,
    at: u32,
    page: u32,
    unit: u32,
    bytes: &[u8],
) -> Result<(), CallFault>
    requires page { page ≡ (F.state flash.old).geometry.page }
    requires is_page { IsPage page }
    requires unit { unit ≡ (F.state flash.old).geometry.unit }
    requires is_unit { IsUnit unit }
    requires small { size_of (F.state flash.old).geometry ≤ 2 ^ 25 }
    requires place { at % unit ≡ 0 }
    requires inside { at + length bytes.now + page ≤ size_of (F.state flash.old).geometry }
    requires clean { IfSome (F.state flash.old).bytes (λ held. area at (tail page at) held ≡ blank (tail page at)) }
    ensures calls { Calls (spot at (length bytes.now + tail page (at + length bytes.now))) (ended result) (F.state flash.old) (F.state flash.new) }
    ensures reads { ReadsAtMost (begun page at (length bytes.now) * page) (F.state flash.old).bytes_read (F.state flash.new).bytes_read }
    ensures changes { ChangesAtMost (entered page at (length bytes.now)) (begun page at (length bytes.now)) (F.state flash.old).changes (F.state flash.new).changes }
    ensures erases { IfSome (F.state flash.old).bytes (λ held. ChangesAtMost (entered page at (length bytes.now)) (dirty_begun page at (length bytes.now) held) (F.state flash.old).changes (F.state flash.new).changes) }
    ensures order { Told (PutInOrder page at bytes.now) (F.state flash.old).bytes (F.state flash.new).bytes }
    ensures ok { OnOk result (Told (Laid at (tail page (at + length bytes.now)) bytes.now) (F.state flash.old).bytes (F.state flash.new).bytes) }
    ensures pays { OnOk result (0 < length bytes.now → counts (F.state flash.old).geometry (F.state flash.old).aim at ≡ true → Smaller (F.state flash.old).patience (F.state flash.new).patience) }
{
    let mut done = 0usize;
    while done < bytes.len() {
        let here = at + done as u32;
        let room = room_of(page, here);
        let count = least(room, bytes.len() - done);
        put_in_page(flash, here, room, page, unit, &bytes[done..done + count])?;
        done += count;
    }
    Ok(())
}

/// Whether the bytes from the place `at` of a slot to its page's end are FF: true at a page's start. No byte changes.
pub fn tail_is_clean<F: Flash>(flash: &mut F, slot: Area, at: u32) -> Result<bool, CallFault>
    requires slot { IsSlot slot (F.state flash.old).geometry }
    requires inside { at < slot.length }
    ensures calls { Calls (spot (slot.at + at) (tail (F.state flash.old).geometry.page at)) (ended result) (F.state flash.old) (F.state flash.new) }
    ensures kept { (F.state flash.new).bytes ≡ (F.state flash.old).bytes }
    ensures reads { ReadsAtMost (tail (F.state flash.old).geometry.page at) (F.state flash.old).bytes_read (F.state flash.new).bytes_read }
    ensures changes { ChangesAtMost 0 0 (F.state flash.old).changes (F.state flash.new).changes }
    ensures clean { IfOk result (λ clean. IfSome (F.state flash.old).bytes (λ held. IsTrue clean ↔ (area (slot.at + at) (tail (F.state flash.old).geometry.page at) held ≡ blank (tail (F.state flash.old).geometry.page at)))) }
    ensures begins { IfOk result (λ clean. at % (F.state flash.old).geometry.page ≡ 0 → IsTrue clean) }
{
    let page = sizes_of(flash).page;
    if at % page == 0 {
        return Ok(true);
    }
    let room = room_of(page, at);
    let mut buffer = [0u8; 4096];
    reads_erased(flash, slot.at + at, room, &mut buffer[..room as usize])
}
