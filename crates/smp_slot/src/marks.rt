// The marks at a slot's end: MCUboot's trailer.
ghost use Rattle.std.specs.Prelude.{◌≡◌, ◌+◌, ◌-◌, ◌<◌, ◌≤◌, ◌∷◌, [], length, take, drop, true, false, None, Some, IsTrue, OnOk, IfOk, IfSome};
ghost use Rattle.std.specs.Str.{bytes_eq};
ghost use Rattle.smp_flash.specs.Area.{area, blank, dirty, spot, Keeps, Holds, Fades, Erased, Told};
ghost use Rattle.smp_flash.specs.Calls.{Calls, ReadsAtMost, ChangesAtMost, Smaller};
ghost use Rattle.smp_flash.specs.Region.{counts};
ghost use Rattle.smp_flash.specs.State.{ended};
ghost use Rattle.smp_slot.specs.Marks.{trailer_magic, flag_bytes, writes_of, is_flagged, mark_by, mark_in, MarkOrNone, mark_size, mark_end, marked_page, confirmed_page};
ghost use Rattle.smp_slot.specs.Order.{ErasedThenWritten};
ghost use Rattle.smp_slot.specs.Slots.{IsSlot, last_page};

use smp_flash::{Area, CallFault, Flash, clear_page, read_part, sizes_of, write_part};
use smp_model::Mark;

/// The last 16 bytes of a slot that is pending.
const MAGIC: [u8; 16] = [
    0x77, 0xc2, 0x95, 0xf3, 0x60, 0xd2, 0xef, 0x7f, 0x35, 0x52, 0x50, 0x0f, 0x2c, 0xb6, 0x79, 0x80,
];

/// What is written 24 bytes before a slot's end.
const FLAG: [u8; 8] = [0x01, 0xff, 0xff, 0xff, 0xff, 0xff, 0xff, 0xff];

/// Whether the two are the same.
fn is_same(one: &[u8], other: &[u8]) -> bool
    ensures { result ≡ bytes_eq one.now other.now }
{
    one == other
}

/// The mark that a slot's last 24 bytes make.
fn mark_of(end: &[u8]) -> Option<Mark>
    requires { length end.now ≡ 24 }
    ensures { result ≡ mark_by (bytes_eq (drop 8 end.now) trailer_magic) (bytes_eq (take 1 end.now) (1 ∷ [])) }
{
    if !is_same(&end[8..], &MAGIC) {
        return None;
    }
    if is_same(&end[..1], &FLAG[..1]) {
        return Some(Mark::Permanent);
    }
    Some(Mark::Test)
}

/// The mark of a slot: `None` exactly where it is not pending. No byte changes.
pub fn marked<F: Flash>(flash: &mut F, slot: Area) -> Result<Option<Mark>, CallFault>
    requires { IsSlot slot (F.state flash.old).geometry }
    ensures calls { Calls (spot (slot.at + slot.length - 24) 24) (ended result) (F.state flash.old) (F.state flash.new) }
    ensures kept { (F.state flash.new).bytes ≡ (F.state flash.old).bytes }
    ensures reads { ReadsAtMost 24 (F.state flash.old).bytes_read (F.state flash.new).bytes_read }
    ensures changes { ChangesAtMost 0 0 (F.state flash.old).changes (F.state flash.new).changes }
    ensures mark { IfOk result (λ mark. IfSome (F.state flash.old).bytes (λ held. mark ≡ mark_in slot held)) }
{
    let _sizes = sizes_of(flash);
    let mut end = [0u8; 24];
    match read_part(flash, slot.at + slot.length - 24, &mut end) {
        Ok(()) => Ok(mark_of(&end)),
        Err(fault) => Err(fault),
    }
}

/// Whether the image of a primary slot is confirmed. No byte changes.
pub fn confirmed<F: Flash>(flash: &mut F, slot: Area) -> Result<bool, CallFault>
    requires { IsSlot slot (F.state flash.old).geometry }
    ensures calls { Calls (spot (slot.at + slot.length - 24) 1) (ended result) (F.state flash.old) (F.state flash.new) }
    ensures kept { (F.state flash.new).bytes ≡ (F.state flash.old).bytes }
    ensures reads { ReadsAtMost 1 (F.state flash.old).bytes_read (F.state flash.new).bytes_read }
    ensures changes { ChangesAtMost 0 0 (F.state flash.old).changes (F.state flash.new).changes }
    ensures confirmed { IfOk result (λ confirmed. IfSome (F.state flash.old).bytes (λ held. confirmed ≡ is_flagged slot held)) }
{
    let _sizes = sizes_of(flash);
    let mut byte = [0u8; 1];
    match read_part(flash, slot.at + slot.length - 24, &mut byte) {
        Ok(()) => Ok(is_same(&byte, &FLAG[..1])),
        Err(fault) => Err(fault),
    }
}

/// Erases a slot's last page, where it is not all FF.
fn clear_end<F: Flash>(flash: &mut F, slot: Area) -> Result<(), CallFault>
    requires { IsSlot slot (F.state flash.old).geometry }
    ensures calls { Calls (spot (last_page slot (F.state flash.old).geometry) (F.state flash.old).geometry.page) (ended result) (F.state flash.old) (F.state flash.new) }
    ensures reads { ReadsAtMost (F.state flash.old).geometry.page (F.state flash.old).bytes_read (F.state flash.new).bytes_read }
    ensures changes { ChangesAtMost 0 1 (F.state flash.old).changes (F.state flash.new).changes }
    ensures erases { IfSome (F.state flash.old).bytes (λ held. ChangesAtMost 0 (dirty (F.state flash.old).geometry.page (area (last_page slot (F.state flash.old).geometry) (F.state flash.old).geometry.page held)) (F.state flash.old).changes (F.state flash.new).changes) }
    ensures fades { Told (Fades (last_page slot (F.state flash.old).geometry) (F.state flash.old).geometry.page) (F.state flash.old).bytes (F.state flash.new).bytes }
    ensures erased { OnOk result (Told (Erased (last_page slot (F.state flash.old).geometry) (F.state flash.old).geometry.page) (F.state flash.old).bytes (F.state flash.new).bytes) }
{
    let page = sizes_of(flash).page;
    let mut buffer = [0u8; 512];
    clear_page(flash, slot.at + slot.length - page, page, &mut buffer)
}

/// Writes a flag 24 bytes before the slot's end.
fn write_flag<F: Flash>(flash: &mut F, slot: Area) -> Result<(), CallFault>
    requires slot { IsSlot slot (F.state flash.old).geometry }
    requires clean { IfSome (F.state flash.old).bytes (λ held. area (slot.at + slot.length - 24) 8 held ≡ blank 8) }
    ensures calls { Calls (spot (slot.at + slot.length - 24) 8) (ended result) (F.state flash.old) (F.state flash.new) }
    ensures reads { ReadsAtMost 0 (F.state flash.old).bytes_read (F.state flash.new).bytes_read }
    ensures changes { ChangesAtMost 1 0 (F.state flash.old).changes (F.state flash.new).changes }
    ensures ok { OnOk result (Told (Holds (slot.at + slot.length - 24) flag_bytes) (F.state flash.old).bytes (F.state flash.new).bytes) }
    ensures pays { OnOk result (counts (F.state flash.old).geometry (F.state flash.old).aim (slot.at + slot.length - 24) ≡ true → Smaller (F.state flash.old).patience (F.state flash.new).patience) }
{
    let _sizes = sizes_of(flash);
    write_part(flash, slot.at + slot.length - 24, &FLAG)
}

/// Writes the magic at the slot's end.
fn write_magic<F: Flash>(flash: &mut F, slot: Area) -> Result<(), CallFault>
    requires slot { IsSlot slot (F.state flash.old).geometry }
    requires clean { IfSome (F.state flash.old).bytes (λ held. area (slot.at + slot.length - 16) 16 held ≡ blank 16) }
    ensures calls { Calls (spot (slot.at + slot.length - 16) 16) (ended result) (F.state flash.old) (F.state flash.new) }
    ensures reads { ReadsAtMost 0 (F.state flash.old).bytes_read (F.state flash.new).bytes_read }
    ensures changes { ChangesAtMost 1 0 (F.state flash.old).changes (F.state flash.new).changes }
    ensures ok { OnOk result (Told (Holds (slot.at + slot.length - 16) trailer_magic) (F.state flash.old).bytes (F.state flash.new).bytes) }
    ensures pays { OnOk result (counts (F.state flash.old).geometry (F.state flash.old).aim (slot.at + slot.length - 16) ≡ true → Smaller (F.state flash.old).patience (F.state flash.new).patience) }
{
    let _sizes = sizes_of(flash);
    write_part(flash, slot.at + slot.length - 16, &MAGIC)
}

/// Confirms the image of a primary slot, which is not confirmed: the last page is erased where it is not all FF, and the flag is
/// written: after Ok all other bytes of that page are FF. After a fault every byte before the last page is as before, each byte
/// of it is as it was or FF, or all of it is FF but for what stands of the flag. The page is read once.
pub fn confirm<F: Flash>(flash: &mut F, slot: Area) -> Result<(), CallFault>
    requires slot { IsSlot slot (F.state flash.old).geometry }
    requires free { IfSome (F.state flash.old).bytes (λ held. is_flagged slot held ≡ false) }
    ensures calls { Calls (spot (last_page slot (F.state flash.old).geometry) (F.state flash.old).geometry.page) (ended result) (F.state flash.old) (F.state flash.new) }
    ensures reads { ReadsAtMost (F.state flash.old).geometry.page (F.state flash.old).bytes_read (F.state flash.new).bytes_read }
    ensures changes { ChangesAtMost 1 1 (F.state flash.old).changes (F.state flash.new).changes }

    // A last page that is FF is not erased again.
    ensures erases { IfSome (F.state flash.old).bytes (λ held. ChangesAtMost 1 (dirty (F.state flash.old).geometry.page (area (last_page slot (F.state flash.old).geometry) (F.state flash.old).geometry.page held)) (F.state flash.old).changes (F.state flash.new).changes) }
    ensures left { Told (ErasedThenWritten (last_page slot (F.state flash.old).geometry) (F.state flash.old).geometry.page (slot.at + slot.length - 24) 8) (F.state flash.old).bytes (F.state flash.new).bytes }
    ensures ok { OnOk result (IfSome (F.state flash.new).bytes (λ held. is_flagged slot held ≡ true)) }
    ensures whole { OnOk result (IfSome (F.state flash.new).bytes (λ held. area (last_page slot (F.state flash.old).geometry) (F.state flash.old).geometry.page held ≡ confirmed_page (F.state flash.old).geometry.page)) }
    ensures pays { OnOk result (counts (F.state flash.old).geometry (F.state flash.old).aim (slot.at + slot.length - 24) ≡ true → Smaller (F.state flash.old).patience (F.state flash.new).patience) }
{
    match clear_end(flash, slot) {
        Ok(()) => write_flag(flash, slot),
        Err(fault) => Err(fault),
    }
}

/// Writes a mark into an erased last page: for a permanent one the flag, then the magic.
fn write_mark<F: Flash>(flash: &mut F, slot: Area, mark: Mark) -> Result<(), CallFault>
    requires slot { IsSlot slot (F.state flash.old).geometry }
    requires flag { IfSome (F.state flash.old).bytes (λ held. area (slot.at + slot.length - 24) 8 held ≡ blank 8) }
    requires magic { IfSome (F.state flash.old).bytes (λ held. area (slot.at + slot.length - 16) 16 held ≡ blank 16) }
    ensures calls { Calls (spot (slot.at + slot.length - 24) 24) (ended result) (F.state flash.old) (F.state flash.new) }
    ensures reads { ReadsAtMost 0 (F.state flash.old).bytes_read (F.state flash.new).bytes_read }
    ensures changes { ChangesAtMost (writes_of mark) 0 (F.state flash.old).changes (F.state flash.new).changes }
    ensures keeps { Told (Keeps (spot (slot.at + slot.length - mark_size mark) (mark_size mark))) (F.state flash.old).bytes (F.state flash.new).bytes }
    ensures either { IfSome (F.state flash.new).bytes (MarkOrNone slot mark) }
    ensures ok { OnOk result (IfSome (F.state flash.new).bytes (λ held. mark_in slot held ≡ Some mark)) }
    ensures holds { OnOk result (IfSome (F.state flash.new).bytes (λ held. area (slot.at + slot.length - 24) 24 held ≡ mark_end mark)) }
    ensures pays { OnOk result (counts (F.state flash.old).geometry (F.state flash.old).aim (slot.at + slot.length - 16) ≡ true → Smaller (F.state flash.old).patience (F.state flash.new).patience) }
{
    match mark {
        Mark::Test => write_magic(flash, slot),
        Mark::Permanent => match write_flag(flash, slot) {
            Ok(()) => write_magic(flash, slot),
            Err(fault) => Err(fault),
        },
    }
}

/// Marks a secondary slot, which is not pending: the last page is erased where it is not all FF, for a permanent mark the flag is
/// written, and then the magic: after Ok all other bytes of that page are FF. After a fault every byte before the last page is as
/// before, the slot has this mark or none, and each byte of the last page is as it was or FF, or all of it is FF but for what
/// stands of the flag and the magic. The page is read once.
pub fn mark<F: Flash>(flash: &mut F, slot: Area, mark: Mark) -> Result<(), CallFault>
    requires slot { IsSlot slot (F.state flash.old).geometry }
    requires free { IfSome (F.state flash.old).bytes (λ held. mark_in slot held ≡ None) }
    ensures calls { Calls (spot (last_page slot (F.state flash.old).geometry) (F.state flash.old).geometry.page) (ended result) (F.state flash.old) (F.state flash.new) }
    ensures reads { ReadsAtMost (F.state flash.old).geometry.page (F.state flash.old).bytes_read (F.state flash.new).bytes_read }
    ensures changes { ChangesAtMost (writes_of mark) 1 (F.state flash.old).changes (F.state flash.new).changes }

    // A last page that is FF is not erased again.
    ensures erases { IfSome (F.state flash.old).bytes (λ held. ChangesAtMost (writes_of mark) (dirty (F.state flash.old).geometry.page (area (last_page slot (F.state flash.old).geometry) (F.state flash.old).geometry.page held)) (F.state flash.old).changes (F.state flash.new).changes) }
    ensures left { Told (ErasedThenWritten (last_page slot (F.state flash.old).geometry) (F.state flash.old).geometry.page (slot.at + slot.length - mark_size mark) (mark_size mark)) (F.state flash.old).bytes (F.state flash.new).bytes }
    ensures either { IfSome (F.state flash.new).bytes (MarkOrNone slot mark) }
    ensures ok { OnOk result (IfSome (F.state flash.new).bytes (λ held. mark_in slot held ≡ Some mark)) }
    ensures whole { OnOk result (IfSome (F.state flash.new).bytes (λ held. area (last_page slot (F.state flash.old).geometry) (F.state flash.old).geometry.page held ≡ marked_page (F.state flash.old).geometry.page mark)) }
    ensures pays { OnOk result (counts (F.state flash.old).geometry (F.state flash.old).aim (slot.at + slot.length - 16) ≡ true → Smaller (F.state flash.old).patience (F.state flash.new).patience) }
{
    match clear_end(flash, slot) {
        Ok(()) => write_mark(flash, slot, mark),
        Err(fault) => Err(fault),
    }
}
