// A slot is erased.
ghost use Rattle.std.specs.Prelude.{◌≡◌, ◌+◌, ◌/◌, ◌≤◌, ◌%◌, ◌^◌, length, OnOk, IfSome};
ghost use Rattle.smp_flash.specs.Area.{dirty_pages, spot, Fades, Erased, Told};
ghost use Rattle.smp_flash.specs.Calls.{Calls, ReadsAtMost, ChangesAtMost};
ghost use Rattle.smp_flash.specs.Geometry.{size_of, IsPage};
ghost use Rattle.smp_flash.specs.State.{ended};
ghost use Rattle.smp_slot.specs.Order.{ErasedInOrder};
ghost use Rattle.smp_slot.specs.Slots.{IsSlot};

use smp_flash::{Area, CallFault, Flash, clear_page, sizes_of};

/// Erases so many bytes from a page's start on, page by page in ascending order, each page where it is not all FF.
fn wipe_pages<F: Flash>(
    flash: &mut F,
    at: u32,
    size: u32,
    page: u32,
    buffer: &mut [u8],
) -> Result<(), CallFault>
    requires buffer { length buffer.old ≡ 512 }
    requires page { page ≡ (F.state flash.old).geometry.page }
    requires is_page { IsPage page }
    requires begins { at % page ≡ 0 }
    requires whole { size % page ≡ 0 }
    requires inside { at + size ≤ size_of (F.state flash.old).geometry }
    requires small { size_of (F.state flash.old).geometry ≤ 2 ^ 25 }
    ensures calls { Calls (spot at size) (ended result) (F.state flash.old) (F.state flash.new) }
    ensures reads { ReadsAtMost size (F.state flash.old).bytes_read (F.state flash.new).bytes_read }
    ensures changes { ChangesAtMost 0 (size / page) (F.state flash.old).changes (F.state flash.new).changes }
    ensures erases { IfSome (F.state flash.old).bytes (λ held. ChangesAtMost 0 (dirty_pages page at (size / page) held) (F.state flash.old).changes (F.state flash.new).changes) }
    ensures order { Told (ErasedInOrder page at size) (F.state flash.old).bytes (F.state flash.new).bytes }
    ensures fades { Told (Fades at size) (F.state flash.old).bytes (F.state flash.new).bytes }
    ensures erased { OnOk result (Told (Erased at size) (F.state flash.old).bytes (F.state flash.new).bytes) }
{
    let mut done = 0u32;
    while done < size {
        match clear_page(flash, at + done, page, buffer) {
            Ok(()) => done += page,
            Err(fault) => return Err(fault),
        }
    }
    Ok(())
}

/// Erases a slot: its pages that are not all FF, each once, in ascending order; each page is read once. After Ok every byte of it
/// is FF. After a fault some first pages are FF, in the next one each byte is as it was or FF, and those behind it are as before.
pub fn wipe<F: Flash>(flash: &mut F, slot: Area) -> Result<(), CallFault>
    requires { IsSlot slot (F.state flash.old).geometry }
    ensures calls { Calls (spot slot.at slot.length) (ended result) (F.state flash.old) (F.state flash.new) }
    ensures reads { ReadsAtMost slot.length (F.state flash.old).bytes_read (F.state flash.new).bytes_read }
    ensures changes { ChangesAtMost 0 (slot.length / (F.state flash.old).geometry.page) (F.state flash.old).changes (F.state flash.new).changes }

    // A page that is FF is not erased again, and each other one once.
    ensures erases { IfSome (F.state flash.old).bytes (λ held. ChangesAtMost 0 (dirty_pages (F.state flash.old).geometry.page slot.at (slot.length / (F.state flash.old).geometry.page) held) (F.state flash.old).changes (F.state flash.new).changes) }
    ensures order { Told (ErasedInOrder (F.state flash.old).geometry.page slot.at slot.length) (F.state flash.old).bytes (F.state flash.new).bytes }
    ensures fades { Told (Fades slot.at slot.length) (F.state flash.old).bytes (F.state flash.new).bytes }
    ensures erased { OnOk result (Told (Erased slot.at slot.length) (F.state flash.old).bytes (F.state flash.new).bytes) }
{
    let page = sizes_of(flash).page;
    let mut buffer = [0u8; 512];
    wipe_pages(flash, slot.at, slot.length, page, &mut buffer)
}
