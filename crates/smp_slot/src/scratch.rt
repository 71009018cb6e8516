// A page's bytes before a place are moved to the scratch page and back.
ghost use Rattle.std.specs.Prelude.{◌≡◌, ◌+◌, ◌-◌, ◌<◌, ◌≤◌, ◌%◌, [], ◌∷◌, length, OnOk, IfSome};
ghost use Rattle.smp_flash.specs.Area.{area, blank, dirty, spot, Keeps, Told};
ghost use Rattle.smp_flash.specs.Calls.{Calls, ReadsAtMost, ChangesAtMost};
ghost use Rattle.smp_flash.specs.Geometry.{size_of, tail, IsUnit, IsPage};
ghost use Rattle.smp_flash.specs.Layout.{geometry_of, scratch_of, area_spot};
ghost use Rattle.smp_flash.specs.State.{ended};
ghost use Rattle.smp_slot.specs.Moved.{Moved};
ghost use Rattle.smp_slot.specs.Slots.{IsSlotOf, page_begin, moved_spots};

use smp_flash::{Area, CallFault, Flash, Layout, clear_page, erase_page, read_part, write_part};

/// Reads a part and writes it to the front of an erased page, by way of `into`.
fn copy_part<F: Flash>(
    flash: &mut F,
    from: u32,
    to: u32,
    page: u32,
    count: u32,
    into: &mut [u8],
) -> Result<(), CallFault>
    requires room { length into.old ≡ count }
    requires some { 0 < count }
    requires fits { count ≤ page }
    requires from_inside { from + page ≤ size_of (F.state flash.old).geometry }
    requires to_inside { to + page ≤ size_of (F.state flash.old).geometry }
    requires place { to % (F.state flash.old).geometry.unit ≡ 0 }
    requires whole { count % (F.state flash.old).geometry.unit ≡ 0 }
    requires clean { IfSome (F.state flash.old).bytes (λ held. area to page held ≡ blank page) }
    ensures calls { Calls ((from, page) ∷ (to, page) ∷ []) (ended result) (F.state flash.old) (F.state flash.new) }
    ensures reads { ReadsAtMost count (F.state flash.old).bytes_read (F.state flash.new).bytes_read }
    ensures changes { ChangesAtMost 1 0 (F.state flash.old).changes (F.state flash.new).changes }
    ensures keeps { Told (Keeps (spot to page)) (F.state flash.old).bytes (F.state flash.new).bytes }
    ensures ok { OnOk result (Told (Moved from to count (page - count)) (F.state flash.old).bytes (F.state flash.new).bytes) }
{
    read_part(flash, from, into)?;
    write_part(flash, to, into)
}

/// Copies the first bytes of a page to another one, which is erased where it is not all FF.
fn copy_out<F: Flash>(
    flash: &mut F,
    from: u32,
    count: u32,
    scratch: u32,
    page: u32,
) -> Result<(), CallFault>
    requires page { page ≡ (F.state flash.old).geometry.page }
    requires page_most { page ≤ 4096 }
    requires is_unit { IsUnit (F.state flash.old).geometry.unit }
    requires page_is { IsPage page }
    requires some { 0 < count }
    requires fits { count < page }
    requires whole { count % (F.state flash.old).geometry.unit ≡ 0 }
    requires begins { scratch % page ≡ 0 }
    requires apart { from + page ≤ scratch }
    requires inside { scratch + page ≤ size_of (F.state flash.old).geometry }
    ensures calls { Calls ((from, page) ∷ (scratch, page) ∷ []) (ended result) (F.state flash.old) (F.state flash.new) }
    ensures reads { ReadsAtMost (page + count) (F.state flash.old).bytes_read (F.state flash.new).bytes_read }
    ensures changes { ChangesAtMost 1 1 (F.state flash.old).changes (F.state flash.new).changes }
    ensures erases { IfSome (F.state flash.old).bytes (λ held. ChangesAtMost 1 (dirty page (area scratch page held)) (F.state flash.old).changes (F.state flash.new).changes) }
    ensures keeps { Told (Keeps (spot scratch page)) (F.state flash.old).bytes (F.state flash.new).bytes }
    ensures ok { OnOk result (Told (Moved from scratch count (page - count)) (F.state flash.old).bytes (F.state flash.new).bytes) }
{
    let mut buffer = [0u8; 4096];
    clear_page(flash, scratch, page, &mut buffer)?;
    copy_part(
        flash,
        from,
        scratch,
        page,
        count,
        &mut buffer[..count as usize],
    )
}

/// Erases a page, and writes the first bytes of another one to it.
fn copy_back<F: Flash>(
    flash: &mut F,
    to: u32,
    count: u32,
    scratch: u32,
    page: u32,
) -> Result<(), CallFault>
    requires page { page ≡ (F.state flash.old).geometry.page }
    requires page_most { page ≤ 4096 }
    requires is_unit { IsUnit (F.state flash.old).geometry.unit }
    requires page_is { IsPage page }
    requires some { 0 < count }
    requires fits { count < page }
    requires whole { count % (F.state flash.old).geometry.unit ≡ 0 }
    requires begins { to % page ≡ 0 }
    requires apart { to + page ≤ scratch }
    requires inside { scratch + page ≤ size_of (F.state flash.old).geometry }
    ensures calls { Calls ((scratch, page) ∷ (to, page) ∷ []) (ended result) (F.state flash.old) (F.state flash.new) }
    ensures reads { ReadsAtMost count (F.state flash.old).bytes_read (F.state flash.new).bytes_read }
    ensures changes { ChangesAtMost 1 1 (F.state flash.old).changes (F.state flash.new).changes }
    ensures keeps { Told (Keeps (spot to page)) (F.state flash.old).bytes (F.state flash.new).bytes }
    ensures ok { OnOk result (Told (Moved scratch to count (page - count)) (F.state flash.old).bytes (F.state flash.new).bytes) }
{
    let mut buffer = [0u8; 4096];
    erase_page(flash, to, page)?;
    copy_part(
        flash,
        scratch,
        to,
        page,
        count,
        &mut buffer[..count as usize],
    )
}

/// Copies the bytes of a page of a slot that lie before the place `at` of the slot to the scratch page of the layout, which is
/// erased before, where it is not all FF. Nothing outside the scratch page changes, whatever it answers.
///
/// The place begins a write unit inside a page, and lies before the slot's last page.
pub fn to_scratch<F: Flash>(
    flash: &mut F,
    layout: &Layout,
    slot: Area,
    at: u32,
) -> Result<(), CallFault>
    requires sizes { geometry_of layout.now ≡ (F.state flash.old).geometry }
    requires slot { IsSlotOf layout.now slot }
    requires inner { 0 < at % (geometry_of layout.now).page }
    requires place { at % (geometry_of layout.now).unit ≡ 0 }
    requires inside { at + (geometry_of layout.now).page ≤ slot.length }
    ensures calls { Calls (moved_spots layout.now slot at) (ended result) (F.state flash.old) (F.state flash.new) }

    // The scratch page, to see whether it is FF, and the bytes that are copied.
    ensures reads { ReadsAtMost ((geometry_of layout.now).page + at % (geometry_of layout.now).page) (F.state flash.old).bytes_read (F.state flash.new).bytes_read }
    ensures changes { ChangesAtMost 1 1 (F.state flash.old).changes (F.state flash.new).changes }

    // A scratch page that is FF is not erased again.
    ensures erases { IfSome (F.state flash.old).bytes (λ held. ChangesAtMost 1 (dirty (geometry_of layout.now).page (area (scratch_of layout.now).at (geometry_of layout.now).page held)) (F.state flash.old).changes (F.state flash.new).changes) }
    ensures keeps { Told (Keeps (area_spot (scratch_of layout.now) ∷ [])) (F.state flash.old).bytes (F.state flash.new).bytes }
    ensures ok { OnOk result (Told (Moved (page_begin layout.now slot at) (scratch_of layout.now).at (at % (geometry_of layout.now).page) (tail (geometry_of layout.now).page at)) (F.state flash.old).bytes (F.state flash.new).bytes) }
{
    let page = layout.geometry().page;
    let count = at % page;
    let from = slot.at + at - count;
    copy_out(flash, from, count, layout.scratch().at, page)
}

/// Erases the page of a slot in which the place `at` of the slot lies, and writes the first bytes of the scratch page of the
/// layout to it, as many as lie before the place. Nothing outside the slot's page changes, whatever it answers.
///
/// The place begins a write unit inside a page, and lies before the slot's last page.
pub fn from_scratch<F: Flash>(
    flash: &mut F,
    layout: &Layout,
    slot: Area,
    at: u32,
) -> Result<(), CallFault>
    requires sizes { geometry_of layout.now ≡ (F.state flash.old).geometry }
    requires slot { IsSlotOf layout.now slot }
    requires inner { 0 < at % (geometry_of layout.now).page }
    requires place { at % (geometry_of layout.now).unit ≡ 0 }
    requires inside { at + (geometry_of layout.now).page ≤ slot.length }
    ensures calls { Calls (area_spot (scratch_of layout.now) ∷ (page_begin layout.now slot at, (geometry_of layout.now).page) ∷ []) (ended result) (F.state flash.old) (F.state flash.new) }
    ensures reads { ReadsAtMost (at % (geometry_of layout.now).page) (F.state flash.old).bytes_read (F.state flash.new).bytes_read }
    ensures changes { ChangesAtMost 1 1 (F.state flash.old).changes (F.state flash.new).changes }
    ensures keeps { Told (Keeps (spot (page_begin layout.now slot at) (geometry_of layout.now).page)) (F.state flash.old).bytes (F.state flash.new).bytes }
    ensures ok { OnOk result (Told (Moved (scratch_of layout.now).at (page_begin layout.now slot at) (at % (geometry_of layout.now).page) (tail (geometry_of layout.now).page at)) (F.state flash.old).bytes (F.state flash.new).bytes) }
{
    let page = layout.geometry().page;
    let count = at % page;
    let to = slot.at + at - count;
    copy_back(flash, to, count, layout.scratch().at, page)
}
