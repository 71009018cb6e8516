// Laws of the definitions that the layers above cite, each as the contract of a function that does nothing.
ghost use Rattle.std.specs.Prelude.{◌≡◌, ◌*◌, ◌+◌, ◌<◌, ◌≤◌, ◌%◌, List, ℕ, IsTrue, IfSome, Some, length, false};
ghost use Rattle.smp_flash.specs.Area.{area, AreBytes, Clear};
ghost use Rattle.smp_flash.specs.Calls.{Calls, ReadsAtMost, ChangesAtMost, PassesFaultsOn};
ghost use Rattle.smp_flash.specs.Geometry.{is_lawful, size_of, Regular, IsPage, room, tail};
ghost use Rattle.smp_flash.specs.Layout.{Arranged, ArrangedTogether, CountsInRegions, SparesOthers, geometry_of, image_of};
ghost use Rattle.smp_flash.specs.Region.{Spares, is_any, region_at, region_size};
ghost use Rattle.smp_flash.specs.State.{FlashState, End};
ghost use Rattle.smp_flash.specs.State.End.{Went};
ghost use Rattle.smp_flash.specs.declared.geometry.Geometry.{Geometry as Sizes};
ghost use Rattle.smp_flash.specs.declared.layout.Layout.{Layout as Regions};
ghost use Rattle.smp_flash.specs.declared.region.Region.{Region as Aim};

use crate::flash::Flash;

/// The regions of a layout lie apart and inside the flash, and have whole pages.
pub fn regions_lie_apart()
    ensures { (layout : Regions) → Arranged layout }
{}

/// On a flash of two images the regions of both lie apart.
pub fn images_lie_apart()
    ensures { (first second : Regions) → geometry_of second ≡ geometry_of first → image_of first ≡ 0 → image_of second ≡ 1
        → ArrangedTogether first second }
{}

/// What lawful sizes have in common.
pub fn pages_are_whole()
    ensures { (g : Sizes) → IsTrue (is_lawful g) → Regular g }
{}

/// Where a flash tells its bytes, they are as many as its sizes say, and each is a byte.
pub fn told_bytes_have_the_size<F: Flash>(flash: &F)
    ensures size { IfSome (F.state flash.now).bytes (λ held. length held ≡ size_of (F.state flash.now).geometry) }
    ensures bytes { IfSome (F.state flash.now).bytes AreBytes }
{
    let _sizes = flash.geometry();
}

/// A call that went through and then one that ended somehow are one call that ended so; their reads, writes and erases add up.
pub fn calls_compose()
    ensures calls { (spots : List (ℕ × ℕ)) (end : End) (a b c : FlashState) → Calls spots Went a b → Calls spots end b c → Calls spots end a c }
    ensures reads { (m n : ℕ) (a b c : FlashState) → ReadsAtMost m a.bytes_read b.bytes_read → ReadsAtMost n b.bytes_read c.bytes_read → ReadsAtMost (m + n) a.bytes_read c.bytes_read }
    ensures changes { (m n i j : ℕ) (a b c : FlashState) → ChangesAtMost m i a.changes b.changes → ChangesAtMost n j b.changes c.changes → ChangesAtMost (m + n) (i + j) a.changes c.changes }
{}

/// A call that goes on after a fault of one of its calls, and meets no other, ends by that fault.
pub fn calls_then_nothing_more()
    ensures { (spots : List (ℕ × ℕ)) (end : End) (a b c : FlashState) → Calls spots end a b → Calls spots Went b c → Calls spots end a c }
{}

/// A call passes faults on.
pub fn calls_pass_faults_on()
    ensures { (spots : List (ℕ × ℕ)) (end : End) (a b : FlashState) → Calls spots end a b → PassesFaultsOn spots end a b }
{}

/// What begins in a slot or a bank of an image counts in its region; of a bank's gates the writes of a gate count.
pub fn regions_count_what_begins_there()
    ensures { (layout : Regions) → CountsInRegions layout }
{}

/// Operations on the settings bank count in no region but `Any` and the settings' own. Operations on the secondary slot, the
/// progress bank and the scratch page of an image, and on its primary slot, count in none of the settings' and of the other
/// image's regions.
pub fn regions_spare_each_other()
    ensures { (layout : Regions) → SparesOthers layout }
{}

/// Operations in spots that lie apart from a region spare an aim at it.
pub fn spots_spare_what_lies_apart()
    ensures { (g : Sizes) (region : Aim) (spots : List (ℕ × ℕ)) → is_any region ≡ false
        → Clear spots (region_at g region) (region_size g region) → Spares g (Some region) spots }
{}
