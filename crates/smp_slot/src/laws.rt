// Laws of the definitions that the layers above cite, each as the contract of a function that does nothing.
ghost use Rattle.std.specs.Prelude.{◌≤◌, ℕ};
ghost use Rattle.smp_flash.specs.Layout.{geometry_of, slot_of};
ghost use Rattle.smp_flash.specs.declared.layout.Layout.{Layout as Regions};
ghost use Rattle.smp_slot.specs.Slots.{IsSlot};

use smp_flash::regions_lie_apart;

/// The two slots of a layout are rightly placed on its flash.
pub fn slots_fit()
    ensures { (layout : Regions) (n : ℕ) → n ≤ 1 → IsSlot (slot_of layout n) (geometry_of layout) }
{
    regions_lie_apart();
}
