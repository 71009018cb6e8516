// Laws of the definitions that the layers above cite, each as the contract of a function that does nothing.
ghost use Rattle.std.specs.Prelude.{◌≡◌, List, ℕ};
ghost use Rattle.smp_flash.specs.Area.{Keeps};
ghost use Rattle.smp_flash.specs.declared.layout.Layout.{Layout as Regions};
ghost use Rattle.smp_model.specs.declared.device.Side.{Side as Slots};
ghost use Rattle.smp_upload.specs.Bytes.{Apart, SideStands};
ghost use Rattle.smp_upload.specs.States.{Known, Says};

use smp_progress::{progress_outlasts_other_changes, records_are_told_apart};

/// A flash stands for one side at most.
pub fn sides_are_told_apart()
    ensures { (layout : Regions) (x y : Slots) (bytes : List ℕ) → SideStands layout x bytes → SideStands layout y bytes → x ≡ y }
{
    records_are_told_apart();
}

/// Changes that keep clear of a side keep what the bytes stand for, and what a state says.
pub fn sides_outlast_other_changes()
    ensures stand { (layout : Regions) (side : Slots) (spots : List (ℕ × ℕ)) (old new : List ℕ) → Apart layout spots → Keeps spots old new → SideStands layout side old → SideStands layout side new }
    ensures say { (known : Known) (spots : List (ℕ × ℕ)) (old new : List ℕ) → Apart known.layout spots → Keeps spots old new → Says known old → Says known new }
{
    progress_outlasts_other_changes();
}
