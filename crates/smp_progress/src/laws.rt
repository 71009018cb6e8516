// Laws of the definitions that the layers above cite, each as the contract of a function that does nothing.
ghost use Rattle.std.specs.Prelude.{◌≡◌, List, ℕ};
ghost use Rattle.smp_flash.specs.Area.{Clear, Keeps};
ghost use Rattle.smp_flash.specs.Layout.{geometry_of, progress_of};
ghost use Rattle.smp_flash.specs.declared.layout.Layout.{Layout as Regions};
ghost use Rattle.smp_progress.specs.Cells.{HasRecord};
ghost use Rattle.smp_progress.specs.Record.{IsRecord};
ghost use Rattle.smp_progress.specs.State.{ProgressState, ProgressSays};
ghost use Rattle.smp_progress.specs.declared.record.Record.{Record as Recorded};

use smp_gate::bank_outlasts_other_changes;

/// Bytes hold one record at most.
pub fn records_are_told_apart()
    ensures { (layout : Regions) (x y : Recorded) (bytes : List ℕ) → HasRecord layout x bytes → HasRecord layout y bytes → x ≡ y }
{}

/// A record that bytes hold may stand on a flash of these sizes.
pub fn records_are_lawful()
    ensures { (layout : Regions) (entry : Recorded) (bytes : List ℕ) → HasRecord layout entry bytes → IsRecord (geometry_of layout) entry }
{}

/// A change that keeps clear of the bank keeps its record, and what the value says.
pub fn progress_outlasts_other_changes()
    ensures holds { (layout : Regions) (entry : Recorded) (spots : List (ℕ × ℕ)) (old new : List ℕ) → Clear spots (progress_of layout).first.at 4096
        → Clear spots (progress_of layout).second.at 4096 → Keeps spots old new → HasRecord layout entry old → HasRecord layout entry new }
    ensures says { (p : ProgressState) (spots : List (ℕ × ℕ)) (old new : List ℕ) → Clear spots (progress_of p.layout).first.at 4096
        → Clear spots (progress_of p.layout).second.at 4096 → Keeps spots old new → ProgressSays p old → ProgressSays p new }
{
    bank_outlasts_other_changes();
}
