// Laws of the definitions that the layers above cite, each as the contract of a function that does nothing.
ghost use Rattle.std.specs.Prelude.{◌≡◌, ◌+◌, ◌≤◌, List, ℕ, Some, length};
ghost use Rattle.smp_flash.specs.declared.layout.BankPlace.{BankPlace as Place};
ghost use Rattle.smp_gate.specs.Bank.{BankState, BankSays, current};
ghost use Rattle.smp_gate.specs.Cells.{cells_in, standing};
ghost use Rattle.smp_flash.specs.Area.{area, blank, Clear, Keeps};
ghost use Rattle.smp_flash.specs.Geometry.{size_of};
ghost use Rattle.smp_flash.specs.Layout.{geometry_of, progress_of, settings_of};
ghost use Rattle.smp_flash.specs.declared.geometry.Geometry.{Geometry as Sizes};
ghost use Rattle.smp_flash.specs.declared.layout.Layout.{Layout as Regions};
ghost use Rattle.smp_gate.specs.Newest.{Fits, Fresh, newest_side, newest_generation, content_of, AgesAtMost};

/// A change that keeps clear of both sides keeps what the bank's value says, what the bank holds, and its generation.
pub fn bank_outlasts_other_changes()
    ensures says { (bank : BankState) (spots : List (ℕ × ℕ)) (old new : List ℕ) → Clear spots bank.place.first.at 4096 → Clear spots bank.place.second.at 4096
        → Keeps spots old new → BankSays bank old → BankSays bank new }
    ensures holds { (place : Place) (spots : List (ℕ × ℕ)) (old new : List ℕ) → Clear spots place.first.at 4096 → Clear spots place.second.at 4096
        → Keeps spots old new → newest_side place new ≡ newest_side place old }
    ensures content { (place : Place) (cell : ℕ) (spots : List (ℕ × ℕ)) (old new : List ℕ) → Clear spots place.first.at 4096 → Clear spots place.second.at 4096
        → Keeps spots old new → content_of place cell new ≡ content_of place cell old }
{}

/// What the bank's value says, by the bytes: the newest side has its generation, and the bank has a content, with as many cells
/// as gates stand.
pub fn bank_says_what_stands()
    ensures generation { (bank : BankState) (bytes : List ℕ) → BankSays bank bytes → newest_generation bank.place bytes ≡ bank.generation }
    ensures content { (bank : BankState) (bytes : List ℕ) (says : BankSays bank bytes)
        → content_of bank.place bank.cell bytes ≡ Some (record { body = says.body; cells = cells_in bank.cell bank.size (area (current bank.place bank.second) 4096 bytes) }) }
    ensures cells { (bank : BankState) (bytes : List ℕ) → BankSays bank bytes
        → length (cells_in bank.cell bank.size (area (current bank.place bank.second) 4096 bytes)) ≡ standing bank.gates }
{}

/// A generation that never fell in either of two changes, and rose by at most m and n, rose by at most m + n in both.
pub fn ages_add_up()
    ensures none { (place : Place) (bytes : List ℕ) → AgesAtMost 0 place bytes bytes }
    ensures sum { (m n : ℕ) (place : Place) (old middle new : List ℕ) → AgesAtMost m place old middle → AgesAtMost n place middle new → AgesAtMost (m + n) place old new }
{}

/// The two banks of a layout are rightly placed, and on a flash that is all erased both sides of a bank are.
pub fn banks_fit()
    ensures progress { (layout : Regions) → Fits (progress_of layout) (geometry_of layout) }
    ensures settings { (layout : Regions) → Fits (settings_of layout) (geometry_of layout) }
    ensures fresh { (place : Place) (sizes : Sizes) → Fits place sizes → Fresh place (blank (size_of sizes)) }
{}
