// Laws of the definitions that the layers above cite, each as the contract of a function that does nothing.
ghost use Rattle.std.specs.Prelude.{◌≡◌, List, ℕ, true};
ghost use Rattle.smp_flash.specs.Area.{Clear, Keeps};
ghost use Rattle.smp_flash.specs.Layout.{settings_of};
ghost use Rattle.smp_flash.specs.declared.layout.Layout.{Layout as Regions};
ghost use Rattle.smp_model.specs.declared.setting.Setting.{Setting as Stored};
ghost use Rattle.smp_model.specs.Settings.{is_within_limits};
ghost use Rattle.smp_settings.specs.Saved.{SavedStand, SettingsState, SettingsSay, saved_in};

use smp_gate::bank_outlasts_other_changes;
use smp_model::stored_settings_are_read_back;

/// Bytes stand for one map of saved settings at most.
pub fn saved_settings_are_told_apart()
    ensures { (layout : Regions) (x y : List Stored) (bytes : List ℕ) → SavedStand layout x bytes → SavedStand layout y bytes → x ≡ y }
{}

/// Saved settings are within the limits.
pub fn saved_settings_are_within_the_limits()
    ensures { (layout : Regions) (saved : List Stored) (bytes : List ℕ) → SavedStand layout saved bytes → is_within_limits saved ≡ true }
{
    stored_settings_are_read_back();
}

/// A change that keeps clear of the settings bank keeps the saved settings, and what the value says.
pub fn settings_outlast_other_changes()
    ensures saved { (layout : Regions) (spots : List (ℕ × ℕ)) (old new : List ℕ) → Clear spots (settings_of layout).first.at 4096
        → Clear spots (settings_of layout).second.at 4096 → Keeps spots old new → saved_in layout new ≡ saved_in layout old }
    ensures says { (s : SettingsState) (spots : List (ℕ × ℕ)) (old new : List ℕ) → Clear spots (settings_of s.layout).first.at 4096
        → Clear spots (settings_of s.layout).second.at 4096 → Keeps spots old new → SettingsSay s old → SettingsSay s new }
{
    bank_outlasts_other_changes();
}
