// The settings of a device: the running map and the saved one.
ghost use Rattle.std.specs.Prelude.{◌≡◌, ◌≢◌, ◌⊎◌, ◌↔◌, ◌-◌, ◌^◌, ◌≤◌, [], ◌∷◌, length, option_map, IsTrue, IsOk, IsErrOf, OnOk, OnErr, IfOk, IfSome, IsSome, None, true, false};
ghost use Rattle.smp_flash.specs.Area.{area, Told};
ghost use Rattle.smp_flash.specs.Calls.{Calls, ReadsAtMost, ChangesAtMost, Smaller};
ghost use Rattle.smp_flash.specs.Layout.{geometry_of, settings_of, bank_spots};
ghost use Rattle.smp_gate.specs.Fault.{bank_end};
ghost use Rattle.smp_gate.specs.Newest.{Fresh, AgesAtMost, SameNewest, IsFull};
ghost use Rattle.smp_gate.specs.Side.{whole_side};
ghost use Rattle.smp_model.specs.Settings.{stored_form, value_of, deleted_setting, is_setting_name, is_within_limits};
ghost use Rattle.smp_model.specs.SettingsGroup.{writes_setting, deletes_setting};
ghost use Rattle.smp_settings.specs.Cells.{cell_length};
ghost use Rattle.smp_settings.specs.Found.{HoldsBank};
ghost use Rattle.smp_settings.specs.Places.{CellSaves};
ghost use Rattle.smp_settings.specs.Saved.{SavedStand, SavedReadable, SavedAlready, SavedOrThis, SavedAnew, SavesCheaply, OneCellIsEnough, OneCellSaves, KeepsSide, ElseAnew, IsWorn, AimsAtSettings, SaysSaved, SettingsSay, after_write, erases_needed, opening_reads, written_response, deleted_response};

use crate::cell::CELL;
use crate::difference::{is_same, write_change};
use crate::fault::SettingFault;
use crate::form::write_form;
use crate::saved::{Found, find_saved};
use crate::table::Table;
use arrayvec::ArrayVec;
use smp_flash::{Flash, Layout, regions_count_what_begins_there};
use smp_gate::{Bank, BankFault, bank_says_what_stands, banks_fit};
use smp_model::stored_settings_are_read_back;
use std::marker::Model;

/// The running settings, and the bank of the saved ones with what it holds.
///
/// The value speaks of one flash. Between its calls, other calls may change that flash outside the settings bank.
#[derive(Drop)]
pub struct Settings {
    layout: Layout,
    bank: Bank,
    saved: Table,
    running: Table,
    form: ArrayVec<u8, 3072>,
}

impl Model for Settings {
    ghost use Rattle.std.specs.Prelude.{◌≡◌, true};
    ghost use Rattle.smp_flash.specs.Layout.{settings_of};
    ghost use Rattle.smp_model.specs.Settings.{is_within_limits, stored_form};
    ghost use Rattle.smp_settings.specs.Cells.{cell_length};
    ghost use Rattle.smp_settings.specs.Saved.{SettingsState};

    ghost Value = { SettingsState };

    ghost view = { λ s. record { layout = s.layout; bank = s.bank; saved = s.saved; running = s.running; form = s.form.items } };

    ghost invariant = { λ s. (s.bank.place ≡ settings_of s.layout) × (s.bank.cell ≡ cell_length) × (is_within_limits s.saved ≡ true) × (is_within_limits s.running ≡ true) × (s.form.items ≡ stored_form s.saved) };
}

impl Settings {
    /// Makes the bank on two erased sides, with no settings saved. None run.
    pub fn make<F: Flash>(flash: &mut F, layout: &Layout) -> Result<Settings, BankFault>
        requires layout { geometry_of layout.now ≡ (F.state flash.old).geometry }
        requires erased { IfSome (F.state flash.old).bytes (Fresh (settings_of layout.now)) }
        ensures calls { Calls (bank_spots (settings_of layout.now)) (bank_end result) (F.state flash.old) (F.state flash.new) }
        ensures reads { ReadsAtMost 0 (F.state flash.old).bytes_read (F.state flash.new).bytes_read }
        ensures changes { ChangesAtMost 2 0 (F.state flash.old).changes (F.state flash.new).changes }
        ensures ages { Told (AgesAtMost 1 (settings_of layout.now)) (F.state flash.old).bytes (F.state flash.new).bytes }
        ensures settings { IfOk result (λ s. (s.layout ≡ layout.now) × (s.bank.sure ≡ true) × (s.running ≡ []) × (s.saved ≡ [])) }
        ensures generation { IfOk result (λ s. s.bank.generation ≡ 1) }
        ensures says { IfOk result (λ s. IfSome (F.state flash.new).bytes (SettingsSay s)) }
        ensures side { OnOk result (IfSome (F.state flash.new).bytes (λ held. area (settings_of layout.now).first.at 4096 held ≡ whole_side 1 (1 ∷ 0 ∷ []))) }
        ensures formatted { IsErrOf result BankFault.Unformatted → ⊥ }
        ensures full { IsErrOf result BankFault.Full → ⊥ }
        ensures worn { IsErrOf result BankFault.Worn → ⊥ }
    {
        let saved = Table::new();
        let mut form = ArrayVec::new();
        write_form(&saved, &mut form);
        match Bank::make(flash, layout.settings(), CELL, form.as_slice()) {
            Ok(bank) => Ok(Settings {
                layout: *layout,
                bank,
                saved,
                running: Table::new(),
                form,
            }),
            Err(fault) => Err(fault),
        }
    }

    /// Opens the bank. The saved settings are then the running ones. No byte of the flash changes.
    pub fn open<F: Flash>(flash: &mut F, layout: &Layout) -> Result<Settings, BankFault>
        requires layout { geometry_of layout.now ≡ (F.state flash.old).geometry }
        ensures calls { Calls (bank_spots (settings_of layout.now)) (bank_end result) (F.state flash.old) (F.state flash.new) }
        ensures kept { (F.state flash.new).bytes ≡ (F.state flash.old).bytes }
        ensures reads { IfOk result (λ s. ReadsAtMost (opening_reads s.bank) (F.state flash.old).bytes_read (F.state flash.new).bytes_read) }
        ensures most_read { IfSome (F.state flash.old).bytes (λ held. ReadsAtMost 8208 (F.state flash.old).bytes_read (F.state flash.new).bytes_read) }
        ensures changes { ChangesAtMost 0 0 (F.state flash.old).changes (F.state flash.new).changes }
        ensures settings { IfOk result (λ s. (s.layout ≡ layout.now) × (s.bank.sure ≡ true) × (s.running ≡ s.saved)) }
        ensures form { IfOk result (λ s. s.form ≡ stored_form s.saved) }
        ensures says { IfOk result (λ s. IfSome (F.state flash.new).bytes (SettingsSay s)) }

        // Exactly where the content gives no map: on Ok it gives one, by `says`.
        ensures unformatted { IsErrOf result BankFault.Unformatted → IfSome (F.state flash.new).bytes (λ held. SavedReadable layout.now held → ⊥) }
        ensures full { IsErrOf result BankFault.Full → ⊥ }
        ensures worn { IsErrOf result BankFault.Worn → ⊥ }
    {
        match find_saved(flash, layout) {
            Ok(found) => Ok(opened(*layout, found)),
            Err(fault) => Err(fault),
        }
    }

    /// The value of a name that runs. None exactly where the name does not run.
    pub fn read(&self, name: &str) -> Option<&[u8]>
        ensures val { option_map (λ val. val.now) result ≡ value_of name.now self.now.running }
        ensures most { IfSome result (λ val. length val.now ≤ 128) }
    {
        self.running.value(name)
    }

    /// Gives a name a value, by the limits: its name has 1 to 32 bytes, the value at most 128, and there is room for it.
    pub fn write(&mut self, name: &str, val: &[u8]) -> Result<(), SettingFault>
        ensures responded { writes_setting self.old.running name.now val.now ≡ written_response result name.now val.now }
        ensures written { self.new ≡ record self.old { running = after_write result name.now val.now self.old.running } }
    {
        if name.is_empty() || name.len() > 32 {
            return Err(SettingFault::NameLength);
        }
        if val.len() > 128 {
            return Err(SettingFault::ValueLength);
        }
        if self.running.is_full(name, val) {
            return Err(SettingFault::Full);
        }
        self.running.put(name, val);
        Ok(())
    }

    /// Deletes a name. False exactly where it does not run.
    pub fn delete(&mut self, name: &str) -> bool
        ensures there { IsTrue result ↔ IsSome (value_of name.now self.old.running) }
        ensures responded { IsTrue (is_setting_name name.now) → deletes_setting self.old.running name.now ≡ deleted_response result name.now }
        ensures deleted { self.new ≡ record self.old { running = deleted_setting name.now self.old.running } }
    {
        self.running.remove(name)
    }

    /// Makes the saved settings the running ones. No byte of the flash changes. A refusal leaves all as it was.
    pub fn load<F: Flash>(&mut self, flash: &mut F) -> Result<(), BankFault>
        requires layout { geometry_of self.old.layout ≡ (F.state flash.old).geometry }
        requires says { IfSome (F.state flash.old).bytes (SettingsSay self.old) }
        ensures calls { Calls (bank_spots (settings_of self.old.layout)) (bank_end result) (F.state flash.old) (F.state flash.new) }
        ensures kept { (F.state flash.new).bytes ≡ (F.state flash.old).bytes }
        ensures reads { OnOk result (ReadsAtMost (opening_reads self.new.bank) (F.state flash.old).bytes_read (F.state flash.new).bytes_read) }
        ensures most_read { IfSome (F.state flash.old).bytes (λ held. ReadsAtMost 8208 (F.state flash.old).bytes_read (F.state flash.new).bytes_read) }
        ensures changes { ChangesAtMost 0 0 (F.state flash.old).changes (F.state flash.new).changes }
        ensures says { IfSome (F.state flash.new).bytes (SettingsSay self.new) }
        ensures layout { self.new.layout ≡ self.old.layout }
        ensures loaded { OnOk result ((self.new.running ≡ self.new.saved) × (self.new.bank.sure ≡ true)) }
        ensures refused { OnErr result (self.new ≡ self.old) }

        // Never where the bytes are told: there was a map.
        ensures formatted { IsErrOf result BankFault.Unformatted → (F.state flash.old).bytes ≡ None }
        ensures full { IsErrOf result BankFault.Full → ⊥ }
        ensures worn { IsErrOf result BankFault.Worn → ⊥ }
    {
        match find_saved(flash, &self.layout) {
            Ok(found) => {
                *self = opened(self.layout, found);
                Ok(())
            }
            Err(fault) => Err(fault),
        }
    }

    /// Makes the running settings the saved ones: by no operation where nothing differs from what is saved, by one cell where one
    /// name differs and a cell is free, and else by a side of their stored form. What several names differ in is never spread over
    /// cells.
    ///
    /// At every exit what is saved is as before, or is what runs. A bank that isn't sure, which it is after a `Fault` or `Off`, is
    /// opened again first. Then `Worn` comes before any other operation, exactly where the generation is 4294967295, also where
    /// nothing differs.
    pub fn save<F: Flash>(&mut self, flash: &mut F) -> Result<(), BankFault>
        requires layout { geometry_of self.old.layout ≡ (F.state flash.old).geometry }
        requires says { IfSome (F.state flash.old).bytes (SettingsSay self.old) }
        ensures calls { Calls (bank_spots (settings_of self.old.layout)) (bank_end result) (F.state flash.old) (F.state flash.new) }
        ensures reads { self.old.bank.sure ≡ true → ReadsAtMost 4096 (F.state flash.old).bytes_read (F.state flash.new).bytes_read }
        ensures spared { self.old.bank.sure ≡ true → IfSome (F.state flash.old).bytes (λ held. KeepsSide self.old.layout self.old.running held → ReadsAtMost 0 (F.state flash.old).bytes_read (F.state flash.new).bytes_read) }
        ensures most_read { IfSome (F.state flash.old).bytes (λ held. ReadsAtMost 12304 (F.state flash.old).bytes_read (F.state flash.new).bytes_read) }
        ensures changes { ChangesAtMost 2 8 (F.state flash.old).changes (F.state flash.new).changes }
        ensures erases { self.old.bank.sure ≡ true → IfSome (F.state flash.old).bytes (λ held. ChangesAtMost 2 (erases_needed (F.state flash.old).geometry.page self.old.bank held) (F.state flash.old).changes (F.state flash.new).changes) }
        ensures either { Told (SavedOrThis self.old.layout self.old.running) (F.state flash.old).bytes (F.state flash.new).bytes }
        ensures all { OnOk result (IfSome (F.state flash.new).bytes (SavedStand self.old.layout self.old.running)) }

        // The cheapest way that is safe, whatever it answers; and where neither is enough, the whole side.
        ensures cheap { Told (SavesCheaply self.old.layout self.old.running (F.state flash.old).changes (F.state flash.new).changes) (F.state flash.old).bytes (F.state flash.new).bytes }
        ensures anew { OnOk result (Told (ElseAnew self.old.layout self.old.running) (F.state flash.old).bytes (F.state flash.new).bytes) }
        ensures ages { Told (AgesAtMost 1 (settings_of self.old.layout)) (F.state flash.old).bytes (F.state flash.new).bytes }
        ensures says { IfSome (F.state flash.new).bytes (SettingsSay self.new) }
        ensures layout { self.new.layout ≡ self.old.layout }
        ensures running { self.new.running ≡ self.old.running }
        ensures saved { OnOk result (SaysSaved self.old.running self.new) }
        ensures refused { OnErr result ((self.new.saved ≡ self.old.saved) ⊎ IfSome (F.state flash.old).bytes (SavedStand self.old.layout self.new.saved)) }
        ensures sure_refused { self.old.bank.sure ≡ true → OnErr result (self.new.saved ≡ self.old.saved) }
        ensures worn { IsErrOf result BankFault.Worn → IfSome (F.state flash.old).bytes (IsWorn self.old.layout) }
        ensures fresh { OnOk result (IfSome (F.state flash.old).bytes (λ held. IsWorn self.old.layout held → ⊥)) }
        ensures sure_worn { self.old.bank.sure ≡ true → IsErrOf result BankFault.Worn ↔ (self.old.bank.generation ≡ 2 ^ 32 - 1) }
        ensures idle { IfSome (F.state flash.old).bytes (λ held. IsWorn self.old.layout held → ((F.state flash.new).bytes ≡ (F.state flash.old).bytes) × ChangesAtMost 0 0 (F.state flash.old).changes (F.state flash.new).changes) }
        ensures sure_idle { self.old.bank.sure ≡ true → self.old.bank.generation ≡ 2 ^ 32 - 1 → (F.state flash.new ≡ F.state flash.old) × (self.new ≡ self.old) }
        ensures formatted { IsErrOf result BankFault.Unformatted → (F.state flash.old).bytes ≡ None }
        ensures full { IsErrOf result BankFault.Full → ⊥ }
        ensures pays { OnOk result (IfSome (F.state flash.old).bytes (λ held. (SavedAlready self.old.layout self.old.running held → ⊥) → AimsAtSettings (F.state flash.old).aim → Smaller (F.state flash.old).patience (F.state flash.new).patience)) }
    {
        bank_says_what_stands();
        match self.make_sure(flash) {
            Ok(()) => self.store(flash),
            Err(fault) => Err(fault),
        }
    }

    /// Opens the bank again where it isn't sure.
    fn make_sure<F: Flash>(&mut self, flash: &mut F) -> Result<(), BankFault>
        requires layout { geometry_of self.old.layout ≡ (F.state flash.old).geometry }
        requires says { IfSome (F.state flash.old).bytes (SettingsSay self.old) }
        ensures calls { Calls (bank_spots (settings_of self.old.layout)) (bank_end result) (F.state flash.old) (F.state flash.new) }
        ensures kept { (F.state flash.new).bytes ≡ (F.state flash.old).bytes }
        ensures most_read { IfSome (F.state flash.old).bytes (λ held. ReadsAtMost 8208 (F.state flash.old).bytes_read (F.state flash.new).bytes_read) }
        ensures changes { ChangesAtMost 0 0 (F.state flash.old).changes (F.state flash.new).changes }
        ensures says { IfSome (F.state flash.new).bytes (SettingsSay self.new) }
        ensures layout { self.new.layout ≡ self.old.layout }
        ensures running { self.new.running ≡ self.old.running }
        ensures sure { OnOk result (self.new.bank.sure ≡ true) }
        ensures refused { OnErr result (self.new ≡ self.old) }
        ensures same { self.old.bank.sure ≡ true → (IsOk result) × (self.new ≡ self.old) × (F.state flash.new ≡ F.state flash.old) }
        ensures formatted { IsErrOf result BankFault.Unformatted → (F.state flash.old).bytes ≡ None }
        ensures full { IsErrOf result BankFault.Full → ⊥ }
        ensures worn { IsErrOf result BankFault.Worn → ⊥ }
    {
        if self.bank.is_sure() {
            return Ok(());
        }
        match find_saved(flash, &self.layout) {
            Ok(found) => {
                self.bank = found.bank;
                self.saved = found.saved;
                write_form(&self.saved, &mut self.form);
                Ok(())
            }
            Err(fault) => Err(fault),
        }
    }

    /// Whether nothing differs from what is saved.
    fn is_saved(&self) -> bool
        ensures same { IsTrue result → self.now.running ≡ self.now.saved }
        ensures differ { result ≡ false → self.now.running ≢ self.now.saved }
    {
        is_same(self.running.as_slice(), self.saved.as_slice())
    }

    /// Saves what runs in a sure bank. `Worn` comes before any operation on the flash.
    fn store<F: Flash>(&mut self, flash: &mut F) -> Result<(), BankFault>
        requires layout { geometry_of self.old.layout ≡ (F.state flash.old).geometry }
        requires says { IfSome (F.state flash.old).bytes (SettingsSay self.old) }
        requires sure { self.old.bank.sure ≡ true }
        ensures calls { Calls (bank_spots (settings_of self.old.layout)) (bank_end result) (F.state flash.old) (F.state flash.new) }
        ensures reads { ReadsAtMost 4096 (F.state flash.old).bytes_read (F.state flash.new).bytes_read }
        ensures spared { IfSome (F.state flash.old).bytes (λ held. KeepsSide self.old.layout self.old.running held → ReadsAtMost 0 (F.state flash.old).bytes_read (F.state flash.new).bytes_read) }
        ensures changes { ChangesAtMost 2 8 (F.state flash.old).changes (F.state flash.new).changes }
        ensures erases { IfSome (F.state flash.old).bytes (λ held. ChangesAtMost 2 (erases_needed (F.state flash.old).geometry.page self.old.bank held) (F.state flash.old).changes (F.state flash.new).changes) }
        ensures either { Told (SavedOrThis self.old.layout self.old.running) (F.state flash.old).bytes (F.state flash.new).bytes }
        ensures all { OnOk result (IfSome (F.state flash.new).bytes (SavedStand self.old.layout self.old.running)) }
        ensures cheap { Told (SavesCheaply self.old.layout self.old.running (F.state flash.old).changes (F.state flash.new).changes) (F.state flash.old).bytes (F.state flash.new).bytes }
        ensures anew { OnOk result (Told (ElseAnew self.old.layout self.old.running) (F.state flash.old).bytes (F.state flash.new).bytes) }
        ensures ages { Told (AgesAtMost 1 (settings_of self.old.layout)) (F.state flash.old).bytes (F.state flash.new).bytes }
        ensures says { IfSome (F.state flash.new).bytes (SettingsSay self.new) }
        ensures layout { self.new.layout ≡ self.old.layout }
        ensures running { self.new.running ≡ self.old.running }
        ensures saved { OnOk result (SaysSaved self.old.running self.new) }
        ensures refused { OnErr result (self.new.saved ≡ self.old.saved) }
        ensures worn { IsErrOf result BankFault.Worn ↔ (self.old.bank.generation ≡ 2 ^ 32 - 1) }
        ensures idle { self.old.bank.generation ≡ 2 ^ 32 - 1 → (F.state flash.new ≡ F.state flash.old) × (self.new ≡ self.old) }
        ensures formatted { IsErrOf result BankFault.Unformatted → ⊥ }
        ensures full { IsErrOf result BankFault.Full → ⊥ }
        ensures pays { OnOk result (IfSome (F.state flash.old).bytes (λ held. (SavedAlready self.old.layout self.old.running held → ⊥) → AimsAtSettings (F.state flash.old).aim → Smaller (F.state flash.old).patience (F.state flash.new).patience)) }
    {
        if self.bank.generation() == u32::MAX {
            return Err(BankFault::Worn);
        }
        if self.is_saved() {
            return Ok(());
        }
        self.store_changes(flash)
    }

    /// Saves what runs, which differs from what is saved, in a sure bank that isn't worn.
    fn store_changes<F: Flash>(&mut self, flash: &mut F) -> Result<(), BankFault>
        requires layout { geometry_of self.old.layout ≡ (F.state flash.old).geometry }
        requires says { IfSome (F.state flash.old).bytes (SettingsSay self.old) }
        requires sure { self.old.bank.sure ≡ true }
        requires fresh { self.old.bank.generation ≢ 2 ^ 32 - 1 }
        requires differ { self.old.running ≢ self.old.saved }
        ensures calls { Calls (bank_spots (settings_of self.old.layout)) (bank_end result) (F.state flash.old) (F.state flash.new) }
        ensures reads { ReadsAtMost 4096 (F.state flash.old).bytes_read (F.state flash.new).bytes_read }
        ensures spared { IfSome (F.state flash.old).bytes (λ held. OneCellSaves self.old.layout self.old.running held → ReadsAtMost 0 (F.state flash.old).bytes_read (F.state flash.new).bytes_read) }
        ensures changes { ChangesAtMost 2 8 (F.state flash.old).changes (F.state flash.new).changes }
        ensures erases { IfSome (F.state flash.old).bytes (λ held. ChangesAtMost 2 (erases_needed (F.state flash.old).geometry.page self.old.bank held) (F.state flash.old).changes (F.state flash.new).changes) }
        ensures either { Told (SavedOrThis self.old.layout self.old.running) (F.state flash.old).bytes (F.state flash.new).bytes }
        ensures all { OnOk result (IfSome (F.state flash.new).bytes (SavedStand self.old.layout self.old.running)) }
        ensures cell { Told (OneCellIsEnough self.old.layout self.old.running (F.state flash.old).changes (F.state flash.new).changes) (F.state flash.old).bytes (F.state flash.new).bytes }
        ensures anew { OnOk result (Told (ElseAnew self.old.layout self.old.running) (F.state flash.old).bytes (F.state flash.new).bytes) }
        ensures ages { Told (AgesAtMost 1 (settings_of self.old.layout)) (F.state flash.old).bytes (F.state flash.new).bytes }
        ensures says { IfSome (F.state flash.new).bytes (SettingsSay self.new) }
        ensures layout { self.new.layout ≡ self.old.layout }
        ensures running { self.new.running ≡ self.old.running }
        ensures saved { OnOk result (SaysSaved self.old.running self.new) }
        ensures refused { OnErr result (self.new.saved ≡ self.old.saved) }
        ensures worn { IsErrOf result BankFault.Worn → ⊥ }
        ensures formatted { IsErrOf result BankFault.Unformatted → ⊥ }
        ensures full { IsErrOf result BankFault.Full → ⊥ }
        ensures pays { OnOk result (AimsAtSettings (F.state flash.old).aim → Smaller (F.state flash.old).patience (F.state flash.new).patience) }
    {
        let mut cell = ArrayVec::new();
        if !write_change(&self.saved, &self.running, &mut cell) {
            return self.replace(flash);
        }
        match self.append(flash, cell.as_slice()) {
            Ok(added) => {
                if added {
                    return Ok(());
                }
                self.replace(flash)
            }
            Err(fault) => Err(fault),
        }
    }

    /// Appends the cell of the one change by which what runs differs from what is saved. Answers whether one was free: else
    /// nothing changed.
    fn append<F: Flash>(&mut self, flash: &mut F, cell: &[u8]) -> Result<bool, BankFault>
        requires layout { geometry_of self.old.layout ≡ (F.state flash.old).geometry }
        requires says { IfSome (F.state flash.old).bytes (SettingsSay self.old) }
        requires sure { self.old.bank.sure ≡ true }
        requires cell { CellSaves self.old.saved self.old.running cell.now }
        ensures calls { Calls (bank_spots (settings_of self.old.layout)) (bank_end result) (F.state flash.old) (F.state flash.new) }
        ensures reads { ReadsAtMost 0 (F.state flash.old).bytes_read (F.state flash.new).bytes_read }
        ensures changes { ChangesAtMost 2 0 (F.state flash.old).changes (F.state flash.new).changes }
        ensures either { Told (SavedOrThis self.old.layout self.old.running) (F.state flash.old).bytes (F.state flash.new).bytes }
        ensures newest { Told (SameNewest (settings_of self.old.layout)) (F.state flash.old).bytes (F.state flash.new).bytes }
        ensures ages { Told (AgesAtMost 0 (settings_of self.old.layout)) (F.state flash.old).bytes (F.state flash.new).bytes }
        ensures says { IfSome (F.state flash.new).bytes (SettingsSay self.new) }
        ensures layout { self.new.layout ≡ self.old.layout }
        ensures running { self.new.running ≡ self.old.running }
        ensures added { IfOk result (λ added. added ≡ true → SaysSaved self.old.running self.new) }
        ensures refused { OnErr result (self.new.saved ≡ self.old.saved) }
        ensures all { IfOk result (λ added. added ≡ true → IfSome (F.state flash.new).bytes (SavedStand self.old.layout self.old.running)) }
        ensures free { IfOk result (λ added. added ≡ true → IfSome (F.state flash.old).bytes (λ held. IsFull (settings_of self.old.layout) cell_length held → ⊥)) }
        ensures none_free { IfOk result (λ added. added ≡ false → IfSome (F.state flash.old).bytes (IsFull (settings_of self.old.layout) cell_length)) }
        ensures idle { IfOk result (λ added. added ≡ false → (F.state flash.new ≡ F.state flash.old) × (self.new ≡ self.old)) }
        ensures formatted { IsErrOf result BankFault.Unformatted → ⊥ }
        ensures full { IsErrOf result BankFault.Full → ⊥ }
        ensures worn { IsErrOf result BankFault.Worn → ⊥ }
        ensures pays { IfOk result (λ added. added ≡ true → AimsAtSettings (F.state flash.old).aim → Smaller (F.state flash.old).patience (F.state flash.new).patience) }
    {
        banks_fit();
        bank_says_what_stands();
        regions_count_what_begins_there();
        match self.bank.append(flash, cell) {
            Ok(()) => {
                self.saved = self.running.copy();
                write_form(&self.saved, &mut self.form);
                Ok(true)
            }
            Err(fault) => match fault {
                BankFault::Full => Ok(false),
                other => Err(other),
            },
        }
    }

    /// Replaces what the bank holds by the stored form of the running settings.
    fn replace<F: Flash>(&mut self, flash: &mut F) -> Result<(), BankFault>
        requires layout { geometry_of self.old.layout ≡ (F.state flash.old).geometry }
        requires says { IfSome (F.state flash.old).bytes (SettingsSay self.old) }
        requires sure { self.old.bank.sure ≡ true }
        ensures calls { Calls (bank_spots (settings_of self.old.layout)) (bank_end result) (F.state flash.old) (F.state flash.new) }
        ensures reads { ReadsAtMost 4096 (F.state flash.old).bytes_read (F.state flash.new).bytes_read }
        ensures changes { ChangesAtMost 2 8 (F.state flash.old).changes (F.state flash.new).changes }
        ensures erases { IfSome (F.state flash.old).bytes (λ held. ChangesAtMost 2 (erases_needed (F.state flash.old).geometry.page self.old.bank held) (F.state flash.old).changes (F.state flash.new).changes) }
        ensures either { Told (SavedOrThis self.old.layout self.old.running) (F.state flash.old).bytes (F.state flash.new).bytes }
        ensures all { OnOk result (IfSome (F.state flash.new).bytes (SavedStand self.old.layout self.old.running)) }
        ensures anew { OnOk result (Told (SavedAnew self.old.layout self.old.running) (F.state flash.old).bytes (F.state flash.new).bytes) }
        ensures ages { Told (AgesAtMost 1 (settings_of self.old.layout)) (F.state flash.old).bytes (F.state flash.new).bytes }
        ensures says { IfSome (F.state flash.new).bytes (SettingsSay self.new) }
        ensures layout { self.new.layout ≡ self.old.layout }
        ensures running { self.new.running ≡ self.old.running }
        ensures saved { OnOk result (SaysSaved self.old.running self.new) }
        ensures refused { OnErr result (self.new.saved ≡ self.old.saved) }
        ensures worn { IsErrOf result BankFault.Worn ↔ (self.old.bank.generation ≡ 2 ^ 32 - 1) }
        ensures idle { self.old.bank.generation ≡ 2 ^ 32 - 1 → F.state flash.new ≡ F.state flash.old }
        ensures formatted { IsErrOf result BankFault.Unformatted → ⊥ }
        ensures full { IsErrOf result BankFault.Full → ⊥ }
        ensures pays { OnOk result (AimsAtSettings (F.state flash.old).aim → Smaller (F.state flash.old).patience (F.state flash.new).patience) }
    {
        banks_fit();
        bank_says_what_stands();
        regions_count_what_begins_there();
        stored_settings_are_read_back();
        let mut form = ArrayVec::new();
        write_form(&self.running, &mut form);
        match self.bank.replace(flash, form.as_slice()) {
            Ok(()) => {
                self.saved = self.running.copy();
                self.form = form;
                Ok(())
            }
            Err(fault) => Err(fault),
        }
    }

    /// The stored form of the saved settings that were found or written last.
    pub fn saved_form(&self) -> &[u8]
        ensures form { result.now ≡ self.now.form }
        ensures saved { result.now ≡ stored_form self.now.saved }
    {
        self.form.as_slice()
    }
}

/// The settings that were found, which run.
fn opened(layout: Layout, found: Found) -> Settings
    requires bank { HoldsBank found.bank layout }
    requires within { is_within_limits found.saved ≡ true }
    ensures layout { result.layout ≡ layout }
    ensures bank { result.bank ≡ found.bank }
    ensures saved { result.saved ≡ found.saved }
    ensures running { result.running ≡ found.saved }
    ensures form { result.form ≡ stored_form result.saved }
{
    let mut form = ArrayVec::new();
    write_form(&found.saved, &mut form);
    let running = found.saved.copy();
    Settings {
        layout,
        bank: found.bank,
        saved: found.saved,
        running,
        form,
    }
}
