//! The laws of the crates below, together.

ghost use Rattle.smp_device.specs.DeviceLaws.{DeviceLaws};
ghost use Rattle.smp_device.specs.Laws.{Laws};

use smp_gate::bank_outlasts_other_changes;
use smp_model::{
    parts_join, requests_keep_to_their_part, steps_need_the_flash, steps_of_a_side_lift,
};
use smp_settings::{saved_settings_are_told_apart, settings_outlast_other_changes};
use smp_upload::{sides_are_told_apart, sides_outlast_other_changes};

/// What one image's calls do is what the device does.
pub fn side_laws()
    ensures { Laws }
{
    steps_of_a_side_lift();
    parts_join();
    sides_outlast_other_changes();
}

/// A call on some of the device's parts leaves the others, and the bytes of a flash stand for one device at most.
pub fn device_laws()
    ensures { DeviceLaws }
{
    requests_keep_to_their_part();
    steps_need_the_flash();
    sides_outlast_other_changes();
    settings_outlast_other_changes();
    bank_outlasts_other_changes();
    saved_settings_are_told_apart();
    sides_are_told_apart();
}
