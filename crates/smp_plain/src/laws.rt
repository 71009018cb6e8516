//! Which devices the plain program takes.

ghost use Rattle.std.specs.Prelude.{◌<◌, ◌^◌};
ghost use Rattle.smp_model.specs.declared.device.AbstractDevice.{AbstractDevice as Device};
ghost use Rattle.smp_model.specs.declared.device.Sizes.{Sizes as FlashSizes};
ghost use Rattle.smp_model.specs.Consistent.{IsConsistent};
ghost use Rattle.smp_plain.specs.Plain.{IsSound};

/// A consistent device is sound, so that the plain program answers it; and it stays consistent. The call does nothing: it
/// stands for the law.
pub fn consistent_devices_are_sound()
    ensures { (sizes : FlashSizes) (d : Device)
        → sizes.slot < 2 ^ 32 → IsConsistent sizes d → IsSound d }
{}
