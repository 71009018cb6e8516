// Why a setting is not written.

/// Why a setting is not written. The running settings are then as before.
#[derive(Clone, Copy, Debug, PartialEq, Eq)]
pub enum SettingFault {
    /// The name has no byte or more than 32.
    NameLength,
    /// The value has more than 128 bytes.
    ValueLength,
    /// The name is new and 32 run, or the stored form would have more than 3072 bytes.
    Full,
}
