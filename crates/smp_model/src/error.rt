//! The numbers of groups and errors, as Zephyr's pages of the protocol and of its groups have them. Numbers of 64 and above
//! are this project's own.

/// The group OS.
pub const OS_GROUP: u16 = 0;

/// The group image.
pub const IMAGE_GROUP: u16 = 1;

/// The group statistics.
pub const STATISTICS_GROUP: u16 = 2;

/// The group settings.
pub const SETTINGS_GROUP: u16 = 3;

/// The group files.
pub const FILE_GROUP: u16 = 8;

// Errors of the protocol, which no group gives.

/// The data makes no request, or a value is not allowed.
pub const INVALID_VALUE: u32 = 3;

/// There is no such request.
pub const NOT_SUPPORTED: u32 = 8;

/// The version of the protocol is above 2.
pub const VERSION_TOO_NEW: u32 = 13;

// Errors of the flash, in the groups image and settings.

/// A read of the flash failed.
pub const READ_FAILED: u32 = 11;

/// A write of the flash failed.
pub const WRITE_FAILED: u32 = 12;

/// An erase of the flash failed.
pub const ERASE_FAILED: u32 = 13;

// Errors of the group image.

/// No slot has an image with this hash.
pub const HASH_NOT_FOUND: u32 = 8;

/// The slot is pending, so that it takes no upload and no erase.
pub const NO_FREE_SLOT: u32 = 9;

/// There is no such slot or image.
pub const INVALID_SLOT: u32 = 14;

/// The start of an upload states no length.
pub const NO_LENGTH: u32 = 21;

/// The start of an upload has fewer bytes than the header of an image.
pub const INVALID_HEADER: u32 = 22;

/// The start of an upload does not begin with the magic of an image.
pub const WRONG_MAGIC: u32 = 23;

/// A digest or a hash has not 32 bytes.
pub const INVALID_DIGEST: u32 = 24;

/// The slot is pending with the other mark.
pub const ALREADY_PENDING: u32 = 28;

/// The upload is longer than a slot has room for.
pub const IMAGE_TOO_LARGE: u32 = 30;

/// The part goes past the length of the upload.
pub const PAST_UPLOAD_END: u32 = 31;

/// The image that runs cannot be marked for a test.
pub const TEST_OF_ACTIVE: u32 = 33;

/// The record of the upload has been replaced as often as it can be.
pub const RECORD_WORN: u32 = 64;

// Errors of the group statistics.

/// There is no such group of statistics.
pub const NO_SUCH_STATISTICS: u32 = 2;

// Errors of the group settings.

/// The name of a setting has not 1 to 32 bytes.
pub const SETTING_NAME_LENGTH: u32 = 2;

/// There is no setting of this name.
pub const NO_SUCH_SETTING: u32 = 3;

/// The value of a setting has more than 128 bytes.
pub const SETTING_VALUE_LENGTH: u32 = 64;

/// There is no room for the setting.
pub const SETTINGS_FULL: u32 = 65;

/// The saved settings have been replaced as often as they can be.
pub const SETTINGS_WORN: u32 = 66;

// Errors of the group files.

/// The name of a file has not 1 to 64 bytes.
pub const FILE_NAME_LENGTH: u32 = 2;

/// There is no file of this name.
pub const NO_SUCH_FILE: u32 = 3;

/// The offset, or the part, goes past the end of the file.
pub const PAST_FILE_END: u32 = 12;

/// There is no such kind of hash.
pub const NO_SUCH_HASH: u32 = 13;

/// There are as many files as there can be.
pub const NO_FREE_FILE: u32 = 64;

/// The file is longer than 16384 bytes.
pub const FILE_TOO_LONG: u32 = 65;

// The errors that stand for these in version 1, which has one table for all groups. `INVALID_VALUE` and `NOT_SUPPORTED` are
// in it too.

/// An error that has no number of its own.
pub const UNKNOWN: u32 = 1;

/// There is no such entry.
pub const NO_ENTRY: u32 = 5;

/// It cannot be done in this state.
pub const BAD_STATE: u32 = 6;
