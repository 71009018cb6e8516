//! Replies from memory, to requests that change nothing.

ghost use Rattle.std.specs.Prelude.{◌≡◌, ◌≤◌, drop, take, length, option_map};
ghost use Rattle.sha2.specs.Sha256.{sha256};
ghost use Rattle.smp_model.specs.declared.device.StoredFile.{StoredFile as Stored};
ghost use Rattle.smp_model.specs.FileGroup.{bytes_from, hashes_file, hashes_held, is_sha256, length_at, reads_file, reads_held, refuses_file, tells_length};
ghost use Rattle.smp_model.specs.Files.{is_file_name};
ghost use Rattle.smp_model.specs.Said.{said_of};
ghost use Rattle.smp_model.specs.Settings.{is_setting_name};
ghost use Rattle.smp_model.specs.SettingsGroup.{at_most, reads_setting, refuses_setting};
ghost use Rattle.smp_device.specs.Telling.{Fitting};

use sha2::{Digest, Sha256};
use smp_files::FileTable;
use smp_model::Reply;
use smp_model::error::{
    FILE_GROUP, FILE_NAME_LENGTH, NO_SUCH_FILE, NO_SUCH_HASH, NO_SUCH_SETTING, PAST_FILE_END,
    SETTING_NAME_LENGTH, SETTINGS_GROUP,
};
use smp_settings::Settings;

/// The most bytes of a file that are read at once.
const READ_SIZE: usize = 1024;

/// An error of the settings group.
pub fn setting_error<'a>(number: u32) -> Reply<'a>
    ensures reply { result ≡ Reply.GroupError SETTINGS_GROUP number }
    ensures said { said_of result ≡ (refuses_setting number).reply }
{
    Reply::GroupError {
        group: SETTINGS_GROUP,
        number,
    }
}

/// An error of the file group.
pub fn file_error<'a>(number: u32) -> Reply<'a>
    ensures reply { result ≡ Reply.GroupError FILE_GROUP number }
    ensures said { said_of result ≡ (refuses_file number).reply }
{
    Reply::GroupError {
        group: FILE_GROUP,
        number,
    }
}

/// The name of a setting has 1 to 32 bytes.
pub fn is_setting_name(name: &str) -> bool
    ensures named { result ≡ is_setting_name name.now }
{
    0 < name.len() && name.len() <= 32
}

/// The name of a file has 1 to 64 bytes.
fn is_file_name(name: &str) -> bool
    ensures { result ≡ is_file_name name.now }
{
    0 < name.len() && name.len() <= 64
}

/// The first bytes, so many at most.
fn front(bytes: &[u8], most: usize) -> &[u8]
    ensures value { result.now ≡ take most bytes.now }
    ensures within { length result.now ≤ length bytes.now }
    ensures few { length result.now ≤ most }
{
    if bytes.len() <= most {
        bytes
    } else {
        &bytes[..most]
    }
}

/// The bytes from an offset on, which is not behind their end.
fn from(bytes: &[u8], off: u32) -> &[u8]
    requires { off ≤ length bytes.now }
    ensures value { result.now ≡ drop off bytes.now }
    ensures within { length result.now ≤ length bytes.now }
{
    &bytes[off as usize..]
}

/// The value of a setting, or its first bytes.
pub fn read_setting<'a>(settings: &'a Settings, name: &str, size: Option<u32>) -> Reply<'a>
    ensures reply { said_of result ≡ (reads_setting settings.now.running name.now size).reply }
    ensures fits { Fitting (said_of result) }
{
    if !is_setting_name(name) {
        return setting_error(SETTING_NAME_LENGTH);
    }
    match settings.read(name) {
        None => setting_error(NO_SUCH_SETTING),
        Some(val) => Reply::Setting(value_of(val, size)),
    }
}

/// A value, or its first bytes.
fn value_of(val: &[u8], size: Option<u32>) -> &[u8]
    ensures value { result.now ≡ at_most size val.now }
    ensures within { length result.now ≤ length val.now }
{
    match size {
        None => val,
        Some(size) => front(val, size as usize),
    }
}

/// How many bytes are held, at offset 0 alone.
fn length_at(off: u32, held: &[u8]) -> Option<u32>
    requires { length held.now ≤ 16384 }
    ensures { (f : Stored) → f.held ≡ held.now → result ≡ length_at off f }
{
    if off == 0 {
        Some(held.len() as u32)
    } else {
        None
    }
}

/// The bytes of a file from an offset on.
fn part_of(off: u32, held: &[u8]) -> Reply<'_>
    requires { length held.now ≤ 16384 }
    ensures reply { (f : Stored) → f.held ≡ held.now → said_of result ≡ (reads_held off f).reply }
    ensures fits { Fitting (said_of result) }
{
    if off as usize > held.len() {
        return file_error(PAST_FILE_END);
    }
    Reply::FilePart {
        off,
        len: length_at(off, held),
        bytes: front(from(held, off), READ_SIZE),
    }
}

/// The bytes of the file of a name from an offset on.
pub fn read_file<'a>(files: &'a FileTable, name: &str, off: u32) -> Reply<'a>
    ensures reply { said_of result ≡ (reads_file files.now off name.now).reply }
    ensures fits { Fitting (said_of result) }
{
    if !is_file_name(name) {
        return file_error(FILE_NAME_LENGTH);
    }
    match files.read(name) {
        None => file_error(NO_SUCH_FILE),
        Some(held) => part_of(off, held),
    }
}

/// How many bytes the file of a name holds.
pub fn file_length<'a>(files: &FileTable, name: &str) -> Reply<'a>
    ensures reply { said_of result ≡ (tells_length files.now name.now).reply }
    ensures fits { Fitting (said_of result) }
{
    if !is_file_name(name) {
        return file_error(FILE_NAME_LENGTH);
    }
    match files.read(name) {
        None => file_error(NO_SUCH_FILE),
        Some(held) => Reply::FileLength(held.len() as u32),
    }
}

/// The one kind of hash.
fn is_sha256(kind: Option<&str>) -> bool
    ensures { result ≡ is_sha256 (option_map (λ k. k.now) kind.entry) }
{
    match kind {
        None => true,
        Some(kind) => kind == "sha256",
    }
}

/// The bytes from an offset on, so many at most.
fn bytes_from(off: u32, len: Option<u32>, held: &[u8]) -> &[u8]
    requires { off ≤ length held.now }
    ensures value { result.now ≡ bytes_from off len held.now }
    ensures within { length result.now ≤ length held.now }
{
    match len {
        None => from(held, off),
        Some(len) => front(from(held, off), len as usize),
    }
}

/// The SHA-256 of bytes that a file holds.
fn hash_of<'a>(kind: Option<&str>, off: u32, len: Option<u32>, held: &[u8]) -> Reply<'a>
    requires { length held.now ≤ 16384 }
    ensures reply { (f : Stored) → f.held ≡ held.now → said_of result ≡ (hashes_held (option_map (λ k. k.now) kind.entry) off len f).reply }
    ensures fits { Fitting (said_of result) }
{
    if !is_sha256(kind) {
        return file_error(NO_SUCH_HASH);
    }
    if off as usize > held.len() {
        return file_error(PAST_FILE_END);
    }
    let bytes = bytes_from(off, len, held);
    Reply::FileHash {
        off,
        len: bytes.len() as u32,
        output: Sha256::digest(bytes),
    }
}

/// The SHA-256 of bytes of the file of a name.
pub fn file_hash<'a>(
    files: &FileTable,
    name: &str,
    kind: Option<&str>,
    off: u32,
    len: Option<u32>,
) -> Reply<'a>
    ensures reply { said_of result ≡ (hashes_file files.now name.now (option_map (λ k. k.now) kind.entry) off len).reply }
    ensures fits { Fitting (said_of result) }
{
    if !is_file_name(name) {
        return file_error(FILE_NAME_LENGTH);
    }
    match files.read(name) {
        None => file_error(NO_SUCH_FILE),
        Some(held) => hash_of(kind, off, len, held),
    }
}
