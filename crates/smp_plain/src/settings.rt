//! The plain program at group 3, settings.

ghost use Rattle.std.specs.Prelude.{◌≡◌, ◌+◌, ◌-◌, ◌^◌, length, min, take, option_map, if◌then◌else◌, ◌<◌, ◌↔◌, ◌∷◌, ◌++◌, IfOk, OnOk, IsTrue};
ghost use Rattle.std.specs.List.{All};
ghost use Rattle.smp_model.specs.Named.{comes_before};
ghost use Rattle.smp_model.specs.Settings.{value_of, is_setting_name, is_setting_value, is_full, stored_form, stored_setting, written_setting};
ghost use Rattle.smp_model.specs.SettingsGroup.{refuses_setting, at_most, reads_setting, writes_setting, deletes_setting, loads_settings, saves_settings};
ghost use Rattle.smp_plain.specs.Plain.{response_of, size_beside, HasByteLengths, AreStorable};

use crate::response::{PlainChange, PlainResponse, PlainStep, refused, reply_alone, responded};
use smp_edge::Octets;
use smp_model::error::{
    NO_SUCH_SETTING, SETTING_NAME_LENGTH, SETTING_VALUE_LENGTH, SETTINGS_FULL, SETTINGS_GROUP,
};
use smp_model::{Reply, Setting};
use std::alloc::{AllocError, Global};
use std::cmp::Ordering;

/// The bytes `a` come before the bytes `b`.
pub(crate) fn precedes(a: &[u8], b: &[u8]) -> bool
    ensures { result ≡ comes_before a.now b.now }
{
    a.cmp(&b) == Ordering::Less
}

/// The value of a name.
pub(crate) fn value_of<'a>(settings: &'a [Setting], name: &str) -> Option<&'a [u8]>
    ensures { option_map (λ v. v.now) result ≡ value_of name.now settings.now }
{
    let found = settings
        .iter()
        .find(|s| s.name.as_slice() == name.as_bytes());
    found.map(|s| s.val.as_slice())
}

fn is_name(name: &str) -> bool
    ensures { result ≡ is_setting_name name.now }
{
    0 < name.len() && name.len() <= 32
}

/// At most so many bytes from the front.
pub(crate) fn front(bytes: &[u8], size: usize) -> &[u8]
    ensures { result.now ≡ take size bytes.now }
{
    if size < bytes.len() {
        &bytes[..size]
    } else {
        bytes
    }
}

fn at_most(bytes: &[u8], size: Option<u32>) -> &[u8]
    ensures { result.now ≡ at_most size bytes.now }
{
    match size {
        None => bytes,
        Some(size) => front(bytes, size as usize),
    }
}

fn is_value(val: &[u8]) -> bool
    ensures { result ≡ is_setting_value val.now }
{
    val.len() <= 128
}

/// The size with that of a setting added, where it is to be; at most the greatest number.
fn added(size: usize, setting: &Setting, is_there: bool) -> usize
    ensures { result
        ≡ min (size + (if is_there then length (stored_setting setting.now) else 0)) (2 ^ 64 - 1) }
{
    if is_there {
        let name = setting.name.as_slice().len();
        let val = setting.val.as_slice().len();
        size.saturating_add(2)
            .saturating_add(name)
            .saturating_add(val)
    } else {
        size
    }
}

/// The size with that of a setting added that stays beside one of this name; at most the greatest number.
fn added_beside(size: usize, setting: &Setting, name: &str) -> usize
    ensures { result ≡ min (size + size_beside name.now setting.now) (2 ^ 64 - 1) }
{
    let own = setting.name.as_slice();
    let before = precedes(own, name.as_bytes());
    let behind = precedes(name.as_bytes(), own);
    added(added(size, setting, before), setting, behind)
}

/// The length of the stored form once a setting is written; at most the greatest number.
fn written_size(settings: &[Setting], name: &str, val: &[u8]) -> usize
    ensures { result
        ≡ min (length (stored_form (written_setting name.now val.now settings.now))) (2 ^ 64 - 1) }
{
    let mut size = 4usize.saturating_add(name.len()).saturating_add(val.len());
    for setting in settings {
        size = added_beside(size, setting, name);
    }
    size
}

fn is_full(settings: &[Setting], name: &str, val: &[u8]) -> bool
    ensures { result ≡ is_full name.now val.now settings.now }
{
    let is_new = value_of(settings, name).is_none();
    is_new && 32 <= settings.len() || 3072 < written_size(settings, name, val)
}

fn refused_setting<'a>(number: u32) -> PlainResponse<'a>
    ensures { response_of result ≡ refuses_setting number }
{
    refused(SETTINGS_GROUP, number)
}

pub(crate) fn reads_setting<'a>(
    running: &'a [Setting],
    name: &str,
    size: Option<u32>,
) -> PlainResponse<'a>
    ensures { response_of result ≡ reads_setting running.now name.now size }
{
    if !is_name(name) {
        return refused_setting(SETTING_NAME_LENGTH);
    }
    match value_of(running, name) {
        None => refused_setting(NO_SUCH_SETTING),
        Some(val) => reply_alone(Reply::Setting(at_most(val, size))),
    }
}

pub(crate) fn writes_setting<'a>(
    running: &[Setting],
    name: &'a str,
    val: &'a [u8],
) -> PlainResponse<'a>
    ensures { response_of result ≡ writes_setting running.now name.now val.now }
{
    if !is_name(name) {
        return refused_setting(SETTING_NAME_LENGTH);
    }
    if !is_value(val) {
        return refused_setting(SETTING_VALUE_LENGTH);
    }
    if is_full(running, name, val) {
        return refused_setting(SETTINGS_FULL);
    }
    responded(
        Reply::Empty,
        PlainStep::Run(PlainChange::WriteSetting { name, val }),
    )
}

pub(crate) fn deletes_setting<'a>(running: &[Setting], name: &'a str) -> PlainResponse<'a>
    ensures { response_of result ≡ deletes_setting running.now name.now }
{
    if !is_name(name) {
        return refused_setting(SETTING_NAME_LENGTH);
    }
    match value_of(running, name) {
        None => refused_setting(NO_SUCH_SETTING),
        Some(_) => responded(
            Reply::Empty,
            PlainStep::Run(PlainChange::DeleteSetting { name }),
        ),
    }
}

pub(crate) fn loads_settings<'a>() -> PlainResponse<'a>
    ensures { response_of result ≡ loads_settings }
{
    responded(Reply::Empty, PlainStep::Run(PlainChange::LoadSettings))
}

pub(crate) fn saves_settings<'a>() -> PlainResponse<'a>
    ensures { response_of result ≡ saves_settings }
{
    responded(Reply::Empty, PlainStep::Save)
}

fn has_byte_lengths(setting: &Setting) -> bool
    ensures { IsTrue result ↔ HasByteLengths setting.now }
{
    setting.name.as_slice().len() < 256 && setting.val.as_slice().len() < 256
}

fn have_byte_lengths(settings: &[Setting]) -> bool
    ensures { IsTrue result ↔ All HasByteLengths settings.now }
{
    settings.iter().all(|s| has_byte_lengths(s))
}

/// The settings have a stored form: there are fewer than 256, and each name and value has fewer bytes than that.
pub fn are_storable(settings: &[Setting]) -> bool
    ensures { IsTrue result ↔ AreStorable settings.now }
{
    settings.len() < 256 && have_byte_lengths(settings)
}

/// Adds bytes behind their length.
fn add_counted(form: &mut Vec<u8>, bytes: &[u8]) -> Result<(), AllocError>
    requires { length bytes.now < 256 }
    ensures { OnOk result (form.new.items ≡ form.old.items ++ length bytes.now ∷ bytes.now) }
{
    form.push(bytes.len() as u8)?;
    form.extend_from_slice(bytes)?;
    Ok(())
}

fn add_stored(form: &mut Vec<u8>, setting: &Setting) -> Result<(), AllocError>
    requires { HasByteLengths setting.now }
    ensures { OnOk result (form.new.items ≡ form.old.items ++ stored_setting setting.now) }
{
    add_counted(form, setting.name.as_slice())?;
    add_counted(form, setting.val.as_slice())
}

/// The stored form of settings. It fails only for want of memory.
pub fn stored_form(alloc: Global, settings: &[Setting]) -> Result<Octets, AllocError>
    requires { AreStorable settings.now }
    ensures { IfOk result (λ form. form ≡ stored_form settings.now) }
{
    let mut form = Vec::from_slice(alloc, &[1, settings.len() as u8])?;
    for setting in settings {
        add_stored(&mut form, setting)?;
    }
    Ok(Octets::from_vec(form))
}
