// The requests of a job that writes settings.
ghost use Rattle.std.specs.Prelude.{◌≡◌, ◌≤◌, ◌+◌, List, ◌∷◌, length, true};
ghost use Rattle.std.specs.List.{list_all};
ghost use Rattle.std.specs.Str.{is_utf8};
ghost use Rattle.smp_model.specs.Meant.{meant_of, setting_write};
ghost use Rattle.smp_model.specs.Settings.{is_setting};
ghost use Rattle.smp_request.specs.Room.{strings_of};
ghost use Rattle.smp_reply.specs.Told.{Told, told_of};
ghost use Rattle.smp_jobs.specs.Jobs.{first_of_set, nth_of_set, next_of_set};
ghost use Rattle.smp_jobs.specs.Tasks.{said, Fits, OnAsk, can_set};

use crate::step::Step;
use crate::task::Set;
use smp_model::{Request, Setting};
use smp_reply::Answer;
use std::str;

/// Whether the bytes are text.
#[tactic(auto, using(crate::proofs::Texts::is_text, crate::proofs::Texts::is_no_text))]
fn is_text(bytes: &[u8]) -> bool
    ensures { result ≡ is_utf8 bytes.now }
{
    str::from_utf8(bytes).is_ok()
}

/// The bytes as a text, which they are.
fn text_of(bytes: &[u8]) -> &str
    requires { is_utf8 bytes.now ≡ true }
    ensures { result.now ≡ bytes.now }
{
    match str::from_utf8(bytes) {
        Ok(text) => text,
        Err(_) => unreachable!(),
    }
}

/// The write of a setting.
fn write(setting: &Setting) -> Request<'_>
    requires { is_setting setting.now ≡ true }
    ensures write { meant_of result ≡ setting_write setting.now.name setting.now.val }
    ensures fits { strings_of (meant_of result) ≤ 1978 }
{
    Request::SettingWrite {
        name: text_of(setting.name.as_slice()),
        val: setting.val.as_slice(),
    }
}

/// What follows as many answers as came.
pub fn nth(set: &Set) -> Step<'_>
    ensures next { said result ≡ nth_of_set set.now.pairs set.now.count }
    ensures fits { Fits result }
    ensures more { OnAsk result (set.now.count ≤ length set.now.pairs) }
{
    let pairs = set.pairs.as_slice();
    if set.count < pairs.len() {
        return Step::Ask(write(&pairs[set.count]));
    }
    if set.count == pairs.len() {
        return Step::Ask(Request::Save);
    }
    Step::Done
}

/// What follows an answer, which is counted already.
pub fn next<'a>(set: &'a Set, answer: &Answer<'_>) -> Step<'a>
    ensures next { (earlier : List Told) → set.now.count ≡ length earlier + 1
        → said result ≡ next_of_set set.now.pairs (told_of answer.now ∷ earlier) }
    ensures fits { Fits result }
    ensures more { OnAsk result (set.now.count ≤ length set.now.pairs) }
{
    match answer {
        Answer::Refused { group, number } => Step::Refused {
            group: *group,
            number: *number,
        },
        _ => nth(set),
    }
}

/// The first request.
pub fn first(set: &Set) -> Request<'_>
    ensures first { meant_of result ≡ first_of_set set.now.pairs }
    ensures fits { strings_of (meant_of result) ≤ 1978 }
{
    match set.pairs.as_slice().first() {
        Some(pair) => write(pair),
        None => Request::Save,
    }
}

/// Counts an answer, of which no more come than there are requests.
pub fn count(set: &mut Set)
    requires { set.old.count ≤ length set.old.pairs }
    ensures count { set.new.count ≡ set.old.count + 1 }
    ensures pairs { set.new.pairs ≡ set.old.pairs }
{
    set.count += 1;
}

/// Whether a setting is within the limits: a name of 1 to 32 bytes that is text, and a value of at most 128.
fn is_setting(setting: &Setting) -> bool
    ensures { result ≡ is_setting setting.now }
{
    let name = setting.name.as_slice();
    !name.is_empty() && name.len() <= 32 && is_text(name) && setting.val.as_slice().len() <= 128
}

/// Whether all settings are within the limits.
fn are_settings(settings: &[Setting]) -> bool
    ensures { result ≡ list_all is_setting settings.now }
{
    settings.iter().all(|setting| is_setting(setting))
}

/// Whether a job may write these settings: 1 to 254 of them, each within the limits.
pub fn can_set(settings: &[Setting]) -> bool
    ensures { result ≡ can_set settings.now }
{
    are_settings(settings) && !settings.is_empty() && settings.len() <= 254
}
