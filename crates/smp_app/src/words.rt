// The words of the command line.
ghost use Rattle.std.specs.Prelude.{◌≡◌, if◌then◌else◌, Some, None, option_map};
ghost use Rattle.std.specs.List.{list_all};
ghost use Rattle.smp_schedule.specs.Words.{is_plain, is_word};
ghost use Rattle.smp_app.specs.Words.{asked_by, asked_in, replay_in};

use smp_edge::Octets;
use std::str;

/// What the words ask for.
#[derive(Drop)]
pub enum Command<'a> {
    /// `replay SCHEDULE`, a file's name.
    Replay(&'a str),
}

/// Whether the byte is no control character.
fn is_plain(byte: u8) -> bool
    ensures { result ≡ is_plain byte }
{
    byte >= 0x20 && byte != 0x7f
}

/// Whether no byte is a control character.
fn is_all_plain(bytes: &[u8]) -> bool
    ensures { result ≡ list_all is_plain bytes.now }
{
    bytes.iter().all(|byte| is_plain(*byte))
}

/// The text of a word, which has at least one byte and no control characters.
#[tactic(auto, using(crate::proofs::Texts::is_text, crate::proofs::Texts::is_no_text))]
fn word(bytes: &[u8]) -> Option<&str>
    ensures { option_map (λ t. t.now) result ≡ (if is_word bytes.now then Some bytes.now else None) }
{
    if bytes.is_empty() || !is_all_plain(bytes) {
        return None;
    }
    match str::from_utf8(bytes) {
        Ok(text) => Some(text),
        Err(_) => None,
    }
}

/// The replay of the schedule with this name.
fn read_replay(name: &[u8]) -> Option<Command<'_>>
    ensures { option_map asked_by result ≡ replay_in name.now }
{
    match word(name) {
        Some(name) => Some(Command::Replay(name)),
        None => None,
    }
}

/// The command that the words spell. None where they spell none.
pub fn read_command(words: &[Octets]) -> Option<Command<'_>>
    ensures { option_map asked_by result ≡ asked_in words.now }
{
    match words {
        [command, name] if command.as_slice() == b"replay".as_slice() => {
            read_replay(name.as_slice())
        }
        _ => None,
    }
}
