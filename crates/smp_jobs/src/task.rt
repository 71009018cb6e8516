// The jobs with their files, names and texts, and what each keeps of the answers.
ghost use Rattle.std.specs.Prelude.{◌≡◌, ◌≤◌, ◌+◌, length, true};
ghost use Rattle.std.specs.List.{list_all};
ghost use Rattle.std.specs.String.{string_bytes};
ghost use Rattle.sha2.specs.Sha256.{sha256};
ghost use Rattle.smp_model.specs.Settings.{is_setting};

use smp_edge::Octets;
use smp_model::{Ending, Pairs};

/// An image that is sent part by part, and then maybe marked.
#[derive(Drop)]
pub struct Upload {
    pub image: u32,
    pub file: Octets,
    pub digest: [u8; 32],
    pub hash: [u8; 32],
    pub chunk: u32,
    pub ending: Ending,
    ghost short: { length file ≤ 4294967295 },
    ghost least: { 32 ≤ chunk },
    ghost most: { chunk ≤ 1900 },
    ghost digested: { digest ≡ sha256 file },
}

/// Settings, and how many answers came: each to the write of the next setting, the last to the save.
#[derive(Drop)]
pub struct Set {
    pub pairs: Pairs,
    pub count: usize,
    ghost few: { length pairs ≤ 254 },
    ghost lawful: { list_all is_setting pairs ≡ true },
    ghost counted: { count ≤ length pairs + 1 },
}

/// A file that is written on the device under a name.
#[derive(Drop)]
pub struct Put {
    pub name: String,
    pub file: Octets,
    ghost named: { length (string_bytes name) ≤ 64 },
    ghost short: { length file ≤ 4294967295 },
}

/// A file of the device that is read: the bytes held, and its length once it was told.
#[derive(Drop)]
pub struct Get {
    pub name: String,
    pub held: Vec<u8>,
    pub len: Option<u32>,
    ghost named: { length (string_bytes name) ≤ 64 },
    ghost short: { length held.items ≤ 4294967295 },
}

/// A text that is echoed.
#[derive(Drop)]
pub struct Echo {
    pub text: String,
    ghost short: { length (string_bytes text) ≤ 1024 },
}

/// A job.
#[derive(Drop)]
pub enum Task {
    Upload(Upload),
    List,
    Set(Set),
    Put(Put),
    Get(Get),
    Echo(Echo),
}
