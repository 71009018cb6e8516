// One file, and files in ascending order of their names.
ghost use Rattle.std.specs.Prelude.{◌≡◌, ◌+◌, ◌<◌, ◌≤◌, [], ◌++◌, length, filter, Some, None, IsSome, IfSome, OnSome, true};
ghost use Rattle.std.specs.Option.{IfNone};
ghost use Rattle.std.specs.Str.{bytes_eq};
ghost use Rattle.std.specs.Vec.{vec_capacity};
ghost use Rattle.smp_model.specs.Named.{comes_before, is_ascending, without};
ghost use Rattle.smp_model.specs.Files.{file_of, stored_file};
ghost use Rattle.smp_files.specs.Places.{file, FileAt, PartedAt, TakesBuffer};

use crate::buffer::Buffer;
use arrayvec::ArrayString;
use std::cmp::Ordering;
use std::marker::Model;

/// A file: its name of at most 64 bytes, the length that was announced, and the bytes that it holds.
#[derive(Drop)]
pub struct File {
    name: ArrayString<64>,
    announced: u32,
    held: Buffer,
}

impl Model for File {
    ghost use Rattle.smp_model.specs.declared.device.StoredFile.{StoredFile};
    ghost use Rattle.smp_files.specs.Places.{file};

    ghost Value = { StoredFile };

    ghost view = { λ f. file f.name.bytes f.announced f.held };
}

impl File {
    /// A file of this name, of at most 64 bytes, that holds what the buffer holds.
    pub fn new(name: &str, announced: u32, held: Buffer) -> File
        requires { length name.now ≤ 64 }
        ensures { result ≡ file name.now announced held }
    {
        let mut own = ArrayString::new();
        own.push_str(name);
        File {
            name: own,
            announced,
            held,
        }
    }

    /// Its name.
    pub fn name(&self) -> &str
        ensures { result.now ≡ self.now.name }
    {
        self.name.as_str()
    }

    /// Whether it has this name.
    pub fn is_named(&self, name: &str) -> bool
        ensures { result ≡ bytes_eq self.now.name name.now }
    {
        self.name() == name
    }

    /// The length that was announced.
    pub fn announced(&self) -> u32
        ensures { result ≡ self.now.announced }
    {
        self.announced
    }

    /// The bytes that it holds.
    pub fn held(&self) -> &[u8]
        ensures value { result.now ≡ self.now.held }
        ensures most { length result.now ≤ 16384 }
    {
        self.held.as_slice()
    }

    /// Appends bytes, for which there is room.
    pub fn append(&mut self, part: &[u8])
        requires { length self.old.held + length part.now ≤ 16384 }
        ensures { self.new ≡ file self.old.name self.old.announced (self.old.held ++ part.now) }
    {
        self.held.append(part);
    }

    /// Its memory, with no bytes held.
    pub fn into_buffer(self) -> Buffer
        ensures { result ≡ [] }
    {
        self.held.cleared()
    }
}

/// Whether the first name comes before the second: byte by byte, and a name before the longer ones that it begins.
fn comes_before(a: &str, b: &str) -> bool
    ensures { result ≡ comes_before a.now b.now }
{
    a.cmp(b) == Ordering::Less
}

/// Where the file of this name stands.
pub fn find(files: &[File], name: &str) -> Option<usize>
    ensures found { IfSome result (λ at. FileAt at name.now files.now) }
    ensures none { IfNone result (file_of name.now files.now ≡ None) }
{
    for i in 0..files.len() {
        if files[i].is_named(name) {
            return Some(i);
        }
    }
    None
}

/// How many of the files come before this name.
fn rank(files: &[File], name: &str) -> usize
    requires few { length files.now ≤ 8 }
    requires sorted { is_ascending (λ f. f.name) files.now ≡ true }
    requires new { file_of name.now files.now ≡ None }
    ensures { PartedAt result (filter (λ f. comes_before f.name name.now) files.now) (filter (λ f. comes_before name.now f.name) files.now) files.now }
{
    for i in 0..files.len() {
        if !comes_before(files[i].name(), name) {
            return i;
        }
    }
    files.len()
}

/// Takes the memory of the file of this name, which is then gone, or else memory that is spare. None where there is neither.
pub fn take_buffer(files: &mut Vec<File>, spare: &mut Vec<Buffer>, name: &str) -> Option<Buffer>
    requires sorted { is_ascending (λ f. f.name) files.old.items ≡ true }
    ensures taken { TakesBuffer result name.now files.old.items files.new.items (length spare.old.items) (length spare.new.items) }
    ensures room { vec_capacity files.new ≡ vec_capacity files.old }
    ensures spare_room { vec_capacity spare.new ≡ vec_capacity spare.old }
{
    match find(files.as_slice(), name) {
        Some(at) => Some(files.remove(at).into_buffer()),
        None => match spare.pop() {
            Some(buffer) => Some(buffer.cleared()),
            None => None,
        },
    }
}

/// Puts a file of a new name among the others.
pub fn put(files: &mut Vec<File>, name: &str, added: File)
    requires named { added.name ≡ name.now }
    requires sorted { is_ascending (λ f. f.name) files.old.items ≡ true }
    requires new { file_of name.now files.old.items ≡ None }
    requires few { length files.old.items < 8 }
    requires room { 8 ≤ vec_capacity files.old }
    ensures files { files.new.items ≡ stored_file added.name added.announced added.held files.old.items }
    ensures room { vec_capacity files.old ≤ vec_capacity files.new }
{
    let at = rank(files.as_slice(), name);
    let stored = files.insert(at, added).is_ok();
    prove!(stored);
}
