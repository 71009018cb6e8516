// The files of the device.
ghost use Rattle.std.specs.Prelude.{◌≡◌, ◌+◌, ◌<◌, ◌≤◌, [], length, option_map, IsTrue, IfOk, IfSome};
ghost use Rattle.std.specs.Vec.{vec_capacity};
ghost use Rattle.smp_model.specs.FileGroup.{writes_file, begins_file};
ghost use Rattle.smp_model.specs.Files.{file_of, is_file_name};
ghost use Rattle.smp_files.specs.Writing.{Responds, GoesOn};

use crate::buffer::{Buffer, LONGEST};
use crate::fault::FileFault;
use crate::file::{File, find, put, take_buffer};
use std::alloc::{AllocError, Global};
use std::marker::Model;

/// How many files there may be.
const MOST: usize = 8;

/// The files, in ascending order of their names, and the memory of those that may still come.
#[derive(Drop)]
pub struct FileTable {
    files: Vec<File>,
    spare: Vec<Buffer>,
}

impl Model for FileTable {
    ghost use Rattle.std.specs.Prelude.{List, length};
    ghost use Rattle.std.specs.Vec.{vec_capacity};
    ghost use Rattle.smp_model.specs.declared.device.StoredFile.{StoredFile};
    ghost use Rattle.smp_files.specs.Writing.{TableHolds};

    ghost Value = { List StoredFile };

    ghost view = { λ table. table.files.items };

    ghost invariant = { λ table. TableHolds table.files.items (vec_capacity table.files) (length table.spare.items) (vec_capacity table.spare) };
}

impl FileTable {
    /// Takes the memory of 8 files. There are none yet.
    pub fn reserve(alloc: Global) -> Result<FileTable, AllocError>
        ensures { IfOk result (λ table. table ≡ []) }
    {
        let files = Vec::with_capacity(alloc, MOST)?;
        let spare = spare_buffers(alloc)?;
        Ok(FileTable { files, spare })
    }

    /// The bytes of a file. None exactly where there is no file of this name.
    pub fn read(&self, name: &str) -> Option<&[u8]>
        ensures held { option_map (λ held. held.now) result ≡ option_map (λ f. f.held) (file_of name.now self.now) }
        ensures most { IfSome result (λ held. length held.now ≤ 16384) }
    {
        match find(self.files.as_slice(), name) {
            Some(at) => Some(self.files[at].held()),
            None => None,
        }
    }

    /// Stores a part of a file, and answers the offset that is wanted next.
    ///
    /// The part at offset 0 announces the length, at most 16384 bytes, and takes the place of what the file held. A part at
    /// another offset is appended where the bytes held end there, and else nothing is stored. A refusal changes nothing.
    pub fn write(
        &mut self,
        name: &str,
        off: u32,
        len: Option<u32>,
        bytes: &[u8],
    ) -> Result<u32, FileFault>
        ensures { Responds (writes_file self.old off bytes.now len name.now) result self.old self.new }
    {
        if name.is_empty() || name.len() > 64 {
            return Err(FileFault::NameLength);
        }
        if off == 0 {
            return self.begin(name, len, bytes);
        }
        match find(self.files.as_slice(), name) {
            Some(at) => self.go_on(at, off, bytes),
            None => Err(FileFault::NoFile),
        }
    }

    /// Begins a file anew with its first part.
    fn begin(&mut self, name: &str, len: Option<u32>, part: &[u8]) -> Result<u32, FileFault>
        requires { IsTrue (is_file_name name.now) }
        ensures { Responds (begins_file self.old name.now part.now len) result self.old self.new }
    {
        let Some(len) = len else {
            return Err(FileFault::NoLength)
        };
        if len as usize > LONGEST {
            return Err(FileFault::TooLong);
        }
        if part.len() > len as usize {
            return Err(FileFault::PastEnd);
        }
        let Some(mut buffer) = take_buffer(&mut self.files, &mut self.spare, name) else {
            return Err(FileFault::NoFree)
        };
        buffer.append(part);
        put(&mut self.files, name, File::new(name, len, buffer));
        Ok(part.len() as u32)
    }

    /// Goes on with the file at this place.
    fn go_on(&mut self, at: usize, off: u32, part: &[u8]) -> Result<u32, FileFault>
        requires { at < length self.old }
        ensures { GoesOn at off part.now result self.old self.new }
    {
        let held = self.files[at].held().len();
        if off as usize != held {
            return Ok(held as u32);
        }
        if part.len() > self.files[at].announced() as usize - held {
            return Err(FileFault::PastEnd);
        }
        self.files[at].append(part);
        Ok((held + part.len()) as u32)
    }

    /// Forgets all files. Their memory stays.
    pub fn clear(&mut self)
        ensures { self.new ≡ [] }
    {
        keep_buffers(&mut self.files, &mut self.spare);
    }
}

/// Takes memory for 8 files.
fn spare_buffers(alloc: Global) -> Result<Vec<Buffer>, AllocError>
    ensures { IfOk result (λ spare. (length spare.items ≡ 8) × (8 ≤ vec_capacity spare)) }
{
    let mut spare = Vec::with_capacity(alloc, MOST)?;
    for _ in 0..MOST {
        spare.push(Buffer::reserve(alloc)?)?;
    }
    Ok(spare)
}

/// Takes the files away, and keeps their memory.
fn keep_buffers(files: &mut Vec<File>, spare: &mut Vec<Buffer>)
    requires few { length files.old.items + length spare.old.items ≡ 8 }
    requires room { 8 ≤ vec_capacity spare.old }
    ensures files { files.new.items ≡ [] }
    ensures spare { length spare.new.items ≡ 8 }
    ensures file_room { vec_capacity files.new ≡ vec_capacity files.old }
    ensures spare_room { vec_capacity spare.old ≤ vec_capacity spare.new }
{
    for _ in 0..files.len() {
        if let Some(file) = files.pop() {
            let kept = spare.push(file.into_buffer()).is_ok();
            prove!(kept);
        }
    }
}
