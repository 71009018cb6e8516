//! The transcript of the abstract device: `smp_conversations FILE` has the plain program answer the packets of a file and prints
//! what comes of them. It is for tests: `data/conversations.txt` has packets, and `stdout` their answers, which were not taken
//! from this program.
#![tactic(auto)]

mod conversation;
mod lines;

use crate::conversation::{Fault, write_transcript};
use smp_edge::{Files, FolderFiles, Octets, Sink, WriterSink};
use std::alloc::Global;
use std::process::ExitCode;
use std::rt::Env;
use std::{env, io};

/// The most bytes of a file of conversations.
const MOST_LOADED: u32 = 8_388_608;

/// The program's one word.
fn word(alloc: Global, rt: &(impl Env + AllocGlobal)) -> Option<Octets> {
    let args = env::args(rt).ok()?;
    let mut words = args.skip(1);
    let word = words.next()?;
    Octets::from_slice(alloc, word.as_str().as_bytes()).ok()
}

/// The transcript of the file with this name.
fn transcript(alloc: Global, name: &[u8], files: &mut impl Files) -> Result<Vec<u8>, Fault> {
    let Ok(name) = std::str::from_utf8(name) else {
        return Err(Fault::File);
    };
    let Ok(text) = files.load(alloc, name, MOST_LOADED) else {
        return Err(Fault::File);
    };
    write_transcript(alloc, text.as_slice())
}

fn main(rt: HostRuntime) -> ExitCode {
    let Some(name) = word(rt.alloc(), &rt) else {
        return ExitCode::from(2);
    };
    let mut files = FolderFiles::new(&rt);
    match transcript(rt.alloc(), name.as_slice(), &mut files) {
        Ok(text) => {
            let mut out = WriterSink::new(io::writer(&rt));
            match out.put(text.as_slice()) {
                Ok(()) => ExitCode::SUCCESS,
                Err(_) => ExitCode::from(5),
            }
        }
        Err(Fault::BadLine(line)) => {
            let _ = eprintln!(rt; "bad line {line}");
            ExitCode::from(3)
        }
        Err(Fault::File) => ExitCode::from(4),
        Err(Fault::OutOfMemory) => ExitCode::from(10),
    }
}
