//! The program `smp`: it hands the words of the command line, standard output and the folder's files to
//! `smp_app::run`, prints a status that is not 0 on standard error, and ends with its code.
#![tactic(auto)]

mod help;

use crate::help::{HELP, VERSION};
use smp_app::{Status, run};
use smp_edge::{FolderFiles, Octets, Sink, WriterSink};
use std::alloc::Global;
use std::io::ErrorKind;
use std::process::ExitCode;
use std::rt::Env;
use std::{env, io};

/// The words after the program's name. Words that are not text are no command.
fn words(alloc: Global, rt: &(impl Env + AllocGlobal)) -> Result<Vec<Octets>, Status> {
    let args = match env::args(rt) {
        Ok(args) => args,
        Err(error) if error.kind() == ErrorKind::OutOfMemory => return Err(Status::NoMemory),
        Err(_) => return Err(Status::Usage),
    };
    let mut words = Vec::new(alloc);
    for word in args.skip(1) {
        let Ok(word) = Octets::from_slice(alloc, word.as_str().as_bytes()) else {
            return Err(Status::NoMemory);
        };
        if words.push(word).is_err() {
            return Err(Status::NoMemory);
        }
    }
    Ok(words)
}

/// What the program says of itself, where the words ask for that.
fn asked_text(words: &[Octets]) -> Option<&'static str> {
    match words {
        [word] if word.as_slice() == b"--help".as_slice() => Some(HELP),
        [word] if word.as_slice() == b"--version".as_slice() => Some(VERSION),
        _ => None,
    }
}

fn main(rt: HostRuntime) -> ExitCode {
    let mut out = WriterSink::new(io::writer(&rt));
    let status = match words(rt.alloc(), &rt) {
        Err(status) => status,
        Ok(words) => match asked_text(words.as_slice()) {
            Some(text) if out.put(text.as_bytes()).is_ok() => Status::Done,
            Some(_) => Status::WriteFault,
            None => {
                let mut files = FolderFiles::new(&rt);
                run(rt.alloc(), words.as_slice(), &mut out, &mut files)
            }
        },
    };
    if status.code() != 0 {
        let _ = eprintln!(rt; "{status}");
    }
    ExitCode::from(status.code())
}
