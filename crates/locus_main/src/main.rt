//! The program: it does the command that its words are. `run` reads a schedule from standard input and writes its trace to standard
//! output; `tree` reads calls on a fixed cluster and writes their replies; `audit` reads a trace and writes whether it is consistent; `make`
//! writes the counts of a generated load.
//! This room is for the words, the one command that they are, and what is promised of each; the shell calls it. It must never know what a line
//! does, or what a record says.
#![tactic(auto)]

mod auditing;
mod top;

use input_run::Status;
use locus_ids::{Bytes, Names};
use locus_io::{StdSink, StdSource};
use std::alloc::Global;
use std::process::ExitCode;
use std::rt::Env;
use std::{env, io};

/// The words after the program's name, or why they can't be had: one that isn't text is none that the program takes.
fn words_of<R: Env + AllocGlobal>(rt: &R) -> Result<Names, Status> {
    let alloc = rt.alloc();
    let mut words = Names::new(alloc);
    let mut arguments = match env::args(rt) {
        Ok(arguments) => arguments,
        Err(error) => {
            return Err(match error.kind() {
                io::ErrorKind::InvalidData => Status::BadWords,
                _ => Status::NoMemory,
            });
        }
    };
    let _ = arguments.next();
    for word in arguments {
        words.push(Bytes::from_slice(alloc, word.as_bytes())?)?;
    }
    Ok(words)
}

fn main(rt: HostRuntime) -> ExitCode {
    let status = match words_of(&rt) {
        Ok(words) => {
            let mut source = StdSource::new(rt.reader());
            let mut sink = StdSink::new(io::writer(&rt));
            top::locus(rt.alloc(), &words, &mut source, &mut sink)
        }
        Err(status) => status,
    };
    let _ = status.tell(&rt);
    ExitCode::from(status.code())
}
