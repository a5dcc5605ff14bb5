//! The program: a site's bundle comes on standard input, its files are in the folder, and the page of a path, the faults of its
//! templates or their digests go to standard output. What is refused is explained on standard error.
#![tactic(auto)]

mod explained;
mod laws;
mod replaying;
mod reply;
mod status;
mod tool;
mod unanswered;
mod words;

use crate::explained::explained;
use crate::status::Status;
use crate::tool::run_tool;
use doll_base::{DirFolder, StdSink, StdSource, SysClock, write_whole};
use doll_explain::{KeptClock, KeptFolder, KeptSource};
use std::hash::RandomState;
use std::process::ExitCode;
use std::{env, io};

fn main(rt: HostRuntime) -> ExitCode {
    match status_of(&rt) {
        Ok(status) => ExitCode::from(status.code()),
        // No other error is handed out.
        Err(_) => ExitCode::from(Status::NoMemory.code()),
    }
}

/// Runs the program over the process's words and streams, and writes the explanation of a refusal to standard error. An error is
/// want of memory.
fn status_of(rt: &HostRuntime) -> io::Result<Status> {
    let alloc = rt.alloc();
    let words = words_of(rt)?;
    let folder = DirFolder::new(rt.clone()?, String::from_str(alloc, ".")?);
    let mut folder = KeptFolder::new(alloc, folder);
    let mut source = KeptSource::new(alloc, StdSource::new(rt.stdin()));
    let mut sink = StdSink::new(rt.stdout());
    let mut clock = KeptClock::new(alloc, SysClock::new(rt.clone()?));
    let status = run_tool(
        alloc,
        words.as_slice(),
        &mut folder,
        &mut source,
        &mut sink,
        &mut clock,
        RandomState::new(rt)?,
    );
    let mut errors = StdSink::new(rt.stderr());
    if let Some(text) = explained(alloc, status, words.as_slice(), &folder, &source, &clock) {
        // A failed write of it changes nothing.
        let _ = write_whole(&mut errors, text.as_bytes());
    }
    Ok(status)
}

/// The process's words behind its name. Where one isn't UTF-8 there are none: such words are none of the forms.
fn words_of(rt: &HostRuntime) -> io::Result<Vec<String>> {
    let mut words = Vec::new(rt.alloc());
    match env::args(rt) {
        Ok(all) => {
            for word in all.skip(1) {
                words.push(word)?;
            }
            Ok(words)
        }
        Err(error) => {
            if error.kind() == io::ErrorKind::OutOfMemory {
                return Err(error);
            }
            Ok(words)
        }
    }
}
