//! What is explained of an answer.

use crate::status::Status;
use crate::words::{Command, command_of};
use doll_base::{Clock, Folder, Source};
use doll_explain::{Answer, Answered, KeptClock, KeptFolder, KeptSource, explain};
use std::alloc::Global;

/// The explanation of an answer, where it refuses something, from what was kept; none where no memory was found for it.
pub fn explained<F: Folder, S: Source, C: Clock>(
    alloc: Global,
    status: Status,
    words: &[String],
    folder: &KeptFolder<F>,
    source: &KeptSource<S>,
    clock: &KeptClock<C>,
) -> Option<String> {
    let answered = Answered {
        input: source.bytes()?,
        files: folder.files()?,
        missed: folder.missed(),
        readings: clock.readings()?,
        path: path_in(words),
    };
    match explain(alloc, answer_of(status)?, answered) {
        Ok(text) => Some(text),
        Err(_) => None,
    }
}

/// The path that the words ask for.
fn path_in(words: &[String]) -> Option<&str> {
    match command_of(words)? {
        Command::Plain(path) => Some(path),
        Command::Lint | Command::Digests | Command::Replay => None,
    }
}

/// The answer that a status stands for, where it is explained.
fn answer_of(status: Status) -> Option<Answer> {
    match status {
        Status::Done | Status::ReadFailed | Status::WriteFailed | Status::NoMemory => None,
        Status::WrongWords => Some(Answer::WrongWords),
        Status::BundleRefused => Some(Answer::Refused),
        Status::Untyped => Some(Answer::Untyped),
        Status::Unclean => Some(Answer::Unclean),
        Status::UnknownPath => Some(Answer::UnknownPath),
        Status::ScriptRefused { line } => Some(Answer::ScriptRefused { line }),
        Status::TooLong => Some(Answer::TooLong),
    }
}
