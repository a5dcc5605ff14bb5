//! The lines of a report.

ghost use Rattle.std.specs.Prelude.{◌≡◌, ◌++◌, Some, IsSome, OnOk, OnErr};
ghost use Rattle.std.specs.Io.{StartsWith};
ghost use Rattle.doll_report.specs.Appending.{appended};
ghost use Rattle.doll_report.specs.Lines as spec;

use crate::appending::{put, put_counted};
use crate::outcome::{CONFLICT, NOT_FOUND, Outcome, Step};
use crate::refusals::put_refusal;
use doll_entry::{Fetched, Miss};
use doll_records::Committed;
use doll_text::Memory;

/// Appends the line that tells what became of a step, with its line end. The bytes of a page are copied once. After a refusal
/// nothing has changed.
pub fn report(step: &Step, outcome: &Outcome, out: &mut Vec<u8>) -> Result<(), Memory>
    requires told { IsSome (spec.line_of step.now outcome.now) }
    ensures line { OnOk result
        (appended out.old.items (spec.ended_line step.now outcome.now) ≡ Some out.new.items) }
    ensures kept { OnErr result (out.new.items ≡ out.old.items) }
{
    let before = out.len();
    if put_line(step, outcome, out).is_err() {
        out.truncate(before);
        return Err(Memory);
    }
    Ok(())
}

/// Appends the line, with its line end.
fn put_line(step: &Step, outcome: &Outcome, out: &mut Vec<u8>) -> Result<(), Memory>
    requires { IsSome (spec.line_of step.now outcome.now) }
    ensures line { OnOk result
        (appended out.old.items (spec.ended_line step.now outcome.now) ≡ Some out.new.items) }
    ensures kept { StartsWith out.new.items out.old.items }
{
    match step {
        Step::Open { session } => {
            put_session("open ", *session, out)?;
            put_start(outcome, out)?;
        }
        Step::Turn { session } => {
            put_session("turn ", *session, out)?;
            put_turn(outcome, out)?;
        }
        Step::Commit => put_commit(outcome, out)?,
        Step::Expire => put_expiry(outcome, out)?,
    }
    put("\n", out)
}

/// Appends a word and the session that takes a step.
fn put_session(word: &str, session: u32, out: &mut Vec<u8>) -> Result<(), Memory>
    ensures words { OnOk result
        (out.new.items ≡ out.old.items ++ spec.session_words word.now session) }
    ensures kept { StartsWith out.new.items out.old.items }
{
    put_counted(word, session.into(), out)?;
    put(" ", out)
}

/// Appends what became of a start.
fn put_start(outcome: &Outcome, out: &mut Vec<u8>) -> Result<(), Memory>
    requires { IsSome (spec.start_words outcome.now) }
    ensures words { OnOk result
        (appended out.old.items (spec.start_words outcome.now) ≡ Some out.new.items) }
    ensures kept { StartsWith out.new.items out.old.items }
{
    match outcome {
        Outcome::Opened { moment } => put_moment(*moment, out),
        Outcome::NoPage { status, moment } => put_no_page(*status, *moment, out),
        _ => Ok(()),
    }
}

/// Appends why no page is begun.
fn put_no_page(status: u16, moment: u64, out: &mut Vec<u8>) -> Result<(), Memory>
    requires { IsSome (spec.no_page_words status moment) }
    ensures words { OnOk result
        (appended out.old.items (spec.no_page_words status moment) ≡ Some out.new.items) }
    ensures kept { StartsWith out.new.items out.old.items }
{
    match status {
        NOT_FOUND => put("status 404", out),
        CONFLICT => {
            put("status 409 ", out)?;
            put_moment(moment, out)
        }
        _ => Ok(()),
    }
}

/// Appends a moment.
fn put_moment(moment: u64, out: &mut Vec<u8>) -> Result<(), Memory>
    ensures words { OnOk result (out.new.items ≡ out.old.items ++ spec.moment_words moment) }
    ensures kept { StartsWith out.new.items out.old.items }
{
    put_counted("at ", moment, out)
}

/// Appends what became of a turn.
fn put_turn(outcome: &Outcome, out: &mut Vec<u8>) -> Result<(), Memory>
    requires { IsSome (spec.turn_words outcome.now) }
    ensures words { OnOk result
        (appended out.old.items (spec.turn_words outcome.now) ≡ Some out.new.items) }
    ensures kept { StartsWith out.new.items out.old.items }
{
    match outcome {
        Outcome::Read(answer) => {
            put("read", out)?;
            put_answer(answer, out)
        }
        Outcome::Many(answers) => {
            put("many", out)?;
            put_answers(answers.as_slice(), out)
        }
        Outcome::Wrote => put("write", out),
        Outcome::Page(page) => put_page(page.as_slice(), out),
        _ => Ok(()),
    }
}

/// Appends a page behind its length.
fn put_page(page: &[u8], out: &mut Vec<u8>) -> Result<(), Memory>
    ensures words { OnOk result (out.new.items ≡ out.old.items ++ spec.page_words page.now) }
    ensures kept { StartsWith out.new.items out.old.items }
{
    put_counted("page ", page.len() as u64, out)?;
    put(" ", out)?;
    out.extend_from_slice(page)?;
    Ok(())
}

/// Appends the word of each answer, in their order.
fn put_answers(answers: &[Fetched], out: &mut Vec<u8>) -> Result<(), Memory>
    requires { IsSome (spec.answers_words answers.now) }
    ensures words { OnOk result
        (appended out.old.items (spec.answers_words answers.now) ≡ Some out.new.items) }
    ensures kept { StartsWith out.new.items out.old.items }
{
    for answer in answers {
        put_answer(answer, out)?;
    }
    Ok(())
}

/// Appends the word of an answer behind a space.
fn put_answer(answer: &Fetched, out: &mut Vec<u8>) -> Result<(), Memory>
    requires { IsSome (spec.answer_words answer.now) }
    ensures words { OnOk result
        (appended out.old.items (spec.answer_words answer.now) ≡ Some out.new.items) }
    ensures kept { StartsWith out.new.items out.old.items }
{
    match answer {
        Fetched::Hit(_) => put(" hit", out),
        Fetched::Miss(Miss::Absent) => put(" absent", out),
        Fetched::Miss(Miss::Mismatch) => put(" mismatch", out),
        Fetched::Miss(Miss::Bumped) => put(" bumped", out),
        Fetched::Miss(Miss::Dead) => put(" dead", out),
        Fetched::Miss(Miss::Failed) | Fetched::Miss(Miss::Memory) => Ok(()),
    }
}

/// Appends what became of a commit.
fn put_commit(outcome: &Outcome, out: &mut Vec<u8>) -> Result<(), Memory>
    requires { IsSome (spec.commit_line outcome.now) }
    ensures words { OnOk result
        (appended out.old.items (spec.commit_line outcome.now) ≡ Some out.new.items) }
    ensures kept { StartsWith out.new.items out.old.items }
{
    match outcome {
        Outcome::Committed(committed) => put_committed(committed, out),
        Outcome::Refused(fault) => {
            put("refused ", out)?;
            put_refusal(*fault, out)
        }
        _ => Ok(()),
    }
}

/// Appends the moment of a commit and the ids of the records that it created.
fn put_committed(committed: &Committed, out: &mut Vec<u8>) -> Result<(), Memory>
    ensures words { OnOk result
        (out.new.items ≡ out.old.items ++ spec.committed_words committed.now) }
    ensures kept { StartsWith out.new.items out.old.items }
{
    put_counted("commit ", committed.moment, out)?;
    for id in committed.ids.as_slice() {
        put_counted(" ", (*id).into(), out)?;
    }
    Ok(())
}

/// Appends how many entries were removed.
fn put_expiry(outcome: &Outcome, out: &mut Vec<u8>) -> Result<(), Memory>
    requires { IsSome (spec.expiry_line outcome.now) }
    ensures words { OnOk result
        (appended out.old.items (spec.expiry_line outcome.now) ≡ Some out.new.items) }
    ensures kept { StartsWith out.new.items out.old.items }
{
    match outcome {
        Outcome::Expired { count } => put_counted("expire ", (*count).into(), out),
        _ => Ok(()),
    }
}
