//! One line for each form of an outcome.

ghost use Rattle.std.specs.Prelude.{IsSome};
ghost use Rattle.doll_report.specs.Lines.{line_of};

use doll_commit::Why;
use doll_entry::{Fetched, Fragment, Miss};
use doll_records::{Committed, RecordFault};
use doll_report::{CONFLICT, NOT_FOUND, Outcome, Step, report};
use doll_text::{Bytes, Ids, Items, Memory};
use std::alloc::Global;
use std::test::Fail;

/// The names of what may be wrong with a change.
const NAMES: [(Why, &str); 9] = [
    (Why::UnknownModel, "refused 7 UnknownModel\n"),
    (Why::UnknownAttribute, "refused 7 UnknownAttribute\n"),
    (Why::WrongKind, "refused 7 WrongKind\n"),
    (Why::NullRefused, "refused 7 NullRefused\n"),
    (Why::MissingRow, "refused 7 MissingRow\n"),
    (Why::BadParent, "refused 7 BadParent\n"),
    (Why::Restricted, "refused 7 Restricted\n"),
    (Why::IdsEnded, "refused 7 IdsEnded\n"),
    (Why::TooManyChanges, "refused 7 TooManyChanges\n"),
];

/// Whether the line that tells what became of a step is this one.
fn is_told(alloc: Global, step: Step, outcome: &Outcome, expected: &str) -> Result<bool, Memory>
    requires { IsSome (line_of step outcome.now) }
{
    let mut out = Vec::new(alloc);
    report(&step, outcome, &mut out)?;
    Ok(out.as_slice() == expected.as_bytes())
}

/// Whether a refused commit is told so.
fn is_refusal(alloc: Global, fault: RecordFault, expected: &str) -> Result<bool, Memory>
    requires { IsSome (line_of Step.Commit (Outcome.Refused fault)) }
{
    is_told(alloc, Step::Commit, &Outcome::Refused(fault), expected)
}

/// Whether an answer to one question is told so.
fn is_answer(alloc: Global, answer: Fetched, expected: &str) -> Result<bool, Memory>
    requires { IsSome (line_of (Step.Turn 0) (Outcome.Read answer)) }
{
    is_told(
        alloc,
        Step::Turn { session: 0 },
        &Outcome::Read(answer),
        expected,
    )
}

fn starts(alloc: Global) -> Result<bool, Memory> {
    let zero = Step::Open { session: 0 };
    let last = Step::Open { session: 1000 };
    let opened = Outcome::Opened { moment: 11 };
    if !is_told(alloc, zero, &opened, "open 0 at 11\n")? {
        return Ok(false);
    }
    let lost = Outcome::NoPage {
        status: NOT_FOUND,
        moment: 11,
    };
    if !is_told(alloc, last, &lost, "open 1000 status 404\n")? {
        return Ok(false);
    }
    let late = Outcome::NoPage {
        status: CONFLICT,
        moment: 11,
    };
    is_told(alloc, zero, &late, "open 0 status 409 at 11\n")
}

#[test]
fn starts_tell_their_moment_or_their_status(rt: HostRuntime) -> Result<(), Fail> {
    let all = starts(rt.alloc()).ok().ok_or("no memory")?;
    assert!(rt; all);
    Ok(())
}

fn answers(alloc: Global) -> Result<bool, Memory> {
    let bytes = Bytes::from_vec(Vec::from_slice(alloc, b"ab")?);
    let hit = Fetched::Hit(Fragment::new(alloc, bytes)?);
    let told = is_answer(alloc, hit, "turn 0 read hit\n")?;
    let absent = is_answer(alloc, Fetched::Miss(Miss::Absent), "turn 0 read absent\n")?;
    let mismatch = is_answer(
        alloc,
        Fetched::Miss(Miss::Mismatch),
        "turn 0 read mismatch\n",
    )?;
    let bumped = is_answer(alloc, Fetched::Miss(Miss::Bumped), "turn 0 read bumped\n")?;
    let dead = is_answer(alloc, Fetched::Miss(Miss::Dead), "turn 0 read dead\n")?;
    Ok(told && absent && mismatch && bumped && dead)
}

#[test]
fn answers_are_told_by_their_words(rt: HostRuntime) -> Result<(), Fail> {
    let all = answers(rt.alloc()).ok().ok_or("no memory")?;
    assert!(rt; all);
    Ok(())
}

/// Whether another outcome of a turn is told so.
fn is_turn(alloc: Global, outcome: &Outcome, expected: &str) -> Result<bool, Memory>
    requires { IsSome (line_of (Step.Turn 4294967295) outcome.now) }
{
    let last = Step::Turn {
        session: 4_294_967_295,
    };
    is_told(alloc, last, outcome, expected)
}

/// A hit, an entry that has expired, and none.
fn three_answers(alloc: Global) -> Result<bool, Memory> {
    let bytes = Bytes::from_vec(Vec::from_slice(alloc, b"ab")?);
    let mut answers = Items::new(alloc);
    answers.push(Fetched::Hit(Fragment::new(alloc, bytes)?))?;
    answers.push(Fetched::Miss(Miss::Dead))?;
    answers.push(Fetched::Miss(Miss::Absent))?;
    is_turn(
        alloc,
        &Outcome::Many(answers),
        "turn 4294967295 many hit dead absent\n",
    )
}

fn is_page(alloc: Global, page: &str, expected: &str) -> Result<bool, Memory> {
    let bytes = Bytes::from_vec(Vec::from_slice(alloc, page.as_bytes())?);
    is_turn(alloc, &Outcome::Page(bytes), expected)
}

fn turns(alloc: Global) -> Result<bool, Memory> {
    let many = three_answers(alloc)?;
    let wrote = is_turn(alloc, &Outcome::Wrote, "turn 4294967295 write\n")?;
    let none = is_page(alloc, "", "turn 4294967295 page 0 \n")?;
    let page = is_page(
        alloc,
        "<p>\u{e9}\n</p>",
        "turn 4294967295 page 10 <p>\u{e9}\n</p>\n",
    )?;
    Ok(many && wrote && none && page)
}

#[test]
fn turns_tell_several_answers_writes_and_pages(rt: HostRuntime) -> Result<(), Fail> {
    let all = turns(rt.alloc()).ok().ok_or("no memory")?;
    assert!(rt; all);
    Ok(())
}

fn batches(alloc: Global) -> Result<bool, Memory> {
    let two = Outcome::Expired { count: 2 };
    let most = Outcome::Expired {
        count: 4_294_967_295,
    };
    let first = is_told(alloc, Step::Expire, &two, "expire 2\n")?;
    let second = is_told(alloc, Step::Expire, &most, "expire 4294967295\n")?;
    Ok(first && second)
}

#[test]
fn batches_tell_how_many_entries_they_removed(rt: HostRuntime) -> Result<(), Fail> {
    let all = batches(rt.alloc()).ok().ok_or("no memory")?;
    assert!(rt; all);
    Ok(())
}

/// Whether a commit at the last moment that created these records is told so.
fn is_commit(alloc: Global, ids: &[u32], expected: &str) -> Result<bool, Memory> {
    let committed = Committed {
        place: 3,
        moment: 9_223_372_036_854_775_807,
        ids: Ids::from_slice(alloc, ids)?,
    };
    is_told(
        alloc,
        Step::Commit,
        &Outcome::Committed(committed),
        expected,
    )
}

fn commits(alloc: Global) -> Result<bool, Memory> {
    let none = is_commit(alloc, &[], "commit 9223372036854775807\n")?;
    let three = is_commit(
        alloc,
        &[4, 1, 4_294_967_295],
        "commit 9223372036854775807 4 1 4294967295\n",
    )?;
    Ok(none && three)
}

#[test]
fn commits_tell_their_moment_and_the_ids(rt: HostRuntime) -> Result<(), Fail> {
    let all = commits(rt.alloc()).ok().ok_or("no memory")?;
    assert!(rt; all);
    Ok(())
}

#[test]
fn refused_changes_are_told_by_their_index_and_name(rt: HostRuntime) -> Result<(), Fail> {
    for (why, expected) in &NAMES {
        let fault = RecordFault::Refused {
            index: 7,
            why: *why,
        };
        let told = is_refusal(rt.alloc(), fault, expected)
            .ok()
            .ok_or("no memory")?;
        assert!(rt; told);
    }
    Ok(())
}

fn other_refusals(alloc: Global) -> Result<bool, Memory> {
    let full = RecordFault::HistoryFull { count: 4_000_000 };
    let ended = RecordFault::MomentsEnded {
        last: 9_223_372_036_854_775_807,
    };
    let first = is_refusal(alloc, full, "refused HistoryFull\n")?;
    let second = is_refusal(alloc, ended, "refused MomentsEnded\n")?;
    let third = is_refusal(alloc, RecordFault::Kept, "refused Kept\n")?;
    Ok(first && second && third)
}

#[test]
fn other_refusals_are_told_by_their_name(rt: HostRuntime) -> Result<(), Fail> {
    let all = other_refusals(rt.alloc()).ok().ok_or("no memory")?;
    assert!(rt; all);
    Ok(())
}
