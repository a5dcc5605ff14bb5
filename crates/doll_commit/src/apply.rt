//! A commit made on a table.

ghost use Rattle.std.specs.Prelude.{◌≤◌, length, IfOk, OnOk};
ghost use Rattle.doll_text.specs.Gives.{Gives, GivesBy};
ghost use Rattle.doll_table.specs.Fits.{Fits};
ghost use Rattle.doll_commit.specs.Changes.{made};
ghost use Rattle.doll_commit.specs.Commits.{start, refused_at, all_made, commit_of};
ghost use Rattle.doll_commit.specs.Answers.{next_course, Reaches, seen};
ghost use Rattle.doll_commit.specs.Moments.{CarriesMoment};

use crate::change::make_change;
use crate::course::Course;
use crate::fault::{ChangeFault, CommitFault, Why};
use crate::refs::Refs;
use crate::touched::finish;
use doll_journal::{Change, Commit};
use doll_schema::Schema;
use doll_table::Table;
use doll_text::Ids;
use std::alloc::Global;

/// How many changes a commit may have.
pub const MOST_CHANGES: u32 = 1000;

/// A table after a commit.
#[derive(Drop)]
pub struct Applied {
    pub table: Table,
    /// The ids of the records created, in order.
    pub ids: Ids,
}

/// Makes a commit on a share of the table, or tells its first refused change.
pub fn apply(
    alloc: Global,
    table: &Table,
    schema: &Schema,
    commit: &Commit,
) -> Result<Applied, CommitFault>
    requires { Fits schema.now table.now }
    ensures exact { Gives CommitFault.Memory (commit_of table.now schema.now commit.now) result }
    ensures fits { IfOk result (λ applied. Fits schema.now applied.table) }
    // A record that differs has the commit's moment, and so has each living touch parent of it, before and after.
    ensures moments { IfOk result
        (λ applied. CarriesMoment schema.now table.now applied.table commit.now.moment) }
{
    apply_to(alloc, table.share(alloc)?, schema, commit)
}

/// Makes a commit on the table itself, of which nothing is copied, or tells its first refused change. The table is used
/// up in either case: who wants it after a refusal takes `apply`.
pub fn apply_to(
    alloc: Global,
    table: Table,
    schema: &Schema,
    commit: &Commit,
) -> Result<Applied, CommitFault>
    requires { Fits schema.now table }
    ensures exact { Gives CommitFault.Memory (commit_of table schema.now commit.now) result }
    ensures fits { IfOk result (λ applied. Fits schema.now applied.table) }
    // As of `apply`.
    ensures moments { IfOk result
        (λ applied. CarriesMoment schema.now table applied.table commit.now.moment) }
{
    if commit.changes.len() > MOST_CHANGES as usize {
        return Err(CommitFault::Refused {
            index: MOST_CHANGES,
            why: Why::TooManyChanges,
        });
    }
    let course = made_course(alloc, table, schema, commit.changes.as_slice())?;
    let Course {
        table,
        touched,
        ids,
    } = course;
    Ok(finish(alloc, schema, commit.moment, table, touched, ids)?)
}

/// The course of a table with changes made in order.
fn made_course(
    alloc: Global,
    table: Table,
    schema: &Schema,
    changes: &[Change],
) -> Result<Course, CommitFault>
    requires fits { Fits schema.now table }
    requires few { length changes.now ≤ MOST_CHANGES }
    ensures exact { GivesBy seen CommitFault.Memory
        (all_made schema.now 0 (start table) changes.now) result }
    ensures fits { IfOk result (λ course. Fits schema.now course.table) }
{
    let mut course = Course {
        table,
        touched: Refs::new(alloc),
        ids: Ids::new(alloc),
    };
    make_all(alloc, schema, &mut course, changes)?;
    Ok(course)
}

/// Makes changes in order on a course.
fn make_all(
    alloc: Global,
    schema: &Schema,
    course: &mut Course,
    changes: &[Change],
) -> Result<(), CommitFault>
    requires fits { Fits schema.now course.old.table }
    requires few { length changes.now ≤ MOST_CHANGES }
    ensures exact { Reaches (all_made schema.now 0 (seen course.old) changes.now) (seen course.new)
        result }
    ensures fits { OnOk result (Fits schema.now course.new.table) }
{
    for (index, change) in changes.iter().enumerate() {
        make_one(alloc, schema, course, index as u32, change)?;
    }
    Ok(())
}

/// Makes the change with this index.
fn make_one(
    alloc: Global,
    schema: &Schema,
    course: &mut Course,
    index: u32,
    change: &Change,
) -> Result<(), CommitFault>
    requires { Fits schema.now course.old.table }
    ensures exact { Reaches
        (refused_at index
        (next_course schema.now (seen course.old) (made course.old.table schema.now change.now)))
        (seen course.new) result }
    ensures fits { OnOk result (Fits schema.now course.new.table) }
{
    match make_change(alloc, schema, course, change) {
        Ok(()) => Ok(()),
        Err(ChangeFault::Memory) => Err(CommitFault::Memory),
        Err(ChangeFault::Refused(why)) => Err(CommitFault::Refused { index, why }),
    }
}
