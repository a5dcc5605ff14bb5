//! Refused commits, explained.

ghost use Rattle.doll_table.specs.Fits.{Fits};

use crate::schema::{put_index, put_said};
use crate::words::{Words, commit_words, why_words};
use doll_bundle::commits::records_after;
use doll_commit::CommitFault;
use doll_commit::apply::apply;
use doll_excerpt::{Paper, put_quoted};
use doll_journal::{Change, Changes, Commit, changes_of};
use doll_schema::Schema;
use doll_table::Table;
use doll_text::{Memory, Name};
use doll_views::Kind;
use serde_json::Value;
use std::alloc::Global;

/// Appends the explanation of the commit with a number that is refused: of one that a change refuses that change, made on the
/// records that the commits before it leave.
pub(crate) fn put_commit(
    alloc: Global,
    paper: &mut Paper,
    schema: &Schema,
    readings: &[u64],
    commits: &[Value],
    number: usize,
    kind: Kind,
) -> Result<(), Memory> {
    paper.put("commits")?;
    let (before, rest) = commits.split_at(number.min(commits.len()));
    let [commit, ..] = rest else {
        return put_said(paper, None, commit_words(kind));
    };
    put_index(paper, number as u64)?;
    let Some(changes) = changes_in(alloc, commit)? else {
        return put_said(paper, None, commit_words(Kind::BadForm));
    };
    let Ok(records) = records_after(alloc, schema, readings, before) else {
        return Err(Memory);
    };
    let snapshot = records.snapshot(alloc)?;
    put_changes(alloc, paper, schema, snapshot.table.get(), changes, kind)
}

/// The changes of a commit, where they are of the form.
fn changes_in(alloc: Global, commit: &Value) -> Result<Option<Changes>, Memory> {
    match commit.get("changes") {
        Some(changes) => changes_of(alloc, changes),
        None => Ok(None),
    }
}

/// Appends which of the changes is refused on a table.
fn put_changes(
    alloc: Global,
    paper: &mut Paper,
    schema: &Schema,
    table: &Table,
    changes: Changes,
    kind: Kind,
) -> Result<(), Memory>
    requires { Fits schema.now table.now }
{
    let commit = Commit {
        author: 0,
        serial: 0,
        moment: 0,
        changes,
    };
    match apply(alloc, table, schema, &commit) {
        Ok(_) => put_said(paper, None, commit_words(kind)),
        Err(CommitFault::Refused { index, why }) => {
            put_change(paper, commit.changes.as_slice(), index, why_words(why))
        }
        Err(CommitFault::Memory) => Err(Memory),
    }
}

/// Appends a refused change: its number, and the record that it is about.
fn put_change(
    paper: &mut Paper,
    changes: &[Change],
    index: u32,
    words: Words,
) -> Result<(), Memory> {
    paper.put(".changes")?;
    put_index(paper, u64::from(index))?;
    paper.put(": ")?;
    if let Some(change) = changes.get(index as usize) {
        put_record(paper, change)?;
        paper.put(": ")?;
    }
    paper.put(words.wrong)?;
    paper.put("\n")?;
    paper.put(words.instead)
}

/// Appends what a change does to which record.
fn put_record(paper: &mut Paper, change: &Change) -> Result<(), Memory> {
    match change {
        Change::Create { model, .. } => {
            paper.put("create ")?;
            put_quoted(paper, model.as_bytes())
        }
        Change::Update { model, id, .. } => put_act(paper, "update ", model, *id),
        Change::Destroy { model, id } => put_act(paper, "destroy ", model, *id),
        Change::Touch { model, id } => put_act(paper, "touch ", model, *id),
    }
}

/// Appends an act, a model and an id.
fn put_act(paper: &mut Paper, act: &str, model: &Name, id: u32) -> Result<(), Memory> {
    paper.put(act)?;
    put_quoted(paper, model.as_bytes())?;
    paper.put(" ")?;
    paper.put_number(u64::from(id))
}
