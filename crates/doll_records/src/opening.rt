//! Opening the history that a keeper keeps.

ghost use Rattle.std.specs.Prelude.{◌≡◌, ◌+◌, ◌<◌, ◌∷◌, [], ◌++◌, map, length, IfOk, IfErr};
ghost use Rattle.doll_base.specs.Faults.{KeepsCount, HasCause};
ghost use Rattle.doll_text.specs.Gives.{Gives};
ghost use Rattle.doll_keep.specs.Calls.{Serves};
ghost use Rattle.doll_journal.specs.Reading as journal;
ghost use Rattle.doll_text.specs.Gives.{GivesBy};
ghost use Rattle.doll_journal.specs.Spelling.{spelling};
ghost use Rattle.doll_journal.specs.Storable.{IsStorable};
ghost use Rattle.doll_table.specs.Fits.{Fits};
ghost use Rattle.doll_commit.specs.Commits.{commit_of};
ghost use Rattle.doll_records.specs.Histories.{Holds, IsSpelled, follows};
ghost use Rattle.doll_records.specs.Openings.{or_journal, or_apply, opened_with, IsOfItem, GivesOpened, LoadsUpTo, keeper_after, or_fault, OpensAgain};
ghost use Rattle.doll_records.specs.declared.fault.OpenFault.TheVariants as faults;

use crate::fault::OpenFault;
use crate::limits::{LAST_MOMENT, MOST_COMMITS};
use crate::records::{Records, SharedTable};
use doll_commit::{Applied, CommitFault, apply};
use doll_journal::{Commit, JournalFault, decode};
use doll_keep::Keeper;
use doll_schema::Schema;
use doll_table::Table;
use doll_text::Memory;
use std::alloc::Global;

/// A keeper whose items weren't opened, and why.
#[derive(Drop)]
pub struct OpenRefusal<K> {
    pub fault: OpenFault,
    pub keeper: K,
}

/// A history, the table that it leaves, and the moment of its last commit, 0 where there is none.
#[derive(Drop)]
struct Past {
    history: Vec<Commit>,
    table: Table,
    moment: u64,
}

/// The history of no item.
fn no_past(alloc: Global, schema: &Schema) -> Result<Past, Memory>
    ensures none { IfOk result (λ past. past.history.items ≡ []) }
    ensures holds { IfOk result (λ past.
        Holds schema.now past.history.items past.table past.moment) }
{
    let table = Table::empty(alloc, schema)?;
    Ok(Past {
        history: Vec::new(alloc),
        table,
        moment: 0,
    })
}

/// The commit of the item with an index.
fn commit_in(alloc: Global, index: u64, item: &[u8]) -> Result<Commit, OpenFault>
    ensures exact { Gives OpenFault.Memory (or_journal index (journal.commit_in item.now)) result }
    ensures spelled { IfOk result (λ commit. (item.now ≡ spelling commit) × IsStorable commit) }
    ensures at { IfErr result (λ fault. IsOfItem index fault) }
{
    match decode(alloc, item) {
        Ok(commit) => Ok(commit),
        Err(JournalFault::Memory) => Err(OpenFault::Memory),
        Err(fault) => Err(OpenFault::Journal { index, fault }),
    }
}

/// A commit made on the table that those before it leave, which is used up, so that no item copies a table.
fn applied_at(
    alloc: Global,
    index: u64,
    schema: &Schema,
    table: Table,
    commit: &Commit,
) -> Result<Applied, OpenFault>
    requires fits { Fits schema.now table }
    ensures exact { Gives OpenFault.Memory
        (or_apply index (commit_of table schema.now commit.now)) result }
    ensures fits { IfOk result (λ applied. Fits schema.now applied.table) }
    ensures at { IfErr result (λ fault. IsOfItem index fault) }
{
    match apply::apply_to(alloc, table, schema, commit) {
        Ok(applied) => Ok(applied),
        Err(
            CommitFault::Refused {
                index: index_in,
                why,
            },
        ) => Err(OpenFault::Apply {
            index,
            index_in,
            why,
        }),
        Err(CommitFault::Memory) => Err(OpenFault::Memory),
    }
}

/// Whether a commit's moment may come after the last one.
fn follows(last: u64, commit: &Commit) -> bool
    ensures { result ≡ follows last commit.now }
{
    last < commit.moment && commit.moment <= LAST_MOMENT
}

/// The history with the commit of the next item, which has this index.
fn with_item(
    alloc: Global,
    schema: &Schema,
    past: Past,
    index: u64,
    item: &[u8],
) -> Result<Past, OpenFault>
    requires holds { Holds schema.now past.history.items past.table past.moment }
    requires index { index ≡ length past.history.items }
    requires room { index < MOST_COMMITS }
    ensures exact { GivesBy (λ next. next.history.items) OpenFault.Memory
        (opened_with schema.now past.history.items item.now) result }
    ensures holds { IfOk result (λ next.
        Holds schema.now next.history.items next.table next.moment) }
    ensures item { IfOk result (λ next. map spelling next.history.items ≡
        map spelling past.history.items ++ item.now ∷ []) }
    ensures at { IfErr result (λ fault. IsOfItem index fault) }
{
    let Past {
        mut history,
        table,
        moment,
    } = past;
    let commit = commit_in(alloc, index, item)?;
    if !follows(moment, &commit) {
        return Err(OpenFault::Moment {
            index,
            moment: commit.moment,
        });
    }
    let applied = applied_at(alloc, index, schema, table, &commit)?;
    let moment = commit.moment;
    history.push(commit)?;
    Ok(Past {
        history,
        table: applied.table,
        moment,
    })
}

/// The history of the items that a keeper keeps, or the first fault of the first that has one. The keeper's list stays.
fn replay<K: Keeper>(alloc: Global, keeper: &mut K, schema: &Schema) -> Result<Past, OpenFault>
    ensures exact { GivesOpened schema.now (λ past. past.history.items) (K.kept keeper.old) result }
    ensures holds { IfOk result (λ past.
        Holds schema.now past.history.items past.table past.moment) }
    ensures spelled { IfOk result (λ past. IsSpelled (K.kept keeper.old) past.history.items) }
    ensures same { K.kept keeper.new ≡ K.kept keeper.old }
    ensures cause { HasCause faults.Kept (K.faults keeper.old) (K.faults keeper.new) result }
    ensures count { KeepsCount (K.faults keeper.old) (K.faults keeper.new) }
    ensures served { IfOk result (λ past.
        Serves K.called (length past.history.items + 1) keeper.old keeper.new) }
    ensures failed { IfErr result (λ fault. LoadsUpTo K.called fault keeper.old keeper.new) }
{
    let mut past = no_past(alloc, schema)?;
    for index in 0..MOST_COMMITS {
        let Some(item) = keeper.load(alloc, index)? else {
            return Ok(past);
        };
        past = with_item(alloc, schema, past, index, item.as_slice())?;
    }
    match keeper.load(alloc, MOST_COMMITS)? {
        Some(_) => Err(OpenFault::TooLong {
            limit: MOST_COMMITS,
        }),
        None => Ok(past),
    }
}

impl<K: Keeper + Drop> Records<K> {
    /// Opens the history that a keeper keeps. A refusal hands the keeper back, and its list is as it was.
    pub fn open(alloc: Global, mut keeper: K, schema: Schema) -> Result<Records<K>, OpenRefusal<K>>
        ensures exact { GivesOpened schema
            (λ records. records.history) (K.kept keeper) (or_fault result) }
        ensures schema { IfOk result (λ records. records.schema ≡ schema) }
        ensures same { K.kept (keeper_after result) ≡ K.kept keeper }
        ensures cause { HasCause faults.Kept
            (K.faults keeper) (K.faults (keeper_after result)) (or_fault result) }
        ensures count { KeepsCount (K.faults keeper) (K.faults (keeper_after result)) }
        // Each item is loaded once, in order, and the one past them.
        ensures served { IfOk result (λ records.
            Serves K.called (length records.history + 1) keeper records.keeper) }
        // After a refusal the keeper was called for the items up to that of the fault, in order, and for nothing else.
        ensures failed { IfErr result (λ refusal.
            LoadsUpTo K.called refusal.fault keeper refusal.keeper) }
    {
        let past = match replay(alloc, &mut keeper, &schema) {
            Ok(past) => past,
            Err(fault) => return Err(OpenRefusal { fault, keeper }),
        };
        let Past {
            history,
            table,
            moment,
        } = past;
        let Ok(table) = SharedTable::new(alloc, table) else {
            return Err(OpenRefusal {
                fault: OpenFault::Memory,
                keeper,
            });
        };
        Ok(Records {
            schema,
            history,
            table,
            moment,
            keeper,
        })
    }
}

/// What is recorded is opened again as it was.
pub fn opens_again()
    ensures { OpensAgain }
{}
