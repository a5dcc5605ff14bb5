//! Recording a commit.

ghost use Rattle.std.specs.Prelude.{◌≡◌, ◌+◌, ◌<◌, ◌≤◌, ◌∷◌, [], ◌++◌, length, vec_len, vec_capacity, IfOk, OnOk, OnErr, IsErrOf};
ghost use Rattle.doll_base.specs.Faults.{KeepsCount, HasCause};
ghost use Rattle.doll_keep.specs.Calls.{Append};
ghost use Rattle.doll_keep.specs.Kept.{Added, has_failed};
ghost use Rattle.doll_text.specs.Gives.{GivesBy};
ghost use Rattle.doll_journal.specs.declared.lengths.TheConstants.{MOST_BYTES};
ghost use Rattle.doll_journal.specs.Spelling.{spelling};
ghost use Rattle.doll_journal.specs.Storable.{AreStorable};
ghost use Rattle.doll_table.specs.Fits.{Fits};
ghost use Rattle.doll_commit.specs.Commits.{commit_of};
ghost use Rattle.doll_commit.specs.Moments.{CarriesMoment};
ghost use Rattle.doll_records.specs.Histories.{next_moment};
ghost use Rattle.doll_records.specs.Commitments.{asked_at, asked, or_refused, applied_in, GivesCommitted, IsUnrefused, TableCarriesMoment, CalledOnce};
ghost use Rattle.doll_records.specs.declared.fault.RecordFault.TheVariants as faults;

use crate::fault::RecordFault;
use crate::limits::{LAST_MOMENT, LATEST, MOST_COMMITS};
use crate::records::{Records, SharedTable};
use doll_commit::apply;
use doll_journal::{Changes, Commit, encode};
use doll_keep::{KeepFault, Keeper};
use doll_schema::Schema;
use doll_table::Table;
use doll_text::Ids;
use std::alloc::Global;

/// A commit that was recorded.
#[derive(Drop)]
pub struct Committed {
    /// How many commits the history has with this one.
    pub place: u64,
    pub moment: u64,
    /// The ids of the records created, in order.
    pub ids: Ids,
}

/// What a commit takes of memory beside the room in the history and what the keeper takes.
#[derive(Drop)]
struct Prepared {
    table: SharedTable,
    bytes: Vec<u8>,
    ids: Ids,
}

/// The commit made on a copy of the table, and its bytes.
fn prepare(
    alloc: Global,
    schema: &Schema,
    table: &Table,
    commit: &Commit,
) -> Result<Prepared, RecordFault>
    requires fits { Fits schema.now table.now }
    requires room { length (spelling commit.now) ≤ MOST_BYTES }
    ensures exact { GivesBy applied_in faults.Memory
        (or_refused (commit_of table.now schema.now commit.now)) result }
    ensures bytes { IfOk result (λ prepared. prepared.bytes.items ≡ spelling commit.now) }
    ensures fits { IfOk result (λ prepared. Fits schema.now prepared.table) }
    ensures moments { IfOk result (λ prepared.
        CarriesMoment schema.now table.now prepared.table commit.now.moment) }
{
    let applied = apply::apply(alloc, table, schema, commit)?;
    let bytes = encode(alloc, commit)?;
    let table = SharedTable::new(alloc, applied.table)?;
    Ok(Prepared {
        table,
        bytes,
        ids: applied.ids,
    })
}

/// The commit that is asked for at a time, after the last moment.
fn asked(last: u64, author: u32, serial: u64, changes: Changes, now: u64) -> Commit
    requires { last < LAST_MOMENT }
    ensures { result ≡ asked_at (next_moment last now) author serial changes }
{
    Commit {
        author,
        serial,
        moment: now.min(LATEST).max(last + 1),
        changes,
    }
}

/// Gives a keeper the bytes of a commit, and once it keeps them the history the commit, for which there is room.
fn keep<K: Keeper>(
    alloc: Global,
    keeper: &mut K,
    bytes: &[u8],
    history: &mut Vec<Commit>,
    commit: Commit,
) -> Result<(), KeepFault>
    requires { vec_len history.old < vec_capacity history.old }
    ensures added { OnOk result (Added (K.kept keeper.old) (K.kept keeper.new) bytes.now) }
    ensures history { OnOk result (history.new.items ≡ history.old.items ++ commit ∷ []) }
    ensures kept { OnErr result (K.kept keeper.new ≡ K.kept keeper.old) }
    ensures same { OnErr result (history.new.items ≡ history.old.items) }
    ensures cause { HasCause KeepFault.Failed (K.faults keeper.old) (K.faults keeper.new) result }
    ensures count { KeepsCount (K.faults keeper.old) (K.faults keeper.new) }
    ensures called { K.called keeper.old (Append bytes.now) (has_failed result) keeper.new }
{
    keeper.append(alloc, bytes)?;
    let _ = history.push(commit);
    Ok(())
}

impl<K: Keeper> Records<K> {
    /// Records a commit that is asked for at a time, in microseconds. Its moment is this one or 2^62, whichever is less, but
    /// later than the last commit's. After a refusal the history and the keeper's list are as before.
    pub fn commit(
        &mut self,
        alloc: Global,
        author: u32,
        serial: u64,
        changes: Changes,
        now: u64,
    ) -> Result<Committed, RecordFault>
        requires { AreStorable changes }
        ensures exact { GivesCommitted self.old (asked self.old.history author serial changes now) result }
        // The keeper is asked only for a commit that nothing else refuses.
        ensures last { IsErrOf result faults.Kept →
            IsUnrefused self.old (asked self.old.history author serial changes now) }
        ensures place { IfOk result (λ c. c.place ≡ length self.new.history) }
        ensures history { OnOk result (self.new.history ≡
            self.old.history ++ asked self.old.history author serial changes now ∷ []) }
        ensures added { OnOk result (Added (K.kept self.old.keeper) (K.kept self.new.keeper)
            (spelling (asked self.old.history author serial changes now))) }
        // A record that differs has the commit's moment, and so has each living touch parent of it, before and after.
        ensures moments { IfOk result (λ c. TableCarriesMoment self.old self.new c.moment) }
        ensures schema { self.new.schema ≡ self.old.schema }
        ensures same { OnErr result (self.new.history ≡ self.old.history) }
        ensures kept { OnErr result (K.kept self.new.keeper ≡ K.kept self.old.keeper) }
        ensures cause { HasCause faults.Kept
            (K.faults self.old.keeper) (K.faults self.new.keeper) result }
        ensures count { KeepsCount (K.faults self.old.keeper) (K.faults self.new.keeper) }
        // The keeper is called once, to add the commit's bytes, for a commit that nothing else refuses, and else not
        // at all.
        ensures called { CalledOnce K.called
            (spelling (asked self.old.history author serial changes now))
            self.old.keeper self.new.keeper result }
    {
        if self.history.len() as u64 >= MOST_COMMITS {
            return Err(RecordFault::HistoryFull {
                count: MOST_COMMITS,
            });
        }
        if self.moment >= LAST_MOMENT {
            return Err(RecordFault::MomentsEnded { last: LAST_MOMENT });
        }
        let commit = asked(self.moment, author, serial, changes, now);
        let moment = commit.moment;
        let Prepared { table, bytes, ids } = prepare(
            alloc,
            &self.schema,
            self.table.get(),
            &commit,
        )?;
        self.history.reserve(1)?;
        keep(
            alloc,
            &mut self.keeper,
            bytes.as_slice(),
            &mut self.history,
            commit,
        )?;
        self.table = table;
        self.moment = moment;
        Ok(Committed {
            place: self.history.len() as u64,
            moment,
            ids,
        })
    }
}
