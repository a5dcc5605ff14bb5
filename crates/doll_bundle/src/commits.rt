//! The history that the commits of a bundle make, and the records that it leaves.

ghost use Rattle.std.specs.Prelude.{◌≡◌, [], IfOk, IfSome};
ghost use Rattle.serde_json.specs.View.{items_view, view};
ghost use Rattle.doll_text.specs.Gives.{GivesBy};
ghost use Rattle.doll_keep.specs.Calls.{IsFaultless};
ghost use Rattle.doll_keep.specs.Kept.{MemKept};
ghost use Rattle.doll_records.specs.Histories.{Recorded};
ghost use Rattle.doll_bundle.specs.Commits.{is_untimed, time_in, asked_in, untimed, why_kind, recorded, commit_result, next_reading, readings_behind, commits_from};
ghost use Rattle.doll_journal.specs.Storable.{AreStorable};
ghost use Rattle.doll_bundle.specs.Commits.{GivesHistory};

use doll_commit::Why;
use doll_journal::{Changes, changes_of};
use doll_keep::MemKeeper;
use doll_records::{OpenFault, RecordFault, Records};
use doll_schema::Schema;
use doll_schema::json::{has_only, whole_at};
use doll_text::{Copied, Memory};
use doll_views::{Kind, Refusal, commit_refusal};
use serde_json::Value;
use std::alloc::Global;

/// The author of a bundle's commits.
const AUTHOR: u32 = 0;

/// What a commit of a bundle asks for: its changes, and a time where it says one.
#[derive(Drop)]
struct Asked {
    time: Option<u64>,
    changes: Changes,
}

/// A refused change's reason as the bundle's.
fn why_kind(why: Why) -> Kind
    ensures { result ≡ why_kind why }
{
    match why {
        Why::UnknownModel => Kind::UnknownModel,
        Why::UnknownAttribute => Kind::UnknownAttribute,
        Why::WrongKind => Kind::WrongKind,
        Why::NullRefused => Kind::NullRefused,
        Why::MissingRow => Kind::MissingRow,
        Why::BadParent => Kind::BadParent,
        Why::Restricted => Kind::Restricted,
        Why::IdsEnded => Kind::IdsEnded,
        Why::TooManyChanges => Kind::TooManyChanges,
    }
}

/// Whether a commit says no time.
fn is_untimed(commit: &Value) -> bool
    ensures { result ≡ is_untimed (view commit.now) }
{
    commit.get("at").is_none()
}

/// The time that a commit says, if it says one.
fn time_in(commit: &Value) -> Option<Option<u64>>
    ensures { result ≡ time_in (view commit.now) }
{
    if is_untimed(commit) {
        return Some(None);
    }
    match whole_at(commit, "at") {
        Some(time) => Some(Some(time)),
        None => None,
    }
}

/// What a commit asks for, if it is of the form.
fn asked_in(alloc: Global, commit: &Value) -> Result<Option<Asked>, Memory>
    ensures exact { IfOk result (λ asked. asked ≡ asked_in (view commit.now)) }
    ensures storable { IfOk result (λ asked. IfSome asked (λ form. AreStorable form.changes)) }
{
    if !has_only(commit, &["at", "changes"]) {
        return Ok(None);
    }
    let Some(time) = time_in(commit) else {
        return Ok(None);
    };
    let Some(changes) = commit.get("changes") else {
        return Ok(None);
    };
    match changes_of(alloc, changes)? {
        Some(changes) => Ok(Some(Asked { time, changes })),
        None => Ok(None),
    }
}

/// How many of these commits say no time.
pub fn untimed(commits: &[Value]) -> usize
    ensures { result ≡ untimed (items_view commits.now) }
{
    let mut count = 0;
    let mut rest = commits;
    while let [commit, more @ ..] = rest {
        if is_untimed(commit) {
            count += 1;
        }
        rest = more;
    }
    count
}

/// Records a commit after the others.
#[tactic(auto, using(crate::proofs::Keeping::commit_faultless))]
fn recorded(
    alloc: Global,
    records: &mut Records<MemKeeper>,
    time: u64,
    changes: Changes,
) -> Result<(), Refusal>
    requires storable { AreStorable changes }
    requires faultless { IsFaultless records.old.keeper.plan }
    ensures exact { GivesHistory Refusal.Memory
        (recorded records.old.schema records.old.history time changes)
        records.new.history result }
    ensures schema { records.new.schema ≡ records.old.schema }
    ensures faultless { IsFaultless records.new.keeper.plan }
{
    let number = records.history().len() as u64;
    match records.commit(alloc, AUTHOR, number, changes, time) {
        Ok(_) => Ok(()),
        Err(RecordFault::HistoryFull { .. }) => Err(commit_refusal(number, Kind::HistoryFull)),
        Err(RecordFault::MomentsEnded { .. }) => Err(commit_refusal(number, Kind::MomentsEnded)),
        Err(RecordFault::Refused { why, .. }) => Err(commit_refusal(number, why_kind(why))),
        // The keeper was made to fail at no call.
        Err(RecordFault::Kept) => unreachable!(),
        Err(RecordFault::Memory) => Err(Refusal::Memory),
    }
}

/// Records a commit, if it is of the form; at the clock's reading, where it says no time.
#[tactic(auto, unfolding(crate::specs::Commits::commit_result))]
fn record_next(
    alloc: Global,
    records: &mut Records<MemKeeper>,
    reading: u64,
    commit: &Value,
) -> Result<(), Refusal>
    requires { IsFaultless records.old.keeper.plan }
    ensures exact { GivesHistory Refusal.Memory
        (commit_result records.old.schema records.old.history reading (view commit.now))
        records.new.history result }
    ensures schema { records.new.schema ≡ records.old.schema }
    ensures faultless { IsFaultless records.new.keeper.plan }
{
    match asked_in(alloc, commit)? {
        Some(asked) => {
            let time = asked.time.unwrap_or(reading);
            recorded(alloc, records, time, asked.changes)
        }
        None => Err(commit_refusal(records.history().len() as u64, Kind::BadForm)),
    }
}

/// The next reading, 0 where there is none.
fn next_reading(readings: &[u64]) -> u64
    ensures { result ≡ next_reading readings.now }
{
    match readings {
        [reading, ..] => *reading,
        [] => 0,
    }
}

/// The readings behind a commit, which takes the next one where it says no time.
fn readings_behind<'a>(commit: &Value, readings: &'a [u64]) -> &'a [u64]
    ensures { result.now ≡ readings_behind (view commit.now) readings.now }
{
    if !is_untimed(commit) {
        return readings;
    }
    match readings {
        [_reading, more @ ..] => more,
        [] => readings,
    }
}

/// Records these commits, one after another.
#[tactic(auto, using(crate::proofs::Made::step_goes_on, crate::proofs::Made::step_stops))]
fn record_all(
    alloc: Global,
    records: &mut Records<MemKeeper>,
    readings: &[u64],
    commits: &[Value],
) -> Result<(), Refusal>
    requires { IsFaultless records.old.keeper.plan }
    ensures exact { GivesHistory Refusal.Memory
        (commits_from records.old.schema records.old.history readings.now (items_view commits.now))
        records.new.history result }
    ensures schema { records.new.schema ≡ records.old.schema }
    ensures faultless { IsFaultless records.new.keeper.plan }
{
    let mut rest = commits;
    let mut left = readings;
    while let [commit, more @ ..] = rest {
        record_next(alloc, records, next_reading(left), commit)?;
        left = readings_behind(commit, left);
        rest = more;
    }
    Ok(())
}

/// No records, behind a keeper in memory that fails at no call.
fn no_records(alloc: Global, schema: &Schema) -> Result<Records<MemKeeper>, Memory>
    ensures history { IfOk result (λ records. records.history ≡ []) }
    ensures schema { IfOk result (λ records. records.schema ≡ schema.now) }
    ensures faultless { IfOk result (λ records. IsFaultless records.keeper.plan) }
{
    let keeper = MemKeeper::new(alloc, Vec::new(alloc), None);
    match Records::open(alloc, keeper, schema.copy(alloc)?) {
        Ok(records) => Ok(records),
        Err(refusal) => match refusal.fault {
            OpenFault::Memory => Err(Memory),
            // It fails at no call, and keeps no item that could have a fault.
            _ => unreachable!(),
        },
    }
}

/// The history of these commits, made one after another, behind a keeper that fails at no call.
pub fn records_after(
    alloc: Global,
    schema: &Schema,
    readings: &[u64],
    commits: &[Value],
) -> Result<Records<MemKeeper>, Refusal>
    ensures exact { GivesBy (λ (records : Recorded MemKept). records.history) Refusal.Memory
        (commits_from schema.now [] readings.now (items_view commits.now)) result }
    ensures schema { IfOk result (λ records. records.schema ≡ schema.now) }
    ensures faultless { IfOk result (λ records. IsFaultless records.keeper.plan) }
{
    let mut records = no_records(alloc, schema)?;
    record_all(alloc, &mut records, readings, commits)?;
    Ok(records)
}
