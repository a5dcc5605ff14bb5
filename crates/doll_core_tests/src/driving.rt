//! Driving a job by hand.

ghost use Rattle.std.specs.Prelude.{◌≡◌, ◌≤◌, ◌^◌, length, OnOk};
ghost use Rattle.doll_table.specs.Fits.{Fits};
ghost use Rattle.doll_table.specs.Tables.{TableMap};
ghost use Rattle.doll_types.specs.Sets.{TypedSet};
ghost use Rattle.doll_job.specs.Jobs.{JobLives};

use doll_entry::{Ask, Fetched, Miss};
use doll_frames::Asks;
use doll_job::{Job, Need};
use doll_keep::MemKeeper;
use doll_lint::checked::Checked;
use doll_records::Records;
use doll_route::Routes;
use doll_shelf::{MemShelf, Shelf};
use doll_table::{Looking, Rows};
use doll_text::Memory;
use std::alloc::Global;

/// Appends a line: the calls of the page of a path over the table after all commits, one after another, with what is found; the
/// page; and how often the table was looked at. Nothing where no page begins.
pub fn visit(
    alloc: Global,
    checked: &Checked,
    routes: &Routes,
    records: &Records<MemKeeper>,
    path: &str,
    shelf: &mut MemShelf,
    told: &mut Vec<u8>,
) -> Result<(), Memory>
    requires schema { records.now.schema ≡ checked.now.schema }
    requires few { length checked.now.set.templates ≤ 2 ^ 16 }
{
    let Some(found) = routes.find(path)? else {
        return Ok(());
    };
    let params = routes.params(alloc, found.route, "")?;
    let snapshot = records.snapshot(alloc)?;
    let moment = snapshot.moment;
    let mut rows = Looking::new(snapshot.table.get());
    let started = Job::start(alloc, checked, routes, &found, params, &mut rows, moment, 0)?;
    let Some(job) = started else {
        return Ok(());
    };
    drive(alloc, checked, job, &mut rows, shelf, told)?;
    let looks = rows.looks();
    told.extend_from_slice(format!(in alloc; ", {looks} looks\n")?.as_bytes())?;
    Ok(())
}

/// Lets a job take its turns, which are fewer than a hundred.
fn drive<R: Rows>(
    alloc: Global,
    checked: &Checked,
    job: Job,
    rows: &mut R,
    shelf: &mut MemShelf,
    told: &mut Vec<u8>,
) -> Result<(), Memory>
    requires fits { Fits checked.now.schema (R.table rows.old) }
    requires few { length checked.now.set.templates ≤ 2 ^ 16 }
    requires lives { JobLives checked.now (R.table rows.old) job }
{
    let mut job = job;
    for _ in 0..100 {
        if !turn(alloc, checked, &mut job, rows, shelf, told)? {
            break;
        }
    }
    Ok(())
}

/// Appends what a job needs next, with what is found, and gives it to the job. False where the page came.
fn turn<R: Rows>(
    alloc: Global,
    checked: &Checked,
    job: &mut Job,
    rows: &mut R,
    shelf: &mut MemShelf,
    told: &mut Vec<u8>,
) -> Result<bool, Memory>
    requires fits { Fits checked.now.schema (R.table rows.old) }
    requires few { length checked.now.set.templates ≤ 2 ^ 16 }
    requires lives { JobLives checked.now (R.table rows.old) job.old }
    ensures lives { OnOk result (JobLives checked.now (R.table rows.old) job.new) }
    ensures table { R.table rows.new ≡ R.table rows.old }
{
    match job.step(alloc, checked, rows)? {
        Need::Read(ask) => read(alloc, &ask, job, shelf, told)?,
        Need::ReadMany(asks) => read_many(alloc, &asks, job, shelf, told)?,
        Need::Write(fresh) => {
            told.extend_from_slice(b"write, ")?;
            let _written = shelf.write(alloc, fresh, 0);
        }
        Need::Done(page) => {
            told.extend_from_slice(page.as_slice())?;
            return Ok(false);
        }
    }
    Ok(true)
}

/// Asks for a block.
fn read(
    alloc: Global,
    ask: &Ask,
    job: &mut Job,
    shelf: &mut MemShelf,
    told: &mut Vec<u8>,
) -> Result<(), Memory>
    ensures lives { (checked : TypedSet) (table : TableMap) →
        JobLives checked table job.old → JobLives checked table job.new }
{
    let found = shelf.fetch(alloc, &ask.key, &ask.versions, 0);
    told.extend_from_slice(b"read")?;
    told.extend_from_slice(word(&found).as_bytes())?;
    told.extend_from_slice(b", ")?;
    answer(job, found);
    Ok(())
}

/// Hands what was found to a job.
fn answer(job: &mut Job, found: Fetched)
    ensures lives { (checked : TypedSet) (table : TableMap) →
        JobLives checked table job.old → JobLives checked table job.new }
{
    job.answer(found);
}

/// Asks for several blocks.
fn read_many(
    alloc: Global,
    asks: &Asks,
    job: &mut Job,
    shelf: &mut MemShelf,
    told: &mut Vec<u8>,
) -> Result<(), Memory>
    ensures lives { (checked : TypedSet) (table : TableMap) →
        JobLives checked table job.old → JobLives checked table job.new }
{
    let Ok(found) = shelf.read_multi(alloc, asks.as_slice(), 0) else {
        return Err(Memory);
    };
    told.extend_from_slice(b"many")?;
    tell_words(found.as_slice(), told)?;
    told.extend_from_slice(b", ")?;
    answer_many(job, found);
    Ok(())
}

/// Hands what was found of several blocks to a job.
fn answer_many(job: &mut Job, found: Vec<Fetched>)
    ensures lives { (checked : TypedSet) (table : TableMap) →
        JobLives checked table job.old → JobLives checked table job.new }
{
    job.answer_many(found);
}

fn tell_words(found: &[Fetched], told: &mut Vec<u8>) -> Result<(), Memory> {
    for one in found {
        told.extend_from_slice(word(one).as_bytes())?;
    }
    Ok(())
}

fn word(found: &Fetched) -> &'static str {
    match found {
        Fetched::Hit(_) => " hit",
        Fetched::Miss(Miss::Absent) => " absent",
        Fetched::Miss(Miss::Mismatch) => " mismatch",
        Fetched::Miss(_) => " another miss",
    }
}
