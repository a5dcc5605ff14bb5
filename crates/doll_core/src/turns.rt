//! Turns: the next call of the cache of a page that is being rendered, or the page.

ghost use Rattle.std.specs.Prelude.{◌≡◌, ◌≤◌, ◌^◌, length, IfOk, OnErr};
ghost use Rattle.doll_frames.specs.declared.stack.Answer.TheVariants.{Nothing};
ghost use Rattle.doll_job.specs.declared.job.Need.TheVariants as need;
ghost use Rattle.doll_shelf.specs.Fetches.{IsHit};
ghost use Rattle.doll_core.specs.Cores.{HeadsIn, SessionLives};
ghost use Rattle.doll_core.specs.States.{run_of};
ghost use Rattle.doll_core.specs.Turning as spec;

use crate::session::{MemWorld, Session};
use doll_entry::{Ask, Fetched, Fresh, Miss};
use doll_frames::Asks;
use doll_job::Need;
use doll_report::Outcome;
use doll_table::Looking;
use doll_text::{Copied, Items, Memory};
use std::alloc::Global;

/// What a session is told, and the session, where it goes on.
pub type Told = (Outcome, Option<Session>);

/// Lets a session take its turn at a time, in microseconds: it makes its next call of the cache, or gives its page. Where memory
/// runs out the session is gone.
pub fn take_turn(
    alloc: Global,
    world: &mut MemWorld,
    session: Session,
    now: u64,
) -> Result<Told, Memory>
    requires few { length world.old.checked.set.templates ≤ 2 ^ 16 }
    requires lives { SessionLives world.old session }
    ensures turn { IfOk result (λ told. spec.TakesTurn now world.old world.new session
        (run_of world.old.checked session) told.0 told.1) }
    ensures lost { OnErr result (spec.LosesTurn now (run_of world.old.checked session)
        world.old world.new) }
{
    let mut session = session;
    match carry(alloc, world, &mut session)? {
        Need::Read(ask) => read(alloc, world, session, ask, now),
        Need::ReadMany(asks) => read_many(alloc, world, session, asks, now),
        Need::Write(fresh) => write(alloc, world, session, fresh, now),
        Need::Done(page) => Ok((Outcome::Page(page), None)),
    }
}

/// Carries a session to its next need.
fn carry(alloc: Global, world: &MemWorld, session: &mut Session) -> Result<Need, Memory>
    requires few { length world.now.checked.set.templates ≤ 2 ^ 16 }
    requires lives { SessionLives world.now session.old }
    ensures { IfOk result (spec.IsCarried world.now session.old session.new) }
{
    let mut rows = Looking::new(session.snapshot.table.get());
    let need = session.job.step(alloc, world.checked().get(), &mut rows)?;
    session.charged = 0;
    Ok(need)
}

/// Asks for a block, and hands the answer to the page.
fn read(
    alloc: Global,
    world: &mut MemWorld,
    session: Session,
    ask: Ask,
    now: u64,
) -> Result<Told, Memory>
    requires charged { session.charged ≡ 0 }
    requires heads { HeadsIn world.old session
        (spec.run_from world.old.checked session (need.Read ask) 0) }
    ensures turn { IfOk result (λ told. spec.TakesTurn now world.old world.new session
        (spec.run_from world.old.checked session (need.Read ask) 0) told.0 told.1) }
    ensures lost { OnErr result (spec.LosesTurn now
        (spec.run_from world.old.checked session (need.Read ask) 0) world.old world.new) }
{
    let mut session = session;
    let _set = world.checked();
    let found = world.read(alloc, &ask, now);
    if is_lost(&found) {
        return Err(Memory);
    }
    let shared = share(alloc, &found)?;
    session.job.answer(shared);
    Ok((Outcome::Read(found), Some(session)))
}

/// Asks for several blocks, and hands the answers to the page.
fn read_many(
    alloc: Global,
    world: &mut MemWorld,
    session: Session,
    asks: Asks,
    now: u64,
) -> Result<Told, Memory>
    requires charged { session.charged ≡ 0 }
    requires heads { HeadsIn world.old session
        (spec.run_from world.old.checked session (need.ReadMany asks) 0) }
    ensures turn { IfOk result (λ told. spec.TakesTurn now world.old world.new session
        (spec.run_from world.old.checked session (need.ReadMany asks) 0) told.0 told.1) }
    ensures lost { OnErr result (spec.LosesTurn now
        (spec.run_from world.old.checked session (need.ReadMany asks) 0) world.old world.new) }
{
    let mut session = session;
    let _set = world.checked();
    let Ok(found) = world.read_many(alloc, asks.as_slice(), now) else {
        return Err(Memory);
    };
    if any_lost(&found) {
        return Err(Memory);
    }
    let shared = share_all(alloc, &found)?;
    session.job.answer_many(shared);
    Ok((Outcome::Many(Items::from_vec(found)), Some(session)))
}

/// Hands a block in that the page has rendered.
fn write(
    alloc: Global,
    world: &mut MemWorld,
    session: Session,
    fresh: Fresh,
    now: u64,
) -> Result<Told, Memory>
    requires charged { session.charged ≡ 0 }
    requires unanswered { session.job.stopped.answer ≡ Nothing }
    requires heads { HeadsIn world.old session
        (spec.run_from world.old.checked session (need.Write fresh) 0) }
    ensures turn { IfOk result (λ told. spec.TakesTurn now world.old world.new session
        (spec.run_from world.old.checked session (need.Write fresh) 0) told.0 told.1) }
    ensures lost { OnErr result (spec.LosesTurn now
        (spec.run_from world.old.checked session (need.Write fresh) 0) world.old world.new) }
{
    let _set = world.checked();
    if world.write(alloc, fresh, now).is_err() {
        return Err(Memory);
    }
    Ok((Outcome::Wrote, Some(session)))
}

/// Whether no memory was found for an answer.
fn is_lost(found: &Fetched) -> bool
    ensures { result ≡ spec.is_lost found.now }
{
    match found {
        Fetched::Miss(Miss::Memory) => true,
        _ => false,
    }
}

/// Whether no memory was found for one of the answers.
fn any_lost(found: &[Fetched]) -> bool
    ensures { result ≡ spec.any_lost found.now }
{
    found.iter().any(|one| is_lost(one))
}

/// The same answer, whose fragment has one owner more. Only a hit wants memory.
fn share(alloc: Global, found: &Fetched) -> Result<Fetched, Memory>
    ensures same { IfOk result (λ copy. copy ≡ found.now) }
    ensures only { OnErr result (IsHit found.now) }
{
    match found {
        Fetched::Hit(fragment) => Ok(Fetched::Hit(fragment.copy(alloc)?)),
        Fetched::Miss(why) => Ok(Fetched::Miss(*why)),
    }
}

/// The same answers.
fn share_all(alloc: Global, found: &[Fetched]) -> Result<Vec<Fetched>, Memory>
    ensures { IfOk result (λ copies. copies.items ≡ found.now) }
{
    let mut copies = Vec::new(alloc);
    for one in found {
        copies.push(share(alloc, one)?)?;
    }
    Ok(copies)
}
