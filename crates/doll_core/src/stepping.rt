//! The core: one world, and the sessions that render pages from it.

ghost use Rattle.std.specs.Prelude.{◌≡◌, ◌≢◌, ◌≤◌, ◌<◌, ◌^◌, [], length, None, Err, IsOk, IfOk, OnOk, OnErr};
ghost use Rattle.std.specs.List.{AllByRecursion};
ghost use Rattle.std.specs.Str.{IsUtf8};
ghost use Rattle.indexmap.specs.IndexMap.{spare};
ghost use Rattle.doll_journal.specs.Storable.{AreStorable};
ghost use Rattle.doll_records.specs.declared.fault.RecordFault.TheVariants.{Memory as NoMemory};
ghost use Rattle.doll_core.specs.Losses as losses;
ghost use Rattle.doll_core.specs.Pages.{ShowsRightBy, ShowsRightFor};
ghost use Rattle.doll_core.specs.States.{IsChanged, session_at, state_of};
ghost use Rattle.doll_core.specs.Steps as spec;

use crate::event::{AUTHOR, Event};
use crate::opening::open_page;
use crate::session::{MemWorld, Session};
use crate::turns::take_turn;
use doll_journal::Changes;
use doll_records::{Committed, RecordFault};
use doll_report::Outcome;
use doll_route::Routes;
use doll_text::{Items, Memory, Text};
use indexmap::IndexMap;
use std::alloc::Global;
use std::marker::Model;

/// One history, one shelf, and the sessions that are open.
#[derive(Drop)]
pub struct Core {
    world: MemWorld,
    routes: Routes,
    sessions: IndexMap<u32, Session>,
}

impl Model for Core {
    ghost use Rattle.std.specs.Coded.{codes};
    ghost use Rattle.std.specs.Prelude.{◌≡◌};
    ghost use Rattle.doll_erb.specs.contracts.node.Node as node;
    ghost use Rattle.doll_table.specs.Codes.{table_code};
    ghost use Rattle.doll_core.specs.Cores.{IsCore};
    ghost use Rattle.doll_core.specs.States.{CoreParts};

    ghost Value = { CoreParts };

    ghost coded = { Prim.hlevel (codes, node.the_row.coded, table_code) };

    ghost view = { λ c. record { world = c.world; sessions = c.sessions.entries } };

    ghost invariant = { λ c. IsCore (record { world = c.world; sessions = c.sessions.entries })
        × (c.routes ≡ c.world.checked.routes) };
}

impl Core {
    /// A core of this world, with no session. The routes are those with which the world's set was typed. Takes no memory.
    pub fn new(alloc: Global, routes: Routes, world: MemWorld) -> Core
        requires routes { routes ≡ world.checked.routes }
        requires few { length world.checked.set.templates ≤ 2 ^ 16 }
        ensures world { result.world ≡ world }
        ensures sessions { result.sessions ≡ [] }
    {
        Core {
            world,
            routes,
            sessions: IndexMap::new(alloc),
        }
    }

    /// The world.
    pub fn world(&self) -> &MemWorld
        ensures { result.now ≡ self.now.world }
    {
        &self.world
    }

    /// Does what an event asks for.
    pub fn step(&mut self, alloc: Global, event: Event) -> Result<Outcome, Memory>
        requires { spec.MayStep event }
        ensures exact { IfOk result (λ told. spec.Steps (state_of self.old) event told (state_of self.new)) }
        ensures shown { IfOk result (ShowsRightBy (state_of self.old) event) }
        ensures lost { OnErr result (losses.Loses (state_of self.old) event (state_of self.new)) }
    {
        match event {
            Event::Start {
                session,
                target,
                seen,
                now: _,
            } => self.start(alloc, session, target, seen),
            Event::Turn { session, now } => self.turn(alloc, session, now),
            Event::Commit { changes, now } => self.commit(alloc, changes, now),
            Event::Expire { now } => Ok(self.expire(now)),
        }
    }

    /// Opens a session.
    fn start(
        &mut self,
        alloc: Global,
        number: u32,
        target: Text,
        seen: u64,
    ) -> Result<Outcome, Memory>
        requires { IsUtf8 target }
        ensures exact { IfOk result (λ told. spec.StartsBy ((state_of self.old).sessions number)
            (state_of self.old) number target seen told (state_of self.new)) }
        ensures lost { OnErr result (spec.Stays (state_of self.old) (state_of self.new)) }
    {
        if self.sessions.contains_key(&number) {
            return Ok(Outcome::BadSession);
        }
        let (told, opened) = open_page(alloc, &self.world, &self.routes, target, seen)?;
        put(&mut self.sessions, number, opened)?;
        Ok(told)
    }

    /// Lets a session take its turn. Room for it is made sure of first, so that it takes no memory to keep it after its turn.
    fn turn(&mut self, alloc: Global, number: u32, now: u64) -> Result<Outcome, Memory>
        ensures exact { IfOk result (λ told. spec.TurnsBy ((state_of self.old).sessions number)
            (state_of self.old) number now told (state_of self.new)) }
        ensures shown { IfOk result (ShowsRightFor
            (state_of self.old).world ((state_of self.old).sessions number)) }
        ensures lost { OnErr result (losses.LosesSession ((state_of self.old).sessions number)
            (state_of self.old) number now (state_of self.new)) }
    {
        let room = self.sessions.reserve(1);
        let Some(session) = self.sessions.swap_remove(&number) else {
            return Ok(Outcome::BadSession);
        };
        room?;
        let (told, left) = take_turn(alloc, &mut self.world, session, now)?;
        put(&mut self.sessions, number, left).unwrap();
        Ok(told)
    }

    /// Makes a commit.
    fn commit(&mut self, alloc: Global, changes: Changes, now: u64) -> Result<Outcome, Memory>
        requires { AreStorable changes }
        ensures exact { IfOk result (λ told. spec.Commits
            (state_of self.old) changes now told (state_of self.new)) }
        ensures lost { OnErr result (losses.LosesCommit (state_of self.old) (state_of self.new)) }
    {
        let serial = self.world.history().len() as u64;
        told_of(self.world.commit(alloc, AUTHOR, serial, changes, now))
    }

    /// Removes a batch of old entries.
    fn expire(&mut self, now: u64) -> Outcome
        ensures { spec.Expires (state_of self.old) now result (state_of self.new) }
    {
        Outcome::Expired {
            count: self.world.expire(now),
        }
    }

    /// Does what events ask for, one after another, and stops where memory runs out.
    pub fn run(&mut self, alloc: Global, events: Vec<Event>) -> Result<Items<Outcome>, Memory>
        requires { AllByRecursion spec.MayStep events.items }
        ensures exact { IfOk result (λ told. spec.StepsAll
            (state_of self.old) events.items told (state_of self.new)) }
    {
        let mut told = Items::new(alloc);
        for event in events {
            told.push(self.step(alloc, event)?)?;
        }
        Ok(told)
    }
}

/// Puts a session in where none has its number, if there is one. A refusal changes nothing.
fn put(
    sessions: &mut IndexMap<u32, Session>,
    number: u32,
    session: Option<Session>,
) -> Result<(), Memory>
    requires { session_at sessions.old.entries number ≡ None }
    ensures put { OnOk result
        (IsChanged number session sessions.old.entries sessions.new.entries) }
    ensures same { OnErr result (sessions.new.entries ≡ sessions.old.entries) }
    ensures room { 0 < spare sessions.old → IsOk result }
{
    let Some(session) = session else {
        return Ok(());
    };
    sessions.insert(number, session)?;
    Ok(())
}

/// What a commit that was asked for is told; want of memory is no outcome.
fn told_of(recorded: Result<Committed, RecordFault>) -> Result<Outcome, Memory>
    ensures told { IfOk result (λ told. told ≡ spec.told_of recorded) }
    ensures remembered { OnOk result (recorded ≢ Err NoMemory) }
    ensures lost { OnErr result (recorded ≡ Err NoMemory) }
{
    match recorded {
        Ok(committed) => Ok(Outcome::Committed(committed)),
        Err(RecordFault::Memory) => Err(Memory),
        Err(why) => Ok(Outcome::Refused(why)),
    }
}
