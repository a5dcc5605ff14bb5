//! What events come to on a small site, one after another.

ghost use Rattle.std.specs.Prelude.{IfOk, IfSome};
ghost use Rattle.std.specs.List.{AllByRecursion};
ghost use Rattle.doll_core.specs.Steps.{MayStep};

use crate::site::{Site, View, changes, site_of};
use doll_core::{Core, Event};
use doll_entry::{Fetched, Miss};
use doll_records::RecordFault;
use doll_report::Outcome;
use doll_shelf::{MemShelf, ShelfSettings};
use doll_text::{Memory, Shared, Text};
use doll_world::World;
use std::alloc::Global;
use std::hash::RandomState;
use std::test::Fail;

/// Nothing expires by its time, one entry is enough, and a batch has two.
const SETTINGS: ShelfSettings = ShelfSettings {
    expires_in: None,
    race_ttl: 0,
    max_entries: Some(1),
    max_size: None,
    max_age: None,
    batch: 2,
};

const MODELS: &str =
    r#"{"models":[{"name":"product","plural":"products","attributes":[{"name":"name","kind":"text"}]}]}"#;

const ROUTES: &str = r#"[{"path":"/products/:id","template":"products/show","record":"product"}]"#;

const VIEWS: [View; 1] = [(
    "products/show.html.erb",
    "<% cache product do %><%= product.name %><% end %>",
)];

/// What is done at one time after another.
#[derive(Clone, Copy)]
enum Done {
    /// A session starts, for a target and a caller who has seen this moment.
    Start(u32, &'static str, u64),
    Turn(u32),
    /// These changes, in JSON, are asked for at a time.
    Commit(&'static str, u64),
    Expire,
}

/// Two products are made and one of them is changed while its page is rendered; then what is asked for amiss, and a batch.
const EVENTS: [(Done, &str); 29] = [
    (Done::Turn(0), "no such session"),
    (Done::Start(0, "/products/1", 0), "status 404 at 0"),
    (
        Done::Commit(r#"[{"create":"product","values":{"name":"Chess"}}]"#, 10),
        "committed at 10, of 1",
    ),
    (Done::Start(0, "/products/1", 0), "opened at 10"),
    (Done::Turn(0), "absent"),
    (
        Done::Commit(
            r#"[{"update":"product","id":1,"values":{"name":"Go"}}]"#,
            20,
        ),
        "committed at 20, of 0",
    ),
    (Done::Start(1, "/products/1?x=1", 20), "opened at 20"),
    (Done::Turn(0), "wrote"),
    (Done::Turn(0), "page Chess"),
    (Done::Turn(1), "mismatch"),
    (Done::Turn(1), "wrote"),
    (Done::Turn(1), "page Go"),
    (Done::Turn(1), "no such session"),
    (Done::Start(0, "/products/1", 20), "opened at 20"),
    (Done::Start(0, "/products/1", 20), "no such session"),
    (Done::Turn(0), "hit"),
    (Done::Turn(0), "page Go"),
    (Done::Start(1, "/shops", 21), "status 404 at 20"),
    (Done::Start(1, "/products/2", 21), "status 409 at 20"),
    (Done::Start(1, "/products/2", 20), "status 404 at 20"),
    (
        Done::Commit(r#"[{"touch":"product","id":2}]"#, 30),
        "missing",
    ),
    (
        Done::Commit(r#"[{"create":"product","values":{"name":"Ludo"}}]"#, 20),
        "committed at 21, of 1",
    ),
    (Done::Expire, "expired 0"),
    (Done::Start(7, "/products/2", 21), "opened at 21"),
    (Done::Turn(7), "absent"),
    (Done::Turn(7), "wrote"),
    (Done::Expire, "expired 2"),
    (Done::Start(8, "/products/1", 21), "opened at 21"),
    (Done::Turn(8), "absent"),
];

/// A core of the site over a shelf without entries.
fn core(alloc: Global, keys: RandomState) -> Option<Core> {
    let site = site_of(alloc, MODELS, ROUTES, &VIEWS)?;
    let Site {
        routes,
        checked,
        records,
    } = site;
    let shelf = MemShelf::new(SETTINGS, keys);
    match Shared::new(alloc, checked) {
        Ok(checked) => Some(Core::new(alloc, routes, World::open(records, shelf, checked))),
        Err(_) => None,
    }
}

fn start(alloc: Global, session: u32, target: &str, seen: u64) -> Option<Event>
    ensures { IfSome result MayStep }
{
    match Text::from_bytes(alloc, target.as_bytes()) {
        Ok(target) => Some(Event::Start {
            session,
            target,
            seen,
            now: 30,
        }),
        Err(_) => None,
    }
}

fn commit(alloc: Global, text: &str, now: u64) -> Option<Event>
    ensures { IfSome result MayStep }
{
    match changes(alloc, text) {
        Some(changes) => Some(Event::Commit { changes, now }),
        None => None,
    }
}

fn event_of(alloc: Global, done: Done) -> Option<Event>
    ensures { IfSome result MayStep }
{
    match done {
        Done::Start(session, target, seen) => start(alloc, session, target, seen),
        Done::Turn(session) => Some(Event::Turn { session, now: 30 }),
        Done::Commit(text, now) => commit(alloc, text, now),
        Done::Expire => Some(Event::Expire { now: 30 }),
    }
}

fn answer_words(found: &Fetched) -> &'static str {
    match found {
        Fetched::Hit(_) => "hit",
        Fetched::Miss(Miss::Absent) => "absent",
        Fetched::Miss(Miss::Mismatch) => "mismatch",
        Fetched::Miss(_) => "another miss",
    }
}

fn refusal_words(fault: RecordFault) -> &'static str {
    match fault {
        RecordFault::Refused { .. } => "missing",
        _ => "not recorded",
    }
}

/// Appends what an outcome says.
fn tell(alloc: Global, outcome: &Outcome, out: &mut Vec<u8>) -> Result<(), Memory> {
    match outcome {
        Outcome::Opened { moment } => {
            out.extend_from_slice(format!(in alloc; "opened at {moment}")?.as_bytes())?;
        }
        Outcome::NoPage { status, moment } => {
            out.extend_from_slice(format!(in alloc; "status {status} at {moment}")?.as_bytes())?;
        }
        Outcome::Read(found) => out.extend_from_slice(answer_words(found).as_bytes())?,
        Outcome::Many(_) => out.extend_from_slice(b"many")?,
        Outcome::Wrote => out.extend_from_slice(b"wrote")?,
        Outcome::Page(page) => {
            out.extend_from_slice(b"page ")?;
            out.extend_from_slice(page.as_slice())?;
        }
        Outcome::Committed(committed) => {
            let moment = committed.moment;
            let count = committed.ids.as_slice().len();
            let told = format!(in alloc; "committed at {moment}, of {count}")?;
            out.extend_from_slice(told.as_bytes())?;
        }
        Outcome::Refused(fault) => out.extend_from_slice(refusal_words(*fault).as_bytes())?,
        Outcome::Expired { count } => {
            out.extend_from_slice(format!(in alloc; "expired {count}")?.as_bytes())?;
        }
        Outcome::BadSession => out.extend_from_slice(b"no such session")?,
    }
    Ok(())
}

fn told(alloc: Global, outcome: &Outcome) -> Result<Vec<u8>, Memory> {
    let mut out = Vec::new(alloc);
    tell(alloc, outcome, &mut out)?;
    Ok(out)
}

/// What an event is told.
fn step(alloc: Global, core: &mut Core, event: Event) -> Result<Vec<u8>, Memory>
    requires { MayStep event }
{
    let outcome = core.step(alloc, event)?;
    told(alloc, &outcome)
}

fn do_one(alloc: Global, core: &mut Core, done: Done) -> Option<Vec<u8>> {
    match event_of(alloc, done) {
        Some(event) => step(alloc, core, event).ok(),
        None => None,
    }
}

/// A session's last two turns, as events.
fn last_turns(alloc: Global, session: u32) -> Result<Vec<Event>, Memory>
    ensures { IfOk result (λ events. AllByRecursion MayStep events.items) }
{
    let mut events = Vec::new(alloc);
    events.push(Event::Turn { session, now: 30 })?;
    events.push(Event::Turn { session, now: 30 })?;
    Ok(events)
}

/// Whether a fragment is written, and then this page comes.
fn are_last(told: &[Outcome], expected: &str) -> bool {
    match told {
        [Outcome::Wrote, Outcome::Page(page)] => page.as_slice() == expected.as_bytes(),
        _ => false,
    }
}

fn run_last(alloc: Global, core: &mut Core, session: u32, page: &str) -> Result<bool, Memory> {
    let events = last_turns(alloc, session)?;
    let told = core.run(alloc, events)?;
    Ok(are_last(told.as_slice(), page))
}

/// Whether an event is told so.
fn is_told(alloc: Global, core: &mut Core, done: Done, expected: &str) -> bool {
    match do_one(alloc, core, done) {
        Some(told) => told.as_slice() == expected.as_bytes(),
        None => false,
    }
}

/// How many events are told as they must be, one after another, up to the first that isn't.
fn told_right(alloc: Global, core: &mut Core) -> usize {
    for at in 0..EVENTS.len() {
        let (done, expected) = EVENTS[at];
        if !is_told(alloc, core, done, expected) {
            return at;
        }
    }
    EVENTS.len()
}

/// What is seen of a core: how many events are told as they must be, how many commits there are then, and whether the last
/// session's page comes.
fn seen(alloc: Global, core: &mut Core) -> (usize, usize, bool) {
    let right = told_right(alloc, core);
    let commits = core.world().history().len();
    match run_last(alloc, core, 8, "Go") {
        Ok(last) => (right, commits, last),
        Err(_) => (right, commits, false),
    }
}

/// The same of a new core, whose shelf hashes by these keys.
fn seen_of_new(alloc: Global, keys: RandomState) -> Option<(usize, usize, bool)> {
    match core(alloc, keys) {
        Some(core) => {
            let mut core = core;
            Some(seen(alloc, &mut core))
        }
        None => None,
    }
}

#[test]
fn each_session_gets_the_page_of_its_snapshot(rt: HostRuntime) -> Result<(), Fail> {
    let seen = seen_of_new(rt.alloc(), RandomState::new(&rt)?).ok_or("no core")?;
    let (right, commits, last) = seen;
    assert_eq!(rt; right, EVENTS.len());
    assert_eq!(rt; commits, 3);
    assert!(rt; last);
    Ok(())
}
