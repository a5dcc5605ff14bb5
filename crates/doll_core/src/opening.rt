//! Opening the page of a target.

ghost use Rattle.std.specs.Prelude.{◌≡◌, ◌<◌, length, slice_get, None, Some, IfOk};
ghost use Rattle.std.specs.Str.{IsUtf8};
ghost use Rattle.doll_job.specs.Jobs.{found_looks};
ghost use Rattle.doll_route.specs.Paths.{path_of, query_of};
ghost use Rattle.doll_route.specs.Queries.{AreParamsFor, param_names, params_in};
ghost use Rattle.doll_route.specs.Routes.{route_of};
ghost use Rattle.doll_report.specs.declared.outcome.Outcome.TheVariants.{NoPage};
ghost use Rattle.doll_core.specs.Beginnings as begins;
ghost use Rattle.doll_core.specs.Openings as spec;

use crate::session::{MemWorld, Session};
use doll_job::Job;
use doll_records::Snapshot;
use doll_report::{CONFLICT, NOT_FOUND, Outcome};
use doll_route::{Found, Routes, Subject, split_target};
use doll_schema::Values;
use doll_table::Looking;
use doll_text::{Memory, Text};
use std::alloc::Global;
use std::str::from_utf8;

/// What a caller is told, and the session, where one is opened.
pub type Opened = (Outcome, Option<Session>);

/// Opens the page of a target over all commits, for a caller who has seen the moment `seen`, in microseconds.
pub fn open_page(
    alloc: Global,
    world: &MemWorld,
    routes: &Routes,
    target: Text,
    seen: u64,
) -> Result<Opened, Memory>
    requires text { IsUtf8 target }
    requires routes { routes.now ≡ world.now.checked.routes }
    ensures exact { IfOk result (λ told. begins.Opens world.now
        (spec.opening world.now target seen) told.0 told.1) }
{
    let snapshot = snapshot_of(alloc, world)?;
    let moment = snapshot.moment;
    let (path, query) = split_target(text_of(&target));
    let Some(found) = routes.find(path)? else {
        return Ok(refused(NOT_FOUND, moment));
    };
    if moment < seen {
        return Ok(refused(CONFLICT, moment));
    }
    let params = routes.params(alloc, found.route, query)?;
    open_found(alloc, world, routes, target, snapshot, &found, params)
}

/// The table after all commits.
fn snapshot_of(alloc: Global, world: &MemWorld) -> Result<Snapshot, Memory>
    ensures { IfOk result (begins.IsSnapshotOf world.now) }
{
    let _set = world.checked();
    world.snapshot(alloc)
}

/// A target as a text.
fn text_of(target: &Text) -> &str
    requires { IsUtf8 target.now }
    ensures { result.now ≡ target.now }
{
    from_utf8(target.as_bytes()).unwrap()
}

/// No page, with this status.
fn refused(status: u16, moment: u64) -> Opened
    ensures outcome { result.0 ≡ NoPage status moment }
    ensures session { result.1 ≡ None }
{
    (Outcome::NoPage { status, moment }, None)
}

/// Opens the page of the route that a target found, with these values of its parameters, over a snapshot.
fn open_found(
    alloc: Global,
    world: &MemWorld,
    routes: &Routes,
    target: Text,
    snapshot: Snapshot,
    found: &Found,
    params: Values,
) -> Result<Opened, Memory>
    requires routes { routes.now ≡ world.now.checked.routes }
    requires now { begins.IsSnapshotOf world.now snapshot }
    requires found { route_of routes.now (path_of target) ≡ Some found.now }
    requires within { found.now.route < length routes.now }
    requires params { params ≡ params_in routes.now found.now.route (query_of target) }
    requires are { AreParamsFor (param_names (slice_get routes.now found.now.route)) params }
    ensures exact { IfOk result (λ told. begins.Opens world.now
        (spec.opened world.now target (spec.found_run world.now target found.now)) told.0 told.1) }
{
    let moment = snapshot.moment;
    let checked = world.checked().get();
    let mut rows = Looking::new(snapshot.table.get());
    let started = Job::start(alloc, checked, routes, found, params, &mut rows, moment, 0)?;
    let Some(job) = started else {
        return Ok(refused(NOT_FOUND, moment));
    };
    let charged = looks_of(routes, found);
    Ok((
        Outcome::Opened { moment },
        Some(Session {
            target,
            snapshot,
            job,
            charged,
        }),
    ))
}

/// The looks that opening the page of what a path found may take.
fn looks_of(routes: &Routes, found: &Found) -> u64
    ensures { result ≡ found_looks routes.now found.now }
{
    match routes.route(found.route) {
        Some(route) => match route.subject {
            Subject::Nothing => 0,
            _ => 1,
        },
        None => 0,
    }
}
