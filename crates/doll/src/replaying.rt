//! What a site's script comes to.

ghost use Rattle.std.specs.Prelude.{◌≡◌, ◌<◌, ◌^◌, length, IfOk};
ghost use Rattle.std.specs.List.{AllByRecursion};
ghost use Rattle.doll_bundle.specs.Sites.{IsServed, seen_site};
ghost use Rattle.doll_core.specs.States.{state_of};
ghost use Rattle.doll_replay.specs.Plays.{MayPlay};
ghost use Rattle.doll_script.specs.Scripts.{orders_of};
ghost use Rattle.doll.specs.Replies as spec;
ghost use Rattle.doll.specs.Stages.{IsReady, WasMade, staged};
ghost use Rattle.doll.specs.Statuses.{IsAnswer};

use crate::reply::{Reply, line_reply, unclean, untyped};
use crate::status::Status;
use doll_bundle::Site;
use doll_core::Core;
use doll_keep::MemKeeper;
use doll_lint::checked::{Checked, LintRefusal, lint};
use doll_records::Records;
use doll_replay::{Replayed, replay};
use doll_route::Routes;
use doll_script::{Order, Script, ScriptFault};
use doll_settings::SiteSettings;
use doll_shelf::MemShelf;
use doll_text::{Items, Memory, Shared, Text};
use doll_types::{TypeRefusal, Typed, type_set};
use doll_world::World;
use itoa::Buffer;
use std::alloc::Global;
use std::hash::RandomState;

/// What a script is played on, but for the set and its schema.
#[derive(Drop)]
pub struct Stage {
    routes: Routes,
    records: Records<MemKeeper>,
    settings: SiteSettings,
    script: Items<Text>,
    /// By which the shelf hashes its keys.
    keys: RandomState,
}

/// The report of a site's script, or what comes before it: the faults of its types, those of its lint, the line at which it stops.
pub fn replay_reply(alloc: Global, keys: RandomState, site: Site) -> Result<Reply, Memory>
    requires served { IsServed site }
    requires made { WasMade site.set }
    ensures value { IfOk result (spec.IsReplayReply (seen_site site)) }
    ensures status { IfOk result (λ reply. IsAnswer reply.status) }
{
    let Site {
        schema,
        routes,
        set,
        records,
        settings,
        script,
    } = site;
    match type_set(alloc, set, schema, &routes) {
        Ok(typed) => typed_reply(
            alloc,
            typed,
            Stage {
                routes,
                records,
                settings,
                script,
                keys,
            },
        ),
        Err(TypeRefusal::Faults(faults)) => untyped(alloc, faults.as_slice()),
        Err(TypeRefusal::Memory) => Err(Memory),
    }
}

/// The same where the set is typed.
fn typed_reply(alloc: Global, typed: Typed, stage: Stage) -> Result<Reply, Memory>
    requires { IsReady typed stage }
    ensures value { IfOk result (spec.IsLintedReply (staged typed stage)) }
    ensures status { IfOk result (λ reply. IsAnswer reply.status) }
{
    match lint(alloc, typed) {
        Ok(checked) => script_reply(alloc, checked, stage),
        Err(LintRefusal::Faults(faults)) => unclean(alloc, faults.as_slice()),
        Err(LintRefusal::Memory) => Err(Memory),
    }
}

/// The same where its lint finds nothing.
fn script_reply(alloc: Global, checked: Checked, stage: Stage) -> Result<Reply, Memory>
    requires { IsReady checked stage }
    ensures value { IfOk result (spec.IsScriptReply (staged checked stage) (orders_of stage.script)) }
    ensures status { IfOk result (λ reply. IsAnswer reply.status) }
{
    // No input has so many lines: it has at most 16,777,216 bytes.
    if stage.script.len() >= 4_294_967_296 {
        return Err(Memory);
    }
    match Script::read(alloc, stage.script.as_slice()) {
        Ok(script) => played_reply(alloc, checked, stage, script.lines.as_slice()),
        Err(ScriptFault::Line { line }) => script_refused(alloc, line),
        Err(ScriptFault::Memory) => Err(Memory),
    }
}

/// What the orders of a script come to.
fn played_reply(
    alloc: Global,
    checked: Checked,
    stage: Stage,
    orders: &[Order],
) -> Result<Reply, Memory>
    requires ready { IsReady checked stage }
    requires storable { AllByRecursion MayPlay orders.now }
    requires few { length orders.now < 2 ^ 32 }
    ensures value { IfOk result (spec.IsPlayed (staged checked stage) orders.now) }
    ensures status { IfOk result (λ reply. IsAnswer reply.status) }
{
    let mut core = core_of(alloc, checked, stage)?;
    let replayed = replay(alloc, &mut core, orders)?;
    replayed_reply(alloc, replayed)
}

/// A core over a site, with an empty shelf.
fn core_of(alloc: Global, checked: Checked, stage: Stage) -> Result<Core, Memory>
    requires { IsReady checked stage }
    ensures { IfOk result (λ core. spec.BeginsOver (staged checked stage) (state_of core)) }
{
    let shared = Shared::new(alloc, checked)?;
    let shelf = MemShelf::new(stage.settings.shelf, stage.keys);
    let world = World::open(stage.records, shelf, shared);
    Ok(Core::new(alloc, stage.routes, world))
}

/// The report of a script, or the line at which it stopped.
fn replayed_reply(alloc: Global, replayed: Replayed) -> Result<Reply, Memory>
    ensures value { IfOk result (λ reply. reply ≡ spec.replayed_reply replayed) }
    ensures status { IfOk result (λ reply. IsAnswer reply.status) }
{
    match replayed {
        Replayed::Report(text) => Ok(Reply {
            status: Status::Done,
            text,
        }),
        Replayed::Stopped { line } => script_refused(alloc, line),
    }
}

/// What tells a line of a script that is no order, or at which it stopped.
fn script_refused(alloc: Global, line: u32) -> Result<Reply, Memory>
    ensures value { IfOk result (λ reply. reply ≡ spec.script_refused line) }
    ensures status { IfOk result (λ reply. IsAnswer reply.status) }
{
    let mut digits = Buffer::new();
    let mut text = Vec::from_slice(alloc, b"script ")?;
    text.extend_from_slice(digits.format(line).as_bytes())?;
    line_reply(Status::ScriptRefused { line }, text)
}
