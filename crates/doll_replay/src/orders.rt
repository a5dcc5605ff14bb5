//! Playing one order.

ghost use Rattle.std.specs.Prelude.{◌≡◌, ◌++◌, IfOk, OnOk};
ghost use Rattle.std.specs.Str.{IsUtf8};
ghost use Rattle.doll_core.specs.States.{state_of};
ghost use Rattle.doll_core.specs.Steps.{MayStep};
ghost use Rattle.doll_replay.specs.Plays as spec;
ghost use Rattle.doll_replay.specs.Reports as told_in;

use doll_core::{Core, Event};
use doll_report::{Outcome, Step, report};
use doll_script::Order;
use doll_text::{Copied, Memory, Text};
use std::alloc::Global;

/// The session of a page that is rendered at once.
const OWN_SESSION: u32 = 0;

/// Plays an order at a time, in microseconds, and appends the lines that tell it; false where its session isn't open, or is open
/// already.
pub(crate) fn play_order(
    alloc: Global,
    core: &mut Core,
    order: &Order,
    now: u64,
    out: &mut Vec<u8>,
) -> Result<bool, Memory>
    requires { spec.MayPlay order.now }
    ensures { IfOk result (told_in.IsTold (spec.OrderPlays now (state_of core.old) order.now)
        out.old.items out.new.items (state_of core.new)) }
{
    match order {
        Order::Now { .. } => Ok(true),
        Order::Commit { changes } => {
            let changes = changes.copy(alloc)?;
            one_step(
                alloc,
                core,
                Event::Commit { changes, now },
                Step::Commit,
                out,
            )
        }
        Order::Open {
            session,
            target,
            seen,
        } => {
            let event = Event::Start {
                session: *session,
                target: target.copy(alloc)?,
                seen: *seen,
                now,
            };
            one_step(alloc, core, event, Step::Open { session: *session }, out)
        }
        Order::Turn { session } => {
            let event = Event::Turn {
                session: *session,
                now,
            };
            one_step(alloc, core, event, Step::Turn { session: *session }, out)
        }
        Order::Run { session } => run_out(alloc, core, *session, now, out),
        Order::Get { target } => get(alloc, core, target, now, out),
        Order::Expire => one_step(alloc, core, Event::Expire { now }, Step::Expire, out),
    }
}

/// What became of an event.
#[derive(Clone, Copy)]
pub(crate) struct Came {
    /// Its session was as it must be.
    good: bool,
    /// Its session takes no further turn.
    last: bool,
    /// It opened a page.
    opened: bool,
}

/// Does what an event asks for and appends its line.
fn tell_event(
    alloc: Global,
    core: &mut Core,
    event: Event,
    kind: Step,
    out: &mut Vec<u8>,
) -> Result<Came, Memory>
    requires may { MayStep event }
    requires kind { kind ≡ spec.kind_of event }
    ensures { IfOk result (told_in.IsCome (state_of core.old) event
        out.old.items out.new.items (state_of core.new)) }
{
    let told = core.step(alloc, event)?;
    tell(&kind, &told, out)
}

/// Appends the line of a step, where it has one.
fn tell(kind: &Step, told: &Outcome, out: &mut Vec<u8>) -> Result<Came, Memory>
    requires { told_in.HasLine kind.now told.now }
    ensures came { IfOk result (λ came. came ≡ told_in.came_of told.now) }
    ensures line { OnOk result
        (out.new.items ≡ out.old.items ++ told_in.told_line (kind.now, told.now)) }
{
    let came = came_of(told);
    if came.good {
        report(kind, told, out)?;
    }
    Ok(came)
}

fn came_of(told: &Outcome) -> Came
    ensures { result ≡ told_in.came_of told.now }
{
    Came {
        good: !matches!(told, Outcome::BadSession),
        last: matches!(told, Outcome::Page(_) | Outcome::BadSession),
        opened: matches!(told, Outcome::Opened { .. }),
    }
}

/// Does what one event asks for and appends its line; false where its session isn't as it must be.
fn one_step(
    alloc: Global,
    core: &mut Core,
    event: Event,
    kind: Step,
    out: &mut Vec<u8>,
) -> Result<bool, Memory>
    requires may { MayStep event }
    requires kind { kind ≡ spec.kind_of event }
    ensures { IfOk result (told_in.IsTold (spec.OneStep (state_of core.old) event)
        out.old.items out.new.items (state_of core.new)) }
{
    let came = tell_event(alloc, core, event, kind, out)?;
    Ok(came.good)
}

/// Lets a session take turns until its page comes, and appends their lines.
fn run_out(
    alloc: Global,
    core: &mut Core,
    session: u32,
    now: u64,
    out: &mut Vec<u8>,
) -> Result<bool, Memory>
    ensures { IfOk result (told_in.IsTold (spec.RunsOut session now (state_of core.old))
        out.old.items out.new.items (state_of core.new)) }
{
    loop {
        let event = Event::Turn { session, now };
        let came = tell_event(alloc, core, event, Step::Turn { session }, out)?;
        if came.last {
            return Ok(came.good);
        }
    }
}

/// Opens a page, and where it opened lets it take its turns.
fn get(
    alloc: Global,
    core: &mut Core,
    target: &Text,
    now: u64,
    out: &mut Vec<u8>,
) -> Result<bool, Memory>
    requires { IsUtf8 target.now }
    ensures { IfOk result (told_in.IsTold (spec.Gets target.now now (state_of core.old))
        out.old.items out.new.items (state_of core.new)) }
{
    let target = target.copy(alloc)?;
    let session = OWN_SESSION;
    let event = Event::Start {
        session,
        target,
        seen: 0,
        now,
    };
    let came = tell_event(alloc, core, event, Step::Open { session }, out)?;
    if !came.opened {
        return Ok(came.good);
    }
    run_out(alloc, core, OWN_SESSION, now, out)
}
