//! Playing a script on a core.

ghost use Rattle.std.specs.Prelude.{◌≡◌, ◌<◌, ◌^◌, length, IfOk};
ghost use Rattle.std.specs.List.{AllByRecursion};
ghost use Rattle.doll_core.specs.States.{state_of};
ghost use Rattle.doll_replay.specs.Plays as spec;
ghost use Rattle.doll_replay.specs.Reports.{Replays};

use crate::orders::play_order;
use doll_core::Core;
use doll_script::Order;
use doll_text::{Bytes, Memory};
use std::alloc::Global;

/// What a script came to.
#[derive(Drop)]
pub enum Replayed {
    /// The lines of all steps.
    Report(Bytes),
    /// The line, counted from 1, of the first order whose session isn't open, or is open already.
    Stopped { line: u32 },
}

/// Plays the orders of a script on a core, one after another, with a clock that shows 0 at first. Where an order's session isn't
/// open, or is open already, the script stops there.
pub fn replay(alloc: Global, core: &mut Core, orders: &[Order]) -> Result<Replayed, Memory>
    requires storable { AllByRecursion spec.MayPlay orders.now }
    requires few { length orders.now < 2 ^ 32 }
    ensures { IfOk result (λ replayed.
        Replays (state_of core.old) orders.now replayed (state_of core.new)) }
{
    let mut out = Vec::new(alloc);
    let mut now: u64 = 0;
    let mut line: u32 = 0;
    for order in orders {
        line += 1;
        if !play_order(alloc, core, order, now, &mut out)? {
            return Ok(Replayed::Stopped { line });
        }
        now = clock_behind(now, order);
    }
    Ok(Replayed::Report(Bytes::from_vec(out)))
}

/// What the clock shows behind an order.
fn clock_behind(now: u64, order: &Order) -> u64
    ensures { result ≡ spec.clock_behind now order.now }
{
    match order {
        Order::Now { now } => *now,
        _ => now,
    }
}
