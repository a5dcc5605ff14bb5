//! Readings of a clock.

ghost use Rattle.std.specs.Prelude.{◌≡◌, length, IfOk};
ghost use Rattle.doll_base.specs.Streams.{Appended};
ghost use Rattle.doll_bundle.specs.Readings.{ReadsClock};

use doll_base::Clock;
use doll_text::Memory;
use std::alloc::Global;

/// Reads the clock so many times, and gives the readings in order. Where no memory is found it may have been read fewer times.
#[tactic(auto, using(crate::proofs::ClockReadings::appended_more, crate::proofs::ClockReadings::reads_more))]
pub fn read_clock<C: Clock>(alloc: Global, clock: &mut C, count: usize) -> Result<Vec<u64>, Memory>
    ensures taken { IfOk result (λ readings.
        Appended (C.readings clock.old) (C.readings clock.new) readings.items) }
    ensures count { IfOk result (λ readings. length readings.items ≡ count) }
    ensures reads { ReadsClock count (C.readings clock.old) (C.readings clock.new) }
{
    let mut readings = Vec::new(alloc);
    let mut left = count;
    while left > 0 {
        readings.push(clock.now())?;
        left -= 1;
    }
    Ok(readings)
}
