//! A script, and the reading of its lines.

ghost use Rattle.std.specs.Prelude.{◌≡◌, ◌<◌, ◌^◌, length, IfOk};
ghost use Rattle.std.specs.List.{AllByRecursion};
ghost use Rattle.doll_text.specs.Gives.{GivesBy};
ghost use Rattle.doll_script.specs.declared.script.Script.{Script};
ghost use Rattle.doll_script.specs.declared.script.ScriptFault.TheVariants as faults;
ghost use Rattle.doll_script.specs.Scripts.{orders_of};
ghost use Rattle.doll_script.specs.Storable.{MayBeMade};

use crate::lines::order_in;
use crate::order::Orders;
use doll_text::{Items, Memory, Text};
use std::alloc::{AllocError, AllocFailed, Global};

/// What is done with a site, order by order.
#[derive(Drop)]
pub struct Script {
    /// The orders of the lines, one for each.
    pub lines: Orders,
}

/// Why lines are no script.
#[derive(Clone, Copy, Debug, Drop, PartialEq, Eq)]
pub enum ScriptFault {
    /// The first line that is no order, counted from 1.
    Line { line: u32 },
    /// No memory was found, or the changes of a line have more bytes than a commit may have.
    Memory,
}

impl From<Memory> for ScriptFault {
    ghost from_gives = { λ _ e. e ≡ faults.Memory };

    fn from(_error: Memory) -> ScriptFault {
        ScriptFault::Memory
    }
}

impl From<AllocError> for ScriptFault {
    ghost from_gives = { λ _ e. e ≡ faults.Memory };

    fn from(_error: AllocError) -> ScriptFault {
        ScriptFault::Memory
    }
}

impl<T: Drop> From<AllocFailed<T>> for ScriptFault {
    ghost from_gives = { λ _ e. e ≡ faults.Memory };

    fn from(_error: AllocFailed<T>) -> ScriptFault {
        ScriptFault::Memory
    }
}

impl Script {
    /// The script that these lines are, or the first line that is no order.
    #[tactic(auto, using(std::proofs::lemmas::Grind::common_steps, crate::proofs::Made::made_starts, crate::proofs::Made::made_stops, crate::proofs::Made::made_ends))]
    pub fn read(alloc: Global, lines: &[Text]) -> Result<Script, ScriptFault>
        requires few { length lines.now < 2 ^ 32 }
        ensures exact { GivesBy (λ (script : Script). script.lines) ScriptFault.Memory
            (orders_of lines.now) result }
        ensures storable { IfOk result
            (λ (script : Script). AllByRecursion MayBeMade script.lines) }
    {
        let mut orders = Items::new(alloc);
        let mut line: u32 = 0;
        for text in lines {
            line += 1;
            let Some(order) = order_in(alloc, text.as_bytes())? else {
                return Err(ScriptFault::Line { line });
            };
            orders.push(order)?;
        }
        Ok(Script { lines: orders })
    }
}
