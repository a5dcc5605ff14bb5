//! Sets of templates that a lint passes.

ghost use Rattle.std.specs.Prelude.{◌≡◌};
ghost use Rattle.doll_lint.specs.Checked as spec;

use crate::fault::LintFaults;
use crate::lint::faults_of;
use doll_text::Memory;
use doll_types::Typed;
use std::alloc::Global;
use std::marker::Model;

/// A typed set in which no cached block reads beyond its key, and none may share one.
#[derive(Drop)]
pub struct Checked {
    typed: Typed,
}

impl Model for Checked {
    ghost use Rattle.std.specs.Coded.{codes};
    ghost use Rattle.doll_erb.specs.contracts.node.Node as node;
    ghost use Rattle.doll_types.specs.Sets.{TypedSet};
    ghost use Rattle.doll_lint.specs.Checked.{IsChecked};

    ghost Value = { TypedSet };

    ghost coded = { Prim.hlevel (codes, node.the_row.coded) };

    ghost view = { λ c. c.typed };

    ghost invariant = { λ c. IsChecked c.typed };
}

/// Why a set isn't checked.
#[derive(Drop)]
pub enum LintRefusal {
    /// All its faults.
    Faults(LintFaults),
    /// No memory was found.
    Memory,
}

impl From<Memory> for LintRefusal {
    ghost use Rattle.std.specs.Prelude.{◌≡◌};
    ghost use Rattle.doll_lint.specs.declared.checked.LintRefusal.TheVariants.{Memory as NoMemory};

    ghost from_gives = { λ _ e. e ≡ NoMemory };

    fn from(_error: Memory) -> LintRefusal {
        LintRefusal::Memory
    }
}

/// Lints a typed set: what all pages reach.
pub fn lint(alloc: Global, typed: Typed) -> Result<Checked, LintRefusal>
    ensures { spec.IsLinted typed result }
{
    let faults = faults_of(alloc, typed.set(), typed.schema(), typed.reached())?;
    if !faults.is_empty() {
        return Err(LintRefusal::Faults(faults));
    }
    Ok(Checked { typed })
}

impl Checked {
    /// The typed set.
    pub fn typed(&self) -> &Typed
        ensures value { result.now ≡ self.now }
        ensures checked { spec.IsChecked self.now }
    {
        &self.typed
    }
}
