//! Faults of a set's types, their order, and why a set isn't typed.

ghost use Rattle.std.specs.Prelude.{◌≡◌, IfOk};
ghost use Rattle.std.specs.Ordering.{as_partial_cmp};
ghost use Rattle.std.proofs.Common.{rules};
ghost use Rattle.std.specs.Cmp.{partial_order_from_own_ties};
ghost use Rattle.std.specs.Cmp.Rules.{comparing};
ghost use Rattle.doll_types.specs.Faults.{AreInOrder, fault_order, same_fault};
ghost use Rattle.doll_types.specs.Ties.{fault_ties};

use crate::types::TypeKind;
use doll_text::{Items, Memory, Name};
use std::alloc::AllocError;
use std::cmp::Ordering;

/// A fault at the tag whose `<%` stands at the byte place `at` of a template. For the test of an `elsif` that is the `elsif`.
#[derive(Drop)]
pub struct TypeFault {
    pub template: Name,
    pub at: u32,
    pub kind: TypeKind,
}

/// Faults go by template, place and kind, of one kind by the name that it carries.
impl Ord for TypeFault {
    ghost cmp = { fault_order };

    ghost total = { Prim.search (comparing, rules) depth 12 };

    ghost matches_partial_cmp = { Prim.search (comparing, rules) depth 12 };

    ghost matches_eq = { fault_ties };

    fn cmp(&self, other: &TypeFault) -> Ordering {
        let kinds = self.kind.place().cmp(&other.kind.place());
        let kinds = kinds.then(self.kind.name().cmp(other.kind.name()));
        let places = self.at.cmp(&other.at).then(kinds);
        self.template
            .as_bytes()
            .cmp(other.template.as_bytes())
            .then(places)
    }
}

impl PartialOrd for TypeFault {
    ghost partial_cmp = { as_partial_cmp fault_order };

    ghost laws = { partial_order_from_own_ties (Prim.search (comparing, rules) depth 12) fault_ties };

    fn partial_cmp(&self, other: &TypeFault) -> Option<Ordering> {
        Some(self.cmp(other))
    }
}

impl PartialEq for TypeFault {
    ghost eq = { same_fault };

    ghost laws = { Prim.search (comparing, rules) depth 12 };

    fn eq(&self, other: &TypeFault) -> bool {
        if self.template.as_bytes() != other.template.as_bytes() || self.at != other.at {
            return false;
        }
        self.kind.place() == other.kind.place() && self.kind.name() == other.kind.name()
    }
}

impl Eq for TypeFault {
    ghost laws = { Prim.search (comparing, rules) depth 12 };
}

/// Faults, each once, ascending by template, place and kind.
pub type TypeFaults = Items<TypeFault>;

/// Why a set isn't typed.
#[derive(Drop)]
pub enum TypeRefusal {
    /// All its faults.
    Faults(TypeFaults),
    /// No memory was found.
    Memory,
}

impl From<Memory> for TypeRefusal {
    ghost use Rattle.std.specs.Prelude.{◌≡◌};
    ghost use Rattle.doll_types.specs.declared.fault.TypeRefusal.TheVariants.{Memory as NoMemory};

    ghost from_gives = { λ _ e. e ≡ NoMemory };

    fn from(_error: Memory) -> TypeRefusal {
        TypeRefusal::Memory
    }
}

impl From<AllocError> for TypeRefusal {
    ghost use Rattle.std.specs.Prelude.{◌≡◌};
    ghost use Rattle.doll_types.specs.declared.fault.TypeRefusal.TheVariants.{Memory as NoMemory};

    ghost from_gives = { λ _ e. e ≡ NoMemory };

    fn from(_error: AllocError) -> TypeRefusal {
        TypeRefusal::Memory
    }
}

/// Faults in their order, each once.
#[tactic(auto, using(crate::proofs::Sorting::sorted_once))]
pub(crate) fn in_order(faults: Vec<TypeFault>) -> Result<TypeFaults, AllocError>
    ensures { IfOk result (AreInOrder faults.items) }
{
    let mut faults = faults;
    faults.sort()?;
    faults.dedup();
    Ok(Items::from_vec(faults))
}
