//! The order of faults.

ghost use Rattle.std.specs.Prelude.{◌≡◌, IfOk};
ghost use Rattle.std.specs.Ordering.{as_partial_cmp};
ghost use Rattle.std.proofs.Common.{rules};
ghost use Rattle.std.specs.Cmp.{partial_order_from_own_ties};
ghost use Rattle.std.specs.Cmp.Rules.{comparing};
ghost use Rattle.doll_lint.specs.Order.{AreInOrder, same_fault};
ghost use Rattle.doll_lint.specs.Faults.{fault_order, kind_number, kind_place, kind_text};
ghost use Rattle.doll_lint.specs.Ties.{fault_ties};

use crate::fault::{LintFault, LintFaults, LintKind};
use doll_text::Items;
use std::alloc::AllocError;
use std::cmp::Ordering;

impl LintKind {
    /// The place of the kind among the kinds.
    fn place(&self) -> u8
        ensures { result ≡ kind_place self.now }
    {
        match self {
            LintKind::Uncovered(_) => 0,
            LintKind::NoTouch(_) => 1,
            LintKind::SharedKey { .. } => 2,
            LintKind::OutsideVariable(_) => 3,
        }
    }

    /// The text that the kind carries, nothing where it carries none.
    fn text(&self) -> &[u8]
        ensures { result.now ≡ kind_text self.now }
    {
        match self {
            LintKind::Uncovered(path) => path.as_bytes(),
            LintKind::NoTouch(name) | LintKind::OutsideVariable(name) => name.as_bytes(),
            LintKind::SharedKey { .. } => &[],
        }
    }

    /// The number that the kind carries, 0 where it carries none.
    fn number(&self) -> u32
        ensures { result ≡ kind_number self.now }
    {
        match self {
            LintKind::SharedKey { other } => *other,
            _ => 0,
        }
    }
}

/// Faults go by template, place and kind, of one kind by the text or the number that it carries.
impl Ord for LintFault {
    ghost cmp = { fault_order };

    ghost total = { Prim.search (comparing, rules) depth 14 };

    ghost matches_partial_cmp = { Prim.search (comparing, rules) depth 14 };

    ghost matches_eq = { fault_ties };

    fn cmp(&self, other: &LintFault) -> Ordering {
        let numbers = self.kind.number().cmp(&other.kind.number());
        let texts = self.kind.text().cmp(other.kind.text()).then(numbers);
        let kinds = self.kind.place().cmp(&other.kind.place()).then(texts);
        let places = self.at.cmp(&other.at).then(kinds);
        self.template
            .as_bytes()
            .cmp(other.template.as_bytes())
            .then(places)
    }
}

impl PartialOrd for LintFault {
    ghost partial_cmp = { as_partial_cmp fault_order };

    ghost laws = { partial_order_from_own_ties (Prim.search (comparing, rules) depth 14) fault_ties };

    fn partial_cmp(&self, other: &LintFault) -> Option<Ordering> {
        Some(self.cmp(other))
    }
}

impl PartialEq for LintFault {
    ghost eq = { same_fault };

    ghost laws = { Prim.search (comparing, rules) depth 14 };

    fn eq(&self, other: &LintFault) -> bool {
        if self.template.as_bytes() != other.template.as_bytes() || self.at != other.at {
            return false;
        }
        if self.kind.place() != other.kind.place() {
            return false;
        }
        self.kind.text() == other.kind.text() && self.kind.number() == other.kind.number()
    }
}

impl Eq for LintFault {
    ghost laws = { Prim.search (comparing, rules) depth 14 };
}

/// Faults in their order, each once.
#[tactic(auto, using(crate::proofs::Sorting::sorted_once))]
pub(crate) fn in_order(faults: Vec<LintFault>) -> Result<LintFaults, AllocError>
    ensures { IfOk result (AreInOrder faults.items) }
{
    let mut faults = faults;
    faults.sort()?;
    faults.dedup();
    Ok(Items::from_vec(faults))
}
