//! Blocks of one template that may share a key.

ghost use Rattle.std.specs.Prelude.{◌≡◌, ◌++◌, OnOk};
ghost use Rattle.doll_lint.specs.Shared as spec;

use crate::block::PartShape;
use crate::fault::{LintFault, LintKind};
use crate::found::{Note, name_of};
use crate::noted::{are_alike, each_once};
use doll_set::TemplateSet;
use doll_text::{Memory, Name};
use std::alloc::Global;

/// Appends the faults of noted blocks that may share a key with an earlier block of their template. The notes are put in order
/// first, each once, so that only those of one template and one shape are compared.
#[tactic(auto, using(crate::proofs::Grouping::told_ok))]
pub(crate) fn add_shared(
    alloc: Global,
    set: &TemplateSet,
    notes: Vec<Note>,
    faults: &mut Vec<LintFault>,
) -> Result<(), Memory>
    ensures { OnOk result (spec.AreThose faults.new.items
        (faults.old.items ++ spec.all_shared set.now notes.items)) }
{
    let notes = each_once(notes)?;
    add_in_order(alloc, set, notes.as_slice(), faults)
}

/// Appends those of notes that are in order.
fn add_in_order(
    alloc: Global,
    set: &TemplateSet,
    mut notes: &[Note],
    faults: &mut Vec<LintFault>,
) -> Result<(), Memory>
    ensures { OnOk result (faults.new.items
        ≡ faults.old.items ++ spec.shared_in_order set.now notes.entry.now) }
{
    while let [earlier, more @ ..] = notes {
        add_behind(alloc, set, earlier, more, faults)?;
        notes = more;
    }
    Ok(())
}

/// Appends those that a noted block gives the ones behind it.
fn add_behind(
    alloc: Global,
    set: &TemplateSet,
    earlier: &Note,
    mut notes: &[Note],
    faults: &mut Vec<LintFault>,
) -> Result<(), Memory>
    ensures { OnOk result (faults.new.items
        ≡ faults.old.items ++ spec.shared_behind set.now earlier.now notes.entry.now) }
{
    while let [later, more @ ..] = notes {
        if !are_alike(earlier, later) {
            return Ok(());
        }
        add_shared_by(alloc, set, later, earlier, faults)?;
        notes = more;
    }
    Ok(())
}

/// Appends the fault of a block that may share the key of another.
fn add_shared_by(
    alloc: Global,
    set: &TemplateSet,
    later: &Note,
    earlier: &Note,
    faults: &mut Vec<LintFault>,
) -> Result<(), Memory>
    ensures { OnOk result (faults.new.items
        ≡ faults.old.items ++ spec.shared_by set.now later.now earlier.now) }
{
    if !may_share(earlier, later) {
        return Ok(());
    }
    let template = Name::from_bytes(alloc, name_of(set, later.template))?;
    let at = later.at;
    let kind = LintKind::SharedKey {
        other: earlier.number,
    };
    faults.push(LintFault { template, at, kind })?;
    Ok(())
}

/// Whether the second of two noted blocks comes behind the first in one template, and their keys have one shape.
fn may_share(earlier: &Note, later: &Note) -> bool
    ensures { result ≡ spec.may_share earlier.now later.now }
{
    if earlier.template != later.template {
        return false;
    }
    if earlier.number >= later.number {
        return false;
    }
    same_shape(earlier.shape.as_slice(), later.shape.as_slice())
}

/// Whether two keys have one shape.
fn same_shape(ones: &[PartShape], others: &[PartShape]) -> bool
    ensures { result ≡ spec.same_shape ones.now others.now }
{
    let [one, more @ ..] = ones else {
        return others.is_empty();
    };
    let [other, rest @ ..] = others else {
        return false;
    };
    if !same_part(one, other) {
        return false;
    }
    same_shape(more, rest)
}

fn same_part(one: &PartShape, other: &PartShape) -> bool
    ensures { result ≡ spec.same_part one.now other.now }
{
    match (one, other) {
        (PartShape::Record { model: m }, PartShape::Record { model: n }) => *m == *n,
        (PartShape::Single, PartShape::Single) => true,
        (PartShape::Literal(s), PartShape::Literal(t)) => s.as_bytes() == t.as_bytes(),
        _ => false,
    }
}
