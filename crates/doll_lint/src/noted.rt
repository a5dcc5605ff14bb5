//! Notes of blocks in an order in which those that may share a key stand side by side.

ghost use Rattle.std.specs.Prelude.{◌≡◌, IfOk};
ghost use Rattle.std.specs.Cmp.Lexicographic.{slice_cmp};
ghost use Rattle.std.specs.Ordering.{as_partial_cmp};
ghost use Rattle.std.proofs.Common.{refl, rules};
ghost use Rattle.std.specs.Cmp.{partial_order_from_own_ties};
ghost use Rattle.std.specs.Cmp.Rules.{comparing};
ghost use Rattle.doll_lint.specs.Noted as spec;
ghost use Rattle.doll_lint.specs.Noted.{note_order, same_note};

use crate::block::PartShape;
use crate::found::Note;
use std::alloc::AllocError;
use std::cmp::Ordering;

impl PartShape {
    /// The place of the kind among the kinds.
    fn place(&self) -> u8
        ensures { result ≡ spec.part_place self.now }
    {
        match self {
            PartShape::Record { .. } => 0,
            PartShape::Single => 1,
            PartShape::Literal(_) => 2,
        }
    }

    /// The model that the part names, 0 where it names none.
    fn model(&self) -> u16
        ensures { result ≡ spec.part_model self.now }
    {
        match self {
            PartShape::Record { model } => *model,
            _ => 0,
        }
    }

    /// The text that the part is, nothing where it is none.
    fn text(&self) -> &[u8]
        ensures { result.now ≡ spec.part_text self.now }
    {
        match self {
            PartShape::Literal(text) => text.as_bytes(),
            _ => &[],
        }
    }
}

/// The order of two parts.
fn part_order(one: &PartShape, other: &PartShape) -> Ordering
    ensures { result ≡ spec.part_order one.now other.now }
{
    let texts = one.text().cmp(other.text());
    let models = one.model().cmp(&other.model()).then(texts);
    one.place().cmp(&other.place()).then(models)
}

/// The order of two shapes: the first parts that differ decide, and else the lengths.
fn shape_order(mut ones: &[PartShape], mut others: &[PartShape]) -> Ordering
    ensures { result ≡ slice_cmp spec.part_order ones.entry.now others.entry.now }
{
    while let [one, more @ ..] = ones {
        let [other, rest @ ..] = others else {
            return Ordering::Greater;
        };
        let order = part_order(one, other);
        if order.is_ne() {
            return order;
        }
        ones = more;
        others = rest;
    }
    if others.is_empty() {
        Ordering::Equal
    } else {
        Ordering::Less
    }
}

/// The order of two notes by template and shape.
fn group_order(one: &Note, other: &Note) -> Ordering
    ensures { result ≡ spec.group_order one.now other.now }
{
    let shapes = shape_order(one.shape.as_slice(), other.shape.as_slice());
    one.template.cmp(&other.template).then(shapes)
}

/// Whether two notes are of one template and one shape.
pub(crate) fn are_alike(one: &Note, other: &Note) -> bool
    ensures { result ≡ spec.are_alike one.now other.now }
{
    group_order(one, other).is_eq()
}

/// Notes go by template, shape, number and place.
impl Ord for Note {
    ghost cmp = { note_order };

    ghost total = { Prim.search (comparing, rules) depth 14 };

    ghost matches_partial_cmp = { Prim.search (comparing, rules) depth 14 };

    ghost matches_eq = { λ x y. refl };

    fn cmp(&self, other: &Note) -> Ordering {
        let places = self.at.cmp(&other.at);
        let numbers = self.number.cmp(&other.number).then(places);
        group_order(self, other).then(numbers)
    }
}

impl PartialOrd for Note {
    ghost partial_cmp = { as_partial_cmp note_order };

    ghost laws = { partial_order_from_own_ties (Prim.search (comparing, rules) depth 14) (λ x y. refl) };

    fn partial_cmp(&self, other: &Note) -> Option<Ordering> {
        Some(self.cmp(other))
    }
}

impl PartialEq for Note {
    ghost eq = { same_note };

    ghost laws = { Prim.search (comparing, rules) depth 14 };

    fn eq(&self, other: &Note) -> bool {
        self.cmp(other).is_eq()
    }
}

impl Eq for Note {
    ghost laws = { Prim.search (comparing, rules) depth 14 };
}

/// Notes in their order, each once.
#[tactic(auto, using(crate::proofs::Sorting::notes_once))]
pub(crate) fn each_once(notes: Vec<Note>) -> Result<Vec<Note>, AllocError>
    ensures { IfOk result (λ once. spec.AreOnce notes.items once.items) }
{
    let mut notes = notes;
    notes.sort()?;
    notes.dedup();
    Ok(notes)
}
