//! Things that lead back to themselves.

ghost use Rattle.std.specs.Prelude.{◌≡◌, ◌<◌, ◌^◌, true, length, slice_set, IfOk, unwrap_or};
ghost use Rattle.std.specs.List.{find};
ghost use Rattle.doll_graph.specs.Graphs as spec;

use crate::chains::{all_marked, dependents, has_mark};
use doll_text::{Ids, Memory};
use std::alloc::Global;

/// The first thing that leads back to itself, and the things by which it does so in the fewest steps, of equal ones by the
/// first number; `None` where nothing does.
#[tactic(auto, using(crate::proofs::Ranges::find_past, crate::proofs::Ranges::find_here))]
pub fn cycle(alloc: Global, graph: &[Ids]) -> Result<Option<Ids>, Memory>
    requires count { length graph.now < 2 ^ 32 }
    ensures { IfOk result (λ way. way ≡ spec.cycle graph.now) }
{
    for number in 0..graph.len() as u32 {
        let marks = leading(alloc, graph, number, graph.len())?;
        if has_mark(marks.as_slice(), number) {
            return Ok(Some(way_back(alloc, graph, number)?));
        }
    }
    Ok(None)
}

/// The things that lead to a target in so many steps or fewer. It stops where a further step adds none.
#[tactic(auto, using(crate::proofs::Leading::settled, crate::proofs::Leading::leading_more))]
fn leading(alloc: Global, graph: &[Ids], target: u32, steps: usize) -> Result<Vec<bool>, Memory>
    requires target { target < length graph.now }
    ensures { IfOk result (λ marks. marks.items ≡ spec.leading graph.now target steps) }
{
    let mut marks = all_marked(alloc, graph, false)?;
    for _step in 0..steps {
        let next = one_more(alloc, graph, target, marks.as_slice())?;
        if are_same(marks.as_slice(), next.as_slice()) {
            return Ok(marks);
        }
        marks = next;
    }
    Ok(marks)
}

/// Those that lead to a target in one step more than those that are marked.
fn one_more(alloc: Global, graph: &[Ids], target: u32, marks: &[bool]) -> Result<Vec<bool>, Memory>
    requires target { target < length marks.now }
    ensures { IfOk result (λ next. next.items ≡ spec.dependents graph.now (slice_set marks.now target true)) }
{
    let mut known = Vec::from_slice(alloc, marks)?;
    known[target as usize] = true;
    dependents(alloc, graph, known.as_slice())
}

/// Whether these marks are the same.
fn are_same(marks: &[bool], others: &[bool]) -> bool
    ensures { result ≡ true → marks.now ≡ others.now }
{
    marks == others
}

/// The way from a thing on a cycle back to it.
#[tactic(auto, using(crate::proofs::Leading::way_step))]
fn way_back(alloc: Global, graph: &[Ids], target: u32) -> Result<Ids, Memory>
    requires target { target < length graph.now }
    ensures { IfOk result (λ way. way ≡ spec.way graph.now target (spec.steps_back graph.now target) target) }
{
    let mut way = Ids::new(alloc);
    let mut number = target;
    let mut left = steps_back(alloc, graph, target)?;
    while left > 0 {
        left -= 1;
        let marks = leading(alloc, graph, target, left)?;
        way.push(number)?;
        number = next(graph, number, marks.as_slice());
    }
    Ok(way)
}

/// The first dependency that is marked, 0 where none is.
fn next(graph: &[Ids], number: u32, marks: &[bool]) -> u32
    ensures { result ≡ unwrap_or (find (spec.has_mark marks.now) (spec.dependencies graph.now number)) 0 }
{
    match graph.get(number as usize) {
        Some(numbers) => first_among(numbers.as_slice(), marks).unwrap_or(0),
        None => 0,
    }
}

/// The first of these numbers that is marked.
fn first_among(numbers: &[u32], marks: &[bool]) -> Option<u32>
    ensures { result ≡ find (spec.has_mark marks.now) numbers.now }
{
    numbers
        .iter()
        .copied()
        .find(|number| has_mark(marks, *number))
}

/// The fewest steps that lead from a thing on a cycle back to it.
#[tactic(auto, using(crate::proofs::Leading::leading_more, crate::proofs::Leading::few_past, crate::proofs::Leading::few_here))]
fn steps_back(alloc: Global, graph: &[Ids], target: u32) -> Result<usize, Memory>
    requires target { target < length graph.now }
    ensures { IfOk result (λ steps. steps ≡ spec.steps_back graph.now target) }
{
    let mut marks = all_marked(alloc, graph, false)?;
    for steps in 0..graph.len() {
        if has_mark(marks.as_slice(), target) {
            return Ok(steps);
        }
        marks = one_more(alloc, graph, target, marks.as_slice())?;
    }
    Ok(graph.len())
}
