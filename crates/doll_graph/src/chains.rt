//! Chains of things, each a dependency of the one before it.

ghost use Rattle.std.specs.Prelude.{◌≡◌, ◌<◌, ◌^◌, ◌&&◌, not, length, map, IfOk};
ghost use Rattle.std.specs.List.{find, list_any, range_with_len};
ghost use Rattle.doll_graph.specs.Graphs as spec;

use doll_text::{Ids, Memory};
use std::alloc::Global;

/// Whether a number is marked.
pub fn has_mark(marks: &[bool], number: u32) -> bool
    ensures { result ≡ spec.has_mark marks.now number }
{
    match marks.get(number as usize) {
        Some(mark) => *mark,
        None => false,
    }
}

/// Whether one of these numbers is marked.
pub fn any_marked(numbers: &[u32], marks: &[bool]) -> bool
    ensures { result ≡ list_any (spec.has_mark marks.now) numbers.now }
{
    numbers.iter().any(|number| has_mark(marks, *number))
}

/// Those that depend on one that is marked.
pub fn dependents(alloc: Global, graph: &[Ids], marks: &[bool]) -> Result<Vec<bool>, Memory>
    ensures { IfOk result (λ next. next.items ≡ spec.dependents graph.now marks.now) }
{
    let mut next = Vec::with_capacity(alloc, graph.len())?;
    for numbers in graph {
        next.push(any_marked(numbers.as_slice(), marks))?;
    }
    Ok(next)
}

/// The same mark for each thing.
pub fn all_marked(alloc: Global, graph: &[Ids], mark: bool) -> Result<Vec<bool>, Memory>
    ensures { IfOk result (λ marks. marks.items ≡ map (λ _. mark) graph.now) }
{
    let mut marks = Vec::with_capacity(alloc, graph.len())?;
    for _numbers in graph {
        marks.push(mark)?;
    }
    Ok(marks)
}

/// From which things a chain of more than `most` things begins, each a dependency of the one before it.
#[tactic(auto, using(crate::proofs::Leading::longer_more))]
pub fn longer_chains(alloc: Global, graph: &[Ids], most: usize) -> Result<Vec<bool>, Memory>
    ensures { IfOk result (λ marks. marks.items ≡ spec.longer_chains graph.now most) }
{
    let mut marks = all_marked(alloc, graph, true)?;
    for _length in 0..most {
        marks = dependents(alloc, graph, marks.as_slice())?;
    }
    Ok(marks)
}

/// The first thing from which a chain of more than `most` things begins.
pub fn first_longer(alloc: Global, graph: &[Ids], most: usize) -> Result<Option<u32>, Memory>
    requires count { length graph.now < 2 ^ 32 }
    ensures { IfOk result (λ first. first ≡ spec.first_longer graph.now most) }
{
    let marks = longer_chains(alloc, graph, most)?;
    Ok(first_marked(graph.len() as u32, marks.as_slice()))
}

/// The first of the numbers below `count` that is marked.
fn first_marked(count: u32, marks: &[bool]) -> Option<u32>
    ensures { result ≡ find (spec.has_mark marks.now) (range_with_len 0 count) }
{
    (0..count).find(|number| has_mark(marks, *number))
}

/// The things whose longest chain has `most` + 1 things, ascending. Each depends on things of the layers before it alone.
#[tactic(auto, using(crate::proofs::Layers::ends_past, crate::proofs::Layers::ends_here))]
pub fn layer(alloc: Global, graph: &[Ids], most: usize) -> Result<Ids, Memory>
    requires count { length graph.now < 2 ^ 32 }
    ensures { IfOk result (λ numbers. numbers ≡ spec.layer graph.now most) }
{
    let marks = longer_chains(alloc, graph, most)?;
    let next = dependents(alloc, graph, marks.as_slice())?;
    let mut numbers = Ids::new(alloc);
    for number in 0..graph.len() as u32 {
        if !is_last_mark(marks.as_slice(), next.as_slice(), number) {
            continue;
        }
        numbers.push(number)?;
    }
    Ok(numbers)
}

/// Whether a number is marked, and isn't next.
fn is_last_mark(marks: &[bool], next: &[bool], number: u32) -> bool
    ensures { result ≡ (spec.has_mark marks.now number && not (spec.has_mark next.now number)) }
{
    if !has_mark(marks, number) {
        return false;
    }
    !has_mark(next, number)
}
