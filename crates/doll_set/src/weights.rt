//! How heavy templates are.

ghost use Rattle.std.specs.Prelude.{◌≡◌, ◌<◌, ◌-◌, ◌^◌, nat_lt, length, map, min, IfOk};
ghost use Rattle.std.specs.List.{find, range_with_len, sum_by};
ghost use Rattle.doll_set.specs.declared.limits.TheConstants.{GREATEST_WEIGHT, LONGEST_CHAIN};
ghost use Rattle.doll_set.specs.Weights as spec;

use crate::counting::nodes_in;
use crate::dependencies::Links;
use crate::limits::{GREATEST_WEIGHT, LONGEST_CHAIN};
use crate::template::Template;
use doll_text::Memory;
use std::alloc::Global;

/// The first template that is too heavy: its nodes and the weights of what it renders, once for each tag, are more than 100,000.
pub(crate) fn first_too_wide(
    alloc: Global,
    templates: &[Template],
    links: &[Links],
) -> Result<Option<u32>, Memory>
    requires count { length templates.now < 2 ^ 32 }
    requires links { length links.now ≡ length templates.now }
    ensures { IfOk result (λ first. first
        ≡ spec.first_too_wide (spec.node_counts templates.now) (spec.rendered_by links.now)) }
{
    let nodes = node_counts(alloc, templates)?;
    let weights = weights(alloc, nodes.as_slice(), links)?;
    Ok(first_above(weights.as_slice()))
}

/// How many nodes each template has, 2^32 − 1 where it has more.
fn node_counts(alloc: Global, templates: &[Template]) -> Result<Vec<u32>, Memory>
    ensures { IfOk result (λ nodes. nodes.items
        ≡ map (λ n. min n (2 ^ 32 - 1)) (spec.node_counts templates.now)) }
{
    let mut nodes = Vec::with_capacity(alloc, templates.len())?;
    for template in templates {
        nodes.push(nodes_in(template.tree.as_slice()))?;
    }
    Ok(nodes)
}

/// The weight of each template, 2^32 − 1 where it is more: level by level, from nothing.
fn weights(alloc: Global, nodes: &[u32], links: &[Links]) -> Result<Vec<u32>, Memory>
    requires count { length links.now ≡ length nodes.now }
    ensures { IfOk result (λ weights. weights.items
        ≡ spec.level_capped (2 ^ 32 - 1) nodes.now (spec.rendered_by links.now) LONGEST_CHAIN) }
{
    let mut weights = zeros(alloc, nodes.len())?;
    for _level in 0..LONGEST_CHAIN {
        weights = next_level(alloc, nodes, links, weights.as_slice())?;
    }
    Ok(weights)
}

/// The weights one level deeper, 2^32 − 1 where one is more.
fn next_level(
    alloc: Global,
    nodes: &[u32],
    links: &[Links],
    weights: &[u32],
) -> Result<Vec<u32>, Memory>
    requires count { length links.now ≡ length nodes.now }
    ensures { IfOk result (λ next. next.items ≡ map (λ number. min
        (spec.weight_step nodes.now (spec.rendered_by links.now) number (spec.weight_in weights.now))
        (2 ^ 32 - 1)) (range_with_len 0 (length nodes.now))) }
{
    let mut next = Vec::with_capacity(alloc, nodes.len())?;
    for number in 0..nodes.len() {
        next.push(next_weight(nodes, links, weights, number))?;
    }
    Ok(next)
}

/// The weight of one template by the weights of what it renders.
fn next_weight(nodes: &[u32], links: &[Links], weights: &[u32], number: usize) -> u32
    requires nodes { number < length nodes.now }
    requires links { number < length links.now }
    ensures { result ≡ min
        (spec.weight_step nodes.now (spec.rendered_by links.now) number (spec.weight_in weights.now))
        (2 ^ 32 - 1) }
{
    nodes[number].saturating_add(sum_of(links[number].rendered.as_slice(), weights))
}

/// The sum of the weights with these numbers, 2^32 − 1 where it is more.
fn sum_of(numbers: &[u32], weights: &[u32]) -> u32
    ensures { result ≡ min (sum_by (spec.weight_in weights.now) numbers.now) (2 ^ 32 - 1) }
{
    let mut sum: u32 = 0;
    for number in numbers {
        sum = sum.saturating_add(weight_in(weights, *number as usize));
    }
    sum
}

/// The weight with a number, 0 where there is none.
fn weight_in(weights: &[u32], number: usize) -> u32
    ensures { result ≡ spec.weight_in weights.now number }
{
    match weights.get(number) {
        Some(weight) => *weight,
        None => 0,
    }
}

fn zeros(alloc: Global, count: usize) -> Result<Vec<u32>, Memory>
    ensures { IfOk result (λ zeros. zeros.items ≡ map (λ _. 0) (range_with_len 0 count)) }
{
    let mut zeros = Vec::with_capacity(alloc, count)?;
    for _number in 0..count {
        zeros.push(0)?;
    }
    Ok(zeros)
}

/// The number of the first weight that is too great.
fn first_above(weights: &[u32]) -> Option<u32>
    requires count { length weights.now < 2 ^ 32 }
    ensures { result ≡ find (λ number. nat_lt GREATEST_WEIGHT (spec.weight_in weights.now number))
        (range_with_len 0 (length weights.now)) }
{
    (0..weights.len() as u32).find(|number| is_too_great(weights, *number))
}

fn is_too_great(weights: &[u32], number: u32) -> bool
    ensures { result ≡ nat_lt GREATEST_WEIGHT (spec.weight_in weights.now number) }
{
    weight_in(weights, number as usize) > GREATEST_WEIGHT
}
