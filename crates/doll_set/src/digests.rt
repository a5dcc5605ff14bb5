//! The digests of templates, each entered after what it depends on.

ghost use Rattle.std.specs.Prelude.{◌≡◌, ◌<◌, ◌∷◌, ◌^◌, [], None, length, map, slice_set, IfOk, OnOk};
ghost use Rattle.std.specs.List.{AllByRecursion};
ghost use Rattle.doll_digest.specs.Registries.{NumbersStay, TextsStay};
ghost use Rattle.doll_digest.specs.declared.registry.DigestFault.TheVariants.{Memory as NoMemory};
ghost use Rattle.doll_graph.specs.Graphs.{dependencies};
ghost use Rattle.doll_set.specs.Dependencies.{names_of};
ghost use Rattle.doll_set.specs.Digests as spec;

use crate::limits::LONGEST_CHAIN;
use crate::template::Template;
use doll_digest::{Digest, DigestFault, Hash16, NameId, Registry};
use doll_graph::layer;
use doll_text::{Ids, Items, Memory};
use std::alloc::Global;

/// Enters templates into a registry, each after what it depends on, and gives their digests in the order of their numbers. After
/// a refusal some of them may stand there.
pub(crate) fn digests<H: Hash16>(
    alloc: Global,
    templates: &[Template],
    graph: &[Ids],
    registry: &mut Registry<H>,
) -> Result<Items<Digest>, DigestFault>
    requires count { length templates.now < 2 ^ 32 }
    requires long { length graph.now ≡ length templates.now }
    requires closed { spec.EachIsThere graph.now }
    requires shallow { spec.too_deep graph.now ≡ None }
    ensures answer { spec.Leaves NoMemory (spec.registered H.hash_of registry.old
        templates.now graph.now) registry.new result }
    ensures digests { IfOk result (λ digests. digests
        ≡ spec.digests_of H.hash_of templates.now graph.now) }
    ensures numbers { NumbersStay registry.old.names registry.new.names }
    ensures texts { TextsStay registry.old.texts registry.new.texts }
{
    let ids = ids_of(alloc, templates, registry)?;
    let mut digests = no_digests(alloc, templates.len())?;
    enter_layers(
        alloc,
        templates,
        graph,
        ids.as_slice(),
        LONGEST_CHAIN,
        registry,
        &mut digests,
    )?;
    Ok(digests)
}

/// The numbers that a registry gives the names of templates.
fn ids_of<H: Hash16>(
    alloc: Global,
    templates: &[Template],
    registry: &mut Registry<H>,
) -> Result<Items<NameId>, Memory>
    ensures named { OnOk result (registry.new ≡ spec.with_names registry.old templates.now) }
    ensures ids { IfOk result (λ ids.
        spec.AreNumbersOf registry.new.names ids (names_of templates.now)) }
    ensures numbers { NumbersStay registry.old.names registry.new.names }
    ensures texts { registry.new.texts ≡ registry.old.texts }
{
    let mut ids = Items::new(alloc);
    for template in templates {
        ids.push(registry.name(alloc, template.name.as_bytes())?)?;
    }
    Ok(ids)
}

/// Digests that are still to come, as zeros.
fn no_digests(alloc: Global, count: usize) -> Result<Items<Digest>, Memory>
    ensures { IfOk result (λ digests. length digests ≡ count) }
{
    let mut digests = Items::new(alloc);
    for _number in 0..count {
        digests.push(Digest::from_bytes([0; 16]))?;
    }
    Ok(digests)
}

/// Enters the layers of chains of at most `most` templates one after another.
fn enter_layers<H: Hash16>(
    alloc: Global,
    templates: &[Template],
    graph: &[Ids],
    ids: &[NameId],
    most: usize,
    registry: &mut Registry<H>,
    digests: &mut Items<Digest>,
) -> Result<(), DigestFault>
    requires count { length templates.now < 2 ^ 32 }
    requires long { length graph.now ≡ length templates.now }
    requires digests { length digests.old ≡ length templates.now }
    requires closed { spec.EachIsThere graph.now }
    requires shallow { spec.too_deep graph.now ≡ None }
    requires ids { spec.AreNumbersOf registry.old.names ids.now (names_of templates.now) }
    ensures answer { spec.Leaves NoMemory (spec.these_entered H.hash_of templates.now graph.now
        registry.old (spec.in_layers graph.now most)) registry.new result }
    ensures known { OnOk result (spec.AreKnown H.hash_of templates.now graph.now digests.new most) }
    ensures long { length digests.new ≡ length digests.old }
    ensures names { registry.new.names ≡ registry.old.names }
    ensures texts { TextsStay registry.old.texts registry.new.texts }
{
    for length in 0..most {
        let numbers = layer(alloc, graph, length)?;
        enter_all(
            alloc,
            templates,
            graph,
            ids,
            numbers.as_slice(),
            registry,
            digests,
        )?;
    }
    Ok(())
}

/// Enters templates, each of whose dependencies was entered before.
fn enter_all<H: Hash16>(
    alloc: Global,
    templates: &[Template],
    graph: &[Ids],
    ids: &[NameId],
    numbers: &[u32],
    registry: &mut Registry<H>,
    digests: &mut Items<Digest>,
) -> Result<(), DigestFault>
    requires long { length graph.now ≡ length templates.now }
    requires digests { length digests.old ≡ length templates.now }
    requires closed { spec.EachIsThere graph.now }
    requires shallow { spec.too_deep graph.now ≡ None }
    requires ids { spec.AreNumbersOf registry.old.names ids.now (names_of templates.now) }
    requires ready { spec.AreReady H.hash_of templates.now graph.now digests.old numbers.now }
    ensures answer { spec.Leaves NoMemory (spec.these_entered H.hash_of templates.now graph.now
        registry.old numbers.now) registry.new result }
    ensures stay { OnOk result (spec.KnownStay H.hash_of templates.now graph.now
        digests.old digests.new) }
    ensures known { OnOk result (AllByRecursion
        (spec.IsKnown H.hash_of templates.now graph.now digests.new) numbers.now) }
    ensures long { length digests.new ≡ length digests.old }
    ensures names { registry.new.names ≡ registry.old.names }
    ensures texts { TextsStay registry.old.texts registry.new.texts }
{
    for number in numbers {
        enter_one(alloc, templates, graph, ids, *number, registry, digests)?;
    }
    Ok(())
}

/// Enters a template, whose dependencies were entered before.
fn enter_one<H: Hash16>(
    alloc: Global,
    templates: &[Template],
    graph: &[Ids],
    ids: &[NameId],
    number: u32,
    registry: &mut Registry<H>,
    digests: &mut Items<Digest>,
) -> Result<(), DigestFault>
    requires number { number < length templates.now }
    requires long { length graph.now ≡ length templates.now }
    requires digests { length digests.old ≡ length templates.now }
    requires ids { spec.AreNumbersOf registry.old.names ids.now (names_of templates.now) }
    requires ready { spec.IsReady H.hash_of templates.now graph.now digests.old number }
    ensures answer { spec.Leaves NoMemory (spec.these_entered H.hash_of templates.now graph.now
        registry.old (number ∷ [])) registry.new result }
    ensures entered { OnOk result (digests.new ≡ slice_set digests.old number
        (H.hash_of (spec.framed_of H.hash_of templates.now graph.now number))) }
    ensures long { length digests.new ≡ length digests.old }
    ensures names { registry.new.names ≡ registry.old.names }
    ensures texts { TextsStay registry.old.texts registry.new.texts }
{
    let named = named(
        alloc,
        ids,
        digests.as_slice(),
        dependencies_of(graph, number),
    )?;
    let digest = registry.enter(alloc, source_of(templates, number), named.as_slice())?;
    digests.set(number as usize, digest);
    Ok(())
}

/// The source of the template with a number, nothing where there is none.
fn source_of(templates: &[Template], number: u32) -> &[u8]
    ensures { result.now ≡ spec.source_at templates.now number }
{
    match templates.get(number as usize) {
        Some(template) => template.source.as_bytes(),
        None => &[],
    }
}

/// What a template depends on, nothing where there is none with this number.
fn dependencies_of(graph: &[Ids], number: u32) -> &[u32]
    ensures { result.now ≡ dependencies graph.now number }
{
    match graph.get(number as usize) {
        Some(numbers) => numbers.as_slice(),
        None => &[],
    }
}

/// Dependencies by their names' numbers, with their digests.
fn named(
    alloc: Global,
    ids: &[NameId],
    digests: &[Digest],
    dependencies: &[u32],
) -> Result<Items<(NameId, Digest)>, Memory>
    requires long { length ids.now ≡ length digests.now }
    requires within { AllByRecursion (λ d. d < length digests.now) dependencies.now }
    ensures { IfOk result (λ named. named
        ≡ map (spec.numbered ids.now digests.now) dependencies.now) }
{
    let mut named = Items::new(alloc);
    let mut left = dependencies;
    while let [number, rest @ ..] = left {
        let at = *number as usize;
        named.push((ids[at], digests[at]))?;
        left = rest;
    }
    Ok(named)
}
