//! What the pages of routes reach, each template with the types of its variables.

ghost use Rattle.std.specs.Prelude.{◌≡◌, ◌++◌, ◌∷◌, ◌<◌, List, [], Some, length, slice_get, IfOk, IfSome, OnOk};
ghost use Rattle.std.specs.List.{flat_map};
ghost use Rattle.doll_set.specs.Digests.{name_at};
ghost use Rattle.doll_types.specs.declared.reached.Reached.{Reached};
ghost use Rattle.doll_types.specs.Faults.{fault_at};
ghost use Rattle.doll_types.specs.Reached.{called_at, findings_at};
ghost use Rattle.doll_types.specs.Reachings as spec;

use crate::fault::TypeFault;
use crate::findings::{Finding, add_findings};
use crate::keyed::{copy_typing, is_same_typing, key_of};
use crate::reached::Reached;
use crate::types::Typing;
use doll_schema::Schema;
use doll_set::TemplateSet;
use doll_text::{Copied, Items, Memory, Name};
use indexmap::IndexMap;
use std::alloc::Global;

/// What is reached so far. Those whose calls are numbered stand first.
#[derive(Drop)]
pub(crate) struct Reach {
    pub reached: Items<Reached>,
    /// Of each the numbers of the partials that it renders, in the order of the text.
    pub calls: Items<Items<usize>>,
    pub faults: Vec<TypeFault>,
    /// Numbers under keys that tell templates and typings apart.
    pub numbers: IndexMap<Vec<u8>, usize>,
}

/// Numbers the calls of the first whose calls aren't numbered, and lists its faults.
pub(crate) fn expand(
    alloc: Global,
    set: &TemplateSet,
    schema: &Schema,
    reach: &mut Reach,
) -> Result<(), Memory>
    requires { length reach.old.calls < length reach.old.reached }
    ensures { (one : Reached) → slice_get reach.old.reached (length reach.old.calls) ≡ Some one
        → OnOk result (spec.IsExpanded set.now schema.now one reach.old reach.new) }
{
    let Some(one) = reach.reached.get(reach.calls.len()) else {
        unreachable!()
    };
    let number = one.template;
    let found = found_at(alloc, set, schema, one)?;
    let numbers = number_calls(alloc, set, number, found.as_slice(), reach)?;
    add_faults(alloc, set, number, found.as_slice(), &mut reach.faults)?;
    reach.calls.push(numbers)?;
    Ok(())
}

/// What is found in a template under a typing.
fn found_at(
    alloc: Global,
    set: &TemplateSet,
    schema: &Schema,
    one: &Reached,
) -> Result<Items<Finding>, Memory>
    ensures { IfOk result (λ found. found ≡ findings_at set.now schema.now one.now) }
{
    let mut found = Items::new(alloc);
    let Some(template) = set.templates().get(one.template) else {
        return Ok(found);
    };
    let mut typing = copy_typing(alloc, &one.typing)?;
    add_findings(
        alloc,
        schema,
        template.tree.as_slice(),
        &mut typing,
        &mut found,
    )?;
    Ok(found)
}

/// The name of the template with a number, nothing where there is none.
fn name_of(set: &TemplateSet, number: usize) -> &[u8]
    ensures { result.now ≡ name_at set.now.templates number }
{
    match set.templates().get(number) {
        Some(template) => template.name.as_bytes(),
        None => &[],
    }
}

/// Appends the faults among what is found in a template.
fn add_faults(
    alloc: Global,
    set: &TemplateSet,
    number: usize,
    found: &[Finding],
    faults: &mut Vec<TypeFault>,
) -> Result<(), Memory>
    ensures { OnOk result (faults.new.items
        ≡ faults.old.items ++ flat_map (fault_at (name_at set.now.templates number)) found.now) }
{
    for finding in found {
        add_fault(alloc, name_of(set, number), finding, faults)?;
    }
    Ok(())
}

fn add_fault(
    alloc: Global,
    name: &[u8],
    finding: &Finding,
    faults: &mut Vec<TypeFault>,
) -> Result<(), Memory>
    ensures { OnOk result (faults.new.items
        ≡ faults.old.items ++ fault_at name.now finding.now) }
{
    match finding {
        Finding::Fault { at, kind } => {
            let template = Name::from_bytes(alloc, name)?;
            let kind = kind.copy(alloc)?;
            faults.push(TypeFault {
                template,
                at: *at,
                kind,
            })?;
            Ok(())
        }
        Finding::Call { .. } => Ok(()),
    }
}

/// The numbers of the partials that a template renders, in the order of the text. Those that aren't reached yet are added.
fn number_calls(
    alloc: Global,
    set: &TemplateSet,
    number: usize,
    found: &[Finding],
    reach: &mut Reach,
) -> Result<Items<usize>, Memory>
    ensures numbers { IfOk result (λ numbers. spec.AreNumbersOf reach.new.reached numbers
        (flat_map (called_at set.now number) found.now)) }
    ensures grows { OnOk result (spec.Grows reach.old.reached reach.new.reached
        (flat_map (called_at set.now number) found.now)) }
    ensures calls { reach.new.calls ≡ reach.old.calls }
    ensures faults { reach.new.faults ≡ reach.old.faults }
{
    let mut numbers = Items::new(alloc);
    for finding in found {
        number_call(alloc, set, number, finding, reach, &mut numbers)?;
    }
    Ok(numbers)
}

/// Appends the number of the partial that a template renders there.
#[tactic(auto, using(crate::proofs::Growing::stays, crate::proofs::Growing::numbers_stay, crate::proofs::Growing::one_number))]
fn number_call(
    alloc: Global,
    set: &TemplateSet,
    number: usize,
    finding: &Finding,
    reach: &mut Reach,
    numbers: &mut Items<usize>,
) -> Result<(), Memory>
    ensures numbers { (ones : List Reached) → spec.AreNumbersOf reach.old.reached numbers.old ones
        → OnOk result (spec.AreNumbersOf reach.new.reached numbers.new
        (ones ++ called_at set.now number finding.now)) }
    ensures grows { OnOk result (spec.Grows reach.old.reached reach.new.reached
        (called_at set.now number finding.now)) }
    ensures calls { reach.new.calls ≡ reach.old.calls }
    ensures faults { reach.new.faults ≡ reach.old.faults }
{
    let Finding::Call { name, typing } = finding else {
        return Ok(());
    };
    let partial = set.partial_of(alloc, name_of(set, number), name.as_bytes())?;
    let Some(partial) = partial else {
        return Ok(());
    };
    let called = number_of(alloc, reach, partial, typing)?;
    numbers.push(called)?;
    Ok(())
}

/// The number of a template with a typing, which is added where it isn't there.
#[tactic(auto, using(crate::proofs::Growing::stays, crate::proofs::Growing::pushed, crate::proofs::Growing::last_number))]
pub(crate) fn number_of(
    alloc: Global,
    reach: &mut Reach,
    template: usize,
    typing: &Typing,
) -> Result<usize, Memory>
    ensures number { IfOk result (λ number. slice_get reach.new.reached number
        ≡ Some (record { template = template; typing = typing.now })) }
    ensures grows { OnOk result (spec.Grows reach.old.reached reach.new.reached
        (record { template = template; typing = typing.now } ∷ [])) }
    ensures calls { reach.new.calls ≡ reach.old.calls }
    ensures faults { reach.new.faults ≡ reach.old.faults }
{
    let key = key_of(alloc, template, typing)?;
    if let Some(number) = known(reach, key.as_slice(), template, typing) {
        return Ok(number);
    }
    let number = reach.reached.len();
    reach.numbers.insert(key, number)?;
    let typing = copy_typing(alloc, typing)?;
    reach.reached.push(Reached { template, typing })?;
    Ok(number)
}

/// The number under a key, where a template with a typing has it.
fn known(reach: &Reach, key: &[u8], template: usize, typing: &Typing) -> Option<usize>
    ensures { IfSome result (λ number. slice_get reach.now.reached number
        ≡ Some (record { template = template; typing = typing.now })) }
{
    let number = *reach.numbers.get(key)?;
    let one = reach.reached.get(number)?;
    if one.template != template {
        return None;
    }
    if !is_same_typing(one.typing.as_slice(), typing.as_slice()) {
        return None;
    }
    Some(number)
}
