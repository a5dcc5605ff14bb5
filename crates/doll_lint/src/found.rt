//! What is found at a cached block: its faults, and what is noted of it to compare it with others.

ghost use Rattle.std.specs.Prelude.{◌≡◌, ◌++◌, ◌∷◌, [], IfOk, OnOk};
ghost use Rattle.std.specs.List.{flat_map};
ghost use Rattle.doll_set.specs.Digests.{name_at};
ghost use Rattle.doll_lint.specs.Blocks as blocks;
ghost use Rattle.doll_lint.specs.Faults as refused;
ghost use Rattle.doll_lint.specs.Found as spec;

use crate::block::{KeyShape, key_paths, key_shape, scope_roots};
use crate::fault::{LintFault, kind_of};
use crate::needs::{Need, Needs, Scope, Setting, add_needs};
use crate::path::{Path, Paths, covers, settles};
use crate::reading::Grade;
use doll_erb::{KeyPart, Node};
use doll_schema::Schema;
use doll_set::{LONGEST_CHAIN, TemplateSet};
use doll_text::{Copied, Items, Memory, Name};
use doll_types::Typing;
use std::alloc::Global;

/// What is noted of a block: its template, its number there, the place of its tag, and the shape of its key.
#[derive(Drop)]
pub struct Note {
    pub template: usize,
    pub number: u32,
    pub at: u32,
    pub shape: KeyShape,
}

/// What is found so far.
#[derive(Drop)]
pub struct Found {
    pub faults: Vec<LintFault>,
    pub notes: Vec<Note>,
}

/// A cached block where it stands: its template, its number there, the place of its tag, the types of the variables of its scope,
/// its key and its body.
#[derive(Drop)]
pub struct CachedBlock<'a> {
    pub template: usize,
    pub number: u32,
    pub at: u32,
    pub typing: &'a Typing,
    pub key: &'a [KeyPart],
    pub body: &'a [Node],
}

/// Adds the faults of a block, and a note of it.
pub(crate) fn add_block(
    alloc: Global,
    set: &TemplateSet,
    schema: &Schema,
    block: &CachedBlock<'_>,
    found: &mut Found,
) -> Result<(), Memory>
    ensures { OnOk result (spec.Grows set.now schema.now
        (spec.block_at block.now ∷ []) found.old found.new) }
{
    add_block_faults(alloc, set, schema, block, &mut found.faults)?;
    found.notes.push(note_of(alloc, schema, block)?)?;
    Ok(())
}

/// What is noted of a block.
fn note_of(alloc: Global, schema: &Schema, block: &CachedBlock<'_>) -> Result<Note, Memory>
    ensures { IfOk result (λ note. note ≡ spec.note_of schema.now (spec.block_at block.now)) }
{
    let shape = key_shape(alloc, schema, block.typing, block.key)?;
    Ok(Note {
        template: block.template,
        number: block.number,
        at: block.at,
        shape,
    })
}

/// Appends the faults of a block.
#[tactic(auto, unfolding(crate::specs::Found::block_faults))]
fn add_block_faults(
    alloc: Global,
    set: &TemplateSet,
    schema: &Schema,
    block: &CachedBlock<'_>,
    faults: &mut Vec<LintFault>,
) -> Result<(), Memory>
    ensures { OnOk result (faults.new.items ≡ faults.old.items
        ++ spec.block_faults set.now schema.now (spec.block_at block.now)) }
{
    let needs = block_needs(alloc, set, schema, block)?;
    let key = block_paths(alloc, schema, block)?;
    let name = name_of(set, block.template);
    add_unmet(
        alloc,
        schema,
        name,
        key.as_slice(),
        needs.as_slice(),
        faults,
    )
}

/// The paths that the key of a block names.
fn block_paths(alloc: Global, schema: &Schema, block: &CachedBlock<'_>) -> Result<Paths, Memory>
    ensures { IfOk result (λ paths. paths
        ≡ blocks.key_paths schema.now (spec.block_at block.now)) }
{
    let standing = scope_roots(alloc, block.typing)?;
    key_paths(alloc, schema, block.typing, &standing, block.key)
}

/// What the body of a block needs.
#[tactic(auto, unfolding(crate::specs::Faults::block_needs))]
fn block_needs(
    alloc: Global,
    set: &TemplateSet,
    schema: &Schema,
    block: &CachedBlock<'_>,
) -> Result<Needs, Memory>
    ensures { IfOk result (λ needs. needs
        ≡ refused.block_needs schema.now set.now.templates (spec.block_at block.now)) }
{
    let setting = Setting {
        set,
        schema,
        number: block.template,
        levels: LONGEST_CHAIN,
        outer: None,
    };
    let typing = copy_typing(alloc, block.typing)?;
    let standing = scope_roots(alloc, block.typing)?;
    let mut scope = Scope { typing, standing };
    let mut needs = Items::new(alloc);
    add_needs(alloc, &setting, block.body, &mut scope, &mut needs)?;
    Ok(needs)
}

/// A typing with the same variables.
pub(crate) fn copy_typing(alloc: Global, typing: &Typing) -> Result<Typing, Memory>
    ensures { IfOk result (λ copy. copy ≡ typing.now) }
{
    let mut copy = Items::new(alloc);
    for binding in typing.as_slice() {
        let name = binding.0.copy(alloc)?;
        copy.push((name, binding.1))?;
    }
    Ok(copy)
}

/// The name of the template with a number, nothing where there is none.
pub(crate) fn name_of(set: &TemplateSet, number: usize) -> &[u8]
    ensures { result.now ≡ name_at set.now.templates number }
{
    match set.templates().get(number) {
        Some(template) => template.name.as_bytes(),
        None => &[],
    }
}

/// Appends the faults of needs that a key doesn't meet.
fn add_unmet(
    alloc: Global,
    schema: &Schema,
    template: &[u8],
    key: &[Path],
    needs: &[Need],
    faults: &mut Vec<LintFault>,
) -> Result<(), Memory>
    ensures { OnOk result (faults.new.items ≡ faults.old.items
        ++ flat_map (spec.unmet schema.now template.now key.now) needs.now) }
{
    for need in needs {
        add_unmet_one(alloc, schema, template, key, need, faults)?;
    }
    Ok(())
}

/// Appends the fault of a need, where a key doesn't meet it.
fn add_unmet_one(
    alloc: Global,
    schema: &Schema,
    template: &[u8],
    key: &[Path],
    need: &Need,
    faults: &mut Vec<LintFault>,
) -> Result<(), Memory>
    ensures { OnOk result (faults.new.items ≡ faults.old.items
        ++ spec.unmet schema.now template.now key.now need.now) }
{
    if is_met(schema, key, need) {
        return Ok(());
    }
    let steps = need.path.steps.as_slice();
    let kind = kind_of(alloc, schema, key, &need.path.root, steps)?;
    let template = Name::from_bytes(alloc, template)?;
    let at = need.at;
    faults.push(LintFault { template, at, kind })?;
    Ok(())
}

/// Whether a key tells a path as well as is needed.
fn is_met(schema: &Schema, key: &[Path], need: &Need) -> bool
    ensures { result ≡ refused.is_met schema.now key.now need.now }
{
    let root = need.path.root.as_bytes();
    let steps = need.path.steps.as_slice();
    match need.grade {
        Grade::Covered => covers(schema, key, root, steps),
        Grade::Settled => settles(schema, key, root, steps),
    }
}
