//! What a body needs of the key that it is kept under.

ghost use Rattle.std.specs.Prelude.{◌≡◌, ◌++◌, ◌-◌, IfOk, OnOk, Some};
ghost use Rattle.std.specs.List.{flat_map};
ghost use Rattle.doll_set.specs.Dependencies.{names_of, partial_of};
ghost use Rattle.doll_set.specs.Digests.{name_at};
ghost use Rattle.doll_types.specs.declared.types.ValueType.{ValueType};
ghost use Rattle.doll_lint.specs.declared.path.Path.{Path};
ghost use Rattle.doll_lint.specs.Needs as spec;
ghost use Rattle.doll_lint.specs.Readings as readings;

use crate::path::{Path, Paths};
use crate::reading::{Grade, Standing, Wanted, add_looked, read_expr};
use doll_erb::{Arm, Local, Node};
use doll_expr::Expr;
use doll_schema::Schema;
use doll_set::TemplateSet;
use doll_text::{Copied, Items, Memory, Name};
use doll_types::{Typing, ValueType, items_type, locals_typing};
use std::alloc::Global;

/// A need of a body: the key tells a path well enough. `at` is the place of the tag that has it.
#[derive(Drop)]
pub struct Need {
    pub path: Path,
    pub grade: Grade,
    pub at: u32,
}

pub type Needs = Items<Need>;

/// Where a part of a template is read.
#[derive(Drop)]
pub struct Setting<'a> {
    /// The templates, among which are the partials.
    pub set: &'a TemplateSet,
    pub schema: &'a Schema,
    /// The number of the template.
    pub number: usize,
    /// How many levels of partials may follow.
    pub levels: usize,
    /// The place of the tag that leads to this template from the one with the block, where that is another.
    pub outer: Option<u32>,
}

impl Setting<'_> {
    /// The place of a need of a tag.
    fn place(&self, at: u32) -> u32
        ensures { result ≡ spec.place self.now.outer at }
    {
        self.outer.unwrap_or(at)
    }

    /// The place of the tag by which a partial is led to that a tag renders.
    fn lead(&self, at: u32) -> Option<u32>
        ensures { result ≡ Some (spec.place self.now.outer at) }
    {
        Some(self.place(at))
    }

    /// The number of the partial that a tag means by a name.
    fn partial(&self, alloc: Global, at: u32, name: &Name) -> Result<Option<usize>, Memory>
        ensures { IfOk result (λ number. number
            ≡ partial_of (names_of self.now.set.now.templates) (name_at self.now.set.now.templates self.now.number) name.now) }
    {
        self.set.partial_at(alloc, self.number, at, name.as_bytes())
    }
}

/// The variables of a body: their types, and the paths that they stand for.
#[derive(Drop)]
pub struct Scope {
    pub typing: Typing,
    pub standing: Standing,
}

/// Appends what the template with a number needs by so many levels of partials, nothing by none.
#[cycle(needs)]
#[tactic(auto, using(crate::proofs::Nodes::needed_if, crate::proofs::Nodes::needed_each, crate::proofs::Nodes::needed_cache, crate::proofs::Nodes::needed_render, crate::proofs::Nodes::needed_collection, crate::proofs::Nodes::each_none, crate::proofs::Nodes::each_some, crate::proofs::Nodes::render_none, crate::proofs::Nodes::render_some, crate::proofs::Nodes::collection_none, crate::proofs::Nodes::collection_some, crate::proofs::Templates::no_level, crate::proofs::Templates::no_template, crate::proofs::Templates::level_more, crate::proofs::Templates::no_partial, crate::proofs::Templates::a_partial, crate::proofs::Templates::found_there, crate::proofs::Templates::not_there))]
pub fn add_template_needs(
    alloc: Global,
    set: &TemplateSet,
    schema: &Schema,
    levels: usize,
    number: usize,
    outer: Option<u32>,
    scope: Scope,
    needs: &mut Needs,
) -> Result<(), Memory>
    ensures { OnOk result (needs.new ≡ needs.old
        ++ spec.levels_need schema.now set.now.templates levels number outer scope.typing scope.standing) }
{
    if levels == 0 {
        return Ok(());
    }
    let Some(template) = set.templates().get(number) else {
        return Ok(());
    };
    let setting = Setting {
        set,
        schema,
        number,
        levels: levels - 1,
        outer,
    };
    let mut scope = scope;
    add_needs(alloc, &setting, template.tree.as_slice(), &mut scope, needs)
}

/// Appends what nodes need, in the order of the text.
#[cycle(needs)]
#[tactic(auto, using(crate::proofs::Nodes::needed_if, crate::proofs::Nodes::needed_each, crate::proofs::Nodes::needed_cache, crate::proofs::Nodes::needed_render, crate::proofs::Nodes::needed_collection, crate::proofs::Nodes::each_none, crate::proofs::Nodes::each_some, crate::proofs::Nodes::render_none, crate::proofs::Nodes::render_some, crate::proofs::Nodes::collection_none, crate::proofs::Nodes::collection_some, crate::proofs::Templates::no_level, crate::proofs::Templates::no_template, crate::proofs::Templates::level_more, crate::proofs::Templates::no_partial, crate::proofs::Templates::a_partial, crate::proofs::Templates::found_there, crate::proofs::Templates::not_there))]
pub fn add_needs(
    alloc: Global,
    setting: &Setting<'_>,
    nodes: &[Node],
    scope: &mut Scope,
    needs: &mut Needs,
) -> Result<(), Memory>
    ensures needs { OnOk result (needs.new ≡ needs.old
        ++ spec.tree_needs (spec.setting_of setting.now) nodes.now setting.now.outer scope.old.typing scope.old.standing) }
    ensures scope { OnOk result (scope.new ≡ scope.old) }
{
    for node in nodes {
        add_node_needs(alloc, setting, node, scope, needs)?;
    }
    Ok(())
}

/// Appends what a node needs.
#[cycle(needs)]
#[tactic(auto, using(crate::proofs::Nodes::needed_if, crate::proofs::Nodes::needed_each, crate::proofs::Nodes::needed_cache, crate::proofs::Nodes::needed_render, crate::proofs::Nodes::needed_collection, crate::proofs::Nodes::each_none, crate::proofs::Nodes::each_some, crate::proofs::Nodes::render_none, crate::proofs::Nodes::render_some, crate::proofs::Nodes::collection_none, crate::proofs::Nodes::collection_some, crate::proofs::Templates::no_level, crate::proofs::Templates::no_template, crate::proofs::Templates::level_more, crate::proofs::Templates::no_partial, crate::proofs::Templates::a_partial, crate::proofs::Templates::found_there, crate::proofs::Templates::not_there))]
fn add_node_needs(
    alloc: Global,
    setting: &Setting<'_>,
    node: &Node,
    scope: &mut Scope,
    needs: &mut Needs,
) -> Result<(), Memory>
    ensures needs { OnOk result (needs.new ≡ needs.old
        ++ spec.node_needs (spec.setting_of setting.now) node.now setting.now.outer scope.old.typing scope.old.standing) }
    ensures scope { OnOk result (scope.new ≡ scope.old) }
{
    match node {
        Node::Text(_) | Node::Depends { .. } => Ok(()),
        Node::Write { at, expr } | Node::Raw { at, expr } => {
            add_value_needs(alloc, setting, *at, expr, scope, needs)
        }
        Node::If {
            arms,
            otherwise,
            ..
        } => {
            add_arms_needs(alloc, setting, arms.as_slice(), scope, needs)?;
            add_needs(alloc, setting, otherwise.as_slice(), scope, needs)
        }
        Node::Each {
            at,
            list,
            name,
            body,
        } => add_each_needs(
            alloc,
            setting,
            *at,
            list,
            name,
            body.as_slice(),
            scope,
            needs,
        ),
        Node::Cache { body, .. } => add_needs(alloc, setting, body.as_slice(), scope, needs),
        Node::Render { at, name, locals } => {
            add_render_needs(alloc, setting, *at, name, locals.as_slice(), scope, needs)
        }
        Node::Collection {
            at,
            name,
            list,
            item,
            ..
        } => add_collection_needs(alloc, setting, *at, name, list, item, scope, needs),
    }
}

/// Appends what finding a value needs.
fn add_value_needs(
    alloc: Global,
    setting: &Setting<'_>,
    at: u32,
    expr: &Expr,
    scope: &Scope,
    needs: &mut Needs,
) -> Result<(), Memory>
    ensures { OnOk result (needs.new ≡ needs.old ++ spec.needs_at (spec.place setting.now.outer at)
        (readings.reading_of setting.now.schema.now scope.now.typing scope.now.standing expr.now).wants) }
{
    let reading = read_expr(alloc, setting.schema, &scope.typing, &scope.standing, expr)?;
    add_wants(alloc, setting.place(at), reading.wants.as_slice(), needs)
}

/// Appends these wants at a place.
fn add_wants(alloc: Global, at: u32, wants: &[Wanted], needs: &mut Needs) -> Result<(), Memory>
    ensures { OnOk result (needs.new ≡ needs.old ++ spec.needs_at at wants.now) }
{
    for wanted in wants {
        let path = wanted.path.copy(alloc)?;
        let grade = wanted.grade;
        needs.push(Need { path, grade, at })?;
    }
    Ok(())
}

/// Appends what looking at a value needs, and gives the paths at which it stands.
fn add_looking_needs(
    alloc: Global,
    setting: &Setting<'_>,
    at: u32,
    expr: &Expr,
    scope: &Scope,
    needs: &mut Needs,
) -> Result<Paths, Memory>
    ensures needs { OnOk result (needs.new ≡ needs.old ++ spec.needs_at (spec.place setting.now.outer at)
        (spec.looking_wants (readings.reading_of setting.now.schema.now scope.now.typing scope.now.standing expr.now))) }
    ensures paths { IfOk result (λ paths. paths
        ≡ (readings.reading_of setting.now.schema.now scope.now.typing scope.now.standing expr.now).paths) }
{
    let reading = read_expr(alloc, setting.schema, &scope.typing, &scope.standing, expr)?;
    let mut wants = reading.wants;
    add_looked(alloc, &reading.of, reading.paths.as_slice(), &mut wants)?;
    add_wants(alloc, setting.place(at), wants.as_slice(), needs)?;
    Ok(reading.paths)
}

/// Appends what the arms of an `if` need: each test, at its own tag, and its body.
#[cycle(needs)]
#[tactic(auto, using(crate::proofs::Nodes::needed_if, crate::proofs::Nodes::needed_each, crate::proofs::Nodes::needed_cache, crate::proofs::Nodes::needed_render, crate::proofs::Nodes::needed_collection, crate::proofs::Nodes::each_none, crate::proofs::Nodes::each_some, crate::proofs::Nodes::render_none, crate::proofs::Nodes::render_some, crate::proofs::Nodes::collection_none, crate::proofs::Nodes::collection_some, crate::proofs::Templates::no_level, crate::proofs::Templates::no_template, crate::proofs::Templates::level_more, crate::proofs::Templates::no_partial, crate::proofs::Templates::a_partial, crate::proofs::Templates::found_there, crate::proofs::Templates::not_there))]
fn add_arms_needs(
    alloc: Global,
    setting: &Setting<'_>,
    arms: &[Arm],
    scope: &mut Scope,
    needs: &mut Needs,
) -> Result<(), Memory>
    ensures needs { OnOk result (needs.new ≡ needs.old
        ++ spec.arms_need (spec.setting_of setting.now) arms.now setting.now.outer scope.old.typing scope.old.standing) }
    ensures scope { OnOk result (scope.new ≡ scope.old) }
{
    for arm in arms {
        add_looking_needs(alloc, setting, arm.at, &arm.test, scope, needs)?;
        add_needs(alloc, setting, arm.body.as_slice(), scope, needs)?;
    }
    Ok(())
}

/// Appends what a loop over a list needs: the list, and its body with the item under a name.
#[cycle(needs)]
#[tactic(auto, using(crate::proofs::Nodes::needed_if, crate::proofs::Nodes::needed_each, crate::proofs::Nodes::needed_cache, crate::proofs::Nodes::needed_render, crate::proofs::Nodes::needed_collection, crate::proofs::Nodes::each_none, crate::proofs::Nodes::each_some, crate::proofs::Nodes::render_none, crate::proofs::Nodes::render_some, crate::proofs::Nodes::collection_none, crate::proofs::Nodes::collection_some, crate::proofs::Templates::no_level, crate::proofs::Templates::no_template, crate::proofs::Templates::level_more, crate::proofs::Templates::no_partial, crate::proofs::Templates::a_partial, crate::proofs::Templates::found_there, crate::proofs::Templates::not_there))]
fn add_each_needs(
    alloc: Global,
    setting: &Setting<'_>,
    at: u32,
    list: &Expr,
    name: &Name,
    body: &[Node],
    scope: &mut Scope,
    needs: &mut Needs,
) -> Result<(), Memory>
    ensures needs { OnOk result (needs.new ≡ needs.old
        ++ spec.each_body_needs (spec.setting_of setting.now) at list.now name.now body.now setting.now.outer scope.old.typing scope.old.standing) }
    ensures scope { OnOk result (scope.new ≡ scope.old) }
{
    let paths = add_looking_needs(alloc, setting, at, list, scope, needs)?;
    let Ok(item) = items_type(alloc, setting.schema, &scope.typing, list)? else {
        return Ok(());
    };
    bind(alloc, name, item, paths, scope)?;
    add_needs(alloc, setting, body, scope, needs)?;
    unbind(scope);
    Ok(())
}

/// Binds a name to a type and to the paths that it stands for, after all other variables.
fn bind(
    alloc: Global,
    name: &Name,
    of: ValueType,
    paths: Paths,
    scope: &mut Scope,
) -> Result<(), Memory>
    ensures { OnOk result (scope.new ≡ spec.bound name.now of paths scope.old) }
{
    scope.typing.push((name.copy(alloc)?, of))?;
    scope.standing.push((name.copy(alloc)?, paths))?;
    Ok(())
}

/// Takes the last variable away.
fn unbind(scope: &mut Scope)
    ensures { scope.new ≡ spec.unbound scope.old }
{
    scope.typing.pop();
    scope.standing.pop();
}

/// Appends what a tag needs that renders a partial with locals: these, and the partial with them alone.
#[cycle(needs)]
#[tactic(auto, using(crate::proofs::Nodes::needed_if, crate::proofs::Nodes::needed_each, crate::proofs::Nodes::needed_cache, crate::proofs::Nodes::needed_render, crate::proofs::Nodes::needed_collection, crate::proofs::Nodes::each_none, crate::proofs::Nodes::each_some, crate::proofs::Nodes::render_none, crate::proofs::Nodes::render_some, crate::proofs::Nodes::collection_none, crate::proofs::Nodes::collection_some, crate::proofs::Templates::no_level, crate::proofs::Templates::no_template, crate::proofs::Templates::level_more, crate::proofs::Templates::no_partial, crate::proofs::Templates::a_partial, crate::proofs::Templates::found_there, crate::proofs::Templates::not_there))]
fn add_render_needs(
    alloc: Global,
    setting: &Setting<'_>,
    at: u32,
    name: &Name,
    locals: &[Local],
    scope: &Scope,
    needs: &mut Needs,
) -> Result<(), Memory>
    ensures { OnOk result (needs.new ≡ needs.old
        ++ spec.render_needs (spec.setting_of setting.now) at name.now locals.now setting.now.outer scope.now.typing scope.now.standing) }
{
    let standing = add_locals_needs(alloc, setting, at, locals, scope, needs)?;
    let Ok(typing) = locals_typing(alloc, setting.schema, &scope.typing, locals)? else {
        return Ok(());
    };
    let Some(partial) = setting.partial(alloc, at, name)? else {
        return Ok(());
    };
    let own = Scope { typing, standing };
    add_template_needs(
        alloc,
        setting.set,
        setting.schema,
        setting.levels,
        partial,
        setting.lead(at),
        own,
        needs,
    )
}

/// Appends what locals need, and gives the paths that they stand for.
fn add_locals_needs(
    alloc: Global,
    setting: &Setting<'_>,
    at: u32,
    locals: &[Local],
    scope: &Scope,
    needs: &mut Needs,
) -> Result<Standing, Memory>
    ensures needs { OnOk result (needs.new ≡ needs.old ++ flat_map
        (spec.local_needs setting.now.schema.now scope.now.typing scope.now.standing (spec.place setting.now.outer at)) locals.now) }
    ensures standing { IfOk result (λ standing. standing
        ≡ spec.local_standing setting.now.schema.now scope.now.typing scope.now.standing locals.now) }
{
    let mut standing = Items::new(alloc);
    for local in locals {
        let paths = add_looking_needs(alloc, setting, at, &local.value, scope, needs)?;
        standing.push((local.name.copy(alloc)?, paths))?;
    }
    Ok(standing)
}

/// Appends what a tag needs that renders a partial for each item of a list: the list, and the partial with its item alone.
#[cycle(needs)]
#[tactic(auto, using(crate::proofs::Nodes::needed_if, crate::proofs::Nodes::needed_each, crate::proofs::Nodes::needed_cache, crate::proofs::Nodes::needed_render, crate::proofs::Nodes::needed_collection, crate::proofs::Nodes::each_none, crate::proofs::Nodes::each_some, crate::proofs::Nodes::render_none, crate::proofs::Nodes::render_some, crate::proofs::Nodes::collection_none, crate::proofs::Nodes::collection_some, crate::proofs::Templates::no_level, crate::proofs::Templates::no_template, crate::proofs::Templates::level_more, crate::proofs::Templates::no_partial, crate::proofs::Templates::a_partial, crate::proofs::Templates::found_there, crate::proofs::Templates::not_there))]
fn add_collection_needs(
    alloc: Global,
    setting: &Setting<'_>,
    at: u32,
    name: &Name,
    list: &Expr,
    item: &Name,
    scope: &Scope,
    needs: &mut Needs,
) -> Result<(), Memory>
    ensures { OnOk result (needs.new ≡ needs.old
        ++ spec.collection_needs (spec.setting_of setting.now) at name.now list.now item.now setting.now.outer scope.now.typing scope.now.standing) }
{
    let paths = add_looking_needs(alloc, setting, at, list, scope, needs)?;
    let Ok(of) = items_type(alloc, setting.schema, &scope.typing, list)? else {
        return Ok(());
    };
    let Some(partial) = setting.partial(alloc, at, name)? else {
        return Ok(());
    };
    let own = only(alloc, item, of, paths)?;
    add_template_needs(
        alloc,
        setting.set,
        setting.schema,
        setting.levels,
        partial,
        setting.lead(at),
        own,
        needs,
    )
}

/// The scope of one variable.
fn only(alloc: Global, name: &Name, of: ValueType, paths: Paths) -> Result<Scope, Memory>
    ensures { IfOk result (λ scope. scope ≡ spec.only name.now of paths) }
{
    let mut typing = Items::new(alloc);
    typing.push((name.copy(alloc)?, of))?;
    let mut standing = Items::new(alloc);
    standing.push((name.copy(alloc)?, paths))?;
    Ok(Scope { typing, standing })
}
