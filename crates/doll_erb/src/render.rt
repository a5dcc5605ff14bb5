//! The tags that render partials.

ghost use Rattle.std.specs.Prelude.{Ok};
ghost use Rattle.doll_text.specs.Gives.{Gives};
ghost use Rattle.doll_erb.specs.Tags as spec;

use crate::mark::{is_end, mark_at, name_at, new_name_at, partial_at, value_at, word_at};
use crate::node::{Local, Locals, Node};
use crate::role::Role;
use crate::tag::finished;
use doll_expr::{
    Expr, ExprFault, Items, Mark, Name, Token, Word, fault_at, is_mark, is_name, is_word, place,
    rest_of,
};
use doll_text::segments::last_segment;
use std::alloc::Global;

/// More than the locals of a tag, which has 200 tokens at most and takes four for each.
const MOST_LOCALS: u8 = 64;

/// What a collection's tag says first: the partial's name, where its text stands, and the list.
#[derive(Drop)]
pub(crate) struct Listed {
    name: Name,
    at: u32,
    list: Expr,
}

/// A partial, or a collection of them, behind the word `render`.
#[tactic(auto, unfolding(crate::specs::Tags::rendered, crate::specs::Shapes::reads, crate::specs::Shapes::item_at))]
pub(crate) fn rendered(alloc: Global, at: u32, tokens: &[Token]) -> Result<Role, ExprFault>
    ensures { spec.GivesRole (spec.rendered at) tokens.now result }
{
    if is_word(Word::Partial, tokens) {
        return collected(alloc, at, rest_of(tokens));
    }
    let (name, rest) = partial_at(alloc, tokens)?;
    locals_from(alloc, at, name, MOST_LOCALS, Items::new(alloc), rest)
}

/// At most so many further locals behind those that came before, and the end.
#[tactic(auto, unfolding(crate::specs::Tags::locals, crate::specs::Shapes::reads, crate::specs::Shapes::item_at))]
fn locals_from(
    alloc: Global,
    at: u32,
    name: Name,
    left: u8,
    mut locals: Locals,
    tokens: &[Token],
) -> Result<Role, ExprFault>
    ensures { spec.GivesRole (spec.locals at name left locals) tokens.now result }
{
    if left == 0 {
        return finished(Role::Leaf(Node::Render { at, name, locals }), tokens);
    }
    if !is_mark(Mark::Comma, tokens) {
        return finished(Role::Leaf(Node::Render { at, name, locals }), tokens);
    }
    let (variable, rest) = new_name_at(alloc, locals.as_slice(), rest_of(tokens))?;
    let rest = mark_at(Mark::Colon, rest)?;
    let (value, rest) = value_at(alloc, rest)?;
    locals.push(Local {
        name: variable,
        value,
    })?;
    locals_from(alloc, at, name, left - 1, locals, rest)
}

/// A collection, behind the word `partial`.
#[tactic(auto, unfolding(crate::specs::Tags::collected, crate::specs::Shapes::reads, crate::specs::Shapes::item_at))]
fn collected(alloc: Global, at: u32, tokens: &[Token]) -> Result<Role, ExprFault>
    ensures { spec.GivesRole (spec.collected at) tokens.now result }
{
    let text = mark_at(Mark::Colon, tokens)?;
    let (name, rest) = partial_at(alloc, text)?;
    let rest = mark_at(Mark::Comma, rest)?;
    let rest = word_at(Word::Collection, rest)?;
    let rest = mark_at(Mark::Colon, rest)?;
    let (list, rest) = value_at(alloc, rest)?;
    let listed = Listed {
        name,
        at: place(text),
        list,
    };
    options(alloc, at, listed, rest)
}

/// What may stand behind a collection's list: the name of its items, and whether they are kept.
#[tactic(auto, unfolding(crate::specs::Tags::options, crate::specs::Shapes::reads))]
fn options(alloc: Global, at: u32, of: Listed, tokens: &[Token]) -> Result<Role, ExprFault>
    ensures { spec.GivesRole (spec.options at of) tokens.now result }
{
    if !is_mark(Mark::Comma, tokens) {
        return ended(alloc, at, of, None, false, tokens);
    }
    let rest = rest_of(tokens);
    if is_word(Word::As, rest) {
        return named_item(alloc, at, of, rest_of(rest));
    }
    cached(alloc, at, of, None, rest)
}

/// The name of the items, behind the word `as`.
#[tactic(auto, unfolding(crate::specs::Tags::named_item, crate::specs::Shapes::reads, crate::specs::Shapes::item_at))]
fn named_item(alloc: Global, at: u32, of: Listed, tokens: &[Token]) -> Result<Role, ExprFault>
    ensures { spec.GivesRole (spec.named_item at of) tokens.now result }
{
    let rest = mark_at(Mark::Colon, tokens)?;
    let rest = mark_at(Mark::Colon, rest)?;
    let (name, rest) = name_at(alloc, rest)?;
    if is_mark(Mark::Comma, rest) {
        return cached(alloc, at, of, Some(name), rest_of(rest));
    }
    ended(alloc, at, of, Some(name), false, rest)
}

/// That the items are kept, behind a comma.
#[tactic(auto, unfolding(crate::specs::Tags::cached, crate::specs::Shapes::reads, crate::specs::Shapes::item_at))]
fn cached(
    alloc: Global,
    at: u32,
    of: Listed,
    item: Option<Name>,
    tokens: &[Token],
) -> Result<Role, ExprFault>
    ensures { spec.GivesRole (spec.cached at of item) tokens.now result }
{
    let rest = word_at(Word::Cached, tokens)?;
    let rest = mark_at(Mark::Colon, rest)?;
    let rest = word_at(Word::True, rest)?;
    ended(alloc, at, of, item, true, rest)
}

/// The end of a collection's tag.
#[tactic(auto, unfolding(crate::specs::Tags::collection, crate::specs::Shapes::reads))]
fn ended(
    alloc: Global,
    at: u32,
    of: Listed,
    item: Option<Name>,
    cached: bool,
    tokens: &[Token],
) -> Result<Role, ExprFault>
    ensures { spec.GivesRole (spec.collection_end at of item cached) tokens.now result }
{
    if !is_end(tokens) {
        return Err(fault_at(None, tokens));
    }
    let item = item_of(alloc, of.at, of.name.as_bytes(), item)?;
    Ok(Role::Leaf(Node::Collection {
        at,
        name: of.name,
        list: of.list,
        item,
        cached,
    }))
}

/// The item's name: that behind `as`, else the last segment of the partial's, whose text stands at `at`.
#[tactic(auto, unfolding(crate::specs::Tags::item_of))]
fn item_of(alloc: Global, at: u32, partial: &[u8], item: Option<Name>) -> Result<Name, ExprFault>
    ensures { Gives ExprFault.Memory (spec.item_of at partial.now item) result }
{
    if let Some(name) = item {
        return Ok(name);
    }
    let name = last_segment(partial);
    if !is_name(name) {
        return Err(ExprFault::Unexpected { at });
    }
    Ok(Name::from_bytes(alloc, name)?)
}
