//! What the content of a tag says.

ghost use Rattle.std.specs.Prelude.{◌≤◌, length, Ok};
ghost use Rattle.doll_text.specs.Gives.{Gives, GivesExactly};
ghost use Rattle.doll_erb.specs.Shapes as shapes;
ghost use Rattle.doll_erb.specs.Tags as spec;

use crate::key::cache_of;
use crate::mark::{is_end, listed_at, mark_at, name_at, value_at, word_at};
use crate::node::Node;
use crate::partial::dependency_of;
use crate::piece::TagKind;
use crate::render::rendered;
use crate::role::{Closing, Opening, Role};
use doll_expr::{
    ExprFault, LONGEST_SOURCE, Mark, Name, Token, Word, fault_at, is_word, rest_of, tokens_of,
};
use std::alloc::Global;

/// What a tag at a place does, by its kind and its content. The places of faults count from the content's first byte.
#[tactic(auto, unfolding(crate::specs::Tags::role_of))]
pub(crate) fn role_of(
    alloc: Global,
    at: u32,
    kind: TagKind,
    content: &[u8],
) -> Result<Role, ExprFault>
    requires { length content.now ≤ LONGEST_SOURCE }
    ensures { Gives ExprFault.Memory (spec.role_of at kind content.now) result }
{
    match kind {
        TagKind::Text => Ok(Role::Nothing),
        TagKind::Comment => comment_of(alloc, at, content),
        TagKind::Write => write_of(alloc, at, tokens_of(alloc, content)?.as_slice()),
        TagKind::Raw => raw_of(alloc, at, tokens_of(alloc, content)?.as_slice()),
        TagKind::Run => run_of(alloc, tokens_of(alloc, content)?.as_slice()),
    }
}

fn comment_of(alloc: Global, at: u32, content: &[u8]) -> Result<Role, ExprFault>
    ensures { Gives ExprFault.Memory (spec.comment at content.now) result }
{
    match dependency_of(content) {
        None => Ok(Role::Nothing),
        Some(name) => Ok(Role::Leaf(Node::Depends {
            at,
            name: Name::from_bytes(alloc, name)?,
        })),
    }
}

/// What a tag `<%=` writes: a partial or an expression.
#[tactic(auto, unfolding(crate::specs::Tags::write, crate::specs::Shapes::reads, crate::specs::Shapes::item_at))]
fn write_of(alloc: Global, at: u32, tokens: &[Token]) -> Result<Role, ExprFault>
    ensures { spec.GivesRole (spec.write at) tokens.now result }
{
    if is_word(Word::Render, tokens) {
        return rendered(alloc, at, rest_of(tokens));
    }
    let (expr, rest) = value_at(alloc, tokens)?;
    finished(Role::Leaf(Node::Write { at, expr }), rest)
}

/// What a tag `<%==` writes.
#[tactic(auto, unfolding(crate::specs::Tags::raw, crate::specs::Shapes::reads, crate::specs::Shapes::item_at))]
fn raw_of(alloc: Global, at: u32, tokens: &[Token]) -> Result<Role, ExprFault>
    ensures { spec.GivesRole (spec.raw at) tokens.now result }
{
    let (expr, rest) = value_at(alloc, tokens)?;
    finished(Role::Leaf(Node::Raw { at, expr }), rest)
}

/// A tag that opens, parts or closes a block, by its first token.
#[tactic(auto, unfolding(crate::specs::Tags::run, crate::specs::Shapes::reads))]
fn run_of(alloc: Global, tokens: &[Token]) -> Result<Role, ExprFault>
    ensures { spec.GivesRole spec.run tokens.now result }
{
    if is_word(Word::If, tokens) {
        return if_of(alloc, rest_of(tokens));
    }
    if is_word(Word::Elsif, tokens) {
        return elsif_of(alloc, rest_of(tokens));
    }
    if is_word(Word::Else, tokens) {
        return finished(Role::Closes(Closing::Else), rest_of(tokens));
    }
    if is_word(Word::End, tokens) {
        return finished(Role::Closes(Closing::End), rest_of(tokens));
    }
    if is_word(Word::Cache, tokens) {
        return cache_of(alloc, rest_of(tokens));
    }
    each_of(alloc, tokens)
}

/// The end of a tag that comes to this.
#[tactic(auto, unfolding(crate::specs::Shapes::reads))]
pub(crate) fn finished(role: Role, tokens: &[Token]) -> Result<Role, ExprFault>
    ensures { GivesExactly (λ x. x) (shapes.reads (shapes.Shape.ends (Ok role)) tokens.now) result }
{
    if !is_end(tokens) {
        return Err(fault_at(None, tokens));
    }
    Ok(role)
}

/// The test behind the word `if`.
#[tactic(auto, unfolding(crate::specs::Shapes::reads, crate::specs::Shapes::item_at))]
fn if_of(alloc: Global, tokens: &[Token]) -> Result<Role, ExprFault>
    ensures { spec.GivesRole spec.if_test tokens.now result }
{
    let (test, rest) = value_at(alloc, tokens)?;
    finished(Role::Opens(Opening::If(test)), rest)
}

/// The test behind the word `elsif`.
#[tactic(auto, unfolding(crate::specs::Shapes::reads, crate::specs::Shapes::item_at))]
fn elsif_of(alloc: Global, tokens: &[Token]) -> Result<Role, ExprFault>
    ensures { spec.GivesRole spec.elsif_test tokens.now result }
{
    let (test, rest) = value_at(alloc, tokens)?;
    finished(Role::Closes(Closing::Elsif(test)), rest)
}

/// A list and the name of its items.
#[tactic(auto, unfolding(crate::specs::Tags::each, crate::specs::Shapes::reads, crate::specs::Shapes::item_at))]
fn each_of(alloc: Global, tokens: &[Token]) -> Result<Role, ExprFault>
    ensures { spec.GivesRole spec.each tokens.now result }
{
    let (list, rest) = listed_at(alloc, tokens)?;
    let rest = word_at(Word::Do, rest)?;
    let rest = mark_at(Mark::Bar, rest)?;
    let (name, rest) = name_at(alloc, rest)?;
    let rest = mark_at(Mark::Bar, rest)?;
    finished(Role::Opens(Opening::Each { list, name }), rest)
}
