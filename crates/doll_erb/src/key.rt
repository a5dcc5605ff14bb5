//! The keys of cached blocks.

ghost use Rattle.std.specs.Prelude.{◌∷◌, [], Ok};
ghost use Rattle.doll_text.specs.Gives.{Gives, GivesExactly};
ghost use Rattle.doll_expr.specs.Reading.{first_kind};
ghost use Rattle.doll_erb.specs.Shapes as shapes;
ghost use Rattle.doll_erb.specs.Tags as spec;
ghost use Rattle.doll_erb.specs.Tags.{ReadsTo};

use crate::mark::{mark_at, name_at, value_at, word_at};
use crate::node::{Key, KeyPart};
use crate::role::{Opening, Role};
use crate::tag::finished;
use doll_expr::{ExprFault, Items, Mark, Text, Token, TokenKind, Word, is_mark, rest_of};
use std::alloc::Global;

/// How many parts a key has at most, beside its first.
const MORE_PARTS: u8 = 7;

/// A cached block, behind the word `cache`: its key is a part, or 1 to 8 of them in brackets.
#[tactic(auto, unfolding(crate::specs::Tags::cache, crate::specs::Shapes::reads, crate::specs::Shapes::item_at))]
pub(crate) fn cache_of(alloc: Global, tokens: &[Token]) -> Result<Role, ExprFault>
    ensures { spec.GivesRole spec.cache tokens.now result }
{
    if is_mark(Mark::OpenBracket, tokens) {
        return list_of(alloc, rest_of(tokens));
    }
    let (part, rest) = part_at(alloc, tokens)?;
    keyed(one_part(alloc, part)?, rest)
}

/// The parts behind an opening bracket.
#[tactic(auto, unfolding(crate::specs::Tags::listed_key, crate::specs::Shapes::reads, crate::specs::Shapes::item_at))]
fn list_of(alloc: Global, tokens: &[Token]) -> Result<Role, ExprFault>
    ensures { spec.GivesRole spec.listed_key tokens.now result }
{
    let (part, rest) = part_at(alloc, tokens)?;
    parts_from(alloc, MORE_PARTS, one_part(alloc, part)?, rest)
}

/// A part as a key.
fn one_part(alloc: Global, part: KeyPart) -> Result<Key, ExprFault>
    ensures { Gives ExprFault.Memory (Ok (part ∷ [])) result }
{
    let mut key = Items::new(alloc);
    key.push(part)?;
    Ok(key)
}

/// At most so many further parts behind those of `key`, and the bracket that closes them.
#[tactic(auto, unfolding(crate::specs::Tags::parts, crate::specs::Shapes::reads, crate::specs::Shapes::item_at))]
fn parts_from(alloc: Global, left: u8, mut key: Key, tokens: &[Token]) -> Result<Role, ExprFault>
    ensures { spec.GivesRole (spec.parts left key) tokens.now result }
{
    if left == 0 {
        return closed(key, tokens);
    }
    if !is_mark(Mark::Comma, tokens) {
        return closed(key, tokens);
    }
    let (part, rest) = part_at(alloc, rest_of(tokens))?;
    key.push(part)?;
    parts_from(alloc, left - 1, key, rest)
}

/// The bracket that closes the parts.
#[tactic(auto, unfolding(crate::specs::Tags::closed, crate::specs::Shapes::reads, crate::specs::Shapes::item_at))]
fn closed(key: Key, tokens: &[Token]) -> Result<Role, ExprFault>
    ensures { GivesExactly (λ x. x) (shapes.reads (spec.closed key) tokens.now) result }
{
    let rest = mark_at(Mark::CloseBracket, tokens)?;
    keyed(key, rest)
}

/// The word `do` behind a key.
#[tactic(auto, unfolding(crate::specs::Tags::keyed, crate::specs::Shapes::reads, crate::specs::Shapes::item_at))]
fn keyed(key: Key, tokens: &[Token]) -> Result<Role, ExprFault>
    ensures { GivesExactly (λ x. x) (shapes.reads (spec.keyed key) tokens.now) result }
{
    let rest = word_at(Word::Do, tokens)?;
    finished(Role::Opens(Opening::Cache(key)), rest)
}

/// A part of a key: a text alone or `:name`, which are literals, or an expression.
fn part_at(alloc: Global, tokens: &[Token]) -> Result<(KeyPart, &[Token]), ExprFault>
    ensures { ReadsTo (shapes.part_by (first_kind tokens.now) tokens.now) result }
{
    let [token, rest @ ..] = tokens else {
        return path_at(alloc, tokens);
    };
    match &token.kind {
        TokenKind::Text(text) => text_at(alloc, text, tokens),
        TokenKind::Mark(Mark::Colon) => symbol_at(alloc, rest),
        _ => path_at(alloc, tokens),
    }
}

/// The expression that begins with a text, or the text where it is all of the expression.
fn text_at<'a>(
    alloc: Global,
    text: &Text,
    tokens: &'a [Token],
) -> Result<(KeyPart, &'a [Token]), ExprFault>
    ensures { ReadsTo (shapes.text_at text.now tokens.now) result }
{
    let (path, rest) = value_at(alloc, tokens)?;
    if rest.len() + 1 == tokens.len() {
        return Ok((KeyPart::Literal(text.copy(alloc)?), rest));
    }
    Ok((KeyPart::Path(path), rest))
}

fn path_at(alloc: Global, tokens: &[Token]) -> Result<(KeyPart, &[Token]), ExprFault>
    ensures { ReadsTo (shapes.path_at tokens.now) result }
{
    let (path, rest) = value_at(alloc, tokens)?;
    Ok((KeyPart::Path(path), rest))
}

/// The name behind a colon, as a literal.
fn symbol_at(alloc: Global, tokens: &[Token]) -> Result<(KeyPart, &[Token]), ExprFault>
    ensures { ReadsTo (shapes.symbol_at tokens.now) result }
{
    let (name, rest) = name_at(alloc, tokens)?;
    Ok((
        KeyPart::Literal(Text::from_bytes(alloc, name.as_bytes())?),
        rest,
    ))
}
