//! What stands at the front of a tag's tokens, and what is expected there.

ghost use Rattle.std.specs.Prelude.{◌≡◌, []};
ghost use Rattle.doll_expr.specs.Reading as reading;
ghost use Rattle.doll_text.specs.Gives.{GivesExactly};
ghost use Rattle.doll_expr.specs.Reading.{first_kind};
ghost use Rattle.doll_erb.specs.Shapes as spec;
ghost use Rattle.doll_erb.specs.Tags.{ReadsTo};

use crate::node::Local;
use crate::partial::is_partial;
use doll_expr::{
    Expr, ExprFault, Mark, Name, Token, TokenKind, Word, expr_at, fault_at, is_mark, is_word,
    rest_of, stops_at,
};
use std::alloc::Global;

/// Whether the content ends here.
pub(crate) fn is_end(tokens: &[Token]) -> bool
    ensures { result ≡ reading.is_end (first_kind tokens.now) }
{
    let [token, ..] = tokens else {
        return true;
    };
    matches!(&token.kind, TokenKind::End)
}

/// The tokens after this mark, which is expected at the front.
pub(crate) fn mark_at(mark: Mark, tokens: &[Token]) -> Result<&[Token], ExprFault>
    ensures { GivesExactly (λ rest. rest.now) (spec.after_mark mark tokens.now) result }
{
    if !is_mark(mark, tokens) {
        return Err(fault_at(None, tokens));
    }
    Ok(rest_of(tokens))
}

/// The tokens after this word, which is expected at the front.
pub(crate) fn word_at(word: Word, tokens: &[Token]) -> Result<&[Token], ExprFault>
    ensures { GivesExactly (λ rest. rest.now) (spec.after_word word tokens.now) result }
{
    if !is_word(word, tokens) {
        return Err(fault_at(None, tokens));
    }
    Ok(rest_of(tokens))
}

/// An expression. A dot with `each` behind it is a fault here.
#[tactic(auto, unfolding(crate::specs::Shapes::value_at))]
pub(crate) fn value_at(alloc: Global, tokens: &[Token]) -> Result<(Expr, &[Token]), ExprFault>
    ensures { ReadsTo (spec.value_at tokens.now) result }
{
    let (expr, rest) = expr_at(alloc, tokens)?;
    if is_mark(Mark::Dot, rest) {
        return Err(stops_at(None, rest));
    }
    Ok((expr, rest))
}

/// The expression before `.each`.
#[tactic(auto, unfolding(crate::specs::Shapes::listed_at))]
pub(crate) fn listed_at(alloc: Global, tokens: &[Token]) -> Result<(Expr, &[Token]), ExprFault>
    ensures { ReadsTo (spec.listed_at tokens.now) result }
{
    let (list, rest) = expr_at(alloc, tokens)?;
    let rest = mark_at(Mark::Dot, rest)?;
    let rest = word_at(Word::Each, rest)?;
    Ok((list, rest))
}

/// A name that none of these locals has.
pub(crate) fn new_name_at<'a>(
    alloc: Global,
    earlier: &[Local],
    tokens: &'a [Token],
) -> Result<(Name, &'a [Token]), ExprFault>
    ensures { ReadsTo (spec.named earlier.now (first_kind tokens.now) tokens.now) result }
{
    let [token, rest @ ..] = tokens else {
        return Err(fault_at(None, tokens));
    };
    match &token.kind {
        TokenKind::Name(name) => {
            if has_local(earlier, name.as_bytes()) {
                return Err(fault_at(None, tokens));
            }
            Ok((name.copy(alloc)?, rest))
        }
        _ => Err(fault_at(None, tokens)),
    }
}

fn has_local(locals: &[Local], name: &[u8]) -> bool
    ensures { result ≡ spec.has_local locals.now name.now }
{
    locals.iter().any(|local| local.name.as_bytes() == name)
}

/// A name.
pub(crate) fn name_at(alloc: Global, tokens: &[Token]) -> Result<(Name, &[Token]), ExprFault>
    ensures { ReadsTo (spec.named [] (first_kind tokens.now) tokens.now) result }
{
    new_name_at(alloc, &[], tokens)
}

/// A text that names a partial.
pub(crate) fn partial_at(alloc: Global, tokens: &[Token]) -> Result<(Name, &[Token]), ExprFault>
    ensures { ReadsTo (spec.called (first_kind tokens.now) tokens.now) result }
{
    let [token, rest @ ..] = tokens else {
        return Err(fault_at(None, tokens));
    };
    match &token.kind {
        TokenKind::Text(text) => {
            if !is_partial(text.as_bytes()) {
                return Err(fault_at(None, tokens));
            }
            Ok((Name::from_bytes(alloc, text.as_bytes())?, rest))
        }
        _ => Err(fault_at(None, tokens)),
    }
}
