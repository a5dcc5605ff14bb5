//! Reads expressions from tokens.

ghost use Rattle.std.specs.Prelude.{◌≡◌, ◌≤◌, ◌==◌, ◌&&◌, true, List, ◌++◌, length, drop, Ok, IfOk};
ghost use Rattle.doll_expr.specs.declared.expr.Expr.{Expr};
ghost use Rattle.doll_expr.specs.declared.token.Token.{Token};
ghost use Rattle.doll_text.specs.Gives.{Gives, GivesExactly};
ghost use Rattle.doll_expr.specs.Faults.{Faults};
ghost use Rattle.doll_expr.specs.Grammar as grammar;
ghost use Rattle.doll_expr.specs.Grammar.{AreExpr, BeginsExpr, Sentence, ends_expr};
ghost use Rattle.doll_expr.specs.Levels as table;
ghost use Rattle.doll_expr.specs.Reading as spec;
ghost use Rattle.doll_expr.specs.Reading.{Reads};
ghost use Rattle.doll_expr.specs.Tokens.{Ended, is_mark, is_word};

use crate::expr::{Expr, ExprFault, Op, Query};
use crate::level::{Level, Sign, operator_of, repeats, tighter};
use crate::token::{Mark, Token, TokenKind};
use doll_text::{Boxed, Memory, Name, Word};
use std::alloc::Global;

/// More than the tokens of a text take, which are at most 201 and take less than 16 each. Each call of the reading takes one.
const ENOUGH_FUEL: u32 = 4096;

/// Reads the expression at the front of tokens, and gives the tokens after it. A `.` with `each` behind it ends an
/// expression.
pub fn expr_at(alloc: Global, tokens: &[Token]) -> Result<(Expr, &[Token]), ExprFault>
    // What is read is a sentence of the grammar, and the rest stands behind it.
    ensures found { IfOk result (λ x. BeginsExpr tokens.now x.0 x.1.now) }
    // A sentence with which the expression ends is read, unless memory runs out.
    ensures only { (ts rest : List Token) (e : Expr) → tokens.now ≡ ts ++ rest → Sentence grammar.expr ts e → length ts ≤ 200 → ends_expr rest ≡ true → Reads (Ok (e, rest)) result }
    ensures exact { Reads (spec.expr_at tokens.now) result }
{
    read_front(alloc, tokens)
}

/// Reads an expression that is all there is before the end.
pub fn whole_expr(alloc: Global, tokens: &[Token]) -> Result<Expr, ExprFault>
    ensures found { IfOk result (λ e. AreExpr tokens.now e) }
    ensures only { (e : Expr) → length tokens.now ≤ 201 → AreExpr tokens.now e → Gives ExprFault.Memory (Ok e) result }
    // A fault is that of the first token with which no sentence goes on, unless memory ran out.
    ensures fault { length tokens.now ≤ 201 → Ended tokens.now → Faults tokens.now result }
    ensures exact { Gives ExprFault.Memory (spec.whole_of tokens.now) result }
{
    read_whole(alloc, tokens)
}

#[tactic(auto, unfolding(crate::specs::Reading::expr_at, crate::specs::Reading::enough_fuel))]
fn read_front(alloc: Global, tokens: &[Token]) -> Result<(Expr, &[Token]), ExprFault>
    ensures { Reads (spec.expr_at tokens.now) result }
{
    operands(alloc, ENOUGH_FUEL, None, Level::Or, tokens)
}

#[tactic(auto, unfolding(crate::specs::Reading::whole_of))]
fn read_whole(alloc: Global, tokens: &[Token]) -> Result<Expr, ExprFault>
    ensures { Gives ExprFault.Memory (spec.whole_of tokens.now) result }
{
    let (expr, rest) = read_front(alloc, tokens)?;
    if !is_end(rest) {
        return Err(stops_at(None, rest));
    }
    Ok(expr)
}

/// The fault of a first token that can't stand where it does. `opened` is the place of the innermost parenthesis that
/// is open.
#[tactic(auto, unfolding(crate::specs::Reading::fault_at))]
pub fn fault_at(opened: Option<u32>, tokens: &[Token]) -> ExprFault
    ensures { result ≡ spec.fault_at opened tokens.now }
{
    let [token, ..] = tokens else {
        return ends_early(opened, 0);
    };
    match &token.kind {
        TokenKind::Fault(fault) => *fault,
        TokenKind::End => ends_early(opened, token.at),
        _ => ExprFault::Unexpected { at: token.at },
    }
}

/// The fault of tokens that don't go on from the expression before them.
#[tactic(auto, unfolding(crate::specs::Reading::stops_at))]
pub fn stops_at(opened: Option<u32>, tokens: &[Token]) -> ExprFault
    ensures { result ≡ spec.stops_at opened tokens.now }
{
    let after = rest_of(tokens);
    if is_mark(Mark::Dot, tokens) && is_word(Word::Each, after) {
        return fault_at(opened, after);
    }
    fault_at(opened, tokens)
}

fn ends_early(opened: Option<u32>, at: u32) -> ExprFault
    ensures { result ≡ spec.ends_early opened at }
{
    match opened {
        None => ExprFault::Unexpected { at },
        Some(opened) => ExprFault::Unclosed { at: opened },
    }
}

fn too_deep(tokens: &[Token]) -> ExprFault
    ensures { result ≡ spec.too_deep tokens.now }
{
    ExprFault::TooDeep { at: place(tokens) }
}

#[tactic(auto, unfolding(crate::specs::Reading::level_at))]
#[cycle(reading)]
fn operands<'a>(
    alloc: Global,
    fuel: u32,
    opened: Option<u32>,
    level: Level,
    tokens: &'a [Token],
) -> Result<(Expr, &'a [Token]), ExprFault>
    ensures { Reads (spec.level_at fuel opened level tokens.now) result }
{
    if fuel == 0 {
        return Err(too_deep(tokens));
    }
    let Some(inner) = tighter(level) else {
        return unary(alloc, fuel - 1, opened, tokens);
    };
    let (left, rest) = operands(alloc, fuel - 1, opened, inner, tokens)?;
    more(alloc, fuel - 1, opened, level, inner, left, rest)
}

#[tactic(auto, unfolding(crate::specs::Reading::more_at))]
#[cycle(reading)]
fn more<'a>(
    alloc: Global,
    fuel: u32,
    opened: Option<u32>,
    level: Level,
    inner: Level,
    left: Expr,
    tokens: &'a [Token],
) -> Result<(Expr, &'a [Token]), ExprFault>
    ensures { Reads (spec.more_at fuel opened level inner left tokens.now) result }
{
    if fuel == 0 {
        return Err(too_deep(tokens));
    }
    let Some(op) = operator(level, tokens) else {
        return Ok((left, tokens));
    };
    let (right, rest) = operands(alloc, fuel - 1, opened, inner, rest_of(tokens))?;
    let both = binary(alloc, op, left, right)?;
    if !repeats(level) {
        return Ok((both, rest));
    }
    more(alloc, fuel - 1, opened, level, inner, both, rest)
}

#[tactic(auto, unfolding(crate::specs::Reading::unary_at))]
#[cycle(reading)]
fn unary<'a>(
    alloc: Global,
    fuel: u32,
    opened: Option<u32>,
    tokens: &'a [Token],
) -> Result<(Expr, &'a [Token]), ExprFault>
    ensures { Reads (spec.unary_at fuel opened tokens.now) result }
{
    if fuel == 0 {
        return Err(too_deep(tokens));
    }
    if let Some(sign) = sign(tokens) {
        let (of, rest) = unary(alloc, fuel - 1, opened, rest_of(tokens))?;
        return Ok((signed(alloc, sign, of)?, rest));
    }
    let (of, rest) = atom(alloc, fuel - 1, opened, tokens)?;
    steps(alloc, fuel - 1, opened, of, rest)
}

#[tactic(auto, unfolding(crate::specs::Reading::atom_at))]
#[cycle(reading)]
fn atom<'a>(
    alloc: Global,
    fuel: u32,
    opened: Option<u32>,
    tokens: &'a [Token],
) -> Result<(Expr, &'a [Token]), ExprFault>
    ensures { Reads (spec.atom_at fuel opened tokens.now) result }
{
    if fuel == 0 {
        return Err(too_deep(tokens));
    }
    if let Some(expr) = literal(alloc, tokens)? {
        return Ok((expr, rest_of(tokens)));
    }
    if !is_mark(Mark::Open, tokens) {
        return Err(fault_at(opened, tokens));
    }
    let at = place(tokens);
    let (inner, after) = operands(alloc, fuel - 1, Some(at), Level::Or, rest_of(tokens))?;
    let rest = close(at, after)?;
    Ok((inner, rest))
}

#[tactic(auto, unfolding(crate::specs::Reading::close_at))]
fn close(opened: u32, tokens: &[Token]) -> Result<&[Token], ExprFault>
    ensures { GivesExactly (λ x. x.now) (spec.close_at opened tokens.now) result }
{
    if !is_mark(Mark::Close, tokens) {
        return Err(stops_at(Some(opened), tokens));
    }
    Ok(rest_of(tokens))
}

#[tactic(auto, unfolding(crate::specs::Reading::steps_at))]
fn steps<'a>(
    alloc: Global,
    fuel: u32,
    opened: Option<u32>,
    of: Expr,
    tokens: &'a [Token],
) -> Result<(Expr, &'a [Token]), ExprFault>
    ensures { Reads (spec.steps_at fuel opened of tokens.now) result }
{
    if fuel == 0 {
        return Err(too_deep(tokens));
    }
    if !has_step(tokens) {
        return Ok((of, tokens));
    }
    let after = rest_of(tokens);
    let Some(made) = step(alloc, of, after)? else {
        return Err(fault_at(opened, after));
    };
    steps(alloc, fuel - 1, opened, made, rest_of(after))
}

fn binary(alloc: Global, op: Op, left: Expr, right: Expr) -> Result<Expr, Memory>
    ensures { IfOk result (λ e. e ≡ Expr.Binary op left right) }
{
    let left = Boxed::new(alloc, left)?;
    let right = Boxed::new(alloc, right)?;
    Ok(Expr::Binary(op, left, right))
}

fn signed(alloc: Global, sign: Sign, of: Expr) -> Result<Expr, Memory>
    ensures { IfOk result (λ e. e ≡ table.signed sign of) }
{
    let of = Boxed::new(alloc, of)?;
    match sign {
        Sign::Not => Ok(Expr::Not(of)),
        Sign::Minus => Ok(Expr::Neg(of)),
    }
}

/// The expression that the first token is by itself.
fn literal(alloc: Global, tokens: &[Token]) -> Result<Option<Expr>, Memory>
    ensures { IfOk result (λ e. e ≡ table.literal (spec.first_kind tokens.now)) }
{
    let [token, ..] = tokens else {
        return Ok(None);
    };
    match &token.kind {
        TokenKind::Number(value) => Ok(Some(Expr::Int(*value))),
        TokenKind::Text(text) => Ok(Some(Expr::Text(text.copy(alloc)?))),
        TokenKind::Name(name) => Ok(Some(Expr::Var(name.copy(alloc)?))),
        TokenKind::Word(Word::Nil) => Ok(Some(Expr::Nil)),
        TokenKind::Word(Word::True) => Ok(Some(Expr::True)),
        TokenKind::Word(Word::False) => Ok(Some(Expr::False)),
        _ => Ok(None),
    }
}

/// What the first token, which stands after a dot, makes of the expression before the dot.
fn step(alloc: Global, of: Expr, tokens: &[Token]) -> Result<Option<Expr>, Memory>
    ensures { IfOk result (λ e. e ≡ table.step_of of (spec.first_kind tokens.now)) }
{
    let [token, ..] = tokens else {
        return Ok(None);
    };
    match &token.kind {
        TokenKind::Name(name) => named(alloc, of, name.as_bytes()),
        TokenKind::Ask(query) => asked(alloc, of, *query),
        TokenKind::Word(Word::Id) => named(alloc, of, b"id"),
        TokenKind::Word(Word::UpdatedAt) => named(alloc, of, b"updated_at"),
        TokenKind::Word(Word::Size) => asked(alloc, of, Query::Size),
        _ => Ok(None),
    }
}

fn named(alloc: Global, of: Expr, name: &[u8]) -> Result<Option<Expr>, Memory>
    ensures { IfOk result (λ e. e ≡ Some (Expr.Step of name.now)) }
{
    let of = Boxed::new(alloc, of)?;
    Ok(Some(Expr::Step(of, Name::from_bytes(alloc, name)?)))
}

fn asked(alloc: Global, of: Expr, query: Query) -> Result<Option<Expr>, Memory>
    ensures { IfOk result (λ e. e ≡ Some (Expr.Ask of query)) }
{
    let of = Boxed::new(alloc, of)?;
    Ok(Some(Expr::Ask(of, query)))
}

/// The place of the first token, 0 where there is none.
pub fn place(tokens: &[Token]) -> u32
    ensures { result ≡ spec.place tokens.now }
{
    match tokens {
        [] => 0,
        [token, ..] => token.at,
    }
}

/// The tokens behind the first.
pub fn rest_of(tokens: &[Token]) -> &[Token]
    ensures { result.now ≡ drop 1 tokens.now }
{
    match tokens {
        [] => tokens,
        [_, rest @ ..] => rest,
    }
}

fn operator(level: Level, tokens: &[Token]) -> Option<Op>
    ensures { result ≡ table.operator_of level (spec.first_kind tokens.now) }
{
    let [token, ..] = tokens else {
        return None;
    };
    match &token.kind {
        TokenKind::Mark(mark) => operator_of(level, *mark),
        _ => None,
    }
}

fn sign(tokens: &[Token]) -> Option<Sign>
    ensures { result ≡ table.sign_of (spec.first_kind tokens.now) }
{
    let [token, ..] = tokens else {
        return None;
    };
    match &token.kind {
        TokenKind::Mark(Mark::Not) => Some(Sign::Not),
        TokenKind::Mark(Mark::Minus) => Some(Sign::Minus),
        _ => None,
    }
}

/// Whether the first token is this mark.
pub fn is_mark(mark: Mark, tokens: &[Token]) -> bool
    ensures { result ≡ is_mark mark (spec.first_kind tokens.now) }
{
    let [token, ..] = tokens else {
        return false;
    };
    match &token.kind {
        TokenKind::Mark(other) => *other == mark,
        _ => false,
    }
}

/// Whether the first token is this word.
pub fn is_word(word: Word, tokens: &[Token]) -> bool
    ensures { result ≡ is_word word (spec.first_kind tokens.now) }
{
    let [token, ..] = tokens else {
        return false;
    };
    match &token.kind {
        TokenKind::Word(other) => *other == word,
        _ => false,
    }
}

/// Whether the end is all that is left.
pub fn is_end(tokens: &[Token]) -> bool
    ensures { result ≡ (spec.is_end (spec.first_kind tokens.now) && length tokens.now == 1) }
{
    let [token] = tokens else {
        return false;
    };
    matches!(&token.kind, TokenKind::End)
}

fn has_step(tokens: &[Token]) -> bool
    ensures { result ≡ spec.has_step tokens.now }
{
    if !is_mark(Mark::Dot, tokens) {
        return false;
    }
    !is_word(Word::Each, rest_of(tokens))
}
