//! Cuts a text into tokens.

ghost use Rattle.std.specs.Prelude.{◌≡◌, ◌+◌, ◌<◌, ◌≤◌, true, false, length, slice_index, take, IfOk, IfSome};
ghost use Rattle.std.specs.Char.{is_ascii_digit};
ghost use Rattle.std.specs.List.{prefix_len};
ghost use Rattle.doll_text.specs.Gives.{Gives};
ghost use Rattle.doll_text.specs.Bytes.{is_word_byte};
ghost use Rattle.doll_expr.specs.Tokens as spec;

use crate::expr::{ExprFault, Query};
use crate::literal::{byte_at, closing, decimal, quoted};
use crate::signs::{AT_SIGN, DOUBLE_QUOTE, QUESTION_MARK, SINGLE_QUOTE};
use crate::token::{Mark, Token, TokenKind};
use doll_text::bytes::{ByteKind, is_lower, prefix_len};
use doll_text::words::{is_name, lookup, word_of};
use doll_text::{Items, Memory, Name};
use std::alloc::Global;

/// The most bytes of a text that is cut into tokens, and of a template.
pub const LONGEST_SOURCE: usize = 262_144;

/// How many tokens a text may have beside its end.
const MOST_TOKENS: u8 = 200;

const QUESTIONS: [(&[u8], Query); 3] = [
    (b"empty", Query::Empty),
    (b"any", Query::Any),
    (b"nil", Query::IsNil),
];

const MARKS: [(&[u8], Mark); 20] = [
    (b"==", Mark::Equal),
    (b"!=", Mark::NotEqual),
    (b"<=", Mark::LessOrEqual),
    (b">=", Mark::GreaterOrEqual),
    (b"&&", Mark::And),
    (b"||", Mark::Or),
    (b"(", Mark::Open),
    (b")", Mark::Close),
    (b".", Mark::Dot),
    (b"!", Mark::Not),
    (b"-", Mark::Minus),
    (b"+", Mark::Plus),
    (b"*", Mark::Times),
    (b"<", Mark::Less),
    (b">", Mark::Greater),
    (b",", Mark::Comma),
    (b":", Mark::Colon),
    (b"[", Mark::OpenBracket),
    (b"]", Mark::CloseBracket),
    (b"|", Mark::Bar),
];

/// The tokens of a text, at most 200, and at last its end or its first fault. Nothing after a fault is read.
pub fn tokens_of(alloc: Global, bytes: &[u8]) -> Result<Items<Token>, Memory>
    requires { length bytes.now ≤ LONGEST_SOURCE }
    ensures value { IfOk result (λ tokens. tokens ≡ spec.tokens_of bytes.now) }
    // They stand in order and apart, with white space alone between them, and the end at the text's length.
    ensures stand { IfOk result (λ tokens. spec.Stand bytes.now false 0 tokens) }
{
    cut(alloc, bytes)
}

fn cut(alloc: Global, bytes: &[u8]) -> Result<Items<Token>, Memory>
    requires { length bytes.now ≤ LONGEST_SOURCE }
    ensures { IfOk result (λ tokens. (tokens ≡ spec.tokens_of bytes.now) × spec.Stand bytes.now false 0 tokens) }
{
    let mut tokens = Items::new(alloc);
    let mut after_dot = false;
    let mut at: u32 = 0;
    let mut rest = bytes;
    let mut left = MOST_TOKENS;
    loop {
        let spaces = prefix_len(ByteKind::Space, rest);
        at += spaces as u32;
        let (_spaces, ahead) = rest.split_at(spaces);
        if ahead.is_empty() {
            tokens.push(Token {
                kind: TokenKind::End,
                at,
            })?;
            return Ok(tokens);
        }
        let (kind, len) = match front(alloc, after_dot, at, ahead) {
            Ok(found) => found,
            Err(ExprFault::Memory) => return Err(Memory),
            Err(fault) => {
                tokens.push(Token {
                    kind: TokenKind::Fault(fault),
                    at,
                })?;
                return Ok(tokens);
            }
        };
        if left == 0 {
            tokens.push(Token {
                kind: TokenKind::Fault(ExprFault::TooDeep { at }),
                at,
            })?;
            return Ok(tokens);
        }
        left -= 1;
        after_dot = is_dot(&kind);
        tokens.push(Token { kind, at })?;
        at += len as u32;
        let (_token, after) = ahead.split_at(len);
        rest = after;
    }
}

fn is_dot(kind: &TokenKind) -> bool
    ensures { result ≡ spec.is_dot kind.now }
{
    matches!(kind, TokenKind::Mark(Mark::Dot))
}

/// The token at the front, and how many bytes it takes.
#[tactic(auto, unfolding(crate::specs::Tokens::front))]
fn front(
    alloc: Global,
    after_dot: bool,
    at: u32,
    bytes: &[u8],
) -> Result<(TokenKind, usize), ExprFault>
    requires { at + length bytes.now ≤ LONGEST_SOURCE }
    ensures value { Gives ExprFault.Memory (spec.front after_dot at bytes.now) result }
    ensures within { IfOk result (λ found. (1 ≤ found.1) × (found.1 ≤ length bytes.now)) }
    ensures plain { IfOk result (λ found. spec.is_last found.0 ≡ false) }
{
    let first = byte_at(bytes, 0);
    if first.is_ascii_digit() {
        return number_at(at, bytes);
    }
    if is_lower(first) {
        return word_at(alloc, after_dot, at, bytes);
    }
    if first == AT_SIGN {
        let (_sign, rest) = bytes.split_at(1);
        return name_at(alloc, at, rest);
    }
    if first == DOUBLE_QUOTE || first == SINGLE_QUOTE {
        let (_quote, rest) = bytes.split_at(1);
        return text_at(alloc, first, at, rest);
    }
    mark_at(at, bytes)
}

#[tactic(auto, unfolding(crate::specs::Tokens::number_at))]
fn number_at(at: u32, bytes: &[u8]) -> Result<(TokenKind, usize), ExprFault>
    requires some { 0 < length bytes.now }
    requires digit { is_ascii_digit (slice_index bytes.now 0) ≡ true }
    ensures value { Gives ExprFault.Memory (spec.number_at at bytes.now) result }
    ensures within { IfOk result (λ found. (1 ≤ found.1) × (found.1 ≤ length bytes.now)) }
    ensures plain { IfOk result (λ found. spec.is_last found.0 ≡ false) }
{
    let (digits, _rest) = bytes.split_at(prefix_len(ByteKind::Digit, bytes));
    match decimal(digits) {
        Some(value) => Ok((TokenKind::Number(value), digits.len())),
        None => Err(ExprFault::NumberTooLarge { at }),
    }
}

fn question(after_dot: bool, word: &[u8], bytes: &[u8]) -> Option<Query>
    ensures value { result ≡ spec.question after_dot word.now bytes.now }
    ensures within { IfSome result (λ asked. length word.now < length bytes.now) }
{
    if after_dot && byte_at(bytes, word.len()) == QUESTION_MARK {
        lookup(&QUESTIONS, word)
    } else {
        None
    }
}

#[tactic(auto, unfolding(crate::specs::Tokens::word_at))]
fn word_at(
    alloc: Global,
    after_dot: bool,
    at: u32,
    bytes: &[u8],
) -> Result<(TokenKind, usize), ExprFault>
    requires some { 0 < length bytes.now }
    requires letter { is_word_byte (slice_index bytes.now 0) ≡ true }
    ensures value { Gives ExprFault.Memory (spec.word_at after_dot at bytes.now) result }
    ensures within { IfOk result (λ found. (1 ≤ found.1) × (found.1 ≤ length bytes.now)) }
    ensures plain { IfOk result (λ found. spec.is_last found.0 ≡ false) }
{
    let (word, _rest) = bytes.split_at(prefix_len(ByteKind::Word, bytes));
    if let Some(asked) = question(after_dot, word, bytes) {
        return Ok((TokenKind::Ask(asked), word.len() + 1));
    }
    if let Some(known) = word_of(word) {
        return Ok((TokenKind::Word(known), word.len()));
    }
    if !is_name(word) {
        return Err(ExprFault::Unexpected { at });
    }
    Ok((TokenKind::Name(Name::from_bytes(alloc, word)?), word.len()))
}

/// The name directly after an `@` that is at `at`.
#[tactic(auto, unfolding(crate::specs::Tokens::name_at))]
fn name_at(alloc: Global, at: u32, bytes: &[u8]) -> Result<(TokenKind, usize), ExprFault>
    ensures value { Gives ExprFault.Memory (spec.name_at at bytes.now) result }
    ensures within { IfOk result (λ found. (1 ≤ found.1) × (found.1 ≤ length bytes.now + 1)) }
    ensures plain { IfOk result (λ found. spec.is_last found.0 ≡ false) }
{
    let (word, _rest) = bytes.split_at(prefix_len(ByteKind::Word, bytes));
    if !is_name(word) {
        return Err(ExprFault::Unexpected { at });
    }
    Ok((
        TokenKind::Name(Name::from_bytes(alloc, word)?),
        word.len() + 1,
    ))
}

/// The text whose opening mark is at `at`, from the bytes after that mark.
#[tactic(auto, unfolding(crate::specs::Tokens::text_at))]
fn text_at(alloc: Global, quote: u8, at: u32, bytes: &[u8]) -> Result<(TokenKind, usize), ExprFault>
    requires { at + length bytes.now ≤ LONGEST_SOURCE }
    ensures value { Gives ExprFault.Memory (spec.text_at quote at bytes.now) result }
    ensures within { IfOk result (λ found. (1 ≤ found.1) × (found.1 ≤ length bytes.now + 1)) }
    ensures plain { IfOk result (λ found. spec.is_last found.0 ≡ false) }
{
    let Some(len) = closing(quote, bytes) else {
        return Err(ExprFault::Unclosed { at });
    };
    let (body, _rest) = bytes.split_at(len);
    let text = quoted(alloc, quote, at, body)?;
    Ok((TokenKind::Text(text), len + 2))
}

fn mark_at(at: u32, bytes: &[u8]) -> Result<(TokenKind, usize), ExprFault>
    ensures value { Gives ExprFault.Memory (spec.mark_from at (spec.mark_of bytes.now)) result }
    ensures within { IfOk result (λ found. (1 ≤ found.1) × (found.1 ≤ length bytes.now)) }
    ensures plain { IfOk result (λ found. spec.is_last found.0 ≡ false) }
{
    match mark_of(bytes) {
        Some((mark, len)) => Ok((TokenKind::Mark(mark), len)),
        None => Err(ExprFault::Unexpected { at }),
    }
}

/// The mark at the front, of two bytes before one of a single byte, and its length.
#[tactic(auto, unfolding(crate::specs::Tokens::mark_of))]
fn mark_of(bytes: &[u8]) -> Option<(Mark, usize)>
    ensures value { result ≡ spec.mark_of bytes.now }
    ensures within { IfSome result (λ found. (1 ≤ found.1) × (found.1 ≤ length bytes.now)) }
{
    if let Some(found) = mark_in(first_bytes(bytes, 2)) {
        return Some(found);
    }
    mark_in(first_bytes(bytes, 1))
}

/// At most so many bytes of the front.
fn first_bytes(bytes: &[u8], count: usize) -> &[u8]
    ensures value { result.now ≡ take count bytes.now }
    ensures within { length result.now ≤ length bytes.now }
{
    if bytes.len() <= count {
        return bytes;
    }
    let (front, _rest) = bytes.split_at(count);
    front
}

/// The mark that these bytes are, and their count.
#[tactic(auto, unfolding(crate::specs::Tokens::mark_in, crate::specs::Tokens::marks))]
fn mark_in(text: &[u8]) -> Option<(Mark, usize)>
    ensures value { result ≡ spec.mark_in text.now }
    ensures within { IfSome result (λ found. (1 ≤ found.1) × (found.1 ≤ length text.now)) }
{
    if text.is_empty() {
        return None;
    }
    match lookup(&MARKS, text) {
        Some(mark) => Some((mark, text.len())),
        None => None,
    }
}
