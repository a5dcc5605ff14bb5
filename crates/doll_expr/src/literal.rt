//! Numbers and texts as they are written.

ghost use Rattle.std.specs.Prelude.{◌≡◌, ◌≢◌, slice_index, false, ◌+◌, ◌<◌, ◌^◌, pos, nat_lt, length, Some, None, IfOk, IfSome, if◌then◌else◌};
ghost use Rattle.doll_text.specs.Gives.{Gives};
ghost use Rattle.doll_expr.specs.Tokens as spec;

use crate::expr::ExprFault;
use crate::signs::{
    BACKSLASH, DOUBLE_QUOTE, HASH, LETTER_N, LETTER_T, NEW_LINE, OPEN_BRACE, SINGLE_QUOTE, TAB,
};
use doll_text::{Memory, Text};
use std::alloc::Global;

/// The number that decimal digits say, if 64 bits with a sign have room for it.
pub fn decimal(digits: &[u8]) -> Option<i64>
    ensures { result ≡ (if nat_lt (spec.decimal digits.now) (2 ^ 63) then Some (pos (spec.decimal digits.now)) else None) }
{
    const MOST_TENS: u64 = 922_337_203_685_477_580;
    let mut value: u64 = 0;
    let mut rest = digits;
    while let [digit, more @ ..] = rest {
        if value > MOST_TENS {
            return None;
        }
        value = 10 * value + u64::from(digit.saturating_sub(b'0'));
        if value > 9_223_372_036_854_775_807 {
            return None;
        }
        rest = more;
    }
    Some(value as i64)
}

/// The place of the closing mark. A backslash takes the byte after it along.
#[tactic(auto, unfolding(crate::specs::Tokens::closing))]
pub fn closing(quote: u8, bytes: &[u8]) -> Option<usize>
    ensures value { result ≡ spec.closing quote false 0 bytes.now }
    ensures within { IfSome result (λ at. at < length bytes.now) }
{
    let mut is_taken = false;
    let mut at = 0;
    let mut rest = bytes;
    while let [byte, more @ ..] = rest {
        if !is_taken && *byte == quote {
            return Some(at);
        }
        is_taken = !is_taken && *byte == BACKSLASH;
        at += 1;
        rest = more;
    }
    None
}

/// The text between two marks, of which the first is at `at`.
#[tactic(auto, unfolding(crate::specs::Tokens::quoted))]
pub fn quoted(alloc: Global, quote: u8, at: u32, bytes: &[u8]) -> Result<Text, ExprFault>
    requires { at + length bytes.now + 1 < 2 ^ 32 }
    ensures { Gives ExprFault.Memory (spec.quoted quote at bytes.now) result }
{
    if quote == SINGLE_QUOTE {
        return Ok(single_quoted(alloc, bytes)?);
    }
    double_quoted(alloc, at + 1, bytes)
}

#[tactic(auto, unfolding(crate::specs::Tokens::single_quoted))]
fn single_quoted(alloc: Global, bytes: &[u8]) -> Result<Text, Memory>
    ensures { IfOk result (λ text. text ≡ spec.single_quoted false bytes.now) }
{
    let mut read = Vec::new(alloc);
    let mut is_escape = false;
    let mut rest = bytes;
    while let [byte, more @ ..] = rest {
        if is_escape {
            if !(*byte == BACKSLASH || *byte == SINGLE_QUOTE) {
                read.push(BACKSLASH)?;
            }
            read.push(*byte)?;
            is_escape = false;
        } else if *byte == BACKSLASH {
            is_escape = true;
        } else {
            read.push(*byte)?;
        }
        rest = more;
    }
    Ok(Text::from_vec(read))
}

fn escaped(byte: u8) -> Option<u8>
    ensures { result ≡ spec.escaped byte }
{
    match byte {
        BACKSLASH => Some(BACKSLASH),
        DOUBLE_QUOTE => Some(DOUBLE_QUOTE),
        LETTER_N => Some(NEW_LINE),
        LETTER_T => Some(TAB),
        _ => None,
    }
}

#[tactic(auto, unfolding(crate::specs::Tokens::double_quoted))]
fn double_quoted(alloc: Global, start: u32, bytes: &[u8]) -> Result<Text, ExprFault>
    requires { start + length bytes.now < 2 ^ 32 }
    ensures { Gives ExprFault.Memory (spec.double_quoted false start bytes.now) result }
{
    let mut read = Vec::new(alloc);
    let mut is_escape = false;
    let mut at = start;
    let mut rest = bytes;
    while let [byte, more @ ..] = rest {
        if is_escape {
            let Some(meant) = escaped(*byte) else {
                return Err(ExprFault::Unexpected {
                    at: at.saturating_sub(1),
                });
            };
            read.push(meant)?;
            is_escape = false;
        } else if *byte == BACKSLASH {
            is_escape = true;
        } else {
            if *byte == HASH && byte_at(more, 0) == OPEN_BRACE {
                return Err(ExprFault::Unexpected { at });
            }
            read.push(*byte)?;
        }
        at += 1;
        rest = more;
    }
    Ok(Text::from_vec(read))
}

/// The byte at a place, 0 past the end.
pub fn byte_at(bytes: &[u8], at: usize) -> u8
    ensures value { result ≡ slice_index bytes.now at }
    ensures within { result ≢ 0 → at < length bytes.now }
{
    if at < bytes.len() { bytes[at] } else { 0 }
}
