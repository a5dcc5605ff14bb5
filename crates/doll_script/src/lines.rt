//! The order of a line.

ghost use Rattle.std.specs.Prelude.{◌≡◌, option_map, IfOk, IfSome};
ghost use Rattle.serde_json.specs.View.{view};
ghost use Rattle.doll_script.specs.Lines as spec;
ghost use Rattle.doll_script.specs.Storable.{MayBeMade};

use crate::numbers::{clock_in, number_in, session_in};
use crate::order::Order;
use crate::pieces::{behind, behind_word, is_path, word};
use doll_journal::changes_of;
use doll_text::{Memory, Text};
use serde_json::Value;
use std::alloc::Global;

/// The order that a line is, or None where it is none.
#[tactic(auto, unfolding(crate::specs::Lines::order_in))]
pub fn order_in(alloc: Global, line: &[u8]) -> Result<Option<Order>, Memory>
    ensures exact { IfOk result (λ order. order ≡ spec.order_in line.now) }
    ensures storable { IfOk result (λ order. IfSome order MayBeMade) }
{
    if let Some(rest) = behind("now ", line) {
        return Ok(now_in(rest));
    }
    if let Some(rest) = behind("commit ", line) {
        return commit_in(alloc, rest);
    }
    if let Some(rest) = behind("open ", line) {
        return open_in(alloc, rest);
    }
    if let Some(rest) = behind("turn ", line) {
        return Ok(turn_in(rest));
    }
    if let Some(rest) = behind("run ", line) {
        return Ok(run_in(rest));
    }
    if let Some(rest) = behind("get ", line) {
        return get_in(alloc, rest);
    }
    Ok(expire_in(line))
}

fn now_in(text: &[u8]) -> Option<Order>
    ensures exact { result ≡ spec.now_in text.now }
    ensures storable { IfSome result MayBeMade }
{
    let now = clock_in(text)?;
    Some(Order::Now { now })
}

fn turn_in(text: &[u8]) -> Option<Order>
    ensures exact { result ≡ spec.turn_in text.now }
    ensures storable { IfSome result MayBeMade }
{
    let session = session_in(text)?;
    Some(Order::Turn { session })
}

fn run_in(text: &[u8]) -> Option<Order>
    ensures exact { result ≡ spec.run_in text.now }
    ensures storable { IfSome result MayBeMade }
{
    let session = session_in(text)?;
    Some(Order::Run { session })
}

fn expire_in(line: &[u8]) -> Option<Order>
    ensures exact { result ≡ spec.expire_in line.now }
    ensures storable { IfSome result MayBeMade }
{
    if line == "expire".as_bytes() {
        Some(Order::Expire)
    } else {
        None
    }
}

fn get_in(alloc: Global, text: &[u8]) -> Result<Option<Order>, Memory>
    ensures exact { IfOk result (λ order. order ≡ spec.get_in text.now) }
    ensures storable { IfOk result (λ order. IfSome order MayBeMade) }
{
    if !is_path(text) {
        return Ok(None);
    }
    let target = Text::from_bytes(alloc, text)?;
    Ok(Some(Order::Get { target }))
}

/// A session and a path, behind which may stand what its visitor has seen.
fn open_in(alloc: Global, text: &[u8]) -> Result<Option<Order>, Memory>
    ensures exact { IfOk result (λ order. order ≡ spec.open_in text.now) }
    ensures storable { IfOk result (λ order. IfSome order MayBeMade) }
{
    let Some(session) = session_in(word(text)) else {
        return Ok(None);
    };
    let Some(rest) = behind_word(text) else {
        return Ok(None);
    };
    if !is_path(word(rest)) {
        return Ok(None);
    }
    let Some(seen) = seen_behind(behind_word(rest)) else {
        return Ok(None);
    };
    let target = Text::from_bytes(alloc, word(rest))?;
    Ok(Some(Order::Open {
        session,
        target,
        seen,
    }))
}

/// The moment that the text behind a path tells, 0 where there is none.
fn seen_behind(text: Option<&[u8]>) -> Option<u64>
    ensures { result ≡ spec.seen_behind (option_map (λ t. t.now) text.entry) }
{
    let Some(text) = text else {
        return Some(0);
    };
    number_in(behind("seen ", text)?)
}

fn commit_in(alloc: Global, text: &[u8]) -> Result<Option<Order>, Memory>
    ensures exact { IfOk result (λ order. order ≡ spec.commit_in text.now) }
    ensures storable { IfOk result (λ order. IfSome order MayBeMade) }
{
    let Some(json) = json_of(alloc, text)? else {
        return Ok(None);
    };
    let Some(changes) = changes_of(alloc, &json)? else {
        return Ok(None);
    };
    Ok(Some(Order::Commit { changes }))
}

/// The JSON value that bytes are, with white space before and behind it or without: none where they are no UTF-8 or no JSON.
fn json_of(alloc: Global, bytes: &[u8]) -> Result<Option<Value>, Memory>
    ensures { IfOk result (λ json. option_map view json ≡ spec.json_of bytes.now) }
{
    match Value::from_slice(alloc, bytes) {
        Ok(json) => Ok(Some(json)),
        Err(error) => {
            if error.is_memory() {
                Err(Memory)
            } else {
                Ok(None)
            }
        }
    }
}
