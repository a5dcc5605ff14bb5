//! Reading the text of a key.

ghost use Rattle.std.specs.Prelude.{◌≢◌, ◌<◌, ◌≤◌, ◌^◌, ◌∷◌, length, option_map, slice_index, IfOk, IfSome};
ghost use Rattle.std.specs.Fmt.{decimal, signed_decimal};
ghost use Rattle.std.specs.Int.Signed.{mag};
ghost use Rattle.doll_digest.specs.Framing.{IsDigest};
ghost use Rattle.doll_key.specs.Components.{components_text, id_text, value_text};
ghost use Rattle.doll_key.specs.Keys.{key_text as text_of};
ghost use Rattle.doll_key.specs.Reading.{ReadsAs, Finds, FindsText, IsCut, IsFirst, IsHead, AreComponents, digest_text, first_text, head_text, path_text};
ghost use Rattle.doll_key.specs.Uniqueness.{IsId, IsKey, IsValue};

use crate::components::{COLON, Component, Components, EQUALS, QUOTE};
use crate::parts::{KeyParts, key_text};
use doll_digest::Digest;
use doll_schema::Value;
use doll_text::{ByteKind, Items, Memory, Name, SLASH, Text, is_name, is_virtual_path, prefix_len};
use hex::FromHex;
use percent_encoding::percent_decode;
use std::alloc::Global;
use std::str::from_utf8;

/// What each key begins with.
const FOLDER: &[u8] = b"views/";

/// What stands in the place of an id where there is none, and the value nil.
const NIL: &[u8] = b"nil";

/// How many hexadecimal digits a digest has.
const DIGITS: usize = 32;

/// The key whose text this is, or none where no key has it.
pub fn read_key(alloc: Global, text: &[u8]) -> Result<Option<KeyParts>, Memory>
    ensures { IfOk result (λ found. ReadsAs text.now found) }
{
    let Some(parts) = key_in(alloc, text)? else {
        return Ok(None);
    };
    let spelled = key_text(alloc, &parts)?;
    if spelled.as_bytes() != text {
        return Ok(None);
    }
    Ok(Some(parts))
}

/// The only key that may have this text.
fn key_in(alloc: Global, text: &[u8]) -> Result<Option<KeyParts>, Memory>
    ensures { IfOk result (λ found. Finds IsKey text_of text.now found) }
{
    let Some(head) = head_in(text) else {
        return Ok(None);
    };
    let Some(components) = components_in(alloc, head.2)? else {
        return Ok(None);
    };
    let path = Name::from_bytes(alloc, head.0)?;
    Ok(Some(KeyParts {
        path,
        digest: head.1,
        components,
    }))
}

/// The only path and digest with which a key's text may begin, and what stands behind them.
fn head_in(text: &[u8]) -> Option<(&[u8], Digest, &[u8])>
    ensures { Finds IsHead head_text text.now (option_map (λ x. (x.0.now, x.1, x.2.now)) result) }
{
    if text.len() < FOLDER.len() {
        return None;
    }
    let (folder, rest) = text.split_at(FOLDER.len());
    if folder != FOLDER {
        return None;
    }
    path_in(rest)
}

/// The only path and digest that may stand behind the folder, and what stands behind them.
fn path_in(text: &[u8]) -> Option<(&[u8], Digest, &[u8])>
    ensures { Finds IsHead path_text text.now (option_map (λ x. (x.0.now, x.1, x.2.now)) result) }
{
    let (path, rest) = cut(COLON, text);
    let [_colon, behind @ ..] = rest else {
        return None;
    };
    if !is_virtual_path(path) {
        return None;
    }
    let Some(found) = digest_in(behind) else {
        return None;
    };
    Some((path, found.0, found.1))
}

/// The only digest with whose digits a text may begin, and what stands behind them.
fn digest_in(text: &[u8]) -> Option<(Digest, &[u8])>
    ensures { Finds (λ x. IsDigest x.0) digest_text text.now
        (option_map (λ x. (x.0, x.1.now)) result) }
{
    if text.len() < DIGITS {
        return None;
    }
    let (digits, rest) = text.split_at(DIGITS);
    let Ok(digest) = <[u8; 16] as FromHex>::from_hex(digits) else {
        return None;
    };
    Some((Digest::from_bytes(digest), rest))
}

/// The only components that may have this text, each behind a slash.
fn components_in(alloc: Global, text: &[u8]) -> Result<Option<Components>, Memory>
    ensures { IfOk result (λ found. Finds AreComponents components_text text.now found) }
{
    let mut components = Items::new(alloc);
    let mut rest = text;
    while let [slash, behind @ ..] = rest {
        if *slash != SLASH {
            return Ok(None);
        }
        let Some(first) = component_in(alloc, behind)? else {
            return Ok(None);
        };
        components.push(first.0)?;
        rest = first.1;
    }
    Ok(Some(components))
}

/// The only component with which a text may begin, and what stands behind it.
fn component_in(alloc: Global, text: &[u8]) -> Result<Option<(Component, &[u8])>, Memory>
    ensures first { IfOk result (λ found. Finds IsFirst first_text text.now
        (option_map (λ x. (x.0, x.1.now)) found)) }
    ensures shorter { IfOk result (λ found. IfSome found (λ x. length x.1.now ≤ length text.now)) }
{
    let [mark, behind @ ..] = text else {
        return Ok(None);
    };
    if *mark == COLON {
        return literal_in(alloc, behind);
    }
    if *mark == EQUALS {
        return scalar_in(alloc, behind);
    }
    record_in(alloc, text)
}

/// The only literal with which a text behind a colon may begin, and what stands behind it.
fn literal_in(alloc: Global, text: &[u8]) -> Result<Option<(Component, &[u8])>, Memory>
    ensures first { IfOk result (λ found. Finds IsFirst first_text (COLON ∷ text.now)
        (option_map (λ x. (x.0, x.1.now)) found)) }
    ensures shorter { IfOk result (λ found. IfSome found (λ x. length x.1.now ≤ length text.now)) }
{
    let (escaped, rest) = cut(SLASH, text);
    let text = text_in(alloc, escaped)?;
    Ok(Some((Component::Literal(text), rest)))
}

/// The only value with which a text behind an equals sign may begin, and what stands behind it.
fn scalar_in(alloc: Global, text: &[u8]) -> Result<Option<(Component, &[u8])>, Memory>
    ensures first { IfOk result (λ found. Finds IsFirst first_text (EQUALS ∷ text.now)
        (option_map (λ x. (x.0, x.1.now)) found)) }
    ensures shorter { IfOk result (λ found. IfSome found (λ x. length x.1.now ≤ length text.now)) }
{
    let (front, rest) = cut(SLASH, text);
    let Some(value) = value_in(alloc, front)? else {
        return Ok(None);
    };
    Ok(Some((Component::Scalar(value), rest)))
}

/// The only record with which a text may begin that neither a colon nor an equals sign begins, and what stands behind it.
fn record_in(alloc: Global, text: &[u8]) -> Result<Option<(Component, &[u8])>, Memory>
    requires colon { slice_index text.now 0 ≢ COLON }
    requires equals { slice_index text.now 0 ≢ EQUALS }
    ensures first { IfOk result (λ found. Finds IsFirst first_text text.now
        (option_map (λ x. (x.0, x.1.now)) found)) }
    ensures shorter { IfOk result (λ found. IfSome found (λ x. length x.1.now ≤ length text.now)) }
{
    let (plural, behind) = cut(SLASH, text);
    if !is_name(plural) {
        return Ok(None);
    }
    let [_slash, after @ ..] = behind else {
        return Ok(None);
    };
    let (digits, rest) = cut(SLASH, after);
    let Some(id) = id_in(digits) else {
        return Ok(None);
    };
    let plural = Name::from_bytes(alloc, plural)?;
    Ok(Some((Component::Record { plural, id }, rest)))
}

/// The only id that may have this text, or nil.
fn id_in(text: &[u8]) -> Option<Option<u32>>
    ensures { Finds IsId id_text text.now result }
{
    if text == NIL {
        return Some(None);
    }
    let id = id_number_in(text)?;
    Some(Some(id))
}

/// The only id that may have this text.
fn id_number_in(text: &[u8]) -> Option<u32>
    ensures { Finds (λ n. n < 2 ^ 32) decimal text.now result }
{
    let Ok(digits) = from_utf8(text) else {
        return None;
    };
    digits.parse::<u32>().ok()
}

/// The only value that may have this text.
fn value_in(alloc: Global, text: &[u8]) -> Result<Option<Value>, Memory>
    ensures { IfOk result (λ found. Finds IsValue value_text text.now found) }
{
    let [mark, behind @ ..] = text else {
        return Ok(None);
    };
    if *mark == QUOTE {
        return Ok(Some(Value::Text(text_in(alloc, behind)?)));
    }
    Ok(plain_value_in(text))
}

/// The only value but a text that may have this text, which no quote begins.
fn plain_value_in(text: &[u8]) -> Option<Value>
    requires { slice_index text.now 0 ≢ QUOTE }
    ensures { Finds IsValue value_text text.now result }
{
    if text == NIL {
        return Some(Value::Nil);
    }
    if text == b"true".as_slice() {
        return Some(Value::Bool(true));
    }
    if text == b"false".as_slice() {
        return Some(Value::Bool(false));
    }
    let number = integer_in(text)?;
    Some(Value::Int(number))
}

/// The only whole number of 64 bits that may have this text.
fn integer_in(text: &[u8]) -> Option<i64>
    ensures { Finds (λ z. mag z < 2 ^ 63) signed_decimal text.now result }
{
    let Ok(digits) = from_utf8(text) else {
        return None;
    };
    digits.parse::<i64>().ok()
}

/// The only text that may be escaped as this one.
fn text_in(alloc: Global, escaped: &[u8]) -> Result<Text, Memory>
    ensures { IfOk result (λ text. FindsText escaped.now text) }
{
    let mut bytes = Vec::new(alloc);
    percent_decode(escaped).append_to(&mut bytes)?;
    Ok(Text::from_vec(bytes))
}

/// A text up to the first such byte, and from there on.
fn cut(stop: u8, text: &[u8]) -> (&[u8], &[u8])
    ensures { IsCut stop text.now result.0.now result.1.now }
{
    text.split_at(prefix_len(ByteKind::Other(stop), text))
}
