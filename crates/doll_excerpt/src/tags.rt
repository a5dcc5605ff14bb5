//! The tag of a template that a fault names, and the stretch of it that is underlined.

use crate::excerpt::{Stretch, bytes_of};
use crate::place::{behind, front};
use doll_erb::{Tag, cut};
use doll_expr::LONGEST_SOURCE;
use doll_text::bytes::is_word_byte;
use doll_text::{Memory, bytes};
use std::alloc::Global;

/// The bytes of a tag's closing mark.
const CLOSING: usize = 2;

/// The tag whose `<%` stands at a place, as the template is cut into pieces; none where it can't be cut.
pub fn tag_at(alloc: Global, source: &[u8], at: usize) -> Result<Option<Tag>, Memory> {
    if source.len() > LONGEST_SOURCE {
        return Ok(None);
    }
    let Ok(tags) = cut(alloc, source) else {
        return Ok(None);
    };
    for tag in tags.as_slice() {
        if tag.span.from as usize == at {
            return Ok(Some(*tag));
        }
    }
    Ok(None)
}

/// The stretch of a tag from its opening mark to its closing one.
fn whole_tag(tag: &Tag) -> Stretch {
    let trimmed = if tag.trim { 1 } else { 0 };
    Stretch {
        from: tag.span.from as usize,
        to: (tag.content.to as usize).saturating_add(CLOSING + trimmed),
    }
}

/// What is underlined of the tag at a place: what a fault carries, where that stands once in the tag, behind a point exactly
/// where it is a step, else the whole tag. What can't be cut is underlined at its first two bytes.
pub fn stretch_in(
    alloc: Global,
    source: &[u8],
    at: usize,
    carried: &[u8],
    is_step: bool,
) -> Result<Stretch, Memory> {
    let Some(tag) = tag_at(alloc, source, at)? else {
        return Ok(Stretch {
            from: at,
            to: at.saturating_add(2),
        });
    };
    let content = Stretch {
        from: tag.content.from as usize,
        to: tag.content.to as usize,
    };
    let Some(place) = only_place(bytes_of(source, content), carried) else {
        return Ok(whole_tag(&tag));
    };
    let from = content.from.saturating_add(place);
    if front(source, from).ends_with(b".") != is_step {
        return Ok(whole_tag(&tag));
    }
    Ok(Stretch {
        from,
        to: from.saturating_add(carried.len()),
    })
}

/// Where a text stands in bytes as whole words, where it does so once.
fn only_place(bytes: &[u8], text: &[u8]) -> Option<usize> {
    if text.is_empty() {
        return None;
    }
    let place = next_place(bytes, text, 0)?;
    match next_place(bytes, text, place.saturating_add(1)) {
        Some(_) => None,
        None => Some(place),
    }
}

/// Where a text next stands as whole words, from a place on.
fn next_place(bytes: &[u8], text: &[u8], from: usize) -> Option<usize> {
    for at in from..bytes.len() {
        if stands_at(bytes, text, at) {
            return Some(at);
        }
    }
    None
}

/// Whether a text stands at a place with no byte of a word before it and behind it.
fn stands_at(bytes: &[u8], text: &[u8], at: usize) -> bool {
    let rest = behind(bytes, at);
    if !rest.starts_with(text) {
        return false;
    }
    if ends_word(front(bytes, at)) {
        return false;
    }
    match behind(rest, text.len()) {
        [next, ..] => !is_word_byte(*next),
        [] => true,
    }
}

/// Whether the last byte is one of a word.
fn ends_word(bytes: &[u8]) -> bool {
    match bytes.last() {
        Some(byte) => is_word_byte(*byte),
        None => false,
    }
}

/// What is underlined at a place within a tag: a word, or one character.
pub fn token_at(source: &[u8], at: usize) -> Stretch {
    let rest = behind(source, at);
    let word = bytes::prefix_len(bytes::ByteKind::Word, rest);
    Stretch {
        from: at,
        to: at.saturating_add(word.max(1)),
    }
}
