//! What is wrong with a line of a script that is no order, explained.

use crate::reading::{is_order, rest_of, text_in, word_at};
use crate::words::{
    FORMS, ORDERS, Words, blank_words, change_words, empty_words, json_words, list_words,
    lost_words, much_words, no_changes_words, number_words, order_words, seen_words, session_words,
    slash_words, zero_words,
};
use doll_excerpt::{NumberedLine, Paper, Stretch, byte_at, put_quoted, token_at};
use doll_text::Memory;
use doll_text::bytes::{ByteKind, prefix_len};
use serde_json::Value;
use std::alloc::Global;

/// How many letters a word has in common with that of an order which it comes near to.
const LEAST_COMMON: usize = 2;

/// What stands behind the word of an order.
#[derive(Clone, Copy, PartialEq, Eq)]
pub(crate) enum OrderPart {
    /// A time in microseconds.
    Time,
    /// The number of a session.
    Session,
    /// The path of a page.
    Path,
    /// The word `seen`.
    Seen,
}

/// Appends why a line is no order.
pub(crate) fn put_no_order(
    alloc: Global,
    paper: &mut Paper,
    line: NumberedLine<'_>,
) -> Result<(), Memory> {
    let first = word_at(line.text, 0);
    let word = text_in(line.text, first);
    if word == "commit".as_bytes() {
        return put_commit(alloc, paper, line);
    }
    match parts_behind(word) {
        Some(parts) => put_parts(alloc, paper, line, parts),
        None => put_unknown(alloc, paper, line, first),
    }
}

/// What stands behind the word of an order other than `commit`, as far as it may, none where a word is no such.
fn parts_behind(word: &[u8]) -> Option<&'static [OrderPart]> {
    if word == "now".as_bytes() {
        return Some(&[OrderPart::Time]);
    }
    if word == "open".as_bytes() {
        return Some(&[
            OrderPart::Session,
            OrderPart::Path,
            OrderPart::Seen,
            OrderPart::Time,
        ]);
    }
    if word == "turn".as_bytes() || word == "run".as_bytes() {
        return Some(&[OrderPart::Session]);
    }
    if word == "get".as_bytes() {
        return Some(&[OrderPart::Path]);
    }
    if word == "expire".as_bytes() {
        return Some(&[]);
    }
    None
}

/// Appends what is wrong: its place, the text that is wrong where it is named, the line with a stretch underlined, what to write
/// instead, and the forms of orders.
fn put_told(
    alloc: Global,
    paper: &mut Paper,
    line: NumberedLine<'_>,
    stretch: Stretch,
    named: &[u8],
    words: Words,
) -> Result<(), Memory> {
    line.put_place(paper, stretch.from)?;
    paper.put(": ")?;
    if !named.is_empty() {
        put_quoted(paper, named)?;
        paper.put(" ")?;
    }
    paper.put(words.wrong)?;
    paper.put("\n")?;
    line.put_stretch(alloc, paper, stretch)?;
    paper.put(words.instead)?;
    put_near(paper, line.text)?;
    paper.put(ORDERS)
}

/// Appends the form of order that a line comes near to, where it does to one.
fn put_near(paper: &mut Paper, line: &[u8]) -> Result<(), Memory> {
    let Some(form) = nearest(text_in(line, word_at(line, 0))) else {
        return Ok(());
    };
    paper.put("\nThe nearest order is `")?;
    paper.put(form)?;
    paper.put("`.")
}

/// The first of the forms whose word has the most letters in common with the front of a word, of either case.
fn nearest(word: &[u8]) -> Option<&'static str> {
    let mut best = None;
    let mut most = LEAST_COMMON - 1;
    for (other, form) in FORMS {
        let common = common_letters(other.as_bytes(), word);
        if common > most {
            best = Some(form);
            most = common;
        }
    }
    best
}

/// How many letters a word in lower case has in common with the front of another one, of either case.
fn common_letters(word: &[u8], other: &[u8]) -> usize {
    for (at, letter) in word.iter().enumerate() {
        match other.get(at) {
            Some(found) if found.to_ascii_lowercase() == *letter => {}
            _ => return at,
        }
    }
    word.len()
}

/// Appends that a line begins with no order's word.
fn put_unknown(
    alloc: Global,
    paper: &mut Paper,
    line: NumberedLine<'_>,
    first: Stretch,
) -> Result<(), Memory> {
    if line.text.is_empty() {
        return put_told(alloc, paper, line, first, &[], empty_words());
    }
    if first.to == 0 {
        let blank = Stretch { from: 0, to: 1 };
        return put_told(alloc, paper, line, blank, &[], blank_words());
    }
    let word = text_in(line.text, first);
    put_told(alloc, paper, line, first, word, order_words())
}

/// Appends which of the parts behind an order's word is the first that isn't as it must be, or that there is more behind them.
fn put_parts(
    alloc: Global,
    paper: &mut Paper,
    line: NumberedLine<'_>,
    parts: &[OrderPart],
) -> Result<(), Memory> {
    let mut end = word_at(line.text, 0).to;
    for part in parts {
        let stretch = word_at(line.text, end.saturating_add(1));
        if !fits(alloc, *part, text_in(line.text, stretch))? {
            return put_part(alloc, paper, line, *part, end, stretch);
        }
        end = stretch.to;
    }
    let stretch = Stretch {
        from: end.saturating_add(1),
        to: line.text.len(),
    };
    let more = text_in(line.text, stretch);
    if more.is_empty() || more.starts_with(b" ") {
        return put_blank(alloc, paper, line, end);
    }
    put_told(alloc, paper, line, stretch, more, much_words())
}

/// Whether a word may stand as a part of an order.
fn fits(alloc: Global, part: OrderPart, word: &[u8]) -> Result<bool, Memory> {
    match part {
        OrderPart::Time => is_order(alloc, &[b"now ", word]),
        OrderPart::Session => is_order(alloc, &[b"turn ", word]),
        OrderPart::Path => is_order(alloc, &[b"get ", word]),
        OrderPart::Seen => Ok(word == "seen".as_bytes()),
    }
}

/// Appends why a word may not stand as a part of an order, or that none stands there.
fn put_part(
    alloc: Global,
    paper: &mut Paper,
    line: NumberedLine<'_>,
    part: OrderPart,
    end: usize,
    stretch: Stretch,
) -> Result<(), Memory> {
    let word = text_in(line.text, stretch);
    if !word.is_empty() {
        return put_told(alloc, paper, line, stretch, word, unfit_words(part, word));
    }
    if stretch.from < line.text.len() {
        return put_blank(alloc, paper, line, stretch.from);
    }
    if part == OrderPart::Seen {
        return put_blank(alloc, paper, line, end);
    }
    put_lost(alloc, paper, line, lost_words(part))
}

/// Appends that a space is one too many.
fn put_blank(
    alloc: Global,
    paper: &mut Paper,
    line: NumberedLine<'_>,
    at: usize,
) -> Result<(), Memory> {
    let stretch = Stretch {
        from: at,
        to: at.saturating_add(1),
    };
    put_told(alloc, paper, line, stretch, &[], blank_words())
}

/// Appends that a line ends before its order does.
fn put_lost(
    alloc: Global,
    paper: &mut Paper,
    line: NumberedLine<'_>,
    words: Words,
) -> Result<(), Memory> {
    let end = line.text.len();
    let stretch = Stretch { from: end, to: end };
    put_told(alloc, paper, line, stretch, &[], words)
}

/// Why a word may not stand as a part of an order.
fn unfit_words(part: OrderPart, word: &[u8]) -> Words {
    match part {
        OrderPart::Path => slash_words(),
        OrderPart::Seen => seen_words(),
        OrderPart::Time | OrderPart::Session => {
            let digits = prefix_len(ByteKind::Digit, word) == word.len();
            if digits && word.len() > 1 && word.starts_with(b"0") {
                return zero_words();
            }
            if part == OrderPart::Session {
                session_words()
            } else {
                number_words(digits)
            }
        }
    }
}

/// Appends why what stands behind `commit` are no changes.
fn put_commit(alloc: Global, paper: &mut Paper, line: NumberedLine<'_>) -> Result<(), Memory> {
    let start = word_at(line.text, 0).to.saturating_add(1);
    let stretch = Stretch {
        from: start,
        to: line.text.len(),
    };
    let text = rest_of(line.text, start);
    if prefix_len(ByteKind::Space, text) == text.len() {
        return put_lost(alloc, paper, line, no_changes_words());
    }
    match Value::from_slice(alloc, text) {
        Ok(json) => put_changes(alloc, paper, line, stretch, &json),
        Err(error) => {
            if error.is_memory() {
                return Err(Memory);
            }
            let at = start.saturating_add(byte_at(text, error.line(), error.column()));
            let token = token_at(line.text, at);
            put_told(alloc, paper, line, token, &[], json_words())
        }
    }
}

/// Appends which item of a JSON value is no change, or that it is no array.
fn put_changes(
    alloc: Global,
    paper: &mut Paper,
    line: NumberedLine<'_>,
    stretch: Stretch,
    json: &Value,
) -> Result<(), Memory> {
    let Some(items) = json.as_array() else {
        return put_told(alloc, paper, line, stretch, &[], list_words());
    };
    for item in items.as_slice() {
        let text = item.to_vec(alloc)?;
        if !is_order(alloc, &[b"commit [", text.as_slice(), b"]"])? {
            let found = item_in(line.text, stretch, text.as_slice());
            return put_told(alloc, paper, line, found, text.as_slice(), change_words());
        }
    }
    Err(Memory)
}

/// Where an item stands in a stretch of a line, where it does so once as it is written without spaces, else the whole stretch.
fn item_in(line: &[u8], stretch: Stretch, item: &[u8]) -> Stretch {
    let mut found = None;
    for from in stretch.from..stretch.to {
        if rest_of(line, from).starts_with(item) {
            if found.is_some() {
                return stretch;
            }
            found = Some(from);
        }
    }
    match found {
        Some(from) => Stretch {
            from,
            to: from.saturating_add(item.len()),
        },
        None => stretch,
    }
}
