//! Scripts that aren't of their form, or go wrong at a line, explained.

use crate::orders::put_no_order;
use crate::reading::{read_line, session_of, word_at};
use crate::schema::{put_index, put_said};
use crate::words::{Words, closed_words, line_words, open_words, script_words};
use doll_excerpt::{NumberedLine, Paper, Stretch};
use doll_script::{Order, Script};
use doll_text::Memory;
use serde_json::Value;
use std::alloc::Global;

/// Appends what isn't of a script's form: the first item that is no text, or the whole.
pub(crate) fn put_script(paper: &mut Paper, script: Option<&Value>) -> Result<(), Memory> {
    paper.put("script")?;
    let Some(script) = script else {
        return Err(Memory);
    };
    let Some(items) = script.as_array() else {
        return put_said(paper, None, script_words());
    };
    for (number, item) in items.as_slice().iter().enumerate() {
        if item.as_str().is_none() {
            put_index(paper, number as u64)?;
            return put_said(paper, None, line_words());
        }
    }
    Err(Memory)
}

/// Appends what is wrong at the line with a number, from 1: it is no order, or its session isn't open, or is open already.
pub(crate) fn put_refused(
    alloc: Global,
    paper: &mut Paper,
    script: Option<&Value>,
    number: u32,
) -> Result<(), Memory> {
    let items = items_of(script);
    let before = (number as usize).saturating_sub(1);
    let (earlier, rest) = items.split_at(before.min(items.len()));
    let [item, ..] = rest else {
        return Err(Memory);
    };
    let line = NumberedLine {
        number: u64::from(number),
        text: text_of(item),
    };
    paper.put("script")?;
    match read_line(alloc, line.text)? {
        Some(script) => put_session(alloc, paper, earlier, line, &script),
        None => put_no_order(alloc, paper, line),
    }
}

/// The items of a script.
fn items_of(script: Option<&Value>) -> &[Value] {
    let Some(script) = script else {
        return &[];
    };
    match script.as_array() {
        Some(items) => items.as_slice(),
        None => &[],
    }
}

/// The bytes of an item.
fn text_of(item: &Value) -> &[u8] {
    match item.as_str() {
        Some(text) => text.as_bytes(),
        None => &[],
    }
}

/// Appends that the session of an order isn't open, or is open already, with the last line before it that is about the same one.
fn put_session(
    alloc: Global,
    paper: &mut Paper,
    earlier: &[Value],
    line: NumberedLine<'_>,
    script: &Script,
) -> Result<(), Memory> {
    let Some(session) = session_of(script) else {
        return Err(Memory);
    };
    let words = words_of(script);
    let stretch = second_word(line.text);
    line.put_place(paper, stretch.from)?;
    paper.put(": ")?;
    paper.put(words.wrong)?;
    paper.put("\n")?;
    if let Some(other) = last_about(alloc, earlier, session)? {
        other.put_line(paper, 0)?;
    }
    line.put_stretch(alloc, paper, stretch)?;
    paper.put(words.instead)
}

/// What is said of the session of an order that isn't as it must be.
fn words_of(script: &Script) -> Words {
    match script.lines.as_slice() {
        [Order::Open { .. }] => open_words(),
        _ => closed_words(),
    }
}

/// The stretch of a line's second word.
fn second_word(line: &[u8]) -> Stretch {
    let first = word_at(line, 0);
    word_at(line, first.to.saturating_add(1))
}

/// The last of a script's first lines that is about a session.
fn last_about(
    alloc: Global,
    lines: &[Value],
    session: u32,
) -> Result<Option<NumberedLine<'_>>, Memory> {
    let mut last = None;
    for (number, item) in lines.iter().enumerate() {
        let text = text_of(item);
        if is_about(alloc, text, session)? {
            last = Some(NumberedLine {
                number: (number as u64).saturating_add(1),
                text,
            });
        }
    }
    Ok(last)
}

/// Whether a line is an order about a session.
fn is_about(alloc: Global, line: &[u8], session: u32) -> Result<bool, Memory> {
    match read_line(alloc, line)? {
        Some(script) => Ok(session_of(&script) == Some(session)),
        None => Ok(false),
    }
}
