//! Lines and columns.

ghost use Rattle.std.specs.Prelude.{◌≡◌, ◌≤◌, drop, length, take};
ghost use Rattle.doll_excerpt.specs.Places as spec;

use doll_text::bytes::{ByteKind, prefix_len};

/// The first continuation byte of UTF-8.
const FIRST_CONTINUATION: u8 = 128;

/// The last one.
const LAST_CONTINUATION: u8 = 191;

/// A line and a column, both from 1; a column counts characters, not bytes.
#[derive(Clone, Copy, PartialEq, Eq)]
pub struct Place {
    pub line: usize,
    pub column: usize,
}

/// The line and the column of the byte with a number, from 0. Behind the end of the text it is the place of the end.
pub fn place_of(text: &[u8], at: usize) -> Place
    ensures { result ≡ spec.place_of text.now at }
{
    let before = front(text, at);
    Place {
        line: line_ends(before) + 1,
        column: characters(last_line(before)) + 1,
    }
}

/// The first bytes of a text, all where there are fewer.
pub(crate) fn front(text: &[u8], count: usize) -> &[u8]
    ensures value { result.now ≡ take count text.now }
{
    if count < text.len() {
        &text[..count]
    } else {
        text
    }
}

/// The bytes of a text behind the first ones, none where there are fewer.
pub(crate) fn behind(text: &[u8], count: usize) -> &[u8]
    ensures value { result.now ≡ drop count text.now }
{
    if count < text.len() {
        &text[count..]
    } else {
        &[]
    }
}

fn is_line_end(byte: u8) -> bool
    ensures { result ≡ spec.is_line_end byte }
{
    byte == b'\n'
}

/// Whether a character begins at a byte.
fn begins_character(byte: u8) -> bool
    ensures { result ≡ spec.begins_character byte }
{
    byte < FIRST_CONTINUATION || LAST_CONTINUATION < byte
}

/// How many bytes are line ends.
fn line_ends(bytes: &[u8]) -> usize
    ensures value { result ≡ spec.line_ends bytes.now }
    ensures within { result ≤ length bytes.now }
{
    let mut count = 0;
    let mut rest = bytes;
    while let [byte, more @ ..] = rest {
        if is_line_end(*byte) {
            count += 1;
        }
        rest = more;
    }
    count
}

/// How many characters are in bytes.
pub(crate) fn characters(bytes: &[u8]) -> usize
    ensures value { result ≡ spec.characters bytes.now }
    ensures within { result ≤ length bytes.now }
{
    let mut count = 0;
    let mut rest = bytes;
    while let [byte, more @ ..] = rest {
        if begins_character(*byte) {
            count += 1;
        }
        rest = more;
    }
    count
}

/// What stands behind the last line end, all where there is none.
#[tactic(auto, using(crate::proofs::Lines::all_are_left, crate::proofs::Lines::one_less))]
fn last_line(bytes: &[u8]) -> &[u8]
    ensures value { result.now ≡ spec.last_line bytes.now }
{
    let mut line = bytes;
    let mut rest = bytes;
    while let [byte, more @ ..] = rest {
        if is_line_end(*byte) {
            line = more;
        }
        rest = more;
    }
    line
}

/// The number of the byte with a line and a column, where both count from 1 and the column counts bytes, as errors of JSON do;
/// the text's length where no line has the number.
pub fn byte_at(text: &[u8], line: usize, column: usize) -> usize {
    let mut left = line;
    for (at, byte) in text.iter().enumerate() {
        if left <= 1 {
            return at.saturating_add(column.saturating_sub(1));
        }
        if is_line_end(*byte) {
            left -= 1;
        }
    }
    text.len()
}

/// The number of the first byte of the line in which a byte stands.
pub fn line_start(text: &[u8], at: usize) -> usize {
    let before = front(text, at);
    before.len().saturating_sub(last_line(before).len())
}

/// The line in which a byte stands, without its end.
pub(crate) fn line_around(text: &[u8], at: usize) -> &[u8] {
    let rest = behind(text, line_start(text, at));
    let line = front(rest, prefix_len(ByteKind::Other(b'\n'), rest));
    match line {
        [before @ .., b'\r'] => before,
        _ => line,
    }
}
