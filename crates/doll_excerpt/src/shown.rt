//! Texts of a site as they are shown: no character of theirs controls a terminal.

use crate::paper::Paper;
use doll_text::Memory;

/// The most characters of a name or a value that are shown.
const MOST_SHOWN: usize = 80;

/// What a tab is shown as.
const TAB: &str = "    ";

/// The digits of an escape.
const DIGITS: &[u8; 16] = b"0123456789abcdef";

/// Appends a character as it is shown.
pub(crate) fn put_visible(paper: &mut Paper, one: char) -> Result<(), Memory> {
    if one == '\t' {
        return paper.put(TAB);
    }
    if is_hidden(one) {
        return put_escape(paper, one as u32);
    }
    paper.put_char(one)
}

/// How many columns a character takes as it is shown.
pub(crate) fn width_of(one: char) -> usize {
    if one == '\t' {
        return TAB.len();
    }
    if is_hidden(one) {
        return escape_width(one as u32).saturating_add(4);
    }
    1
}

/// Whether a character isn't shown as it is: those that control a terminal, and those that turn the direction of a text, end a
/// line or have no width.
fn is_hidden(one: char) -> bool {
    if one.is_control() {
        return true;
    }
    match one as u32 {
        0x200b..=0x200f | 0x2028..=0x202e | 0x2060..=0x206f | 0xfeff => true,
        _ => false,
    }
}

/// How many hexadecimal digits a code below 65,536 has.
fn escape_width(code: u32) -> usize {
    match code {
        0..=0xf => 1,
        0x10..=0xff => 2,
        0x100..=0xfff => 3,
        _ => 4,
    }
}

/// Appends `\u{`, the digits of a code below 65,536 and `}`.
fn put_escape(paper: &mut Paper, code: u32) -> Result<(), Memory> {
    paper.put("\\u{")?;
    if code >= 0x1000 {
        put_digit(paper, code / 0x1000)?;
    }
    if code >= 0x100 {
        put_digit(paper, code / 0x100)?;
    }
    if code >= 0x10 {
        put_digit(paper, code / 0x10)?;
    }
    put_digit(paper, code)?;
    paper.put("}")
}

/// Appends the last hexadecimal digit of a number.
fn put_digit(paper: &mut Paper, number: u32) -> Result<(), Memory> {
    paper.put_char(DIGITS[(number % 16) as usize] as char)
}

/// Appends a text of a site, of a long one the first characters.
pub fn put_shown(paper: &mut Paper, text: &[u8]) -> Result<(), Memory> {
    let Ok(text) = std::str::from_utf8(text) else {
        return paper.put("(no UTF-8)");
    };
    let mut left = MOST_SHOWN;
    for one in text.chars() {
        if left == 0 {
            return paper.put("…");
        }
        put_visible(paper, one)?;
        left -= 1;
    }
    Ok(())
}

/// Appends a text of a site between backquotes.
pub fn put_quoted(paper: &mut Paper, text: &[u8]) -> Result<(), Memory> {
    paper.put("`")?;
    put_shown(paper, text)?;
    paper.put("`")
}
