//! A line with its number, with a stretch of it underlined.

ghost use Rattle.std.specs.Prelude.{◌≡◌, OnOk};
ghost use Rattle.doll_excerpt.specs.Places.{column_of};
ghost use Rattle.doll_excerpt.specs.Texts.{with_place};

use crate::excerpt::Stretch;
use crate::paper::Paper;
use crate::place::{characters, front};
use crate::shown::{put_visible, width_of};
use doll_text::Memory;
use std::alloc::Global;

/// The most characters of a line that are shown.
const LONGEST_LINE: usize = 200;

/// How many of a long line's characters are shown before the stretch.
const BEFORE_STRETCH: usize = 60;

/// The columns that a line's number takes, more where it has more digits.
const NUMBER_WIDTH: usize = 5;

/// A line with its number, from 1. Its text is one line whatever it holds: a line end in it is shown as an escape.
#[derive(Clone, Copy)]
pub struct NumberedLine<'a> {
    pub number: u64,
    pub text: &'a [u8],
}

/// What of a line is shown, and what is underlined, in characters from the line's first.
#[derive(Clone, Copy)]
struct Window {
    skipped: usize,
    from: usize,
    to: usize,
}

impl NumberedLine<'_> {
    /// Appends the number and the column of a byte, each behind a colon.
    pub fn put_place(self, paper: &mut Paper, at: usize) -> Result<(), Memory>
        ensures { OnOk result (paper.new ≡ with_place paper.old
            (record { line = self.entry.number; column = column_of self.entry.text.now at })) }
    {
        let before = front(self.text, at);
        paper.put(":")?;
        paper.put_number(self.number)?;
        paper.put(":")?;
        paper.put_number(characters(before) as u64 + 1)
    }

    /// Appends the line behind its number, of a long one what stands round a byte.
    pub fn put_line(self, paper: &mut Paper, at: usize) -> Result<(), Memory> {
        put_gutter(paper, self.number)?;
        let window = window_of(self.text, Stretch { from: at, to: at });
        put_window(paper, None, self.text, window)?;
        paper.put("\n")
    }

    /// Appends the line behind its number, and a line that underlines a stretch of it.
    pub fn put_stretch(
        self,
        alloc: Global,
        paper: &mut Paper,
        stretch: Stretch,
    ) -> Result<(), Memory> {
        let mut marks = Paper::new(alloc);
        put_spaces(&mut marks, NUMBER_WIDTH.max(decimal_width(self.number)))?;
        marks.put(" | ")?;
        put_gutter(paper, self.number)?;
        let window = window_of(self.text, stretch);
        put_window(paper, Some(&mut marks), self.text, window)?;
        paper.put("\n")?;
        paper.put_paper(&marks)?;
        paper.put("\n")
    }
}

/// What of a line is shown for a stretch of it. At least one character is underlined, also behind the line's end.
fn window_of(line: &[u8], stretch: Stretch) -> Window {
    let from = characters(front(line, stretch.from));
    let to = characters(front(line, stretch.to));
    let skipped = if characters(line) > LONGEST_LINE {
        from.saturating_sub(BEFORE_STRETCH)
    } else {
        0
    };
    Window {
        skipped,
        from,
        to: to.max(from.saturating_add(1)),
    }
}

/// How many digits a number below 100,000,000 has in decimal; no input has so many lines.
fn decimal_width(number: u64) -> usize {
    match number {
        0..=9 => 1,
        10..=99 => 2,
        100..=999 => 3,
        1000..=9999 => 4,
        10_000..=99_999 => 5,
        100_000..=999_999 => 6,
        1_000_000..=9_999_999 => 7,
        _ => 8,
    }
}

/// Appends a line's number, right-aligned, and a bar.
fn put_gutter(paper: &mut Paper, number: u64) -> Result<(), Memory> {
    put_spaces(paper, NUMBER_WIDTH.saturating_sub(decimal_width(number)))?;
    paper.put_number(number)?;
    paper.put(" | ")
}

/// Appends what a window shows of a line, and its marks.
fn put_window(
    paper: &mut Paper,
    marks: Option<&mut Paper>,
    line: &[u8],
    window: Window,
) -> Result<(), Memory> {
    let Ok(text) = std::str::from_utf8(line) else {
        return Ok(());
    };
    if window.skipped > 0 {
        paper.put("…")?;
    }
    put_characters(paper, text, window)?;
    match marks {
        Some(marks) => put_marks(marks, text, window),
        None => Ok(()),
    }
}

/// Appends the characters that a window shows.
fn put_characters(paper: &mut Paper, text: &str, window: Window) -> Result<(), Memory> {
    let mut left = LONGEST_LINE;
    for one in text.chars().skip(window.skipped) {
        if left == 0 {
            return paper.put("…");
        }
        put_visible(paper, one)?;
        left -= 1;
    }
    Ok(())
}

/// Appends a space for each column before the stretch and a mark for each of its own, as far as the window shows it.
fn put_marks(marks: &mut Paper, text: &str, window: Window) -> Result<(), Memory> {
    if window.skipped > 0 {
        marks.put(" ")?;
    }
    let mut at = window.skipped;
    let mut left = LONGEST_LINE;
    for one in text.chars().skip(window.skipped) {
        if left == 0 || at >= window.to {
            return Ok(());
        }
        put_columns(marks, at >= window.from, width_of(one))?;
        at = at.saturating_add(1);
        left -= 1;
    }
    if at < window.to && at <= window.from {
        return marks.put("^");
    }
    Ok(())
}

/// Appends so many marks, or so many spaces.
fn put_columns(marks: &mut Paper, is_marked: bool, count: usize) -> Result<(), Memory> {
    for _ in 0..count {
        marks.put(if is_marked { "^" } else { " " })?;
    }
    Ok(())
}

/// Appends spaces.
fn put_spaces(paper: &mut Paper, count: usize) -> Result<(), Memory> {
    put_columns(paper, false, count)
}
