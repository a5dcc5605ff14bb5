//! Lines of a source, with a stretch of it underlined.

ghost use Rattle.std.specs.Prelude.{◌≡◌, OnOk};
ghost use Rattle.doll_excerpt.specs.Places.{place_of};
ghost use Rattle.doll_excerpt.specs.Texts.{with_place};

use crate::numbered::NumberedLine;
use crate::paper::Paper;
use crate::place::{behind, front, line_around, line_start, place_of};
use doll_text::Memory;
use std::alloc::Global;

/// A stretch of a source: from the byte at `from` up to, and without, that at `to`.
#[derive(Clone, Copy, PartialEq, Eq)]
pub struct Stretch {
    pub from: usize,
    pub to: usize,
}

/// Appends the line and the column of a byte, each behind a colon.
pub fn put_place(paper: &mut Paper, source: &[u8], at: usize) -> Result<(), Memory>
    ensures { OnOk result (paper.new ≡ with_place paper.old (place_of source.now at)) }
{
    let place = place_of(source, at);
    paper.put(":")?;
    paper.put_number(place.line as u64)?;
    paper.put(":")?;
    paper.put_number(place.column as u64)
}

/// Appends the line of a byte behind its number.
pub fn put_line_at(paper: &mut Paper, source: &[u8], at: usize) -> Result<(), Memory> {
    let start = line_start(source, at);
    line_at(source, at).put_line(paper, at.saturating_sub(start))
}

/// Appends the line of a stretch behind its number, and a line that underlines the stretch, or what of it is in that line.
pub fn put_stretch(
    alloc: Global,
    paper: &mut Paper,
    source: &[u8],
    stretch: Stretch,
) -> Result<(), Memory> {
    let start = line_start(source, stretch.from);
    let within = Stretch {
        from: stretch.from.saturating_sub(start),
        to: stretch.to.saturating_sub(start),
    };
    line_at(source, stretch.from).put_stretch(alloc, paper, within)
}

/// The line in which a byte stands, with its number.
fn line_at(source: &[u8], at: usize) -> NumberedLine<'_> {
    NumberedLine {
        number: place_of(source, at).line as u64,
        text: line_around(source, at),
    }
}

/// The bytes of a stretch, as far as the source has them.
pub(crate) fn bytes_of(source: &[u8], stretch: Stretch) -> &[u8] {
    front(
        behind(source, stretch.from),
        stretch.to.saturating_sub(stretch.from),
    )
}
