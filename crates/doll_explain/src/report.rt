//! What all explanations have in common: where something is wrong, what, and what to write instead.

use crate::words::Words;
use doll_base::ViewFile;
use doll_excerpt::{Paper, Stretch, put_line_at, put_place, put_quoted, put_shown, put_stretch};
use doll_text::Memory;
use std::alloc::Global;

/// What a template's file has behind the template's name.
const ENDING: &[u8] = b".html.erb";

/// How many faults are explained.
pub(crate) const MOST_EXPLAINED: usize = 10;

/// A fault of a template at a byte of its source.
#[derive(Clone, Copy)]
pub(crate) struct Fault<'a> {
    pub(crate) template: &'a [u8],
    pub(crate) at: usize,
    /// The name or path that it carries, nothing where it carries none.
    pub(crate) carried: &'a [u8],
    pub(crate) words: Words,
}

/// The source of a template, where one of the files is its.
pub(crate) fn source_of<'a>(files: &'a [ViewFile], template: &[u8]) -> Option<&'a [u8]> {
    for file in files {
        if is_file_of(file.name.as_bytes(), template) {
            return Some(file.source.as_bytes());
        }
    }
    None
}

/// Whether a file's name is that of a template's.
fn is_file_of(name: &[u8], template: &[u8]) -> bool {
    if !name.starts_with(template) || !name.ends_with(ENDING) {
        return false;
    }
    name.len().saturating_sub(ENDING.len()) == template.len()
}

/// Appends what is wrong: what the fault carries, and the sentence that goes on from it.
pub(crate) fn put_wrong(paper: &mut Paper, carried: &[u8], words: Words) -> Result<(), Memory> {
    paper.put(": ")?;
    if !carried.is_empty() {
        put_quoted(paper, carried)?;
    }
    paper.put(words.wrong)?;
    paper.put("\n")
}

/// Appends an explanation of what has this name.
pub(crate) fn put_named(paper: &mut Paper, name: &[u8], words: Words) -> Result<(), Memory> {
    put_shown(paper, name)?;
    put_wrong(paper, &[], words)?;
    paper.put(words.instead)
}

/// Appends an explanation that points at no byte of a template.
pub(crate) fn put_whole(paper: &mut Paper, fault: Fault<'_>) -> Result<(), Memory> {
    put_shown(paper, fault.template)?;
    paper.put(".html.erb")?;
    put_wrong(paper, fault.carried, fault.words)?;
    paper.put(fault.words.instead)
}

/// Appends an explanation that points at a byte of a template's source: its line and column, the lines of the tags round it, and
/// the line of the stretch, underlined.
pub(crate) fn put_pointing(
    alloc: Global,
    paper: &mut Paper,
    source: &[u8],
    fault: Fault<'_>,
    around: &[usize],
    stretch: Stretch,
) -> Result<(), Memory> {
    put_shown(paper, fault.template)?;
    paper.put(".html.erb")?;
    put_place(paper, source, fault.at)?;
    put_wrong(paper, fault.carried, fault.words)?;
    for at in around {
        put_line_at(paper, source, *at)?;
    }
    put_stretch(alloc, paper, source, stretch)?;
    paper.put(fault.words.instead)
}

/// Ends an explanation with an empty line before the next, nothing before the first.
pub(crate) fn put_gap(paper: &mut Paper, number: usize) -> Result<(), Memory> {
    if number == 0 {
        return Ok(());
    }
    paper.put("\n\n")
}

/// Appends how many faults aren't explained, where there are some.
pub(crate) fn put_rest(paper: &mut Paper, count: usize) -> Result<(), Memory> {
    if count <= MOST_EXPLAINED {
        return Ok(());
    }
    paper.put("\n\nand ")?;
    paper.put_number((count - MOST_EXPLAINED) as u64)?;
    paper.put(" more, each with a line on standard output")
}
