//! Faults of the lint, explained.

use crate::report::{Fault, MOST_EXPLAINED, put_gap, put_pointing, put_rest, put_whole, source_of};
use crate::words::lint_words;
use doll_base::ViewFile;
use doll_erb::parse_template;
use doll_excerpt::{Block, Paper, add_blocks, line_start, stretch_in};
use doll_expr::LONGEST_SOURCE;
use doll_lint::fault::{LintFault, LintKind};
use doll_text::Memory;
use std::alloc::Global;

/// Appends the explanations of the first faults, and how many more there are.
pub(crate) fn put_lints(
    alloc: Global,
    paper: &mut Paper,
    files: &[ViewFile],
    faults: &[LintFault],
) -> Result<(), Memory> {
    let mut number = 0;
    for fault in faults {
        if number < MOST_EXPLAINED {
            put_gap(paper, number)?;
            put_lint(alloc, paper, files, fault)?;
            number += 1;
        }
    }
    put_rest(paper, faults.len())
}

/// Appends the explanation of a fault.
fn put_lint(
    alloc: Global,
    paper: &mut Paper,
    files: &[ViewFile],
    fault: &LintFault,
) -> Result<(), Memory> {
    let (carried, is_step) = carried_by(&fault.kind);
    let told = Fault {
        template: fault.template.as_bytes(),
        at: fault.at as usize,
        carried,
        words: lint_words(&fault.kind),
    };
    let Some(source) = source_of(files, told.template) else {
        return put_whole(paper, told);
    };
    let blocks = blocks_in(alloc, source, fault.at)?;
    let around = lines_before(alloc, source, told.at, &fault.kind, blocks.as_slice())?;
    let stretch = stretch_in(alloc, source, told.at, told.carried, is_step)?;
    put_pointing(alloc, paper, source, told, around.as_slice(), stretch)
}

/// The path or name that a kind carries, and whether that is a step's.
fn carried_by(kind: &LintKind) -> (&[u8], bool) {
    match kind {
        LintKind::Uncovered(path) => (path.as_bytes(), false),
        LintKind::NoTouch(name) => (name.as_bytes(), true),
        LintKind::OutsideVariable(name) => (name.as_bytes(), false),
        LintKind::SharedKey { .. } => (&[], false),
    }
}

/// The cached blocks of a template, as it is parsed.
fn blocks_in(alloc: Global, source: &[u8], at: u32) -> Result<Vec<Block>, Memory> {
    let mut blocks = Vec::new(alloc);
    if source.len() > LONGEST_SOURCE {
        return Ok(blocks);
    }
    if let Ok(tree) = parse_template(alloc, source) {
        add_blocks(tree.as_slice(), at, &mut blocks)?;
    }
    Ok(blocks)
}

/// The places of the tags whose lines are shown before that of the fault, one for each line: those of the blocks round it, of a
/// shared key that of the other block.
fn lines_before(
    alloc: Global,
    source: &[u8],
    at: usize,
    kind: &LintKind,
    blocks: &[Block],
) -> Result<Vec<usize>, Memory> {
    let mut lines = Vec::new(alloc);
    let mut last = line_start(source, at);
    for block in blocks {
        let line = line_start(source, block.at as usize);
        if is_shown(kind, block) && line < last {
            lines.insert(0, block.at as usize)?;
            last = line;
        }
    }
    Ok(lines)
}

/// Whether a block's line is shown for a fault.
fn is_shown(kind: &LintKind, block: &Block) -> bool {
    match kind {
        LintKind::SharedKey { other } => block.number == *other,
        _ => block.is_around,
    }
}
