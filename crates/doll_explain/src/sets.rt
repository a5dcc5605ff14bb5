//! Faults of templates and of the set that they make, explained.

use crate::report::{Fault, put_named, put_pointing, put_whole, source_of};
use crate::words::{Words, set_words};
use doll_base::ViewFile;
use doll_erb::ErbFault;
use doll_excerpt::{Paper, Stretch, put_quoted, stretch_in, tag_at, token_at};
use doll_expr::ExprFault;
use doll_set::SetFault;
use doll_text::{Memory, Name};
use std::alloc::Global;

/// Appends the explanation of a fault of a set.
pub(crate) fn put_set(
    alloc: Global,
    paper: &mut Paper,
    files: &[ViewFile],
    fault: &SetFault,
) -> Result<(), Memory> {
    let words = set_words(fault);
    match fault {
        SetFault::BadTemplate { name, fault } => put_bad(alloc, paper, files, name, *fault, words),
        SetFault::MissingPartial { name, at } => {
            put_tag(alloc, paper, files, name, *at as usize, words)
        }
        SetFault::BadName { index } => match files.get(*index as usize) {
            Some(file) => put_named(paper, file.name.as_bytes(), words),
            None => Err(Memory),
        },
        SetFault::Cycle { names } => {
            put_template(paper, names.as_slice().first(), words)?;
            put_chain(paper, names.as_slice())
        }
        SetFault::Duplicate { name }
        | SetFault::TooLong { name }
        | SetFault::DepthOver { name }
        | SetFault::TooWide { name } => put_template(paper, Some(name), words),
        SetFault::TooMany { .. } | SetFault::Clash { .. } | SetFault::Memory => {
            put_named(paper, b"views", words)
        }
    }
}

/// Appends the explanation of a text that is no template.
fn put_bad(
    alloc: Global,
    paper: &mut Paper,
    files: &[ViewFile],
    name: &Name,
    fault: ErbFault,
    words: Words,
) -> Result<(), Memory> {
    let Some(at) = place_in(fault) else {
        return Ok(());
    };
    match fault {
        ErbFault::BadExpr { fault, .. } => {
            put_expression(alloc, paper, files, name, at, fault, words)
        }
        _ => put_tag(alloc, paper, files, name, at, words),
    }
}

/// The place of a fault's tag.
fn place_in(fault: ErbFault) -> Option<usize> {
    match fault {
        ErbFault::UnclosedTag { at }
        | ErbFault::UnknownTag { at }
        | ErbFault::StrayEnd { at }
        | ErbFault::MissingEnd { at }
        | ErbFault::BadExpr { at, .. }
        | ErbFault::TooDeep { at } => Some(at as usize),
        ErbFault::Memory => None,
    }
}

/// Appends an explanation that points at a tag.
fn put_tag(
    alloc: Global,
    paper: &mut Paper,
    files: &[ViewFile],
    name: &Name,
    at: usize,
    words: Words,
) -> Result<(), Memory> {
    let told = Fault {
        template: name.as_bytes(),
        at,
        carried: &[],
        words,
    };
    let Some(source) = source_of(files, told.template) else {
        return put_whole(paper, told);
    };
    let stretch = stretch_in(alloc, source, at, &[], false)?;
    put_pointing(alloc, paper, source, told, &[], stretch)
}

/// Appends an explanation that points into a tag.
fn put_expression(
    alloc: Global,
    paper: &mut Paper,
    files: &[ViewFile],
    name: &Name,
    tag: usize,
    fault: ExprFault,
    words: Words,
) -> Result<(), Memory> {
    let Some(source) = source_of(files, name.as_bytes()) else {
        return Ok(());
    };
    let stretch = expression_at(alloc, source, tag, fault)?;
    let told = Fault {
        template: name.as_bytes(),
        at: stretch.from,
        carried: &[],
        words,
    };
    put_pointing(alloc, paper, source, told, &[], stretch)
}

/// Where in a source an expression's fault stands, whose place counts from the first byte of the tag's content. Where the content
/// ends too early that is the closing mark.
fn expression_at(
    alloc: Global,
    source: &[u8],
    tag: usize,
    fault: ExprFault,
) -> Result<Stretch, Memory> {
    let inner = match fault {
        ExprFault::Unexpected { at }
        | ExprFault::Unclosed { at }
        | ExprFault::NumberTooLarge { at }
        | ExprFault::TooDeep { at } => at as usize,
        ExprFault::Memory => return Err(Memory),
    };
    let Some(piece) = tag_at(alloc, source, tag)? else {
        return Ok(token_at(source, tag));
    };
    let at = (piece.content.from as usize).saturating_add(inner);
    if at >= piece.content.to as usize {
        return Ok(Stretch {
            from: at,
            to: at.saturating_add(2),
        });
    }
    Ok(token_at(source, at))
}

/// Appends an explanation of a template as a whole.
fn put_template(paper: &mut Paper, name: Option<&Name>, words: Words) -> Result<(), Memory> {
    let Some(name) = name else {
        return Ok(());
    };
    put_whole(
        paper,
        Fault {
            template: name.as_bytes(),
            at: 0,
            carried: &[],
            words,
        },
    )
}

/// Appends the templates by which one leads back to itself.
fn put_chain(paper: &mut Paper, names: &[Name]) -> Result<(), Memory> {
    paper.put("\nThe way is")?;
    for name in names {
        paper.put(" ")?;
        put_quoted(paper, name.as_bytes())?;
    }
    Ok(())
}
