//! Faults of types, explained.

use crate::report::{Fault, MOST_EXPLAINED, put_gap, put_pointing, put_rest, put_whole, source_of};
use crate::words::type_words;
use doll_base::ViewFile;
use doll_excerpt::{Paper, stretch_in};
use doll_text::Memory;
use doll_types::{TypeFault, TypeKind};
use std::alloc::Global;

/// Appends the explanations of the first faults, and how many more there are.
pub(crate) fn put_types(
    alloc: Global,
    paper: &mut Paper,
    files: &[ViewFile],
    faults: &[TypeFault],
) -> Result<(), Memory> {
    let mut number = 0;
    for fault in faults {
        if number < MOST_EXPLAINED {
            put_gap(paper, number)?;
            put_type(alloc, paper, files, fault)?;
            number += 1;
        }
    }
    put_rest(paper, faults.len())
}

/// Appends the explanation of a fault.
fn put_type(
    alloc: Global,
    paper: &mut Paper,
    files: &[ViewFile],
    fault: &TypeFault,
) -> Result<(), Memory> {
    let told = Fault {
        template: fault.template.as_bytes(),
        at: fault.at as usize,
        carried: fault.kind.name(),
        words: type_words(&fault.kind),
    };
    let Some(source) = source_of(files, told.template) else {
        return put_whole(paper, told);
    };
    let is_step = match &fault.kind {
        TypeKind::UnknownStep(_) => true,
        _ => false,
    };
    let stretch = stretch_in(alloc, source, told.at, told.carried, is_step)?;
    put_pointing(alloc, paper, source, told, &[], stretch)
}
