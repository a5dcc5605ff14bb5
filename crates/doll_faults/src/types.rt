//! The lines of type faults.

ghost use Rattle.std.specs.Prelude.{◌≡◌, ◌++◌, IfOk, OnOk};
ghost use Rattle.doll_faults.specs.Lines as spec;

use crate::line::{put_carrying, put_place, put_word};
use doll_text::Memory;
use doll_types::{TypeFault, TypeKind};
use std::alloc::Global;

/// A line for each fault of types, in their order: its template, its place, its kind and, where that carries one, its name.
pub fn type_lines(alloc: Global, faults: &[TypeFault]) -> Result<Vec<u8>, Memory>
    ensures { IfOk result (λ lines. lines.items ≡ spec.type_lines faults.now) }
{
    let mut lines = Vec::new(alloc);
    for fault in faults {
        put_line(&mut lines, fault)?;
    }
    Ok(lines)
}

/// Appends the line of a fault.
fn put_line(lines: &mut Vec<u8>, fault: &TypeFault) -> Result<(), Memory>
    ensures { OnOk result (lines.new.items ≡ lines.old.items ++ spec.type_line fault.now) }
{
    put_place(lines, &fault.template, fault.at)?;
    put_kind(lines, &fault.kind)?;
    lines.push(b'\n')?;
    Ok(())
}

/// Appends a kind with the name that it carries.
fn put_kind(lines: &mut Vec<u8>, kind: &TypeKind) -> Result<(), Memory>
    ensures { OnOk result (lines.new.items ≡ lines.old.items ++ spec.type_words kind.now) }
{
    match kind {
        TypeKind::MissingTemplate => put_word(lines, "MissingTemplate"),
        TypeKind::UnknownVariable(name) => put_carrying(lines, "UnknownVariable", name.as_bytes()),
        TypeKind::UnknownStep(name) => put_carrying(lines, "UnknownStep", name.as_bytes()),
        TypeKind::Mismatch => put_word(lines, "Mismatch"),
        TypeKind::NotPrintable => put_word(lines, "NotPrintable"),
        TypeKind::NotList => put_word(lines, "NotList"),
        TypeKind::BadKey => put_word(lines, "BadKey"),
    }
}
