//! The lines of a lint's faults.

ghost use Rattle.std.specs.Prelude.{◌≡◌, ◌++◌, IfOk, OnOk};
ghost use Rattle.doll_faults.specs.Lines as spec;

use crate::line::{put_carrying, put_place};
use doll_lint::fault::{LintFault, LintKind};
use doll_text::Memory;
use itoa::Buffer;
use std::alloc::Global;

/// A line for each fault of a lint, in their order: its template, its place, its kind, and the path, name or number that this
/// carries.
pub fn lint_lines(alloc: Global, faults: &[LintFault]) -> Result<Vec<u8>, Memory>
    ensures { IfOk result (λ lines. lines.items ≡ spec.lint_lines faults.now) }
{
    let mut lines = Vec::new(alloc);
    for fault in faults {
        put_line(&mut lines, fault)?;
    }
    Ok(lines)
}

/// Appends the line of a fault.
fn put_line(lines: &mut Vec<u8>, fault: &LintFault) -> Result<(), Memory>
    ensures { OnOk result (lines.new.items ≡ lines.old.items ++ spec.lint_line fault.now) }
{
    put_place(lines, &fault.template, fault.at)?;
    put_kind(lines, &fault.kind)?;
    lines.push(b'\n')?;
    Ok(())
}

/// Appends a kind with what it carries.
fn put_kind(lines: &mut Vec<u8>, kind: &LintKind) -> Result<(), Memory>
    ensures { OnOk result (lines.new.items ≡ lines.old.items ++ spec.lint_words kind.now) }
{
    match kind {
        LintKind::Uncovered(path) => put_carrying(lines, "Uncovered", path.as_bytes()),
        LintKind::NoTouch(name) => put_carrying(lines, "NoTouch", name.as_bytes()),
        LintKind::SharedKey { other } => {
            let mut digits = Buffer::new();
            put_carrying(lines, "SharedKey", digits.format(*other).as_bytes())
        }
        LintKind::OutsideVariable(name) => put_carrying(lines, "OutsideVariable", name.as_bytes()),
    }
}
