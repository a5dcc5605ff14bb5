//! What the lines of all faults have in common.

ghost use Rattle.std.specs.Prelude.{◌≡◌, ◌++◌, codes, OnOk};
ghost use Rattle.std.specs.Fmt.{decimal};
ghost use Rattle.doll_faults.specs.Lines as spec;

use doll_text::{Memory, Name};
use itoa::Buffer;

/// Appends a template, a colon, a place, a colon and a space.
pub(crate) fn put_place(lines: &mut Vec<u8>, template: &Name, at: u32) -> Result<(), Memory>
    ensures { OnOk result (lines.new.items
        ≡ lines.old.items ++ template.now ++ codes ":" ++ decimal at ++ codes ": ") }
{
    let mut digits = Buffer::new();
    lines.extend_from_slice(template.as_bytes())?;
    lines.push(b':')?;
    lines.extend_from_slice(digits.format(at).as_bytes())?;
    lines.extend_from_slice(b": ")?;
    Ok(())
}

/// Appends a kind, a space and what it carries.
pub(crate) fn put_carrying(lines: &mut Vec<u8>, word: &str, carried: &[u8]) -> Result<(), Memory>
    ensures { OnOk result (lines.new.items
        ≡ lines.old.items ++ spec.carrying word.now carried.now) }
{
    lines.extend_from_slice(word.as_bytes())?;
    lines.push(b' ')?;
    lines.extend_from_slice(carried)?;
    Ok(())
}

/// Appends a kind that carries nothing.
pub(crate) fn put_word(lines: &mut Vec<u8>, word: &str) -> Result<(), Memory>
    ensures { OnOk result (lines.new.items ≡ lines.old.items ++ word.now) }
{
    lines.extend_from_slice(word.as_bytes())?;
    Ok(())
}
