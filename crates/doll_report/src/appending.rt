//! Pieces of lines.

ghost use Rattle.std.specs.Prelude.{◌≡◌, ◌++◌, OnOk};
ghost use Rattle.std.specs.Fmt.{decimal};
ghost use Rattle.std.specs.Io.{StartsWith};

use doll_text::Memory;
use itoa::Buffer;

/// Appends a text.
pub(crate) fn put(text: &str, out: &mut Vec<u8>) -> Result<(), Memory>
    ensures text { OnOk result (out.new.items ≡ out.old.items ++ text.now) }
    ensures kept { StartsWith out.new.items out.old.items }
{
    out.extend_from_slice(text.as_bytes())?;
    Ok(())
}

/// Appends a number in decimal.
pub(crate) fn put_number(number: u64, out: &mut Vec<u8>) -> Result<(), Memory>
    ensures text { OnOk result (out.new.items ≡ out.old.items ++ decimal number) }
    ensures kept { StartsWith out.new.items out.old.items }
{
    let mut digits = Buffer::new();
    put(digits.format(number), out)
}

/// Appends a number behind a text.
pub(crate) fn put_counted(text: &str, number: u64, out: &mut Vec<u8>) -> Result<(), Memory>
    ensures text { OnOk result (out.new.items ≡ out.old.items ++ text.now ++ decimal number) }
    ensures kept { StartsWith out.new.items out.old.items }
{
    put(text, out)?;
    put_number(number, out)
}
