//! Escaped texts.

ghost use Rattle.std.specs.Prelude.{◌≡◌, ◌++◌, OnOk};
ghost use Rattle.doll_key.specs.Components.{escaped};

use doll_text::Memory;
use percent_encoding::{AsciiSet, NON_ALPHANUMERIC, ascii_set, percent_encode};

/// The bytes of ASCII that are escaped: all but letters, digits, `-`, `_` and `.`. Bytes outside ASCII always are.
pub const ESCAPED: AsciiSet = ascii_set!(NON_ALPHANUMERIC.remove(b'-').remove(b'_').remove(b'.'));

/// Appends a text with `%` and two upper-case digits for each byte that is escaped. After a refusal some of it may stand there.
#[tactic(auto, unfolding(crate::specs::Components::escaped))]
pub(crate) fn append_escaped(text: &[u8], out: &mut Vec<u8>) -> Result<(), Memory>
    ensures { OnOk result (out.new.items ≡ out.old.items ++ escaped text.now) }
{
    for piece in percent_encode(text, ESCAPED) {
        out.extend_from_slice(piece.as_bytes())?;
    }
    Ok(())
}
