//! How a line is taken apart: its front, the spaces between its words, its paths.

ghost use Rattle.std.specs.Prelude.{◌≡◌, option_map};
ghost use Rattle.doll_script.specs.Pieces as spec;

use doll_text::bytes::SLASH;
use doll_text::{ByteKind, prefix_len};

/// What stands between the words of a line.
const BLANK: u8 = b' ';

/// What stands behind a text's front.
pub fn behind<'a>(front: &str, text: &'a [u8]) -> Option<&'a [u8]>
    ensures { option_map (λ rest. rest.now) result ≡ spec.behind front.now text.now }
{
    if text.starts_with(front.as_bytes()) {
        Some(&text[front.len()..])
    } else {
        None
    }
}

/// The text before the first space, or all where there is none.
pub fn word(text: &[u8]) -> &[u8]
    ensures { result.now ≡ spec.word text.now }
{
    text.split_at(prefix_len(ByteKind::Other(BLANK), text)).0
}

/// The text behind the first space.
pub fn behind_word(text: &[u8]) -> Option<&[u8]>
    ensures { option_map (λ rest. rest.now) result ≡ spec.behind_word text.now }
{
    let end = prefix_len(ByteKind::Other(BLANK), text);
    if end == text.len() {
        None
    } else {
        Some(&text[end + 1..])
    }
}

/// Whether this is a path: it begins with a slash and has no space.
pub fn is_path(text: &[u8]) -> bool
    ensures { result ≡ spec.is_path text.now }
{
    let [first, ..] = text else {
        return false;
    };
    *first == SLASH && prefix_len(ByteKind::Other(BLANK), text) == text.len()
}
