//! The names of partials, and the comments that name one.

ghost use Rattle.std.specs.Prelude.{◌≡◌};
ghost use Rattle.std.specs.List.{list_all};
ghost use Rattle.std.specs.Option.{option_map};
ghost use Rattle.doll_text.specs.Bytes.{is_space};
ghost use Rattle.doll_erb.specs.Partials as spec;

use doll_text::bytes::{ByteKind, is_space, prefix_len};
use doll_text::segments::{are_words, segment_count};

/// What goes before a partial's name in a comment.
const ANNOUNCEMENT: &[u8] = b"Template Dependency: ";

/// The longest name of a partial, in bytes: with `_` and `.html.erb` it has room in a file's name.
const LONGEST_PARTIAL: usize = 190;

/// The most segments of a virtual path or of a partial's name.
const MOST_SEGMENTS: usize = 8;

/// Whether a text names a partial: 1 to 8 words joined by `/`, of at most 190 bytes.
#[tactic(auto, unfolding(crate::specs::Partials::is_partial))]
pub fn is_partial(name: &[u8]) -> bool
    ensures { result ≡ spec.is_partial name.now }
{
    if name.len() > LONGEST_PARTIAL {
        return false;
    }
    if segment_count(name) > MOST_SEGMENTS {
        return false;
    }
    are_words(name)
}

fn is_blank(bytes: &[u8]) -> bool
    ensures { result ≡ list_all is_space bytes.now }
{
    bytes.iter().all(|byte| is_space(*byte))
}

/// The partial's name at the front, if nothing but white space follows it.
fn only_name(bytes: &[u8]) -> Option<&[u8]>
    ensures { option_map (λ name. name.now) result ≡ spec.only_name bytes.now }
{
    let (name, rest) = bytes.split_at(prefix_len(ByteKind::Ink, bytes));
    if !is_partial(name) {
        return None;
    }
    if !is_blank(rest) {
        return None;
    }
    Some(name)
}

/// The partial that a comment names, by what stands between the comment's marks.
#[tactic(auto, unfolding(crate::specs::Partials::dependency_of))]
pub fn dependency_of(content: &[u8]) -> Option<&[u8]>
    ensures { option_map (λ name. name.now) result ≡ spec.dependency_of content.now }
{
    let (_white, inner) = content.split_at(prefix_len(ByteKind::Space, content));
    if !inner.starts_with(ANNOUNCEMENT) {
        return None;
    }
    let (_announcement, rest) = inner.split_at(ANNOUNCEMENT.len());
    only_name(rest)
}
