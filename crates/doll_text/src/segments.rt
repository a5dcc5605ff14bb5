//! Texts of segments with slashes between them: paths and the names of partials.

ghost use Rattle.std.specs.Prelude.{◌≡◌, ◌≤◌, ◌&&◌, nat_le, length};
ghost use Rattle.std.specs.List.{count_by};
ghost use Rattle.doll_text.specs.Segments as spec;
ghost use Rattle.doll_text.specs.declared.segments.TheConstants.{MOST_SEGMENTS};

use crate::bytes::{ByteKind, SLASH, prefix_len};
use crate::words::is_word;

/// The longest virtual path, in bytes: with the nine bytes of `.html.erb` it makes a file's name of 200.
pub const LONGEST_VIRTUAL_PATH: usize = 191;

/// The most segments of a virtual path.
const MOST_SEGMENTS: usize = 8;

/// What stands before the name of a partial's file.
const UNDERSCORE: u8 = b'_';

/// Whether each segment is a word.
pub fn are_words(text: &[u8]) -> bool
    ensures { result ≡ spec.are_words text.now }
{
    text.split(|byte| *byte == SLASH)
        .all(|segment| is_word(segment))
}

/// How many segments a text has.
pub fn segment_count(text: &[u8]) -> usize
    ensures { result ≡ length (spec.segments text.now) }
{
    slash_count(text) + 1
}

fn slash_count(text: &[u8]) -> usize
    ensures value { result ≡ count_by spec.is_slash text.now }
    ensures within { result ≤ length text.now }
{
    text.iter().filter(|byte| **byte == SLASH).count()
}

/// What stands after the last slash of a text, or all where there is none.
#[tactic(auto, unfolding(crate::specs::Segments::last_segment))]
pub fn last_segment(text: &[u8]) -> &[u8]
    ensures { result.now ≡ spec.last_segment text.now }
{
    let mut at = text.len();
    while at > 0 {
        if text[at - 1] == SLASH {
            return &text[at..];
        }
        at -= 1;
    }
    text
}

/// Whether this is a virtual path, a view's name without its ending: at most eight segments in at most 191 bytes, of which the
/// last may begin with an underscore.
#[tactic(auto, unfolding(crate::specs::Segments::is_virtual_path))]
pub fn is_virtual_path(path: &[u8]) -> bool
    ensures { result ≡ spec.is_virtual_path path.now }
{
    if path.len() > LONGEST_VIRTUAL_PATH {
        return false;
    }
    are_few_view_segments(path)
}

/// Whether these are at most eight segments, words but for the last, which may begin with an underscore.
fn are_few_view_segments(path: &[u8]) -> bool
    ensures { result ≡ (spec.are_view_segments (spec.segments path.now)
        && nat_le (length (spec.segments path.now)) MOST_SEGMENTS) }
{
    let mut rest = path;
    let mut more = MOST_SEGMENTS;
    while more > 0 {
        let end = prefix_len(ByteKind::Other(SLASH), rest);
        if end == rest.len() {
            return is_view_name(rest);
        }
        let (front, behind) = rest.split_at(end);
        if !is_word(front) {
            return false;
        }
        rest = behind.split_at(1).1;
        more -= 1;
    }
    false
}

/// Whether this is the last segment of a virtual path: a word, or a word behind an underscore.
fn is_view_name(name: &[u8]) -> bool
    ensures { result ≡ spec.is_view_name name.now }
{
    if is_word(name) {
        return true;
    }
    match name {
        [first, rest @ ..] => *first == UNDERSCORE && is_word(rest),
        [] => false,
    }
}
