//! The paths of routes and of requests.

ghost use Rattle.std.specs.Prelude.{◌≡◌, option_map};
ghost use Rattle.doll_route.specs.Paths as spec;

use doll_text::bytes::SLASH;
use doll_text::segments::are_words;

/// The longest path of a route, in bytes.
pub const LONGEST_PATH: usize = 200;

/// The greatest id that a path may name.
const GREATEST_ID: u64 = 4_294_967_295;

/// The digit that an id doesn't begin with.
const ZERO: u8 = b'0';

/// Whether this is a path of a route: a slash alone, or literal segments that `/:id` may follow, in at most 200 bytes.
#[tactic(auto, unfolding(crate::specs::Paths::is_path))]
pub fn is_path(path: &[u8]) -> bool
    ensures { result ≡ spec.is_path path.now }
{
    if path.len() > LONGEST_PATH {
        return false;
    }
    if path == "/".as_bytes() {
        return true;
    }
    is_literal_path(literal_part(path))
}

/// Whether this is one or more segments, each a slash and a word.
fn is_literal_path(path: &[u8]) -> bool
    ensures { result ≡ spec.is_literal_path path.now }
{
    match path {
        [first, rest @ ..] => *first == SLASH && are_words(rest),
        [] => false,
    }
}

/// The path without `/:id` at its end.
fn literal_part(path: &[u8]) -> &[u8]
    ensures { result.now ≡ spec.literal_part path.now }
{
    if path.ends_with("/:id".as_bytes()) {
        &path[..path.len() - 4]
    } else {
        path
    }
}

/// What stands before the id of a path that ends in `/:id`: literal segments and a slash.
pub fn before_id(path: &[u8]) -> Option<&[u8]>
    ensures { option_map (λ before. before.now) result ≡ spec.before_id path.now }
{
    if path.ends_with("/:id".as_bytes()) {
        Some(&path[..path.len() - 3])
    } else {
        None
    }
}

/// Whether a path ends in `/:id`.
pub fn names_id(path: &[u8]) -> bool
    ensures { result ≡ spec.names_id path.now }
{
    before_id(path).is_some()
}

/// Whether the site itself answers under a path.
pub fn is_reserved_path(path: &[u8]) -> bool
    ensures { result ≡ spec.is_reserved_path path.now }
{
    path == "/commit".as_bytes() || path == "/deploy".as_bytes() || path == "/journal".as_bytes()
}

/// The id that decimal digits name: from 1 to 4,294,967,295, without a zero before it.
fn id_of(digits: &[u8]) -> Option<u32>
    ensures { result ≡ spec.id_of digits.now }
{
    let [first, ..] = digits else {
        return None;
    };
    if *first == ZERO {
        return None;
    }
    let mut number: u64 = 0;
    for digit in digits {
        if !digit.is_ascii_digit() {
            return None;
        }
        number = 10 * number + u64::from(*digit - ZERO);
        if number > GREATEST_ID {
            return None;
        }
    }
    Some(number as u32)
}

/// The id with which a path goes on behind these bytes.
fn id_behind(front: &[u8], path: &[u8]) -> Option<u32>
    ensures { result ≡ spec.id_behind front.now path.now }
{
    if path.starts_with(front) {
        id_of(&path[front.len()..])
    } else {
        None
    }
}

/// The id, where there is one, with which a path asks for a route with the path `own`; nothing where it doesn't ask for it.
pub fn requested(own: &[u8], path: &[u8]) -> Option<Option<u32>>
    ensures { result ≡ spec.requested own.now path.now }
{
    match before_id(own) {
        Some(front) => Some(Some(id_behind(front, path)?)),
        None => { if path == own { Some(None) } else { None } }
    }
}

/// The path of a request's target, which ends before its first question mark, and the query behind that.
pub fn split_target(target: &str) -> (&str, &str)
    ensures path { result.0.now ≡ spec.path_of target.now }
    ensures query { result.1.now ≡ spec.query_of target.now }
{
    match target.split_once('?') {
        Some(parts) => parts,
        None => (target, ""),
    }
}
