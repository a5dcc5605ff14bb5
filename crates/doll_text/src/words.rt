//! Which words are names, and which are words of the grammars.

ghost use Rattle.std.specs.Prelude.{◌≡◌, map};
ghost use Rattle.std.specs.List.{list_all, list_any};
ghost use Rattle.std.specs.Str.{bytes_eq};
ghost use Rattle.doll_text.specs.Bytes.{is_word_byte};
ghost use Rattle.doll_text.specs.Names as spec;

use crate::bytes::{is_lower, is_word_byte};

/// The words of the grammars of expressions and tags, which are no names.
#[derive(Clone, Copy, PartialEq, Eq)]
pub enum Word {
    Nil,
    True,
    False,
    If,
    Elsif,
    Else,
    End,
    Do,
    Each,
    Cache,
    Render,
    Partial,
    Collection,
    As,
    Cached,
    Id,
    UpdatedAt,
    Size,
}

/// The longest name, in bytes.
const LONGEST_NAME: usize = 40;

const WORDS: [(&[u8], Word); 18] = [
    (b"nil", Word::Nil),
    (b"true", Word::True),
    (b"false", Word::False),
    (b"if", Word::If),
    (b"elsif", Word::Elsif),
    (b"else", Word::Else),
    (b"end", Word::End),
    (b"do", Word::Do),
    (b"each", Word::Each),
    (b"cache", Word::Cache),
    (b"render", Word::Render),
    (b"partial", Word::Partial),
    (b"collection", Word::Collection),
    (b"as", Word::As),
    (b"cached", Word::Cached),
    (b"id", Word::Id),
    (b"updated_at", Word::UpdatedAt),
    (b"size", Word::Size),
];

const OTHERS: [&[u8]; 4] = [b"and", b"or", b"not", b"in"];

/// Whether a text is a name: a word of at most 40 bytes that isn't reserved.
#[tactic(auto, unfolding(crate::specs::Names::is_name))]
pub fn is_name(text: &[u8]) -> bool
    ensures { result ≡ spec.is_name text.now }
{
    if text.len() > LONGEST_NAME {
        return false;
    }
    if !is_word(text) {
        return false;
    }
    !is_reserved(text)
}

/// The word of the grammars that a text is.
#[tactic(auto, unfolding(crate::specs::Names::word_of, crate::specs::Names::words))]
pub fn word_of(text: &[u8]) -> Option<Word>
    ensures { result ≡ spec.word_of text.now }
{
    lookup(&WORDS, text)
}

/// Whether a text is a word: a lower-case letter and letters, digits or `_` after it.
pub fn is_word(text: &[u8]) -> bool
    ensures { result ≡ spec.is_word text.now }
{
    match text {
        [] => false,
        [first, rest @ ..] => is_lower(*first) && are_word_bytes(rest),
    }
}

fn are_word_bytes(bytes: &[u8]) -> bool
    ensures { result ≡ list_all is_word_byte bytes.now }
{
    bytes.iter().all(|byte| is_word_byte(*byte))
}

#[tactic(auto, unfolding(crate::specs::Names::is_reserved, crate::specs::Names::others))]
fn is_reserved(text: &[u8]) -> bool
    ensures { result ≡ spec.is_reserved text.now }
{
    if word_of(text).is_some() {
        return true;
    }
    is_among(&OTHERS, text)
}

fn is_among(mut table: &[&[u8]], text: &[u8]) -> bool
    ensures { result ≡ list_any (λ other. bytes_eq other text.now) (map (λ row. row.now) table.entry.now) }
{
    while let [row, rest @ ..] = table {
        if *row == text {
            return true;
        }
        table = rest;
    }
    false
}

/// What stands behind a text in a table.
pub fn lookup<T: Copy>(mut table: &[(&[u8], T)], text: &[u8]) -> Option<T>
    ensures { result ≡ spec.lookup (map (λ row. (row.0.now, row.1)) table.entry.now) text.now }
{
    while let [row, rest @ ..] = table {
        if row.0 == text {
            return Some(row.1);
        }
        table = rest;
    }
    None
}
