//! Cutting a template into texts and tags.

ghost use Rattle.std.specs.Prelude.{◌≡◌, ◌<◌, ◌≤◌, ◌+◌, ◌^◌, length, IfOk, IfSome, Ok};
ghost use Rattle.doll_text.specs.Gives.{Gives};
ghost use Rattle.doll_erb.specs.Cuts.{cut_of, Tiles};
ghost use Rattle.doll_erb.specs.Pieces.{begins_with, place_of, line_end, kind_of, mark_len, trims, tag_piece, text_piece, opened_piece, piece_at, IsInside};

use crate::node::ErbFault;
use doll_expr::{Items, LONGEST_SOURCE};
use std::alloc::Global;

/// A part of a text: from the byte at `from` up to, and without, that at `to`.
#[derive(Clone, Copy, PartialEq, Eq)]
pub struct Span {
    pub from: u32,
    pub to: u32,
}

/// What a piece of a template is, by the bytes after its `<%`.
#[derive(Clone, Copy, PartialEq, Eq)]
pub enum TagKind {
    /// No tag, but text.
    Text,
    /// `<%=`: the value, escaped.
    Write,
    /// `<%==`: the value as it is.
    Raw,
    /// `<%`: a block, its end, or a part of one.
    Run,
    /// `<%#`.
    Comment,
}

/// A piece of a template. The spans of a template's pieces follow one another from its first byte to its last.
#[derive(Clone, Copy, PartialEq, Eq)]
pub struct Tag {
    pub kind: TagKind,
    /// The whole piece, with the line end that `-%>` drops.
    pub span: Span,
    /// What is written, of a text; what stands between the marks, of a tag.
    pub content: Span,
    /// Whether the tag ends with `-%>`.
    pub trim: bool,
}

/// The pieces of a template, in its order.
pub type Tags = Items<Tag>;

/// Cuts the bytes of a template into its pieces: texts and tags. The first tag that isn't closed or isn't known is the fault.
pub fn cut(alloc: Global, text: &[u8]) -> Result<Tags, ErbFault>
    requires { length text.now ≤ LONGEST_SOURCE }
    ensures exact { Gives ErbFault.Memory (cut_of text.now) result }
    // No byte is left out, and none stands in two pieces.
    ensures tiles { IfOk result (λ tags. Tiles 0 tags (length text.now)) }
{
    let mut tags = Items::new(alloc);
    let mut at = 0;
    let mut rest = text;
    while !rest.is_empty() {
        let tag = piece_at(at, rest)?;
        rest = rest.split_at((tag.span.to - at) as usize).1;
        at = tag.span.to;
        tags.push(tag)?;
    }
    Ok(tags)
}

fn begins_with(bytes: &[u8], a: u8, b: u8) -> bool
    ensures { result ≡ begins_with a b bytes.now }
{
    match bytes {
        [x, y, ..] => *x == a && *y == b,
        _ => false,
    }
}

/// Where a mark of two bytes first stands.
fn place_of(bytes: &[u8], a: u8, b: u8) -> Option<usize>
    ensures value { result ≡ place_of a b bytes.now }
    ensures within { IfSome result (λ place. place + 2 ≤ length bytes.now) }
{
    let mut rest = bytes;
    let mut place = 0;
    while let [_, more @ ..] = rest {
        if begins_with(rest, a, b) {
            return Some(place);
        }
        rest = more;
        place += 1;
    }
    None
}

/// The length of the line end at the front: `\n`, `\r\n` or none.
fn line_end(bytes: &[u8]) -> u32
    ensures value { result ≡ line_end bytes.now }
    ensures within { result ≤ length bytes.now }
{
    match bytes {
        [b'\n', ..] => 1,
        [b'\r', b'\n', ..] => 2,
        _ => 0,
    }
}

/// The kind of a tag by the bytes after its `<%`.
fn kind_of(inside: &[u8]) -> TagKind
    ensures value { result ≡ kind_of inside.now }
    ensures short { mark_len result ≤ length inside.now }
{
    match inside {
        [b'=', b'=', ..] => TagKind::Raw,
        [b'=', ..] => TagKind::Write,
        [b'#', ..] => TagKind::Comment,
        _ => TagKind::Run,
    }
}

/// How many bytes name a kind.
fn mark_len(kind: TagKind) -> usize
    ensures value { result ≡ mark_len kind }
    ensures short { result ≤ 2 }
{
    match kind {
        TagKind::Raw => 2,
        TagKind::Write | TagKind::Comment => 1,
        TagKind::Text | TagKind::Run => 0,
    }
}

/// Whether the closing mark of a tag is `-%>`, by what stands between its marks.
fn trims(kind: TagKind, inside: &[u8]) -> bool
    ensures { result ≡ trims kind inside.now }
{
    match inside.last() {
        Some(last) => mark_len(kind) < inside.len() && *last == b'-',
        None => false,
    }
}

/// The tag that opens at a place, by the bytes between its marks and those after it.
fn tag_piece(at: u32, inside: &[u8], after: &[u8]) -> Tag
    requires { at + length inside.now + length after.now + 4 < 2 ^ 31 }
    ensures value { result ≡ tag_piece at inside.now after.now }
    ensures inside { IsInside at (length inside.now + length after.now + 4) result }
{
    let kind = kind_of(inside);
    let trim = trims(kind, inside);
    let inside_end = at + 2 + inside.len() as u32;
    let dropped = if trim { line_end(after) } else { 0 };
    Tag {
        kind,
        span: Span {
            from: at,
            to: inside_end + 2 + dropped,
        },
        content: Span {
            from: at + 2 + mark_len(kind) as u32,
            to: inside_end - u32::from(trim),
        },
        trim,
    }
}

/// What begins with `<%`: a written `<%` for `<%%`, else a tag.
fn opened_piece(at: u32, bytes: &[u8]) -> Result<Tag, ErbFault>
    requires fits { at + length bytes.now < 2 ^ 30 }
    requires opens { 2 ≤ length bytes.now }
    ensures value { result ≡ opened_piece at bytes.now }
    ensures inside { IfOk result (IsInside at (length bytes.now)) }
{
    let inner = &bytes[2..];
    if bytes.len() > 2 && bytes[2] == b'%' {
        return Ok(text_piece(at, 2, 1));
    }
    let Some(end) = place_of(inner, b'%', b'>') else {
        return Err(ErbFault::UnclosedTag { at });
    };
    if inner[0] == b'-' {
        return Err(ErbFault::UnknownTag { at });
    }
    Ok(tag_piece(at, &inner[..end], &inner[end + 2..]))
}

/// A text from a place on, of which all but the last `passed` bytes are written.
fn text_piece(at: u32, written: u32, passed: u32) -> Tag
    requires { at + written + passed < 2 ^ 31 }
    ensures { result ≡ text_piece at written passed }
{
    Tag {
        kind: TagKind::Text,
        span: Span {
            from: at,
            to: at + written + passed,
        },
        content: Span {
            from: at,
            to: at + written,
        },
        trim: false,
    }
}

/// The piece at the front of the bytes that are left of a template from the place `at` on.
fn piece_at(at: u32, bytes: &[u8]) -> Result<Tag, ErbFault>
    requires fits { at + length bytes.now < 2 ^ 30 }
    requires some { 0 < length bytes.now }
    ensures value { result ≡ piece_at at bytes.now }
    ensures inside { IfOk result (IsInside at (length bytes.now)) }
{
    match place_of(bytes, b'<', b'%') {
        None => Ok(text_piece(at, bytes.len() as u32, 0)),
        Some(0) => opened_piece(at, bytes),
        Some(place) => Ok(text_piece(at, place as u32, 0)),
    }
}
