//! The tokens of expressions and of the templates' tags.

use crate::expr::{ExprFault, Query};
use doll_text::{Name, Text, Word};

/// A token, and the place of its first byte.
#[derive(Drop)]
pub struct Token {
    pub kind: TokenKind,
    /// Counted in bytes from the text's first.
    pub at: u32,
}

/// What a token is. A list of tokens ends in `End` or in a `Fault`, which stand nowhere else.
#[derive(Drop)]
pub enum TokenKind {
    /// A decimal number.
    Number(i64),
    /// A literal text, its escapes read.
    Text(Text),
    /// A name, without the `@` that may stand before it.
    Name(Name),
    /// `empty?`, `any?` or `nil?`, which stand directly after a dot alone.
    Ask(Query),
    Word(Word),
    Mark(Mark),
    /// The end of the text.
    End,
    /// What begins no token, is a wrong one, or is one too many.
    Fault(ExprFault),
}

/// The marks of the grammars of expressions and tags.
#[derive(Clone, Copy, PartialEq, Eq)]
pub enum Mark {
    /// `(`
    Open,
    /// `)`
    Close,
    /// `.`
    Dot,
    /// `!`
    Not,
    /// `-`
    Minus,
    /// `+`
    Plus,
    /// `*`
    Times,
    /// `==`
    Equal,
    /// `!=`
    NotEqual,
    /// `<`
    Less,
    /// `<=`
    LessOrEqual,
    /// `>`
    Greater,
    /// `>=`
    GreaterOrEqual,
    /// `&&`
    And,
    /// `||`
    Or,
    /// `,`
    Comma,
    /// `:`
    Colon,
    /// `[`
    OpenBracket,
    /// `]`
    CloseBracket,
    /// `|`
    Bar,
}
