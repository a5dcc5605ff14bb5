//! The tree of an expression.

use doll_text::{Boxed, Name, Text};

/// An expression of a template's tag.
#[derive(Drop)]
pub enum Expr {
    Nil,
    True,
    False,
    /// A whole number of 64 bits.
    Int(i64),
    /// A literal text, its escapes read.
    Text(Text),
    /// A variable.
    Var(Name),
    /// An attribute, a foreign key, `id`, `updated_at` or an association of a record.
    Step(Boxed<Expr>, Name),
    /// A question to a value.
    Ask(Boxed<Expr>, Query),
    Not(Boxed<Expr>),
    Neg(Boxed<Expr>),
    Binary(Op, Boxed<Expr>, Boxed<Expr>),
}

/// What may be asked of a value: `size`, `empty?`, `any?` and `nil?`.
#[derive(Clone, Copy, PartialEq, Eq)]
pub enum Query {
    Size,
    Empty,
    Any,
    IsNil,
}

/// The operators with two sides, from the loosest to the tightest.
#[derive(Clone, Copy, PartialEq, Eq)]
pub enum Op {
    Or,
    And,
    Eq,
    Ne,
    Lt,
    Le,
    Gt,
    Ge,
    Add,
    Sub,
    Mul,
}

/// Why a text is no expression. `at` counts bytes from the text's first.
#[derive(Clone, Copy, PartialEq, Eq)]
pub enum ExprFault {
    /// A byte that begins no token, a wrong escape, `#{` in a text in `"`, or a token after which no sentence goes on.
    /// Where the text ends too early with no open parenthesis, `at` is its length.
    Unexpected { at: u32 },
    /// A literal text without its closing mark, or, where the text ends too early, its innermost open `(`.
    Unclosed { at: u32 },
    /// A number over 9,223,372,036,854,775,807.
    NumberTooLarge { at: u32 },
    /// The 201st token.
    TooDeep { at: u32 },
    /// No memory was found.
    Memory,
}
