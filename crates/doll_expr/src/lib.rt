//! The expressions of the templates: their tokens, their grammar and the reading of them. The small types that they hold come
//! along from the crate of texts.
#![tactic(auto)]

pub mod expr;
mod fault;
mod level;
pub mod lex;
mod literal;
pub mod parse;
pub mod read;
mod signs;
pub mod token;

pub use doll_text::{
    Boxed, Bytes, Copied, Ids, Items, Memory, Name, Text, Word, copy_list, is_name,
};
pub use expr::{Expr, ExprFault, Op, Query};
pub use lex::{LONGEST_SOURCE, tokens_of};
pub use parse::{parse_expr, parse_expr_bytes};
pub use read::{expr_at, fault_at, is_mark, is_word, place, rest_of, stops_at, whole_expr};
pub use token::{Mark, Token, TokenKind};
