//! What a tag does in its template.

use crate::node::{Key, Node};
use doll_expr::{Expr, Name};

/// What a tag does in its template.
#[derive(Drop)]
pub enum Role {
    /// It says nothing, as most comments.
    Nothing,
    /// It is a node by itself.
    Leaf(Node),
    /// It opens a block.
    Opens(Opening),
    /// It ends a part of the innermost block.
    Closes(Closing),
}

/// A block by the tag that opens it.
#[derive(Drop)]
pub enum Opening {
    /// An `if`, by its first test.
    If(Expr),
    /// What is rendered once for each item of a list.
    Each { list: Expr, name: Name },
    /// What may be kept under a key.
    Cache(Key),
}

/// What ends a part of a block.
#[derive(Drop)]
pub enum Closing {
    /// A further arm begins.
    Elsif(Expr),
    /// The last part begins.
    Else,
    /// The block ends.
    End,
}
