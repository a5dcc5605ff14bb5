//! The blocks that are open at a place of a template.

use crate::node::{Arms, Key, Tree};
use doll_expr::{Expr, Name};

/// An open block, with the nodes that stand before it in the block round it. `at` is the place of its tag.
#[derive(Drop)]
pub enum Frame {
    /// An `if` without `else` so far: the arms that are read, and the place and the test of that which is open.
    If {
        at: u32,
        arms: Arms,
        arm_at: u32,
        test: Expr,
        outer: Tree,
    },
    /// The last part of an `if`.
    Else {
        at: u32,
        arms: Arms,
        outer: Tree,
    },
    Each {
        at: u32,
        list: Expr,
        name: Name,
        outer: Tree,
    },
    Cache {
        at: u32,
        number: u32,
        key: Key,
        outer: Tree,
    },
}
