//! The tree of a template.

use doll_expr::{Expr, ExprFault, Items, Name, Text};
use std::alloc::AllocError;

/// A part of a template. `at` is the byte place of the `<%` of its tag.
#[cycle(tree)]
#[derive(Drop)]
pub enum Node {
    /// A text, written as it is.
    Text(Text),
    /// The value, written with `& < > " '` escaped.
    Write {
        at: u32,
        expr: Expr,
    },
    /// The value, written as it is.
    Raw {
        at: u32,
        expr: Expr,
    },
    /// The first arm whose test holds, else the last part.
    If {
        at: u32,
        arms: Arms,
        otherwise: Tree,
    },
    /// The body once for each item of a list, in order, with the item under the name.
    Each {
        at: u32,
        list: Expr,
        name: Name,
        body: Tree,
    },
    /// A fragment that may be kept under its key. `block` numbers these tags from 0 in the order of the text.
    Cache {
        at: u32,
        block: u32,
        key: Key,
        body: Tree,
    },
    /// A partial with its variables.
    Render {
        at: u32,
        name: Name,
        locals: Locals,
    },
    /// A partial once for each item of a list.
    Collection {
        at: u32,
        name: Name,
        list: Expr,
        item: Name,
        cached: bool,
    },
    /// A partial that the template stands on without rendering it.
    Depends {
        at: u32,
        name: Name,
    },
}

/// An arm of an `if`: the place of its tag, its test and what it renders.
#[cycle(tree)]
#[derive(Drop)]
pub struct Arm {
    pub at: u32,
    pub test: Expr,
    pub body: Tree,
}

pub type Tree = Items<Node>;

pub type Arms = Items<Arm>;

/// A variable that a partial is rendered with.
#[derive(Drop)]
pub struct Local {
    pub name: Name,
    pub value: Expr,
}

pub type Locals = Items<Local>;

/// A part of a fragment's key.
#[derive(Drop)]
pub enum KeyPart {
    /// Any expression; its value belongs to the key.
    Path(Expr),
    /// A text that stands by itself, or the name behind a colon.
    Literal(Text),
}

pub type Key = Items<KeyPart>;

/// Why a text is no template. `at` is the byte place of the `<%` of the tag.
#[derive(Clone, Copy, PartialEq, Eq)]
pub enum ErbFault {
    /// A tag that no `%>` ends.
    UnclosedTag { at: u32 },
    /// A tag that begins with `<%-`.
    UnknownTag { at: u32 },
    /// An `elsif`, `else` or `end` that fits no open block.
    StrayEnd { at: u32 },
    /// A block that no `end` closes.
    MissingEnd { at: u32 },
    /// A tag whose content is no sentence; the fault's own place counts from the content's first byte.
    BadExpr { at: u32, fault: ExprFault },
    /// The 65th block open at once.
    TooDeep { at: u32 },
    /// No memory was found.
    Memory,
}

impl From<doll_expr::Memory> for ErbFault {
    ghost use Rattle.std.specs.Prelude.{◌≡◌};
    ghost use Rattle.doll_erb.specs.declared.node.ErbFault.TheVariants.{Memory};

    ghost from_gives = { λ _ e. e ≡ Memory };

    fn from(_error: doll_expr::Memory) -> ErbFault {
        ErbFault::Memory
    }
}

impl From<AllocError> for ErbFault {
    ghost use Rattle.std.specs.Prelude.{◌≡◌};
    ghost use Rattle.doll_erb.specs.declared.node.ErbFault.TheVariants.{Memory};

    ghost from_gives = { λ _ e. e ≡ Memory };

    fn from(_error: AllocError) -> ErbFault {
        ErbFault::Memory
    }
}
