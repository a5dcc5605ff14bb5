//! Templates: texts and tags, and the tree that they make.
#![tactic(auto)]

mod frame;
mod key;
mod mark;
pub mod node;
pub mod partial;
pub mod piece;
mod render;
mod role;
mod tag;
pub mod template;

pub use node::{Arm, Arms, ErbFault, Key, KeyPart, Local, Locals, Node, Tree};
pub use partial::is_partial;
pub use piece::{Span, Tag, TagKind, Tags, cut};
pub use template::parse_template;
