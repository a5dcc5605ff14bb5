//! Templates of a set.

use doll_erb::Tree;
use doll_text::{Name, Text};

/// A template, named by its virtual path, such as `games/_game`.
#[derive(Drop)]
pub struct Template {
    pub name: Name,
    pub source: Text,
    pub tree: Tree,
}
