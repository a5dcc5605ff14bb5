//! Templates that pages reach, each with the types of its variables.

use crate::types::Typing;

/// A template that a page reaches, by its number in the set, with the types of its variables.
#[derive(Drop)]
pub struct Reached {
    pub template: usize,
    pub typing: Typing,
}
