//! The keys of cached fragments: what a key is made of, its text, and the reading of a text.
#![tactic(auto)]

pub mod components;
mod escapes;
pub mod parts;
mod reading;
pub mod texts;

pub use components::{
    Component, Components, append_components, append_literal, append_record, append_scalar,
};
pub use parts::{KeyParts, key_prefix, key_text, one_key};
pub use reading::read_key;
pub use texts::{KeyText, Versions};
