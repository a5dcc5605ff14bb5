//! Scripts: what is done with a site, line by line, and the reading of these lines.
#![tactic(auto)]

pub mod laws;
mod lines;
mod numbers;
pub mod order;
mod pieces;
pub mod script;

pub use laws::targets_are_texts;
pub use order::{Order, Orders};
pub use script::{Script, ScriptFault};
