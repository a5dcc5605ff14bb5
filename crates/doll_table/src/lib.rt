//! Rows by model and id.
#![tactic(auto)]

mod id_list;
mod links;
pub mod looking;
mod model_rows;
pub mod rows;
pub mod table;

pub use looking::Looking;
pub use rows::{Assoc, Rows};
pub use table::Table;
