//! Maps from 32-bit numbers in pages with several owners, of which a write copies no page but those on its path that
//! another map shares.
#![tactic(auto)]

pub mod edit;
pub mod map;
pub mod slots;

pub use edit::{Edit, Put, Removal};
pub use map::{InMap, PageMap};
pub use slots::Slots;
