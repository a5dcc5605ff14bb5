//! The core: one history and one shelf, and the pages that are rendered from them side by side.
#![tactic(auto)]

pub mod event;
pub mod laws;
mod opening;
mod session;
mod stepping;
mod turns;

pub use event::{AUTHOR, Event};
pub use laws::{known_pages_open, turns_end_with_a_page};
pub use session::MemWorld;
pub use stepping::Core;
