//! Where a rendering through a cache stopped, and the steps from call to call.
#![tactic(auto)]

pub mod asking;
pub mod choosing;
pub mod collection;
pub mod context;
pub mod flow;
pub mod frame;
pub mod keys;
pub mod opening;
pub mod output;
pub mod scope;
pub mod stack;
pub mod walk;

pub use asking::{ask_block, ask_items, write_value};
pub use choosing::{arm_body, chosen_arm};
pub use collection::{ITEM_BLOCK, ItemAsks, item_asks};
pub use context::Context;
pub use flow::{Asks, Flow, ask_for, block_id, fresh_of};
pub use frame::{Frame, Kept, KeptItem};
pub use keys::{BlockKey, block_key, prefix_at};
pub use opening::route_scope;
pub use output::Output;
pub use scope::{Scope, alone, bind, locals_scope, unbind};
pub use stack::{Answer, AtBlock, AtCollection, Stack};
pub use walk::{Walk, begin_walk};
