//! The small types that every layer speaks of: texts, names, bytes and lists that contracts see as what they hold, copies of
//! them, and want of memory.
#![tactic(auto)]

pub mod bytes;
pub mod copies;
pub mod memory;
pub mod segments;
pub mod shared;
pub mod text;
pub mod words;

pub use bytes::{ByteKind, SLASH, is_space, prefix_len};
pub use copies::{Copied, copy_list};
pub use memory::Memory;
pub use segments::is_virtual_path;
pub use shared::Shared;
pub use sqlite_items::{Boxed, Items};
pub use text::{Bytes, Ids, Name, Text};
pub use words::{Word, is_name};
