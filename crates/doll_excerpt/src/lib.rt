//! What is shown of a source: a line with its number and a stretch of it underlined, the line and the column of a byte, and texts
//! of a site in which no character controls a terminal.
//!
//! All is written on a `Paper`, which is UTF-8 and of bounded length.
#![tactic(auto)]

pub mod blocks;
pub mod excerpt;
pub mod numbered;
pub mod paper;
pub mod place;
pub mod shown;
pub mod tags;

pub use blocks::{Block, add_blocks};
pub use excerpt::{Stretch, put_line_at, put_place, put_stretch};
pub use numbered::NumberedLine;
pub use paper::{LONGEST_PAPER, Paper};
pub use place::{Place, byte_at, line_start, place_of};
pub use shown::{put_quoted, put_shown};
pub use tags::{stretch_in, tag_at, token_at};
