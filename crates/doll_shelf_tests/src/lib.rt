//! What no clause says of keys and shelves: that their calls find memory, what they come to in a few steps that were worked out by
//! hand, and that a long run is that of a plain list.
#![tactic(auto)]

#[cfg(test)]
mod keys;
#[cfg(test)]
mod runs;
#[cfg(test)]
mod shelves;
