//! What no clause says of typing a set and of its lint: that they find memory, and tell the faults that were worked out by hand.
#![tactic(auto)]

#[cfg(test)]
mod faults;
#[cfg(test)]
mod lints;
#[cfg(test)]
mod sites;
#[cfg(test)]
mod typing;
