//! What no clause says of scripts: that reading them finds memory, and which lines are orders, worked out by hand.
#![tactic(auto)]

#[cfg(test)]
mod scripts;
