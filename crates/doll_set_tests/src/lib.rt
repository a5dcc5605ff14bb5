//! What no clause says of sets of templates: that reading them finds memory, and gives the digests and refusals that were worked
//! out by hand.
#![tactic(auto)]

#[cfg(test)]
mod sets;
