//! What no clause says of the outside: what streams, files and clocks of the system do.
#![tactic(auto)]

#[cfg(test)]
mod outside;
