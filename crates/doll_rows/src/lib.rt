//! What no clause says of the crates below: that their calls find memory, and that the definitions mean what a reader of
//! the formats would expect, on pages and faults worked by hand.
#![tactic(auto)]

#[cfg(test)]
mod answer;
#[cfg(test)]
mod calls;
#[cfg(test)]
mod faults;
#[cfg(test)]
mod files;
#[cfg(test)]
mod limits;
#[cfg(test)]
mod pages;
#[cfg(test)]
mod settings;
#[cfg(test)]
mod sites;
#[cfg(test)]
mod tables;
