//! What no clause says of worlds: that their calls find memory, and what they come to in a few steps on a small site.
#![tactic(auto)]

#[cfg(test)]
mod site;
#[cfg(test)]
mod untold;
#[cfg(test)]
mod worlds;
