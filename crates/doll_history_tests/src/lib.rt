//! What no clause says of tables and histories: that their calls find memory, and do on small sites what was worked by hand.
#![tactic(auto)]

#[cfg(test)]
mod histories;
#[cfg(test)]
mod shares;
