//! What no clause says of reports, jobs and cores: that their calls find memory, and what they come to on small sites, worked out by hand.
#![tactic(auto)]

#[cfg(test)]
mod driving;
#[cfg(test)]
mod jobs;
#[cfg(test)]
mod lines;
#[cfg(test)]
mod sessions;
#[cfg(test)]
mod site;
