//! What no clause says of explanations: what they say of each kind of fault, where they point to, and what is kept for them.
#![tactic(auto)]

#[cfg(test)]
mod bundles;
#[cfg(test)]
mod keeping;
#[cfg(test)]
mod places;
#[cfg(test)]
mod scripts;
#[cfg(test)]
mod templates;
#[cfg(test)]
mod texts;
