//! What entries come to, through the public calls of the fold alone.
#![tactic(auto)]

#[cfg(test)]
mod entries;
#[cfg(test)]
mod orders;
#[cfg(test)]
mod rows;
#[cfg(test)]
mod rules;
