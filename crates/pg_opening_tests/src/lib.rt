//! What an opening makes of files, through its public calls alone.
#![tactic(auto)]

#[cfg(test)]
mod openings;
#[cfg(test)]
mod payloads;
#[cfg(test)]
mod weights;
