//! How entries and batches of them are spelled, through the public calls alone.
#![tactic(auto)]

#[cfg(test)]
mod entries;
