//! A broker whose messages stand in two places, with the broker itself and in pages, as one broker. The crate has no code
//! but laws.
#![tactic(auto)]

mod laws;

pub use laws::{lifts, nothing_in_pages, same_causes, split_kept, steps_in_pages};
