//! The messages of a queue that stand in pages, as a list. The crate has no code but laws.
#![tactic(auto)]

mod laws;

pub use laws::{count_left, first_left, frames_change};
