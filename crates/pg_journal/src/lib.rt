//! The journal: which of its generations counts, and what it says at whatever moment the machine stops.
#![tactic(auto)]

mod backwards;
mod generations;
mod journal;

pub use journal::Journal;
