//! Positions of messages in pages, and which of them are acknowledged at which queue.
#![tactic(auto)]

mod acks;
mod laws;
mod position;
mod row;
mod runs;

pub use acks::Acks;
pub use laws::told_by_what_they_have;
pub use position::Position;
pub use row::AckRow;
