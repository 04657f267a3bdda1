//! The entries of a queue: its messages in their order, and which of them are taken.
#![tactic(auto)]

mod laws;
mod queue;
mod queues;
mod taken;

pub use laws::{as_the_rows_say, marks_stay_apart, others_stay};
pub use queue::Queue;
pub use queues::Queues;
pub use taken::Taken;
