//! The state that the journal's entries give, folded one after the other.
#![tactic(auto)]

mod addresses;
mod durable;
mod filters;
mod fold_error;
mod held;
mod holders;
mod journaled;
mod laws;
mod queues;
mod rows;

pub use addresses::AddressRows;
pub use durable::Durable;
pub use fold_error::FoldError;
pub use holders::Holders;
pub use journaled::JournaledRows;
pub use laws::{fold_in_parts, folded_is_sound};
pub use queues::QueueRows;
pub use rows::{AddressRow, JournaledRow, QueueRow};
