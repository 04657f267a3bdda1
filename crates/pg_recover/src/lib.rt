//! Opening: what the files of a directory denote, made the state of a broker in the next epoch.
#![tactic(auto)]

mod epochs;
mod folding;
mod grouping;
mod listing;
mod paging;
mod reading;
mod recovering;
mod removing;
mod room;
mod syncing;

pub use recovering::{Parts, recover};
pub use room::weights_by_address;
