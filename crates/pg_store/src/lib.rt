//! The pages of an address: that there are none from its first one on, or which one is written; and those of all addresses.
#![tactic(auto)]

mod either;
mod every_laws;
mod frame_laws;
mod laws;
mod opening;
mod paging;
mod starting;
mod store;
mod stores;

pub use every_laws::{all_left, all_open, all_paged, all_stand};
pub use frame_laws::{
    frames_left, frames_stand, ids_stay_distinct, quiet_pages_surely_have, rules_stay,
};
pub use laws::{kept_elsewhere, left_as_known};
pub use store::{NormalStore, PagingStore, Store};
pub use stores::Stores;
