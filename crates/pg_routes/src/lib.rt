//! The names of the addresses and of the live queues, and which queues an address has. And the laws of the broker.
#![tactic(auto)]

mod laws;
mod lists;
mod routes;
mod routing;

pub use laws::{
    determined, each_leads_on, found_by_name, in_order, leaves, left, opened_valid, refused,
    the_greatest_goes_last, undecided, valid_kept,
};
pub use routes::Routes;
