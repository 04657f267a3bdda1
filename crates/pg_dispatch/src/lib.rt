//! Which message of which queue is given to which consumer.
#![tactic(auto)]

mod dispatcher;

pub use dispatcher::Dispatcher;
