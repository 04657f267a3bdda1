//! The unpaged broker in memory, as plain as can be: lists that are scanned. Other brokers are compared with it.
#![tactic(auto)]

mod broker;
mod consumers;
mod consuming;
mod filter;
mod making;
mod plain;
mod queues;
mod rows;
mod same;
mod sending;

pub use broker::Broker;
pub use plain::Plain;
