//! The broker over its journal: opening, and executing commands.
#![tactic(auto)]

mod ack;
mod address;
mod cancel;
mod close;
mod commands;
mod consumer;
mod count;
mod drop;
mod engine;
mod lines;
mod naming;
mod opening;
mod queue;
mod receive;
mod recording;
mod send;
mod state;

pub use engine::Engine;
pub use opening::open;
