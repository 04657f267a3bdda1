//! The broker that replies are those of, as definitions: its state, what a line does to it, and what line after line does.
//! The crate has no code but two laws. Those of steps and of runs stand in `pg_routes`.
#![tactic(auto)]

mod laws;

pub use laws::{one_refusal, one_routing};
