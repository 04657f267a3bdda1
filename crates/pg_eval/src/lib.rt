//! The truth of filters.
#![tactic(auto)]

mod comparison;
mod evaluation;
mod laws;
mod named;
mod sums;
mod tri;
mod value;

pub use evaluation::{eval, matches};
pub use laws::{as_in_logic, one_match};
pub use tri::Tri;
