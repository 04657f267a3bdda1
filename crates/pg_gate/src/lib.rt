//! Files of batches behind gates: a batch counts whole or not at all, at whatever moment the machine stops.
#![tactic(auto)]

mod at_rest;
mod fill;
mod gate;
mod places;
mod scanning;
mod small;
mod spans;
mod steps;

pub use at_rest::Rest;
pub use fill::Filling;
pub use gate::lay;
pub use places::{peek, read_span, span_behind};
pub use scanning::scan;
pub use spans::Span;
