//! The open consumers, and the deliveries in flight: which consumer was given which message, and has neither acknowledged nor
//! cancelled it.
#![tactic(auto)]

mod consumers;
mod deliveries;
mod delivery;
mod flights;
mod laws;
mod names;

pub use consumers::Consumers;
pub use delivery::Delivery;
pub use flights::Flights;
pub use laws::found_by_message;
