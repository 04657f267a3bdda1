//! Cursors: how far a queue has come in the pages of its address, and which places it may give.
#![tactic(auto)]

mod counting;
mod laws;
mod places;
mod subscription;
mod tail;
mod walking;

pub use laws::{kept_behind, places_of_frames, same_pages_kept, ways_join};
pub use subscription::Subscription;
pub use tail::Tail;
