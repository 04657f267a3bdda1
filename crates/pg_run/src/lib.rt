//! The command `run`: lines of commands in, one reply line each out, and a journal on the disk.
#![tactic(auto)]

mod answer;
mod laws;
mod program;
mod run;
mod serving;
mod status;

pub use laws::{one_run, one_view};
pub use pg_msg::{LIMITS, Limits};
pub use program::pagebroker;
pub use serving::serve;
pub use status::Status;
