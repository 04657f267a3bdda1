//! The system as the broker's outside: a directory as its disk, an output, an input, and the standard streams.
#![tactic(auto)]

mod dir_site;
mod folder;
mod in_source;
mod names;
mod open_files;
mod standard;

pub use dir_site::DirSite;
pub use in_source::InSource;
pub use names::{file_id, file_name};
pub use standard::Standard;
