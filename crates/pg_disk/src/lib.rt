//! The outside of the broker, as the crates above see it: files, an output and a source.
#![tactic(auto)]

mod call_record;
mod crash;
mod disk;
mod fault;
mod file_id;
mod memory_site;
mod memory_source;
mod memory_state;
mod site;
mod source;

pub use call_record::CallKind;
pub use crash::Pick;
pub use disk::Disk;
pub use fault::{Damage, Failed, Fault, ListError, Rule, SiteFault};
pub use file_id::{FileId, Kind};
pub use memory_site::MemSite;
pub use memory_source::MemSource;
pub use site::Site;
pub use source::Source;
