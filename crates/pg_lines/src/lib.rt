//! The lines of a source, read through a buffer and up to a limit of bytes.
#![tactic(auto)]

mod read_error;
mod reader;

pub use read_error::ReadError;
pub use reader::LineReader;
