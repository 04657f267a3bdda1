//! The entries of the journal, and how a batch of them is spelled.
#![tactic(auto)]

mod decoding;
mod encoding;
mod entry;

pub use decoding::{decode_batch, one_reading};
pub use encoding::encode_batch;
pub use entry::Entry;
