//! Filters as trees.
#![tactic(auto)]

mod copying;
mod filter;
mod lists;
mod named;
mod next;
mod op;
mod parser;
mod refusal;
mod texts;
mod tree;
mod trees;
mod word;
mod wording;

pub use filter::{filter_of, filter_texts, one_reading, parse};
pub use op::Op;
pub use refusal::FilterError;
pub use texts::Texts;
pub use tree::Tree;
