//! Patterns with `%` and `_` over the characters of texts.
#![tactic(auto)]

mod fixed;
mod next;
mod pattern;
mod piece;

pub use pattern::like;
