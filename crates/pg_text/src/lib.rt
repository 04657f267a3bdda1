//! Lines as commands, and replies as lines.
#![tactic(auto)]

mod arguments;
mod parsing;
mod rendering;
mod values;
mod verbs;
mod words;

pub use parsing::{one_command, parse_line};
pub use rendering::render;
