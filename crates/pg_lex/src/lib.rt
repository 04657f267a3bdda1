//! The tokens of a filter.
#![tactic(auto)]

mod first_token;
mod lexing;
mod quotes;
mod reserved_word;
mod symbol;
mod token;
mod wholes;

pub use lexing::{one_reading, tokens};
pub use quotes::unquoted;
pub use reserved_word::ReservedWord;
pub use symbol::Symbol;
pub use token::{Token, TokenKind};
pub use wholes::whole_of;
