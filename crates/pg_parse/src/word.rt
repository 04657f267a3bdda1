use crate::op::Op;
use pg_bytes::Text;

/// The reserved words and symbols that say nothing but themselves.
#[derive(Clone, Copy, Debug, PartialEq, Eq)]
pub enum Mark {
    And,
    Or,
    Not,
    Between,
    In,
    Like,
    Escape,
    Is,
    Null,
    Plus,
    Minus,
    Star,
    Open,
    Close,
    Comma,
}

/// A token, by what it says. The quotes of a text are undone.
#[derive(Drop)]
pub enum Word {
    Mark(Mark),
    Compared(Op),
    Truth(bool),
    Name(Text),
    Whole(i64),
    Text(Text),
    Bad,
}

/// A sign, before one part or between two.
#[derive(Clone, Copy, Debug, PartialEq, Eq)]
pub enum Sign {
    Plus,
    Minus,
}
