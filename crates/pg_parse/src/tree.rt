use crate::op::Op;
use crate::texts::Texts;
use pg_bytes::Text;
use sqlite_items::Boxed;

/// What a filter means. Operators of two sides group to the left, and parentheses leave no variant.
#[derive(Drop)]
pub enum Tree {
    Or(Boxed<Tree>, Boxed<Tree>),
    And(Boxed<Tree>, Boxed<Tree>),
    Not(Boxed<Tree>),
    In(Text, Texts),
    Like(Text, Text, Option<char>),
    IsNull(Text),
    Between(Boxed<Tree>, Boxed<Tree>, Boxed<Tree>),
    Compare(Op, Boxed<Tree>, Boxed<Tree>),
    Plus(Boxed<Tree>, Boxed<Tree>),
    Minus(Boxed<Tree>, Boxed<Tree>),
    Times(Boxed<Tree>, Boxed<Tree>),
    Positive(Boxed<Tree>),
    Negative(Boxed<Tree>),
    Name(Text),
    Whole(i64),
    Text(Text),
    Truth(bool),
}
