// Trees of parts.
ghost use Rattle.std.specs.Prelude.{◌≡◌, IfOk};
ghost use Rattle.pg_parse.specs.Parsing.{sum_tree, signed_tree};

use crate::tree::Tree;
use crate::word::Sign;
use sqlite_items::Boxed;
use std::alloc::{AllocError, Global};

// The two sides of an operator.
pub fn sides(
    alloc: Global,
    left: Tree,
    right: Tree,
) -> Result<(Boxed<Tree>, Boxed<Tree>), AllocError>
    ensures { IfOk result (λ sides. (sides.0 ≡ left) × (sides.1 ≡ right)) }
{
    Ok((Boxed::new(alloc, left)?, Boxed::new(alloc, right)?))
}

// The sum or the difference.
pub fn added(alloc: Global, sign: Sign, left: Tree, right: Tree) -> Result<Tree, AllocError>
    ensures { IfOk result (λ tree. tree ≡ sum_tree sign left right) }
{
    let (first, second) = sides(alloc, left, right)?;
    match sign {
        Sign::Plus => Ok(Tree::Plus(first, second)),
        Sign::Minus => Ok(Tree::Minus(first, second)),
    }
}

// The tree with a sign before it.
pub fn signed(alloc: Global, sign: Sign, tree: Tree) -> Result<Tree, AllocError>
    ensures { IfOk result (λ signed. signed ≡ signed_tree sign tree) }
{
    let boxed = Boxed::new(alloc, tree)?;
    match sign {
        Sign::Plus => Ok(Tree::Positive(boxed)),
        Sign::Minus => Ok(Tree::Negative(boxed)),
    }
}

// NOT of the tree.
pub fn inverted(alloc: Global, tree: Tree) -> Result<Tree, AllocError>
    ensures { IfOk result (λ inverted. inverted ≡ Tree.Not tree) }
{
    Ok(Tree::Not(Boxed::new(alloc, tree)?))
}
