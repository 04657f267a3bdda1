// A second tree that is equal to one. What copies a leaf stands apart, so that a level of the tree takes little stack.
ghost use Rattle.std.specs.Prelude.{◌≡◌, IfOk};

use crate::texts::Texts;
use crate::tree::Tree;
use pg_bytes::Text;
use sqlite_items::Boxed;
use std::alloc::{AllocError, Global};

impl Tree {
    /// A second tree that is equal to this one. Fails only where there is no memory for it. Calls itself as deep as the
    /// tree is.
    #[cycle(copying)]
    pub fn copy(&self, alloc: Global) -> Result<Tree, AllocError>
        ensures { IfOk result (λ tree. tree ≡ self.now) }
    {
        match self {
            Tree::Or(left, right) => {
                Ok(Tree::Or(copy_boxed(alloc, left)?, copy_boxed(alloc, right)?))
            }
            Tree::And(left, right) => {
                Ok(Tree::And(copy_boxed(alloc, left)?, copy_boxed(alloc, right)?))
            }
            Tree::Not(tree) => Ok(Tree::Not(copy_boxed(alloc, tree)?)),
            Tree::In(name, texts) => copy_in(alloc, name, texts),
            Tree::Like(name, pattern, escape) => copy_like(name, pattern, *escape),
            Tree::IsNull(name) => Ok(Tree::IsNull(name.copy()?)),
            Tree::Between(tree, low, high) => Ok(Tree::Between(
                copy_boxed(alloc, tree)?,
                copy_boxed(alloc, low)?,
                copy_boxed(alloc, high)?,
            )),
            Tree::Compare(op, left, right) => {
                Ok(Tree::Compare(*op, copy_boxed(alloc, left)?, copy_boxed(alloc, right)?))
            }
            Tree::Plus(left, right) => {
                Ok(Tree::Plus(copy_boxed(alloc, left)?, copy_boxed(alloc, right)?))
            }
            Tree::Minus(left, right) => {
                Ok(Tree::Minus(copy_boxed(alloc, left)?, copy_boxed(alloc, right)?))
            }
            Tree::Times(left, right) => {
                Ok(Tree::Times(copy_boxed(alloc, left)?, copy_boxed(alloc, right)?))
            }
            Tree::Positive(tree) => Ok(Tree::Positive(copy_boxed(alloc, tree)?)),
            Tree::Negative(tree) => Ok(Tree::Negative(copy_boxed(alloc, tree)?)),
            Tree::Name(name) => Ok(Tree::Name(name.copy()?)),
            Tree::Whole(whole) => Ok(Tree::Whole(*whole)),
            Tree::Text(text) => Ok(Tree::Text(text.copy()?)),
            Tree::Truth(truth) => Ok(Tree::Truth(*truth)),
        }
    }
}

#[cycle(copying)]
fn copy_boxed(alloc: Global, tree: &Boxed<Tree>) -> Result<Boxed<Tree>, AllocError>
    ensures { IfOk result (λ boxed. boxed ≡ tree.now) }
{
    Boxed::new(alloc, tree.get().copy(alloc)?)
}

fn copy_in(alloc: Global, name: &Text, texts: &Texts) -> Result<Tree, AllocError>
    ensures { IfOk result (λ tree. tree ≡ Tree.In name.now texts.now) }
{
    Ok(Tree::In(name.copy()?, texts.copy(alloc)?))
}

fn copy_like(name: &Text, pattern: &Text, escape: Option<char>) -> Result<Tree, AllocError>
    ensures { IfOk result (λ tree. tree ≡ Tree.Like name.now pattern.now escape) }
{
    Ok(Tree::Like(name.copy()?, pattern.copy()?, escape))
}
