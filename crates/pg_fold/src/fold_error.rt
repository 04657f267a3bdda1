// Why an entry isn't applied.

use pg_disk::Rule;
use std::alloc::AllocError;

/// Why an entry wasn't applied.
#[derive(Clone, Copy, Debug, PartialEq, Eq)]
pub enum FoldError {
    /// The entry's condition fails, which breaks this rule.
    Broken(Rule),
    /// There was no memory.
    Memory,
}

impl From<AllocError> for FoldError {
    ghost use Rattle.std.specs.Prelude.{◌≡◌};
    ghost use Rattle.pg_fold.specs.declared.fold_error.FoldError.TheVariants.{Memory as NoMemory};

    ghost from_gives = { λ _ error. error ≡ NoMemory };

    fn from(_: AllocError) -> Self {
        FoldError::Memory
    }
}
