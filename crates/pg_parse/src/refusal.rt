// Why there is no tree.
ghost use Rattle.std.specs.Prelude.{◌≡◌};
ghost use Rattle.pg_parse.specs.declared.refusal.FilterError.TheVariants.{Memory as FilterMemory};
ghost use Rattle.pg_parse.specs.declared.refusal.Refusal.TheVariants.{Memory};

use std::alloc::AllocError;

/// Why a filter has no tree.
#[derive(Drop, Debug, PartialEq, Eq)]
pub enum FilterError {
    /// The text is no filter. `at` is the offset in bytes of the first token that can't be next, or the text's length.
    BadFilter { at: usize },
    /// There is no memory for the tree.
    Memory,
}

/// Why there is no tree of the words: so many are left from the first that can't be next, or there is no memory.
#[derive(Drop, Debug)]
pub enum Refusal {
    Left(usize),
    Memory,
}

impl From<AllocError> for Refusal {
    ghost from_gives = { λ _ e. e ≡ Memory };

    fn from(_: AllocError) -> Refusal {
        Refusal::Memory
    }
}

impl From<AllocError> for FilterError {
    ghost from_gives = { λ _ e. e ≡ FilterMemory };

    fn from(_: AllocError) -> FilterError {
        FilterError::Memory
    }
}
