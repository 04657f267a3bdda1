// Why there was no further line.
use pg_disk::Failed;
use std::alloc::AllocError;

/// Why there was no further line.
#[derive(Clone, Copy, Debug, PartialEq, Eq)]
pub enum ReadError {
    /// The source failed.
    Failed,
    /// The byte past the limit was read.
    TooLong,
    /// There was no memory.
    Memory,
}

impl From<Failed> for ReadError {
    ghost use Rattle.std.specs.Prelude.{◌≡◌};
    ghost use Rattle.pg_lines.specs.declared.read_error.ReadError.TheVariants.{Failed as SourceFailed};

    ghost from_gives = { λ _ error. error ≡ SourceFailed };

    fn from(_: Failed) -> Self {
        ReadError::Failed
    }
}

impl From<AllocError> for ReadError {
    ghost use Rattle.std.specs.Prelude.{◌≡◌};
    ghost use Rattle.pg_lines.specs.declared.read_error.ReadError.TheVariants.{Memory as NoMemory};

    ghost from_gives = { λ _ error. error ≡ NoMemory };

    fn from(_: AllocError) -> Self {
        ReadError::Memory
    }
}
