use crate::FileId;
use std::alloc::AllocError;

/// The device answered an error. Its count of faults rose.
#[derive(Clone, Copy, Debug, PartialEq, Eq)]
pub struct Failed;

/// Why a listing was not answered.
#[derive(Clone, Copy, Debug, PartialEq, Eq)]
pub enum ListError {
    /// The disk failed.
    Failed,
    /// There was no memory for the list.
    Memory,
}

/// The rule of well formed files that is broken.
#[derive(Clone, Copy, Debug, PartialEq, Eq)]
pub enum Rule {
    /// A batch is cut short.
    Cut,
    /// Bytes are no spelling of what should stand there.
    Spelling,
    /// A name, a number or a reference is none that may stand there.
    Name,
    /// Something stands there a second time.
    Repeat,
    /// A page is missing between two others.
    Gap,
    /// The file of a large message is missing or has another length.
    Large,
    /// The messages of an address are more than its memory holds.
    Room,
}

/// Where which rule is broken.
#[derive(Clone, Copy, Debug, PartialEq, Eq)]
pub struct Damage {
    pub file: FileId,
    /// The offset in the file, in bytes.
    pub at: u64,
    pub rule: Rule,
}

/// Why a call over a disk gave up.
#[derive(Clone, Copy, Debug, PartialEq, Eq)]
pub enum Fault {
    /// The disk failed.
    Failed,
    /// What was read breaks a rule.
    Damaged(Damage),
    /// A stated limit would be passed.
    Spent,
    /// There was no memory.
    Memory,
}

/// Why a call over a disk and an output gave up.
#[derive(Clone, Copy, Debug, PartialEq, Eq)]
pub enum SiteFault {
    /// The disk's part of it.
    Disk(Fault),
    /// The output failed.
    Sink,
}

impl From<Failed> for Fault {
    ghost use Rattle.std.specs.Prelude.{◌≡◌};
    ghost use Rattle.pg_disk.specs.declared.fault.Fault.TheVariants.{Failed as TheFailed};

    ghost from_gives = { λ _ e. e ≡ TheFailed };

    fn from(_: Failed) -> Self {
        Fault::Failed
    }
}

impl From<AllocError> for Fault {
    ghost use Rattle.std.specs.Prelude.{◌≡◌};
    ghost use Rattle.pg_disk.specs.declared.fault.Fault.TheVariants.{Memory as TheMemory};

    ghost from_gives = { λ _ e. e ≡ TheMemory };

    fn from(_: AllocError) -> Self {
        Fault::Memory
    }
}

impl From<ListError> for Fault {
    ghost use Rattle.pg_disk.specs.Counts.{fault_of_listing};
    ghost use Rattle.std.specs.Prelude.{◌≡◌};

    ghost from_gives = { λ error e. e ≡ fault_of_listing error };

    fn from(error: ListError) -> Self {
        match error {
            ListError::Failed => Fault::Failed,
            ListError::Memory => Fault::Memory,
        }
    }
}

impl From<Fault> for SiteFault {
    ghost use Rattle.std.specs.Prelude.{◌≡◌};
    ghost use Rattle.pg_disk.specs.declared.fault.SiteFault.TheVariants.{Disk as OfDisk};

    ghost from_gives = { λ fault e. e ≡ OfDisk fault };

    fn from(fault: Fault) -> Self {
        SiteFault::Disk(fault)
    }
}

impl From<AllocError> for SiteFault {
    ghost use Rattle.std.specs.Prelude.{◌≡◌};
    ghost use Rattle.pg_disk.specs.declared.fault.Fault.TheVariants.{Memory as TheMemory};
    ghost use Rattle.pg_disk.specs.declared.fault.SiteFault.TheVariants.{Disk as OfDisk};

    ghost from_gives = { λ _ e. e ≡ OfDisk TheMemory };

    fn from(_: AllocError) -> Self {
        SiteFault::Disk(Fault::Memory)
    }
}
