// The command `run` over a site and a source.
ghost use Rattle.std.specs.Prelude.{◌≡◌, ◌⊎◌, List, ℕ, Some, [], ◌∷◌, IfErr};
ghost use Rattle.pg_disk.specs.Sites.{Steps};
ghost use Rattle.pg_disk.specs.Account.{account, IsHonest};
ghost use Rattle.pg_disk.specs.Views.{as_read};
ghost use Rattle.pg_model.specs.Broker.{Durable};
ghost use Rattle.pg_recover.specs.Denotation.{Denotes};
ghost use Rattle.pg_recover.specs.Recovered.{AreIllFormed, HasNoEpoch, KeepsFiles};
ghost use Rattle.pg_recover.specs.WellFormed.{WellFormed};
ghost use Rattle.pg_run.specs.Ran.{RanOpened, ServesOpened, IsSpared, input_of};
ghost use Rattle.pg_run.specs.Statuses.{CountsStatus, CountsStop, IsAnyBut, IsDamagedStop, IsStatus, code_of, faults_of, status_of, status_of_stop};

use crate::run::{Stop, answer_lines};
use crate::status::Status;
use pg_disk::{Fault, Site, SiteFault, Source};
use pg_engine::open;
use pg_lines::ReadError;
use pg_msg::Limits;
use std::alloc::Global;

/// The command `run`: opens the broker in the state that the files denote, executes the lines of the source in order,
/// and tells each reply once its line's change is on the disk. It answers the code of its status.
pub fn serve<S: Site, R: Source>(alloc: Global, source: &mut R, site: &mut S, limits: &Limits) -> u8
    ensures ran { RanOpened S.Disk limits.now (input_of R.Source source.old source.new limits.now.input)
        site.old site.new result }
    ensures served { result ≡ code_of Status.Served → IsHonest (S.tells site.old) → (input : List ℕ)
        → R.rest source.old ≡ Some input →
        (R.rest source.new ≡ Some []) × ServesOpened limits.now.ids input (account (S.tells site.old)) (account (S.tells site.new)) }
    ensures complete { IsSpared S.Disk limits.now (input_of R.Source source.old source.new limits.now.input)
        site.old site.new (faults_of S.Disk R.Source site.old site.new source.old source.new)
        → (result ≡ code_of Status.Served) ⊎ (result ≡ code_of Status.OutOfMemory) }
    ensures damaged { result ≡ code_of Status.Damaged → AreIllFormed (S.tells site.old)
        × Steps S.Disk site.old site.new KeepsFiles }
    ensures denoted { IsAnyBut (Status.Damaged ∷ Status.DiskFailed ∷ Status.OutOfMemory ∷ []) result
        → IsHonest (S.tells site.old) → (durable : Durable)
        × Denotes (as_read (account (S.tells site.old)).files) durable }
    ensures epochs { IsAnyBut
        (Status.Damaged ∷ Status.DiskFailed ∷ Status.OutOfMemory ∷ Status.LimitReached ∷ []) result
        → IsHonest (S.tells site.old) → HasNoEpoch limits.now.epochs (account (S.tells site.old)).files → ⊥ }
    ensures counts { CountsStatus (faults_of S.Disk R.Source site.old site.new source.old source.new) result }
    ensures status { IsStatus result }
{
    match run(alloc, source, site, limits) {
        Ok(()) => Status::Served.code(),
        Err(stop) => stop_code(stop),
    }
}

// Opens the broker, and answers the lines.
fn run<S: Site, R: Source>(
    alloc: Global,
    source: &mut R,
    site: &mut S,
    limits: &Limits,
) -> Result<(), Stop>
    ensures ran { RanOpened S.Disk limits.now (input_of R.Source source.old source.new limits.now.input)
        site.old site.new (status_of result) }
    ensures damaged { IfErr result (λ stop. IsDamagedStop stop → AreIllFormed (S.tells site.old)
        × Steps S.Disk site.old site.new KeepsFiles) }
    ensures denoted { IsAnyBut (Status.Damaged ∷ Status.DiskFailed ∷ Status.OutOfMemory ∷ []) (status_of result)
        → IsHonest (S.tells site.old) → (durable : Durable)
        × Denotes (as_read (account (S.tells site.old)).files) durable }
    ensures epochs { IsAnyBut (Status.Damaged ∷ Status.DiskFailed ∷ Status.OutOfMemory ∷ Status.LimitReached ∷ [])
        (status_of result) → IsHonest (S.tells site.old)
        → HasNoEpoch limits.now.epochs (account (S.tells site.old)).files → ⊥ }
    ensures cause { CountsStop (faults_of S.Disk R.Source site.old site.new source.old source.new) result }
{
    let engine = open(alloc, site, limits)?;
    answer_lines(alloc, engine, source, site, limits.input)
}

// The code of the status that a run ends with.
fn stop_code(stop: Stop) -> u8
    ensures { result ≡ status_of_stop stop }
{
    let status = match stop {
        Stop::Site(SiteFault::Disk(fault)) => match fault {
            Fault::Damaged(_) => Status::Damaged,
            Fault::Failed => Status::DiskFailed,
            Fault::Memory => Status::OutOfMemory,
            Fault::Spent => Status::LimitReached,
        },
        Stop::Site(SiteFault::Sink) => Status::OutputFailed,
        Stop::Source(error) => match error {
            ReadError::Failed => Status::InputFailed,
            ReadError::Memory => Status::OutOfMemory,
            ReadError::TooLong => Status::InputTooLong,
        },
    };
    status.code()
}
