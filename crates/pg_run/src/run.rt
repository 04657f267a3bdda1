// The command `run`: line after line is answered, until the input ends.
ghost use Rattle.std.specs.Prelude.{◌≡◌, IfErr};
ghost use Rattle.pg_disk.specs.Account.{account, IsHonest};
ghost use Rattle.pg_engine.specs.Executed.{Owns, state_of};
ghost use Rattle.pg_run.specs.Ran.{Ran, input_of};
ghost use Rattle.pg_run.specs.Statuses.{CountsStop, IsDamagedStop, faults_of, status_of};

use crate::answer::answer;
use pg_disk::{Fault, Site, SiteFault, Source};
use pg_engine::Engine;
use pg_lines::{LineReader, ReadError};
use std::alloc::{AllocError, Global};

/// Why a run ended before its input did.
#[derive(Clone, Copy, Debug, PartialEq, Eq)]
pub enum Stop {
    /// The disk or the output.
    Site(SiteFault),
    /// The input.
    Source(ReadError),
}

impl From<SiteFault> for Stop {
    ghost use Rattle.std.specs.Prelude.{◌≡◌};
    ghost use Rattle.pg_run.specs.declared.run.Stop.TheVariants.{Site as OfSite};

    ghost from_gives = { λ fault stop. stop ≡ OfSite fault };

    fn from(fault: SiteFault) -> Self {
        Stop::Site(fault)
    }
}

impl From<Fault> for Stop {
    ghost use Rattle.std.specs.Prelude.{◌≡◌};
    ghost use Rattle.pg_disk.specs.declared.fault.SiteFault.TheVariants.{Disk};
    ghost use Rattle.pg_run.specs.declared.run.Stop.TheVariants.{Site as OfSite};

    ghost from_gives = { λ fault stop. stop ≡ OfSite (Disk fault) };

    fn from(fault: Fault) -> Self {
        Stop::Site(SiteFault::Disk(fault))
    }
}

impl From<ReadError> for Stop {
    ghost use Rattle.std.specs.Prelude.{◌≡◌};
    ghost use Rattle.pg_run.specs.declared.run.Stop.TheVariants.{Source as OfSource};

    ghost from_gives = { λ error stop. stop ≡ OfSource error };

    fn from(error: ReadError) -> Self {
        Stop::Source(error)
    }
}

impl From<AllocError> for Stop {
    ghost use Rattle.std.specs.Prelude.{◌≡◌};
    ghost use Rattle.pg_disk.specs.declared.fault.Fault.TheVariants.{Memory};
    ghost use Rattle.pg_disk.specs.declared.fault.SiteFault.TheVariants.{Disk};
    ghost use Rattle.pg_run.specs.declared.run.Stop.TheVariants.{Site as OfSite};

    ghost from_gives = { λ _ stop. stop ≡ OfSite (Disk Memory) };

    fn from(_: AllocError) -> Self {
        Stop::Site(SiteFault::Disk(Fault::Memory))
    }
}

/// Answers line after line of the source, until it ends. At most `limit` bytes and one more are read.
pub fn answer_lines<S: Site, R: Source>(
    alloc: Global,
    engine: Engine,
    source: &mut R,
    site: &mut S,
    limit: u64,
) -> Result<(), Stop>
    requires { IsHonest (S.tells site.old) → Owns engine (account (S.tells site.old)).files }
    ensures ran { Ran S.Disk (state_of engine) (input_of R.Source source.old source.new limit)
        site.old site.new (status_of result) }
    ensures back { IsHonest (S.tells site.new) → IsHonest (S.tells site.old) }
    ensures never_damaged { IfErr result (λ stop. IsDamagedStop stop → ⊥) }
    ensures cause { CountsStop (faults_of S.Disk R.Source site.old site.new source.old source.new) result }
{
    let mut engine = engine;
    let mut reader = LineReader::new(alloc, limit)?;
    let mut line = Vec::new(alloc);
    'lines: while reader.next_line(source, &mut line)? {
        engine = answer(alloc, engine, site, line.as_slice())?;
    }
    if !line.is_empty() {
        answer(alloc, engine, site, line.as_slice())?;
    }
    Ok(())
}
