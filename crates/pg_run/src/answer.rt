// One line: it is executed, and its reply is told.
ghost use Rattle.std.specs.Prelude.{◌≡◌, ◌⊎◌, Option, Some, is_ok, IsErr, IfOk, IfErr, IsErrOf};
ghost use Rattle.pg_disk.specs.Sites.{Steps};
ghost use Rattle.pg_disk.specs.Account.{account, IsHonest};
ghost use Rattle.pg_disk.specs.Calls.{Emits};
ghost use Rattle.pg_disk.specs.Counts.{CountsFault, CountsSiteFault};
ghost use Rattle.pg_disk.specs.Image.{LeavesPrefix};
ghost use Rattle.pg_disk.specs.Moments.{Within};
ghost use Rattle.pg_msg.specs.declared.command.Command.{Command};
ghost use Rattle.pg_text.specs.Spelling.{ReadsAs};
ghost use Rattle.pg_engine.specs.Executed.{Owns, Executes, MeetsLimit, state_of};
ghost use Rattle.pg_engine.specs.Executed.{IsDamaged};
ghost use Rattle.pg_run.specs.Answered.{Answers, IsDamagedSite};

use pg_disk::{Disk, Fault, Site, SiteFault};
use pg_engine::Engine;
use pg_msg::{Refusal, Reply};
use pg_text::{parse_line, render};
use std::alloc::Global;

/// Executes a line, and tells its reply. What the line changed is on the disk before a byte of the reply is told.
pub fn answer<S: Site>(
    alloc: Global,
    engine: Engine,
    site: &mut S,
    line: &[u8],
) -> Result<Engine, SiteFault>
    requires { IsHonest (S.tells site.old) → Owns engine (account (S.tells site.old)).files }
    ensures answers { IsHonest (S.tells site.old) → Answers S.Disk (state_of engine) line.now site.old site.new result }
    ensures back { IsHonest (S.tells site.new) → IsHonest (S.tells site.old) }
    ensures never_damaged { IfErr result (λ fault. IsDamagedSite fault → ⊥) }
    ensures untouched { IsErrOf result (SiteFault.Disk Fault.Spent) → site.new ≡ site.old }
    ensures limit { IsErrOf result (SiteFault.Disk Fault.Spent) → (command : Command) × ReadsAs line.now (Some command)
        × MeetsLimit engine command }
    ensures cause { CountsSiteFault (S.faults site.old) (S.faults site.new) result }
{
    let (engine, reply) = exec_line(alloc, engine, site, line)?;
    let text = render(alloc, &reply)?;
    tell(site, text.as_slice())?;
    Ok(engine)
}

// Executes the command that the line spells. A line that spells none is refused. A fault may come before anything is
// executed.
fn exec_line<D: Disk>(
    alloc: Global,
    engine: Engine,
    disk: &mut D,
    line: &[u8],
) -> Result<(Engine, Reply), Fault>
    requires { IsHonest (D.tells disk.old) → Owns engine (account (D.tells disk.old)).files }
    ensures executes { IsHonest (D.tells disk.old) → (IsErr result × (disk.new ≡ disk.old))
        ⊎ ((item : Option Command) × ReadsAs line.now item
        × Executes D.Disk (state_of engine) item disk.old disk.new result) }
    ensures back { IsHonest (D.tells disk.new) → IsHonest (D.tells disk.old) }
    ensures never_damaged { IfErr result (λ fault. IsDamaged fault → ⊥) }
    ensures untouched { IsErrOf result Fault.Spent → disk.new ≡ disk.old }
    ensures limit { IsErrOf result Fault.Spent → (command : Command) × ReadsAs line.now (Some command)
        × MeetsLimit engine command }
    ensures cause { CountsFault (D.faults disk.old) (D.faults disk.new) result }
{
    match parse_line(alloc, line)? {
        Some(command) => engine.exec(alloc, disk, command),
        None => Ok((engine, Reply::No(Refusal::Line))),
    }
}

// Tells a reply's line, all at once.
fn tell<S: Site>(site: &mut S, line: &[u8]) -> Result<(), SiteFault>
    ensures told { Steps S.Disk site.old site.new (Emits line.now (is_ok result)) }
    ensures any_moment { Within S.Disk site.old site.new (LeavesPrefix line.now) }
    ensures only_sink { IfErr result (λ fault. fault ≡ SiteFault.Sink) }
    ensures cause { CountsSiteFault (S.faults site.old) (S.faults site.new) result }
{
    if site.emit(line).is_err() {
        return Err(SiteFault::Sink);
    }
    Ok(())
}
