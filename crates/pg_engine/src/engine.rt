// The broker over its journal: each command that changes the state is one batch.
ghost use Rattle.std.specs.Prelude.{◌≡◌, ◌⊎◌, ◌<◌, ◌+◌, ◌^◌, Option, Some, IsErr, IfOk, IfErr, IsErrOf};
ghost use Rattle.pg_disk.specs.Account.{account, IsHonest};
ghost use Rattle.pg_disk.specs.Counts.{CountsFault};
ghost use Rattle.pg_disk.specs.Sites.{Steps};
ghost use Rattle.pg_msg.specs.Commands.{IsInRange};
ghost use Rattle.pg_model.specs.Steps.{Step};
ghost use Rattle.pg_engine.specs.Executed.{Owns, Executes, IsDamaged, MeetsLimit, WritesFor, seen_by, state_of};
ghost use Rattle.pg_engine.specs.Opened.{AreParts, engine_of};

use crate::state::{Outcome, State};
use pg_disk::{Disk, Fault};
use pg_journal::Journal;
use pg_msg::{Command, Limits, Reply};
use pg_recover::Parts;
use std::alloc::{AllocError, Global};

/// A broker over its journal.
pub struct Engine {
    pub(crate) journal: Journal,
    pub(crate) state: State,
}

// Written out, so that what holds an engine lets it go by one call.
impl Drop for Engine {
    fn drop(self) {
        let Engine {
            journal: _journal,
            state: _state,
        } = self;
    }
}

impl Engine {
    /// The broker of the parts that `recover` gives. Fails only for want of memory.
    pub fn new(alloc: Global, parts: Parts, limits: &Limits) -> Result<Engine, AllocError>
        requires { AreParts parts }
        ensures { IfOk result (λ engine. engine ≡ engine_of limits.now.ids parts) }
    {
        let Parts {
            journal,
            durable,
            paged,
        } = parts;
        let state = State::new(alloc, durable, paged, limits.ids)?;
        Ok(Engine { journal, state })
    }

    /// Executes a command. What it changes is on the disk at Ok. `Spent` comes where no queue id is left, and where the
    /// journal would grow past its limit; `Failed` where the disk failed; `Memory` for want of memory; `Damaged` never.
    /// After an Err there is no engine any more.
    pub fn exec<D: Disk>(
        self,
        alloc: Global,
        disk: &mut D,
        command: Command,
    ) -> Result<(Engine, Reply), Fault>
        requires own { IsHonest (D.tells disk.old) → Owns self (account (D.tells disk.old)).files }
        requires in_range { IsInRange command }
        ensures executes { IsHonest (D.tells disk.old) → (IsErr result × (disk.new ≡ disk.old))
            ⊎ Executes D.Disk (state_of self) (Some command) disk.old disk.new result }
        // The reply and the state are those of the step, on every site.
        ensures steps { IfOk result (λ done.
            Step (seen_by self) (state_of self) (Some command) done.1 (state_of done.0)) }
        // The journal gets exactly the batch of the command.
        ensures writes { IfOk result
            (λ done. Steps D.Disk disk.old disk.new (WritesFor self command done.0.journal)) }
        ensures back { IsHonest (D.tells disk.new) → IsHonest (D.tells disk.old) }
        ensures never_damaged { IfErr result (λ fault. IsDamaged fault → ⊥) }
        ensures untouched { IsErrOf result Fault.Spent → disk.new ≡ disk.old }
        ensures limit { IsErrOf result Fault.Spent → MeetsLimit self command }
        ensures limit_met { MeetsLimit self command → IsErrOf result Fault.Spent ⊎ IsErrOf result Fault.Memory }
        ensures cause { CountsFault (D.faults disk.old) (D.faults disk.new) result }
    {
        let Engine { journal, state } = self;
        match state.execute(alloc, command)? {
            Outcome::Unchanged { state, reply } => Ok((Engine { journal, state }, reply)),
            Outcome::Changed {
                state,
                batch,
                reply,
            } => {
                let journal = journal.append(disk, &batch)?;
                Ok((Engine { journal, state }, reply))
            }
        }
    }
}
