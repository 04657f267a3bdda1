// The command `consumer`.
ghost use Rattle.std.specs.Prelude.{◌≡◌, Some, IfOk, IfErr};
ghost use Rattle.pg_model.specs.Actions.{Open};
ghost use Rattle.pg_engine.specs.Outcomes.{IsOutcome};

use crate::state::{Outcome, State};
use pg_bytes::Text;
use pg_disk::Fault;
use pg_msg::{Refusal, Reply};
use std::alloc::Global;

impl State {
    // The command `consumer`.
    pub(crate) fn open(self, alloc: Global, name: Text, queue: Text) -> Result<Outcome, Fault>
        ensures outcome { IfOk result (λ outcome. IsOutcome self (Some (Open name queue)) outcome) }
        ensures none { IfErr result (λ fault. fault ≡ Fault.Memory) }
    {
        if self.consumed_by(&name).is_some() {
            return Ok(self.refused(Refusal::Name));
        }
        let Some(id) = self.queue_id(&queue) else {
            return Ok(self.refused(Refusal::Queue));
        };
        let mut state = self;
        state.open_on(alloc, name, id)?;
        Ok(Outcome::Unchanged {
            state,
            reply: Reply::Done,
        })
    }
}
