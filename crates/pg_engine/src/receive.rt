// The command `receive`.
ghost use Rattle.std.specs.Prelude.{◌≡◌, Some, IfOk, IfErr};
ghost use Rattle.pg_model.specs.Actions.{Receive};
ghost use Rattle.pg_engine.specs.Outcomes.{IsOutcome};

use crate::state::{Outcome, State};
use pg_bytes::Text;
use pg_disk::Fault;
use pg_msg::{Refusal, Reply};
use std::alloc::Global;

impl State {
    // The command `receive`.
    pub(crate) fn receive(self, alloc: Global, consumer: Text) -> Result<Outcome, Fault>
        ensures outcome { IfOk result (λ outcome. IsOutcome self (Some (Receive consumer)) outcome) }
        ensures none { IfErr result (λ fault. fault ≡ Fault.Memory) }
    {
        if self.consumed_by(&consumer).is_none() {
            return Ok(self.refused(Refusal::Consumer));
        }
        let mut state = self;
        let reply = match state.give(alloc, &consumer)? {
            Some(message) => Reply::Given(message),
            None => Reply::Empty,
        };
        Ok(Outcome::Unchanged { state, reply })
    }
}
