// The command `drop`.
ghost use Rattle.std.specs.Prelude.{◌≡◌, Some, IfOk, IfErr};
ghost use Rattle.pg_model.specs.Actions.{DropQueue};
ghost use Rattle.pg_engine.specs.Outcomes.{IsOutcome};

use crate::state::{Outcome, State};
use pg_bytes::Text;
use pg_disk::Fault;
use pg_msg::Refusal;
use std::alloc::Global;

impl State {
    // The command `drop`.
    pub(crate) fn drop_queue(self, alloc: Global, name: Text) -> Result<Outcome, Fault>
        ensures outcome { IfOk result (λ outcome. IsOutcome self (Some (DropQueue name)) outcome) }
        ensures none { IfErr result (λ fault. fault ≡ Fault.Memory) }
    {
        let Some(queue) = self.queue_id(&name) else {
            return Ok(self.refused(Refusal::Queue));
        };
        if self.is_consumed(queue) {
            return Ok(self.refused(Refusal::ConsumerOpen));
        }
        self.remove_queue(alloc, queue)
    }
}
