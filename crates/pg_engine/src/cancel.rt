// The command `cancel`.
ghost use Rattle.std.specs.Prelude.{◌≡◌, Some, IfOk, IfErr};
ghost use Rattle.pg_model.specs.Actions.{Cancel};
ghost use Rattle.pg_engine.specs.Outcomes.{IsOutcome};

use crate::state::{Outcome, State};
use pg_bytes::Text;
use pg_disk::Fault;
use pg_msg::{MessageId, Refusal, Reply};

impl State {
    // The command `cancel`.
    pub(crate) fn cancel(self, consumer: Text, message: MessageId) -> Result<Outcome, Fault>
        ensures outcome { IfOk result (λ outcome. IsOutcome self (Some (Cancel consumer message)) outcome) }
        ensures none { IfErr result (λ fault. fault ≡ Fault.Memory) }
    {
        if self.consumed_by(&consumer).is_none() {
            return Ok(self.refused(Refusal::Consumer));
        }
        if self.flight(&consumer, message).is_none() {
            return Ok(self.refused(Refusal::Delivery));
        }
        let mut state = self;
        state.put_back(&consumer, message)?;
        Ok(Outcome::Unchanged {
            state,
            reply: Reply::Done,
        })
    }
}
