// The command `ack`.
ghost use Rattle.std.specs.Prelude.{◌≡◌, Some, IfOk, IfErr};
ghost use Rattle.pg_msg.specs.Messages.{IsMessageId};
ghost use Rattle.pg_model.specs.Actions.{Acknowledge};
ghost use Rattle.pg_model.specs.Steps.{asked};
ghost use Rattle.pg_engine.specs.Outcomes.{IsOutcome};

use crate::state::{Outcome, State};
use pg_bytes::Text;
use pg_disk::Fault;
use pg_msg::{Command, MessageId, Refusal};
use std::alloc::Global;

impl State {
    // The command `ack`. Acknowledgements of a transaction aren't built.
    pub(crate) fn acknowledge_with(
        self,
        alloc: Global,
        consumer: Text,
        message: MessageId,
        tx: Option<Text>,
    ) -> Result<Outcome, Fault>
        requires { IsMessageId message }
        ensures outcome { IfOk result
            (λ outcome. IsOutcome self (asked (Some (Command.Ack consumer message tx))) outcome) }
        ensures none { IfErr result (λ fault. fault ≡ Fault.Memory) }
    {
        match tx {
            None => self.acknowledge(alloc, consumer, message),
            Some(_) => Ok(self.refused(Refusal::Line)),
        }
    }

    // The command `ack`, outside of transactions.
    fn acknowledge(
        self,
        alloc: Global,
        consumer: Text,
        message: MessageId,
    ) -> Result<Outcome, Fault>
        requires { IsMessageId message }
        ensures outcome { IfOk result (λ outcome. IsOutcome self (Some (Acknowledge consumer message)) outcome) }
        ensures none { IfErr result (λ fault. fault ≡ Fault.Memory) }
    {
        if self.consumed_by(&consumer).is_none() {
            return Ok(self.refused(Refusal::Consumer));
        }
        let Some(queue) = self.flight(&consumer, message) else {
            return Ok(self.refused(Refusal::Delivery));
        };
        self.relieve(alloc, &consumer, queue, message)
    }
}
