// The command `send`.
ghost use Rattle.std.specs.Prelude.{◌≡◌, ◌<◌, ◌≤◌, ◌↔◌, IsTrue, IfOk};
ghost use Rattle.pg_msg.specs.declared.limits.TheConstants.{WEIGHT_LIMIT};
ghost use Rattle.pg_msg.specs.declared.reply.Reply.TheVariants.{Sent};
ghost use Rattle.pg_msg.specs.Messages.{AreProperties, weight_of};
ghost use Rattle.pg_model.specs.Actions.{Send};
ghost use Rattle.pg_model.specs.Changes.{message_of, next_id, with_message};
ghost use Rattle.pg_plain.specs.Unpaged.{ActsUnpaged};

use crate::plain::Plain;
use pg_bytes::{Octets, Text};
use pg_msg::{Body, Message, MessageId, Properties, Refusal, Reply, WEIGHT_LIMIT, weight};
use std::alloc::{AllocError, Global};

impl Plain {
    // The command `send`, outside of transactions and without a duplicate id.
    pub(crate) fn send(
        self,
        alloc: Global,
        address: &Text,
        properties: Properties,
        body: Octets,
    ) -> Result<(Plain, Reply), AllocError>
        requires { AreProperties properties }
        ensures { IfOk result (λ answer. ActsUnpaged self (Send address.now properties body) answer.1 answer.0) }
    {
        let Some(id) = self.address_id(address) else {
            return Ok((self, Reply::No(Refusal::Address)));
        };
        let (message, heavy) = weighed(properties, body);
        if heavy {
            return Ok((self, Reply::No(Refusal::Size)));
        }
        let numbers = self.routed(alloc, id, message.properties.as_slice())?;
        if numbers.is_empty() {
            return Ok((self, Reply::Unrouted));
        }
        if self.drawn >= self.ids {
            return Ok((self, Reply::No(Refusal::Ids)));
        }
        self.deliver(alloc, numbers.as_slice(), message)
    }

    // Each of the queues with these numbers gets the message, under the id that is drawn next.
    fn deliver(
        self,
        alloc: Global,
        numbers: &[u32],
        mut message: Message,
    ) -> Result<(Plain, Reply), AllocError>
        requires { self.running.drawn < self.ids }
        ensures reply { IfOk result (λ answer. answer.1 ≡ Sent (next_id self)) }
        ensures state { IfOk result (λ answer. answer.0 ≡ with_message self numbers.now (record message { id = next_id self })) }
    {
        message.id = MessageId {
            epoch: self.epoch,
            number: self.drawn + 1,
        };
        let reply = Reply::Sent(message.id);
        Ok((self.with_message(alloc, numbers, &message)?, reply))
    }
}

// The message of these parts under an id that is to be replaced, and whether it is too heavy.
fn weighed(properties: Properties, body: Octets) -> (Message, bool)
    requires { AreProperties properties }
    ensures message { result.0 ≡ message_of (record { epoch = 1; number = 1 }) properties body }
    ensures heavy { IsTrue result.1 ↔ (WEIGHT_LIMIT ≤ weight_of result.0) }
{
    let long = body.len() as u64 >= WEIGHT_LIMIT;
    let message = Message {
        id: MessageId {
            epoch: 1,
            number: 1,
        },
        dup: None,
        properties,
        body: Body::Plain(body),
    };
    let heavy = long || weight(&message) >= WEIGHT_LIMIT;
    (message, heavy)
}
