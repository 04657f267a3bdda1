// What each command does to the state in memory.
ghost use Rattle.std.specs.Prelude.{Some, IfOk, IfErr};
ghost use Rattle.pg_msg.specs.Commands.{IsInRange};
ghost use Rattle.pg_model.specs.Steps.{asked};
ghost use Rattle.pg_engine.specs.Outcomes.{IsNoOutcome, IsOutcome};

use crate::address::settings_with;
use crate::state::{Outcome, State};
use pg_disk::Fault;
use pg_msg::Command;
use std::alloc::Global;

impl State {
    /// Executes a command. `Memory` comes for want of memory, `Spent` where no id is left for a queue; of the other
    /// faults none.
    pub fn execute(self, alloc: Global, command: Command) -> Result<Outcome, Fault>
        requires { IsInRange command }
        ensures outcome { IfOk result (λ outcome. IsOutcome self (asked (Some command)) outcome) }
        ensures none { IfErr result (λ fault. IsNoOutcome self (asked (Some command)) fault) }
    {
        match command {
            Command::Address {
                name,
                max,
                page,
                ahead,
                dup,
            } => self.add_address(alloc, name, settings_with(max, page, ahead, dup)),
            Command::Queue {
                name,
                address,
                filter,
            } => self.add_queue(alloc, name, address, filter),
            Command::DropQueue { name } => self.drop_queue(alloc, name),
            Command::Send {
                address,
                tx,
                id,
                properties,
                body,
            } => self.send_with(alloc, address, tx, id, properties, body),
            Command::Count { queue } => Ok(self.count(queue)),
            Command::Consumer { name, queue } => self.open(alloc, name, queue),
            Command::Receive { consumer } => self.receive(alloc, consumer),
            Command::Ack {
                consumer,
                message,
                tx,
            } => self.acknowledge_with(alloc, consumer, message, tx),
            Command::Cancel { consumer, message } => self.cancel(consumer, message),
            Command::Close { consumer } => self.close(alloc, consumer),
            // No other command is built.
            Command::Begin { .. } | Command::Commit { .. } => Ok(self.unread()),
            Command::Rollback { .. } | Command::Large { .. } => Ok(self.unread()),
            Command::Part { .. } | Command::End { .. } => Ok(self.unread()),
            Command::PartOf { .. } | Command::Cleanup { .. } => Ok(self.unread()),
            Command::Ahead { .. } | Command::Stat { .. } => Ok(self.unread()),
            Command::Checkpoint => Ok(self.unread()),
        }
    }
}
