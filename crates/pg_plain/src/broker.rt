// What takes commands.
ghost use Rattle.pg_msg.specs.declared.command.Command.{Command};

use pg_msg::{Command, Reply};
use std::alloc::{AllocError, Global};

/// What takes commands one after the other, and replies to each.
pub trait Broker: Sized {
    /// What the caller of `step` owes: a condition on the state and the command.
    ghost takes: { Self → Command → Type 0 };

    /// Executes the command. Fails only for want of memory, and then the broker is gone.
    fn step(self, alloc: Global, command: Command) -> Result<(Self, Reply), AllocError>
        requires { takes self command };
}
