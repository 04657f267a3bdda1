// A message as bytes.
ghost use Rattle.std.specs.Prelude.{◌≡◌, IfOk};
ghost use Rattle.pg_msg.specs.Messages.{IsMessage, message_bytes};

use crate::fields::put_message;
use crate::message::Message;
use pg_bytes::Octets;
use std::alloc::{AllocError, Global};

/// The bytes of the message. `docs/FORMATS.md` gives them.
pub fn encode(alloc: Global, message: &Message) -> Result<Octets, AllocError>
    requires { IsMessage message.now }
    ensures { IfOk result (λ bytes. bytes ≡ message_bytes message.now) }
{
    let mut out = Octets::new(alloc);
    put_message(&mut out, message)?;
    Ok(out)
}
