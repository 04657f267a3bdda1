// The message that bytes spell.
ghost use Rattle.std.specs.Prelude.{◌≡◌, ◌++◌, ◌≤◌, ℕ, List, Some, length, take, IfOk, MatchOption};
ghost use Rattle.pg_msg.specs.Messages.{IsMessage, message_bytes, SpellsMessage};
ghost use Rattle.pg_msg.specs.declared.message.Message.{Message};

use crate::fields::{Unread, read_message};
use crate::message::Message;
use std::alloc::{AllocError, Global};

/// No message is spelled as the front of another. So what was encoded is decoded as it was, whatever stands behind it.
pub fn prefix_free()
    ensures { (m n : Message) (x y : List ℕ) → IsMessage m → IsMessage n → message_bytes m ++ x ≡ message_bytes n ++ y
        → (m ≡ n) × (x ≡ y) }
{}

/// The message that a prefix of the bytes spells, with the prefix's length in bytes. None where no prefix spells one.
pub fn decode(alloc: Global, bytes: &[u8]) -> Result<Option<(Message, usize)>, AllocError>
    // What is read is spelled by the prefix.
    ensures found { IfOk result (λ found. MatchOption found
        ((n : ℕ) (m : Message) → ¬ SpellsMessage (take n bytes.now) m)
        (λ read. (read.1 ≤ length bytes.now) × SpellsMessage (take read.1 bytes.now) read.0)) }
    // What is spelled is read, whatever stands behind it.
    ensures only { (m : Message) (rest : List ℕ) → IsMessage m → bytes.now ≡ message_bytes m ++ rest
        → IfOk result (λ found. found ≡ Some (m, length (message_bytes m))) }
{
    match read_message(alloc, bytes) {
        Ok((message, rest)) => Ok(Some((message, bytes.len() - rest.len()))),
        Err(Unread::Malformed) => Ok(None),
        Err(Unread::Memory) => Err(AllocError),
    }
}
