// The frame that bytes spell.
ghost use Rattle.std.specs.Prelude.{◌≡◌, ◌≤◌, ℕ, List, length, IfOk, MatchOption};
ghost use Rattle.pg_msg.specs.Reading.{Gives};
ghost use Rattle.pg_page.specs.declared.frame.Frame.{Frame};
ghost use Rattle.pg_page.specs.Frames.{SpellsFrame, SpellsNone};
ghost use Rattle.pg_page.specs.Reading.{frame_at, tx_at, tx_of};

use crate::encoding::FORMAT;
use crate::frame::Frame;
use pg_msg::MessageId;
use pg_msg::fields::{Unread, read_message, read_queue_ids, read_u8, read_u32};
use std::alloc::{AllocError, Global};

/// The greatest length of a frame, in bytes.
pub const LONGEST_FRAME: u64 = 106_410;

/// The frame that the bytes spell, all of the bytes. None exactly where they spell no frame.
pub fn decode_frame(alloc: Global, bytes: &[u8]) -> Result<Option<Frame>, AllocError>
    // What is read is spelled by the bytes.
    ensures found { IfOk result (λ found. MatchOption found (SpellsNone bytes.now) (SpellsFrame bytes.now)) }
    // What is spelled by the bytes is read.
    ensures only { (frame : Frame) → SpellsFrame bytes.now frame → IfOk result (λ found. found ≡ Some frame) }
{
    match read_all(alloc, bytes) {
        Ok(frame) => Ok(Some(frame)),
        Err(Unread::Malformed) => Ok(None),
        Err(Unread::Memory) => Err(AllocError),
    }
}

/// A frame has one spelling of at most 106,410 bytes, and bytes spell at most one frame. This law has no code.
pub fn one_frame()
    ensures spelling { (frame : Frame) (a b : List ℕ) → SpellsFrame a frame → SpellsFrame b frame → a ≡ b }
    ensures reading { (bytes : List ℕ) (a b : Frame) → SpellsFrame bytes a → SpellsFrame bytes b → a ≡ b }
    ensures longest { (bytes : List ℕ) (frame : Frame) → SpellsFrame bytes frame → length bytes ≤ 106410 }
{}

// The format, the transaction, the queues and the message, and nothing behind them.
#[tactic(auto, unfolding(crate::specs::Reading::frame_at))]
fn read_all(alloc: Global, bytes: &[u8]) -> Result<Frame, Unread>
    ensures { Gives (λ frame. frame) result (frame_at bytes.now) }
{
    let (format, rest) = read_u8(bytes)?;
    if format != FORMAT {
        return Err(Unread::Malformed);
    }
    let (tx, rest) = read_tx(rest)?;
    let (queues, rest) = read_queue_ids(alloc, rest)?;
    let (message, rest) = read_message(alloc, rest)?;
    if !rest.is_empty() {
        return Err(Unread::Malformed);
    }
    Ok(Frame {
        tx,
        queues,
        message,
    })
}

// The id of the transaction, or none behind eight zeros.
#[tactic(auto, unfolding(crate::specs::Reading::tx_at))]
fn read_tx(bytes: &[u8]) -> Result<(Option<MessageId>, &[u8]), Unread>
    ensures { Gives (λ read. (read.0, read.1.now)) result (tx_at bytes.now) }
{
    let (epoch, rest) = read_u32(bytes)?;
    let (number, rest) = read_u32(rest)?;
    let tx = tx_of(epoch, number)?;
    Ok((tx, rest))
}

// Both parts are 0, or neither is.
fn tx_of(epoch: u32, number: u32) -> Result<Option<MessageId>, Unread>
    ensures { Gives (λ tx. tx) result (tx_of epoch number) }
{
    if epoch == 0 && number == 0 {
        return Ok(None);
    }
    if epoch == 0 || number == 0 {
        return Err(Unread::Malformed);
    }
    Ok(Some(MessageId { epoch, number }))
}
