// A frame as bytes.
ghost use Rattle.std.specs.Prelude.{◌≡◌, ◌++◌, IfOk, OnOk};
ghost use Rattle.pg_page.specs.Frames.{IsFrame, frame_bytes, tx_bytes};

use crate::frame::Frame;
use pg_bytes::{Octets, put_u8, put_u32};
use pg_msg::MessageId;
use pg_msg::fields::{put_message, put_message_id, put_queue_ids};
use std::alloc::{AllocError, Global};

// The format of a frame.
pub(crate) const FORMAT: u8 = 1;

/// The bytes of the frame, which are the payload of its batch. `docs/FORMATS.md` gives them.
pub fn encode_frame(alloc: Global, frame: &Frame) -> Result<Octets, AllocError>
    requires { IsFrame frame.now }
    ensures { IfOk result (λ bytes. bytes ≡ frame_bytes frame.now) }
{
    let mut out = Octets::new(alloc);
    put_u8(&mut out, FORMAT)?;
    put_tx(&mut out, frame.tx)?;
    put_queue_ids(&mut out, &frame.queues)?;
    put_message(&mut out, &frame.message)?;
    Ok(out)
}

// Appends the id of the transaction, or eight zeros.
fn put_tx(out: &mut Octets, tx: Option<MessageId>) -> Result<(), AllocError>
    ensures { OnOk result (out.new ≡ out.old ++ tx_bytes tx) }
{
    match tx {
        Some(id) => put_message_id(out, id),
        None => {
            put_u32(out, 0)?;
            put_u32(out, 0)
        }
    }
}
