//! The fields that messages and the journal's entries are spelled with, each written and read in one way.
//!
//! A writer appends the field. It fails only where there is no memory, and may leave a part of the field at the end
//! then.
//! A reader takes the field from the front of the bytes, and gives it with the bytes behind it.
//! `docs/FORMATS.md` spells each field.

mod lists;
mod messages;
mod names;
mod numbers;
mod values;

pub use lists::{put_pages, put_queue_ids, read_pages, read_queue_ids};
pub use messages::{put_message, put_message_id, read_message, read_message_id};
pub use names::{name_of, property_name_of, put_name, read_name, text_of};
pub use numbers::{read_bytes, read_u8, read_u16, read_u32, read_u64};
use std::alloc::AllocError;
pub use values::names_differ;

/// Why a field wasn't read.
#[derive(Clone, Copy, PartialEq, Eq)]
pub enum Unread {
    /// The bytes don't begin with such a field.
    Malformed,
    /// There was no memory.
    Memory,
}

impl From<AllocError> for Unread {
    ghost use Rattle.std.specs.Prelude.{◌≡◌};
    ghost use Rattle.pg_msg.specs.declared.fields.Unread.TheVariants.{Memory as NoMemory};

    ghost from_gives = { λ _ error. error ≡ NoMemory };

    fn from(_: AllocError) -> Self {
        Unread::Memory
    }
}
