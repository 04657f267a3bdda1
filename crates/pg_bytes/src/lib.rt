//! Bytes and texts as values that contracts see as lists of bytes, and big-endian fields.
#![tactic(auto)]

mod octets;
mod put;
mod take;
mod text;

pub use octets::Octets;
pub use put::{put_bytes, put_u8, put_u16, put_u32, put_u64};
pub use take::{take_bytes, take_u8, take_u16, take_u32, take_u64};
pub use text::Text;
