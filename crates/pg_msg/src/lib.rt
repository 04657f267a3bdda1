//! Messages, commands and replies, and how a message is spelled.
#![tactic(auto)]

mod command;
mod decoding;
mod encoding;
pub mod fields;
mod limits;
mod message;
mod pages;
mod properties;
mod queue_ids;
mod reply;
mod weighing;

pub use command::Command;
pub use decoding::{decode, prefix_free};
pub use encoding::encode;
pub use limits::{
    FILE_LIMIT, GREATEST_AHEAD, GREATEST_DUP, GREATEST_MAX, GREATEST_PAGE, LIMITS,
    LONGEST_DUPLICATE_ID, LONGEST_FILTER, LONGEST_NAME, LONGEST_PIECE, Limits, MOST_ADDRESSES,
    MOST_PROPERTIES, MOST_QUEUES, QUEUE_ID_LIMIT, WEIGHT_LIMIT,
};
pub use message::{Body, Message, MessageId};
pub use pages::Pages;
pub use properties::{Properties, Property, Value};
pub use queue_ids::QueueIds;
pub use reply::{Refusal, Reply};
pub use weighing::weight;
