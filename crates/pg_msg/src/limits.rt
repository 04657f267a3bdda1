// The limits of the broker, of its formats and of a run.

/// There are at most so many addresses.
pub const MOST_ADDRESSES: usize = 1_000;

/// An address has at most so many live queues, and a message goes to at most so many.
pub const MOST_QUEUES: usize = 1_000;

/// No queue has this id or a greater one.
pub const QUEUE_ID_LIMIT: u32 = 4_294_967_295;

/// A message weighs less than so many bytes. So the messages that an address holds in memory weigh less than its `max`
/// and so many: the last one comes while there are fewer than `max`.
pub const WEIGHT_LIMIT: u64 = 102_400;

/// A message has at most so many properties.
pub const MOST_PROPERTIES: usize = 100;

/// A name has at most so many bytes, also that of a property.
pub const LONGEST_NAME: usize = 64;

/// A duplicate id has at most so many bytes.
pub const LONGEST_DUPLICATE_ID: usize = 64;

/// The text of a filter has at most so many bytes.
pub const LONGEST_FILTER: usize = 4_096;

/// A piece of a large message's body that a command asks for has at most so many bytes.
pub const LONGEST_PIECE: u64 = 65_536;

/// The greatest `max` of an address, in bytes of messages.
pub const GREATEST_MAX: u64 = 1_000_000_000_000;

/// The greatest `page` of an address, in bytes of a page file. The least is 1.
pub const GREATEST_PAGE: u64 = 1_000_000_000;

/// The greatest `ahead` of an address, in bytes of messages.
pub const GREATEST_AHEAD: u64 = 1_000_000_000;

/// The greatest `dup` of an address, as a count of duplicate ids.
pub const GREATEST_DUP: u32 = 65_535;

/// No file has a greater number, and no gated file more bytes.
pub const FILE_LIMIT: u64 = 1 << 62;

/// The limits of a run.
#[derive(Clone, Copy, PartialEq, Eq)]
pub struct Limits {
    /// The greatest number of a message id in an epoch.
    pub ids: u32,
    /// Each epoch is below this.
    pub epochs: u32,
    /// The greatest number of input bytes.
    pub input: u64,
}

/// The limits of the program.
pub const LIMITS: Limits = Limits {
    ids: 4_294_967_295,
    epochs: 1_048_576,
    input: 1 << 40,
};
