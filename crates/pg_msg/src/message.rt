// A message.
ghost use Rattle.std.specs.Prelude.{◌≡◌, IfOk};

use crate::properties::Properties;
use pg_bytes::Octets;
use std::alloc::{AllocError, Global};

/// What tells a message from every other of the broker.
#[derive(Clone, Copy, PartialEq, Eq)]
pub struct MessageId {
    /// The epoch in which the message was sent, from 1.
    pub epoch: u32,
    /// The place of the message among those of its epoch, from 1.
    pub number: u32,
}

/// What a message carries. The broker never looks into it.
#[derive(PartialEq, Eq, Drop)]
pub enum Body {
    /// The bytes themselves.
    Plain(Octets),
    /// The number of the bytes, which stand in a file of their own.
    Large(u64),
}

impl Body {
    fn copy(&self) -> Result<Body, AllocError>
        ensures { IfOk result (λ copy. copy ≡ self.now) }
    {
        match self {
            Body::Plain(bytes) => Ok(Body::Plain(bytes.copy()?)),
            Body::Large(size) => Ok(Body::Large(*size)),
        }
    }
}

/// A message as it is kept. `docs/FORMATS.md` gives its bytes.
#[derive(PartialEq, Eq)]
pub struct Message {
    pub id: MessageId,
    /// The duplicate id that the sender gave it, of 1 to 64 bytes.
    pub dup: Option<Octets>,
    /// In the order of sending.
    pub properties: Properties,
    pub body: Body,
}

impl Drop for Message {
    fn drop(self) {
        let Message {
            id: _id,
            dup: _dup,
            properties: _properties,
            body: _body,
        } = self;
    }
}

impl Message {
    /// A second message with the same values. Fails only where there is no memory for it.
    pub fn copy(&self, alloc: Global) -> Result<Message, AllocError>
        ensures { IfOk result (λ copy. copy ≡ self.now) }
    {
        let dup = match &self.dup {
            Some(id) => Some(id.copy()?),
            None => None,
        };
        Ok(Message {
            id: self.id,
            dup,
            properties: self.properties.copy(alloc)?,
            body: self.body.copy()?,
        })
    }
}
