// The ids of queues.
ghost use Rattle.std.specs.Prelude.{◌≡◌, ◌<◌, ◌^◌, ◌↔◌, ◌∷◌, ◌++◌, [], All, IsTrue, OnOk, OnErr, nat_eq};
ghost use Rattle.std.specs.Cmp.{partial_equiv_from_equiv};
ghost use Rattle.std.specs.Cmp.Lexicographic.{pointwise, nat_list_eq_equiv};

use std::alloc::{AllocError, Global};
use std::marker::Model;

/// The ids of queues, in an order.
pub struct QueueIds {
    ids: Vec<u32>,
}

impl Model for QueueIds {
    ghost use Rattle.std.specs.Prelude.{ℕ, List};

    ghost Value = { List ℕ };

    ghost view = { λ queues. queues.ids.items };
}

impl Drop for QueueIds {
    fn drop(self) {
        let QueueIds { ids: _ids } = self;
    }
}

impl QueueIds {
    /// No ids. Takes no memory.
    pub fn new(alloc: Global) -> QueueIds
        ensures { result ≡ [] }
    {
        QueueIds {
            ids: Vec::new(alloc),
        }
    }

    /// The ids of the vector, which is taken over as it is.
    pub fn from_vec(ids: Vec<u32>) -> QueueIds
        ensures { result ≡ ids.items }
    {
        QueueIds { ids }
    }

    /// The vector that holds the ids, with no copy.
    pub fn into_vec(self) -> Vec<u32>
        ensures { result.items ≡ self }
    {
        let QueueIds { ids } = self;
        ids
    }

    /// The ids as a slice.
    pub fn as_slice(&self) -> &[u32]
        ensures value { result.now ≡ self.now }
        ensures in_range { All (λ queue. queue < 2 ^ 32) self.now }
    {
        // Named, so that the proof knows the range of the ids.
        let ids = self.ids.as_slice();
        ids
    }

    /// Appends the id. Fails only where there is no memory for it.
    pub fn push(&mut self, queue: u32) -> Result<(), AllocError>
        ensures ok { OnOk result (self.new ≡ self.old ++ queue ∷ []) }
        ensures err { OnErr result (self.new ≡ self.old) }
    {
        self.ids.push(queue)?;
        Ok(())
    }
}

impl PartialEq for QueueIds {
    ghost eq = { pointwise nat_eq };

    ghost laws = { partial_equiv_from_equiv nat_list_eq_equiv };

    fn eq(&self, other: &QueueIds) -> bool
        ensures value { result ≡ pointwise nat_eq self.now other.now }
        ensures same { IsTrue result ↔ (self.now ≡ other.now) }
    {
        self.as_slice() == other.as_slice()
    }
}

impl Eq for QueueIds {
    ghost laws = { nat_list_eq_equiv };
}
