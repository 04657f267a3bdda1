// The queues that hold a message.
ghost use Rattle.std.specs.Prelude.{◌≡◌, ◌<◌, ◌^◌, All, [], ◌∷◌};
ghost use Rattle.pg_fold.specs.Rows.{without_number};

use pg_msg::QueueIds;
use std::alloc::Global;
use std::marker::Model;

/// The ids of the queues that hold a message. One id alone takes no memory of its own.
pub struct Holders {
    ids: Ids,
}

// The ids: one alone, or any others.
enum Ids {
    One(u32),
    Others(QueueIds),
}

impl Model for Holders {
    ghost use Rattle.std.specs.Prelude.{ℕ, List};
    ghost use Rattle.pg_fold.specs.HolderIds.{ids_in};

    ghost Value = { List ℕ };

    ghost view = { λ holders. ids_in holders.ids };
}

impl Drop for Holders {
    fn drop(self) {
        let Holders { ids } = self;
        match ids {
            Ids::One(_) => {}
            Ids::Others(_ids) => {}
        }
    }
}

impl Holders {
    // No queues. Takes no memory.
    pub(crate) fn none(alloc: Global) -> Holders
        ensures { result ≡ [] }
    {
        Holders {
            ids: Ids::Others(QueueIds::new(alloc)),
        }
    }

    /// Those queues, in that order.
    pub fn from_ids(ids: QueueIds) -> Holders
        ensures { result ≡ ids }
    {
        if let [one] = ids.as_slice() {
            let one = *one;
            return Holders { ids: Ids::One(one) };
        }
        Holders {
            ids: Ids::Others(ids),
        }
    }

    /// The ids as a slice.
    pub fn as_slice(&self) -> &[u32]
        ensures value { result.now ≡ self.now }
        ensures in_range { All (λ queue. queue < 2 ^ 32) self.now }
    {
        match &self.ids {
            Ids::One(id) => {
                // Named, so that the proof knows the range of the id.
                let ids = std::slice::from_ref(id);
                ids
            }
            Ids::Others(ids) => ids.as_slice(),
        }
    }

    // Those but this one.
    pub(crate) fn without(self, alloc: Global, queue: u32) -> Holders
        ensures { result ≡ without_number queue self }
    {
        let Holders { ids } = self;
        match ids {
            Ids::One(id) => without_one(alloc, id, queue),
            Ids::Others(ids) => Holders::from_ids(without(ids, queue)),
        }
    }
}

// That one but the other.
fn without_one(alloc: Global, id: u32, queue: u32) -> Holders
    ensures { result ≡ without_number queue (id ∷ []) }
{
    if id == queue {
        Holders::none(alloc)
    } else {
        Holders { ids: Ids::One(id) }
    }
}

fn without(ids: QueueIds, queue: u32) -> QueueIds
    ensures { result ≡ without_number queue ids }
{
    let mut ids = ids.into_vec();
    ids.retain(|id| *id != queue);
    QueueIds::from_vec(ids)
}
