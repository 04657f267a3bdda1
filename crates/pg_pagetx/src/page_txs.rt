// Page transactions.
ghost use Rattle.std.specs.Prelude.{◌≡◌, []};
ghost use Rattle.pg_pagetx.specs.Standings.{standing_of};

use crate::standing::Standing;
use pg_msg::MessageId;
use std::alloc::Global;
use std::collections::BTreeSet;
use std::marker::Model;

/// The page transactions that are committed or undecided, which contracts see as two lists of their ids. The id of a
/// page transaction is that of the first message that it put into a page.
///
/// No call begins or commits one yet, so whoever begins with `new` finds every id void.
pub struct PageTxs {
    // The committed ones, by the epochs and numbers of their ids.
    committed: BTreeSet<(u32, u32)>,
    // The undecided ones.
    pending: BTreeSet<(u32, u32)>,
}

impl Model for PageTxs {
    ghost use Rattle.pg_pagetx.specs.Standings.{Transactions};

    ghost Value = { Transactions };

    ghost use Rattle.pg_pagetx.specs.Kept.{seen};

    ghost view = { λ txs. seen txs.committed txs.pending };
}

impl Drop for PageTxs {
    fn drop(self) {
        let PageTxs {
            committed: _committed,
            pending: _pending,
        } = self;
    }
}

impl PageTxs {
    /// No page transactions. Takes no memory.
    pub fn new(alloc: Global) -> PageTxs
        ensures { result ≡ record { committed = []; pending = [] } }
    {
        PageTxs {
            committed: BTreeSet::new(alloc),
            pending: BTreeSet::new(alloc),
        }
    }

    /// The standing of the page transaction with that id. Takes at most logarithmic time.
    pub fn standing(&self, tx: MessageId) -> Standing
        ensures { result ≡ standing_of self.now tx }
    {
        let key = (tx.epoch, tx.number);
        if self.committed.contains(&key) {
            Standing::Counts
        } else if self.pending.contains(&key) {
            Standing::Pending
        } else {
            Standing::Void
        }
    }
}
