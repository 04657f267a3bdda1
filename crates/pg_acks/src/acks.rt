// What is acknowledged.
ghost use Rattle.std.specs.Prelude.{◌≡◌, false, IfOk, OnOk, OnErr};
ghost use Rattle.pg_acks.specs.Acked.{AreRowsOf, ArePagesOf, any_acknowledged, is_acknowledged, is_single, is_whole, no_acks, with_page, with_position, with_run, without_queue};
ghost use Rattle.pg_acks.specs.Kept.{any_single};

use crate::position::Position;
use crate::row::AckRow;
use crate::runs::{
    Key, drop_pages, drop_runs, first_with, has_between, has_index, join, last_with, pages_of,
    rows_of, take_page,
};
use std::alloc::{AllocError, Global};
use std::collections::{BTreeMap, BTreeSet};
use std::marker::Model;

/// The positions that are acknowledged at each queue, and the pages that are acknowledged whole.
///
/// Consecutive positions of a page are one run, so those that are acknowledged one after the other take no memory
/// each. A call takes at most logarithmic time, but `add_page`, which takes the runs of its page out, and `drop_queue`,
/// `rows` and `pages`, which walk all.
pub struct Acks {
    // The last index of each run, by its queue and page and its first index.
    runs: BTreeMap<Key, u32>,
    // The whole pages, with their queues.
    pages: BTreeSet<(u32, u64)>,
}

impl Model for Acks {
    ghost use Rattle.pg_acks.specs.Acked.{AckSets, ack_sets_code};

    ghost Value = { AckSets };

    ghost coded = { ack_sets_code };

    ghost use Rattle.pg_acks.specs.Kept.{AreKept, seen};

    ghost view = { λ acks. seen acks.runs acks.pages };

    ghost invariant = { λ acks. AreKept acks.runs acks.pages };
}

impl Drop for Acks {
    fn drop(self) {
        let Acks {
            runs: _runs,
            pages: _pages,
        } = self;
    }
}

impl Acks {
    /// Nothing is acknowledged. Takes no memory.
    pub fn new(alloc: Global) -> Acks
        ensures { result ≡ no_acks }
    {
        Acks {
            runs: BTreeMap::new(alloc),
            pages: BTreeSet::new(alloc),
        }
    }

    /// Whether the position is acknowledged at the queue: as a single one, or with its whole page.
    pub fn contains(&self, queue: u32, position: Position) -> bool
        ensures { result ≡ is_acknowledged self.now queue position }
    {
        let at = (queue, position.page);
        has_index(&self.runs, at, position.index) || self.pages.contains(&at)
    }

    /// Whether some position of the page from the one index to the other, both included, is acknowledged at the queue.
    /// There is none where the other is below the one.
    pub fn has_any(&self, queue: u32, page: u64, from: u32, to: u32) -> bool
        ensures { result ≡ any_acknowledged self.now queue page from to }
    {
        if to < from {
            return false;
        }
        let at = (queue, page);
        has_between(&self.runs, at, from, to) || self.pages.contains(&at)
    }

    /// Whether the page is acknowledged whole at the queue.
    pub fn has_page(&self, queue: u32, page: u64) -> bool
        ensures { result ≡ is_whole self.now queue page }
    {
        self.pages.contains(&(queue, page))
    }

    // Whether the position is acknowledged as a single one at the queue.
    fn has_single(&self, queue: u32, position: Position) -> bool
        ensures { result ≡ is_single self.now queue position }
    {
        has_index(&self.runs, (queue, position.page), position.index)
    }

    /// Acknowledges one position at the queue. Fails only where there is no memory for it, and then nothing has
    /// changed.
    pub fn add(&mut self, queue: u32, position: Position) -> Result<(), AllocError>
        ensures ok { OnOk result (self.new ≡ with_position queue position self.old) }
        ensures err { OnErr result (self.new ≡ self.old) }
    {
        if self.has_single(queue, position) {
            return Ok(());
        }
        self.put_run(queue, position.page, position.index, position.index)?;
        Ok(())
    }

    /// Acknowledges the positions of the page from the one index to the other, both included, none of which is
    /// acknowledged at the queue; `has_any` tells. They are single ones, in one run with those that they touch. Fails
    /// only where there is no memory for it, and then nothing has changed.
    pub fn add_run(&mut self, queue: u32, page: u64, from: u32, to: u32) -> Result<(), AllocError>
        requires { any_acknowledged self.old queue page from to ≡ false }
        ensures ok { OnOk result (self.new ≡ with_run queue page from to self.old) }
        ensures err { OnErr result (self.new ≡ self.old) }
    {
        self.put_run(queue, page, from, to)
    }

    // The same where none of them is a single one, but the page may be whole.
    fn put_run(&mut self, queue: u32, page: u64, from: u32, to: u32) -> Result<(), AllocError>
        requires { any_single self.old queue page from to ≡ false }
        ensures ok { OnOk result (self.new ≡ with_run queue page from to self.old) }
        ensures err { OnErr result (self.new ≡ self.old) }
    {
        if to < from {
            return Ok(());
        }
        let at = (queue, page);
        let first = first_with(&self.runs, at, from);
        let last = last_with(&self.runs, at, to);
        join(&mut self.runs, at, first, to, last)?;
        Ok(())
    }

    /// Acknowledges a whole page at the queue, whose single positions on it are told no more. Fails only where there
    /// is no memory for it, and then nothing has changed.
    pub fn add_page(&mut self, queue: u32, page: u64) -> Result<(), AllocError>
        ensures ok { OnOk result (self.new ≡ with_page queue page self.old) }
        ensures err { OnErr result (self.new ≡ self.old) }
    {
        let at = (queue, page);
        self.pages.insert(at)?;
        take_page(&mut self.runs, at);
        Ok(())
    }

    /// Takes all away that is acknowledged at the queue, by a walk over all queues.
    pub fn drop_queue(&mut self, queue: u32)
        ensures { self.new ≡ without_queue queue self.old }
    {
        drop_runs(&mut self.runs, queue);
        drop_pages(&mut self.pages, queue);
    }

    /// The single positions as runs, ascending by queue, page and index, each as long as can be. Fails only where
    /// there is no memory for them.
    pub fn rows(&self, alloc: Global) -> Result<Vec<AckRow>, AllocError>
        ensures { IfOk result (λ rows. AreRowsOf self.now rows.items) }
    {
        rows_of(&self.runs, alloc)
    }

    /// The whole pages with their queues, ascending by queue and page. Fails only where there is no memory for them.
    pub fn pages(&self, alloc: Global) -> Result<Vec<(u32, u64)>, AllocError>
        ensures { IfOk result (λ pages. ArePagesOf self.now pages.items) }
    {
        pages_of(&self.pages, alloc)
    }
}
