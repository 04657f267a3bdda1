// The cursor of a queue.
ghost use Rattle.std.specs.Prelude.{◌≡◌, ℕ, false, true, [], Some, IfOk, IfErr, IfSome, IfNone, OnOk, OnErr};
ghost use Rattle.pg_disk.specs.Calls.{Reads};
ghost use Rattle.pg_disk.specs.Counts.{CountsFault};
ghost use Rattle.pg_disk.specs.Image.{Leaves};
ghost use Rattle.pg_disk.specs.Moments.{Within};
ghost use Rattle.pg_disk.specs.Sites.{OnFiles, Steps};
ghost use Rattle.pg_acks.specs.Acked.{AckSets, is_acknowledged};
ghost use Rattle.pg_page.specs.Pages.{Pages};
ghost use Rattle.pg_pagetx.specs.Standings.{Transactions};
ghost use Rattle.pg_cursor.specs.Counting.{CountsLive};
ghost use Rattle.pg_cursor.specs.Entries.{pages_from};
ghost use Rattle.pg_cursor.specs.Places.{ChangesAt, HasPlace, page_of};
ghost use Rattle.pg_cursor.specs.Tracking.{Cursor, GivesNext, IsAvailable, PutsBack, Removes, Takes, Tracks};
ghost use Rattle.pg_cursor.specs.Walking.{AreThere, IsDamageIn, OnPages, TailStands};
ghost use Rattle.pg_cursor.specs.Ways.{OnReads, ReadsAlong};
ghost use Rattle.pg_cursor.specs.declared.tail.Tail.TheVariants.{Begin};

use crate::counting::count_behind;
use crate::places::Places;
use crate::tail::Tail;
use crate::walking::walk;
use pg_acks::Acks;
use pg_disk::{Disk, Fault};
use pg_page::Place;
use pg_pagetx::PageTxs;
use std::alloc::{AllocError, Global};
use std::marker::Model;

/// The cursor of a queue in the pages of its address, which contracts see as the queue, the address, the tail and two
/// lists of places: the front, which are passed and may be given, and the taken ones.
///
/// The front and the taken places are kept in their order, so that no call walks over them.
pub struct Subscription {
    queue: u32,
    address: u32,
    tail: Tail,
    front: Places,
    taken: Places,
}

impl Model for Subscription {
    ghost use Rattle.pg_cursor.specs.Tracking.{Cursor};

    ghost Value = { Cursor };

    ghost view = { λ cursor. record {
      queue = cursor.queue;
      address = cursor.address;
      tail = cursor.tail;
      front = cursor.front;
      taken = cursor.taken;
    } };
}

impl Drop for Subscription {
    fn drop(self) {
        let Subscription {
            queue: _queue,
            address: _address,
            tail: _tail,
            front: _front,
            taken: _taken,
        } = self;
    }
}

impl Subscription {
    /// The cursor of that queue at the beginning of page `first`, from which on the address has its pages. Takes no
    /// memory.
    pub fn new(alloc: Global, queue: u32, address: u32, first: u64) -> Subscription
        ensures new { result ≡ record { queue = queue; address = address; tail = Begin first; front = []; taken = [] } }
        ensures tracks { (acks : AckSets) (txs : Transactions) (pages : Pages) →
            Tracks result acks txs (pages_from first pages) }
    {
        Subscription {
            queue,
            address,
            tail: Tail::Begin(first),
            front: Places::new(alloc),
            taken: Places::new(alloc),
        }
    }

    /// The address.
    pub fn address(&self) -> u32
        ensures { result ≡ self.now.address }
    {
        self.address
    }

    /// Takes the first place that names the queue, counts, isn't acknowledged and isn't taken, and answers it; None
    /// where there is none. `last` is the address's last page, or a number below the first one where it has no page.
    /// Reads no page that the tail has passed, and of a place in the front nothing; at Ok at most 27 bytes and the payload
    /// of each frame that the tail passes, 18 bytes for each page that it enters, and 18 besides. `Damaged` comes where a page from
    /// the tail's to the last one breaks a rule that the walk meets. At Err nothing is handed back.
    pub fn next_ready<D: Disk>(
        self,
        alloc: Global,
        disk: &mut D,
        acks: &Acks,
        txs: &PageTxs,
        last: u64,
    ) -> Result<(Subscription, Option<Place>), Fault>
        requires there { OnFiles D.Disk disk.old (AreThere self.address (page_of self.tail) last) }
        requires stands { OnPages D.Disk disk.old self.address (TailStands self.tail) }
        ensures next { IfOk result (λ done. OnPages D.Disk disk.old self.address
            (GivesNext last acks.now txs.now done.1 self done.0)) }
        ensures takes { IfOk result (λ done. Takes done.1 self done.0) }
        ensures taken { IfOk result (λ done. OnReads D.Disk disk.old disk.new self.address
            (ReadsAlong 18 self.tail done.0.tail)) }
        ensures same { (n : ℕ) × Steps D.Disk disk.old disk.new (Reads n) }
        ensures any_moment { Within D.Disk disk.old disk.new Leaves }
        ensures damaged { IfErr result (IsDamageIn D.Disk disk.old self.address (page_of self.tail) last) }
        ensures cause { CountsFault (D.faults disk.old) (D.faults disk.new) result }
    {
        let Subscription {
            queue,
            address,
            tail,
            mut front,
            mut taken,
        } = self;
        if let Some(place) = front.pop_first() {
            taken.insert(place)?;
            let cursor = Subscription {
                queue,
                address,
                tail,
                front,
                taken,
            };
            return Ok((cursor, Some(place)));
        }
        let (tail, found) = walk(alloc, disk, queue, address, acks, txs, tail, last)?;
        put_in(&mut taken, found)?;
        let cursor = Subscription {
            queue,
            address,
            tail,
            front,
            taken,
        };
        Ok((cursor, found))
    }

    /// How many places name the queue, count and aren't acknowledged, taken ones included, and 2^64 - 1 where there are
    /// more. `last` is as for `next_ready`, and so are the errors. Reads what stands behind the tail, and keeps nothing.
    pub fn count<D: Disk>(
        &self,
        alloc: Global,
        disk: &mut D,
        acks: &Acks,
        txs: &PageTxs,
        last: u64,
    ) -> Result<u64, Fault>
        requires there { OnFiles D.Disk disk.old (AreThere self.now.address (page_of self.now.tail) last) }
        requires stands { OnPages D.Disk disk.old self.now.address (TailStands self.now.tail) }
        ensures count { IfOk result (λ count. OnPages D.Disk disk.old self.now.address
            (CountsLive last self.now acks.now txs.now count)) }
        ensures same { (n : ℕ) × Steps D.Disk disk.old disk.new (Reads n) }
        ensures any_moment { Within D.Disk disk.old disk.new Leaves }
        ensures damaged { IfErr result (IsDamageIn D.Disk disk.old self.now.address (page_of self.now.tail) last) }
        ensures cause { CountsFault (D.faults disk.old) (D.faults disk.new) result }
    {
        let behind = count_behind(
            alloc,
            disk,
            self.queue,
            self.address,
            acks,
            txs,
            self.tail,
            last,
        )?;
        let taken = self.taken.count_open(self.queue, acks);
        Ok(
            behind
                .saturating_add(self.front.count())
                .saturating_add(taken),
        )
    }

    /// Makes a taken place available again, before all later ones. Fails only where there is no memory for it, and
    /// then nothing has changed.
    pub fn put_back(&mut self, place: Place) -> Result<(), AllocError>
        requires { HasPlace self.old.taken place }
        ensures ok { OnOk result (PutsBack place self.old self.new) }
        ensures err { OnErr result (self.new ≡ self.old) }
        ensures tracks { OnOk result ((acks : AckSets) (txs : Transactions) (pages : Pages) →
            Tracks self.old acks txs pages → is_acknowledged acks self.old.queue place.position ≡ false →
            Tracks self.new acks txs pages) }
        ensures available { OnOk result ((acks : AckSets) (txs : Transactions) (pages : Pages) →
            Tracks self.old acks txs pages → is_acknowledged acks self.old.queue place.position ≡ false →
            IsAvailable self.new acks txs pages place) }
    {
        self.front.insert(place)?;
        self.taken.remove(place.position);
        Ok(())
    }

    /// Takes a place that is acknowledged out of the taken ones.
    pub fn remove(&mut self, place: Place)
        requires { HasPlace self.old.taken place }
        ensures removed { Removes place self.old self.new }
        ensures tracks { (acks : AckSets) (txs : Transactions) (pages : Pages) → Tracks self.old acks txs pages →
            is_acknowledged acks self.old.queue place.position ≡ true → Tracks self.new acks txs pages }
    {
        self.taken.remove(place.position);
    }
}

// Puts the place to these, if there is one. Fails only where there is no memory for it.
fn put_in(places: &mut Places, place: Option<Place>) -> Result<(), AllocError>
    ensures some { OnOk result (IfSome place (λ place. ChangesAt place.position (Some place.offset) places.old places.new)) }
    ensures none { OnOk result (IfNone place (places.new ≡ places.old)) }
{
    match place {
        Some(place) => places.insert(place),
        None => Ok(()),
    }
}
