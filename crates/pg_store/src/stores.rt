// The pages of all addresses.
ghost use Rattle.std.specs.Prelude.{◌≡◌, ◌≤◌, ◌<◌, ◌+◌, ◌^◌, ◌↔◌, ◌++◌, ◌∷◌, [], length, None};
ghost use Rattle.std.specs.Prelude.{IfOk, IfErr, IfSome, IfNone, OnOk, OnErr, IsErrOf};
ghost use Rattle.pg_disk.specs.Counts.{CountsFault};
ghost use Rattle.pg_disk.specs.Image.{LeavesAt, Only};
ghost use Rattle.pg_disk.specs.Moments.{Within, WithinFrom};
ghost use Rattle.pg_disk.specs.Sites.{OnBoth, OnFiles, OnTaken, Steps};
ghost use Rattle.pg_gate.specs.Gated.{IsUndamaged};
ghost use Rattle.pg_gate.specs.Spans.{KeepsAsRead, KeepsAtRest, ReadsAndChanges, ReadsWithin, StaysOrMends};
ghost use Rattle.pg_page.specs.Faults.{BreaksOn, IsPageFault};
ghost use Rattle.pg_page.specs.Pages.{page_file};
ghost use Rattle.pg_store.specs.Every.{Appends, AreReady, HasBoth, HasStore, IsStoreWith, MayPageAt, PagedAt};
ghost use Rattle.pg_store.specs.Every.{StayElsewhere};
ghost use Rattle.pg_store.specs.Pages.{ChangesPages, IsLast, LeavesPages, Somehow, states_of};
ghost use Rattle.pg_store.specs.Stores.{HasNoSpaceFor, IsReady, Reopens, Takes, first_of_store, last_of_store};

use crate::store::{NormalStore, Store};
use pg_bytes::Octets;
use pg_disk::{Disk, Fault};
use pg_page::Place;
use std::alloc::{AllocError, Global};
use std::marker::Model;
use std::mem;

/// The pages of all addresses. Their ids count from 1 without a gap, and contracts see the list of their stores by
/// ascending ids.
pub struct Stores {
    list: Vec<Store>,
}

impl Model for Stores {
    ghost use Rattle.std.specs.Prelude.{List};
    ghost use Rattle.pg_store.specs.declared.store.Store.{Store};

    ghost Value = { List Store };

    ghost view = { λ stores. stores.list.items };
}

impl Drop for Stores {
    fn drop(self) {
        let Stores { list: _list } = self;
    }
}

// Stands where a store was taken out.
const NONE: Store = Store::Normal(NormalStore {
    address: 0,
    first: 0,
});

impl Stores {
    /// No address. Takes no memory.
    pub fn new(alloc: Global) -> Stores
        ensures { result ≡ [] }
    {
        Stores {
            list: Vec::new(alloc),
        }
    }

    /// How many addresses there are, which is the greatest id.
    pub fn len(&self) -> usize
        ensures { result ≡ length self.now }
    {
        self.list.len()
    }

    /// One address more, which has no page from `first` on. Its id is the one behind the others. Fails only where there
    /// is no memory for it, and then nothing has changed.
    pub fn add(&mut self, address: u32, first: u64) -> Result<(), AllocError>
        requires { address ≡ length self.old + 1 }
        ensures added { OnOk result (Appends self.old self.new (IsStoreWith address first None)) }
        ensures unchanged { OnErr result (self.new ≡ self.old) }
    {
        self.push(Store::Normal(NormalStore { address, first }))
    }

    /// One address more, as `Store::open` opens it, whose errors are those of this call. Its id is the one behind the
    /// others. After an Err the list is as it was. `Memory` may come after the last page was opened.
    pub fn open_next<D: Disk>(
        &mut self,
        alloc: Global,
        disk: &mut D,
        address: u32,
        first: u64,
        last: Option<u64>,
    ) -> Result<(), Fault>
        requires next { address ≡ length self.old + 1 }
        requires last { OnFiles D.Disk disk.old (λ files. IsLast first last (states_of files address)) }
        requires numbered { IfSome last (λ page. page ≤ 2 ^ 62) }
        ensures added { OnOk result (Appends self.old self.new (IsStoreWith address first last)) }
        ensures unchanged { OnErr result (self.new ≡ self.old) }
        ensures opened { OnOk result (OnBoth D.Disk disk.old disk.new (λ files now.
            Appends self.old self.new (λ store. IsReady store (states_of now address) ×
            Reopens store (states_of files address) (states_of now address)))) }
        ensures nothing { IfNone last (IfErr result (λ e. e ≡ Fault.Memory) × (disk.new ≡ disk.old)) }

        ensures stays { IfSome last (λ page. Steps D.Disk disk.old disk.new
            (ReadsAndChanges (page_file address page) StaysOrMends)) }
        ensures taken { IfSome last (λ page. OnTaken D.Disk disk.old disk.new (page_file address page) ReadsWithin) }
        ensures any_moment { IfSome last (λ page. Within D.Disk disk.old disk.new
            (LeavesAt (page_file address page) KeepsAtRest)) }
        ensures once_synced { OnOk result (IfSome last (λ page. WithinFrom D.Disk (Only (page_file address page))
            disk.old disk.new (LeavesAt (page_file address page) KeepsAsRead))) }
        ensures damaged { IfErr result (λ e. IfSome last (λ page. IsPageFault (page_file address page)
            (BreaksOn D.Disk disk.old (page_file address page)) e)) }
        ensures cause { CountsFault (D.faults disk.old) (D.faults disk.new) result }
    {
        let store = Store::open(alloc, disk, address, first, last)?;
        self.push(store)?;
        Ok(())
    }

    // One store more behind the others. Fails only where there is no memory for it.
    fn push(&mut self, store: Store) -> Result<(), AllocError>
        ensures pushed { OnOk result (self.new ≡ self.old ++ store ∷ []) }
        ensures unchanged { OnErr result (self.new ≡ self.old) }
    {
        self.list.push(store)?;
        Ok(())
    }

    /// The number of the address's first page, whether it is there or not.
    pub fn first(&self, address: u32) -> u64
        requires { (1 ≤ address) × (address ≤ length self.now) }
        ensures { HasStore address self.now (λ store. result ≡ first_of_store store) }
    {
        self.list[address as usize - 1].first()
    }

    /// The number of the address's last page, at most 2^62. None exactly where it has none from the first one on.
    pub fn last(&self, address: u32) -> Option<u64>
        requires { (1 ≤ address) × (address ≤ length self.now) }
        ensures { HasStore address self.now (λ store. result ≡ last_of_store store) }
    {
        self.list[address as usize - 1].last()
    }

    /// Adds a frame to the pages of the address, as `Store::page` does, and answers its place. After an Err the stores
    /// are gone: all addresses have to be opened anew.
    pub fn page<D: Disk>(
        mut self,
        alloc: Global,
        disk: &mut D,
        address: u32,
        payload: &Octets,
        limit: u64,
    ) -> Result<(Stores, Place), Fault>
        requires there { (1 ≤ address) × (address ≤ length self) }
        requires ready { OnFiles D.Disk disk.old (AreReady self) }
        requires limited { limit ≤ 1000000000 }
        ensures takes { IfOk result (λ done. HasBoth address self done.0 (λ store next.
            Takes store (length payload.now) limit next done.1)) }
        ensures others { IfOk result (λ done. StayElsewhere address self done.0) }
        ensures ready { IfOk result (λ done. OnFiles D.Disk disk.new (AreReady done.0)) }
        ensures paged { IfOk result (λ done. Steps D.Disk disk.old disk.new
            (ChangesPages address (PagedAt address self payload.now done.0 done.1))) }
        ensures other_files { Steps D.Disk disk.old disk.new (ChangesPages address Somehow) }
        ensures any_moment { Within D.Disk disk.old disk.new
            (LeavesPages address (MayPageAt address self payload.now)) }

        ensures spent { IsErrOf result Fault.Spent ↔
            HasStore address self (λ store. HasNoSpaceFor store (length payload.now) limit) }
        ensures untouched { IsErrOf result Fault.Spent → disk.new ≡ disk.old }
        ensures only { IfErr result IsUndamaged }
        ensures cause { CountsFault (D.faults disk.old) (D.faults disk.new) result }
    {
        let slot = address as usize - 1;
        let store = mem::replace(&mut self.list[slot], NONE);
        let (next, place) = store.page(alloc, disk, payload, limit)?;
        self.list[slot] = next;
        Ok((self, place))
    }
}
