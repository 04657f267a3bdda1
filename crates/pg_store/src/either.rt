// A frame is added to the pages of an address in either state.
ghost use Rattle.std.specs.Prelude.{◌≡◌, ◌⊎◌, ◌<◌, ◌≤◌, ◌+◌, ◌^◌, ◌↔◌, ℕ, length, IfOk, IfErr, IsErrOf};
ghost use Rattle.pg_disk.specs.Counts.{CountsFault};
ghost use Rattle.pg_disk.specs.Moments.{Within};
ghost use Rattle.pg_disk.specs.Sites.{OnFiles, Steps};
ghost use Rattle.pg_gate.specs.Gated.{IsUndamaged};
ghost use Rattle.pg_store.specs.declared.store.Store.TheVariants.{Normal, Paging};
ghost use Rattle.pg_store.specs.Pages.{ChangesPages, LeavesPages, Somehow, states_of};
ghost use Rattle.pg_store.specs.Stores.{HasNoSpaceFor, IsNormal, IsReady, MayPageInto, PagedInto, Takes};
ghost use Rattle.pg_store.specs.Stores.{address_of_normal, address_of_store, first_of_normal};
ghost use Rattle.pg_store.specs.Stores.{first_of_store, last_of_store};

use crate::starting::LAST;
use crate::store::{NormalStore, PagingStore, Store};
use pg_bytes::Octets;
use pg_disk::{Disk, Fault};
use pg_page::Place;
use std::alloc::Global;

impl Store {
    /// Adds a frame, which this payload spells, and answers its place. At an address without pages the first page is
    /// made, and the frame is its first one, whatever `limit` is; else this is `PagingStore::page`. The frame counts
    /// from some moment within the call on, and at no moment in part. Before any call of the disk comes `Spent`, where
    /// the page's number or the file's length would pass 2^62. The other errors are that the disk failed, and that there
    /// was no memory: then the frame counts or it doesn't, and an empty page may stand at the end.
    pub fn page<D: Disk>(
        self,
        alloc: Global,
        disk: &mut D,
        payload: &Octets,
        limit: u64,
    ) -> Result<(Store, Place), Fault>
        requires ready { OnFiles D.Disk disk.old (λ files. IsReady self (states_of files (address_of_store self))) }
        requires limited { limit ≤ 1000000000 }
        ensures takes { IfOk result (λ done. Takes self (length payload.now) limit done.0 done.1) }
        ensures paged { IfOk result (λ done. Steps D.Disk disk.old disk.new
            (ChangesPages (address_of_store self) (PagedInto self payload.now done.0 done.1))) }
        ensures other_files { Steps D.Disk disk.old disk.new (ChangesPages (address_of_store self) Somehow) }
        ensures any_moment { Within D.Disk disk.old disk.new
            (LeavesPages (address_of_store self) (MayPageInto self payload.now)) }

        ensures spent { IsErrOf result Fault.Spent ↔ HasNoSpaceFor self (length payload.now) limit }
        ensures untouched { IsErrOf result Fault.Spent → disk.new ≡ disk.old }
        ensures only { IfErr result IsUndamaged }
        ensures cause { CountsFault (D.faults disk.old) (D.faults disk.new) result }
    {
        match self {
            Store::Normal(store) => {
                let (next, place) = store.start_with(alloc, disk, payload)?;
                Ok((Store::Paging(next), place))
            }
            Store::Paging(store) => {
                let (next, place) = store.page(alloc, disk, payload, limit)?;
                Ok((Store::Paging(next), place))
            }
        }
    }
}

impl Store {
    // The number of the first page, whether it is there or not.
    pub(crate) fn first(&self) -> u64
        ensures { result ≡ first_of_store self.now }
    {
        match self {
            Store::Normal(store) => store.first,
            Store::Paging(store) => store.first(),
        }
    }

    // The number of the last page, or none.
    pub(crate) fn last(&self) -> Option<u64>
        ensures { result ≡ last_of_store self.now }
    {
        match self {
            Store::Normal(_) => None,
            Store::Paging(store) => Some(store.last()),
        }
    }
}

impl NormalStore {
    // Makes the first page, and adds a frame to it.
    fn start_with<D: Disk>(
        self,
        alloc: Global,
        disk: &mut D,
        payload: &Octets,
    ) -> Result<(PagingStore, Place), Fault>
        requires { OnFiles D.Disk disk.old (λ files. IsNormal self (states_of files (address_of_normal self))) }
        ensures takes { (limit : ℕ) → IfOk result (λ done.
            Takes (Normal self) (length payload.now) limit (Paging done.0) done.1) }
        ensures paged { IfOk result (λ done. Steps D.Disk disk.old disk.new
            (ChangesPages (address_of_normal self) (PagedInto (Normal self) payload.now (Paging done.0) done.1))) }
        ensures other_files { Steps D.Disk disk.old disk.new (ChangesPages (address_of_normal self) Somehow) }
        ensures any_moment { Within D.Disk disk.old disk.new
            (LeavesPages (address_of_normal self) (MayPageInto (Normal self) payload.now)) }

        ensures spent { IsErrOf result Fault.Spent ↔
            ((2 ^ 62 < first_of_normal self) ⊎ (2 ^ 62 < length payload.now + 10)) }
        ensures untouched { IsErrOf result Fault.Spent → disk.new ≡ disk.old }
        ensures only { IfErr result IsUndamaged }
        ensures cause { CountsFault (D.faults disk.old) (D.faults disk.new) result }
    {
        let size = payload.len() as u64;
        if size > LAST - 10 {
            return Err(Fault::Spent);
        }
        let store = self.start(disk)?;
        let (next, place) = store.add(alloc, disk, payload)?;
        Ok((next, place))
    }
}
