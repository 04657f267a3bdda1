// The routes.
ghost use Rattle.std.specs.Prelude.{◌≡◌, [], false, None, IfOk, OnOk, OnErr};
ghost use Rattle.std.specs.List.Sorted.{IsStrictlySortedBy};
ghost use Rattle.std.specs.Ordering.{nat_cmp};
ghost use Rattle.pg_routes.specs.Names.{AreAscending, address_named, has_address, has_queue, queue_ids_at, queue_named, routed_at, with_address, with_queue, without_queue};

use crate::lists::{begin_list, put_in, take_out};
use crate::routing::takers;
use indexmap::IndexMap;
use pg_bytes::Text;
use pg_msg::Property;
use pg_parse::Tree;
use std::alloc::{AllocError, Global};
use std::collections::BTreeMap;
use std::marker::Model;

// A live queue: the id of its address, its name, and its filter, if it has one.
pub(crate) struct QueueEntry {
    pub(crate) address: u32,
    pub(crate) name: Text,
    pub(crate) filter: Option<Tree>,
}

impl Drop for QueueEntry {
    fn drop(self) {
        let QueueEntry {
            address: _address,
            name: _name,
            filter: _filter,
        } = self;
    }
}

/// The addresses and the live queues, which contracts see as two lists, ascending by id.
///
/// A name is found by its hash. No call walks over addresses, or over the queues of other addresses than the one it
/// speaks of: `add_queue` and `drop_queue` move at most the ids of that address's queues, and the other calls take no
/// time that grows with them.
pub struct Routes {
    // The names of the addresses by their ids.
    addresses: BTreeMap<u32, Text>,
    // The live queues by their ids.
    queues: BTreeMap<u32, QueueEntry>,
    // The id of each address by its name. A name that no address has may have one too.
    address_ids: IndexMap<String, u32>,
    // The id of each queue by its name. A name that no queue has may have one too.
    queue_ids: IndexMap<String, u32>,
    // The ids of the queues of each address, ascending. An address without queues may have none.
    lists: BTreeMap<u32, Vec<u32>>,
}

impl Model for Routes {
    ghost use Rattle.std.specs.Coded.{codes};
    ghost use Rattle.pg_parse.specs.contracts.tree.Tree as tree;
    ghost use Rattle.pg_routes.specs.Names.{RouteNames};

    ghost Value = { RouteNames };

    // A tree holds itself, so its code is named.
    ghost coded = { Prim.hlevel (codes, tree.the_row.coded) };

    ghost use Rattle.pg_routes.specs.Kept.{AreKept, seen};

    ghost view = { λ routes. seen routes.addresses routes.queues };

    ghost invariant = { λ r. AreKept r.addresses r.queues r.address_ids r.queue_ids r.lists };
}

impl Drop for Routes {
    fn drop(self) {
        let Routes {
            addresses: _addresses,
            queues: _queues,
            address_ids: _address_ids,
            queue_ids: _queue_ids,
            lists: _lists,
        } = self;
    }
}

impl Routes {
    /// No addresses and no queues. Takes no memory.
    pub fn new(alloc: Global) -> Routes
        ensures { result ≡ record { addresses = []; queues = [] } }
    {
        Routes {
            addresses: BTreeMap::new(alloc),
            queues: BTreeMap::new(alloc),
            address_ids: IndexMap::new(alloc),
            queue_ids: IndexMap::new(alloc),
            lists: BTreeMap::new(alloc),
        }
    }

    /// The id of the address of that name. None exactly where there is none.
    pub fn address_id(&self, name: &str) -> Option<u32>
        ensures { result ≡ address_named name.now self.now }
    {
        let id = self.address_ids.get(name).copied()?;
        let address = self.addresses.get(&id)?;
        if name == address.as_str() {
            Some(id)
        } else {
            None
        }
    }

    /// The id of the live queue of that name. None exactly where there is none.
    pub fn queue_id(&self, name: &str) -> Option<u32>
        ensures { result ≡ queue_named name.now self.now }
    {
        let id = self.queue_ids.get(name).copied()?;
        let queue = self.queues.get(&id)?;
        if name == queue.name.as_str() {
            Some(id)
        } else {
            None
        }
    }

    /// Whether there is an address with that id.
    pub fn has_address(&self, id: u32) -> bool
        ensures { result ≡ has_address id self.now }
    {
        self.addresses.contains_key(&id)
    }

    /// Whether there is a live queue with that id.
    pub fn has_queue(&self, id: u32) -> bool
        ensures { result ≡ has_queue id self.now }
    {
        self.queues.contains_key(&id)
    }

    /// The ids of the live queues of that address, ascending. There are none where no live queue has that address.
    pub fn queues_at(&self, address: u32) -> &[u32]
        ensures ids { result.now ≡ queue_ids_at address self.now }
        ensures ascending { IsStrictlySortedBy nat_cmp result.now }
        ensures all_ascend { AreAscending self.now }
    {
        match self.lists.get(&address) {
            Some(ids) => ids.as_slice(),
            None => &[],
        }
    }

    /// The ids of the queues that a message with these properties goes to: of the live queues of that address, those
    /// whose filter is true of them, and those that have none. One filter is evaluated for each queue of the address.
    pub fn route(
        &self,
        alloc: Global,
        address: u32,
        properties: &[Property],
    ) -> Result<Vec<u32>, AllocError>
        ensures ids { IfOk result (λ ids. ids.items ≡ routed_at address properties.now self.now) }
        ensures ascending { IfOk result (λ ids. IsStrictlySortedBy nat_cmp ids.items) }
    {
        takers(alloc, &self.queues, self.queues_at(address), properties)
    }

    /// Adds an address. Fails only where there is no memory for it, and then nothing has changed.
    pub fn add_address(&mut self, alloc: Global, id: u32, name: Text) -> Result<(), AllocError>
        requires new_id { has_address id self.old ≡ false }
        requires new_name { address_named name self.old ≡ None }
        ensures ok { OnOk result (self.new ≡ with_address (record { id = id; name = name }) self.old) }
        ensures err { OnErr result (self.new ≡ self.old) }
    {
        let key = String::from_str(alloc, name.as_str())?;
        self.address_ids.insert(key, id)?;
        self.addresses.insert(id, name)?;
        Ok(())
    }

    /// Adds a queue of the address with that id, with that filter, if there is one. Fails only where there is no memory
    /// for it, and then nothing has changed.
    pub fn add_queue(
        &mut self,
        alloc: Global,
        id: u32,
        address: u32,
        name: Text,
        filter: Option<Tree>,
    ) -> Result<(), AllocError>
        requires new_id { has_queue id self.old ≡ false }
        requires new_name { queue_named name self.old ≡ None }
        ensures ok { OnOk result (self.new
            ≡ with_queue (record { id = id; address = address; name = name; filter = filter }) self.old) }
        ensures err { OnErr result (self.new ≡ self.old) }
    {
        let key = String::from_str(alloc, name.as_str())?;
        self.queue_ids.insert(key, id)?;
        begin_list(&mut self.lists, alloc, address)?;
        put_in(&mut self.lists, address, id)?;
        match self.queues.insert(
            id,
            QueueEntry {
                address,
                name,
                filter,
            },
        ) {
            Ok(_) => Ok(()),
            Err(_) => {
                take_out(&mut self.lists, address, id);
                Err(AllocError)
            }
        }
    }

    /// Takes the queue with that id out, if there is one. Its name may be taken again.
    pub fn drop_queue(&mut self, id: u32)
        ensures { self.new ≡ without_queue id self.old }
    {
        if let Some(queue) = self.queues.remove(&id) {
            self.queue_ids.swap_remove(queue.name.as_str());
            take_out(&mut self.lists, queue.address, id);
        }
    }
}
