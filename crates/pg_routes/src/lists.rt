// The lists of the ids of each address's queues.
ghost use Rattle.std.specs.Prelude.{◌≡◌, ◌==◌, ℕ, false, IsSome, OnOk, OnErr, if◌then◌else◌};
ghost use Rattle.std.specs.BTreeMap.{get};
ghost use Rattle.std.specs.List.{list_any};
ghost use Rattle.std.specs.List.Sorted.{IsStrictlySortedBy};
ghost use Rattle.std.specs.Ordering.{nat_cmp};
ghost use Rattle.pg_routes.specs.Lists.{ids_at, with_id, without_id};

use std::alloc::{AllocError, Global};
use std::collections::BTreeMap;

// Sees to it that the address has a list. It is empty where there was none.
pub(crate) fn begin_list(
    lists: &mut BTreeMap<u32, Vec<u32>>,
    alloc: Global,
    address: u32,
) -> Result<(), AllocError>
    ensures there { OnOk result (IsSome (get nat_cmp lists.new address)) }
    ensures same { (other : ℕ) → ids_at lists.new other ≡ ids_at lists.old other }
{
    if !lists.contains_key(&address) {
        lists.insert(address, Vec::new(alloc))?;
    }
    Ok(())
}

// Puts the id into the address's list, at its place.
pub(crate) fn put_in(
    lists: &mut BTreeMap<u32, Vec<u32>>,
    address: u32,
    id: u32,
) -> Result<(), AllocError>
    requires there { IsSome (get nat_cmp lists.old address) }
    requires ascending { IsStrictlySortedBy nat_cmp (ids_at lists.old address) }
    requires new { list_any (λ other. other == id) (ids_at lists.old address) ≡ false }
    ensures ok { OnOk result ((other : ℕ) → ids_at lists.new other
        ≡ (if other == address then with_id id (ids_at lists.old other) else ids_at lists.old other)) }
    ensures err { OnErr result ((other : ℕ) → ids_at lists.new other ≡ ids_at lists.old other) }
{
    if let Some(ids) = lists.get_mut(&address) {
        let place = ids.partition_point(|other| *other < id);
        ids.insert(place, id)?;
    }
    Ok(())
}

// Takes the id out of the address's list.
pub(crate) fn take_out(lists: &mut BTreeMap<u32, Vec<u32>>, address: u32, id: u32)
    ensures { (other : ℕ) → ids_at lists.new other
        ≡ (if other == address then without_id id (ids_at lists.old other) else ids_at lists.old other) }
{
    if let Some(ids) = lists.get_mut(&address) {
        ids.retain(|other| *other != id);
    }
}
