// Whether the messages of each address have room in memory.
ghost use Rattle.std.specs.Prelude.{◌≡◌, ◌≤◌, ◌<◌, ◌+◌, ◌-◌, ◌^◌, ◌==◌, ◌↔◌, ℕ, min, length, if◌then◌else◌};
ghost use Rattle.std.specs.Prelude.{slice_index, slice_index_or, All, EachIndex, IsTrue, IfOk};
ghost use Rattle.pg_msg.specs.Messages.{HasFields, weight_of};
ghost use Rattle.pg_recover.specs.Denotation.{weight_at};
ghost use Rattle.pg_fold.specs.Sound.{IsSound};
ghost use Rattle.pg_recover.specs.WellFormed.{AreRoomy};

use pg_fold::{AddressRow, Durable, JournaledRow, JournaledRows};
use pg_msg::weight;
use std::alloc::{AllocError, Global};

/// No message is as heavy as this, in bytes. By less than so much the last message of an address may pass its limit.
const HEAVIEST: u64 = 102_400;

// Adds the weight of the message to that of its address. A sum that gets too great stays at the end of its type.
fn add_weight(sums: &mut Vec<u64>, row: &JournaledRow)
    requires { HasFields row.now.message }
    ensures count { length sums.new.items ≡ length sums.old.items }
    ensures each { EachIndex sums.new.items (λ k. slice_index sums.new.items k
        ≡ min (slice_index sums.old.items k + (if row.now.address == k + 1 then weight_of row.now.message else 0))
        (2 ^ 64 - 1)) }
{
    let address = row.address as usize;
    if address == 0 || address > sums.len() {
        return;
    }
    sums[address - 1] = sums[address - 1].saturating_add(weight(&row.message));
}

/// How many bytes the messages of each of so many addresses weigh, in the order of the addresses' ids. A sum that would
/// be greater than its type's end is that. Fails only where there is no memory for them.
pub fn weights_by_address(
    alloc: Global,
    count: usize,
    rows: &JournaledRows,
) -> Result<Vec<u64>, AllocError>
    requires { All (λ row. HasFields row.message) rows.now }
    ensures count { IfOk result (λ sums. length sums.items ≡ count) }
    ensures each { IfOk result (λ sums. EachIndex sums.items (λ k.
        slice_index sums.items k ≡ min (weight_at (k + 1) rows.now) (2 ^ 64 - 1))) }
{
    let mut sums = vec![in alloc; 0; count]?;
    let listed = rows.to_vec(alloc)?;
    for place in 0..listed.len() {
        add_weight(&mut sums, listed[place]);
    }
    Ok(sums)
}

// Whether none of the weights passes the limit of its address too far.
fn are_light(addresses: &[AddressRow], sums: &[u64]) -> bool
    requires limited { All (λ row. row.max ≤ 1000000000000) addresses.now }
    requires count { length sums.now ≡ length addresses.now }
    ensures { IsTrue result ↔ ((k : ℕ) (other : _) → k < length addresses.now →
        slice_index sums.now k < (slice_index_or addresses.now k other).max + 102400) }
{
    for place in 0..addresses.len() {
        if sums[place] >= addresses[place].max + HEAVIEST {
            return false;
        }
    }
    true
}

// Whether the messages of each address have room in memory.
pub(crate) fn is_roomy(alloc: Global, durable: &Durable) -> Result<bool, AllocError>
    requires { IsSound durable.now }
    ensures { IfOk result (λ roomy. IsTrue roomy ↔ AreRoomy durable.now) }
{
    let addresses = durable.addresses.as_slice();
    let sums = weights_by_address(alloc, addresses.len(), &durable.journaled)?;
    Ok(are_light(addresses, &sums))
}
