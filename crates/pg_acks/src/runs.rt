// Runs of indexes, by their queue and page and by their first index.
ghost use Rattle.std.specs.Prelude.{◌≡◌, ◌==◌, ◌<◌, ◌≤◌, ◌^◌, ◌↔◌, ℕ, not, map, filter, IsTrue, Some, None, IsSome, IfSome, IfNone, IfOk, OnOk, OnErr, if◌then◌else◌};
ghost use Rattle.std.specs.BTreeMap.{IsOrdered};
ghost use Rattle.std.specs.BTreeSet as sorted;
ghost use Rattle.pg_acks.specs.Kept.{row_of};
ghost use Rattle.pg_acks.specs.Keys.{At, at_cmp, key_cmp, same_at};
ghost use Rattle.pg_acks.specs.Runs.{AreRuns, BeginsAt, Covers, CoversAny, EndsAt, joined, starts};

use crate::row::AckRow;
use std::alloc::{AllocError, Global};
use std::collections::{BTreeMap, BTreeSet};

// By what a run is kept: its queue and its page, and its first index.
pub(crate) type Key = ((u32, u64), u32);

// The run that begins last among those of the page that begin at the index or below it: its first index and its last.
pub(crate) fn last_from(runs: &BTreeMap<Key, u32>, at: (u32, u64), index: u32) -> Option<(u32, u32)>
    ensures found { IfSome result (λ run. starts runs.now at run.0 ≡ Some run.1) }
    ensures within { IfSome result (λ run. run.0 ≤ index) }
    ensures last { IfSome result
        (λ run. (first : ℕ) → first ≤ index → IsSome (starts runs.now at first) → first ≤ run.0) }
    ensures none { IfNone result ((first : ℕ) → first ≤ index → starts runs.now at first ≡ None) }
    ensures ordered { IsOrdered key_cmp runs.now }
{
    match runs.range((at, 0)..=(at, index)).next_back() {
        Some((key, last)) => Some((key.1, *last)),
        None => None,
    }
}

// Whether a run of the page has the index.
pub(crate) fn has_index(runs: &BTreeMap<Key, u32>, at: (u32, u64), index: u32) -> bool
    requires { AreRuns (starts runs.now at) }
    ensures { IsTrue result ↔ Covers (starts runs.now at) index }
{
    match last_from(runs, at, index) {
        Some((_, last)) => index <= last,
        None => false,
    }
}

// Whether a run of the page has an index from the one to the other.
pub(crate) fn has_between(runs: &BTreeMap<Key, u32>, at: (u32, u64), from: u32, to: u32) -> bool
    requires runs { AreRuns (starts runs.now at) }
    requires order { from ≤ to }
    ensures { IsTrue result ↔ CoversAny (starts runs.now at) from to }
{
    match last_from(runs, at, to) {
        Some((_, last)) => from <= last,
        None => false,
    }
}

// The first index of the run that the index, which no run has, is the end of, once it is there.
pub(crate) fn first_with(runs: &BTreeMap<Key, u32>, at: (u32, u64), index: u32) -> u32
    requires runs { AreRuns (starts runs.now at) }
    requires new { Covers (starts runs.now at) index → ⊥ }
    ensures { BeginsAt (starts runs.now at) index result }
{
    let Some((first, last)) = last_from(runs, at, index) else {
        return index;
    };
    if last + 1 == index { first } else { index }
}

// The last index of the run that the index is the beginning of, once it is there.
pub(crate) fn last_with(runs: &BTreeMap<Key, u32>, at: (u32, u64), index: u32) -> u32
    requires { AreRuns (starts runs.now at) }
    ensures ends { EndsAt (starts runs.now at) index result }
    ensures fits { result < 2 ^ 32 }
{
    let Some(next) = index.checked_add(1) else {
        return index;
    };
    match runs.get(&(at, next)) {
        Some(last) => *last,
        None => index,
    }
}

// Puts one run in place of those that a run up to the index joins. Fails only where there is no memory for it, and then
// nothing has changed.
pub(crate) fn join(
    runs: &mut BTreeMap<Key, u32>,
    at: (u32, u64),
    first: u32,
    index: u32,
    last: u32,
) -> Result<(), AllocError>
    requires runs { AreRuns (starts runs.old at) }
    requires order { first ≤ index }
    ensures ok { OnOk result ((other : At) (k : ℕ) → starts runs.new other k
        ≡ (if same_at at other then joined (starts runs.old at) first index last k else starts runs.old other k)) }
    ensures err { OnErr result (runs.new.entries ≡ runs.old.entries) }
    ensures ordered { OnOk result (IsOrdered key_cmp runs.new) }
{
    runs.insert((at, first), last)?;
    if let Some(next) = index.checked_add(1) {
        runs.remove(&(at, next));
    }
    Ok(())
}

// Takes all runs of the page out.
pub(crate) fn take_page(runs: &mut BTreeMap<Key, u32>, at: (u32, u64))
    requires { AreRuns (starts runs.old at) }
    ensures taken { (other : At) (k : ℕ) → starts runs.new other k
        ≡ (if same_at at other then None else starts runs.old other k) }
    ensures ordered { IsOrdered key_cmp runs.new }
{
    while let Some((first, _)) = last_from(runs, at, u32::MAX) {
        runs.remove(&(at, first));
    }
}

// Takes all runs of the queue out.
pub(crate) fn drop_runs(runs: &mut BTreeMap<Key, u32>, queue: u32)
    ensures left { runs.new.entries ≡ filter (λ run. not (run.0.0.0 == queue)) runs.old.entries }
    ensures ordered { IsOrdered key_cmp runs.new }
{
    runs.retain(|key, _| key.0.0 != queue);
}

// Takes all pages of the queue out.
pub(crate) fn drop_pages(pages: &mut BTreeSet<(u32, u64)>, queue: u32)
    ensures left { pages.new.keys ≡ filter (λ at. not (at.0 == queue)) pages.old.keys }
    ensures ordered { sorted.IsOrdered at_cmp pages.new }
{
    pages.retain(|at| at.0 != queue);
}

// The runs as rows, in their order. Fails only where there is no memory for them.
pub(crate) fn rows_of(runs: &BTreeMap<Key, u32>, alloc: Global) -> Result<Vec<AckRow>, AllocError>
    ensures { IfOk result (λ rows. rows.items ≡ map row_of runs.now.entries) }
{
    let mut rows = Vec::new(alloc);
    for (key, last) in runs {
        rows.push(AckRow {
            queue: key.0.0,
            page: key.0.1,
            from: key.1,
            to: *last,
        })?;
    }
    Ok(rows)
}

// The pages, in their order. Fails only where there is no memory for them.
pub(crate) fn pages_of(
    pages: &BTreeSet<(u32, u64)>,
    alloc: Global,
) -> Result<Vec<(u32, u64)>, AllocError>
    ensures { IfOk result (λ all. all.items ≡ pages.now.keys) }
{
    pages.iter().copied().collect(alloc)
}
