// Which of a list of queues a message goes to.
ghost use Rattle.std.specs.Prelude.{◌≡◌, IfOk, filter};
ghost use Rattle.pg_routes.specs.Kept.{takes};

use crate::routes::QueueEntry;
use pg_eval::matches;
use pg_msg::Property;
use std::alloc::{AllocError, Global};
use std::collections::BTreeMap;

// The ids, among these, of the queues that a message with these properties goes to, in their order.
pub(crate) fn takers(
    alloc: Global,
    queues: &BTreeMap<u32, QueueEntry>,
    ids: &[u32],
    properties: &[Property],
) -> Result<Vec<u32>, AllocError>
    ensures { IfOk result (λ takers. takers.items ≡ filter (takes queues.now properties.now) ids.now) }
{
    let mut takers = Vec::new(alloc);
    for id in ids {
        if is_taker(queues, *id, properties) {
            takers.push(*id)?;
        }
    }
    Ok(takers)
}

// Whether a message with these properties goes to the queue with that id.
fn is_taker(queues: &BTreeMap<u32, QueueEntry>, id: u32, properties: &[Property]) -> bool
    ensures { result ≡ takes queues.now properties.now id }
{
    match queues.get(&id) {
        Some(queue) => matches(queue.filter.as_ref(), properties),
        None => false,
    }
}
