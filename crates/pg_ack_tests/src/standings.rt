use pg_msg::MessageId;
use pg_pagetx::{PageTxs, Standing};
use std::alloc::Global;
use std::test::Fail;

// Ids at their ends, and one between.
const IDS: [(u32, u32); 4] = [
    (1, 1),
    (1, 4_294_967_295),
    (7, 3),
    (4_294_967_295, 4_294_967_295),
];

// The place of the first id that isn't void.
fn first_that_counts(alloc: Global) -> Option<usize> {
    let txs = PageTxs::new(alloc);
    for (place, (epoch, number)) in IDS.as_slice().iter().enumerate() {
        let tx = MessageId {
            epoch: *epoch,
            number: *number,
        };
        if txs.standing(tx) != Standing::Void {
            return Some(place);
        }
    }
    None
}

#[test]
fn holds_every_transaction_for_void(rt: HostRuntime) -> Result<(), Fail> {
    assert!(rt; first_that_counts(rt.alloc()).is_none());
    Ok(())
}
