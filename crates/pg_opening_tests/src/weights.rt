// What the messages of each address weigh.
ghost use Rattle.std.specs.Prelude.{◌≡◌, ◌<◌, ◌≤◌, ◌^◌, IfOk};
ghost use Rattle.pg_msg.specs.Messages.{HasFields};

use pg_bytes::Octets;
use pg_fold::{Holders, JournaledRow, JournaledRows};
use pg_msg::{Body, Message, MessageId, Properties, QueueIds};
use pg_recover::weights_by_address;
use std::alloc::{AllocError, Global};
use std::test::Fail;

// A message of so many bytes, for one queue of the address.
fn row(alloc: Global, number: u32, address: u32, size: usize) -> Result<JournaledRow, AllocError>
    requires { (1 ≤ number) × (size < 2 ^ 32) }
    ensures fields { IfOk result (λ row. HasFields row.message) }
    ensures numbered { IfOk result (λ row. row.message.id ≡ record { epoch = 1; number = number }) }
{
    Ok(JournaledRow {
        address,
        message: Message {
            id: MessageId { epoch: 1, number },
            dup: None,
            properties: Properties::new(alloc),
            body: Body::Plain(Octets::from_vec(vec![in alloc; 7; size]?)),
        },
        holders: Holders::from_ids(QueueIds::from_vec(vec![in alloc; 1]?)),
    })
}

// Whether each address has its own messages' weight. Each message has 15 bytes beside its body, and the third address has none.
fn weighs(alloc: Global) -> Result<bool, AllocError> {
    let mut rows = JournaledRows::new(alloc);
    rows.push(alloc, row(alloc, 1, 2, 3)?)?;
    rows.push(alloc, row(alloc, 2, 1, 0)?)?;
    rows.push(alloc, row(alloc, 3, 2, 12)?)?;
    let sums = weights_by_address(alloc, 3, &rows)?;
    Ok(sums.as_slice() == [15, 45, 0].as_slice())
}

#[test]
fn weighs_by_address(rt: HostRuntime) -> Result<(), Fail> {
    assert!(rt; weighs(rt.alloc())?);
    Ok(())
}
