// An entry takes effect in the folded state, and is spelled for the journal.
ghost use Rattle.std.specs.Prelude.{◌≡◌, ◌∷◌, [], None, IfOk, IfErr};
ghost use Rattle.pg_records.specs.Entries.{HasFields, batch_bytes};
ghost use Rattle.pg_fold.specs.Fold.{rule_of, changed};

use pg_bytes::Octets;
use pg_disk::Fault;
use pg_fold::Durable;
use pg_records::{Entry, encode_batch};
use std::alloc::Global;

// The batch of the entry, and the state behind it. Its condition holds.
pub(crate) fn record_entry(
    alloc: Global,
    durable: Durable,
    entry: Entry,
) -> Result<(Durable, Octets), Fault>
    requires condition { rule_of durable entry ≡ None }
    requires fields { HasFields entry }
    ensures changed { IfOk result (λ recorded. recorded.0 ≡ changed durable entry) }
    ensures batch { IfOk result (λ recorded. recorded.1 ≡ batch_bytes (entry ∷ [])) }
    ensures none { IfErr result (λ fault. fault ≡ Fault.Memory) }
{
    let batch = encode_batch(alloc, std::slice::from_ref(&entry))?;
    let durable = durable.change(alloc, entry)?;
    Ok((durable, batch))
}
