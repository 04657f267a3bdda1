// Whether the filter of a new queue is readable.
ghost use Rattle.std.specs.Prelude.{IfErr, OnOk};
ghost use Rattle.pg_parse.specs.FilterTexts.{IsReadable};
ghost use Rattle.pg_fold.specs.Fold.{IsReadableEntry, IsUnreadable};

use crate::fold_error::FoldError;
use pg_bytes::Text;
use pg_disk::Rule;
use pg_parse::{FilterError, filter_of};
use pg_records::Entry;
use std::alloc::Global;

// Reads the text of a filter. What it is read as isn't kept: whoever routes by it reads it again.
fn check_filter(alloc: Global, filter: &Text) -> Result<(), FoldError>
    ensures readable { OnOk result (IsReadable filter.now) }
    ensures unreadable { IfErr result (IsUnreadable (IsReadable filter.now)) }
{
    match filter_of(alloc, filter.as_str()) {
        Ok(_filter) => Ok(()),
        Err(FilterError::BadFilter { .. }) => Err(FoldError::Broken(Rule::Name)),
        Err(FilterError::Memory) => Err(FoldError::Memory),
    }
}

// The same of the entry of a queue. No other entry has a filter.
pub(crate) fn check_readable(alloc: Global, entry: &Entry) -> Result<(), FoldError>
    ensures readable { OnOk result (IsReadableEntry entry.now) }
    ensures unreadable { IfErr result (IsUnreadable (IsReadableEntry entry.now)) }
{
    match entry {
        Entry::Queue { filter, .. } => check_filter(alloc, filter),
        Entry::Epoch { .. }
        | Entry::Address { .. }
        | Entry::DropQueue { .. }
        | Entry::Add { .. }
        | Entry::Ack { .. }
        | Entry::NextQueue { .. }
        | Entry::AckAt { .. }
        | Entry::PageDone { .. }
        | Entry::PageTx { .. }
        | Entry::Dup { .. }
        | Entry::LargeAdd { .. }
        | Entry::LargeAck { .. }
        | Entry::FirstPage { .. }
        | Entry::AckRun { .. } => Ok(()),
    }
}
