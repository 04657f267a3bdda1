// The ids of queues, and the last pages of a transaction.
ghost use Rattle.std.specs.Prelude.{◌≡◌, ◌<◌, ◌^◌, ◌++◌, length, map, OnOk};
ghost use Rattle.std.specs.Int.{to_be_bytes, w32, w64};
ghost use Rattle.pg_msg.specs.Lists.{ids_bytes, queues_bytes, rows_bytes, pages_bytes};
ghost use Rattle.pg_msg.specs.Reading.{Gives, ascends, row_at, ids_at, queues_at, rows_at, pages_at};

use crate::fields::Unread;
use crate::fields::numbers::{read_u16, read_u32, read_u64};
use crate::limits::MOST_QUEUES;
use crate::pages::Pages;
use crate::queue_ids::QueueIds;
use pg_bytes::{Octets, put_u16, put_u32, put_u64};
use std::alloc::{AllocError, Global};

/// From 1 to `MOST_QUEUES` ids of queues, ascending, behind their count in 2 bytes.
#[tactic(auto, unfolding(crate::specs::Reading::queues_at))]
pub fn read_queue_ids(alloc: Global, bytes: &[u8]) -> Result<(QueueIds, &[u8]), Unread>
    ensures { Gives (λ read. (read.0, read.1.now)) result (queues_at bytes.now) }
{
    let (count, rest) = read_u16(bytes)?;
    if count < 1 || MOST_QUEUES < usize::from(count) {
        return Err(Unread::Malformed);
    }
    let (ids, rest) = read_ids(alloc, count, rest)?;
    if !ids_ascend(ids.as_slice()) {
        return Err(Unread::Malformed);
    }
    Ok((ids, rest))
}

/// At least one address, ascending, each with its last page, behind their count in 2 bytes.
#[tactic(auto, unfolding(crate::specs::Reading::pages_at, crate::specs::Reading::positive_at))]
pub fn read_pages(alloc: Global, bytes: &[u8]) -> Result<(Pages, &[u8]), Unread>
    ensures { Gives (λ read. (read.0, read.1.now)) result (pages_at bytes.now) }
{
    let (count, rest) = read_u16(bytes)?;
    if count == 0 {
        return Err(Unread::Malformed);
    }
    let (rows, rest) = read_rows(alloc, count, rest)?;
    if !addresses_ascend(rows.as_slice()) {
        return Err(Unread::Malformed);
    }
    Ok((rows, rest))
}

/// Appends the count of the queues in 2 bytes, and their ids.
pub fn put_queue_ids(out: &mut Octets, queues: &QueueIds) -> Result<(), AllocError>
    requires { length queues.now < 2 ^ 16 }
    ensures { OnOk result (out.new ≡ out.old ++ queues_bytes queues.now) }
{
    let ids = queues.as_slice();
    put_u16(out, ids.len() as u16)?;
    put_ids(out, ids)
}

/// Appends the count of the addresses in 2 bytes, and each with its last page.
pub fn put_pages(out: &mut Octets, pages: &Pages) -> Result<(), AllocError>
    requires { length pages.now < 2 ^ 16 }
    ensures { OnOk result (out.new ≡ out.old ++ pages_bytes pages.now) }
{
    let rows = pages.as_slice();
    put_u16(out, rows.len() as u16)?;
    put_rows(out, rows)
}

fn read_ids(alloc: Global, count: u16, bytes: &[u8]) -> Result<(QueueIds, &[u8]), Unread>
    ensures { Gives (λ read. (read.0, read.1.now)) result (ids_at count bytes.now) }
{
    let mut ids = QueueIds::new(alloc);
    let mut rest = bytes;
    for _ in 0..count {
        let (id, behind) = read_u32(rest)?;
        ids.push(id)?;
        rest = behind;
    }
    Ok((ids, rest))
}

fn read_rows(alloc: Global, count: u16, bytes: &[u8]) -> Result<(Pages, &[u8]), Unread>
    ensures { Gives (λ read. (read.0, read.1.now)) result (rows_at count bytes.now) }
{
    let mut rows = Pages::new(alloc);
    let mut rest = bytes;
    for _ in 0..count {
        let (row, behind) = read_row(rest)?;
        rows.push(row.0, row.1)?;
        rest = behind;
    }
    Ok((rows, rest))
}

// An address and its last page.
#[tactic(auto, unfolding(crate::specs::Reading::row_at))]
fn read_row(bytes: &[u8]) -> Result<((u32, u64), &[u8]), Unread>
    ensures { Gives (λ read. (read.0, read.1.now)) result (row_at bytes.now) }
{
    let (address, rest) = read_u32(bytes)?;
    let (page, rest) = read_u64(rest)?;
    Ok(((address, page), rest))
}

fn ids_ascend(ids: &[u32]) -> bool
    ensures { result ≡ ascends ids.now }
{
    ids.is_sorted_by(|a, b| a < b)
}

fn addresses_ascend(rows: &[(u32, u64)]) -> bool
    ensures { result ≡ ascends (map (λ row. row.0) rows.now) }
{
    rows.is_sorted_by(|a, b| a.0 < b.0)
}

fn put_ids(out: &mut Octets, ids: &[u32]) -> Result<(), AllocError>
    ensures { OnOk result (out.new ≡ out.old ++ ids_bytes ids.now) }
{
    for id in ids {
        put_u32(out, *id)?;
    }
    Ok(())
}

fn put_rows(out: &mut Octets, rows: &[(u32, u64)]) -> Result<(), AllocError>
    ensures { OnOk result (out.new ≡ out.old ++ rows_bytes rows.now) }
{
    for row in rows {
        put_row(out, row.0, row.1)?;
    }
    Ok(())
}

fn put_row(out: &mut Octets, address: u32, last: u64) -> Result<(), AllocError>
    ensures { OnOk result (out.new ≡ out.old ++ (to_be_bytes w32 address ++ to_be_bytes w64 last)) }
{
    put_u32(out, address)?;
    put_u64(out, last)
}
