// Which addresses have pages.
ghost use Rattle.std.specs.Prelude.{◌≡◌, map, IfOk};
ghost use Rattle.pg_recover.specs.Viewing.{is_page_kind, is_page_of, is_paged};

use pg_disk::{FileId, Kind};
use pg_fold::AddressRow;
use std::alloc::{AllocError, Global};

// Whether it is the kind of pages.
fn is_page_kind(kind: Kind) -> bool
    ensures { result ≡ is_page_kind kind }
{
    match kind {
        Kind::Page => true,
        Kind::Journal | Kind::Large => false,
    }
}

// Whether the file is a page of the address, from its first one on.
fn is_page_of(row: &AddressRow, file: FileId) -> bool
    ensures { result ≡ is_page_of row.now file }
{
    is_page_kind(file.kind) && file.owner == row.id && row.first <= file.number
}

// Whether one of the files is.
fn is_paged(files: &[FileId], row: &AddressRow) -> bool
    ensures { result ≡ is_paged files.now row.now }
{
    files.iter().any(|file| is_page_of(row, *file))
}

// Of each address whether it has a page, in the order of their ids.
pub(crate) fn paged_addresses(
    alloc: Global,
    files: &[FileId],
    addresses: &[AddressRow],
) -> Result<Vec<bool>, AllocError>
    ensures { IfOk result (λ paged. paged.items ≡ map (is_paged files.now) addresses.now) }
{
    let mut paged = Vec::new(alloc);
    for row in addresses {
        paged.push(is_paged(files, row))?;
    }
    Ok(paged)
}
