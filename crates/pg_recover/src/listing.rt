// The rules on the names, numbers and gaps of files.
ghost use Rattle.std.specs.Prelude.{◌≡◌, ◌↔◌, All, MatchOption, IsTrue, Some, None, true, false};
ghost use Rattle.pg_fold.specs.Rows.{AreNumbered, has_address};
ghost use Rattle.pg_recover.specs.Listing.{AreListed, HasUnlisted, IsListed, IsUnlisted};
ghost use Rattle.pg_recover.specs.WellFormed.{IsFileNumber, page_file};

use pg_disk::{Damage, FileId, Kind, Rule};
use pg_fold::AddressRow;

// The greatest number of a file of the journal, and of a page.
const LAST_NUMBER: u64 = 1 << 62;

// Whether a file may have this number.
fn is_number(number: u64) -> bool
    ensures { IsTrue result ↔ IsFileNumber number }
{
    1 <= number && number <= LAST_NUMBER
}

// The first page of the address with this id.
fn first_page(addresses: &[AddressRow], id: u32) -> Option<u64>
    requires { AreNumbered addresses.now }
    ensures { MatchOption result (has_address addresses.now id ≡ false) (λ first.
        (has_address addresses.now id ≡ true) × All (λ row. row.id ≡ id → row.first ≡ first) addresses.now) }
{
    let place = (id as usize).checked_sub(1)?;
    let row = addresses.get(place)?;
    Some(row.first)
}

// Whether this is the page of that number.
fn is_page(file: Option<FileId>, owner: u32, number: u64) -> bool
    ensures { IsTrue result ↔ (file ≡ Some (page_file owner number)) }
{
    let page = FileId {
        kind: Kind::Page,
        owner,
        number,
    };
    file == Some(page)
}

// The rule that a page breaks, where this file stands before it in the listing.
fn broken_page_rule(file: FileId, before: Option<FileId>, addresses: &[AddressRow]) -> Option<Rule>
    requires numbered { AreNumbered addresses.now }
    requires page { file.kind ≡ Kind.Page }
    ensures { MatchOption result (IsListed addresses.now before file) (IsUnlisted addresses.now before file) }
{
    let first = match first_page(addresses, file.owner) {
        Some(first) if is_number(file.number) => first,
        _ => return Some(Rule::Name),
    };
    if file.number <= first {
        return None;
    }
    if is_page(before, file.owner, file.number - 1) {
        None
    } else {
        Some(Rule::Gap)
    }
}

// The rule that a file breaks, where this one stands before it in the listing.
fn broken_file_rule(file: FileId, before: Option<FileId>, addresses: &[AddressRow]) -> Option<Rule>
    requires { AreNumbered addresses.now }
    ensures { MatchOption result (IsListed addresses.now before file) (IsUnlisted addresses.now before file) }
{
    match file.kind {
        Kind::Journal if file.owner == 0 && is_number(file.number) => None,
        Kind::Journal => Some(Rule::Name),
        Kind::Page => broken_page_rule(file, before, addresses),
        Kind::Large => None,
    }
}

// The first damage that the listing shows.
pub(crate) fn listing_damage(files: &[FileId], addresses: &[AddressRow]) -> Option<Damage>
    requires { AreNumbered addresses.now }
    ensures { MatchOption result (AreListed addresses.now None files.now) (HasUnlisted addresses.now None files.now) }
{
    let mut before = None;
    for file in files {
        if let Some(rule) = broken_file_rule(*file, before, addresses) {
            return Some(Damage {
                file: *file,
                at: 0,
                rule,
            });
        }
        before = Some(*file);
    }
    None
}
