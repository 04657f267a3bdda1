// The names of the files in a directory.
ghost use Rattle.std.specs.Prelude.{◌≡◌, ◌≢◌, ◌≤◌, ◌<◌, ◌^◌, ◌++◌, IfOk, IfSome, IfNone, string_bytes, codes, decimal};
ghost use Rattle.pg_dir.specs.Names.{name_of, IsNamed, IsNoName, IsNoNumber, IsNoOwned};

use pg_disk::{FileId, Kind};
use std::alloc::{AllocError, Global};

const GREATEST_OWNER: u64 = 4_294_967_295;

const GREATEST_NUMBER: u64 = 1 << 62;

/// The file's name in its directory, as `docs/FORMATS.md` gives it. Fails only for want of memory.
pub fn file_name(alloc: Global, file: FileId) -> Result<String, AllocError>
    ensures { IfOk result (λ name. string_bytes name ≡ name_of file) }
{
    let FileId {
        kind,
        owner,
        number,
    } = file;
    match kind {
        Kind::Journal => format!(in alloc; "j-{number}"),
        Kind::Page => format!(in alloc; "p-{owner}-{number}.page"),
        Kind::Large => format!(in alloc; "l-{owner}-{number}.msg"),
    }
}

/// The file that the name is for. Each other name is none of the broker's.
pub fn file_id(name: &str) -> Option<FileId>
    ensures named { IfSome result IsNamed }
    ensures sound { IfSome result (λ file. name.now ≡ name_of file) }
    ensures none { IfNone result (IsNoName name.now) }
{
    let (letter, rest) = name.split_once('-')?;
    match letter {
        "j" => journal(rest),
        "p" => owned(Kind::Page, rest, "page"),
        "l" => owned(Kind::Large, rest, "msg"),
        _ => None,
    }
}

fn journal(number: &str) -> Option<FileId>
    ensures named { IfSome result IsNamed }
    ensures kind { IfSome result (λ file. file.kind ≡ Kind.Journal) }
    ensures sound { IfSome result (λ file. number.now ≡ decimal file.number) }
    ensures none { IfNone result (IsNoNumber (2 ^ 62) number.now) }
{
    Some(FileId {
        kind: Kind::Journal,
        owner: 0,
        number: positive_decimal(number, GREATEST_NUMBER)?,
    })
}

// The file of an owner, from `OWNER-NUMBER.ENDING`.
fn owned(kind: Kind, text: &str, ending: &str) -> Option<FileId>
    requires { kind ≢ Kind.Journal }
    ensures named { IfSome result IsNamed }
    ensures kind { IfSome result (λ file. file.kind ≡ kind) }
    ensures sound { IfSome result (λ file.
        text.now ≡ decimal file.owner ++ (codes "-" ++ (decimal file.number ++ (codes "." ++ ending.now)))) }
    ensures none { IfNone result (IsNoOwned ending.now text.now) }
{
    let (owner, rest) = text.split_once('-')?;
    let (number, found) = rest.split_once('.')?;
    if found != ending {
        return None;
    }
    Some(FileId {
        kind,
        owner: u32::try_from(positive_decimal(owner, GREATEST_OWNER)?).ok()?,
        number: positive_decimal(number, GREATEST_NUMBER)?,
    })
}

// The number from 1 to `greatest` that is spelled without a sign or leading zeros.
fn positive_decimal(digits: &str, greatest: u64) -> Option<u64>
    ensures from_one { IfSome result (λ number. 0 < number) }
    ensures most { IfSome result (λ number. number ≤ greatest) }
    ensures sound { IfSome result (λ number. digits.now ≡ decimal number) }
    ensures none { IfNone result (IsNoNumber greatest digits.now) }
{
    if digits.starts_with('0') || digits.starts_with('+') {
        return None;
    }
    let number = digits.parse::<u64>().ok()?;
    if number == 0 || number > greatest {
        return None;
    }
    Some(number)
}
