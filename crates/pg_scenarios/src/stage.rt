// What the scenarios share: the program over a site in memory. Nothing is said here of what it does, so that no test
// carries what is proved of it.
use pg_disk::{FileId, Kind, MemSite, MemSource, Site, Source};
use pg_run::{Limits, pagebroker, serve};
use std::alloc::{AllocError, Global};

/// The journal.
pub const JOURNAL: FileId = FileId {
    kind: Kind::Journal,
    owner: 0,
    number: 1,
};

/// The script of `examples/first.script`.
pub const EXAMPLE: &[u8] =
    b"address A max 50 page 100 ahead 0 dup 0\nqueue Q on A\nsend A body aaaaa\nsend A body aaaaa\nsend A body aaaaa\nsend A body aaaaa\ncount Q\nreceive C\n";

/// The words of the command `run`.
const WORDS: &[&str] = &["pagebroker", "run", "dir"];

/// The program over these words, the source and the site.
pub fn run_words<S: Site, R: Source>(
    alloc: Global,
    words: &[&str],
    source: &mut R,
    site: &mut S,
) -> Result<u8, AllocError> {
    let mut owned = Vec::new(alloc);
    for word in words {
        owned.push(String::from_str(alloc, word)?)?;
    }
    Ok(pagebroker(alloc, &owned, source, site))
}

/// The command `run` over the source and the site.
pub fn run_over<S: Site, R: Source>(
    alloc: Global,
    source: &mut R,
    site: &mut S,
) -> Result<u8, AllocError> {
    run_words(alloc, WORDS, source, site)
}

/// The command `run` over the site and the script.
pub fn run(alloc: Global, site: &mut MemSite, script: &[u8]) -> Result<u8, AllocError> {
    let mut source = MemSource::new(alloc, script)?;
    run_over(alloc, &mut source, site)
}

/// The same within these limits.
pub fn run_within(
    alloc: Global,
    limits: &Limits,
    site: &mut MemSite,
    script: &[u8],
) -> Result<u8, AllocError> {
    let mut source = MemSource::new(alloc, script)?;
    Ok(serve(alloc, &mut source, site, limits))
}

/// Whether a run over the site answers the script with these replies, and ends with 0.
pub fn answers(
    alloc: Global,
    site: &mut MemSite,
    script: &[u8],
    replies: &[u8],
) -> Result<bool, AllocError> {
    let told = site.told().len();
    let status = run(alloc, site, script)?;
    Ok(status == 0 && site.short() == 0 && site.told().get(told..) == Some(replies))
}

/// The same of a broker that was never opened before.
pub fn answers_first(alloc: Global, script: &[u8], replies: &[u8]) -> Result<bool, AllocError> {
    let mut site = MemSite::new(alloc);
    answers(alloc, &mut site, script, replies)
}

/// How many bytes the journal has.
pub fn journal_length(site: &MemSite) -> usize {
    match site.bytes(JOURNAL) {
        Some(bytes) => bytes.len(),
        None => 0,
    }
}
