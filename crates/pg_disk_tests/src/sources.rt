// A source in memory.
use pg_disk::{Failed, MemSource, Source};
use std::alloc::{AllocError, Global};
use std::test::Fail;

fn first<S: Source>(source: &mut S) -> Result<[u8; 4], Failed> {
    let mut buf = [0; 4];
    let _count = source.read(&mut buf)?;
    Ok(buf)
}

// What the reads give, of which the second fails.
const READS: [Result<[u8; 4], Failed>; 3] = [Ok(*b"hell"), Err(Failed), Ok(*b"o\0\0\0")];

// The first read that gives something else.
fn wrong_read(alloc: Global) -> Result<Option<usize>, AllocError> {
    let mut source = MemSource::new(alloc, b"hello")?;
    source.fail(&[2])?;
    for (place, want) in READS.iter().enumerate() {
        if first(&mut source) != *want {
            return Ok(Some(place));
        }
    }
    Ok(None)
}

#[test]
fn reads(rt: HostRuntime) -> Result<(), Fail> {
    assert!(rt; wrong_read(rt.alloc())? == None);
    Ok(())
}
