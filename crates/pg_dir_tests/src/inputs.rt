use pg_dir::InSource;
use pg_disk::{Failed, Source};
use std::io::{self, ErrorKind, Read};
use std::test::Fail;

// Interrupted, then two bytes, then broken.
#[derive(Drop)]
struct Failing {
    reads: u8,
}

impl Read for Failing {
    fn read(&mut self, buf: &mut [u8]) -> io::Result<usize> {
        self.reads = self.reads.saturating_add(1);
        match self.reads {
            1 => Err(io::Error::from(ErrorKind::Interrupted)),
            2 => b"xy".as_slice().read(buf),
            _ => Err(io::Error::from(ErrorKind::Other)),
        }
    }
}

// Whether the next read into these four bytes is answered so, and leaves these.
fn reads<R: Read + Drop>(
    source: &mut InSource<R>,
    buf: &mut [u8; 4],
    answer: Result<usize, Failed>,
    left: &[u8; 4],
) -> bool {
    source.read(buf) == answer && &*buf == left
}

fn reads_all<R: Read + Drop>(source: &mut InSource<R>) -> bool {
    let mut buf = [b'.'; 4];
    reads(source, &mut buf, Ok(4), b"hell")
        && reads(source, &mut buf, Ok(1), b"oell")
        && reads(source, &mut buf, Ok(0), b"oell")
        && source.faults() == 0
}

#[test]
fn reads_to_the_end(rt: HostRuntime) -> Result<(), Fail> {
    let mut source = InSource::new(rt.alloc(), b"hello".as_slice())?;
    assert!(rt; reads_all(&mut source));
    Ok(())
}

fn counts<R: Read + Drop>(source: &mut InSource<R>) -> bool {
    let mut buf = [b'.'; 4];
    reads(source, &mut buf, Ok(2), b"xy..")
        && source.read(&mut buf) == Err(Failed)
        && source.faults() == 1
        && source.read(&mut buf) == Err(Failed)
        && source.faults() == 2
}

#[test]
fn counts_failures(rt: HostRuntime) -> Result<(), Fail> {
    let mut source = InSource::new(rt.alloc(), Failing { reads: 0 })?;
    assert!(rt; counts(&mut source));
    Ok(())
}
