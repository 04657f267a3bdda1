use pg_dir::DirSite;
use pg_disk::{Disk, Failed, FileId, Kind, ListError, Site};
use std::io::{self, ErrorKind, Write};
use std::test::Fail;
use std::{env, fs, process};

// Takes so many bytes, two at a time, and then fails.
#[derive(Drop)]
struct Failing {
    room: usize,
}

impl Write for Failing {
    fn write(&mut self, buf: &[u8]) -> io::Result<usize> {
        let count = buf.len().min(2).min(self.room);
        if count == 0 {
            return Err(io::Error::from(ErrorKind::BrokenPipe));
        }
        self.room -= count;
        Ok(count)
    }

    fn flush(&mut self) -> io::Result<()> {
        Ok(())
    }
}

type Tried = DirSite<HostRuntime, Failing>;

// The path of a directory that isn't there.
fn unused_path(rt: &HostRuntime, name: &str) -> Result<String, Fail> {
    let parent = env::temp_dir(rt)?;
    let parent = parent.as_str();
    let process = process::id(rt.process());
    let path = format!(in rt.alloc(); "{parent}/pagebroker-{process}-{name}")?;
    let _ = fs::remove_dir_all(rt, path.as_str());
    Ok(path)
}

fn journal(number: u64) -> FileId {
    FileId {
        kind: Kind::Journal,
        owner: 0,
        number,
    }
}

fn keeps(site: &mut Tried) -> bool {
    let mut buf = [b'.'; 8];
    site.create(journal(1)) == Ok(())
        && site.write(journal(1), 0, b"abcdef") == Ok(())
        && site.write(journal(1), 2, b"XY") == Ok(())
        && site.sync(journal(1)) == Ok(())
        && site.length(journal(1)) == Ok(6)
        && site.read(journal(1), 1, &mut buf) == Ok(5)
        && &buf == b"bXYef..."
        && site.disk_faults() == 0
}

fn counts_disk_faults(site: &mut Tried) -> bool {
    site.create(journal(1)) == Err(Failed)
        && site.sync(journal(2)) == Err(Failed)
        && site.disk_faults() == 2
        && site.remove(journal(1)) == Ok(())
        && site.length(journal(1)) == Err(Failed)
        && site.disk_faults() == 3
}

fn counts_output_faults(site: &mut Tried) -> bool {
    site.emit(b"abcde") == Ok(()) && site.emit(b"f") == Err(Failed) && site.output_faults() == 1
}

#[test]
fn keeps_a_file(rt: HostRuntime) -> Result<(), Fail> {
    let path = unused_path(&rt, "file")?;
    fs::create_dir(&rt, path.as_str())?;
    let mut site = DirSite::new(rt, path.clone()?, Failing { room: 5 });
    let well = keeps(&mut site) && counts_disk_faults(&mut site) && counts_output_faults(&mut site);
    fs::remove_dir_all(&rt, path.as_str())?;
    assert!(rt; well);
    Ok(())
}

const NAMES: [&str; 7] = [
    "l-2-1.msg",
    "j-10",
    "notes.txt",
    "p-1-2.page",
    "j-01",
    "j-9",
    "p-0-1.page",
];

const LISTED: [FileId; 4] = [
    FileId {
        kind: Kind::Journal,
        owner: 0,
        number: 9,
    },
    FileId {
        kind: Kind::Journal,
        owner: 0,
        number: 10,
    },
    FileId {
        kind: Kind::Page,
        owner: 1,
        number: 2,
    },
    FileId {
        kind: Kind::Large,
        owner: 2,
        number: 1,
    },
];

// Makes the directory with these files, and with a folder that has the name of a journal file.
fn fill(rt: &HostRuntime, path: &str) -> Result<(), Fail> {
    fs::create_dir(rt, path)?;
    for name in NAMES {
        fs::write(rt, format!(in rt.alloc(); "{path}/{name}")?, name)?;
    }
    fs::create_dir(rt, format!(in rt.alloc(); "{path}/j-1")?)?;
    Ok(())
}

fn lists_none(site: &mut Tried, rt: &HostRuntime) -> bool {
    site.list(rt.alloc()).err() == Some(ListError::Failed) && site.disk_faults() == 1
}

fn lists(site: &mut Tried, rt: &HostRuntime) -> bool {
    match site.list(rt.alloc()) {
        Ok(ids) => ids.as_slice() == LISTED.as_slice(),
        Err(_) => false,
    }
}

#[test]
fn lists_the_files_in_order(rt: HostRuntime) -> Result<(), Fail> {
    let path = unused_path(&rt, "list")?;
    let mut site = DirSite::new(rt, path.clone()?, Failing { room: 0 });
    let none = lists_none(&mut site, &rt);
    fill(&rt, path.as_str())?;
    let all = lists(&mut site, &rt);
    fs::remove_dir_all(&rt, path.as_str())?;
    assert!(rt; none && all);
    Ok(())
}

// The first of forty files that isn't made, written, synced and read back, more than are kept open at a time.
fn wrong_file(site: &mut Tried) -> Option<u64> {
    for number in 1..41 {
        if site.create(journal(number)) != Ok(())
            || site.write(journal(number), 0, &[number as u8]) != Ok(())
        {
            return Some(number);
        }
    }
    for number in 1..41 {
        let mut buf = [0];
        if site.sync(journal(number)) != Ok(())
            || site.read(journal(number), 0, &mut buf) != Ok(1)
            || u64::from(buf[0]) != number
        {
            return Some(number);
        }
    }
    None
}

#[test]
fn reopens_files(rt: HostRuntime) -> Result<(), Fail> {
    let path = unused_path(&rt, "many")?;
    fs::create_dir(&rt, path.as_str())?;
    let mut site = DirSite::new(rt, path.clone()?, Failing { room: 0 });
    let wrong = wrong_file(&mut site);
    fs::remove_dir_all(&rt, path.as_str())?;
    assert!(rt; wrong == None);
    Ok(())
}

// Page 1 of this address.
fn page(address: u32) -> FileId {
    FileId {
        kind: Kind::Page,
        owner: address,
        number: 1,
    }
}

// Whether the page of this address has the address in it.
fn has_address(site: &mut Tried, address: u32) -> bool {
    let mut buf = [0; 4];
    site.read(page(address), 0, &mut buf) == Ok(4) && u32::from_be_bytes(buf) == address
}

// The first of 600 addresses whose page isn't made and written. More files are made than are kept open at a time.
fn wrong_making(site: &mut Tried) -> Option<u32> {
    for address in 1..601 {
        if site.create(page(address)) != Ok(())
            || site.write(page(address), 0, &u32::to_be_bytes(address)) != Ok(())
        {
            return Some(address);
        }
    }
    None
}

// The first one whose page isn't read back and written again, where by turns the page of address 1 is read.
fn wrong_turn(site: &mut Tried) -> Option<u32> {
    for address in 1..601 {
        if !has_address(site, address)
            || !has_address(site, 1)
            || site.write(page(address), 0, &u32::to_be_bytes(address)) != Ok(())
        {
            return Some(address);
        }
    }
    None
}

fn wrong_page(site: &mut Tried) -> Option<u32> {
    if let Some(address) = wrong_making(site) {
        return Some(address);
    }
    if let Some(address) = wrong_turn(site) {
        return Some(address);
    }
    wrong_turn(site)
}

// How many files this process has open, where the system tells it as Linux does, and else none.
fn count_open(rt: &HostRuntime) -> usize {
    let mut count: usize = 0;
    if let Ok(entries) = fs::read_dir(rt, "/proc/self/fd") {
        for _ in entries {
            count = count.saturating_add(1);
        }
    }
    count
}

#[test]
fn keeps_few_of_many_pages_open(rt: HostRuntime) -> Result<(), Fail> {
    let path = unused_path(&rt, "pages")?;
    fs::create_dir(&rt, path.as_str())?;
    let before = count_open(&rt);
    let mut site = DirSite::new(rt, path.clone()?, Failing { room: 0 });
    let wrong = wrong_page(&mut site);
    let open = count_open(&rt).saturating_sub(before);
    fs::remove_dir_all(&rt, path.as_str())?;
    assert!(rt; wrong == None && open <= 513);
    Ok(())
}

// A folder serves one site at a time: another one fails at its first call, and changes nothing. A site that is let go
// leaves the folder to the next one.
fn serves_one(rt: HostRuntime, path: &str) -> Result<bool, Fail> {
    let mut first = DirSite::new(rt, String::from_str(rt.alloc(), path)?, Failing { room: 0 });
    let made = first.create(journal(1)) == Ok(());
    let mut second = DirSite::new(rt, String::from_str(rt.alloc(), path)?, Failing { room: 0 });
    let refused = second.list(rt.alloc()).err() == Some(ListError::Failed)
        && second.create(journal(2)) == Err(Failed)
        && second.remove(journal(1)) == Err(Failed)
        && second.write(journal(1), 0, b"x") == Err(Failed)
        && second.disk_faults() == 4;
    Ok(made && refused && first.length(journal(1)) == Ok(0))
}

fn serves_again(rt: HostRuntime, path: &str) -> Result<bool, Fail> {
    let mut third = DirSite::new(rt, String::from_str(rt.alloc(), path)?, Failing { room: 0 });
    Ok(third.remove(journal(1)) == Ok(()))
}

#[test]
fn one_site_at_a_time(rt: HostRuntime) -> Result<(), Fail> {
    let path = unused_path(&rt, "locked")?;
    fs::create_dir(&rt, path.as_str())?;
    let well = serves_one(rt, path.as_str())? && serves_again(rt, path.as_str())?;
    fs::remove_dir_all(&rt, path.as_str())?;
    assert!(rt; well);
    Ok(())
}
