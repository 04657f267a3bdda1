// Devices whose counts of faults stand at the end of their type.
ghost use Rattle.std.specs.Prelude.{◌≡◌};
ghost use Rattle.pg_disk.specs.Counts.{CountsSource};

use pg_disk::{Disk, Failed, FileId, ListError, MemSite, MemSource, Site, Source};
use pg_scenarios::stage::run_over;
use std::alloc::{AllocError, Global};
use std::test::Fail;

/// A site in memory with counts of its own.
#[derive(Drop)]
struct CountedSite {
    site: MemSite,
    disk_faults: u64,
    output_faults: u64,
}

/// A source in memory with a count of its own.
#[derive(Drop)]
struct CountedSource {
    source: MemSource,
    faults: u64,
}

impl CountedSite {
    fn is_full(&self) -> bool {
        self.disk_faults == u64::MAX && self.output_faults == u64::MAX
    }
}

// The same outcome, and the count of the device that gave it.
fn counted<T>(faults: &mut u64, outcome: Result<T, Failed>) -> Result<T, Failed>
    ensures count { CountsSource faults.old faults.new result }
    ensures same { result ≡ outcome }
{
    if outcome.is_err() {
        *faults = faults.saturating_add(1);
    }
    outcome
}

impl Disk for CountedSite {
    ghost use Rattle.pg_disk.specs.MemSite.{tells_of, moment_of, left_since_of, events_of};
    ghost use Rattle.pg_disk.specs.ReplayLaws.{counts_now as counts, only_now as only};

    ghost tells = { λ counted. tells_of counted.site };

    ghost faults = { λ counted. record { disk = counted.disk_faults; output = counted.output_faults } };

    ghost moment = { λ counted. moment_of counted.site };

    ghost left_since = { λ counted. left_since_of counted.site };

    ghost counts_now = { λ m t c b le now. counts (events_of m.site) t c b now };

    ghost only_now = { λ m c b left. only (events_of m.site) c b left };

    fn list(&mut self, alloc: Global) -> Result<Vec<FileId>, ListError> {
        match self.site.list(alloc) {
            Ok(ids) => Ok(ids),
            Err(ListError::Memory) => Err(ListError::Memory),
            Err(ListError::Failed) => {
                self.disk_faults = self.disk_faults.saturating_add(1);
                Err(ListError::Failed)
            }
        }
    }

    fn length(&mut self, file: FileId) -> Result<u64, Failed> {
        let outcome = self.site.length(file);
        counted(&mut self.disk_faults, outcome)
    }

    fn read(&mut self, file: FileId, at: u64, buf: &mut [u8]) -> Result<usize, Failed> {
        let outcome = self.site.read(file, at, buf);
        counted(&mut self.disk_faults, outcome)
    }

    fn write(&mut self, file: FileId, at: u64, bytes: &[u8]) -> Result<(), Failed> {
        let outcome = self.site.write(file, at, bytes);
        counted(&mut self.disk_faults, outcome)
    }

    fn sync(&mut self, file: FileId) -> Result<(), Failed> {
        let outcome = self.site.sync(file);
        counted(&mut self.disk_faults, outcome)
    }

    fn create(&mut self, file: FileId) -> Result<(), Failed> {
        let outcome = self.site.create(file);
        counted(&mut self.disk_faults, outcome)
    }

    fn remove(&mut self, file: FileId) -> Result<(), Failed> {
        let outcome = self.site.remove(file);
        counted(&mut self.disk_faults, outcome)
    }
}

impl Site for CountedSite {
    fn emit(&mut self, bytes: &[u8]) -> Result<(), Failed> {
        let outcome = self.site.emit(bytes);
        counted(&mut self.output_faults, outcome)
    }
}

impl Source for CountedSource {
    ghost use Rattle.pg_disk.specs.MemSource.{rest_told};

    ghost rest = { λ counted. rest_told counted.source };

    ghost faults = { λ counted. counted.faults };

    fn read(&mut self, buf: &mut [u8]) -> Result<usize, Failed> {
        let outcome = self.source.read(buf);
        counted(&mut self.faults, outcome)
    }
}

/// Which call of the disk, which emit and which read is to fail (0 is none), the status that is wanted, what is to be told,
/// and how many calls of the disk are to be made.
type Case = (u64, u64, u64, u8, &'static [u8], u64);

const SCRIPT: &[u8] = b"address A max 50 page 100 ahead 0 dup 0\nqueue Q on A\ncount Q\n";

const CASES: [Case; 9] = [
    (0, 0, 0, 0, b"ok\nok\ncount 0\n", 17),
    (1, 0, 0, 3, b"", 1),
    (3, 0, 0, 3, b"", 3),
    (4, 0, 0, 3, b"", 4),
    (5, 0, 0, 3, b"", 5),
    (15, 0, 0, 3, b"ok\n", 15),
    (0, 2, 0, 4, b"ok\n", 17),
    (0, 0, 1, 5, b"", 9),
    (0, 0, 2, 5, b"ok\nok\ncount 0\n", 17),
];

/// A site whose counts are full, and at which this call and this emit fail.
fn site_of(alloc: Global, call: u64, emit: u64) -> Result<CountedSite, AllocError> {
    let mut site = MemSite::new(alloc);
    site.fail(&[call])?;
    site.fail_emit(&[emit])?;
    Ok(CountedSite {
        site,
        disk_faults: u64::MAX,
        output_faults: u64::MAX,
    })
}

/// A source whose count is full, and at which this read fails.
fn source_of(alloc: Global, read: u64) -> Result<CountedSource, AllocError> {
    let mut source = MemSource::new(alloc, SCRIPT)?;
    source.fail(&[read])?;
    Ok(CountedSource {
        source,
        faults: u64::MAX,
    })
}

/// Whether a run over devices whose counts are full goes as the case says, and leaves them full.
fn goes_as(alloc: Global, case: Case) -> Result<bool, AllocError> {
    let (call, emit, read, wanted, told, calls) = case;
    let mut site = site_of(alloc, call, emit)?;
    let mut source = source_of(alloc, read)?;
    let status = run_over(alloc, &mut source, &mut site)?;
    let full = site.is_full() && source.faults == u64::MAX;
    Ok(full && status == wanted && site.site.told() == told && site.site.calls() == calls)
}

/// The first case in which a run goes otherwise.
fn wrong_case(alloc: Global) -> Result<Option<Case>, AllocError> {
    for case in CASES {
        if !goes_as(alloc, case)? {
            return Ok(Some(case));
        }
    }
    Ok(None)
}

#[test]
fn a_count_of_faults_at_the_end_of_its_type_changes_nothing(rt: HostRuntime) -> Result<(), Fail> {
    assert!(rt; wrong_case(rt.alloc())?.is_none());
    Ok(())
}
