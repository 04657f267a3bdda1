// Page files.
ghost use Rattle.std.specs.Prelude.{◌≡◌, None, OnOk};
ghost use Rattle.pg_disk.specs.Image.{IsFileThere};
ghost use Rattle.pg_disk.specs.Sites.{OnFile, OnFiles};
ghost use Rattle.pg_page.specs.Pages.{page_file};

use crate::frames::X;
use pg_acks::Position;
use pg_bytes::Octets;
use pg_disk::{CallKind, Damage, Disk, Failed, Fault, FileId, Kind, MemSite, Pick, Rule};
use pg_page::{PageWriter, Place, first_place, next_place, read_frame};
use std::alloc::{AllocError, Global};
use std::test::Fail;

const FILE: FileId = FileId {
    kind: Kind::Page,
    owner: 3,
    number: 7,
};

// Makes the page 7 of the address 3, with these bytes.
fn make<D: Disk>(disk: &mut D, bytes: &[u8]) -> Result<(), Failed>
    requires { OnFile D.Disk disk.old (page_file 3 7) (λ s. s ≡ None) }
    ensures { OnOk result (OnFiles D.Disk disk.new (IsFileThere (page_file 3 7))) }
{
    disk.create(FILE)?;
    disk.write(FILE, 0, bytes)?;
    disk.sync(FILE)
}

// The place of the frame with this index, where it stands at this offset.
fn place(index: u32, offset: u64) -> Place {
    Place {
        position: Position { page: 7, index },
        offset,
    }
}

// A frame that was walked over: its place, and the number of its message.
type Step = (Place, u32);

// Walks over the frames of the page, from the first one on, and notes each. It goes no further than the 10,000th.
fn walk<D: Disk>(alloc: Global, disk: &mut D, steps: &mut Vec<Step>) -> Result<(), Fault>
    requires { OnFiles D.Disk disk.old (IsFileThere (page_file 3 7)) }
{
    let mut next = first_place(disk, 3, 7)?;
    'frames: for _ in 0..10_000 {
        let Some(here) = next else {
            return Ok(());
        };
        let frame = read_frame(alloc, disk, 3, here)?;
        steps
            .push((here, frame.message.id.number))
            .map_err(AllocError::from)?;
        next = next_place(disk, 3, here)?;
    }
    Ok(())
}

// The bytes of a page with these payloads.
fn page_of(alloc: Global, payloads: &[&[u8]]) -> Result<Vec<u8>, AllocError> {
    let mut bytes = Vec::new(alloc);
    for payload in payloads {
        bytes.push(1)?;
        bytes.extend_from_slice(&(payload.len() as u64).to_be_bytes())?;
        bytes.extend_from_slice(*payload)?;
    }
    bytes.push(0)?;
    Ok(bytes)
}

// The frame for queue 1 of the message 1-`number` with the body `aaaaa`: 35 bytes, so that its batch has 44.
fn five(alloc: Global, number: u32) -> Result<Vec<u8>, AllocError> {
    let mut bytes = Vec::from_slice(alloc, b"\x01\0\0\0\0\0\0\0\0\0\x01\0\0\0\x01\0\0\0\x01")?;
    bytes.extend_from_slice(&number.to_be_bytes())?;
    bytes.extend_from_slice(b"\x01\0\0\0\0\0\x05aaaaa")?;
    Ok(bytes)
}

// The bytes of a page with so many of these frames, numbered from 1.
fn fives(alloc: Global, count: u32) -> Result<Vec<u8>, AllocError> {
    let mut bytes = Vec::new(alloc);
    for number in 0..count {
        bytes.extend_from_slice(b"\x01\0\0\0\0\0\0\0\x23")?;
        bytes.extend_from_slice(&five(alloc, number.saturating_add(1))?)?;
    }
    bytes.push(0)?;
    Ok(bytes)
}

// Whether these frames were walked over: so many of those, each at its place.
fn are_fives(steps: &[Step], count: usize) -> bool {
    let mut index: u32 = 0;
    let mut offset: u64 = 9;
    for step in steps {
        if *step != (place(index, offset), index.saturating_add(1)) {
            return false;
        }
        index = index.saturating_add(1);
        offset = offset.saturating_add(44);
    }
    steps.len() == count
}

// What is walked over of a page of these bytes, and how it ended.
fn walked(alloc: Global, bytes: &[u8], steps: &mut Vec<Step>) -> Result<Result<(), Fault>, Failed> {
    let mut site = MemSite::new(alloc);
    make(&mut site, bytes)?;
    Ok(walk(alloc, &mut site, steps))
}

// How a walk ends: behind the last frame, or where the page breaks a rule.
type End = Option<(Rule, u64)>;

fn is_end(got: Result<(), Fault>, end: End) -> bool {
    match (got, end) {
        (Ok(()), None) => true,
        (Err(Fault::Damaged(damage)), Some((rule, at))) => {
            damage
                == Damage {
                    file: FILE,
                    at,
                    rule,
                }
        }
        _ => false,
    }
}

// Whether so many frames of the page are walked over, and the walk ends so.
fn is_walked(alloc: Global, bytes: &[u8], count: usize, end: End) -> Result<bool, Failed> {
    let mut steps = Vec::new(alloc);
    let got = walked(alloc, bytes, &mut steps)?;
    Ok(is_end(got, end) && are_fives(&steps, count))
}

// Of a page of two frames that is cut at this length, how many are walked over, and how the walk ends. The gates stand
// at 0, 44 and 88.
fn cut_at(length: usize) -> (usize, End) {
    match length {
        0..=1 => (0, None),
        2..=44 => (0, Some((Rule::Cut, 0))),
        45..=88 => (1, Some((Rule::Cut, 44))),
        _ => (2, None),
    }
}

// The first length at which a page that is cut is walked over otherwise.
fn wrong_cut(alloc: Global) -> Result<Option<usize>, Fault> {
    let bytes = fives(alloc, 2)?;
    for length in 0..90 {
        let (count, end) = cut_at(length);
        let part = bytes.get(..length).unwrap_or(b"?");
        if !is_walked(alloc, part, count, end)? {
            return Ok(Some(length));
        }
    }
    Ok(None)
}

#[test]
fn a_page_is_read_up_to_where_it_is_cut(rt: HostRuntime) -> Result<(), Fail> {
    assert!(rt; wrong_cut(rt.alloc())? == None);
    Ok(())
}

// Whether pages of no frame, of one and of 4,000 are walked over.
fn are_walked(alloc: Global) -> Result<bool, Fault> {
    let none = is_walked(alloc, &fives(alloc, 0)?, 0, None)?;
    let one = is_walked(alloc, &fives(alloc, 1)?, 1, None)?;
    let many = is_walked(alloc, &fives(alloc, 4000)?, 4000, None)?;
    Ok(none && one && many)
}

#[test]
fn pages_are_walked_over(rt: HostRuntime) -> Result<(), Fail> {
    assert!(rt; are_walked(rt.alloc())?);
    Ok(())
}

// Whether a walk ends at a payload that is no frame: one of another format behind a frame, and one that is too long.
fn are_wrong_frames_told(alloc: Global) -> Result<bool, Fault> {
    let first = five(alloc, 1)?;
    let format = page_of(alloc, &[&first, b"\x02"])?;
    let long = page_of(alloc, &[&vec![in alloc; 1; 106_411]?])?;
    let of_format = is_walked(alloc, &format, 1, Some((Rule::Spelling, 53)))?;
    Ok(of_format && is_walked(alloc, &long, 0, Some((Rule::Spelling, 9)))?)
}

#[test]
fn a_payload_that_is_no_frame_is_told(rt: HostRuntime) -> Result<(), Fail> {
    assert!(rt; are_wrong_frames_told(rt.alloc())?);
    Ok(())
}

// The payload as a value.
fn octets(alloc: Global, bytes: &[u8]) -> Result<Octets, AllocError> {
    Octets::from_slice(alloc, bytes)
}

// Makes the page, and adds one frame.
fn create_one<D: Disk>(
    alloc: Global,
    disk: &mut D,
    payload: &[u8],
) -> Result<(PageWriter, Place), Fault>
    requires { OnFile D.Disk disk.old (page_file 3 7) (λ s. s ≡ None) }
{
    let writer = PageWriter::create(disk, 3, 7)?;
    writer.write(alloc, disk, &octets(alloc, payload)?)
}

// Makes the page, and adds two frames. Whether there was room for each in 89 bytes, and none for a third in 132.
fn create_two<D: Disk>(alloc: Global, disk: &mut D) -> Result<bool, Fault>
    requires { OnFile D.Disk disk.old (page_file 3 7) (λ s. s ≡ None) }
{
    let writer = PageWriter::create(disk, 3, 7)?;
    let one = writer.fits(35, 0);
    let (writer, first) = writer.write(alloc, disk, &octets(alloc, &five(alloc, 1)?)?)?;
    let two = writer.fits(35, 89) && !writer.fits(35, 88);
    let (writer, second) = writer.write(alloc, disk, &octets(alloc, &five(alloc, 2)?)?)?;
    let three = writer.fits(35, 133) && !writer.fits(35, 132) && !writer.fits(u64::MAX, u64::MAX);
    let closed = writer.close();
    let is_closed = closed.page == 7 && closed.frames == 2 && closed.length == 89;
    Ok(one && two && three && first == place(0, 9) && second == place(1, 53) && is_closed)
}

// Whether these calls were made behind so many, and no others.
fn are_calls(site: &MemSite, calls: &[CallKind]) -> bool {
    let mut n: u64 = 0;
    for call in calls {
        n = n.saturating_add(1);
        if site.call(n) != Some(*call) {
            return false;
        }
    }
    n == site.calls()
}

const WRITE: CallKind = CallKind::Write(FILE);

const SYNC: CallKind = CallKind::Sync(FILE);

// The calls that make a page, and those that add a frame to it.
const ONE_FRAME: &[CallKind] = &[
    CallKind::Create(FILE),
    WRITE,
    SYNC,
    WRITE,
    SYNC,
    WRITE,
    SYNC,
];

// Whether a page is made with this frame by these calls, and has these bytes then.
fn is_made(alloc: Global, payload: &[u8], bytes: &[u8]) -> Result<bool, Fault> {
    let mut site = MemSite::new(alloc);
    let (writer, first) = create_one(alloc, &mut site, payload)?;
    let closed = writer.close();
    let is_closed = closed.frames == 1 && closed.length == bytes.len() as u64;
    let is_right = is_closed && first == place(0, 9) && are_calls(&site, ONE_FRAME);
    Ok(is_right && site.bytes(FILE) == Some(bytes))
}

// Whether the frame X makes a page of these 41 bytes, and one of the greatest length is written by as many calls.
fn are_made(alloc: Global) -> Result<bool, Fault> {
    let page = b"\x01\0\0\0\0\0\0\0\x1f\
        \x01\0\0\0\0\0\0\0\0\0\x01\0\0\0\x01\0\0\0\x01\0\0\0\x01\x01\0\0\0\0\0\x01x\0";
    let long = vec![in alloc; 5; 106_410]?;
    Ok(is_made(alloc, X, page)? && is_made(alloc, &long, &page_of(alloc, &[&long])?)?)
}

#[test]
fn a_frame_makes_a_page_of_41_bytes(rt: HostRuntime) -> Result<(), Fail> {
    assert!(rt; are_made(rt.alloc())?);
    Ok(())
}

const PICKS: [Pick; 5] = [
    Pick::Old,
    Pick::New,
    Pick::Fill(0),
    Pick::Fill(1),
    Pick::Fill(255),
];

// How many frames are left of a page with two, by the call within which the site is stopped and by the pick: three
// calls make it, and four add each frame, of which the third opens its gate.
const LEFT: [[usize; 5]; 11] = [
    [0, 0, 0, 0, 0],
    [0, 0, 0, 0, 0],
    [0, 0, 0, 0, 0],
    [0, 0, 0, 0, 0],
    [0, 0, 0, 0, 0],
    [0, 1, 0, 1, 0],
    [0, 1, 0, 1, 0],
    [1, 1, 1, 1, 1],
    [1, 1, 1, 1, 1],
    [1, 2, 1, 2, 1],
    [1, 2, 1, 2, 1],
];

// Whether the site, where it is stopped within the call, leaves so many of the frames. A page that isn't there has
// none.
fn are_left(
    alloc: Global,
    site: &MemSite,
    stop: u64,
    pick: Pick,
    count: usize,
) -> Result<bool, Fault> {
    if stop == 0 || stop > site.calls() {
        return Ok(false);
    }
    let left = site.crash(stop, pick)?;
    match left.bytes(FILE) {
        Some(bytes) => Ok(is_walked(alloc, bytes, count, None)?),
        None => Ok(count == 0 && stop == 1),
    }
}

// The first pick of which other frames are left within the call.
fn wrong_pick(
    alloc: Global,
    site: &MemSite,
    stop: u64,
    counts: [usize; 5],
) -> Result<Option<Pick>, Fault> {
    for (pick, count) in PICKS.iter().zip(&counts) {
        if !are_left(alloc, site, stop, *pick, *count)? {
            return Ok(Some(*pick));
        }
    }
    Ok(None)
}

// The first call within which other frames are left, or whether the page isn't made and written by as many.
fn wrong_stop(alloc: Global) -> Result<Option<u64>, Fault> {
    let mut site = MemSite::new(alloc);
    if !create_two(alloc, &mut site)? || site.calls() != 11 {
        return Ok(Some(0));
    }
    let mut stop: u64 = 0;
    for counts in LEFT {
        stop = stop.saturating_add(1);
        if wrong_pick(alloc, &site, stop, counts)?.is_some() {
            return Ok(Some(stop));
        }
    }
    Ok(None)
}

#[test]
fn a_stop_leaves_the_frames_or_one_more(rt: HostRuntime) -> Result<(), Fail> {
    assert!(rt; wrong_stop(rt.alloc())? == None);
    Ok(())
}

// Opens the page, and adds a frame. Its place.
fn open_and_write<D: Disk>(alloc: Global, disk: &mut D, payload: &[u8]) -> Result<Place, Fault>
    requires { OnFiles D.Disk disk.old (IsFileThere (page_file 3 7)) }
{
    let writer = PageWriter::open(alloc, disk, 3, 7)?;
    if writer.frames() == u32::MAX {
        return Err(Fault::Spent);
    }
    let (_, place) = writer.write(alloc, disk, &octets(alloc, payload)?)?;
    Ok(place)
}

// Whether the frame X is added at this place to a page of these bytes, or the page is cut at this offset; and what the
// page has then.
fn is_opened(
    alloc: Global,
    bytes: &[u8],
    want: Result<Place, u64>,
    after: &[u8],
) -> Result<bool, Fault> {
    let mut site = MemSite::new(alloc);
    make(&mut site, bytes)?;
    let is_right = match (open_and_write(alloc, &mut site, X), want) {
        (Ok(place), Ok(want)) => place == want,
        (Err(fault), Err(at)) => is_end(Err(fault), Some((Rule::Cut, at))),
        _ => false,
    };
    Ok(is_right && site.bytes(FILE) == Some(after))
}

// The first page that is opened otherwise: of no byte, of one closed gate, of an open one, of a frame with bytes behind
// its closed gate, and of a frame that is cut.
fn wrong_opening(alloc: Global) -> Result<Option<usize>, Fault> {
    let one = page_of(alloc, &[X])?;
    let two = page_of(alloc, &[X, X])?;
    let mut behind = page_of(alloc, &[X])?;
    behind.extend_from_slice(b"\x01\x01\x01")?;
    let cut = one.get(..40).unwrap_or(b"");
    let cases: [(&[u8], Result<Place, u64>, &[u8]); 5] = [
        (b"", Ok(place(0, 9)), &one),
        (b"\0", Ok(place(0, 9)), &one),
        (b"\x01", Ok(place(0, 9)), &one),
        (&behind, Ok(place(1, 49)), &two),
        (cut, Err(0), cut),
    ];
    for (number, case) in cases.iter().enumerate() {
        if !is_opened(alloc, case.0, case.1, case.2)? {
            return Ok(Some(number));
        }
    }
    Ok(None)
}

#[test]
fn a_page_is_opened_behind_its_frames(rt: HostRuntime) -> Result<(), Fail> {
    assert!(rt; wrong_opening(rt.alloc())? == None);
    Ok(())
}
