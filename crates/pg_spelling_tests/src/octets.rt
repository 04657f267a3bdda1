use pg_bytes::{
    Octets, put_bytes, put_u8, put_u16, put_u32, put_u64, take_bytes, take_u8, take_u16, take_u32,
    take_u64,
};
use std::alloc::{AllocError, Global};
use std::test::Fail;

// A number of each width, and three bytes.
const WIRE: [u8; 18] = [
    0xff, 1, 2, 1, 2, 3, 4, 1, 2, 3, 4, 5, 6, 7, 8, b'a', b'b', b'c',
];

// The same, put one behind the other.
fn written(alloc: Global) -> Result<Octets, AllocError> {
    let mut out = Octets::new(alloc);
    put_u8(&mut out, 0xff)?;
    put_u16(&mut out, 0x0102)?;
    put_u32(&mut out, 0x0102_0304)?;
    put_u64(&mut out, 0x0102_0304_0506_0708)?;
    put_bytes(&mut out, b"abc")?;
    Ok(out)
}

#[test]
fn puts_fields(rt: HostRuntime) -> Result<(), Fail> {
    let out = written(rt.alloc())?;
    assert!(rt;
        Octets::new(rt.alloc()).is_empty() && out.len() == 18 && out.as_slice() == WIRE.as_slice()
    );
    Ok(())
}

// Fields that end where the bytes end.
fn takes_the_last(wire: &[u8]) -> bool {
    take_u8(wire, 17) == Some(b'c')
        && take_u16(wire, 16) == Some(0x6263)
        && take_u32(wire, 3) == Some(0x0102_0304)
        && take_u64(wire, 7) == Some(0x0102_0304_0506_0708)
        && take_bytes(wire, 15, 3) == Some(b"abc".as_slice())
}

// Places and lengths of bytes that pass the end.
const PAST: [(usize, usize); 4] = [(18, 1), (16, 3), (usize::MAX, 1), (1, usize::MAX)];

// How far behind its last place a number is asked for.
const BEHIND: [usize; 4] = [0, 1, 100, usize::MAX - 18];

fn takes_no_bytes(wire: &[u8]) -> bool {
    for (at, n) in PAST {
        if take_bytes(wire, at, n).is_some() {
            return false;
        }
    }
    true
}

fn takes_no_number(wire: &[u8]) -> bool {
    for past in BEHIND {
        let none = take_u8(wire, 18 + past).is_none()
            && take_u16(wire, 17 + past).is_none()
            && take_u32(wire, 15 + past).is_none()
            && take_u64(wire, 11 + past).is_none();
        if !none {
            return false;
        }
    }
    true
}

#[test]
fn takes_fields(rt: HostRuntime) {
    let wire = WIRE.as_slice();
    assert!(rt; takes_the_last(wire) && takes_no_bytes(wire) && takes_no_number(wire));
}

// Whether octets with the same bytes are the same, however they were made.
fn are_same(alloc: Global) -> Result<bool, AllocError> {
    let octets = Octets::from_slice(alloc, &WIRE)?;
    let copy = octets.copy()?;
    let out = written(alloc)?;
    Ok(
        octets == out
            && copy == out
            && Octets::from_vec(out.into_vec()) == octets
            && octets != Octets::new(alloc),
    )
}

#[test]
fn compares_octets(rt: HostRuntime) -> Result<(), Fail> {
    assert!(rt; are_same(rt.alloc())?);
    Ok(())
}
