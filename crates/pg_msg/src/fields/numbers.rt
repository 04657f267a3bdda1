// Numbers and bytes at the front.
ghost use Rattle.std.specs.Int.{w8, w16, w32, w64};
ghost use Rattle.pg_msg.specs.Reading.{Gives, number_at, positive_at, octets_at};

use crate::fields::Unread;

/// The first so many bytes, which aren't copied.
pub fn read_bytes(bytes: &[u8], count: usize) -> Result<(&[u8], &[u8]), Unread>
    ensures { Gives (λ read. (read.0.now, read.1.now)) result (octets_at count bytes.now) }
{
    if bytes.len() < count {
        return Err(Unread::Malformed);
    }
    Ok(bytes.split_at(count))
}

/// The byte at the front.
pub fn read_u8(bytes: &[u8]) -> Result<(u8, &[u8]), Unread>
    ensures { Gives (λ read. (read.0, read.1.now)) result (number_at w8 bytes.now) }
{
    let (field, rest) = read_bytes(bytes, 1)?;
    Ok((field[0], rest))
}

/// The big-endian number in the first 2 bytes.
pub fn read_u16(bytes: &[u8]) -> Result<(u16, &[u8]), Unread>
    ensures { Gives (λ read. (read.0, read.1.now)) result (number_at w16 bytes.now) }
{
    let (field, rest) = read_bytes(bytes, 2)?;
    Ok((u16::from_be_bytes([field[0], field[1]]), rest))
}

/// The big-endian number in the first 4 bytes.
pub fn read_u32(bytes: &[u8]) -> Result<(u32, &[u8]), Unread>
    ensures { Gives (λ read. (read.0, read.1.now)) result (number_at w32 bytes.now) }
{
    let (field, rest) = read_bytes(bytes, 4)?;
    let number = u32::from_be_bytes([field[0], field[1], field[2], field[3]]);
    Ok((number, rest))
}

/// The big-endian number in the first 8 bytes.
pub fn read_u64(bytes: &[u8]) -> Result<(u64, &[u8]), Unread>
    ensures { Gives (λ read. (read.0, read.1.now)) result (number_at w64 bytes.now) }
{
    let (field, rest) = read_bytes(bytes, 8)?;
    let number = u64::from_be_bytes([
        field[0], field[1], field[2], field[3], field[4], field[5], field[6], field[7],
    ]);
    Ok((number, rest))
}

// A number of 4 bytes that is at least 1.
#[tactic(auto, unfolding(crate::specs::Reading::positive_at))]
pub(super) fn read_positive_u32(bytes: &[u8]) -> Result<(u32, &[u8]), Unread>
    ensures { Gives (λ read. (read.0, read.1.now)) result (positive_at w32 bytes.now) }
{
    let (number, rest) = read_u32(bytes)?;
    if number == 0 {
        return Err(Unread::Malformed);
    }
    Ok((number, rest))
}
