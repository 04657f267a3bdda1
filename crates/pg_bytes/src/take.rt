// Big-endian fields at an offset of a slice.
ghost use Rattle.std.specs.Prelude.{◌+◌, ◌≤◌, SomeIff, length, take, drop, slice_index, option_copied};
ghost use Rattle.std.specs.Int.{w16, w32, w64, from_be_bytes};

/// The `n` bytes from the offset `at` on, or None if fewer are left there. Both may be any number.
pub fn take_bytes(bytes: &[u8], at: usize, n: usize) -> Option<&[u8]>
    ensures { SomeIff (option_copied result) (at + n ≤ length bytes.now) (take n (drop at bytes.now)) }
{
    let end = at.checked_add(n)?;
    bytes.get(at..end)
}

/// The byte at the offset `at`, or None if none is left there.
pub fn take_u8(bytes: &[u8], at: usize) -> Option<u8>
    ensures { SomeIff result (at + 1 ≤ length bytes.now) (slice_index bytes.now at) }
{
    bytes.get(at).copied()
}

/// The big-endian number in the 2 bytes from the offset `at` on, or None if fewer are left there.
pub fn take_u16(bytes: &[u8], at: usize) -> Option<u16>
    ensures { SomeIff result (at + 2 ≤ length bytes.now) (from_be_bytes w16 (take 2 (drop at bytes.now))) }
{
    let field = take_bytes(bytes, at, 2)?;
    Some(u16::from_be_bytes([field[0], field[1]]))
}

/// The big-endian number in the 4 bytes from the offset `at` on, or None if fewer are left there.
pub fn take_u32(bytes: &[u8], at: usize) -> Option<u32>
    ensures { SomeIff result (at + 4 ≤ length bytes.now) (from_be_bytes w32 (take 4 (drop at bytes.now))) }
{
    let field = take_bytes(bytes, at, 4)?;
    Some(u32::from_be_bytes([field[0], field[1], field[2], field[3]]))
}

/// The big-endian number in the 8 bytes from the offset `at` on, or None if fewer are left there.
pub fn take_u64(bytes: &[u8], at: usize) -> Option<u64>
    ensures { SomeIff result (at + 8 ≤ length bytes.now) (from_be_bytes w64 (take 8 (drop at bytes.now))) }
{
    let field = take_bytes(bytes, at, 8)?;
    Some(u64::from_be_bytes([
        field[0], field[1], field[2], field[3], field[4], field[5], field[6], field[7],
    ]))
}
