// Big-endian fields at the end of a string of bytes.
ghost use Rattle.std.specs.Prelude.{◌≡◌, ◌++◌, ◌∷◌, [], OnOk, OnErr};
ghost use Rattle.std.specs.Int.{w16, w32, w64, to_be_bytes};

use crate::Octets;
use std::alloc::AllocError;

/// Appends the bytes. Fails, as each `put_` call, only where there is no memory for the longer string.
pub fn put_bytes(out: &mut Octets, bytes: &[u8]) -> Result<(), AllocError>
    ensures ok { OnOk result (out.new ≡ out.old ++ bytes.now) }
    ensures err { OnErr result (out.new ≡ out.old) }
{
    out.extend_from_slice(bytes)
}

/// Appends the byte.
pub fn put_u8(out: &mut Octets, value: u8) -> Result<(), AllocError>
    ensures ok { OnOk result (out.new ≡ out.old ++ value ∷ []) }
    ensures err { OnErr result (out.new ≡ out.old) }
{
    put_bytes(out, &[value])
}

/// Appends the number in 2 bytes, the high one first.
pub fn put_u16(out: &mut Octets, value: u16) -> Result<(), AllocError>
    ensures ok { OnOk result (out.new ≡ out.old ++ to_be_bytes w16 value) }
    ensures err { OnErr result (out.new ≡ out.old) }
{
    put_bytes(out, &u16::to_be_bytes(value))
}

/// Appends the number in 4 bytes, the high ones first.
pub fn put_u32(out: &mut Octets, value: u32) -> Result<(), AllocError>
    ensures ok { OnOk result (out.new ≡ out.old ++ to_be_bytes w32 value) }
    ensures err { OnErr result (out.new ≡ out.old) }
{
    put_bytes(out, &u32::to_be_bytes(value))
}

/// Appends the number in 8 bytes, the high ones first.
pub fn put_u64(out: &mut Octets, value: u64) -> Result<(), AllocError>
    ensures ok { OnOk result (out.new ≡ out.old ++ to_be_bytes w64 value) }
    ensures err { OnErr result (out.new ≡ out.old) }
{
    put_bytes(out, &u64::to_be_bytes(value))
}
