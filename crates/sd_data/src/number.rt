//! Little-endian numbers, at an offset and at the end.

ghost use Rattle.std.specs.Prelude.{◌≡◌, ◌+◌, ◌≤◌, ◌++◌, length, OnOk};
ghost use Rattle.std.specs.Int.{w16, w32, w64, cast_unsigned, to_le_bytes};
ghost use Rattle.sd_sid.specs.SidBytes.{u32_at};
ghost use Rattle.sd_data.specs.Reading.{i64_at, u16_at, u64_at};

use std::alloc::AllocError;

/// The number in two bytes.
pub fn read_u16(bytes: &[u8], place: usize) -> u16
    requires { place + 2 ≤ length bytes.now }
    ensures { result ≡ u16_at bytes.now place }
{
    u16::from_le_bytes([bytes[place], bytes[place + 1]])
}

/// The number in four bytes.
pub fn read_u32(bytes: &[u8], place: usize) -> u32
    requires { place + 4 ≤ length bytes.now }
    ensures { result ≡ u32_at bytes.now place }
{
    u32::from_le_bytes([
        bytes[place],
        bytes[place + 1],
        bytes[place + 2],
        bytes[place + 3],
    ])
}

/// The number in eight bytes.
pub fn read_u64(bytes: &[u8], place: usize) -> u64
    requires { place + 8 ≤ length bytes.now }
    ensures { result ≡ u64_at bytes.now place }
{
    u64::from_le_bytes([
        bytes[place],
        bytes[place + 1],
        bytes[place + 2],
        bytes[place + 3],
        bytes[place + 4],
        bytes[place + 5],
        bytes[place + 6],
        bytes[place + 7],
    ])
}

/// The signed number in eight bytes.
pub fn read_i64(bytes: &[u8], place: usize) -> i64
    requires { place + 8 ≤ length bytes.now }
    ensures { result ≡ i64_at bytes.now place }
{
    read_u64(bytes, place).cast_signed()
}

/// Appends a number in two bytes.
pub fn push_u16(bytes: &mut Vec<u8>, number: u16) -> Result<(), AllocError>
    ensures { OnOk result (bytes.new.items ≡ bytes.old.items ++ to_le_bytes w16 number) }
{
    bytes.extend_from_slice(&number.to_le_bytes())
}

/// Appends a number in four bytes.
pub fn push_u32(bytes: &mut Vec<u8>, number: u32) -> Result<(), AllocError>
    ensures { OnOk result (bytes.new.items ≡ bytes.old.items ++ to_le_bytes w32 number) }
{
    bytes.extend_from_slice(&number.to_le_bytes())
}

/// Appends a number in eight bytes.
pub fn push_u64(bytes: &mut Vec<u8>, number: u64) -> Result<(), AllocError>
    ensures { OnOk result (bytes.new.items ≡ bytes.old.items ++ to_le_bytes w64 number) }
{
    bytes.extend_from_slice(&number.to_le_bytes())
}

/// Appends a signed number in eight bytes.
pub fn push_i64(bytes: &mut Vec<u8>, number: i64) -> Result<(), AllocError>
    ensures { OnOk result (bytes.new.items ≡ bytes.old.items ++ to_le_bytes w64 (cast_unsigned w64 number)) }
{
    bytes.extend_from_slice(&number.to_le_bytes())
}
