//! Numbers in bytes, little-endian.

ghost use Rattle.std.specs.Prelude.{◌≡◌, ◌+◌, ◌^◌, ◌<◌, ◌≤◌, length};
ghost use Rattle.std.specs.Int.{w8, w16, w32, w64, byte_len};
ghost use mir.Val.{bits};
ghost use Rattle.wasm_types.specs.Accesses.{type_width, access_width};
ghost use Rattle.wasm_types.specs.Widths.{width_of};
ghost use Rattle.block_objects.specs.Access.{number_at, with_number};

use wasm_types::{Access, ValType, Width};

/// The number of 8 bits at a place.
pub(crate) fn u8_at(bytes: &[u8], at: usize) -> u8
    requires { at + 1 ≤ length bytes.now }
    ensures { result ≡ number_at w8 at bytes.now }
{
    bytes[at]
}

/// The number of 16 bits at a place.
pub(crate) fn u16_at(bytes: &[u8], at: usize) -> u16
    requires { at + 2 ≤ length bytes.now }
    ensures { result ≡ number_at w16 at bytes.now }
{
    u16::from_le_bytes([bytes[at], bytes[at + 1]])
}

/// The number of 32 bits at a place.
pub(crate) fn u32_at(bytes: &[u8], at: usize) -> u32
    requires { at + 4 ≤ length bytes.now }
    ensures { result ≡ number_at w32 at bytes.now }
{
    u32::from_le_bytes([bytes[at], bytes[at + 1], bytes[at + 2], bytes[at + 3]])
}

/// The number of 64 bits at a place.
pub(crate) fn u64_at(bytes: &[u8], at: usize) -> u64
    requires { at + 8 ≤ length bytes.now }
    ensures { result ≡ number_at w64 at bytes.now }
{
    u64::from_le_bytes([
        bytes[at],
        bytes[at + 1],
        bytes[at + 2],
        bytes[at + 3],
        bytes[at + 4],
        bytes[at + 5],
        bytes[at + 6],
        bytes[at + 7],
    ])
}

/// The number of that width at a place.
pub(crate) fn read_number(bytes: &[u8], width: Width, at: usize) -> u64
    requires { at + byte_len (width_of width) ≤ length bytes.now }
    ensures number { result ≡ number_at (width_of width) at bytes.now }
    ensures fits { result < 2 ^ bits (width_of width) }
{
    match width {
        Width::One => u64::from(u8_at(bytes, at)),
        Width::Two => u64::from(u16_at(bytes, at)),
        Width::Four => u64::from(u32_at(bytes, at)),
        Width::Eight => u64_at(bytes, at),
    }
}

/// Puts the low bits of a number, as many as the width has, at a place.
#[inline(always)]
pub(crate) fn write_number(bytes: &mut [u8], width: Width, at: usize, number: u64)
    requires { at + byte_len (width_of width) ≤ length bytes.old }
    ensures { bytes.new ≡ with_number (width_of width) at number bytes.old }
{
    let new = number.to_le_bytes();
    match width {
        Width::One => bytes[at] = new[0],
        Width::Two => bytes[at..at + 2].copy_from_slice(&new[..2]),
        Width::Four => bytes[at..at + 4].copy_from_slice(&new[..4]),
        Width::Eight => bytes[at..at + 8].copy_from_slice(&new),
    }
}

/// The number of an access that stands at the beginning of some bytes.
pub fn access_number(bytes: &[u8], access: Access) -> u64
    requires { byte_len (access_width access) ≤ length bytes.now }
    ensures number { result ≡ number_at (access_width access) 0 bytes.now }
    ensures fits { result < 2 ^ bits (access_width access) }
{
    read_number(bytes, access.width(), 0)
}

/// The number of a type that stands at the beginning of some bytes.
pub fn type_number(bytes: &[u8], of: ValType) -> u64
    requires { byte_len (type_width of) ≤ length bytes.now }
    ensures { result ≡ number_at (type_width of) 0 bytes.now }
{
    read_number(bytes, of.width(), 0)
}
