//! Accesses of a plain slice.

ghost use Rattle.std.specs.Prelude.{◌≡◌, ◌+◌, ◌≤◌, length};

use std::alloc::Global;
use wasm_types::NoMemory;

/// The address of an access of 4 bytes: 68 bytes behind the one before, and again from the start of the page.
pub fn address_of(access: u32) -> u32
    ensures { result + 4 ≤ 65536 }
{
    access.wrapping_mul(17) % 16_384 * 4
}

/// The four bytes at an address as a number, little-endian; zero past the end.
fn load(bytes: &[u8], address: u32) -> u32 {
    let at = address as usize;
    match bytes.get(at..at + 4) {
        Some([a, b, c, d]) => u32::from_le_bytes([*a, *b, *c, *d]),
        _ => 0,
    }
}

/// Makes so many loads of so many bytes of zeros, and answers their sum.
pub fn plain_loads(alloc: Global, bytes: usize, count: u32) -> Result<u64, NoMemory> {
    let bytes = vec![in alloc; 0u8; bytes]?;
    let mut sum = 0u64;
    for access in 0..count {
        sum = sum.wrapping_add(u64::from(load(&bytes, address_of(access))));
    }
    Ok(sum)
}

/// Puts a number at an address, little-endian; nothing past the end.
fn store(bytes: &mut [u8], address: u32, number: u32) {
    let at = address as usize;
    if let Some(place) = bytes.get_mut(at..at + 4) {
        place.copy_from_slice(&number.to_le_bytes());
    }
}

/// Makes so many stores to so many bytes, each of its own number, and answers the sum of the first numbers.
pub fn plain_stores(alloc: Global, bytes: usize, count: u32) -> Result<u64, NoMemory> {
    let mut bytes = vec![in alloc; 0u8; bytes]?;
    for access in 0..count {
        store(&mut bytes, address_of(access), access);
    }
    Ok(u64::from(load(&bytes, 0)).wrapping_add(u64::from(load(&bytes, 4))))
}
