//! Where an access ends.

ghost use Rattle.std.specs.Prelude.{◌≡◌};
ghost use Rattle.block_objects.specs.Access.{is_within};

use wasm_types::PAGE_SIZE;

/// Whether an access of so many bytes at an address ends within so many pages.
pub fn ends_within(pages: u32, address: u32, len: u32) -> bool
    ensures { result ≡ is_within pages address len }
{
    u64::from(address) + u64::from(len) <= u64::from(pages) * PAGE_SIZE
}
