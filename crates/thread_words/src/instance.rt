//! What stays the same while a thread runs.

ghost use Rattle.std.specs.Prelude.{◌≤◌};
ghost use Rattle.wasm_types.specs.declared.sizes.TheConstants.{MOST_PAGES};

use wasm_types::Extent;

/// What stays the same while a thread runs (WebAssembly Core 1.0, module instances).
#[derive(Drop)]
pub struct Instance {
    /// The elements of the table: a function's index, or nothing.
    pub table: Vec<Option<u32>>,
    /// The initial length of the memory and the size of its blocks.
    pub extent: Extent,
    /// The greatest length of the memory, in pages: at most 65,536.
    pub capacity: u32,
    /// Whether the memory is shared.
    pub shared: bool,
    /// The thread's own number.
    pub thread: u32,
    ghost limit: { capacity ≤ MOST_PAGES },
}
