//! The memory with which a module opens (WebAssembly Core 1.0, execution, instantiation).

ghost use Rattle.std.specs.Prelude.{◌≡◌};
ghost use Rattle.wasm_types.specs.Memories.{first_memory, initial_by, capacity_by, block_power, shared_by, allows_threads};

use crate::block::Block;
use crate::key::Profile;
use crate::modules::{MemoryType, Module};
use crate::sizes::MOST_PAGES;

/// The most pages of a memory in profile 1.
const MOST_PAGES_ONE: u32 = 16;

/// The most pages of a memory in profile 2.
const MOST_PAGES_TWO: u32 = 256;

/// The memory of a module, if it has one: the first imported one, else the first of its own.
pub fn first_memory(module: &Module) -> Option<MemoryType>
    ensures { result ≡ first_memory «module».now }
{
    match module.imports.as_slice() {
        [import, ..] => Some(import.memory),
        [] => module.memories.as_slice().first().copied(),
    }
}

/// The pages with which a memory opens: none without one.
pub fn initial_pages(memory: Option<MemoryType>) -> u32
    ensures { result ≡ initial_by memory }
{
    match memory {
        None => 0,
        Some(memory) => memory.limits.minimum,
    }
}

/// The most pages that a memory can have in a profile: its declared maximum, at most 16 in profile 1 and 256 in
/// profile 2. None without a memory.
pub fn capacity(memory: Option<MemoryType>, profile: &Profile) -> u32
    ensures { result ≡ capacity_by profile.now memory }
{
    let Some(memory) = memory else {
        return 0;
    };
    let declared = match memory.limits.maximum {
        None => MOST_PAGES,
        Some(maximum) => maximum,
    };
    match profile {
        Profile::One => declared.min(MOST_PAGES_ONE),
        Profile::Two(_) => declared.min(MOST_PAGES_TWO),
    }
}

/// The size of the blocks of a memory in a profile.
pub fn block_of(profile: &Profile) -> Block
    ensures { result ≡ block_power profile.now }
{
    match profile {
        Profile::One => Block::least(),
        Profile::Two(block) => *block,
    }
}

/// Whether a memory is shared. One that isn't there is not.
pub fn is_shared(memory: Option<MemoryType>) -> bool
    ensures { result ≡ shared_by memory }
{
    match memory {
        None => false,
        Some(memory) => memory.shared,
    }
}

/// Whether more than one thread of a module may run: its memory, if it has one, is shared.
pub fn may_share(module: &Module) -> bool
    ensures { result ≡ allows_threads «module».now }
{
    match first_memory(module) {
        None => true,
        Some(memory) => memory.shared,
    }
}
