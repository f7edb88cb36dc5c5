//! Accesses of a memory: through a shared memory with its versions, or of a plain slice of bytes.

ghost use Rattle.std.specs.Prelude.{◌≤◌, IfSome};

use crate::plain::{plain_loads, plain_stores};
use crate::versioned::{loads, loads_of_kinds, stores};
use block_objects::MemoryLimits;
use std::alloc::Global;
use wasm_types::{Block, MOST_PAGES, NoMemory, PAGE_SIZE};

/// What is measured.
#[derive(Clone, Copy)]
enum Mode {
    /// Loads of a slice.
    SliceLoad,
    /// Stores to a slice.
    SliceStore,
    /// Loads by `act`.
    Load,
    /// Loads by `act` of a kind that is read from a table.
    LoadOfKind,
    /// Stores by `act`.
    Store,
}

/// What a word asks for.
fn mode_of(word: &str) -> Option<Mode> {
    match word {
        "slice-load" => Some(Mode::SliceLoad),
        "slice-store" => Some(Mode::SliceStore),
        "load" => Some(Mode::Load),
        "load-of-kind" => Some(Mode::LoadOfKind),
        "store" => Some(Mode::Store),
        _ => None,
    }
}

/// Makes the accesses, and answers a number that depends on each of them.
fn measured(alloc: Global, mode: Mode, limits: MemoryLimits, count: u32) -> Result<u64, NoMemory>
    requires some { 1 ≤ limits.capacity }
    requires order { limits.initial ≤ limits.capacity }
    requires limit { limits.capacity ≤ MOST_PAGES }
{
    let bytes = limits.capacity as usize * PAGE_SIZE as usize;
    match mode {
        Mode::SliceLoad => plain_loads(alloc, bytes, count),
        Mode::SliceStore => plain_stores(alloc, bytes, count),
        Mode::Load => loads(alloc, limits, count),
        Mode::LoadOfKind => loads_of_kinds(alloc, limits, count),
        Mode::Store => stores(alloc, limits, count),
    }
}

/// The limits of a memory of so many pages, from 1 to 65,536, in blocks of so many bytes.
fn limits_of(pages: &str, block: &str) -> Option<MemoryLimits>
    ensures { IfSome result (λ limits. (1 ≤ limits.capacity) × (limits.initial ≤ limits.capacity) × (limits.capacity ≤ MOST_PAGES)) }
{
    let pages = pages.parse::<u32>().ok()?;
    let block = block.parse::<u32>().ok()?;
    let block = Block::new(block).ok()?;
    if pages == 0 || pages > MOST_PAGES {
        return None;
    }
    Some(MemoryLimits {
        initial: pages,
        capacity: pages,
        block,
    })
}

/// Makes the accesses that the words ask for: the mode, the pages of the memory, the bytes of a block, and how many. It
/// answers a number that depends on each of them, and nothing where the words ask for none.
pub(crate) fn accesses_asked(
    alloc: Global,
    [mode, pages, block, count]: [&str; 4],
) -> Result<Option<u64>, NoMemory> {
    let (Some(mode), Some(limits), Ok(count)) = (
        mode_of(mode),
        limits_of(pages, block),
        count.parse::<u32>(),
    ) else {
        return Ok(None);
    };
    let sum = measured(alloc, mode, limits, count)?;
    Ok(Some(sum))
}
