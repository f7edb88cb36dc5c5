//! What stays the same while a thread runs.

ghost use Rattle.std.specs.Prelude.{◌≡◌, true, IfOk};
ghost use Rattle.wasm_types.specs.Segments.{elements_are_within};
ghost use Rattle.thread_words.specs.Opening.{instance_of};
ghost use Rattle.thread_words.specs.ThreadCode.{limits_of};
ghost use Rattle.thread_words.specs.Words.{instance_at};

use block_objects::MemoryLimits;
use std::alloc::Global;
use thread_words::Instance;
use wasm_types::{
    Extent, Module, NoMemory, Profile, block_of, capacity, first_memory, first_table,
    initial_pages, is_shared,
};

/// The numbers of a module's memory in a profile: its length at first, its capacity, which is the declared maximum and
/// at most 16 pages in profile 1 and 256 in profile 2, and the size of its blocks. A module without a memory has an
/// empty one.
pub fn memory_limits(module: &Module, profile: Profile) -> MemoryLimits
    ensures { result ≡ limits_of (instance_of «module».now profile 0) }
{
    let memory = first_memory(module);
    MemoryLimits {
        initial: initial_pages(memory),
        capacity: capacity(memory, &profile),
        block: block_of(&profile),
    }
}

/// The instance of a module for a thread (WebAssembly Core 1.0, instantiation): the table with its segments, and the
/// numbers of the memory. Its capacity is the declared maximum, at most 16 pages in profile 1 and 256 in profile 2.
pub fn instance_for(
    alloc: Global,
    module: &Module,
    profile: Profile,
    thread: u32,
) -> Result<Instance, NoMemory>
    requires { elements_are_within «module».now ≡ true }
    ensures { IfOk result (λ instance. instance_at instance ≡ instance_of «module».now profile thread) }
{
    let memory = first_memory(module);
    let extent = Extent {
        initial: initial_pages(memory),
        block: block_of(&profile),
    };
    let table = first_table(alloc, module)?;
    Ok(Instance {
        table,
        extent,
        capacity: capacity(memory, &profile),
        shared: is_shared(memory),
        thread,
    })
}
