//! The memory of the tests, and threads over it.

ghost use Rattle.std.specs.Prelude.{◌≡◌, ◌≤◌, length};
ghost use Rattle.shared_tests.specs.Limits.{test_limits};

use block_objects::MemoryLimits;
use shared_core::{History, Opened};
use std::alloc::Global;
use std::marker::Brand;
use std::sync::Wait;
use std::thread::Threads;
use striped_memory::StripedMemory;
use waiter_queues::SharedSpace;
use wasm_types::{Block, NoMemory};
use workers::{Work, run_threads};

/// One page in blocks of 64 bytes, which does not grow.
pub(crate) fn limits() -> MemoryLimits
    ensures { result ≡ test_limits }
{
    MemoryLimits {
        initial: 1,
        capacity: 1,
        block: Block::least(),
    }
}

/// Runs a thread for each of the states, over a memory that opens with zeros.
pub(crate) fn run<
    T: Send + Drop,
    W: Work<StripedMemory, State = T> + Sync,
    R: Threads + Wait + Sync,
>(
    rt: &R,
    alloc: Global,
    states: Vec<T>,
    work: &W,
) -> Result<(History<StripedMemory>, Vec<T>), NoMemory>
    requires few { length states.items ≤ 4 }
    requires begins { (state : T) → W.begins test_limits state }
{
    let space = SharedSpace::new(alloc, limits(), &[])?;
    let opened = Opened::new(StripedMemory { space }, states.len() as u8);
    run_threads::<StripedMemory, Brand, T, W, R>(rt, alloc, opened, states, work)
}
