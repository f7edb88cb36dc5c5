//! A thread of a plan over a shared memory that can stand in parts.

ghost use Rattle.std.specs.Prelude.{◌≡◌, IfOk};

use rw_objects::{Machine, Next};
use std::alloc::Global;
use std::marker::Model;
use striped_memory::StripedMemory;
use wasm_types::{NoMemory, Op, Reply};
use wasm_world::{SharedSpace, ThreadSeen, ThreadState};

/// A thread of a plan, as `ThreadState` has it, over a shared memory that can stand in parts: what it asks of the
/// memory, and what it makes of the replies, is the same. Contracts see the same of it.
#[derive(Drop)]
pub struct StripedThread<'a> {
    thread: ThreadState<'a>,
}

impl<'a> Model for StripedThread<'a> {
    ghost use Rattle.wasm_world.specs.Sound.{ThreadWithRoom};

    ghost Value = { ThreadWithRoom };

    ghost view = { λ t. t.thread };
}

impl<'a> Machine<StripedMemory> for StripedThread<'a> {
    ghost use Rattle.wasm_world.specs.Sound.{thread_of, HasRoomLeft};
    ghost use Rattle.thread_words.specs.ThreadCode.{thread_code, thread_nanos};
    ghost use Rattle.thread_words.proofs.Machine.{threads_are_machines};

    type State = ThreadSeen;

    ghost code = { thread_code };

    ghost state = { thread_of };

    ghost has_room = { HasRoomLeft };

    ghost nanos_of = { thread_nanos };

    #[inline(always)]
    fn next(&self) -> Next<Op> {
        Machine::<SharedSpace>::next(&self.thread)
    }

    fn nanos(&self) -> u64 {
        Machine::<SharedSpace>::nanos(&self.thread)
    }

    fn steps(&self) -> u32 {
        Machine::<SharedSpace>::steps(&self.thread)
    }

    fn local(&mut self) -> Result<(), NoMemory> {
        Machine::<SharedSpace>::local(&mut self.thread)
    }

    #[inline(always)]
    fn take(&mut self, reply: Reply) -> Result<(), NoMemory> {
        Machine::<SharedSpace>::take(&mut self.thread, reply)
    }

    fn local_run(&mut self, most: u32) -> Result<u32, NoMemory> {
        Machine::<SharedSpace>::local_run(&mut self.thread, most)
    }

    fn room(&mut self) -> Result<(), NoMemory> {
        Machine::<SharedSpace>::room(&mut self.thread)
    }

    fn copied(&self, alloc: Global) -> Result<StripedThread<'a>, NoMemory> {
        let thread = Machine::<SharedSpace>::copied(&self.thread, alloc)?;
        Ok(StripedThread { thread })
    }

    ghost laws = { threads_are_machines };
}

/// These threads, each as one over a shared memory that can stand in parts.
pub fn striped_threads<'a>(
    alloc: Global,
    threads: Vec<ThreadState<'a>>,
) -> Result<Vec<StripedThread<'a>>, NoMemory>
    ensures { IfOk result (λ striped. striped.items ≡ threads.entry.items) }
{
    let mut striped = Vec::new(alloc);
    for thread in threads {
        striped.push(StripedThread { thread })?;
    }
    Ok(striped)
}
