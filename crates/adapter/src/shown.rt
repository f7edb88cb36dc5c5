//! What is shown of the world at which a debugger stands.

ghost use Rattle.std.specs.Prelude.{◌≡◌, [], IfOk, length};
ghost use Rattle.debugger.specs.Replies.{IsLed};
ghost use Rattle.adapter.specs.Attends.{stack_reply, thread_by};
ghost use Rattle.adapter.specs.Frames.{threads_below};
ghost use Rattle.adapter.specs.Replies.{success};
ghost use Rattle.adapter.specs.State.{Suits, state_of};

use crate::adapter::Adapter;
use crate::frames::{threads_below, trace_of};
use crate::ids::thread_of;
use crate::moving::NO_THREAD;
use crate::replies::{failure, success};
use adapter_messages::{Body, Reply, Told};
use std::alloc::Global;
use wasm_types::NoMemory;

impl<'a> Adapter<'a> {
    /// Shows the threads.
    pub(crate) fn show_threads(&self, alloc: Global) -> Result<Reply, NoMemory>
        ensures led { IsLed (state_of self.now).debugger }
        ensures shows { IfOk result (λ reply. reply ≡ success (Body.Threads (threads_below (length (state_of self.now).debugger.world.threads))) []) }
    {
        let count = self.debugger.world().count() as u32;
        let threads = threads_below(alloc, count)?;
        Ok(success(Body::Threads(threads), Told::none()))
    }

    /// Shows frames of the thread of an id.
    pub(crate) fn show_stack(
        &self,
        alloc: Global,
        id: u64,
        start: u64,
        levels: u64,
    ) -> Result<Reply, NoMemory>
        requires { Suits self.now }
        ensures led { IsLed (state_of self.now).debugger }
        ensures shows { IfOk result (λ reply. reply ≡ stack_reply (state_of self.now) start levels (thread_by (state_of self.now) id)) }
    {
        let world = self.debugger.world();
        let Some(thread) = thread_of(world, id) else {
            return failure(alloc, NO_THREAD);
        };
        let Some(machine) = world.machine(thread) else {
            return failure(alloc, NO_THREAD);
        };
        let body = trace_of(alloc, &self.code, machine, thread, start, levels)?;
        Ok(success(body, Told::none()))
    }
}
