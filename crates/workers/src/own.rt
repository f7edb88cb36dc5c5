//! A thread in memory of its own.

ghost use Rattle.std.specs.Prelude.{◌≡◌, IfOk};
ghost use Rattle.event_core.specs.Threads.{thread_of};

use event_core::Thread;
use rw_objects::{Machine, ObjectSpace};
use std::alloc::Global;
use wasm_types::NoMemory;

/// The same thread in memory for which the caller asks. A thread of the system that drives it so writes its local steps
/// into lines of memory that no other thread writes: what one thread asks for lies one behind the other, and what two
/// threads write into one line is handed from processor to processor at each step.
pub fn own_thread<S: ObjectSpace, M: Machine<S>>(
    alloc: Global,
    thread: &Thread<M>,
) -> Result<Thread<M>, NoMemory>
    ensures { IfOk result (λ own. thread_of M.state own ≡ thread_of M.state thread.now) }
{
    let machine = thread.machine.copied(alloc)?;
    Ok(Thread {
        machine,
        places: thread.places,
    })
}
