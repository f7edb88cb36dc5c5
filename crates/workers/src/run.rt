//! Threads over a shared space, from its opening to its end.

ghost use Rattle.std.specs.Prelude.{◌≡◌, IfOk, length};
ghost use Rattle.std.specs.List.{All};
ghost use Rattle.rw_objects.specs.Counts.{no_counts};
ghost use Rattle.rw_objects.specs.Memory.{memory_with, memory_of};
ghost use Rattle.shared_core.specs.Begins.{names_of, lane_names};
ghost use Rattle.workers.specs.Ran.{AreRun};

use crate::jobs::{pair, part, work_all};
use crate::work::Work;
use shared_core::{History, Opened, Shared};
use shared_parts::{Opening, Striped};
use std::alloc::Global;
use std::sync::Wait;
use std::thread::Threads;
use wasm_types::NoMemory;

/// Runs a thread for each of the states, over a space that is opened for so many: the history of all their calls, and
/// what each has then. A state for which the system makes no thread is left out: its seat enters no call, and the empty
/// list of calls leads to what it has then.
pub fn run_threads<
    S: Striped + Drop + Send + Sync,
    J: Opening<S, S::Value, S::Fixed> + Send + Sync,
    T: Send + Drop,
    W: Work<S, State = T> + Sync,
    R: Threads + Wait + Sync,
>(
    rt: &R,
    alloc: Global,
    opened: Opened<S>,
    states: Vec<T>,
    work: &W,
) -> Result<(History<S>, Vec<T>), NoMemory>
where
    S::Op: Send + Sync,
    S::Reply: Send + Sync,
    S::Value: Send + Sync,
    S::Fixed: Send + Sync,
    S::Part: Send + Sync,
    S::Seen: Send + Sync,
    S::Decision: Send + Sync,
    requires chain { opened.chain ≡ J.chain }
    requires named { names_of (S.fixed opened.space) (S.values opened.space) opened.count.name (lane_names opened.lanes) opened.threads ≡ J.named }
    requires threads { length states.items ≡ opened.threads }
    requires begins { All (W.begins (S.fixed opened.space)) states.items }
    ensures { IfOk result (λ r. AreRun S.meaning W.leads (memory_with (S.fixed opened.space) (S.values opened.space) no_counts) states.items r.0.order.items r.0.entries.items (memory_of r.0.memory) r.1.items) }
{
    let (shared, seats) = Shared::<S, J>::new(alloc, opened)?;
    let jobs = pair(alloc, seats, states)?;
    let done = work_all(rt, alloc, &shared, work, jobs)?;
    let (seats, states) = part(alloc, done)?;
    let history = shared.close(alloc, seats)?;
    Ok((history, states))
}
