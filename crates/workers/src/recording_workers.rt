//! Recording by threads.

ghost use Rattle.std.specs.Prelude.{◌≡◌, ◌≤◌, IfOk, length, map};
ghost use Rattle.wasm_types.specs.declared.sizes.TheConstants.{MOST_STEPS, MOST_THREADS};
ghost use Rattle.event_core.specs.Opening.{AllFresh, opening_world};
ghost use Rattle.shared_core.specs.Begins.{names_of, lane_names};
ghost use Rattle.rw_objects.specs.Memory.{memory_of};
ghost use Rattle.workers.specs.Recording.{HaveRun, IsRecording, IsRecordingFrom};
ghost use Rattle.workers.specs.Work.{opening_worker};

use crate::lawful::are_lawful;
use crate::recording_work::RecordingWork;
use crate::run_threads;
use crate::timer::Timer;
use crate::worker::Worker;
use event_core::{Thread, World};
use recorder::{Recorded, record_rest};
use rw_objects::Machine;
use shared_core::{History, Hold, Opened};
use shared_parts::{Opening, Striped};
use std::alloc::Global;
use std::marker::PhantomData;
use std::sync::Wait;
use std::thread::Threads;
use wasm_types::NoMemory;

/// Workers of machines that made no step, each of which may make so many.
fn open_workers<M: Drop>(
    alloc: Global,
    machines: Vec<M>,
    steps: u32,
) -> Result<Vec<Worker<M>>, NoMemory>
    ensures { IfOk result (λ workers. workers.items ≡ map (opening_worker steps) machines.items) }
{
    let mut workers = Vec::new(alloc);
    for machine in machines {
        workers.push(Worker {
            thread: Thread { machine, places: 0 },
            steps,
            is_starved: false,
        })?;
    }
    Ok(workers)
}

/// The threads of workers that have stopped, none of which wanted memory.
fn stopped_threads<M: Drop>(
    alloc: Global,
    workers: Vec<Worker<M>>,
) -> Result<Vec<Thread<M>>, NoMemory>
    ensures { IfOk result (λ threads. threads.items ≡ map (λ w. w.thread) workers.items) }
{
    let mut threads = Vec::new(alloc);
    for worker in workers {
        if worker.is_starved {
            return Err(NoMemory);
        }
        threads.push(worker.thread)?;
    }
    Ok(threads)
}

/// Records what workers did that made this history, in its order, and then in rounds what they left undone. Each of
/// them drove a machine that had made no step, over a space that no thread had touched. Where memory was wanted for one
/// of them, no recording is answered.
pub fn record_history<S: Striped + Drop, X, M: Machine<S, State = X> + Drop, R: Wait>(
    rt: &R,
    alloc: Global,
    history: History<S>,
    workers: Vec<Worker<M>>,
    steps: u32,
) -> Result<Recorded, NoMemory>
    requires { HaveRun S.meaning M.code M.state steps history.order.items history.entries.items (memory_of history.memory) workers.items }
    ensures { IfOk result (λ recorded. (h : HaveRun S.meaning M.code M.state steps history.order.items history.entries.items (memory_of history.memory) workers.items) → IsRecordingFrom S.meaning M.code M.state steps h recorded) }
{
    are_lawful::<S, M>();
    let threads = stopped_threads(alloc, workers)?;
    let History {
        order: _,
        entries,
        memory,
    } = history;
    let world = World::resume(threads, memory);
    record_rest(rt, alloc, world, entries, steps)
}

/// Records a run by workers, each in a thread of its own, of machines that made no step, over a space that no thread
/// has touched. Each thread makes no more than `steps` steps, at most 1,000,000,000. What the workers leave undone is
/// done in rounds. Where memory is wanted for one of them all others end first, and no recording is answered.
pub fn record_workers<
    S: Striped + Drop + Send + Sync,
    X,
    M: Machine<S, State = X> + Drop + Send + Sync,
    J: Opening<S, S::Value, S::Fixed> + Send + Sync,
    T: Timer + Sync,
    H: Hold + Sync,
    R: Threads + Wait + Sync,
>(
    rt: &R,
    alloc: Global,
    opened: Opened<S>,
    machines: Vec<M>,
    steps: u32,
    timer: &T,
    hold: &H,
) -> Result<Recorded, NoMemory>
where
    S::Op: Send + Sync,
    S::Reply: Send + Sync,
    S::Value: Send + Sync,
    S::Fixed: Send + Sync,
    S::Part: Send + Sync,
    S::Seen: Send + Sync,
    S::Decision: Send + Sync,
    requires chain { opened.chain ≡ J.chain }
    requires named { names_of (S.fixed opened.space) (S.values opened.space) opened.count.name (lane_names opened.lanes) opened.threads ≡ J.named }
    requires threads { length machines.items ≡ opened.threads }
    requires few { length machines.items ≤ MOST_THREADS }
    requires fresh { AllFresh M.code M.state (S.fixed opened.space) machines.items }
    requires limit { steps ≤ MOST_STEPS }
    ensures { IfOk result (λ recorded. IsRecording S.meaning M.code (λ t s. T.can_expire t (M.nanos_of s)) steps (opening_world M.state (S.fixed opened.space) (S.values opened.space) machines.items) recorded) }
{
    let workers = open_workers(alloc, machines, steps)?;
    let work = RecordingWork {
        timer,
        hold,
        of: PhantomData,
    };
    let (history, workers) = run_threads::<S, J, Worker<M>, RecordingWork<M, T, H>, R>(
        rt, alloc, opened, workers, &work,
    )?;
    record_history(rt, alloc, history, workers, steps)
}
