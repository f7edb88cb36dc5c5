//! The seats of a shared space with what their threads have.

ghost use Rattle.std.specs.Prelude.{◌≡◌, [], IfOk, length, map};
ghost use Rattle.std.specs.List.{All, AllZip};
ghost use Rattle.workers.specs.Jobs.{IsWorked};

use crate::asking::{Tasks, work_each};
use crate::work::Work;
use shared_core::Shared;
use shared_parts::{Opening, Seat, Striped};
use std::alloc::Global;
use std::sync::Wait;
use std::thread::Threads;
use wasm_types::NoMemory;

/// A seat, and what its thread has.
#[derive(Drop)]
pub(crate) struct Job<S: Striped, J: Opening<S, S::Value, S::Fixed>, T> {
    pub(crate) seat: Seat<S, J>,
    pub(crate) state: T,
}

/// Each seat with what its thread has.
pub(crate) fn pair<S: Striped, J: Opening<S, S::Value, S::Fixed>, T: Drop>(
    alloc: Global,
    seats: Vec<Seat<S, J>>,
    states: Vec<T>,
) -> Result<Vec<Job<S, J, T>>, NoMemory>
    requires { length seats.items ≡ length states.items }
    ensures seats { IfOk result (λ jobs. map (λ j. j.seat) jobs.items ≡ seats.items) }
    ensures states { IfOk result (λ jobs. map (λ j. j.state) jobs.items ≡ states.items) }
{
    let mut jobs = Vec::new(alloc);
    let mut own = states.into_iter();
    for seat in seats {
        let Some(state) = own.next() else {
            unreachable!()
        };
        jobs.push(Job { seat, state })?;
    }
    Ok(jobs)
}

/// The seats, and what their threads have.
pub(crate) fn part<S: Striped, J: Opening<S, S::Value, S::Fixed>, T: Drop>(
    alloc: Global,
    jobs: Vec<Job<S, J, T>>,
) -> Result<(Vec<Seat<S, J>>, Vec<T>), NoMemory>
    ensures seats { IfOk result (λ r. r.0.items ≡ map (λ j. j.seat) jobs.items) }
    ensures states { IfOk result (λ r. r.1.items ≡ map (λ j. j.state) jobs.items) }
{
    let mut seats = Vec::new(alloc);
    let mut states = Vec::new(alloc);
    for job in jobs {
        let Job { seat, state } = job;
        seats.push(seat)?;
        states.push(state)?;
    }
    Ok((seats, states))
}

/// What all threads of a run share.
#[derive(Drop)]
struct Working<'a, S: Striped, J: Opening<S, S::Value, S::Fixed>, W, R> {
    rt: &'a R,
    alloc: Global,
    shared: &'a Shared<S, J>,
    work: &'a W,
}

impl<'a, S: Striped, J: Opening<S, S::Value, S::Fixed>, W: Work<S>, R: Wait> Tasks
    for Working<'a, S, J, W, R>
where
    S: Send,
    J: Send,
    W::State: Send + Drop,
    S::Op: Send,
    S::Reply: Send,
    S::Value: Send,
    S::Fixed: Send,
    S::Part: Send,
    S::Seen: Send,
    S::Decision: Send,
{
    type Task = Job<S, J, W::State>;

    ghost begins = { λ j. W.begins J.named.memory.fixed j.state × (j.seat.calls ≡ []) };

    ghost leads = { λ j k. IsWorked W.leads j.seat j.state k.seat k.state };

    ghost stays = { λ j k. (k.seat ≡ j.seat) × W.leads j.seat.thread j.state [] k.state };

    fn work(&self, task: Job<S, J, W::State>) -> Job<S, J, W::State> {
        let Job { mut seat, state } = task;
        let state = self
            .work
            .work(self.rt, self.alloc, self.shared, &mut seat, state);
        self.shared.leave(self.rt, &seat);
        Job { seat, state }
    }

    fn leave_out(&self, task: Job<S, J, W::State>) -> Job<S, J, W::State> {
        let Job { seat, state } = task;
        self.shared.leave(self.rt, &seat);
        let state = self.work.leave_out(&seat, state);
        Job { seat, state }
    }
}

/// The work of each thread, or what its job comes to where none is made for it.
pub(crate) fn work_all<
    S: Striped + Send + Sync,
    J: Opening<S, S::Value, S::Fixed> + Send + Sync,
    T: Send + Drop,
    W: Work<S, State = T> + Sync,
    R: Threads + Wait + Sync,
>(
    rt: &R,
    alloc: Global,
    shared: &Shared<S, J>,
    work: &W,
    jobs: Vec<Job<S, J, T>>,
) -> Result<Vec<Job<S, J, T>>, NoMemory>
where
    S::Op: Send + Sync,
    S::Reply: Send + Sync,
    S::Value: Send + Sync,
    S::Fixed: Send + Sync,
    S::Part: Send + Sync,
    S::Seen: Send + Sync,
    S::Decision: Send + Sync,
    requires begins { All (λ j. W.begins J.named.memory.fixed j.state) jobs.items }
    requires new { All (λ j. j.seat.calls ≡ []) jobs.items }
    ensures { IfOk result (λ done. AllZip (λ j k. IsWorked W.leads j.seat j.state k.seat k.state) jobs.items done.items) }
{
    let working = Working {
        rt,
        alloc,
        shared,
        work,
    };
    let done = work_each(rt, &working, jobs)?;
    Ok(done)
}
