//! Threads that are asked for one by one, so that it is known for which task the system made none.

ghost use Rattle.std.specs.Prelude.{◌<◌, ◌⊎◌, IfOk, length};
ghost use Rattle.std.specs.List.{All, AllZip};

use std::alloc::AllocError;
use std::snapshot::Snapshot;
use std::sync::Wait;
use std::sync::atomic::{AtomicUsize, Ordering};
use std::thread;
use std::thread::{Promise, Scope, Threads};

/// What is done with each of some tasks, by a thread of its own.
pub(crate) trait Tasks {
    /// What a thread is given, and what it gives back.
    type Task: Send + Drop;

    ghost begins: { Self.Task → Type 0 };

    ghost leads: { Self.Task → Self.Task → Type 0 };

    ghost stays: { Self.Task → Self.Task → Type 0 };

    /// The work of a thread. `begins` says of what it may begin, `leads` to what that leads.
    fn work(&self, task: Self::Task) -> Self::Task
        requires { begins task }
        ensures { leads task result };

    /// What a task comes to for which the system made no thread. `stays` says what of it is as it was, and what is not.
    fn leave_out(&self, task: Self::Task) -> Self::Task
        requires { begins task }
        ensures { stays task result };
}

/// That a task comes to what its thread gives back: to what its work leads to, or to what is left of it.
#[derive(Drop)]
struct ComesFrom<A: Tasks> {
    task: Snapshot<A::Task>,
}

impl<A: Tasks> Promise<A::Task> for ComesFrom<A> {
    ghost use Rattle.std.specs.Prelude.{◌⊎◌};

    ghost kept_by = { λ p r. A.leads p.task.value r ⊎ A.stays p.task.value r };
}

/// What a task comes to: it is left out where it is the one for which no thread was made, and worked where it is not.
fn work_one<A: Tasks>(work: &A, refused: &AtomicUsize, number: usize, task: A::Task) -> A::Task
    requires { A.begins task }
    ensures { A.leads task result ⊎ A.stays task result }
{
    if refused.load(Ordering::SeqCst) == number {
        work.leave_out(task)
    } else {
        work.work(task)
    }
}

/// The work of the first task, by the thread that has asked for all others.
fn work_first<A: Tasks>(work: &A, mut tasks: Vec<A::Task>) -> Result<Vec<A::Task>, AllocError>
    requires short { length tasks.items < 2 }
    requires begins { All A.begins tasks.items }
    ensures { IfOk result (λ done. AllZip A.leads tasks.items done.items) }
{
    let Some(task) = tasks.pop() else {
        return Ok(tasks);
    };
    let mut done = tasks;
    done.push(work.work(task))?;
    Ok(done)
}

/// A thread is asked for each task but the first, from the last on, before any is joined. Where none is made, the
/// task is left out at once: its closure, which comes back, then finds its number in `refused`.
fn work_in<'s, E, A: Tasks + Sync, R: Threads>(
    rt: &R,
    scope: &'s Scope<'s, E>,
    work: &'s A,
    refused: &'s AtomicUsize,
    mut tasks: Vec<A::Task>,
) -> Result<Vec<A::Task>, AllocError>
    requires { All A.begins tasks.items }
    ensures { IfOk result (λ done. AllZip (λ x y. A.leads x y ⊎ A.stays x y) tasks.items done.items) }
{
    if tasks.len() < 2 {
        return work_first(work, tasks);
    }
    let Some(task) = tasks.pop() else {
        unreachable!()
    };
    let number = tasks.len();
    let comes: ComesFrom<A> = ComesFrom {
        task: Snapshot::of(&task),
    };
    let asked = scope.spawn_with(
        comes,
        move || -> A::Task
            requires { A.begins task }
            ensures { A.leads task result ⊎ A.stays task result }
        { work_one(work, refused, number, task) },
    );
    let (mut done, last) = match asked {
        Ok(thread) => {
            let done = work_in(rt, scope, work, refused, tasks)?;
            (done, thread.join(rt))
        }
        Err(not_made) => {
            refused.store(number, Ordering::SeqCst);
            let last = (not_made.value)();
            (work_in(rt, scope, work, refused, tasks)?, last)
        }
    };
    done.push(last)?;
    Ok(done)
}

/// What each of the tasks comes to, in their order. The first is worked by the thread that calls this, each other by a
/// thread of its own, or left out as soon as the system makes none for it.
pub(crate) fn work_each<A: Tasks + Sync, R: Threads + Wait>(
    rt: &R,
    work: &A,
    tasks: Vec<A::Task>,
) -> Result<Vec<A::Task>, AllocError>
    requires { All A.begins tasks.items }
    ensures { IfOk result (λ done. AllZip (λ x y. A.leads x y ⊎ A.stays x y) tasks.items done.items) }
{
    // The first task, whose number is 0, is not asked for.
    let refused = AtomicUsize::new(0);
    let refused = &refused;
    thread::scope(
        thread::scope_env(),
        rt,
        move |scope| -> Result<Vec<A::Task>, AllocError>
            requires { All A.begins tasks.items }
            ensures { IfOk result (λ done. AllZip (λ x y. A.leads x y ⊎ A.stays x y) tasks.items done.items) }
        { work_in(rt, scope, work, refused, tasks) },
    )
}
