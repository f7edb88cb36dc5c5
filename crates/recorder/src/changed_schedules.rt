//! Smaller schedules that are tried in the place of another.

ghost use Rattle.std.specs.Prelude.{◌≡◌, ◌<◌, ◌≤◌, length, IfOk, IfSome};
ghost use Rattle.pick_schedule.specs.Printing.{AreOfThreads};
ghost use Rattle.pick_schedule.specs.Stretches.{picks_in};
ghost use Rattle.recorder.specs.Least.{without};

use pick_schedule::{Schedule, Stretch};
use std::alloc::Global;
use wasm_types::{LAST_THREAD, NoMemory};

/// What becomes of some stretches that follow one another.
#[derive(Clone, Copy, Debug, PartialEq, Eq)]
pub(crate) enum Change {
    /// They are taken out.
    TakenOut,
    /// Those of one thread stand together, by rising threads.
    Rising,
    /// Those of one thread stand together, by falling threads.
    Falling,
}

/// Puts those stretches behind others that are of a thread.
fn put_thread(
    changed: &mut Vec<Stretch>,
    stretches: &[Stretch],
    thread: u32,
) -> Result<(), NoMemory> {
    for stretch in stretches {
        if stretch.pick.thread == thread {
            changed.push(*stretch)?;
        }
    }
    Ok(())
}

/// Puts stretches behind others as a change leaves them.
fn put_changed(
    changed: &mut Vec<Stretch>,
    stretches: &[Stretch],
    change: Change,
) -> Result<(), NoMemory> {
    for nth in 0..=LAST_THREAD {
        match change {
            Change::TakenOut => {}
            Change::Rising => put_thread(changed, stretches, nth)?,
            Change::Falling => put_thread(changed, stretches, LAST_THREAD - nth)?,
        }
    }
    Ok(())
}

/// The schedule in which a change was made of the stretches from one on up to another; None where there is none of so
/// many picks.
pub(crate) fn changed(
    alloc: Global,
    stretches: &[Stretch],
    from: usize,
    end: usize,
    change: Change,
) -> Result<Option<Schedule>, NoMemory>
    requires from { from ≤ end }
    requires end { end ≤ length stretches.now }
    ensures { IfOk result (λ schedule. IfSome schedule AreOfThreads) }
{
    let mut changed = Vec::from_slice(alloc, &stretches[..from])?;
    put_changed(&mut changed, &stretches[from..end], change)?;
    changed.extend_from_slice(&stretches[end..])?;
    Schedule::of_stretches(alloc, &changed)
}

/// The schedule of some stretches, behind which all go on once more, thread by thread; None where there is none of so
/// many picks.
pub(crate) fn prolonged(alloc: Global, stretches: &[Stretch]) -> Result<Option<Schedule>, NoMemory>
    ensures { IfOk result (λ schedule. IfSome schedule AreOfThreads) }
{
    let mut prolonged = Vec::from_slice(alloc, stretches)?;
    put_changed(&mut prolonged, stretches, Change::Rising)?;
    Schedule::of_stretches(alloc, &prolonged)
}

/// The schedule in which a stretch comes so many times; None where there is none of so many picks.
pub(crate) fn cut_to(
    alloc: Global,
    stretches: &[Stretch],
    at: usize,
    times: u32,
) -> Result<Option<Schedule>, NoMemory>
    requires { at < length stretches.now }
    ensures { IfOk result (λ schedule. IfSome schedule AreOfThreads) }
{
    let mut cut = Vec::from_slice(alloc, stretches)?;
    cut[at].times = times;
    Schedule::of_stretches(alloc, &cut)
}

/// The schedule of all stretches but one.
pub(crate) fn without(alloc: Global, stretches: &[Stretch], at: usize) -> Result<Schedule, NoMemory>
    requires few { length (picks_in stretches.now) ≤ 1000000 }
    requires of_threads { AreOfThreads (picks_in stretches.now) }
    requires at { at < length stretches.now }
    ensures picks { IfOk result (λ schedule. schedule ≡ picks_in (without at stretches.now)) }
    ensures of_threads { IfOk result AreOfThreads }
{
    let mut others = Vec::from_slice(alloc, &stretches[..at])?;
    others.extend_from_slice(&stretches[at + 1..])?;
    match Schedule::of_stretches(alloc, &others)? {
        Some(schedule) => Ok(schedule),
        None => unreachable!(),
    }
}
