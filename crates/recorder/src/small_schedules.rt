//! A schedule is made small, as long as its run comes to what is looked for.

ghost use Rattle.std.specs.Prelude.{◌<◌, IfOk, IfSome, IfNone};
ghost use Rattle.pick_schedule.specs.Printing.{AreOfThreads};
ghost use Rattle.recorder.specs.Least.{IsFound, IsLeast, NoneIsLess};

use crate::changed_schedules::{Change, changed, cut_to, prolonged, without};
use pick_schedule::Schedule;
use std::alloc::Global;
use std::sync::Wait;
use wasm_types::NoMemory;

/// What is looked for in the run of a schedule.
pub trait Trial {
    ghost use Rattle.std.specs.Prelude.{List, Bool};
    ghost use Rattle.event_core.specs.declared.pick.Pick.{Pick};

    /// What has to be so of the trial.
    ghost begins: { Self → Type 0 };

    /// The run of these picks comes to what is looked for, or it does not.
    ghost comes: { Self → List Pick → Bool → Type 0 };

    /// Whether the run of a schedule comes to it.
    fn comes(&self, picks: &Schedule) -> Result<bool, NoMemory>
        requires { begins self.now }
        ensures { IfOk result (comes self.now picks.now) };
}

/// The schedule with a change of some stretches, if it has fewer stretches and its run still comes to it.
fn try_change<T: Trial>(
    alloc: Global,
    trial: &T,
    found: &Schedule,
    from: usize,
    end: usize,
    change: Change,
) -> Result<Option<Schedule>, NoMemory>
    requires begins { T.begins trial.now }
    ensures { IfOk result (λ smaller. IfSome smaller (IsFound (T.comes trial.now))) }
{
    let stretches = found.stretches();
    let end = end.min(stretches.len());
    let from = from.min(end);
    let Some(other) = changed(alloc, stretches, from, end, change)? else {
        return Ok(None);
    };
    if other.stretches().len() < stretches.len() && trial.comes(&other)? {
        return Ok(Some(other));
    }
    Ok(None)
}

/// The same, with the first change that serves.
fn try_changes<T: Trial>(
    alloc: Global,
    trial: &T,
    found: &Schedule,
    from: usize,
    end: usize,
) -> Result<Option<Schedule>, NoMemory>
    requires begins { T.begins trial.now }
    ensures { IfOk result (λ smaller. IfSome smaller (IsFound (T.comes trial.now))) }
{
    for change in [Change::TakenOut, Change::Rising, Change::Falling] {
        let smaller = try_change(alloc, trial, found, from, end, change)?;
        if smaller.is_some() {
            return Ok(smaller);
        }
    }
    Ok(None)
}

/// The schedule behind changes of so many stretches each, from its end to its beginning.
fn try_all<T: Trial>(
    alloc: Global,
    trial: &T,
    mut found: Schedule,
    size: usize,
) -> Result<Schedule, NoMemory>
    requires begins { T.begins trial.now }
    requires found { IsFound (T.comes trial.now) found }
    requires some { 0 < size }
    ensures { IfOk result (IsFound (T.comes trial.now)) }
{
    let step = (size / 2).max(1);
    let mut end = found.stretches().len();
    while end > 0 {
        let from = end.saturating_sub(size);
        if let Some(smaller) = try_changes(alloc, trial, &found, from, end)? {
            found = smaller;
        }
        end = end.saturating_sub(step);
    }
    Ok(found)
}

/// The schedule behind changes of many stretches, then of half as many, and so on.
fn try_sizes<T: Trial>(alloc: Global, trial: &T, mut found: Schedule) -> Result<Schedule, NoMemory>
    requires begins { T.begins trial.now }
    requires found { IsFound (T.comes trial.now) found }
    ensures { IfOk result (IsFound (T.comes trial.now)) }
{
    let mut size = found.stretches().len();
    while size > 0 {
        found = try_all(alloc, trial, found, size)?;
        size /= 2;
    }
    Ok(found)
}

/// The schedule with a stretch cut so that its run still comes to it, if it does by a shorter one: by halves, to where
/// one time less was tried.
fn cut_stretch<T: Trial>(
    alloc: Global,
    trial: &T,
    mut found: Schedule,
    at: usize,
) -> Result<Schedule, NoMemory>
    requires begins { T.begins trial.now }
    requires found { IsFound (T.comes trial.now) found }
    ensures { IfOk result (IsFound (T.comes trial.now)) }
{
    let stretches = Vec::from_slice(alloc, found.stretches())?;
    if at >= stretches.len() {
        return Ok(found);
    }
    let mut few = 0;
    let mut enough = stretches[at].times;
    while enough > few && enough - few > 1 {
        let times = few + (enough - few) / 2;
        match cut_to(alloc, &stretches, at, times)? {
            Some(cut) if trial.comes(&cut)? => {
                found = cut;
                enough = times;
            }
            _ => few = times,
        }
    }
    Ok(found)
}

/// The schedule with all stretches cut, the last of them first.
fn cut_all<T: Trial>(alloc: Global, trial: &T, mut found: Schedule) -> Result<Schedule, NoMemory>
    requires begins { T.begins trial.now }
    requires found { IsFound (T.comes trial.now) found }
    ensures { IfOk result (IsFound (T.comes trial.now)) }
{
    let mut at = found.stretches().len();
    while at > 0 {
        at -= 1;
        found = cut_stretch(alloc, trial, found, at)?;
    }
    Ok(found)
}

/// The schedule without one of its stretches, if there is one without which its run still comes to it.
fn one_less<T: Trial>(
    alloc: Global,
    trial: &T,
    found: &Schedule,
) -> Result<Option<Schedule>, NoMemory>
    requires begins { T.begins trial.now }
    requires of_threads { AreOfThreads found.now }
    ensures fewer { IfOk result (λ fewer. IfSome fewer (IsFound (T.comes trial.now))) }
    ensures none { IfOk result (λ fewer. IfNone fewer (NoneIsLess (T.comes trial.now) found.now)) }
{
    let stretches = found.stretches();
    for at in 0..stretches.len() {
        let fewer = without(alloc, stretches, at)?;
        if trial.comes(&fewer)? {
            return Ok(Some(fewer));
        }
    }
    Ok(None)
}

/// The schedule with all stretches once more at its end, if its run still comes to it: so no thread lacks steps where
/// the threads come to go on in another order.
fn try_more<T: Trial>(alloc: Global, trial: &T, found: Schedule) -> Result<Schedule, NoMemory>
    requires begins { T.begins trial.now }
    requires found { IsFound (T.comes trial.now) found }
    ensures { IfOk result (IsFound (T.comes trial.now)) }
{
    let Some(longer) = prolonged(alloc, found.stretches())? else {
        return Ok(found);
    };
    if trial.comes(&longer)? {
        Ok(longer)
    } else {
        Ok(found)
    }
}

/// Makes a schedule small whose run comes to what is looked for: changes of thread are taken out as long as it does
/// (delta debugging, Zeller and Hildebrandt 2002): many stretches at once first, from the end to the beginning, then
/// half as many, down to one; then stretches are cut. Without any one of the stretches that are left it does not.
pub fn shrink<T: Trial, R: Wait>(
    rt: &R,
    alloc: Global,
    trial: &T,
    schedule: Schedule,
) -> Result<Schedule, NoMemory>
    requires begins { T.begins trial.now }
    requires found { IsFound (T.comes trial.now) schedule }
    ensures { IfOk result (IsLeast (T.comes trial.now)) }
{
    let longer = try_more(alloc, trial, schedule)?;
    let mut found = try_sizes(alloc, trial, longer)?;
    for _ in rt.forever() {
        found = cut_all(alloc, trial, found)?;
        match one_less(alloc, trial, &found)? {
            Some(fewer) => found = try_sizes(alloc, trial, fewer)?,
            None => return Ok(found),
        }
    }
    unreachable!()
}
