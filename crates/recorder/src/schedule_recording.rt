//! Recording by a schedule.

ghost use Rattle.std.specs.Prelude.{◌≡◌, ℕ, ◌∷◌, [], ◌++◌, Some, ◌+◌, ◌^◌, ◌<◌, ◌≤◌, true, false, IfOk, OnOk, length, map, cond, replicate, slice_get, option_map};
ghost use Rattle.event_core.specs.World.{world_of, world_after};
ghost use Rattle.event_core.specs.Run.{run_end, IsRun};
ghost use Rattle.replay_laws.specs.RunLog.{run_log, end_of_thread};
ghost use Rattle.recorder.specs.Picks.{is_taken, step_taken, picks_taken, picks_passed};
ghost use Rattle.recorder.specs.Recorded.{list_at, IsNoted, OthersStay, AreRecorded};
ghost use Rattle.event_core.specs.ThreadRun.{IsThreadRun};
ghost use Rattle.recorder.specs.ThreadLogAt.{log_of};

use crate::logs::Logs;
use crate::recorded::{Recorded, ThreadLog};
use event_core::{Input, Pick, PickStep, World};
use log_pieces::{End, PackedEntries};
use pick_schedule::{Schedule, Stretch};
use rw_objects::{Machine, ObjectSpace};
use std::alloc::Global;
use wasm_types::NoMemory;

/// Makes the step of a pick, if it is enabled and its thread has made fewer steps, and notes the entry of an event.
/// Answers whether it is made. An entry goes from the event into the log, and by no other value between them.
pub fn try_pick<M: Machine<S>, S: ObjectSpace>(
    world: &mut World<M, S>,
    logs: &mut Logs,
    pick: Pick,
    steps: u32,
) -> Result<bool, NoMemory>
    requires { length logs.old ≡ length (world_of world.old).threads }
    ensures taken { IfOk result (λ taken. taken ≡ is_taken S.meaning M.code steps (world_of world.old) pick) }
    ensures world { OnOk result (world_of world.new ≡ cond (is_taken S.meaning M.code steps (world_of world.old) pick) (world_after S.meaning M.code (world_of world.old) pick) (world_of world.old)) }
    ensures noted { IfOk result (λ taken. taken ≡ true → IsNoted logs.old logs.new pick.thread (step_taken S.meaning M.code steps (world_of world.old) pick)) }
    ensures kept { IfOk result (λ taken. taken ≡ false → logs.new ≡ logs.old) }
{
    if !world.has_steps_left(pick.thread, steps) {
        return Ok(false);
    }
    match world.step_of(pick) {
        PickStep::Refused(_) => Ok(false),
        PickStep::Local => {
            world.local(pick)?;
            Ok(true)
        }
        PickStep::Event(op) => {
            let entry = world.event(pick, op)?;
            logs.push(pick.thread, &entry)?;
            Ok(true)
        }
    }
}

/// Where a thread stands, as an end.
fn end_of<M: Machine<S>, S: ObjectSpace>(world: &World<M, S>, thread: u32) -> Option<End>
    ensures { result ≡ option_map (end_of_thread M.code) (slice_get (world_of world.now).threads thread) }
{
    match (
        world.steps(thread),
        world.places(thread),
        world.outcome(thread),
    ) {
        (Some(steps), Some(places), Some(outcome)) => Some(End {
            steps,
            places,
            outcome,
        }),
        _ => None,
    }
}

/// Each thread's entries with its end.
pub fn thread_logs<M: Machine<S>, S: ObjectSpace>(
    alloc: Global,
    world: &World<M, S>,
    lists: Vec<PackedEntries>,
) -> Result<Vec<ThreadLog>, NoMemory>
    requires { length lists.items ≡ length (world_of world.now).threads }
    ensures entries { IfOk result (λ logs. map (λ l. l.entries) logs.items ≡ lists.items) }
    ensures ends { IfOk result (λ logs. map (λ l. l.end) logs.items ≡ map (end_of_thread M.code) (world_of world.now).threads) }
{
    let mut logs = Vec::new(alloc);
    let mut thread: u32 = 0;
    for entries in lists {
        let Some(end) = end_of(world, thread) else {
            unreachable!()
        };
        logs.push(ThreadLog::new(entries, end))?;
        thread += 1;
    }
    Ok(logs)
}

/// Makes steps of a thread, local ones and accesses, as many as come, but no more than `most`, and puts their entries
/// behind those of the thread. Answers how many.
fn run_thread<M: Machine<S>, S: ObjectSpace>(
    world: &mut World<M, S>,
    logs: &mut Logs,
    thread: u32,
    most: u32,
) -> Result<u32, NoMemory>
    requires { thread < length logs.old }
    ensures ran { IfOk result (λ made. IsThreadRun S.meaning M.code (λ entries entry. Some (entries ++ entry ∷ [])) thread made (world_of world.old) (world_of world.new) (list_at logs.old thread) (list_at logs.new thread)) }
    ensures others { OnOk result (OthersStay thread logs.old logs.new) }
    ensures few { IfOk result (λ made. made ≤ most) }
{
    let mut writer = logs.take_out(thread);
    let (made, end) = world.run(thread, &mut writer, most);
    logs.put_back(thread, writer);
    end?;
    Ok(made)
}

/// Makes steps by a pick that comes so many times, as many as come one behind the other and as the thread has left, and
/// notes their entries. Answers how many. A step that comes alone is left to `try_pick`.
fn run_steps<M: Machine<S>, S: ObjectSpace>(
    world: &mut World<M, S>,
    logs: &mut Logs,
    stretch: Stretch,
    steps: u32,
) -> Result<u32, NoMemory>
    requires { length logs.old ≡ length (world_of world.old).threads }
    ensures recorded { IfOk result (λ made. (passed : ℕ) → AreRecorded S.meaning M.code steps (replicate made stretch.pick) (world_of world.old) (world_of world.new) logs.old logs.new passed passed) }
    ensures few { IfOk result (λ made. made ≤ stretch.times) }
{
    if stretch.times == 1 {
        return Ok(0);
    }
    let thread = stretch.pick.thread;
    let Input::Go = stretch.pick.input else {
        return Ok(0);
    };
    let Some(made) = world.steps(thread) else {
        return Ok(0);
    };
    if steps <= made {
        return Ok(0);
    }
    let most = stretch.times.min(steps - made);
    run_thread(world, logs, thread, most)
}

/// Tries a pick that comes so many times: makes its step and notes it, or passes the pick over each time, since a pick
/// that is passed over changes nothing. Answers how often the pick was tried.
fn try_stretch<M: Machine<S>, S: ObjectSpace>(
    world: &mut World<M, S>,
    logs: &mut Logs,
    passed: &mut u64,
    stretch: Stretch,
    steps: u32,
) -> Result<u32, NoMemory>
    requires some { 0 < stretch.times }
    requires threads { length logs.old ≡ length (world_of world.old).threads }
    requires room { passed.old + stretch.times < 2 ^ 64 }
    ensures recorded { IfOk result (λ tried. AreRecorded S.meaning M.code steps (replicate tried stretch.pick) (world_of world.old) (world_of world.new) logs.old logs.new passed.old passed.new) }
    ensures some { IfOk result (λ tried. 0 < tried) }
    ensures few { IfOk result (λ tried. tried ≤ stretch.times) }
{
    if try_pick(world, logs, stretch.pick, steps)? {
        return Ok(1);
    }
    *passed += stretch.times as u64;
    Ok(stretch.times)
}

/// Tries a pick so many times in a row.
fn record_stretch<M: Machine<S>, S: ObjectSpace>(
    world: &mut World<M, S>,
    logs: &mut Logs,
    passed: &mut u64,
    stretch: Stretch,
    steps: u32,
) -> Result<(), NoMemory>
    requires threads { length logs.old ≡ length (world_of world.old).threads }
    requires room { passed.old + stretch.times < 2 ^ 64 }
    ensures { OnOk result (AreRecorded S.meaning M.code steps (replicate stretch.times stretch.pick) (world_of world.old) (world_of world.new) logs.old logs.new passed.old passed.new) }
{
    let pick = stretch.pick;
    let mut times = stretch.times;
    while times > 0 {
        let made = run_steps(world, logs, Stretch { pick, times }, steps)?;
        times -= made;
        if times > 0 {
            let tried = try_stretch(world, logs, passed, Stretch { pick, times }, steps)?;
            times -= tried;
        }
    }
    Ok(())
}

/// Records the run of those picks that are enabled in turn and whose thread has made fewer than `steps` steps; the
/// others are passed over and counted. `steps` is at most 1,000,000,000; a larger number counts as that.
pub fn record<M: Machine<S> + Drop, S: ObjectSpace + Drop>(
    alloc: Global,
    mut world: World<M, S>,
    picks: &Schedule,
    steps: u32,
) -> Result<Recorded, NoMemory>
    ensures run { OnOk result (IsRun S.meaning M.code (world_of world) (picks_taken S.meaning M.code steps (world_of world) picks.now)) }
    ensures log { IfOk result (λ recorded. log_of recorded.threads ≡ run_log S.meaning M.code (world_of world) (picks_taken S.meaning M.code steps (world_of world) picks.now)) }
    ensures end { IfOk result (λ recorded. recorded.end ≡ run_end S.meaning M.code (world_of world) (picks_taken S.meaning M.code steps (world_of world) picks.now)) }
    ensures passed { IfOk result (λ recorded. recorded.passed ≡ picks_passed S.meaning M.code steps (world_of world) picks.now) }
{
    let mut logs = Logs::new(alloc, world.count())?;
    let mut passed: u64 = 0;
    let stretches = picks.stretches();
    for stretch in stretches {
        record_stretch(&mut world, &mut logs, &mut passed, *stretch, steps)?;
    }
    let threads = thread_logs(alloc, &world, logs.into_lists())?;
    let end = world.end(alloc)?;
    Ok(Recorded::new(threads, end, passed))
}
