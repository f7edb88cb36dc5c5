//! Recording of what threads still have to do, in rounds.

ghost use Rattle.std.specs.Prelude.{◌≡◌, ◌||◌, false, IfOk, OnOk, length};
ghost use Rattle.event_core.specs.World.{world_of};
ghost use Rattle.event_core.specs.declared.pick.Input.TheVariants.{Go};
ghost use Rattle.replay_laws.specs.Turns.{pick_of};
ghost use Rattle.recorder.specs.Picks.{is_taken};
ghost use Rattle.recorder.specs.Rounds.{GoesBy, NoneGoes, IsDone};

use crate::logs::Logs;
use crate::recorded::Recorded;
use crate::schedule_recording::{thread_logs, try_pick};
use event_core::{Input, Pick, World};
use log_pieces::PackedEntries;
use rw_objects::{Machine, ObjectSpace};
use std::alloc::Global;
use std::sync::Wait;
use wasm_types::NoMemory;

fn either(a: bool, b: bool) -> bool
    ensures { result ≡ (a || b) }
{
    a || b
}

/// Makes a thread's step, if it can go on and made fewer than `steps` steps. Answers whether it did.
fn go<M: Machine<S>, S: ObjectSpace>(
    world: &mut World<M, S>,
    logs: &mut Logs,
    thread: u32,
    steps: u32,
) -> Result<bool, NoMemory>
    requires lists { length logs.old ≡ length (world_of world.old).threads }
    ensures goes { OnOk result (GoesBy S.meaning M.code steps (world_of world.old) (world_of world.new) logs.old logs.new) }
    ensures made { IfOk result (λ made. made ≡ is_taken S.meaning M.code steps (world_of world.old) (pick_of thread Go)) }
    ensures stays { IfOk result (λ made. made ≡ false → world_of world.new ≡ world_of world.old) }
{
    let pick = Pick {
        thread,
        input: Input::Go,
    };
    let made = try_pick(world, logs, pick, steps)?;
    Ok(made)
}

/// One step of each thread that can go on and made fewer than `steps` steps. Answers whether there was one.
fn round<M: Machine<S>, S: ObjectSpace>(
    world: &mut World<M, S>,
    logs: &mut Logs,
    steps: u32,
) -> Result<bool, NoMemory>
    requires lists { length logs.old ≡ length (world_of world.old).threads }
    ensures goes { OnOk result (GoesBy S.meaning M.code steps (world_of world.old) (world_of world.new) logs.old logs.new) }
    ensures none { IfOk result (λ made. made ≡ false → NoneGoes S.meaning M.code steps (world_of world.new)) }
{
    let mut made = false;
    let count = world.count() as u32;
    for thread in 0..count {
        let went = go(world, logs, thread, steps)?;
        made = either(made, went);
    }
    Ok(made)
}

/// Makes steps of all threads that made fewer than `steps` steps, in rounds, until none can go on.
fn finish<M: Machine<S>, S: ObjectSpace, R: Wait>(
    rt: &R,
    world: &mut World<M, S>,
    logs: &mut Logs,
    steps: u32,
) -> Result<(), NoMemory>
    requires lists { length logs.old ≡ length (world_of world.old).threads }
    ensures goes { OnOk result (GoesBy S.meaning M.code steps (world_of world.old) (world_of world.new) logs.old logs.new) }
    ensures none { OnOk result (NoneGoes S.meaning M.code steps (world_of world.new)) }
{
    for _ in rt.forever() {
        if !round(world, logs, steps)? {
            return Ok(());
        }
    }
    unreachable!()
}

/// Records what threads that logged these entries, by thread, still have to do: steps of all that made fewer than
/// `steps` steps, in rounds, until none can go on. No wait times out.
pub fn record_rest<M: Machine<S> + Drop, S: ObjectSpace + Drop, R: Wait>(
    rt: &R,
    alloc: Global,
    mut world: World<M, S>,
    entries: Vec<PackedEntries>,
    steps: u32,
) -> Result<Recorded, NoMemory>
    requires { length entries.items ≡ length (world_of world).threads }
    ensures { IfOk result (IsDone S.meaning M.code steps (world_of world) entries.items) }
{
    let mut logs = Logs::of(entries);
    finish(rt, &mut world, &mut logs, steps)?;
    let threads = thread_logs(alloc, &world, logs.into_lists())?;
    let end = world.end(alloc)?;
    Ok(Recorded::new(threads, end, 0))
}
