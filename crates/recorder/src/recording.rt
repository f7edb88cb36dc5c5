//! Recording by stretches that are drawn.

ghost use Rattle.std.specs.Prelude.{◌≡◌, ◌++◌, ◌∷◌, List, [], None, length, slice_get, IfOk, OnOk};
ghost use Rattle.event_core.specs.World.{world_of};
ghost use Rattle.pick_schedule.specs.declared.stretches.Stretch.{Stretch};
ghost use Rattle.recorder.specs.Draw.{candidates, IsDrawnWhole, IsRandomRun};
ghost use Rattle.recorder.specs.Making.{drawn_list, steps_at, DrawsOn, IsKept, MakesDrawn};

use crate::candidates::candidates;
use crate::draws::Draws;
use crate::stretch::make_stretch;
use crate::{Logs, Recorded, thread_logs};
use event_core::World;
use pick_schedule::Stretch;
use rw_objects::{Machine, ObjectSpace};
use std::alloc::Global;
use std::sync::Wait;
use wasm_types::NoMemory;

/// Which run is drawn of a world.
#[derive(Clone, Copy, Debug, PartialEq, Eq)]
pub struct RandomRun {
    /// The number that draws it.
    pub number: u64,
    /// Whether time-outs of waits are drawn, too.
    pub timeouts: bool,
    /// How many steps a thread makes at most: up to 1,000,000,000; a larger number counts as that.
    pub steps: u32,
}

/// How many steps a thread made; 0 where there is none.
fn steps_of<M: Machine<S>, S: ObjectSpace>(world: &World<M, S>, thread: u32) -> u32
    ensures { result ≡ steps_at M.code (slice_get (world_of world.now).threads thread) }
{
    match world.steps(thread) {
        Some(steps) => steps,
        None => 0,
    }
}

/// Draws a stretch, if some pick can be drawn, and makes it.
fn draw_stretch<M: Machine<S>, S: ObjectSpace>(
    world: &mut World<M, S>,
    logs: &mut Logs,
    draws: &mut Draws,
    draw: RandomRun,
) -> Result<Option<Stretch>, NoMemory>
    requires { length logs.old ≡ length (world_of world.old).threads }
    ensures draws { IfOk result (λ drawn. DrawsOn S.meaning M.code draw.steps draw.timeouts draws.old.exponent draws.old.generator draws.new.generator (world_of world.old) (world_of world.new) (drawn_list drawn) logs.old logs.new) }
    ensures exponent { OnOk result (draws.new.exponent ≡ draws.old.exponent) }
    ensures none { IfOk result (λ drawn. drawn ≡ None → candidates S.meaning M.code draw.steps draw.timeouts (world_of world.new) ≡ []) }
{
    let picks = candidates(world, draw.timeouts, draw.steps);
    let count = picks.len();
    if count == 0 {
        return Ok(None);
    }
    let pick = picks.at(draws.below(count));
    let accesses = draws.accesses();
    let before = steps_of(world, pick.thread);
    make_stretch(world, logs, pick, accesses, draw.steps)?;
    let times = steps_of(world, pick.thread).saturating_sub(before);
    Ok(Some(Stretch { pick, times }))
}

/// Puts a stretch behind others, where they are to be kept.
fn keep(kept: &mut Vec<Stretch>, keeps: bool, stretch: Stretch) -> Result<(), NoMemory>
    ensures { OnOk result ((stretches : List Stretch) → IsKept keeps kept.old.items stretches → IsKept keeps kept.new.items (stretches ++ stretch ∷ [])) }
{
    if keeps {
        kept.push(stretch)?;
    }
    Ok(())
}

/// Makes the stretches that are drawn, until no pick can be drawn. Answers them, where they are to be kept.
fn make_drawn<M: Machine<S>, S: ObjectSpace, R: Wait>(
    rt: &R,
    alloc: Global,
    world: &mut World<M, S>,
    logs: &mut Logs,
    draw: RandomRun,
    keeps: bool,
) -> Result<Vec<Stretch>, NoMemory>
    requires { length logs.old ≡ length (world_of world.old).threads }
    ensures { IfOk result (λ kept. (stretches : List Stretch) × IsKept keeps kept.items stretches × MakesDrawn S.meaning M.code draw.steps draw.number draw.timeouts (world_of world.old) (world_of world.new) stretches logs.old logs.new) }
{
    let mut draws = Draws::new(draw.number);
    let mut kept = Vec::new(alloc);
    for _ in rt.forever() {
        let Some(stretch) = draw_stretch(world, logs, &mut draws, draw)? else {
            return Ok(kept);
        };
        keep(&mut kept, keeps, stretch)?;
    }
    unreachable!()
}

/// The stretches of the run that a number draws, as `record_random` makes it: each of their picks is taken in turn.
pub fn drawn_stretches<M: Machine<S> + Drop, S: ObjectSpace + Drop, R: Wait>(
    rt: &R,
    alloc: Global,
    mut world: World<M, S>,
    draw: RandomRun,
) -> Result<Vec<Stretch>, NoMemory>
    ensures { IfOk result (λ stretches. IsDrawnWhole S.meaning M.code draw.steps draw.number draw.timeouts (world_of world) stretches.items) }
{
    let mut logs = Logs::new(alloc, world.count())?;
    make_drawn(rt, alloc, &mut world, &mut logs, draw, true)
}

/// Records the run that a number draws, until no thread that made fewer than `draw.steps` steps has a pick that can be
/// drawn. A run is made of stretches: the number's generator picks one of the picks that can be made, each as likely,
/// and how many accesses it may make, and the pick is made again and again up to that many accesses, or until it cannot
/// be made. How long stretches are on the average is drawn once for a run, as 1, 2, 4, .. or 64 accesses: so threads
/// change places often in some runs and seldom in others (compare CHESS, Musuvathi and Qadeer 2007, and PCT, Burckhardt
/// and others 2010). The same number gives the same run of the same world.
pub fn record_random<M: Machine<S> + Drop, S: ObjectSpace + Drop, R: Wait>(
    rt: &R,
    alloc: Global,
    mut world: World<M, S>,
    draw: RandomRun,
) -> Result<Recorded, NoMemory>
    ensures { IfOk result (IsRandomRun S.meaning M.code draw.steps draw.number draw.timeouts (world_of world)) }
{
    let mut logs = Logs::new(alloc, world.count())?;
    make_drawn(rt, alloc, &mut world, &mut logs, draw, false)?;
    let threads = thread_logs(alloc, &world, logs.into_lists())?;
    let end = world.end(alloc)?;
    Ok(Recorded::new(threads, end, 0))
}
