//! The picks that can be drawn.

ghost use Rattle.std.specs.Prelude.{◌≡◌, ◌<◌, ◌≤◌, ◌+◌, ◌++◌, ◌∷◌, [], Some, length, slice_get};
ghost use Rattle.std.specs.List.{filter};
ghost use Rattle.event_core.specs.World.{world_of};
ghost use Rattle.recorder.specs.Picks.{is_taken};
ghost use Rattle.recorder.specs.Draw.{picks_by, candidates};

use event_core::{Input, Pick, PickStep, World};
use rw_objects::{Machine, ObjectSpace};
use std::marker::Model;

/// The most picks of a world: two of each of 16 threads.
const MOST: usize = 32;

/// Picks, which stand in the value and take no memory. Contracts see their list.
#[derive(Drop)]
pub(crate) struct Picks {
    picks: [Pick; MOST],
    len: usize,
}

impl Model for Picks {
    ghost use Rattle.std.specs.Prelude.{◌≡◌, ◌≤◌, List, length, take};
    ghost use Rattle.event_core.specs.declared.pick.Pick.{Pick};

    ghost Value = { List Pick };

    ghost view = { λ p. take p.len p.picks };

    ghost invariant = { λ p. (p.len ≤ 32) × (length p.picks ≡ 32) };
}

impl Picks {
    /// No picks.
    fn new() -> Picks
        ensures { result ≡ [] }
    {
        let none = Pick {
            thread: 0,
            input: Input::Go,
        };
        Picks {
            picks: [none; MOST],
            len: 0,
        }
    }

    /// Puts a pick behind the others.
    fn push(&mut self, pick: Pick)
        requires { length self.old < 32 }
        ensures { self.new ≡ self.old ++ pick ∷ [] }
    {
        self.picks[self.len] = pick;
        self.len += 1;
    }

    /// How many there are, at most 32.
    pub(crate) fn len(&self) -> u32
        ensures { result ≡ length self.now }
    {
        self.len as u32
    }

    /// The pick at an index.
    pub(crate) fn at(&self, index: u32) -> Pick
        requires { index < length self.now }
        ensures { slice_get self.now index ≡ Some result }
    {
        self.picks[index as usize]
    }
}

/// Whether a pick is enabled, and its thread has made fewer than `steps` steps.
fn is_taken<M: Machine<S>, S: ObjectSpace>(world: &World<M, S>, pick: Pick, steps: u32) -> bool
    ensures { result ≡ is_taken S.meaning M.code steps (world_of world.now) pick }
{
    if !world.has_steps_left(pick.thread, steps) {
        return false;
    }
    match world.step_of(pick) {
        PickStep::Refused(_) => false,
        PickStep::Local => true,
        PickStep::Event(_) => true,
    }
}

/// Adds the picks by an input that are taken, thread 0 first.
fn add_taken<M: Machine<S>, S: ObjectSpace>(
    picks: &mut Picks,
    world: &World<M, S>,
    input: Input,
    steps: u32,
)
    requires { length picks.old ≤ 16 }
    ensures picks { picks.new ≡ picks.old ++ filter (is_taken S.meaning M.code steps (world_of world.now)) (picks_by input (length (world_of world.now).threads)) }
    ensures few { length picks.new ≤ length picks.old + 16 }
{
    let count = world.count() as u32;
    for thread in 0..count {
        let pick = Pick { thread, input };
        if is_taken(world, pick, steps) {
            picks.push(pick);
        }
    }
}

/// The picks that can be drawn: those that are taken, first by which threads go on, and then, where time-outs are drawn,
/// those by which they time out.
pub(crate) fn candidates<M: Machine<S>, S: ObjectSpace>(
    world: &World<M, S>,
    timeouts: bool,
    steps: u32,
) -> Picks
    ensures { result ≡ candidates S.meaning M.code steps timeouts (world_of world.now) }
{
    let mut picks = Picks::new();
    add_taken(&mut picks, world, Input::Go, steps);
    if timeouts {
        add_taken(&mut picks, world, Input::TimeOut, steps);
    }
    picks
}
