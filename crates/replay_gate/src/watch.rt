//! Who watches a replay.

ghost use Rattle.std.specs.Prelude.{◌≡◌, ℕ, List, []};
ghost use Rattle.event_core.specs.World.{WorldAt, world_of};
ghost use Rattle.replay_gate.specs.Notes.{HasNoted};

use event_core::World;
use rw_objects::{Machine, ObjectSpace};
use std::alloc::Global;

/// Who watches a replay and makes a note of each event. What is noted of an event is told by what was asked for, the
/// world before the event, its thread, and the world behind it. Want of memory for a note stops no replay: `whole`
/// holds where all notes could be made.
pub trait Watch<M: Machine<S>, S: ObjectSpace> {
    /// What contracts see of what was asked for.
    type Asked;

    ghost asked: { Self → Self.Asked };

    ghost note: { Self.Asked → WorldAt M.State S.Value S.Fixed → ℕ → WorldAt M.State S.Value S.Fixed → List ℕ };

    ghost notes: { Self → List ℕ };

    ghost whole: { Self → Type 0 };

    /// It looked at this thread in this world last.
    ghost looked: { Self → WorldAt M.State S.Value S.Fixed → ℕ → Type 0 };

    /// Looks at a thread before its turn.
    fn look(&mut self, world: &World<M, S>, thread: u32)
        ensures looked { looked self.new (world_of world.now) thread }
        ensures noted { HasNoted asked whole notes self.old self.new [] };

    /// Notes the event of the thread that it looked at, behind it.
    fn take_note(&mut self, world: &World<M, S>, thread: u32)
        ensures { (w : WorldAt M.State S.Value S.Fixed) → looked self.old w thread → HasNoted asked whole notes self.old self.new (note (asked self.old) w thread (world_of world.now)) };
}

/// Nobody: no event is noted.
#[derive(Clone, Copy, Debug)]
pub struct Nobody;

impl<M: Machine<S>, S: ObjectSpace> Watch<M, S> for Nobody {
    type Asked = ();

    ghost asked = { λ n. tt };

    ghost note = { λ asked w t v. [] };

    ghost notes = { λ n. [] };

    ghost whole = { λ n. Unit {0} };

    ghost looked = { λ n w t. Unit {0} };

    #[inline(always)]
    fn look(&mut self, world: &World<M, S>, thread: u32) {}

    #[inline(always)]
    fn take_note(&mut self, world: &World<M, S>, thread: u32) {}
}
