//! Tests of worlds behind steps.

ghost use Rattle.std.specs.Prelude.{◌≡◌, ℕ, Option};
ghost use Rattle.event_core.specs.World.{WorldAt, world_of};

use event_core::World;
use rw_objects::{Machine, ObjectSpace};

/// A test of the world behind a step of a thread.
pub trait Test<M: Machine<S>, S: ObjectSpace> {
    /// Which of its parts holds first behind a step of this thread that led to this world.
    ghost holds: { Self → WorldAt M.State S.Value S.Fixed → ℕ → Option ℕ };

    /// Tests the world behind a step of a thread.
    fn test(&self, world: &World<M, S>, thread: u32) -> Option<usize>
        ensures { result ≡ holds self.now (world_of world.now) thread };
}
