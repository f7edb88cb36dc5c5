//! The steps that all threads of a world made.

ghost use Rattle.std.specs.Prelude.{◌≡◌, ◌≤◌};
ghost use Rattle.event_core.specs.Threads.{all_steps};
ghost use Rattle.event_core.specs.World.{world_of};

use event_core::World;
use rw_objects::{Machine, ObjectSpace};

/// How many steps all threads of a world made together.
pub(crate) fn steps_of_world<M: Machine<S>, S: ObjectSpace>(world: &World<M, S>) -> u64
    ensures steps { result ≡ all_steps M.code (world_of world.now).threads }
    ensures few { result ≤ 16000000000 }
{
    let mut sum: u64 = 0;
    for thread in 0..world.count() {
        match world.steps(thread as u32) {
            None => {}
            Some(steps) => sum += u64::from(steps),
        }
    }
    sum
}
