//! How a thread stands.

ghost use Rattle.std.specs.Prelude.{◌≡◌, option_map, slice_get};
ghost use Rattle.event_core.specs.World.{world_of};
ghost use Rattle.debug_views.specs.Threads.{view_of_thread};

use event_core::World;
use rw_objects::{Machine, ObjectSpace};
use wasm_types::Outcome;

/// How a thread stands: how many steps it made, how many of them were events, and its outcome.
#[derive(Clone, Copy, Debug, PartialEq, Eq)]
pub struct ThreadView {
    pub steps: u32,
    pub places: u32,
    pub outcome: Outcome,
}

/// How a thread of a world stands; None where the world has no thread of that number.
pub fn thread_view<M: Machine<S>, S: ObjectSpace>(
    world: &World<M, S>,
    thread: u32,
) -> Option<ThreadView>
    ensures { result ≡ option_map (view_of_thread M.code) (slice_get (world_of world.now).threads thread) }
{
    match (
        world.steps(thread),
        world.places(thread),
        world.outcome(thread),
    ) {
        (Some(steps), Some(places), Some(outcome)) => Some(ThreadView {
            steps,
            places,
            outcome,
        }),
        _ => None,
    }
}
