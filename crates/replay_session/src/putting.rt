//! Ways that go on by what a replay did.

ghost use Rattle.std.specs.Prelude.{◌≡◌, ◌-◌, ◌<◌, ℕ, [], vec_len, vec_capacity};
ghost use Rattle.event_core.specs.Threads.{all_steps};
ghost use Rattle.event_core.specs.World.{WorldAt, world_of};
ghost use Rattle.replay_session.specs.Legs.{with_thread, with_rounds};
ghost use Rattle.replay_session.specs.Ways.{ThreadLeads, TurnsLead, WayLeads};

use crate::legs::{Leg, put_rounds, put_thread};
use crate::sums::steps_of_world;
use replay_gate::{OpenWorld, ReadLog, Replay};
use rw_objects::{Machine, ObjectSpace};

/// Puts steps of a thread, by which a replay has come to its world, behind a way that has room and leads to where they
/// began.
pub(crate) fn put_steps<M: Machine<S>, S: ObjectSpace, L: ReadLog, O: OpenWorld<M, S>>(
    legs: &mut Vec<Leg>,
    replay: &Replay<M, S, L, O>,
    thread: u32,
    steps: u64,
)
    requires room { vec_len legs.old < vec_capacity legs.old }
    requires leads { ∥ ((w : WorldAt M.State S.Value S.Fixed) × WayLeads S.meaning M.code (L.log replay.now.log) legs.old.items (O.opened replay.now.opens) w × ThreadLeads S.meaning M.code (L.log replay.now.log) thread steps w (world_of replay.now.world)) ∥₁ }
    ensures legs { legs.new.items ≡ with_thread legs.old.items thread steps }
    ensures leads { ∥ WayLeads S.meaning M.code (L.log replay.now.log) legs.new.items (O.opened replay.now.opens) (world_of replay.now.world) ∥₁ }
{
    put_thread(legs, thread, steps);
}

/// Puts turns in rounds, by which a replay has come to its world, behind a way that has room and leads to where they
/// began, where all threads had made so many steps.
pub(crate) fn put_turns<M: Machine<S>, S: ObjectSpace, L: ReadLog, O: OpenWorld<M, S>>(
    legs: &mut Vec<Leg>,
    replay: &Replay<M, S, L, O>,
    before: u64,
)
    requires room { vec_len legs.old < vec_capacity legs.old }
    requires leads { ∥ ((w : WorldAt M.State S.Value S.Fixed) × WayLeads S.meaning M.code (L.log replay.now.log) legs.old.items (O.opened replay.now.opens) w × (before ≡ all_steps M.code w.threads) × ((n : ℕ) × TurnsLead S.meaning M.code (L.log replay.now.log) n w (world_of replay.now.world))) ∥₁ }
    ensures legs { legs.new.items ≡ with_rounds legs.old.items (all_steps M.code (world_of replay.now.world).threads - before) }
    ensures leads { ∥ WayLeads S.meaning M.code (L.log replay.now.log) legs.new.items (O.opened replay.now.opens) (world_of replay.now.world) ∥₁ }
{
    put_rounds(legs, steps_of_world(replay.world()) - before);
}
