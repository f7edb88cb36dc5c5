//! A module and a plan, as what opens their world.

ghost use Rattle.std.specs.Prelude.{◌≡◌};

use event_core::World;
use replay_gate::OpenWorld;
use std::alloc::Global;
use wasm_types::{NoMemory, Profile};
use wasm_world::{Plan, SharedSpace, ThreadState, Valid, open_world};

/// A module, a plan of it, and the profile of their runs.
#[derive(Clone, Copy)]
pub struct Opener<'a> {
    pub(crate) valid: &'a Valid,
    pub(crate) plan: &'a Plan,
    pub(crate) profile: Profile,
}

impl<'a> Opener<'a> {
    /// The profile of the runs.
    pub fn profile(&self) -> Profile
        ensures { result ≡ self.now.profile }
    {
        self.profile
    }
}

impl<'a> OpenWorld<ThreadState<'a>, SharedSpace> for Opener<'a> {
    ghost use Rattle.wasm_replay.specs.Replays.{opened_world, Suits};
    ghost use Rattle.wasm_replay.specs.Opens.{opens};

    ghost opened = { λ o. opened_world o.valid.now o.plan.now o.profile };

    ghost suits = { λ o. Suits o.valid.now o.plan.now o.profile };

    fn open(&self, alloc: Global) -> Result<World<ThreadState<'a>, SharedSpace>, NoMemory> {
        open_world(alloc, self.valid, self.plan, self.profile)
    }

    ghost opening = { λ o suits. opens o.valid.now o.plan.now o.profile suits };
}
