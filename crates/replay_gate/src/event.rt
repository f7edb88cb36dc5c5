//! The event that the log has next for a thread.

ghost use Rattle.std.specs.Prelude.{◌≡◌, IfSome};
ghost use Rattle.event_core.specs.World.{world_of};
ghost use Rattle.replay_laws.specs.Turns.{input_for};
ghost use Rattle.replay_gate.specs.Leads.{IsEventOf};

use crate::gates::{are_of, is_open};
use event_core::{Input, Pick, PickStep, World};
use rw_objects::{Entry, Kind, Machine, ObjectSpace};
use std::alloc::Global;

/// How a thread is picked that is to log this kind.
pub(crate) fn input_for(kind: Kind) -> Input
    ensures { result ≡ input_for kind }
{
    match kind {
        Kind::Access | Kind::Woken => Input::Go,
        Kind::TimedOut => Input::TimeOut,
    }
}

/// The operation that a pick makes, where its entry would be the item.
pub(crate) fn event_of<M: Machine<S>, S: ObjectSpace>(
    alloc: Global,
    world: &World<M, S>,
    pick: Pick,
    item: &Entry,
) -> Option<S::Op>
    ensures { IfSome result (λ op. IsEventOf S.meaning M.code (world_of world.now) pick item.now op) }
{
    match world.step_of(pick) {
        PickStep::Event(op) => {
            if S::kind(&op) == item.kind
                && is_open(item.found.as_slice(), world.versions())
                && are_of(S::touches(alloc, &op).as_slice(), item.found.as_slice())
            {
                Some(op)
            } else {
                None
            }
        }
        PickStep::Local | PickStep::Refused(_) => None,
    }
}
