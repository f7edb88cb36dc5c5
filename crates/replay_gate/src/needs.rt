//! What a turn of a replay needs of the log's entries.

ghost use Rattle.std.specs.Prelude.{◌≡◌, cond};
ghost use Rattle.event_core.specs.World.{world_of};
ghost use Rattle.replay_laws.specs.Turns.{turn_of, same_end};
ghost use Rattle.replay_laws.specs.declared.turn.Turn.TheVariants as turn;
ghost use Rattle.replay_laws.specs.declared.turn.Refusal.TheVariants as refusal;
ghost use Rattle.replay_gate.specs.Needs.{needs_by_next, turn_by_needs, IsOfFew};

use crate::read_log::ReadLog;
use event_core::World;
use log_pieces::{End, Flat};
use replay_laws::{Refusal, Turn};
use rw_objects::{Machine, Next, ObjectSpace};

/// What a turn of a thread needs of the log's entries.
#[derive(Clone, Copy)]
pub(crate) enum EntryNeeds<O: Copy> {
    /// None: the turn is told without.
    Nothing(Turn),
    /// The entry at this place, of a thread that does this next.
    Entry { next: Next<O>, place: u32 },
}

/// What a turn needs where steps are left.
fn needs_by_next<O: Copy>(place: u32, places: u32, next: Next<O>) -> EntryNeeds<O>
    ensures { result ≡ needs_by_next place places next }
{
    match next {
        Next::Local => EntryNeeds::Nothing(Turn::Local),
        Next::Halted(_) => EntryNeeds::Nothing(Turn::Refused(Refusal::Diverged)),
        _ => {
            if place < places {
                EntryNeeds::Entry { next, place }
            } else {
                EntryNeeds::Nothing(Turn::Refused(Refusal::Diverged))
            }
        }
    }
}

/// What a turn of a thread does that stands so and has no steps left.
fn turn_at_end(end: End, stands: End) -> Turn
    ensures { result ≡ cond (same_end end stands) turn.Done (turn.Refused refusal.Diverged) }
{
    if end == stands {
        Turn::Done
    } else {
        Turn::Refused(Refusal::Diverged)
    }
}

/// What a turn of a thread needs. It is a thread that there is, where it needs an entry.
pub(crate) fn needs_of<M: Machine<S>, S: ObjectSpace, L: ReadLog>(
    world: &World<M, S>,
    log: &L,
    thread: u32,
) -> EntryNeeds<S::Op>
    ensures turn { turn_by_needs S.meaning M.code (L.log log.now) (world_of world.now) thread result ≡ turn_of S.meaning M.code (L.log log.now) (world_of world.now) thread }
    ensures few { IsOfFew thread result }
{
    let Some(steps) = world.steps(thread) else {
        return EntryNeeds::Nothing(Turn::Done);
    };
    let Some(places) = world.places(thread) else {
        return EntryNeeds::Nothing(Turn::Done);
    };
    match log.end(thread) {
        None => EntryNeeds::Nothing(Turn::Refused(Refusal::Missing)),
        Some(Flat::Clash) => EntryNeeds::Nothing(Turn::Refused(Refusal::Clash)),
        Some(Flat::Known(end)) => {
            if steps < end.steps {
                let Some(next) = world.next(thread) else {
                    return EntryNeeds::Nothing(Turn::Done);
                };
                needs_by_next(places, end.places, next)
            } else {
                let Some(outcome) = world.outcome(thread) else {
                    return EntryNeeds::Nothing(Turn::Done);
                };
                EntryNeeds::Nothing(turn_at_end(
                    end,
                    End {
                        steps,
                        places,
                        outcome,
                    },
                ))
            }
        }
    }
}
