//! Events of one thread, one behind the other.

ghost use Rattle.std.specs.Prelude.{◌≡◌, ◌≤◌};
ghost use Rattle.event_core.specs.World.{world_of};
ghost use Rattle.replay_session.specs.Events.{events_of_answer, events_on, EventsCease};
ghost use Rattle.replay_session.specs.Ways.{ThreadLeads};

use crate::gone::{Ceased, Gone};
use crate::threads::{go_locally, steps_of};
use replay_gate::{OpenWorld, ReadLog, Replay, Turned};
use rw_objects::{Machine, ObjectSpace};
use std::alloc::Global;

/// How many events a turn made.
fn events_of(turned: Turned) -> u32
    ensures { result ≡ events_of_answer turned }
{
    match turned {
        Turned::Done | Turned::Local => 0,
        Turned::Event => 1,
    }
}

/// Takes turns of a thread, one behind the other, until so many events were made, or a turn makes no step.
pub(crate) fn go_events<M: Machine<S>, S: ObjectSpace, L: ReadLog, O: OpenWorld<M, S>>(
    alloc: Global,
    replay: &mut Replay<M, S, L, O>,
    thread: u32,
    most: u32,
) -> Gone
    ensures log { replay.new.log ≡ replay.old.log }
    ensures opens { replay.new.opens ≡ replay.old.opens }
    ensures few { events_on S.meaning M.code (L.log replay.old.log) thread (world_of replay.old.world) result.steps ≤ most }
    ensures leads { ThreadLeads S.meaning M.code (L.log replay.old.log) thread result.steps (world_of replay.old.world) (world_of replay.new.world) }
    ensures ceased { EventsCease S.meaning M.code (L.log replay.old.log) thread result.steps most (world_of replay.old.world) (world_of replay.new.world) result.ceased }
{
    let mut reader = replay.reader();
    let mut events: u32 = 0;
    let mut made: u64 = 0;
    while events < most {
        made += go_locally(replay, thread, u64::MAX);
        match replay.turn_by(alloc, &mut reader, thread) {
            Err(fault) => {
                return Gone {
                    steps: made,
                    ceased: Ceased::Fault(fault),
                };
            }
            Ok(turned) => {
                if steps_of(turned) == 0 {
                    return Gone {
                        steps: made,
                        ceased: Ceased::Done,
                    };
                }
                made += 1;
                events += events_of(turned);
            }
        }
    }
    Gone {
        steps: made,
        ceased: Ceased::All,
    }
}
