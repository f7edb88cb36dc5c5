//! Turns of one thread up to a test.

ghost use Rattle.std.specs.Prelude.{◌≡◌};
ghost use Rattle.event_core.specs.World.{world_of};
ghost use Rattle.replay_session.specs.Until.{UntilCeases};
ghost use Rattle.replay_session.specs.Ways.{ThreadLeads};

use crate::gone::{Ceased, Gone};
use crate::test::Test;
use crate::threads::turn_once;
use replay_gate::{OpenWorld, ReadLog, Replay};
use rw_objects::{Machine, ObjectSpace};
use std::alloc::Global;

/// Takes turns of a thread, one behind the other, until the test holds behind a step, or a turn makes no step.
pub(crate) fn go_until<
    M: Machine<S>,
    S: ObjectSpace,
    L: ReadLog,
    O: OpenWorld<M, S>,
    T: Test<M, S>,
>(alloc: Global, replay: &mut Replay<M, S, L, O>, thread: u32, test: &T) -> Gone
    ensures log { replay.new.log ≡ replay.old.log }
    ensures opens { replay.new.opens ≡ replay.old.opens }
    ensures leads { ThreadLeads S.meaning M.code (L.log replay.old.log) thread result.steps (world_of replay.old.world) (world_of replay.new.world) }
    ensures ceased { UntilCeases S.meaning M.code (L.log replay.old.log) (T.holds test.now) thread result.steps (world_of replay.old.world) (world_of replay.new.world) result.ceased }
{
    let mut reader = replay.reader();
    let mut made: u64 = 0;
    loop {
        match turn_once(alloc, replay, &mut reader, thread) {
            Ceased::All => made += 1,
            ceased => {
                return Gone {
                    steps: made,
                    ceased,
                };
            }
        }
        if test.test(replay.world(), thread).is_some() {
            return Gone {
                steps: made,
                ceased: Ceased::All,
            };
        }
    }
}
