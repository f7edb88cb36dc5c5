//! Laws of replays up to a break.

ghost use Rattle.replay_gate.specs.OneStop.{StopsOnce};

use rw_objects::{Machine, ObjectSpace};

/// Where a replay up to a break stops, and how, is told by its log, its start, its order and its breaks, but for want
/// of memory.
pub fn stops_once<M: Machine<S>, S: ObjectSpace>()
    ensures { StopsOnce S.meaning M.code }
{}
