//! The law of gates and turns.

ghost use Rattle.replay_gate.specs.GateTurns.{GatesTellTurns};

use rw_objects::{Machine, ObjectSpace};

/// What the gate before a thread's next event tells of its turn, where the thread can give the entry: an open gate is
/// that the event is made, if it is enabled; the other gates are refusals.
pub fn gates_tell_turns<M: Machine<S>, S: ObjectSpace>()
    ensures { GatesTellTurns S.meaning M.code }
{}
