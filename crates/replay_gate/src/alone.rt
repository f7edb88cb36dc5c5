//! Local steps of one thread.

ghost use Rattle.std.specs.Prelude.{◌≡◌, ◌≤◌, slice_get};
ghost use Rattle.event_core.specs.World.{world_of};
ghost use Rattle.replay_gate.specs.Alone.{GoesAlone};
ghost use Rattle.replay_gate.specs.Leads.{Leads};
ghost use Rattle.replay_gate.specs.Local.{steps_left_of};

use crate::read_log::ReadLog;
use event_core::World;
use rw_objects::{Entry, EntryLog, Machine, ObjectSpace, Versioned};
use wasm_types::NoMemory;

/// Takes every entry and keeps none, or takes none: a thread that is run with a log that takes none makes no access.
#[derive(Clone, Copy, Debug)]
pub(crate) struct AllOrNone {
    all: bool,
}

impl EntryLog for AllOrNone {
    ghost use Rattle.std.specs.Prelude.{cond, Some, None};

    type Seen = bool;

    ghost seen = { λ log. log.all };

    ghost add = { λ seen entry. cond seen (Some seen) None };

    ghost has_room = { λ log. Unit {0} };

    #[inline(always)]
    fn room(&mut self) -> Result<(), NoMemory> {
        Ok(())
    }

    #[inline(always)]
    fn takes<S: ObjectSpace>(&mut self, memory: &Versioned<S>, op: &S::Op) -> bool {
        self.all
    }

    #[inline(always)]
    fn push(&mut self, entry: &Entry) {}
}

/// Makes local steps of a thread, at most `most`, of those that its logged end has left. There may be fewer than come.
/// Answers how many.
pub(crate) fn run_local<M: Machine<S>, S: ObjectSpace, L: ReadLog>(
    world: &mut World<M, S>,
    log: &L,
    thread: u32,
    most: u32,
) -> u32
    requires { most ≤ steps_left_of M.code ((L.log log.now).end thread) (slice_get (world_of world.old).threads thread) }
    ensures few { result ≤ most }
    ensures goes { GoesAlone M.code thread result (world_of world.old) (world_of world.new) }
    ensures leads { Leads S.meaning M.code (L.log log.now) (world_of world.old) (world_of world.new) }
{
    let mut none = AllOrNone { all: false };
    let (made, _) = world.run(thread, &mut none, most);
    made
}
