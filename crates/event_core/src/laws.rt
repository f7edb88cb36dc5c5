//! Laws of runs.

ghost use Rattle.event_core.specs.Run.{PlacesCountEntries};
ghost use Rattle.event_core.specs.ThreadRun.{ThreadsRunAlone};

use rw_objects::{EntryLog, Machine, ObjectSpace};

/// Where a run from an opening world leads, each thread has made as many events as it logged entries.
pub fn places_count_entries<M: Machine<S>, S: ObjectSpace>()
    ensures { PlacesCountEntries S.meaning M.code }
{}

/// The steps that a thread of any world makes over its memory, as if there were no other thread, and no more than a
/// thread may make, are a run of that world, whose entries the log takes one behind the other.
pub fn threads_run_alone<M: Machine<S>, S: ObjectSpace, L: EntryLog>()
    ensures { ThreadsRunAlone S.meaning M.code L.add }
{}
