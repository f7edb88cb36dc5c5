//! Laws of recordings.

ghost use Rattle.wasm_record.specs.Recordings.{DrawnRunsAreOne, DrawnSchedulesRecord};

/// A number draws one run of a module and a plan: what is recorded of it has one log and one end.
pub fn drawn_runs_are_one()
    ensures { DrawnRunsAreOne }
{}

/// What is recorded of the run that a number draws is what is recorded by the schedule that the number draws.
pub fn drawn_schedules_record()
    ensures { DrawnSchedulesRecord }
{}
