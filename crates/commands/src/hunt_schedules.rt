//! Schedules of runs that are caught, and how they are made small.

ghost use Rattle.std.specs.Prelude.{◌≡◌, true, IfOk, IfSome, IfNone};
ghost use Rattle.pick_schedule.specs.Printing.{AreOfThreads};
ghost use Rattle.thread_plan.specs.Plans.{IsPlanOf};
ghost use Rattle.commands.specs.Hunts.{Comes, HasNoSchedule, IsFoundSchedule, leaves_running, rests};

use crate::hunt_answers::judge;
use crate::hunt_surveys::DrawnRuns;
use crate::made_runs::MadeRuns;
use log::Log;
use pick_schedule::Schedule;
use std::sync::Wait;
use wasm_record::{Trial, shrink};
use wasm_types::{NoMemory, Outcome};

/// Whether a thread could still go on at the end.
fn leaves_running(outcomes: &[Outcome]) -> bool
    ensures { result ≡ leaves_running outcomes.now }
{
    outcomes
        .iter()
        .any(|outcome| matches!(outcome, Outcome::Running))
}

/// Whether no thread could still go on at the end, if none may.
fn rests(may_leave: bool, outcomes: &[Outcome]) -> bool
    ensures { result ≡ rests may_leave outcomes.now }
{
    may_leave || !leaves_running(outcomes)
}

/// The runs by schedules of a program.
#[derive(Drop)]
struct SmallRuns<'a, R, L> {
    runs: DrawnRuns<'a, R>,
    made: &'a MadeRuns<'a, L>,
    /// Whether they may leave a thread that could still go on.
    may_leave: bool,
}

impl<'a, R: Wait, L: Log> Trial for SmallRuns<'a, R, L> {
    ghost use Rattle.thread_plan.specs.Plans.{IsPlanOf};
    ghost use Rattle.commands.specs.Hunts.{Tries};

    ghost begins = { λ t. IsPlanOf t.runs.program.now.valid t.runs.program.now.plan };

    ghost comes = { λ t picks caught. Tries t.runs.program.now.valid t.runs.program.now.plan t.runs.request.now t.may_leave picks caught };

    fn comes(&self, picks: &Schedule) -> Result<bool, NoMemory> {
        let recording = self.runs.recording_by(picks, 0)?;
        self.made.add_trial();
        if !rests(self.may_leave, recording.recorded().end().outcomes()) {
            return Ok(false);
        }
        judge(self.runs.alloc, self.runs.request, &recording)
    }
}

/// The schedule of the run of a number that is caught, made small where that is wanted; None where it has none.
pub(crate) fn found_schedule<R: Wait, L: Log>(
    runs: &DrawnRuns<'_, R>,
    made: &MadeRuns<'_, L>,
    number: u64,
) -> Result<Option<Schedule>, NoMemory>
    requires suits { IsPlanOf runs.now.program.now.valid runs.now.program.now.plan }
    requires caught { Comes runs.now.program.now.valid runs.now.program.now.plan runs.now.request.now number true }
    ensures found { IfOk result (λ picks. IfSome picks (IsFoundSchedule runs.now.program.now.valid runs.now.program.now.plan runs.now.request.now runs.now.request.now.shrinks number)) }
    ensures of_threads { IfOk result (λ picks. IfSome picks AreOfThreads) }
    ensures none { IfOk result (λ picks. IfNone picks (HasNoSchedule runs.now.program.now.valid runs.now.program.now.plan runs.now.request.now number)) }
{
    let Some(drawn) = runs.schedule(number)? else {
        return Ok(None);
    };
    if !runs.request.shrinks {
        return Ok(Some(drawn));
    }
    let recording = runs.recording(number)?;
    let trial = SmallRuns {
        runs: DrawnRuns {
            rt: runs.rt,
            alloc: runs.alloc,
            program: runs.program,
            request: runs.request,
        },
        made,
        may_leave: leaves_running(recording.recorded().end().outcomes()),
    };
    let small = shrink(runs.rt, runs.alloc, &trial, drawn)?;
    Ok(Some(small))
}
