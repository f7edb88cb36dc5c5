//! What is found of the runs that numbers draw.

ghost use Rattle.std.specs.Prelude.{◌≡◌, ◌++◌, IfOk, IfSome, IfNone, OnOk, codes, flat_map, string_bytes};
ghost use Rattle.wasm_types.specs.Text.{outcome_text};
ghost use Rattle.thread_plan.specs.Plans.{IsPlanOf};
ghost use Rattle.wasm_types.specs.declared.key.Profile.TheVariants.{Two};
ghost use Rattle.wasm_record.specs.Recordings.{IsKeyOf};
ghost use Rattle.pick_schedule.specs.Printing.{AreOfThreads};
ghost use Rattle.commands.specs.Hunts.{Comes, HasNoSchedule, IsRunOfNumber, IsRunOfPicks, IsScheduleOfNumber, outcomes_text, run_line};

use crate::hunt_answers::judge;
use crate::made_runs::MadeRuns;
use crate::program::Program;
use command_words::HuntRequest;
use log::Log;
use pick_schedule::Schedule;
use std::alloc::Global;
use std::fmt::Write;
use std::sync::Wait;
use wasm_record::{RandomRun, Recording, Survey, drawn_schedule, record_drawn, record_schedule};
use wasm_types::{NoMemory, Outcome};

/// The runs that numbers draw of a program.
#[derive(Drop)]
pub(crate) struct DrawnRuns<'a, R> {
    pub(crate) rt: &'a R,
    pub(crate) alloc: Global,
    pub(crate) program: &'a Program,
    pub(crate) request: &'a HuntRequest<'a>,
}

impl<'a, R: Wait> DrawnRuns<'a, R> {
    /// The run of a number.
    pub(crate) fn recording(&self, number: u64) -> Result<Recording, NoMemory>
        requires { IsPlanOf self.now.program.now.valid self.now.program.now.plan }
        ensures key { IfOk result (λ r. IsKeyOf self.now.program.now.valid self.now.program.now.plan number (Two self.now.request.now.block) r.key) }
        ensures is_run { IfOk result (λ r. IsRunOfNumber self.now.program.now.valid self.now.program.now.plan self.now.request.now number r.recorded) }
    {
        let run = RandomRun {
            number,
            timeouts: self.request.times_out,
            steps: self.request.steps,
        };
        let Program { valid, plan } = self.program;
        record_drawn(self.rt, self.alloc, valid, plan, self.request.block, run)
    }

    /// The schedule of the run of a number, if there is a schedule of so many picks.
    pub(crate) fn schedule(&self, number: u64) -> Result<Option<Schedule>, NoMemory>
        requires { IsPlanOf self.now.program.now.valid self.now.program.now.plan }
        ensures drawn { IfOk result (λ schedule. IfSome schedule (IsScheduleOfNumber self.now.program.now.valid self.now.program.now.plan self.now.request.now number)) }
        ensures of_threads { IfOk result (λ schedule. IfSome schedule AreOfThreads) }
        ensures none { IfOk result (λ schedule. IfNone schedule (HasNoSchedule self.now.program.now.valid self.now.program.now.plan self.now.request.now number)) }
    {
        let run = RandomRun {
            number,
            timeouts: self.request.times_out,
            steps: self.request.steps,
        };
        let Program { valid, plan } = self.program;
        drawn_schedule(self.rt, self.alloc, valid, plan, self.request.block, run)
    }

    /// The run by a schedule, under a number.
    pub(crate) fn recording_by(&self, picks: &Schedule, number: u64) -> Result<Recording, NoMemory>
        requires { IsPlanOf self.now.program.now.valid self.now.program.now.plan }
        ensures key { IfOk result (λ r. IsKeyOf self.now.program.now.valid self.now.program.now.plan number (Two self.now.request.now.block) r.key) }
        ensures is_run { IfOk result (λ r. IsRunOfPicks self.now.program.now.valid self.now.program.now.plan self.now.request.now picks.now r.recorded) }
    {
        let HuntRequest { block, steps, .. } = *self.request;
        let Program { valid, plan } = self.program;
        record_schedule(self.alloc, valid, plan, number, block, picks, steps)
    }

    /// Whether the run of a number is caught, which is one more that was made.
    fn comes<L: Log>(&self, made: &MadeRuns<'_, L>, number: u64) -> Result<bool, NoMemory>
        requires { IsPlanOf self.now.program.now.valid self.now.program.now.plan }
        ensures { IfOk result (Comes self.now.program.now.valid self.now.program.now.plan self.now.request.now number) }
    {
        let recording = self.recording(number)?;
        made.add();
        judge(self.alloc, self.request, &recording)
    }
}

/// The least number whose run is caught.
#[derive(Drop)]
pub(crate) struct LeastCaught<'a, R, L> {
    pub(crate) runs: DrawnRuns<'a, R>,
    pub(crate) made: &'a MadeRuns<'a, L>,
}

impl<'a, R: Wait, L: Log> Survey for LeastCaught<'a, R, L> {
    ghost use Rattle.thread_plan.specs.Plans.{IsPlanOf};
    ghost use Rattle.commands.specs.Least.{IsLeastCaught};
    ghost use Rattle.commands.specs.Hunts.{Comes};

    type Found = Option<u64>;

    ghost begins = { λ s. IsPlanOf s.runs.program.now.valid s.runs.program.now.plan };

    ghost finds = { λ s from count found. IsLeastCaught (Comes s.runs.program.now.valid s.runs.program.now.plan s.runs.request.now) from count found };

    fn nothing(&self, _alloc: Global) -> Option<u64> {
        None
    }

    fn add(&self, found: &mut Option<u64>, number: u64) -> Result<(), NoMemory> {
        if found.is_none() && self.runs.comes(self.made, number)? {
            *found = Some(number);
        }
        Ok(())
    }

    fn join(&self, found: &mut Option<u64>, behind: Option<u64>) -> Result<(), NoMemory> {
        if found.is_none() {
            *found = behind;
        }
        Ok(())
    }

    fn is_over(&self, found: &Option<u64>) -> bool {
        found.is_some()
    }
}

/// Puts what threads came to behind a text, each behind a comma.
fn put_others(text: &mut String, outcomes: &[Outcome]) -> Result<(), NoMemory>
    ensures { OnOk result (string_bytes text.new ≡ string_bytes text.old ++ flat_map (λ o. codes ", " ++ outcome_text o) outcomes.now) }
{
    for outcome in outcomes {
        write!(text, ", {outcome}")?;
    }
    Ok(())
}

/// Puts what threads came to behind a text, joined by commas.
fn put_outcomes(text: &mut String, outcomes: &[Outcome]) -> Result<(), NoMemory>
    ensures { OnOk result (string_bytes text.new ≡ string_bytes text.old ++ outcomes_text outcomes.now) }
{
    let [first, others @ ..] = outcomes else {
        return Ok(());
    };
    write!(text, "{first}")?;
    put_others(text, others)
}

/// Puts the line of a run behind a text: its number, and what its threads came to.
fn put_run_line(text: &mut String, number: u64, outcomes: &[Outcome]) -> Result<(), NoMemory>
    ensures { OnOk result (string_bytes text.new ≡ string_bytes text.old ++ run_line number outcomes.now) }
{
    write!(text, "{number} ")?;
    put_outcomes(text, outcomes)?;
    text.push_str("\n")?;
    Ok(())
}

/// A line for each run.
#[derive(Drop)]
pub(crate) struct RunLines<'a, R, L> {
    pub(crate) runs: DrawnRuns<'a, R>,
    pub(crate) made: &'a MadeRuns<'a, L>,
}

impl<'a, R: Wait, L: Log> Survey for RunLines<'a, R, L> {
    ghost use Rattle.std.specs.Prelude.{string_bytes};
    ghost use Rattle.thread_plan.specs.Plans.{IsPlanOf};
    ghost use Rattle.commands.specs.Least.{AreListed};
    ghost use Rattle.commands.specs.Hunts.{IsRunLine};

    type Found = String;

    ghost begins = { λ s. IsPlanOf s.runs.program.now.valid s.runs.program.now.plan };

    ghost finds = { λ s from count found. AreListed (IsRunLine s.runs.program.now.valid s.runs.program.now.plan s.runs.request.now) from count (string_bytes found) };

    fn nothing(&self, alloc: Global) -> String {
        String::new(alloc)
    }

    fn add(&self, found: &mut String, number: u64) -> Result<(), NoMemory> {
        let recording = self.runs.recording(number)?;
        self.made.add();
        put_run_line(found, number, recording.recorded().end().outcomes())
    }

    fn join(&self, found: &mut String, behind: String) -> Result<(), NoMemory> {
        found.push_str(behind.as_str())?;
        Ok(())
    }

    fn is_over(&self, _found: &String) -> bool {
        false
    }
}
