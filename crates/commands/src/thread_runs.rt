//! Runs by threads at once, and the first of them that is caught.

ghost use Rattle.std.specs.Prelude.{◌≡◌, true, false, min, IfOk, IfSome, IfNone};
ghost use Rattle.thread_plan.specs.Plans.{IsPlanOf};
ghost use Rattle.wasm_types.specs.declared.key.Profile.TheVariants.{Two};
ghost use Rattle.wasm_types.specs.declared.sizes.TheConstants.{MOST_STEPS};
ghost use Rattle.wasm_record.specs.Recordings.{IsKeyOf, RecordsThreads};
ghost use Rattle.commands.specs.Hunts.{ComesByThreads, IsCaughtRun, IsRunByThreads, shows};
ghost use Rattle.commands.specs.Least.{NoneIsCaught};

use crate::hunt_answers::judge;
use crate::made_runs::MadeRuns;
use crate::program::Program;
use command_words::HuntRequest;
use log::Log;
use std::alloc::Global;
use std::sync::Wait;
use std::thread::Threads;
use wasm_record::{AtOnce, Never, Recording, Unkept, record_threads};
use wasm_types::{Block, NoMemory};

/// The recording of a run of threads at once, with a timer that always or never says that a time is over.
pub(crate) fn recording_by_threads<T: Threads + Wait + Sync>(
    threads: &T,
    alloc: Global,
    program: &Program,
    times_out: bool,
    run: u64,
    block: Block,
    steps: u32,
) -> Result<Recording, NoMemory>
    requires { IsPlanOf program.now.valid program.now.plan }
    ensures key { IfOk result (λ r. IsKeyOf program.now.valid program.now.plan run (Two block) r.key) }
    ensures records { IfOk result (λ r. RecordsThreads program.now.valid program.now.plan (Two block) (λ t s. times_out) (min steps MOST_STEPS) r.recorded) }
{
    let Program { valid, plan } = program;
    if times_out {
        record_threads(
            threads, alloc, valid, plan, run, block, steps, &AtOnce, &Unkept,
        )
    } else {
        record_threads(
            threads, alloc, valid, plan, run, block, steps, &Never, &Unkept,
        )
    }
}

/// A run that is caught, and its number.
#[derive(Drop)]
pub(crate) struct CaughtRun {
    pub(crate) number: u64,
    pub(crate) recording: Recording,
}

/// A run by threads under a number, if it is caught.
fn caught_by_threads<T: Threads + Wait + Sync, L: Log>(
    threads: &T,
    alloc: Global,
    program: &Program,
    request: &HuntRequest<'_>,
    made: &MadeRuns<'_, L>,
    number: u64,
) -> Result<Option<Recording>, NoMemory>
    requires { IsPlanOf program.now.valid program.now.plan }
    ensures caught { IfOk result (λ found. IfSome found (λ r. shows request.now r.recorded.end ≡ true)) }
    ensures key { IfOk result (λ found. IfSome found (λ r. IsKeyOf program.now.valid program.now.plan number (Two request.now.block) r.key)) }
    ensures is_run { IfOk result (λ found. IfSome found (λ r. IsRunByThreads program.now.valid program.now.plan request.now r.recorded)) }
    ensures none { IfOk result (λ found. IfNone found (ComesByThreads program.now.valid program.now.plan request.now number false)) }
{
    let HuntRequest {
        times_out,
        block,
        steps,
        ..
    } = *request;
    let recording = recording_by_threads(threads, alloc, program, times_out, number, block, steps)?;
    made.add();
    if judge(alloc, request, &recording)? {
        Ok(Some(recording))
    } else {
        Ok(None)
    }
}

/// The first run by threads that is caught, of those under the numbers.
pub(crate) fn first_by_threads<T: Threads + Wait + Sync, L: Log>(
    threads: &T,
    alloc: Global,
    program: &Program,
    request: &HuntRequest<'_>,
    made: &MadeRuns<'_, L>,
) -> Result<Option<CaughtRun>, NoMemory>
    requires { IsPlanOf program.now.valid program.now.plan }
    ensures found { IfOk result (λ found. IfSome found (λ x. IsCaughtRun program.now.valid program.now.plan request.now x.number x.recording)) }
    ensures none { IfOk result (λ found. IfNone found (NoneIsCaught (ComesByThreads program.now.valid program.now.plan request.now) request.now.range.from request.now.range.count)) }
{
    for done in 0..request.range.count {
        let number = request.range.from + done;
        if let Some(recording) = caught_by_threads(
            threads, alloc, program, request, made, number,
        )? {
            return Ok(Some(CaughtRun { number, recording }));
        }
    }
    Ok(None)
}
