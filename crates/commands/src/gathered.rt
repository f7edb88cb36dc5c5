//! The logs in files, with the modules and plans that they are of.

ghost use Rattle.std.specs.Prelude.{◌≡◌, ◌⊎◌, ℕ, List, [], IfOk, IfErr, Ok, Some, None};
ghost use Rattle.replica.specs.Log.{log_of};
ghost use Rattle.commands.specs.Inputs.{IsLogOfLines, IsEmptyLog, IsLogFile, IsLinesRefused, lines_fault};
ghost use Rattle.thread_plan.specs.Plans.{IsPlanOf};
ghost use Rattle.commands.specs.Replays.{IsReplayInput, IsInputRefused};
ghost use Rattle.commands.specs.declared.fault.Fault.TheVariants as faults;
ghost use Rattle.replica.specs.declared.replica.Replica.{Replica};

use crate::fault::Fault;
use crate::files::{FileFault, Files, InputFile, open_file};
use crate::program::{Program, read_program};
use command_words::ReplayRequest;
use log::Log;
use replica::{GatherFault, Replica, collect};
use std::alloc::Global;
use wasm_types::{Block, Profile, RunKey};

/// The program's fault where the lines of a file are refused: a file of which a read failed is not read.
fn lines_fault(fault: GatherFault) -> Fault
    ensures { result ≡ lines_fault fault }
{
    match fault {
        GatherFault::SourceFailed => Fault::File(FileFault::NotRead, InputFile::Pieces),
        other => Fault::Gather(other),
    }
}

/// The log of the pieces whose lines a file holds, line by line; None where it has no line.
fn collect_file<L: Log, F: Files>(
    rt: &L,
    alloc: Global,
    files: &mut F,
    path: &str,
) -> Result<Option<Replica>, Fault>
    ensures gathered { (replica : Replica) → result ≡ Ok (Some replica) → (text : List ℕ) × F.holds files.old path.now text × IsLogOfLines text (log_of replica) }
    ensures none { result ≡ Ok None → F.holds files.old path.now [] }
    ensures refused { IfErr result (λ fault. IsLinesRefused (F.holds files.old path.now) (F.fails files.old path.now) fault) }
{
    let mut stream = match open_file(rt, alloc, files, path) {
        Ok(stream) => stream,
        Err(fault) => return Err(Fault::File(fault, InputFile::Pieces)),
    };
    match collect(alloc, &mut stream) {
        Ok(found) => Ok(found),
        Err(fault) => Err(lines_fault(fault)),
    }
}

/// The log of a module and a plan of which no piece is there.
fn empty_log(alloc: Global, program: &Program) -> Replica
    ensures { IsEmptyLog program.now.valid program.now.plan (log_of result) }
{
    let source = program.valid.module().source.as_slice();
    let profile = Profile::Two(Block::least());
    Replica::new(alloc, RunKey::of(source, program.plan.bytes(), 0, profile))
}

/// The log that the piece lines in a file give for a module and a plan.
fn read_log<L: Log, F: Files>(
    rt: &L,
    alloc: Global,
    files: &mut F,
    path: &str,
    program: &Program,
) -> Result<Replica, Fault>
    ensures found { IfOk result (λ replica. IsLogFile (F.holds files.old path.now) program.now.valid program.now.plan (log_of replica)) }
    ensures refused { IfErr result (λ fault. IsLinesRefused (F.holds files.old path.now) (F.fails files.old path.now) fault) }
{
    match collect_file(rt, alloc, files, path) {
        Ok(Some(replica)) => Ok(replica),
        Ok(None) => Ok(empty_log(alloc, program)),
        Err(fault) => Err(fault),
    }
}

/// What a replay is made of: a module, a plan for it, and a log.
#[derive(Drop)]
pub struct ReplayInput {
    pub program: Program,
    pub replica: Replica,
}

/// The module, the plan and the log in the files of a replay. The module is read and judged, then the plan, then the
/// piece lines.
pub fn read_replay_input<L: Log, F: Files>(
    rt: &L,
    alloc: Global,
    files: &mut F,
    request: &ReplayRequest<'_>,
) -> Result<ReplayInput, Fault>
    ensures found { IfOk result (λ input. IsReplayInput (F.holds files.old) request.now input.program.valid input.program.plan (log_of input.replica)) }
    ensures suits { IfOk result (λ input. IsPlanOf input.program.valid input.program.plan) }
    ensures refused { IfErr result (λ fault. IsInputRefused (F.holds files.old) (F.fails files.old) request.now fault) }
{
    let program = match read_program(rt, alloc, files, request.module, request.plan) {
        Ok(program) => program,
        Err(fault) => return Err(fault),
    };
    match read_log(rt, alloc, files, request.pieces, &program) {
        Ok(replica) => Ok(ReplayInput { program, replica }),
        Err(fault) => Err(fault),
    }
}
