//! Where threads stand at the end of a recorded run.

ghost use Rattle.std.specs.Prelude.{◌≡◌, IfOk, map, string_bytes};
ghost use Rattle.wasm_record.specs.Cut.{pieces_of};
ghost use Rattle.replica.specs.Log.{key_of, log_of};
ghost use Rattle.replica.specs.LogOf.{Among, IsLogOf};
ghost use Rattle.thread_plan.specs.Plans.{IsPlanOf};
ghost use Rattle.commands.specs.Notes.{notes_by};
ghost use Rattle.commands.specs.Records.{AreNotesByReplay, AreNotesOfRun};

use crate::program::Program;
use debug_views::{Notes, notes_of_end};
use replica::Replica;
use std::alloc::Global;
use wasm_record::Recording;
use wasm_types::NoMemory;

/// What is said of where threads stand: offsets stand beside names.
pub fn notes_by(names: bool, offsets: bool) -> Notes
    ensures { result ≡ notes_by names offsets }
{
    match (names, offsets) {
        (_, true) => Notes::Offsets,
        (true, false) => Notes::Names,
        (false, false) => Notes::Nothing,
    }
}

/// The log that the pieces of a recording make. They are of one run, so that only memory can be wanting.
fn log_of_recording(alloc: Global, recording: &Recording, size: u32) -> Result<Replica, NoMemory>
    ensures same_key { IfOk result (λ replica. key_of (log_of replica) ≡ recording.now.key) }
    ensures is_log { IfOk result (λ replica. IsLogOf (Among (pieces_of recording.now.key recording.now.recorded.threads size)) (log_of replica)) }
{
    let Ok(mut pieces) = recording.pieces(alloc, size) else {
        return Err(NoMemory);
    };
    let mut replica = Replica::new(alloc, *recording.key());
    while let Some(piece) = pieces.pop() {
        match replica.deliver(alloc, &piece) {
            Ok(()) => {}
            Err(_) => return Err(NoMemory),
        }
    }
    Ok(replica)
}

/// Where threads stand at the end of a recorded run, by a replay of the log of its pieces.
fn notes_by_replay(
    alloc: Global,
    program: &Program,
    recording: &Recording,
    size: u32,
    asked: Notes,
) -> Result<Vec<String>, NoMemory>
    requires { IsPlanOf program.now.valid program.now.plan }
    ensures { IfOk result (λ notes. AreNotesByReplay program.now.valid program.now.plan size recording.now asked (map string_bytes notes.items)) }
{
    let replica = log_of_recording(alloc, recording, size)?;
    let Program { valid, plan } = program;
    match notes_of_end(alloc, valid, plan, replica.log(), &[], asked) {
        Ok(notes) => Ok(notes),
        Err(_) => Err(NoMemory),
    }
}

/// What is asked for of where threads stand at the end of a recorded run.
pub(crate) fn notes_of_run(
    alloc: Global,
    program: &Program,
    recording: &Recording,
    size: u32,
    asked: Notes,
) -> Result<Vec<String>, NoMemory>
    requires { IsPlanOf program.now.valid program.now.plan }
    ensures { IfOk result (λ notes. AreNotesOfRun program.now.valid program.now.plan size recording.now asked (map string_bytes notes.items)) }
{
    match asked {
        Notes::Nothing => Ok(Vec::new(alloc)),
        Notes::Names => notes_by_replay(alloc, program, recording, size, Notes::Names),
        Notes::Offsets => notes_by_replay(alloc, program, recording, size, Notes::Offsets),
    }
}
