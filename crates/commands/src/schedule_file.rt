//! The schedules in files.

ghost use Rattle.std.specs.Prelude.{ℕ, List, IfOk, IfErr};
ghost use Rattle.commands.specs.Records.{IsScheduleFile, IsScheduleRefused};

use crate::fault::Fault;
use crate::files::{Files, InputFile, read_file};
use crate::quotes::schedule_quote;
use log::Log;
use pick_schedule::{SCHEDULE_BEGINNING, Schedule, schedule};
use std::alloc::Global;

/// The picks of the schedule in a file. No more is read of it than a schedule can have, and one byte.
pub(crate) fn read_schedule<L: Log, F: Files>(
    rt: &L,
    alloc: Global,
    files: &mut F,
    path: &str,
) -> Result<Schedule, Fault>
    ensures found { IfOk result (λ picks. IsScheduleFile (F.holds files.old path.now) picks) }
    ensures refused { IfErr result (λ fault. IsScheduleRefused (F.holds files.old path.now) (F.fails files.old path.now) fault) }
{
    let beginning = match read_file(rt, alloc, files, path, Some(SCHEDULE_BEGINNING)) {
        Ok(beginning) => beginning,
        Err(fault) => return Err(Fault::File(fault, InputFile::Schedule)),
    };
    match schedule(alloc, &beginning) {
        Ok(picks) => Ok(picks),
        Err(fault) => Err(Fault::Schedule(fault, schedule_quote(&beginning, &fault))),
    }
}
