//! Why a schedule is refused.

use text_lines::SpacingFault;
use thiserror::Error;
use wasm_types::NoMemory;

/// What is wrong in a line of a schedule.
#[derive(Clone, Copy, Debug, PartialEq, Eq)]
pub enum ScheduleCause {
    /// The line is no words between which single spaces stand.
    Spacing(SpacingFault),
    /// The first word is neither `go` nor `out`.
    FirstWord,
    /// The line is not `go`, a thread and a number of times.
    GoWords,
    /// The line is not `out` and a thread.
    OutWords,
    /// The second word is no number from 0 to 15 in decimal, as a thread is.
    Thread,
    /// The third word is no number from 1 to 1,000,000 in decimal, as a number of times is.
    Times,
    /// The picks up to that line are more than 1,000,000.
    TooMany,
}

/// Why a schedule was not read. Lines are numbered from 1.
#[derive(Clone, Copy, Debug, PartialEq, Eq, Error)]
pub enum ScheduleFault {
    /// Refusal 18: that line is no line of a schedule, or its picks are more than are left of 1,000,000.
    #[error("line {line} is no line of a schedule")]
    BadLine { line: u64, cause: ScheduleCause },
    /// Refusal 23: a growth was refused, which says nothing of the schedule.
    #[error("out of memory")]
    NoMemory,
}

impl From<NoMemory> for ScheduleFault {
    ghost use Rattle.std.specs.Prelude.{◌≡◌};
    ghost use Rattle.pick_schedule.specs.declared.fault.ScheduleFault.TheVariants as schedule;

    ghost from_gives = { λ _ fault. fault ≡ schedule.NoMemory };

    fn from(_error: NoMemory) -> ScheduleFault {
        ScheduleFault::NoMemory
    }
}
