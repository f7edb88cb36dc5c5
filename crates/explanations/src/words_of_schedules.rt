//! Words of faults of schedules.

use crate::reasons::{Words, words};
use crate::words_of_spacing::spacing_words;
use pick_schedule::{ScheduleCause, ScheduleFault};
use std::alloc::Global;
use wasm_types::NoMemory;

/// Why the text of a schedule is none. `quote` is what `schedule_quote` answers for it.
pub fn schedule_words(
    alloc: Global,
    fault: &ScheduleFault,
    quote: &str,
) -> Result<String, NoMemory> {
    match *fault {
        ScheduleFault::BadLine { cause, .. } => cause_words(alloc, cause, quote),
        ScheduleFault::NoMemory => Ok(format!(in alloc; "{fault}")?),
    }
}

fn cause_words(alloc: Global, cause: ScheduleCause, quote: &str) -> Words {
    match cause {
        ScheduleCause::Spacing(fault) => words(alloc, spacing_words(fault)),
        ScheduleCause::FirstWord => {
            Ok(format!(in alloc; "the first word is `{quote}`, and not `go` or `out`")?)
        }
        ScheduleCause::GoWords => words(
            alloc,
            "behind `go` a thread and a number of times stand, and nothing else",
        ),
        ScheduleCause::OutWords => {
            words(alloc, "behind `out` a thread stands, and nothing else")
        }
        ScheduleCause::Thread => Ok(format!(in alloc;
            "the thread `{quote}` is no number from 0 to 15 in decimal"
        )?),
        ScheduleCause::Times => Ok(format!(in alloc;
            "the times `{quote}` are no number from 1 to 1000000 in decimal"
        )?),
        ScheduleCause::TooMany => words(alloc, "the picks up to here are more than 1000000"),
    }
}
