//! What a recording leaves.

ghost use Rattle.std.specs.Prelude.{◌≡◌};

use event_core::Ended;
use log_pieces::{End, PackedEntries};
use std::marker::Model;

/// What a thread logged: its entries by place, and where it ends. Contracts see the list of the entries.
#[derive(Debug, Drop)]
pub struct ThreadLog {
    entries: PackedEntries,
    end: End,
}

impl Model for ThreadLog {
    ghost use Rattle.recorder.specs.ThreadLogAt.{ThreadLogAt};

    ghost Value = { ThreadLogAt };

    ghost view = { λ l. record { entries = l.entries; end = l.end } };
}

impl ThreadLog {
    pub(crate) fn new(entries: PackedEntries, end: End) -> ThreadLog
        ensures entries { result.entries ≡ entries }
        ensures end { result.end ≡ end }
    {
        ThreadLog { entries, end }
    }

    /// The entries, by place.
    pub fn entries(&self) -> &PackedEntries
        ensures { result.now ≡ self.now.entries }
    {
        &self.entries
    }

    /// Where the thread ends.
    pub fn end(&self) -> End
        ensures { result ≡ self.now.end }
    {
        self.end
    }
}

/// A recorded run. Contracts see the threads' logs, the run's end, and how many picks were passed over.
#[derive(Debug, Drop)]
pub struct Recorded {
    threads: Vec<ThreadLog>,
    end: Ended,
    passed: u64,
}

impl Model for Recorded {
    ghost use Rattle.recorder.specs.ThreadLogAt.{RecordedAt};

    ghost Value = { RecordedAt };

    ghost view = { λ r. record { threads = r.threads.items; end = r.end; passed = r.passed } };
}

impl Recorded {
    /// The threads' logs, the run's end, and how many picks were passed over.
    pub fn new(threads: Vec<ThreadLog>, end: Ended, passed: u64) -> Recorded
        ensures threads { result.threads ≡ threads.items }
        ensures end { result.end ≡ end }
        ensures passed { result.passed ≡ passed }
    {
        Recorded {
            threads,
            end,
            passed,
        }
    }

    /// The log of each thread, thread 0 first.
    pub fn log(&self) -> &[ThreadLog]
        ensures { result.now ≡ self.now.threads }
    {
        self.threads.as_slice()
    }

    /// The end of the run.
    pub fn end(&self) -> &Ended
        ensures { result.now ≡ self.now.end }
    {
        &self.end
    }

    /// How many picks were passed over.
    pub fn passed(&self) -> u64
        ensures { result ≡ self.now.passed }
    {
        self.passed
    }
}
