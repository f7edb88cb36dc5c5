//! How far a hunt is: a record in the log for each run that it made.

use command_words::HuntRequest;
use log::{Log, debug};
use std::sync::atomic::{AtomicU64, Ordering};

/// The target of the records of how far a hunt is. The pair `made` of such a record is how many runs are made by then,
/// and its message says it in words; a record without that pair says that the hunt is over.
pub const PROGRESS: &str = "progress";

/// The runs that a hunt made, which many threads count together. No promise rests on the numbers.
#[derive(Drop)]
pub(crate) struct MadeRuns<'a, L> {
    log: &'a L,
    /// Whether no record is made.
    quiet: bool,
    /// How many runs are asked for.
    asked: u64,
    /// How many of these were made.
    made: AtomicU64,
    /// How many more were made to make a schedule small.
    tried: AtomicU64,
}

impl<'a, L: Log> MadeRuns<'a, L> {
    /// None is made yet, which is the first record.
    pub(crate) fn new(log: &'a L, request: &HuntRequest<'_>) -> MadeRuns<'a, L> {
        let runs = MadeRuns {
            log,
            quiet: request.quiet,
            asked: request.range.count,
            made: AtomicU64::new(0),
            tried: AtomicU64::new(0),
        };
        runs.note(0);
        runs
    }

    /// Makes a record of so many runs, unless the hunt is quiet.
    fn note(&self, made: u64) {
        if !self.quiet {
            debug!(self.log; target: PROGRESS, made = made; "{made} of {} runs", self.asked);
        }
    }

    /// Adds a run.
    pub(crate) fn add(&self) {
        let before = self.made.fetch_add(1, Ordering::SeqCst);
        self.note(before.saturating_add(1));
    }

    /// Adds a run that is made to make a schedule small.
    pub(crate) fn add_trial(&self) {
        let before = self.tried.fetch_add(1, Ordering::SeqCst);
        if self.quiet {
            return;
        }
        let tried = before.saturating_add(1);
        let made = self.made.load(Ordering::SeqCst);
        debug!(self.log; target: PROGRESS, made = made.saturating_add(tried);
            "{made} of {} runs, and {tried} to make the schedule small", self.asked);
    }

    /// The hunt is over, which is the last record.
    pub(crate) fn end(&self) {
        if !self.quiet {
            debug!(self.log; target: PROGRESS, "the hunt is over");
        }
    }
}
