//! How far a hunt is, on a terminal.

use commands::PROGRESS;
use log::kv::{self, Source, Value, VisitSource};
use log::span::Spans;
use log::{Log, Metadata, Record};
use std::fmt::Display;
use std::rt::Clock;
use std::sync::{Mutex, Wait};
use std::time::{Duration, Instant};

/// How many seconds after the beginning of a hunt the line is written first.
const FIRST: u64 = 2;

/// How many milliseconds after it was written the line is written again.
const AGAIN: u64 = 250;

/// The line that says how far a hunt is.
#[derive(Drop)]
struct Line {
    /// When the hunt began.
    begun: Option<Instant>,
    /// How long after that the line is to be written.
    next: Duration,
    /// Whether it stands on the terminal.
    stands: bool,
}

/// Writes on one line of standard error, over what stood there, how far a hunt is, and takes the line off where the
/// hunt is over. Where writing fails, nothing else changes.
#[derive(Drop)]
pub(crate) struct ProgressLine<R> {
    runtime: R,
    line: Mutex<Line>,
}

/// The number of runs among the pairs of a record.
#[derive(Drop)]
struct Made {
    runs: Option<u64>,
}

impl VisitSource for Made {
    fn visit_pair<D: Display>(&mut self, key: &str, value: Value<'_, D>) -> Result<(), kv::Error> {
        if key == "made" {
            self.runs = value.to_u64();
        }
        Ok(())
    }
}

/// The number of runs among the pairs of a record, if it has one.
fn made_in<K: Source>(pairs: &K) -> Option<u64> {
    let mut made = Made { runs: None };
    let _ = pairs.visit(&mut made);
    made.runs
}

/// So many runs in that time, as runs a second.
fn a_second(runs: u64, time: Duration) -> u128 {
    let milliseconds = time.as_millis();
    if milliseconds == 0 {
        return 0;
    }
    u128::from(runs).saturating_mul(1_000) / milliseconds
}

impl<R: Wait + Clock + Eprint> ProgressLine<R> {
    /// The line of a hunt that has not begun.
    pub(crate) fn new(runtime: R) -> ProgressLine<R> {
        let line = Line {
            begun: None,
            next: Duration::from_secs(FIRST),
            stands: false,
        };
        ProgressLine {
            runtime,
            line: Mutex::new(line),
        }
    }

    /// Writes the line, if it is time to; another thread that writes it need not be waited for.
    fn show<D: Display>(&self, runs: u64, text: &D) {
        let Some(mut line) = self.line.try_lock() else {
            return;
        };
        let Ok(now) = Instant::now(&self.runtime) else {
            return;
        };
        let begun = line.begun.unwrap_or(now);
        line.begun = Some(begun);
        let time = now.duration_since(begun);
        if time < line.next {
            return;
        }
        line.next = time.saturating_add(Duration::from_millis(AGAIN));
        line.stands = true;
        let speed = a_second(runs, time);
        let _ = eprint!(self.runtime; "\rhunt: {text}, {speed} a second\x1b[K");
    }

    /// Takes the line off, if it stands.
    fn take_off(&self) {
        let mut line = self.line.lock(&self.runtime);
        if line.stands {
            line.stands = false;
            let _ = eprint!(self.runtime; "\r\x1b[K");
        }
    }
}

impl<R: Wait + Clock + Eprint> Log for ProgressLine<R> {
    fn enabled(&self, metadata: &Metadata<'_>) -> bool {
        metadata.target() == PROGRESS
    }

    fn log<D: Display, K: Source, S: Spans>(&self, record: &Record<'_, D, K, S>) {
        if record.target() != PROGRESS {
            return;
        }
        match made_in(record.key_values()) {
            Some(runs) => self.show(runs, record.args()),
            None => self.take_off(),
        }
    }

    fn flush(&self) {}

    fn target(&self) -> &str {
        ""
    }
}
