//! What is told of the calls that threads enter.

ghost use Rattle.std.specs.Prelude.{◌<◌};

use std::sync::atomic::{AtomicBool, AtomicU64, Ordering};
use std::{array, thread};
use wasm_record::Hold;

/// How often a thread asks whether another is inside. Where threads run one after the other, it goes on without.
const MOST_TURNS: u32 = 200_000;

/// How many threads, and how many calls of each, are counted by themselves.
const MOST: usize = 16;

/// Where the calls of a thread at a place are counted, if they are.
fn index(thread: u32, place: u64) -> Option<usize> {
    if thread < MOST as u32 && place < MOST as u64 {
        return Some(thread as usize * MOST + place as usize);
    }
    None
}

/// Counts the calls that threads enter, by thread and place, and keeps the first ones until two threads were inside at
/// once.
#[derive(Drop)]
pub(crate) struct Counting {
    entered: AtomicU64,
    by_place: [AtomicU64; 256],
    is_inside: [AtomicBool; MOST],
    inside: AtomicU64,
    has_met: AtomicBool,
}

impl Counting {
    /// None yet.
    pub(crate) fn new() -> Counting {
        Counting {
            entered: AtomicU64::new(0),
            by_place: array::from_fn(|_| AtomicU64::new(0)),
            is_inside: array::from_fn(|_| AtomicBool::new(false)),
            inside: AtomicU64::new(0),
            has_met: AtomicBool::new(false),
        }
    }

    /// How many calls were entered.
    pub(crate) fn entered(&self) -> u64 {
        self.entered.load(Ordering::SeqCst)
    }

    /// How many calls of a thread were entered at a place.
    pub(crate) fn entered_at(&self, thread: u32, place: u32) -> u64 {
        match index(thread, u64::from(place)) {
            Some(index) => self.count(index).load(Ordering::SeqCst),
            None => 0,
        }
    }

    /// The count at an index.
    fn count(&self, index: usize) -> &AtomicU64 {
        &self.by_place[index % 256]
    }

    /// Whether two threads had calls at the same time.
    pub(crate) fn has_met(&self) -> bool {
        self.has_met.load(Ordering::SeqCst)
    }

    /// Notes whether a thread has a call, and answers whether it had one.
    fn note(&self, thread: u32, is_inside: bool) -> bool {
        self.is_inside[thread as usize % MOST].swap(is_inside, Ordering::SeqCst)
    }
}

impl Hold for Counting {
    fn before(&self, thread: u32, _place: u64) {
        if !self.note(thread, true) && self.inside.fetch_add(1, Ordering::SeqCst) > 0 {
            self.has_met.store(true, Ordering::SeqCst);
        }
        for _ in 0..MOST_TURNS {
            if self.has_met() {
                break;
            }
            thread::yield_now();
        }
    }

    fn inside(&self, thread: u32, place: u64) {
        self.entered.fetch_add(1, Ordering::SeqCst);
        if let Some(index) = index(thread, place) {
            self.count(index).fetch_add(1, Ordering::SeqCst);
        }
    }

    fn after(&self, thread: u32, _place: u64) {
        if self.note(thread, false) {
            self.inside.fetch_sub(1, Ordering::SeqCst);
        }
    }
}
