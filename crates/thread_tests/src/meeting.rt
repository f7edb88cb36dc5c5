//! Where two threads meet.

use std::sync::atomic::{AtomicBool, Ordering};
use std::thread;
use wasm_record::Hold;

/// How often a thread asks whether the other has come.
const MOST_TURNS: u32 = 1_000_000;

/// A door at which two threads wait for one another.
#[derive(Drop)]
struct Door {
    stands_there: [AtomicBool; 2],
    has_met: AtomicBool,
}

impl Door {
    /// Nobody has come.
    fn new() -> Door {
        Door {
            stands_there: [AtomicBool::new(false), AtomicBool::new(false)],
            has_met: AtomicBool::new(false),
        }
    }

    /// Whether both stood there at the same time.
    fn has_met(&self) -> bool {
        self.has_met.load(Ordering::SeqCst)
    }

    /// Whether the two have met, where one stands there.
    fn meets(&self, other: usize) -> bool {
        if self.stands_there[other % 2].load(Ordering::SeqCst) {
            self.has_met.store(true, Ordering::SeqCst);
        }
        self.has_met()
    }

    /// One of the two stands there until the other does, but not for ever.
    fn wait(&self, thread: u32) {
        let own = thread as usize % 2;
        self.stands_there[own].store(true, Ordering::SeqCst);
        for _ in 0..MOST_TURNS {
            if self.meets(1 - own) {
                break;
            }
            thread::yield_now();
        }
        self.stands_there[own].store(false, Ordering::SeqCst);
    }
}

/// Keeps the first call of each of two threads until both have come to it, and then until both are inside.
#[derive(Drop)]
pub(crate) struct Meeting {
    before: Door,
    inside: Door,
}

impl Meeting {
    /// Nobody has come.
    pub(crate) fn new() -> Meeting {
        Meeting {
            before: Door::new(),
            inside: Door::new(),
        }
    }

    /// Whether both came to their calls at the same time.
    pub(crate) fn met_before(&self) -> bool {
        self.before.has_met()
    }

    /// Whether both were inside at the same time.
    pub(crate) fn met_inside(&self) -> bool {
        self.inside.has_met()
    }
}

impl Hold for Meeting {
    fn before(&self, thread: u32, place: u64) {
        if place == 0 {
            self.before.wait(thread);
        }
    }

    fn inside(&self, thread: u32, place: u64) {
        if place == 0 {
            self.inside.wait(thread);
        }
    }

    fn after(&self, _thread: u32, _place: u64) {}
}
