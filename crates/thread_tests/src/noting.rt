//! The order in which threads make their calls.

use std::sync::atomic::{AtomicBool, AtomicU64, Ordering};
use std::{array, thread};
use wasm_record::Hold;

/// How often a thread asks whether its turn has come.
const MOST_TURNS: u32 = 200_000;

/// How often thread 0 gives up its turn while it is inside and another has come, which would overtake it if it could.
const TURNS_INSIDE: u32 = 100;

/// How many calls are noted.
const MOST_NOTES: usize = 16;

/// A call of a thread.
fn note(thread: u32, place: u64) -> u64 {
    (u64::from(thread) << 32) | (place % (1 << 32))
}

/// Notes the calls that threads are inside, in their order. Where an order of the threads of four calls is given, it
/// keeps them to it.
#[derive(Drop)]
pub(crate) struct Noting {
    order: Option<[u32; 4]>,
    notes: [AtomicU64; MOST_NOTES],
    count: AtomicU64,
    another_came: AtomicBool,
}

impl Noting {
    /// None yet.
    pub(crate) fn new(order: Option<[u32; 4]>) -> Noting {
        Noting {
            order,
            notes: array::from_fn(|_| AtomicU64::new(0)),
            count: AtomicU64::new(0),
            another_came: AtomicBool::new(false),
        }
    }

    /// How many calls were noted.
    pub(crate) fn count(&self) -> u64 {
        self.count.load(Ordering::SeqCst)
    }

    /// Whether a note is of this call.
    pub(crate) fn is_of(&self, number: u64, thread: u32, place: u32) -> bool {
        let noted = self.notes[(number % 16) as usize].load(Ordering::SeqCst);
        number < self.count() && noted == note(thread, u64::from(place))
    }

    /// Whether a thread may make the next call.
    fn has_turn(&self, thread: u32) -> bool {
        match self.order {
            Some(order) => order[(self.count() % 4) as usize] == thread,
            None => true,
        }
    }

    /// Thread 0 stays inside until another has come, and for a while then.
    fn linger(&self) {
        for _ in 0..MOST_TURNS {
            if self.another_came.load(Ordering::SeqCst) {
                break;
            }
            thread::yield_now();
        }
        for _ in 0..TURNS_INSIDE {
            thread::yield_now();
        }
    }
}

impl Hold for Noting {
    fn before(&self, thread: u32, _place: u64) {
        if thread != 0 {
            self.another_came.store(true, Ordering::SeqCst);
        }
        for _ in 0..MOST_TURNS {
            if self.has_turn(thread) {
                break;
            }
            thread::yield_now();
        }
    }

    fn inside(&self, thread: u32, place: u64) {
        if thread == 0 {
            self.linger();
        }
        let number = self.count.fetch_add(1, Ordering::SeqCst);
        self.notes[(number % 16) as usize].store(note(thread, place), Ordering::SeqCst);
    }

    fn after(&self, _thread: u32, _place: u64) {}
}
