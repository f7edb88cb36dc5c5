//! Where two threads wait for each other.

use shared_core::Hold;
use std::sync::atomic::{AtomicBool, AtomicU64, Ordering};
use std::thread;

/// How often a thread asks whether the other is here. Where threads run one after the other, it goes on without it.
const MOST_TURNS: u32 = 2_000_000;

/// Where each of two threads waits until the other is here.
#[derive(Drop)]
pub(crate) struct Meeting {
    here: AtomicU64,
    is_met: AtomicBool,
}

impl Meeting {
    /// Nobody is here.
    pub(crate) fn new() -> Meeting {
        Meeting {
            here: AtomicU64::new(0),
            is_met: AtomicBool::new(false),
        }
    }

    /// Whether two were here at once.
    pub(crate) fn is_met(&self) -> bool {
        self.is_met.load(Ordering::SeqCst)
    }

    /// Stays until another was here at the same time, but not for ever. Answers whether two were here at once.
    pub(crate) fn meet(&self) -> bool {
        if self.here.fetch_add(1, Ordering::SeqCst) > 0 {
            self.is_met.store(true, Ordering::SeqCst);
        }
        for _ in 0..MOST_TURNS {
            if self.is_met() {
                break;
            }
            thread::yield_now();
        }
        self.here.fetch_sub(1, Ordering::SeqCst);
        self.is_met()
    }
}

/// Keeps a thread that entered a call, and holds the locks of the parts that it touched.
impl Hold for Meeting {
    fn before(&self, _thread: u32, _place: u64) {}

    fn inside(&self, _thread: u32, _place: u64) {
        self.meet();
    }

    fn after(&self, _thread: u32, _place: u64) {}
}
