//! What wakes seats that rest.

use crate::resting::Wakes;
use std::array;
use std::sync::Condvar;
use wasm_types::MOST_THREADS;

/// A condition for each seat, by its number. Seats whose numbers differ by a multiple of the most threads share one.
#[derive(Drop)]
pub(crate) struct Conditions {
    by_seat: [Condvar; MOST_THREADS],
}

impl Conditions {
    /// Conditions for which nobody waits.
    pub(crate) fn new() -> Conditions {
        Conditions {
            by_seat: array::from_fn(|_| Condvar::new()),
        }
    }

    /// What wakes a seat.
    pub(crate) fn of(&self, seat: usize) -> &Condvar {
        &self.by_seat[seat % MOST_THREADS]
    }

    /// Wakes seats that rest, if some are to be woken.
    #[inline(always)]
    pub(crate) fn wake(&self, wakes: Wakes) {
        if wakes != Wakes::Nobody {
            self.notify(wakes);
        }
    }

    /// Notifies seats that rest.
    #[inline(never)]
    fn notify(&self, wakes: Wakes) {
        match wakes {
            Wakes::Nobody => {}
            Wakes::One(seat) => self.of(seat).notify_all(),
            Wakes::All => {
                for condition in &self.by_seat {
                    condition.notify_all();
                }
            }
        }
    }
}
