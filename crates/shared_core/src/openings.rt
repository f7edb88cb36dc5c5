//! Whose gates were opened, for threads that look with no lock.

use crate::gates::Seats;
use crossbeam_utils::CachePadded;
use std::sync::atomic::{AtomicU64, Ordering};
use std::{array, hint};
use wasm_types::MOST_THREADS;

/// How often a thread looks whether its gate was opened before it rests: for some ten to sixty microseconds, in which
/// the others make a hundred calls or more.
const FEW_LOOKS: u32 = 1_000;

/// How often it looks once in a while: for some milliseconds, in which a thread that rested wakes on a free processor.
const MANY_LOOKS: u32 = 100_000;

/// How many looks in vain there are to one of many.
const VAIN_IN_A_ROW: u64 = 128;

/// Whose gates were opened, by the calls that gave back their locks. Each seat has a place of its own at which its
/// thread alone looks, as in the queue lock of Mellor-Crummey and Scott (1991).
#[derive(Drop)]
pub(crate) struct Openings {
    /// With how many calls entered the gate of each seat was opened last.
    places: [CachePadded<AtomicU64>; MOST_THREADS],
    /// How often a thread has looked in vain.
    in_vain: AtomicU64,
}

impl Openings {
    /// No gate was opened.
    pub(crate) fn new() -> Openings {
        Openings {
            places: array::from_fn(|_| CachePadded::new(AtomicU64::new(0))),
            in_vain: AtomicU64::new(0),
        }
    }

    /// The gates of these seats were opened by the call with which so many were entered.
    pub(crate) fn tell(&self, seats: &Seats, entered: u64) {
        for (place, is_opened) in self.places.iter().zip(seats) {
            if *is_opened {
                place.store(entered, Ordering::SeqCst);
            }
        }
    }

    /// Looks for a while whether the gate of a seat was opened, which was shut with so many calls entered. Answers
    /// whether it was.
    ///
    /// A thread does not give up its turn between looks: beside a program that keeps the processor busy it would have
    /// it back after milliseconds. Where many threads look in vain their processors are of more use to others, so they
    /// look for long only once in a while: that ends what else would last, that each thread rests since the one before
    /// it is still waking.
    pub(crate) fn look(&self, seat: u32, shut_at: u64) -> bool {
        let place = &self.places[seat as usize % MOST_THREADS];
        for _ in 0..self.looks() {
            if place.load(Ordering::SeqCst) > shut_at {
                return true;
            }
            hint::spin_loop();
        }
        self.in_vain.fetch_add(1, Ordering::SeqCst);
        false
    }

    /// How often a thread is to look now.
    fn looks(&self) -> u32 {
        if self.in_vain.load(Ordering::SeqCst) % VAIN_IN_A_ROW == 0 {
            MANY_LOOKS
        } else {
            FEW_LOOKS
        }
    }
}
