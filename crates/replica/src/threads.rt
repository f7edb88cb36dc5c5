//! The threads of a run.

ghost use Rattle.std.specs.Prelude.{◌≡◌, ◌<◌, ◌==◌, ◌||◌, ℕ, false};
ghost use Rattle.replica.specs.Members.{has_thread};

use std::marker::Model;
use wasm_types::MOST_THREADS;

/// The number of a thread of a run.
#[derive(Clone, Copy, Debug, PartialEq, Eq)]
pub(crate) struct ThreadNumber {
    number: u32,
}

impl Model for ThreadNumber {
    ghost use Rattle.std.specs.Prelude.{ℕ, ◌<◌};

    ghost Value = { ℕ };

    ghost view = { λ t. t.number };

    ghost invariant = { λ t. t.number < 16 };

    ghost inverse = { λ n. record { number = n } };
}

impl ThreadNumber {
    /// The thread of that number.
    pub(crate) fn new(number: u32) -> ThreadNumber
        requires { number < 16 }
        ensures { result ≡ number }
    {
        ThreadNumber { number }
    }

    /// Its number.
    pub(crate) fn number(&self) -> u32
        ensures value { result ≡ self.now }
        ensures few { self.now < 16 }
    {
        self.number
    }
}

/// A set of threads of a run.
#[derive(Clone, Copy, Debug)]
pub(crate) struct ThreadSet {
    members: [bool; MOST_THREADS],
}

impl ThreadSet {
    /// No threads.
    pub(crate) fn new() -> ThreadSet
        ensures { (thread : ℕ) → has_thread result thread ≡ false }
    {
        ThreadSet {
            members: [false; MOST_THREADS],
        }
    }

    /// Adds a thread.
    pub(crate) fn insert(&mut self, thread: ThreadNumber)
        ensures { (other : ℕ) → has_thread self.new other ≡ (thread == other || has_thread self.old other) }
    {
        self.members[thread.number() as usize] = true;
    }

    /// Whether a thread is in the set.
    pub(crate) fn contains(&self, thread: ThreadNumber) -> bool
        ensures { result ≡ has_thread self.now thread }
    {
        self.members[thread.number() as usize]
    }
}
