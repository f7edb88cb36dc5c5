//! One waiter queue.

ghost use Rattle.std.specs.Prelude.{◌≡◌, ◌+◌, ◌≤◌, ◌==◌, true, [], ◌++◌, length};
ghost use Rattle.std.specs.List.{list_any};
ghost use Rattle.block_objects.specs.Queues.{no_waiters, is_woken, waits_at, stands_in, after_wait, chosen, left_waiting, after_notify, after_resume, after_time_out};

use arrayvec::ArrayVec;
use block_objects::Waiter;
use std::marker::Model;

/// The waiter queue of a block: who waits, in order of arrival, and which threads were woken and have not gone on
/// (threads proposal). It has room for threads 0 to 15 from the start.
#[derive(Drop)]
pub struct Queue {
    waiting: ArrayVec<Waiter, 16>,
    woken: ArrayVec<u32, 16>,
}

impl Model for Queue {
    ghost use Rattle.block_objects.specs.Objects.{QueueAt};
    ghost use Rattle.waiter_queues.specs.Kept.{IsKept};

    ghost Value = { QueueAt };

    ghost view = { λ q. record { waiting = q.waiting.items; woken = q.woken.items } };

    ghost invariant = { λ q. IsKept (record { waiting = q.waiting.items; woken = q.woken.items }) };
}

impl Queue {
    /// A queue in which nobody stands.
    pub fn new() -> Queue
        ensures { result ≡ no_waiters }
    {
        Queue {
            waiting: ArrayVec::new(),
            woken: ArrayVec::new(),
        }
    }

    /// Whether a thread was woken and has not gone on.
    pub fn is_woken(&self, thread: u32) -> bool
        ensures { result ≡ is_woken thread self.now }
    {
        self.woken.as_slice().iter().any(|t| *t == thread)
    }

    /// Whether a thread waits at an address.
    pub fn waits_at(&self, thread: u32, address: u32) -> bool
        ensures { result ≡ waits_at thread address self.now }
    {
        self.waiting
            .as_slice()
            .iter()
            .any(|w| w.thread == thread && w.address == address)
    }

    /// Whether a thread waits, at any address.
    fn waits(&self, thread: u32) -> bool
        ensures { result ≡ list_any (λ w. w.thread == thread) self.now.waiting }
    {
        self.waiting.as_slice().iter().any(|w| w.thread == thread)
    }

    /// Whether a thread stands in one of the lists.
    fn has(&self, thread: u32) -> bool
        ensures { result ≡ stands_in thread self.now }
    {
        self.waits(thread) || self.is_woken(thread)
    }

    /// Whether nobody stands in it.
    pub fn is_empty(&self) -> bool
        ensures { result ≡ true → self.now ≡ no_waiters }
    {
        self.waiting.is_empty() && self.woken.is_empty()
    }

    /// The same queue once more. It takes no memory.
    pub fn copy(&self) -> Queue
        ensures { result ≡ self.now }
    {
        let mut waiting = ArrayVec::new();
        let mut woken = ArrayVec::new();
        let (Ok(()), Ok(())) = (
            waiting.try_extend_from_slice(self.waiting.as_slice()),
            woken.try_extend_from_slice(self.woken.as_slice()),
        ) else {
            unreachable!()
        };
        Queue { waiting, woken }
    }

    /// A thread comes to wait at an address, behind the others. A thread above 15, or one that stands in one of the
    /// lists already, changes nothing.
    pub fn wait(&mut self, thread: u32, address: u32)
        ensures { self.new ≡ after_wait thread address self.old }
    {
        if thread < 16 && !self.has(thread) {
            self.waiting.push(Waiter { thread, address });
        }
    }

    /// Wakes the first waiters at an address, at most `count` of them, and answers how many.
    pub fn notify(&mut self, address: u32, count: u32) -> u32
        ensures woken { result ≡ length (chosen address count self.old.waiting) }
        ensures queue { self.new ≡ after_notify address count self.old }
    {
        let mut waiting = ArrayVec::new();
        let woken = wake(
            self.waiting.as_slice(),
            address,
            count,
            &mut waiting,
            &mut self.woken,
        );
        self.waiting = waiting;
        woken
    }

    /// How many threads a notify would wake: the first waiters at an address, at most `count` of them.
    pub fn would_wake(&self, address: u32, count: u32) -> u32
        ensures { result ≡ length (chosen address count self.now.waiting) }
    {
        let mut copy = self.copy();
        copy.notify(address, count)
    }

    /// A woken thread goes on.
    pub fn resume(&mut self, thread: u32)
        ensures { self.new ≡ after_resume thread self.old }
    {
        let mut woken = ArrayVec::new();
        for other in self.woken.as_slice() {
            if *other != thread {
                woken.push(*other);
            }
        }
        self.woken = woken;
    }

    /// A waiter that was not woken goes on.
    pub fn time_out(&mut self, thread: u32, address: u32)
        ensures { self.new ≡ after_time_out thread address self.old }
    {
        let mut waiting = ArrayVec::new();
        for waiter in self.waiting.as_slice() {
            if !(waiter.thread == thread && waiter.address == address) {
                waiting.push(*waiter);
            }
        }
        self.waiting = waiting;
    }
}

/// Puts the first waiters at an address, at most `count` of them, behind the woken threads, and the others into
/// `waiting`. Answers how many were woken.
fn wake(
    waiters: &[Waiter],
    address: u32,
    count: u32,
    waiting: &mut ArrayVec<Waiter, 16>,
    woken: &mut ArrayVec<u32, 16>,
) -> u32
    requires empty { waiting.old.items ≡ [] }
    requires room { length waiters.now + length woken.old.items ≤ 16 }
    ensures count { result ≡ length (chosen address count waiters.now) }
    ensures waiting { waiting.new.items ≡ left_waiting address count waiters.now }
    ensures woken { woken.new.items ≡ woken.old.items ++ chosen address count waiters.now }
{
    let mut left = count;
    for waiter in waiters {
        if left > 0 && waiter.address == address {
            woken.push(waiter.thread);
            left -= 1;
        } else {
            waiting.push(*waiter);
        }
    }
    count - left
}
