//! The waiter queues of a memory.

ghost use Rattle.std.specs.Prelude.{◌≡◌, ◌<◌, ◌≤◌, ℕ, length, slice_set, replicate, vec_capacity, IfOk};
ghost use Rattle.block_objects.specs.Queues.{no_waiters, is_woken, waits_at, chosen, after_wait, after_notify, after_resume, after_time_out};
ghost use Rattle.waiter_queues.specs.Shared.{queue_at};
ghost use Rattle.waiter_queues.specs.Made.{all_queues};

use crate::queue::Queue;
use std::alloc::Global;
use std::marker::Model;
use wasm_types::NoMemory;

/// The waiter queue of each block. A queue is made once a thread comes to wait at its block, or at one behind it, in
/// room that is had from the start: so a memory opens without a step for each block, and nothing later takes memory.
/// Contracts see the list of all queues, by block.
#[derive(Drop)]
pub struct Queues {
    /// The queues that are made.
    made: Vec<Queue>,
    /// How many there are in all.
    count: usize,
    /// What stands for each that is not made.
    nobody: Queue,
}

impl Model for Queues {
    ghost use Rattle.std.specs.Prelude.{List, vec_capacity};
    ghost use Rattle.block_objects.specs.Objects.{QueueAt};
    ghost use Rattle.waiter_queues.specs.Made.{all_queues, HasRoomFor};

    ghost Value = { List QueueAt };

    ghost view = { λ q. all_queues q.count q.made.items };

    ghost invariant = { λ q. HasRoomFor q.count (vec_capacity q.made) q.made.items q.nobody };
}

/// Makes the queues up to that of a block.
fn make_up_to(made: &mut Vec<Queue>, block: usize)
    requires { block < vec_capacity made.old }
    ensures made { block < length made.new.items }
    ensures few { (count : ℕ) → block < count → length made.old.items ≤ count → length made.new.items ≤ count }
    ensures same { (count : ℕ) → block < count → length made.old.items ≤ count → all_queues count made.new.items ≡ all_queues count made.old.items }
    ensures room { vec_capacity made.old ≤ vec_capacity made.new }
{
    while made.len() <= block {
        let Ok(()) = made.push(Queue::new()) else {
            unreachable!()
        };
    }
}

/// The same queues once more, with room for so many.
fn copied_queues(alloc: Global, queues: &[Queue], room: usize) -> Result<Vec<Queue>, NoMemory>
    ensures queues { IfOk result (λ copy. copy.items ≡ queues.now) }
    ensures room { IfOk result (λ copy. room ≤ vec_capacity copy) }
{
    let mut copy = Vec::with_capacity(alloc, room)?;
    for queue in queues {
        copy.push(queue.copy())?;
    }
    Ok(copy)
}

impl Queues {
    /// So many queues, in which nobody stands. Nothing later takes memory.
    pub fn new(alloc: Global, count: u32) -> Result<Queues, NoMemory>
        ensures { IfOk result (λ queues. queues ≡ replicate count no_waiters) }
    {
        let count = count as usize;
        let made = Vec::with_capacity(alloc, count)?;
        Ok(Queues {
            made,
            count,
            nobody: Queue::new(),
        })
    }

    /// The same queues once more.
    pub fn copied(&self, alloc: Global) -> Result<Queues, NoMemory>
        ensures { IfOk result (λ copy. copy ≡ self.now) }
    {
        let made = copied_queues(alloc, self.made.as_slice(), self.count)?;
        Ok(Queues {
            made,
            count: self.count,
            nobody: Queue::new(),
        })
    }

    /// The queue of a block.
    pub fn at(&self, block: usize) -> &Queue
        requires { block < length self.now }
        ensures { result.now ≡ queue_at self.now block }
    {
        match self.made.get(block) {
            Some(queue) => queue,
            None => &self.nobody,
        }
    }

    /// Puts a queue in the place of that of a block.
    pub fn put(&mut self, block: usize, queue: Queue)
        requires { block < length self.old }
        ensures { self.new ≡ slice_set self.old block queue }
    {
        if block >= self.made.len() && queue.is_empty() {
            return;
        }
        make_up_to(&mut self.made, block);
        self.made[block] = queue;
    }

    /// A thread comes to wait in the queue of a block.
    pub fn wait(&mut self, block: usize, thread: u32, address: u32)
        requires { block < length self.old }
        ensures { self.new ≡ slice_set self.old block (after_wait thread address (queue_at self.old block)) }
    {
        make_up_to(&mut self.made, block);
        self.made[block].wait(thread, address);
    }

    /// Wakes the first waiters at an address in the queue of a block, at most `count` of them, and answers how many.
    pub fn notify(&mut self, block: usize, address: u32, count: u32) -> u32
        requires { block < length self.old }
        ensures woken { result ≡ length (chosen address count (queue_at self.old block).waiting) }
        ensures queues { self.new ≡ slice_set self.old block (after_notify address count (queue_at self.old block)) }
    {
        if block < self.made.len() {
            self.made[block].notify(address, count)
        } else {
            0
        }
    }

    /// A woken thread goes on from the queue of a block.
    pub fn resume(&mut self, block: usize, thread: u32)
        requires { block < length self.old }
        ensures { self.new ≡ slice_set self.old block (after_resume thread (queue_at self.old block)) }
    {
        if block < self.made.len() {
            self.made[block].resume(thread);
        }
    }

    /// A waiter that was not woken goes on from the queue of a block.
    pub fn time_out(&mut self, block: usize, thread: u32, address: u32)
        requires { block < length self.old }
        ensures { self.new ≡ slice_set self.old block (after_time_out thread address (queue_at self.old block)) }
    {
        if block < self.made.len() {
            self.made[block].time_out(thread, address);
        }
    }
}
