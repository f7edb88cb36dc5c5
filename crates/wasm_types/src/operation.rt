//! Operations on a shared memory, which threads ask for, and what they answer.

use crate::block::Block;
use crate::instruction::{Access, Load, RmwOp};
use crate::trap::Trap;
use crate::value::{ValType, Value};

/// The numbers of a memory that follow an operation on it, since they decide which objects it touches: the length in
/// pages with which the memory began, and the size of its blocks.
#[derive(Clone, Copy, Debug, PartialEq, Eq)]
pub struct Extent {
    pub initial: u32,
    pub block: Block,
}

/// What an operation does. Addresses are effective addresses in bytes; an operand has the bits of its type in its low
/// bits (WebAssembly Core 1.0 and the threads proposal).
#[derive(Clone, Copy, Debug, PartialEq, Eq)]
pub enum Action {
    /// A load, atomic or not.
    Load {
        load: Load,
        address: u32,
    },
    /// A store of the operand's low bits, atomic or not.
    Store {
        access: Access,
        address: u32,
        operand: u64,
    },
    /// An atomic read-modify-write. It answers the old value.
    Rmw {
        op: RmwOp,
        access: Access,
        address: u32,
        operand: u64,
    },
    /// An atomic compare-exchange. It answers the old value.
    CompareExchange {
        access: Access,
        address: u32,
        expected: u64,
        replacement: u64,
    },
    /// `memory.size`.
    Size,
    /// `memory.grow` by so many pages.
    Grow {
        pages: u32,
    },
    /// `wait32` or `wait64` of a thread.
    Wait {
        width: ValType,
        thread: u32,
        address: u32,
        expected: u64,
    },
    /// `memory.atomic.notify` of at most so many waiters.
    Notify {
        address: u32,
        count: u32,
    },
    /// A thread that was woken goes on behind its wait at the address.
    Resume {
        thread: u32,
        address: u32,
    },
    /// A thread that was not woken goes on behind its wait at the address.
    TimeOut {
        thread: u32,
        address: u32,
    },
}

/// An operation on a shared memory.
#[derive(Clone, Copy, Debug, PartialEq, Eq)]
pub struct Op {
    pub extent: Extent,
    pub action: Action,
}

/// What an operation answers.
#[derive(Clone, Copy, Debug, PartialEq, Eq)]
pub enum Reply {
    /// A store was made.
    Stored,
    /// What a load, a read-modify-write or a compare-exchange found, how many pages there were or -1, how many
    /// waiters were woken, or what a wait answers.
    Value(Value),
    /// The thread is stopped.
    Trap(Trap),
    /// The thread sleeps in the queue of its address.
    Sleeps,
}
