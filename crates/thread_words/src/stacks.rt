//! The stacks of a thread.

use wasm_types::Outcome;

/// A block that is open.
#[derive(Clone, Copy, Debug, PartialEq, Eq)]
pub struct Label {
    /// The place of the instruction that opened it, numbered from 0 in its function.
    pub opener: u32,
    /// How many words there were below its operands, counted from word 0 of the thread, modulo 2^32.
    pub height: u32,
}

/// Where a function stands.
#[derive(Clone, Copy, Debug, PartialEq, Eq)]
pub struct Level {
    /// The function's index.
    pub function: u32,
    /// The next instruction, numbered from 0.
    pub place: u32,
    /// How many words are below its own.
    pub words: usize,
    /// How many labels are below its own.
    pub labels: usize,
}

/// Whether a thread goes on.
#[derive(Clone, Copy, Debug, PartialEq, Eq)]
pub enum Stage {
    Running,
    /// It waits at an address, for so many nanoseconds; a negative number is without end.
    Sleeping { address: u32, time: i64 },
    Ended(Outcome),
}

/// A thread: the words of all its functions stand one after the other, of each first its locals and then its operands,
/// and so do their labels.
#[derive(Drop)]
pub struct Stacks {
    pub stage: Stage,
    /// The function that runs.
    pub here: Level,
    /// Its callers, the innermost last.
    pub callers: Vec<Level>,
    /// Whether the start function has not returned. The exported function then is the outermost caller.
    pub starting: bool,
    pub words: Vec<u64>,
    pub labels: Vec<Label>,
    pub globals: Vec<u64>,
}
