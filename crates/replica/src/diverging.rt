//! Contradictions in a log.

/// Where an event stands: the thread that made it, and its place among the thread's events, from 0 on.
#[derive(Clone, Copy, Debug, PartialEq, Eq)]
pub struct EventAt {
    pub thread: u32,
    pub place: u32,
}

/// A contradiction in a log.
#[derive(Clone, Copy, Debug, PartialEq, Eq)]
pub enum Diverging {
    /// Pieces claim an item of a thread differently: the entry at a place, or with no place the thread's end.
    Clash {
        thread: u32,
        place: Option<u32>,
    },
    /// Two known entries claim the write of one version of an object. `first` is the least, by thread and place, of all
    /// that do.
    DoubleWrite {
        object: u32,
        version: u64,
        first: EventAt,
        second: EventAt,
    },
}
