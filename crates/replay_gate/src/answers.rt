//! Answers of gates, turns and replays.

ghost use Rattle.std.specs.Prelude.{◌≡◌};
ghost use Rattle.replay_gate.specs.Answers.{fault_of};

use replay_laws::Refusal;
use thiserror::Error;

/// What the log says of a thread's next event.
#[derive(Clone, Copy, Debug, PartialEq, Eq)]
pub enum Gate {
    /// The thread's end, or the entry, is not known.
    Missing,
    /// Two ends of the thread, or two entries, were claimed.
    Clash,
    /// The place is at or past the end's places.
    Done,
    /// Each touched object is as the entry found it.
    Open,
    /// Some touched object is not.
    Shut,
}

/// What a turn of a replay did.
#[derive(Clone, Copy, Debug, PartialEq, Eq)]
pub enum Turned {
    /// The thread made a local step.
    Local,
    /// The thread made its next event.
    Event,
    /// The thread stands at its logged end, or there is none of that number. Nothing changed.
    Done,
}

/// Why a replay does not come to its end.
#[derive(Clone, Copy, Debug, PartialEq, Eq, Error)]
pub enum ReplayFault {
    /// Refusal 52: two ends of this thread, or two entries at its next place, were claimed.
    #[error("claims of thread {thread} differ, of its end or of place {place}")]
    Clash { thread: u32, place: u32 },
    /// Refusal 53: the thread's end, or the entry at its next place, is not known.
    #[error("the end of thread {thread} is not known, or its place {place}")]
    Missing { thread: u32, place: u32 },
    /// Refusal 54: the gate is shut.
    #[error("the gate is shut")]
    Shut,
    /// Refusal 55: the thread can't do what the log says of it.
    #[error("thread {thread} does not do what the log says of it at place {place}")]
    Diverged { thread: u32, place: u32 },
    /// Refusal 56: memory could not be had.
    #[error("out of memory")]
    NoMemory,
    /// Refusal 57: a whole round made no step, and not all threads are done.
    #[error("no thread can go on, and not all are done")]
    Stuck,
}

/// A refusal of a turn of a thread whose next place is this, as a fault.
pub(crate) fn fault_of(refusal: Refusal, thread: u32, place: u32) -> ReplayFault
    ensures { result ≡ fault_of refusal thread place }
{
    match refusal {
        Refusal::Missing => ReplayFault::Missing { thread, place },
        Refusal::Clash => ReplayFault::Clash { thread, place },
        Refusal::Shut => ReplayFault::Shut,
        Refusal::Diverged => ReplayFault::Diverged { thread, place },
    }
}
