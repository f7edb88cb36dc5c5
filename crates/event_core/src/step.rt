//! What a pick does, and what it answers.

use rw_objects::Entry;
use std::error::Error;
use std::fmt;

/// Why a pick made no step.
#[derive(Clone, Copy, Debug, PartialEq, Eq)]
pub enum StepFault {
    /// Refusal 21: the thread is to go on, but it sleeps and was not woken.
    Asleep,
    /// Refusal 22: the thread ended, made 1,000,000,000 steps, or does not exist. This is tested first.
    Halted,
    /// Refusal 23: memory could not be had.
    NoMemory,
    /// Refusal 24: the thread is to time out, but it does not sleep, was woken already, or waits without a limit of
    /// time.
    NotWaiting,
}

/// What a step was.
#[derive(Debug, PartialEq, Eq, Drop)]
pub enum Stepped {
    /// It touched no object.
    Local,
    /// It was an event, which its thread logs so.
    Event(Entry),
}

/// The step of a pick, before it is made; `O` is the type of the operations on objects.
#[derive(Clone, Copy, Debug, Drop)]
pub enum PickStep<O> {
    /// There is none: the pick is not enabled.
    Refused(StepFault),
    /// One that touches no object.
    Local,
    /// This operation.
    Event(O),
}

impl fmt::Display for StepFault {
    fn fmt<W: fmt::Write>(&self, f: &mut fmt::Formatter<W>) -> fmt::Result {
        f.write_str(match self {
            StepFault::Asleep => "asleep",
            StepFault::Halted => "halted",
            StepFault::NoMemory => "out of memory",
            StepFault::NotWaiting => "not waiting",
        })
    }
}

impl Error for StepFault {}
