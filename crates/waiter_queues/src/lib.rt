//! The shared memory that runs: blocks of bytes with waiter queues, as a space of objects.
//!
//! `ObjectSpace for SharedSpace`: a lawful space, so touches, readiness, answer and writes of an operation hang on it
//! and on the objects that it touches alone.
#![tactic(auto)]

mod queue;
mod queues;
mod space;

pub use queue::Queue;
pub use queues::Queues;
pub use space::SharedSpace;
