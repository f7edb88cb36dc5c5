//! An attendant that counts.

use adapter_messages::{Attend, Body, Command, EventKind, Outcome, Reply, StopReason, Text, Told};
use std::alloc::{AllocError, Global};

/// Counts the requests that it attends. It holds back a launch, tells of a motion that its thread stands and how many
/// requests there were, knows no other command, and ends at `disconnect`.
#[derive(Drop)]
pub(crate) struct Counter {
    pub(crate) attended: u64,
}

/// A reply that tells nothing more.
pub(crate) fn told_nothing(outcome: Outcome, goes_on: bool) -> Reply {
    Reply {
        outcome,
        told: Told::none(),
        goes_on,
    }
}

impl Attend for Counter {
    ghost use Rattle.adapter_tests.specs.Attendants.{is_launch};

    ghost State = { Unit {0} };

    ghost state = { λ _. tt };

    ghost holds_back = { λ command _. is_launch command };

    ghost attends = { λ _ _ _ _. Unit {0} };

    ghost suits = { λ _. Unit {0} };

    fn waits_for(&self, command: &Command) -> bool {
        match command {
            Command::Launch { .. } => true,
            _ => false,
        }
    }

    fn attend(&mut self, alloc: Global, command: &Command) -> Result<Reply, AllocError> {
        self.attended = self.attended.saturating_add(1);
        match command {
            Command::Move { thread, .. } => {
                let stopped = EventKind::Stopped {
                    reason: StopReason::Step,
                    thread: *thread,
                    all_threads: true,
                };
                let exited = EventKind::Exited {
                    exit_code: self.attended,
                };
                Ok(Reply {
                    outcome: Outcome::Success(Body::Empty),
                    told: Told::two(stopped, exited),
                    goes_on: true,
                })
            }
            Command::Threads => Ok(told_nothing(Outcome::Success(Body::Empty), true)),
            Command::Disconnect => Ok(told_nothing(Outcome::Success(Body::Empty), false)),
            _ => match Text::new(alloc, "no such command") {
                Ok(message) => Ok(told_nothing(Outcome::Failure(message), true)),
                Err(AllocError) => Err(AllocError),
            },
        }
    }
}
