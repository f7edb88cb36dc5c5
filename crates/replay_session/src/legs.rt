//! Ways of replays: lists of legs.

ghost use Rattle.std.specs.Prelude.{◌≡◌, ◌+◌, ◌<◌, ◌≤◌, IfOk, vec_len, vec_capacity};
ghost use Rattle.replay_session.specs.Legs.{steps_of_leg, steps_of_way, leg_with, first_of_leg, first_steps, with_thread, with_rounds};

use std::alloc::Global;
use wasm_types::NoMemory;

/// A stretch of the way that a replay has gone.
#[derive(Clone, Copy, Debug, PartialEq, Eq)]
pub enum Leg {
    /// So many turns of this thread, one behind the other, each of which made a step.
    Thread { thread: u32, steps: u64 },
    /// Turns of threads 0, 1, .. in rounds, until all threads together had made so many steps.
    Rounds { steps: u64 },
}

impl Leg {
    /// How many steps it has.
    pub fn steps(self) -> u64
        ensures { result ≡ steps_of_leg self }
    {
        match self {
            Leg::Thread { thread: _, steps } | Leg::Rounds { steps } => steps,
        }
    }

    /// The leg with so many steps in place of its own.
    pub(crate) fn with(self, steps: u64) -> Leg
        ensures { result ≡ leg_with self steps }
    {
        match self {
            Leg::Thread { thread, steps: _ } => Leg::Thread { thread, steps },
            Leg::Rounds { steps: _ } => Leg::Rounds { steps },
        }
    }
}

/// How many steps a way has.
pub(crate) fn steps_of_way(legs: &[Leg]) -> u64
    requires { steps_of_way legs.now ≤ 16000000000 }
    ensures { result ≡ steps_of_way legs.now }
{
    let mut sum: u64 = 0;
    for leg in legs {
        sum += leg.steps();
    }
    sum
}

/// The first steps of a way.
pub(crate) fn first_steps(alloc: Global, legs: &[Leg], steps: u64) -> Result<Vec<Leg>, NoMemory>
    ensures { IfOk result (λ first. first.items ≡ first_steps legs.now steps) }
{
    let mut first = Vec::new(alloc);
    let mut left = steps;
    for leg in legs {
        let of_leg = leg.steps();
        if left < of_leg {
            if left > 0 {
                first.push(leg.with(left))?;
            }
            return Ok(first);
        }
        first.push(*leg)?;
        left -= of_leg;
    }
    Ok(first)
}

/// Puts steps of a thread behind a way that has room.
pub(crate) fn put_thread(legs: &mut Vec<Leg>, thread: u32, steps: u64)
    requires room { vec_len legs.old < vec_capacity legs.old }
    requires few { steps_of_way legs.old.items + steps ≤ 16000000000 }
    ensures { legs.new.items ≡ with_thread legs.old.items thread steps }
{
    if steps == 0 {
        return;
    }
    let more = Leg::Thread { thread, steps };
    match legs.pop() {
        None => legs.push_reserved(more),
        Some(
            Leg::Thread {
                thread: last,
                steps: before,
            },
        ) => {
            if last == thread {
                let steps = before + steps;
                legs.push_reserved(Leg::Thread { thread, steps });
            } else {
                legs.push_reserved(Leg::Thread {
                    thread: last,
                    steps: before,
                });
                legs.push_reserved(more);
            }
        }
        Some(Leg::Rounds { steps: before }) => {
            legs.push_reserved(Leg::Rounds { steps: before });
            legs.push_reserved(more);
        }
    }
}

/// Puts rounds behind a way that has room.
pub(crate) fn put_rounds(legs: &mut Vec<Leg>, steps: u64)
    requires { vec_len legs.old < vec_capacity legs.old }
    ensures { legs.new.items ≡ with_rounds legs.old.items steps }
{
    if steps > 0 {
        legs.push_reserved(Leg::Rounds { steps });
    }
}
