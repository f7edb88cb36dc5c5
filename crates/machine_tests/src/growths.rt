//! Want of memory. `rt try --test --fail-alloc N` refuses the Nth growth; without it none is refused, and the tests
//! pass, too. What was refused is tried again, and the thread then ends as without the refusal.

use crate::trials::{Case, SHARED, Way, advance, check};
use rw_objects::{Machine, Next};
use std::test::Fail;
use wasm_types::{NoMemory, Op, Profile, Reply, Value};
use wasm_world::ThreadState;

/// What is done again where memory was wanted.
#[derive(Clone, Copy, Debug)]
pub(crate) enum Refused {
    /// Each step.
    Steps,
    /// Runs of local steps, and a step behind each.
    Runs,
    /// Room for each step. The step then wants no memory.
    Room,
}

/// The length of the memory and what function 1 gives for 12; which calls itself from inside three blocks, down to 0,
/// with three lengths on its operands, and has two locals. All stacks grow, and the first word is a reply's.
const GROWING: Case<'static> = Case {
    imports: "",
    memory: SHARED,
    functions: "0003",
    segments: "",
    bodies: "00 3f00 410c 1001 6a 0b / \
        01027e 0240 0240 0240 2000 45 0d00 3f00 3f00 3f00 6a 6a 2000 4101 6b 1001 6a 0f 0b 0b 0b 4100 0b",
    lines: "thread f",
};

/// How a thread of it ends, with replies of 1 throughout.
const ENDED: &str = "219 steps, i32 37";

const STEPS: u32 = 219;

/// Makes the next step, if there is one.
fn try_step(state: &mut ThreadState<'_>) -> Result<(), NoMemory> {
    let next = state.next();
    advance(state, next, Some(Reply::Value(Value::I32(1))))?;
    Ok(())
}

/// Whether a thread does next what it would do, and made so many steps.
fn stands(state: &ThreadState<'_>, next: Next<Op>, steps: u32) -> bool {
    state.next() == next && state.steps() == steps
}

/// Makes the next step. Where memory was wanted, the thread is as before, and the same step is made.
fn step_again(state: &mut ThreadState<'_>) -> Result<(), Fail> {
    let (next, steps) = (state.next(), state.steps());
    if try_step(state).is_err() {
        if !stands(state, next, steps) {
            return Err(Fail::new("the thread changed"));
        }
        try_step(state)?;
    }
    Ok(())
}

/// Makes up to seven local steps. Where memory was wanted, the next step is local, and the run goes on from there.
fn run_again(state: &mut ThreadState<'_>) -> Result<(), Fail> {
    if state.local_run(7).is_err() {
        let Next::Local = state.next() else {
            return Err(Fail::new("the next step is not local"));
        };
        state.local_run(7)?;
    }
    Ok(())
}

/// Takes room for the next step, and makes it. Where memory was wanted for the room, the thread is as before. The step
/// then wants none.
fn step_in_room(state: &mut ThreadState<'_>) -> Result<(), Fail> {
    let (next, steps) = (state.next(), state.steps());
    if state.room().is_err() {
        state.room()?;
    }
    if !stands(state, next, steps) {
        return Err(Fail::new("the thread changed"));
    }
    if try_step(state).is_err() {
        return Err(Fail::new("a step in room wants memory"));
    }
    Ok(())
}

/// Makes the steps of such a thread.
pub(crate) fn grow(state: &mut ThreadState<'_>, refused: Refused) -> Result<(), Fail> {
    for _ in 0..STEPS {
        match refused {
            Refused::Steps => step_again(state)?,
            Refused::Runs => {
                run_again(state)?;
                step_again(state)?;
            }
            Refused::Room => step_in_room(state)?,
        }
    }
    Ok(())
}

#[test]
fn what_was_refused_is_done_again(rt: HostRuntime) -> Result<(), Fail> {
    for refused in [Refused::Steps, Refused::Runs, Refused::Room] {
        check(
            &rt,
            rt.alloc(),
            &GROWING,
            &Profile::One,
            Way::Refused(refused),
            ENDED,
        )?;
    }
    Ok(())
}
