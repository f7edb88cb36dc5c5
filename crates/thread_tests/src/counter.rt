//! Two threads that each add 1 to a counter twice.

use crate::programs::{COUNTER, Program};
use crate::runs::{recorded, replays};
use std::process::Abort;
use std::test::Fail;
use wasm_record::{Never, Recording};
use wasm_types::{Outcome, Value};

/// Checks that the counter came to 4, and that the second values that the threads met are a pair that can be.
fn check_end(abort: &impl Abort, recording: &Recording) {
    let ended = recording.recorded().end();
    assert_eq!(abort; ended.memory().first(), Some(&4));
    let pairs = [(1, 3), (2, 3), (3, 2), (3, 1)];
    let found = match ended.outcomes() {
        [
            Outcome::Done(Some(Value::I32(first))),
            Outcome::Done(Some(Value::I32(second))),
        ] => (*first, *second),
        _ => (0, 0),
    };
    assert!(abort; pairs.contains(&found), "the threads came to {found:?}");
}

/// A recording by threads comes to one of the ends that there are, and each of its replays to the same.
#[test]
fn counts_to_four(rt: HostRuntime) -> Result<(), Fail> {
    let alloc = rt.alloc();
    let program = Program::read(alloc, COUNTER)?;
    let recording = recorded(&rt, &rt, alloc, &program, &Never)?;
    check_end(&rt, &recording);
    replays(&rt, &rt, alloc, &program, &recording)
}
