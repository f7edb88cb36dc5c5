//! Two threads that read the same object at the same time.

use crate::meeting::Meeting;
use crate::programs::{Program, READERS};
use crate::runs::gathered;
use replica::Log;
use std::alloc::Global;
use std::process::Abort;
use std::sync::Wait;
use std::test::Fail;
use std::thread::Threads;
use wasm_record::{Never, Recording};

/// Checks that two threads were inside at once.
fn check(abort: &impl Abort, hold: &Meeting) {
    assert!(abort; hold.met_before(), "the system made no two threads");
    assert!(abort; hold.met_inside(), "a reader keeps another one out");
}

/// Records two readers that meet.
fn record<R: Threads + Wait + Sync>(
    rt: &R,
    abort: &impl Abort,
    alloc: Global,
    program: &Program,
) -> Result<Recording, Fail> {
    let hold = Meeting::new();
    let recording = program.record(rt, alloc, 1000, &Never, &hold)?;
    check(abort, &hold);
    Ok(recording)
}

/// Replays two readers that meet.
fn replay<R: Threads + Wait + Sync>(
    rt: &R,
    abort: &impl Abort,
    alloc: Global,
    program: &Program,
    log: &Log,
) -> Result<(), Fail> {
    let hold = Meeting::new();
    program.replay_by_threads(rt, alloc, log, &hold)?;
    check(abort, &hold);
    Ok(())
}

/// Of a recording and of its replay each reads while the other does. Where a reader kept the other out they would not
/// meet.
#[test]
fn two_read_at_once(rt: HostRuntime) -> Result<(), Fail> {
    let alloc = rt.alloc();
    let program = Program::read(alloc, READERS)?;
    let recording = record(&rt, &rt, alloc, &program)?;
    let replica = gathered(alloc, &recording, 1)?;
    replay(&rt, &rt, alloc, &program, replica.log())
}
