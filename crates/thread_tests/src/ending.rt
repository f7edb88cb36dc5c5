//! A thread that ends while others still go on.

use crate::programs::{LEAVING, Program};
use crate::runs::replay_once;
use std::alloc::Global;
use std::process::Abort;
use std::sync::Wait;
use std::test::Fail;
use std::thread::{self, Threads};
use wasm_record::{AtOnce, Hold, Recording};
use wasm_types::{MOST_STEPS, Outcome, Value};

/// Has the thread that wakes give up its turn before each call, so that it wakes few times in vain.
#[derive(Clone, Copy, Drop)]
struct Patient;

impl Hold for Patient {
    fn before(&self, thread: u32, _place: u64) {
        if thread == 1 {
            thread::yield_now();
        }
    }

    fn inside(&self, _thread: u32, _place: u64) {}

    fn after(&self, _thread: u32, _place: u64) {}
}

/// Records the three, and checks that they came to the one end that there is.
fn record<R: Threads + Wait + Sync>(
    rt: &R,
    abort: &impl Abort,
    alloc: Global,
    program: &Program,
) -> Result<Recording, Fail> {
    let recording = program.record(rt, alloc, MOST_STEPS, &AtOnce, &Patient)?;
    let timed_out = Outcome::Done(Some(Value::I32(2)));
    let wanted = [timed_out, Outcome::Done(None), Outcome::Done(None)];
    assert_eq!(abort; recording.recorded().end().outcomes(), wanted.as_slice());
    Ok(recording)
}

/// Records the three 50 times.
fn record_all<R: Threads + Wait + Sync>(
    rt: &R,
    abort: &impl Abort,
    alloc: Global,
    program: &Program,
) -> Result<(), Fail> {
    for _ in 0..50 {
        let _recording = record(rt, abort, alloc, program)?;
    }
    Ok(())
}

/// A sleeper is not told that nobody can go on since one thread has ended: it is woken, and its second wait times out.
#[test]
fn an_early_end_stops_nobody(rt: HostRuntime) -> Result<(), Fail> {
    let alloc = rt.alloc();
    let program = Program::read(alloc, LEAVING)?;
    record_all(&rt, &rt, alloc, &program)?;
    let recording = record(&rt, &rt, alloc, &program)?;
    replay_once(&rt, &rt, alloc, &program, &recording)
}
