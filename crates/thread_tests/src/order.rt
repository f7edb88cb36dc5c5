//! The versions in a log are the order in which threads had the one object that they touch.

use crate::noting::Noting;
use crate::programs::{COUNTER, Program};
use crate::runs::gathered;
use replica::{Flat, Log};
use rw_objects::{Entry, Found};
use std::alloc::Global;
use std::process::Abort;
use std::sync::Wait;
use std::test::Fail;
use std::thread::Threads;
use wasm_record::{Never, Recording};

/// The events of two threads that add 1 to a counter twice.
const EVENTS: [(u32, u32); 4] = [(0, 0), (0, 1), (1, 0), (1, 1)];

/// The version that a single write met.
fn version_of(entry: &Entry) -> Option<u64> {
    match entry.found.as_slice() {
        [
            Found::Write {
                object: _,
                version,
                reads: _,
            },
        ] => Some(*version),
        _ => None,
    }
}

/// The version that an event of a log met.
fn version_at(log: &Log, thread: u32, place: u32) -> Option<u64> {
    match log.entry(thread, place) {
        Some(Flat::Known(entry)) => version_of(&entry),
        _ => None,
    }
}

/// Whether the note with the number that is an event's version is of this event.
fn is_noted(log: &Log, hold: &Noting, thread: u32, place: u32) -> bool {
    match version_at(log, thread, place) {
        Some(version) => hold.is_of(version, thread, place),
        None => false,
    }
}

/// Checks that each event was noted once, and those of each version as so many were noted before.
fn check(abort: &impl Abort, log: &Log, hold: &Noting) {
    assert_eq!(abort; hold.count(), 4);
    for (thread, place) in EVENTS {
        assert!(abort;
            is_noted(log, hold, thread, place),
            "event {place} of thread {thread} was made at another time"
        );
    }
}

/// Records two threads that are kept to an order, and checks the log. Answers the recording.
fn record<R: Threads + Wait + Sync>(
    rt: &R,
    abort: &impl Abort,
    alloc: Global,
    program: &Program,
    order: Option<[u32; 4]>,
) -> Result<Recording, Fail> {
    let hold = Noting::new(order);
    let recording = program.record(rt, alloc, 1000, &Never, &hold)?;
    let replica = gathered(alloc, &recording, 1)?;
    check(abort, replica.log(), &hold);
    Ok(recording)
}

/// Replays a recording by threads, and checks that the events are made in the order of the log.
fn replay<R: Threads + Wait + Sync>(
    rt: &R,
    abort: &impl Abort,
    alloc: Global,
    program: &Program,
    recording: &Recording,
) -> Result<(), Fail> {
    let replica = gathered(alloc, recording, 1)?;
    let hold = Noting::new(None);
    program.replay_by_threads(rt, alloc, replica.log(), &hold)?;
    check(abort, replica.log(), &hold);
    Ok(())
}

/// Records two threads, and replays them.
fn run<R: Threads + Wait + Sync>(
    rt: &R,
    abort: &impl Abort,
    alloc: Global,
    order: Option<[u32; 4]>,
) -> Result<(), Fail> {
    let program = Program::read(alloc, COUNTER)?;
    let recording = record(rt, abort, alloc, &program, order)?;
    replay(rt, abort, alloc, &program, &recording)
}

/// The log of threads that run free, and of threads that are kept to an order, is in the order of their calls.
#[test]
fn a_log_has_the_order_of_the_calls(rt: HostRuntime) -> Result<(), Fail> {
    for order in [None, Some([1, 0, 0, 1]), Some([0, 1, 1, 0])] {
        run(&rt, &rt, rt.alloc(), order)?;
    }
    Ok(())
}
