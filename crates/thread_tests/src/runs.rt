//! Recordings by threads, and their replays.

use crate::counting::Counting;
use crate::programs::Program;
use debug_views::report;
use event_core::Ended;
use replica::{Flat, Log, Replica};
use run_pieces::Piece;
use std::alloc::Global;
use std::process::Abort;
use std::sync::Wait;
use std::test::Fail;
use std::thread::Threads;
use wasm_record::{Recording, Timer, Unkept};

/// Delivers pieces.
fn deliver(alloc: Global, replica: &mut Replica, pieces: &[Piece]) -> Result<(), Fail> {
    for piece in pieces {
        replica.deliver(alloc, piece)?;
    }
    Ok(())
}

/// What is gathered of the pieces of a recording, which have so many entries.
pub(crate) fn gathered(alloc: Global, recording: &Recording, most: u32) -> Result<Replica, Fail> {
    let pieces = recording.pieces(alloc, most)?;
    let mut replica = Replica::new(alloc, *recording.key());
    deliver(alloc, &mut replica, &pieces)?;
    Ok(replica)
}

/// How many events of a thread a log has, by its end.
fn events_of(log: &Log, thread: u32) -> u32 {
    match log.end(thread) {
        Some(Flat::Known(end)) => end.places,
        _ => 0,
    }
}

/// How many events a log has, by its ends.
fn events(log: &Log) -> u64 {
    let mut events = 0u64;
    for thread in 0..16 {
        events = events.wrapping_add(u64::from(events_of(log, thread)));
    }
    events
}

/// Whether the calls of a thread at so many places were entered once each.
fn are_entered(hold: &Counting, thread: u32, places: u32) -> bool {
    for place in 0..places {
        if hold.entered_at(thread, place) != 1 {
            return false;
        }
    }
    true
}

/// Checks that each event of a log was entered once, by its thread and at its place, and nothing else, and that two
/// threads were at it at once.
fn check(abort: &impl Abort, hold: &Counting, log: &Log) {
    assert!(abort; hold.has_met(), "the threads took turns");
    assert_eq!(abort; hold.entered(), events(log));
    for thread in 0..16 {
        assert!(abort;
            are_entered(hold, thread, events_of(log, thread)),
            "the calls of thread {thread} are not those of the log"
        );
    }
}

/// Records a run by threads, and checks that all its events were made by them, at once, and none once they had ended.
pub(crate) fn recorded<T: Timer + Sync, R: Threads + Wait + Sync>(
    rt: &R,
    abort: &impl Abort,
    alloc: Global,
    program: &Program,
    timer: &T,
) -> Result<Recording, Fail> {
    let hold = Counting::new();
    let recording = program.record(rt, alloc, 1_000_000, timer, &hold)?;
    let replica = gathered(alloc, &recording, 1)?;
    check(abort, &hold, replica.log());
    Ok(recording)
}

/// Checks that the report of an end is the recorded one.
fn same_report(
    abort: &impl Abort,
    alloc: Global,
    ended: &Ended,
    recorded: &Ended,
) -> Result<(), Fail> {
    let found = report(alloc, ended)?;
    let wanted = report(alloc, recorded)?;
    assert_eq!(abort; found.as_str(), wanted.as_str());
    Ok(())
}

/// Replays a log by threads, which make all its events at once, and checks the report.
fn replay_at_once<R: Threads + Wait + Sync>(
    rt: &R,
    abort: &impl Abort,
    alloc: Global,
    program: &Program,
    log: &Log,
    recorded: &Ended,
) -> Result<(), Fail> {
    let hold = Counting::new();
    let ended = program.replay_by_threads(rt, alloc, log, &hold)?;
    check(abort, &hold, log);
    same_report(abort, alloc, &ended, recorded)
}

/// Replays a log in an order, and by threads, and checks the reports.
fn replay_both<R: Threads + Wait + Sync>(
    rt: &R,
    abort: &impl Abort,
    alloc: Global,
    program: &Program,
    log: &Log,
    recorded: &Ended,
) -> Result<(), Fail> {
    let ordered = program.replay_in_order(alloc, log, &[1, 1, 0])?;
    same_report(abort, alloc, &ordered, recorded)?;
    let threaded = program.replay_by_threads(rt, alloc, log, &Unkept)?;
    same_report(abort, alloc, &threaded, recorded)
}

/// Replays the log of a recording once in an order and once by threads.
pub(crate) fn replay_once<R: Threads + Wait + Sync>(
    rt: &R,
    abort: &impl Abort,
    alloc: Global,
    program: &Program,
    recording: &Recording,
) -> Result<(), Fail> {
    let replica = gathered(alloc, recording, 4096)?;
    let recorded = recording.recorded().end();
    replay_both(rt, abort, alloc, program, replica.log(), recorded)
}

/// Replays the log of a recording 20 times in an order and 20 times by threads, and once where two threads meet.
pub(crate) fn replays<R: Threads + Wait + Sync>(
    rt: &R,
    abort: &impl Abort,
    alloc: Global,
    program: &Program,
    recording: &Recording,
) -> Result<(), Fail> {
    let replica = gathered(alloc, recording, 1)?;
    let recorded = recording.recorded().end();
    replay_at_once(rt, abort, alloc, program, replica.log(), recorded)?;
    for _ in 0..20 {
        replay_both(rt, abort, alloc, program, replica.log(), recorded)?;
    }
    Ok(())
}
