//! Want of memory in replays. Where each growth is refused in turn, as `bench/test_growths.py` does it, what was
//! refused has changed nothing, and the replay goes on to the same end. Without it none is refused, and the tests pass,
//! too.

use crate::breaks::{ACCESSES, SUMS};
use crate::logs::{ClaimedLog, SCRIPTS, Scripts};
use replay_gate::{OpenWorld, Replay, ReplayFault, Stopped, Turned, run_to};
use scripted::{Cells, Script};
use std::alloc::Global;
use std::process::Abort;
use std::test::Fail;

/// The replay of the log of three scripts.
type OfScripts<'a> = Replay<Script, Cells, ClaimedLog, Scripts<'a>>;

/// How many events each of three threads has made.
fn places(replay: &OfScripts<'_>) -> [Option<u32>; 3] {
    let world = replay.world();
    [world.places(0), world.places(1), world.places(2)]
}

/// Takes a turn, and where memory was wanted takes it again: the refused one made no event.
fn turn_again(
    abort: &impl Abort,
    alloc: Global,
    replay: &mut OfScripts<'_>,
    thread: u32,
) -> Result<Turned, ReplayFault> {
    let before = places(replay);
    match replay.turn(alloc, thread) {
        Err(ReplayFault::NoMemory) => {
            assert_eq!(abort; places(replay), before);
            replay.turn(alloc, thread)
        }
        taken => taken,
    }
}

/// Takes turns of these threads, each of which makes an event.
fn take_turns(abort: &impl Abort, alloc: Global, replay: &mut OfScripts<'_>, threads: &[u32]) {
    for thread in threads {
        let taken = turn_again(abort, alloc, replay, *thread);
        assert_eq!(abort; taken, Ok(Turned::Event), "{thread}");
    }
}

/// Runs to where the replay stops, and where memory was wanted goes on from there.
fn run_again(alloc: Global, replay: &mut OfScripts<'_>) -> Stopped {
    let stopped = run_to(alloc, replay, &[], &[]);
    if stopped == Stopped::Fault(ReplayFault::NoMemory) {
        return run_to(alloc, replay, &[], &[]);
    }
    stopped
}

#[test]
fn refused_turns_are_taken_again(rt: HostRuntime) -> Result<(), Fail> {
    let alloc = rt.alloc();
    let scripts = [&SCRIPTS[0][..], &SCRIPTS[1][..], &SCRIPTS[2][..]];
    let opens = Scripts { scripts: &scripts };
    let log = ClaimedLog {
        alloc,
        accesses: ACCESSES,
        sums: SUMS,
    };
    let mut replay = Replay::new(alloc, opens, log)?;
    take_turns(&rt, alloc, &mut replay, &[0, 0, 1, 1, 2, 2]);
    assert_eq!(rt; places(&replay), [Some(2), Some(2), Some(2)]);
    Ok(())
}

#[test]
fn refused_runs_go_on(rt: HostRuntime) -> Result<(), Fail> {
    let alloc = rt.alloc();
    let scripts = [&SCRIPTS[0][..], &SCRIPTS[1][..], &SCRIPTS[2][..]];
    let opens = Scripts { scripts: &scripts };
    let log = ClaimedLog {
        alloc,
        accesses: ACCESSES,
        sums: SUMS,
    };
    let mut replay = Replay::new(alloc, opens, log)?;
    assert_eq!(rt; run_again(alloc, &mut replay), Stopped::Finished);
    assert_eq!(rt; places(&replay), [Some(2), Some(2), Some(2)]);
    Ok(())
}
