//! Sessions where memory is wanting: what was refused has changed nothing, and the same move made again comes to the
//! same place. Each growth is refused in turn, as `refused` has it.

use crate::breaks::{ACCESSES, SUMS};
use crate::resting::scripts;
use crate::sessions::{LentLog, Made, OfScripts, Seen, ThreeScripts, all_steps, log_of, look};
use event_core::{Input, Pick};
use pick_schedule::Stretch;
use replay_gate::{Break, ReplayFault, Stopped, Turned};
use replay_session::{Ceased, Leg, Met, Paused, Session};
use std::alloc::Global;
use std::process::Abort;
use std::test::Fail;
use wasm_types::NoMemory;

/// How a session stands: what can be seen of its world, how many legs its way has, and the last of them.
fn stand(session: &OfScripts<'_>) -> (Seen, usize, Option<Leg>) {
    let legs = session.legs();
    (look(session.world()), legs.len(), legs.last().copied())
}

/// Takes a turn, and where memory was wanted takes it again: the refused one left all as it was.
fn turn_again(
    abort: &impl Abort,
    alloc: Global,
    session: &mut OfScripts<'_>,
    thread: u32,
) -> Result<Turned, ReplayFault> {
    let before = stand(session);
    match session.turn(alloc, thread) {
        Err(ReplayFault::NoMemory) => {
            assert!(abort; stand(session) == before);
            session.turn(alloc, thread)
        }
        taken => taken,
    }
}

/// Goes on to where the replay stops, and where memory was wanted goes on from there.
fn run_again(
    abort: &impl Abort,
    alloc: Global,
    session: &mut OfScripts<'_>,
) -> Result<Stopped, NoMemory> {
    let before = stand(session);
    match session.run_on(alloc, &[]) {
        Err(_) => {
            assert!(abort; stand(session) == before);
            session.run_on(alloc, &[])
        }
        Ok(Stopped::Fault(ReplayFault::NoMemory)) => session.run_on(alloc, &[]),
        stopped => stopped,
    }
}

/// How many picks there are in the schedule by which a run comes to where a session stands, and its second stretch. Where
/// memory was wanted it is asked for again.
fn schedule_again(
    alloc: Global,
    session: &OfScripts<'_>,
) -> Result<Option<(u32, Option<Stretch>)>, NoMemory> {
    let asked = match session.schedule(alloc) {
        Err(_) => session.schedule(alloc)?,
        Ok(asked) => asked,
    };
    match asked {
        None => Ok(None),
        Some(picks) => Ok(Some((picks.len(), picks.stretches().get(1).copied()))),
    }
}

/// Goes back, and where memory was wanted goes back again: the refused one left all as it was.
fn back_again(
    abort: &impl Abort,
    alloc: Global,
    session: &mut OfScripts<'_>,
    steps: u64,
) -> Result<(), NoMemory> {
    let before = stand(session);
    match session.back(alloc, steps) {
        Err(_) => {
            assert!(abort; stand(session) == before);
            session.back(alloc, steps)
        }
        Ok(()) => Ok(()),
    }
}

/// Turns of a thread, and where memory was wanted the rest of them: the way has those that were made.
fn go_again(alloc: Global, session: &mut OfScripts<'_>, thread: u32, most: u64) -> Ceased {
    let gone = session.thread_steps(alloc, thread, most);
    if gone.ceased == Ceased::Fault(ReplayFault::NoMemory) {
        let rest = most.saturating_sub(gone.steps);
        return session.thread_steps(alloc, thread, rest).ceased;
    }
    gone.ceased
}

/// Goes to a break, and where memory was wanted goes there again: the refused one left all as it was.
fn go_to_again(
    abort: &impl Abort,
    alloc: Global,
    session: &mut OfScripts<'_>,
    breaks: &[Break],
) -> Result<Stopped, NoMemory> {
    let before = stand(session);
    match session.go_to(alloc, breaks) {
        Err(_) => {
            assert!(abort; stand(session) == before);
            session.go_to(alloc, breaks)
        }
        Ok(Stopped::Fault(ReplayFault::NoMemory)) => {
            assert!(abort; stand(session) == before);
            session.go_to(alloc, breaks)
        }
        stopped => stopped,
    }
}

/// Goes on in rounds up to a test, and where memory was wanted goes on so from where it stands: where the way could not
/// be made longer all was left as it was.
fn until_again(
    abort: &impl Abort,
    alloc: Global,
    session: &mut OfScripts<'_>,
    test: Made,
) -> Result<Paused, NoMemory> {
    let before = stand(session);
    match session.run_until(alloc, &[], &test) {
        Err(_) => {
            assert!(abort; stand(session) == before);
            session.run_until(alloc, &[], &test)
        }
        Ok(Paused::Fault(ReplayFault::NoMemory)) => session.run_until(alloc, &[], &test),
        paused => paused,
    }
}

/// Goes on by a thread up to a test, and where memory was wanted goes on so from where it stands.
fn thread_until_again(
    alloc: Global,
    session: &mut OfScripts<'_>,
    thread: u32,
    test: Made,
) -> Ceased {
    let gone = session.thread_until(alloc, thread, &test);
    if gone.ceased == Ceased::Fault(ReplayFault::NoMemory) {
        return session.thread_until(alloc, thread, &test).ceased;
    }
    gone.ceased
}

/// A test that holds behind no step: no thread makes so many.
const NEVER: Made = Made {
    first: 1_000_000,
    second: 1_000_000,
};

/// Goes back to a break or a test, and where memory was wanted goes back again: the refused one left all as it was.
fn reverse_again(
    abort: &impl Abort,
    alloc: Global,
    session: &mut OfScripts<'_>,
    breaks: &[Break],
    test: Made,
) -> Result<Option<Met>, NoMemory> {
    let before = stand(session);
    match session.reverse_until(alloc, breaks, &test) {
        Err(_) => {
            assert!(abort; stand(session) == before);
            session.reverse_until(alloc, breaks, &test)
        }
        met => met,
    }
}

/// The steps of that way, the last first, behind which a thread has made 150 steps or 50: the part of the test, the
/// thread, and how many steps it has made.
const HITS: [(usize, u32, u32); 6] = [
    (0, 1, 150),
    (0, 0, 150),
    (1, 1, 50),
    (0, 2, 150),
    (1, 2, 50),
    (1, 0, 50),
];

/// Goes on until a thread has made 50 steps, by thread 2 until it has made 150, and to the end; then back to each step
/// behind which a thread has made so many, and to the beginning.
fn test_all(
    abort: &impl Abort,
    alloc: Global,
    session: &mut OfScripts<'_>,
) -> Result<(), NoMemory> {
    let test = Made {
        first: 150,
        second: 50,
    };
    let paused = until_again(abort, alloc, session, test)?;
    let steps = look(session.world()).steps;
    assert!(abort; paused == Paused::Met(Met::Test(1)) && steps == [Some(50), Some(49), Some(49)]);
    let late = Made {
        first: 150,
        second: 300,
    };
    let ceased = thread_until_again(alloc, session, 2, late);
    assert!(abort; ceased == Ceased::All && all_steps(session.world()) == 249);
    let stopped = run_again(abort, alloc, session)?;
    assert!(abort; stopped == Stopped::Finished && all_steps(session.world()) == 606);
    for (part, thread, made) in HITS {
        let met = reverse_again(abort, alloc, session, &[], test)?;
        let steps = session.world().steps(thread);
        assert!(abort; met == Some(Met::Test(part)) && steps == Some(made));
    }
    let met = reverse_again(abort, alloc, session, &[], test)?;
    assert!(abort; met.is_none() && all_steps(session.world()) == 0);
    Ok(())
}

/// Goes to behind the first event of thread 0, on to the end, back to that event and then to the beginning.
fn reverse_all(
    abort: &impl Abort,
    alloc: Global,
    session: &mut OfScripts<'_>,
) -> Result<(), NoMemory> {
    let breaks = [Break::Place {
        thread: 0,
        place: 1,
    }];
    let stopped = go_to_again(abort, alloc, session, &breaks)?;
    assert!(abort; stopped == Stopped::Break(0) && session.world().places(0) == Some(1));
    let there = all_steps(session.world());
    let stopped = run_again(abort, alloc, session)?;
    assert!(abort; stopped == Stopped::Finished && all_steps(session.world()) == 606);
    let met = reverse_again(abort, alloc, session, &breaks, NEVER)?;
    assert!(abort; met == Some(Met::Break(0)) && all_steps(session.world()) == there);
    let met = reverse_again(abort, alloc, session, &breaks, NEVER)?;
    assert!(abort; met.is_none() && all_steps(session.world()) == 0);
    Ok(())
}

/// A session's moves, each made again where memory was wanted: it comes to the same places.
fn move_again(
    abort: &impl Abort,
    alloc: Global,
    opens: ThreeScripts<'_>,
    log: LentLog<'_>,
) -> Result<(), NoMemory> {
    let mut session = Session::new(alloc, &opens, &log)?;
    let turned = turn_again(abort, alloc, &mut session, 0);
    assert!(abort; turned == Ok(Turned::Event));
    let ceased = go_again(alloc, &mut session, 1, 101);
    assert!(abort; ceased == Ceased::All);
    let stopped = run_again(abort, alloc, &mut session)?;
    assert!(abort; stopped == Stopped::Finished && all_steps(session.world()) == 606);
    let picks = schedule_again(alloc, &session)?;
    let second = Stretch {
        pick: Pick {
            thread: 1,
            input: Input::Go,
        },
        times: 101,
    };
    assert!(abort; picks == Some((606, Some(second))));
    back_again(abort, alloc, &mut session, 504)?;
    let (seen, legs, last) = stand(&session);
    let last_leg = Leg::Thread {
        thread: 1,
        steps: 101,
    };
    assert!(abort; seen.steps == [Some(1), Some(101), Some(0)]);
    assert!(abort; legs == 2 && last == Some(last_leg));
    back_again(abort, alloc, &mut session, 102)?;
    assert!(abort; session.legs().is_empty() && all_steps(session.world()) == 0);
    reverse_all(abort, alloc, &mut session)?;
    test_all(abort, alloc, &mut session)
}

/// Where a growth is refused, as `refused` has it, the session goes on to the same places.
#[test]
fn refused_moves_are_made_again(rt: HostRuntime) -> Result<(), Fail> {
    let alloc = rt.alloc();
    let [first, second, third] = scripts(alloc)?;
    let opens = ThreeScripts {
        first: &first,
        second: &second,
        third: &third,
    };
    let log = log_of(alloc, (ACCESSES, SUMS));
    move_again(&rt, alloc, opens, LentLog { log: &log })?;
    Ok(())
}
