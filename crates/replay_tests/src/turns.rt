//! Runs to breaks beside turns that are taken one by one: both stop at the same turn, with one memory.

ghost use Rattle.std.specs.Prelude.{◌≤◌, length, map};

use crate::breaks::{ACCESSES, SUMS};
use crate::logs::{Accesses, ClaimedLog, Scripts};
use crate::resting::{RestingLog, scripts};
use event_core::World;
use replay_gate::{
    Break, Every, ObjectRange, OpenWorld, Replay, ReplayFault, Stopped, Turned, run_to,
};
use rw_objects::{Count, Versions};
use scripted::{Cells, Script, ScriptStep};
use std::alloc::Global;
use std::test::Fail;
use wasm_types::NoMemory;

/// The replay of a log of threads that rest.
type OfScripts<'a> = Replay<Script, Cells, RestingLog, Scripts<'a>>;

/// What is claimed in a log of three threads: the accesses, and the sums with which they end.
type Claims = (Accesses, [Option<u64>; 3]);

/// Where a replay stops, if it does, how many steps and events each thread has then made, how often each cell was
/// written and read, and what it holds.
#[derive(Clone, Copy, Debug, PartialEq, Eq)]
struct Stop {
    stopped: Option<Stopped>,
    steps: [Option<u32>; 3],
    places: [Option<u32>; 3],
    counts: [Count; 3],
    cells: [u64; 3],
}

/// What a turn does to a run to breaks.
#[derive(Clone, Copy)]
enum Did {
    Stops(Stopped),
    Steps,
    Waits,
    Nothing,
}

fn counts(replay: &OfScripts<'_>) -> [Count; 3] {
    let versions = replay.world().versions();
    [versions.at(0), versions.at(1), versions.at(2)]
}

/// How a replay stands.
fn stop_of(replay: &OfScripts<'_>, stopped: Option<Stopped>) -> Stop {
    let world = replay.world();
    Stop {
        stopped,
        steps: [world.steps(0), world.steps(1), world.steps(2)],
        places: [world.places(0), world.places(1), world.places(2)],
        counts: counts(replay),
        cells: world.space().cells,
    }
}

/// Whether these objects, of which each second counts, have other versions than before.
fn is_written(objects: ObjectRange, before: [Count; 3], now: [Count; 3]) -> bool {
    for object in 0..3u32 {
        let at = object as usize;
        let is_among = object >= objects.from
            && object < objects.until
            && (object - objects.from) % 2 == 0;
        if is_among && before[at].version != now[at].version {
            return true;
        }
    }
    false
}

/// Whether a break holds behind a step of a thread, before which the objects had these versions.
fn holds(
    replay: &OfScripts<'_>,
    one: Break,
    thread: u32,
    turned: Turned,
    before: [Count; 3],
) -> bool {
    let world = replay.world();
    match one {
        Break::Step { thread: of, steps } => of == thread && world.steps(of) == Some(steps),
        Break::Place { thread: of, place } => {
            of == thread && turned == Turned::Event && world.places(of) == Some(place)
        }
        Break::Write(objects) => is_written(objects, before, counts(replay)),
    }
}

/// The first of the breaks that holds there.
fn first_that_holds(
    replay: &OfScripts<'_>,
    breaks: &[Break],
    thread: u32,
    turned: Turned,
    before: [Count; 3],
) -> Did {
    for (index, one) in breaks.iter().enumerate() {
        if holds(replay, *one, thread, turned, before) {
            return Did::Stops(Stopped::Break(index));
        }
    }
    Did::Steps
}

/// A turn of a thread, and what it does to a run to these breaks.
fn turn(alloc: Global, replay: &mut OfScripts<'_>, thread: u32, breaks: &[Break]) -> Did {
    let before = counts(replay);
    match replay.turn(alloc, thread) {
        Ok(Turned::Done) => Did::Nothing,
        Ok(turned) => first_that_holds(replay, breaks, thread, turned, before),
        Err(fault) => match fault {
            ReplayFault::Missing { .. } | ReplayFault::Clash { .. } | ReplayFault::Shut => {
                Did::Waits
            }
            _ => Did::Stops(Stopped::Fault(fault)),
        },
    }
}

/// Turns of the threads of an order, where they stop the run so.
fn ordered(
    alloc: Global,
    replay: &mut OfScripts<'_>,
    order: &[u32],
    breaks: &[Break],
) -> Option<Stopped> {
    for thread in order {
        if let Did::Stops(stopped) = turn(alloc, replay, *thread, breaks) {
            return Some(stopped);
        }
    }
    None
}

/// A round of turns, where it stops the run so: at a break, or where it makes no step.
fn round(alloc: Global, replay: &mut OfScripts<'_>, breaks: &[Break]) -> Option<Stopped> {
    let mut made = false;
    let mut waits = false;
    for thread in 0..3u32 {
        match turn(alloc, replay, thread, breaks) {
            Did::Stops(stopped) => return Some(stopped),
            Did::Steps => made = true,
            Did::Waits => waits = true,
            Did::Nothing => {}
        }
    }
    if made {
        None
    } else if waits {
        Some(Stopped::Stuck)
    } else {
        Some(Stopped::Finished)
    }
}

/// A run to breaks turn by turn, of up to a thousand rounds behind the order.
fn by_turns(
    alloc: Global,
    replay: &mut OfScripts<'_>,
    order: &[u32],
    breaks: &[Break],
) -> Option<Stopped> {
    if let Some(stopped) = ordered(alloc, replay, order, breaks) {
        return Some(stopped);
    }
    for _ in 0..1000u32 {
        if let Some(stopped) = round(alloc, replay, breaks) {
            return Some(stopped);
        }
    }
    None
}

/// The replay of a log of such claims.
fn replay_of<'a>(
    alloc: Global,
    scripts: &'a [&'a [ScriptStep]],
    claims: Claims,
) -> Result<OfScripts<'a>, NoMemory>
    requires { length (map (λ steps. steps.now) scripts.now) ≤ 16 }
{
    let (accesses, sums) = claims;
    let claimed = ClaimedLog {
        alloc,
        accesses,
        sums,
    };
    Replay::new(alloc, Scripts { scripts }, RestingLog { claimed })
}

/// How the replay of a log stands where a run to breaks stops, and where it then stops without any.
fn stops_of_runs(
    alloc: Global,
    scripts: &[&[ScriptStep]],
    claims: Claims,
    order: &[u32],
    breaks: &[Break],
) -> Result<[Stop; 2], NoMemory>
    requires { length (map (λ steps. steps.now) scripts.now) ≤ 16 }
{
    let mut replay = replay_of(alloc, scripts, claims)?;
    let stopped = run_to(alloc, &mut replay, order, breaks);
    let first = stop_of(&replay, Some(stopped));
    let stopped = run_to(alloc, &mut replay, &[], &[]);
    Ok([first, stop_of(&replay, Some(stopped))])
}

/// The same turn by turn.
fn stops_of_turns(
    alloc: Global,
    scripts: &[&[ScriptStep]],
    claims: Claims,
    order: &[u32],
    breaks: &[Break],
) -> Result<[Stop; 2], NoMemory>
    requires { length (map (λ steps. steps.now) scripts.now) ≤ 16 }
{
    let mut replay = replay_of(alloc, scripts, claims)?;
    let stopped = by_turns(alloc, &mut replay, order, breaks);
    let first = stop_of(&replay, stopped);
    let stopped = by_turns(alloc, &mut replay, &[], &[]);
    Ok([first, stop_of(&replay, stopped)])
}

/// Steps behind which runs are stopped: beside accesses, between them and at both ends.
const STEPS: [u32; 9] = [1, 2, 99, 100, 101, 102, 151, 152, 202];

/// A break by its number: at each of nine steps and of two events of each thread, and at writes of objects.
fn break_of(number: u32) -> Break {
    let thread = number % 3;
    match STEPS.get((number / 3) as usize) {
        Some(steps) => Break::Step {
            thread,
            steps: *steps,
        },
        None => {
            if number < 33 {
                let place = number / 3 - 8;
                Break::Place { thread, place }
            } else {
                Break::Write(ObjectRange {
                    from: thread,
                    until: 3,
                    every: Every::Second,
                })
            }
        }
    }
}

/// Orders that let each thread go first, one of which names a thread that there is not, and one that takes 120 turns
/// of one.
static ORDERS: [&[u32]; 5] = [
    &[],
    &[0, 0, 0, 0, 0, 0],
    &[2, 1, 2, 1, 7, 16, 4_000_000_000, 2],
    &[1; 120],
    &[2, 0, 1, 1, 0, 2, 2, 2],
];

/// Whether runs by an order to each two breaks stop as turns do. Answers where they do not.
fn stop_otherwise(
    alloc: Global,
    scripts: &[&[ScriptStep]],
    claims: Claims,
    order: &[u32],
) -> Result<Option<([Stop; 2], [Stop; 2])>, NoMemory>
    requires { length (map (λ steps. steps.now) scripts.now) ≤ 16 }
{
    for number in 0..36u32 {
        let breaks = [break_of(number), break_of((number + 20) % 36)];
        let runs = stops_of_runs(alloc, scripts, claims, order, &breaks)?;
        let turns = stops_of_turns(alloc, scripts, claims, order, &breaks)?;
        if runs != turns {
            return Ok(Some((runs, turns)));
        }
    }
    Ok(None)
}

/// A whole log, one that lacks an end, and one of which a thread diverges.
fn claims() -> [Claims; 3] {
    let mut diverging = ACCESSES;
    diverging[1][0] = ACCESSES[0][0];
    [
        (ACCESSES, SUMS),
        (ACCESSES, [Some(0), None, Some(7)]),
        (diverging, SUMS),
    ]
}

#[test]
fn runs_stop_as_turns_do(rt: HostRuntime) -> Result<(), Fail> {
    let [first, second, third] = scripts(rt.alloc())?;
    let scripts = [&first[..], &second[..], &third[..]];
    for order in &ORDERS {
        for claims in claims() {
            let otherwise = stop_otherwise(rt.alloc(), &scripts, claims, order)?;
            assert_eq!(rt; otherwise, None);
        }
    }
    Ok(())
}

/// A log of threads that rest, the breaks of a run, where it stops, and how many steps each thread has then made.
#[derive(Clone, Copy)]
struct Row {
    claims: Claims,
    breaks: &'static [Break],
    stopped: Stopped,
    steps: [Option<u32>; 3],
}

/// Runs with no order: a whole log to its end, one of which a thread diverges, and a whole one to a break of each kind.
fn rows() -> [Row; 5] {
    let [whole, _, diverging] = claims();
    let fault = ReplayFault::Diverged {
        thread: 1,
        place: 0,
    };
    [
        Row {
            claims: whole,
            breaks: &[],
            stopped: Stopped::Finished,
            steps: [Some(202); 3],
        },
        Row {
            claims: diverging,
            breaks: &[],
            stopped: Stopped::Fault(fault),
            steps: [Some(101), Some(100), Some(100)],
        },
        Row {
            claims: whole,
            breaks: &[Break::Step {
                thread: 2,
                steps: 151,
            }],
            stopped: Stopped::Break(0),
            steps: [Some(151), Some(151), Some(151)],
        },
        Row {
            claims: whole,
            breaks: &[Break::Place {
                thread: 1,
                place: 1,
            }],
            stopped: Stopped::Break(0),
            steps: [Some(101), Some(101), Some(100)],
        },
        Row {
            claims: whole,
            breaks: &[Break::Write(ObjectRange {
                from: 1,
                until: 3,
                every: Every::Second,
            })],
            stopped: Stopped::Break(0),
            steps: [Some(102), Some(101), Some(101)],
        },
    ]
}

/// Whether a run stopped as a row says.
fn is_there(stop: Stop, row: Row) -> bool {
    stop.stopped == Some(row.stopped) && stop.steps == row.steps
}

#[test]
fn runs_of_threads_that_rest_stop_there(rt: HostRuntime) -> Result<(), Fail> {
    let [first, second, third] = scripts(rt.alloc())?;
    let scripts = [&first[..], &second[..], &third[..]];
    for row in rows() {
        let [stop, _] = stops_of_runs(rt.alloc(), &scripts, row.claims, &[], row.breaks)?;
        assert!(rt; is_there(stop, row), "{stop:?}");
    }
    Ok(())
}
