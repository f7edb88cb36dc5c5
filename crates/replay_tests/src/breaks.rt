//! Breaks in replays of three scripts. What they must give was worked out by hand.

use crate::logs::{Accesses, ClaimedLog, SCRIPTS, Scripts};
use event_core::World;
use replay_gate::{Break, Every, ObjectRange, OpenWorld, Replay, ReplayFault, Stopped, run_to};
use rw_objects::Found;
use scripted::{Cells, Script};
use std::alloc::Global;
use std::test::Fail;
use wasm_types::NoMemory;

/// The log of a run by the schedule 0 0 1 1 2 2: by rounds 0 1 2 0 1 2 it is replayed too.
pub(crate) const ACCESSES: Accesses = [
    [
        Some(Some(Found::Read {
            object: 0,
            version: 0,
        })),
        Some(Some(Found::Write {
            object: 1,
            version: 0,
            reads: 0,
        })),
    ],
    [
        Some(Some(Found::Write {
            object: 0,
            version: 0,
            reads: 1,
        })),
        Some(Some(Found::Read {
            object: 1,
            version: 1,
        })),
    ],
    [
        Some(Some(Found::Read {
            object: 0,
            version: 1,
        })),
        Some(Some(Found::Read {
            object: 1,
            version: 1,
        })),
    ],
];

pub(crate) const SUMS: [Option<u64>; 3] = [Some(0), Some(2), Some(7)];

const ENDS: [Option<u32>; 3] = [Some(2), Some(2), Some(2)];

/// An order, breaks, where the replay then stops, and how many events each thread has made.
struct Row {
    order: &'static [u32],
    breaks: &'static [Break],
    stopped: Stopped,
    places: [Option<u32>; 3],
}

/// A break of each kind; a write of the object that nobody writes; several breaks, of which the last in the list comes
/// first; breaks that hold behind one turn; and orders that let no thread go, or one thread alone.
static ROWS: [Row; 8] = [
    Row {
        order: &[0],
        breaks: &[Break::Place {
            thread: 0,
            place: 1,
        }],
        stopped: Stopped::Break(0),
        places: [Some(1), Some(0), Some(0)],
    },
    Row {
        order: &[0, 1],
        breaks: &[Break::Step {
            thread: 1,
            steps: 1,
        }],
        stopped: Stopped::Break(0),
        places: [Some(1), Some(1), Some(0)],
    },
    Row {
        order: &[],
        breaks: &[Break::Write(ObjectRange {
            from: 1,
            until: 2,
            every: Every::Object,
        })],
        stopped: Stopped::Break(0),
        places: [Some(2), Some(1), Some(1)],
    },
    Row {
        order: &[],
        breaks: &[Break::Write(ObjectRange {
            from: 2,
            until: 3,
            every: Every::Object,
        })],
        stopped: Stopped::Finished,
        places: [Some(2), Some(2), Some(2)],
    },
    Row {
        order: &[],
        breaks: &[
            Break::Place {
                thread: 2,
                place: 2,
            },
            Break::Step {
                thread: 1,
                steps: 2,
            },
            Break::Write(ObjectRange {
                from: 0,
                until: 1,
                every: Every::Object,
            }),
        ],
        stopped: Stopped::Break(2),
        places: [Some(1), Some(1), Some(0)],
    },
    Row {
        order: &[0, 1],
        breaks: &[
            Break::Step {
                thread: 0,
                steps: 5,
            },
            Break::Write(ObjectRange {
                from: 0,
                until: 2,
                every: Every::Object,
            }),
            Break::Place {
                thread: 1,
                place: 1,
            },
            Break::Step {
                thread: 1,
                steps: 1,
            },
        ],
        stopped: Stopped::Break(1),
        places: [Some(1), Some(1), Some(0)],
    },
    Row {
        order: &[2, 1, 2, 1, 7],
        breaks: &[Break::Place {
            thread: 1,
            place: 1,
        }],
        stopped: Stopped::Break(0),
        places: [Some(1), Some(1), Some(0)],
    },
    Row {
        order: &[0, 0],
        breaks: &[Break::Step {
            thread: 0,
            steps: 2,
        }],
        stopped: Stopped::Break(0),
        places: [Some(2), Some(0), Some(0)],
    },
];

/// Where a replay stops, and how many events each thread then has made.
type Stop = (Stopped, [Option<u32>; 3]);

fn stop(
    alloc: Global,
    replay: &mut Replay<Script, Cells, ClaimedLog, Scripts<'_>>,
    order: &[u32],
    breaks: &[Break],
) -> Stop {
    let stopped = run_to(alloc, replay, order, breaks);
    let world = replay.world();
    (stopped, [world.places(0), world.places(1), world.places(2)])
}

/// Where the replay of a log stops by an order and breaks, and where it then stops without any.
fn stops(
    alloc: Global,
    accesses: Accesses,
    sums: [Option<u64>; 3],
    order: &[u32],
    breaks: &[Break],
) -> Result<(Stop, Stop), Fail> {
    let scripts = [&SCRIPTS[0][..], &SCRIPTS[1][..], &SCRIPTS[2][..]];
    let opens = Scripts { scripts: &scripts };
    let log = ClaimedLog {
        alloc,
        accesses,
        sums,
    };
    let mut replay = Replay::new(alloc, opens, log)?;
    let first = stop(alloc, &mut replay, order, breaks);
    Ok((first, stop(alloc, &mut replay, &[], &[])))
}

/// Each row stops where it says, and the replay then goes on to its end.
#[test]
fn replays_stop_at_breaks(rt: HostRuntime) -> Result<(), Fail> {
    for row in &ROWS {
        let found = stops(rt.alloc(), ACCESSES, SUMS, row.order, row.breaks)?;
        let want = ((row.stopped, row.places), (Stopped::Finished, ENDS));
        assert_eq!(rt; found, want, "{:?}", row.order);
    }
    Ok(())
}

/// Where the replay of a log by the order 1 stops, and how many events thread 0 then has made.
fn stopped(
    alloc: Global,
    accesses: Accesses,
    sums: [Option<u64>; 3],
) -> Result<(Stopped, Option<u32>), Fail> {
    let ((stopped, [places, _, _]), _) = stops(alloc, accesses, sums, &[1], &[])?;
    Ok((stopped, places))
}

/// Where the end of a thread is not known the others go on, until none can; a thread that can't do what the log says of
/// it ends the run.
#[test]
fn replays_without_breaks(rt: HostRuntime) -> Result<(), Fail> {
    let found = stopped(rt.alloc(), ACCESSES, [Some(0), None, Some(7)])?;
    assert_eq!(rt; found, (Stopped::Stuck, Some(2)));
    let mut accesses = ACCESSES;
    accesses[1][0] = ACCESSES[0][0];
    let found = stopped(rt.alloc(), accesses, SUMS)?;
    let want = Stopped::Fault(ReplayFault::Diverged {
        thread: 1,
        place: 0,
    });
    assert_eq!(rt; found, (want, Some(0)));
    Ok(())
}
