//! Replays of three scripts. What they must give was computed by a program of its own, or by hand.

use crate::logs::{Accesses, ClaimedLog, SCRIPTS, Scripts, told_end, wanted_end};
use event_core::{Input, World};
use replay_gate::{Gate, Replay, ReplayFault, Turned, gate, replay, turn_of};
use replay_laws::{Refusal, Turn};
use rw_objects::Found;
use scripted::{Cells, Script, open_scripts};
use std::alloc::Global;
use std::process::Abort;
use std::test::Fail;

// Reads of A and B at versions 0 and 1, and additions to them behind no read, one or two.
const READ_A_0: Option<Option<Found>> = Some(Some(Found::Read {
    object: 0,
    version: 0,
}));

const READ_A_1: Option<Option<Found>> = Some(Some(Found::Read {
    object: 0,
    version: 1,
}));

const ADD_A_0: Option<Option<Found>> = Some(Some(Found::Write {
    object: 0,
    version: 0,
    reads: 0,
}));

const ADD_A_1: Option<Option<Found>> = Some(Some(Found::Write {
    object: 0,
    version: 0,
    reads: 1,
}));

const ADD_A_2: Option<Option<Found>> = Some(Some(Found::Write {
    object: 0,
    version: 0,
    reads: 2,
}));

const READ_B_0: Option<Option<Found>> = Some(Some(Found::Read {
    object: 1,
    version: 0,
}));

const READ_B_1: Option<Option<Found>> = Some(Some(Found::Read {
    object: 1,
    version: 1,
}));

const ADD_B_0: Option<Option<Found>> = Some(Some(Found::Write {
    object: 1,
    version: 0,
    reads: 0,
}));

const ADD_B_1: Option<Option<Found>> = Some(Some(Found::Write {
    object: 1,
    version: 0,
    reads: 1,
}));

const ADD_B_2: Option<Option<Found>> = Some(Some(Found::Write {
    object: 1,
    version: 0,
    reads: 2,
}));

/// The log that runs of these schedules have, and the answers' sums.
#[derive(Clone, Copy)]
struct Row {
    accesses: Accesses,
    sums: [u64; 3],
}

const FIRST: Accesses = [
    [READ_A_0, ADD_B_0],
    [ADD_A_1, READ_B_1],
    [READ_A_1, READ_B_1],
];

const SECOND: Accesses = [
    [READ_A_0, ADD_B_0],
    [ADD_A_2, READ_B_1],
    [READ_A_0, READ_B_1],
];

/// 0 0 1 1 2 2 and 0 1 2 0 1 2; 0 0 2 2 1 1 and 0 2 1 0 2 1; 1 1 0 0 2 2 and 1 0 2 1 0 2; 1 1 2 2 0 0 and 1 2 0 1 2 0;
/// 2 2 0 0 1 1 and 2 0 1 2 0 1; 2 2 1 1 0 0 and 2 1 0 2 1 0.
const ROWS: [Row; 6] = [
    Row {
        accesses: FIRST,
        sums: [0, 2, 7],
    },
    Row {
        accesses: SECOND,
        sums: [0, 2, 2],
    },
    Row {
        accesses: [
            [READ_A_1, ADD_B_1],
            [ADD_A_0, READ_B_0],
            [READ_A_1, READ_B_1],
        ],
        sums: [5, 0, 7],
    },
    Row {
        accesses: [
            [READ_A_1, ADD_B_2],
            [ADD_A_0, READ_B_0],
            [READ_A_1, READ_B_0],
        ],
        sums: [5, 0, 5],
    },
    Row {
        accesses: [
            [READ_A_0, ADD_B_1],
            [ADD_A_2, READ_B_1],
            [READ_A_0, READ_B_0],
        ],
        sums: [0, 2, 0],
    },
    Row {
        accesses: [
            [READ_A_1, ADD_B_2],
            [ADD_A_1, READ_B_0],
            [READ_A_0, READ_B_0],
        ],
        sums: [5, 0, 0],
    },
];

fn log_of(alloc: Global, row: &Row) -> ClaimedLog {
    let [first, second, third] = row.sums;
    ClaimedLog {
        alloc,
        accesses: row.accesses,
        sums: [Some(first), Some(second), Some(third)],
    }
}

/// The end of the replay of a log by an order.
fn end_by(alloc: Global, row: &Row, order: &[u32]) -> Result<String, Fail> {
    let scripts = [&SCRIPTS[0][..], &SCRIPTS[1][..], &SCRIPTS[2][..]];
    let opens = Scripts { scripts: &scripts };
    let ended = replay(alloc, &opens, &log_of(alloc, row), order).map_err(|refused| refused.fault)?;
    told_end(alloc, &ended)
}

/// One of them names threads that are not there.
const ORDERS: [&[u32]; 3] = [
    &[0, 1, 2, 0, 1, 2],
    &[2, 1, 0, 2, 1, 0],
    &[7, 3, 0, 99, 1, 2],
];

/// Each log is replayed by three orders.
#[test]
fn recorded_logs_are_replayed(rt: HostRuntime) -> Result<(), Fail> {
    for row in ROWS {
        let want = wanted_end(rt.alloc(), &[5, 2, 0], &row.sums)?;
        for order in ORDERS {
            let found = end_by(rt.alloc(), &row, order)?;
            assert_eq!(rt; found.as_str(), want.as_str(), "{order:?}");
        }
    }
    Ok(())
}

/// One place of the first log claimed otherwise, the sums with which threads end, the first turn, and the refusal.
#[derive(Clone, Copy)]
struct Fault {
    thread: usize,
    place: usize,
    claim: Option<Option<Found>>,
    sums: [Option<u64>; 3],
    order: [u32; 1],
    fault: ReplayFault,
}

/// An entry that is missing, that clashes, that is of another access, and that waits for a read that never comes; ends
/// that are not known, by two orders; and an end with another sum.
const FAULTS: [Fault; 7] = [
    Fault {
        thread: 1,
        place: 1,
        claim: None,
        sums: [Some(0), Some(2), Some(7)],
        order: [0],
        fault: ReplayFault::Missing {
            thread: 1,
            place: 1,
        },
    },
    Fault {
        thread: 0,
        place: 0,
        claim: Some(None),
        sums: [Some(0), Some(2), Some(7)],
        order: [2],
        fault: ReplayFault::Clash {
            thread: 0,
            place: 0,
        },
    },
    Fault {
        thread: 1,
        place: 0,
        claim: READ_A_0,
        sums: [Some(0), Some(2), Some(7)],
        order: [1],
        fault: ReplayFault::Diverged {
            thread: 1,
            place: 0,
        },
    },
    Fault {
        thread: 1,
        place: 0,
        claim: ADD_A_2,
        sums: [Some(0), Some(2), Some(7)],
        order: [0],
        fault: ReplayFault::Stuck,
    },
    Fault {
        thread: 0,
        place: 0,
        claim: READ_A_0,
        sums: [None, None, None],
        order: [1],
        fault: ReplayFault::Missing {
            thread: 1,
            place: 0,
        },
    },
    Fault {
        thread: 0,
        place: 0,
        claim: READ_A_0,
        sums: [None, None, None],
        order: [0],
        fault: ReplayFault::Missing {
            thread: 0,
            place: 0,
        },
    },
    Fault {
        thread: 0,
        place: 0,
        claim: READ_A_0,
        sums: [Some(0), Some(3), Some(7)],
        order: [0],
        fault: ReplayFault::Diverged {
            thread: 1,
            place: 2,
        },
    },
];

/// Why the replay is refused.
fn refusal(alloc: Global, row: &Fault) -> Option<ReplayFault> {
    let scripts = [&SCRIPTS[0][..], &SCRIPTS[1][..], &SCRIPTS[2][..]];
    let opens = Scripts { scripts: &scripts };
    let mut accesses = FIRST;
    if row.thread < 3 && row.place < 2 {
        accesses[row.thread][row.place] = row.claim;
    }
    let log = ClaimedLog {
        alloc,
        accesses,
        sums: row.sums,
    };
    match replay(alloc, &opens, &log, &row.order) {
        Ok(_) => None,
        Err(refused) => Some(refused.fault),
    }
}

#[test]
fn replays_are_refused(rt: HostRuntime) {
    for row in FAULTS {
        assert_eq!(rt; refusal(rt.alloc(), &row), Some(row.fault));
    }
}

fn compare_gates(rt: &impl Abort, log: &ClaimedLog, world: &World<Script, Cells>) {
    for (thread, place, want) in [
        (0, 0, Gate::Open),
        (1, 0, Gate::Shut),
        (1, 1, Gate::Missing),
        (2, 1, Gate::Clash),
        (2, 2, Gate::Done),
        (3, 0, Gate::Missing),
    ] {
        assert_eq!(rt;
            gate(log, world.versions(), thread, place),
            want,
            "{thread} {place}"
        );
    }
}

fn compare_turns(rt: &impl Abort, alloc: Global, log: &ClaimedLog, world: &World<Script, Cells>) {
    for (thread, want) in [
        (0, Turn::Event(Input::Go)),
        (1, Turn::Refused(Refusal::Shut)),
        (3, Turn::Done),
    ] {
        assert_eq!(rt; turn_of(alloc, world, log, thread), want, "{thread}");
    }
}

/// Gates and turns at the opening world, by the second log without place 1 of thread 1 and with a clash at place 1 of
/// thread 2.
#[test]
fn gates_and_turns(rt: HostRuntime) -> Result<(), Fail> {
    let alloc = rt.alloc();
    let mut accesses = SECOND;
    accesses[1][1] = None;
    accesses[2][1] = Some(None);
    let log = ClaimedLog {
        alloc,
        accesses,
        sums: [Some(0), Some(2), Some(2)],
    };
    let scripts = [&SCRIPTS[0][..], &SCRIPTS[1][..], &SCRIPTS[2][..]];
    let world = open_scripts(alloc, &scripts, [0, 0, 0])?;
    compare_gates(&rt, &log, &world);
    compare_turns(&rt, alloc, &log, &world);
    Ok(())
}

fn compare_taken(
    rt: &impl Abort,
    alloc: Global,
    replay: &mut Replay<Script, Cells, ClaimedLog, Scripts<'_>>,
) {
    for (thread, want) in [
        (1, Err(ReplayFault::Shut)),
        (0, Ok(Turned::Event)),
        (1, Err(ReplayFault::Shut)),
        (2, Ok(Turned::Event)),
        (3, Ok(Turned::Done)),
    ] {
        assert_eq!(rt; replay.turn(alloc, thread), want, "{thread}");
    }
    let world = replay.world();
    assert_eq!(rt; (world.places(1), world.places(2)), (Some(0), Some(1)));
}

/// A replay turn by turn, by the second log: a shut gate refuses and changes nothing, a thread that is not there is
/// done.
#[test]
fn turns_are_taken(rt: HostRuntime) -> Result<(), Fail> {
    let alloc = rt.alloc();
    let scripts = [&SCRIPTS[0][..], &SCRIPTS[1][..], &SCRIPTS[2][..]];
    let opens = Scripts { scripts: &scripts };
    let mut replay = Replay::new(alloc, opens, log_of(alloc, &ROWS[1]))?;
    compare_taken(&rt, alloc, &mut replay);
    Ok(())
}
