//! Turns of a replay of threads over their memory.

ghost use Rattle.wasm_world.specs.Plans.{IsPlanOf};

use crate::checks::compare;
use crate::modules::valid;
use log_pieces::{End, Piece};
use replay_gate::{ReplayFault, Turned};
use replica::{Log, Replica};
use rw_objects::{Entry, Few, Found, Kind};
use std::alloc::Global;
use std::process::Abort;
use std::test::Fail;
use validator::Valid;
use wasm_replay::open_replay;
use wasm_types::{Block, Outcome, Profile, RunKey, Value};
use wasm_world::Plan;

/// A function `r` that loads at address 0, and a function `w` that stores there.
pub(crate) const READERS: &str = "\
    0061736d010000000108026000017f600000030302000105040103010107090201720000017700010a13\
    02070041002802000b0900410041073602000b";

/// Two threads that read, and one that writes.
pub(crate) const THREE: &str = "wreplay plan 1\nthread r\nthread r\nthread w\n";

/// What a reader finds before the writer, and how it ends.
pub(crate) const READ: (Found, End) = (
    Found::Read {
        object: 1,
        version: 0,
    },
    End {
        steps: 3,
        places: 1,
        outcome: Outcome::Done(Some(Value::I32(0))),
    },
);

/// What the writer finds behind both readers, and how it ends.
pub(crate) const WRITTEN: (Found, End) = (
    Found::Write {
        object: 1,
        version: 0,
        reads: 2,
    },
    End {
        steps: 4,
        places: 1,
        outcome: Outcome::Done(None),
    },
);

/// The piece of a thread's one entry and its end.
fn piece_of(alloc: Global, key: RunKey, thread: u32, found: Found, end: End) -> Option<Piece> {
    let entry = Entry {
        kind: Kind::Access,
        found: Few::one(alloc, found),
    };
    let entries = Vec::from_array(alloc, [entry]).ok()?;
    Piece::new(key, thread, 0, entries, Some(end)).ok()
}

/// Delivers a thread's one entry and its end. Answers whether that could be done.
pub(crate) fn deliver(
    alloc: Global,
    replica: &mut Replica,
    thread: u32,
    (found, end): (Found, End),
) -> bool {
    match piece_of(alloc, *replica.log().key(), thread, found, end) {
        Some(piece) => replica.deliver(alloc, &piece).is_ok(),
        None => false,
    }
}

/// What is gathered of a run in which both readers come before the writer.
fn readers_first(alloc: Global, key: RunKey) -> Result<Replica, Fail> {
    let mut replica = Replica::new(alloc, key);
    let readers = deliver(alloc, &mut replica, 0, READ) && deliver(alloc, &mut replica, 1, READ);
    if readers && deliver(alloc, &mut replica, 2, WRITTEN) {
        Ok(replica)
    } else {
        Err("a piece is not gathered".into())
    }
}

/// Turns in their order, and what each comes to: the third of the writer, before any of the readers, finds a shut gate.
const TURNS: &[(u32, Result<Turned, ReplayFault>)] = &[
    (2, Ok(Turned::Local)),
    (2, Ok(Turned::Local)),
    (2, Err(ReplayFault::Shut)),
    (0, Ok(Turned::Local)),
    (0, Ok(Turned::Event)),
    (2, Err(ReplayFault::Shut)),
    (1, Ok(Turned::Local)),
    (1, Ok(Turned::Event)),
    (2, Ok(Turned::Event)),
];

/// The key of run 0 of a plan, in profile 2 with the least blocks.
pub(crate) fn key_of(valid: &Valid, plan: &Plan) -> RunKey {
    let source = valid.module().source.as_slice();
    RunKey::of(source, plan.bytes(), 0, Profile::Two(Block::least()))
}

/// Takes the turns in this order. It alone owns a replay, and the next ones what is gathered and a plan.
fn take_turns(
    rt: &impl Abort,
    alloc: Global,
    valid: &Valid,
    plan: &Plan,
    log: &Log,
) -> Result<(), Fail>
    requires { IsPlanOf valid.now plan.now }
{
    let mut replay = open_replay(alloc, valid, plan, log)?;
    let turns = TURNS;
    for (thread, wanted) in turns {
        let found = replay.turn(alloc, *thread);
        compare(rt, &(*thread, found), &(*thread, *wanted), "a turn");
    }
    Ok(())
}

fn take_gathered(rt: &impl Abort, alloc: Global, valid: &Valid, plan: &Plan) -> Result<(), Fail>
    requires { IsPlanOf valid.now plan.now }
{
    let replica = readers_first(alloc, key_of(valid, plan))?;
    take_turns(rt, alloc, valid, plan, replica.log())
}

fn take_planned(rt: &impl Abort, alloc: Global, valid: &Valid) -> Result<(), Fail> {
    let plan = Plan::read(alloc, THREE.as_bytes(), valid)?;
    take_gathered(rt, alloc, valid, &plan)
}

#[test]
fn a_write_waits_for_the_reads_before_it(rt: HostRuntime) -> Result<(), Fail> {
    let valid = valid(rt.alloc(), READERS)?;
    take_planned(&rt, rt.alloc(), &valid)
}
