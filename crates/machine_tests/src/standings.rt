//! Where replays of threads over their memory stand that are refused.

ghost use Rattle.wasm_world.specs.Plans.{IsPlanOf};

use crate::checks::{check, compare, compare_texts};
use crate::modules::valid;
use crate::replays::{READ, READERS, THREE, WRITTEN, deliver, key_of};
use log_pieces::End;
use replica::{Log, Replica};
use rw_objects::{Count, Found, Kind, Mode, Touch};
use std::alloc::Global;
use std::test::Fail;
use wasm_replay::{
    Claimed, Doing, Logged, LoggedEntry, Progress, Standing, Waiting, replay_gathered,
};
use wasm_world::{Plan, Valid};

/// A write behind one more read than there are.
const LATE: Found = Found::Write {
    object: 1,
    version: 0,
    reads: 3,
};

/// An entry of one touch.
fn one(found: Found) -> LoggedEntry {
    LoggedEntry {
        kind: Kind::Access,
        found: [Some(found), None, None],
    }
}

/// Where the replay of a log stands that is refused.
fn refused(alloc: Global, valid: &Valid, plan: &Plan, log: &Log) -> Option<Standing>
    requires { IsPlanOf valid.now plan.now }
{
    let Err(unreplayed) = replay_gathered(alloc, valid, plan, log, &[]) else {
        return None;
    };
    Some(unreplayed.standing)
}

/// What each thread found and how it ends.
type Claims<'a> = &'a [(u32, (Found, End))];

/// Delivers pieces of these claims.
fn deliver_all(alloc: Global, replica: &mut Replica, claims: Claims<'_>) -> Result<(), Fail> {
    for (thread, claim) in claims {
        if !deliver(alloc, replica, *thread, *claim) {
            return Err("a piece is not gathered".into());
        }
    }
    Ok(())
}

/// Where the replay stands of a plan by these claims, in a log with this digest, or that of the run.
fn standing_of(
    alloc: Global,
    valid: &Valid,
    plan: &Plan,
    digest: Option<[u8; 32]>,
    claims: Claims<'_>,
) -> Result<Option<Standing>, Fail>
    requires { IsPlanOf valid.now plan.now }
{
    let mut key = key_of(valid, plan);
    if let Some(digest) = digest {
        key.digest = digest;
    }
    let mut replica = Replica::new(alloc, key);
    deliver_all(alloc, &mut replica, claims)?;
    Ok(refused(alloc, valid, plan, replica.log()))
}

/// The same of the plan of three threads. It alone owns a plan, and the next one a module.
fn standing_in(
    alloc: Global,
    valid: &Valid,
    digest: Option<[u8; 32]>,
    claims: Claims<'_>,
) -> Result<Option<Standing>, Fail> {
    let plan = Plan::read(alloc, THREE.as_bytes(), valid)?;
    standing_of(alloc, valid, &plan, digest, claims)
}

fn standing(
    alloc: Global,
    digest: Option<[u8; 32]>,
    claims: Claims<'_>,
) -> Result<Option<Standing>, Fail> {
    let valid = valid(alloc, READERS)?;
    standing_in(alloc, &valid, digest, claims)
}

/// A log of another run has another key than that of these.
#[test]
fn keys_are_told(rt: HostRuntime) -> Result<(), Fail> {
    let other = [7; 32];
    let Some(Standing::Keys { log, own }) = standing(rt.alloc(), Some(other), &[])? else {
        return Err("the keys are not told".into());
    };
    compare(&rt, &log.digest, &other, "the digest of the log");
    check(&rt, own.digest != other, "the digest of the run");
    compare(&rt, &own.run, &log.run, "the run");
    Ok(())
}

/// No piece has the writer's end; or two pieces of a reader differ in theirs.
#[test]
fn claims_are_told(rt: HostRuntime) -> Result<(), Fail> {
    let alloc = rt.alloc();
    let end = Some(Standing::Claims(Claimed::End));
    let found = standing(alloc, None, &[(0, READ), (1, READ)])?;
    compare(&rt, &found, &end, "no end");
    let claims = [(0, READ), (1, READ), (1, (READ.0, WRITTEN.1)), (2, WRITTEN)];
    compare(&rt, &standing(alloc, None, &claims)?, &end, "two ends");
    Ok(())
}

/// A reader is to write.
#[test]
fn a_thread_diverges(rt: HostRuntime) -> Result<(), Fail> {
    let claims = [(0, (WRITTEN.0, READ.1)), (1, READ), (2, WRITTEN)];
    let touch = Touch {
        object: 1,
        mode: Mode::Read,
    };
    let wanted = Standing::Diverged {
        logged: Logged::Entry(one(WRITTEN.0)),
        reached: Some(Progress {
            steps: 1,
            doing: Doing::Accesses([Some(touch), None, None]),
        }),
    };
    let found = standing(rt.alloc(), None, &claims)?;
    compare(&rt, &found, &Some(wanted), "a reader is to write");
    Ok(())
}

/// The writer waits for a read that never comes.
#[test]
fn a_thread_waits(rt: HostRuntime) -> Result<(), Fail> {
    let claims = [(0, READ), (1, READ), (2, (LATE, WRITTEN.1))];
    let mut waiting = [None; 16];
    waiting[2] = Some(Waiting {
        place: 0,
        entry: one(LATE),
        counts: [
            Count {
                version: 0,
                reads: 2,
            },
            Count::default(),
            Count::default(),
        ],
    });
    let found = standing(rt.alloc(), None, &claims)?;
    compare(
        &rt,
        &found,
        &Some(Standing::Stuck { waiting }),
        "the writer",
    );
    let text = format!(in rt.alloc(); "{}", one(LATE))?;
    compare_texts(&rt, text.as_str(), "access w1@0/3", "the entry");
    Ok(())
}
