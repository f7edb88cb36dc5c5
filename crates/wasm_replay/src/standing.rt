//! Where a replay that is refused stands.

use crate::replaying::WasmReplayFault;
use event_core::World;
use log_pieces::{End, Flat};
use replay_gate::ReplayFault;
use replica::Log;
use rw_objects::{Count, Entry, Found, Kind, Machine, Next, ObjectSpace, Touch, Versions};
use std::alloc::Global;
use std::{array, fmt};
use wasm_types::{MOST_THREADS, Outcome, RunKey};
use wasm_world::{Plan, Valid};

/// Of what claims differ or are wanting.
#[derive(Clone, Copy, Debug, PartialEq, Eq)]
pub enum Claimed {
    /// The end of the thread.
    End,
    /// The entry of the thread at the place.
    Entry,
}

/// An entry that a log has.
#[derive(Clone, Copy, Debug, PartialEq, Eq)]
pub struct LoggedEntry {
    pub kind: Kind,
    /// What each touch found, in order; None behind the last.
    pub found: [Option<Found>; 3],
}

/// What a log has of a thread at a place.
#[derive(Clone, Copy, Debug, PartialEq, Eq)]
pub enum Logged {
    /// An entry, before the end of the thread.
    Entry(LoggedEntry),
    /// The end of the thread, at the place or before it.
    End(End),
    /// No end of the thread, or different ones.
    NoEnd,
}

/// What a thread does next.
#[derive(Clone, Copy, Debug, PartialEq, Eq)]
pub enum Doing {
    /// A step without an access.
    Local,
    /// Nothing: it has ended so.
    Ended(Outcome),
    /// An access with these touches, in order; None behind the last.
    Accesses([Option<Touch>; 3]),
    /// It sleeps, and goes on by these touches; None behind the last.
    Sleeps([Option<Touch>; 3]),
}

/// How far a thread came, and what it does next.
#[derive(Clone, Copy, Debug, PartialEq, Eq)]
pub struct Progress {
    pub steps: u32,
    pub doing: Doing,
}

/// What a thread waits for.
#[derive(Clone, Copy, Debug, PartialEq, Eq)]
pub struct Waiting {
    /// The place at which it waits.
    pub place: u32,
    /// The entry that the log has there.
    pub entry: LoggedEntry,
    /// The count that the object of each touch has, in the order of what the entry found.
    pub counts: [Count; 3],
}

/// Where a replay that is refused stands. It takes no memory. The words of `--why` are made from it, and no clause
/// speaks of what it says.
#[derive(Clone, Copy, Debug, PartialEq, Eq)]
pub enum Standing {
    /// Nothing more than the fault is known.
    Unknown,
    /// The log is of another run: its key, and that of the run of the module and the plan with its number and profile.
    Keys {
        log: RunKey,
        own: RunKey,
    },
    /// Claims differ, or are wanting, of this.
    Claims(Claimed),
    /// A thread diverges: what the log has at its place, and where the thread stands, if the world is known.
    Diverged {
        logged: Logged,
        reached: Option<Progress>,
    },
    /// No thread goes on: by thread, what it waits for where that is an entry.
    Stuck {
        waiting: [Option<Waiting>; MOST_THREADS],
    },
}

impl fmt::Display for LoggedEntry {
    /// The kind, then what each touch found after a space, as the entry is written.
    fn fmt<W: fmt::Write>(&self, f: &mut fmt::Formatter<W>) -> fmt::Result {
        write!(f, "{}", self.kind)?;
        for found in self.found {
            if let Some(found) = found {
                write!(f, " {found}")?;
            }
        }
        Ok(())
    }
}

impl LoggedEntry {
    /// A copy of an entry.
    fn of(entry: &Entry) -> LoggedEntry {
        let found = entry.found.as_slice();
        LoggedEntry {
            kind: entry.kind,
            found: array::from_fn(|index| found.get(index).copied()),
        }
    }
}

/// Of what claims differ.
fn clashing(log: &Log, thread: u32) -> Claimed {
    match log.end(thread) {
        Some(Flat::Clash) => Claimed::End,
        _ => Claimed::Entry,
    }
}

/// Of what no claim is there.
fn missing(log: &Log, thread: u32) -> Claimed {
    match log.end(thread) {
        None => Claimed::End,
        Some(_) => Claimed::Entry,
    }
}

/// What a log has of a thread at a place.
fn logged_at(log: &Log, thread: u32, place: u32) -> Logged {
    let Some(Flat::Known(end)) = log.end(thread) else {
        return Logged::NoEnd;
    };
    match log.entry(thread, place) {
        Some(Flat::Known(entry)) if place < end.places => Logged::Entry(LoggedEntry::of(&entry)),
        _ => Logged::End(end),
    }
}

/// The touches of an operation.
fn touches<S: ObjectSpace>(alloc: Global, op: &S::Op) -> [Option<Touch>; 3] {
    let touches = S::touches(alloc, op);
    let touches = touches.as_slice();
    array::from_fn(|index| touches.get(index).copied())
}

/// What a thread does that does this next.
fn doing_next<S: ObjectSpace>(alloc: Global, next: Next<S::Op>) -> Doing {
    match next {
        Next::Local => Doing::Local,
        Next::Halted(outcome) => Doing::Ended(outcome),
        Next::Ask(op) => Doing::Accesses(touches::<S>(alloc, &op)),
        Next::Asleep { resume, out: _ } => Doing::Sleeps(touches::<S>(alloc, &resume)),
    }
}

/// How far a thread came; None where the world has no such thread.
fn reached_by<M: Machine<S>, S: ObjectSpace>(
    alloc: Global,
    world: &World<M, S>,
    thread: u32,
) -> Option<Progress> {
    let steps = world.steps(thread)?;
    let next = world.next(thread)?;
    Some(Progress {
        steps,
        doing: doing_next::<S>(alloc, next),
    })
}

/// The counts of the objects of an entry.
fn counts(entry: &Entry, versions: &Versions) -> [Count; 3] {
    let found = entry.found.as_slice();
    array::from_fn(|index| match found.get(index) {
        Some(found) => versions.at(found.object()),
        None => Count::default(),
    })
}

/// What a thread waits for, if it has not ended and the log has an entry at its place.
fn waits<M: Machine<S>, S: ObjectSpace>(
    log: &Log,
    world: &World<M, S>,
    thread: u32,
) -> Option<Waiting> {
    let place = world.places(thread)?;
    let outcome = world.outcome(thread)?;
    if matches!(outcome, Outcome::Done(_) | Outcome::Trapped(_)) {
        return None;
    }
    match log.entry(thread, place) {
        Some(Flat::Known(entry)) => Some(Waiting {
            place,
            entry: LoggedEntry::of(&entry),
            counts: counts(&entry, world.versions()),
        }),
        _ => None,
    }
}

/// What each thread of a world waits for.
fn stuck<M: Machine<S>, S: ObjectSpace>(log: &Log, world: &World<M, S>) -> Standing {
    let mut waiting = [None; MOST_THREADS];
    for thread in 0..MOST_THREADS {
        waiting[thread] = waits(log, world, thread as u32);
    }
    Standing::Stuck { waiting }
}

impl Standing {
    /// Where the log of a module and a plan stands whose replay is not opened for this fault.
    pub fn unopened(valid: &Valid, plan: &Plan, log: &Log, fault: WasmReplayFault) -> Standing {
        let WasmReplayFault::OtherRun = fault else {
            return Standing::Unknown;
        };
        let key = log.key();
        let source = valid.module().source.as_slice();
        Standing::Keys {
            log: *key,
            own: RunKey::of(source, plan.bytes(), key.run, key.profile),
        }
    }

    /// Where a replay stands that is refused with a fault, in this world if it is known. Unknown where memory is
    /// wanting, or where threads wait and the world is not known.
    pub fn of<M: Machine<S>, S: ObjectSpace>(
        alloc: Global,
        log: &Log,
        fault: ReplayFault,
        world: Option<&World<M, S>>,
    ) -> Standing {
        match (fault, world) {
            (ReplayFault::Clash { thread, .. }, _) => Standing::Claims(clashing(log, thread)),
            (ReplayFault::Missing { thread, .. }, _) => Standing::Claims(missing(log, thread)),
            (ReplayFault::Diverged { thread, place }, world) => Standing::Diverged {
                logged: logged_at(log, thread, place),
                reached: world.and_then(|world| reached_by(alloc, world, thread)),
            },
            (ReplayFault::Shut | ReplayFault::Stuck, Some(world)) => stuck(log, world),
            _ => Standing::Unknown,
        }
    }
}
