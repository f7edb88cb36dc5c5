//! Words of replays that are refused.

use crate::differences::other_run_words;
use crate::reasons::{Words, words};
use replay_gate::ReplayFault;
use rw_objects::{Count, Found, Mode, Touch};
use std::alloc::Global;
use std::fmt::Write;
use wasm_replay::{
    Claimed, Doing, Logged, Progress, Standing, Unreplayed, Waiting, WasmReplayFault,
};
use wasm_types::{MOST_THREADS, NoMemory};

/// What is said of a module that has no runs of profile 1.
const OLD_PROFILE: &str =
    "the pieces are of profile 1, and the module has none of its runs: it opens with more than 16 pages, or extends the sign of low bits";

/// Why a log is not replayed to its end.
pub(crate) fn replay_words(alloc: Global, refused: &Unreplayed) -> Words {
    match &refused.standing {
        Standing::Keys { log, own } => other_run_words(alloc, log, own),
        Standing::Claims(claimed) => words(alloc, claim_words(refused.fault, *claimed)),
        Standing::Diverged { logged, reached } => diverged_words(alloc, *logged, *reached),
        Standing::Stuck { waiting } => stuck_words(alloc, waiting),
        Standing::Unknown => words(alloc, unknown_words(refused.fault)),
    }
}

/// Why a log is not replayed of which no more is known.
fn unknown_words(fault: WasmReplayFault) -> &'static str {
    match fault {
        WasmReplayFault::OldProfile => OLD_PROFILE,
        WasmReplayFault::Replay(ReplayFault::Shut | ReplayFault::Stuck) => "no thread can go on",
        _ => "memory for the replay could not be had",
    }
}

/// What pieces claim differently, or do not claim.
fn claim_words(fault: WasmReplayFault, claimed: Claimed) -> &'static str {
    match (fault, claimed) {
        (WasmReplayFault::Replay(ReplayFault::Missing { .. }), Claimed::End) => {
            "no piece claims the end of this thread: its last piece is not there"
        }
        (WasmReplayFault::Replay(ReplayFault::Missing { .. }), Claimed::Entry) => {
            "no piece claims the entry of this thread at this place: the piece that has it is not there"
        }
        (_, Claimed::End) => {
            "pieces claim different ends of this thread; most often pieces of two recordings with one run number were put together (give each its own by --run)"
        }
        (_, Claimed::Entry) => {
            "pieces claim different entries of this thread at this place; most often pieces of two recordings with one run number were put together (give each its own by --run)"
        }
    }
}

/// What the log has at a place, and what the thread does instead.
fn diverged_words(alloc: Global, logged: Logged, reached: Option<Progress>) -> Words {
    let claim = match logged {
        Logged::Entry(entry) => format!(in alloc; "the log has {entry}")?,
        Logged::End(end) => format!(in alloc; "the log ends the thread with {end}")?,
        Logged::NoEnd => words(alloc, "the log has no end of the thread")?,
    };
    let Some(Progress { steps, doing }) = reached else {
        return Ok(claim);
    };
    let doing = doing_words(alloc, doing)?;
    Ok(format!(in alloc; "{claim}, but the thread, after {steps} steps, {doing}")?)
}

/// What a thread does next.
fn doing_words(alloc: Global, doing: Doing) -> Words {
    match doing {
        Doing::Local => words(alloc, "has a step without an access left"),
        Doing::Ended(outcome) => Ok(format!(in alloc; "has ended: {outcome}")?),
        Doing::Accesses(touches) => touch_words(alloc, "accesses", touches),
        Doing::Sleeps(touches) => touch_words(alloc, "sleeps, and goes on by", touches),
    }
}

/// The objects of an operation behind words: `r` and the number of one that it reads, `w` of one that it writes.
fn touch_words(alloc: Global, before: &str, touches: [Option<Touch>; 3]) -> Words {
    let mut text = words(alloc, before)?;
    for touch in touches {
        if let Some(Touch { object, mode }) = touch {
            match mode {
                Mode::Read => write!(text, " r{object}")?,
                Mode::Write => write!(text, " w{object}")?,
            }
        }
    }
    Ok(text)
}

/// What each thread waits for.
fn stuck_words(alloc: Global, waiting: &[Option<Waiting>; MOST_THREADS]) -> Words {
    let mut text = words(alloc, "no thread can go on")?;
    for (thread, wait) in waiting.iter().enumerate() {
        if let Some(wait) = wait {
            put_waiting(&mut text, thread, wait)?;
        }
    }
    Ok(text)
}

/// Puts behind a text what a thread waits for, and what is there.
fn put_waiting(text: &mut String, thread: usize, wait: &Waiting) -> Result<(), NoMemory> {
    let place = wait.place;
    let entry = wait.entry;
    write!(
        text,
        "; thread {thread} waits at place {place} for {entry} and finds"
    )?;
    for (found, count) in wait.entry.found.iter().zip(wait.counts) {
        if let Some(found) = found {
            put_count(text, found, count)?;
        }
    }
    Ok(())
}

/// Puts the version behind a text that the object of a touch has.
fn put_count(text: &mut String, found: &Found, count: Count) -> Result<(), NoMemory> {
    let object = found.object();
    let version = count.version;
    let reads = count.reads;
    write!(text, " {object}@{version}/{reads}")?;
    Ok(())
}
