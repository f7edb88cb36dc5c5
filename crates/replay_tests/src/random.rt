//! Recordings of runs that numbers draw. What they must give was computed by a program of its own.

use crate::logs::{Accesses, ClaimedLog, SCRIPTS, Scripts, told_end};
use event_core::{Input, Pick};
use log_pieces::End;
use pick_schedule::Schedule;
use recorder::{RandomRun, Recorded, ThreadLog, record, record_random};
use replay_gate::replay;
use rw_objects::{Entry, Found};
use scripted::{Cell, CellOp, ScriptStep, open_scripts};
use std::alloc::Global;
use std::sync::Wait;
use std::test::Fail;
use wasm_types::{NoMemory, Outcome, Value};

/// The run of the three scripts that a number draws.
fn recorded(rt: &impl Wait, alloc: Global, number: u64) -> Result<Recorded, NoMemory> {
    let scripts = [&SCRIPTS[0][..], &SCRIPTS[1][..], &SCRIPTS[2][..]];
    let world = open_scripts(alloc, &scripts, [0, 0, 0])?;
    let draw = RandomRun {
        number,
        timeouts: true,
        steps: 1_000_000_000,
    };
    record_random(rt, alloc, world, draw)
}

/// The entries of a thread's log.
fn told_entries(alloc: Global, log: &ThreadLog) -> Result<String, Fail> {
    let mut text = format!(in alloc; "")?;
    for entry in log
        .entries()
        .reader()
        .next_entries(alloc, 1_000)?
        .as_slice()
    {
        write!(text, ", {entry}")?;
    }
    Ok(text)
}

/// What a recording says: its end, and a line for each thread.
fn told(alloc: Global, recorded: &Recorded) -> Result<String, Fail> {
    let mut text = told_end(alloc, recorded.end())?;
    for log in recorded.log() {
        let entries = told_entries(alloc, log)?;
        write!(text, "\n{}{entries}", log.end())?;
    }
    Ok(text)
}

/// What the run says that a number draws.
fn told_run(rt: &impl Wait, alloc: Global, number: u64) -> Result<String, Fail> {
    let recorded = recorded(rt, alloc, number)?;
    told(alloc, &recorded)
}

#[test]
fn a_number_draws_one_run(rt: HostRuntime) -> Result<(), Fail> {
    for number in [0, 1, 54, u64::MAX] {
        let first = told_run(&rt, rt.alloc(), number)?;
        let second = told_run(&rt, rt.alloc(), number)?;
        assert_eq!(rt; first.as_str(), second.as_str(), "{number}");
    }
    Ok(())
}

/// How many runs numbers draw, by their logs and ends.
fn drawn(rt: &impl Wait, alloc: Global, numbers: u64) -> Result<usize, Fail> {
    let mut seen: Vec<String> = Vec::new(alloc);
    for number in 0..numbers {
        let run = told_run(rt, alloc, number)?;
        if !seen.iter().any(|other| other.as_str() == run.as_str()) {
            seen.push(run)?;
        }
    }
    Ok(seen.len())
}

/// Of the sixteen logs that runs of the scripts have, the first two hundred numbers draw twelve.
#[test]
fn numbers_draw_many_runs(rt: HostRuntime) -> Result<(), Fail> {
    assert_eq!(rt; drawn(&rt, rt.alloc(), 200)?, 12);
    Ok(())
}

/// The threads of the steps of the run of the three scripts that a number draws.
static RUNS: [(u64, [u32; 6]); 6] = [
    (0, [2, 2, 1, 1, 0, 0]),
    (1, [0, 0, 2, 2, 1, 1]),
    (2, [1, 0, 0, 2, 2, 1]),
    (4, [1, 2, 0, 0, 2, 1]),
    (9, [2, 0, 0, 2, 1, 1]),
    (u64::MAX, [2, 2, 1, 0, 0, 1]),
];

/// The pick by which a thread goes on.
const fn go(thread: u32) -> Pick {
    let input = Input::Go;
    Pick { thread, input }
}

/// What the run of the three scripts says by a schedule.
fn told_schedule(alloc: Global, schedule: &[u32; 6]) -> Result<String, Fail> {
    let scripts = [&SCRIPTS[0][..], &SCRIPTS[1][..], &SCRIPTS[2][..]];
    let picks = Schedule::of(alloc, &schedule.map(go))?;
    let world = open_scripts(alloc, &scripts, [0, 0, 0])?;
    let recorded = record(alloc, world, &picks, 1_000_000_000)?;
    told(alloc, &recorded)
}

#[test]
fn numbers_draw_these_runs(rt: HostRuntime) -> Result<(), Fail> {
    for (number, schedule) in &RUNS {
        let found = told_run(&rt, rt.alloc(), *number)?;
        let want = told_schedule(rt.alloc(), schedule)?;
        assert_eq!(rt; found.as_str(), want.as_str(), "{number}");
    }
    Ok(())
}

/// What an entry found of the one cell that it is of.
fn found(entry: Option<&Entry>) -> Option<Option<Found>> {
    match entry {
        Some(entry) if entry.found.len() == 1 => Some(Some(entry.found.at(0))),
        _ => None,
    }
}

/// The two accesses of a thread's log.
fn accesses(alloc: Global, log: Option<&ThreadLog>) -> Result<[Option<Option<Found>>; 2], Fail> {
    let Some(log) = log else {
        return Ok([None, None]);
    };
    let entries = log.entries().reader().next_entries(alloc, 3)?;
    Ok([found(entries.get(0)), found(entries.get(1))])
}

/// The sum with which a thread is done behind two steps that are accesses.
fn sum(log: Option<&ThreadLog>) -> Option<u64> {
    match log {
        Some(log) => match log.end() {
            End {
                steps: 2,
                places: 2,
                outcome: Outcome::Done(Some(Value::I64(sum))),
            } => Some(sum),
            _ => None,
        },
        None => None,
    }
}

/// The log of a recording of the three scripts.
fn log_of(alloc: Global, recorded: &Recorded) -> Result<ClaimedLog, Fail> {
    let logs = recorded.log();
    let accesses: Accesses = [
        accesses(alloc, logs.get(0))?,
        accesses(alloc, logs.get(1))?,
        accesses(alloc, logs.get(2))?,
    ];
    Ok(ClaimedLog {
        alloc,
        accesses,
        sums: [sum(logs.get(0)), sum(logs.get(1)), sum(logs.get(2))],
    })
}

/// The end of the replay of the run that a number draws.
fn told_replay(alloc: Global, recorded: &Recorded) -> Result<String, Fail> {
    let scripts = [&SCRIPTS[0][..], &SCRIPTS[1][..], &SCRIPTS[2][..]];
    let opens = Scripts { scripts: &scripts };
    let log = log_of(alloc, recorded)?;
    match replay(alloc, &opens, &log, &[]) {
        Ok(ended) => told_end(alloc, &ended),
        Err(_) => Ok(format!(in alloc; "refused")?),
    }
}

/// Each run that is drawn has come to the end of each thread, and its replay ends so, too.
#[test]
fn drawn_runs_replay(rt: HostRuntime) -> Result<(), Fail> {
    let alloc = rt.alloc();
    for number in 0..50 {
        let recorded = recorded(&rt, alloc, number)?;
        let end = told_end(alloc, recorded.end())?;
        let again = told_replay(alloc, &recorded)?;
        assert_eq!(rt; end.as_str(), again.as_str(), "{number}");
        for outcome in recorded.end().outcomes() {
            assert!(rt; matches!(outcome, Outcome::Done(_)), "{number}");
        }
    }
    Ok(())
}

/// A thread of so many rests and additions to a cell, in turn.
fn additions(alloc: Global, times: u32) -> Result<Vec<ScriptStep>, NoMemory> {
    let mut script = Vec::new(alloc);
    for _ in 0..times {
        script.push(ScriptStep::Rest)?;
        script.push(ScriptStep::Make(CellOp::Add(Cell::A, 1)))?;
    }
    Ok(script)
}

/// The run that a number draws of two threads, each of so many rests and additions to one cell.
fn adding(
    rt: &impl Wait,
    alloc: Global,
    times: u32,
    draw: RandomRun,
) -> Result<Recorded, NoMemory> {
    let script = additions(alloc, times)?;
    let scripts = [script.as_slice(), script.as_slice()];
    let world = open_scripts(alloc, &scripts, [0, 0, 0])?;
    record_random(rt, alloc, world, draw)
}

/// What two threads of six rests and additions find in the run that a number draws: how often the cell was written.
static ADDITIONS: [(u64, &[&str; 2]); 4] = [
    (2, &["0 1 2 3 6 7", "4 5 8 9 10 11"]),
    (4, &["0 2 3 5 6 8", "1 4 7 9 10 11"]),
    (5, &["6 7 8 9 10 11", "0 1 2 3 4 5"]),
    (9, &["1 2 3 4 5 6", "0 7 8 9 10 11"]),
];

/// The log of a thread that found these numbers.
fn wanted_additions(alloc: Global, found: &str) -> Result<String, Fail> {
    let mut text = format!(in alloc; "")?;
    for version in found.split(' ') {
        write!(text, ", access w0@{version}/0")?;
    }
    Ok(text)
}

/// Stretches are as long as the words say.
#[test]
fn numbers_draw_these_stretches(rt: HostRuntime) -> Result<(), Fail> {
    let alloc = rt.alloc();
    for (number, logs) in &ADDITIONS {
        let draw = RandomRun {
            number: *number,
            timeouts: true,
            steps: 1_000,
        };
        let recorded = adding(&rt, alloc, 6, draw)?;
        for (log, want) in recorded.log().iter().zip(*logs) {
            let found = told_entries(alloc, log)?;
            let want = wanted_additions(alloc, *want)?;
            assert_eq!(rt; found.as_str(), want.as_str(), "{number}");
        }
    }
    Ok(())
}

/// How many steps and places two threads of 2,000 steps come to, of which half are additions, where a thread makes so
/// many at most.
fn ends(rt: &impl Wait, alloc: Global, number: u64, steps: u32) -> Result<[(u32, u32); 2], Fail> {
    let draw = RandomRun {
        number,
        timeouts: false,
        steps,
    };
    let recorded = adding(rt, alloc, 1_000, draw)?;
    let mut ends = [(0, 0); 2];
    for (end, log) in ends.iter_mut().zip(recorded.log()) {
        *end = (log.end().steps, log.end().places);
    }
    Ok(ends)
}

/// No thread goes on past its steps, and each comes to them.
#[test]
fn drawn_runs_keep_to_the_steps(rt: HostRuntime) -> Result<(), Fail> {
    for number in 0..10 {
        for (steps, end) in [
            (0, (0, 0)),
            (1, (1, 0)),
            (777, (777, 388)),
            (2_000, (2_000, 1_000)),
            (u32::MAX, (2_000, 1_000)),
        ] {
            let ends = ends(&rt, rt.alloc(), number, steps)?;
            assert_eq!(rt; ends, [end, end], "{number} {steps}");
        }
    }
    Ok(())
}
