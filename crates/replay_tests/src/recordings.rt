//! Recordings of three scripts by twelve schedules; what they must give was computed by a program of its own.

use crate::logs::{SCRIPTS, told_end, wanted_end};
use event_core::{Input, Pick, StepFault, World};
use pick_schedule::Schedule;
use recorder::{Recorded, ThreadLog, record};
use scripted::{Cell, CellOp, Cells, Script, ScriptStep, open_scripts};
use std::alloc::Global;
use std::process::Abort;
use std::test::Fail;

/// A schedule of thread numbers, and what the cells, the sums of answers and the logs then are.
struct Row {
    schedule: [u32; 6],
    cells: [u64; 3],
    sums: [u64; 3],
    log: &'static [&'static str],
}

static ROWS: [Row; 12] = [
    Row {
        schedule: [0, 0, 1, 1, 2, 2],
        cells: [5, 2, 0],
        sums: [0, 2, 7],
        log: &[
            "access r0@0, access w1@0/0",
            "access w0@0/1, access r1@1",
            "access r0@1, access r1@1",
        ],
    },
    Row {
        schedule: [0, 1, 2, 0, 1, 2],
        cells: [5, 2, 0],
        sums: [0, 2, 7],
        log: &[
            "access r0@0, access w1@0/0",
            "access w0@0/1, access r1@1",
            "access r0@1, access r1@1",
        ],
    },
    Row {
        schedule: [0, 0, 2, 2, 1, 1],
        cells: [5, 2, 0],
        sums: [0, 2, 2],
        log: &[
            "access r0@0, access w1@0/0",
            "access w0@0/2, access r1@1",
            "access r0@0, access r1@1",
        ],
    },
    Row {
        schedule: [0, 2, 1, 0, 2, 1],
        cells: [5, 2, 0],
        sums: [0, 2, 2],
        log: &[
            "access r0@0, access w1@0/0",
            "access w0@0/2, access r1@1",
            "access r0@0, access r1@1",
        ],
    },
    Row {
        schedule: [1, 1, 0, 0, 2, 2],
        cells: [5, 2, 0],
        sums: [5, 0, 7],
        log: &[
            "access r0@1, access w1@0/1",
            "access w0@0/0, access r1@0",
            "access r0@1, access r1@1",
        ],
    },
    Row {
        schedule: [1, 0, 2, 1, 0, 2],
        cells: [5, 2, 0],
        sums: [5, 0, 7],
        log: &[
            "access r0@1, access w1@0/1",
            "access w0@0/0, access r1@0",
            "access r0@1, access r1@1",
        ],
    },
    Row {
        schedule: [1, 1, 2, 2, 0, 0],
        cells: [5, 2, 0],
        sums: [5, 0, 5],
        log: &[
            "access r0@1, access w1@0/2",
            "access w0@0/0, access r1@0",
            "access r0@1, access r1@0",
        ],
    },
    Row {
        schedule: [1, 2, 0, 1, 2, 0],
        cells: [5, 2, 0],
        sums: [5, 0, 5],
        log: &[
            "access r0@1, access w1@0/2",
            "access w0@0/0, access r1@0",
            "access r0@1, access r1@0",
        ],
    },
    Row {
        schedule: [2, 2, 0, 0, 1, 1],
        cells: [5, 2, 0],
        sums: [0, 2, 0],
        log: &[
            "access r0@0, access w1@0/1",
            "access w0@0/2, access r1@1",
            "access r0@0, access r1@0",
        ],
    },
    Row {
        schedule: [2, 0, 1, 2, 0, 1],
        cells: [5, 2, 0],
        sums: [0, 2, 0],
        log: &[
            "access r0@0, access w1@0/1",
            "access w0@0/2, access r1@1",
            "access r0@0, access r1@0",
        ],
    },
    Row {
        schedule: [2, 2, 1, 1, 0, 0],
        cells: [5, 2, 0],
        sums: [5, 0, 0],
        log: &[
            "access r0@1, access w1@0/2",
            "access w0@0/1, access r1@0",
            "access r0@0, access r1@0",
        ],
    },
    Row {
        schedule: [2, 1, 0, 2, 1, 0],
        cells: [5, 2, 0],
        sums: [5, 0, 0],
        log: &[
            "access r0@1, access w1@0/2",
            "access w0@0/1, access r1@0",
            "access r0@0, access r1@0",
        ],
    },
];

/// The pick by which a thread goes on.
const fn go(thread: u32) -> Pick {
    let input = Input::Go;
    Pick { thread, input }
}

/// A recording of the three scripts by a schedule.
fn recorded(alloc: Global, schedule: &[u32; 6]) -> Result<Recorded, Fail> {
    let scripts = [&SCRIPTS[0][..], &SCRIPTS[1][..], &SCRIPTS[2][..]];
    let picks = Schedule::of(alloc, &schedule.map(go))?;
    let world = open_scripts(alloc, &scripts, [0, 0, 0])?;
    Ok(record(alloc, world, &picks, 1_000_000_000)?)
}

/// The end of a thread, and its entries.
fn told_log(alloc: Global, log: &ThreadLog) -> Result<String, Fail> {
    let mut text = format!(in alloc; "{}", log.end())?;
    for entry in log.entries().reader().next_entries(alloc, 3)?.as_slice() {
        write!(text, ", {entry}")?;
    }
    Ok(text)
}

/// What there is of a recording: how many picks were passed over, the end of the run, and a line for each thread.
fn told(alloc: Global, recorded: &Recorded) -> Result<String, Fail> {
    let end = told_end(alloc, recorded.end())?;
    let mut text = format!(in alloc; "passed {}\n{end}\n", recorded.passed())?;
    for log in recorded.log() {
        let line = told_log(alloc, log)?;
        write!(text, "{line}\n")?;
    }
    Ok(text)
}

/// The same of the recording by the schedule of a row.
fn told_row(alloc: Global, row: &Row) -> Result<String, Fail> {
    let recorded = recorded(alloc, &row.schedule)?;
    told(alloc, &recorded)
}

/// What there is to be by a row.
fn wanted_row(alloc: Global, row: &Row) -> Result<String, Fail> {
    let end = wanted_end(alloc, &row.cells, &row.sums)?;
    let mut text = format!(in alloc; "passed 0\n{end}\n")?;
    for (sum, log) in row.sums.iter().zip(row.log) {
        write!(text, "steps=2 places=2 i64 {sum}, {log}\n")?;
    }
    Ok(text)
}

#[test]
fn twelve_schedules(rt: HostRuntime) -> Result<(), Fail> {
    for row in &ROWS {
        let found = told_row(rt.alloc(), row)?;
        let want = wanted_row(rt.alloc(), row)?;
        assert_eq!(rt; found.as_str(), want.as_str(), "{:?}", row.schedule);
    }
    Ok(())
}

/// Makes a step, and where memory was wanted for it, makes it again: the refused one changed nothing.
fn step_again(rt: &impl Abort, world: &mut World<Script, Cells>, pick: Pick) {
    let places = world.places(pick.thread);
    if let Err(fault) = world.step(pick) {
        assert_eq!(rt; fault, StepFault::NoMemory);
        assert_eq!(rt; world.places(pick.thread), places);
        assert!(rt; world.step(pick).is_ok());
    }
}

/// The end of a world.
fn end_of(alloc: Global, world: &World<Script, Cells>) -> Result<String, Fail> {
    let ended = world.end(alloc)?;
    told_end(alloc, &ended)
}

/// Lets the threads of a world step by a schedule, and tells its end.
fn end_behind(
    rt: &impl Abort,
    alloc: Global,
    world: &mut World<Script, Cells>,
    schedule: &[u32],
) -> Result<String, Fail> {
    for thread in schedule {
        step_again(rt, world, go(*thread));
    }
    end_of(alloc, world)
}

/// The same of the three scripts by the schedule of a row.
fn stepped(rt: &impl Abort, alloc: Global, row: &Row) -> Result<String, Fail> {
    let scripts = [&SCRIPTS[0][..], &SCRIPTS[1][..], &SCRIPTS[2][..]];
    let mut world = open_scripts(alloc, &scripts, [0, 0, 0])?;
    end_behind(rt, alloc, &mut world, &row.schedule)
}

/// A step for which memory was wanted is made again. Run with each allocation failing in turn, this shows that the
/// refused step changed nothing.
#[test]
fn refused_steps_are_made_again(rt: HostRuntime) -> Result<(), Fail> {
    let row = &ROWS[1];
    let found = stepped(&rt, rt.alloc(), row)?;
    let want = wanted_end(rt.alloc(), &row.cells, &row.sums)?;
    assert_eq!(rt; found.as_str(), want.as_str());
    Ok(())
}

/// A recording of a script that rests, adds 3 to the third cell, which holds 4, and rests, by a pick more than it has
/// steps.
fn recorded_rests(alloc: Global) -> Result<Recorded, Fail> {
    let script = [
        ScriptStep::Rest,
        ScriptStep::Make(CellOp::Add(Cell::C, 3)),
        ScriptStep::Rest,
    ];
    let mut picks = Schedule::new(alloc);
    picks.push(go(0), 4)?;
    let world = open_scripts(alloc, &[&script[..]], [0, 0, 4])?;
    Ok(record(alloc, world, &picks, 1_000_000_000)?)
}

/// What there is of it.
fn told_rests(alloc: Global) -> Result<String, Fail> {
    let recorded = recorded_rests(alloc)?;
    told(alloc, &recorded)
}

/// A rest is a step and no event: it has no place and no entry.
#[test]
fn rests_are_steps_without_places(rt: HostRuntime) -> Result<(), Fail> {
    let found = told_rests(rt.alloc())?;
    let end = wanted_end(rt.alloc(), &[0, 0, 7], &[4])?;
    let want = format!(in rt.alloc(); "passed 1\n{end}\nsteps=3 places=1 i64 4, access w2@0/0\n")?;
    assert_eq!(rt; found.as_str(), want.as_str());
    Ok(())
}
