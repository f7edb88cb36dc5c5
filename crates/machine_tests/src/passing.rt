//! Picks that a recording passes over, since nothing can be done by them, or their thread has made its steps.

use crate::checks::compare;
use crate::modules::{open, valid};
use pick_schedule::{Schedule, schedule};
use recorder::record;
use std::alloc::Global;
use std::test::Fail;
use validator::Valid;

/// Twice the same thread, which adds 1 at address 0 twice, in eight steps.
const COUNTER: (&str, &str) = (
    "0061736d010000000105016000017f030201000504010301010705010177\
    00000a1501130041004101fe1e02001a41004101fe1e02000b",
    "wreplay plan 1\nthread w\nthread w\n",
);

/// Thread 0 waits at address 0 for 0, at most 1,000 nanoseconds, and thread 1 wakes one there.
const LIMITED: (&str, &str) = (
    "0061736d010000000105016000017f0303020000050401030101070b02026630000002663100010a1a02\
    0d004100410042e807fe0102000b0a0041004101fe0002000b",
    "wreplay plan 1\nthread f0\nthread f1\n",
);

/// The same without a limit of time.
const UNLIMITED: (&str, &str) = (
    "0061736d010000000105016000017f0303020000050401030101070b02026630000002663100010a1902\
    0c0041004100427ffe0102000b0a0041004101fe0002000b",
    "wreplay plan 1\nthread f0\nthread f1\n",
);

/// Threads 0, 1 and 2 wait at address 0 and thread 3 at address 4; thread 4 wakes two at address 0 and then all.
const FIVE: (&str, &str) = (
    "0061736d010000000105016000017f0306050000000000050401030101071a050266300000026631000102663200\
    02026633000302663400040a4c050c0041004100427ffe0102000b0c0041004100427ffe0102000b0c0041004100\
    427ffe0102000b0c0041044100427ffe0102000b160041004102fe000200410a6c4100417ffe0002006a0b",
    "wreplay plan 1\nthread f0\nthread f1\nthread f2\nthread f3\nthread f4\n",
);

/// A module and a plan, a schedule, the steps that a thread may make, and how many picks are passed over.
const ROWS: &[((&str, &str), &str, u32, u64)] = &[
    (COUNTER, "go 0 8\ngo 1 8\n", 1_000, 0),
    (COUNTER, "go 0 8\ngo 1 8\n", 3, 10),
    (LIMITED, "go 0 4\nout 0\ngo 1 4\ngo 0 1\n", 1_000, 0),
    (LIMITED, "go 0 4\ngo 1 4\nout 0\ngo 0 2\n", 1_000, 1),
    (UNLIMITED, "go 0 4\nout 0\ngo 1 4\ngo 0 1\n", 1_000, 1),
    (
        FIVE,
        "go 2 4\ngo 0 4\ngo 1 4\ngo 3 4\ngo 4 3\ngo 1 1\ngo 0 2\ngo 2 2\ngo 4 7\ngo 1 2\ngo 3 1\n",
        1_000,
        2,
    ),
];

/// How many picks of a schedule a recording passes over.
fn passed_over(
    alloc: Global,
    valid: &Valid,
    plan: &str,
    picks: &Schedule,
    steps: u32,
) -> Result<u64, Fail> {
    let world = open(alloc, valid, plan)?;
    Ok(record(alloc, world, picks, steps)?.passed())
}

/// The same of the module of these digits. It alone owns a module, and the next one a schedule.
fn passed_of(
    alloc: Global,
    (module, plan): (&str, &str),
    picks: &Schedule,
    steps: u32,
) -> Result<u64, Fail> {
    let valid = valid(alloc, module)?;
    passed_over(alloc, &valid, plan, picks, steps)
}

fn passed(alloc: Global, of: (&str, &str), picks: &str, steps: u32) -> Result<u64, Fail> {
    let picks = schedule(alloc, picks.as_bytes())?;
    passed_of(alloc, of, &picks, steps)
}

#[test]
fn picks_are_passed_over(rt: HostRuntime) -> Result<(), Fail> {
    let rows = ROWS;
    for (of, picks, steps, wanted) in rows {
        let found = passed(rt.alloc(), *of, *picks, *steps)?;
        compare(&rt, &found, wanted, picks);
    }
    Ok(())
}
