//! Threads that wait, with timers that never and that always say that the time is over.

use crate::programs::{FIVE, LIMITED, Program, UNLIMITED};
use crate::runs::{recorded, replays};
use std::alloc::Global;
use std::process::Abort;
use std::sync::Wait;
use std::test::Fail;
use std::thread::Threads;
use wasm_record::{AtOnce, Never, Recording, Timer};
use wasm_types::{Outcome, Value};

/// The outcome of a thread that answered this number.
fn answered(number: u32) -> Outcome {
    Outcome::Done(Some(Value::I32(number)))
}

/// Records a run of a module and a plan and replays it, and answers the recording.
fn run<T: Timer + Sync, R: Threads + Wait + Sync>(
    rt: &R,
    abort: &impl Abort,
    alloc: Global,
    program: (&str, &str),
    timer: &T,
) -> Result<Recording, Fail> {
    let program = Program::read(alloc, program)?;
    let recording = recorded(rt, abort, alloc, &program, timer)?;
    replays(rt, abort, alloc, &program, &recording)?;
    Ok(recording)
}

/// Whether the outcomes of a recording are one of these pairs.
fn is_one_of(recording: &Recording, pairs: &[[Outcome; 2]]) -> bool {
    let outcomes = recording.recorded().end().outcomes();
    pairs.iter().any(|pair| outcomes == pair.as_slice())
}

/// Where no wait times out, the sleeper is woken, or sleeps on since it came too late.
#[test]
fn sleeps_until_it_is_woken(rt: HostRuntime) -> Result<(), Fail> {
    let alloc = rt.alloc();
    let ends = [[answered(0), answered(1)], [Outcome::Waiting, answered(0)]];
    let limited = run(&rt, &rt, alloc, LIMITED, &Never)?;
    assert!(rt; is_one_of(&limited, &ends));
    let unlimited = run(&rt, &rt, alloc, UNLIMITED, &Never)?;
    assert!(rt; is_one_of(&unlimited, &ends));
    Ok(())
}

/// Where each wait with a limit times out at once, the sleeper is woken, or its time is over. One without a limit
/// sleeps on.
#[test]
fn times_out(rt: HostRuntime) -> Result<(), Fail> {
    let alloc = rt.alloc();
    let limited = run(&rt, &rt, alloc, LIMITED, &AtOnce)?;
    assert!(rt;
        is_one_of(
            &limited,
            &[[answered(0), answered(1)], [answered(2), answered(0)]]
        )
    );
    let unlimited = run(&rt, &rt, alloc, UNLIMITED, &AtOnce)?;
    assert!(rt;
        is_one_of(
            &unlimited,
            &[[answered(0), answered(1)], [Outcome::Waiting, answered(0)]]
        )
    );
    Ok(())
}

/// How many of these threads were woken.
fn woken(outcomes: &[Outcome]) -> u32 {
    let mut count = 0u32;
    for outcome in outcomes {
        if *outcome == answered(0) {
            count = count.wrapping_add(1);
        }
    }
    count
}

/// Checks that as many threads were woken as the fifth thread was told, and none that waits elsewhere.
fn check_five(abort: &impl Abort, recording: &Recording) {
    let outcomes = recording.recorded().end().outcomes();
    let told = match outcomes {
        [.., Outcome::Waiting, Outcome::Done(Some(Value::I32(told)))] => *told,
        _ => 99,
    };
    assert_eq!(abort;
        woken(&outcomes[..outcomes.len().min(3)]),
        told / 10 + told % 10
    );
}

/// Sleepers are woken in number as the waker was told, and those at another address sleep on.
#[test]
fn wakes_as_many_as_it_says(rt: HostRuntime) -> Result<(), Fail> {
    let alloc = rt.alloc();
    let never = run(&rt, &rt, alloc, FIVE, &Never)?;
    check_five(&rt, &never);
    let at_once = run(&rt, &rt, alloc, FIVE, &AtOnce)?;
    check_five(&rt, &at_once);
    Ok(())
}
