//! A thread that waits only once the other has woken.

use crate::programs::{LIMITED, Program};
use std::alloc::Global;
use std::sync::Wait;
use std::sync::atomic::{AtomicBool, Ordering};
use std::test::Fail;
use std::thread::{self, Threads};
use wasm_record::{AtOnce, Hold, Never, Recording, Timer};
use wasm_types::{Outcome, Value};

/// How often thread 0 asks whether thread 1 has woken.
const MOST_TURNS: u32 = 1_000_000;

/// Keeps the calls of thread 0 until thread 1 had one.
#[derive(Drop)]
struct WakerFirst {
    has_woken: AtomicBool,
}

impl WakerFirst {
    /// Thread 1 had none yet.
    fn new() -> WakerFirst {
        WakerFirst {
            has_woken: AtomicBool::new(false),
        }
    }
}

impl Hold for WakerFirst {
    fn before(&self, thread: u32, _place: u64) {
        if thread != 0 {
            return;
        }
        for _ in 0..MOST_TURNS {
            if self.has_woken.load(Ordering::SeqCst) {
                break;
            }
            thread::yield_now();
        }
    }

    fn inside(&self, _thread: u32, _place: u64) {}

    fn after(&self, thread: u32, _place: u64) {
        if thread == 1 {
            self.has_woken.store(true, Ordering::SeqCst);
        }
    }
}

/// Records a thread that waits with a limit of time, once another has woken nobody.
fn woken_too_early<T: Timer + Sync, R: Threads + Wait + Sync>(
    rt: &R,
    alloc: Global,
    timer: &T,
) -> Result<Recording, Fail> {
    let program = Program::read(alloc, LIMITED)?;
    let hold = WakerFirst::new();
    program.record(rt, alloc, 1000, timer, &hold)
}

/// Whether it comes to these outcomes.
fn ends_so<T: Timer + Sync, R: Threads + Wait + Sync>(
    rt: &R,
    alloc: Global,
    timer: &T,
    outcomes: [Outcome; 2],
) -> Result<bool, Fail> {
    let recording = woken_too_early(rt, alloc, timer)?;
    Ok(recording.recorded().end().outcomes() == outcomes.as_slice())
}

/// A sleeper that nobody wakes any more times out where the timer says so, and else sleeps on: the timer is asked, and
/// believed.
#[test]
fn a_timer_is_asked(rt: HostRuntime) -> Result<(), Fail> {
    let woke_nobody = Outcome::Done(Some(Value::I32(0)));
    let timed_out = Outcome::Done(Some(Value::I32(2)));
    let over = [timed_out, woke_nobody];
    assert!(rt; ends_so(&rt, rt.alloc(), &AtOnce, over)?);
    let never = [Outcome::Waiting, woke_nobody];
    assert!(rt; ends_so(&rt, rt.alloc(), &Never, never)?);
    Ok(())
}
