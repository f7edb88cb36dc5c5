//! Schedules from their lines.

use event_core::{Input, Pick};
use pick_schedule::{ScheduleFault, Stretch, schedule};
use std::alloc::Global;
use std::test::Fail;

// The faulty line of a text; None where it is a schedule, or memory is wanting.
fn bad_line(alloc: Global, text: &str) -> Option<u64> {
    match schedule(alloc, text.as_bytes()) {
        Err(ScheduleFault::BadLine { line, .. }) => Some(line),
        _ => None,
    }
}

#[test]
fn a_schedule_is_read(rt: HostRuntime) -> Result<(), Fail> {
    let picks = schedule(rt.alloc(), b"go 0 2\nout 15")?;
    let go = Pick {
        thread: 0,
        input: Input::Go,
    };
    let out = Pick {
        thread: 15,
        input: Input::TimeOut,
    };
    let stretches = [
        Stretch { pick: go, times: 2 },
        Stretch {
            pick: out,
            times: 1,
        },
    ];
    assert!(rt; picks.stretches() == stretches.as_slice());
    Ok(())
}

#[test]
fn no_bytes_are_no_picks(rt: HostRuntime) -> Result<(), Fail> {
    assert!(rt; schedule(rt.alloc(), b"")?.is_empty());
    Ok(())
}

#[test]
fn the_first_faulty_line_is_answered(rt: HostRuntime) -> Result<(), Fail> {
    let alloc = rt.alloc();
    for text in [
        "\n",
        "go 0 0",
        "go 16 1",
        "go 00 1",
        "go 0  1",
        "go 0 1 ",
        "go 0",
        "out 0 1",
        "out -0",
        "go 0 1000001",
    ] {
        assert_eq!(rt; bad_line(alloc, text), Some(1), "{text}");
    }
    assert_eq!(rt; bad_line(alloc, "go 0 1\nout\nin 0\n"), Some(2));
    Ok(())
}

#[test]
fn picks_beyond_a_million_are_refused(rt: HostRuntime) -> Result<(), Fail> {
    let alloc = rt.alloc();
    assert_eq!(rt; schedule(alloc, b"go 1 999999\nout 3\n")?.len(), 1_000_000);
    assert_eq!(rt; bad_line(alloc, "go 1 999999\ngo 0 1\nout 3\n"), Some(3));
    Ok(())
}
