//! Views of worlds that were brought by hand to where a replay stops. What they must show was worked out by hand.

ghost use Rattle.std.specs.Prelude.{IsTrue};
ghost use Rattle.debug_views.specs.Text.{IsShown};

use crate::checks::{compare, compare_texts};
use crate::modules::{Threads, open, valid};
use debug_views::{bytes, thread_view, versions, view, write_break};
use event_core::{Input, Pick};
use replay_gate::{Break, Every, ObjectRange, Stopped};
use std::alloc::Global;
use std::test::Fail;
use validator::Valid;
use wasm_types::{Block, ByteRange};

/// A shared memory of one page, and a function `w` that adds 1 at address 0 twice and answers the second old value: 8
/// steps, 2 of them events.
const ONE_PAGE: &str = "\
    0061736d010000000105016000017f030201000504010301010705010177\
    00000a1501130041004101fe1e02001a41004101fe1e02000b";

/// The same over a memory of no page, which may grow to one.
const NO_PAGE: &str = "\
    0061736d010000000105016000017f030201000504010300010705010177\
    00000a1501130041004101fe1e02001a41004101fe1e02000b";

/// A shared memory of one page with a segment `2a` at address 3, and a function `w` that does nothing.
const SEGMENT: &str = "\
    0061736d01000000010401600000030201000504010301010705010177\
    00000a040102000b0b07010041030b012a";

/// The world of a module with two threads that run `w`; moves, each of a thread that makes so many steps; why the
/// replay stopped, among its breaks; the range of bytes that is shown; and what is seen.
struct Row {
    module: &'static str,
    moves: &'static [(u32, u32)],
    stopped: Stopped,
    breaks: &'static [Break],
    range: (u32, u32),
    want: &'static str,
}

// Lets the threads move.
fn go(world: &mut Threads<'_>, moves: &[(u32, u32)]) -> Result<(), Fail> {
    for (thread, steps) in moves {
        for _ in 0..*steps {
            world.step(Pick {
                thread: *thread,
                input: Input::Go,
            })?;
        }
    }
    Ok(())
}

fn is_shown(stopped: Stopped, breaks: &[Break]) -> bool
    ensures { IsTrue result → IsShown stopped breaks.now }
{
    match stopped {
        Stopped::Break(index) => index < breaks.len(),
        Stopped::Finished | Stopped::Stuck => true,
        Stopped::Fault(_) => false,
    }
}

// The view's text, or the fault.
fn text_of_view(alloc: Global, world: &Threads<'_>, row: &Row) -> Result<String, Fail> {
    let (stopped, breaks, (from, len)) = (row.stopped, row.breaks, row.range);
    if !is_shown(stopped, breaks) {
        return Err("a fault has no view".into());
    }
    match view(
        alloc,
        world,
        Block::least(),
        stopped,
        breaks,
        &[],
        ByteRange { from, len },
    ) {
        Ok(text) => Ok(text),
        Err(fault) => Ok(format!(in alloc; "{fault:?}\n")?),
    }
}

// How many bytes are shown, none where there is a fault.
fn bytes_shown(alloc: Global, world: &Threads<'_>, row: &Row) -> usize {
    let (from, len) = row.range;
    match bytes(alloc, world, from, len) {
        Ok(bytes) => bytes.len(),
        Err(_) => 0,
    }
}

// Adds the bytes, object 1 and thread 1.
fn add_parts(alloc: Global, text: &mut String, world: &Threads<'_>, row: &Row) -> Result<(), Fail> {
    let shown = bytes_shown(alloc, world, row);
    let (count, thread) = (versions(world, 1), thread_view(world, 1));
    Ok(write!(text, "{shown} bytes\n{count:?}\n{thread:?}\n")?)
}

// Lets the threads move, and looks at the view, the bytes, object 1 and thread 1.
fn seen(alloc: Global, world: &mut Threads<'_>, row: &Row) -> Result<String, Fail> {
    go(world, row.moves)?;
    let mut text = text_of_view(alloc, world, row)?;
    add_parts(alloc, &mut text, world, row)?;
    Ok(text)
}

// It alone owns a world, and the next one a module.
fn seen_over(alloc: Global, valid: &Valid, row: &Row) -> Result<String, Fail> {
    let mut world = open(alloc, valid, "wreplay plan 1\nthread w\nthread w\n")?;
    seen(alloc, &mut world, row)
}

fn seen_in(alloc: Global, row: &Row) -> Result<String, Fail> {
    let valid = valid(alloc, row.module)?;
    seen_over(alloc, &valid, row)
}

/// Stops of each kind; ranges of one block, of two, of no bytes, of no memory, and one that passes the memory's end.
static VIEWS: &[Row] = &[
    Row {
        module: ONE_PAGE,
        moves: &[(0, 8), (1, 6)],
        stopped: Stopped::Stuck,
        breaks: &[],
        range: (0, 16),
        want: "stuck\nthread 0 steps 8 places 2 i32 1\nthread 1 steps 6 places 1 running\nobject 1 version 3 reads 0\n00000000 03000000000000000000000000000000\n16 bytes\nSome(Count { version: 3, reads: 0 })\nSome(ThreadView { steps: 6, places: 1, outcome: Running })\n",
    },
    Row {
        module: ONE_PAGE,
        moves: &[(0, 2), (1, 2), (0, 1)],
        stopped: Stopped::Break(0),
        breaks: &[Break::Place {
            thread: 0,
            place: 1,
        }],
        range: (0, 16),
        want: "stopped place\nthread 0 steps 3 places 1 running\nthread 1 steps 2 places 0 running\nobject 1 version 1 reads 0\n00000000 01000000000000000000000000000000\n16 bytes\nSome(Count { version: 1, reads: 0 })\nSome(ThreadView { steps: 2, places: 0, outcome: Running })\n",
    },
    Row {
        module: ONE_PAGE,
        moves: &[(0, 3), (1, 3), (0, 4)],
        stopped: Stopped::Break(1),
        breaks: &[
            Break::Place {
                thread: 0,
                place: 9,
            },
            Break::Step {
                thread: 1,
                steps: 3,
            },
        ],
        range: (0, 0),
        want: "stopped step\nthread 0 steps 7 places 2 running\nthread 1 steps 3 places 1 running\n0 bytes\nSome(Count { version: 3, reads: 0 })\nSome(ThreadView { steps: 3, places: 1, outcome: Running })\n",
    },
    Row {
        module: NO_PAGE,
        moves: &[],
        stopped: Stopped::Break(0),
        breaks: &[Break::Write(ObjectRange {
            from: 1,
            until: 3,
            every: Every::Second,
        })],
        range: (0, 0),
        want: "stopped write\nthread 0 steps 0 places 0 running\nthread 1 steps 0 places 0 running\n0 bytes\nSome(Count { version: 0, reads: 0 })\nSome(ThreadView { steps: 0, places: 0, outcome: Running })\n",
    },
    Row {
        module: ONE_PAGE,
        moves: &[(0, 8), (1, 8)],
        stopped: Stopped::Finished,
        breaks: &[],
        range: (63, 18),
        want: "finished\nthread 0 steps 8 places 2 i32 1\nthread 1 steps 8 places 2 i32 3\nobject 1 version 4 reads 0\nobject 3 version 0 reads 0\n0000003f 00000000000000000000000000000000\n0000004f 0000\n18 bytes\nSome(Count { version: 4, reads: 0 })\nSome(ThreadView { steps: 8, places: 2, outcome: Done(Some(I32(3))) })\n",
    },
    Row {
        module: ONE_PAGE,
        moves: &[],
        stopped: Stopped::Finished,
        breaks: &[],
        range: (65_530, 7),
        want: "OutOfView\n0 bytes\nSome(Count { version: 0, reads: 0 })\nSome(ThreadView { steps: 0, places: 0, outcome: Running })\n",
    },
    // A range of no bytes may stand at the memory's end, and may not pass it.
    Row {
        module: ONE_PAGE,
        moves: &[],
        stopped: Stopped::Finished,
        breaks: &[],
        range: (65_536, 0),
        want: "finished\nthread 0 steps 0 places 0 running\nthread 1 steps 0 places 0 running\n0 bytes\nSome(Count { version: 0, reads: 0 })\nSome(ThreadView { steps: 0, places: 0, outcome: Running })\n",
    },
    Row {
        module: ONE_PAGE,
        moves: &[],
        stopped: Stopped::Finished,
        breaks: &[],
        range: (65_537, 0),
        want: "OutOfView\n0 bytes\nSome(Count { version: 0, reads: 0 })\nSome(ThreadView { steps: 0, places: 0, outcome: Running })\n",
    },
    // The segment is written before the first step, and the memory has one page.
    Row {
        module: SEGMENT,
        moves: &[],
        stopped: Stopped::Finished,
        breaks: &[],
        range: (2, 3),
        want: "finished\nthread 0 steps 0 places 0 running\nthread 1 steps 0 places 0 running\nobject 1 version 0 reads 0\n00000002 002a00\n3 bytes\nSome(Count { version: 0, reads: 0 })\nSome(ThreadView { steps: 0, places: 0, outcome: Running })\n",
    },
    Row {
        module: SEGMENT,
        moves: &[],
        stopped: Stopped::Finished,
        breaks: &[],
        range: (65_530, 6),
        want: "finished\nthread 0 steps 0 places 0 running\nthread 1 steps 0 places 0 running\nobject 2047 version 0 reads 0\n0000fffa 000000000000\n6 bytes\nSome(Count { version: 0, reads: 0 })\nSome(ThreadView { steps: 0, places: 0, outcome: Running })\n",
    },
];

#[test]
fn stopped_replays_are_shown(rt: HostRuntime) -> Result<(), Fail> {
    for row in VIEWS {
        let text = seen_in(rt.alloc(), row)?;
        compare_texts(&rt, text.as_str(), row.want, "a view");
    }
    Ok(())
}

// The objects of a break at the writes of a range.
fn objects_of(from: u32, len: u32) -> Option<(u32, u32)> {
    match write_break(Block::least(), from, len) {
        Break::Write(
            ObjectRange {
                from,
                until,
                every: Every::Second,
            },
        ) => Some((from, until)),
        _ => None,
    }
}

#[test]
fn a_write_break_ends_with_the_block_of_the_last_byte(rt: HostRuntime) {
    for (from, len, want) in [
        (60, 4, (1, 3)),
        (60, 5, (1, 5)),
        (64, 1, (3, 5)),
        (64, 0, (3, 3)),
    ] {
        let found = (from, len, objects_of(from, len));
        compare(&rt, &found, &(from, len, Some(want)), "objects");
    }
}
