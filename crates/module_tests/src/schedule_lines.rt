//! Why lines of schedules are refused.

use commands::schedule_quote;
use explanations::schedule_words;
use pick_schedule::{ScheduleFault, schedule};
use std::alloc::Global;
use std::test::Fail;

// Why a text is refused, or that it is a schedule.
fn told(alloc: Global, text: &[u8]) -> Result<String, Fail> {
    match schedule(alloc, text) {
        Ok(_) => Ok(format!(in alloc; "a schedule")?),
        Err(fault) => {
            let words = schedule_words(alloc, &fault, schedule_quote(text, &fault).as_str())?;
            Ok(format!(in alloc; "{fault}: {words}")?)
        }
    }
}

// Texts, their faulty lines, and the words.
static REFUSED: &[(&[u8], u64, &str)] = &[
    (b"\n", 1, "the line is empty"),
    (b"go 0 1\n\ngo 0 1\n", 2, "the line is empty"),
    (
        b"go 0 1\r\ngo 0 1\r\n",
        1,
        "the line ends in a carriage return",
    ),
    (b" go 0 1\n", 1, "the line begins with a space"),
    (b"go 0 1 \n", 1, "the line ends in a space"),
    (b"go 0  1\n", 1, "two spaces stand side by side"),
    (
        b"out 0\ngoto 0 1\n",
        2,
        "the first word is `goto`, and not `go` or `out`",
    ),
    (
        b"go 0\n",
        1,
        "behind `go` a thread and a number of times stand, and nothing else",
    ),
    (
        b"go 0 1 2\n",
        1,
        "behind `go` a thread and a number of times stand, and nothing else",
    ),
    (
        b"out\n",
        1,
        "behind `out` a thread stands, and nothing else",
    ),
    (
        b"out 0 1\n",
        1,
        "behind `out` a thread stands, and nothing else",
    ),
    (
        b"go 16 1",
        1,
        "the thread `16` is no number from 0 to 15 in decimal",
    ),
    (
        b"out -1",
        1,
        "the thread `-1` is no number from 0 to 15 in decimal",
    ),
    (
        b"out 00",
        1,
        "the thread `00` is no number from 0 to 15 in decimal",
    ),
    (
        b"go 0 0",
        1,
        "the times `0` are no number from 1 to 1000000 in decimal",
    ),
    (
        b"go 0 1000001",
        1,
        "the times `1000001` are no number from 1 to 1000000 in decimal",
    ),
    (
        b"go 0 -4294967295",
        1,
        "the times `-4294967295` are no number from 1 to 1000000 in decimal",
    ),
    (
        b"go 0 one",
        1,
        "the times `one` are no number from 1 to 1000000 in decimal",
    ),
    (
        b"go 0 999999\ngo 1 2\n",
        2,
        "the picks up to here are more than 1000000",
    ),
    (
        b"go 0 1000000\nout 1\n",
        2,
        "the picks up to here are more than 1000000",
    ),
];

#[test]
fn lines_that_are_none_of_a_schedule_are_told(rt: HostRuntime) -> Result<(), Fail> {
    for (text, line, words) in REFUSED {
        let found = told(rt.alloc(), text)?;
        let want = format!(in rt.alloc(); "line {line} is no line of a schedule: {words}")?;
        assert_eq!(rt; found.as_str(), want.as_str());
    }
    Ok(())
}

#[test]
fn a_fault_of_no_line_keeps_its_words(rt: HostRuntime) -> Result<(), Fail> {
    let text = schedule_words(rt.alloc(), &ScheduleFault::NoMemory, "")?;
    assert_eq!(rt; text.as_str(), "out of memory");
    Ok(())
}
