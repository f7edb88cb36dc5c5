//! Why lines are no piece lines.

use crate::checks::{check, compare};
use crate::pieces::edited;
use crate::replicas::{BLOCK_64, FIRST, WHOLE};
use log_pieces::{DecodeFault, EntryFault, LineFault, PieceFault, read_line};
use std::alloc::Global;
use std::test::Fail;
use wasm_types::NoMemory;

/// Why a line of these parts is no piece line; None where it is one.
fn refused(alloc: Global, parts: &[&str]) -> Result<Option<LineFault>, NoMemory> {
    let mut line = String::new(alloc);
    for part in parts {
        line.push_str(part)?;
    }
    match read_line(alloc, line.as_bytes()) {
        Ok(_) => Ok(None),
        Err(DecodeFault::NotAPiece(fault)) => Ok(Some(fault)),
        Err(DecodeFault::NoMemory) => Err(NoMemory),
    }
}

/// Digits that stand in `WHOLE` in place of those of that byte, and why it is then no piece line.
static EDITED: &[(usize, &str, LineFault)] = &[
    (0, "48", LineFault::NoMark),
    (3, "03", LineFault::BadFormat { format: 3 }),
    (44, "10", LineFault::Rule(PieceFault::BadThread)),
    (48, "ff", LineFault::Rule(PieceFault::PastEnd)),
    (50, "10", LineFault::TooMany { entries: 4098 }),
    (51, "00", LineFault::LeftOver { bytes: 13 }),
    (51, "02", LineFault::BadFlag { flag: 2 }),
    (
        52,
        "03",
        LineFault::Entry {
            entry: 1,
            fault: EntryFault::BadKind { kind: 3 },
        },
    ),
    (
        53,
        "00",
        LineFault::Entry {
            entry: 1,
            fault: EntryFault::BadCount { touches: 0 },
        },
    ),
    (
        53,
        "04",
        LineFault::Entry {
            entry: 1,
            fault: EntryFault::BadCount { touches: 4 },
        },
    ),
    (
        56,
        "01",
        LineFault::Entry {
            entry: 1,
            fault: EntryFault::BadObject {
                object: 65_537,
                greatest: 32_768,
            },
        },
    ),
    (
        81,
        "02",
        LineFault::Entry {
            entry: 2,
            fault: EntryFault::BadMode { mode: 2 },
        },
    ),
    (98, "01", LineFault::Rule(PieceFault::PastEnd)),
    (106, "06", LineFault::BadOutcome { outcome: 6 }),
    (106, "05", LineFault::LeftOver { bytes: 3 }),
    (106, "05ff", LineFault::BadTrap { trap: 255 }),
    (106, "", LineFault::LeftOver { bytes: 3 }),
];

/// Why a line with these digits in place of those of that byte is no piece line.
fn refused_with(alloc: Global, at: usize, digits: &str) -> Result<Option<LineFault>, Fail> {
    let until = at.saturating_mul(2);
    let line = edited(alloc, WHOLE, until, digits, until.saturating_add(2))?;
    Ok(refused(alloc, &[line.as_str(), "\n"])?)
}

#[test]
fn edited_bytes_are_told(rt: HostRuntime) -> Result<(), Fail> {
    for (at, digits, fault) in EDITED {
        let found = refused_with(rt.alloc(), *at, digits)?;
        compare(&rt, &(*at, found), &(*at, Some(*fault)), digits);
    }
    Ok(())
}

/// A touch of object 5 that reads.
const READ_5: &str = "05000000000000000000000000";

/// The parts of a line, and why it is no piece line.
static LINES: &[(&[&str], LineFault)] = &[
    (&["\n"], LineFault::Empty),
    (&[WHOLE], LineFault::NoEnd),
    (&["\r\n"], LineFault::CarriageReturn),
    (&[WHOLE, "\r\n"], LineFault::CarriageReturn),
    (
        &["4g\n"],
        LineFault::NotADigit {
            column: 2,
            bytes: *b"g\0\0\0\0\0",
        },
    ),
    (
        &["49\n\n"],
        LineFault::NotADigit {
            column: 3,
            bytes: *b"\n\0\0\0\0\0",
        },
    ),
    (
        &["495\r0\n"],
        LineFault::NotADigit {
            column: 4,
            bytes: *b"\r0\0\0\0\0",
        },
    ),
    (&["495F\n"], LineFault::UpperCase { column: 4 }),
    (&["495\n"], LineFault::OddDigits { digits: 3 }),
    (&["00\n"], LineFault::NoMark),
    (&["495250\n"], LineFault::TooShort),
];

#[test]
fn lines_are_told(rt: HostRuntime) -> Result<(), Fail> {
    for (parts, fault) in LINES {
        let found = refused(rt.alloc(), parts)?;
        compare(&rt, &found, &Some(*fault), "a line");
    }
    let found = refused(rt.alloc(), &[WHOLE, "\n"])?;
    compare(&rt, &found, &None, "a piece line");
    Ok(())
}

/// Whether a line of these parts is no piece line for that reason.
fn tells(alloc: Global, parts: &[&str], fault: LineFault) -> Result<bool, NoMemory> {
    Ok(refused(alloc, parts)? == Some(fault))
}

#[test]
fn cut_lines_are_told(rt: HostRuntime) -> Result<(), Fail> {
    let empty = LineFault::Rule(PieceFault::Empty);
    let is_told = tells(rt.alloc(), &[&WHOLE[..98], "000000\n"], empty)?;
    check(&rt, is_told, "no entry and no end");
    let cut = LineFault::Entry {
        entry: 1,
        fault: EntryFault::EndsEarly,
    };
    let is_told = tells(rt.alloc(), &[&WHOLE[..120], "\n"], cut)?;
    check(&rt, is_told, "a cut entry");
    Ok(())
}

#[test]
fn bad_blocks_and_objects_are_told(rt: HostRuntime) -> Result<(), Fail> {
    let power = LineFault::BadBlock { power: 5 };
    let parts = [&BLOCK_64[..88], "05", &BLOCK_64[90..], "\n"];
    check(&rt, tells(rt.alloc(), &parts, power)?, "a block");
    let falls = LineFault::Entry {
        entry: 1,
        fault: EntryFault::NotRising { object: 5 },
    };
    let parts = [&FIRST[..104], "0002", READ_5, READ_5, "\n"];
    check(&rt, tells(rt.alloc(), &parts, falls)?, "objects");
    Ok(())
}
