//! Pieces, their bytes and their lines.

ghost use Rattle.std.specs.Prelude.{◌<◌, length};

use crate::checks::{check, compare, compare_texts};
use log_pieces::{DecodeFault, End, LineFault, Piece, PieceFault, decode, encode, line, read_line};
use rw_objects::{Entry, Few, Found, Kind};
use std::alloc::Global;
use std::test::Fail;
use wasm_types::{Block, Outcome, Profile, RunKey, Same, Trap, Value};

// Thread 0 with two writes and its end: 111 bytes.
const WHOLE: &str = "\
    49525001aaaaaaaaaaaaaaaaaaaaaaaaaaaaaaaaaaaaaaaaaaaaaaaaaaaaaaaaaaaaaaaa010000000000000000000000\
    000200010001010000000100000000000000000000000000000000000101000000010100000000000000000000000000\
    000008000000020000000301000000";

// Its first entry: 75 bytes.
const FIRST: &str = "\
    49525001aaaaaaaaaaaaaaaaaaaaaaaaaaaaaaaaaaaaaaaaaaaaaaaaaaaaaaaaaaaaaaaa010000000000000000000000\
    000100000001010000000100000000000000000000000000000000";

// Its second entry and its end: 88 bytes.
const SECOND: &str = "\
    49525001aaaaaaaaaaaaaaaaaaaaaaaaaaaaaaaaaaaaaaaaaaaaaaaaaaaaaaaaaaaaaaaa010000000000000000010000\
    00010001000101000000010100000000000000000000000000000008000000020000000301000000";

// Thread 3 with no entry and an end: 61 bytes.
const ONLY_END: &str = "\
    49525001aaaaaaaaaaaaaaaaaaaaaaaaaaaaaaaaaaaaaaaaaaaaaaaaaaaaaaaaaaaaaaaa010000000000000003000000\
    00000001030000000000000002";

// The first piece in profile 2 with blocks of 64 bytes: 112 bytes.
const BLOCK_64: &str = "\
    49525002aaaaaaaaaaaaaaaaaaaaaaaaaaaaaaaaaaaaaaaaaaaaaaaaaaaaaaaaaaaaaaaa010000000000000006000000\
    000002000100010100000001000000000000000000000000000000000001010000000101000000000000000000000000\
    00000008000000020000000301000000";

fn bytes_of(alloc: Global, text: &str) -> Result<Vec<u8>, Fail> {
    Ok(hex::decode(alloc, text)?)
}

fn piece_of(alloc: Global, text: &str) -> Result<Piece, Fail> {
    let bytes = bytes_of(alloc, text)?;
    Ok(decode(alloc, &bytes)?)
}

// The digits of a piece's bytes.
fn digits_of(alloc: Global, piece: &Piece) -> Result<String, Fail> {
    let bytes = encode(alloc, piece)?;
    Ok(hex::encode(alloc, &bytes)?)
}

// The line of a piece.
fn line_of(alloc: Global, piece: &Piece) -> Result<String, Fail> {
    let line = line(alloc, piece)?;
    Ok(String::from_utf8(line)?)
}

// The piece that stands in this line.
fn read_again(alloc: Global, line: &str) -> Result<String, Fail> {
    let piece = read_line(alloc, line.as_bytes())?;
    digits_of(alloc, &piece)
}

// The digits of a piece, its line, and the digits of what is read of the line.
fn told(alloc: Global, piece: &Piece) -> Result<String, Fail> {
    let digits = digits_of(alloc, piece)?;
    let line = line_of(alloc, piece)?;
    let again = read_again(alloc, line.as_str())?;
    Ok(format!(in alloc; "{digits} {line}{again}")?)
}

// The same of the piece of these digits.
fn told_of(alloc: Global, text: &str) -> Result<String, Fail> {
    let piece = piece_of(alloc, text)?;
    told(alloc, &piece)
}

// Pieces, and how many bytes they have.
static PIECES: &[(&str, usize)] = &[
    (WHOLE, 111),
    (FIRST, 75),
    (SECOND, 88),
    (ONLY_END, 61),
    (BLOCK_64, 112),
];

#[test]
fn pieces_are_read_and_written(rt: HostRuntime) -> Result<(), Fail> {
    for (text, len) in PIECES {
        compare(&rt, &(text.len() / 2), len, text);
        let found = told_of(rt.alloc(), text)?;
        let want = format!(in rt.alloc(); "{text} {text}\n{text}")?;
        compare_texts(&rt, found.as_str(), want.as_str(), "told");
    }
    Ok(())
}

// Digits of outcomes, and the outcomes.
static OUTCOMES: &[(&str, Outcome)] = &[
    ("00", Outcome::Running),
    ("01", Outcome::Waiting),
    ("02", Outcome::Done(None)),
    ("03feffffff", Outcome::Done(Some(Value::I32(0xffff_fffe)))),
    (
        "040100000000000080",
        Outcome::Done(Some(Value::I64(0x8000_0000_0000_0001))),
    ),
    ("050a", Outcome::Trapped(Trap::MemoryNotShared)),
];

// The run of a piece, its thread, its first place, how many entries it has, and its end.
type Parts = (u64, u32, u32, usize, Option<End>);

fn parts(piece: &Piece) -> Parts {
    (
        piece.key().run,
        piece.thread(),
        piece.first(),
        piece.entries().len(),
        piece.end(),
    )
}

// The parts of the piece of these digits, and its digits.
fn parts_of(alloc: Global, text: &str) -> Result<(Parts, String), Fail> {
    let piece = piece_of(alloc, text)?;
    Ok((parts(&piece), digits_of(alloc, &piece)?))
}

#[test]
fn outcomes_are_read_and_written(rt: HostRuntime) -> Result<(), Fail> {
    for (digits, outcome) in OUTCOMES {
        let text = format!(in rt.alloc(); "{}{digits}", &ONLY_END[..120])?;
        let end = Some(End {
            steps: 3,
            places: 0,
            outcome: *outcome,
        });
        let (parts, found) = parts_of(rt.alloc(), text.as_str())?;
        compare(&rt, &parts, &(1, 3, 0, 0, end), digits);
        compare_texts(&rt, found.as_str(), text.as_str(), digits);
    }
    Ok(())
}

// The beginning of a text, other characters, and the rest from there on.
pub(crate) fn edited(
    alloc: Global,
    text: &str,
    until: usize,
    other: &str,
    from: usize,
) -> Result<String, Fail> {
    let (Some(front), Some(rest)) = (text.get(..until), text.get(from..)) else {
        return Err("the text has no such place".into());
    };
    Ok(format!(in alloc; "{front}{other}{rest}")?)
}

fn is_no_piece(alloc: Global, bytes: &[u8]) -> bool {
    matches!(decode(alloc, bytes), Err(DecodeFault::NotAPiece(_)))
}

fn is_no_piece_in(alloc: Global, text: &str) -> Result<bool, Fail> {
    let bytes = bytes_of(alloc, text)?;
    Ok(is_no_piece(alloc, &bytes))
}

// Pieces of which these digits stand in place of those from the first place until the second.
static NO_PIECES: &[(&str, usize, &str, usize)] = &[
    (WHOLE, 222, "00", 222),
    (ONLY_END, 120, "06", 122),
    (ONLY_END, 120, "0500", 122),
    (ONLY_END, 120, "050b", 122),
    (BLOCK_64, 88, "05", 90),
    (BLOCK_64, 88, "0d", 90),
];

#[test]
fn other_bytes_are_no_piece(rt: HostRuntime) -> Result<(), Fail> {
    for (piece, until, digits, from) in NO_PIECES {
        let text = edited(rt.alloc(), piece, *until, digits, *from)?;
        let is_refused = is_no_piece_in(rt.alloc(), text.as_str())?;
        check(&rt, is_refused, text.as_str());
    }
    Ok(())
}

#[test]
fn beginnings_are_no_piece(rt: HostRuntime) -> Result<(), Fail> {
    let bytes = bytes_of(rt.alloc(), WHOLE)?;
    for len in 0..bytes.len() {
        let is_refused = is_no_piece(rt.alloc(), &bytes[..len]);
        compare(&rt, &(len, is_refused), &(len, true), "a beginning");
    }
    Ok(())
}

// The bytes are no piece, or another piece than these with these very bytes.
fn is_another(alloc: Global, whole: &[u8], bytes: &[u8]) -> Result<bool, Fail> {
    match decode(alloc, bytes) {
        Ok(piece) => {
            let again = encode(alloc, &piece)?;
            Ok(again.as_slice() == bytes && bytes != whole)
        }
        Err(fault) => Ok(fault != DecodeFault::NoMemory),
    }
}

// The same of the bytes of which this bit is turned.
fn is_another_with(alloc: Global, whole: &[u8], at: usize, bit: u8) -> Result<bool, Fail>
    requires within { at < length whole.now }
    requires of_byte { bit < 8 }
{
    let mut changed = whole.to_vec(alloc)?;
    changed[at] ^= 1 << bit;
    is_another(alloc, whole, &changed)
}

#[test]
fn one_bit_makes_another_piece_or_none(rt: HostRuntime) -> Result<(), Fail> {
    let bytes = bytes_of(rt.alloc(), WHOLE)?;
    for i in 0..bytes.len() {
        for bit in 0..8u8 {
            let is_other = is_another_with(rt.alloc(), &bytes, i, bit)?;
            compare(&rt, &(i, bit, is_other), &(i, bit, true), "byte and bit");
        }
    }
    Ok(())
}

fn is_no_line(alloc: Global, text: &str) -> bool {
    matches!(
        read_line(alloc, text.as_bytes()),
        Err(DecodeFault::NotAPiece(_))
    )
}

// What stands in place of the digits of `WHOLE` from the first place until the second, and what stands behind them.
static NO_LINES: &[(usize, &str, usize, &str)] = &[
    (0, "", 222, ""),
    (0, "", 222, "\n"),
    (222, "", 222, ""),
    (222, "", 222, "\r\n"),
    (222, "", 222, "\n\n"),
    (0, " ", 0, "\n"),
    (222, "0", 222, "\n"),
    (220, "", 222, "\n"),
    (8, "AA", 10, "\n"),
];

#[test]
fn other_lines_are_no_piece(rt: HostRuntime) -> Result<(), Fail> {
    for (until, other, from, end) in NO_LINES {
        let mut text = edited(rt.alloc(), WHOLE, *until, other, *from)?;
        text.push_str(end)?;
        check(&rt, is_no_line(rt.alloc(), text.as_str()), text.as_str());
    }
    Ok(())
}

fn entry(alloc: Global, objects: &[u32]) -> Entry {
    let mut found = Few::new(alloc);
    for object in objects {
        if found.len() < 3 {
            found.push(Found::Read {
                object: *object,
                version: 0,
            });
        }
    }
    Entry {
        kind: Kind::Access,
        found,
    }
}

// The fault of so many entries that touch these objects, with an end behind so many steps and places, if there is one.
fn fault(
    alloc: Global,
    profile: Profile,
    thread: u32,
    first: u32,
    count: usize,
    objects: &[u32],
    end: Option<(u32, u32)>,
) -> Result<Option<PieceFault>, Fail> {
    let key = RunKey {
        digest: [0; 32],
        run: 0,
        profile,
    };
    let mut entries = Vec::new(alloc);
    for _ in 0..count {
        entries.push(entry(alloc, objects))?;
    }
    Ok(Piece::new(key, thread, first, entries, end_of(end)).err())
}

fn end_of(end: Option<(u32, u32)>) -> Option<End> {
    let (steps, places) = end?;
    Some(End {
        steps,
        places,
        outcome: Outcome::Running,
    })
}

// The thread, the first place, how many entries there are, the objects of each, the end, and the fault.
type Rule = (
    u32,
    u32,
    usize,
    &'static [u32],
    Option<(u32, u32)>,
    Option<PieceFault>,
);

static RULES: &[Rule] = &[
    (16, 1_000_000_001, 0, &[], None, Some(PieceFault::Empty)),
    (
        16,
        1_000_000_000,
        4097,
        &[],
        None,
        Some(PieceFault::TooMany),
    ),
    (0, 0, 4096, &[1], None, None),
    (16, 1_000_000_000, 1, &[], None, Some(PieceFault::PastEnd)),
    (0, 999_999_999, 1, &[1], None, None),
    (0, 3, 2, &[1], Some((9, 4)), Some(PieceFault::PastEnd)),
    (0, 3, 2, &[1], Some((9, 5)), None),
    (0, 0, 1, &[1], Some((2, 3)), Some(PieceFault::PastEnd)),
    (
        0,
        0,
        1,
        &[1],
        Some((1_000_000_001, 1)),
        Some(PieceFault::PastEnd),
    ),
    (0, 0, 0, &[], Some((0, 0)), None),
    (16, 0, 1, &[], None, Some(PieceFault::BadThread)),
    (15, 0, 1, &[1], None, None),
    (0, 0, 1, &[], None, Some(PieceFault::BadEntry)),
];

#[test]
fn rules_are_tested_in_their_order(rt: HostRuntime) -> Result<(), Fail> {
    for (thread, first, count, objects, end, want) in RULES {
        let found = fault(
            rt.alloc(),
            Profile::One,
            *thread,
            *first,
            *count,
            objects,
            *end,
        )?;
        let row = (*thread, *first, *count);
        compare(&rt, &(row, found), &(row, *want), "a rule");
    }
    Ok(())
}

// The size of a block in profile 2, the objects of an entry, and the fault.
static OBJECTS: &[(Option<u32>, &[u32], Option<PieceFault>)] = &[
    (None, &[0, 1, 32_768], None),
    (None, &[32_769], Some(PieceFault::BadEntry)),
    (None, &[1, 1], Some(PieceFault::BadEntry)),
    (None, &[1, 3, 2], Some(PieceFault::BadEntry)),
    (None, &[], Some(PieceFault::BadEntry)),
    (Some(64), &[524_288], None),
    (Some(64), &[524_289], Some(PieceFault::BadEntry)),
    (Some(4096), &[8_192], None),
    (Some(4096), &[8_193], Some(PieceFault::BadEntry)),
    (Some(4096), &[2, 1], Some(PieceFault::BadEntry)),
];

fn profile_of(block: Option<u32>) -> Result<Profile, Fail> {
    match block {
        None => Ok(Profile::One),
        Some(size) => Ok(Profile::Two(Block::new(size)?)),
    }
}

#[test]
fn entries_touch_rising_objects(rt: HostRuntime) -> Result<(), Fail> {
    for (block, objects, want) in OBJECTS {
        let profile = profile_of(*block)?;
        let found = fault(rt.alloc(), profile, 0, 0, 1, objects, None)?;
        let row = (*block, *objects, *want);
        compare(&rt, &(*block, *objects, found), &row, "objects");
    }
    Ok(())
}

// The end of `WHOLE`.
fn end_of_whole(alloc: Global) -> Result<End, Fail> {
    let piece = piece_of(alloc, WHOLE)?;
    Ok(piece.end().ok_or("the piece has an end")?)
}

// The end and two faults.
fn told_end(alloc: Global, end: &End) -> Result<String, Fail> {
    let fault = DecodeFault::NotAPiece(LineFault::TooShort);
    Ok(format!(in alloc; "{end}; {fault}; {}", PieceFault::BadThread)?)
}

#[test]
fn ends_have_a_text(rt: HostRuntime) -> Result<(), Fail> {
    let end = end_of_whole(rt.alloc())?;
    compare(&rt, &end.copy(rt.alloc())?, &end, "copied");
    let found = told_end(rt.alloc(), &end)?;
    let want = "steps=8 places=2 i32 1; not a piece; a thread above 15";
    compare_texts(&rt, found.as_str(), want, "told");
    Ok(())
}
