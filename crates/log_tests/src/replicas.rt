//! Pieces that are gathered, delivered and merged.

ghost use Rattle.std.specs.Prelude.{◌<◌};

use crate::checks::{check, compare, compare_texts};
use byte_streams::{MemorySink, MemorySource, Sink, Source};
use log_pieces::{Flat, LineFault, Piece, read_line};
use replica::{GatherFault, ListingForm, Log, Replica, ReplicaFault, collect, gather, listing};
use std::alloc::Global;
use std::process::Abort;
use std::test::Fail;
use wasm_types::{Block, NoMemory, Profile, RunKey, Same};

// Thread 0 with two writes and its end.
pub(crate) const WHOLE: &str = "\
    49525001aaaaaaaaaaaaaaaaaaaaaaaaaaaaaaaaaaaaaaaaaaaaaaaaaaaaaaaaaaaaaaaa0100000000000000000000\
    0000020001000101000000010000000000000000000000000000000000010100000001010000000000000000000000\
    0000000008000000020000000301000000";

// Its first entry.
pub(crate) const FIRST: &str = "\
    49525001aaaaaaaaaaaaaaaaaaaaaaaaaaaaaaaaaaaaaaaaaaaaaaaaaaaaaaaaaaaaaaaa0100000000000000000000\
    00000100000001010000000100000000000000000000000000000000";

// Its second entry and its end.
pub(crate) const SECOND: &str = "\
    49525001aaaaaaaaaaaaaaaaaaaaaaaaaaaaaaaaaaaaaaaaaaaaaaaaaaaaaaaaaaaaaaaa0100000000000000000100\
    0000010001000101000000010100000000000000000000000000000008000000020000000301000000";

// The first entry of thread 1.
const THIRD: &str = "\
    49525001aaaaaaaaaaaaaaaaaaaaaaaaaaaaaaaaaaaaaaaaaaaaaaaaaaaaaaaaaaaaaaaa0100000000000000010000\
    00000100000001010000000102000000000000000000000000000000";

// Its second entry and its end.
const FOURTH: &str = "\
    49525001aaaaaaaaaaaaaaaaaaaaaaaaaaaaaaaaaaaaaaaaaaaaaaaaaaaaaaaaaaaaaaaa0100000000000000010100\
    0000010001000101000000010300000000000000000000000000000008000000020000000303000000";

// Thread 3 with no entry and an end.
const ONLY_END: &str = "\
    49525001aaaaaaaaaaaaaaaaaaaaaaaaaaaaaaaaaaaaaaaaaaaaaaaaaaaaaaaaaaaaaaaa0100000000000000030000\
    0000000001030000000000000002";

// Another first entry of thread 0: version 5 was written.
const OTHER_FIRST: &str = "\
    49525001aaaaaaaaaaaaaaaaaaaaaaaaaaaaaaaaaaaaaaaaaaaaaaaaaaaaaaaaaaaaaaaa0100000000000000000000\
    00000100000001010000000105000000000000000000000000000000";

// An entry of thread 0 at place 2, which is past its end.
const STRAY: &str = "\
    49525001aaaaaaaaaaaaaaaaaaaaaaaaaaaaaaaaaaaaaaaaaaaaaaaaaaaaaaaaaaaaaaaa0100000000000000000200\
    00000100000001010000000100000000000000000000000000000000";

// Another end of thread 0: after nine steps.
const OTHER_END: &str = "\
    49525001aaaaaaaaaaaaaaaaaaaaaaaaaaaaaaaaaaaaaaaaaaaaaaaaaaaaaaaaaaaaaaaa0100000000000000000000\
    000000000109000000020000000301000000";

// The first entry in run 2.
pub(crate) const OTHER_RUN: &str = "\
    49525001aaaaaaaaaaaaaaaaaaaaaaaaaaaaaaaaaaaaaaaaaaaaaaaaaaaaaaaaaaaaaaaa0200000000000000000000\
    00000100000001010000000100000000000000000000000000000000";

// Thread 0 whole, in profile 2 with blocks of 64 bytes.
pub(crate) const BLOCK_64: &str = "\
    49525002aaaaaaaaaaaaaaaaaaaaaaaaaaaaaaaaaaaaaaaaaaaaaaaaaaaaaaaaaaaaaaaa0100000000000000060000\
    0000000200010001010000000100000000000000000000000000000000000101000000010100000000000000000000\
    000000000008000000020000000301000000";

// The listing's line of the run, without its end.
pub(crate) const RUN: &str =
    "run aaaaaaaaaaaaaaaaaaaaaaaaaaaaaaaaaaaaaaaaaaaaaaaaaaaaaaaaaaaaaaaa:1";

// The rest of the listing of `WHOLE`.
pub(crate) const WHOLE_LISTED: &str = "\
0.0 access w1@0/0
0.1 access w1@1/0
0 end steps=8 places=2 i32 1
ends 1 missing 0 strays 0 clashes 0
";

// The listing of `WHOLE`.
pub(crate) const WHOLE_TEXT: &str = "\
run aaaaaaaaaaaaaaaaaaaaaaaaaaaaaaaaaaaaaaaaaaaaaaaaaaaaaaaaaaaaaaaa:1
0.0 access w1@0/0
0.1 access w1@1/0
0 end steps=8 places=2 i32 1
ends 1 missing 0 strays 0 clashes 0
";

// The rest of the listing of `FIRST`, `SECOND`, `THIRD` and `FOURTH`.
const FOUR_LISTED: &str = "\
0.0 access w1@0/0
0.1 access w1@1/0
0 end steps=8 places=2 i32 1
1.0 access w1@2/0
1.1 access w1@3/0
1 end steps=8 places=2 i32 3
ends 2 missing 0 strays 0 clashes 0
";

/// How bytes come and go: how many at a call, and which call of the source and of the sink fails.
#[derive(Clone, Copy)]
struct Devices {
    most: usize,
    source_fails_at: Option<u64>,
    sink_fails_at: Option<u64>,
    ghost some: { 0 < most },
}

const LARGE: Devices = Devices {
    most: 1_000_000,
    source_fails_at: None,
    sink_fails_at: None,
};

/// What `gather` answered, how many calls of the source and of the sink failed, and whether the sink took what was
/// wanted.
#[derive(Clone, Copy, Debug, PartialEq, Eq)]
struct Gathered {
    answer: Result<(), GatherFault>,
    source_failures: u64,
    sink_failures: u64,
    has_taken: bool,
}

const LISTED: Gathered = Gathered {
    answer: Ok(()),
    source_failures: 0,
    sink_failures: 0,
    has_taken: true,
};

const fn failed(fault: GatherFault, source_failures: u64, sink_failures: u64) -> Gathered {
    Gathered {
        answer: Err(fault),
        source_failures,
        sink_failures,
        has_taken: true,
    }
}

/// What is answered where there is no memory for a text to be gathered.
fn no_text() -> Gathered {
    failed(GatherFault::NoMemory, 0, 0)
}

/// What gathering the text comes to over these devices, of which the sink is wanted to take these bytes.
fn gather_over(alloc: Global, text: &str, devices: &Devices, wanted: &[u8]) -> Gathered {
    let mut source = MemorySource::new(text.as_bytes(), devices.most, devices.source_fails_at);
    let mut sink = MemorySink::new(alloc, devices.most, devices.sink_fails_at);
    let answer = gather(alloc, &mut source, &mut sink, ListingForm::default());
    Gathered {
        answer,
        source_failures: source.failures(),
        sink_failures: sink.failures(),
        has_taken: sink.taken() == wanted,
    }
}

/// The piece that these digits spell.
fn piece(alloc: Global, digits: &str) -> Result<Piece, Fail> {
    let text = format!(in alloc; "{digits}\n")?;
    Ok(read_line(alloc, text.as_bytes())?)
}

/// Delivers a piece.
fn deliver(alloc: Global, replica: &mut Replica, digits: &str) -> Result<(), Fail> {
    replica.deliver(alloc, &piece(alloc, digits)?)?;
    Ok(())
}

/// These pieces delivered to a replica of the run of `WHOLE`.
pub(crate) fn delivered(alloc: Global, pieces: &[&str]) -> Result<Replica, Fail> {
    let mut replica = Replica::new(alloc, key(1, Profile::One));
    for digits in pieces {
        deliver(alloc, &mut replica, digits)?;
    }
    Ok(replica)
}

/// Lines of these pieces, each with its end.
fn lines(alloc: Global, pieces: &[&str]) -> Result<String, NoMemory> {
    let mut text = String::new(alloc);
    for digits in pieces {
        text.push_str(digits)?;
        text.push('\n')?;
    }
    Ok(text)
}

/// A listing of the run of `WHOLE`, of which these are the lines behind the first.
fn listing_of(alloc: Global, listed: &str) -> Result<String, NoMemory> {
    Ok(format!(in alloc; "{RUN}\n{listed}")?)
}

/// What gathering these pieces comes to, whose listing is wanted to be this one.
fn gathered_from(alloc: Global, pieces: &[&str], devices: &Devices, listed: &str) -> Gathered {
    let Ok(text) = lines(alloc, pieces) else {
        return no_text();
    };
    let Ok(wanted) = listing_of(alloc, listed) else {
        return no_text();
    };
    gather_over(alloc, &text, devices, wanted.as_bytes())
}

/// The same where the last line lacks its end.
fn gathered_from_open(alloc: Global, pieces: &[&str], listed: &str) -> Gathered {
    let Ok(text) = lines(alloc, pieces) else {
        return no_text();
    };
    let Ok(wanted) = listing_of(alloc, listed) else {
        return no_text();
    };
    gather_over(alloc, text.trim_end(), &LARGE, wanted.as_bytes())
}

static EXAMPLES: &[(&[&str], &str)] = &[
    (&[SECOND, FIRST, WHOLE, WHOLE], WHOLE_LISTED),
    (&[WHOLE], WHOLE_LISTED),
    (
        &[ONLY_END],
        "3 end steps=3 places=0 none\nends 1 missing 0 strays 0 clashes 0\n",
    ),
    (
        &[SECOND],
        "0.1 access w1@1/0\n0 end steps=8 places=2 i32 1\nends 1 missing 1 strays 0 clashes 0\n",
    ),
    (
        &[WHOLE, OTHER_FIRST],
        "0.0 clash\n0.1 access w1@1/0\n0 end steps=8 places=2 i32 1\nends 1 missing 0 strays 0 clashes 1\n",
    ),
    (
        &[OTHER_FIRST, WHOLE],
        "0.0 clash\n0.1 access w1@1/0\n0 end steps=8 places=2 i32 1\nends 1 missing 0 strays 0 clashes 1\n",
    ),
];

#[test]
fn listings_are_as_in_worked_examples(rt: HostRuntime) {
    for (pieces, listed) in EXAMPLES {
        let found = gathered_from(rt.alloc(), pieces, &LARGE, listed);
        compare(&rt, &found, &LISTED, listed);
        let open = gathered_from_open(rt.alloc(), pieces, listed);
        compare(&rt, &open, &LISTED, listed);
    }
}

pub(crate) const NO_PIECES: &[u8] = b"run none\nends 0 missing 0 strays 0 clashes 0\n";

/// What gathering `BLOCK_64` comes to.
fn gathered_blocks(alloc: Global) -> Gathered {
    let Ok(wanted) = format!(in alloc; "{RUN}:64\n{WHOLE_LISTED}") else {
        return no_text();
    };
    gather_over(alloc, BLOCK_64, &LARGE, wanted.as_bytes())
}

/// Whether no pieces make no log.
fn makes_no_log(alloc: Global) -> bool {
    match collect(alloc, &mut MemorySource::new(b"", 1, None)) {
        Ok(replica) => replica.is_none(),
        Err(_) => false,
    }
}

#[test]
fn no_line_and_profile_2_have_listings(rt: HostRuntime) {
    let none = gather_over(rt.alloc(), "", &LARGE, NO_PIECES);
    compare(&rt, &none, &LISTED, "no line");
    check(&rt, makes_no_log(rt.alloc()), "no log");
    compare(&rt, &gathered_blocks(rt.alloc()), &LISTED, "profile 2");
}

static FOUR: [&str; 4] = [SECOND, FIRST, FOURTH, THIRD];

/// In this order.
fn gathered_four(
    alloc: Global,
    first: usize,
    second: usize,
    third: usize,
    fourth: usize,
) -> Gathered {
    let pieces = [
        FOUR[first % 4],
        FOUR[second % 4],
        FOUR[third % 4],
        FOUR[fourth % 4],
    ];
    gathered_from(alloc, &pieces, &LARGE, FOUR_LISTED)
}

#[test]
fn every_order_gives_the_same_listing(rt: HostRuntime) {
    for first in 0..4usize {
        for step in 1..4usize {
            // The first, another one, and then the two that are left, in both orders.
            let second = (first + step) % 4;
            let third = (first + step % 3 + 1) % 4;
            let fourth = (first + (step + 1) % 3 + 1) % 4;
            let found = gathered_four(rt.alloc(), first, second, third, fourth);
            compare(&rt, &found, &LISTED, FOUR[first]);
            let found = gathered_four(rt.alloc(), first, second, fourth, third);
            compare(&rt, &found, &LISTED, FOUR[first]);
        }
    }
}

/// A text of these parts.
fn text_of(alloc: Global, parts: &[&str]) -> Result<String, NoMemory> {
    let mut text = String::new(alloc);
    for part in parts {
        text.push_str(part)?;
    }
    Ok(text)
}

/// What gathering a text of these parts comes to, of which nothing is wanted to be written.
fn gathered_parts(alloc: Global, parts: &[&str]) -> Gathered {
    match text_of(alloc, parts) {
        Ok(text) => gather_over(alloc, &text, &LARGE, b""),
        Err(NoMemory) => no_text(),
    }
}

/// The parts of a text, the number of its first faulty line, and what is wrong with that.
static REFUSED: &[(&[&str], u64, LineFault)] = &[
    (
        &["no piece\n"],
        1,
        LineFault::NotADigit {
            column: 1,
            bytes: *b"no pie",
        },
    ),
    (
        &[WHOLE, "\n", FIRST, "\nno piece\n", WHOLE, "\n"],
        3,
        LineFault::NotADigit {
            column: 1,
            bytes: *b"no pie",
        },
    ),
    (&[WHOLE, "00\n"], 1, LineFault::LeftOver { bytes: 1 }),
    (&["\n", WHOLE, "\n"], 1, LineFault::Empty),
    (&[WHOLE, "\n\n"], 2, LineFault::Empty),
    (&[WHOLE, "\r\n"], 1, LineFault::CarriageReturn),
    (&[WHOLE, "\r"], 1, LineFault::CarriageReturn),
    (
        &["\0\0", WHOLE, "\n"],
        1,
        LineFault::NotADigit {
            column: 1,
            bytes: *b"\0\x004952",
        },
    ),
    (
        &[WHOLE, "\n\0"],
        2,
        LineFault::NotADigit {
            column: 1,
            bytes: [0; 6],
        },
    ),
];

#[test]
fn refused_lines_have_their_numbers(rt: HostRuntime) {
    for (parts, line, reason) in REFUSED {
        let found = gathered_parts(rt.alloc(), parts);
        let fault = GatherFault::BadLine {
            line: *line,
            reason: *reason,
        };
        compare(&rt, &found, &failed(fault, 0, 0), "refused");
    }
}

/// The key of a run of the lines above.
const fn key(run: u64, profile: Profile) -> RunKey {
    RunKey {
        digest: [0xAA; 32],
        run,
        profile,
    }
}

/// Whether that line was refused, whose key and the first line's key are these.
fn is_of_other_run(found: &Gathered, at: u64, lines: &RunKey, logs: &RunKey) -> bool {
    match &found.answer {
        Err(GatherFault::OtherRun { line, own, first }) => {
            *line == at && own == lines && first == logs && found.has_taken
        }
        _ => false,
    }
}

#[test]
fn lines_of_other_runs_are_refused_with_both_keys(rt: HostRuntime) {
    let first = key(1, Profile::One);
    let second = key(2, Profile::One);
    let wide = key(1, Profile::Two(Block::least()));
    let found = gathered_parts(rt.alloc(), &[WHOLE, "\n", OTHER_RUN, "\nno piece\n"]);
    let is_so = is_of_other_run(&found, 2, &second, &first);
    check(&rt, is_so, "run 2 at line 2");
    let found = gathered_parts(rt.alloc(), &[WHOLE, "\n", FIRST, "\n", OTHER_RUN]);
    let is_so = is_of_other_run(&found, 3, &second, &first);
    check(&rt, is_so, "run 2 at line 3");
    let found = gathered_parts(rt.alloc(), &[WHOLE, "\n", BLOCK_64, "\n"]);
    let is_so = is_of_other_run(&found, 2, &wide, &first);
    check(&rt, is_so, "profile 2 at line 2");
    let found = gathered_parts(rt.alloc(), &[BLOCK_64, "\n", WHOLE, "\n"]);
    let is_so = is_of_other_run(&found, 2, &first, &wide);
    check(&rt, is_so, "profile 1 at line 2");
}

#[test]
fn lines_that_are_cut_or_in_upper_case_are_refused(rt: HostRuntime) {
    let upper_case = GatherFault::BadLine {
        line: 2,
        reason: LineFault::UpperCase { column: 9 },
    };
    let short = GatherFault::BadLine {
        line: 1,
        reason: LineFault::TooShort,
    };
    let odd = GatherFault::BadLine {
        line: 1,
        reason: LineFault::OddDigits { digits: 221 },
    };
    let upper = [WHOLE, "\n", &WHOLE[..8], "AA", &WHOLE[10..], "\n"];
    let found = gathered_parts(rt.alloc(), &upper);
    compare(&rt, &found, &failed(upper_case, 0, 0), "AA");
    let found = gathered_parts(rt.alloc(), &[&WHOLE[..220], "\n"]);
    compare(&rt, &found, &failed(short, 0, 0), "220");
    let found = gathered_parts(rt.alloc(), &[&WHOLE[..221]]);
    compare(&rt, &found, &failed(odd, 0, 0), "221");
}

/// Why collecting the bytes by 65,536 at a call fails, where this call of the source does, and how many of its calls
/// do.
fn collected(alloc: Global, bytes: &[u8], fails_at: u64) -> (Option<GatherFault>, u64) {
    let mut source = MemorySource::new(bytes, 65_536, Some(fails_at));
    let fault = collect(alloc, &mut source).err();
    (fault, source.failures())
}

#[test]
fn a_line_without_end_is_refused_before_the_source_ends(rt: HostRuntime) -> Result<(), Fail> {
    // Longer than any piece line after nine reads of 65,536 bytes; the tenth would fail.
    let bytes = vec![in rt.alloc(); b'0'; 700_000]?;
    let refused = Some(GatherFault::BadLine {
        line: 1,
        reason: LineFault::TooLong,
    });
    compare(&rt, &collected(rt.alloc(), &bytes, 10), &(refused, 0), "10");
    let fails = Some(GatherFault::SourceFailed);
    compare(&rt, &collected(rt.alloc(), &bytes, 9), &(fails, 1), "9");
    Ok(())
}

/// 774 bytes: 9 calls of the source at 100 bytes a call, the last of which brings nothing.
static FOUR_LINES: [&str; 4] = [SECOND, FIRST, WHOLE, WHOLE];

#[test]
fn single_bytes_are_gathered(rt: HostRuntime) {
    let single = Devices {
        most: 1,
        source_fails_at: None,
        sink_fails_at: None,
    };
    let found = gathered_from(rt.alloc(), &FOUR_LINES, &single, WHOLE_LISTED);
    compare(&rt, &found, &LISTED, "single bytes");
}

/// Where this call of the source fails, nothing is wanted to be written.
fn gathered_failing(alloc: Global, call: u64) -> Gathered {
    let devices = Devices {
        most: 100,
        source_fails_at: Some(call),
        sink_fails_at: None,
    };
    match lines(alloc, &FOUR_LINES) {
        Ok(text) => gather_over(alloc, &text, &devices, b""),
        Err(NoMemory) => no_text(),
    }
}

#[test]
fn a_failing_source_is_answered(rt: HostRuntime) {
    for call in 1..10u64 {
        let found = gathered_failing(rt.alloc(), call);
        compare(
            &rt,
            &found,
            &failed(GatherFault::SourceFailed, 1, 0),
            "source",
        );
    }
}

/// Where a sink that takes a byte a call fails behind so many, these are wanted to be written.
fn gathered_up_to(alloc: Global, text: &str, wanted: &[u8]) -> Gathered {
    let devices = Devices {
        most: 1,
        source_fails_at: None,
        sink_fails_at: Some((wanted.len() as u64).saturating_add(1)),
    };
    gather_over(alloc, text, &devices, wanted)
}

/// A sink that takes a byte a call fails at each of its calls in turn.
#[test]
fn a_failing_sink_is_answered(rt: HostRuntime) -> Result<(), Fail> {
    let text = lines(rt.alloc(), &FOUR_LINES)?;
    let wanted = WHOLE_TEXT.as_bytes();
    for call in 0..wanted.len() {
        let found = gathered_up_to(rt.alloc(), &text, &wanted[..call]);
        compare(&rt, &found, &failed(GatherFault::SinkFailed, 0, 1), "sink");
    }
    Ok(())
}

#[test]
fn devices_that_fail_behind_the_last_call_do_not_matter(rt: HostRuntime) {
    let last = Devices {
        most: 100,
        source_fails_at: Some(10),
        sink_fails_at: Some(WHOLE_TEXT.len() as u64 + 1),
    };
    let found = gathered_from(rt.alloc(), &FOUR_LINES, &last, WHOLE_LISTED);
    compare(&rt, &found, &LISTED, "last");
}

#[test]
fn a_bad_line_comes_before_a_later_failure(rt: HostRuntime) {
    let devices = Devices {
        most: 100,
        source_fails_at: Some(2),
        sink_fails_at: None,
    };
    let found = gather_over(rt.alloc(), "no piece\n", &devices, b"");
    let fault = GatherFault::BadLine {
        line: 1,
        reason: LineFault::NotADigit {
            column: 1,
            bytes: *b"no pie",
        },
    };
    let want = failed(fault, 0, 0);
    compare(&rt, &found, &want, "no piece");
}

/// How many known ends, missing places, strays and clashes, and whether the log is that of no, of one and of two
/// threads.
type Counts = ([u64; 4], [bool; 3]);

fn counts_of(log: &Log) -> Counts {
    (
        [log.ends(), log.missing(), log.strays(), log.clashes()],
        [log.complete(0), log.complete(1), log.complete(2)],
    )
}

fn delivered_counts(alloc: Global, pieces: &[&str]) -> Result<Counts, Fail> {
    let replica = delivered(alloc, pieces)?;
    Ok(counts_of(replica.log()))
}

static COUNTED: &[(&[&str], Counts)] = &[
    (&[], ([0, 0, 0, 0], [true, false, false])),
    (&[SECOND, FIRST], ([1, 0, 0, 0], [false, true, false])),
    (&[FIRST], ([0, 0, 0, 0], [false, false, false])),
    (&[SECOND], ([1, 1, 0, 0], [false, false, false])),
    (&[WHOLE, STRAY], ([1, 0, 1, 0], [false, false, false])),
    (&[WHOLE, OTHER_FIRST], ([1, 0, 0, 1], [false, false, false])),
    (&[WHOLE, OTHER_END], ([0, 0, 0, 1], [false, false, false])),
];

#[test]
fn counts_say_what_a_log_lacks(rt: HostRuntime) -> Result<(), Fail> {
    for (pieces, counts) in COUNTED {
        let found = delivered_counts(rt.alloc(), pieces)?;
        compare(&rt, &found, counts, "counts");
    }
    Ok(())
}

/// What is seen of an item that a log may have: whether it is the wanted one.
#[derive(Clone, Copy, Debug, PartialEq, Eq)]
enum Seen {
    Nothing,
    Clash,
    Wanted,
    Other,
}

fn item_seen<T: PartialEq>(item: &Option<Flat<T>>, wanted: &T) -> Seen {
    match item {
        None => Seen::Nothing,
        Some(Flat::Clash) => Seen::Clash,
        Some(Flat::Known(found)) => {
            if found == wanted {
                Seen::Wanted
            } else {
                Seen::Other
            }
        }
    }
}

/// The first two entries and the end of thread 0, where the second entry and the end of this piece are wanted.
fn items_seen(log: &Log, piece: &Piece) -> Option<[Seen; 3]> {
    let second = piece.entries().get(1)?;
    let end = piece.end()?;
    Some([
        item_seen(&log.entry(0, 0), second),
        item_seen(&log.entry(0, 1), second),
        item_seen(&log.end(0), &end),
    ])
}

/// Whether a log has no entry at a place of a thread, and no end of another thread than the first.
fn is_absent(log: &Log, thread: u32, place: u32) -> bool {
    log.entry(thread, place).is_none() && (thread == 0 || log.end(thread).is_none())
}

/// Checks a log whose first entry was claimed differently, and whose other items are those of this piece.
fn check_items(rt: &impl Abort, log: &Log, whole: &Piece) {
    let wanted = Some([Seen::Clash, Seen::Wanted, Seen::Wanted]);
    compare(rt, log.key(), whole.key(), "key");
    compare(rt, &items_seen(log, whole), &wanted, "items");
    for (thread, place) in [(0, 2), (1, 0), (15, 1), (16, 0), (u32::MAX, u32::MAX)] {
        let is_so = is_absent(log, thread, place);
        compare(
            rt,
            &(thread, place, is_so),
            &(thread, place, true),
            "absent",
        );
    }
}

#[test]
fn items_are_known_or_clash(rt: HostRuntime) -> Result<(), Fail> {
    let whole = piece(rt.alloc(), WHOLE)?;
    let replica = delivered(rt.alloc(), &[SECOND, OTHER_FIRST, FIRST])?;
    check_items(&rt, replica.log(), &whole);
    let other = delivered(rt.alloc(), &[WHOLE, OTHER_END])?;
    let is_clash = other.log().end(0) == Some(Flat::Clash);
    check(&rt, is_clash, "ends clash");
    Ok(())
}

/// Why a piece is not delivered.
fn delivery_fault(
    alloc: Global,
    replica: &mut Replica,
    digits: &str,
) -> Result<Option<ReplicaFault>, Fail> {
    Ok(replica.deliver(alloc, &piece(alloc, digits)?).err())
}

#[test]
fn a_piece_of_another_run_changes_nothing(rt: HostRuntime) -> Result<(), Fail> {
    let mut replica = delivered(rt.alloc(), &[WHOLE])?;
    for digits in [OTHER_RUN, BLOCK_64] {
        let fault = delivery_fault(rt.alloc(), &mut replica, digits)?;
        compare(&rt, &fault, &Some(ReplicaFault::OtherRun), digits);
    }
    let found = listing(rt.alloc(), replica.log())?;
    compare_texts(&rt, found.as_str(), WHOLE_TEXT, "listed");
    Ok(())
}

/// The four pieces, as two of them and the other two.
static HALVES: [([&str; 2], [&str; 2]); 6] = [
    ([FIRST, SECOND], [THIRD, FOURTH]),
    ([FIRST, THIRD], [SECOND, FOURTH]),
    ([FOURTH, FIRST], [THIRD, SECOND]),
    ([SECOND, THIRD], [FOURTH, FIRST]),
    ([SECOND, FOURTH], [FIRST, THIRD]),
    ([THIRD, FOURTH], [FIRST, SECOND]),
];

/// The listing of these pieces with which those are merged.
fn merged_listing(alloc: Global, mine: &[&str], theirs: &[&str]) -> Result<String, Fail> {
    let mut replica = delivered(alloc, mine)?;
    let other = delivered(alloc, theirs)?;
    replica.merge(alloc, other.log())?;
    Ok(listing(alloc, replica.log())?)
}

#[test]
fn halves_merge_into_the_whole(rt: HostRuntime) -> Result<(), Fail> {
    let wanted = listing_of(rt.alloc(), FOUR_LISTED)?;
    for (mine, theirs) in &HALVES {
        let found = merged_listing(rt.alloc(), mine, theirs)?;
        compare_texts(&rt, found.as_str(), wanted.as_str(), "merged");
    }
    Ok(())
}

/// Why these pieces are not merged.
fn merge_fault(alloc: Global, replica: &mut Replica, other: &Replica) -> Option<ReplicaFault> {
    replica.merge(alloc, other.log()).err()
}

#[test]
fn a_log_of_another_run_is_not_merged(rt: HostRuntime) -> Result<(), Fail> {
    let mut replica = delivered(rt.alloc(), &[WHOLE])?;
    let other = Replica::new(rt.alloc(), key(2, Profile::One));
    let fault = merge_fault(rt.alloc(), &mut replica, &other);
    compare(&rt, &fault, &Some(ReplicaFault::OtherRun), "another run");
    let clashing = delivered(rt.alloc(), &[OTHER_FIRST, OTHER_END])?;
    let fault = merge_fault(rt.alloc(), &mut replica, &clashing);
    compare(
        &rt,
        &(fault, replica.log().clashes()),
        &(None, 2),
        "clashes",
    );
    Ok(())
}

/// Pieces, and how many runs of neighbouring places of thread 0 they have.
static NEIGHBOURS: &[(&[&str], u32)] = &[
    (&[], 0),
    (&[SECOND], 1),
    (&[SECOND, FIRST], 1),
    (&[FIRST, STRAY], 2),
    (&[FIRST, STRAY, SECOND], 1),
];

fn runs_of(alloc: Global, pieces: &[&str]) -> Result<u32, Fail> {
    Ok(delivered(alloc, pieces)?.log().runs(0))
}

#[test]
fn neighbouring_places_make_one_run(rt: HostRuntime) -> Result<(), Fail> {
    for (pieces, runs) in NEIGHBOURS {
        let found = runs_of(rt.alloc(), pieces)?;
        compare(&rt, &found, runs, "runs");
    }
    Ok(())
}

/// What a cursor reads of thread 0 at places 0, 1, 200 and again 0, where the second entry of this piece is wanted.
fn claims_read(log: &Log, piece: &Piece) -> Option<[Seen; 4]> {
    let second = piece.entries().get(1)?;
    let mut cursor = log.cursor(0)?;
    let mut claim = None;
    let mut found = [Seen::Other; 4];
    for (at, place) in [0, 1, 200, 0].into_iter().enumerate() {
        cursor.read(place, &mut claim);
        found[at] = item_seen(&claim, second);
    }
    Some(found)
}

#[test]
fn a_cursor_reads_places_in_any_order(rt: HostRuntime) -> Result<(), Fail> {
    let whole = piece(rt.alloc(), WHOLE)?;
    let replica = delivered(rt.alloc(), &[WHOLE, OTHER_FIRST])?;
    let wanted = [Seen::Clash, Seen::Wanted, Seen::Nothing, Seen::Clash];
    let found = claims_read(replica.log(), &whole);
    compare(&rt, &found, &Some(wanted), "read");
    check(&rt, replica.log().cursor(16).is_none(), "no thread 16");
    Ok(())
}
