//! Runs of the program whose input or output fails, by threads, and on words that are no text. What it writes and
//! refuses on files that can be read is shown by `worked_rows`.

ghost use Rattle.std.specs.Prelude.{◌≡◌, ◌<◌, List, Option, ℕ, map};
ghost use Rattle.std.specs.Borrow.{Bor};
ghost use Rattle.command_words.specs.Asked.{Asks};
ghost use Rattle.command_words.specs.declared.requests.Request.TheVariants as request;
ghost use Rattle.program.specs.InMemory.{HasValidModule};

mod far;

use crate::answering::{OddWord, refuse_words, run};
use byte_streams::{MemorySink, MemorySource};
use commands::{MemoryFile, MemoryFiles};
use log::sink::{Discard, Locked};
use std::alloc::Global;
use std::convert::AsStr;
use std::io::{self, ErrorKind};
use std::sync::Wait;
use std::test::Fail;
use std::thread::Threads;

/// A module of one shared page and one function `w`, which adds 1 at address 0 twice.
const COUNTER: [u8; 55] = [
    0x00, 0x61, 0x73, 0x6D, 0x01, 0x00, 0x00, 0x00, 0x01, 0x05, 0x01, 0x60, 0x00, 0x01, 0x7F, 0x03,
    0x02, 0x01, 0x00, 0x05, 0x04, 0x01, 0x03, 0x01, 0x01, 0x07, 0x05, 0x01, 0x01, 0x77, 0x00, 0x00,
    0x0A, 0x15, 0x01, 0x13, 0x00, 0x41, 0x00, 0x41, 0x01, 0xFE, 0x1E, 0x02, 0x00, 0x1A, 0x41, 0x00,
    0x41, 0x01, 0xFE, 0x1E, 0x02, 0x00, 0x0B,
];

/// Two threads of it.
const PLAN: &str = "wreplay plan 1\nthread w\nthread w\n";

/// A module of one shared page and a function `f0`, which waits at address 0 for 0, at most 1,000 nanoseconds, and a
/// function `f1`, which wakes one there.
const LIMITED: [u8; 67] = [
    0x00, 0x61, 0x73, 0x6D, 0x01, 0x00, 0x00, 0x00, 0x01, 0x05, 0x01, 0x60, 0x00, 0x01, 0x7F, 0x03,
    0x03, 0x02, 0x00, 0x00, 0x05, 0x04, 0x01, 0x03, 0x01, 0x01, 0x07, 0x0B, 0x02, 0x02, 0x66, 0x30,
    0x00, 0x00, 0x02, 0x66, 0x31, 0x00, 0x01, 0x0A, 0x1A, 0x02, 0x0D, 0x00, 0x41, 0x00, 0x41, 0x00,
    0x42, 0xE8, 0x07, 0xFE, 0x01, 0x02, 0x00, 0x0B, 0x0A, 0x00, 0x41, 0x00, 0x41, 0x01, 0xFE, 0x00,
    0x02, 0x00, 0x0B,
];

/// A thread that waits, alone.
const ALONE: &str = "wreplay plan 1\nthread f0\n";

/// All its steps up to the wait, and the one behind it, without a time-out.
const STEPS: &str = "go 0 5\n";

/// The same, where the wait times out.
const STEPS_AND_TIME_OUT: &str = "go 0 4\nout 0\ngo 0 1\n";

/// A schedule of all their steps.
const PICKS: &str = "go 0 3\ngo 1 8\ngo 0 5\n";

/// A schedule by which one of them is left at its third step.
const FEWER_PICKS: &str = "go 0 3\ngo 1 8\n";

/// A line that is no piece, the piece of a thread that made three steps and no access, the piece of another run, and
/// once more a line that is no piece.
const MIXED: &str = "zz\n\
    49525001aaaaaaaaaaaaaaaaaaaaaaaaaaaaaaaaaaaaaaaaaaaaaaaaaaaaaaaaaaaaaaaa01000000000000000300000000000001030000000000000002\n\
    49525001bbbbbbbbbbbbbbbbbbbbbbbbbbbbbbbbbbbbbbbbbbbbbbbbbbbbbbbbbbbbbbbb01000000000000000300000000000001030000000000000002\n\
    \n";

/// Two pieces, the first entries of threads 0 and 1, which both claim the write of object 1 that found version 0.
const TWICE_WRITTEN: &str = "\
    49525001aaaaaaaaaaaaaaaaaaaaaaaaaaaaaaaaaaaaaaaaaaaaaaaaaaaaaaaaaaaaaaaa0100000000000000000000\
    00000100000001010000000100000000000000000000000000000000\n\
    49525001aaaaaaaaaaaaaaaaaaaaaaaaaaaaaaaaaaaaaaaaaaaaaaaaaaaaaaaaaaaaaaaa0100000000000000010000\
    00000100000001010000000100000000000000000000000000000000\n";

/// A file of which no read fails.
const fn file<'a>(path: &'a str, bytes: &'a [u8]) -> MemoryFile<'a> {
    MemoryFile {
        path,
        bytes,
        fails_at: None,
    }
}

/// What the program is run on: words, piece lines for the file `l` and for the standard input, and at which call each
/// of these fails, and the output, which takes so many bytes at a call.
#[derive(Clone, Copy, Drop)]
struct Case<'a> {
    words: &'a [&'a str],
    lines: &'a str,
    read_fails_at: Option<u64>,
    most: usize,
    write_fails_at: Option<u64>,
}

/// What the program did, the paths that it noted, one behind the other, and the lines of how far a hunt was.
#[derive(Drop)]
struct Done {
    status: u8,
    output: MemorySink,
    errors: MemorySink,
    noted: Vec<u8>,
    far: Vec<u8>,
}

/// What a sink took, as text.
fn text(sink: &MemorySink) -> &str {
    str::from_utf8(sink.taken()).unwrap_or("not UTF-8")
}

/// What stands behind a mark in the lines of a log that have it, each with an end.
fn behind_marks(alloc: Global, log: &[u8], mark: &str, end: &str) -> Vec<u8> {
    let mut found = Vec::new(alloc);
    for line in str::from_utf8(log).unwrap_or("not UTF-8").lines() {
        if let Some((_, rest)) = line.split_once(mark) {
            let _ = found.extend_from_slice(rest.as_bytes());
            let _ = found.extend_from_slice(end.as_bytes());
        }
    }
    found
}

/// Runs the program on the files `m`, `p`, `s`, `f` and `l`: a module, a plan, two schedules and piece lines; `w` and
/// `a`, a module whose thread waits and a plan of it alone; `g` and `o`, its steps without and with the time-out of its
/// wait; `e`, which is empty.
fn run_on<T: Threads + Wait + Sync>(threads: &T, alloc: Global, case: Case<'_>) -> Done
    requires { 0 < case.most }
{
    let notes = Locked::new(threads, Vec::new(alloc));
    let lines = MemoryFile {
        fails_at: case.read_fails_at,
        ..file("l", case.lines.as_bytes())
    };
    let all = [
        file("m", &COUNTER),
        file("p", PLAN.as_bytes()),
        file("s", PICKS.as_bytes()),
        file("f", FEWER_PICKS.as_bytes()),
        lines,
        file("w", &LIMITED),
        file("a", ALONE.as_bytes()),
        file("g", STEPS.as_bytes()),
        file("o", STEPS_AND_TIME_OUT.as_bytes()),
        file("e", &[]),
    ];
    let mut files = MemoryFiles { files: &all };
    let mut source = MemorySource::new(case.lines.as_bytes(), 65536, case.read_fails_at);
    let mut output = MemorySink::new(alloc, case.most, case.write_fails_at);
    let mut errors = MemorySink::new(alloc, 65536, None);
    let status = run(
        &notes,
        threads,
        alloc,
        case.words,
        &mut files,
        &mut source,
        &mut output,
        &mut errors,
    );
    let log = notes.into_inner();
    Done {
        status,
        output,
        errors,
        noted: behind_marks(alloc, &log, "] reads ", ""),
        far: behind_marks(alloc, &log, "[DEBUG progress] ", "\n"),
    }
}

/// Whether the program did this.
fn is_done(done: &Done, status: u8, output: &str, errors: &str, noted: &str) -> bool {
    done.status == status
        && text(&done.output) == output
        && text(&done.errors) == errors
        && done.noted.as_slice() == noted.as_bytes()
}

/// A case without files: words, piece lines, at which call reading them fails, and at which call the output, which
/// takes 8 bytes at one. Behind it what the program is to write, and to say on standard error.
type Failing = (
    &'static [&'static str],
    &'static str,
    Option<u64>,
    Option<u64>,
    &'static str,
    &'static str,
);

const FAILING: &[Failing] = &[
    (
        &["wreplay", "gather"],
        "",
        Some(1),
        None,
        "",
        "refused 44 SourceFailed\n",
    ),
    (
        &["wreplay", "gather"],
        "",
        None,
        Some(2),
        "run none",
        "refused 45 SinkFailed\n",
    ),
    (
        &["wreplay", "gather", "--why"],
        "",
        Some(1),
        None,
        "",
        "refused 44 SourceFailed\nstandard input: reading it failed\n",
    ),
    (
        &["wreplay", "gather", "--why"],
        "",
        None,
        Some(1),
        "",
        "refused 45 SinkFailed\nstandard output: writing failed, after a beginning was written\n",
    ),
    (
        &["wreplay", "gather", "--skip"],
        MIXED,
        Some(2),
        None,
        "",
        "refused 44 SourceFailed\n",
    ),
    (
        &["wreplay", "gather", "--skip"],
        "zz\n",
        None,
        Some(2),
        "run none",
        "refused 45 SinkFailed\n",
    ),
    (
        &["wreplay", "--version"],
        "",
        None,
        Some(1),
        "",
        "refused 45 SinkFailed\n",
    ),
    (
        &["wreplay", "--help"],
        "",
        None,
        Some(1),
        "",
        "refused 45 SinkFailed\n",
    ),
];

#[test]
fn refuses_where_reading_or_writing_fails(rt: HostRuntime) {
    let rows = FAILING;
    for (words, lines, read_fails_at, write_fails_at, output, errors) in rows {
        let case = Case {
            words: *words,
            lines: *lines,
            read_fails_at: *read_fails_at,
            most: 8,
            write_fails_at: *write_fails_at,
        };
        let done = run_on(&rt, rt.alloc(), case);
        assert!(rt; is_done(&done, 1, *output, *errors, ""), "{errors}");
    }
}

/// The lines of a dialogue about a run of which nothing is known, at which call reading them fails, byte by byte, and
/// at which call the output, which takes 8 bytes at one. Behind it what is to be written, and said on standard error.
const CUT_OFF: &[(&str, Option<u64>, Option<u64>, &str, &str)] = &[
    (
        "delete\nway\ndelete\n",
        Some(14),
        None,
        "no breaks\n",
        "refused 44 SourceFailed\n",
    ),
    (
        "delete\ndelete\nquit\n",
        None,
        Some(4),
        "no breaks\nno break",
        "refused 45 SinkFailed\n",
    ),
];

#[test]
fn cuts_dialogues_off_where_reading_or_writing_fails(rt: HostRuntime) {
    for (lines, read_fails_at, write_fails_at, output, errors) in CUT_OFF {
        let case = Case {
            words: &["wreplay", "debug", "m", "p", "e"],
            lines: *lines,
            read_fails_at: *read_fails_at,
            most: 8,
            write_fails_at: *write_fails_at,
        };
        let done = run_on(&rt, rt.alloc(), case);
        assert!(rt; is_done(&done, 1, *output, *errors, "mpe"), "{errors}");
    }
}

/// Words, and what is written behind the entries that were written twice.
const TOLD: &[(&[&str], &str)] = &[
    (&["wreplay", "gather"], ""),
    (
        &["wreplay", "gather", "--contradictions"],
        "double w1@0 0.0 1.0\n",
    ),
];

#[test]
fn tells_contradictions_where_it_is_asked_to(rt: HostRuntime) -> Result<(), Fail> {
    let rows = TOLD;
    for (words, told) in rows {
        let case = Case {
            words: *words,
            lines: TWICE_WRITTEN,
            read_fails_at: None,
            most: 65536,
            write_fails_at: None,
        };
        let listing = format!(in rt.alloc();
            "\
run aaaaaaaaaaaaaaaaaaaaaaaaaaaaaaaaaaaaaaaaaaaaaaaaaaaaaaaaaaaaaaaa:1
0.0 access w1@0/0
1.0 access w1@0/0
ends 0 missing 0 strays 0 clashes 0
{told}"
        )?;
        let done = run_on(&rt, rt.alloc(), case);
        assert!(rt; is_done(&done, 0, listing.as_str(), "", ""), "{told}");
    }
    Ok(())
}

#[test]
fn refuses_pieces_of_which_a_read_fails(rt: HostRuntime) {
    let words = ["wreplay", "replay", "m", "p", "l", "--why"];
    let case = Case {
        words: words.as_slice(),
        lines: MIXED,
        read_fails_at: Some(1),
        most: 65536,
        write_fails_at: None,
    };
    let told = "refused 44 SourceFailed\nl: reading it failed\n";
    let done = run_on(&rt, rt.alloc(), case);
    assert!(rt; is_done(&done, 1, "", told, "mpl"));
    // The first line is no piece line, where it is read.
    let read = Case {
        read_fails_at: Some(2),
        ..case
    };
    let done = run_on(&rt, rt.alloc(), read);
    assert!(rt; done.status == 1 && text(&done.errors).starts_with("refused 43 BadLine 1\n"));
}

/// Runs the program on files over memory. Where the words ask for the check of a module and the exit status is 0, the
/// file at its path holds a valid one.
fn checked_in_memory<T: Threads + Wait + Sync, S: AsStr>(
    threads: &T,
    alloc: Global,
    words: &[S],
    files: &mut MemoryFiles<'_>,
) -> (u8, MemorySink)
    ensures valid { (path : Bor (List ℕ)) (plan : Option (Bor (List ℕ))) → Asks (map S.text words.now) (request.Check path plan) → result.0 ≡ 0 → HasValidModule files.old.files.now path.now }
{
    let mut source = MemorySource::new(b"", 1, None);
    let mut output = MemorySink::new(alloc, 65536, None);
    let mut errors = MemorySink::new(alloc, 65536, None);
    let status = run(
        &Discard,
        threads,
        alloc,
        words,
        files,
        &mut source,
        &mut output,
        &mut errors,
    );
    (status, output)
}

/// What is written of the module `m`.
const SUMMARY: &str =
    "types 1\nfunctions 1\ntable none\nmemory 1 1 shared\nglobals 0\nexports 1\nstart none\nvalid\n";

/// Words, the exit status, and what is written.
const CHECKED: &[(&[&str], u8, &str)] = &[
    (&["wreplay", "check", "m"], 0, SUMMARY),
    (&["wreplay", "check", "p"], 1, ""),
    (&["wreplay", "check", "n"], 1, ""),
    (&["wreplay", "check", "f"], 1, ""),
    (&["wreplay", "check", "m", "--threads", "p"], 0, SUMMARY),
    (&["wreplay", "check", "m", "--threads", "m"], 1, ""),
];

#[test]
fn checks_modules_in_memory(rt: HostRuntime) {
    // The second file at the path `m` is not seen.
    let all = [
        file("p", PLAN.as_bytes()),
        file("m", &COUNTER),
        file("m", PLAN.as_bytes()),
        MemoryFile {
            fails_at: Some(1),
            ..file("f", &COUNTER)
        },
    ];
    let rows = CHECKED;
    for (words, status, summary) in rows {
        let mut files = MemoryFiles { files: &all };
        let (answered, output) = checked_in_memory(&rt, rt.alloc(), *words, &mut files);
        assert!(rt;
            answered == *status && text(&output) == *summary,
            "{summary}"
        );
    }
}

/// Two threads in turn, in pieces of one entry: the output fails at one of five calls, or at none.
#[test]
fn writes_a_beginning_of_the_pieces_where_writing_fails(rt: HostRuntime) {
    let words = [
        "wreplay",
        "record",
        "m",
        "p",
        "--schedule",
        "s",
        "--size",
        "1",
    ];
    let case = Case {
        words: words.as_slice(),
        lines: "",
        read_fails_at: None,
        most: 100,
        write_fails_at: None,
    };
    let whole = run_on(&rt, rt.alloc(), case);
    // In each thread a piece of 76 bytes and one of 89, which has the end: two digits a byte, and the line ends.
    assert!(rt; whole.status == 0 && whole.output.taken().len() == 664);
    for call in 0..5 {
        let failing = Case {
            write_fails_at: Some(call + 1),
            ..case
        };
        let cut = run_on(&rt, rt.alloc(), failing);
        let begun = text(&cut.output);
        assert!(rt; is_done(&cut, 1, begun, "refused 45 SinkFailed\n", "mps"));
        assert!(rt; begun.len() as u64 == 100 * call && text(&whole.output).starts_with(begun));
    }
}

#[test]
fn records_by_threads(rt: HostRuntime) {
    // Four additions of 1, whichever thread makes them when, and the values from before are one of four pairs.
    let ends = [
        "thread 0 i32 1\nthread 1 i32 3\n",
        "thread 0 i32 3\nthread 1 i32 1\n",
        "thread 0 i32 2\nthread 1 i32 3\n",
        "thread 0 i32 3\nthread 1 i32 2\n",
    ];
    let words = ["wreplay", "record", "m", "p", "--threads", "--report"];
    let case = Case {
        words: words.as_slice(),
        lines: "",
        read_fails_at: None,
        most: 65536,
        write_fails_at: None,
    };
    let done = run_on(&rt, rt.alloc(), case);
    let report = text(&done.output);
    assert!(rt; is_done(&done, 0, report, "", "mp"));
    assert!(rt; report.starts_with("pages 1\n00000000 04000000000000000000000000000000\n"));
    let mut known = false;
    for end in ends {
        known = known || report.ends_with(end);
    }
    assert!(rt; known);
}

/// Recordings of a thread that waits for a limited time and is not woken, what ends the report of each, and the files
/// that it reads. Of threads at once `--timeouts` says whether the time is over; a schedule says that itself.
const WAITING: &[(&[&str], &str, &str)] = &[
    (&["--threads"], "waiting", "wa"),
    (&["--threads", "--timeouts", "never"], "waiting", "wa"),
    (&["--threads", "--timeouts", "now"], "i32 2", "wa"),
    (&["--schedule", "g"], "waiting", "wag"),
    (&["--schedule", "g", "--timeouts", "now"], "waiting", "wag"),
    (&["--schedule", "o"], "i32 2", "wao"),
    (&["--schedule", "o", "--timeouts", "never"], "i32 2", "wao"),
];

#[test]
fn times_out_as_is_asked(rt: HostRuntime) -> Result<(), Fail> {
    let rows = WAITING;
    for (options, outcome, noted) in rows {
        let mut words = vec![in rt.alloc(); "wreplay", "record", "w", "a", "--report"]?;
        words.extend_from_slice(*options)?;
        let case = Case {
            words: words.as_slice(),
            lines: "",
            read_fails_at: None,
            most: 65536,
            write_fails_at: None,
        };
        let done = run_on(&rt, rt.alloc(), case);
        let report = format!(in rt.alloc(); "pages 1\nthread 0 {outcome}\n")?;
        assert!(rt; is_done(&done, 0, report.as_str(), "", *noted), "{report}");
    }
    Ok(())
}

#[test]
fn names_a_word_that_is_not_text(rt: HostRuntime) {
    let mut errors = MemorySink::new(rt.alloc(), 8, None);
    let odd = OddWord {
        number: 2,
        bytes: b"m\xFF.wasm".as_slice(),
    };
    let error = io::Error::from(ErrorKind::InvalidInput);
    let status = refuse_words(&mut errors, &error, Some(odd));
    assert_eq!(rt; status, 2);
    assert_eq!(rt;
        text(&errors),
        "error: word 2 of the command line is not UTF-8: m?.wasm\n"
    );
}

/// The pages of help.
const HELP: &[&[&str]] = &[
    &["wreplay", "--help"],
    &["wreplay", "help"],
    &["wreplay", "gather", "--help"],
    &["wreplay", "check", "--help"],
    &["wreplay", "record", "--help"],
    &["wreplay", "hunt", "--help"],
    &["wreplay", "replay", "--help"],
    &["wreplay", "view", "--help"],
    &["wreplay", "trace", "--help"],
    &["wreplay", "debug", "--help"],
    &["wreplay", "chart", "--help"],
];

#[test]
fn explains_itself_in_short_lines(rt: HostRuntime) {
    let rows = HELP;
    for words in rows {
        let case = Case {
            words: *words,
            lines: "zz",
            read_fails_at: None,
            most: 65536,
            write_fails_at: None,
        };
        let shown = run_on(&rt, rt.alloc(), case);
        let page = text(&shown.output);
        assert!(rt; page.len() > 100 && is_done(&shown, 0, page, "", ""));
        for line in page.lines() {
            assert!(rt; line.len() <= 80, "{line}");
        }
    }
}

/// Words that record, and what standard error says of the threads.
const STOPPED: &[(&[&str], &str)] = &[
    (
        &[
            "wreplay",
            "record",
            "m",
            "p",
            "--schedule",
            "s",
            "--steps",
            "3",
            "--why",
        ],
        "threads stopped at --steps 3: 0 1\n",
    ),
    // Only thread 1 makes five steps.
    (
        &[
            "wreplay",
            "record",
            "m",
            "p",
            "--schedule",
            "f",
            "--steps",
            "5",
            "--report",
            "--why",
        ],
        "threads stopped at --steps 5: 1\n",
    ),
    // Thread 1 returns at its eighth step.
    (
        &[
            "wreplay",
            "record",
            "m",
            "p",
            "--schedule",
            "f",
            "--steps",
            "8",
            "--why",
        ],
        "",
    ),
    (
        &[
            "wreplay",
            "record",
            "m",
            "p",
            "--schedule",
            "s",
            "--steps",
            "3",
        ],
        "",
    ),
    (
        &[
            "wreplay",
            "record",
            "m",
            "p",
            "--threads",
            "--steps",
            "0",
            "--why",
        ],
        "threads stopped at --steps 0: 0 1\n",
    ),
];

#[test]
fn says_which_threads_stopped(rt: HostRuntime) {
    let rows = STOPPED;
    for (words, errors) in rows {
        let case = Case {
            words: *words,
            lines: "",
            read_fails_at: None,
            most: 65536,
            write_fails_at: None,
        };
        let done = run_on(&rt, rt.alloc(), case);
        assert!(rt;
            done.status == 0 && text(&done.errors) == *errors,
            "{errors}"
        );
    }
}

/// A hunt: its words, at which call the output fails, the exit status, and what is told. Runs of the counter are none
/// that traps or waits; the thread that waits alone waits at its end, where it does not time out.
type Hunted = (&'static [&'static str], Option<u64>, u8, &'static str);

const HUNTED: &[Hunted] = &[
    (
        &["wreplay", "hunt", "m", "p", "--until", "thread 0 i32 3"],
        None,
        0,
        "caught 0\nthread 0 i32 3\n",
    ),
    (
        &["wreplay", "hunt", "m", "p", "--unless", "thread 0 i32 1"],
        Some(1),
        1,
        "refused 45 SinkFailed\n",
    ),
    (
        &["wreplay", "hunt", "m", "p", "--runs", "9"],
        None,
        1,
        "refused 71 NotCaught\n",
    ),
    (
        &["wreplay", "hunt", "w", "a"],
        None,
        0,
        "caught 0\nthread 0 waiting\n",
    ),
    (
        &[
            "wreplay",
            "hunt",
            "w",
            "a",
            "--timeouts",
            "now",
            "--runs",
            "9",
        ],
        None,
        1,
        "refused 71 NotCaught\n",
    ),
];

#[test]
fn tells_which_run_is_caught(rt: HostRuntime) {
    let rows = HUNTED;
    for (words, write_fails_at, status, told) in rows {
        let case = Case {
            words: *words,
            lines: "",
            read_fails_at: None,
            most: 65536,
            write_fails_at: *write_fails_at,
        };
        let done = run_on(&rt, rt.alloc(), case);
        let is_told = text(&done.errors) == *told;
        assert!(rt; done.status == *status && is_told, "{told}");
        // The pieces of a run that is caught are lines of two digits a byte, and nothing is written of others.
        assert!(rt; done.output.taken().is_empty() == (*status != 0));
    }
}
