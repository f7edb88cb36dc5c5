//! Lines that are gathered where bad ones and those of other runs are passed over.

ghost use Rattle.std.specs.Prelude.{◌≡◌, ◌<◌};

use crate::checks::{check, compare};
use crate::refused::{check_answer, gather_by_ten};
use crate::replicas::{
    BLOCK_64, FIRST, NO_PIECES, OTHER_RUN, RUN, SECOND, WHOLE, WHOLE_LISTED, WHOLE_TEXT,
};
use byte_streams::{MemorySink, MemorySource, Sink, Source};
use replica::{GatherFault, ListingForm, Skipped, gather, gather_skipping};
use std::alloc::Global;
use std::test::Fail;
use wasm_types::NoMemory;

/// How bytes come and go: how many at a call, and which call of the source and of the sink fails.
#[derive(Clone, Copy)]
pub(crate) struct Devices {
    most: usize,
    source_fails_at: Option<u64>,
    sink_fails_at: Option<u64>,
    ghost some: { 0 < most },
}

/// That so many bytes come and go at a call, and none fails.
pub(crate) fn working(most: usize) -> Devices
    requires { 0 < most }
{
    Devices {
        most,
        source_fails_at: None,
        sink_fails_at: None,
    }
}

/// What gathering came to: the answer, how many calls of the source and of the sink failed, and what was written.
#[derive(Drop)]
pub(crate) struct Gathered {
    pub(crate) answer: Result<Skipped, GatherFault>,
    pub(crate) source_failures: u64,
    pub(crate) sink_failures: u64,
    pub(crate) sink: MemorySink,
}

/// Gathers what a source has, and passes over what cannot be joined where `skips`.
pub(crate) fn answer(
    alloc: Global,
    source: &mut MemorySource<'_>,
    sink: &mut MemorySink,
    skips: bool,
    form: ListingForm,
) -> Result<Skipped, GatherFault>
    requires source { source.old.failures ≡ 0 }
    requires sink { sink.old.failures ≡ 0 }
{
    if skips {
        return gather_skipping(alloc, source, sink, form);
    }
    match gather(alloc, source, sink, form) {
        Ok(()) => Ok(Skipped { bad: 0, foreign: 0 }),
        Err(fault) => Err(fault),
    }
}

/// Gathers the text, and passes over what cannot be joined where `skips`.
fn run_over(alloc: Global, text: &[u8], devices: &Devices, skips: bool) -> Gathered {
    run_in_form(alloc, text, devices, skips, ListingForm::default())
}

/// The same in a form of the listing.
pub(crate) fn run_in_form(
    alloc: Global,
    text: &[u8],
    devices: &Devices,
    skips: bool,
    form: ListingForm,
) -> Gathered {
    let mut source = MemorySource::new(text, devices.most, devices.source_fails_at);
    let mut sink = MemorySink::new(alloc, devices.most, devices.sink_fails_at);
    Gathered {
        answer: answer(alloc, &mut source, &mut sink, skips, form),
        source_failures: source.failures(),
        sink_failures: sink.failures(),
        sink,
    }
}

/// Parts of a text, one behind the other.
fn joined(alloc: Global, parts: &[&str]) -> Result<String, NoMemory> {
    let mut text = String::new(alloc);
    for part in parts {
        text.push_str(part)?;
    }
    Ok(text)
}

/// Whether a text is listed so, and so many lines passed over, by so many bytes at a call.
fn lists_by(alloc: Global, text: &[u8], most: usize, skipped: Skipped, listed: &[u8]) -> bool
    requires { 0 < most }
{
    let found = run_over(alloc, text, &working(most), true);
    found.answer == Ok(skipped) && found.sink.taken() == listed
}

/// The same by whatever many bytes at a call.
fn lists_text(alloc: Global, text: &[u8], skipped: Skipped, listed: &[u8]) -> bool {
    for most in [1, 7, 100, 65_536] {
        if !lists_by(alloc, text, most, skipped, listed) {
            return false;
        }
    }
    true
}

/// The same of a text of these parts.
fn lists(alloc: Global, parts: &[&str], skipped: Skipped, listed: &[u8]) -> Result<bool, NoMemory> {
    let text = joined(alloc, parts)?;
    Ok(lists_text(alloc, text.as_bytes(), skipped, listed))
}

#[test]
fn bad_lines_and_other_runs_are_passed_over(rt: HostRuntime) -> Result<(), Fail> {
    let one_each = Skipped { bad: 1, foreign: 1 };
    // The third line is the whole piece in run 2.
    let parts = [
        "zz\n",
        SECOND,
        "\n",
        &WHOLE[..72],
        "02",
        &WHOLE[74..],
        "\n",
        FIRST,
        "\n",
    ];
    let listed = WHOLE_TEXT.as_bytes();
    let is_so = lists(rt.alloc(), &parts, one_each, listed)?;
    check(&rt, is_so, "a whole last line");
    let is_so = lists(rt.alloc(), &parts[..8], one_each, listed)?;
    check(&rt, is_so, "a last line without its end");
    Ok(())
}

const RUN_2: &str = "\
run aaaaaaaaaaaaaaaaaaaaaaaaaaaaaaaaaaaaaaaaaaaaaaaaaaaaaaaaaaaaaaaa:2
0.0 access w1@0/0
ends 0 missing 0 strays 0 clashes 0
";

#[test]
fn the_first_good_line_names_the_run(rt: HostRuntime) -> Result<(), Fail> {
    let one = Skipped { bad: 0, foreign: 1 };
    let two = Skipped { bad: 0, foreign: 2 };
    let parts = [OTHER_RUN, "\n", WHOLE, "\n", FIRST];
    let is_so = lists(rt.alloc(), &parts, two, RUN_2.as_bytes())?;
    check(&rt, is_so, "run 2 first");
    let parts = [WHOLE, "\n", OTHER_RUN, "\n", WHOLE, "\n"];
    let is_so = lists(rt.alloc(), &parts, one, WHOLE_TEXT.as_bytes())?;
    check(&rt, is_so, "run 2 second");
    let wanted = format!(in rt.alloc(); "{RUN}:64\n{WHOLE_LISTED}")?;
    let parts = [BLOCK_64, "\n", WHOLE, "\n", BLOCK_64];
    let is_so = lists(rt.alloc(), &parts, one, wanted.as_bytes())?;
    check(&rt, is_so, "profile 2 first");
    Ok(())
}

/// Parts of a text of which no line is good, and how many lines it has.
static ALL_BAD: [(&[&str], u64); 9] = [
    (&[], 0),
    (&["\n"], 1),
    (&["\n\n"], 2),
    (&["zz"], 1),
    (&["\n\nzz"], 3),
    (&[WHOLE, "\r"], 1),
    (&[WHOLE, "00\n", WHOLE, "\r\n"], 2),
    (&["\0\0", WHOLE, "\n\n"], 2),
    (&["49525001AA\n", FIRST, FIRST, "\n"], 2),
];

#[test]
fn texts_without_a_good_line_have_the_listing_of_no_piece(rt: HostRuntime) -> Result<(), Fail> {
    for (parts, bad) in &ALL_BAD {
        let skipped = Skipped {
            bad: *bad,
            foreign: 0,
        };
        let is_so = lists(rt.alloc(), parts, skipped, NO_PIECES)?;
        compare(&rt, &(*bad, is_so), &(*bad, true), "bad lines");
    }
    Ok(())
}

/// So many digits in a line, and behind it, where `ended`, its end and the line of `WHOLE`.
fn long_line(alloc: Global, digits: usize, ended: bool) -> Result<Vec<u8>, NoMemory> {
    let mut text = vec![in alloc; b'0'; digits]?;
    if ended {
        text.push(b'\n')?;
        text.extend_from_slice(WHOLE.as_bytes())?;
    }
    Ok(text)
}

/// Whether such a line is passed over, and the rest listed so.
fn lists_long_line(
    alloc: Global,
    digits: usize,
    ended: bool,
    listed: &[u8],
) -> Result<bool, NoMemory> {
    let one = Skipped { bad: 1, foreign: 0 };
    let text = long_line(alloc, digits, ended)?;
    Ok(lists_by(alloc, &text, 65_536, one, listed))
}

#[test]
fn an_overlong_line_is_one_bad_line(rt: HostRuntime) -> Result<(), Fail> {
    // Lines around the longest one, and one whose end comes many calls behind the place where it is too long.
    for digits in [532_620, 532_621, 589_823, 589_824, 2_000_000] {
        let is_so = lists_long_line(rt.alloc(), digits, true, WHOLE_TEXT.as_bytes())?;
        compare(&rt, &(digits, is_so), &(digits, true), "ended");
        let is_so = lists_long_line(rt.alloc(), digits, false, NO_PIECES)?;
        compare(&rt, &(digits, is_so), &(digits, true), "open");
    }
    Ok(())
}

/// Devices of which one fails at this call, by so many bytes at a call.
fn failing(most: usize, call: u64, of_sink: bool) -> Devices
    requires { 0 < most }
{
    Devices {
        most,
        source_fails_at: if of_sink { None } else { Some(call) },
        sink_fails_at: if of_sink { Some(call) } else { None },
    }
}

/// Whether a failing device is answered: 44 with nothing written, 45 with a beginning of these bytes.
fn is_answered(found: &Gathered, whole: &[u8], of_sink: bool) -> bool {
    let fault = if of_sink {
        GatherFault::SinkFailed
    } else {
        GatherFault::SourceFailed
    };
    let taken = found.sink.taken();
    found.answer == Err(fault)
        && found.sink_failures == u64::from(of_sink)
        && found.source_failures == u64::from(!of_sink)
        && whole.starts_with(taken)
        && (of_sink || taken.is_empty())
}

/// What a run came to of which a call of a device may fail.
enum Met {
    /// It met no failure, and wrote all.
    Nothing,
    /// It met one, which is answered.
    Failure,
    Other,
}

/// What such a run came to, where all is these bytes.
fn run_with_failure(
    alloc: Global,
    text: &[u8],
    devices: &Devices,
    skips: bool,
    of_sink: bool,
    whole: &[u8],
) -> Met {
    let found = run_over(alloc, text, devices, skips);
    if found.answer.is_ok() && found.sink.taken() == whole {
        Met::Nothing
    } else if is_answered(&found, whole, of_sink) {
        Met::Failure
    } else {
        Met::Other
    }
}

/// Whether the device that fails at each of its calls in turn is answered, until a run meets no failure: the first such
/// run writes these bytes, and the call before was the last one.
fn answers_each_failure(
    alloc: Global,
    text: &[u8],
    most: usize,
    skips: bool,
    of_sink: bool,
    whole: &[u8],
) -> bool
    requires { 0 < most }
{
    for call in 1..10_000u64 {
        let devices = failing(most, call, of_sink);
        match run_with_failure(alloc, text, &devices, skips, of_sink, whole) {
            Met::Nothing => return call > 1,
            Met::Failure => {}
            Met::Other => return false,
        }
    }
    false
}

/// The same, where all is what a run writes whose devices do not fail.
fn answers_failures(alloc: Global, text: &[u8], most: usize, skips: bool, of_sink: bool) -> bool
    requires { 0 < most }
{
    let whole = run_over(alloc, text, &working(most), skips);
    answers_each_failure(alloc, text, most, skips, of_sink, whole.sink.taken())
}

/// Good lines; and among them a bad one, one of another run and an empty one.
static GOOD: &[&str] = &[SECOND, "\n", FIRST, "\n", WHOLE];

static MIXED: &[&str] = &["zz\n", SECOND, "\n", OTHER_RUN, "\n\n", FIRST, "\n"];

/// Whether failures of these devices are answered in a text of these parts.
fn answers_in(
    alloc: Global,
    parts: &[&str],
    most: usize,
    skips: bool,
    of_sink: bool,
) -> Result<bool, NoMemory>
    requires { 0 < most }
{
    let text = joined(alloc, parts)?;
    Ok(answers_failures(alloc, text.as_bytes(), most, skips, of_sink))
}

#[test]
fn devices_that_fail_once_are_answered(rt: HostRuntime) -> Result<(), Fail> {
    for most in [1, 100, 65_536] {
        for of_sink in [false, true] {
            let found = [
                answers_in(rt.alloc(), GOOD, most, false, of_sink)?,
                answers_in(rt.alloc(), GOOD, most, true, of_sink)?,
                answers_in(rt.alloc(), MIXED, most, true, of_sink)?,
            ];
            compare(
                &rt,
                &(most, of_sink, found),
                &(most, of_sink, [true; 3]),
                "answered",
            );
        }
    }
    Ok(())
}

#[test]
fn a_source_that_fails_in_an_overlong_line_is_answered(rt: HostRuntime) -> Result<(), Fail> {
    let text = long_line(rt.alloc(), 1_000_000, true)?;
    let is_so = answers_failures(rt.alloc(), &text, 65_536, true, false);
    check(&rt, is_so, "answered");
    Ok(())
}

// Under `rt try --test --fail-alloc N` the Nth growth of this test is refused. Without it none is.
#[test]
fn skipping_with_refused_memory_writes_no_other_bytes(rt: HostRuntime) {
    let found = gather_by_ten(rt.alloc(), WHOLE.as_bytes(), true, ListingForm::default());
    check_answer(&rt, &found, WHOLE_TEXT.as_bytes());
}
