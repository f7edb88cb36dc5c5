//! What the values of a command ask for.

ghost use Rattle.std.specs.Prelude.{◌≡◌, ℕ, Bool, Option, codes, map, Some, None, IfOk, OnErr, IfSome, IfNone, option_map};
ghost use Rattle.clap.specs.Words.{Row, rows_of, first_of};
ghost use Rattle.clap.specs.Matches.{found_of};
ghost use Rattle.command_words.specs.Words.{pair_in};
ghost use Rattle.command_words.specs.Asked.{IsAsked, AreSizesAsked, IsByThreadsAsked, IsFormAsked, IsOrderAsked, IsRecordFormAsked, IsRecordAsked, IsHuntAsked, IsRangeOfRuns, IsJobsAsked, AreFilesAsked, IsReplayAsked, IsTurnsAsked, IsViewAsked, IsTraceAsked, IsCountAsked, IsRangeAsked, IsGatherAsked, IsBlockOf, has_flag, order_of, is_text, number_of, pair_of_option, ranges_of, texts_of};
ghost use Rattle.command_words.specs.declared.requests.Request.{Request};
ghost use Rattle.command_words.specs.declared.requests.Request.TheVariants as requests;
ghost use Rattle.command_words.specs.declared.requests.RecordOrder.{RecordOrder};
ghost use Rattle.command_words.specs.declared.requests.RecordForm.{RecordForm};
ghost use Rattle.command_words.specs.declared.requests.RecordRequest.{RecordRequest};
ghost use Rattle.command_words.specs.declared.requests.GatherForm.{GatherForm};
ghost use Rattle.command_words.specs.declared.requests.HuntForm.{HuntForm};
ghost use Rattle.command_words.specs.declared.requests.HuntRequest.{HuntRequest};
ghost use Rattle.command_words.specs.declared.requests.ReplayRequest.{ReplayRequest};
ghost use Rattle.command_words.specs.declared.requests.ThreadCount.{ThreadCount};
ghost use Rattle.wasm_types.specs.declared.range.ByteRange.{ByteRange};
ghost use Rattle.command_words.specs.declared.requests.ViewRequest.{ViewRequest};
ghost use Rattle.command_words.specs.declared.requests.TraceRequest.{TraceRequest};
ghost use Rattle.command_words.specs.declared.wanted.Sizes.{Sizes};

use crate::numbers::{number_up_to, order_in, pair_in, small_number_up_to};
use crate::report_texts::may_begin_all;
use crate::requests::{
    GatherForm, HuntForm, HuntRequest, RecordForm, RecordOrder, RecordRequest, ReplayRequest,
    Request, RunRange, ThreadCount, TraceRequest, ViewRequest,
};
use clap::ArgMatches;
use std::alloc::Global;
use wasm_types::{Block, ByteRange, MOST_STEPS, NoMemory};

/// What is said where a value is missing, which clap does not let pass.
const MISSING: &str = "error: a value is missing\n";

/// What is said where it is not clear how the threads of a recording go on.
const BAD_RECORD_ORDER: &str =
    "error: 'record' takes one of '--schedule <FILE>', '--threads' and '--random'\n";

/// What is said where notes of a report are wanted, and no report.
const BAD_NOTES: &str = "error: 'record' takes '--names' and '--offsets' with '--report'\n";

/// What is said of a number that is none.
const BAD_RUN: &str = "error: '--run <N>' takes a number from 0 to 18446744073709551615\n";

const BAD_STEPS: &str = "error: '--steps <N>' takes a number from 0 to 1000000000\n";

const BAD_SIZE: &str = "error: '--size <N>' takes a number from 0 to 4294967295\n";

const BAD_BLOCK: &str = "error: '--block <N>' takes 64, 128, 256, 512, 1024, 2048 or 4096\n";

const BAD_TIMEOUTS: &str = "error: '--timeouts <WHEN>' takes never or now\n";

const BAD_FIRST: &str = "error: '--from <N>' takes a number from 0 to 18446744073709551614\n";

const BAD_RUNS: &str = "error: '--runs <N>' takes a number from 1 to 18446744073709551615\n";

/// What is said of a range of numbers that runs past the last one.
const BAD_RANGE: &str =
    "error: '--from <N>' and '--runs <N>' come to more than 18446744073709551615\n";

const BAD_JOBS: &str = "error: '--jobs <N>' takes a number from 1 to 256\n";

/// What is said of a text with which no line of a report begins.
const BAD_TEXT: &str =
    "error: '--until <TEXT>' and '--unless <TEXT>' take the beginning of a line of a report, as 'thread 0 trap'\n";

const BAD_PRINT: &str = "error: '--print <WHAT>' takes pieces or schedule\n";

/// What is said where a list is wanted and a run that is caught.
const BAD_LIST: &str = "error: 'hunt' takes '--list' without '--shrink' and '--print schedule'\n";

/// What is said where runs by threads are wanted and what goes with numbers alone.
const BAD_THREADS: &str =
    "error: 'hunt' takes '--threads' without '--jobs', '--shrink', '--print schedule' and '--list'\n";

const BAD_ORDER: &str =
    "error: '--order <LIST>' takes 1 to 1000000 thread numbers, joined by commas\n";

/// What is said where an order is named for threads that replay at once.
const BAD_TURNS: &str = "error: 'replay' takes either '--order <LIST>' or '--threads'\n";

const BAD_PLACE: &str = "error: '--place <T.P>' takes a thread and a place, as 1.0\n";

const BAD_STEP: &str = "error: '--step <T.N>' takes a thread and a number of steps, as 1.20\n";

const BAD_WRITE: &str = "error: '--write <FROM+LEN>' takes an address and a length, as 0+4\n";

const BAD_FROM: &str = "error: '--from <N>' takes a number from 0 to 4294967295\n";

const BAD_LEN: &str = "error: '--len <N>' takes a number from 0 to 4294967295\n";

const BAD_ONLY: &str =
    "error: '--only <LIST>' takes 1 to 1000000 thread numbers, joined by commas\n";

const BAD_BYTES: &str = "error: '--bytes <FROM+LEN>' takes an address and a length, as 0+4\n";

const BAD_FIRST_EVENT: &str = "error: '--from <T.P>' takes a thread and a place, as 1.0\n";

const BAD_LAST_EVENT: &str = "error: '--to <T.P>' takes a thread and a place, as 1.0\n";

/// What is said where objects are chosen, and no objects are listed.
const BAD_CHOICE: &str =
    "error: 'gather' takes '--only <LIST>' and '--shared' with '--by-object'\n";

/// What is said where objects are listed, and more is wanted of the listing by threads.
const BAD_BY_OBJECT: &str =
    "error: 'gather' takes '--by-object' without '--objects' and '--contradictions'\n";

const BAD_OBJECTS: &str =
    "error: '--only <LIST>' takes 1 to 1000000 object numbers, joined by commas\n";

const NO_COMMAND: &str = "error: there is no such command\n";

/// What a command's values come to: a request, or what is wrong with them.
pub(crate) type Wanted<T> = Result<T, &'static str>;

/// The value of an option or a file.
fn value<'a>(matches: &ArgMatches<'a>, id: &str) -> Option<&'a str>
    ensures { option_map (λ v. v.now) result ≡ first_of id.now (rows_of (found_of matches.now)) }
{
    matches.get_str(id)
}

/// The number that an option has, at most so large.
fn number(matches: &ArgMatches<'_>, id: &str, most: u64) -> Option<u64>
    ensures { result ≡ number_of most (first_of id.now (rows_of (found_of matches.now))) }
{
    number_up_to(value(matches, id)?.as_bytes(), most)
}

/// The same of a u32.
fn small_number(matches: &ArgMatches<'_>, id: &str, most: u32) -> Option<u32>
    ensures { result ≡ number_of most (first_of id.now (rows_of (found_of matches.now))) }
{
    small_number_up_to(value(matches, id)?.as_bytes(), most)
}

/// The size of a block that an option has.
fn block(matches: &ArgMatches<'_>) -> Option<Block>
    ensures asked { IfSome result (IsBlockOf (number_of 4294967295 (first_of (codes "block") (rows_of (found_of matches.now))))) }
    ensures none { IfNone result ((power : ℕ) → IsBlockOf (number_of 4294967295 (first_of (codes "block") (rows_of (found_of matches.now)))) power → ⊥) }
{
    match Block::new(small_number(matches, "block", u32::MAX)?) {
        Ok(block) => {
            // A fact for the prover: blocks have at most 4,096 bytes.
            let _power = block.power();
            Some(block)
        }
        Err(_) => None,
    }
}

/// Whether an option's value is this text.
pub(crate) fn has_text(matches: &ArgMatches<'_>, id: &str, text: &str) -> bool
    ensures { result ≡ is_text text.now (first_of id.now (rows_of (found_of matches.now))) }
{
    match value(matches, id) {
        Some(value) => value == text,
        None => false,
    }
}

/// How the threads of a recording go on, as the values of `record` say; None where they say it in two ways, or in none.
fn record_order<'a>(matches: &ArgMatches<'a>) -> Option<RecordOrder<'a>>
    ensures asked { IfSome result (IsOrderAsked (rows_of (found_of matches.now))) }
    ensures none { IfNone result ((order : RecordOrder) → IsOrderAsked (rows_of (found_of matches.now)) order → ⊥) }
{
    let threads = has_text(matches, "threads", "true");
    let random = has_text(matches, "random", "true");
    let times_out = has_text(matches, "timeouts", "now");
    match (value(matches, "schedule"), threads, random) {
        (Some(path), false, false) => Some(RecordOrder::Schedule(path)),
        (None, true, false) => Some(RecordOrder::Threads { times_out }),
        (None, false, true) => Some(RecordOrder::Random { times_out }),
        _ => None,
    }
}

/// What is written of a recording, as the values of `record` say; None where notes are wanted, and no report.
fn record_form(matches: &ArgMatches<'_>) -> Option<RecordForm>
    ensures asked { IfSome result (IsRecordFormAsked (rows_of (found_of matches.now))) }
    ensures none { IfNone result ((form : RecordForm) → IsRecordFormAsked (rows_of (found_of matches.now)) form → ⊥) }
{
    let report = has_text(matches, "report", "true");
    let names = has_text(matches, "names", "true");
    let offsets = has_text(matches, "offsets", "true");
    match (report, names, offsets) {
        (true, _, _) => Some(RecordForm::Report { names, offsets }),
        (false, false, false) => Some(RecordForm::Pieces),
        _ => None,
    }
}

/// How long runs are, how their logs are cut, and when waits time out.
#[derive(Clone, Copy)]
struct Sizes {
    times_out: bool,
    steps: u32,
    size: u32,
    block: Block,
}

/// The sizes that the values of `record` or `hunt` have.
fn sizes_of(matches: &ArgMatches<'_>) -> Wanted<Sizes>
    ensures asked { IfOk result (AreSizesAsked (rows_of (found_of matches.now))) }
    ensures none { OnErr result ((s : Sizes) → AreSizesAsked (rows_of (found_of matches.now)) s → ⊥) }
{
    let Some(steps) = small_number(matches, "steps", MOST_STEPS) else {
        return Err(BAD_STEPS);
    };
    let Some(size) = small_number(matches, "size", u32::MAX) else {
        return Err(BAD_SIZE);
    };
    let Some(block) = block(matches) else {
        return Err(BAD_BLOCK);
    };
    if !has_text(matches, "timeouts", "never") && !has_text(matches, "timeouts", "now") {
        return Err(BAD_TIMEOUTS);
    }
    Ok(Sizes {
        times_out: has_text(matches, "timeouts", "now"),
        steps,
        size,
        block,
    })
}

/// The recording that the values of `record` ask for.
fn recording_of<'a>(matches: &ArgMatches<'a>) -> Wanted<RecordRequest<'a>>
    ensures asked { IfOk result (IsRecordAsked (rows_of (found_of matches.now))) }
    ensures none { OnErr result ((r : RecordRequest) → IsRecordAsked (rows_of (found_of matches.now)) r → ⊥) }
{
    let Some(module) = value(matches, "MODULE") else {
        return Err(MISSING);
    };
    let Some(plan) = value(matches, "PLAN") else {
        return Err(MISSING);
    };
    let Some(order) = record_order(matches) else {
        return Err(BAD_RECORD_ORDER);
    };
    let Some(run) = number(matches, "run", u64::MAX) else {
        return Err(BAD_RUN);
    };
    let sizes = match sizes_of(matches) {
        Ok(sizes) => sizes,
        Err(wrong) => return Err(wrong),
    };
    let Some(form) = record_form(matches) else {
        return Err(BAD_NOTES);
    };
    Ok(RecordRequest {
        module,
        plan,
        order,
        run,
        steps: sizes.steps,
        size: sizes.size,
        block: sizes.block,
        form,
    })
}

/// The texts of an option that may be named any number of times.
fn values<'a>(alloc: Global, matches: &ArgMatches<'a>, id: &str) -> Result<Vec<&'a str>, NoMemory>
    ensures { IfOk result (λ v. map (λ t. t.now) v.items ≡ texts_of id.now (rows_of (found_of matches.now))) }
{
    match matches.get_strs(id) {
        Some(values) => Ok(Vec::from_slice(alloc, values)?),
        None => Ok(Vec::new(alloc)),
    }
}

/// The numbers of the runs of a hunt.
fn range_of_runs(matches: &ArgMatches<'_>) -> Wanted<RunRange>
    ensures asked { IfOk result (λ r. IsRangeOfRuns (rows_of (found_of matches.now)) r.from r.count) }
    ensures none { OnErr result ((from runs : ℕ) → IsRangeOfRuns (rows_of (found_of matches.now)) from runs → ⊥) }
{
    let Some(from) = number(matches, "from", u64::MAX) else {
        return Err(BAD_FIRST);
    };
    let Some(count) = number(matches, "runs", u64::MAX) else {
        return Err(BAD_RUNS);
    };
    if count == 0 {
        return Err(BAD_RUNS);
    }
    match from.checked_add(count) {
        Some(_) => Ok(RunRange { from, count }),
        None => Err(BAD_RANGE),
    }
}

/// How many runs of a hunt are made at once, if that is named; None where it is no number from 1 to 256.
fn jobs(matches: &ArgMatches<'_>) -> Option<Option<u32>>
    ensures asked { IfSome result (IsJobsAsked (first_of (codes "jobs") (rows_of (found_of matches.now)))) }
    ensures none { IfNone result ((jobs : Option ℕ) → IsJobsAsked (first_of (codes "jobs") (rows_of (found_of matches.now))) jobs → ⊥) }
{
    let Some(text) = value(matches, "jobs") else {
        return Some(None);
    };
    match small_number_up_to(text.as_bytes(), 256) {
        None => None,
        Some(0) => None,
        Some(jobs) => Some(Some(jobs)),
    }
}

/// What a hunt writes, and whether it makes a schedule small.
fn hunt_form(matches: &ArgMatches<'_>) -> Wanted<(HuntForm, bool)>
    ensures asked { IfOk result (λ w. IsFormAsked (rows_of (found_of matches.now)) w.0 w.1) }
    ensures none { OnErr result ((form : HuntForm) (shrinks : Bool) → IsFormAsked (rows_of (found_of matches.now)) form shrinks → ⊥) }
{
    let lists = has_text(matches, "list", "true");
    let shrinks = has_text(matches, "shrink", "true");
    let pieces = has_text(matches, "print", "pieces");
    let schedule = has_text(matches, "print", "schedule");
    match (lists, shrinks, pieces, schedule) {
        (true, false, true, _) => Ok((HuntForm::List, false)),
        (true, _, _, _) => Err(BAD_LIST),
        (false, _, true, _) => Ok((HuntForm::Pieces, shrinks)),
        (false, _, false, true) => Ok((HuntForm::Schedule, shrinks)),
        (false, _, false, false) => Err(BAD_PRINT),
    }
}

/// Whether runs are made by threads; None where that is asked for with what goes with numbers alone.
fn by_threads_of(matches: &ArgMatches<'_>) -> Option<bool>
    ensures asked { IfSome result (IsByThreadsAsked (rows_of (found_of matches.now))) }
    ensures none { IfNone result ((by_threads : Bool) → IsByThreadsAsked (rows_of (found_of matches.now)) by_threads → ⊥) }
{
    let threads = has_text(matches, "threads", "true");
    let lists = has_text(matches, "list", "true");
    let shrinks = has_text(matches, "shrink", "true");
    let pieces = has_text(matches, "print", "pieces");
    match (threads, value(matches, "jobs"), lists, shrinks, pieces) {
        (false, _, _, _, _) => Some(false),
        (true, None, false, false, true) => Some(true),
        _ => None,
    }
}

/// The hunt for runs whose reports have these texts that the values of `hunt` ask for.
fn hunt_of<'a>(
    matches: &ArgMatches<'a>,
    until: Vec<&'a str>,
    unless: Vec<&'a str>,
) -> Wanted<HuntRequest<'a>>
    requires until { map (λ t. t.now) until.items ≡ texts_of (codes "until") (rows_of (found_of matches.now)) }
    requires unless { map (λ t. t.now) unless.items ≡ texts_of (codes "unless") (rows_of (found_of matches.now)) }
    ensures asked { IfOk result (IsHuntAsked (rows_of (found_of matches.now))) }
    ensures none { OnErr result ((r : HuntRequest) → IsHuntAsked (rows_of (found_of matches.now)) r → ⊥) }
{
    let Some(module) = value(matches, "MODULE") else {
        return Err(MISSING);
    };
    let Some(plan) = value(matches, "PLAN") else {
        return Err(MISSING);
    };
    if !may_begin_all(&until, &unless) {
        return Err(BAD_TEXT);
    }
    let Some(by_threads) = by_threads_of(matches) else {
        return Err(BAD_THREADS);
    };
    let range = match range_of_runs(matches) {
        Ok(range) => range,
        Err(wrong) => return Err(wrong),
    };
    let Some(jobs) = jobs(matches) else {
        return Err(BAD_JOBS);
    };
    let sizes = match sizes_of(matches) {
        Ok(sizes) => sizes,
        Err(wrong) => return Err(wrong),
    };
    let (form, shrinks) = match hunt_form(matches) {
        Ok(wanted) => wanted,
        Err(wrong) => return Err(wrong),
    };
    Ok(HuntRequest {
        module,
        plan,
        until,
        unless,
        range,
        jobs,
        times_out: sizes.times_out,
        steps: sizes.steps,
        size: sizes.size,
        block: sizes.block,
        by_threads,
        shrinks,
        form,
        quiet: has_text(matches, "quiet", "true"),
    })
}

/// The numbers that an option lists, none where it is not there.
fn number_list(
    alloc: Global,
    matches: &ArgMatches<'_>,
    id: &str,
) -> Result<Option<Vec<u32>>, NoMemory>
    ensures { IfOk result (λ list. option_map (λ l. l.items) list ≡ order_of (first_of id.now (rows_of (found_of matches.now)))) }
{
    match value(matches, id) {
        Some(text) => order_in(alloc, text.as_bytes()),
        None => Ok(Some(Vec::new(alloc))),
    }
}

/// The replay in that order of the files that the values of a command name.
fn replay_in<'a>(matches: &ArgMatches<'a>, order: Vec<u32>) -> Wanted<ReplayRequest<'a>>
    ensures asked { IfOk result (AreFilesAsked (rows_of (found_of matches.now))) }
    ensures order { IfOk result (λ r. r.order ≡ order) }
    ensures none { OnErr result ((r : ReplayRequest) → AreFilesAsked (rows_of (found_of matches.now)) r → ⊥) }
{
    let Some(module) = value(matches, "MODULE") else {
        return Err(MISSING);
    };
    let Some(plan) = value(matches, "PLAN") else {
        return Err(MISSING);
    };
    let Some(pieces) = value(matches, "PIECES") else {
        return Err(MISSING);
    };
    Ok(ReplayRequest {
        module,
        plan,
        pieces,
        order,
    })
}

/// The replay that the values of `replay`, `view`, `trace` or `debug` ask for.
fn replay_of<'a>(
    alloc: Global,
    matches: &ArgMatches<'a>,
) -> Result<Wanted<ReplayRequest<'a>>, NoMemory>
    ensures asked { IfOk result (λ wanted. IfOk wanted (IsReplayAsked (rows_of (found_of matches.now)))) }
    ensures none { IfOk result (λ wanted. OnErr wanted ((r : ReplayRequest) → IsReplayAsked (rows_of (found_of matches.now)) r → ⊥)) }
{
    let Some(order) = number_list(alloc, matches, "order")? else {
        return Ok(Err(BAD_ORDER));
    };
    Ok(replay_in(matches, order))
}

/// Whether threads replay at once, as the values of `replay` say; None where they name an order, too.
fn by_threads(matches: &ArgMatches<'_>) -> Option<bool>
    ensures asked { IfSome result (IsTurnsAsked (rows_of (found_of matches.now))) }
    ensures none { IfNone result ((by_threads : Bool) → IsTurnsAsked (rows_of (found_of matches.now)) by_threads → ⊥) }
{
    let threads = has_text(matches, "threads", "true");
    match value(matches, "order") {
        Some(_) if threads => None,
        _ => Some(threads),
    }
}

/// The report of that replay that the values of `replay` ask for.
fn replaying_of<'a>(
    matches: &ArgMatches<'a>,
    replay: Wanted<ReplayRequest<'a>>,
) -> Wanted<Request<'a>>
    requires asked { IfOk replay (IsReplayAsked (rows_of (found_of matches.now))) }
    requires none { OnErr replay ((r : ReplayRequest) → IsReplayAsked (rows_of (found_of matches.now)) r → ⊥) }
    ensures asked { IfOk result (IsAsked (codes "replay") (rows_of (found_of matches.now))) }
    ensures none { OnErr result ((r : Request) → IsAsked (codes "replay") (rows_of (found_of matches.now)) r → ⊥) }
{
    let replay = replay?;
    let Some(by_threads) = by_threads(matches) else {
        return Err(BAD_TURNS);
    };
    Ok(Request::Replay {
        replay,
        by_threads,
        names: has_text(matches, "names", "true"),
        offsets: has_text(matches, "offsets", "true"),
    })
}

/// The two numbers that an option has, if it is there.
fn pair(matches: &ArgMatches<'_>, id: &str, separator: u8) -> Option<Option<(u32, u32)>>
    ensures { result ≡ pair_of_option separator (first_of id.now (rows_of (found_of matches.now))) }
{
    match value(matches, id) {
        None => Some(None),
        Some(text) => match pair_in(text.as_bytes(), separator) {
            None => None,
            Some(pair) => Some(Some(pair)),
        },
    }
}

/// The count of a thread that an option has, if it is there.
fn thread_count(matches: &ArgMatches<'_>, id: &str) -> Option<Option<ThreadCount>>
    ensures asked { IfSome result (IsCountAsked (first_of id.now (rows_of (found_of matches.now)))) }
    ensures none { IfNone result ((count : Option ThreadCount) → IsCountAsked (first_of id.now (rows_of (found_of matches.now))) count → ⊥) }
{
    match pair(matches, id, b'.')? {
        None => Some(None),
        Some((thread, count)) => Some(Some(ThreadCount { thread, count })),
    }
}

/// The range of bytes that an option has, if it is there.
fn byte_range(matches: &ArgMatches<'_>, id: &str) -> Option<Option<ByteRange>>
    ensures asked { IfSome result (IsRangeAsked (first_of id.now (rows_of (found_of matches.now)))) }
    ensures none { IfNone result ((range : Option ByteRange) → IsRangeAsked (first_of id.now (rows_of (found_of matches.now))) range → ⊥) }
{
    match pair(matches, id, b'+')? {
        None => Some(None),
        Some((from, len)) => Some(Some(ByteRange { from, len })),
    }
}

/// The view of that replay that the values of `view` ask for.
fn view_of<'a>(
    matches: &ArgMatches<'a>,
    replay: Wanted<ReplayRequest<'a>>,
) -> Wanted<ViewRequest<'a>>
    requires asked { IfOk replay (IsReplayAsked (rows_of (found_of matches.now))) }
    requires none { OnErr replay ((r : ReplayRequest) → IsReplayAsked (rows_of (found_of matches.now)) r → ⊥) }
    ensures asked { IfOk result (IsViewAsked (rows_of (found_of matches.now))) }
    ensures none { OnErr result ((v : ViewRequest) → IsViewAsked (rows_of (found_of matches.now)) v → ⊥) }
{
    let replay = replay?;
    let Some(place) = thread_count(matches, "place") else {
        return Err(BAD_PLACE);
    };
    let Some(step) = thread_count(matches, "step") else {
        return Err(BAD_STEP);
    };
    let Some(write) = byte_range(matches, "write") else {
        return Err(BAD_WRITE);
    };
    let Some(from) = small_number(matches, "from", u32::MAX) else {
        return Err(BAD_FROM);
    };
    let Some(len) = small_number(matches, "len", u32::MAX) else {
        return Err(BAD_LEN);
    };
    let range = ByteRange { from, len };
    Ok(ViewRequest {
        replay,
        place,
        step,
        write,
        range,
        names: has_text(matches, "names", "true"),
        offsets: has_text(matches, "offsets", "true"),
    })
}

/// The range of bytes that a text writes.
fn range_in(text: &str) -> Option<ByteRange>
    ensures { option_map (λ r. (r.from, r.len)) result ≡ pair_in 43 text.now }
{
    let (from, len) = pair_in(text.as_bytes(), b'+')?;
    Some(ByteRange { from, len })
}

/// The ranges of bytes that texts write.
fn ranges_in(alloc: Global, texts: &[&str]) -> Result<Option<Vec<ByteRange>>, NoMemory>
    ensures { IfOk result (λ ranges. option_map (λ rs. map (λ r. (r.from, r.len)) rs.items) ranges ≡ ranges_of (map (λ t. t.now) texts.now)) }
{
    let mut ranges = Vec::new(alloc);
    for text in texts {
        let Some(range) = range_in(text) else {
            return Ok(None);
        };
        ranges.push(range)?;
    }
    Ok(Some(ranges))
}

/// The ranges of bytes that an option has, one for each time that it is there.
fn byte_ranges(
    alloc: Global,
    matches: &ArgMatches<'_>,
    id: &str,
) -> Result<Option<Vec<ByteRange>>, NoMemory>
    ensures { IfOk result (λ ranges. option_map (λ rs. map (λ r. (r.from, r.len)) rs.items) ranges ≡ ranges_of (texts_of id.now (rows_of (found_of matches.now)))) }
{
    let texts = values(alloc, matches, id)?;
    ranges_in(alloc, texts.as_slice())
}

/// The trace that the values of `trace` ask for.
fn trace_of<'a>(
    alloc: Global,
    matches: &ArgMatches<'a>,
) -> Result<Wanted<TraceRequest<'a>>, NoMemory>
    ensures asked { IfOk result (λ wanted. IfOk wanted (IsTraceAsked (rows_of (found_of matches.now)))) }
    ensures none { IfOk result (λ wanted. OnErr wanted ((t : TraceRequest) → IsTraceAsked (rows_of (found_of matches.now)) t → ⊥)) }
{
    let replay = match replay_of(alloc, matches)? {
        Ok(replay) => replay,
        Err(wrong) => return Ok(Err(wrong)),
    };
    let Some(only) = number_list(alloc, matches, "only")? else {
        return Ok(Err(BAD_ONLY));
    };
    let Some(bytes) = byte_ranges(alloc, matches, "bytes")? else {
        return Ok(Err(BAD_BYTES));
    };
    let Some(from) = thread_count(matches, "from") else {
        return Ok(Err(BAD_FIRST_EVENT));
    };
    let Some(to) = thread_count(matches, "to") else {
        return Ok(Err(BAD_LAST_EVENT));
    };
    Ok(Ok(TraceRequest {
        replay,
        only,
        bytes,
        from,
        to,
        offsets: has_text(matches, "offsets", "true"),
    }))
}

/// What the values of `gather` say that is listed.
fn form_of(alloc: Global, matches: &ArgMatches<'_>) -> Result<Wanted<GatherForm>, NoMemory>
    ensures asked { IfOk result (λ wanted. IfOk wanted (IsGatherAsked (codes "gather") (rows_of (found_of matches.now)))) }
    ensures none { IfOk result (λ wanted. OnErr wanted ((f : GatherForm) → IsGatherAsked (codes "gather") (rows_of (found_of matches.now)) f → ⊥)) }
{
    let objects = has_text(matches, "objects", "true");
    let contradictions = has_text(matches, "contradictions", "true");
    let shared = has_text(matches, "shared", "true");
    if has_text(matches, "by-object", "true") {
        if objects || contradictions {
            return Ok(Err(BAD_BY_OBJECT));
        }
        return match number_list(alloc, matches, "only")? {
            Some(only) => Ok(Ok(GatherForm::ByObject { only, shared })),
            None => Ok(Err(BAD_OBJECTS)),
        };
    }
    if shared || value(matches, "only").is_some() {
        return Ok(Err(BAD_CHOICE));
    }
    Ok(Ok(GatherForm::ByThread {
        objects,
        contradictions,
    }))
}

/// What the values of `chart` say that is drawn.
fn chart_of(alloc: Global, matches: &ArgMatches<'_>) -> Result<Wanted<GatherForm>, NoMemory>
    ensures asked { IfOk result (λ wanted. IfOk wanted (IsGatherAsked (codes "chart") (rows_of (found_of matches.now)))) }
    ensures none { IfOk result (λ wanted. OnErr wanted ((f : GatherForm) → IsGatherAsked (codes "chart") (rows_of (found_of matches.now)) f → ⊥)) }
{
    let Some(only) = number_list(alloc, matches, "only")? else {
        return Ok(Err(BAD_OBJECTS));
    };
    let Some(from) = thread_count(matches, "from") else {
        return Ok(Err(BAD_FIRST_EVENT));
    };
    let Some(to) = thread_count(matches, "to") else {
        return Ok(Err(BAD_LAST_EVENT));
    };
    Ok(Ok(GatherForm::Chart { only, from, to }))
}

/// A log in that form, past lines that cannot be joined where the values ask for it.
fn gather_of<'a>(matches: &ArgMatches<'_>, form: GatherForm) -> Request<'a>
    ensures { result ≡ requests.Gather (has_flag (codes "skip") (rows_of (found_of matches.now))) form }
{
    let skips = has_text(matches, "skip", "true");
    Request::Gather { skips, form }
}

/// What a command of that name with these values asks for.
pub(crate) fn request_of<'a>(
    alloc: Global,
    name: &str,
    matches: &ArgMatches<'a>,
) -> Result<Wanted<Request<'a>>, NoMemory>
    ensures asked { IfOk result (λ wanted. IfOk wanted (IsAsked name.now (rows_of (found_of matches.now)))) }
    ensures none { IfOk result (λ wanted. OnErr wanted ((r : Request) → IsAsked name.now (rows_of (found_of matches.now)) r → ⊥)) }
{
    match name {
        "gather" => match form_of(alloc, matches)? {
            Ok(form) => Ok(Ok(gather_of(matches, form))),
            Err(wrong) => Ok(Err(wrong)),
        },
        "check" => match value(matches, "MODULE") {
            Some(module) => {
                let plan = value(matches, "threads");
                Ok(Ok(Request::Check { module, plan }))
            }
            None => Ok(Err(MISSING)),
        },
        "record" => match recording_of(matches) {
            Ok(recording) => Ok(Ok(Request::Record(recording))),
            Err(wrong) => Ok(Err(wrong)),
        },
        "hunt" => {
            let until = values(alloc, matches, "until")?;
            let unless = values(alloc, matches, "unless")?;
            match hunt_of(matches, until, unless) {
                Ok(hunt) => Ok(Ok(Request::Hunt(hunt))),
                Err(wrong) => Ok(Err(wrong)),
            }
        }
        "replay" => Ok(replaying_of(matches, replay_of(alloc, matches)?)),
        "view" => match view_of(matches, replay_of(alloc, matches)?) {
            Ok(view) => Ok(Ok(Request::View(view))),
            Err(wrong) => Ok(Err(wrong)),
        },
        "trace" => match trace_of(alloc, matches)? {
            Ok(trace) => Ok(Ok(Request::Trace(trace))),
            Err(wrong) => Ok(Err(wrong)),
        },
        "debug" => match replay_of(alloc, matches)? {
            Ok(replay) => Ok(Ok(Request::Debug(replay))),
            Err(wrong) => Ok(Err(wrong)),
        },
        "dap" => Ok(Ok(Request::Adapter)),
        "chart" => match chart_of(alloc, matches)? {
            Ok(form) => Ok(Ok(gather_of(matches, form))),
            Err(wrong) => Ok(Err(wrong)),
        },
        _ => Ok(Err(NO_COMMAND)),
    }
}
