//! Small modules in hex, and how their threads run: what they ask for, and how they stand in the end.

ghost use Rattle.std.specs.Prelude.{◌≡◌, IfOk};
ghost use Rattle.wasm_world.specs.ThreadCode.{thread_code};
ghost use Rattle.wasm_world.specs.Plans.{IsPlanOf};

use crate::checks::compare;
use crate::growths::{Refused, grow};
use crate::modules::valid;
use event_core::outcome_of;
use rw_objects::{Machine, Next};
use std::alloc::Global;
use std::process::Abort;
use std::test::Fail;
use validator::Valid;
use wasm_types::{MOST_STEPS, NoMemory, Op, Profile, Reply, Trap, Value};
use wasm_world::{Plan, ThreadState};

/// The last thread of a plan over a module, whose parts are in hex. Function 0 is exported as `f`.
#[derive(Clone, Copy)]
pub(crate) struct Case<'a> {
    /// The import section, or nothing.
    pub imports: &'a str,
    /// The memory section, or nothing.
    pub memory: &'a str,
    /// The type's index of each function, in two digits.
    pub functions: &'a str,
    /// The start section and the element section, or nothing.
    pub segments: &'a str,
    /// Each function's locals, and its instructions with the last `end`; between functions there is a `/`.
    pub bodies: &'a str,
    /// The lines of the plan behind its first, with `, ` between them.
    pub lines: &'a str,
}

/// How a thread is run.
#[derive(Clone, Copy)]
pub(crate) enum Way<'a> {
    /// With these replies, between which there is `, `, and with local steps one by one, or in runs of at most so many.
    Replies(&'a str, Option<u32>),
    /// In runs of at most so many local steps, and a store behind a run of none.
    Runs(&'a [u32]),
    /// With what is done again where memory was wanted.
    Refused(Refused),
}

/// A shared memory of one page and at most two.
pub(crate) const SHARED: &str = "05 04 01 03 01 02";

/// The preamble, and the types: of nothing an i32, of nothing an i64, of nothing nothing, of an i32 an i32, of an i32
/// and an i64 an i64, of two i32 an i32, and once more of an i32 an i32.
const HEAD: &str = "00 61 73 6d 01 00 00 00 \
    01 22 07 60 00 01 7f 60 00 01 7e 60 00 00 60 01 7f 01 7f 60 02 7f 7e 01 7e 60 02 7f 7f 01 7f \
    60 01 7f 01 7f";

/// A table of four elements.
const TABLE: &str = "04 04 01 70 00 04";

/// A mutable i32 of 7 and an i64 of -1, and the export.
const GLOBALS: &str = "06 0b 02 7f 01 41 07 0b 7e 00 42 7f 0b 07 05 01 01 66 00 00";

/// Writes a content behind its size in bytes, which is written as two bytes.
fn put_sized(alloc: Global, text: &mut String, content: &str) -> Result<(), Fail> {
    let mut digits = 0usize;
    for part in content.split(' ') {
        digits = digits.saturating_add(part.len());
    }
    let size = digits / 2;
    let bytes = [(size % 128 + 128) as u8, (size / 128 % 128) as u8];
    text.push_str(hex::encode(alloc, &bytes)?.as_str())?;
    text.push_str(content)?;
    Ok(())
}

/// The code section's content: how many bodies there are, and each behind its size.
fn code_of(alloc: Global, count: usize, bodies: &str) -> Result<String, Fail> {
    let mut code = format!(in alloc; "{count:02x}")?;
    for body in bodies.split('/') {
        put_sized(alloc, &mut code, body)?;
    }
    Ok(code)
}

/// Writes the code section's content behind its size.
fn put_code(alloc: Global, text: &mut String, count: usize, bodies: &str) -> Result<(), Fail> {
    let code = code_of(alloc, count, bodies)?;
    put_sized(alloc, text, code.as_str())
}

/// The digits of a module.
fn digits_of(alloc: Global, case: &Case<'_>) -> Result<String, Fail> {
    let Case {
        imports,
        memory,
        functions,
        segments,
        bodies,
        ..
    } = *case;
    let count = functions.len() / 2;
    let size = count.saturating_add(1);
    let mut text = format!(in alloc;
        "{HEAD}{imports}03{size:02x}{count:02x}{functions}{TABLE}{memory}{GLOBALS}{segments}0a"
    )?;
    put_code(alloc, &mut text, count, bodies)?;
    Ok(text)
}

/// The module.
fn module_of(alloc: Global, case: &Case<'_>) -> Result<Valid, Fail> {
    let digits = digits_of(alloc, case)?;
    valid(alloc, digits.as_str())
}

/// The text of a plan with these lines behind its first.
fn text_of_plan(alloc: Global, lines: &str) -> Result<String, Fail> {
    let mut text = format!(in alloc; "wreplay plan 1")?;
    for line in lines.split(", ") {
        write!(text, "\n{line}")?;
    }
    Ok(text)
}

/// The plan with these lines behind its first.
fn plan_of(alloc: Global, valid: &Valid, lines: &str) -> Result<Plan, Fail>
    ensures { IfOk result (λ plan. IsPlanOf valid.now plan) }
{
    let text = text_of_plan(alloc, lines)?;
    Ok(Plan::read(alloc, text.as_bytes(), valid)?)
}

/// The last thread of a plan. Where memory is wanted for it, it is made again.
fn open_last<'a>(
    alloc: Global,
    valid: &'a Valid,
    plan: &Plan,
    profile: &Profile,
) -> Result<ThreadState<'a>, Fail>
    requires { IsPlanOf valid.now plan.now }
{
    let Some(last) = plan.threads().checked_sub(1) else {
        return Err(Fail::new("no thread"));
    };
    if let Ok(state) = ThreadState::new(alloc, valid, plan, last, *profile) {
        return Ok(state);
    }
    Ok(ThreadState::new(alloc, valid, plan, last, *profile)?)
}

/// The same of the plan with these lines behind its first.
fn open<'a>(
    alloc: Global,
    valid: &'a Valid,
    lines: &str,
    profile: &Profile,
) -> Result<ThreadState<'a>, Fail> {
    let plan = plan_of(alloc, valid, lines)?;
    open_last(alloc, valid, &plan, profile)
}

/// Notes what a thread asks for.
fn note(text: &mut String, next: &Next<Op>) -> Result<(), Fail> {
    match next {
        Next::Ask(op) => write!(text, "{:?}; ", op.action)?,
        Next::Asleep { resume, out } => {
            let out = out.map(|op| op.action);
            write!(text, "{:?} {out:?}; ", resume.action)?;
        }
        Next::Local | Next::Halted(_) => {}
    }
    Ok(())
}

/// Makes the next step, where there is one and a reply for it, and says whether it did. A thread at the greatest number
/// of steps makes none.
pub(crate) fn advance(
    state: &mut ThreadState<'_>,
    next: Next<Op>,
    reply: Option<Reply>,
) -> Result<bool, NoMemory>
    requires { next ≡ thread_code.next state.old.thread }
{
    if state.steps() >= MOST_STEPS {
        return Ok(false);
    }
    match (next, reply) {
        (Next::Local, _) => state.local()?,
        (Next::Ask(_) | Next::Asleep { .. }, Some(reply)) => state.take(reply)?,
        _ => return Ok(false),
    }
    Ok(true)
}

/// The reply with this name.
fn reply_of(name: &str) -> Option<Reply> {
    match name.split_once(' ') {
        Some(("i32", value)) => Some(Reply::Value(Value::I32(value.parse().ok()?))),
        Some(("i64", value)) => Some(Reply::Value(Value::I64(value.parse().ok()?))),
        _ => match name {
            "stored" => Some(Reply::Stored),
            "sleeps" => Some(Reply::Sleeps),
            "trap" => Some(Reply::Trap(Trap::OutOfBounds)),
            _ => None,
        },
    }
}

/// Runs a thread with these replies, and writes what it asks for. Local steps are made in runs where `run` says of how
/// many.
fn play(
    text: &mut String,
    state: &mut ThreadState<'_>,
    replies: &str,
    run: Option<u32>,
) -> Result<(), Fail> {
    let mut names = replies.split(", ");
    for _ in 0..100_000u32 {
        if let Some(most) = run {
            state.local_run(most)?;
        }
        let next = state.next();
        note(text, &next)?;
        let reply = match next {
            Next::Ask(_) | Next::Asleep { .. } => names.next().and_then(reply_of),
            Next::Local | Next::Halted(_) => None,
        };
        if !advance(state, next, reply)? {
            break;
        }
    }
    Ok(())
}

/// Runs a thread in runs of local steps, and writes how many steps each made, and how many there then are. Behind a run
/// of none the thread may ask for a store, which it then gets.
fn run_locally(text: &mut String, state: &mut ThreadState<'_>, mosts: &[u32]) -> Result<(), Fail> {
    for most in mosts {
        let made = state.local_run(*most)?;
        write!(text, "{made} of {}, ", state.steps())?;
        let next = state.next();
        if let (0, Next::Ask(_)) = (made, next) {
            advance(state, next, Some(Reply::Stored))?;
        }
    }
    Ok(())
}

/// Runs a thread, and writes how many steps it made, and how it stands in the end.
fn go(text: &mut String, state: &mut ThreadState<'_>, way: Way<'_>) -> Result<(), Fail> {
    match way {
        Way::Replies(replies, run) => play(text, state, replies, run)?,
        Way::Runs(mosts) => run_locally(text, state, mosts)?,
        Way::Refused(refused) => grow(state, refused)?,
    }
    let outcome = outcome_of(state.next());
    write!(text, "{} steps, {outcome}", state.steps())?;
    Ok(())
}

/// The same with the thread of a case over its module. It alone owns a thread, and the next one a module: who owns one
/// and may return early takes long to prove.
fn go_in(
    alloc: Global,
    text: &mut String,
    valid: &Valid,
    lines: &str,
    profile: &Profile,
    way: Way<'_>,
) -> Result<(), Fail> {
    let mut state = open(alloc, valid, lines, profile)?;
    go(text, &mut state, way)
}

/// The same with its module.
fn go_over(
    alloc: Global,
    text: &mut String,
    case: &Case<'_>,
    profile: &Profile,
    way: Way<'_>,
) -> Result<(), Fail> {
    let valid = module_of(alloc, case)?;
    go_in(alloc, text, &valid, case.lines, profile, way)
}

/// Runs the thread of a case, and compares what is written with what is wanted.
pub(crate) fn check(
    rt: &impl Abort,
    alloc: Global,
    case: &Case<'_>,
    profile: &Profile,
    way: Way<'_>,
    want: &str,
) -> Result<(), Fail> {
    let mut text = String::new(alloc);
    go_over(alloc, &mut text, case, profile, way)?;
    let found = (case.lines, text.as_str());
    compare(rt, &found, &(case.lines, want), case.bodies);
    Ok(())
}

/// Runs the case of a row step by step and in runs, and compares what is written. A row has the types, the bodies, the
/// replies or `-`, and what is wanted; and, where they are others than these, the plan's lines `thread f`, the start
/// and element sections of nothing, the memory section `SHARED` and the import section of nothing. Between them there
/// is ` | `.
fn stand_row(rt: &impl Abort, alloc: Global, profile: &Profile, row: &str) -> Result<(), Fail> {
    let mut fields = row.split(" | ");
    let (Some(functions), Some(bodies), Some(replies), Some(want)) = (
        fields.next(),
        fields.next(),
        fields.next(),
        fields.next(),
    ) else {
        return Err(Fail::new("a row of too few fields"));
    };
    let case = Case {
        functions,
        bodies,
        lines: fields.next().unwrap_or("thread f"),
        segments: fields.next().unwrap_or(""),
        memory: fields.next().unwrap_or(SHARED),
        imports: fields.next().unwrap_or(""),
    };
    for run in [None, Some(5), Some(u32::MAX)] {
        check(rt, alloc, &case, profile, Way::Replies(replies, run), want)?;
    }
    Ok(())
}

/// The same of each row of a table, in which `#` begins a comment.
pub(crate) fn stand(
    rt: &impl Abort,
    alloc: Global,
    profile: &Profile,
    table: &str,
) -> Result<(), Fail> {
    for row in table.lines() {
        if !row.starts_with('#') {
            stand_row(rt, alloc, profile, row)?;
        }
    }
    Ok(())
}
