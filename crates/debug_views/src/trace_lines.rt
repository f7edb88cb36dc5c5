//! Lines of a trace, behind where they stand in the code.

ghost use Rattle.std.specs.Prelude.{◌≡◌, ◌+◌, ◌≤◌, ◌∷◌, ◌++◌, OnOk, Some, codes, length, string_bytes};
ghost use Rattle.std.specs.Fmt.{decimal};
ghost use Rattle.arrayvec.specs.ArrayString.{array_string_len};
ghost use Rattle.wasm_types.specs.Accesses.{access_width, load_width, type_width};
ghost use Rattle.wasm_types.specs.Text.{outcome_text};
ghost use Rattle.wasm_types.specs.Widths.{width_of};
ghost use Rattle.block_objects.specs.SharedMemory.{shared_memory};
ghost use Rattle.event_core.specs.World.{world_of};
ghost use Rattle.debug_views.specs.Trace.{measured, number_if, outcome_in};
ghost use Rattle.debug_views.specs.Values.{memory_bytes};
ghost use Rattle.debug_views.specs.TraceLines.{width_text, found_text, changed_text, unlike_text, access_text, rmw_word, action_text, stopped_text, done_text};

use crate::numbers::{Line, push_line, put_number, put_value};
use crate::trace_seen::{Seen, number_in, pages_in};
use event_core::World;
use integer_machine::ThreadState;
use std::fmt::Write;
use wasm_types::{Access, Action, Load, NoMemory, Outcome, RmwOp, Width};
use wasm_world::SharedSpace;

/// Puts the integer that fills a width behind a line.
#[inline(always)]
fn put_width(line: &mut Line, width: Width)
    requires { array_string_len line.old + 4 ≤ 1024 }
    ensures text { line.new.bytes ≡ line.old.bytes ++ (32 ∷ width_text (width_of width)) }
    ensures short { array_string_len line.new ≤ array_string_len line.old + 4 }
{
    match width {
        Width::One => line.push_str(" i8"),
        Width::Two => line.push_str(" i16"),
        Width::Four => line.push_str(" i32"),
        Width::Eight => line.push_str(" i64"),
    }
}

/// The word of a read-modify-write.
fn rmw_word(op: RmwOp) -> &'static str
    ensures word { result.now ≡ rmw_word op }
    ensures short { length result.now ≤ 4 }
{
    match op {
        RmwOp::Add => "add",
        RmwOp::Subtract => "sub",
        RmwOp::And => "and",
        RmwOp::Or => "or",
        RmwOp::Xor => "xor",
        RmwOp::Exchange => "xchg",
    }
}

/// Puts what was found behind a line.
#[inline(always)]
fn put_found(line: &mut Line, found: Option<u64>)
    requires { array_string_len line.old + 21 ≤ 1024 }
    ensures text { line.new.bytes ≡ line.old.bytes ++ found_text found }
    ensures short { array_string_len line.new ≤ array_string_len line.old + 21 }
{
    if let Some(number) = found {
        line.push_str(" ");
        put_value(line, number);
    }
}

/// Puts what was found, and what was left, behind a line.
#[inline(always)]
fn put_changed(line: &mut Line, found: Option<u64>, left: Option<u64>)
    requires { array_string_len line.old + 45 ≤ 1024 }
    ensures text { line.new.bytes ≡ line.old.bytes ++ changed_text found left }
    ensures short { array_string_len line.new ≤ array_string_len line.old + 45 }
{
    put_found(line, found);
    if let Some(number) = left {
        line.push_str(" -> ");
        put_value(line, number);
    }
}

/// Puts the number that was looked for, where another was found, behind a line.
fn put_unlike(line: &mut Line, found: Option<u64>, expected: u64)
    requires { array_string_len line.old + 25 ≤ 1024 }
    ensures text { line.new.bytes ≡ line.old.bytes ++ unlike_text found expected }
    ensures short { array_string_len line.new ≤ array_string_len line.old + 25 }
{
    if let Some(number) = found {
        if number != expected {
            line.push_str(" not ");
            put_value(line, expected);
        }
    }
}

/// Puts an access at an address behind a line.
#[inline(always)]
fn put_access(line: &mut Line, word: &str, address: u32, width: Width)
    requires room { array_string_len line.old + 34 ≤ 1024 }
    requires word { length word.now ≤ 9 }
    ensures text { line.new.bytes ≡ line.old.bytes ++ access_text word.now address (width_of width) }
    ensures short { array_string_len line.new ≤ array_string_len line.old + 34 }
{
    line.push_str(word);
    line.push_str(" ");
    put_number(line, u64::from(address));
    put_width(line, width);
}

/// Puts a wake of waiters at an address behind a line.
fn put_notify(line: &mut Line, address: u32, count: u32)
    requires { array_string_len line.old + 48 ≤ 1024 }
    ensures text { line.new.bytes ≡ line.old.bytes ++ (codes "notify " ++ (decimal address ++ (32 ∷ decimal count))) }
    ensures short { array_string_len line.new ≤ array_string_len line.old + 48 }
{
    line.push_str("notify ");
    put_number(line, u64::from(address));
    line.push_str(" ");
    put_number(line, u64::from(count));
}

/// Puts a word and a number behind a line.
fn put_numbered(line: &mut Line, word: &str, number: u32)
    requires room { array_string_len line.old + 30 ≤ 1024 }
    requires word { length word.now ≤ 10 }
    ensures text { line.new.bytes ≡ line.old.bytes ++ (word.now ++ decimal number) }
    ensures short { array_string_len line.new ≤ array_string_len line.old + 30 }
{
    line.push_str(word);
    put_number(line, u64::from(number));
}

/// Puts a load behind a line.
#[inline(always)]
fn put_load(line: &mut Line, load: Load, address: u32, found: Option<u64>)
    requires { array_string_len line.old + 104 ≤ 1024 }
    ensures text { line.new.bytes ≡ line.old.bytes ++ (access_text (codes "load") address (load_width load) ++ found_text found) }
    ensures short { array_string_len line.new ≤ array_string_len line.old + 104 }
{
    put_access(line, "load", address, load.width());
    put_found(line, found);
}

/// Puts an access that may change the number at its address behind a line.
#[inline(always)]
fn put_change(
    line: &mut Line,
    word: &str,
    address: u32,
    access: Access,
    found: Option<u64>,
    world: &World<ThreadState<'_>, SharedSpace>,
)
    requires room { array_string_len line.old + 79 ≤ 1024 }
    requires word { length word.now ≤ 9 }
    ensures text { line.new.bytes ≡ line.old.bytes ++ (access_text word.now address (access_width access) ++ changed_text found (number_if (access_width access) address (memory_bytes shared_memory (world_of world.now)))) }
    ensures short { array_string_len line.new ≤ array_string_len line.old + 79 }
{
    put_access(line, word, address, access.width());
    put_changed(line, found, number_in(world, access, address));
}

/// Puts a compare-exchange behind a line.
fn put_exchange(
    line: &mut Line,
    address: u32,
    access: Access,
    expected: u64,
    found: Option<u64>,
    world: &World<ThreadState<'_>, SharedSpace>,
)
    requires { array_string_len line.old + 104 ≤ 1024 }
    ensures text { line.new.bytes ≡ line.old.bytes ++ (access_text (codes "cmpxchg") address (access_width access) ++ (changed_text found (number_if (access_width access) address (memory_bytes shared_memory (world_of world.now))) ++ unlike_text found expected)) }
    ensures short { array_string_len line.new ≤ array_string_len line.old + 104 }
{
    put_change(line, "cmpxchg", address, access, found, world);
    put_unlike(line, found, expected);
}

/// Puts `memory.size` behind a line.
fn put_size(line: &mut Line, found: Option<u64>)
    requires { array_string_len line.old + 104 ≤ 1024 }
    ensures text { line.new.bytes ≡ line.old.bytes ++ (codes "size" ++ found_text found) }
    ensures short { array_string_len line.new ≤ array_string_len line.old + 104 }
{
    line.push_str("size");
    put_found(line, found);
}

/// Puts `memory.grow` behind a line. These pages are there behind it.
fn put_grow(line: &mut Line, pages: u32, found: Option<u64>, left: u32)
    requires { array_string_len line.old + 104 ≤ 1024 }
    ensures text { line.new.bytes ≡ line.old.bytes ++ (codes "grow " ++ (decimal pages ++ changed_text found (Some left))) }
    ensures short { array_string_len line.new ≤ array_string_len line.old + 104 }
{
    put_numbered(line, "grow ", pages);
    put_changed(line, found, Some(u64::from(left)));
}

/// Puts a wait behind a line.
fn put_wait(line: &mut Line, address: u32, width: Width, expected: u64, found: Option<u64>)
    requires { array_string_len line.old + 104 ≤ 1024 }
    ensures text { line.new.bytes ≡ line.old.bytes ++ (access_text (codes "wait") address (width_of width) ++ (found_text found ++ unlike_text found expected)) }
    ensures short { array_string_len line.new ≤ array_string_len line.old + 104 }
{
    put_access(line, "wait", address, width);
    put_found(line, found);
    put_unlike(line, found, expected);
}

/// Puts what an action did, by what was found before it and the world behind it, behind a line.
#[inline(always)]
fn put_action(line: &mut Line, seen: &Seen, world: &World<ThreadState<'_>, SharedSpace>)
    requires { array_string_len line.old + 104 ≤ 1024 }
    ensures text { line.new.bytes ≡ line.old.bytes ++ action_text seen.now.action seen.now.found (measured seen.now.action (world_of world.now)) }
    ensures short { array_string_len line.new ≤ array_string_len line.old + 104 }
{
    let found = seen.found;
    match seen.action {
        Action::Load { load, address } => put_load(line, load, address, found),
        Action::Store {
            access,
            address,
            ..
        } => put_change(line, "store", address, access, found, world),
        Action::Rmw {
            op,
            access,
            address,
            ..
        } => put_change(line, rmw_word(op), address, access, found, world),
        Action::CompareExchange {
            access,
            address,
            expected,
            ..
        } => put_exchange(line, address, access, expected, found, world),
        Action::Size => put_size(line, found),
        Action::Grow { pages } => put_grow(line, pages, found, pages_in(world)),
        Action::Wait {
            width,
            address,
            expected,
            ..
        } => put_wait(line, address, width.width(), expected, found),
        Action::Notify { address, count } => put_notify(line, address, count),
        Action::Resume { address, .. } => put_numbered(line, "woken ", address),
        Action::TimeOut { address, .. } => put_numbered(line, "timed out ", address),
    }
}

/// Puts how a thread stands that does not run behind a line that stands behind a text.
fn put_outcome(text: &mut String, line: &mut Line, outcome: Outcome) -> Result<(), NoMemory>
    ensures text { OnOk result (string_bytes text.new ++ line.new.bytes ≡ (string_bytes text.old ++ line.old.bytes) ++ (32 ∷ outcome_text outcome)) }
    ensures short { OnOk result (array_string_len line.new ≤ array_string_len line.old) }
{
    push_line(text, line)?;
    write!(text, " {outcome}")?;
    Ok(())
}

/// Puts how a thread stands in a world, unless it runs, behind a line that stands behind a text.
#[inline(always)]
fn put_stopped(
    text: &mut String,
    line: &mut Line,
    world: &World<ThreadState<'_>, SharedSpace>,
    thread: u32,
) -> Result<(), NoMemory>
    ensures text { OnOk result (string_bytes text.new ++ line.new.bytes ≡ (string_bytes text.old ++ line.old.bytes) ++ stopped_text (outcome_in (world_of world.now) thread)) }
    ensures short { OnOk result (array_string_len line.new ≤ array_string_len line.old) }
{
    let Some(machine) = world.machine(thread) else {
        return Ok(());
    };
    match machine.outcome() {
        Outcome::Running => Ok(()),
        outcome => put_outcome(text, line, outcome),
    }
}

/// Puts what an event did, and how its thread stands behind it, behind a line that stands behind a text, and ends the
/// line.
#[inline(always)]
pub(crate) fn put_done(
    text: &mut String,
    line: &mut Line,
    seen: &Seen,
    world: &World<ThreadState<'_>, SharedSpace>,
    thread: u32,
) -> Result<(), NoMemory>
    requires { array_string_len line.old + 105 ≤ 1024 }
    ensures { OnOk result (string_bytes text.new ++ line.new.bytes ≡ (string_bytes text.old ++ line.old.bytes) ++ done_text seen.now.action seen.now.found (measured seen.now.action (world_of world.now)) (outcome_in (world_of world.now) thread)) }
{
    put_action(line, seen, world);
    put_stopped(text, line, world, thread)?;
    line.push_str("\n");
    Ok(())
}
