//! What an operation decides by what it saw.

ghost use Rattle.std.specs.Prelude.{◌≡◌, ℕ, ◌+◌, ◌%◌, ◌<◌, ◌≤◌, ◌==◌, cond, true, false, None, Some, Option, unwrap_or, [], ◌∷◌, List, length, take, min, slice_index};
ghost use Rattle.wasm_types.specs.declared.operation.Action.TheVariants as act;
ghost use Rattle.std.specs.Prelude.{option_map};
ghost use Rattle.std.specs.Int.{byte_len};
ghost use Rattle.wasm_types.specs.declared.instruction.Load.TheVariants as load;
ghost use Rattle.wasm_types.specs.Accesses.{type_width};
ghost use Rattle.block_objects.specs.Access.{is_within};
ghost use Rattle.block_objects.specs.Effects.{out_of_bounds, i32_reply, grow_reply, grown, wait_reply};
ghost use Rattle.memory_parts.specs.declared.seen.Seen.{Seen};
ghost use Rattle.memory_parts.specs.declared.seen.Seen.TheVariants as see;
ghost use Rattle.memory_parts.specs.SharedCut.{pages_in, capacity_in, threads_in, holds_in, bytes_in, plain, access_decided, wait_decided, action_decision};

use block_objects::{access_number, access_value, ends_within, load_value, modify, type_number};
use memory_parts::{Decision, Seen};
use std::slice;
use wasm_types::{Access, Action, Extent, Load, Op, Reply, RmwOp, Trap, ValType, Value};

/// The length and the capacity, where they were seen.
fn pages_of(seen: &Seen) -> Option<(u32, u32)>
    ensures pages { (initial : ℕ) (rest : List Seen) → pages_in initial (seen.now ∷ rest) ≡ unwrap_or (option_map (λ p. p.0) result) (pages_in initial rest) }
    ensures capacity { (rest : List Seen) → capacity_in (seen.now ∷ rest) ≡ unwrap_or (option_map (λ p. p.1) result) (capacity_in rest) }
{
    match *seen {
        Seen::Pages { pages, capacity } => Some((pages, capacity)),
        _ => None,
    }
}

/// The length in pages and the capacity that were seen, or `unseen` and 0.
fn pages_in(unseen: u32, seen: &[Seen]) -> (u32, u32)
    ensures pages { result.0 ≡ pages_in unseen seen.now }
    ensures capacity { result.1 ≡ capacity_in seen.now }
{
    for one in seen {
        if let Some(found) = pages_of(one) {
            return found;
        }
    }
    (unseen, 0)
}

/// How many threads a notify wakes, where that was seen.
fn threads_of(seen: &Seen) -> Option<u32>
    ensures { (rest : List Seen) → threads_in (seen.now ∷ rest) ≡ unwrap_or result (threads_in rest) }
{
    match *seen {
        Seen::Threads(threads) => Some(threads),
        _ => None,
    }
}

/// How many threads a notify wakes, by what was seen.
fn threads_in(seen: &[Seen]) -> u32
    ensures { result ≡ threads_in seen.now }
{
    for one in seen {
        if let Some(threads) = threads_of(one) {
            return threads;
        }
    }
    0
}

/// Whether the thread was woken, or waits, where that was seen.
fn holds_of(seen: &Seen) -> Option<bool>
    ensures { (rest : List Seen) → holds_in (seen.now ∷ rest) ≡ unwrap_or result (holds_in rest) }
{
    match *seen {
        Seen::Holds(holds) => Some(holds),
        _ => None,
    }
}

/// Whether the thread was woken, or waits, by what was seen.
fn holds_in(seen: &[Seen]) -> bool
    ensures { result ≡ holds_in seen.now }
{
    for one in seen {
        if let Some(holds) = holds_of(one) {
            return holds;
        }
    }
    false
}

/// The first of eight bytes, at most so many.
fn first_bytes(bytes: &[u8; 8], len: u32) -> &[u8]
    ensures bytes { result.now ≡ take len bytes.now }
    ensures few { length result.now ≤ 8 }
{
    &bytes[..(len as usize).min(8)]
}

/// The bytes that were seen of a block.
fn part_of(seen: &Seen) -> &[u8]
    ensures bytes { result.now ≡ bytes_in (seen.now ∷ []) }
    ensures few { length result.now ≤ 8 }
{
    match seen {
        Seen::Part { bytes, len } => first_bytes(bytes, *len),
        _ => &[],
    }
}

/// Puts bytes behind the first `count`, as far as there is room, and answers how many there are then.
fn append(bytes: &mut [u8; 8], count: usize, part: &[u8]) -> usize
    requires { count ≤ 8 }
    ensures count { result ≡ min (count + length part.now) 8 }
    ensures before { (k : ℕ) → k < count → slice_index bytes.new k ≡ slice_index bytes.old k }
    ensures part { (k : ℕ) → k < length part.now → count + k < 8 → slice_index bytes.new (count + k) ≡ slice_index part.now k }
    ensures behind { (k : ℕ) → result ≤ k → slice_index bytes.new k ≡ slice_index bytes.old k }
{
    let end = (count + part.len()).min(8);
    bytes[count..end].copy_from_slice(&part[..end - count]);
    end
}

/// The first of eight bytes, at most so many, and zeros behind them.
fn front_of(bytes: &[u8; 8], len: u32) -> [u8; 8]
    ensures { (k : ℕ) → k < 8 → slice_index result k ≡ slice_index (take len bytes.now) k }
{
    match len {
        1 => [bytes[0], 0, 0, 0, 0, 0, 0, 0],
        2 => [bytes[0], bytes[1], 0, 0, 0, 0, 0, 0],
        4 => [bytes[0], bytes[1], bytes[2], bytes[3], 0, 0, 0, 0],
        8 => *bytes,
        _ => {
            let mut front = [0; 8];
            append(&mut front, 0, first_bytes(bytes, len));
            front
        }
    }
}

/// The bytes that were seen of the one block of an access, and zeros behind them.
fn bytes_of(seen: &Seen) -> [u8; 8]
    ensures { (k : ℕ) → k < 8 → slice_index result k ≡ slice_index (bytes_in (seen.now ∷ [])) k }
{
    match seen {
        Seen::Part { bytes, len } => front_of(bytes, *len),
        _ => [0; 8],
    }
}

/// The first eight bytes that were seen of the blocks of an access, and zeros behind them.
fn bytes_in(seen: &[Seen]) -> [u8; 8]
    ensures { (k : ℕ) → k < 8 → slice_index result k ≡ slice_index (bytes_in seen.now) k }
{
    if let [one] = seen {
        return bytes_of(one);
    }
    let mut bytes = [0; 8];
    let mut count = 0;
    for one in seen {
        count = append(&mut bytes, count, part_of(one));
    }
    bytes
}

/// An access that answers and stores this, or traps.
fn decide_access(within: bool, reply: Reply, stored: Option<u64>) -> Decision
    ensures { result ≡ access_decided within (λ n. reply) (λ n. stored) 0 }
{
    if within {
        Decision {
            ready: true,
            reply,
            stored,
            pages: 0,
            queues: false,
        }
    } else {
        Decision {
            ready: true,
            reply: Reply::Trap(Trap::OutOfBounds),
            stored: None,
            pages: 0,
            queues: false,
        }
    }
}

/// Whether an access of so many bytes ends within the length.
fn is_within(extent: &Extent, address: u32, len: u32, seen: &[Seen]) -> bool
    ensures { result ≡ is_within (pages_in extent.now.initial seen.now) address len }
{
    ends_within(pages_in(extent.initial, seen).0, address, len)
}

fn decide_load(extent: &Extent, load: Load, address: u32, seen: &[Seen]) -> Decision
    ensures { result ≡ action_decision extent.now (act.Load load address) seen.now }
{
    let within = is_within(extent, address, load.width().bytes(), seen);
    let value = load_value(&bytes_in(seen), load, 0);
    decide_access(within, Reply::Value(value), None)
}

fn decide_store(
    extent: &Extent,
    access: Access,
    address: u32,
    operand: u64,
    seen: &[Seen],
) -> Decision
    ensures { result ≡ action_decision extent.now (act.Store access address operand) seen.now }
{
    let within = is_within(extent, address, access.width().bytes(), seen);
    decide_access(within, Reply::Stored, Some(operand))
}

fn decide_rmw(
    extent: &Extent,
    op: RmwOp,
    access: Access,
    address: u32,
    operand: u64,
    seen: &[Seen],
) -> Decision
    ensures { result ≡ action_decision extent.now (act.Rmw op access address operand) seen.now }
{
    let within = is_within(extent, address, access.width().bytes(), seen);
    let old = access_number(&bytes_in(seen), access);
    let reply = Reply::Value(access_value(access, old));
    decide_access(within, reply, Some(modify(op, old, operand)))
}

fn decide_exchange(
    extent: &Extent,
    access: Access,
    address: u32,
    expected: u64,
    replacement: u64,
    seen: &[Seen],
) -> Decision
    ensures { result ≡ action_decision extent.now (act.CompareExchange access address expected replacement) seen.now }
{
    let within = is_within(extent, address, access.width().bytes(), seen);
    let old = access_number(&bytes_in(seen), access);
    let stored = if old == expected {
        Some(replacement)
    } else {
        None
    };
    decide_access(within, Reply::Value(access_value(access, old)), stored)
}

/// An operation that stores no number.
fn decide_plain(ready: bool, reply: Reply, pages: u32, queues: bool) -> Decision
    ensures { result ≡ plain ready reply pages queues }
{
    Decision {
        ready,
        reply,
        stored: None,
        pages,
        queues,
    }
}

/// A growth by so many pages.
fn decide_grow(extent: &Extent, by: u32, seen: &[Seen]) -> Decision
    ensures { result ≡ action_decision extent.now (act.Grow by) seen.now }
{
    let (pages, capacity) = pages_in(extent.initial, seen);
    if u64::from(pages) + u64::from(by) <= u64::from(capacity) {
        decide_plain(true, Reply::Value(Value::I32(pages)), pages + by, false)
    } else {
        decide_plain(true, Reply::Value(Value::I32(u32::MAX)), pages, false)
    }
}

/// A wait: it traps, answers that the number is another one, or sleeps.
fn decide_wait(
    extent: &Extent,
    width: ValType,
    thread: u32,
    address: u32,
    expected: u64,
    seen: &[Seen],
) -> Decision
    ensures { result ≡ action_decision extent.now (act.Wait width thread address expected) seen.now }
{
    let len = width.width().bytes();
    if address % len != 0 {
        return decide_plain(true, Reply::Trap(Trap::UnalignedAtomic), 0, false);
    }
    if !is_within(extent, address, len, seen) {
        return decide_plain(true, Reply::Trap(Trap::OutOfBounds), 0, false);
    }
    if type_number(&bytes_in(seen), width) != expected {
        return decide_plain(true, Reply::Value(Value::I32(1)), 0, false);
    }
    decide_plain(true, Reply::Sleeps, 0, true)
}

/// A notify: it traps, or answers how many threads it wakes.
fn decide_notify(extent: &Extent, address: u32, count: u32, seen: &[Seen]) -> Decision
    ensures { result ≡ action_decision extent.now (act.Notify address count) seen.now }
{
    if !is_within(extent, address, 4, seen) {
        return decide_plain(true, Reply::Trap(Trap::OutOfBounds), 0, false);
    }
    let reply = Reply::Value(Value::I32(threads_in(seen)));
    decide_plain(true, reply, 0, true)
}

/// A load of a whole number whose bytes lie in one block.
fn decide_whole_load(extent: &Extent, of: ValType, address: u32, bytes: &[u8; 8]) -> Decision
    ensures { result ≡ action_decision extent.now (act.Load (load.Whole of) address) (see.Part (byte_len (type_width of)) bytes.now ∷ []) }
{
    let (len, value) = match of {
        ValType::I32 => {
            let number = u32::from_le_bytes([bytes[0], bytes[1], bytes[2], bytes[3]]);
            (4, Value::I32(number))
        }
        ValType::I64 => (8, Value::I64(u64::from_le_bytes(*bytes))),
    };
    let within = ends_within(extent.initial, address, len);
    decide_access(within, Reply::Value(value), None)
}

/// What an operation decides by what it saw of each object that it touches.
#[inline(never)]
pub(crate) fn decide(op: &Op, seen: &[Seen]) -> Decision
    ensures { result ≡ action_decision op.now.extent op.now.action seen.now }
{
    let extent = &op.extent;
    match op.action {
        Action::Load { load, address } => decide_load(extent, load, address, seen),
        Action::Store {
            access,
            address,
            operand,
        } => decide_store(extent, access, address, operand, seen),
        Action::Rmw {
            op,
            access,
            address,
            operand,
        } => decide_rmw(extent, op, access, address, operand, seen),
        Action::CompareExchange {
            access,
            address,
            expected,
            replacement,
        } => decide_exchange(extent, access, address, expected, replacement, seen),
        Action::Size => {
            let (pages, _) = pages_in(extent.initial, seen);
            decide_plain(true, Reply::Value(Value::I32(pages)), pages, false)
        }
        Action::Grow { pages } => decide_grow(extent, pages, seen),
        Action::Wait {
            width,
            thread,
            address,
            expected,
        } => decide_wait(extent, width, thread, address, expected, seen),
        Action::Notify { address, count } => decide_notify(extent, address, count, seen),
        Action::Resume { .. } => {
            decide_plain(holds_in(seen), Reply::Value(Value::I32(0)), 0, true)
        }
        Action::TimeOut { .. } => {
            decide_plain(holds_in(seen), Reply::Value(Value::I32(2)), 0, true)
        }
    }
}

/// What an operation that touches one object decides by what it saw of it. A load of a whole value is decided at once.
pub(crate) fn decide_one(op: &Op, seen: &Seen) -> Decision
    ensures { result ≡ action_decision op.now.extent op.now.action (seen.now ∷ []) }
{
    if let Action::Load {
        load: Load::Whole(of),
        address,
    } = op.action
    {
        if let Seen::Part { len, bytes } = seen {
            if *len == of.width().bytes() {
                return decide_whole_load(&op.extent, of, address, bytes);
            }
        }
    }
    decide(op, slice::from_ref(seen))
}
