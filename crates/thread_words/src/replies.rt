//! Replies of the shared memory.

ghost use Rattle.std.specs.Prelude.{◌≡◌, ◌+◌, ◌<◌, ◌≤◌, ◌^◌, ◌∷◌, [], length, OnOk, OnErr, IsOk};
ghost use Rattle.wasm_types.specs.declared.value.ValType.TheVariants.{I32};
ghost use Rattle.wasm_types.specs.Values.{bits_of};
ghost use Rattle.thread_words.specs.Thread.{value_by};
ghost use Rattle.thread_words.specs.Fields.{Puts};
ghost use Rattle.thread_words.specs.Accesses.{takes_of, reply_of, wait_offset, reply_words, WakesWith, IsAccess, CanAsk, Answers, CanWait, FallsAsleep, IsAsleep, Wakes};
ghost use Rattle.thread_words.specs.Moves.{Unchanged, HasWordLeft};

use crate::operands::{drop_top, push, replace_top, three_operands, word};
use crate::stacks::{Stacks, Stage};
use wasm_types::{AtomicOp, Instr, Load, MemoryOp, NoMemory, Outcome, PagesOp, Reply, ValType};

/// The low bits of a number that a value of a type has.
#[inline(always)]
pub(crate) fn low_bits(t: ValType, bits: u64) -> u64
    ensures { result ≡ bits_of (value_by t bits) }
{
    match t {
        ValType::I32 => bits % 0x1_0000_0000,
        ValType::I64 => bits,
    }
}

/// Takes operands, gives the value of a reply, and goes on.
#[inline(always)]
fn resume(m: &mut Stacks, taken: usize, t: Option<ValType>, bits: u64) -> Result<(), NoMemory>
    requires place { m.old.here.place + 1 < 2 ^ 32 }
    requires enough { taken ≤ length m.old.words.items }
    ensures ok { OnOk result (Puts taken (reply_words t bits) m.old m.new) }
    ensures err { OnErr result (Unchanged m.old m.new) }
    ensures room { HasWordLeft m.old → IsOk result }
{
    match t {
        None => {
            drop_top(m, taken);
            Ok(())
        }
        Some(t) => {
            let low = low_bits(t, bits);
            if taken == 0 {
                return push(m, low);
            }
            replace_top(m, taken, low);
            Ok(())
        }
    }
}

/// How many operands an access takes.
#[inline(always)]
fn operand_count(instr: Instr) -> usize
    requires { IsAccess instr }
    ensures { result ≡ length (takes_of instr) }
{
    match instr {
        Instr::Memory(MemoryOp::Load(_), _) => 1,
        Instr::Memory(MemoryOp::Store(_), _) => 2,
        Instr::Pages(PagesOp::Size) => 0,
        Instr::Pages(PagesOp::Grow) => 1,
        Instr::Atomic(AtomicOp::Notify, _) => 2,
        Instr::Atomic(AtomicOp::Wait(_), _) => 3,
        Instr::Atomic(AtomicOp::Load(_), _) => 1,
        Instr::Atomic(AtomicOp::Store(_), _) => 2,
        Instr::Atomic(AtomicOp::Rmw(_, _), _) => 2,
        Instr::Atomic(AtomicOp::CompareExchange(_), _) => 3,
        _ => unreachable!(),
    }
}

/// The type of the value that the reply to an access leaves, if it leaves one.
#[inline(always)]
fn reply_type(instr: Instr) -> Option<ValType>
    requires { IsAccess instr }
    ensures { result ≡ reply_of instr }
{
    match instr {
        Instr::Memory(MemoryOp::Load(Load::Whole(t)), _) => Some(t),
        Instr::Memory(MemoryOp::Load(Load::Narrow(narrow, _)), _) => Some(narrow.val_type()),
        Instr::Memory(MemoryOp::Store(_), _) => None,
        Instr::Pages(_) => Some(ValType::I32),
        Instr::Atomic(AtomicOp::Notify, _) => Some(ValType::I32),
        Instr::Atomic(AtomicOp::Wait(_), _) => Some(ValType::I32),
        Instr::Atomic(AtomicOp::Load(access), _) => Some(access.val_type()),
        Instr::Atomic(AtomicOp::Store(_), _) => None,
        Instr::Atomic(AtomicOp::Rmw(_, access), _) => Some(access.val_type()),
        Instr::Atomic(AtomicOp::CompareExchange(access), _) => Some(access.val_type()),
        _ => unreachable!(),
    }
}

/// The offset of a wait, and nothing for another instruction.
fn wait_offset(instr: Instr) -> Option<u32>
    ensures { result ≡ wait_offset instr }
{
    match instr {
        Instr::Atomic(AtomicOp::Wait(_), argument) => Some(argument.offset),
        _ => None,
    }
}

/// Takes the operands of a wait with this offset, and sleeps at its effective address.
fn fall_asleep(m: &mut Stacks, offset: u32)
    requires { CanWait offset m.old }
    ensures { FallsAsleep offset m.old m.new }
{
    let (base, _, time) = three_operands(m);
    drop_top(m, 3);
    m.stage = Stage::Sleeping {
        address: base + offset,
        time: time.cast_signed(),
    };
}

/// The reply to an access: its operands go, and the value of the reply comes, or the thread sleeps behind its wait. A
/// trap stops the thread.
#[inline(always)]
pub fn answer(m: &mut Stacks, instr: Instr, reply: Reply) -> Result<(), NoMemory>
    requires access { IsAccess instr }
    requires can { CanAsk instr m.old }
    ensures ok { OnOk result (Answers instr reply m.old m.new) }
    ensures err { OnErr result (Unchanged m.old m.new) }
    ensures room { HasWordLeft m.old → IsOk result }
{
    let taken = operand_count(instr);
    let t = reply_type(instr);
    match reply {
        Reply::Trap(trap) => {
            m.stage = Stage::Ended(Outcome::Trapped(trap));
            Ok(())
        }
        Reply::Value(value) => resume(m, taken, t, word(value)),
        Reply::Stored => resume(m, taken, t, 0),
        Reply::Sleeps => match wait_offset(instr) {
            Some(offset) => {
                fall_asleep(m, offset);
                Ok(())
            }
            None => resume(m, taken, t, 0),
        },
    }
}

/// Gives an i32 of these low bits to a thread that slept, which goes on.
fn wake_with(m: &mut Stacks, bits: u64) -> Result<(), NoMemory>
    ensures ok { OnOk result (WakesWith bits m.old m.new) }
    ensures err { OnErr result (Unchanged m.old m.new) }
    ensures room { HasWordLeft m.old → IsOk result }
{
    m.words.push(low_bits(ValType::I32, bits))?;
    m.stage = Stage::Running;
    Ok(())
}

/// The reply to a thread that slept, which goes on behind its wait. A trap stops the thread.
pub fn wake(m: &mut Stacks, reply: Reply) -> Result<(), NoMemory>
    requires { IsAsleep m.old }
    ensures ok { OnOk result (Wakes reply m.old m.new) }
    ensures err { OnErr result (Unchanged m.old m.new) }
    ensures room { HasWordLeft m.old → IsOk result }
{
    match reply {
        Reply::Trap(trap) => {
            m.stage = Stage::Ended(Outcome::Trapped(trap));
            Ok(())
        }
        Reply::Value(value) => wake_with(m, word(value)),
        Reply::Stored => wake_with(m, 0),
        Reply::Sleeps => wake_with(m, 0),
    }
}
