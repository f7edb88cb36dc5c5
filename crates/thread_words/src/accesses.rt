//! What an access asks of the shared memory (WebAssembly Core 1.0, memory instructions; threads proposal, atomic memory
//! instructions).

ghost use Rattle.std.specs.Prelude.{◌≡◌, ◌+◌, ◌≤◌, ◌^◌, Ok};
ghost use Rattle.wasm_types.specs.declared.instruction.Instr.TheVariants.{Memory, Pages, Atomic};
ghost use Rattle.wasm_types.specs.declared.instruction.AtomicOp.TheVariants.{Notify, Wait, Load as AtomicLoad, Store as AtomicStore, Rmw, CompareExchange};
ghost use Rattle.wasm_types.specs.Accesses.{exponent_of};
ghost use Rattle.wasm_types.specs.Widths.{width_of};
ghost use Rattle.thread_words.specs.Instance.{Instance as InstanceRecord};
ghost use Rattle.thread_words.specs.Effect.{within_capacity, atomically, atomic_load};
ghost use Rattle.thread_words.specs.Words.{instance_at};
ghost use Rattle.thread_words.specs.Accesses.{takes_of, IsAccess, HasOperands, Tests, AsksBy, CanMove, Asks};

use crate::accesses_apart::memory_access_on;
use crate::instance::Instance;
use crate::operands::{one_operand, three_operands, two_i32_operands, two_operands};
use crate::stacks::{Stacks, Stage};
use wasm_types::{
    Access, Action, AtomicOp, Extension, Instr, Load, MemArg, MemoryOp, Outcome, PAGE_SIZE,
    PagesOp, RmwOp, Trap, ValType, Width,
};

/// The effective address of an access of that width, without wrapping. An access that ends past the greatest
/// length of the memory is a trap.
#[inline(always)]
pub(crate) fn address_within(
    instance: &Instance,
    base: u32,
    offset: u32,
    width: Width,
) -> Result<u32, Trap>
    ensures { Tests (within_capacity (instance_at instance.now) (base + offset) (2 ^ exponent_of (width_of width))) (base + offset) result }
{
    let address = u64::from(base) + u64::from(offset);
    if address + u64::from(width.bytes()) > u64::from(instance.capacity) * PAGE_SIZE {
        return Err(Trap::OutOfBounds);
    }
    Ok(address as u32)
}

/// The same of an atomic access. An address that is no multiple of the size is a trap, whatever its bounds.
fn aligned_address(instance: &Instance, base: u32, offset: u32, width: Width) -> Result<u32, Trap>
    ensures { Tests (atomically (instance_at instance.now) (base + offset) (exponent_of (width_of width))) (base + offset) result }
{
    let address = u64::from(base) + u64::from(offset);
    if address % u64::from(width.bytes()) != 0 {
        return Err(Trap::UnalignedAtomic);
    }
    address_within(instance, base, offset, width)
}

/// What a load or a store that is not atomic asks for, or its trap.
#[inline(always)]
fn memory_access(
    m: &Stacks,
    instance: &Instance,
    op: MemoryOp,
    argument: MemArg,
) -> Result<Action, Trap>
    requires { HasOperands (takes_of (Memory op argument)) m.now }
    ensures { AsksBy (instance_at instance.now) (Memory op argument) result m.now }
{
    memory_access_on(&m.words, instance, op, argument)
}

/// What `memory.size` or `memory.grow` asks for.
fn pages_access(m: &Stacks, op: PagesOp) -> Action
    requires { HasOperands (takes_of (Pages op)) m.now }
    ensures { (instance : InstanceRecord) → AsksBy instance (Pages op) (Ok result) m.now }
{
    match op {
        PagesOp::Size => Action::Size,
        PagesOp::Grow => Action::Grow {
            pages: one_operand(m),
        },
    }
}

/// What `wait32` or `wait64` asks for, or its trap: first of all a wait on a memory that is not shared.
fn wait_access(
    m: &Stacks,
    instance: &Instance,
    t: ValType,
    argument: MemArg,
) -> Result<Action, Trap>
    requires { HasOperands (takes_of (Atomic (Wait t) argument)) m.now }
    ensures { AsksBy (instance_at instance.now) (Atomic (Wait t) argument) result m.now }
{
    if !instance.shared {
        return Err(Trap::MemoryNotShared);
    }
    let (base, expected, _) = three_operands(m);
    let address = aligned_address(instance, base, argument.offset, t.width())?;
    Ok(Action::Wait {
        width: t,
        thread: instance.thread,
        address,
        expected,
    })
}

/// What `memory.atomic.notify` asks for, or its trap. It has the address of four bytes.
fn notify_access(m: &Stacks, instance: &Instance, argument: MemArg) -> Result<Action, Trap>
    requires { HasOperands (takes_of (Atomic Notify argument)) m.now }
    ensures { AsksBy (instance_at instance.now) (Atomic Notify argument) result m.now }
{
    let (base, count) = two_i32_operands(m);
    let address = aligned_address(instance, base, argument.offset, Width::Four)?;
    Ok(Action::Notify { address, count })
}

/// The load that an atomic load makes: a narrow one extends by zeros.
fn load_of(access: Access) -> Load
    ensures { result ≡ atomic_load access }
{
    match access {
        Access::Whole(t) => Load::Whole(t),
        Access::Narrow(narrow) => Load::Narrow(narrow, Extension::Unsigned),
    }
}

/// What an atomic load asks for, or its trap.
fn load_access(
    m: &Stacks,
    instance: &Instance,
    access: Access,
    argument: MemArg,
) -> Result<Action, Trap>
    requires { HasOperands (takes_of (Atomic (AtomicLoad access) argument)) m.now }
    ensures { AsksBy (instance_at instance.now) (Atomic (AtomicLoad access) argument) result m.now }
{
    let base = one_operand(m);
    let address = aligned_address(instance, base, argument.offset, access.width())?;
    Ok(Action::Load {
        load: load_of(access),
        address,
    })
}

/// What an atomic store asks for, or its trap.
fn store_access(
    m: &Stacks,
    instance: &Instance,
    access: Access,
    argument: MemArg,
) -> Result<Action, Trap>
    requires { HasOperands (takes_of (Atomic (AtomicStore access) argument)) m.now }
    ensures { AsksBy (instance_at instance.now) (Atomic (AtomicStore access) argument) result m.now }
{
    let (base, operand) = two_operands(m);
    let address = aligned_address(instance, base, argument.offset, access.width())?;
    Ok(Action::Store {
        access,
        address,
        operand,
    })
}

/// What an atomic read-modify-write asks for, or its trap.
fn rmw_access(
    m: &Stacks,
    instance: &Instance,
    op: RmwOp,
    access: Access,
    argument: MemArg,
) -> Result<Action, Trap>
    requires { HasOperands (takes_of (Atomic (Rmw op access) argument)) m.now }
    ensures { AsksBy (instance_at instance.now) (Atomic (Rmw op access) argument) result m.now }
{
    let (base, operand) = two_operands(m);
    let address = aligned_address(instance, base, argument.offset, access.width())?;
    Ok(Action::Rmw {
        op,
        access,
        address,
        operand,
    })
}

/// What an atomic compare-exchange asks for, or its trap.
fn exchange_access(
    m: &Stacks,
    instance: &Instance,
    access: Access,
    argument: MemArg,
) -> Result<Action, Trap>
    requires { HasOperands (takes_of (Atomic (CompareExchange access) argument)) m.now }
    ensures { AsksBy (instance_at instance.now) (Atomic (CompareExchange access) argument) result m.now }
{
    let (base, expected, replacement) = three_operands(m);
    let address = aligned_address(instance, base, argument.offset, access.width())?;
    Ok(Action::CompareExchange {
        access,
        address,
        expected,
        replacement,
    })
}

/// What an atomic access asks for, or its trap.
fn atomic_access(
    m: &Stacks,
    instance: &Instance,
    op: AtomicOp,
    argument: MemArg,
) -> Result<Action, Trap>
    requires { HasOperands (takes_of (Atomic op argument)) m.now }
    ensures { AsksBy (instance_at instance.now) (Atomic op argument) result m.now }
{
    match op {
        AtomicOp::Notify => notify_access(m, instance, argument),
        AtomicOp::Wait(t) => wait_access(m, instance, t, argument),
        AtomicOp::Load(access) => load_access(m, instance, access, argument),
        AtomicOp::Store(access) => store_access(m, instance, access, argument),
        AtomicOp::Rmw(op, access) => rmw_access(m, instance, op, access, argument),
        AtomicOp::CompareExchange(access) => exchange_access(m, instance, access, argument),
    }
}

/// What an access asks of the shared memory, or the trap that stops the thread before it asks: a wait on a memory that
/// is not shared, then an atomic access that is not aligned, then an access past the greatest length.
#[inline(always)]
pub fn access_of(m: &Stacks, instance: &Instance, instr: Instr) -> Result<Action, Trap>
    requires access { IsAccess instr }
    requires can { CanMove (instance_at instance.now) instr m.now }
    ensures { Asks (instance_at instance.now) instr result m.now }
{
    match instr {
        Instr::Memory(op, argument) => memory_access(m, instance, op, argument),
        Instr::Pages(op) => Ok(pages_access(m, op)),
        Instr::Atomic(op, argument) => atomic_access(m, instance, op, argument),
        _ => unreachable!(),
    }
}
