//! Accesses of a shared memory with its versions.

ghost use Rattle.std.specs.Prelude.{◌≡◌, ◌+◌, ◌≤◌, IfOk, zero};
ghost use Rattle.rw_objects.specs.Memory.{memory_of};
ghost use Rattle.rw_objects.specs.declared.entry.Kind.TheVariants as kinds;
ghost use Rattle.block_objects.specs.Bounds.{IsWithin};
ghost use Rattle.block_objects.specs.Touches.{op_kind};
ghost use Rattle.wreplay_bench.specs.Counted.{Counted};

use crate::plain::address_of;
use block_objects::MemoryLimits;
use rw_objects::{Entry, Found, Versioned};
use std::alloc::Global;
use striped_memory::SharedSpace;
use wasm_types::{Access, Action, Extent, Load, MOST_PAGES, NoMemory, Op, Reply, ValType, Value};

/// The numbers that each operation carries.
fn extent_of(limits: &MemoryLimits) -> Extent
    ensures { result ≡ record { initial = limits.now.initial; block = limits.now.block } }
{
    Extent {
        initial: limits.initial,
        block: limits.block,
    }
}

/// A load of four bytes of an access.
fn load_at(limits: &MemoryLimits, access: u32) -> Op
    requires { 1 ≤ limits.now.capacity }
    ensures within { IsWithin limits.now result }
    ensures kind { op_kind result ≡ kinds.Access }
{
    let address = address_of(access);
    // A fact for the prover: blocks have at most 4,096 bytes.
    let _small = limits.block.power();
    Op {
        extent: extent_of(limits),
        action: Action::Load {
            load: Load::Whole(ValType::I32),
            address,
        },
    }
}

/// A load of any kind of an access: at most eight bytes, which end within the first page.
fn load_of(limits: &MemoryLimits, load: Load, access: u32) -> Op
    requires { 1 ≤ limits.now.capacity }
    ensures within { IsWithin limits.now result }
    ensures kind { op_kind result ≡ kinds.Access }
{
    let address = address_of(access).min(65_528);
    // A fact for the prover: blocks have at most 4,096 bytes.
    let _small = limits.block.power();
    Op {
        extent: extent_of(limits),
        action: Action::Load { load, address },
    }
}

/// The store of an access, of its own number.
fn store_at(limits: &MemoryLimits, access: u32) -> Op
    requires { 1 ≤ limits.now.capacity }
    ensures within { IsWithin limits.now result }
    ensures kind { op_kind result ≡ kinds.Access }
{
    let address = address_of(access);
    // A fact for the prover: blocks have at most 4,096 bytes.
    let _small = limits.block.power();
    Op {
        extent: extent_of(limits),
        action: Action::Store {
            access: Access::Whole(ValType::I32),
            address,
            operand: u64::from(access),
        },
    }
}

/// A number that depends on a reply.
fn number_of(reply: Reply) -> u64 {
    match reply {
        Reply::Value(Value::I32(bits)) => u64::from(bits),
        Reply::Value(Value::I64(bits)) => bits,
        _ => 1,
    }
}

/// A number that depends on what the first touch of an entry found.
fn number_found(entry: &Entry) -> u64 {
    match entry.found.as_slice() {
        [Found::Read { object, version }, ..] => u64::from(*object).wrapping_add(*version),
        [
            Found::Write {
                object,
                version,
                reads,
            },
            ..
        ] => u64::from(*object)
            .wrapping_add(*version)
            .wrapping_add(*reads),
        [] => 0,
    }
}

/// Makes an operation, and answers a number that depends on its reply and its entry.
#[inline(always)]
fn one(memory: &mut Versioned<SharedSpace>, op: &Op, made: u32) -> u64
    requires within { IsWithin (memory_of memory.old).fixed op.now }
    requires kind { op_kind op.now ≡ kinds.Access }
    requires counted { Counted (memory_of memory.old).fixed made (memory_of memory.old) }
    ensures { Counted (memory_of memory.old).fixed (made + 1) (memory_of memory.new) }
{
    let (reply, entry) = memory.act(op);
    number_of(reply).wrapping_add(number_found(&entry))
}

/// A memory of zeros.
fn open(alloc: Global, limits: MemoryLimits) -> Result<Versioned<SharedSpace>, NoMemory>
    requires order { limits.initial ≤ limits.capacity }
    requires limit { limits.capacity ≤ MOST_PAGES }
    ensures { IfOk result (λ memory. Counted limits zero (memory_of memory)) }
{
    let space = SharedSpace::new(alloc, limits, &[])?;
    Versioned::new(alloc, space)
}

/// Makes so many loads of a memory, and answers a number that depends on each of them.
pub fn loads(alloc: Global, limits: MemoryLimits, count: u32) -> Result<u64, NoMemory>
    requires some { 1 ≤ limits.capacity }
    requires order { limits.initial ≤ limits.capacity }
    requires limit { limits.capacity ≤ MOST_PAGES }
{
    let mut memory = open(alloc, limits)?;
    let mut sum = 0u64;
    for access in 0..count {
        let op = load_at(&limits, access);
        sum = sum.wrapping_add(one(&mut memory, &op, access));
    }
    Ok(sum)
}

/// Makes so many loads of four bytes of a memory, each of a kind that is read from a table, so that it is not known
/// where the loop is compiled. Answers a number that depends on each of them.
pub fn loads_of_kinds(alloc: Global, limits: MemoryLimits, count: u32) -> Result<u64, NoMemory>
    requires some { 1 ≤ limits.capacity }
    requires order { limits.initial ≤ limits.capacity }
    requires limit { limits.capacity ≤ MOST_PAGES }
{
    let mut memory = open(alloc, limits)?;
    let table = vec![in alloc; Load::Whole(ValType::I32); 16]?;
    let mut sum = 0u64;
    for access in 0..count {
        let op = load_of(&limits, table[access as usize % 16], access);
        sum = sum.wrapping_add(one(&mut memory, &op, access));
    }
    Ok(sum)
}

/// Makes so many stores to a memory, and answers a number that depends on each of them.
pub fn stores(alloc: Global, limits: MemoryLimits, count: u32) -> Result<u64, NoMemory>
    requires some { 1 ≤ limits.capacity }
    requires order { limits.initial ≤ limits.capacity }
    requires limit { limits.capacity ≤ MOST_PAGES }
{
    let mut memory = open(alloc, limits)?;
    let mut sum = 0u64;
    for access in 0..count {
        let op = store_at(&limits, access);
        sum = sum.wrapping_add(one(&mut memory, &op, access));
    }
    Ok(sum)
}
