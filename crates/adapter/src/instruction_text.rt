//! Instructions in the text format.

ghost use Rattle.std.specs.Prelude.{◌≡◌, ◌++◌, ◌≤◌, OnOk, string_bytes};
ghost use Rattle.adapter.specs.InstructionText.{argument_text, atomic_name, const_text, index_text, indices_text, instruction_text, labels_in, memory_exponent, memory_name, numeric_name, result_text, rmw_text};

use crate::instruction_names::{
    access_name, atomic_sign, binary_name, block_name, comparison_name, extend_name, index_name,
    load_sign, narrow_name, pages_name, plain_name, rmw_name, type_name, unary_name, wait_name,
};
use std::fmt::Write;
use wasm_types::{
    Access, AtomicOp, Instr, LabelRange, MemArg, MemoryOp, NoMemory, Numeric, ValType, Value,
};

/// Writes the name of a numeric instruction.
fn write_numeric(text: &mut String, op: Numeric) -> Result<(), NoMemory>
    ensures { OnOk result (string_bytes text.new ≡ string_bytes text.old ++ numeric_name op) }
{
    match op {
        Numeric::IsZero(of) => write!(text, "{}.eqz", type_name(of))?,
        Numeric::Compare(of, op) => write!(text, "{}.{}", type_name(of), comparison_name(op))?,
        Numeric::Unary(of, op) => write!(text, "{}.{}", type_name(of), unary_name(op))?,
        Numeric::Binary(of, op) => write!(text, "{}.{}", type_name(of), binary_name(op))?,
        Numeric::Wrap => write!(text, "i32.wrap_i64")?,
        Numeric::Extend(extension) => text.push_str(extend_name(extension))?,
        Numeric::ExtendLow(narrow) => {
            let of = type_name(narrow.val_type());
            write!(text, "{of}.extend{}_s", narrow_name(narrow))?;
        }
    }
    Ok(())
}

/// Writes the name of an access that is not atomic.
fn write_memory(text: &mut String, op: MemoryOp) -> Result<(), NoMemory>
    ensures { OnOk result (string_bytes text.new ≡ string_bytes text.old ++ memory_name op) }
{
    match op {
        MemoryOp::Load(load) => {
            let access = load.access();
            let of = type_name(access.val_type());
            write!(text, "{of}.load{}{}", access_name(access), load_sign(load))?;
        }
        MemoryOp::Store(access) => {
            let of = type_name(access.val_type());
            write!(text, "{of}.store{}", access_name(access))?;
        }
    }
    Ok(())
}

/// Writes the name of an atomic read-modify-write of which this is the operation.
fn write_rmw(text: &mut String, access: Access, name: &str) -> Result<(), NoMemory>
    ensures { OnOk result (string_bytes text.new ≡ string_bytes text.old ++ rmw_text access name.now) }
{
    let of = type_name(access.val_type());
    let bits = access_name(access);
    let sign = atomic_sign(access);
    write!(text, "{of}.atomic.rmw{bits}")?;
    write!(text, ".{name}{sign}")?;
    Ok(())
}

/// Writes the name of an atomic instruction.
fn write_atomic(text: &mut String, op: AtomicOp) -> Result<(), NoMemory>
    ensures { OnOk result (string_bytes text.new ≡ string_bytes text.old ++ atomic_name op) }
{
    match op {
        AtomicOp::Notify => write!(text, "memory.atomic.notify")?,
        AtomicOp::Wait(of) => text.push_str(wait_name(of))?,
        AtomicOp::Load(access) => {
            let of = type_name(access.val_type());
            let bits = access_name(access);
            write!(text, "{of}.atomic.load{bits}{}", atomic_sign(access))?;
        }
        AtomicOp::Store(access) => {
            let of = type_name(access.val_type());
            write!(text, "{of}.atomic.store{}", access_name(access))?;
        }
        AtomicOp::Rmw(op, access) => write_rmw(text, access, rmw_name(op))?,
        AtomicOp::CompareExchange(access) => write_rmw(text, access, "cmpxchg")?,
    }
    Ok(())
}

/// Writes a block's result, if it has one.
fn write_result(text: &mut String, result_type: Option<ValType>) -> Result<(), NoMemory>
    ensures { OnOk result (string_bytes text.new ≡ string_bytes text.old ++ result_text result_type) }
{
    if let Some(of) = result_type {
        write!(text, " (result {})", type_name(of))?;
    }
    Ok(())
}

/// Writes an index behind a space.
fn write_index(text: &mut String, index: u32) -> Result<(), NoMemory>
    ensures { OnOk result (string_bytes text.new ≡ string_bytes text.old ++ index_text index) }
{
    write!(text, " {index}")?;
    Ok(())
}

/// Writes indices, each behind a space.
fn write_indices(text: &mut String, indices: &[u32]) -> Result<(), NoMemory>
    ensures { OnOk result (string_bytes text.new ≡ string_bytes text.old ++ indices_text indices.now) }
{
    for index in indices {
        write_index(text, *index)?;
    }
    Ok(())
}

/// The labels that a range has of those of a body.
fn labels_in(labels: &[u32], range: LabelRange) -> &[u32]
    ensures { result.now ≡ labels_in labels.now range }
{
    let (_, behind) = labels.split_at((range.first as usize).min(labels.len()));
    let (found, _) = behind.split_at((range.count as usize).min(behind.len()));
    found
}

/// Writes an offset that is not 0, and an alignment below the natural one.
fn write_argument(text: &mut String, natural: u32, argument: MemArg) -> Result<(), NoMemory>
    requires { natural ≤ 3 }
    ensures { OnOk result (string_bytes text.new ≡ string_bytes text.old ++ argument_text natural argument) }
{
    if argument.offset != 0 {
        write!(text, " offset={}", argument.offset)?;
    }
    if argument.align < natural {
        write!(text, " align={}", 2u32.pow(argument.align))?;
    }
    Ok(())
}

/// Writes an instruction that hands on a value.
fn write_const(text: &mut String, value: Value) -> Result<(), NoMemory>
    ensures { OnOk result (string_bytes text.new ≡ string_bytes text.old ++ const_text value) }
{
    match value {
        Value::I32(bits) => write!(text, "i32.const {}", bits.cast_signed())?,
        Value::I64(bits) => write!(text, "i64.const {}", bits.cast_signed())?,
    }
    Ok(())
}

/// The exponent of the natural alignment.
fn memory_exponent(op: MemoryOp) -> u32
    ensures exponent { result ≡ memory_exponent op }
    ensures few { result ≤ 3 }
{
    match op {
        MemoryOp::Load(load) => load.width().exponent(),
        MemoryOp::Store(access) => access.width().exponent(),
    }
}

/// Writes an instruction of a body with these labels.
pub(crate) fn write_instruction(
    text: &mut String,
    labels: &[u32],
    instruction: Instr,
) -> Result<(), NoMemory>
    ensures { OnOk result (string_bytes text.new ≡ string_bytes text.old ++ instruction_text labels.now instruction) }
{
    match instruction {
        Instr::Plain(op) => text.push_str(plain_name(op))?,
        Instr::Numeric(op) => write_numeric(text, op)?,
        Instr::Block(kind, of) => {
            text.push_str(block_name(kind))?;
            write_result(text, of)?;
        }
        Instr::Index(op, index) => {
            text.push_str(index_name(op))?;
            write_index(text, index)?;
        }
        Instr::BranchTable(range, otherwise) => {
            text.push_str("br_table")?;
            write_indices(text, labels_in(labels, range))?;
            write_index(text, otherwise)?;
        }
        Instr::CallIndirect(index) => write!(text, "call_indirect (type {index})")?,
        Instr::Memory(op, argument) => {
            write_memory(text, op)?;
            write_argument(text, memory_exponent(op), argument)?;
        }
        Instr::Pages(op) => text.push_str(pages_name(op))?,
        Instr::Const(value) => write_const(text, value)?,
        Instr::Atomic(op, argument) => {
            write_atomic(text, op)?;
            write_argument(text, op.width().exponent(), argument)?;
        }
        Instr::Fence => text.push_str("atomic.fence")?,
    }
    Ok(())
}
