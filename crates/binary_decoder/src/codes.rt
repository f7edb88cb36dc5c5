//! The codes of instructions: `opcodes` the other way. The variants of each operation stand in the order of their codes,
//! so that a place in a row is the variant's number.

ghost use Rattle.std.specs.Prelude.{◌≡◌, ◌<◌};
ghost use Rattle.binary_decoder.specs.declared.opcodes.AtomicCode.TheVariants as at;
ghost use Rattle.binary_decoder.specs.Codes.{code_of};
ghost use Rattle.binary_decoder.specs.Opcodes.{plain_code, numeric_code, block_code, index_code, memory_code, pages_code, const_code, narrow_number, extension_number, comparison_number, unary_number, binary_number, access_number, rmw_row, atomic_number};

use crate::cause::OpCode;
use wasm_types::{
    Access, AtomicOp, BinaryOp, BlockKind, Comparison, Extension, IndexOp, Instr, Load, MemoryOp,
    Narrow, Numeric, PagesOp, Plain, RmwOp, UnaryOp, ValType,
};

/// The code by which an instruction is spelled.
pub fn code_of(instr: &Instr) -> OpCode
    ensures { result ≡ code_of instr.now }
{
    match *instr {
        Instr::Plain(plain) => OpCode::Byte(plain_code(plain)),
        Instr::Numeric(numeric) => OpCode::Byte(numeric_code(numeric)),
        Instr::Block(kind, _) => OpCode::Byte(block_code(kind)),
        Instr::Index(op, _) => OpCode::Byte(index_code(op)),
        Instr::BranchTable(_, _) => OpCode::Byte(0x0E),
        Instr::CallIndirect(_) => OpCode::Byte(0x11),
        Instr::Memory(op, _) => OpCode::Byte(memory_code(op)),
        Instr::Pages(op) => OpCode::Byte(pages_code(op)),
        Instr::Const(value) => OpCode::Byte(const_code(value.val_type())),
        Instr::Atomic(op, _) => OpCode::Atomic(atomic_number(op)),
        Instr::Fence => OpCode::Atomic(0x03),
    }
}

fn plain_code(plain: Plain) -> u8
    ensures { result ≡ plain_code plain }
{
    match plain {
        Plain::Unreachable => 0x00,
        Plain::Nop => 0x01,
        Plain::Else => 0x05,
        Plain::End => 0x0B,
        Plain::Return => 0x0F,
        Plain::Discard => 0x1A,
        Plain::Select => 0x1B,
    }
}

fn block_code(kind: BlockKind) -> u8
    ensures { result ≡ block_code kind }
{
    match kind {
        BlockKind::Block => 0x02,
        BlockKind::Loop => 0x03,
        BlockKind::If => 0x04,
    }
}

fn index_code(op: IndexOp) -> u8
    ensures { result ≡ index_code op }
{
    match op {
        IndexOp::Branch => 0x0C,
        IndexOp::BranchIf => 0x0D,
        IndexOp::Call => 0x10,
        IndexOp::LocalGet => 0x20,
        IndexOp::LocalSet => 0x21,
        IndexOp::LocalTee => 0x22,
        IndexOp::GlobalGet => 0x23,
        IndexOp::GlobalSet => 0x24,
    }
}

fn pages_code(op: PagesOp) -> u8
    ensures { result ≡ pages_code op }
{
    match op {
        PagesOp::Size => 0x3F,
        PagesOp::Grow => 0x40,
    }
}

fn const_code(val_type: ValType) -> u8
    ensures { result ≡ const_code val_type }
{
    match val_type {
        ValType::I32 => 0x41,
        ValType::I64 => 0x42,
    }
}

fn memory_code(op: MemoryOp) -> u8
    ensures { result ≡ memory_code op }
{
    match op {
        MemoryOp::Load(Load::Whole(ValType::I32)) => 0x28,
        MemoryOp::Load(Load::Whole(ValType::I64)) => 0x29,
        MemoryOp::Load(Load::Narrow(narrow, extension)) => {
            0x2C + 2 * narrow_number(narrow) + extension_number(extension)
        }
        MemoryOp::Store(Access::Whole(ValType::I32)) => 0x36,
        MemoryOp::Store(Access::Whole(ValType::I64)) => 0x37,
        MemoryOp::Store(Access::Narrow(narrow)) => 0x3A + narrow_number(narrow),
    }
}

fn numeric_code(numeric: Numeric) -> u8
    ensures { result ≡ numeric_code numeric }
{
    match numeric {
        Numeric::IsZero(ValType::I32) => 0x45,
        Numeric::Compare(ValType::I32, op) => 0x46 + comparison_number(op),
        Numeric::IsZero(ValType::I64) => 0x50,
        Numeric::Compare(ValType::I64, op) => 0x51 + comparison_number(op),
        Numeric::Unary(ValType::I32, op) => 0x67 + unary_number(op),
        Numeric::Binary(ValType::I32, op) => 0x6A + binary_number(op),
        Numeric::Unary(ValType::I64, op) => 0x79 + unary_number(op),
        Numeric::Binary(ValType::I64, op) => 0x7C + binary_number(op),
        Numeric::Wrap => 0xA7,
        Numeric::Extend(Extension::Signed) => 0xAC,
        Numeric::Extend(Extension::Unsigned) => 0xAD,
        Numeric::ExtendLow(narrow) => 0xC0 + narrow_number(narrow),
    }
}

/// The number behind the byte `FE`.
fn atomic_number(op: AtomicOp) -> u32
    ensures { result ≡ atomic_number (at.Op op) }
{
    match op {
        AtomicOp::Notify => 0x00,
        AtomicOp::Wait(ValType::I32) => 0x01,
        AtomicOp::Wait(ValType::I64) => 0x02,
        AtomicOp::Load(access) => 0x10 + access_number(access),
        AtomicOp::Store(access) => 0x17 + access_number(access),
        AtomicOp::Rmw(op, access) => rmw_row(op) + access_number(access),
        AtomicOp::CompareExchange(access) => 0x48 + access_number(access),
    }
}

/// The number of the first in the row of a read-modify-write.
fn rmw_row(op: RmwOp) -> u32
    ensures number { result ≡ rmw_row op }
    ensures bound { result < 0x48 }
{
    match op {
        RmwOp::Add => 0x1E,
        RmwOp::Subtract => 0x25,
        RmwOp::And => 0x2C,
        RmwOp::Or => 0x33,
        RmwOp::Xor => 0x3A,
        RmwOp::Exchange => 0x41,
    }
}

/// The place in a row of `ACCESSES`.
fn access_number(access: Access) -> u32
    ensures number { result ≡ access_number access }
    ensures bound { result < 7 }
{
    match access {
        Access::Whole(ValType::I32) => 0,
        Access::Whole(ValType::I64) => 1,
        Access::Narrow(narrow) => 2 + u32::from(narrow_number(narrow)),
    }
}

/// The place in a row of `NARROWS`.
fn narrow_number(narrow: Narrow) -> u8
    ensures number { result ≡ narrow_number narrow }
    ensures bound { result < 5 }
{
    narrow as u8
}

/// The place in a pair of loads.
fn extension_number(extension: Extension) -> u8
    ensures number { result ≡ extension_number extension }
    ensures bound { result < 2 }
{
    extension as u8
}

/// The place in a row of `COMPARISONS`.
fn comparison_number(op: Comparison) -> u8
    ensures number { result ≡ comparison_number op }
    ensures bound { result < 10 }
{
    op as u8
}

/// The place in a row of `UNARY`.
fn unary_number(op: UnaryOp) -> u8
    ensures number { result ≡ unary_number op }
    ensures bound { result < 3 }
{
    op as u8
}

/// The place in a row of `BINARY`.
fn binary_number(op: BinaryOp) -> u8
    ensures number { result ≡ binary_number op }
    ensures bound { result < 15 }
{
    op as u8
}
