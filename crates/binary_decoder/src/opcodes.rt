//! Opcodes (WebAssembly Core 1.0, binary format, instructions; threads proposal; sign-extension operators).

ghost use Rattle.std.specs.Prelude.{◌≡◌, slice_get};
ghost use Rattle.binary_decoder.specs.Opcodes.{control_at, memory_at, numeric_at, opcode_at, atomic_at};

use wasm_types::{
    Access, AtomicOp, BinaryOp, BlockKind, Comparison, Extension, IndexOp, Load, MemoryOp, Narrow,
    Numeric, PagesOp, Plain, RmwOp, UnaryOp, ValType,
};

/// What the first byte of an instruction says.
#[derive(Clone, Copy, Debug, PartialEq, Eq)]
pub enum Opcode {
    Plain(Plain),
    Numeric(Numeric),
    Block(BlockKind),
    Index(IndexOp),
    BranchTable,
    CallIndirect,
    Memory(MemoryOp),
    Pages(PagesOp),
    Const(ValType),
    /// The byte `FE`, behind which a number says more.
    Prefix,
}

/// What the number behind the prefix says.
#[derive(Clone, Copy, Debug, PartialEq, Eq)]
pub enum AtomicCode {
    Op(AtomicOp),
    Fence,
}

/// `2C` to `35`.
pub const NARROW_LOADS: [(Narrow, Extension); 10] = [
    (Narrow::I32Of8, Extension::Signed),
    (Narrow::I32Of8, Extension::Unsigned),
    (Narrow::I32Of16, Extension::Signed),
    (Narrow::I32Of16, Extension::Unsigned),
    (Narrow::I64Of8, Extension::Signed),
    (Narrow::I64Of8, Extension::Unsigned),
    (Narrow::I64Of16, Extension::Signed),
    (Narrow::I64Of16, Extension::Unsigned),
    (Narrow::I64Of32, Extension::Signed),
    (Narrow::I64Of32, Extension::Unsigned),
];

/// Stores, bytes 0x3A to 0x3E, and the five sign extensions, bytes 0xC0 to 0xC4.
pub const NARROWS: [Narrow; 5] = [
    Narrow::I32Of8,
    Narrow::I32Of16,
    Narrow::I64Of8,
    Narrow::I64Of16,
    Narrow::I64Of32,
];

/// `46` to `4F` of `i32`, and `51` to `5A` of `i64`.
pub const COMPARISONS: [Comparison; 10] = [
    Comparison::Equal,
    Comparison::NotEqual,
    Comparison::LessSigned,
    Comparison::LessUnsigned,
    Comparison::GreaterSigned,
    Comparison::GreaterUnsigned,
    Comparison::LessEqualSigned,
    Comparison::LessEqualUnsigned,
    Comparison::GreaterEqualSigned,
    Comparison::GreaterEqualUnsigned,
];

/// `67` to `69` of `i32`, and `79` to `7B` of `i64`.
pub const UNARY: [UnaryOp; 3] = [
    UnaryOp::LeadingZeros,
    UnaryOp::TrailingZeros,
    UnaryOp::CountOnes,
];

/// `6A` to `78` of `i32`, and `7C` to `8A` of `i64`.
pub const BINARY: [BinaryOp; 15] = [
    BinaryOp::Add,
    BinaryOp::Subtract,
    BinaryOp::Multiply,
    BinaryOp::DivideSigned,
    BinaryOp::DivideUnsigned,
    BinaryOp::RemainderSigned,
    BinaryOp::RemainderUnsigned,
    BinaryOp::And,
    BinaryOp::Or,
    BinaryOp::Xor,
    BinaryOp::ShiftLeft,
    BinaryOp::ShiftRightSigned,
    BinaryOp::ShiftRightUnsigned,
    BinaryOp::RotateLeft,
    BinaryOp::RotateRight,
];

/// The accesses in each row of atomic ones.
pub const ACCESSES: [Access; 7] = [
    Access::Whole(ValType::I32),
    Access::Whole(ValType::I64),
    Access::Narrow(Narrow::I32Of8),
    Access::Narrow(Narrow::I32Of16),
    Access::Narrow(Narrow::I64Of8),
    Access::Narrow(Narrow::I64Of16),
    Access::Narrow(Narrow::I64Of32),
];

fn narrow_load(place: u8) -> Option<(Narrow, Extension)>
    ensures { result ≡ slice_get NARROW_LOADS place }
{
    NARROW_LOADS.get(usize::from(place)).copied()
}

fn narrow(place: u8) -> Option<Narrow>
    ensures { result ≡ slice_get NARROWS place }
{
    NARROWS.get(usize::from(place)).copied()
}

fn comparison(place: u8) -> Option<Comparison>
    ensures { result ≡ slice_get COMPARISONS place }
{
    COMPARISONS.get(usize::from(place)).copied()
}

fn unary(place: u8) -> Option<UnaryOp>
    ensures { result ≡ slice_get UNARY place }
{
    UNARY.get(usize::from(place)).copied()
}

fn binary(place: u8) -> Option<BinaryOp>
    ensures { result ≡ slice_get BINARY place }
{
    BINARY.get(usize::from(place)).copied()
}

fn access(place: u32) -> Option<Access>
    ensures { result ≡ slice_get ACCESSES place }
{
    ACCESSES.get(place as usize).copied()
}

/// Opcodes of control, and parametric ones, below `20`.
#[tactic(auto, unfolding(crate::specs::Opcodes::control_at))]
fn control(code: u8) -> Option<Opcode>
    ensures { result ≡ control_at code }
{
    match code {
        0x00 => Some(Opcode::Plain(Plain::Unreachable)),
        0x01 => Some(Opcode::Plain(Plain::Nop)),
        0x02 => Some(Opcode::Block(BlockKind::Block)),
        0x03 => Some(Opcode::Block(BlockKind::Loop)),
        0x04 => Some(Opcode::Block(BlockKind::If)),
        0x05 => Some(Opcode::Plain(Plain::Else)),
        0x0B => Some(Opcode::Plain(Plain::End)),
        0x0C => Some(Opcode::Index(IndexOp::Branch)),
        0x0D => Some(Opcode::Index(IndexOp::BranchIf)),
        0x0E => Some(Opcode::BranchTable),
        0x0F => Some(Opcode::Plain(Plain::Return)),
        0x10 => Some(Opcode::Index(IndexOp::Call)),
        0x11 => Some(Opcode::CallIndirect),
        0x1A => Some(Opcode::Plain(Plain::Discard)),
        0x1B => Some(Opcode::Plain(Plain::Select)),
        _ => None,
    }
}

/// Opcodes of variables, of the memory and of constants, from `20` to `44`.
#[tactic(auto, unfolding(crate::specs::Opcodes::memory_at))]
fn memory(code: u8) -> Option<Opcode>
    ensures { result ≡ memory_at code }
{
    match code {
        0x20 => Some(Opcode::Index(IndexOp::LocalGet)),
        0x21 => Some(Opcode::Index(IndexOp::LocalSet)),
        0x22 => Some(Opcode::Index(IndexOp::LocalTee)),
        0x23 => Some(Opcode::Index(IndexOp::GlobalGet)),
        0x24 => Some(Opcode::Index(IndexOp::GlobalSet)),
        0x28 => Some(Opcode::Memory(MemoryOp::Load(Load::Whole(ValType::I32)))),
        0x29 => Some(Opcode::Memory(MemoryOp::Load(Load::Whole(ValType::I64)))),
        0x2C..=0x35 => narrow_load(code - 0x2C).map(|(narrow, extension)| Opcode::Memory(
            MemoryOp::Load(Load::Narrow(narrow, extension)),
        )),
        0x36 => Some(Opcode::Memory(MemoryOp::Store(Access::Whole(ValType::I32)))),
        0x37 => Some(Opcode::Memory(MemoryOp::Store(Access::Whole(ValType::I64)))),
        0x3A..=0x3E => narrow(code - 0x3A).map(|narrow| Opcode::Memory(MemoryOp::Store(
            Access::Narrow(narrow),
        ))),
        0x3F => Some(Opcode::Pages(PagesOp::Size)),
        0x40 => Some(Opcode::Pages(PagesOp::Grow)),
        0x41 => Some(Opcode::Const(ValType::I32)),
        0x42 => Some(Opcode::Const(ValType::I64)),
        _ => None,
    }
}

/// Numeric opcodes and the prefix, from `45` on.
#[tactic(auto, unfolding(crate::specs::Opcodes::numeric_at))]
fn numeric(code: u8) -> Option<Opcode>
    ensures { result ≡ numeric_at code }
{
    match code {
        0x45 => Some(Opcode::Numeric(Numeric::IsZero(ValType::I32))),
        0x46..=0x4F => comparison(code - 0x46).map(|op| Opcode::Numeric(Numeric::Compare(
            ValType::I32,
            op,
        ))),
        0x50 => Some(Opcode::Numeric(Numeric::IsZero(ValType::I64))),
        0x51..=0x5A => comparison(code - 0x51).map(|op| Opcode::Numeric(Numeric::Compare(
            ValType::I64,
            op,
        ))),
        0x67..=0x69 => unary(code - 0x67).map(|op| Opcode::Numeric(Numeric::Unary(
            ValType::I32,
            op,
        ))),
        0x6A..=0x78 => binary(code - 0x6A).map(|op| Opcode::Numeric(Numeric::Binary(
            ValType::I32,
            op,
        ))),
        0x79..=0x7B => unary(code - 0x79).map(|op| Opcode::Numeric(Numeric::Unary(
            ValType::I64,
            op,
        ))),
        0x7C..=0x8A => binary(code - 0x7C).map(|op| Opcode::Numeric(Numeric::Binary(
            ValType::I64,
            op,
        ))),
        0xA7 => Some(Opcode::Numeric(Numeric::Wrap)),
        0xAC => Some(Opcode::Numeric(Numeric::Extend(Extension::Signed))),
        0xAD => Some(Opcode::Numeric(Numeric::Extend(Extension::Unsigned))),
        0xC0..=0xC4 => narrow(code - 0xC0).map(|narrow| Opcode::Numeric(Numeric::ExtendLow(
            narrow,
        ))),
        0xFE => Some(Opcode::Prefix),
        _ => None,
    }
}

/// The opcode that a byte is, if it is one.
#[tactic(auto, unfolding(crate::specs::Opcodes::opcode_at))]
pub fn opcode_of_byte(code: u8) -> Option<Opcode>
    ensures { result ≡ opcode_at code }
{
    if code < 0x20 {
        control(code)
    } else if code < 0x45 {
        memory(code)
    } else {
        numeric(code)
    }
}

/// What a number behind the prefix says, if anything.
#[tactic(auto, unfolding(crate::specs::Opcodes::atomic_at))]
pub fn atomic_code(code: u32) -> Option<AtomicCode>
    ensures { result ≡ atomic_at code }
{
    match code {
        0x00 => Some(AtomicCode::Op(AtomicOp::Notify)),
        0x01 => Some(AtomicCode::Op(AtomicOp::Wait(ValType::I32))),
        0x02 => Some(AtomicCode::Op(AtomicOp::Wait(ValType::I64))),
        0x03 => Some(AtomicCode::Fence),
        0x10..=0x16 => access(code - 0x10).map(|a| AtomicCode::Op(AtomicOp::Load(a))),
        0x17..=0x1D => access(code - 0x17).map(|a| AtomicCode::Op(AtomicOp::Store(a))),
        0x1E..=0x24 => access(code - 0x1E).map(|a| AtomicCode::Op(AtomicOp::Rmw(RmwOp::Add, a))),
        0x25..=0x2B => {
            access(code - 0x25).map(|a| AtomicCode::Op(AtomicOp::Rmw(RmwOp::Subtract, a)))
        }
        0x2C..=0x32 => access(code - 0x2C).map(|a| AtomicCode::Op(AtomicOp::Rmw(RmwOp::And, a))),
        0x33..=0x39 => access(code - 0x33).map(|a| AtomicCode::Op(AtomicOp::Rmw(RmwOp::Or, a))),
        0x3A..=0x40 => access(code - 0x3A).map(|a| AtomicCode::Op(AtomicOp::Rmw(RmwOp::Xor, a))),
        0x41..=0x47 => {
            access(code - 0x41).map(|a| AtomicCode::Op(AtomicOp::Rmw(RmwOp::Exchange, a)))
        }
        0x48..=0x4E => access(code - 0x48).map(|a| AtomicCode::Op(AtomicOp::CompareExchange(a))),
        _ => None,
    }
}
