//! Instructions, and the group that the table of their function has at each of them.

use crate::validation_rows::{DROP, END};
use instruction_groups::{Group, OneWordOp, WordOp};
use wasm_types::{
    Access, BinaryOp, BlockKind, Comparison, Extension, IndexOp, Instr, Load, MemArg, MemoryOp,
    Narrow, Numeric, Plain, UnaryOp, ValType, Value,
};

/// The local 0, and the local 3.
const FIRST: Instr = Instr::Index(IndexOp::LocalGet, 0);

const THIRD: Instr = Instr::Index(IndexOp::LocalGet, 3);

const SET: Instr = Instr::Index(IndexOp::LocalSet, 4);

const TEE: Instr = Instr::Index(IndexOp::LocalTee, 4);

/// A local whose number takes two bytes.
const MANY: Instr = Instr::Index(IndexOp::LocalGet, 300);

const ADD: Instr = Instr::Numeric(Numeric::Binary(ValType::I32, BinaryOp::Add));

const SUB: Instr = Instr::Numeric(Numeric::Binary(ValType::I32, BinaryOp::Subtract));

const MUL: Instr = Instr::Numeric(Numeric::Binary(ValType::I32, BinaryOp::Multiply));

const AND: Instr = Instr::Numeric(Numeric::Binary(ValType::I32, BinaryOp::And));

const OR: Instr = Instr::Numeric(Numeric::Binary(ValType::I32, BinaryOp::Or));

const DIVIDE: Instr = Instr::Numeric(Numeric::Binary(ValType::I32, BinaryOp::DivideUnsigned));

const XOR_64: Instr = Instr::Numeric(Numeric::Binary(ValType::I64, BinaryOp::Xor));

const ADD_64: Instr = Instr::Numeric(Numeric::Binary(ValType::I64, BinaryOp::Add));

const SHIFT: Instr = Instr::Numeric(Numeric::Binary(ValType::I32, BinaryOp::ShiftRightUnsigned));

const SHIFT_64: Instr = Instr::Numeric(Numeric::Binary(ValType::I64, BinaryOp::ShiftRightSigned));

const IS_ZERO: Instr = Instr::Numeric(Numeric::IsZero(ValType::I32));

const LEADING: Instr = Instr::Numeric(Numeric::Unary(ValType::I32, UnaryOp::LeadingZeros));

const SIGN: Instr = Instr::Numeric(Numeric::ExtendLow(Narrow::I32Of8));

const WRAP: Instr = Instr::Numeric(Numeric::Wrap);

const SELECT: Instr = Instr::Plain(Plain::Select);

const EQUAL: Instr = Instr::Numeric(Numeric::Compare(ValType::I32, Comparison::Equal));

const AT_LEAST: Instr = Instr::Numeric(Numeric::Compare(
    ValType::I32,
    Comparison::GreaterEqualUnsigned,
));

/// The offset of the accesses.
const AT: MemArg = MemArg {
    align: 0,
    offset: 9,
};

const BYTE: Instr = Instr::Memory(
    MemoryOp::Load(Load::Narrow(Narrow::I32Of8, Extension::Unsigned)),
    AT,
);

const SIGNED_BYTE: Instr = Instr::Memory(
    MemoryOp::Load(Load::Narrow(Narrow::I32Of8, Extension::Signed)),
    AT,
);

const HALF: Instr = Instr::Memory(
    MemoryOp::Load(Load::Narrow(Narrow::I32Of16, Extension::Unsigned)),
    AT,
);

const SIGNED_HALF: Instr = Instr::Memory(
    MemoryOp::Load(Load::Narrow(Narrow::I32Of16, Extension::Signed)),
    AT,
);

const STORE: Instr = Instr::Memory(MemoryOp::Store(Access::Whole(ValType::I32)), AT);

const STORE_BYTE: Instr = Instr::Memory(MemoryOp::Store(Access::Narrow(Narrow::I32Of8)), AT);

const STORE_HALF: Instr = Instr::Memory(MemoryOp::Store(Access::Narrow(Narrow::I32Of16)), AT);

const STORE_64: Instr = Instr::Memory(MemoryOp::Store(Access::Whole(ValType::I64)), AT);

/// A constant of all bits.
const HIGHEST: u64 = 0xffff_ffff_ffff_ffff;

/// Each group is as long as the instructions let it be, and an instruction that is no part has an entry of its own. The
/// locals 0, 3 and 4 are i32, the locals 1 and 300 are i64.
pub(crate) static GROUPED: [(Instr, Group); 111] = [
    // Two locals, and what is given to a local, to a local and on top, and on top.
    (FIRST, Group::LocalsSet(WordOp::Add32, 0, 3, 4)),
    (THIRD, Group::LocalSet(WordOp::Add32, 3, 4)),
    (ADD, Group::TwoSet(WordOp::Add32, 4)),
    (SET, Group::Set(4)),
    (FIRST, Group::LocalsTee(WordOp::Sub32, 0, 3, 4)),
    (THIRD, Group::LocalTee(WordOp::Sub32, 3, 4)),
    (SUB, Group::TwoTee(WordOp::Sub32, 4)),
    (TEE, Group::Tee(4)),
    (DROP, Group::Discard),
    (FIRST, Group::Locals(WordOp::Mul32, 0, 3)),
    (THIRD, Group::Local(WordOp::Mul32, 3)),
    (MUL, Group::Two(WordOp::Mul32)),
    (DROP, Group::Discard),
    // A local and a constant.
    (FIRST, Group::LocalFixedSet(WordOp::And32, 0, 4, 5)),
    (
        Instr::Const(Value::I32(5)),
        Group::FixedSet(WordOp::And32, 4, 5),
    ),
    (AND, Group::TwoSet(WordOp::And32, 4)),
    (SET, Group::Set(4)),
    (FIRST, Group::LocalFixedTee(WordOp::Or32, 0, 4, 6)),
    (
        Instr::Const(Value::I32(6)),
        Group::FixedTee(WordOp::Or32, 4, 6),
    ),
    (OR, Group::TwoTee(WordOp::Or32, 4)),
    (TEE, Group::Tee(4)),
    (DROP, Group::Discard),
    (
        Instr::Index(IndexOp::LocalGet, 1),
        Group::LocalFixed(WordOp::Xor64, 1, HIGHEST),
    ),
    (
        Instr::Const(Value::I64(HIGHEST)),
        Group::Fixed(WordOp::Xor64, HIGHEST),
    ),
    (XOR_64, Group::Two(WordOp::Xor64)),
    (DROP, Group::Discard),
    // A group behind an operand that stays.
    (FIRST, Group::Get(0)),
    (THIRD, Group::LocalFixed(WordOp::GeU32, 3, 1)),
    (Instr::Const(Value::I32(1)), Group::Fixed(WordOp::GeU32, 1)),
    (AT_LEAST, Group::Two(WordOp::GeU32)),
    (DROP, Group::Discard),
    (DROP, Group::Discard),
    (
        Instr::Const(Value::I32(1)),
        Group::Constant(ValType::I32, 1),
    ),
    (Instr::Const(Value::I32(2)), Group::Fixed(WordOp::Eq32, 2)),
    (EQUAL, Group::Two(WordOp::Eq32)),
    (DROP, Group::Discard),
    // Two locals of 64 bits, one of which has a high number.
    (
        Instr::Index(IndexOp::LocalGet, 1),
        Group::LocalsSet(WordOp::Add64, 1, 300, 300),
    ),
    (MANY, Group::LocalSet(WordOp::Add64, 300, 300)),
    (ADD_64, Group::TwoSet(WordOp::Add64, 300)),
    (Instr::Index(IndexOp::LocalSet, 300), Group::Set(300)),
    // Shifts.
    (FIRST, Group::Locals(WordOp::ShrU32, 0, 3)),
    (THIRD, Group::Local(WordOp::ShrU32, 3)),
    (SHIFT, Group::Two(WordOp::ShrU32)),
    (DROP, Group::Discard),
    (MANY, Group::LocalFixed(WordOp::ShrS64, 300, 3)),
    (Instr::Const(Value::I64(3)), Group::Fixed(WordOp::ShrS64, 3)),
    (SHIFT_64, Group::Two(WordOp::ShrS64)),
    (DROP, Group::Discard),
    // Constants by themselves.
    (
        Instr::Const(Value::I64(HIGHEST)),
        Group::Constant(ValType::I64, HIGHEST),
    ),
    (DROP, Group::Discard),
    (
        Instr::Const(Value::I32(0)),
        Group::Constant(ValType::I32, 0),
    ),
    (DROP, Group::Discard),
    // An operation on a local, and what is given to a local, to a local and on top, and on top.
    (FIRST, Group::OneLocalSet(OneWordOp::IsZero32, 0, 4)),
    (IS_ZERO, Group::OneSet(OneWordOp::IsZero32, 4)),
    (SET, Group::Set(4)),
    (FIRST, Group::OneLocalTee(OneWordOp::LeadingZeros32, 0, 4)),
    (LEADING, Group::OneTee(OneWordOp::LeadingZeros32, 4)),
    (TEE, Group::Tee(4)),
    (SIGN, Group::One(OneWordOp::Extend8To32)),
    (DROP, Group::Discard),
    (MANY, Group::OneLocal(OneWordOp::Wrap, 300)),
    (WRAP, Group::One(OneWordOp::Wrap)),
    (DROP, Group::Discard),
    // A choice.
    (FIRST, Group::Get(0)),
    (THIRD, Group::Get(3)),
    (FIRST, Group::Get(0)),
    (SELECT, Group::Select),
    (DROP, Group::Discard),
    // What can trap is in no group.
    (FIRST, Group::Get(0)),
    (THIRD, Group::Get(3)),
    (DIVIDE, Group::Plain),
    (DROP, Group::Discard),
    (Instr::Plain(Plain::Nop), Group::Plain),
    // Blocks, branches, calls and returns.
    (Instr::Block(BlockKind::Block, None), Group::Block(None)),
    (FIRST, Group::Get(0)),
    (Instr::Index(IndexOp::BranchIf, 0), Group::BranchIf(0)),
    (Instr::Index(IndexOp::Branch, 0), Group::Branch(0)),
    (END, Group::End),
    (Instr::Block(BlockKind::Loop, None), Group::Loop(None)),
    (END, Group::End),
    (FIRST, Group::Get(0)),
    (Instr::Block(BlockKind::If, None), Group::If(None)),
    (Instr::Plain(Plain::Else), Group::Else),
    (END, Group::End),
    (FIRST, Group::Get(0)),
    (Instr::Index(IndexOp::LocalGet, 1), Group::Get(1)),
    (Instr::Index(IndexOp::Call, 0), Group::Call(0)),
    // Loads and stores, of the kinds that have entries.
    (FIRST, Group::Get(0)),
    (
        Instr::Memory(MemoryOp::Load(Load::Whole(ValType::I32)), AT),
        Group::LoadI32(AT),
    ),
    (BYTE, Group::LoadByte(AT)),
    (SIGNED_BYTE, Group::LoadSignedByte(AT)),
    (HALF, Group::LoadHalf(AT)),
    (SIGNED_HALF, Group::Plain),
    (DROP, Group::Discard),
    (FIRST, Group::Get(0)),
    (
        Instr::Memory(MemoryOp::Load(Load::Whole(ValType::I64)), AT),
        Group::LoadI64(AT),
    ),
    (DROP, Group::Discard),
    (FIRST, Group::Get(0)),
    (THIRD, Group::Get(3)),
    (STORE, Group::StoreI32(AT)),
    (FIRST, Group::Get(0)),
    (THIRD, Group::Get(3)),
    (STORE_BYTE, Group::StoreByte(AT)),
    (FIRST, Group::Get(0)),
    (THIRD, Group::Get(3)),
    (STORE_HALF, Group::StoreHalf(AT)),
    (FIRST, Group::Get(0)),
    (MANY, Group::Get(300)),
    (STORE_64, Group::StoreI64(AT)),
    (Instr::Plain(Plain::Return), Group::Return),
    (END, Group::End),
];
