//! Instructions of the integer profile, grouped by their operands.

use crate::value::{ValType, Value};

/// An access of fewer bytes than its type has: 8, 16 or 32 bits of an `i32` or `i64`.
#[derive(Clone, Copy, Debug, PartialEq, Eq)]
pub enum Narrow {
    I32Of8,
    I32Of16,
    I64Of8,
    I64Of16,
    I64Of32,
}

/// How many bytes an access takes, and the type of what it hands on.
#[derive(Clone, Copy, Debug, PartialEq, Eq)]
pub enum Access {
    /// All bytes of the type.
    Whole(ValType),
    Narrow(Narrow),
}

/// How a narrow number is made wide: by copies of its sign, or by zeros.
#[derive(Clone, Copy, Debug, PartialEq, Eq)]
pub enum Extension {
    Signed,
    Unsigned,
}

/// A load.
#[derive(Clone, Copy, Debug, PartialEq, Eq)]
pub enum Load {
    Whole(ValType),
    Narrow(Narrow, Extension),
}

/// A comparison of two integers (WebAssembly Core 1.0, `irelop`).
#[derive(Clone, Copy, Debug, PartialEq, Eq)]
pub enum Comparison {
    Equal,
    NotEqual,
    LessSigned,
    LessUnsigned,
    GreaterSigned,
    GreaterUnsigned,
    LessEqualSigned,
    LessEqualUnsigned,
    GreaterEqualSigned,
    GreaterEqualUnsigned,
}

/// An operation on one integer (WebAssembly Core 1.0, `iunop`).
#[derive(Clone, Copy, Debug, PartialEq, Eq)]
pub enum UnaryOp {
    /// `clz`: zeros above the highest one.
    LeadingZeros,
    /// `ctz`: zeros below the lowest one.
    TrailingZeros,
    /// `popcnt`: ones.
    CountOnes,
}

/// An operation on two integers (WebAssembly Core 1.0, `ibinop`).
#[derive(Clone, Copy, Debug, PartialEq, Eq)]
pub enum BinaryOp {
    Add,
    Subtract,
    Multiply,
    DivideSigned,
    DivideUnsigned,
    RemainderSigned,
    RemainderUnsigned,
    And,
    Or,
    Xor,
    ShiftLeft,
    ShiftRightSigned,
    ShiftRightUnsigned,
    RotateLeft,
    RotateRight,
}

/// A numeric instruction behind the constants. Its operands have the type that is named, `Wrap` takes an `i64` and
/// `Extend` an `i32`.
#[derive(Clone, Copy, Debug, PartialEq, Eq)]
pub enum Numeric {
    /// `eqz`.
    IsZero(ValType),
    Compare(ValType, Comparison),
    Unary(ValType, UnaryOp),
    Binary(ValType, BinaryOp),
    /// `i32.wrap_i64`.
    Wrap,
    /// `i64.extend_i32_s` and `i64.extend_i32_u`.
    Extend(Extension),
    /// The sign extension of the low bits, as `i32.extend8_s`; profile 2 alone has it.
    ExtendLow(Narrow),
}

/// An instruction of one byte, but for the numeric ones.
#[derive(Clone, Copy, Debug, PartialEq, Eq)]
pub enum Plain {
    Unreachable,
    Nop,
    Else,
    End,
    Return,
    /// `drop`.
    Discard,
    Select,
}

/// An instruction that opens a block.
#[derive(Clone, Copy, Debug, PartialEq, Eq)]
pub enum BlockKind {
    Block,
    Loop,
    If,
}

/// An instruction with one index.
#[derive(Clone, Copy, Debug, PartialEq, Eq)]
pub enum IndexOp {
    Branch,
    BranchIf,
    Call,
    LocalGet,
    LocalSet,
    LocalTee,
    GlobalGet,
    GlobalSet,
}

/// A range of the labels that the function's body keeps for its branch tables.
#[derive(Clone, Copy, Debug, PartialEq, Eq)]
pub struct LabelRange {
    pub first: u32,
    pub count: u32,
}

/// The alignment, as an exponent of two, and the offset in bytes.
#[derive(Clone, Copy, Debug, PartialEq, Eq)]
pub struct MemArg {
    pub align: u32,
    pub offset: u32,
}

/// An access that is not atomic.
#[derive(Clone, Copy, Debug, PartialEq, Eq)]
pub enum MemoryOp {
    Load(Load),
    Store(Access),
}

/// What `memory.size` and `memory.grow` do, in pages.
#[derive(Clone, Copy, Debug, PartialEq, Eq)]
pub enum PagesOp {
    Size,
    Grow,
}

/// What an atomic read-modify-write stores (threads proposal).
#[derive(Clone, Copy, Debug, PartialEq, Eq)]
pub enum RmwOp {
    Add,
    Subtract,
    And,
    Or,
    Xor,
    Exchange,
}

/// An atomic instruction with a memory argument (threads proposal).
#[derive(Clone, Copy, Debug, PartialEq, Eq)]
pub enum AtomicOp {
    Notify,
    /// `wait32` or `wait64`.
    Wait(ValType),
    Load(Access),
    Store(Access),
    Rmw(RmwOp, Access),
    CompareExchange(Access),
}

/// An instruction (WebAssembly Core 1.0, threads proposal, and the five sign extensions).
#[derive(Clone, Copy, Debug, PartialEq, Eq)]
pub enum Instr {
    Plain(Plain),
    Numeric(Numeric),
    /// A block with its result, if it has one.
    Block(BlockKind, Option<ValType>),
    Index(IndexOp, u32),
    /// `br_table`, with its labels and the default.
    BranchTable(LabelRange, u32),
    /// `call_indirect`, with the index of its type.
    CallIndirect(u32),
    Memory(MemoryOp, MemArg),
    Pages(PagesOp),
    Const(Value),
    Atomic(AtomicOp, MemArg),
    Fence,
}
