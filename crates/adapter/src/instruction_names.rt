//! Parts of the names that instructions have in the text format.

ghost use Rattle.std.specs.Prelude.{◌≡◌};
ghost use Rattle.adapter.specs.InstructionText.{access_name, atomic_sign, binary_name, block_name, comparison_name, extend_name, index_name, load_sign, narrow_name, pages_name, plain_name, rmw_name, sign_name, type_name, unary_name, wait_name};

use wasm_types::{
    Access, BinaryOp, BlockKind, Comparison, Extension, IndexOp, Load, Narrow, PagesOp, Plain,
    RmwOp, UnaryOp, ValType,
};

/// A type.
pub(crate) fn type_name(of: ValType) -> &'static str
    ensures { result.now ≡ type_name of }
{
    match of {
        ValType::I32 => "i32",
        ValType::I64 => "i64",
    }
}

/// How a number is made wide.
fn sign_name(extension: Extension) -> &'static str
    ensures { result.now ≡ sign_name extension }
{
    match extension {
        Extension::Signed => "_s",
        Extension::Unsigned => "_u",
    }
}

/// The bits of a narrow number.
pub(crate) fn narrow_name(narrow: Narrow) -> &'static str
    ensures { result.now ≡ narrow_name narrow }
{
    match narrow {
        Narrow::I32Of8 | Narrow::I64Of8 => "8",
        Narrow::I32Of16 | Narrow::I64Of16 => "16",
        Narrow::I64Of32 => "32",
    }
}

/// An operation on one integer.
pub(crate) fn unary_name(op: UnaryOp) -> &'static str
    ensures { result.now ≡ unary_name op }
{
    match op {
        UnaryOp::LeadingZeros => "clz",
        UnaryOp::TrailingZeros => "ctz",
        UnaryOp::CountOnes => "popcnt",
    }
}

/// A comparison.
pub(crate) fn comparison_name(op: Comparison) -> &'static str
    ensures { result.now ≡ comparison_name op }
{
    match op {
        Comparison::Equal => "eq",
        Comparison::NotEqual => "ne",
        Comparison::LessSigned => "lt_s",
        Comparison::LessUnsigned => "lt_u",
        Comparison::GreaterSigned => "gt_s",
        Comparison::GreaterUnsigned => "gt_u",
        Comparison::LessEqualSigned => "le_s",
        Comparison::LessEqualUnsigned => "le_u",
        Comparison::GreaterEqualSigned => "ge_s",
        Comparison::GreaterEqualUnsigned => "ge_u",
    }
}

/// An operation on two integers.
pub(crate) fn binary_name(op: BinaryOp) -> &'static str
    ensures { result.now ≡ binary_name op }
{
    match op {
        BinaryOp::Add => "add",
        BinaryOp::Subtract => "sub",
        BinaryOp::Multiply => "mul",
        BinaryOp::DivideSigned => "div_s",
        BinaryOp::DivideUnsigned => "div_u",
        BinaryOp::RemainderSigned => "rem_s",
        BinaryOp::RemainderUnsigned => "rem_u",
        BinaryOp::And => "and",
        BinaryOp::Or => "or",
        BinaryOp::Xor => "xor",
        BinaryOp::ShiftLeft => "shl",
        BinaryOp::ShiftRightSigned => "shr_s",
        BinaryOp::ShiftRightUnsigned => "shr_u",
        BinaryOp::RotateLeft => "rotl",
        BinaryOp::RotateRight => "rotr",
    }
}

/// What an atomic read-modify-write stores.
pub(crate) fn rmw_name(op: RmwOp) -> &'static str
    ensures { result.now ≡ rmw_name op }
{
    match op {
        RmwOp::Add => "add",
        RmwOp::Subtract => "sub",
        RmwOp::And => "and",
        RmwOp::Or => "or",
        RmwOp::Xor => "xor",
        RmwOp::Exchange => "xchg",
    }
}

/// The bits of a narrow access.
pub(crate) fn access_name(access: Access) -> &'static str
    ensures { result.now ≡ access_name access }
{
    match access {
        Access::Whole(_) => "",
        Access::Narrow(narrow) => narrow_name(narrow),
    }
}

/// How a narrow atomic access is made wide.
pub(crate) fn atomic_sign(access: Access) -> &'static str
    ensures { result.now ≡ atomic_sign access }
{
    match access {
        Access::Whole(_) => "",
        Access::Narrow(_) => "_u",
    }
}

/// How a narrow load is made wide.
pub(crate) fn load_sign(load: Load) -> &'static str
    ensures { result.now ≡ load_sign load }
{
    match load {
        Load::Whole(_) => "",
        Load::Narrow(_, extension) => sign_name(extension),
    }
}

/// An instruction of one byte.
pub(crate) fn plain_name(op: Plain) -> &'static str
    ensures { result.now ≡ plain_name op }
{
    match op {
        Plain::Unreachable => "unreachable",
        Plain::Nop => "nop",
        Plain::Else => "else",
        Plain::End => "end",
        Plain::Return => "return",
        Plain::Discard => "drop",
        Plain::Select => "select",
    }
}

/// The extension of an `i32` to an `i64`.
pub(crate) fn extend_name(extension: Extension) -> &'static str
    ensures { result.now ≡ extend_name extension }
{
    match extension {
        Extension::Signed => "i64.extend_i32_s",
        Extension::Unsigned => "i64.extend_i32_u",
    }
}

/// An instruction that opens a block.
pub(crate) fn block_name(kind: BlockKind) -> &'static str
    ensures { result.now ≡ block_name kind }
{
    match kind {
        BlockKind::Block => "block",
        BlockKind::Loop => "loop",
        BlockKind::If => "if",
    }
}

/// An instruction with one index.
pub(crate) fn index_name(op: IndexOp) -> &'static str
    ensures { result.now ≡ index_name op }
{
    match op {
        IndexOp::Branch => "br",
        IndexOp::BranchIf => "br_if",
        IndexOp::Call => "call",
        IndexOp::LocalGet => "local.get",
        IndexOp::LocalSet => "local.set",
        IndexOp::LocalTee => "local.tee",
        IndexOp::GlobalGet => "global.get",
        IndexOp::GlobalSet => "global.set",
    }
}

/// An instruction on pages of the memory.
pub(crate) fn pages_name(op: PagesOp) -> &'static str
    ensures { result.now ≡ pages_name op }
{
    match op {
        PagesOp::Size => "memory.size",
        PagesOp::Grow => "memory.grow",
    }
}

/// An atomic wait for a number of that type.
pub(crate) fn wait_name(of: ValType) -> &'static str
    ensures { result.now ≡ wait_name of }
{
    match of {
        ValType::I32 => "memory.atomic.wait32",
        ValType::I64 => "memory.atomic.wait64",
    }
}
