//! Each operation on two integers for pairs of operands, as a plain program of another language gives it, and a few
//! rows for each other kind of instruction.

use integer_ops::compute;
use std::process::Abort;
use wasm_types::{BinaryOp, Comparison, Extension, Narrow, Numeric, Trap, UnaryOp, ValType, Value};

static BINARY_32: [(BinaryOp, u32, u32, Result<u32, Trap>); 60] = [
    (BinaryOp::Add, 0x80000000, 0xffffffff, Ok(0x7fffffff)),
    (BinaryOp::Add, 0xfffffff9, 0x2, Ok(0xfffffffb)),
    (BinaryOp::Add, 0x5, 0x0, Ok(0x5)),
    (BinaryOp::Add, 0x12345678, 0x24, Ok(0x1234569c)),
    (BinaryOp::Subtract, 0x80000000, 0xffffffff, Ok(0x80000001)),
    (BinaryOp::Subtract, 0xfffffff9, 0x2, Ok(0xfffffff7)),
    (BinaryOp::Subtract, 0x5, 0x0, Ok(0x5)),
    (BinaryOp::Subtract, 0x12345678, 0x24, Ok(0x12345654)),
    (BinaryOp::Multiply, 0x80000000, 0xffffffff, Ok(0x80000000)),
    (BinaryOp::Multiply, 0xfffffff9, 0x2, Ok(0xfffffff2)),
    (BinaryOp::Multiply, 0x5, 0x0, Ok(0x0)),
    (BinaryOp::Multiply, 0x12345678, 0x24, Ok(0x8f5c28e0)),
    (
        BinaryOp::DivideSigned,
        0x80000000,
        0xffffffff,
        Err(Trap::IntegerOverflow),
    ),
    (BinaryOp::DivideSigned, 0xfffffff9, 0x2, Ok(0xfffffffd)),
    (BinaryOp::DivideSigned, 0x5, 0x0, Err(Trap::DivideByZero)),
    (BinaryOp::DivideSigned, 0x12345678, 0x24, Ok(0x81742e)),
    (BinaryOp::DivideUnsigned, 0x80000000, 0xffffffff, Ok(0x0)),
    (BinaryOp::DivideUnsigned, 0xfffffff9, 0x2, Ok(0x7ffffffc)),
    (BinaryOp::DivideUnsigned, 0x5, 0x0, Err(Trap::DivideByZero)),
    (BinaryOp::DivideUnsigned, 0x12345678, 0x24, Ok(0x81742e)),
    (BinaryOp::RemainderSigned, 0x80000000, 0xffffffff, Ok(0x0)),
    (BinaryOp::RemainderSigned, 0xfffffff9, 0x2, Ok(0xffffffff)),
    (BinaryOp::RemainderSigned, 0x5, 0x0, Err(Trap::DivideByZero)),
    (BinaryOp::RemainderSigned, 0x12345678, 0x24, Ok(0x0)),
    (
        BinaryOp::RemainderUnsigned,
        0x80000000,
        0xffffffff,
        Ok(0x80000000),
    ),
    (BinaryOp::RemainderUnsigned, 0xfffffff9, 0x2, Ok(0x1)),
    (
        BinaryOp::RemainderUnsigned,
        0x5,
        0x0,
        Err(Trap::DivideByZero),
    ),
    (BinaryOp::RemainderUnsigned, 0x12345678, 0x24, Ok(0x0)),
    (BinaryOp::And, 0x80000000, 0xffffffff, Ok(0x80000000)),
    (BinaryOp::And, 0xfffffff9, 0x2, Ok(0x0)),
    (BinaryOp::And, 0x5, 0x0, Ok(0x0)),
    (BinaryOp::And, 0x12345678, 0x24, Ok(0x20)),
    (BinaryOp::Or, 0x80000000, 0xffffffff, Ok(0xffffffff)),
    (BinaryOp::Or, 0xfffffff9, 0x2, Ok(0xfffffffb)),
    (BinaryOp::Or, 0x5, 0x0, Ok(0x5)),
    (BinaryOp::Or, 0x12345678, 0x24, Ok(0x1234567c)),
    (BinaryOp::Xor, 0x80000000, 0xffffffff, Ok(0x7fffffff)),
    (BinaryOp::Xor, 0xfffffff9, 0x2, Ok(0xfffffffb)),
    (BinaryOp::Xor, 0x5, 0x0, Ok(0x5)),
    (BinaryOp::Xor, 0x12345678, 0x24, Ok(0x1234565c)),
    (BinaryOp::ShiftLeft, 0x80000000, 0xffffffff, Ok(0x0)),
    (BinaryOp::ShiftLeft, 0xfffffff9, 0x2, Ok(0xffffffe4)),
    (BinaryOp::ShiftLeft, 0x5, 0x0, Ok(0x5)),
    (BinaryOp::ShiftLeft, 0x12345678, 0x24, Ok(0x23456780)),
    (
        BinaryOp::ShiftRightSigned,
        0x80000000,
        0xffffffff,
        Ok(0xffffffff),
    ),
    (BinaryOp::ShiftRightSigned, 0xfffffff9, 0x2, Ok(0xfffffffe)),
    (BinaryOp::ShiftRightSigned, 0x5, 0x0, Ok(0x5)),
    (BinaryOp::ShiftRightSigned, 0x12345678, 0x24, Ok(0x1234567)),
    (
        BinaryOp::ShiftRightUnsigned,
        0x80000000,
        0xffffffff,
        Ok(0x1),
    ),
    (
        BinaryOp::ShiftRightUnsigned,
        0xfffffff9,
        0x2,
        Ok(0x3ffffffe),
    ),
    (BinaryOp::ShiftRightUnsigned, 0x5, 0x0, Ok(0x5)),
    (
        BinaryOp::ShiftRightUnsigned,
        0x12345678,
        0x24,
        Ok(0x1234567),
    ),
    (BinaryOp::RotateLeft, 0x80000000, 0xffffffff, Ok(0x40000000)),
    (BinaryOp::RotateLeft, 0xfffffff9, 0x2, Ok(0xffffffe7)),
    (BinaryOp::RotateLeft, 0x5, 0x0, Ok(0x5)),
    (BinaryOp::RotateLeft, 0x12345678, 0x24, Ok(0x23456781)),
    (BinaryOp::RotateRight, 0x80000000, 0xffffffff, Ok(0x1)),
    (BinaryOp::RotateRight, 0xfffffff9, 0x2, Ok(0x7ffffffe)),
    (BinaryOp::RotateRight, 0x5, 0x0, Ok(0x5)),
    (BinaryOp::RotateRight, 0x12345678, 0x24, Ok(0x81234567)),
];

static BINARY_64: [(BinaryOp, u64, u64, Result<u64, Trap>); 60] = [
    (
        BinaryOp::Add,
        0x8000000000000000,
        0xffffffffffffffff,
        Ok(0x7fffffffffffffff),
    ),
    (
        BinaryOp::Add,
        0xfffffffffffffff9,
        0x2,
        Ok(0xfffffffffffffffb),
    ),
    (BinaryOp::Add, 0x5, 0x0, Ok(0x5)),
    (
        BinaryOp::Add,
        0x123456789abcdef0,
        0x44,
        Ok(0x123456789abcdf34),
    ),
    (
        BinaryOp::Subtract,
        0x8000000000000000,
        0xffffffffffffffff,
        Ok(0x8000000000000001),
    ),
    (
        BinaryOp::Subtract,
        0xfffffffffffffff9,
        0x2,
        Ok(0xfffffffffffffff7),
    ),
    (BinaryOp::Subtract, 0x5, 0x0, Ok(0x5)),
    (
        BinaryOp::Subtract,
        0x123456789abcdef0,
        0x44,
        Ok(0x123456789abcdeac),
    ),
    (
        BinaryOp::Multiply,
        0x8000000000000000,
        0xffffffffffffffff,
        Ok(0x8000000000000000),
    ),
    (
        BinaryOp::Multiply,
        0xfffffffffffffff9,
        0x2,
        Ok(0xfffffffffffffff2),
    ),
    (BinaryOp::Multiply, 0x5, 0x0, Ok(0x0)),
    (
        BinaryOp::Multiply,
        0x123456789abcdef0,
        0x44,
        Ok(0xd5e6f8091a2b37c0),
    ),
    (
        BinaryOp::DivideSigned,
        0x8000000000000000,
        0xffffffffffffffff,
        Err(Trap::IntegerOverflow),
    ),
    (
        BinaryOp::DivideSigned,
        0xfffffffffffffff9,
        0x2,
        Ok(0xfffffffffffffffd),
    ),
    (BinaryOp::DivideSigned, 0x5, 0x0, Err(Trap::DivideByZero)),
    (
        BinaryOp::DivideSigned,
        0x123456789abcdef0,
        0x44,
        Ok(0x4488cd115599dd),
    ),
    (
        BinaryOp::DivideUnsigned,
        0x8000000000000000,
        0xffffffffffffffff,
        Ok(0x0),
    ),
    (
        BinaryOp::DivideUnsigned,
        0xfffffffffffffff9,
        0x2,
        Ok(0x7ffffffffffffffc),
    ),
    (BinaryOp::DivideUnsigned, 0x5, 0x0, Err(Trap::DivideByZero)),
    (
        BinaryOp::DivideUnsigned,
        0x123456789abcdef0,
        0x44,
        Ok(0x4488cd115599dd),
    ),
    (
        BinaryOp::RemainderSigned,
        0x8000000000000000,
        0xffffffffffffffff,
        Ok(0x0),
    ),
    (
        BinaryOp::RemainderSigned,
        0xfffffffffffffff9,
        0x2,
        Ok(0xffffffffffffffff),
    ),
    (BinaryOp::RemainderSigned, 0x5, 0x0, Err(Trap::DivideByZero)),
    (
        BinaryOp::RemainderSigned,
        0x123456789abcdef0,
        0x44,
        Ok(0x3c),
    ),
    (
        BinaryOp::RemainderUnsigned,
        0x8000000000000000,
        0xffffffffffffffff,
        Ok(0x8000000000000000),
    ),
    (
        BinaryOp::RemainderUnsigned,
        0xfffffffffffffff9,
        0x2,
        Ok(0x1),
    ),
    (
        BinaryOp::RemainderUnsigned,
        0x5,
        0x0,
        Err(Trap::DivideByZero),
    ),
    (
        BinaryOp::RemainderUnsigned,
        0x123456789abcdef0,
        0x44,
        Ok(0x3c),
    ),
    (
        BinaryOp::And,
        0x8000000000000000,
        0xffffffffffffffff,
        Ok(0x8000000000000000),
    ),
    (BinaryOp::And, 0xfffffffffffffff9, 0x2, Ok(0x0)),
    (BinaryOp::And, 0x5, 0x0, Ok(0x0)),
    (BinaryOp::And, 0x123456789abcdef0, 0x44, Ok(0x40)),
    (
        BinaryOp::Or,
        0x8000000000000000,
        0xffffffffffffffff,
        Ok(0xffffffffffffffff),
    ),
    (
        BinaryOp::Or,
        0xfffffffffffffff9,
        0x2,
        Ok(0xfffffffffffffffb),
    ),
    (BinaryOp::Or, 0x5, 0x0, Ok(0x5)),
    (
        BinaryOp::Or,
        0x123456789abcdef0,
        0x44,
        Ok(0x123456789abcdef4),
    ),
    (
        BinaryOp::Xor,
        0x8000000000000000,
        0xffffffffffffffff,
        Ok(0x7fffffffffffffff),
    ),
    (
        BinaryOp::Xor,
        0xfffffffffffffff9,
        0x2,
        Ok(0xfffffffffffffffb),
    ),
    (BinaryOp::Xor, 0x5, 0x0, Ok(0x5)),
    (
        BinaryOp::Xor,
        0x123456789abcdef0,
        0x44,
        Ok(0x123456789abcdeb4),
    ),
    (
        BinaryOp::ShiftLeft,
        0x8000000000000000,
        0xffffffffffffffff,
        Ok(0x0),
    ),
    (
        BinaryOp::ShiftLeft,
        0xfffffffffffffff9,
        0x2,
        Ok(0xffffffffffffffe4),
    ),
    (BinaryOp::ShiftLeft, 0x5, 0x0, Ok(0x5)),
    (
        BinaryOp::ShiftLeft,
        0x123456789abcdef0,
        0x44,
        Ok(0x23456789abcdef00),
    ),
    (
        BinaryOp::ShiftRightSigned,
        0x8000000000000000,
        0xffffffffffffffff,
        Ok(0xffffffffffffffff),
    ),
    (
        BinaryOp::ShiftRightSigned,
        0xfffffffffffffff9,
        0x2,
        Ok(0xfffffffffffffffe),
    ),
    (BinaryOp::ShiftRightSigned, 0x5, 0x0, Ok(0x5)),
    (
        BinaryOp::ShiftRightSigned,
        0x123456789abcdef0,
        0x44,
        Ok(0x123456789abcdef),
    ),
    (
        BinaryOp::ShiftRightUnsigned,
        0x8000000000000000,
        0xffffffffffffffff,
        Ok(0x1),
    ),
    (
        BinaryOp::ShiftRightUnsigned,
        0xfffffffffffffff9,
        0x2,
        Ok(0x3ffffffffffffffe),
    ),
    (BinaryOp::ShiftRightUnsigned, 0x5, 0x0, Ok(0x5)),
    (
        BinaryOp::ShiftRightUnsigned,
        0x123456789abcdef0,
        0x44,
        Ok(0x123456789abcdef),
    ),
    (
        BinaryOp::RotateLeft,
        0x8000000000000000,
        0xffffffffffffffff,
        Ok(0x4000000000000000),
    ),
    (
        BinaryOp::RotateLeft,
        0xfffffffffffffff9,
        0x2,
        Ok(0xffffffffffffffe7),
    ),
    (BinaryOp::RotateLeft, 0x5, 0x0, Ok(0x5)),
    (
        BinaryOp::RotateLeft,
        0x123456789abcdef0,
        0x44,
        Ok(0x23456789abcdef01),
    ),
    (
        BinaryOp::RotateRight,
        0x8000000000000000,
        0xffffffffffffffff,
        Ok(0x1),
    ),
    (
        BinaryOp::RotateRight,
        0xfffffffffffffff9,
        0x2,
        Ok(0x7ffffffffffffffe),
    ),
    (BinaryOp::RotateRight, 0x5, 0x0, Ok(0x5)),
    (
        BinaryOp::RotateRight,
        0x123456789abcdef0,
        0x44,
        Ok(0x123456789abcdef),
    ),
];

fn same(rt: &impl Abort, found: Result<Value, Trap>, want: Result<Value, Trap>) {
    assert_eq!(rt; found, want);
}

fn value_32(wanted: &Result<u32, Trap>) -> Result<Value, Trap> {
    match wanted {
        Ok(number) => Ok(Value::I32(*number)),
        Err(trap) => Err(*trap),
    }
}

fn value_64(wanted: &Result<u64, Trap>) -> Result<Value, Trap> {
    match wanted {
        Ok(number) => Ok(Value::I64(*number)),
        Err(trap) => Err(*trap),
    }
}

#[test]
fn operations_on_two_integers(rt: HostRuntime) {
    for (op, a, b, wanted) in &BINARY_32 {
        let op = Numeric::Binary(ValType::I32, *op);
        let found = compute(op, Value::I32(*a), Value::I32(*b));
        same(&rt, found, value_32(wanted));
    }
    for (op, a, b, wanted) in &BINARY_64 {
        let op = Numeric::Binary(ValType::I64, *op);
        let found = compute(op, Value::I64(*a), Value::I64(*b));
        same(&rt, found, value_64(wanted));
    }
}

/// Of the least number and 1: which comparisons hold.
static COMPARISONS: [(Comparison, u32); 10] = [
    (Comparison::Equal, 0),
    (Comparison::NotEqual, 1),
    (Comparison::LessSigned, 1),
    (Comparison::LessUnsigned, 0),
    (Comparison::GreaterSigned, 0),
    (Comparison::GreaterUnsigned, 1),
    (Comparison::LessEqualSigned, 1),
    (Comparison::LessEqualUnsigned, 0),
    (Comparison::GreaterEqualSigned, 0),
    (Comparison::GreaterEqualUnsigned, 1),
];

#[test]
fn comparisons(rt: HostRuntime) {
    for (op, holds) in &COMPARISONS {
        let want = Ok(Value::I32(*holds));
        let narrow = compute(
            Numeric::Compare(ValType::I32, *op),
            Value::I32(0x8000_0000),
            Value::I32(1),
        );
        same(&rt, narrow, want);
        let wide = compute(
            Numeric::Compare(ValType::I64, *op),
            Value::I64(0x8000_0000_0000_0000),
            Value::I64(1),
        );
        same(&rt, wide, want);
    }
}

/// An operation on one integer, its operand and what it gives.
static ONE_OPERAND: [(Numeric, Value, Value); 17] = [
    (Numeric::IsZero(ValType::I32), Value::I32(0), Value::I32(1)),
    (
        Numeric::IsZero(ValType::I64),
        Value::I64(0x1_0000_0000),
        Value::I32(0),
    ),
    (
        Numeric::Unary(ValType::I32, UnaryOp::LeadingZeros),
        Value::I32(0),
        Value::I32(32),
    ),
    (
        Numeric::Unary(ValType::I64, UnaryOp::LeadingZeros),
        Value::I64(1),
        Value::I64(63),
    ),
    (
        Numeric::Unary(ValType::I32, UnaryOp::TrailingZeros),
        Value::I32(8),
        Value::I32(3),
    ),
    (
        Numeric::Unary(ValType::I64, UnaryOp::TrailingZeros),
        Value::I64(0),
        Value::I64(64),
    ),
    (
        Numeric::Unary(ValType::I32, UnaryOp::CountOnes),
        Value::I32(0xF0F0),
        Value::I32(8),
    ),
    (
        Numeric::Unary(ValType::I64, UnaryOp::CountOnes),
        Value::I64(u64::MAX),
        Value::I64(64),
    ),
    (
        Numeric::Wrap,
        Value::I64(0x1_2345_6789),
        Value::I32(0x2345_6789),
    ),
    (
        Numeric::Extend(Extension::Signed),
        Value::I32(0x8000_0000),
        Value::I64(0xFFFF_FFFF_8000_0000),
    ),
    (
        Numeric::Extend(Extension::Unsigned),
        Value::I32(0x8000_0000),
        Value::I64(0x8000_0000),
    ),
    (
        Numeric::ExtendLow(Narrow::I32Of8),
        Value::I32(128),
        Value::I32(0xFFFF_FF80),
    ),
    (
        Numeric::ExtendLow(Narrow::I32Of8),
        Value::I32(383),
        Value::I32(127),
    ),
    (
        Numeric::ExtendLow(Narrow::I32Of16),
        Value::I32(32768),
        Value::I32(0xFFFF_8000),
    ),
    (
        Numeric::ExtendLow(Narrow::I64Of8),
        Value::I64(0x80),
        Value::I64(0xFFFF_FFFF_FFFF_FF80),
    ),
    (
        Numeric::ExtendLow(Narrow::I64Of16),
        Value::I64(0x1_7FFF),
        Value::I64(0x7FFF),
    ),
    (
        Numeric::ExtendLow(Narrow::I64Of32),
        Value::I64(2147483648),
        Value::I64(0xFFFF_FFFF_8000_0000),
    ),
];

#[test]
fn operations_on_one_integer(rt: HostRuntime) {
    for (op, a, wanted) in &ONE_OPERAND {
        // The second operand has no effect.
        same(&rt, compute(*op, *a, *a), Ok(*wanted));
    }
}
