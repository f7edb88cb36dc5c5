//! Integers of 64 bits.

ghost use Rattle.std.specs.Prelude.{◌≡◌, ◌%◌};
ghost use Rattle.std.specs.Int.{w64};
ghost use Rattle.wasm_types.specs.declared.instruction.BinaryOp.TheVariants as BinaryOp;
ghost use Rattle.integer_ops.specs.Integers.{compared, unary, binary, overflows};

use wasm_types::{BinaryOp, Comparison, Trap, UnaryOp};

/// Compares two integers.
#[inline(always)]
pub fn compare(op: Comparison, a: u64, b: u64) -> bool
    ensures { result ≡ compared w64 op a b }
{
    match op {
        Comparison::Equal => a == b,
        Comparison::NotEqual => a != b,
        Comparison::LessSigned => a.cast_signed() < b.cast_signed(),
        Comparison::LessUnsigned => a < b,
        Comparison::GreaterSigned => b.cast_signed() < a.cast_signed(),
        Comparison::GreaterUnsigned => b < a,
        Comparison::LessEqualSigned => a.cast_signed() <= b.cast_signed(),
        Comparison::LessEqualUnsigned => a <= b,
        Comparison::GreaterEqualSigned => b.cast_signed() <= a.cast_signed(),
        Comparison::GreaterEqualUnsigned => b <= a,
    }
}

/// An operation on one integer.
#[inline(always)]
pub fn apply_to_one(op: UnaryOp, a: u64) -> u64
    ensures { result ≡ unary w64 op a }
{
    match op {
        UnaryOp::LeadingZeros => u64::from(a.leading_zeros()),
        UnaryOp::TrailingZeros => u64::from(a.trailing_zeros()),
        UnaryOp::CountOnes => u64::from(a.count_ones()),
    }
}

/// Whether the quotient of signed integers has too many bits: that of the least number by -1.
fn quotient_overflows(a: u64, b: u64) -> bool
    ensures { result ≡ overflows w64 a b }
{
    a == 0x8000_0000_0000_0000 && b == u64::MAX
}

/// The quotient of signed integers, rounded toward zero.
fn divide_signed(a: u64, b: u64) -> Result<u64, Trap>
    ensures { result ≡ binary w64 BinaryOp.DivideSigned a b }
{
    if b == 0 {
        return Err(Trap::DivideByZero);
    }
    if quotient_overflows(a, b) {
        return Err(Trap::IntegerOverflow);
    }
    let quotient = a.cast_signed().wrapping_div(b.cast_signed());
    Ok(quotient.cast_unsigned())
}

/// The remainder of signed integers, which has the sign of the dividend.
fn remainder_signed(a: u64, b: u64) -> Result<u64, Trap>
    ensures { result ≡ binary w64 BinaryOp.RemainderSigned a b }
{
    if b == 0 {
        return Err(Trap::DivideByZero);
    }
    let remainder = a.cast_signed().wrapping_rem(b.cast_signed());
    Ok(remainder.cast_unsigned())
}

/// The quotient of unsigned integers.
fn divide_unsigned(a: u64, b: u64) -> Result<u64, Trap>
    ensures { result ≡ binary w64 BinaryOp.DivideUnsigned a b }
{
    if b == 0 {
        return Err(Trap::DivideByZero);
    }
    Ok(a / b)
}

/// The remainder of unsigned integers.
fn remainder_unsigned(a: u64, b: u64) -> Result<u64, Trap>
    ensures { result ≡ binary w64 BinaryOp.RemainderUnsigned a b }
{
    if b == 0 {
        return Err(Trap::DivideByZero);
    }
    Ok(a % b)
}

/// By how many bits an integer is shifted or rotated.
#[inline(always)]
fn shift_count(b: u64) -> u32
    ensures { result ≡ b % 64 }
{
    (b % 64) as u32
}

/// An operation on two integers.
#[inline(always)]
pub fn apply_to_two(op: BinaryOp, a: u64, b: u64) -> Result<u64, Trap>
    ensures { result ≡ binary w64 op a b }
{
    match op {
        BinaryOp::Add => Ok(a.wrapping_add(b)),
        BinaryOp::Subtract => Ok(a.wrapping_sub(b)),
        BinaryOp::Multiply => Ok(a.wrapping_mul(b)),
        BinaryOp::DivideSigned => divide_signed(a, b),
        BinaryOp::DivideUnsigned => divide_unsigned(a, b),
        BinaryOp::RemainderSigned => remainder_signed(a, b),
        BinaryOp::RemainderUnsigned => remainder_unsigned(a, b),
        BinaryOp::And => Ok(a & b),
        BinaryOp::Or => Ok(a | b),
        BinaryOp::Xor => Ok(a ^ b),
        BinaryOp::ShiftLeft => Ok(a << shift_count(b)),
        BinaryOp::ShiftRightSigned => Ok((a.cast_signed() >> shift_count(b)).cast_unsigned()),
        BinaryOp::ShiftRightUnsigned => Ok(a >> shift_count(b)),
        BinaryOp::RotateLeft => Ok(a.rotate_left(shift_count(b))),
        BinaryOp::RotateRight => Ok(a.rotate_right(shift_count(b))),
    }
}
