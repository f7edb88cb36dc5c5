//! Numeric instructions.

ghost use Rattle.std.specs.Prelude.{◌≡◌, ◌+◌, ◌<◌, ◌≤◌, ◌^◌, [], ◌∷◌, length, true};
ghost use Rattle.integer_ops.specs.Numeric.{operand_types};
ghost use Rattle.wasm_types.specs.declared.instruction.Instr.TheVariants.{Numeric as NumericInstr};
ghost use Rattle.wasm_types.specs.declared.instruction.Numeric.TheVariants.{ExtendLow};
ghost use Rattle.thread_words.specs.Moves.{CanStepSomewhere, StepsAnywhere};
ghost use Rattle.thread_words.specs.Fields.{Finishes, Keeps};

use crate::operands::{replace_top, typed_operand, word};
use crate::stacks::{Stacks, Stage};
use integer_ops::compute;
use wasm_types::{Narrow, Numeric, Outcome, Trap, ValType, Value};

/// The type of the integer whose low bits are extended.
fn type_of_narrow(narrow: Narrow) -> ValType
    ensures { operand_types (ExtendLow narrow) ≡ result ∷ [] }
{
    match narrow {
        Narrow::I32Of8 => ValType::I32,
        Narrow::I32Of16 => ValType::I32,
        Narrow::I64Of8 => ValType::I64,
        Narrow::I64Of16 => ValType::I64,
        Narrow::I64Of32 => ValType::I64,
    }
}

/// A value in the place of operands, or a trap. Answers whether the thread is known to go on.
#[inline(always)]
fn finish(m: &mut Stacks, taken: usize, computed: Result<Value, Trap>) -> bool
    requires place { m.old.here.place + 1 < 2 ^ 32 }
    requires some { 0 < taken }
    requires enough { taken ≤ length m.old.words.items }
    ensures finishes { Finishes taken computed m.old m.new }
    ensures kept { result ≡ true → Keeps m.old m.new }
{
    match computed {
        Ok(value) => {
            replace_top(m, taken, word(value));
            true
        }
        Err(trap) => {
            m.stage = Stage::Ended(Outcome::Trapped(trap));
            false
        }
    }
}

/// A numeric instruction of one operand, which has a type. Answers whether the thread is known to go on.
#[inline(always)]
fn numeric_of_one(m: &mut Stacks, op: Numeric, t: ValType) -> bool
    requires can { CanStepSomewhere (NumericInstr op) m.old }
    requires types { operand_types op ≡ t ∷ [] }
    ensures steps { StepsAnywhere (NumericInstr op) m.old m.new }
    ensures kept { result ≡ true → Keeps m.old m.new }
{
    let a = typed_operand(m, t, 0);
    finish(m, 1, compute(op, a, Value::I64(0)))
}

/// A numeric instruction of two operands of a type. Answers whether the thread is known to go on.
#[inline(always)]
fn numeric_of_two(m: &mut Stacks, op: Numeric, t: ValType) -> bool
    requires can { CanStepSomewhere (NumericInstr op) m.old }
    requires types { operand_types op ≡ t ∷ t ∷ [] }
    ensures steps { StepsAnywhere (NumericInstr op) m.old m.new }
    ensures kept { result ≡ true → Keeps m.old m.new }
{
    let b = typed_operand(m, t, 0);
    let a = typed_operand(m, t, 1);
    finish(m, 2, compute(op, a, b))
}

/// A numeric instruction behind the constants. A division by zero, or a quotient that has too many bits, stops the
/// thread (WebAssembly Core 1.0, numeric instructions). It takes no memory. Answers whether the thread is known to go
/// on.
#[inline(always)]
pub fn numeric(m: &mut Stacks, op: Numeric) -> bool
    requires { CanStepSomewhere (NumericInstr op) m.old }
    ensures steps { StepsAnywhere (NumericInstr op) m.old m.new }
    ensures kept { result ≡ true → Keeps m.old m.new }
{
    match op {
        Numeric::Compare(ValType::I32, _) => numeric_of_two(m, op, ValType::I32),
        Numeric::Compare(ValType::I64, _) => numeric_of_two(m, op, ValType::I64),
        Numeric::Binary(ValType::I32, _) => numeric_of_two(m, op, ValType::I32),
        Numeric::Binary(ValType::I64, _) => numeric_of_two(m, op, ValType::I64),
        Numeric::IsZero(t) => numeric_of_one(m, op, t),
        Numeric::Unary(t, _) => numeric_of_one(m, op, t),
        Numeric::Wrap => numeric_of_one(m, op, ValType::I64),
        Numeric::Extend(_) => numeric_of_one(m, op, ValType::I32),
        Numeric::ExtendLow(narrow) => numeric_of_one(m, op, type_of_narrow(narrow)),
    }
}
