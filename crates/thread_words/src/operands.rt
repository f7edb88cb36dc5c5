//! Words that come onto the stack and leave it.

ghost use Rattle.std.specs.Prelude.{◌≡◌, ℕ, ◌+◌, ◌-◌, ◌<◌, ◌≤◌, ◌^◌, List, [], ◌∷◌, ◌++◌, length, OnOk, OnErr, IsOk, take, drop, get_or, slice_set, vec_capacity};
ghost use Rattle.wasm_types.specs.declared.value.ValType.TheVariants.{I32};
ghost use Rattle.thread_words.specs.Effect.{operand as operand_bits};
ghost use Rattle.wasm_types.specs.Values.{bits_of, value_of};
ghost use Rattle.thread_words.specs.declared.stacks.Stacks.{Stacks};
ghost use Rattle.thread_words.specs.Accesses.{Holds, HasOperands};
ghost use Rattle.thread_words.specs.Fields.{Puts, one_if, HasOperand, IsOperand};
ghost use Rattle.thread_words.specs.Moves.{Unchanged, HasWordLeft};
ghost use Rattle.integer_ops.specs.Ranges.{IsInRange};

use crate::stacks::Stacks;
use wasm_types::{NoMemory, ValType, Value};

/// The word at a depth, of which the topmost has depth 0.
#[inline(always)]
pub(crate) fn operand(words: &[u64], depth: usize) -> u64
    requires { depth < length words.now }
    ensures { result ≡ get_or words.now (length words.now - 1 - depth) result }
{
    words[words.len() - 1 - depth]
}

/// Goes on to the next instruction.
pub(crate) fn advance(m: &mut Stacks)
    requires { m.old.here.place + 1 < 2 ^ 32 }
    ensures { Puts 0 [] m.old m.new }
{
    m.here.place += 1;
}

/// Gives a word, and goes on.
pub(crate) fn push(m: &mut Stacks, word: u64) -> Result<(), NoMemory>
    requires { m.old.here.place + 1 < 2 ^ 32 }
    ensures ok { OnOk result (Puts 0 (word ∷ []) m.old m.new) }
    ensures err { OnErr result (Unchanged m.old m.new) }
    ensures room { HasWordLeft m.old → IsOk result }
{
    m.words.push(word)?;
    m.here.place += 1;
    Ok(())
}

/// Takes words, and goes on.
pub(crate) fn drop_top(m: &mut Stacks, taken: usize)
    requires place { m.old.here.place + 1 < 2 ^ 32 }
    requires enough { taken ≤ length m.old.words.items }
    ensures { Puts taken [] m.old m.new }
{
    let left = m.words.len() - taken;
    m.words.truncate(left);
    m.here.place += 1;
}

/// Takes words, of which there is one at least, gives a word, and goes on.
pub(crate) fn replace_top(m: &mut Stacks, taken: usize, word: u64)
    requires place { m.old.here.place + 1 < 2 ^ 32 }
    requires some { 0 < taken }
    requires enough { taken ≤ length m.old.words.items }
    ensures { Puts taken (word ∷ []) m.old m.new }
{
    let left = m.words.len() - taken;
    m.words.truncate(left + 1);
    m.words[left] = word;
    m.here.place += 1;
}

/// Writes a word.
pub(crate) fn write(words: &mut Vec<u64>, at: usize, word: u64)
    requires { at < length words.old.items }
    ensures items { words.new.items ≡ slice_set words.old.items at word }
    ensures capacity { vec_capacity words.new ≡ vec_capacity words.old }
{
    words[at] = word;
}

/// The topmost word goes to a place below it, too.
pub(crate) fn store(words: &mut Vec<u64>, at: usize)
    requires { at < length words.old.items }
    ensures items { words.new.items ≡ slice_set words.old.items at (get_or words.old.items (length words.old.items - 1) 0) }
    ensures capacity { vec_capacity words.new ≡ vec_capacity words.old }
{
    let top = operand(words, 0);
    write(words, at, top);
}

/// The topmost word stays where `keep` is true, and what is below it goes down to a height.
#[inline(always)]
pub(crate) fn cut(words: &mut Vec<u64>, height: usize, keep: bool)
    requires { height + one_if keep ≤ length words.old.items }
    ensures items { words.new.items ≡ take height words.old.items ++ drop (length words.old.items - one_if keep) words.old.items }
    ensures capacity { vec_capacity words.new ≡ vec_capacity words.old }
{
    if keep {
        let word = operand(words, 0);
        words.truncate(height + 1);
        words[height] = word;
    } else {
        words.truncate(height);
    }
}

/// The value of a type whose bits are a word.
pub fn value(t: ValType, word: u64) -> Value
    requires { t ≡ I32 → word < 2 ^ 32 }
    ensures { result ≡ value_of t word }
{
    match t {
        ValType::I32 => Value::I32(word as u32),
        ValType::I64 => Value::I64(word),
    }
}

/// The bits of a value as a word.
#[inline(always)]
pub fn word(value: Value) -> u64
    ensures bits { result ≡ bits_of value }
    ensures range { IsInRange value }
{
    value.bits()
}

/// The operand of a type at a depth, of which the topmost has depth 0.
pub(crate) fn typed_operand(m: &Stacks, t: ValType, depth: usize) -> Value
    requires { HasOperand t depth m.now }
    ensures { IsOperand t depth m.now result }
{
    value(t, operand(&m.words, depth))
}

/// The bits of an i32 operand at a depth.
pub(crate) fn i32_operand(m: &Stacks, depth: usize) -> u32
    requires { HasOperand I32 depth m.now }
    ensures { IsOperand I32 depth m.now (Value.I32 result) }
{
    operand(&m.words, depth) as u32
}

/// The bits of an i32 operand that is on top of these words.
#[inline(always)]
pub(crate) fn i32_on_top(words: &[u64]) -> u32
    requires { (m : Stacks) × (words.now ≡ m.words.items) × HasOperand I32 0 m }
    ensures { (m : Stacks) → words.now ≡ m.words.items → IsOperand I32 0 m (Value.I32 result) }
{
    operand(words, 0) as u32
}

/// The bits of the operand of an access that has one, an i32.
pub(crate) fn one_operand(m: &Stacks) -> u32
    requires { HasOperands (I32 ∷ []) m.now }
    ensures { (vs : List Value) → Holds (I32 ∷ []) vs m.now → result ≡ operand_bits 0 vs }
{
    operand(&m.words, 0) as u32
}

/// The bits of the operands of an access that has two, the first of which is an i32.
pub(crate) fn two_operands(m: &Stacks) -> (u32, u64)
    requires { (t : ValType) × HasOperands (I32 ∷ t ∷ []) m.now }
    ensures first { (t : ValType) (vs : List Value) → Holds (I32 ∷ t ∷ []) vs m.now → result.0 ≡ operand_bits 0 vs }
    ensures second { (t : ValType) (vs : List Value) → Holds (I32 ∷ t ∷ []) vs m.now → result.1 ≡ operand_bits 1 vs }
{
    (operand(&m.words, 1) as u32, operand(&m.words, 0))
}

/// The bits of the operands of an access that has two, both of them i32.
pub(crate) fn two_i32_operands(m: &Stacks) -> (u32, u32)
    requires { HasOperands (I32 ∷ I32 ∷ []) m.now }
    ensures first { (vs : List Value) → Holds (I32 ∷ I32 ∷ []) vs m.now → result.0 ≡ operand_bits 0 vs }
    ensures second { (vs : List Value) → Holds (I32 ∷ I32 ∷ []) vs m.now → result.1 ≡ operand_bits 1 vs }
{
    (operand(&m.words, 1) as u32, operand(&m.words, 0) as u32)
}

/// The bits of the operands of an access that has three, the first of which is an i32.
pub(crate) fn three_operands(m: &Stacks) -> (u32, u64, u64)
    requires { (t u : ValType) × HasOperands (I32 ∷ t ∷ u ∷ []) m.now }
    ensures first { (t u : ValType) (vs : List Value) → Holds (I32 ∷ t ∷ u ∷ []) vs m.now → result.0 ≡ operand_bits 0 vs }
    ensures second { (t u : ValType) (vs : List Value) → Holds (I32 ∷ t ∷ u ∷ []) vs m.now → result.1 ≡ operand_bits 1 vs }
    ensures third { (t u : ValType) (vs : List Value) → Holds (I32 ∷ t ∷ u ∷ []) vs m.now → result.2 ≡ operand_bits 2 vs }
{
    (
        operand(&m.words, 2) as u32,
        operand(&m.words, 1),
        operand(&m.words, 0),
    )
}
