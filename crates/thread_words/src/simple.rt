//! Instructions that stay in their block, but for numeric ones.

ghost use Rattle.std.specs.Prelude.{◌≡◌, OnOk, OnErr, IsOk};
ghost use Rattle.wasm_types.specs.declared.instruction.Instr.TheVariants.{Const, Plain, Fence};
ghost use Rattle.wasm_types.specs.declared.instruction.Plain.TheVariants.{Unreachable, Nop, Discard, Select};
ghost use Rattle.thread_words.specs.Fields.{Keeps};
ghost use Rattle.thread_words.specs.Moves.{CanStepSomewhere, StepsAnywhere, Unchanged, HasRoom};

use crate::operands::{advance, drop_top, i32_operand, operand, push, replace_top, word};
use crate::stacks::{Stacks, Stage};
use wasm_types::{NoMemory, Outcome, Trap, Value};

/// `i32.const` and `i64.const`.
pub fn constant(m: &mut Stacks, value: Value) -> Result<(), NoMemory>
    requires { CanStepSomewhere (Const value) m.old }
    ensures ok { OnOk result (StepsAnywhere (Const value) m.old m.new) }
    ensures kept { OnOk result (Keeps m.old m.new) }
    ensures err { OnErr result (Unchanged m.old m.new) }
    ensures room { HasRoom 1 m.old → IsOk result }
{
    push(m, word(value))
}

/// `drop`. It takes no memory.
pub fn discard(m: &mut Stacks)
    requires { CanStepSomewhere (Plain Discard) m.old }
    ensures steps { StepsAnywhere (Plain Discard) m.old m.new }
    ensures kept { Keeps m.old m.new }
{
    drop_top(m, 1);
}

/// `select`. It takes no memory.
pub fn select(m: &mut Stacks)
    requires { CanStepSomewhere (Plain Select) m.old }
    ensures steps { StepsAnywhere (Plain Select) m.old m.new }
    ensures kept { Keeps m.old m.new }
{
    let depth = if i32_operand(m, 0) == 0 { 1 } else { 2 };
    let chosen = operand(&m.words, depth);
    replace_top(m, 3, chosen);
}

/// `nop`. It takes no memory.
pub fn nop(m: &mut Stacks)
    requires { CanStepSomewhere (Plain Nop) m.old }
    ensures steps { StepsAnywhere (Plain Nop) m.old m.new }
    ensures kept { Keeps m.old m.new }
{
    advance(m);
}

/// `atomic.fence`. It takes no memory.
pub fn fence(m: &mut Stacks)
    requires { CanStepSomewhere Fence m.old }
    ensures steps { StepsAnywhere Fence m.old m.new }
    ensures kept { Keeps m.old m.new }
{
    advance(m);
}

/// `unreachable`, which stops the thread. It takes no memory.
pub fn unreachable(m: &mut Stacks)
    requires { CanStepSomewhere (Plain Unreachable) m.old }
    ensures { StepsAnywhere (Plain Unreachable) m.old m.new }
{
    m.stage = Stage::Ended(Outcome::Trapped(Trap::Unreachable));
}
