//! Blocks: how they begin and end.

ghost use Rattle.std.specs.Prelude.{◌≡◌, ℕ, ◌+◌, ◌-◌, ◌<◌, ◌≤◌, ◌^◌, length, true, OnOk, OnErr, IsOk};
ghost use Rattle.wasm_types.specs.declared.value.Value.TheVariants.{I32 as I32Value};
ghost use Rattle.wasm_types.specs.declared.value.ValType.TheVariants.{I32};
ghost use Rattle.wasm_types.specs.declared.instruction.Instr.TheVariants.{Plain};
ghost use Rattle.wasm_types.specs.declared.instruction.Plain.TheVariants.{Else, End};
ghost use Rattle.wasm_types.specs.declared.instruction.BlockKind.TheVariants.{If};
ghost use Rattle.thread_words.specs.Moves.{CanStepIn, StepsIn, CanOpen, Opens, Unchanged, HasRoom};
ghost use Rattle.thread_words.specs.Fields.{Keeps, Enters, Skips, Closes, IsOperand};

use crate::functions::{behind_end, target_at};
use crate::leaving::leave;
use crate::operands::i32_operand;
use crate::stacks::{Label, Stacks};
use validator::Valid;
use wasm_types::{BlockKind, NoMemory};

/// Takes operands, enters the block, and goes on behind a place.
fn enter(m: &mut Stacks, taken: usize, place: u32) -> Result<(), NoMemory>
    requires enough { taken ≤ length m.old.words.items }
    requires fits { place + 1 < 2 ^ 32 }
    ensures ok { OnOk result (Enters taken place m.old m.new) }
    ensures err { OnErr result (Unchanged m.old m.new) }
    ensures room { HasRoom 1 m.old → IsOk result }
{
    let height = m.words.len() - taken;
    m.labels.push(Label {
        opener: m.here.place,
        height: (height % 0x1_0000_0000) as u32,
    })?;
    m.words.truncate(height);
    m.here.place = place + 1;
    Ok(())
}

/// Takes operands, and goes on behind a place.
fn skip(m: &mut Stacks, taken: usize, place: u32)
    requires enough { taken ≤ length m.old.words.items }
    requires fits { place + 1 < 2 ^ 32 }
    ensures { Skips taken place m.old m.new }
{
    let height = m.words.len() - taken;
    m.words.truncate(height);
    m.here.place = place + 1;
}

/// Goes on behind the first arm of an `if`.
fn skip_first_arm(m: &mut Stacks, valid: &Valid) -> Result<(), NoMemory>
    requires can { CanOpen valid.now If m.old }
    requires zero { IsOperand I32 0 m.old (I32Value 0) }
    ensures ok { OnOk result (Opens valid.now If m.old m.new) }
    ensures kept { OnOk result (Keeps m.old m.new) }
    ensures err { OnErr result (Unchanged m.old m.new) }
    ensures room { HasRoom 1 m.old → IsOk result }
{
    match target_at(valid, m.here.function, m.here.place) {
        Some(target) => match target.else_at {
            Some(turn) => enter(m, 1, turn),
            None => {
                skip(m, 1, target.end);
                Ok(())
            }
        },
        None => unreachable!(),
    }
}

/// `if`.
fn choose(m: &mut Stacks, valid: &Valid) -> Result<(), NoMemory>
    requires { CanOpen valid.now If m.old }
    ensures ok { OnOk result (Opens valid.now If m.old m.new) }
    ensures kept { OnOk result (Keeps m.old m.new) }
    ensures err { OnErr result (Unchanged m.old m.new) }
    ensures room { HasRoom 1 m.old → IsOk result }
{
    if i32_operand(m, 0) == 0 {
        return skip_first_arm(m, valid);
    }
    let place = m.here.place;
    enter(m, 1, place)
}

/// `block`, `loop` and `if`.
pub fn block(m: &mut Stacks, valid: &Valid, kind: BlockKind) -> Result<(), NoMemory>
    requires { CanOpen valid.now kind m.old }
    ensures ok { OnOk result (Opens valid.now kind m.old m.new) }
    ensures kept { OnOk result (Keeps m.old m.new) }
    ensures err { OnErr result (Unchanged m.old m.new) }
    ensures room { HasRoom 1 m.old → IsOk result }
{
    let place = m.here.place;
    match kind {
        BlockKind::Block => enter(m, 0, place),
        BlockKind::Loop => enter(m, 0, place),
        BlockKind::If => choose(m, valid),
    }
}

/// Ends the innermost block, and goes on at a place.
fn close(m: &mut Stacks, place: u32)
    ensures { Closes place m.old m.new }
{
    let _ = m.labels.pop();
    m.here.place = place;
}

/// `end`, of a block or of the function, which then returns. It takes no memory. Answers whether the same function is
/// known to go on.
pub fn end(m: &mut Stacks, valid: &Valid) -> bool
    requires { CanStepIn valid.now (Plain End) m.old }
    ensures steps { StepsIn valid.now (Plain End) m.old m.new }
    ensures kept { result ≡ true → Keeps m.old m.new }
{
    if m.labels.len() == m.here.labels {
        leave(m, valid);
        return false;
    }
    let place = m.here.place + 1;
    close(m, place);
    true
}

/// `else` where the first arm ends: the whole `if` ends. It takes no memory. Answers whether the same function is known
/// to go on.
pub fn end_first_arm(m: &mut Stacks, valid: &Valid) -> bool
    requires { CanStepIn valid.now (Plain Else) m.old }
    ensures steps { StepsIn valid.now (Plain Else) m.old m.new }
    ensures kept { result ≡ true → Keeps m.old m.new }
{
    if m.labels.len() == m.here.labels {
        leave(m, valid);
        return false;
    }
    let place = behind_end(valid, m.here.function, m.here.place);
    close(m, place);
    true
}
