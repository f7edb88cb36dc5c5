//! The step of a thread by the instruction at which it stands.

ghost use Rattle.std.specs.Prelude.{◌≡◌, true, IfOk, OnOk, OnErr, IsOk};
ghost use Rattle.wasm_types.specs.declared.instruction.Instr.TheVariants.{Plain as PlainInstr, Index as IndexInstr};
ghost use Rattle.thread_words.specs.Instance.{Instance as StepInstance};
ghost use Rattle.thread_words.specs.Words.{instance_at};
ghost use Rattle.thread_words.specs.Fields.{Keeps};
ghost use Rattle.thread_words.specs.Moves.{CanStep, Steps, CanStepIn, StepsIn, Unchanged};
ghost use Rattle.integer_machine.specs.Rooms.{IsNoAccess, HasRoomFor};

use thread_words::{
    Instance, Stacks, block, branch, branch_if, branch_table, call, call_indirect, constant,
    discard, end, end_first_arm, fence, global_get, global_set, local_get, local_set, local_tee,
    nop, numeric, return_now, select, unreachable,
};
use validator::Valid;
use wasm_types::{IndexOp, Instr, NoMemory, Plain};

/// Makes the step of an instruction of one byte that is not numeric, and answers whether the same function is known to
/// go on. It takes no memory.
fn plain_step(m: &mut Stacks, valid: &Valid, op: Plain) -> bool
    requires { CanStepIn valid.now (PlainInstr op) m.old }
    ensures steps { StepsIn valid.now (PlainInstr op) m.old m.new }
    ensures kept { result ≡ true → Keeps m.old m.new }
{
    match op {
        Plain::Unreachable => {
            unreachable(m);
            return false;
        }
        Plain::Nop => nop(m),
        Plain::Else => return end_first_arm(m, valid),
        Plain::End => return end(m, valid),
        Plain::Return => {
            return_now(m, valid);
            return false;
        }
        Plain::Discard => discard(m),
        Plain::Select => select(m),
    }
    true
}

/// Makes the step of an instruction with one index, and answers whether the same function is known to go on. Where
/// memory is wanted, all stays as it was.
#[inline(always)]
fn index_step(m: &mut Stacks, valid: &Valid, op: IndexOp, index: u32) -> Result<bool, NoMemory>
    requires { CanStepIn valid.now (IndexInstr op index) m.old }
    ensures ok { OnOk result (StepsIn valid.now (IndexInstr op index) m.old m.new) }
    ensures kept { IfOk result (λ same. same ≡ true → Keeps m.old m.new) }
    ensures err { OnErr result (Unchanged m.old m.new) }
    ensures room { (instance : StepInstance) → HasRoomFor valid.now instance (IndexInstr op index) m.old → IsOk result }
{
    match op {
        IndexOp::Branch => return Ok(branch(m, valid, index)),
        IndexOp::BranchIf => return Ok(branch_if(m, valid, index)),
        IndexOp::Call => {
            call(m, valid, index)?;
            return Ok(false);
        }
        IndexOp::LocalGet => local_get(m, index)?,
        IndexOp::LocalSet => local_set(m, index),
        IndexOp::LocalTee => local_tee(m, index),
        IndexOp::GlobalGet => global_get(m, index)?,
        IndexOp::GlobalSet => global_set(m, index),
    }
    Ok(true)
}

/// Makes the step of an instruction that touches no object, and answers whether the same function is known to go on.
/// Where memory is wanted, all stays as it was.
#[inline(always)]
pub(crate) fn step(
    m: &mut Stacks,
    valid: &Valid,
    instance: &Instance,
    instr: &Instr,
) -> Result<bool, NoMemory>
    requires no_access { IsNoAccess instr.now }
    requires can { CanStep valid.now (instance_at instance.now) instr.now m.old }
    ensures ok { OnOk result (Steps valid.now (instance_at instance.now) instr.now m.old m.new) }
    ensures kept { IfOk result (λ same. same ≡ true → Keeps m.old m.new) }
    ensures err { OnErr result (Unchanged m.old m.new) }
    ensures room { HasRoomFor valid.now (instance_at instance.now) instr.now m.old → IsOk result }
{
    match *instr {
        Instr::Numeric(op) => return Ok(numeric(m, op)),
        Instr::Index(op, index) => return index_step(m, valid, op, index),
        Instr::Plain(op) => return Ok(plain_step(m, valid, op)),
        Instr::BranchTable(range, default) => return Ok(branch_table(m, valid, range, default)),
        Instr::CallIndirect(index) => {
            call_indirect(m, valid, instance, index)?;
            return Ok(false);
        }
        Instr::Const(value) => constant(m, value)?,
        Instr::Block(kind, _) => block(m, valid, kind)?,
        Instr::Fence => fence(m),
        Instr::Memory(_, _) | Instr::Pages(_) | Instr::Atomic(_, _) => unreachable!(),
    }
    Ok(true)
}
