//! The check of one function.

ghost use Rattle.std.specs.Prelude.{◌≡◌, ◌<◌, ◌≤◌, ◌^◌, length, OnOk, IfErr};
ghost use Rattle.validator.specs.Context.{context_of};
ghost use Rattle.validator.specs.Table.{seq};
ghost use Rattle.validator.specs.Walk.{Checked};
ghost use Rattle.validator.specs.Faults.{FaultOf};

use crate::fault::{CheckFault, InstructionFault, ValidCause};
use crate::instruction::step;
use crate::locals::note_ends;
use crate::stacks::TypeStacks;
use crate::step_cause::StepCause;
use wasm_types::{Body, FuncType, Module, ValType};

/// Types a function's instructions from left to right. What stood in the stacks and the ends is given up.
pub(crate) fn check_function(
    stacks: &mut TypeStacks,
    ends: &mut Vec<u64>,
    module: &Module,
    kind: &FuncType,
    body: &Body,
) -> Result<(), CheckFault>
    requires short { length body.now.code < 2 ^ 32 }
    requires one_result { length kind.now.results ≤ 1 }
    ensures typed { OnOk result (Checked (context_of module.now kind.now body.now) body.now.code) }
    ensures fault { IfErr result (λ fault. FaultOf (context_of module.now kind.now body.now) body.now.code fault) }
{
    let code = body.code.as_slice();
    stacks.start(only_result(kind.results.as_slice()))?;
    note_ends(ends, body.locals.as_slice())?;
    let ends = ends.as_slice();
    for at in 0..code.len() {
        // Nothing stands behind the function's last `end`.
        if stacks.is_closed() {
            let cause = ValidCause::Instruction(code[at], StepCause::BehindEnd);
            return Err(CheckFault::IllTyped(at as u32, cause));
        }
        match step(stacks, module, kind, body, ends, code[at]) {
            Ok(()) => {}
            Err(InstructionFault::IllTyped(cause)) => {
                let cause = ValidCause::Instruction(code[at], cause);
                return Err(CheckFault::IllTyped(at as u32, cause));
            }
            Err(InstructionFault::NoMemory) => return Err(CheckFault::NoMemory),
        }
    }
    if !stacks.is_closed() {
        return Err(CheckFault::IllTyped(code.len() as u32, ValidCause::NoEnd));
    }
    Ok(())
}

// The result of a function, which has at most one.
fn only_result(results: &[ValType]) -> Option<ValType>
    requires { length results.now ≤ 1 }
    ensures { seq result ≡ results.now }
{
    match results {
        [] => None,
        [first, ..] => Some(*first),
    }
}
