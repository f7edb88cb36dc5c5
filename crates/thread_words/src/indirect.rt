//! Calls through the table.

ghost use Rattle.std.specs.Prelude.{◌≡◌, ℕ, List, Some, slice_get, OnOk, OnErr, IsOk};
ghost use Rattle.wasm_types.specs.declared.modules.FuncType.{FuncType};
ghost use Rattle.wasm_types.specs.declared.instruction.Instr.TheVariants.{CallIndirect};
ghost use Rattle.validator.specs.Table.{same_types};
ghost use Rattle.thread_words.specs.Step.{same_kind};
ghost use Rattle.thread_words.specs.Words.{instance_at};
ghost use Rattle.thread_words.specs.Calling.{HasTypes, HasRoomThrough};
ghost use Rattle.thread_words.specs.Moves.{CanStep, Steps, Unchanged};

use crate::calls::call_function;
use crate::instance::Instance;
use crate::operands::i32_operand;
use crate::stacks::{Stacks, Stage};
use validator::Valid;
use wasm_types::{NoMemory, Outcome, Trap, ValType};

/// Whether two rows of types are the same.
fn are_same(first: &[ValType], second: &[ValType]) -> bool
    ensures { result ≡ same_types first.now second.now }
{
    if first.len() != second.len() {
        return false;
    }
    for i in 0..first.len() {
        if !first[i].is_same(second[i]) {
            return false;
        }
    }
    true
}

/// Whether a function has the type of an index.
fn has_type(valid: &Valid, function: u32, index: u32) -> bool
    requires { (its : FuncType) × (kind : FuncType) × HasTypes valid.now function index its kind }
    ensures { (its kind : FuncType) → HasTypes valid.now function index its kind → result ≡ same_kind its kind }
{
    let module = valid.module();
    let types = module.types.as_slice();
    let its = &types[module.functions.as_slice()[function as usize] as usize];
    let kind = &types[index as usize];
    are_same(its.params.as_slice(), kind.params.as_slice())
        && are_same(its.results.as_slice(), kind.results.as_slice())
}

/// The element of the table at an index.
fn element_at(instance: &Instance, at: u32) -> Option<Option<u32>>
    ensures { result ≡ slice_get instance.now.table.items at }
{
    instance.table.as_slice().get(at as usize).copied()
}

/// `call_indirect`, with the index of its type. An element that is not there, that is empty or whose function has
/// another type stops the thread.
#[inline(never)]
pub fn call_indirect(
    m: &mut Stacks,
    valid: &Valid,
    instance: &Instance,
    index: u32,
) -> Result<(), NoMemory>
    requires { CanStep valid.now (instance_at instance.now) (CallIndirect index) m.old }
    ensures ok { OnOk result (Steps valid.now (instance_at instance.now) (CallIndirect index) m.old m.new) }
    ensures err { OnErr result (Unchanged m.old m.new) }
    ensures room { HasRoomThrough valid.now (instance_at instance.now) m.old → IsOk result }
{
    let at = i32_operand(m, 0);
    match element_at(instance, at) {
        None => m.stage = Stage::Ended(Outcome::Trapped(Trap::UndefinedElement)),
        Some(element) => match element {
            None => m.stage = Stage::Ended(Outcome::Trapped(Trap::UninitializedElement)),
            Some(function) => {
                if has_type(valid, function, index) {
                    return call_function(m, valid, function, 1);
                }
                m.stage = Stage::Ended(Outcome::Trapped(Trap::TypeMismatch));
            }
        },
    }
    Ok(())
}
