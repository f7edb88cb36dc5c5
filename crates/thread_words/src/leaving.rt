//! Returns.

ghost use Rattle.std.specs.Prelude.{◌≡◌, List, length};
ghost use Rattle.wasm_types.specs.declared.instruction.Instr.TheVariants.{Plain};
ghost use Rattle.wasm_types.specs.declared.instruction.Plain.TheVariants.{Return};
ghost use Rattle.thread_words.specs.Fields.{HasResult, IsResult, is_still};
ghost use Rattle.thread_words.specs.Leaving.{CanLeave, Leaves};
ghost use Rattle.thread_words.specs.Moves.{CanStepIn, StepsIn};

use crate::functions::result_of_function;
use crate::operands::{cut, typed_operand};
use crate::stacks::{Level, Stacks, Stage};
use validator::Valid;
use wasm_types::{Outcome, ValType, Value};

/// The result on top, if there is one.
fn result_on_top(m: &Stacks, result_type: Option<ValType>) -> Option<Value>
    requires { HasResult result_type m.now }
    ensures { IsResult result_type m.now result }
{
    match result_type {
        Some(t) => Some(typed_operand(m, t, 0)),
        None => None,
    }
}

/// Whether the start function still runs, where these callers are left.
#[inline(always)]
pub(crate) fn still_starts(starting: bool, callers: &[Level]) -> bool
    ensures { result ≡ is_still starting callers.now }
{
    match callers {
        [] => false,
        _ => starting,
    }
}

/// The function on top returns. Where it has no caller, the thread is done.
#[inline(never)]
pub(crate) fn leave(m: &mut Stacks, valid: &Valid)
    requires { CanLeave valid.now m.old }
    ensures { Leaves valid.now m.old m.new }
{
    let result = result_of_function(valid, m.here.function);
    let Some(level) = m.callers.pop() else {
        m.stage = Stage::Ended(Outcome::Done(result_on_top(m, result)));
        return;
    };
    let left = m.here;
    m.here = level;
    cut(&mut m.words, left.words, result.is_some());
    m.labels.truncate(left.labels);
    m.starting = still_starts(m.starting, &m.callers);
}

/// `return`. It takes no memory.
pub fn return_now(m: &mut Stacks, valid: &Valid)
    requires { CanStepIn valid.now (Plain Return) m.old }
    ensures { StepsIn valid.now (Plain Return) m.old m.new }
{
    leave(m, valid);
}
