//! The globals that functions set.

ghost use Rattle.std.specs.Prelude.{◌≡◌, ◌<◌, ◌||◌, ◌==◌, ℕ, OnOk, IfOk, length, false, slice_index_or};
ghost use Rattle.std.specs.List.{list_any};
ghost use Rattle.thread_plan.specs.Globals.{sets, is_set};

use crate::global_use::{GlobalUse, use_of};
use std::alloc::Global;
use wasm_types::{Instr, Module, NoMemory};

/// Marks a global, if it is there.
fn mark(marks: &mut Vec<bool>, global: u32)
    ensures count { length marks.new.items ≡ length marks.old.items }
    ensures marked { (g : ℕ) → g < length marks.old.items → slice_index_or marks.new.items g false ≡ (slice_index_or marks.old.items g false || (global == g)) }
{
    if let Some(slot) = marks.get_mut(global as usize) {
        *slot = true;
    }
}

/// Marks the globals that some instruction sets.
fn mark_sets(marks: &mut Vec<bool>, code: &[Instr])
    ensures count { length marks.new.items ≡ length marks.old.items }
    ensures marked { (g : ℕ) → g < length marks.old.items → slice_index_or marks.new.items g false ≡ (slice_index_or marks.old.items g false || list_any (sets g) code.now) }
{
    for instr in code {
        if let GlobalUse::Sets(global) = use_of(*instr) {
            mark(marks, global);
        }
    }
}

/// Of each global of a module, whether some function sets it.
pub(crate) fn set_globals(alloc: Global, module: &Module) -> Result<Vec<bool>, NoMemory>
    ensures count { IfOk result (λ marks. length marks.items ≡ length «module».now.globals) }
    ensures marked { IfOk result (λ marks. (g : ℕ) → g < length «module».now.globals → slice_index_or marks.items g false ≡ is_set «module».now g) }
{
    let mut marks = vec![in alloc; false; module.globals.as_slice().len()]?;
    for body in module.bodies.as_slice() {
        mark_sets(&mut marks, body.code.as_slice());
    }
    Ok(marks)
}
