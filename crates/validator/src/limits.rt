//! The limits of modules.

ghost use Rattle.std.specs.Prelude.{◌≡◌, ◌+◌, true, map, length, min, nat_le, is_ok};
ghost use Rattle.std.specs.Bool.{Decides};
ghost use Rattle.std.specs.List.{list_all};
ghost use Rattle.wasm_types.specs.Limits.{Within, Fit, params_of};
ghost use Rattle.wasm_types.specs.Locals.{locals_of};
ghost use Rattle.validator.specs.Module.{rules};

use crate::module_cause::{ModuleCause, numbered};
use wasm_types::{FuncType, Import, Limits, LocalGroup, MemoryType, Module};

/// Tests whether a module that keeps the rules keeps the limits: at most 1,048,576 bytes, 256 pages and 4,096 elements
/// at first, and 1,024 parameters and locals of a function. The first one that it passes.
pub(crate) fn keeps_limits(module: &Module) -> Result<(), ModuleCause>
    requires { rules module.now ≡ true }
    ensures { Decides (is_ok result) (Within module.now) }
{
    let bytes = module.source.as_slice().len();
    if bytes > 1_048_576 {
        return Err(ModuleCause::Bytes(bytes));
    }
    are_imports_within(module.imports.as_slice())?;
    are_tables_within(module.tables.as_slice())?;
    are_memories_within(module.memories.as_slice())?;
    are_functions_within(module)
}

fn are_imports_within(imports: &[Import]) -> Result<(), ModuleCause>
    ensures { is_ok result ≡ list_all (λ i. nat_le i.memory.limits.minimum 256) imports.now }
{
    for import in imports {
        let minimum = import.memory.limits.minimum;
        if minimum > 256 {
            return Err(ModuleCause::FirstPages(minimum));
        }
    }
    Ok(())
}

fn are_tables_within(tables: &[Limits]) -> Result<(), ModuleCause>
    ensures { is_ok result ≡ list_all (λ l. nat_le l.minimum 4096) tables.now }
{
    for table in tables {
        if table.minimum > 4_096 {
            return Err(ModuleCause::FirstElements(table.minimum));
        }
    }
    Ok(())
}

fn are_memories_within(memories: &[MemoryType]) -> Result<(), ModuleCause>
    ensures { is_ok result ≡ list_all (λ y. nat_le y.limits.minimum 256) memories.now }
{
    for memory in memories {
        let minimum = memory.limits.minimum;
        if minimum > 256 {
            return Err(ModuleCause::FirstPages(minimum));
        }
    }
    Ok(())
}

// Whether each function has at most 1,024 parameters and locals.
fn are_functions_within(module: &Module) -> Result<(), ModuleCause>
    requires { rules module.now ≡ true }
    ensures { Decides (is_ok result) (Fit 1024 (map (params_of module.now.types) module.now.functions) module.now.bodies) }
{
    let functions = module.functions.as_slice();
    let bodies = module.bodies.as_slice();
    for function in 0..bodies.len() {
        let params = count_params(module.types.as_slice(), functions[function]);
        let count = count_locals(params, bodies[function].locals.as_slice());
        if count > 1_024 {
            return Err(ModuleCause::Locals {
                function: numbered(function),
                count,
            });
        }
    }
    Ok(())
}

// How many parameters a type has; none where there is no such type.
fn count_params(types: &[FuncType], index: u32) -> usize
    ensures { result ≡ params_of types.now index }
{
    match types.get(index as usize) {
        None => 0,
        Some(kind) => kind.params.as_slice().len(),
    }
}

// How many so many parameters and the locals of these groups are, or the greatest `u64` where there are more.
fn count_locals(params: usize, groups: &[LocalGroup]) -> u64
    ensures { result ≡ min (params + length (locals_of groups.now)) 18446744073709551615 }
{
    let mut count = params as u64;
    for group in groups {
        count = count.saturating_add(u64::from(group.count));
    }
    count
}
